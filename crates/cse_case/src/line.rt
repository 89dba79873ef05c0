//! A line of a run, and how it ends.

ghost use Rattle.std.specs.Prelude.{◌≡◌};
ghost use Rattle.cse_case.specs.Line.{end_bytes};

/// How a line ends.
#[derive(Clone, Copy)]
pub enum Ending {
    /// At the end of the file.
    FileEnd,
    /// With LF.
    Feed,
    /// With CRLF.
    ReturnFeed,
}

impl Ending {
    /// Its bytes.
    pub fn bytes(self) -> &'static [u8]
        ensures { result.now ≡ end_bytes self }
    {
        match self {
            Ending::FileEnd => b"",
            Ending::Feed => b"\n",
            Ending::ReturnFeed => b"\r\n",
        }
    }
}

/// A line of a run. Its columns are `width` columns of the run, from the place `first` on: those that
/// the line had in the file, `len` of them, and blanks behind them.
#[derive(Clone, Copy)]
pub struct Line {
    pub first: usize,
    pub width: usize,
    pub len: usize,
    pub ending: Ending,
    /// The number of the record whose type stands in the line.
    pub record_number: Option<u16>,
}
