//! The lines of a run, with their records and columns.

ghost use Rattle.std.specs.Prelude.{true, ◌≡◌, ◌<◌, [], IfNone, IfSome, length, slice_index_or};
ghost use Rattle.cse_case.specs.Bytes.{columns_lent};
ghost use Rattle.cse_case.specs.Columns.{no_line};
ghost use Rattle.cse_office.specs.Changes.{columns_at, is_same_record};

use cse_case::{Columns, Lines, Run};
use std::marker::Model;

/// The lines of a run: one at least.
pub struct RunLines {
    kept: Box<Lines>,
}

impl Model for RunLines {
    ghost use Rattle.std.specs.Prelude.{List};
    ghost use Rattle.cse_case.specs.Columns.{LineText};
    ghost use Rattle.cse_case.specs.Laid.{IsLaid, laid_lines};

    ghost Value = { List LineText };

    ghost view = { λ r. laid_lines r.kept.value.columns r.kept.value.lines.items };

    ghost invariant = { λ r. IsLaid 0 r.kept.value.columns r.kept.value.lines.items };
}

impl Drop for RunLines {
    fn drop(self) {
        let RunLines { kept: _kept } = self;
    }
}

impl RunLines {
    /// The lines of a run, if it has one.
    pub(crate) fn of(run: Run) -> Option<RunLines>
        ensures lines { IfSome result (λ lines. lines ≡ run.lines) }
        ensures none { IfNone result (run.lines ≡ []) }
    {
        let (kept, _marked, _first_line) = run.into_parts();
        match kept {
            Some(kept) => Some(RunLines { kept }),
            None => None,
        }
    }

    /// How many there are.
    pub fn len(&self) -> usize
        ensures { result ≡ length self.now }
    {
        self.kept.lines.len()
    }

    /// The record of a line, by its place from 0.
    pub fn record(&self, place: usize) -> Option<u16>
        requires { place < length self.now }
        ensures { result ≡ (slice_index_or self.now place no_line).record_number }
    {
        self.kept.lines[place].record_number
    }

    /// Its columns.
    pub fn columns(&self, place: usize) -> Columns<'_>
        requires { place < length self.now }
        ensures { columns_lent result ≡ columns_at self.now place }
    {
        let line = self.kept.lines[place];
        self.kept.columns.columns().part(line.first, line.width)
    }

    /// The memory of the lines, for those of a later run.
    pub(crate) fn into_room(self) -> Box<Lines> {
        let RunLines { kept } = self;
        kept
    }
}

/// Whether lines are of one record.
pub fn is_same_record(before: Option<u16>, after: Option<u16>) -> bool
    ensures is { result ≡ is_same_record before after }
    ensures same { result ≡ true → before ≡ after }
{
    match (before, after) {
        (None, None) => true,
        (Some(one), Some(other)) => one == other,
        _ => false,
    }
}
