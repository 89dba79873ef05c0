//! The law of lines that no edit touched.

ghost use Rattle.cse_case.specs.Untouched.{UntouchedLineStays};

/// A line of the file that was read and not set is written as it came, byte for byte, whatever was set in
/// other lines of its run: the mark, where it stands before the line, its columns, and its own end.
pub fn untouched_line_stays()
    ensures { UntouchedLineStays }
{}
