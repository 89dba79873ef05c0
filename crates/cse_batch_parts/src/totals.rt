//! What a run over a data file counts, and what stops it.

use thiserror::Error;

/// What a run counts.
#[derive(Clone, Copy, PartialEq, Eq)]
pub struct Totals {
    /// The runs of lines that have a line of a known record.
    pub cases: u64,
    /// All lines.
    pub lines: u64,
    /// The lines of no known record, and those past the most occurrences of theirs.
    pub unseen: u64,
}

/// What stops a run, by its number (own): 20 to 22 a line of the data, 70 the input, 71 an output, 90 want
/// of memory.
#[derive(Clone, Copy, Debug, PartialEq, Eq, Error)]
#[error("fault {number} at line {line}")]
pub struct RunFault {
    pub number: u8,
    /// The line in the data file, counted from 1; 0 from 70 on.
    pub line: u64,
}
