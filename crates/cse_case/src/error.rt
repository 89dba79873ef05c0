//! What a data file can be refused by.

use thiserror::Error;

/// A fault of a data file, by its number (own):
///
/// - 20: a line that isn't UTF-8;
/// - 21: a line above 262,144 bytes or 65,536 columns;
/// - 22: line 10,001 of its run;
/// - 70: a read failed, or 2^40 reads gave bytes and the end isn't read;
/// - 90: want of memory.
#[derive(Clone, Copy, Debug, PartialEq, Eq, Error)]
#[error("data fault {number} at line {line}")]
pub struct DataError {
    pub number: u8,
    /// The line in the file, counted from 1; 0 for 70 and 90.
    pub line: u64,
}
