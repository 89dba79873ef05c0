//! Why a text is no deck text of a program.

ghost use Rattle.std.specs.Prelude.{◌≡◌};
ghost use Rattle.cse_decks.specs.Loading.{error_of};

use cse_fault_numbers::WANT_OF_MEMORY;
use thiserror::Error;

/// The first line that is wrong, counted from 1, and what is wrong with it.
///
/// 50 it is no heading, ARRAY or END line where one is due, or something follows END; 51 a value is
/// unreadable or lacks; 52 the sizes are others than the program's; 53 the name is unknown, the array is
/// not saved, or it came before; 90 want of memory (line 0). A line that lacks since the text ends counts
/// as the next line; it, and a last line without its LF, is 51 where a cell is due, else 50.
#[derive(Clone, Copy, Debug, PartialEq, Eq, Error)]
#[error("fault {number} in line {line}")]
pub struct DeckError {
    pub number: u8,
    pub line: u64,
}

/// Why a line was not read.
#[derive(Clone, Copy)]
pub enum DeckStop {
    Memory,
    /// The number of the line's fault.
    Fault(u8),
}

/// The error at a line of this number.
pub fn error_at(stop: DeckStop, line: u64) -> DeckError
    ensures { result ≡ error_of stop line }
{
    match stop {
        DeckStop::Memory => DeckError {
            number: WANT_OF_MEMORY,
            line: 0,
        },
        DeckStop::Fault(number) => DeckError { number, line },
    }
}
