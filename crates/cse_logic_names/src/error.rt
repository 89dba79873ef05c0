//! Why logic, a message file or an order file is refused.

ghost use Rattle.std.specs.Prelude.{◌≡◌};
ghost use Rattle.cse_logic_names.specs.Fault.{error_of};

use cse_fault_numbers::WANT_OF_MEMORY;
use thiserror::Error;

/// The fault that is told, with its line and column, both counted from 1: of a message file or an order file that of its
/// first faulty line; of logic the one with the least token, and of these the one with the least number.
///
/// | number | cause |
/// |---|---|
/// | 30 | a line of a message file that is no message, comment or empty line |
/// | 35 | the number of a message is not from 1 to 999,999,999 |
/// | 40 | a name that is unknown, stands twice, or means another sort than its place wants; an unknown message number; a line of an order file that names no record, or a record that an earlier line names |
/// | 41 | an opaque item, or a set of one |
/// | 42 | a set that is partial |
/// | 43 | an id item is assigned |
/// | 44 | a text where a number stands, or the other way round; the count of subscripts or arguments; a size out of its range |
/// | 45 | a function is used before its end |
/// | 46 | `/` outside `int`, or not topmost in it |
/// | 47 | the variable of an open loop is assigned, here or in a function that is called |
/// | 48 | a message's placeholders and its arguments differ in number |
/// | 49 | a wrong place: `break` or `next` outside a loop; an item, or `curocc`, without an occurrence; what needs a case, in the application's procedure; a set without rows as a dimension; a procedure of an id item |
/// | 90 | want of memory; line and column are 0 |
#[derive(Clone, Copy, Debug, PartialEq, Eq, Error)]
#[error("fault {number} at line {line} column {column}")]
pub struct TypeError {
    /// The number of the fault.
    pub number: u8,
    /// Its line, from 1; of 90 it is 0.
    pub line: u64,
    /// Its column, from 1; of 90 it is 0.
    pub column: u64,
}

/// Why a line was not taken.
#[derive(Clone, Copy)]
pub enum FileStop {
    Memory,
    /// The number of the line's fault.
    Fault(u8),
}

/// The error at a line of this number.
pub fn error_at(stop: FileStop, line: u64) -> TypeError
    ensures { result ≡ error_of stop line }
{
    match stop {
        FileStop::Memory => TypeError {
            number: WANT_OF_MEMORY,
            line: 0,
            column: 0,
        },
        FileStop::Fault(number) => TypeError {
            number,
            line,
            column: 1,
        },
    }
}
