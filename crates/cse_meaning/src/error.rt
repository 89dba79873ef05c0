//! Why there is no image.

ghost use Rattle.std.specs.Prelude.{◌≡◌};
ghost use Rattle.cse_meaning.specs.Fault.{of_syntax, of_type, at_no_place};

use cse_compile::CompileError;
use cse_fault_numbers::UNREADABLE;
use cse_syntax::SyntaxError;
use cse_types::TypeError;
use thiserror::Error;

/// Why there is no image: the fault of the message file, else of the order file, else of the logic as text, else of its
/// names and kinds, else of its program. Line and column count from 1; 0 means none.
///
/// | number | cause |
/// |---|---|
/// | 30, 35 | a line of the message file |
/// | 40 | a line of the order file |
/// | 30 | the logic isn't UTF-8; line and column are 0 |
/// | 30 to 35 | the logic is no source text: see `cse_syntax::SyntaxError` |
/// | 40 to 49 | the logic breaks a rule of names and kinds: see `cse_types::TypeError` |
/// | 64, 67 | there is no program of the logic within the limits: see `cse_compile::CompileError`; line and column are 0 |
/// | 90 | want of memory; line and column are 0 |
#[derive(Clone, Copy, Debug, PartialEq, Eq, Error)]
#[error("fault {number} at line {line} column {column}")]
pub struct BuildFault {
    pub number: u8,
    pub line: u64,
    pub column: u64,
}

/// Logic that isn't UTF-8.
pub const NO_TEXT: BuildFault = BuildFault {
    number: UNREADABLE,
    line: 0,
    column: 0,
};

/// Want of memory, which tells no place.
pub const WANT_OF_MEMORY: BuildFault = BuildFault {
    number: cse_fault_numbers::WANT_OF_MEMORY,
    line: 0,
    column: 0,
};

impl From<TypeError> for BuildFault {
    ghost from_gives = { λ e fault. fault ≡ of_type e };

    fn from(error: TypeError) -> BuildFault {
        BuildFault {
            number: error.number,
            line: error.line,
            column: error.column,
        }
    }
}

impl From<SyntaxError> for BuildFault {
    ghost from_gives = { λ e fault. fault ≡ of_syntax e };

    fn from(error: SyntaxError) -> BuildFault {
        BuildFault {
            number: error.number,
            line: u64::from(error.line),
            column: u64::from(error.column),
        }
    }
}

impl From<CompileError> for BuildFault {
    ghost from_gives = { λ e fault. fault ≡ at_no_place e.number };

    fn from(error: CompileError) -> BuildFault {
        BuildFault {
            number: error.number,
            line: 0,
            column: 0,
        }
    }
}
