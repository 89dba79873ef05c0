//! Why no program is made.

ghost use Rattle.std.specs.Prelude.{◌≡◌};
ghost use Rattle.cse_compile.specs.Fault.{out_of_memory};

use cse_fault_numbers::TOO_LARGE;
use std::alloc::AllocError;
use thiserror::Error;

/// Why no program is made.
///
/// | number | cause |
/// |---|---|
/// | 64 | the source is beyond a limit of the image format |
/// | 67 | a routine, or the events of a case, may take more than 10^15 steps |
/// | 90 | want of memory |
#[derive(Clone, Copy, Debug, PartialEq, Eq, Error)]
#[error("fault {number}")]
pub struct CompileError {
    pub number: u8,
}

/// More than an image can hold.
pub const BEYOND: CompileError = CompileError { number: TOO_LARGE };

/// Want of memory.
pub const WANT_OF_MEMORY: CompileError = CompileError {
    number: cse_fault_numbers::WANT_OF_MEMORY,
};

impl From<AllocError> for CompileError {
    ghost from_gives = { λ _ e. e ≡ out_of_memory };

    fn from(_e: AllocError) -> CompileError {
        WANT_OF_MEMORY
    }
}
