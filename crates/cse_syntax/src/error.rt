//! Why a text is no source.

ghost use Rattle.std.specs.Prelude.{◌≡◌};
ghost use Rattle.cse_syntax.specs.declared.error.ReadError.TheVariants.{Memory};

use std::alloc::{AllocError, AllocFailed};
use thiserror::Error;

/// A text that is no source, by the first fault in it.
///
/// | number | cause |
/// |---|---|
/// | 30 | a character that no token has |
/// | 31 | a comment without an end, or a text that isn't one |
/// | 32 | a token that can't stand here |
/// | 33 | a word of CSPro's logic that is left out |
/// | 34 | more than 64 parentheses and statements are open |
/// | 35 | a number out of its range |
/// | 90 | want of memory; line and column are 0 |
///
/// Lines and columns count from 1. A column is a character, a byte order mark at the front being none.
#[derive(Clone, Copy, Debug, PartialEq, Eq, Error)]
#[error("syntax fault {number} at line {line} column {column}")]
pub struct SyntaxError {
    pub number: u8,
    pub line: u32,
    pub column: u32,
}

/// What is wrong, with its number.
#[derive(Clone, Copy)]
pub enum Cause {
    Character = 30,
    Comment = 31,
    Unexpected = 32,
    LeftOut = 33,
    TooDeep = 34,
    OutOfRange = 35,
}

/// What is wrong, and the byte of the text at which it is.
#[derive(Clone, Copy)]
pub struct SourceFault {
    pub cause: Cause,
    pub place: usize,
}

/// Why reading stopped: want of memory, or the first fault.
#[derive(Drop)]
pub enum ReadError {
    Memory,
    Found(SourceFault),
}

impl From<AllocError> for ReadError {
    ghost from_gives = { λ _ e. e ≡ Memory };

    fn from(_e: AllocError) -> ReadError {
        ReadError::Memory
    }
}

impl<T: Drop> From<AllocFailed<T>> for ReadError {
    ghost from_gives = { λ _ e. e ≡ Memory };

    fn from(_e: AllocFailed<T>) -> ReadError {
        ReadError::Memory
    }
}
