//! Why a comparison stops.

ghost use Rattle.std.specs.Prelude.{◌≡◌};
ghost use Rattle.cse_office.specs.declared.fault.CompareFault.TheVariants.{Memory};
ghost use Rattle.cse_office.specs.declared.fault.SeenFault.TheVariants.{Compare};

use cse_case::DataError;
use std::alloc::AllocError;
use thiserror::Error;

/// Why a comparison stops.
#[derive(Clone, Copy, Debug, PartialEq, Eq, Error)]
pub enum CompareFault {
    /// The file that was read has a fault.
    #[error("data: {0}")]
    Data(DataError),
    /// The file that was written has one.
    #[error("out: {0}")]
    Out(DataError),
    /// The first line that has none beside it, or one of another record or with other ids; counted from 1.
    #[error("line {line} is no pair")]
    Apart { line: u64 },
    /// Want of memory.
    #[error("want of memory")]
    Memory,
}

impl From<AllocError> for CompareFault {
    ghost from_gives = { λ _ e. e ≡ Memory };

    fn from(_refused: AllocError) -> CompareFault {
        CompareFault::Memory
    }
}

/// Why a comparison stops that is watched.
#[derive(Clone, Copy, Debug, PartialEq, Eq)]
pub enum SeenFault<E> {
    /// As each comparison does.
    Compare(CompareFault),
    /// The watcher stops it.
    Seen(E),
}

impl<E> From<AllocError> for SeenFault<E> {
    ghost from_gives = { λ _ e. e ≡ Compare Memory };

    fn from(_refused: AllocError) -> SeenFault<E> {
        SeenFault::Compare(CompareFault::Memory)
    }
}
