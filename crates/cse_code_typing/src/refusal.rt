//! Why a program may not run.

ghost use Rattle.std.specs.Prelude.{◌≡◌};
ghost use Rattle.cse_code_typing.specs.Typed.{IsNowhere, IsOutOfMemory};

use cse_fault_numbers::WANT_OF_MEMORY;
use std::alloc::AllocError;
use std::error::Error;
use std::fmt;

/// What stands for no routine and for no place.
pub const NONE: u32 = 4_294_967_295;

/// Why a program may not run, by number (own): 65 a jump or bracket breaks its rules; 66 no abstract
/// stack fits a place; 67 the steps of a routine pass the limit at a place, or, with no routine and no
/// place, those of a case (told by `cse_verify`); 68 the shape is another one, with no routine and no
/// place; 69 a call leads to a routine that isn't smaller, a routine of the whole run asks for a case,
/// or, with no routine and no place, the order or an event doesn't fit; 90 memory ran out, with no
/// routine and no place.
#[derive(Clone, Copy, Debug, PartialEq, Eq)]
pub struct Refusal {
    pub number: u8,
    /// The routine, from 0, or `NONE`.
    pub routine: u32,
    /// The place in the routine, from 0, or `NONE`.
    pub at: u32,
}

impl fmt::Display for Refusal {
    fn fmt<W: fmt::Write>(&self, f: &mut fmt::Formatter<W>) -> fmt::Result {
        let number = self.number;
        let routine = self.routine;
        let at = self.at;
        write!(f, "refusal {number} at routine {routine}, place {at}")
    }
}

impl Error for Refusal {}

impl From<AllocError> for Refusal {
    ghost from_gives = { λ _ e. IsOutOfMemory e };

    fn from(_e: AllocError) -> Refusal {
        nowhere(WANT_OF_MEMORY)
    }
}

/// A refusal with no routine and no place.
pub(crate) fn nowhere(number: u8) -> Refusal
    ensures number { result.number ≡ number }
    ensures place { IsNowhere result }
{
    Refusal {
        number,
        routine: NONE,
        at: NONE,
    }
}
