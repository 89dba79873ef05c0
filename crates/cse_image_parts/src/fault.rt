//! Why bytes have no meaning in a format.

ghost use Rattle.std.specs.Prelude.{◌≡◌, ◌-◌};
ghost use Rattle.cse_image_parts.specs.declared.fault.ReadStop.TheVariants as stops;

use std::alloc::{AllocError, AllocFailed};

/// The rule that a field breaks, with its number.
#[derive(Clone, Copy)]
pub enum Rule {
    /// The magic bytes or the version.
    Header = 60,
    /// A field passes the end.
    Ended = 61,
    /// Bytes are left over.
    LeftOver = 62,
    /// A field has another form than the format demands.
    Form = 63,
    /// A count is over its limit.
    Limit = 64,
}

/// The first rule that is broken, and how many bytes stand from the field that breaks it to the end.
#[derive(Clone, Copy)]
pub struct FieldFault {
    pub rule: Rule,
    pub left: usize,
}

/// Why reading stopped: memory ran out, or the bytes are at fault.
#[derive(Clone, Copy)]
pub enum ReadStop {
    Memory,
    Fault(FieldFault),
}

impl From<FieldFault> for ReadStop {
    ghost from_gives = { λ f e. e ≡ stops.Fault f };

    fn from(fault: FieldFault) -> ReadStop {
        ReadStop::Fault(fault)
    }
}

impl From<AllocError> for ReadStop {
    ghost from_gives = { λ _ e. e ≡ stops.Memory };

    fn from(_e: AllocError) -> ReadStop {
        ReadStop::Memory
    }
}

impl<T: Drop> From<AllocFailed<T>> for ReadStop {
    ghost from_gives = { λ _ e. e ≡ stops.Memory };

    fn from(_e: AllocFailed<T>) -> ReadStop {
        ReadStop::Memory
    }
}
