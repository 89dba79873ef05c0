//! Why bytes are no image.

ghost use Rattle.std.specs.Prelude.{◌≡◌};
ghost use Rattle.cse_image.specs.Place.{number_of, error_of};

use cse_fault_numbers::WANT_OF_MEMORY;
use cse_image_parts::{ReadStop, Rule};
use std::error::Error;
use std::fmt;

/// Why there is no program, by number: 60 the magic bytes or the version are others; 61 the bytes end
/// too early, `at` is their length; 62 bytes are left over, `at` is the spelling's length; 63 a field
/// has another form than the format demands, and 64 a count is over its limit, `at` is the field's
/// first byte, from 0; 90 memory ran out, `at` is 0.
#[derive(Clone, Copy, Debug, PartialEq, Eq)]
pub struct ImageError {
    pub number: u8,
    pub at: usize,
}

impl fmt::Display for ImageError {
    fn fmt<W: fmt::Write>(&self, f: &mut fmt::Formatter<W>) -> fmt::Result {
        let number = self.number;
        let at = self.at;
        write!(f, "fault {number} at byte {at}")
    }
}

impl Error for ImageError {}

/// The error, in bytes of this length.
pub fn error_within(stop: ReadStop, len: usize) -> ImageError
    ensures { result ≡ error_of stop len }
{
    match stop {
        ReadStop::Memory => ImageError {
            number: WANT_OF_MEMORY,
            at: 0,
        },
        ReadStop::Fault(fault) => ImageError {
            number: rule_number(fault.rule),
            at: len.saturating_sub(fault.left),
        },
    }
}

fn rule_number(rule: Rule) -> u8
    ensures { result ≡ number_of rule }
{
    rule as u8
}
