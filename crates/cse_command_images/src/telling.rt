//! What is told of `try`.

ghost use Rattle.std.specs.Prelude.{◌≡◌};
ghost use Rattle.cse_command_images.specs.TryFiles.{fault_of_try};

use crate::try_image::TryFault;
use cse_command_parts::fault::Fault;
use cse_fault_numbers::{WANT_OF_MEMORY, WRITE_FAILED};

/// The fault of `try`.
pub fn of_try(fault: &TryFault) -> Fault
    ensures { result ≡ fault_of_try fault.now }
{
    match fault {
        TryFault::Image(error) => Fault::of_image(*error),
        TryFault::Refused(refusal) => Fault::of_refusal(*refusal),
        TryFault::Write => Fault::of_number(WRITE_FAILED),
        TryFault::Memory => Fault::of_number(WANT_OF_MEMORY),
    }
}
