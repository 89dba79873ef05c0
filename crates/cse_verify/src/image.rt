//! An image, read and verified.

ghost use Rattle.std.specs.Prelude.{◌≡◌, IfOk, IfErr};
ghost use Rattle.cse_dict.specs.Dictionary.{shape_of};
ghost use Rattle.cse_verify.specs.Checked.{IsAccepted, IsRefused, IsNoFault, of_reading, of_verifying};

use crate::verified::Verified;
use crate::verifying::verify;
use cse_code_typing::Refusal;
use cse_dict::Dictionary;
use cse_fault_numbers::WANT_OF_MEMORY;
use cse_image::{CodeView, ImageError, Program, view_image};
use std::alloc::Global;
use thiserror::Error;

/// Why an image may not run with a dictionary.
#[derive(Clone, Copy, Debug, PartialEq, Eq, Error)]
pub enum CheckFault {
    /// The bytes are no image (60 to 64).
    #[error("{0}")]
    Image(ImageError),
    /// The program may not run (65 to 69).
    #[error("{0}")]
    Refused(Refusal),
    /// Want of memory (90).
    #[error("out of memory")]
    Memory,
}

/// The fault of reading.
fn of_reading(error: ImageError) -> CheckFault
    ensures { result ≡ of_reading error }
{
    if error.number == WANT_OF_MEMORY {
        CheckFault::Memory
    } else {
        CheckFault::Image(error)
    }
}

/// The fault of verifying.
fn of_verifying(refusal: Refusal) -> CheckFault
    ensures { result ≡ of_verifying refusal }
{
    if refusal.number == WANT_OF_MEMORY {
        CheckFault::Memory
    } else {
        CheckFault::Refused(refusal)
    }
}

/// The verified program that the bytes spell, with its code read in place: the bytes and the dictionary
/// are lent for as long as it lives. Else the fault of reading them (60 to 64), else that of `verify`
/// (65 to 69), or want of memory.
pub fn check_image<'a>(
    alloc: Global,
    dictionary: &'a Dictionary,
    image: &'a [u8],
) -> Result<Verified<'a, CodeView<'a>>, CheckFault>
    // What is accepted is a program that may run, and is handed out with the dictionary.
    ensures accepted { IfOk result (λ v. IsAccepted (shape_of dictionary.now) image.now v.image) }
    ensures dictionary { IfOk result (λ v. v.dictionary ≡ dictionary.now) }
    // Why nothing is accepted: the first reason.
    ensures refused { IfErr result (λ f. IsRefused (shape_of dictionary.now) image.now f) }
    // What may run is accepted, unless memory runs out.
    ensures only { IfErr result (λ f. IsNoFault (shape_of dictionary.now) image.now f) }
{
    let program = match view_image(alloc, image) {
        Ok(program) => program,
        Err(error) => return Err(of_reading(error)),
    };
    match verify(alloc, dictionary, program) {
        Ok(verified) => Ok(verified),
        Err(refusal) => Err(of_verifying(refusal)),
    }
}
