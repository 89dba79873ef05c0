//! `verify`: whether an image may run with a dictionary, from the bytes of both to what is known of it.

ghost use Rattle.std.specs.Prelude.{◌≡◌, ℕ, List, false, OnOk, IfErr};
ghost use Rattle.cse_value.specs.Device.{Appends};
ghost use Rattle.cse_command_parts.specs.Vetted.{Passes, IsReadAs, told, FailsBy, TellsBefore, FailsOnlyByWrite, is_failed_write};

use crate::verdict::write_verdict;
use cse_dict::{DictError, Dictionary};
use cse_value::{Failed, Output};
use cse_verify::{CheckFault, check_image};
use std::alloc::Global;
use thiserror::Error;

/// Why `verify` could not accept an image, or not print.
#[derive(Clone, Copy, Debug, Error)]
pub enum VerifyFault {
    /// The text is no dictionary (10 to 18), or memory ran out (90).
    #[error("{0}")]
    Dict(DictError),
    /// The image may not run with it (60 to 69), or memory ran out (90).
    #[error("{0}")]
    Check(CheckFault),
    /// The output failed (71).
    #[error("a write failed")]
    Write,
}

/// Whether an image may run with a dictionary. If so, writes `routine K N steps` for each routine, `case
/// N steps`, `run N steps`, `depth N T O F` (numbers, texts, ordinals and brackets that a run keeps at
/// once, at most) and `accepted`, each on a line.
///
/// Faults, in this order: those of the dictionary (10 to 18), those of reading the image (60 to 64),
/// those of verifying it (65 to 69); want of memory in place of each; a failed write.
pub fn verify_to<W: Output>(
    alloc: Global,
    dict: &[u8],
    image: &[u8],
    out: &mut W,
) -> Result<(), VerifyFault>
    // What is printed is what holds of the program.
    ensures passes { OnOk result ((p : Passes dict.now image.now) × Appends (W.taken out.old) (W.taken out.new) (told p)) }
    // Why nothing is accepted.
    ensures fails { IfErr result (λ f. is_failed_write f ≡ false → FailsBy dict.now image.now f) }
    // What was printed before a fault.
    ensures before { IfErr result (λ f. TellsBefore dict.now image.now f (W.taken out.old) (W.taken out.new)) }
    ensures failed { FailsOnlyByWrite result (W.has_failed out.old) (W.has_failed out.new) }
{
    match Dictionary::read(alloc, dict) {
        Ok(dictionary) => verify_with(alloc, &dictionary, image, out),
        Err(error) => Err(VerifyFault::Dict(error)),
    }
}

/// The same with the dictionary of a text.
fn verify_with<W: Output>(
    alloc: Global,
    dictionary: &Dictionary,
    image: &[u8],
    out: &mut W,
) -> Result<(), VerifyFault>
    ensures passes { (text : List ℕ) → IsReadAs text dictionary.now
        → OnOk result ((p : Passes text image.now) × Appends (W.taken out.old) (W.taken out.new) (told p)) }
    ensures fails { (text : List ℕ) → IsReadAs text dictionary.now → IfErr result (λ f. is_failed_write f ≡ false → FailsBy text image.now f) }
    ensures before { (text : List ℕ) → IsReadAs text dictionary.now → IfErr result (λ f. TellsBefore text image.now f (W.taken out.old) (W.taken out.new)) }
    ensures failed { FailsOnlyByWrite result (W.has_failed out.old) (W.has_failed out.new) }
{
    let verified = match check_image(alloc, dictionary, image) {
        Ok(verified) => verified,
        Err(fault) => return Err(VerifyFault::Check(fault)),
    };
    match write_verdict(&verified, verified.depth(), out) {
        Ok(()) => Ok(()),
        Err(Failed) => Err(VerifyFault::Write),
    }
}
