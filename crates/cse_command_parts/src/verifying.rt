//! `verify`, over files, and what it prints.

ghost use Rattle.std.specs.Prelude.{IfErr, IfOk};
ghost use Rattle.cse_command_parts.specs.Halts.{StopsVerify};
ghost use Rattle.cse_command_parts.specs.Prints.{DoesVerify, PrintsVerdict};
ghost use Rattle.cse_command_parts.specs.Told.{told_by};

use crate::fault::Fault;
use crate::files::{MOST_IMAGE, file_bytes, file_text};
use crate::judged::VerifiedFiles;
use crate::outcome::Stop;
use crate::telling::ended;
use crate::verify_image::verify_to;
use cse_fault_numbers::TOO_MANY;
use cse_value::{Input, Output, Reads, Writes};
use std::rt::Files;

/// `verify`. The dictionary is read before the image. What is printed goes to this device.
pub fn verify_files<'a, R: Files + AllocGlobal, W: Output>(
    rt: &R,
    dict: &'a str,
    image: &'a str,
    out: &mut W,
) -> Result<VerifiedFiles<'a, R::File>, Stop>
    // The files were opened by their paths, the image may run, and what is known of it was printed.
    ensures verifies { IfOk result (PrintsVerdict (told_by (⟦<Reads<R::File> as Input>⟧.given)
        (⟦<Writes<R::File> as Output>⟧.taken) (⟦<Writes<R::File> as Output>⟧.has_failed)) dict.now image.now (W.taken out.old) (W.taken out.new)) }
    // Why not: a file was not read, or what they gave may not run.
    ensures stops { IfErr result (StopsVerify (⟦<Reads<R::File> as Input>⟧.given) dict.now image.now) }
{
    let dict = file_text(rt, dict, TOO_MANY)?;
    let image = file_bytes(rt, image, MOST_IMAGE)?;
    match verify_to(rt.alloc(), dict.bytes(), image.bytes(), out) {
        Ok(()) => Ok(VerifiedFiles { dict, image }),
        Err(fault) => Err(Stop::Refused(Fault::of_verify(&fault))),
    }
}

/// `verify`, and what is known of the image.
pub fn verify_and_tell<R: Files + AllocGlobal, W: Output>(
    rt: &R,
    dict: &str,
    image: &str,
    out: &mut W,
) -> Result<(), Stop>
    ensures { DoesVerify (told_by (⟦<Reads<R::File> as Input>⟧.given)
        (⟦<Writes<R::File> as Output>⟧.taken) (⟦<Writes<R::File> as Output>⟧.has_failed)) dict.now image.now result (W.taken out.old) (W.taken out.new) }
{
    ended(verify_files(rt, dict, image, out))
}
