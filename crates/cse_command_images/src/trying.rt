//! `try`, over a file, and what it prints.

ghost use Rattle.std.specs.Prelude.{IfErr, IfOk};
ghost use Rattle.cse_command_images.specs.TryFiles.{DoesTry, PrintsTrial, StopsTry};
ghost use Rattle.cse_command_parts.specs.Told.{told_by};

use crate::telling::of_try;
use crate::try_image::try_to;
use cse_command_parts::files::{MOST_IMAGE, file_bytes};
use cse_command_parts::judged::TriedFile;
use cse_command_parts::outcome::Stop;
use cse_command_parts::telling::ended;
use cse_value::{Input, Output, Reads, Writes};
use std::rt::Files;

/// `try`. What is printed goes to this device.
pub fn try_file<'a, R: Files + AllocGlobal, W: Output>(
    rt: &R,
    path: &'a str,
    out: &mut W,
) -> Result<TriedFile<'a, R::File>, Stop>
    // The file was opened by its path, its preproc ran, and its messages were printed.
    ensures tries { IfOk result (PrintsTrial (told_by (⟦<Reads<R::File> as Input>⟧.given)
        (⟦<Writes<R::File> as Output>⟧.taken) (⟦<Writes<R::File> as Output>⟧.has_failed)) path.now (W.taken out.old) (W.taken out.new)) }
    // Why not: the file was not read, or what it gave may not run.
    ensures stops { IfErr result (StopsTry (⟦<Reads<R::File> as Input>⟧.given) path.now) }
{
    let image = file_bytes(rt, path, MOST_IMAGE)?;
    match try_to(rt.alloc(), image.bytes(), out) {
        Ok(_) => Ok(TriedFile { image }),
        Err(fault) => Err(Stop::Refused(of_try(&fault))),
    }
}

/// `try`, and what the preproc told.
pub fn try_and_tell<R: Files + AllocGlobal, W: Output>(
    rt: &R,
    path: &str,
    out: &mut W,
) -> Result<(), Stop>
    ensures { DoesTry (told_by (⟦<Reads<R::File> as Input>⟧.given)
        (⟦<Writes<R::File> as Output>⟧.taken) (⟦<Writes<R::File> as Output>⟧.has_failed)) path.now result (W.taken out.old) (W.taken out.new) }
{
    ended(try_file(rt, path, out))
}
