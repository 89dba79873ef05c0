//! `compile`, and what it prints.

ghost use Rattle.cse_command_images.specs.CompileDoes.{DoesCompile};
ghost use Rattle.cse_command_parts.specs.Told.{told_by};

use crate::compile_image::compile_files;
use cse_command_parts::outcome::Stop;
use cse_command_parts::plan::CompilePaths;
use cse_command_parts::printing::write_compiled;
use cse_command_parts::telling::printed;
use cse_value::{Input, Output, Reads, Writes};
use std::rt::Files;

/// `compile`, and how many bytes the image has.
pub fn compile_and_tell<R: Files + AllocGlobal, W: Output>(
    rt: &R,
    paths: &CompilePaths<'_>,
    out: &mut W,
) -> Result<(), Stop>
    ensures { DoesCompile (told_by (⟦<Reads<R::File> as Input>⟧.given)
        (⟦<Writes<R::File> as Output>⟧.taken) (⟦<Writes<R::File> as Output>⟧.has_failed)) paths.now result (W.taken out.old) (W.taken out.new) }
{
    let compiled = compile_files(rt, paths)?;
    printed(write_compiled(compiled.len, out))
}
