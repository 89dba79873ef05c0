//! `run`, over files, and what it prints.

ghost use Rattle.cse_commands.specs.RunDoes.{DoesRun, PrintsTotals};
ghost use Rattle.cse_command_parts.specs.Told.{told_by};

use crate::ran::{RanFiles, RanImage};
use crate::run_image::run_files;
use crate::telling::write_totals;
use cse_batch_parts::Totals;
use cse_command_parts::outcome::Stop;
use cse_command_parts::plan::RunPaths;
use cse_command_parts::telling::printed;
use cse_value::{Input, Output, Reads, Writes};
use std::rt::Files;

/// `run`, and what it counted.
pub fn run_and_tell<R: Files + AllocGlobal, W: Output>(
    rt: &R,
    paths: &RunPaths<'_>,
    out: &mut W,
) -> Result<(), Stop>
    ensures { DoesRun (told_by (⟦<Reads<R::File> as Input>⟧.given)
        (⟦<Writes<R::File> as Output>⟧.taken) (⟦<Writes<R::File> as Output>⟧.has_failed)) paths.now result (W.taken out.old) (W.taken out.new) }
{
    let ran = run_files(rt, paths)?;
    let RanFiles { program, .. } = ran;
    let RanImage { run, .. } = program;
    tell_totals(run.into_totals(), out)
}

/// Prints what a run counted, if it did not stop.
pub fn tell_totals<W: Output>(counted: Result<Totals, Stop>, out: &mut W) -> Result<(), Stop>
    ensures { PrintsTotals counted result (W.taken out.old) (W.taken out.new) }
{
    match counted {
        Ok(totals) => printed(write_totals(totals, out)),
        Err(stop) => Err(stop),
    }
}
