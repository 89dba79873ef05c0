//! What `verify` prints of a program that may run.

ghost use Rattle.std.specs.Prelude.{length};
ghost use Rattle.cse_value.specs.Writing.{WritesAll, FailsAtErr};
ghost use Rattle.cse_command_parts.specs.Verdict.{routine_line, routine_lines, sums, depth_line, last_lines, verdict as verdict_text};

use crate::printing::write_parts;
use cse_image::Code;
use cse_value::{Failed, Output};
use cse_verify::{Depth, Verified};
use itoa::Buffer;

/// Writes the bound of a routine.
fn write_routine<W: Output>(routine: u32, steps: u64, out: &mut W) -> Result<(), Failed>
    ensures bytes { WritesAll result (W.taken out.old) (W.taken out.new) (routine_line routine steps) }
    ensures failed { FailsAtErr result (W.has_failed out.old) (W.has_failed out.new) }
{
    let mut first = Buffer::new();
    let mut second = Buffer::new();
    let routine = first.format(routine).as_bytes();
    let steps = second.format(steps).as_bytes();
    write_parts(&[b"routine ", routine, b" ", steps, b" steps\n"], out)
}

/// Writes the bounds of the routines.
fn write_routines<C: Code, W: Output>(verified: &Verified<'_, C>, out: &mut W) -> Result<(), Failed>
    ensures bytes { WritesAll result (W.taken out.old) (W.taken out.new) (routine_lines verified.now.image (length verified.now.image.lists.routines)) }
    ensures failed { FailsAtErr result (W.has_failed out.old) (W.has_failed out.new) }
{
    let tables = verified.program().tables();
    let mut routine = 0;
    'routines: for _head in &tables.routines {
        write_routine(routine, verified.steps(routine), out)?;
        routine += 1;
    }
    Ok(())
}

/// Writes the bounds of a case and of the application's events.
fn write_sums<W: Output>(case: u64, run: u64, out: &mut W) -> Result<(), Failed>
    ensures bytes { WritesAll result (W.taken out.old) (W.taken out.new) (sums case run) }
    ensures failed { FailsAtErr result (W.has_failed out.old) (W.has_failed out.new) }
{
    let mut first = Buffer::new();
    let mut second = Buffer::new();
    let case = first.format(case).as_bytes();
    let run = second.format(run).as_bytes();
    write_parts(&[b"case ", case, b" steps\nrun ", run, b" steps\n"], out)
}

/// Writes how much a run keeps at once, and that the image is accepted.
fn write_depth<W: Output>(depth: Depth, out: &mut W) -> Result<(), Failed>
    ensures bytes { WritesAll result (W.taken out.old) (W.taken out.new) (depth_line depth) }
    ensures failed { FailsAtErr result (W.has_failed out.old) (W.has_failed out.new) }
{
    let mut first = Buffer::new();
    let mut second = Buffer::new();
    let mut third = Buffer::new();
    let mut fourth = Buffer::new();
    let nums = first.format(depth.nums).as_bytes();
    let texts = second.format(depth.texts).as_bytes();
    let ords = third.format(depth.ords).as_bytes();
    let frames = fourth.format(depth.frames).as_bytes();
    write_parts(
        &[
            b"depth ",
            nums,
            b" ",
            texts,
            b" ",
            ords,
            b" ",
            frames,
            b"\naccepted\n",
        ],
        out,
    )
}

/// Writes the lines after those of the routines.
fn write_last<W: Output>(case: u64, run: u64, depth: Depth, out: &mut W) -> Result<(), Failed>
    ensures bytes { WritesAll result (W.taken out.old) (W.taken out.new) (last_lines case run depth) }
    ensures failed { FailsAtErr result (W.has_failed out.old) (W.has_failed out.new) }
{
    write_sums(case, run, out)?;
    write_depth(depth, out)
}

/// Writes what is known of a program that may run.
pub fn write_verdict<C: Code, W: Output>(
    verified: &Verified<'_, C>,
    depth: Depth,
    out: &mut W,
) -> Result<(), Failed>
    ensures bytes { WritesAll result (W.taken out.old) (W.taken out.new) (verdict_text verified.now.image depth) }
    ensures failed { FailsAtErr result (W.has_failed out.old) (W.has_failed out.new) }
{
    write_routines(verified, out)?;
    write_last(verified.case_steps(), verified.run_steps(), depth, out)
}
