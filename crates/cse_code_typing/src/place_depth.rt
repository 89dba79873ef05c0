//! How many values are kept at a place, and by the locals of a routine.

ghost use Rattle.std.specs.Prelude.{◌≡◌, ◌+◌, ◌*◌, ◌^◌, ◌<◌, ◌≤◌, Some, length, drop, slice_get};
ghost use Rattle.cse_image_parts.specs.Image.{lists_of};
ghost use Rattle.cse_code_typing.specs.Piles.{stack_of, stack_at};
ghost use Rattle.cse_code_typing.specs.Within.{IsWithin};
ghost use Rattle.cse_code_typing.specs.Depth.{IsAtMost, KeepFew, most_kept, count_of, depth_at, parameters_at, call_depth, place_depth, locals_depth};

use crate::depth::Depth;
use crate::kind::kind_of_local;
use crate::piles::{Expected, Piles};
use cse_image_parts::entries::{Local, Tables};
use cse_image_parts::instruction::{Instr, Op};

fn local_at(locals: &[Local], i: usize) -> Option<Local>
    ensures { result ≡ slice_get locals.now i }
{
    locals.get(i).copied()
}

/// How many values the locals are.
pub fn locals_depth(locals: &[Local]) -> Depth
    requires { length locals.now ≤ 255 }
    ensures value { result ≡ locals_depth locals.now }
    ensures few { IsAtMost 255 result }
{
    let mut total = Depth::NONE;
    'locals: for i in 0..locals.len() {
        let Some(local) = local_at(locals, i) else {
            unreachable!()
        };
        total = total.plus(Depth::one_of(kind_of_local(local)));
    }
    total
}

/// The depth of a routine, as a table tells it.
fn depth_at(depths: &[Depth], routine: u32) -> Depth
    requires { KeepFew depths.now }
    ensures value { result ≡ depth_at depths.now routine }
    ensures few { IsAtMost (most_kept * length depths.now) result }
{
    match depths.get(routine as usize) {
        None => Depth::NONE,
        Some(depth) => *depth,
    }
}

fn parameters_at(tables: &Tables, routine: u32) -> u8
    ensures { result ≡ parameters_at (lists_of tables.now).routines routine }
{
    match tables.routines.get(routine as usize) {
        None => 0,
        Some(found) => found.parameters,
    }
}

/// The stack without so many of its topmost kinds.
fn without(piles: &Piles, stack: usize, count: u8) -> usize
    requires { stack ≤ length piles.now }
    ensures stack { stack_of piles.now result ≡ drop count (stack_of piles.now stack) }
    ensures within { result ≤ length piles.now }
{
    let mut rest = stack;
    'kinds: for _ in 0..count {
        match piles.take(rest) {
            None => return 0,
            Some((_, below)) => rest = below,
        }
    }
    rest
}

/// What is kept within a call: the stack without the arguments, and the depth of the routine.
fn call_depth(tables: &Tables, depths: &[Depth], piles: &Piles, callee: u32, stack: usize) -> Depth
    requires stack { stack ≤ length piles.now }
    requires stacks { length piles.now < 2 ^ 32 }
    requires routines { length depths.now < 2 ^ 32 }
    requires few { KeepFew depths.now }
    ensures value { result ≡ call_depth (lists_of tables.now).routines depths.now callee (stack_of piles.now stack) }
    ensures few { IsAtMost (length piles.now + most_kept * length depths.now) result }
{
    let rest = without(piles, stack, parameters_at(tables, callee));
    piles.depth(rest).plus(depth_at(depths, callee))
}

/// The number of the stack that is expected; the empty one, where none is.
#[tactic(auto, using(crate::proofs::PileLaws::zero_empty))]
fn stack_there(piles: &Piles, there: Expected) -> usize
    requires { IsWithin (length piles.now) there }
    ensures stack { stack_of piles.now result ≡ stack_at piles.now there }
    ensures within { result ≤ length piles.now }
{
    match there {
        Expected::Free => 0,
        Expected::Is(stack) => stack,
        Expected::Clash => 0,
    }
}

/// How many values are kept at an instruction before the stack that is expected there, by the depths
/// of smaller routines.
#[tactic(auto, unfolding(crate::specs::Depth::depth_by))]
pub fn place_depth(
    tables: &Tables,
    depths: &[Depth],
    piles: &Piles,
    there: Expected,
    instr: Instr,
) -> Depth
    requires within { IsWithin (length piles.now) there }
    requires stacks { length piles.now < 2 ^ 32 }
    requires routines { length depths.now < 2 ^ 32 }
    requires few { KeepFew depths.now }
    ensures value { result ≡ place_depth (lists_of tables.now).routines depths.now (Some instr) (stack_at piles.now there) }
    ensures few { IsAtMost (length piles.now + most_kept * length depths.now) result }
{
    let stack = stack_there(piles, there);
    let kept = piles.depth(stack);
    match instr.op {
        Op::Call => {
            let within = call_depth(tables, depths, piles, instr.c, stack);
            kept.greater(within)
        }
        _ => kept,
    }
}
