//! The pass over the places of a routine.

ghost use Rattle.std.specs.Prelude.{◌≡◌, ◌<◌, ◌≤◌, ◌+◌, ◌*◌, ◌^◌, length, IfOk, replicate};
ghost use Rattle.cse_image_parts.specs.Image.{lists_of};
ghost use Rattle.cse_code_typing.specs.Code.{part};
ghost use Rattle.cse_code_typing.specs.Skeleton.{skeleton};
ghost use Rattle.cse_code_typing.specs.Bracket.{KeepsRules};
ghost use Rattle.cse_code_typing.specs.Tables.{scene_in};
ghost use Rattle.cse_code_typing.specs.Judged.{Judges, fault_in};
ghost use Rattle.cse_code_typing.specs.Depth.{IsAtMost, KeepFew, most_kept, IsDepth, IsDepthBelow};

use crate::brackets::pass;
use crate::control::control_of;
use crate::depth::Depth;
use crate::in_loop::is_in_loop;
use crate::known::expected_at;
use crate::nest::Nest;
use crate::pass_at::{Standing, Surroundings, pass_at};
use crate::piles::{Expected, Piles};
use crate::place_depth::{locals_depth, place_depth};
use crate::routine_code::RoutineCode;
use crate::stand::may_stand;
use cse_image::Code;
use std::alloc::{AllocError, Global};

/// Why a routine isn't typed, with the place.
#[derive(Clone, Copy)]
pub enum WalkFault {
    /// The instruction may not stand in the routine.
    MayNotStand(u32),
    /// No stack fits the place.
    NoStack(u32),
}

/// That many places of which nothing is known.
fn nothing(alloc: Global, places: u32) -> Result<Vec<Expected>, AllocError>
    ensures { IfOk result (λ known. known.items ≡ replicate places Expected.Free) }
{
    let mut known = Vec::new(alloc);
    'places: for _ in 0..places {
        known.push(Expected::Free)?;
    }
    Ok(known)
}

/// The depth of a routine whose brackets keep their rules, by the depths of smaller routines, or its
/// first fault. One pass over the places: each takes time that grows with the logarithm of how many stacks there are, and with what it takes from
/// the stack; at most 64 openers are looked at.
pub fn judge<C: Code>(
    alloc: Global,
    around: Surroundings<'_>,
    code: &C,
    start: usize,
    number: u32,
    smaller: &[Depth],
) -> Result<Result<Depth, WalkFault>, AllocError>
    requires within { start + around.routine.now.instructions ≤ length (C.list code.now) }
    requires brackets { KeepsRules (skeleton (lists_of around.tables.now) (part start around.routine.now.instructions (C.list code.now))) }
    requires routines { length smaller.now < 2 ^ 32 }
    requires few { KeepFew smaller.now }
    requires locals { length around.routine.now.locals.items ≤ 255 }
    requires size { around.routine.now.instructions ≤ 1000000 }
    ensures judges { IfOk result
        (λ v. Judges (scene_in around.entry) number (part start around.entry.routine.now.instructions (C.list code.now)) (fault_in v)) }
    ensures depth { IfOk result
        (λ v. IfOk v (IsDepth (scene_in around.entry) smaller.now (part start around.entry.routine.now.instructions (C.list code.now)))) }
    ensures few { IfOk result (λ v. IfOk v (IsAtMost (most_kept * (length smaller.now + 1)))) }
{
    let mut known = nothing(alloc, around.routine.instructions)?;
    let locals = locals_depth(&around.routine.locals);
    match walk(alloc, around, code, start, number, smaller, &mut known)? {
        Err(fault) => Ok(Err(fault)),
        Ok(places) => Ok(Ok(locals.plus(places))),
    }
}

/// One pass over the places, in order: the greatest depth of a place, or the first fault.
fn walk<C: Code>(
    alloc: Global,
    around: Surroundings<'_>,
    code: &C,
    start: usize,
    number: u32,
    smaller: &[Depth],
    known: &mut [Expected],
) -> Result<Result<Depth, WalkFault>, AllocError>
    requires within { start + around.routine.now.instructions ≤ length (C.list code.now) }
    requires brackets { KeepsRules (skeleton (lists_of around.tables.now) (part start around.routine.now.instructions (C.list code.now))) }
    requires routines { length smaller.now < 2 ^ 32 }
    requires few { KeepFew smaller.now }
    requires known { known.old ≡ replicate around.routine.now.instructions Expected.Free }
    ensures judges { IfOk result
        (λ v. Judges (scene_in around.entry) number (part start around.entry.routine.now.instructions (C.list code.now)) (fault_in v)) }
    ensures depth { IfOk result (λ v. IfOk v (IsDepthBelow (scene_in around.entry) smaller.now
        (part start around.entry.routine.now.instructions (C.list code.now)) around.entry.routine.now.instructions)) }
    ensures few { IfOk result (λ v. IfOk v (IsAtMost (around.entry.routine.now.instructions + most_kept * length smaller.now))) }
{
    let _fits = code.len();
    let size = around.routine.instructions;
    let skeleton = RoutineCode::new(code, around.tables, start, size);
    let mut openers = Nest::new(0);
    let mut piles = Piles::new(alloc);
    let mut most = Depth::NONE;
    'places: for place in 0..size {
        let instr = code.at(start + place as usize);
        if !may_stand(around.tables, number, around.routine.ambient, instr) {
            return Ok(Err(WalkFault::MayNotStand(place)));
        }
        let control = control_of(around.tables, instr);
        let in_loop = is_in_loop(code, start, size, &openers, instr.a);
        let at = Standing {
            place,
            instr,
            control,
            in_loop,
        };
        let there = expected_at(known, place as usize);
        let kept = place_depth(around.tables, smaller, &piles, there, instr);
        if !pass_at(around, at, &mut piles, known)? {
            return Ok(Err(WalkFault::NoStack(place)));
        }
        most = most.greater(kept);
        pass(&skeleton, place, control, &mut openers);
    }
    Ok(Ok(most))
}
