//! One place of the pass over a routine.

ghost use Rattle.std.specs.Prelude.{◌≡◌, ◌≤◌, ◌<◌, ◌+◌, ◌^◌, ◌++◌, length, Some, None, IfOk, IfSome, option_map, option_and_then, if◌then◌else◌};
ghost use Rattle.std.specs.Option.{option_to_list};
ghost use Rattle.cse_code_typing.specs.Pass.{merge, pass_at};
ghost use Rattle.cse_code_typing.specs.Piles.{stack_of};
ghost use Rattle.cse_code_typing.specs.Rule.{rule_by};
ghost use Rattle.cse_code_typing.specs.Edges.{edges_of, known_of};
ghost use Rattle.cse_code_typing.specs.Within.{AreWithin, ExitsWithin, KeepsStacks};
ghost use Rattle.cse_code_typing.specs.Tables.{scene_in};

use crate::below::below_need;
use crate::control::Control;
use crate::exits::{Exits, exits_of};
use crate::kind::Kind;
use crate::known::{expected_at, merge_exits};
use crate::need::need_of;
use crate::piles::{Expected, Piles};
use cse_image_parts::entries::{Routine, Tables};
use cse_image_parts::instruction::Instr;
use cse_value::shape::Shape;
use std::alloc::AllocError;

/// What stands around the instructions of a routine.
#[derive(Clone, Copy)]
pub struct Surroundings<'a> {
    pub shape: &'a Shape,
    pub tables: &'a Tables,
    pub routine: &'a Routine,
}

/// An instruction at its place, its skeleton, and whether a loop over the occurrences of the record
/// in its field a is around.
#[derive(Clone, Copy)]
pub struct Standing {
    pub place: u32,
    pub instr: Instr,
    pub control: Control,
    pub in_loop: bool,
}

/// Puts what is left on a stack.
fn put_left(piles: &mut Piles, leaves: Option<Kind>, rest: usize) -> Result<usize, AllocError>
    requires rest { rest ≤ length piles.old }
    requires few { length piles.old < 2 ^ 32 }
    ensures stack { IfOk result (λ n. stack_of piles.new n ≡ option_to_list leaves ++ stack_of piles.old rest) }
    ensures within { IfOk result (λ n. n ≤ length piles.new) }
    ensures keeps { KeepsStacks piles.old piles.new }
    ensures one { length piles.new ≤ length piles.old + 1 }
{
    match leaves {
        None => Ok(rest),
        Some(kind) => {
            let stack = piles.push(kind, rest)?;
            Ok(stack)
        }
    }
}

/// Where an instruction before a stack leads, or none where it may not stand there.
fn edges_at(
    around: Surroundings<'_>,
    at: Standing,
    stack: usize,
    piles: &mut Piles,
) -> Result<Option<Exits>, AllocError>
    requires stack { stack ≤ length piles.old }
    requires few { length piles.old < 2 ^ 32 }
    ensures rule { IfOk result (λ o. rule_by (scene_in around.entry) at.in_loop at.control at.place at.instr (stack_of piles.old stack)
        ≡ option_map (edges_of piles.new) o) }
    ensures within { IfOk result (λ o. IfSome o (ExitsWithin (length piles.new))) }
    ensures keeps { KeepsStacks piles.old piles.new }
    ensures one { length piles.new ≤ length piles.old + 1 }
{
    let top = piles.top(stack);
    let Some(need) = need_of(
        around.shape,
        around.tables,
        around.routine,
        at.in_loop,
        top,
        at.instr,
    ) else {
        return Ok(None);
    };
    let Some(rest) = below_need(piles, around.tables, &need, stack) else {
        return Ok(None);
    };
    let after = put_left(piles, need.leaves, rest)?;
    let exits = exits_of(piles, at.place, at.control, rest, after);
    Ok(exits)
}

/// The pass at an instruction before the stack that is expected there.
fn follow(
    around: Surroundings<'_>,
    at: Standing,
    stack: usize,
    piles: &mut Piles,
    known: &mut [Expected],
) -> Result<bool, AllocError>
    requires stack { stack ≤ length piles.old }
    requires few { length piles.old < 2 ^ 32 }
    requires within { AreWithin (length piles.old) known.old }
    ensures pass_at { IfOk result (λ yes. option_and_then (λ es. merge at.place es (known_of piles.old known.old))
        (rule_by (scene_in around.entry) at.in_loop at.control at.place at.instr (stack_of piles.old stack))
        ≡ (if yes then Some (known_of piles.new known.new) else None)) }
    ensures within { AreWithin (length piles.new) known.new }
    ensures one { length piles.new ≤ length piles.old + 1 }
{
    match edges_at(around, at, stack, piles)? {
        None => Ok(false),
        Some(exits) => {
            let merged = merge_exits(piles, at.place, exits, known);
            Ok(merged)
        }
    }
}

/// One place of the pass: whether its stack agrees, its instruction has a rule for it, and what the
/// instruction leads back to has the rule's stack. What is known of later places grows.
pub fn pass_at(
    around: Surroundings<'_>,
    at: Standing,
    piles: &mut Piles,
    known: &mut [Expected],
) -> Result<bool, AllocError>
    requires within { AreWithin (length piles.old) known.old }
    requires few { length piles.old < 2 ^ 32 }
    ensures pass_at { IfOk result (λ yes. pass_at (rule_by (scene_in around.entry) at.in_loop at.control) at.place at.instr (known_of piles.old known.old)
        ≡ (if yes then Some (known_of piles.new known.new) else None)) }
    ensures within { AreWithin (length piles.new) known.new }
    ensures one { length piles.new ≤ length piles.old + 1 }
{
    match expected_at(known, at.place as usize) {
        Expected::Clash => Ok(false),
        Expected::Free => {
            let goes = follow(around, at, 0, piles, known)?;
            Ok(goes)
        }
        Expected::Is(stack) => {
            let agrees = follow(around, at, stack, piles, known)?;
            Ok(agrees)
        }
    }
}
