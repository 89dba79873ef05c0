//! The skeleton of code: what an instruction means for places, brackets and calls, and nothing else.

ghost use Rattle.std.specs.Prelude.{◌≡◌};
ghost use Rattle.cse_image_parts.specs.Image.{lists_of};
ghost use Rattle.cse_code_typing.specs.Skeleton.{control, most_occurrences, most_turns};

use cse_image_parts::entries::Tables;
use cse_image_parts::instruction::{Instr, Op};

/// What an instruction means for the places that follow, for brackets and calls. Places count from 0
/// in the routine.
#[derive(Clone, Copy)]
pub enum Control {
    /// Goes on to the next place.
    Step,
    /// Goes to a place.
    Jump(u32),
    /// Goes to a place, or on to the next one.
    Branch(u32),
    /// Opens a bracket: the limit of its turns, and its end.
    Open(u32, u32),
    /// Ends a bracket: its opener.
    End(u32),
    /// Leaves a bracket: its end.
    Break(u32),
    /// Calls a routine.
    Call(u32),
    /// Ends the call.
    Return,
}

/// The most turns of a loop over the occurrences of a record; 0 where there is no such record.
fn most_occurrences(tables: &Tables, number: u8) -> u32
    ensures { result ≡ most_occurrences (lists_of tables.now).records number }
{
    match tables.records.get(number as usize) {
        Some(shape) => shape.max_records as u32,
        None => 0,
    }
}

/// The most turns of a counting loop whose limit stands at this place; 0 where there is no such limit.
fn most_turns(tables: &Tables, place: u16) -> u32
    ensures { result ≡ most_turns (lists_of tables.now).limits place }
{
    match tables.limits.get(place as usize) {
        Some(limit) => *limit,
        None => 0,
    }
}

/// The skeleton of an instruction; the tables tell the limits of loops.
#[tactic(auto, unfolding(crate::specs::Skeleton::control_by))]
pub fn control_of(tables: &Tables, instr: Instr) -> Control
    ensures { result ≡ control (lists_of tables.now) instr }
{
    match instr.op {
        Op::Jump => Control::Jump(instr.c),
        Op::JumpUnless | Op::Index | Op::Occurrence => Control::Branch(instr.c),
        Op::Row => {
            if instr.a == 0 {
                Control::Branch(instr.c)
            } else {
                Control::Step
            }
        }
        Op::Call => Control::Call(instr.c),
        Op::Return => Control::Return,
        Op::LoopCount => Control::Open(most_turns(tables, instr.b), instr.c),
        Op::LoopOccurrences => Control::Open(most_occurrences(tables, instr.a), instr.c),
        Op::End => Control::End(instr.c),
        Op::Break => Control::Break(instr.c),
        _ => Control::Step,
    }
}
