//! Which instructions may stand in a routine.

ghost use Rattle.std.specs.Prelude.{◌≡◌, slice_get};
ghost use Rattle.std.specs.Option.{option_map, option_copied};
ghost use Rattle.cse_image_parts.specs.Image.{lists_of, routine_lists};
ghost use Rattle.cse_code_typing.specs.Order.{is_run};
ghost use Rattle.cse_code_typing.specs.Calls.{needs_case, may_call, calls_well, may_stand};

use cse_image_parts::entries::{Ambient, Tables};
use cse_image_parts::instruction::{Instr, Op};

fn is_run(ambient: Ambient) -> bool
    ensures { result ≡ is_run ambient }
{
    match ambient {
        Ambient::Run => true,
        Ambient::Case => false,
    }
}

#[tactic(auto, unfolding(crate::specs::Calls::needs_case))]
fn needs_case(op: Op) -> bool
    ensures { result ≡ needs_case op }
{
    matches!(
        op,
        Op::Occurrence
            | Op::CurrentOccurrence
            | Op::OccurrenceNumber
            | Op::TotalOccurrences
            | Op::IdNumber
            | Op::IdText
            | Op::ItemNumber
            | Op::ItemText
            | Op::StoreNumber
            | Op::StoreText
            | Op::Impute
            | Op::LoopOccurrences
    )
}

/// Whether a routine is there that one of this sort may call.
fn may_call(tables: &Tables, run: bool, callee: u32) -> bool
    ensures { result ≡ may_call run (slice_get (lists_of tables.now).routines callee) }
{
    match tables.routines.get(callee as usize) {
        None => false,
        Some(found) => !run || is_run(found.ambient),
    }
}

/// Whether a call goes to a smaller routine that may be called.
#[tactic(auto, unfolding(crate::specs::Calls::calls_well))]
fn calls_well(tables: &Tables, number: u32, run: bool, op: Op, callee: u32) -> bool
    ensures { result ≡ calls_well (lists_of tables.now).routines number run op callee }
{
    match op {
        Op::Call => callee < number && may_call(tables, run, callee),
        _ => true,
    }
}

/// Whether an instruction may stand in the routine of this number (own): calls go to smaller routines,
/// and a routine of the whole run neither asks for a case nor calls a routine of the case.
pub fn may_stand(tables: &Tables, number: u32, ambient: Ambient, instr: Instr) -> bool
    ensures { result ≡ may_stand (lists_of tables.now).routines number ambient instr }
{
    let run = is_run(ambient);
    !(run && needs_case(instr.op)) && calls_well(tables, number, run, instr.op, instr.c)
}
