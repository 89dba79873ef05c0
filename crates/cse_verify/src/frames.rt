//! How many brackets are open at once.

ghost use Rattle.std.specs.Prelude.{◌≡◌, ℕ, suc, Some, ◌+◌, ◌*◌, ◌^◌, ◌<◌, ◌≤◌, length, slice_get, slice_index, EachIndex};
ghost use Rattle.cse_code_typing.specs.Bracket.{around, KeepsRules};
ghost use Rattle.cse_verify.specs.Bound.{CallsBelow};
ghost use Rattle.cse_verify.specs.Frames.{frames_in_call, most_frames};

use cse_code_typing::{Control, RoutineCode};
use cse_image::Code;

/// The most brackets that the callee of a call has open.
fn in_call(control: Control, table: &[u64]) -> u64
    requires call { (c : ℕ) → control ≡ Control.Call c → c < length table.now }
    requires small { EachIndex table.now (λ r. slice_index table.now r ≤ 64 * length table.now) }
    ensures value { result ≡ frames_in_call table.now (Some control) }
    ensures small { result ≤ 64 * length table.now }
{
    match control {
        Control::Call(routine) => table[routine as usize],
        _ => 0,
    }
}

/// From the number of brackets around a place to that at the next one.
fn pass<C: Code>(code: &RoutineCode<'_, C>, place: u32, control: Control, opened: u64) -> u64
    requires keeps { KeepsRules code.now }
    requires there { slice_get code.now place ≡ Some control }
    requires opened { opened ≡ length (around code.now place) }
    requires few { opened ≤ 64 }
    ensures opened { result ≡ length (around code.now (suc place)) }
    ensures few { result ≤ 64 }
{
    match control {
        Control::Open(_, _) => opened + 1,
        Control::End(_) => opened - 1,
        _ => opened,
    }
}

/// The most brackets that are open at once in a routine, by those of the smaller routines.
pub fn frames_of<C: Code>(code: &RoutineCode<'_, C>, table: &[u64]) -> u64
    requires keeps { KeepsRules code.now }
    requires calls { CallsBelow (length table.now) code.now }
    requires few { length table.now < 2 ^ 32 }
    requires small { EachIndex table.now (λ r. slice_index table.now r ≤ 64 * length table.now) }
    ensures value { result ≡ most_frames table.now code.now (length code.now) }
    ensures small { result ≤ 64 * (length table.now + 1) }
{
    let mut opened = 0;
    let mut most = 0;
    'places: for place in 0..code.len() {
        let Some(control) = code.at(place) else {
            unreachable!()
        };
        let here = opened + in_call(control, table);
        most = u64::max(most, here);
        opened = pass(code, place, control, opened);
    }
    most
}
