//! The rules of jumps and brackets in the code of one routine.

ghost use Rattle.std.specs.Prelude.{◌≡◌, ℕ, suc, ◌+◌, ◌<◌, ◌≤◌, ◌↔◌, length, Some, slice_get, IsTrue, IfSome, IfNone, IfOk};
ghost use Rattle.cse_code_typing.specs.Innermost.{innermost_below};
ghost use Rattle.cse_code_typing.specs.Bracket.{IsBracket, IsAround, IsNestedBelow, first, around, innermost, IsJump, IsOpener, IsFine, IsFineAt, KeepsRulesAt, KeepsRules, BreaksFirst, named_end, named_opener};

use crate::control::Control;
use crate::innermost::{innermost_table, is_told_jump, is_walked_jump};
use crate::nest::Nest;
use crate::routine_code::RoutineCode;
use cse_image::Code;
use std::alloc::{AllocError, Global};

/// The end that the instruction at a place names, where it is an opener.
pub fn named_end_at<C: Code>(code: &RoutineCode<'_, C>, place: u32) -> Option<u32>
    ensures { result ≡ named_end (slice_get code.now place) }
{
    match code.at(place) {
        Some(Control::Open(_, end)) => Some(end),
        _ => None,
    }
}

/// The opener that the instruction at a place names, where it is an end.
fn named_opener_at<C: Code>(code: &RoutineCode<'_, C>, place: u32) -> Option<u32>
    ensures { result ≡ named_opener (slice_get code.now place) }
{
    match code.at(place) {
        Some(Control::End(opener)) => Some(opener),
        _ => None,
    }
}

/// Whether an opener and a later end name each other.
pub fn is_bracket<C: Code>(code: &RoutineCode<'_, C>, opener: u32, end: u32) -> bool
    ensures { IsTrue result ↔ IsBracket code.now opener end }
{
    opener < end
        && named_end_at(code, opener) == Some(end)
        && named_opener_at(code, end) == Some(opener)
}

/// Whether the bracket that begins at one place is around another.
pub fn is_around<C: Code>(code: &RoutineCode<'_, C>, opener: u32, place: u32) -> bool
    ensures { IsTrue result ↔ IsAround code.now opener place }
{
    match named_end_at(code, opener) {
        Some(end) => opener < place && place <= end && is_bracket(code, opener, end),
        None => false,
    }
}

/// Whether an end lies within the innermost bracket, if there is one.
fn ends_inside<C: Code>(code: &RoutineCode<'_, C>, openers: &Nest<u32>, end: u32) -> bool
    ensures { IsTrue result ↔ ((s f : ℕ) → first openers.now ≡ Some s → named_end (slice_get code.now s) ≡ Some f → end ≤ f) }
{
    match openers.top() {
        Some(opener) => match named_end_at(code, opener) {
            Some(outer) => end <= outer,
            None => true,
        },
        None => true,
    }
}

/// Whether an opener has its end and lies within the brackets around it.
fn is_opener<C: Code>(code: &RoutineCode<'_, C>, place: u32, end: u32, openers: &Nest<u32>) -> bool
    requires nested { IsNestedBelow code.now place }
    requires openers { openers.now ≡ around code.now place }
    ensures { IsTrue result ↔ IsOpener code.now place end }
{
    if openers.len() > 63 || !is_bracket(code, place, end) {
        return false;
    }
    ends_inside(code, openers, end)
}

/// Whether the end belongs to the innermost bracket.
fn is_break<C: Code>(code: &RoutineCode<'_, C>, end: u32, place: u32, openers: &Nest<u32>) -> bool
    requires openers { openers.now ≡ around code.now place }
    ensures { IsTrue result ↔ ((s : ℕ) × (innermost code.now place ≡ Some s) × IsBracket code.now s end) }
{
    match openers.top() {
        Some(opener) => is_bracket(code, opener, end),
        None => false,
    }
}

/// Whether a jump keeps its innermost bracket: by the table, or without one.
fn is_jump<C: Code>(
    code: &RoutineCode<'_, C>,
    from: u32,
    to: u32,
    openers: &Nest<u32>,
    table: Option<&[Option<u32>]>,
) -> bool
    requires openers { openers.now ≡ around code.now from }
    requires table { IfSome table (λ t. t.now ≡ innermost_below code.now (length code.now)) }
    ensures { IsTrue result ↔ IsJump code.now from to }
{
    match table {
        Some(table) => is_told_jump(code, table, from, to),
        None => is_walked_jump(code, openers, from, to),
    }
}

/// Whether an instruction keeps the rules, but for the last one's.
fn is_fine<C: Code>(
    code: &RoutineCode<'_, C>,
    place: u32,
    control: Control,
    openers: &Nest<u32>,
    table: Option<&[Option<u32>]>,
) -> bool
    requires nested { IsNestedBelow code.now place }
    requires openers { openers.now ≡ around code.now place }
    requires table { IfSome table (λ t. t.now ≡ innermost_below code.now (length code.now)) }
    ensures { IsTrue result ↔ IsFine code.now place control }
{
    match control {
        Control::Step => true,
        Control::Jump(to) => is_jump(code, place, to, openers, table),
        Control::Branch(to) => is_jump(code, place, to, openers, table),
        Control::Open(_, end) => is_opener(code, place, end, openers),
        Control::End(opener) => is_bracket(code, opener, place),
        Control::Break(end) => is_break(code, end, place, openers),
        Control::Call(_) => true,
        Control::Return => true,
    }
}

/// Whether the last instruction returns, where this is the last one.
fn ends_fine<C: Code>(code: &RoutineCode<'_, C>, place: u32, control: Control) -> bool
    requires { place < length code.now }
    ensures { IsTrue result ↔ (place + 1 ≡ length code.now → control ≡ Control.Return) }
{
    if place < code.len() - 1 {
        return true;
    }
    matches!(control, Control::Return)
}

/// From a place that keeps the rules to the next one.
pub fn pass<C: Code>(
    code: &RoutineCode<'_, C>,
    place: u32,
    control: Control,
    openers: &mut Nest<u32>,
)
    requires there { slice_get code.now place ≡ Some control }
    requires fine { KeepsRulesAt code.now place }
    requires nested { IsNestedBelow code.now place }
    requires openers { openers.old ≡ around code.now place }
    ensures { openers.new ≡ around code.now (suc place) }
{
    match control {
        Control::Open(_, _) => openers.push(place),
        Control::End(_) => openers.pop(),
        _ => {}
    }
}

/// The least place of a routine's code that breaks a rule. A table of the innermost bracket around each place may
/// be lent; without one each jump costs time that grows with how far it leads.
pub fn check_code<C: Code>(code: &RoutineCode<'_, C>, table: Option<&[Option<u32>]>) -> Option<u32>
    requires { IfSome table (λ t. t.now ≡ innermost_below code.now (length code.now)) }
    ensures all { IfNone result (KeepsRules code.now) }
    ensures first { IfSome result (λ p. BreaksFirst code.now p) }
{
    let mut openers = Nest::new(0);
    'places: for place in 0..code.len() {
        let Some(control) = code.at(place) else {
            unreachable!()
        };
        if !is_fine(code, place, control, &openers, table) {
            return Some(place);
        }
        if !ends_fine(code, place, control) {
            return Some(place);
        }
        pass(code, place, control, &mut openers);
    }
    None
}

/// The least place of a routine's code that breaks a rule, in time that grows with the number of
/// places, whatever the code is; it takes 8 bytes for each place.
pub fn first_break<C: Code>(
    alloc: Global,
    code: &RoutineCode<'_, C>,
) -> Result<Option<u32>, AllocError>
    ensures all { IfOk result (λ o. IfNone o (KeepsRules code.now)) }
    ensures first { IfOk result (λ o. IfSome o (λ p. BreaksFirst code.now p)) }
{
    let table = innermost_table(alloc, code)?;
    Ok(check_code(code, Some(&table)))
}
