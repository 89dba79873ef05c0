//! Whether a jump keeps its innermost bracket: by a table of these, made in one pass, or by a walk outward from
//! where it leads, which takes no memory.

ghost use Rattle.std.specs.Prelude.{◌≡◌, ℕ, suc, ◌<◌, ◌≤◌, ◌↔◌, length, Some, None, Option, slice_get, IsTrue, IfOk};
ghost use Rattle.cse_code_typing.specs.Bracket.{IsBracket, IsAround, first, around, innermost, IsJump};
ghost use Rattle.cse_code_typing.specs.Innermost.{innermost_below, Reaches};

use crate::brackets::{is_around, is_bracket, named_end_at};
use crate::nest::Nest;
use crate::routine_code::RoutineCode;
use cse_image::Code;
use std::alloc::{AllocError, Global};

/// Whether a bracket begins at a place.
fn begins_bracket<C: Code>(code: &RoutineCode<'_, C>, place: u32) -> bool
    ensures yes { IsTrue result → (e : ℕ) × IsBracket code.now place e }
    ensures no { (e : ℕ) → IsBracket code.now place e → IsTrue result }
{
    match named_end_at(code, place) {
        Some(end) => is_bracket(code, place, end),
        None => false,
    }
}

/// What a table says of a place.
fn opener_in(table: &[Option<u32>], place: u32) -> Option<u32>
    ensures { (o : Option ℕ) → slice_get table.now place ≡ Some o → result ≡ o }
{
    match table.get(place as usize) {
        Some(opener) => *opener,
        None => None,
    }
}

/// The innermost bracket around a place, among an opener and those around it.
fn still_around<C: Code>(
    code: &RoutineCode<'_, C>,
    table: &[Option<u32>],
    inner: Option<u32>,
    place: u32,
) -> Option<u32>
    requires table { table.now ≡ innermost_below code.now place }
    requires reaches { (s : ℕ) → IsAround code.now s place → Reaches inner s }
    requires before { (t : ℕ) → inner ≡ Some t → t < place }
    ensures { result ≡ innermost code.now place }
{
    let mut opener = inner;
    'outward: while let Some(found) = opener {
        if is_around(code, found, place) {
            return Some(found);
        }
        opener = opener_in(table, found);
    }
    None
}

/// The innermost bracket around the place after this one.
fn inner_after<C: Code>(
    code: &RoutineCode<'_, C>,
    table: &[Option<u32>],
    inner: Option<u32>,
    place: u32,
) -> Option<u32>
    requires there { place < length code.now }
    requires table { table.now ≡ innermost_below code.now (suc place) }
    requires inner { inner ≡ innermost code.now place }
    ensures { result ≡ innermost code.now (suc place) }
{
    let _count = code.len();
    if begins_bracket(code, place) {
        return Some(place);
    }
    still_around(code, table, inner, place + 1)
}

/// The innermost bracket around each place. A bracket that is left is never looked at again, so the
/// time grows with the number of places, whatever the code is.
pub fn innermost_table<C: Code>(
    alloc: Global,
    code: &RoutineCode<'_, C>,
) -> Result<Vec<Option<u32>>, AllocError>
    ensures { IfOk result (λ t. t.items ≡ innermost_below code.now (length code.now)) }
{
    let mut table = Vec::new(alloc);
    let mut inner = None;
    'places: for place in 0..code.len() {
        table.push(inner)?;
        inner = inner_after(code, &table, inner, place);
    }
    Ok(table)
}

fn is_same(a: Option<u32>, b: Option<u32>) -> bool
    ensures { IsTrue result ↔ (a ≡ b) }
{
    match (a, b) {
        (None, None) => true,
        (Some(a), Some(b)) => a == b,
        _ => false,
    }
}

/// Whether a jump from a place to another goes to a later one with the same innermost bracket.
pub fn is_told_jump<C: Code>(
    code: &RoutineCode<'_, C>,
    table: &[Option<u32>],
    from: u32,
    to: u32,
) -> bool
    requires { table.now ≡ innermost_below code.now (length code.now) }
    ensures { IsTrue result ↔ IsJump code.now from to }
{
    if to <= from || to >= code.len() {
        return false;
    }
    is_same(opener_in(table, to), opener_in(table, from))
}

/// Whether the innermost bracket, if there is one, is around a later place too.
fn is_still_inside<C: Code>(code: &RoutineCode<'_, C>, openers: &Nest<u32>, place: u32) -> bool
    ensures { IsTrue result ↔ ((s : ℕ) → first openers.now ≡ Some s → IsAround code.now s place) }
{
    match openers.top() {
        Some(opener) => is_around(code, opener, place),
        None => true,
    }
}

/// Whether no bracket that begins from one place on is around another: a walk outward from that one.
fn begins_none_between<C: Code>(code: &RoutineCode<'_, C>, from: u32, to: u32) -> bool
    ensures none { IsTrue result → (s : ℕ) → from ≤ s → IsAround code.now s to → ⊥ }
    ensures one { ((s : ℕ) → from ≤ s → IsAround code.now s to → ⊥) → IsTrue result }
{
    let mut opener = to;
    'outward: while opener > from {
        opener -= 1;
        if is_around(code, opener, to) {
            return false;
        }
    }
    true
}

/// The same as `is_told_jump`, without a table: the innermost bracket around the jump is still around where it
/// leads, and no other one begins in between. It takes no memory, and time that grows with how far it leads.
pub fn is_walked_jump<C: Code>(
    code: &RoutineCode<'_, C>,
    openers: &Nest<u32>,
    from: u32,
    to: u32,
) -> bool
    requires { openers.now ≡ around code.now from }
    ensures { IsTrue result ↔ IsJump code.now from to }
{
    if to <= from || to >= code.len() {
        return false;
    }
    if !is_still_inside(code, openers, to) {
        return false;
    }
    begins_none_between(code, from, to)
}
