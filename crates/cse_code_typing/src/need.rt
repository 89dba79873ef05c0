//! What an instruction takes from the stack and leaves on it, told without memory.

ghost use Rattle.std.specs.Prelude.{◌≡◌, option_map, option_and_then, slice_get, length, Some, [], ◌∷◌, ◌++◌, ◌+◌, ◌==◌, if◌then◌else◌};
ghost use Rattle.std.specs.Option.{option_to_list};
ghost use Rattle.cse_value.specs.Shape.{shape_lists};
ghost use Rattle.cse_image_parts.specs.Image.{Lists, lists_of, routine_lists};
ghost use Rattle.cse_image_parts.specs.Turns.{limit_of};
ghost use Rattle.cse_code_typing.specs.Kinds.{gift_kinds};
ghost use Rattle.cse_code_typing.specs.Signature.{id_number, id_text, number_item, text_item, is_record, is_numeric, rows_of, global_at, local_at, storable, stored_at, provided, dropped, indexes_of, arguments_of, parameters_of, ◌⇒◌, signature_by};
ghost use Rattle.cse_code_typing.specs.Needs.{signature_of};

use crate::kind::{Kind, kind_of_global, kind_of_local};
use cse_image_parts::entries::{Gift, Routine, Tables};
use cse_image_parts::instruction::{Instr, Op};
use cse_value::shape::{ID_OWNER, ItemKind, ItemShape, Shape};

/// Kinds that a table lists, the topmost last.
#[derive(Clone, Copy)]
pub enum Listed {
    Nothing,
    /// An index for each dimension of an array.
    Dimensions(u32),
    /// The arguments of a message.
    Arguments(u32),
    /// The parameters of a routine.
    Parameters(u32),
}

/// What is taken: two kinds that lie on top, and what is listed below them; and what is left.
#[derive(Clone, Copy)]
pub struct Need {
    pub first: Option<Kind>,
    pub second: Option<Kind>,
    pub listed: Listed,
    pub leaves: Option<Kind>,
}

/// Takes at most two kinds, the topmost first, and leaves at most one.
fn plain(first: Option<Kind>, second: Option<Kind>, leaves: Option<Kind>) -> Option<Need>
    ensures { result ≡ Some (record { first = first; second = second; listed = Listed.Nothing; leaves = leaves }) }
{
    Some(Need {
        first,
        second,
        listed: Listed::Nothing,
        leaves,
    })
}

fn is_record(shape: &Shape, number: u8) -> bool
    ensures { result ≡ is_record (shape_lists shape.now) number }
{
    (number as usize) < shape.records.len()
}

fn item_at(shape: &Shape, item: u32) -> Option<ItemShape>
    ensures { result ≡ slice_get (shape_lists shape.now).items item }
{
    shape.items.get(item as usize).copied()
}

/// A numeric id item.
fn id_number(shape: &Shape, item: u32) -> Option<ItemShape>
    ensures { result ≡ id_number (shape_lists shape.now) item }
{
    match item_at(shape, item) {
        None => None,
        Some(found) => {
            if found.owner == ID_OWNER && matches!(found.kind, ItemKind::Number) {
                Some(found)
            } else {
                None
            }
        }
    }
}

/// An id item that is a text.
fn id_text(shape: &Shape, item: u32) -> Option<ItemShape>
    ensures { result ≡ id_text (shape_lists shape.now) item }
{
    match item_at(shape, item) {
        None => None,
        Some(found) => {
            if found.owner == ID_OWNER && matches!(found.kind, ItemKind::Text) {
                Some(found)
            } else {
                None
            }
        }
    }
}

/// A numeric item of a record.
fn number_item(shape: &Shape, item: u32) -> Option<ItemShape>
    ensures { result ≡ number_item (shape_lists shape.now) item }
{
    match item_at(shape, item) {
        None => None,
        Some(found) => {
            if found.owner != ID_OWNER && matches!(found.kind, ItemKind::Number) {
                Some(found)
            } else {
                None
            }
        }
    }
}

/// An item of a record that is a text.
fn text_item(shape: &Shape, item: u32) -> Option<ItemShape>
    ensures { result ≡ text_item (shape_lists shape.now) item }
{
    match item_at(shape, item) {
        None => None,
        Some(found) => {
            if found.owner != ID_OWNER && matches!(found.kind, ItemKind::Text) {
                Some(found)
            } else {
                None
            }
        }
    }
}

fn is_numeric(item: Option<ItemShape>) -> bool
    ensures { result ≡ is_numeric item }
{
    match item {
        None => false,
        Some(found) => matches!(found.kind, ItemKind::Number),
    }
}

/// How many rows a set has that is whole and belongs to a numeric item.
fn rows_of(shape: &Shape, set: u16) -> Option<u16>
    ensures { result ≡ rows_of (shape_lists shape.now) set }
{
    match shape.sets.get(set as usize) {
        None => None,
        Some(found) => {
            if !found.partial && is_numeric(item_at(shape, found.item as u32)) {
                Some(found.rows)
            } else {
                None
            }
        }
    }
}

fn global_at(tables: &Tables, global: u32) -> Option<Kind>
    ensures { result ≡ global_at (lists_of tables.now) global }
{
    match tables.globals.get(global as usize) {
        None => None,
        Some(found) => Some(kind_of_global(found.kind)),
    }
}

fn local_at(routine: &Routine, local: u32) -> Option<Kind>
    ensures { result ≡ local_at (routine_lists routine.now) local }
{
    match routine.locals.get(local as usize) {
        None => None,
        Some(found) => Some(kind_of_local(*found)),
    }
}

/// The kind of a local into which a value may go: no occurrence.
fn stored_at(routine: &Routine, local: u32) -> Option<Kind>
    ensures { result ≡ stored_at (routine_lists routine.now) local }
{
    match local_at(routine, local) {
        None => None,
        Some(Kind::Occurrence(_)) => None,
        Some(kind) => Some(kind),
    }
}

fn gift_of(gives: Gift) -> Option<Kind>
    ensures { option_to_list result ≡ gift_kinds gives }
{
    match gives {
        Gift::Nothing => None,
        Gift::Number => Some(Kind::Number),
        Gift::Text => Some(Kind::Text),
    }
}

/// What a drop takes: a number, a text, or the index or occurrence on top.
fn dropped(a: u8, top: Option<Kind>) -> Option<Need>
    ensures { (x : Lists) → option_map (signature_of x) result ≡ dropped a top }
{
    if a == 0 {
        return plain(Some(Kind::Number), None, None);
    }
    if a == 1 {
        return plain(Some(Kind::Text), None, None);
    }
    match top {
        Some(Kind::Index(n)) => plain(Some(Kind::Index(n)), None, None),
        Some(Kind::Occurrence(r)) => plain(Some(Kind::Occurrence(r)), None, None),
        _ => None,
    }
}

/// What is taken from an array's indexes, below what lies on top.
fn of_array(tables: &Tables, array: u32, first: Option<Kind>, leaves: Option<Kind>) -> Option<Need>
    ensures { option_map (signature_of (lists_of tables.now)) result
        ≡ option_and_then (λ x. option_to_list first ++ indexes_of x ⇒ option_to_list leaves) (slice_get (lists_of tables.now).arrays array) }
{
    match tables.arrays.get(array as usize) {
        None => None,
        Some(_) => Some(Need {
            first,
            second: None,
            listed: Listed::Dimensions(array),
            leaves,
        }),
    }
}

fn of_message(tables: &Tables, message: u32) -> Option<Need>
    ensures { option_map (signature_of (lists_of tables.now)) result
        ≡ option_and_then (λ x. arguments_of x ⇒ []) (slice_get (lists_of tables.now).messages message) }
{
    match tables.messages.get(message as usize) {
        None => None,
        Some(_) => Some(Need {
            first: None,
            second: None,
            listed: Listed::Arguments(message),
            leaves: None,
        }),
    }
}

fn of_call(tables: &Tables, callee: u32) -> Option<Need>
    ensures { option_map (signature_of (lists_of tables.now)) result
        ≡ option_and_then (λ x. parameters_of x ⇒ gift_kinds x.gives) (slice_get (lists_of tables.now).routines callee) }
{
    match tables.routines.get(callee as usize) {
        None => None,
        Some(routine) => Some(Need {
            first: None,
            second: None,
            listed: Listed::Parameters(callee),
            leaves: gift_of(routine.gives),
        }),
    }
}

/// A counting loop: its limit is there.
fn of_loop(tables: &Tables, place: u16) -> Option<Need>
    ensures { (x : Lists) → option_map (signature_of x) result ≡ option_and_then (λ n. Kind.Number ∷ [] ⇒ []) (limit_of (lists_of tables.now).limits place) }
{
    match tables.limits.get(place as usize) {
        None => None,
        Some(_) => plain(Some(Kind::Number), None, None),
    }
}

/// A need, where a condition holds.
fn when(holds: bool, need: Option<Need>) -> Option<Need>
    ensures { result ≡ provided holds need }
{
    if holds { need } else { None }
}

/// Leaves a value of a kind, if there is one.
fn loads(kind: Option<Kind>) -> Option<Need>
    ensures { (x : Lists) → option_map (signature_of x) result ≡ option_and_then (λ k. [] ⇒ k ∷ []) kind }
{
    let kind = kind?;
    plain(None, None, Some(kind))
}

/// Takes a value of a kind, if there is one.
fn stores(kind: Option<Kind>) -> Option<Need>
    ensures { (x : Lists) → option_map (signature_of x) result ≡ option_and_then (λ k. k ∷ [] ⇒ []) kind }
{
    let kind = kind?;
    plain(Some(kind), None, None)
}

/// Leaves what an id item has, if there is one.
fn reads_id(item: Option<ItemShape>, leaves: Kind) -> Option<Need>
    ensures { (x : Lists) → option_map (signature_of x) result ≡ option_and_then (λ i. [] ⇒ leaves ∷ []) item }
{
    let _item = item?;
    plain(None, None, Some(leaves))
}

/// Takes an occurrence of an item's record, and leaves what the item has.
fn reads_item(item: Option<ItemShape>, leaves: Kind) -> Option<Need>
    ensures { (x : Lists) → option_map (signature_of x) result ≡ option_and_then (λ i. Kind.Occurrence i.owner ∷ [] ⇒ leaves ∷ []) item }
{
    let item = item?;
    plain(Some(Kind::Occurrence(item.owner)), None, Some(leaves))
}

/// Takes a value on an occurrence of an item's record.
fn writes_item(item: Option<ItemShape>, value: Kind) -> Option<Need>
    ensures { (x : Lists) → option_map (signature_of x) result ≡ option_and_then (λ i. value ∷ Kind.Occurrence i.owner ∷ [] ⇒ []) item }
{
    let item = item?;
    plain(Some(value), Some(Kind::Occurrence(item.owner)), None)
}

/// Takes a number, and leaves an index of one of so many rows, or of one more.
fn finds_row(rows: Option<u16>, a: u8) -> Option<Need>
    ensures { (x : Lists) → option_map (signature_of x) result
        ≡ option_and_then (λ n. Kind.Number ∷ [] ⇒ Kind.Index (if a == 0 then n else n + 1) ∷ []) rows }
{
    let rows = rows?;
    let number = Some(Kind::Number);
    if a == 0 {
        return plain(number, None, Some(Kind::Index(rows as u32)));
    }
    plain(number, None, Some(Kind::Index(rows as u32 + 1)))
}

/// Takes a number, and leaves whether it has a row.
fn seeks_row(rows: Option<u16>) -> Option<Need>
    ensures { (x : Lists) → option_map (signature_of x) result ≡ option_and_then (λ n. Kind.Number ∷ [] ⇒ Kind.Number ∷ []) rows }
{
    let _rows = rows?;
    plain(Some(Kind::Number), None, Some(Kind::Number))
}

/// Takes two values of a kind, and leaves a number.
fn joins(kind: Kind) -> Option<Need>
    ensures { (x : Lists) → option_map (signature_of x) result ≡ (kind ∷ kind ∷ [] ⇒ Kind.Number ∷ []) }
{
    plain(Some(kind), Some(kind), Some(Kind::Number))
}

/// What an instruction takes and leaves, where it finds what it names in the tables.
#[tactic(auto, unfolding(crate::specs::Signature::signature_by))]
pub fn need_of(
    shape: &Shape,
    tables: &Tables,
    routine: &Routine,
    in_loop: bool,
    top: Option<Kind>,
    instr: Instr,
) -> Option<Need>
    ensures { option_map (signature_of (lists_of tables.now)) result
        ≡ signature_by (record { shape = shape_lists shape.now; lists = lists_of tables.now; routine = routine_lists routine.now }) in_loop top instr.op instr.a instr.b instr.c }
{
    let number = Some(Kind::Number);
    let c = instr.c;
    let record = is_record(shape, instr.a);
    let occurrence = Some(Kind::Occurrence(instr.a));
    match instr.op {
        Op::Number => when((c as usize) < tables.constants.len(), loads(number)),
        Op::Special => plain(None, None, number),
        Op::Text => when((c as usize) < tables.texts.len(), loads(Some(Kind::Text))),
        Op::LoadLocal => loads(local_at(routine, c)),
        Op::StoreLocal => stores(stored_at(routine, c)),
        Op::LoadGlobal => loads(global_at(tables, c)),
        Op::StoreGlobal => stores(global_at(tables, c)),
        Op::Add | Op::Subtract | Op::Multiply | Op::Quotient | Op::Remainder => {
            joins(Kind::Number)
        }
        Op::Compare | Op::And | Op::Or => joins(Kind::Number),
        Op::CompareText => joins(Kind::Text),
        Op::Negate | Op::Not | Op::IsSpecial => plain(number, None, number),
        Op::Jump | Op::End | Op::Break => plain(None, None, None),
        Op::JumpUnless => plain(number, None, None),
        Op::Index => plain(number, None, Some(Kind::Index(instr.b as u32))),
        Op::Occurrence => when(record, plain(number, None, occurrence)),
        Op::Row => finds_row(rows_of(shape, instr.b), instr.a),
        Op::CurrentOccurrence => when(record && in_loop, plain(None, None, occurrence)),
        Op::OccurrenceNumber => when(record, plain(occurrence, None, number)),
        Op::TotalOccurrences => when(record, plain(None, None, number)),
        Op::IdNumber => reads_id(id_number(shape, c), Kind::Number),
        Op::IdText => reads_id(id_text(shape, c), Kind::Text),
        Op::ItemNumber => reads_item(number_item(shape, c), Kind::Number),
        Op::ItemText => reads_item(text_item(shape, c), Kind::Text),
        Op::StoreNumber | Op::Impute => writes_item(number_item(shape, c), Kind::Number),
        Op::StoreText => writes_item(text_item(shape, c), Kind::Text),
        Op::LoadCell => of_array(tables, c, None, number),
        Op::StoreCell => of_array(tables, c, number, None),
        Op::InSet => seeks_row(rows_of(shape, instr.b)),
        Op::Message => of_message(tables, c),
        Op::Call => of_call(tables, c),
        Op::Return => plain(gift_of(routine.gives), None, None),
        Op::LoopCount => of_loop(tables, instr.b),
        Op::LoopOccurrences => when(record, plain(None, None, None)),
        Op::Pop => dropped(instr.a, top),
    }
}
