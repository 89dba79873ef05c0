//! Does an entry fit, so that it has a spelling in version 2? The rules are those that reading calls.

ghost use Rattle.std.specs.Prelude.{◌≡◌, ◌≤◌, ◌<◌, ◌^◌, [], map, length, FitsSigned, true};
ghost use Rattle.std.specs.Bool.{Decides};
ghost use Rattle.std.specs.Int.{w64};
ghost use Rattle.std.specs.List.{AllByRecursion};
ghost use Rattle.std.specs.String.{string_bytes};
ghost use Rattle.cse_image_parts.specs.Reader.{AllAfter};
ghost use Rattle.cse_image_parts.specs.Image.{array_lists, message_lists, routine_lists};
ghost use Rattle.cse_image_parts.specs.declared.version.Version.TheVariants as versions;
ghost use Rattle.cse_image_parts.specs.Fields.{cells_in, is_dimension_count, fits_cells};
ghost use Rattle.cse_image.specs.Spelling.{RecordFits, ItemFits, SetFits, LimitFits, TextFits, GlobalFits, DimensionFits, ArrayFits, MessageFits, LocalFits, LocalsFit, RoutineFits, EventFits, InstrFits};

use cse_image_parts::entries::{Array, EventEntry, GlobalVariable, Local, Message, Routine};
use cse_image_parts::instruction::Instr;
use cse_image_parts::limits::{MOST_CELLS, MOST_DIMENSIONS, MOST_INSTRUCTIONS};
use cse_image_parts::opcodes::{is_right_a, is_right_b, is_right_c};
use cse_image_parts::placeholders::are_few_placeholders;
use cse_image_parts::rules::{
    comes_after, has_parameters, has_room_for_cells, has_room_for_code, is_count_of_dimensions,
    is_right_cell_count, is_right_dimension, is_right_global_length, is_right_kind, is_right_limit,
    is_right_local_length, is_right_owner,
};
use cse_image_parts::texts::{is_array_name, is_new_name, is_plain_text, is_short_text};
use cse_image_parts::version::{Version, may_give};
use cse_value::shape::{ItemShape, RecordShape, SetShape};

/// Reading the fields of a record tells their ranges.
fn read_record(shape: &RecordShape)
    ensures { RecordFits shape.now }
{
    let _max_records = shape.max_records;
    let _record_len = shape.record_len;
}

/// Reading the records tells the ranges of their fields.
pub fn read_records(records: &[RecordShape])
    ensures { AllByRecursion RecordFits records.now }
{
    for record in records {
        read_record(record);
    }
}

/// Reading the fields of an item tells their ranges.
fn read_item(item: &ItemShape)
    ensures { ItemFits item.now }
{
    let _owner = item.owner;
    let _len = item.len;
    let _start = item.start;
}

/// Reading the items tells the ranges of their fields.
pub fn read_items(items: &[ItemShape])
    ensures { AllByRecursion ItemFits items.now }
{
    for item in items {
        read_item(item);
    }
}

/// Reading the fields of a value set tells their ranges.
fn read_set(set: &SetShape)
    ensures { SetFits set.now }
{
    let _item = set.item;
    let _rows = set.rows;
}

/// Reading the value sets tells the ranges of their fields.
pub fn read_sets(sets: &[SetShape])
    ensures { AllByRecursion SetFits sets.now }
{
    for set in sets {
        read_set(set);
    }
}

/// Reading a number tells its range.
fn read_i64(n: &i64)
    ensures { FitsSigned w64 n.now }
{
    let _value = *n;
}

/// Reading the numbers tells their range.
pub fn read_numbers(numbers: &[i64])
    ensures { AllByRecursion (FitsSigned w64) numbers.now }
{
    for n in numbers {
        read_i64(n);
    }
}

/// A limit of a counting loop: at least one turn.
pub fn limit_fits(limit: &u32) -> bool
    ensures { Decides result (LimitFits limit.now) }
{
    is_right_limit(*limit)
}

/// A text of a program: of plain characters, and no longer than a text may be.
pub fn text_fits(text: &str) -> bool
    ensures { Decides result (TextFits text.now) }
{
    text.len() < 65536 && is_plain_text(text) && is_short_text(text)
}

/// A global: a text has a length, a number has none.
pub fn global_fits(global: &GlobalVariable) -> bool
    ensures { Decides result (GlobalFits global.now) }
{
    is_right_global_length(global.kind, global.length)
}

fn dimension_fits(dimension: &u16) -> bool
    ensures { Decides result (DimensionFits dimension.now) }
{
    is_right_dimension(*dimension)
}

fn dimensions_fit(dimensions: &[u16]) -> bool
    ensures { Decides result (AllByRecursion DimensionFits dimensions.now) }
{
    for dimension in dimensions {
        if !dimension_fits(dimension) {
            return false;
        }
    }
    true
}

fn is_right_rank(dimensions: &[u16]) -> bool
    ensures { result ≡ is_dimension_count (length dimensions.now) }
{
    dimensions.len() <= MOST_DIMENSIONS && is_count_of_dimensions(dimensions.len() as u8)
}

fn has_right_cells(dimensions: &[u16], cells: &[i64]) -> bool
    requires { length dimensions.now ≤ MOST_DIMENSIONS }
    ensures { Decides result ((fits_cells dimensions.now (length cells.now) ≡ true) × (length cells.now < 2 ^ 32)) }
{
    cells.len() < 4294967296 && is_right_cell_count(dimensions, cells.len() as u32)
}

/// An array, after arrays that have so many cells.
pub fn array_fits(before: &[Array], cells: u64, array: &Array) -> bool
    requires cells { cells ≡ cells_in (map array_lists before.now) }
    requires small { cells ≤ MOST_CELLS }
    ensures { Decides result (ArrayFits (map array_lists before.now) (array_lists array.now)) }
{
    read_numbers(&array.cells);
    is_right_rank(&array.dimensions)
        && dimensions_fit(&array.dimensions)
        && has_room_for_cells(cells, &array.dimensions)
        && is_array_name(array.name.as_bytes())
        && is_new_name(before, array.name.as_bytes())
        && has_right_cells(&array.dimensions, &array.cells)
}

/// A message: a text that fits, with few placeholders.
pub fn message_fits(message: &Message) -> bool
    ensures { Decides result (MessageFits (message_lists message.now)) }
{
    let number = message.number;
    number == number && text_fits(&message.text) && are_few_placeholders(message.text.as_bytes())
}

fn local_fits(parameters: u8, index: u8, local: &Local) -> bool
    ensures { Decides result (LocalFits parameters index local.now) }
{
    is_right_kind(parameters, index, local.kind)
        && is_right_owner(local.kind, local.owner)
        && is_right_local_length(local.kind, local.length)
}

fn locals_fit(parameters: u8, locals: &[Local]) -> bool
    requires { length locals.now < 2 ^ 8 }
    ensures { Decides result (AllAfter (λ before. LocalFits parameters (length before)) [] locals.now) }
{
    for (i, local) in locals.iter().enumerate() {
        if !local_fits(parameters, i as u8, local) {
            return false;
        }
    }
    true
}

/// The locals of a routine with so many parameters.
fn has_right_locals(parameters: u8, locals: &[Local]) -> bool
    ensures { Decides result (LocalsFit parameters locals.now) }
{
    if locals.len() >= 256 {
        return false;
    }
    if !has_parameters(parameters, locals.len() as u8) {
        return false;
    }
    locals_fit(parameters, locals)
}

/// A routine, after routines of so many instructions together.
pub fn routine_fits(before: u32, routine: &Routine) -> bool
    requires { before ≤ MOST_INSTRUCTIONS }
    ensures { Decides result (RoutineFits versions.Two before (routine_lists routine.now)) }
{
    may_give(Version::Two, routine.gives)
        && has_right_locals(routine.parameters, &routine.locals)
        && has_room_for_code(before, routine.instructions)
}

/// An event, after the event that was last.
pub fn event_fits(last: Option<EventEntry>, event: &EventEntry) -> bool
    ensures { Decides result (EventFits last event.now) }
{
    let routine = event.routine;
    comes_after(last, event.code, event.index) && routine == routine
}

/// An instruction whose operands its opcode may have, in version 2.
pub fn instr_fits(instr: &Instr) -> bool
    ensures { Decides result (InstrFits versions.Two instr.now) }
{
    is_right_a(instr.op, instr.a)
        && is_right_b(Version::Two, instr.op, instr.b)
        && is_right_c(instr.op, instr.a, instr.c)
}
