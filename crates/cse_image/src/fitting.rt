//! Do the sections fit, so that they have a spelling in version 2?

ghost use Rattle.std.specs.Prelude.{◌≡◌, ◌≤◌, [], map, length, FitsSigned};
ghost use Rattle.std.specs.Bool.{Decides};
ghost use Rattle.std.specs.Int.{w64};
ghost use Rattle.std.specs.List.{AllByRecursion};
ghost use Rattle.std.specs.String.{string_bytes};
ghost use Rattle.cse_image_parts.specs.Reader.{AllAfter};
ghost use Rattle.cse_image_parts.specs.Spelling.{SectionFits};
ghost use Rattle.cse_image_parts.specs.declared.version.Version.TheVariants as versions;
ghost use Rattle.cse_image_parts.specs.Image.{array_lists, message_lists, routine_lists, lists_of};
ghost use Rattle.cse_image_parts.specs.Fields.{instructions_in, last_event};
ghost use Rattle.cse_image.specs.Spelling.{RecordFits, ItemFits, SetFits, OrderFits, LimitFits, TextFits, GlobalFits, ArrayFits, MessageFits, RoutineFits, EventFits, InstrFits, ListsFit};

use crate::checking::{
    array_fits, event_fits, global_fits, instr_fits, limit_fits, message_fits, read_items,
    read_numbers, read_records, read_sets, routine_fits, text_fits,
};
use crate::reading::total_of;
use cse_image_parts::entries::{Array, EventEntry, GlobalVariable, Message, Routine, Tables};
use cse_image_parts::instruction::Instr;
use cse_image_parts::limits::{
    MOST_ARRAYS, MOST_CONSTANTS, MOST_EVENTS, MOST_GLOBALS, MOST_INSTRUCTIONS, MOST_ITEMS,
    MOST_LIMITS, MOST_MESSAGES, MOST_ORDER, MOST_RECORDS, MOST_ROUTINES, MOST_SETS, MOST_TEXTS,
};
use cse_image_parts::rules::{cells_for, last_of};
use cse_value::shape::{ItemShape, RecordShape, SetShape};

fn records_fit(records: &[RecordShape]) -> bool
    ensures { Decides result (SectionFits MOST_RECORDS (λ _. RecordFits) records.now) }
{
    read_records(records);
    records.len() <= MOST_RECORDS
}

fn items_fit(items: &[ItemShape]) -> bool
    ensures { Decides result (SectionFits MOST_ITEMS (λ _. ItemFits) items.now) }
{
    read_items(items);
    items.len() <= MOST_ITEMS
}

fn sets_fit(sets: &[SetShape]) -> bool
    ensures { Decides result (SectionFits MOST_SETS (λ _. SetFits) sets.now) }
{
    read_sets(sets);
    sets.len() <= MOST_SETS
}

fn order_fit(order: &[u32]) -> bool
    ensures { Decides result (SectionFits MOST_ORDER (λ _. OrderFits) order.now) }
{
    order.len() <= MOST_ORDER
}

fn constants_fit(constants: &[i64]) -> bool
    ensures { Decides result (SectionFits MOST_CONSTANTS (λ _. FitsSigned w64) constants.now) }
{
    read_numbers(constants);
    constants.len() <= MOST_CONSTANTS
}

fn each_limit_fits(limits: &[u32]) -> bool
    ensures { Decides result (AllAfter (λ _. LimitFits) [] limits.now) }
{
    for limit in limits {
        if !limit_fits(limit) {
            return false;
        }
    }
    true
}

fn limits_fit(limits: &[u32]) -> bool
    ensures { Decides result (SectionFits MOST_LIMITS (λ _. LimitFits) limits.now) }
{
    limits.len() <= MOST_LIMITS && each_limit_fits(limits)
}

fn each_text_fits(texts: &[String]) -> bool
    ensures { Decides result (AllAfter (λ _. TextFits) [] (map string_bytes texts.now)) }
{
    for text in texts {
        if !text_fits(text) {
            return false;
        }
    }
    true
}

fn texts_fit(texts: &[String]) -> bool
    ensures { Decides result (SectionFits MOST_TEXTS (λ _. TextFits) (map string_bytes texts.now)) }
{
    texts.len() <= MOST_TEXTS && each_text_fits(texts)
}

fn each_global_fits(globals: &[GlobalVariable]) -> bool
    ensures { Decides result (AllAfter (λ _. GlobalFits) [] globals.now) }
{
    for global in globals {
        if !global_fits(global) {
            return false;
        }
    }
    true
}

fn globals_fit(globals: &[GlobalVariable]) -> bool
    ensures { Decides result (SectionFits MOST_GLOBALS (λ _. GlobalFits) globals.now) }
{
    globals.len() <= MOST_GLOBALS && each_global_fits(globals)
}

fn each_message_fits(messages: &[Message]) -> bool
    ensures { Decides result (AllAfter (λ _. MessageFits) [] (map message_lists messages.now)) }
{
    for message in messages {
        if !message_fits(message) {
            return false;
        }
    }
    true
}

fn messages_fit(messages: &[Message]) -> bool
    ensures { Decides result (SectionFits MOST_MESSAGES (λ _. MessageFits) (map message_lists messages.now)) }
{
    messages.len() <= MOST_MESSAGES && each_message_fits(messages)
}

fn each_array_fits(arrays: &[Array]) -> bool
    ensures { Decides result (AllAfter ArrayFits [] (map array_lists arrays.now)) }
{
    let mut cells = 0;
    for (i, array) in arrays.iter().enumerate() {
        if !array_fits(&arrays[..i], cells, array) {
            return false;
        }
        cells += cells_for(&array.dimensions);
    }
    true
}

fn arrays_fit(arrays: &[Array]) -> bool
    ensures { Decides result (SectionFits MOST_ARRAYS ArrayFits (map array_lists arrays.now)) }
{
    arrays.len() <= MOST_ARRAYS && each_array_fits(arrays)
}

fn each_routine_fits(routines: &[Routine]) -> bool
    ensures { Decides result (AllAfter (λ before. RoutineFits versions.Two (instructions_in before)) [] (map routine_lists routines.now)) }
{
    let mut so_far = 0;
    for routine in routines {
        if !routine_fits(so_far, routine) {
            return false;
        }
        so_far += routine.instructions;
    }
    true
}

fn routines_fit(routines: &[Routine]) -> bool
    ensures { Decides result (SectionFits MOST_ROUTINES (λ before. RoutineFits versions.Two (instructions_in before)) (map routine_lists routines.now)) }
{
    routines.len() <= MOST_ROUTINES && each_routine_fits(routines)
}

fn each_event_fits(events: &[EventEntry]) -> bool
    ensures { Decides result (AllAfter (λ before. EventFits (last_event before)) [] events.now) }
{
    for (i, event) in events.iter().enumerate() {
        if !event_fits(last_of(&events[..i]), event) {
            return false;
        }
    }
    true
}

fn events_fit(events: &[EventEntry]) -> bool
    ensures { Decides result (SectionFits MOST_EVENTS (λ before. EventFits (last_event before)) events.now) }
{
    events.len() <= MOST_EVENTS && each_event_fits(events)
}

/// Do the sections from the records to the order fit?
fn shape_fits(tables: &Tables) -> bool
    ensures { Decides result (SectionFits MOST_RECORDS (λ _. RecordFits) tables.now.records.items
        × SectionFits MOST_ITEMS (λ _. ItemFits) tables.now.items.items × SectionFits MOST_SETS (λ _. SetFits) tables.now.sets.items
        × SectionFits MOST_ORDER (λ _. OrderFits) tables.now.order.items) }
{
    records_fit(&tables.records)
        && items_fit(&tables.items)
        && sets_fit(&tables.sets)
        && order_fit(&tables.order)
}

/// Do the sections from the constants to the globals fit?
fn values_fit(tables: &Tables) -> bool
    ensures { Decides result (SectionFits MOST_CONSTANTS (λ _. FitsSigned w64) tables.now.constants.items
        × SectionFits MOST_LIMITS (λ _. LimitFits) tables.now.limits.items × SectionFits MOST_TEXTS (λ _. TextFits) (map string_bytes tables.now.texts.items)
        × SectionFits MOST_GLOBALS (λ _. GlobalFits) tables.now.globals.items) }
{
    constants_fit(&tables.constants)
        && limits_fit(&tables.limits)
        && texts_fit(&tables.texts)
        && globals_fit(&tables.globals)
}

/// Do the arrays and the messages fit?
fn contents_fit(tables: &Tables) -> bool
    ensures { Decides result (SectionFits MOST_ARRAYS ArrayFits (map array_lists tables.now.arrays.items)
        × SectionFits MOST_MESSAGES (λ _. MessageFits) (map message_lists tables.now.messages.items)) }
{
    arrays_fit(&tables.arrays) && messages_fit(&tables.messages)
}

/// Do the routines and the events fit?
fn routes_fit(tables: &Tables) -> bool
    ensures { Decides result (SectionFits MOST_ROUTINES (λ before. RoutineFits versions.Two (instructions_in before))
        (map routine_lists tables.now.routines.items) × SectionFits MOST_EVENTS (λ before. EventFits (last_event before)) tables.now.events.items) }
{
    if !routines_fit(&tables.routines) {
        return false;
    }
    events_fit(&tables.events)
}

/// Do the sections but the code fit?
pub fn tables_fit(tables: &Tables) -> bool
    ensures { Decides result (ListsFit versions.Two (lists_of tables.now)) }
{
    if !shape_fits(tables) {
        return false;
    }
    if !values_fit(tables) {
        return false;
    }
    if !contents_fit(tables) {
        return false;
    }
    routes_fit(tables)
}

/// There is an instruction for each that the routines tell of.
pub fn is_code_of(routines: &[Routine], code: &[Instr]) -> bool
    requires { instructions_in (map routine_lists routines.now) ≤ MOST_INSTRUCTIONS }
    ensures { Decides result (length code.now ≡ instructions_in (map routine_lists routines.now)) }
{
    code.len() == total_of(routines) as usize
}

/// Each instruction has operands that its opcode may have, in version 2.
pub fn each_instr_fits(code: &[Instr]) -> bool
    ensures { Decides result (AllByRecursion (InstrFits versions.Two) code.now) }
{
    for instr in code {
        if !instr_fits(instr) {
            return false;
        }
    }
    true
}
