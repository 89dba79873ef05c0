//! Whether the events of a program fit.

ghost use Rattle.std.specs.Prelude.{◌≡◌, ◌==◌, nat_lt, count_by};
ghost use Rattle.cse_value.specs.Shape.{shape_lists};
ghost use Rattle.cse_image_parts.specs.Image.{lists_of, routine_lists};
ghost use Rattle.cse_code_typing.specs.Order.{NamesEachOnce, all_events_fit, gives_nothing, is_handler, occurs_in, is_occurrence_of, handles_item, handles, fits_event};
ghost use Rattle.std.specs.List.{list_all};
ghost use Rattle.std.specs.Bool.{Decides};

use cse_image_parts::entries::{
    Ambient, EventCode, EventEntry, Gift, Local, LocalKind, Routine, Tables,
};
use cse_value::shape::{ID_OWNER, ItemShape, Shape};

fn gives_nothing(gives: Gift) -> bool
    ensures { result ≡ gives_nothing gives }
{
    match gives {
        Gift::Nothing => true,
        Gift::Number | Gift::Text => false,
    }
}

/// Whether a routine is of the whole run, or of a case, takes so many parameters and gives nothing.
fn is_handler(run: bool, parameters: u8, routine: &Routine) -> bool
    ensures { result ≡ is_handler run parameters (routine_lists routine.now) }
{
    let of_run = match routine.ambient {
        Ambient::Run => run,
        Ambient::Case => !run,
    };
    of_run && routine.parameters == parameters && gives_nothing(routine.gives)
}

fn is_occurrence_of(owner: u8, local: Option<Local>) -> bool
    ensures { result ≡ is_occurrence_of owner local }
{
    match local {
        None => false,
        Some(found) => match found.kind {
            LocalKind::Occurrence => found.owner == owner,
            _ => false,
        },
    }
}

/// Whether a routine serves an item: it isn't an id item, and the routine's parameter is an occurrence
/// of its record.
fn handles_item(item: Option<ItemShape>, routine: &Routine) -> bool
    ensures { result ≡ handles_item item (routine_lists routine.now) }
{
    match item {
        None => false,
        Some(found) => {
            found.owner != ID_OWNER
                && is_handler(false, 1, routine)
                && is_occurrence_of(found.owner, routine.locals.get(0).copied())
        }
    }
}

/// Whether a routine is what an event of this code and index wants.
fn handles(shape: &Shape, code: EventCode, index: u16, routine: &Routine) -> bool
    ensures { result ≡ handles (shape_lists shape.now) code index (routine_lists routine.now) }
{
    match code {
        EventCode::ApplicationPreproc => index == 0 && is_handler(true, 0, routine),
        EventCode::ApplicationPostproc => index == 0 && is_handler(true, 0, routine),
        EventCode::LevelPreproc => index == 0 && is_handler(false, 0, routine),
        EventCode::LevelPostproc => index == 0 && is_handler(false, 0, routine),
        EventCode::RecordPreproc => {
            (index as usize) < shape.records.len() && is_handler(false, 0, routine)
        }
        EventCode::RecordPostproc => {
            (index as usize) < shape.records.len() && is_handler(false, 0, routine)
        }
        EventCode::ItemPreproc => {
            handles_item(shape.items.get(index as usize).copied(), routine)
        }
        EventCode::ItemPostproc => {
            handles_item(shape.items.get(index as usize).copied(), routine)
        }
    }
}

/// Whether an event fits (own): its routine is there and gives nothing. The application's events want
/// a routine of the whole run without parameters, those of the level and of records a case routine
/// without parameters, and those of items, which are no id items, a case routine with one parameter,
/// an occurrence of the item's record. The index is that of the record or item, else 0.
pub fn fits_event(shape: &Shape, tables: &Tables, event: EventEntry) -> bool
    ensures { result ≡ fits_event (shape_lists shape.now) (lists_of tables.now) event }
{
    match tables.routines.get(event.routine as usize) {
        None => false,
        Some(routine) => handles(shape, event.code, event.index, routine),
    }
}

/// Whether each event of a program fits.
pub fn all_events_fit(shape: &Shape, tables: &Tables) -> bool
    ensures { result ≡ all_events_fit (shape_lists shape.now) (lists_of tables.now) }
{
    'events: for i in 0..tables.events.len() {
        if !fits_event(shape, tables, tables.events[i]) {
            return false;
        }
    }
    true
}

/// How often a record is named.
fn count_of(order: &[u32], number: u32) -> usize
    ensures { result ≡ count_by (λ o. o == number) order.now }
{
    let mut count = 0;
    'order: for i in 0..order.len() {
        if order[i] == number {
            count += 1;
        }
    }
    count
}

fn are_below(order: &[u32], count: u32) -> bool
    ensures { result ≡ list_all (λ o. nat_lt o count) order.now }
{
    'order: for i in 0..order.len() {
        if order[i] >= count {
            return false;
        }
    }
    true
}

/// Whether the order names each of so many records exactly once, and nothing else. Takes no memory;
/// the time is quadratic in the records, of which there are at most 200.
pub fn names_each_once(order: &[u32], count: u32) -> bool
    ensures { Decides result (NamesEachOnce count order.now) }
{
    if !are_below(order, count) {
        return false;
    }
    'records: for number in 0..count {
        if count_of(order, number) != 1 {
            return false;
        }
    }
    true
}
