//! The tables of an image: all sections but the code.

ghost use Rattle.std.specs.Prelude.{◌≡◌, ◌≤◌, OnOk, map};
ghost use Rattle.cse_image_parts.specs.Reader.{Gives};
ghost use Rattle.cse_image_parts.specs.Image.{routine_lists, lists_of};
ghost use Rattle.cse_image_parts.specs.Fields.{instructions_in};
ghost use Rattle.cse_image.specs.Reading.{lists_at};
ghost use Rattle.cse_image.specs.Empty.{no_lists};

use crate::read_arrays::arrays_of;
use crate::read_entries::section_of;
use crate::read_routines::routines_of;
use crate::read_values::limits_of;
use cse_image_parts::ReadStop;
use cse_image_parts::entries::{Routine, Tables};
use cse_image_parts::limits::{
    MOST_CONSTANTS, MOST_EVENTS, MOST_GLOBALS, MOST_INSTRUCTIONS, MOST_ITEMS, MOST_MESSAGES,
    MOST_ORDER, MOST_RECORDS, MOST_SETS, MOST_TEXTS,
};
use cse_image_parts::version::Version;
use std::alloc::Global;

/// Tables that have nothing.
pub fn no_tables(alloc: Global) -> Tables
    ensures { lists_of result ≡ no_lists }
{
    Tables {
        records: Vec::new(alloc),
        items: Vec::new(alloc),
        sets: Vec::new(alloc),
        order: Vec::new(alloc),
        constants: Vec::new(alloc),
        limits: Vec::new(alloc),
        texts: Vec::new(alloc),
        globals: Vec::new(alloc),
        arrays: Vec::new(alloc),
        messages: Vec::new(alloc),
        routines: Vec::new(alloc),
        events: Vec::new(alloc),
    }
}

/// All tables behind the header, in the order of the format, into tables that have nothing yet; and the bytes of the
/// code after them.
pub fn tables_of<'a>(
    alloc: Global,
    version: Version,
    tables: &mut Tables,
    bytes: &'a [u8],
) -> Result<&'a [u8], ReadStop>
    requires { lists_of tables.old ≡ no_lists }
    ensures exact { Gives (λ x. (lists_of tables.new, x.now)) result (lists_at version bytes.now) }
    ensures room { OnOk result (instructions_in (map routine_lists tables.new.routines.items) ≤ MOST_INSTRUCTIONS) }
{
    let at_items = section_of(alloc, MOST_RECORDS, &mut tables.records, Ok(bytes));
    let at_sets = section_of(alloc, MOST_ITEMS, &mut tables.items, at_items);
    let at_order = section_of(alloc, MOST_SETS, &mut tables.sets, at_sets);
    let at_constants = section_of(alloc, MOST_ORDER, &mut tables.order, at_order);
    let at_limits = section_of(alloc, MOST_CONSTANTS, &mut tables.constants, at_constants);
    let at_texts = limits_of(version, &mut tables.limits, at_limits);
    let at_globals = section_of(alloc, MOST_TEXTS, &mut tables.texts, at_texts);
    let at_arrays = section_of(alloc, MOST_GLOBALS, &mut tables.globals, at_globals);
    let at_messages = arrays_of(alloc, &mut tables.arrays, at_arrays);
    let at_routines = section_of(alloc, MOST_MESSAGES, &mut tables.messages, at_messages);
    let at_events = routines_of(alloc, version, &mut tables.routines, at_routines);
    section_of(alloc, MOST_EVENTS, &mut tables.events, at_events)
}

/// How many instructions these routines have.
#[tactic(auto, using(crate::proofs::Totals::total_is))]
pub fn total_of(routines: &[Routine]) -> u32
    requires { instructions_in (map routine_lists routines.now) ≤ MOST_INSTRUCTIONS }
    ensures { result ≡ instructions_in (map routine_lists routines.now) }
{
    routines.iter().map(|r| r.instructions).sum()
}
