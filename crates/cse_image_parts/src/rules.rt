//! The rules of the fields of variables, arrays, routines and events, each once (own).

ghost use Rattle.std.specs.Prelude.{◌≡◌, ◌≤◌, length, map};
ghost use Rattle.cse_image_parts.specs.Fields.{is_text_length, fits_global_length, fits_local_length, fits_owner, fits_kind, are_locals, is_limit, is_dimension_count, is_dimension, product, is_room_for_cells, fits_cells, is_room_for_code, last_event, is_after};

use crate::entries::{EventCode, EventEntry, GlobalKind, LocalKind};
use crate::limits::{MOST_CELLS, MOST_CHARACTERS, MOST_DIMENSIONS, MOST_INSTRUCTIONS};

/// The length of a text variable: 1 to 255 characters.
fn is_right_text_length(length: u16) -> bool
    ensures { result ≡ is_text_length length }
{
    1 <= length && length as usize <= MOST_CHARACTERS
}

/// A global has the length of a text, or 0 where it is a number.
pub fn is_right_global_length(kind: GlobalKind, length: u16) -> bool
    ensures { result ≡ fits_global_length kind length }
{
    match kind {
        GlobalKind::Number => length == 0,
        GlobalKind::Text => is_right_text_length(length),
    }
}

/// A local has the length of a text, or 0 where it is none.
pub fn is_right_local_length(kind: LocalKind, length: u16) -> bool
    ensures { result ≡ fits_local_length kind length }
{
    match kind {
        LocalKind::Number | LocalKind::Occurrence => length == 0,
        LocalKind::Text => is_right_text_length(length),
    }
}

/// An occurrence names its record, and another kind has 0.
pub fn is_right_owner(kind: LocalKind, owner: u8) -> bool
    ensures { result ≡ fits_owner kind owner }
{
    match kind {
        LocalKind::Number | LocalKind::Text => owner == 0,
        LocalKind::Occurrence => true,
    }
}

/// An occurrence is a parameter: the local at this place, from 0, is one of so many parameters.
pub fn is_right_kind(parameters: u8, index: u8, kind: LocalKind) -> bool
    ensures { result ≡ fits_kind parameters index kind }
{
    match kind {
        LocalKind::Number | LocalKind::Text => true,
        LocalKind::Occurrence => index < parameters,
    }
}

/// The parameters are among the locals.
pub fn has_parameters(parameters: u8, count: u8) -> bool
    ensures { result ≡ are_locals parameters count }
{
    parameters <= count
}

/// A counting loop may take a turn.
pub fn is_right_limit(limit: u32) -> bool
    ensures { result ≡ is_limit limit }
{
    limit != 0
}

/// An array has one to three dimensions.
pub fn is_count_of_dimensions(count: u8) -> bool
    ensures { result ≡ is_dimension_count count }
{
    1 <= count && count as usize <= MOST_DIMENSIONS
}

/// A dimension has at least one cell.
pub fn is_right_dimension(dimension: u16) -> bool
    ensures { result ≡ is_dimension dimension }
{
    dimension != 0
}

/// How many cells an array of these dimensions has.
pub fn cells_for(dimensions: &[u16]) -> u64
    requires { length dimensions.now ≤ MOST_DIMENSIONS }
    ensures { result ≡ product dimensions.now }
{
    match dimensions {
        [] => 1,
        [a] => *a as u64,
        [a, b] => *a as u64 * *b as u64,
        [a, b, c] => *a as u64 * *b as u64 * *c as u64,
        _ => unreachable!(),
    }
}

/// Beside so many cells there is room for an array of these dimensions.
pub fn has_room_for_cells(before: u64, dimensions: &[u16]) -> bool
    requires few { length dimensions.now ≤ MOST_DIMENSIONS }
    requires small { before ≤ MOST_CELLS }
    ensures { result ≡ is_room_for_cells before dimensions.now }
{
    let cells = cells_for(dimensions);
    cells <= MOST_CELLS && before <= MOST_CELLS - cells
}

/// An array of these dimensions has at most as many starting cells as cells.
pub fn is_right_cell_count(dimensions: &[u16], count: u32) -> bool
    requires { length dimensions.now ≤ MOST_DIMENSIONS }
    ensures { result ≡ fits_cells dimensions.now count }
{
    count as u64 <= cells_for(dimensions)
}

/// A routine has an instruction, and beside so many there is room for its own.
pub fn has_room_for_code(before: u32, instructions: u32) -> bool
    requires { before ≤ MOST_INSTRUCTIONS }
    ensures { result ≡ is_room_for_code before instructions }
{
    1 <= instructions && instructions <= MOST_INSTRUCTIONS - before
}

/// The last of the events, if there is one.
pub fn last_of(events: &[EventEntry]) -> Option<EventEntry>
    ensures { result ≡ last_event events.now }
{
    events.last().copied()
}

/// Events stand in ascending order of code and index, and none comes twice.
pub fn comes_after(last: Option<EventEntry>, code: EventCode, index: u16) -> bool
    ensures { result ≡ is_after last code index }
{
    match last {
        None => true,
        Some(event) => (event.code as u8, event.index) < (code as u8, index),
    }
}
