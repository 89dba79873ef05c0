//! The section of arrays.

ghost use Rattle.std.specs.Prelude.{◌≡◌, ◌<◌, ◌≤◌, ◌+◌, ◌^◌, [], ◌∷◌, ◌++◌, Err, IfOk, IfErr, OnOk, map, length};
ghost use Rattle.std.specs.String.{string_bytes};
ghost use Rattle.cse_image_parts.specs.Reader.{Gives, GivesFault, number, checked, many, counted};
ghost use Rattle.cse_image_parts.specs.declared.fault.Rule.TheVariants.{Limit};
ghost use Rattle.cse_image_parts.specs.Image.{array_lists};
ghost use Rattle.cse_image_parts.specs.Fields.{product, cells_in, is_dimension_count, fits_cells};
ghost use Rattle.cse_image.specs.Reading.{has_room_at_last, dimension_at, name_at, array_at};

use crate::read_shape::flag_of;
use cse_image_parts::entries::Array;
use cse_image_parts::limits::{MOST_ARRAYS, MOST_CELLS, MOST_DIMENSIONS};
use cse_image_parts::rules::{
    cells_for, is_count_of_dimensions, is_right_cell_count, is_right_dimension,
};
use cse_image_parts::texts::{array_name, is_new_name};
use cse_image_parts::{
    FieldFault, ReadStop, Rule, broken, bytes_at, count_at, i64s_at, u8_at, u16_at, u32_at,
    zero_u8_at,
};
use std::alloc::Global;

/// How many dimensions an array has.
#[tactic(auto, unfolding(cse_image_parts::specs::Reader::checked))]
fn rank_of(bytes: &[u8]) -> Result<(u8, &[u8]), FieldFault>
    ensures exact { GivesFault (λ x. (x.0, x.1.now)) result (checked Limit is_dimension_count (number 1) bytes.now) }
    ensures some { IfOk result (λ x. 0 < x.0) }
    ensures few { IfOk result (λ x. x.0 ≤ MOST_DIMENSIONS) }
{
    let (rank, rest) = u8_at(bytes)?;
    if !is_count_of_dimensions(rank) {
        return Err(broken(Rule::Limit, bytes));
    }
    Ok((rank, rest))
}

/// How many cells an array of these dimensions and one more has.
fn cells_with(before: &[u16], last: u16) -> u64
    requires { length before.now < MOST_DIMENSIONS }
    ensures same { result ≡ product (before.now ++ last ∷ []) }
    ensures small { result < 2 ^ 48 }
{
    match before {
        [] => last as u64,
        [a] => *a as u64 * last as u64,
        [a, b] => *a as u64 * *b as u64 * last as u64,
        _ => unreachable!(),
    }
}

/// Is this not the last of so many dimensions, or has its array room beside so many cells?
pub fn fits_last(cells: u64, rank: u8, before: &[u16], dimension: u16) -> bool
    requires few { length before.now < MOST_DIMENSIONS }
    requires small { cells ≤ MOST_CELLS }
    ensures { result ≡ has_room_at_last cells rank (before.now ++ dimension ∷ []) }
{
    before.len() + 1 != rank as usize || cells + cells_with(before, dimension) <= MOST_CELLS
}

/// One of so many dimensions, after those before it, beside so many cells.
#[tactic(auto, unfolding(cse_image_parts::specs::Reader::checked, crate::specs::Reading::dimension_at))]
fn dimension_of<'a>(
    cells: u64,
    rank: u8,
    before: &[u16],
    bytes: &'a [u8],
) -> Result<(u16, &'a [u8]), FieldFault>
    requires few { length before.now < MOST_DIMENSIONS }
    requires small { cells ≤ MOST_CELLS }
    ensures exact { GivesFault (λ x. (x.0, x.1.now)) result (dimension_at cells rank before.now bytes.now) }
    ensures room { IfOk result (λ x. length before.now + 1 ≡ rank → cells + product (before.now ++ x.0 ∷ []) ≤ MOST_CELLS) }
{
    let (dimension, rest) = u16_at(bytes)?;
    if !is_right_dimension(dimension) {
        return Err(broken(Rule::Form, bytes));
    }
    if !fits_last(cells, rank, before, dimension) {
        return Err(broken(Rule::Limit, bytes));
    }
    Ok((dimension, rest))
}

fn dimensions_in<'a>(
    dimensions: &mut Vec<u16>,
    cells: u64,
    rank: u8,
    bytes: &'a [u8],
) -> Result<&'a [u8], ReadStop>
    requires empty { dimensions.old.items ≡ [] }
    requires few { rank ≤ MOST_DIMENSIONS }
    requires small { cells ≤ MOST_CELLS }
    ensures exact { Gives (λ x. (dimensions.new.items, x.now)) result (many (dimension_at cells rank) [] rank bytes.now) }
    ensures count { OnOk result (length dimensions.new.items ≡ rank) }
    ensures room { OnOk result (0 < rank → cells + product dimensions.new.items ≤ MOST_CELLS) }
{
    let mut rest = bytes;
    for _ in 0..rank {
        let (dimension, after) = dimension_of(cells, rank, dimensions, rest)?;
        dimensions.push(dimension)?;
        rest = after;
    }
    Ok(rest)
}

#[tactic(auto, unfolding(cse_image_parts::specs::Reader::checked, crate::specs::Reading::name_at))]
fn name_of<'a>(
    out: &mut String,
    before: &[Array],
    len: u8,
    bytes: &'a [u8],
) -> Result<&'a [u8], ReadStop>
    requires { string_bytes out.old ≡ [] }
    ensures { Gives (λ x. (string_bytes out.new, x.now)) result (name_at (map array_lists before.now) len bytes.now) }
{
    let (name, rest) = bytes_at(len as usize, bytes)?;
    let Some(text) = array_name(name) else {
        return Err(ReadStop::from(broken(Rule::Form, bytes)));
    };
    if !is_new_name(before, name) {
        return Err(ReadStop::from(broken(Rule::Form, bytes)));
    }
    out.push_str(text)?;
    Ok(rest)
}

#[tactic(auto, unfolding(cse_image_parts::specs::Reader::checked))]
fn cell_count_of<'a>(dimensions: &[u16], bytes: &'a [u8]) -> Result<(u32, &'a [u8]), FieldFault>
    requires { length dimensions.now ≤ MOST_DIMENSIONS }
    ensures { GivesFault (λ x. (x.0, x.1.now)) result (checked Limit (fits_cells dimensions.now) (number 4) bytes.now) }
{
    let (count, rest) = u32_at(bytes)?;
    if !is_right_cell_count(dimensions, count) {
        return Err(broken(Rule::Limit, bytes));
    }
    Ok((count, rest))
}

/// Reads an array into one that has nothing yet, after arrays that have so many cells.
fn fill_array<'a>(
    alloc: Global,
    array: &mut Array,
    before: &[Array],
    cells: u64,
    bytes: &'a [u8],
) -> Result<&'a [u8], ReadStop>
    requires no_dimensions { array.old.dimensions.items ≡ [] }
    requires no_name { string_bytes array.old.name ≡ [] }
    requires cells { cells ≡ cells_in (map array_lists before.now) }
    requires small { cells ≤ MOST_CELLS }
    ensures exact { Gives (λ x. (array_lists array.new, x.now)) result (array_at (map array_lists before.now) bytes.now) }
    ensures few { OnOk result (length array.new.dimensions.items ≤ MOST_DIMENSIONS) }
    ensures room { OnOk result (cells + product array.new.dimensions.items ≤ MOST_CELLS) }
{
    let (saved, rest) = flag_of(bytes)?;
    let (rank, rest) = rank_of(rest)?;
    let (len, rest) = u8_at(rest)?;
    let (_, rest) = zero_u8_at(rest)?;
    let at_name = dimensions_in(&mut array.dimensions, cells, rank, rest)?;
    let at_count = name_of(&mut array.name, before, len, at_name)?;
    let (count, rest) = cell_count_of(&array.dimensions, at_count)?;
    let (cells, rest) = i64s_at(alloc, count, rest)?;
    array.saved = saved;
    array.cells = cells;
    Ok(rest)
}

/// An array, after arrays that have so many cells.
fn array_of<'a>(
    alloc: Global,
    before: &[Array],
    cells: u64,
    bytes: &'a [u8],
) -> Result<(Array, &'a [u8]), ReadStop>
    requires cells { cells ≡ cells_in (map array_lists before.now) }
    requires small { cells ≤ MOST_CELLS }
    ensures exact { Gives (λ x. (array_lists x.0, x.1.now)) result (array_at (map array_lists before.now) bytes.now) }
    ensures few { IfOk result (λ x. length x.0.dimensions.items ≤ MOST_DIMENSIONS) }
    ensures room { IfOk result (λ x. cells + product x.0.dimensions.items ≤ MOST_CELLS) }
{
    let mut array = Array {
        saved: false,
        dimensions: Vec::new(alloc),
        name: String::new(alloc),
        cells: Vec::new(alloc),
    };
    match fill_array(alloc, &mut array, before, cells, bytes) {
        Ok(rest) => Ok((array, rest)),
        Err(stop) => Err(stop),
    }
}

fn arrays_in<'a>(
    alloc: Global,
    arrays: &mut Vec<Array>,
    count: u32,
    bytes: &'a [u8],
) -> Result<&'a [u8], ReadStop>
    requires { arrays.old.items ≡ [] }
    ensures { Gives (λ x. (map array_lists arrays.new.items, x.now)) result (many array_at [] count bytes.now) }
{
    let mut cells = 0;
    let mut rest = bytes;
    for _ in 0..count {
        let (array, after) = array_of(alloc, arrays, cells, rest)?;
        cells += cells_for(&array.dimensions);
        arrays.push(array)?;
        rest = after;
    }
    Ok(rest)
}

/// The table of arrays, from where the bytes before it end, into a list that has none yet: their count, then each; and
/// the bytes after it.
#[tactic(auto, unfolding(cse_image_parts::specs::Reader::then_at, cse_image_parts::specs::Reader::counted))]
pub fn arrays_of<'a>(
    alloc: Global,
    arrays: &mut Vec<Array>,
    bytes: Result<&'a [u8], ReadStop>,
) -> Result<&'a [u8], ReadStop>
    requires { arrays.old.items ≡ [] }
    ensures exact { IfOk bytes.entry (λ b. Gives (λ x. (map array_lists arrays.new.items, x.now)) result (counted MOST_ARRAYS array_at b.now)) }
    ensures stopped { IfErr bytes.entry (λ e. result ≡ Err e) }
{
    let (count, rest) = count_at(MOST_ARRAYS, bytes?)?;
    arrays_in(alloc, arrays, count, rest)
}
