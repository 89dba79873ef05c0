//! The columns of an item in a line.

ghost use Rattle.std.specs.Prelude.{◌≡◌, ◌<◌, ◌≤◌, ◌+◌, ◌-◌, ◌^◌, length, min, replicate, take, drop, true, false};
ghost use Rattle.cse_value.specs.Field.{put, put_text};
ghost use Rattle.cse_dict.specs.Dictionary.{code_at, zero_fill_at};
ghost use Rattle.cse_case.specs.Bytes.{columns_lent};
ghost use Rattle.cse_case.specs.Run.{with_columns};
ghost use Rattle.cse_case.specs.Field.{field_of, rewritten};
ghost use Rattle.cse_case.specs.ItemEntry.{IsShort, IsThere, entry_columns};

use crate::{Columns, Filled, Line};
use cse_dict::Dictionary;
use cse_value::shape::ItemShape;
use cse_value::{Num, Text, put_num};

/// Where the columns of an item begin among those of a line, from 0; at most their number.
fn start_in(item: &ItemShape, width: usize) -> usize
    ensures { result ≡ min (item.now.start - 1) width }
{
    (item.start as usize).saturating_sub(1).min(width)
}

/// The item's columns, as many as there are.
pub fn field_of<'a>(item: &ItemShape, columns: Columns<'a>) -> Columns<'a>
    ensures { columns_lent result ≡ field_of item.now (columns_lent columns.entry) }
{
    let start = start_in(item, columns.len());
    let count = (item.len as usize).min(columns.len() - start);
    columns.part(start, count)
}

/// Columns among others: where they begin, from 0, and how many there are.
#[derive(Clone, Copy)]
pub struct Part<'a> {
    pub columns: Columns<'a>,
    pub start: usize,
    pub len: usize,
}

/// The item's columns in a line that has them all, among the columns of its run, of which the line's begin
/// at this place.
#[inline(always)]
pub fn whole_field<'a>(item: &ItemShape, columns: Columns<'a>, first: usize) -> Part<'a>
    requires start { 1 ≤ item.now.start }
    requires whole { first + (item.now.start - 1) + item.now.len ≤ length (columns_lent columns) }
    ensures within { result.start + result.len ≤ length (columns_lent result.columns) }
    ensures columns { take result.len (drop result.start (columns_lent result.columns)) ≡ field_of item.now (drop first (columns_lent columns.entry)) }
    ensures whole { result.len ≡ item.now.len }
{
    Part {
        columns,
        start: first + (item.start as usize - 1),
        len: item.len as usize,
    }
}

/// What is written into an item: a number, with the zeros and the code of an item of a dictionary, or a text.
pub enum ItemEntry<'t> {
    Number {
        value: Num,
        dictionary: &'t Dictionary,
        item: u16,
    },
    Words(&'t Text),
}

/// Writes characters over columns from a place on.
fn write_characters(columns: &mut Filled, start: usize, characters: &[char])
    requires whole { start + length characters.now ≤ length columns.old }
    requires small { start + length characters.now < 2 ^ 64 }
    ensures { columns.new ≡ with_columns start characters.now columns.old }
{
    'columns: for i in 0..characters.len() {
        columns.put(start + i, characters[i]);
    }
}

/// Writes any value over so many columns from a place on.
#[inline(never)]
fn write_any(
    columns: &mut Filled,
    start: usize,
    len: usize,
    value: Num,
    dictionary: &Dictionary,
    item: u16,
)
    requires whole { start + len ≤ length columns.old }
    requires small { start + len < 2 ^ 64 }
    requires few { len ≤ 15 }
    requires item { item < length dictionary.now.items }
    ensures columns { columns.new ≡ with_columns start (put len value (zero_fill_at dictionary.now item) (code_at dictionary.now item)) columns.old }
{
    let mut characters = [' '; 15];
    let field = &mut characters[..len];
    put_num(
        field,
        value,
        dictionary.zero_fill(item),
        dictionary.code(item),
    );
    write_characters(columns, start, field);
}

/// Writes a number over so many columns from a place on. Its item's code is looked up only where it may be written.
#[inline(always)]
#[tactic(auto, unfolding(cse_value::specs::Field::put))]
fn write_number(
    columns: &mut Filled,
    start: usize,
    len: usize,
    value: Num,
    dictionary: &Dictionary,
    item: u16,
)
    requires whole { start + len ≤ length columns.old }
    requires small { start + len < 2 ^ 64 }
    requires few { len ≤ 15 }
    requires item { item < length dictionary.now.items }
    ensures columns { columns.new ≡ with_columns start (put len value (zero_fill_at dictionary.now item) (code_at dictionary.now item)) columns.old }
{
    if let Num::Whole(number) = value {
        if columns.put_few(start, len, number, dictionary.zero_fill(item)) {
            return;
        }
    }
    write_any(columns, start, len, value, dictionary, item);
}

/// Writes a text over so many columns from a place on, cut to them or padded with blanks.
#[inline(never)]
fn write_text(columns: &mut Filled, start: usize, len: usize, text: &Text)
    requires whole { start + len ≤ length columns.old }
    requires small { start + len < 2 ^ 64 }
    ensures columns { columns.new ≡ with_columns start (put_text len text.now.items) columns.old }
{
    let characters = text.as_slice();
    let count = characters.len().min(len);
    write_characters(columns, start, &characters[..count]);
    columns.put_blanks(start + count, len - count);
}

/// Writes into an item of a line that has all its columns, among the columns of its run, of which the
/// line's begin at this place.
#[inline(always)]
pub fn write_field(columns: &mut Filled, first: usize, item: &ItemShape, entry: ItemEntry<'_>)
    requires start { 1 ≤ item.now.start }
    requires whole { first + (item.now.start - 1) + item.now.len ≤ length columns.old }
    requires there { IsThere entry }
    requires short { IsShort entry item.now.len }
    ensures columns { columns.new ≡ with_columns (first + (item.now.start - 1)) (entry_columns entry.entry item.now.len) columns.old }
{
    let _width = columns.len();
    let start = first + (item.start as usize - 1);
    let len = item.len as usize;
    match entry {
        ItemEntry::Number {
            value,
            dictionary,
            item,
        } => write_number(columns, start, len, value, dictionary, item),
        ItemEntry::Words(text) => write_text(columns, start, len, text),
    }
}

/// The columns of a line among those of its run.
pub fn line_columns(columns: Columns<'_>, line: Line) -> Columns<'_>
    requires { line.first + line.width ≤ length (columns_lent columns) }
    ensures { columns_lent result ≡ take line.width (drop line.first (columns_lent columns.entry)) }
{
    columns.part(line.first, line.width)
}

/// The columns of a run from this place on.
#[inline(always)]
pub fn columns_from(columns: Columns<'_>, first: usize) -> Columns<'_>
    requires { first ≤ length (columns_lent columns) }
    ensures { columns_lent result ≡ drop first (columns_lent columns.entry) }
{
    columns.part(first, columns.len() - first)
}
