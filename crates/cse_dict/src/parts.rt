//! Records, items and value sets, as the sections of a text give them.
ghost use Rattle.std.specs.Prelude.{◌≡◌, ◌++◌, ◌≤◌, [], OnOk, IfOk, codes, unwrap_or};
ghost use Rattle.cse_dict.specs.Context.{no_context};
ghost use Rattle.cse_dict.specs.Keys.{entry_of};
ghost use Rattle.cse_dict.specs.Types.{type_of};
ghost use Rattle.cse_dict.specs.Pairs.{RowsBelow};
ghost use Rattle.cse_dict.specs.Small.{TellsRows};
ghost use Rattle.std.specs.String.{string_bytes};
ghost use Rattle.cse_dict.specs.Dictionary.{ItemText, RecordText, SetText, ascends, code_in, field_or_none, item_in, item_shape_at, items_from, name_at, owner_number, record_in, record_shape_at, records_of, set_at, set_in, sets_from, text_name};

use crate::context::{Context, Owner, context_after, is_in_record, no_context};
use crate::field::{Columns, Field, field_of, is_number, item_kind};
use crate::keys::{DataType, Kind, entry_of, kind_of, number_in, number_or, says_yes};
use crate::record_type::type_of;
use crate::rows::{NumberSpan, rows_of};
use crate::search::ascends;
use crate::small::small_rows;
use cse_sections::number::whole_of;
use cse_sections::sections::Section;
use cse_value::shape::{ItemKind, ItemShape, RecordShape, SetShape};
use std::alloc::{AllocError, Global};
use std::marker::Model;

/// A record: its name in upper case, the characters of its type, and its shape.
#[derive(Drop)]
pub struct Record {
    pub name: String,
    pub record_type: Vec<char>,
    pub shape: RecordShape,
}

impl Model for Record {
    ghost Value = { RecordText };

    ghost view = { λ r. record { name = string_bytes r.name; record_type = r.record_type.items; shape = r.shape } };
}

/// An item: its name in upper case, its shape, whether it is written with zeros, and its code of
/// `missing`.
#[derive(Drop)]
pub struct Item {
    pub name: String,
    pub shape: ItemShape,
    pub zero_fill: bool,
    pub code: Option<i64>,
}

impl Model for Item {
    ghost Value = { ItemText };

    ghost view = { λ i. record { name = string_bytes i.name; shape = i.shape; zero_fill = i.zero_fill; code = i.code } };
}

/// A value set: its name in upper case, its shape, and its pairs of numbers in order.
#[derive(Drop)]
pub struct Set {
    pub name: String,
    pub shape: SetShape,
    pub spans: Vec<NumberSpan>,
    /// Each pair ends before the next one starts, so that a number can be searched for by halves.
    pub is_ascending: bool,
    /// The rows of the numbers from 0 on.
    pub small: Vec<Option<u32>>,
}

impl Model for Set {
    ghost Value = { SetText };

    ghost view = { λ s. record { name = string_bytes s.name; shape = s.shape; spans = s.spans.items } };

    ghost invariant = { λ s. (s.is_ascending ≡ ascends s.spans.items) × RowsBelow s.shape.rows s.spans.items × TellsRows s.small.items s.spans.items };
}

/// A name as a text, in upper case; bytes that aren't UTF-8 are no name.
fn text_name(alloc: Global, bytes: &[u8]) -> Result<String, AllocError>
    ensures { IfOk result (λ s. string_bytes s ≡ text_name bytes.now) }
{
    match str::from_utf8(bytes) {
        Ok(text) => text.to_ascii_uppercase(alloc),
        Err(_) => Ok(String::new(alloc)),
    }
}

/// The name of a section.
#[tactic(auto, unfolding(crate::specs::Dictionary::name_at))]
pub fn name_at(alloc: Global, section: &Section<'_>) -> Result<String, AllocError>
    ensures { IfOk result (λ s. string_bytes s ≡ name_at section.now) }
{
    match entry_of(section, b"Name") {
        Some(entry) => text_name(alloc, entry.value),
        None => Ok(String::new(alloc)),
    }
}

/// The shape of a record.
#[tactic(auto, unfolding(crate::specs::Dictionary::record_shape_at))]
fn record_shape_at(section: &Section<'_>) -> RecordShape
    ensures { result ≡ record_shape_at section.now }
{
    let max_records = number_or(section, b"MaxRecords", 1, 9999, 1).unwrap_or(1);
    let record_len = number_in(section, b"RecordLen", 1, 65535).unwrap_or(0);
    RecordShape {
        max_records: max_records as u16,
        record_len,
    }
}

/// The type of a record, or no characters.
fn type_or_none(
    alloc: Global,
    len: Option<u32>,
    section: &Section<'_>,
) -> Result<Vec<char>, AllocError>
    ensures { IfOk result (λ v. v.items ≡ unwrap_or (type_of len section.now) []) }
{
    match type_of(alloc, len, section)? {
        Some(record_type) => Ok(record_type),
        None => Ok(Vec::new(alloc)),
    }
}

/// The record of a section joins the others, if it is one.
#[tactic(auto, unfolding(crate::specs::Dictionary::record_in))]
fn add_record(
    alloc: Global,
    len: Option<u32>,
    section: &Section<'_>,
    records: &mut Vec<Record>,
) -> Result<(), AllocError>
    ensures { OnOk result (records.new.items ≡ records.old.items ++ record_in len section.now) }
{
    match kind_of(section.heading) {
        Kind::Record => {
            let name = name_at(alloc, section)?;
            let record_type = type_or_none(alloc, len, section)?;
            let shape = record_shape_at(section);
            records.push(Record {
                name,
                record_type,
                shape,
            })?;
            Ok(())
        }
        Kind::Dictionary
        | Kind::Level
        | Kind::IdItems
        | Kind::Item
        | Kind::ValueSet
        | Kind::Other => Ok(()),
    }
}

/// The records of the sections.
pub fn records_of(
    alloc: Global,
    len: Option<u32>,
    read: &[Section<'_>],
) -> Result<Vec<Record>, AllocError>
    ensures { IfOk result (λ v. v.items ≡ records_of len read.now) }
{
    let mut records = Vec::new(alloc);
    'sections: for section in read {
        add_record(alloc, len, section, &mut records)?;
    }
    Ok(records)
}

/// The number of an item's record, or 255.
fn owner_number(owner: Owner, records: u8) -> u8
    ensures { result ≡ owner_number owner records }
{
    match owner {
        Owner::Nobody | Owner::Ids => 255,
        Owner::OfRecord(_) => records.saturating_sub(1),
    }
}

/// The numbers of an item, or none.
#[tactic(auto, unfolding(crate::specs::Dictionary::field_or_none))]
fn field_or_none(section: &Section<'_>) -> Field
    ensures field { result ≡ field_or_none section.now }
    ensures len { result.columns.len ≤ 65535 }
{
    match field_of(section) {
        Some(field) => field,
        None => Field {
            columns: Columns { start: 0, len: 0 },
            occurrences: 1,
            decimal: 0,
            data_type: DataType::Neither,
        },
    }
}

/// The shape of an item.
#[tactic(auto, unfolding(crate::specs::Dictionary::item_shape_at))]
fn item_shape_at(covered: &[Columns], context: Context, section: &Section<'_>) -> ItemShape
    ensures { result ≡ item_shape_at covered.now context section.now }
{
    let field = field_or_none(section);
    ItemShape {
        owner: owner_number(context.owner, context.records),
        kind: item_kind(covered, is_in_record(context.owner), field),
        len: field.columns.len as u16,
        start: field.columns.start,
    }
}

/// The code of an item of this kind.
fn code_in(kind: ItemKind, section: &Section<'_>) -> Option<i64>
    ensures { result ≡ code_in kind (entry_of (codes "EditMissing") section.now) }
{
    if !is_number(kind) {
        return None;
    }
    let entry = entry_of(section, b"EditMissing")?;
    whole_of(entry.value)
}

/// The item of a section joins the others, if it is one.
#[tactic(auto, unfolding(crate::specs::Dictionary::item_in))]
fn add_item(
    alloc: Global,
    covered: &[Columns],
    context: Context,
    section: &Section<'_>,
    items: &mut Vec<Item>,
) -> Result<(), AllocError>
    ensures { OnOk result (items.new.items ≡ items.old.items ++ item_in covered.now context section.now) }
{
    match kind_of(section.heading) {
        Kind::Item => {
            let name = name_at(alloc, section)?;
            let shape = item_shape_at(covered, context, section);
            let zero_fill = says_yes(section, b"ZeroFill");
            let code = code_in(shape.kind, section);
            items.push(Item {
                name,
                shape,
                zero_fill,
                code,
            })?;
            Ok(())
        }
        Kind::Dictionary
        | Kind::Level
        | Kind::IdItems
        | Kind::Record
        | Kind::ValueSet
        | Kind::Other => Ok(()),
    }
}

/// The items of the sections.
pub fn items_of(
    alloc: Global,
    covered: &[Columns],
    read: &[Section<'_>],
) -> Result<Vec<Item>, AllocError>
    ensures { IfOk result (λ v. v.items ≡ items_from covered.now no_context read.now) }
{
    let mut items = Vec::new(alloc);
    let mut context = no_context();
    'sections: for section in read {
        add_item(alloc, covered, context, section, &mut items)?;
        context = context_after(context, section);
    }
    Ok(items)
}

/// A value set.
#[tactic(auto, unfolding(crate::specs::Dictionary::set_at))]
fn set_at(alloc: Global, context: Context, section: &Section<'_>) -> Result<Set, AllocError>
    ensures { IfOk result (λ s. s ≡ set_at context section.now) }
{
    let name = name_at(alloc, section)?;
    let rows = rows_of(alloc, context.data_type, section)?;
    let shape = SetShape {
        item: context.items.saturating_sub(1),
        rows: rows.rows,
        partial: rows.partial,
    };
    let is_ascending = ascends(&rows.spans);
    let small = small_rows(alloc, &rows.spans, is_ascending)?;
    Ok(Set {
        name,
        shape,
        spans: rows.spans,
        is_ascending,
        small,
    })
}

/// The value set of a section joins the others, if it is one.
#[tactic(auto, unfolding(crate::specs::Dictionary::set_in))]
fn add_set(
    alloc: Global,
    context: Context,
    section: &Section<'_>,
    sets: &mut Vec<Set>,
) -> Result<(), AllocError>
    ensures { OnOk result (sets.new.items ≡ sets.old.items ++ set_in context section.now) }
{
    match kind_of(section.heading) {
        Kind::ValueSet => {
            sets.push(set_at(alloc, context, section)?)?;
            Ok(())
        }
        Kind::Dictionary | Kind::Level | Kind::IdItems | Kind::Record | Kind::Item | Kind::Other =>
            Ok(()),
    }
}

/// The value sets of the sections.
pub fn sets_of(alloc: Global, read: &[Section<'_>]) -> Result<Vec<Set>, AllocError>
    ensures { IfOk result (λ v. v.items ≡ sets_from no_context read.now) }
{
    let mut sets = Vec::new(alloc);
    let mut context = no_context();
    'sections: for section in read {
        add_set(alloc, context, section, &mut sets)?;
        context = context_after(context, section);
    }
    Ok(sets)
}
