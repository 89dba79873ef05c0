//! The columns of an item, and what logic may do with it.
ghost use Rattle.std.specs.Prelude.{◌≡◌, ◌≤◌, IfSome};
ghost use Rattle.std.specs.List.{list_any};
ghost use Rattle.cse_dict.specs.Fields.{columns_of, field_of, is_number, is_opaque, is_unfit, item_kind, kind_by_type, share_column, type_columns_of};

use crate::keys::{DataType, data_type_of, number_in, number_or};
use crate::record_type::type_len_of;
use cse_sections::sections::Section;
use cse_value::shape::ItemKind;

/// A range of columns: the first, counted from 1, and how many.
#[derive(Clone, Copy)]
pub struct Columns {
    pub start: u32,
    pub len: u32,
}

/// An item whose numbers are all readable.
#[derive(Clone, Copy)]
pub struct Field {
    pub columns: Columns,
    pub occurrences: u32,
    pub decimal: u32,
    pub data_type: DataType,
}

/// The columns of an item, if both keys are readable.
#[tactic(auto, unfolding(crate::specs::Fields::columns_of))]
pub fn columns_of(section: &Section<'_>) -> Option<Columns>
    ensures columns { result ≡ columns_of section.now }
    ensures start { IfSome result (λ c. c.start ≤ 65535) }
    ensures len { IfSome result (λ c. c.len ≤ 65535) }
{
    let start = number_in(section, b"Start", 1, 65535)?;
    let len = number_in(section, b"Len", 1, 65535)?;
    Some(Columns { start, len })
}

/// The item, if all its numbers are readable.
#[tactic(auto, unfolding(crate::specs::Fields::field_of))]
pub fn field_of(section: &Section<'_>) -> Option<Field>
    ensures field { result ≡ field_of section.now }
    ensures len { IfSome result (λ f. f.columns.len ≤ 65535) }
{
    let columns = columns_of(section)?;
    let occurrences = number_or(section, b"Occurrences", 1, 65535, 1)?;
    let decimal = number_or(section, b"Decimal", 0, 255, 0)?;
    let data_type = data_type_of(section);
    Some(Field {
        columns,
        occurrences,
        decimal,
        data_type,
    })
}

/// Whether two ranges of columns share one.
#[tactic(auto, unfolding(crate::specs::Fields::share_column))]
fn share_column(a: Columns, b: Columns) -> bool
    ensures { result ≡ share_column a b }
{
    let end_a = u64::from(a.start) + u64::from(a.len);
    let end_b = u64::from(b.start) + u64::from(b.len);
    u64::from(a.start) < end_b && u64::from(b.start) < end_a
}

/// Whether the columns share one with any of the others.
fn shares_any(columns: Columns, covered: &[Columns]) -> bool
    ensures { result ≡ list_any (share_column columns) covered.now }
{
    covered.iter().any(|other| share_column(columns, *other))
}

/// Whether a length doesn't fit its type.
fn is_unfit(data_type: DataType, len: u32) -> bool
    ensures { result ≡ is_unfit data_type len }
{
    match data_type {
        DataType::Numeric => len > 15,
        DataType::Alpha => len > 255,
        DataType::Neither => true,
    }
}

/// Whether the item is carried and no more.
#[tactic(auto, unfolding(crate::specs::Fields::is_opaque))]
fn is_opaque(covered: &[Columns], in_record: bool, field: Field) -> bool
    ensures { result ≡ is_opaque covered.now in_record field }
{
    if field.decimal > 0 {
        return true;
    }
    if field.occurrences > 1 {
        return true;
    }
    if is_unfit(field.data_type, field.columns.len) {
        return true;
    }
    if !in_record {
        return false;
    }
    shares_any(field.columns, covered)
}

/// What logic may do with values of a type.
fn kind_by_type(data_type: DataType) -> ItemKind
    ensures { result ≡ kind_by_type data_type }
{
    match data_type {
        DataType::Numeric => ItemKind::Number,
        DataType::Alpha => ItemKind::Text,
        DataType::Neither => ItemKind::Opaque,
    }
}

/// What logic may do with an item; `in_record` says that it belongs to a record, and `covered` are the
/// columns of the record type and of the id items.
#[tactic(auto, unfolding(crate::specs::Fields::item_kind))]
pub fn item_kind(covered: &[Columns], in_record: bool, field: Field) -> ItemKind
    ensures { result ≡ item_kind covered.now in_record field }
{
    if is_opaque(covered, in_record, field) {
        return ItemKind::Opaque;
    }
    kind_by_type(field.data_type)
}

/// Whether an item is a number for logic.
pub fn is_number(kind: ItemKind) -> bool
    ensures { result ≡ is_number kind }
{
    match kind {
        ItemKind::Number => true,
        ItemKind::Opaque | ItemKind::Text => false,
    }
}

/// The columns of the record type, if it has some and its keys are readable.
#[tactic(auto, unfolding(crate::specs::Fields::type_columns_of))]
pub fn type_columns_of(first: &Section<'_>) -> Option<Columns>
    ensures { result ≡ type_columns_of first.now }
{
    let len = type_len_of(first)?;
    if len == 0 {
        return None;
    }
    let start = number_in(first, b"RecordTypeStart", 1, 65535)?;
    Some(Columns { start, len })
}
