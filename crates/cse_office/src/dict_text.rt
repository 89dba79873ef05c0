//! What was read of a dictionary, as one who checks it looks at it.

use crate::names::{Names, is_set};
use crate::rows::Rows;
use crate::sets_text::put_set;
use crate::text::{Cell, Text};
use cse_sections::number::whole_of;
use cse_sections::text::is_same;
use cse_value::shape::{ID_OWNER, ItemKind, ItemShape, RecordShape};

/// Whether a data type is that of numeric items.
pub fn is_numeric(data_type: &[u8]) -> bool {
    data_type.is_empty() || is_same(data_type, b"Numeric")
}

/// Whether it is that of alpha ones.
pub fn is_alpha(data_type: &[u8]) -> bool {
    is_same(data_type, b"Alpha")
}

/// Whether a key has a number above one that is allowed.
fn is_above(value: &[u8], most: i64) -> bool {
    whole_of(value).unwrap_or(most) > most
}

/// Why an item is opaque.
fn why_opaque(names: &Names<'_>, item: usize, shape: &ItemShape) -> &'static str {
    let data_type = names.item_key(item, b"DataType");
    let is_numeric = is_numeric(data_type);
    if is_above(names.item_key(item, b"Decimal"), 0) {
        "decimals"
    } else if is_above(names.item_key(item, b"Occurrences"), 1) {
        "occurrences"
    } else if is_numeric && shape.len > 15 {
        "more than 15 digits"
    } else if !is_numeric && !is_alpha(data_type) {
        "another data type"
    } else if shape.len > 255 {
        "more than 255 columns"
    } else {
        "over the columns of ids or record type"
    }
}

/// What logic may do with an item, and why it is opaque.
fn kind_of(names: &Names<'_>, item: usize, shape: &ItemShape) -> (&'static str, &'static str) {
    match shape.kind {
        ItemKind::Number => ("number", ""),
        ItemKind::Text => ("text", ""),
        ItemKind::Opaque => ("opaque", why_opaque(names, item, shape)),
    }
}

/// The code of `missing` of an item as a cell, and how it is filled in front.
fn code_and_fill(names: &Names<'_>, name: &str) -> (Cell<'static>, &'static str) {
    let Some(number) = names.dictionary.find_item(name) else {
        return (Cell::Right(""), "");
    };
    let code = match names.dictionary.code(number) {
        Some(code) => Cell::Signed(code),
        None => Cell::Right(""),
    };
    let is_filled = names.dictionary.zero_fill(number);
    (code, if is_filled { "zeros" } else { "" })
}

/// Writes the row of an item.
fn put_item(out: &mut Text, rows: &mut Rows, names: &Names<'_>, item: usize, shape: &ItemShape) {
    let name = names.item_name(item);
    let (code, fill) = code_and_fill(names, name);
    let (kind, why) = kind_of(names, item, shape);
    rows.row(
        out,
        &[
            Cell::Text(name),
            Cell::Columns(u64::from(shape.start), u64::from(shape.len)),
            Cell::Text(kind),
            Cell::Text(fill),
            code,
            Cell::Text(names.item_label(item)),
            Cell::Text(why),
        ],
    );
}

/// Writes the rows of the items of a record, or of the id items.
fn put_items_of(out: &mut Text, rows: &mut Rows, names: &Names<'_>, owner: usize) {
    let items = names.dictionary.shape().items.as_slice();
    for item in 0..items.len() {
        if items[item].owner as usize == owner {
            put_item(out, rows, names, item, &items[item]);
        }
    }
}

/// Writes the items of a record, or the id items.
fn put_items(out: &mut Text, names: &Names<'_>, owner: usize) {
    let mut rows = Rows::new();
    for pass in 0..2 {
        rows.are_measured = pass > 0;
        rows.row(
            out,
            &[
                Cell::Text("item"),
                Cell::Text("columns"),
                Cell::Text("kind"),
                Cell::Text("fill"),
                Cell::Right("code"),
                Cell::Text("label"),
                Cell::Text("why opaque"),
            ],
        );
        put_items_of(out, &mut rows, names, owner);
    }
}

/// Writes a label behind a blank, if there is one, and ends the line.
pub fn put_label(out: &mut Text, label: &str) {
    out.put(if label.is_empty() { "" } else { " " });
    out.put(label);
    out.put("\n");
}

/// Writes the line of a record.
fn put_record(out: &mut Text, names: &Names<'_>, record: usize, shape: &RecordShape) {
    out.put("\nrecord ");
    out.put(names.record_name(record));
    out.put(" type ");
    out.put(names.record_key(record, b"RecordTypeValue"));
    out.put_counted(" columns ", u64::from(shape.record_len));
    out.put_counted(" lines ", u64::from(shape.max_records));
    put_label(out, names.record_label(record));
}

/// Writes the records with their items.
fn put_records(out: &mut Text, names: &Names<'_>) {
    let records = names.dictionary.shape().records.as_slice();
    for record in 0..records.len() {
        put_record(out, names, record, &records[record]);
        put_items(out, names, record);
    }
}

/// Writes the sets with their rows.
fn put_sets(out: &mut Text, names: &Names<'_>) {
    let mut number = 0usize;
    for section in &names.sections {
        if is_set(section) {
            put_set(out, names, section, number);
            number = number.saturating_add(1);
        }
    }
}

/// Writes what was read: the name, the level, the columns of the record type, ids, records with their items, and sets with their
/// rows.
pub fn put_dict(out: &mut Text, names: &Names<'_>) {
    out.put("dictionary ");
    out.put(names.dictionary.name());
    out.put("\nlevel ");
    out.put(names.dictionary.level_name());
    let (start, len) = names.dictionary.type_columns();
    if len > 0 {
        out.put("\nrecord type in columns ");
        out.put_cell(Cell::Columns(u64::from(start), u64::from(len)));
    }
    out.put("\n\nids\n");
    put_items(out, names, ID_OWNER as usize);
    put_records(out, names);
    put_sets(out, names);
}
