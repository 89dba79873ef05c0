//! What a data file is, on a terminal.

use crate::field::{FieldKind, Found};
use crate::look::Look;
use crate::names::Names;
use crate::record::Record;
use crate::rows::Rows;
use crate::text::{Cell, Text};

/// Writes how many there are, and the line of the first.
fn put_found(out: &mut Text, word: &str, found: Found) {
    out.put_counted(word, found.count);
    if found.count > 0 {
        out.put_counted(" first at line ", found.first);
    }
    out.put("\n");
}

/// Writes the lines of each record.
fn put_records(out: &mut Text, names: &Names<'_>, look: &Look) {
    let mut rows = Rows::new();
    for pass in 0..2 {
        rows.are_measured = pass > 0;
        rows.row(
            out,
            &[
                Cell::Text("record"),
                Cell::Right("lines"),
                Cell::Text("label"),
            ],
        );
        for number in 0..look.records.len() {
            rows.row(
                out,
                &[
                    Cell::Text(names.record_name(number)),
                    Cell::Number(look.records[number].lines),
                    Cell::Text(names.record_label(number)),
                ],
            );
        }
    }
}

/// The first of two lines, of which 0 is none.
fn first_line(one: u64, other: u64) -> u64 {
    if one == 0 || (other > 0 && other < one) {
        other
    } else {
        one
    }
}

/// Writes the rows of the items of a record.
fn put_fields(out: &mut Text, rows: &mut Rows, names: &Names<'_>, record: &Record) {
    for field in &record.fields {
        let default = field.found(FieldKind::Default);
        let outside = field.found(FieldKind::Outside);
        rows.row(
            out,
            &[
                Cell::Text(names.item_name(field.item)),
                Cell::Number(record.lines),
                Cell::Number(field.found(FieldKind::Blank).count),
                Cell::Number(field.found(FieldKind::Missing).count),
                Cell::Number(default.count),
                Cell::Number(outside.count),
                Cell::Number(first_line(default.first, outside.first)),
                Cell::Text(names.item_label(field.item)),
            ],
        );
    }
}

/// Writes what stands in the fields of each item.
fn put_items(out: &mut Text, names: &Names<'_>, look: &Look) {
    let mut rows = Rows::new();
    for pass in 0..2 {
        rows.are_measured = pass > 0;
        rows.row(
            out,
            &[
                Cell::Text("item"),
                Cell::Right("occurrences"),
                Cell::Right("blank"),
                Cell::Right("missing"),
                Cell::Right("default"),
                Cell::Right("outside"),
                Cell::Right("first"),
                Cell::Text("label"),
            ],
        );
        for record in &look.records {
            put_fields(out, &mut rows, names, record);
        }
    }
}

/// Writes what was found: totals, lines by record, unseen lines by kind, ids that come back, and the fields of each item.
pub fn put_look(out: &mut Text, names: &Names<'_>, look: &Look) {
    out.put_counted("cases ", look.cases);
    out.put_counted("\nlines ", look.lines);
    out.put("\n");
    put_found(out, "unknown ", look.unknown);
    put_found(out, "extra ", look.extra);
    put_found(out, "ids that come back ", look.returns);
    out.put("\n");
    put_records(out, names, look);
    out.put("\n");
    put_items(out, names, look);
}
