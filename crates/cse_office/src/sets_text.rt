//! The value sets of a dictionary, as one who checks it looks at them.

use crate::dict_text::{is_alpha, is_numeric, put_label};
use crate::names::Names;
use crate::rows::Rows;
use crate::spelled::{first_language, label_of, row_of, text_of, value_at};
use crate::text::{Cell, Text};
use cse_sections::number::whole_of;
use cse_sections::sections::Section;
use cse_sections::text::{is_same, trimmed};

/// The first piece of pairs, and those behind it: a piece ends at a blank outside quotes.
fn first_piece(pairs: &[u8]) -> (&[u8], &[u8]) {
    let mut is_open = false;
    for place in 0..pairs.len() {
        if pairs[place] == b' ' && !is_open {
            return (&pairs[..place], &pairs[place..]);
        }
        is_open = is_open != (pairs[place] == b'\'');
    }
    (pairs, b"")
}

/// Whether a piece is a number, or two with `:` between them, the second at least the first.
fn is_range(piece: &[u8]) -> bool {
    for place in 0..piece.len() {
        if piece[place] == b':' {
            let (low, high) = (&piece[..place], &piece[place + 1..]);
            return match (whole_of(low), whole_of(high)) {
                (Some(low), Some(high)) => low <= high,
                _ => false,
            };
        }
    }
    whole_of(piece).is_some()
}

/// Whether a piece is what makes a set partial: no pair of numbers, and no text in quotes that stands for something on an item,
/// as each does on an alpha one, and blanks on a numeric one.
fn is_skipped(piece: &[u8], data_type: &[u8]) -> bool {
    match piece {
        [b'\'', inside @ .., b'\''] => {
            !is_alpha(data_type) && !(is_numeric(data_type) && trimmed(inside).is_empty())
        }
        _ => !is_range(piece),
    }
}

/// Whether pairs have such a piece.
fn has_skipped(pairs: &[u8], data_type: &[u8]) -> bool {
    let mut rest = pairs;
    for _ in 0..pairs.len() {
        let (piece, behind) = first_piece(trimmed(rest));
        if !piece.is_empty() && is_skipped(piece, data_type) {
            return true;
        }
        rest = behind;
    }
    false
}

/// Writes a row of a set, and of a partial one what makes the row so.
fn put_row(out: &mut Text, rows: &mut Rows, value: &[u8], data_type: &[u8], is_partial: bool) {
    let (pairs, label) = row_of(value);
    let is_why = is_partial && has_skipped(pairs, data_type);
    rows.row(
        out,
        &[
            Cell::Text(text_of(pairs)),
            Cell::Text(first_language(label)),
            Cell::Text(if is_why { "no pair of numbers" } else { "" }),
        ],
    );
}

/// Writes the rows of a set.
fn put_rows(out: &mut Text, set: &Section<'_>, data_type: &[u8], is_partial: bool) {
    let mut rows = Rows::new();
    for pass in 0..2 {
        rows.are_measured = pass > 0;
        for entry in &set.entries {
            if is_same(entry.key, b"Value") {
                put_row(out, &mut rows, entry.value, data_type, is_partial);
            }
        }
    }
}

/// Writes a set with its rows, by its section and its number.
pub fn put_set(out: &mut Text, names: &Names<'_>, section: &Section<'_>, number: usize) {
    let Some(set) = names.dictionary.shape().sets.get(number) else {
        return;
    };
    let item = set.item as usize;
    out.put("\nset ");
    out.put(text_of(value_at(section, b"Name")));
    out.put(" of ");
    out.put(names.item_name(item));
    out.put_counted(" rows ", u64::from(set.rows));
    out.put(if set.partial { " partial" } else { "" });
    put_label(out, label_of(section));
    put_rows(out, section, names.item_key(item, b"DataType"), set.partial);
}
