//! How labels and rows of value sets are spelled in the text of a dictionary.

use cse_sections::sections::Section;
use cse_sections::text::{is_same, trimmed};

/// Bytes as a text; none of bytes that aren't UTF-8.
pub fn text_of(bytes: &[u8]) -> &str {
    match str::from_utf8(bytes) {
        Ok(text) => text,
        Err(_) => "",
    }
}

/// The first of the languages of a label.
pub fn first_language(label: &[u8]) -> &str {
    let text = text_of(label);
    match text.split_once('|') {
        Some((first, _)) => first.trim_ascii(),
        None => text.trim_ascii(),
    }
}

/// The value of a row's line: its pairs, as they stand, and its label, which stands behind the first `;` outside quotes.
pub fn row_of(value: &[u8]) -> (&[u8], &[u8]) {
    let mut is_open = false;
    for place in 0..value.len() {
        if value[place] == b';' && !is_open {
            return (trimmed(&value[..place]), &value[place + 1..]);
        }
        is_open = is_open != (value[place] == b'\'');
    }
    (value, b"")
}

/// The value of the first entry with a key.
pub fn value_at<'a>(section: &Section<'a>, key: &[u8]) -> &'a [u8] {
    for entry in &section.entries {
        if is_same(entry.key, key) {
            return entry.value;
        }
    }
    b""
}

/// The label of a section.
pub fn label_of<'a>(section: &Section<'a>) -> &'a str {
    first_language(value_at(section, b"Label"))
}

/// The label of the row of this number in a value set, from 0.
pub fn label_of_row<'a>(set: &Section<'a>, number: usize) -> &'a str {
    let mut count = 0usize;
    for entry in &set.entries {
        if is_same(entry.key, b"Value") {
            if count == number {
                return first_language(row_of(entry.value).1);
            }
            count = count.saturating_add(1);
        }
    }
    ""
}

/// Whether pairs are a text in quotes, or blanks in quotes.
fn is_quoted_text(pairs: &[u8], text: &[u8]) -> bool {
    match pairs {
        [b'\'', inside @ .., b'\''] => trimmed(inside) == text,
        _ => false,
    }
}

/// The label of the first row of a value set that is a text in quotes, or blanks in quotes.
pub fn label_of_text<'a>(set: &Section<'a>, text: &[u8]) -> &'a str {
    for entry in &set.entries {
        if is_same(entry.key, b"Value") {
            let (pairs, label) = row_of(entry.value);
            if is_quoted_text(pairs, text) {
                return first_language(label);
            }
        }
    }
    ""
}
