//! What the tables say.

use crate::sections::SECTIONS;
use crate::token::part;

/// What a table says behind a word, in any letter case; nothing where it has no such row.
pub fn said_of(table: &'static [u8], word: &[u8]) -> &'static [u8] {
    let mut start = 0usize;
    let mut is_head = true;
    let mut is_found = false;
    for at in 0..table.len() {
        let behind = at.saturating_add(1);
        let byte = table[at];
        match byte {
            b' ' | b'~' if is_head => {
                is_found = is_found || part(table, start, at).eq_ignore_ascii_case(word);
                is_head = byte == b' ';
                start = behind;
            }
            b'\n' if is_found => return part(table, start, at),
            b'\n' => {
                is_head = true;
                start = behind;
            }
            _ => {}
        }
    }
    b""
}

/// What stands behind so many `~` of what was said.
pub fn cell(said: &'static [u8], count: usize) -> &'static [u8] {
    let mut left = count;
    let mut start = 0usize;
    for at in 0..said.len() {
        if said[at] == b'~' {
            if left == 0 {
                return part(said, start, at);
            }
            left = left.saturating_sub(1);
            start = at.saturating_add(1);
        }
    }
    if left == 0 {
        part(said, start, said.len())
    } else {
        b""
    }
}

/// Whether a section is that of a number.
fn is_of(section: &[u8], number: &[u8]) -> bool {
    matches!(section.strip_prefix(number), Some([b' ', ..]))
}

/// The section of a number; nothing where there is none.
fn section_in(sections: &'static [u8], number: &[u8]) -> &'static [u8] {
    let mut start = 0usize;
    let mut is_end = false;
    for at in 0..sections.len() {
        let byte = sections[at];
        if byte == b'\n' && is_end {
            let section = part(sections, start, at);
            if is_of(section, number) {
                return section;
            }
            start = at.saturating_add(1);
        }
        is_end = byte == b'\n';
    }
    b""
}

/// What docs/FAULTS.md says of a number; nothing where no fault has it.
pub fn section_of(number: &[u8]) -> &'static [u8] {
    section_in(SECTIONS, number)
}
