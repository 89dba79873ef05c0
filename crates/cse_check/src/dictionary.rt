//! The faults of a dictionary: the first one, and those behind it as long as an item or a value set is at fault, which is left
//! out then.

use crate::found::Finding;
use crate::gathered::Gathered;
use crate::line::mark_len;
use cse_dict::{DictError, Dictionary};
use cse_fault_numbers::{TOO_MANY, WANT_OF_MEMORY};
use cse_sections::sections::{Section, sections_of};
use cse_sections::text::is_same;
use std::alloc::{AllocError, Global};

/// How many faults of a dictionary are told.
const MOST: u32 = 50;

/// Lines from one up to another, from 1.
#[derive(Clone, Copy)]
struct Lines {
    first: u64,
    last: u64,
}

/// Where a line of this number begins, from 1; the front for 0.
fn line_start(text: &[u8], number: u64) -> usize {
    let mut line = 1u64;
    let mut start = mark_len(text);
    for at in 0..text.len() {
        if line >= number {
            return start;
        }
        if text[at] == b'\n' {
            line = line.saturating_add(1);
            start = at.saturating_add(1);
        }
    }
    start
}

/// Whether a section is a value set.
fn is_set(section: &Section<'_>) -> bool {
    is_same(section.heading, b"ValueSet")
}

/// The place of the last section that begins at a line or before it; the place behind all where none does.
fn last_up_to(sections: &[Section<'_>], line: u64) -> usize {
    let mut last = sections.len();
    for place in 0..sections.len() {
        let section = &sections[place];
        if section.line <= line {
            last = place;
        }
    }
    last
}

/// The line of the first section from a place on, or of the first that is no value set; the greatest number where there is none.
fn next_line(sections: &[Section<'_>], first: usize, may_be_set: bool) -> u64 {
    for place in first..sections.len() {
        let section = &sections[place];
        if may_be_set || !is_set(section) {
            return section.line;
        }
    }
    u64::MAX
}

/// The lines of the item or value set that a line stands in, those of an item with its value sets; none where it stands in neither.
fn lines_in(sections: &[Section<'_>], line: u64) -> Option<Lines> {
    let place = last_up_to(sections, line);
    match sections.get(place) {
        Some(own) => {
            let last = next_line(sections, place.saturating_add(1), is_set(own));
            lines_up_to(own, last)
        }
        None => None,
    }
}

/// The lines of a section up to that of another; none where it is no item and no value set.
fn lines_up_to(section: &Section<'_>, last: u64) -> Option<Lines> {
    if is_set(section) || is_same(section.heading, b"Item") {
        let first = section.line;
        Some(Lines { first, last })
    } else {
        None
    }
}

/// The lines of the item or value set of a text that a line stands in; none where memory lacks, too.
fn lines_of_text(alloc: Global, text: &[u8], line: u64) -> Option<Lines> {
    match sections_of(alloc, text) {
        Ok(sections) => lines_in(&sections, line),
        Err(_) => None,
    }
}

/// Blanks in place of lines.
fn blank(text: &mut [u8], lines: Lines) {
    let mut line = 1u64;
    for at in 0..text.len() {
        if text[at] == b'\n' {
            line = line.saturating_add(1);
        } else if lines.first <= line && line < lines.last {
            text[at] = b' ';
        }
    }
}

/// A text without the item or the value set that a fault of this number and line stands in. Answers whether there is one.
fn leave_out(alloc: Global, text: &mut [u8], number: u8, line: u64) -> bool {
    match lines_of_text(alloc, text, line) {
        // There is too much of something, and what is left out makes room for one more.
        Some(lines) if number == TOO_MANY && lines.first == line => false,
        Some(lines) => {
            blank(text, lines);
            true
        }
        None => false,
    }
}

/// The first fault of a text without what a fault of this number and line stands in; none where it isn't behind that line.
fn next_fault(alloc: Global, text: &mut [u8], number: u8, line: u64) -> Option<DictError> {
    if !leave_out(alloc, text, number, line) {
        return None;
    }
    match Dictionary::read(alloc, text) {
        Ok(_) => None,
        Err(error) if error.line > line || error.number == WANT_OF_MEMORY => Some(error),
        Err(_) => None,
    }
}

/// Adds a fault of a dictionary.
fn add_fault(text: &[u8], fault: DictError, found: &mut Gathered<Finding>) {
    if fault.number == WANT_OF_MEMORY {
        found.give_up();
    } else {
        found.add(Finding {
            start: line_start(text, fault.line),
            number: fault.number,
        });
    }
}

/// Adds the faults of a dictionary, of which the first is known. What is at fault is left out of a copy of its text.
fn add_faults(
    alloc: Global,
    text: &[u8],
    kept: &mut [u8],
    first: DictError,
    found: &mut Gathered<Finding>,
) {
    let mut fault = Some(first);
    for _ in 0..MOST {
        if let Some(error) = fault {
            add_fault(text, error, found);
            fault = next_fault(alloc, kept, error.number, error.line);
        }
    }
}

/// The faults of a dictionary, of which the first is known.
pub fn dictionary_faults(
    alloc: Global,
    text: &[u8],
    first: DictError,
) -> Result<Vec<Finding>, AllocError> {
    let mut kept = Vec::from_slice(alloc, text)?;
    let mut found = Gathered::new(alloc);
    add_faults(alloc, text, &mut kept, first, &mut found);
    found.finish()
}
