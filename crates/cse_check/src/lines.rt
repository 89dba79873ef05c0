//! Faults of the files beside logic: the messages and the edit order. Each is told by its line.

use crate::found::Finding;
use crate::gathered::Gathered;
use crate::line::lines_of;
use crate::token::part;
use cse_dict::Dictionary;
use cse_fault_numbers::{UNKNOWN_NAME, WANT_OF_MEMORY};
use cse_types::Messages;
use std::alloc::{AllocError, Global};

/// The fault of a line of a message file; 0 where there is none.
fn fault_of(alloc: Global, line: &[u8]) -> u8 {
    match Messages::read(alloc, line) {
        Ok(_) => 0,
        Err(error) => error.number,
    }
}

/// Keeps a line.
fn keep(kept: &mut Gathered<u8>, line: &[u8]) {
    for byte in line {
        kept.add(*byte);
    }
    kept.add(b'\n');
}

/// The fault of a line that begins here, which is kept if it has none.
fn take_message(
    alloc: Global,
    line: &[u8],
    start: usize,
    kept: &mut Gathered<u8>,
    found: &mut Gathered<Finding>,
) {
    match fault_of(alloc, line) {
        0 => keep(kept, line),
        WANT_OF_MEMORY => found.give_up(),
        number => found.add(Finding { start, number }),
    }
}

/// The faults of a message file, each line by itself; the others are kept.
pub fn message_faults(
    alloc: Global,
    text: &[u8],
    kept: &mut Gathered<u8>,
) -> Result<Vec<Finding>, AllocError> {
    let lines = lines_of(alloc, text)?;
    let mut found = Gathered::new(alloc);
    for line in &lines {
        let bytes = part(text, line.start, line.end);
        take_message(alloc, bytes, line.start, kept, &mut found);
    }
    found.finish()
}

/// The record that a line of an order file names.
fn record_of(dictionary: &Dictionary, line: &[u8]) -> Option<u16> {
    match str::from_utf8(line) {
        Ok(name) => dictionary.find_record(name),
        Err(_) => None,
    }
}

/// The fault of a line that begins here, or the record that it names.
fn take_name(
    dictionary: &Dictionary,
    name: &[u8],
    start: usize,
    named: &mut Gathered<u16>,
    found: &mut Gathered<Finding>,
) {
    match record_of(dictionary, name) {
        Some(record) if !named.items().contains(&record) => named.add(record),
        None if name.is_empty() => {}
        _ => found.add(Finding {
            start,
            number: UNKNOWN_NAME,
        }),
    }
}

/// The faults of an order file: lines that name no record, or one that an earlier line names.
pub fn order_faults(
    alloc: Global,
    dictionary: &Dictionary,
    text: &[u8],
) -> Result<Vec<Finding>, AllocError> {
    let lines = lines_of(alloc, text)?;
    let mut found = Gathered::new(alloc);
    let mut named = Gathered::new(alloc);
    for line in &lines {
        let name = part(text, line.start, line.end);
        take_name(dictionary, name, line.start, &mut named, &mut found);
    }
    found.finish()
}
