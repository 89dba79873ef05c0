//! Tables as CSV: fields with commas between them, one row a line.

use crate::text::{Cell, Text};
use cse_value::{Gatherer, Output};
use std::alloc::Global;

/// Want of memory.
pub const LACKS_MEMORY: u8 = 90;

/// A device that takes no more.
pub const NOT_WRITTEN: u8 = 71;

/// A table that is written row by row. Where a device or memory fails, nothing more is written, and `finish` tells it.
pub struct Sheet<W> {
    /// The device, if the table is asked for.
    out: Option<W>,
    waiting: Gatherer,
    /// The row so far, with a comma before each field.
    line: Text,
}

// Written out, so that one who owns it calls this drop and does not prove one for each part.
impl<W: Drop> Drop for Sheet<W> {
    fn drop(self) {
        let Sheet {
            out: _out,
            waiting: _waiting,
            line: _line,
        } = self;
    }
}

/// A row without the comma before its first field.
fn behind_comma(line: &[u8]) -> &[u8] {
    match line {
        [_, row @ ..] => row,
        _ => line,
    }
}

/// Whether a field stands in quotes.
fn is_quoted(field: &str) -> bool {
    for byte in field.as_bytes() {
        if matches!(*byte, b',' | b'"' | b'\r' | b'\n') {
            return true;
        }
    }
    false
}

impl Text {
    /// Writes a field behind a comma.
    fn put_field(&mut self, field: &str) {
        if !is_quoted(field) {
            return self.put_all(&[Cell::Text(","), Cell::Text(field)]);
        }
        self.put(",\"");
        for character in field.chars() {
            self.put(if character == '"' { "\"" } else { "" });
            self.put_char(character);
        }
        self.put("\"");
    }
}

impl<W: Output> Sheet<W> {
    /// A table without rows, to a device, if it is asked for.
    pub fn new(alloc: Global, out: Option<W>) -> Sheet<W> {
        Sheet {
            out,
            waiting: Gatherer::new(),
            line: Text::new(alloc),
        }
    }

    /// Whether the table is asked for.
    pub fn is_asked(&self) -> bool {
        self.out.is_some()
    }

    /// Adds fields to the row.
    pub fn add(&mut self, fields: &[Cell<'_>]) {
        for field in fields {
            match *field {
                Cell::Text(text) => self.line.put_field(text),
                field => self.line.put_all(&[Cell::Text(","), field]),
            }
        }
    }

    /// Writes the row.
    pub fn end_row(&mut self) {
        self.line.put("\n");
        if let Some(out) = &mut self.out {
            self.waiting
                .put(out, behind_comma(self.line.as_str().as_bytes()));
        }
        self.line.clear();
    }

    /// Writes a row.
    pub fn row(&mut self, fields: &[Cell<'_>]) {
        self.add(fields);
        self.end_row();
    }

    /// Why not all was written so far, by its number.
    pub fn failure(&self) -> Option<u8> {
        if self.line.has_given_up() {
            Some(LACKS_MEMORY)
        } else if self.waiting.gave_up {
            Some(NOT_WRITTEN)
        } else {
            None
        }
    }

    /// Writes out what waits. Answers why not all was written, by its number.
    pub fn finish(&mut self) -> Option<u8> {
        if let Some(out) = &mut self.out {
            self.waiting.flush(out);
        }
        self.failure()
    }
}
