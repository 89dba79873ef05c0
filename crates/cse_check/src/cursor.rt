//! A place of a text as a reader sees it: its line and its column.

use crate::token::part;

/// A byte of a text, with its line and column, from 1. A character is a column.
#[derive(Clone, Copy)]
pub struct Cursor {
    pub at: usize,
    pub line: u64,
    pub column: u64,
    pub line_start: usize,
}

/// Whether a character begins with this byte.
pub fn is_start(byte: u8) -> bool {
    byte < 128 || byte >= 192
}

/// How many characters begin in these bytes.
pub fn characters(bytes: &[u8]) -> u64 {
    let mut count = 0u64;
    for byte in bytes {
        if is_start(*byte) {
            count = count.saturating_add(1);
        }
    }
    count
}

impl Cursor {
    /// The first byte behind a byte order mark of this length.
    pub fn new(mark: usize) -> Cursor {
        Cursor {
            at: mark,
            line: 1,
            column: 1,
            line_start: mark,
        }
    }

    /// One byte further.
    fn step(&mut self, byte: u8) {
        self.at = self.at.saturating_add(1);
        if byte == b'\n' {
            self.line = self.line.saturating_add(1);
            self.column = 1;
            self.line_start = self.at;
        } else if is_start(byte) {
            self.column = self.column.saturating_add(1);
        }
    }

    /// On to a place that isn't before it.
    pub fn move_to(&mut self, text: &[u8], place: usize) {
        for byte in part(text, self.at, place) {
            self.step(*byte);
        }
    }
}

/// The byte of a line and a column, both from 1; the end where there is none.
pub fn byte_of(text: &[u8], line: u64, column: u64) -> usize {
    let mut cursor = Cursor::new(0);
    for byte in text {
        if cursor.line == line && cursor.column == column && is_start(*byte) {
            return cursor.at;
        }
        cursor.step(*byte);
    }
    text.len()
}
