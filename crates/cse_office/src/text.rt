//! A text that is written piece by piece.

use itoa::Buffer;
use std::alloc::{AllocError, Global};

/// A piece of a text, or a cell of a row.
#[derive(Clone, Copy)]
pub enum Cell<'a> {
    /// A text, on a terminal from the left.
    Text(&'a str),
    /// A text, on a terminal to the right, as a number.
    Right(&'a str),
    Number(u64),
    /// Hundredths of a percent.
    Percent(u64),
    /// A whole number.
    Signed(i64),
    /// The columns from one on, so many.
    Columns(u64, u64),
    /// A text on a page, with what has a meaning in HTML written so that it has none.
    Escaped(&'a str),
    /// A bar on a page, as long as hundredths of a percent tell.
    Bar(u64),
    /// Two bars, one below the other.
    Bars(u64, u64),
}

/// A part of a whole in hundredths of a percent, rounded; 0 where there is no whole.
pub fn share(part: u64, whole: u64) -> u64 {
    if whole == 0 {
        return 0;
    }
    part.saturating_mul(10_000).saturating_add(whole / 2) / whole
}

/// How a character is written that has a meaning in HTML; of another one nothing.
fn escaped(character: char) -> &'static str {
    match character {
        '&' => "&amp;",
        '<' => "&lt;",
        '>' => "&gt;",
        '"' => "&quot;",
        _ => "",
    }
}

/// A text. Where memory lacks the rest is given up, and `finish` tells it.
pub struct Text {
    text: String,
    gave_up: bool,
}

// Written out, so that one who owns it calls this drop and does not prove one for each part.
impl Drop for Text {
    fn drop(self) {
        let Text {
            text: _text,
            gave_up: _gave_up,
        } = self;
    }
}

impl Text {
    /// Nothing so far.
    pub fn new(alloc: Global) -> Text {
        Text {
            text: String::new(alloc),
            gave_up: false,
        }
    }

    /// What was written so far.
    pub fn as_str(&self) -> &str {
        self.text.as_str()
    }

    /// Whether memory lacked.
    pub fn has_given_up(&self) -> bool {
        self.gave_up
    }

    /// Memory lacked for something else that is written.
    pub fn give_up(&mut self) {
        self.gave_up = true;
    }

    /// Begins anew.
    pub fn clear(&mut self) {
        self.text.clear();
    }

    /// Writes a text.
    pub fn put(&mut self, text: &str) {
        if self.text.push_str(text).is_err() {
            self.gave_up = true;
        }
    }

    /// Writes a character.
    pub fn put_char(&mut self, character: char) {
        if self.text.push(character).is_err() {
            self.gave_up = true;
        }
    }

    /// Writes a number.
    pub fn put_number(&mut self, number: u64) {
        let mut buffer = Buffer::new();
        self.put(buffer.format(number));
    }

    /// Writes words, and a number behind them.
    pub(crate) fn put_counted(&mut self, words: &str, number: u64) {
        self.put(words);
        self.put_number(number);
    }

    /// Writes hundredths with a point.
    pub(crate) fn put_percent(&mut self, hundredths: u64) {
        self.put_number(hundredths / 100);
        self.put(if hundredths % 100 < 10 { ".0" } else { "." });
        self.put_number(hundredths % 100);
    }

    /// Writes a whole number.
    pub(crate) fn put_signed(&mut self, number: i64) {
        self.put(if number < 0 { "-" } else { "" });
        self.put_number(number.unsigned_abs());
    }

    /// Writes the first of columns, and behind it the last, if there are several.
    fn put_columns(&mut self, first: u64, count: u64) {
        self.put_number(first);
        if count != 1 {
            self.put("-");
            self.put_number(first.saturating_add(count).saturating_sub(1));
        }
    }

    /// Writes a text, with what has a meaning in HTML written so that it has none.
    pub fn put_escaped(&mut self, text: &str) {
        for character in text.chars() {
            let escaped = escaped(character);
            if escaped.is_empty() {
                self.put_char(character);
            } else {
                self.put(escaped);
            }
        }
    }

    /// Writes a piece. Bars stand on pages alone.
    pub fn put_cell(&mut self, cell: Cell<'_>) {
        match cell {
            Cell::Text(text) | Cell::Right(text) => self.put(text),
            Cell::Escaped(text) => self.put_escaped(text),
            Cell::Number(number) => self.put_number(number),
            Cell::Percent(hundredths) => self.put_percent(hundredths),
            Cell::Signed(number) => self.put_signed(number),
            Cell::Columns(first, count) => self.put_columns(first, count),
            Cell::Bar(_) | Cell::Bars(..) => {}
        }
    }

    /// Writes pieces, one behind the other.
    pub fn put_all(&mut self, cells: &[Cell<'_>]) {
        for cell in cells {
            self.put_cell(*cell);
        }
    }

    /// The text, unless memory lacked.
    pub fn finish(self) -> Result<String, AllocError> {
        let Text { text, gave_up } = self;
        if gave_up {
            return Err(AllocError);
        }
        Ok(text)
    }
}
