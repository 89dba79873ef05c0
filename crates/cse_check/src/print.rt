//! Faults as they are printed, each with its line, and as objects of JSON.

use crate::advice::Advice;
use crate::cursor::{Cursor, characters};
use crate::gathered::Gathered;
use crate::shown::{before, behind, quoted};
use crate::token::part;
use itoa::Buffer;
use std::alloc::{AllocError, Global};

/// A file, and a token of it with its fault.
#[derive(Clone, Copy)]
pub struct Place<'a> {
    pub path: &'a str,
    pub text: &'a [u8],
    /// Where the token begins.
    pub cursor: Cursor,
    pub end: usize,
    /// Whether the token is quoted.
    pub is_named: bool,
    pub number: u8,
}

/// A fault with its line; a letter behind a `%` is that of a part.
const LINES: &[u8] = b"%s[%n]: %h
%w--> %f:%l:%c
%w |
%l | %t
%w | %m
%w = help: %e

";

/// A fault as an object.
const OBJECT: &[u8] =
    b"{\"file\":\"%f\",\"line\":%l,\"column\":%c,\"end_column\":%d,\"number\":%n,\"severity\":\"%s\",\"message\":\"%h%b\",\"help\":\"%e\"}
";

/// What is printed. Where memory lacks, the rest is given up, and `finish` tells it.
#[derive(Drop)]
pub struct Printed {
    bytes: Gathered<u8>,
    /// Whether it is JSON.
    is_json: bool,
}

impl Printed {
    /// Nothing so far.
    pub fn new(alloc: Global, is_json: bool) -> Printed {
        Printed {
            bytes: Gathered::new(alloc),
            is_json,
        }
    }

    /// All that was printed, unless memory lacked.
    pub fn finish(self) -> Result<Vec<u8>, AllocError> {
        let Printed { bytes, is_json: _ } = self;
        bytes.finish()
    }

    /// Memory lacked for something else that is printed.
    pub fn give_up(&mut self) {
        self.bytes.give_up();
    }

    /// A text, or a part of a string of JSON.
    fn put(&mut self, text: &[u8]) {
        for byte in text {
            match *byte {
                b'"' | b'\\' if self.is_json => {
                    self.bytes.add(b'\\');
                    self.bytes.add(*byte);
                }
                0..=31 if self.is_json => self.bytes.add(b' '),
                _ => self.bytes.add(*byte),
            }
        }
    }

    fn put_number(&mut self, number: u64) {
        let mut buffer = Buffer::new();
        self.put(buffer.format(number).as_bytes());
    }

    /// As many blanks as a number has digits.
    fn put_room(&mut self, number: u64) {
        let mut buffer = Buffer::new();
        for _ in buffer.format(number).as_bytes() {
            self.bytes.add(b' ');
        }
    }

    /// The token, in quotes.
    fn put_token(&mut self, place: &Place<'_>) {
        let start = place.cursor.at;
        if start >= place.end {
            self.put(b"the end of the text ");
            return;
        }
        let token = quoted(place.text, start, place.end);
        self.put(b"`");
        self.put(token);
        if token.len() < place.end.saturating_sub(start) {
            self.put(b"..");
        }
        self.put(b"` ");
    }

    /// What to do.
    fn put_help(&mut self, advice: &Advice<'_>) {
        for byte in advice.help {
            if *byte == b'@' {
                self.put(advice.name);
            } else {
                self.put(&[*byte]);
            }
        }
    }

    /// The room before the token, and the signs below it.
    fn put_marks(&mut self, place: &Place<'_>) {
        for byte in before(place.text, &place.cursor) {
            match *byte {
                b'\t' => self.put(b"\t"),
                128..=191 => {}
                _ => self.put(b" "),
            }
        }
        let start = place.cursor.at;
        let shown = behind(place.text, start);
        let len = place.end.saturating_sub(start).min(shown.len());
        for _ in 0..characters(part(shown, 0, len)).max(1) {
            self.put(b"^");
        }
    }

    /// What is said below the token, if anything is, behind some signs.
    fn put_label(&mut self, signs: &[u8], advice: &Advice<'_>) {
        if !advice.label.is_empty() {
            self.put(signs);
            self.put(advice.label);
        }
    }

    /// The part of this letter.
    fn put_part(&mut self, letter: u8, place: &Place<'_>, advice: &Advice<'_>) {
        let cursor = &place.cursor;
        match letter {
            b's' if place.number < 100 => self.put(b"error"),
            b's' => self.put(b"warning"),
            b'n' => self.put_number(u64::from(place.number)),
            b'h' => {
                if place.is_named {
                    self.put_token(place);
                }
                self.put(advice.headline);
            }
            b'b' => self.put_label(b": ", advice),
            b'f' => self.put(place.path.as_bytes()),
            b'l' => self.put_number(cursor.line),
            b'c' => self.put_number(cursor.column),
            b'd' => {
                let width = characters(part(place.text, cursor.at, place.end));
                self.put_number(cursor.column.saturating_add(width));
            }
            b'w' => self.put_room(cursor.line),
            b't' => {
                self.put(before(place.text, cursor));
                self.put(behind(place.text, cursor.at));
            }
            b'm' => {
                self.put_marks(place);
                self.put_label(b" ", advice);
            }
            _ => self.put_help(advice),
        }
    }

    /// A fault more.
    pub fn tell(&mut self, place: &Place<'_>, advice: &Advice<'_>) {
        let form = if self.is_json { OBJECT } else { LINES };
        let mut is_part = false;
        for byte in form {
            if is_part {
                self.put_part(*byte, place, advice);
            } else if *byte != b'%' {
                self.bytes.add(*byte);
            }
            is_part = !is_part && *byte == b'%';
        }
    }

    /// So many of something.
    fn put_count(&mut self, count: u64, word: &[u8]) {
        self.put_number(count);
        self.put(word);
        if count != 1 {
            self.put(b"s");
        }
    }

    /// How many faults there are, and how many warnings.
    pub fn tell_count(&mut self, faults: u64, warnings: u64) {
        if self.is_json {
            return;
        }
        if faults == 0 {
            self.put(b"no fault");
        } else {
            self.put_count(faults, b" fault");
        }
        if warnings > 0 {
            self.put(b", ");
            self.put_count(warnings, b" warning");
        }
        self.put(b"\n");
    }
}
