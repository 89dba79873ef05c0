//! From a text to its tokens. The text may have what no token has: that is a token too.

use crate::gathered::Gathered;
use crate::role::role_of;
use crate::token::{Role, Sort, Token, part};
use std::alloc::{AllocError, Global};

/// What the next byte stands in.
#[derive(Clone, Copy)]
enum State {
    Between,
    /// It is the second byte of a symbol.
    Second,
    /// A comment to the line's end.
    Line,
    /// A line behind what its text may not have.
    Rest,
    /// A comment in braces, within this many others.
    Braces(usize),
    Word,
    Number,
    /// A text in these quotes.
    Text(u8),
    /// Bytes beyond ASCII.
    Beyond,
}

/// The tokens so far, and the one that has begun.
#[derive(Drop)]
struct Scanner<'a> {
    text: &'a [u8],
    tokens: Gathered<Token>,
    state: State,
    start: usize,
}

fn is_word_byte(byte: u8) -> bool {
    byte.is_ascii_alphanumeric() || byte == b'_'
}

/// Whether two bytes are one symbol.
fn is_pair(byte: u8, next: u8) -> bool {
    (byte == b'<' && next == b'>') || ((byte == b'<' || byte == b'>') && next == b'=')
}

/// What a byte is that begins nothing longer.
fn symbol_of(byte: u8) -> (Sort, Role) {
    match byte {
        b';' => (Sort::Symbol, Role::Semicolon),
        b'(' => (Sort::Symbol, Role::Open),
        b')' => (Sort::Symbol, Role::Close),
        b',' | b'=' | b'<' | b'>' | b'+' | b'-' | b'*' | b'/' | b'%' => (Sort::Symbol, Role::Other),
        _ => (Sort::Odd, Role::Other),
    }
}

/// What begins with a byte, where that one comes next; none where it is a token by itself.
fn begun(byte: u8, next: u8) -> Option<State> {
    match byte {
        b' ' | b'\t' | b'\n' | b'\r' => Some(State::Between),
        b'{' => Some(State::Braces(0)),
        b'/' if next == b'/' => Some(State::Line),
        b'\'' | b'"' => Some(State::Text(byte)),
        b'0'..=b'9' => Some(State::Number),
        b'a'..=b'z' | b'A'..=b'Z' => Some(State::Word),
        128..=255 => Some(State::Beyond),
        _ => None,
    }
}

/// Where the next byte is behind this one, within a comment in braces.
fn behind_brace(byte: u8, around: usize) -> State {
    match byte {
        b'{' => State::Braces(around.saturating_add(1)),
        b'}' if around == 0 => State::Between,
        b'}' => State::Braces(around.saturating_sub(1)),
        _ => State::Braces(around),
    }
}

/// The byte at a place; 0 behind the text.
fn byte_at(text: &[u8], at: usize) -> u8 {
    match text.get(at) {
        Some(byte) => *byte,
        None => 0,
    }
}

impl Scanner<'_> {
    /// A token more, from the start up to here, and nothing has begun behind it.
    fn put(&mut self, sort: Sort, role: Role, end: usize) {
        let start = self.start;
        self.state = State::Between;
        self.tokens.add(Token {
            sort,
            role,
            start,
            end,
        });
    }

    /// What begins with this byte, where that one comes next.
    fn begin(&mut self, at: usize, byte: u8, next: u8) {
        self.start = at;
        if let Some(state) = begun(byte, next) {
            self.state = state;
        } else if is_pair(byte, next) {
            self.put(Sort::Symbol, Role::Other, at.saturating_add(2));
            self.state = State::Second;
        } else {
            let (sort, role) = symbol_of(byte);
            self.put(sort, role, at.saturating_add(1));
        }
    }

    /// The next byte within a text.
    fn in_text(&mut self, at: usize, byte: u8, quote: u8) {
        if byte == quote {
            self.put(Sort::Text, Role::Other, at.saturating_add(1));
        } else if byte == b'\n' {
            self.put(Sort::OpenText, Role::Other, at);
        } else if byte < 32 {
            self.state = State::Rest;
        }
    }

    /// The end of what goes on as long as bytes of its kind come.
    fn end_run(&mut self, at: usize) {
        match self.state {
            State::Word => {
                let role = role_of(part(self.text, self.start, at));
                self.put(Sort::Word, role, at);
            }
            State::Number => self.put(Sort::Number, Role::Other, at),
            State::Beyond => self.put(Sort::Odd, Role::Other, at),
            _ => {}
        }
    }

    /// The next byte of the text, and the one behind it.
    fn take(&mut self, at: usize, byte: u8, next: u8) {
        match self.state {
            State::Word if is_word_byte(byte) => {}
            State::Number if byte.is_ascii_digit() => {}
            State::Beyond if byte >= 128 => {}
            State::Line | State::Rest if byte != b'\n' => {}
            State::Second | State::Line => self.state = State::Between,
            State::Rest => self.put(Sort::OpenText, Role::Other, at),
            State::Braces(around) => self.state = behind_brace(byte, around),
            State::Text(quote) => self.in_text(at, byte, quote),
            State::Between | State::Word | State::Number | State::Beyond => {
                self.end_run(at);
                self.begin(at, byte, next);
            }
        }
    }

    /// The end of the text.
    fn end(&mut self, at: usize) {
        match self.state {
            State::Text(_) | State::Rest => self.put(Sort::OpenText, Role::Other, at),
            State::Braces(_) => self.put(Sort::OpenComment, Role::Other, at),
            _ => self.end_run(at),
        }
    }

    /// All bytes of the text, and its end.
    fn take_all(&mut self) {
        let text = self.text;
        for at in 0..text.len() {
            self.take(at, text[at], byte_at(text, at.saturating_add(1)));
        }
        self.end(text.len());
    }
}

/// The tokens of a text.
pub fn tokens_of(alloc: Global, text: &[u8]) -> Result<Vec<Token>, AllocError> {
    let mut scanner = Scanner {
        text,
        tokens: Gathered::new(alloc),
        state: State::Between,
        start: 0,
    };
    scanner.take_all();
    let Scanner { tokens, .. } = scanner;
    tokens.finish()
}
