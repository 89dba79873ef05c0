//! What is said of a fault of logic: in words, and what to write instead.

use crate::known::Known;
use crate::said::{cell, said_of};
use crate::spot::Spot;
use crate::table::{NUMBERS, SIGNS, WORDS};
use crate::token::{Role, Sort};
use itoa::Buffer;

/// How many tokens before a fault are looked at.
const NEAR: usize = 40;

/// What is said of a fault.
#[derive(Clone, Copy)]
pub struct Advice<'a> {
    /// Behind the token.
    pub headline: &'static [u8],
    /// Below it.
    pub label: &'static [u8],
    /// What to do. A `@` stands for the name.
    pub help: &'static [u8],
    pub name: &'a [u8],
}

/// What is said of a row of the numbers.
pub fn by_key(key: &[u8]) -> Advice<'static> {
    let said = said_of(NUMBERS, key);
    Advice {
        headline: cell(said, 0),
        label: cell(said, 1),
        help: cell(said, 2),
        name: b"",
    }
}

/// What is always said of a number.
pub fn by_number(number: u8) -> Advice<'static> {
    let mut buffer = Buffer::new();
    by_key(buffer.format(number).as_bytes())
}

impl<'a> Advice<'a> {
    /// The same with another help, if there is one.
    fn helped(self, help: &'static [u8]) -> Advice<'a> {
        if help.is_empty() {
            return self;
        }
        Advice { help, ..self }
    }
}

/// What the statement begins with that a token stands in, if it is near.
fn opening(spot: &Spot<'_>) -> Role {
    for count in 0..NEAR {
        let Some(token) = spot.before(count.saturating_add(1)) else {
            return Role::Other;
        };
        match token.role {
            Role::Semicolon | Role::Declares | Role::Do | Role::Function => return token.role,
            Role::Begins if token.is(spot.text, b"errmsg") => return Role::Begins,
            _ => {}
        }
    }
    Role::Other
}

/// Whether a token stands in the head of an array or of a function.
fn stands_in_head(spot: &Spot<'_>) -> bool {
    match spot.role_before(1) {
        Role::Declares | Role::Function | Role::Open => true,
        _ => spot.was(1, b","),
    }
}

/// Whether a record has to stand before a token.
fn asks_for_record(spot: &Spot<'_>) -> bool {
    spot.role_before(1) == Role::Open
        && (spot.was(2, b"curocc") || spot.was(2, b"totocc") || spot.was(2, b"maxocc"))
}

/// The row about a token that can't stand here, by itself; nothing where it says nothing.
fn key_by_token(spot: &Spot<'_>) -> &'static [u8] {
    let role = spot.role(0);
    if spot.index >= spot.tokens.len() {
        b"32-end"
    } else if role == Role::In {
        b"32-in"
    } else if role == Role::Declares && stands_in_head(spot) {
        b"32-kind"
    } else if role == Role::Declares && !spot.is(0, b"string") {
        b"32-declared"
    } else if role == Role::Close && asks_for_record(spot) {
        b"32-record"
    } else if role == Role::Open && spot.was(3, b"invalueset") {
        b"32-occurrence"
    } else if spot.role_before(1) == Role::Open && spot.was(2, b"errmsg") {
        b"32-message"
    } else {
        b""
    }
}

/// What to write for the word so many tokens before; nothing where there is none.
fn help_before(spot: &Spot<'_>, count: usize) -> &'static [u8] {
    match spot.before(count) {
        Some(token) if token.sort == Sort::Word => said_of(WORDS, token.of(spot.text)),
        _ => b"",
    }
}

/// What to write for a word, or for the one before it; of a `where` first for the function before it.
fn help_by_word(spot: &Spot<'_>) -> &'static [u8] {
    if spot.is(0, b"where") {
        let help = help_before(spot, 3);
        if !help.is_empty() {
            return help;
        }
    }
    let help = help_before(spot, 0);
    if help.is_empty() {
        help_before(spot, 1)
    } else {
        help
    }
}

/// The row about a token that can't stand here, by what its statement begins with.
fn key_by_opening(spot: &Spot<'_>) -> &'static [u8] {
    match opening(spot) {
        Role::Declares if spot.is(0, b"=") => b"32-start",
        Role::Declares if spot.is(0, b"(") => b"32-texts",
        Role::Do => b"32-loop",
        _ => b"32",
    }
}

/// A token that can't stand here (32).
fn unexpected(spot: &Spot<'_>) -> Advice<'static> {
    let key = key_by_token(spot);
    if !key.is_empty() {
        return by_key(key);
    }
    let help = help_by_word(spot);
    if !help.is_empty() {
        return by_key(b"32").helped(help);
    }
    by_key(key_by_opening(spot))
}

/// A name that is known, but means something else (40).
fn misplaced(spot: &Spot<'_>) -> &'static [u8] {
    if spot.role_before(1) == Role::Proc {
        b"40-proc"
    } else if opening(spot) == Role::Declares || spot.role_before(1) == Role::Function {
        b"40-declared"
    } else {
        b"40-misplaced"
    }
}

/// A name that is not known (40).
fn unknown<'a>(spot: &Spot<'_>, known: &mut Known<'a>) -> Advice<'a> {
    let name = spot.word(0);
    let help = said_of(WORDS, name);
    if !help.is_empty() {
        return by_key(b"40-left-out").helped(help);
    }
    let name = known.nearest(name);
    if !name.is_empty() {
        Advice {
            name,
            ..by_key(b"40-near")
        }
    } else if spot.role_before(1) == Role::Proc {
        Advice {
            name: known.application(),
            ..by_key(b"40-owner")
        }
    } else {
        by_key(b"40")
    }
}

/// Whether the token is of a sort.
fn is_of(spot: &Spot<'_>, sort: Sort) -> bool {
    match spot.ahead(0) {
        Some(token) => token.sort == sort,
        None => false,
    }
}

/// A name or a number that means nothing here (40).
fn unmeant<'a>(spot: &Spot<'_>, known: &mut Known<'a>) -> Advice<'a> {
    if is_of(spot, Sort::Number) {
        by_key(b"40-message")
    } else if known.has(spot.word(0)) {
        by_key(misplaced(spot))
    } else {
        unknown(spot, known)
    }
}

/// What doesn't fit (44).
fn unfit(spot: &Spot<'_>) -> Advice<'static> {
    if is_of(spot, Sort::Text) {
        by_key(b"44-text")
    } else if opening(spot) == Role::Begins {
        by_key(b"44-shown")
    } else {
        by_key(b"44")
    }
}

/// What can't be used here (49), in a procedure of this name.
fn unusable<'a>(spot: &Spot<'_>, owner: &[u8], known: &Known<'a>) -> Advice<'a> {
    let record = known.record_of(spot.word(0));
    if spot.is(0, b"break") || spot.is(0, b"next") {
        by_key(b"49-loop")
    } else if spot.role_before(1) == Role::Proc {
        by_key(b"49-id")
    } else if owner.eq_ignore_ascii_case(known.application()) {
        by_key(b"49-application")
    } else if record.is_empty() {
        by_key(b"49")
    } else {
        Advice {
            name: record,
            ..by_key(b"49-record")
        }
    }
}

/// What is said of a fault of this number, in a procedure of this name.
pub fn advice_of<'a>(
    number: u8,
    spot: &Spot<'_>,
    owner: &[u8],
    known: &mut Known<'a>,
) -> Advice<'a> {
    match number {
        30 => by_key(b"30").helped(said_of(SIGNS, spot.word(0))),
        32 => unexpected(spot),
        33 => by_key(b"33").helped(said_of(WORDS, spot.word(0))),
        40 => unmeant(spot, known),
        44 => unfit(spot),
        49 => unusable(spot, owner, known),
        _ => by_number(number),
    }
}
