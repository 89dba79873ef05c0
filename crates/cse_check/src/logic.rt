//! All faults of a text of logic.

use crate::cursor::byte_of;
use crate::cut::Piece;
use crate::found::{Finding, in_order};
use crate::gathered::Gathered;
use crate::mend::Mending;
use crate::sets::is_among;
use crate::token::Token;
use cse_dict::Dictionary;
use cse_fault_numbers::{OTHER_KIND, OTHER_PLACEHOLDERS, UNKNOWN_NAME, WANT_OF_MEMORY};
use cse_syntax::{Kind, Mark, Source, SyntaxError, Token as Read, parse};
use cse_types::{Messages, faults};
use std::alloc::{AllocError, Global};

/// What stands beside logic.
#[derive(Clone, Copy)]
pub struct Beside<'a> {
    /// The dictionary; none where it is at fault.
    pub dictionary: Option<&'a Dictionary>,
    pub messages: &'a Messages,
    /// Whether lines of the message file are at fault, so that some of its numbers are not known.
    pub lacks_messages: bool,
}

/// How many parentheses are open behind a token, where so many are before it.
fn open_behind(tokens: &[Read<'_>], place: usize, depth: usize) -> usize {
    match tokens.get(place) {
        Some(token) => match token.kind {
            Kind::Mark(Mark::Open) => depth.saturating_add(1),
            Kind::Mark(Mark::Close) => depth.saturating_sub(1),
            _ => depth,
        },
        None => depth,
    }
}

/// Where the parenthesis closes that opens behind a name; the name itself where none opens.
fn arguments_end(tokens: &[Read<'_>], name: usize) -> usize {
    let behind = name.saturating_add(1);
    let mut depth = 0usize;
    for place in behind..tokens.len() {
        depth = open_behind(tokens, place, depth);
        if depth == 0 {
            return if place == behind { name } else { place };
        }
    }
    tokens.len()
}

/// Whether a fault of an argument follows from its function, which is not known: a text, a record or a set stands there.
fn is_argument(dictionary: &Dictionary, number: u8, token: &Read<'_>) -> bool {
    let names_other = dictionary.find_record(token.text).is_some()
        || dictionary.find_set(token.text).is_some();
    number == OTHER_KIND || (number == UNKNOWN_NAME && names_other)
}

/// Whether a fault of a name follows from that of a declaration, of which these are the names, or of a message.
fn follows(beside: &Beside<'_>, excused: &[&[u8]], number: u8, token: &Read<'_>) -> bool {
    if token.kind == Kind::Number {
        return beside.lacks_messages && (number == UNKNOWN_NAME || number == OTHER_PLACEHOLDERS);
    }
    number == UNKNOWN_NAME && is_among(excused, token.text.as_bytes())
}

/// Adds a fault of a name or of a kind, if it follows from none of a declaration or a message.
fn add_if_first(
    beside: &Beside<'_>,
    excused: &[&[u8]],
    tokens: &[Read<'_>],
    fault: &Finding,
    found: &mut Gathered<Finding>,
) {
    let number = fault.number;
    if let Some(token) = tokens.get(fault.start) {
        if !follows(beside, excused, number, token) {
            let start = token.start;
            found.add(Finding { start, number });
        }
    }
}

/// Whether a fault is of an argument of a function that is not known, whose arguments end here, and follows from that.
fn is_within(
    dictionary: &Dictionary,
    tokens: &[Read<'_>],
    fault: &Finding,
    unknown_end: usize,
) -> bool {
    match tokens.get(fault.start) {
        Some(token) => { fault.start < unknown_end && is_argument(dictionary, fault.number, token) }
        None => true,
    }
}

/// Where the arguments of the last name end that is not known, behind a fault, where they ended here before it.
fn end_behind(tokens: &[Read<'_>], fault: &Finding, unknown_end: usize) -> usize {
    if fault.number == UNKNOWN_NAME && unknown_end <= fault.start {
        arguments_end(tokens, fault.start)
    } else {
        unknown_end
    }
}

/// Those faults of names and kinds that follow from no other. What stands for the place of each is its token.
fn add_named(
    beside: &Beside<'_>,
    dictionary: &Dictionary,
    tokens: &[Read<'_>],
    excused: &[&[u8]],
    named: &[Finding],
    found: &mut Gathered<Finding>,
) {
    let mut unknown_end = 0;
    for fault in named {
        if !is_within(dictionary, tokens, fault, unknown_end) {
            unknown_end = end_behind(tokens, fault, unknown_end);
            add_if_first(beside, excused, tokens, fault, found);
        }
    }
}

/// All that was found, in order.
fn all_in_order(found: Gathered<Finding>) -> Result<Vec<Finding>, AllocError> {
    match found.finish() {
        Ok(found) => in_order(found),
        Err(refused) => Err(refused),
    }
}

/// The faults of names and kinds of a source, each by its token, in their order.
fn named_faults<'a>(
    alloc: Global,
    beside: &Beside<'a>,
    dictionary: &'a Dictionary,
    source: &Source<'a>,
) -> Result<Vec<Finding>, AllocError> {
    let faults = faults(alloc, dictionary, beside.messages, &source.tree)?;
    let mut named = Gathered::new(alloc);
    for fault in &faults {
        named.add(Finding {
            start: fault.token,
            number: fault.number,
        });
    }
    all_in_order(named)
}

/// A fault of what was thought to be without one.
fn add_error(text: &[u8], error: SyntaxError, found: &mut Gathered<Finding>) {
    if error.number == WANT_OF_MEMORY {
        found.give_up();
        return;
    }
    let (line, column) = (u64::from(error.line), u64::from(error.column));
    found.add(Finding {
        start: byte_of(text, line, column),
        number: error.number,
    });
}

/// The faults of names and kinds of a source.
fn add_of<'a>(
    alloc: Global,
    beside: &Beside<'a>,
    dictionary: &'a Dictionary,
    source: &Source<'a>,
    excused: &[&[u8]],
    found: &mut Gathered<Finding>,
) {
    match named_faults(alloc, beside, dictionary, source) {
        Ok(named) => add_named(beside, dictionary, &source.tokens, excused, &named, found),
        Err(_) => found.give_up(),
    }
}

/// The faults of names and kinds of what can be read.
fn add_names<'a>(
    alloc: Global,
    beside: &Beside<'a>,
    dictionary: &'a Dictionary,
    mended: &'a [u8],
    excused: &[&[u8]],
    found: &mut Gathered<Finding>,
) {
    let Ok(text) = str::from_utf8(mended) else {
        return;
    };
    match parse(alloc, text) {
        Ok(source) => add_of(alloc, beside, dictionary, &source, excused, found),
        Err(error) => add_error(mended, error, found),
    }
}

/// All faults of a text of logic behind some that were found, each once, in the order of their places.
pub fn logic_faults(
    alloc: Global,
    text: &[u8],
    tokens: &[Token],
    pieces: &[Piece],
    beside: &Beside<'_>,
    found: Gathered<Finding>,
) -> Result<Vec<Finding>, AllocError> {
    let mut mending = Mending::new(alloc, text, tokens, found)?;
    mending.take_pieces(pieces);
    let Mending {
        mended,
        mut found,
        excused,
        ..
    } = mending;
    if let Some(dictionary) = beside.dictionary {
        add_names(
            alloc,
            beside,
            dictionary,
            &mended,
            excused.items(),
            &mut found,
        );
    }
    in_order(found.finish()?)
}
