//! What nothing names.

use crate::cut::{Kind, Piece};
use crate::found::Finding;
use crate::gathered::Gathered;
use crate::line::{Line, lines_of};
use crate::token::{Role, Token, part, tokens_in};
use std::alloc::{AllocError, Global};
use std::collections::HashMap;

/// The first and the last token of a name.
#[derive(Clone, Copy)]
struct Span {
    first: usize,
    last: usize,
}

/// Where each name of a text in upper case stands.
type Spans<'a> = HashMap<&'a [u8], Span>;

/// Adds a place of a name, behind those that it has. Answers whether memory lacks.
fn add_span<'a>(spans: &mut Spans<'a>, name: &'a [u8], at: usize) -> bool {
    let first = match spans.get(&name) {
        Some(span) => span.first,
        None => at,
    };
    spans.insert(name, Span { first, last: at }).is_err()
}

/// Adds where the names of a text in upper case stand. Answers whether memory lacks.
fn add_spans<'a>(spans: &mut Spans<'a>, upper: &'a [u8], tokens: &[Token]) -> bool {
    let mut lacks_memory = false;
    for at in 0..tokens.len() {
        if tokens[at].is_name() {
            lacks_memory |= add_span(spans, tokens[at].of(upper), at);
        }
    }
    lacks_memory
}

/// Whether a name stands nowhere else than from here up to there.
fn stays_within(spans: &Spans<'_>, name: &[u8], first: usize, last: usize) -> bool {
    match spans.get(&name) {
        Some(span) => first <= span.first && span.last < last,
        None => false,
    }
}

/// How often a name stands in some tokens.
fn count_in(upper: &[u8], tokens: &[Token], name: &[u8]) -> usize {
    let mut count = 0usize;
    for token in tokens {
        if token.of(upper) == name {
            count = count.saturating_add(1);
        }
    }
    count
}

/// How many parentheses are open behind a token, where so many are before it.
fn depth_behind(role: Role, depth: usize) -> usize {
    match role {
        Role::Open => depth.saturating_add(1),
        Role::Close => depth.saturating_sub(1),
        _ => depth,
    }
}

/// Whether nothing else names what is declared at a token of a piece, within so many parentheses. In those of a declaration
/// nothing is declared, in those of a function its parameters are.
fn is_unused(
    upper: &[u8],
    own: &[Token],
    piece: &Piece,
    spans: &Spans<'_>,
    name: &[u8],
    at: usize,
    depth: usize,
) -> bool {
    if piece.kind != Kind::Function {
        depth == 0 && stays_within(spans, name, at, at.saturating_add(1))
    } else if depth == 0 {
        stays_within(spans, name, piece.first, piece.last)
    } else {
        count_in(upper, own, name) == 1
    }
}

/// The names of a declaration, or of the head of a function, that nothing else names.
fn add_piece(
    upper: &[u8],
    tokens: &[Token],
    piece: &Piece,
    spans: &Spans<'_>,
    found: &mut Gathered<Finding>,
) {
    let own = tokens_in(tokens, piece.first, piece.last);
    let mut depth = 0usize;
    let mut at = piece.first;
    for token in own {
        if token.role == Role::Close && piece.kind == Kind::Function {
            return;
        }
        depth = depth_behind(token.role, depth);
        if token.is_name() && is_unused(upper, own, piece, spans, token.of(upper), at, depth) {
            found.add(Finding {
                start: token.start,
                number: 103,
            });
        }
        at = at.saturating_add(1);
    }
}

/// The same of the pieces of a text in upper case.
fn add_pieces(
    upper: &[u8],
    tokens: &[Token],
    pieces: &[Piece],
    spans: &Spans<'_>,
    found: &mut Gathered<Finding>,
) {
    for piece in pieces {
        if piece.kind == Kind::Declaration || piece.kind == Kind::Function {
            add_piece(upper, tokens, piece, spans, found);
        }
    }
}

/// The same of a text in upper case.
fn add_names(
    alloc: Global,
    upper: &[u8],
    tokens: &[Token],
    pieces: &[Piece],
    found: &mut Gathered<Finding>,
) {
    let mut spans = HashMap::new(alloc);
    if add_spans(&mut spans, upper, tokens) {
        found.give_up();
    } else {
        add_pieces(upper, tokens, pieces, &spans, found);
    }
}

/// Variables, arrays, functions and parameters that nothing names.
pub fn unused_names(
    alloc: Global,
    text: &[u8],
    tokens: &[Token],
    pieces: &[Piece],
    found: &mut Gathered<Finding>,
) {
    match text.to_ascii_uppercase(alloc) {
        Ok(upper) => add_names(alloc, &upper, tokens, pieces, found),
        Err(_) => found.give_up(),
    }
}

/// The digits at the front, without zeros in front.
fn digits_of(line: &[u8]) -> &[u8] {
    let mut start = 0usize;
    let mut end = 0usize;
    for byte in line {
        if !byte.is_ascii_digit() {
            return part(line, start, end);
        }
        let is_front = start == end && *byte == b'0';
        end = end.saturating_add(1);
        if is_front {
            start = end;
        }
    }
    part(line, start, end)
}

/// Numbers in their order as texts.
fn in_order(numbers: Gathered<&[u8]>) -> Result<Vec<&[u8]>, AllocError> {
    let mut numbers = numbers.finish()?;
    numbers.sort()?;
    Ok(numbers)
}

/// Adds the numbers of messages that logic names.
fn add_numbers<'a>(logic: &'a [u8], tokens: &[Token], numbers: &mut Gathered<&'a [u8]>) {
    for at in 2..tokens.len() {
        if tokens[at - 2].is(logic, b"errmsg") {
            numbers.add(digits_of(tokens[at].of(logic)));
        }
    }
}

/// The numbers of messages that logic names, in order.
fn numbers_of<'a>(
    alloc: Global,
    logic: &'a [u8],
    tokens: &[Token],
) -> Result<Vec<&'a [u8]>, AllocError> {
    let mut numbers = Gathered::new(alloc);
    add_numbers(logic, tokens, &mut numbers);
    in_order(numbers)
}

/// Whether a number is among some that are in order.
fn is_named(numbers: &[&[u8]], number: &[u8]) -> bool {
    numbers.binary_search(&number).is_ok()
}

/// Adds the lines of messages whose number is not among some that are in order.
fn add_messages(numbers: &[&[u8]], text: &[u8], lines: &[Line], found: &mut Gathered<Finding>) {
    for line in lines {
        let digits = digits_of(part(text, line.start, line.end));
        if !digits.is_empty() && !is_named(numbers, digits) {
            found.add(Finding {
                start: line.start,
                number: 103,
            });
        }
    }
}

/// Messages of a message file whose number no logic has.
pub fn unused_messages(
    alloc: Global,
    logic: &[u8],
    tokens: &[Token],
    text: &[u8],
) -> Result<Vec<Finding>, AllocError> {
    let lines = lines_of(alloc, text)?;
    let numbers = numbers_of(alloc, logic, tokens)?;
    let mut found = Gathered::new(alloc);
    add_messages(&numbers, text, &lines, &mut found);
    found.finish()
}
