//! All warnings of a text of logic.

use crate::cut::{Kind, Piece};
use crate::flow::{has_other_percent, is_always_false, is_left, leaves_out, never_turns};
use crate::found::Finding;
use crate::gathered::Gathered;
use crate::items::{names_others, of_item};
use crate::sets::{blank_sets, is_blank};
use crate::spot::Spot;
use crate::token::{Token, tokens_in};
use crate::unused::unused_names;
use cse_dict::Dictionary;
use std::alloc::{AllocError, Global};

/// Whether a declaration has a starting list.
fn has_list(text: &[u8], own: &[Token]) -> bool {
    for token in own {
        if token.is(text, b"=") {
            return true;
        }
    }
    false
}

/// Adds the name of a declaration that has no starting list.
fn add_empty<'a>(text: &'a [u8], own: &[Token], empty: &mut Gathered<&'a [u8]>) {
    if let [_, name, ..] = own {
        if !has_list(text, own) {
            empty.add(name.of(text));
        }
    }
}

/// Adds the names of arrays that have no starting list.
fn add_arrays<'a>(
    text: &'a [u8],
    tokens: &[Token],
    pieces: &[Piece],
    empty: &mut Gathered<&'a [u8]>,
) {
    for piece in pieces {
        if piece.kind == Kind::Declaration {
            add_empty(text, tokens_in(tokens, piece.first, piece.last), empty);
        }
    }
}

/// The names of arrays that have no starting list.
fn empty_arrays<'a>(
    alloc: Global,
    text: &'a [u8],
    tokens: &[Token],
    pieces: &[Piece],
) -> Result<Vec<&'a [u8]>, AllocError> {
    let mut empty = Gathered::new(alloc);
    add_arrays(text, tokens, pieces, &mut empty);
    empty.finish()
}

/// The warning that is seen at a token: how many tokens behind it stands, and its number.
fn seen_at(
    dictionary: &Dictionary,
    spot: &Spot<'_>,
    empty: &[&[u8]],
    blank: &[&[u8]],
) -> Option<(usize, u8)> {
    if let Some(number) = of_item(dictionary, spot, empty) {
        Some((0, number))
    } else if is_left(spot) {
        Some((2, 104))
    } else if never_turns(spot) {
        Some((0, 105))
    } else if spot.is(0, b"errmsg") && has_other_percent(spot.word(2)) {
        Some((2, 108))
    } else if is_blank(dictionary, spot, blank) {
        Some((0, 109))
    } else if is_always_false(spot) {
        Some((0, 110))
    } else if leaves_out(spot) {
        Some((2, 110))
    } else {
        None
    }
}

/// The warning that is seen at a token, if there is one.
fn add_seen_at(
    dictionary: &Dictionary,
    spot: &Spot<'_>,
    empty: &[&[u8]],
    blank: &[&[u8]],
    found: &mut Gathered<Finding>,
) {
    if let Some((count, number)) = seen_at(dictionary, spot, empty, blank) {
        if let Some(token) = spot.ahead(count) {
            let start = token.start;
            found.add(Finding { start, number });
        }
    }
}

/// The warnings that are seen at tokens.
fn add_seen(
    dictionary: &Dictionary,
    text: &[u8],
    tokens: &[Token],
    empty: &[&[u8]],
    blank: &[&[u8]],
    found: &mut Gathered<Finding>,
) {
    let mut spot = Spot {
        text,
        tokens,
        index: 0,
    };
    for index in 0..tokens.len() {
        spot.index = index;
        add_seen_at(dictionary, &spot, empty, blank, found);
    }
}

/// The warning at a procedure of an item that names other occurrences alone.
fn add_procedure(
    dictionary: &Dictionary,
    text: &[u8],
    own: &[Token],
    found: &mut Gathered<Finding>,
) {
    if let [_, name, ..] = own {
        if names_others(dictionary, text, own) {
            found.add(Finding {
                start: name.start,
                number: 111,
            });
        }
    }
}

/// Procedures of items that name other occurrences alone.
fn add_procedures(
    dictionary: &Dictionary,
    text: &[u8],
    tokens: &[Token],
    pieces: &[Piece],
    found: &mut Gathered<Finding>,
) {
    for piece in pieces {
        if piece.kind == Kind::Procedure {
            let own = tokens_in(tokens, piece.first, piece.last);
            add_procedure(dictionary, text, own, found);
        }
    }
}

/// The warnings that are seen at tokens, by arrays without a starting list and a dictionary's own text.
fn add_with(
    alloc: Global,
    dictionary: &Dictionary,
    source: &[u8],
    text: &[u8],
    tokens: &[Token],
    empty: &[&[u8]],
    found: &mut Gathered<Finding>,
) {
    match blank_sets(alloc, source) {
        Ok(blank) => add_seen(dictionary, text, tokens, empty, &blank, found),
        Err(_) => found.give_up(),
    }
}

/// The warnings of a text, added to what was found, by a dictionary and its own text.
pub fn warnings_of(
    alloc: Global,
    dictionary: &Dictionary,
    source: &[u8],
    text: &[u8],
    tokens: &[Token],
    pieces: &[Piece],
    found: &mut Gathered<Finding>,
) {
    match empty_arrays(alloc, text, tokens, pieces) {
        Ok(empty) => add_with(alloc, dictionary, source, text, tokens, &empty, found),
        Err(_) => found.give_up(),
    }
    add_procedures(dictionary, text, tokens, pieces, found);
    unused_names(alloc, text, tokens, pieces, found);
}
