//! What is seen in the tokens alone: statements that are never reached, loops that never turn, relations that leave special
//! values out, and messages.

use crate::spot::Spot;
use crate::token::{Role, tokens_in};

/// Whether the statement two tokens on is never reached, since here the event or the turn ends.
pub fn is_left(spot: &Spot<'_>) -> bool {
    let leaves = spot.is(0, b"exit") || spot.is(0, b"break") || spot.is(0, b"next");
    if !leaves || spot.role(1) != Role::Semicolon {
        return false;
    }
    match spot.role(2) {
        Role::EndIf | Role::EndDo | Role::Else | Role::ElseIf | Role::End => false,
        Role::Proc | Role::Event | Role::Semicolon => false,
        _ => true,
    }
}

/// Whether a loop begins here that never turns, since its limit is below its start.
pub fn never_turns(spot: &Spot<'_>) -> bool {
    if spot.role(0) != Role::Do || !spot.is(1, b"varying") {
        return false;
    }
    let Some((from, count)) = spot.number(4) else {
        return false;
    };
    match spot.number(count.saturating_add(7)) {
        Some((to, _)) => to < from,
        None => false,
    }
}

/// Whether a text in quotes has a `%` that is no placeholder.
pub fn has_other_percent(text: &[u8]) -> bool {
    let mut is_open = false;
    let mut has_width = false;
    for byte in text {
        match *byte {
            b'%' if !is_open => {
                is_open = true;
                has_width = false;
            }
            _ if !is_open => {}
            b'0'..=b'9' => has_width = true,
            b'd' => is_open = false,
            b'%' | b's' if !has_width => is_open = false,
            _ => return true,
        }
    }
    is_open
}

/// The relation that holds for the numbers for which this one doesn't; none of a sign that puts none before others.
fn opposite(sign: &[u8]) -> &'static [u8] {
    match sign {
        [b'<'] => b">=",
        [b'>'] => b"<=",
        [b'<', b'='] => b">",
        [b'>', b'='] => b"<",
        _ => b"",
    }
}

/// Whether a special value stands beside a relation that it always makes false.
pub fn is_always_false(spot: &Spot<'_>) -> bool {
    let is_beside = spot.role(1) == Role::Special || spot.role_before(1) == Role::Special;
    is_beside && !opposite(spot.word(0)).is_empty()
}

/// Whether an `else` or another `elseif` stands behind this one.
fn has_else(spot: &Spot<'_>) -> bool {
    let mut depth = 0usize;
    let first = spot.index.saturating_add(1);
    for token in tokens_in(spot.tokens, first, spot.tokens.len()) {
        match token.role {
            Role::If => depth = depth.saturating_add(1),
            Role::Else | Role::ElseIf if depth == 0 => return true,
            Role::EndIf if depth == 0 => return false,
            Role::EndIf => depth = depth.saturating_sub(1),
            _ => {}
        }
    }
    false
}

/// The `if` or `elseif` before this one.
fn condition_before(spot: &Spot<'_>) -> usize {
    let mut depth = 0usize;
    let mut index = spot.index;
    for count in 0..spot.index {
        index = index.saturating_sub(1);
        match spot.role_before(count.saturating_add(1)) {
            Role::EndIf => depth = depth.saturating_add(1),
            Role::If | Role::ElseIf if depth == 0 => return index,
            Role::If => depth = depth.saturating_sub(1),
            _ => {}
        }
    }
    index
}

/// Whether an `elseif` asks for the opposite of the condition before it, and nothing is left for special values.
pub fn leaves_out(spot: &Spot<'_>) -> bool {
    if spot.role(0) != Role::ElseIf || spot.role(4) != Role::Then {
        return false;
    }
    let before = Spot {
        index: condition_before(spot),
        ..*spot
    };
    let sign = opposite(before.word(2));
    before.role(4) == Role::Then
        && !sign.is_empty()
        && spot.is(2, sign)
        && spot.is(1, before.word(1))
        && spot.is(3, before.word(3))
        && !has_else(spot)
}
