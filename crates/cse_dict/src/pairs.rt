//! The pairs of a `Value` line: pieces between blanks, up to the first `;`, both outside single quotes.
ghost use Rattle.std.specs.Prelude.{◌≡◌, ◌==◌, ◌∷◌, ◌<◌, ◌≤◌, ◌-◌, false, length, slice_range};
ghost use Rattle.std.specs.List.{list_all, list_any};
ghost use Rattle.cse_dict.specs.Pairs.{is_counted, is_quoted, is_value, one_more, pair_of, pairs_after, piece_len, pieces_of, quoted_pair, range_between, range_of, with_counted};

use crate::keys::DataType;
use cse_sections::number::whole_of;
use cse_sections::sections::Entry;
use cse_sections::text::{is_same, place_of};

/// What a piece of a `Value` line is.
#[derive(Clone, Copy)]
pub enum Pair {
    /// No piece at all.
    Nothing,
    /// The numbers from one to another.
    Range(i64, i64),
    /// A pair that contains no number.
    NoNumber,
    /// Another piece, which makes the set partial.
    Skipped,
}

/// How many bytes stand before the first blank or `;` outside quotes.
fn piece_len(text: &[u8]) -> usize
    ensures len { result ≡ piece_len false text.now }
    ensures within { result ≤ length text.now }
{
    let mut is_open = false;
    let mut len = 0;
    'bytes: for b in text {
        if !is_open && (*b == b';' || *b == b' ') {
            return len;
        }
        is_open = is_open != (*b == b'\'');
        len += 1;
    }
    len
}

/// The first piece of a text, and what follows it.
pub fn first_piece(text: &[u8]) -> (&[u8], &[u8])
    requires { 0 < length text.now }
    ensures pieces { pieces_of text.now ≡ result.0.now ∷ pieces_of result.1.now }
    ensures shorter { length result.1.now < length text.now }
{
    let len = piece_len(text);
    if len == text.len() {
        return (text, &text[text.len()..]);
    }
    if text[len] == b' ' {
        return (&text[..len], &text[len + 1..]);
    }
    (&text[..len], &text[text.len()..])
}

/// Whether there is a quote.
fn has_quote(bytes: &[u8]) -> bool
    ensures { result ≡ list_any (λ b. b == 39) bytes.now }
{
    bytes.iter().any(|b| *b == b'\'')
}

/// Whether there are blanks alone.
fn is_blank(bytes: &[u8]) -> bool
    ensures { result ≡ list_all (λ b. b == 32) bytes.now }
{
    bytes.iter().all(|b| *b == b' ')
}

/// Whether the piece is a text in single quotes.
#[tactic(auto, unfolding(crate::specs::Pairs::is_quoted))]
fn is_quoted(piece: &[u8]) -> bool
    ensures { result ≡ is_quoted piece.now }
{
    match piece {
        [b'\'', inside @ .., b'\''] => !has_quote(inside),
        _ => false,
    }
}

/// Whether the piece is a quoted text of blanks or nothing.
fn is_quoted_blank(piece: &[u8]) -> bool
    requires { 2 ≤ length piece.now }
    ensures { result ≡ list_all (λ b. b == 32) (slice_range piece.now 1 (length piece.now - 1)) }
{
    is_blank(&piece[1..piece.len() - 1])
}

/// A quoted text on an item of this type.
#[tactic(auto, unfolding(crate::specs::Pairs::quoted_pair))]
fn quoted_pair(data_type: DataType, piece: &[u8]) -> Pair
    requires { 2 ≤ length piece.now }
    ensures { result ≡ quoted_pair data_type piece.now }
{
    match data_type {
        DataType::Alpha => Pair::NoNumber,
        DataType::Numeric => {
            if is_quoted_blank(piece) {
                return Pair::NoNumber;
            }
            Pair::Skipped
        }
        DataType::Neither => Pair::Skipped,
    }
}

/// The numbers from one to another.
fn range_between(low: Option<i64>, high: Option<i64>) -> Pair
    ensures { result ≡ range_between low high }
{
    match (low, high) {
        (Some(low), Some(high)) if low <= high => Pair::Range(low, high),
        _ => Pair::Skipped,
    }
}

/// The numbers that `n` or `n:m` means.
#[tactic(auto, unfolding(crate::specs::Pairs::range_of))]
fn range_of(piece: &[u8]) -> Pair
    ensures { result ≡ range_of piece.now }
{
    match place_of(b':', piece) {
        Some(i) => range_between(whole_of(&piece[..i]), whole_of(&piece[i + 1..])),
        None => {
            let number = whole_of(piece);
            range_between(number, number)
        }
    }
}

/// What a piece is, on an item of this type.
#[tactic(auto, unfolding(crate::specs::Pairs::pair_of, crate::specs::Pairs::is_quoted))]
pub fn pair_of(data_type: DataType, piece: &[u8]) -> Pair
    ensures { result ≡ pair_of data_type piece.now }
{
    if piece.is_empty() {
        return Pair::Nothing;
    }
    if is_quoted(piece) {
        return quoted_pair(data_type, piece);
    }
    range_of(piece)
}

/// Whether a pair counts.
fn is_counted(pair: Pair) -> bool
    ensures { result ≡ is_counted pair }
{
    match pair {
        Pair::Range(_, _) | Pair::NoNumber => true,
        Pair::Nothing | Pair::Skipped => false,
    }
}

/// One pair more, if the piece is one.
#[tactic(auto, unfolding(crate::specs::Pairs::with_counted))]
fn with_counted(data_type: DataType, count: u32, piece: &[u8]) -> u32
    ensures { result ≡ with_counted data_type count piece.now }
{
    if is_counted(pair_of(data_type, piece)) {
        return count.saturating_add(1).min(100_001);
    }
    count
}

/// The pairs so far, with those of a value, counted up to 100,001.
#[tactic(auto, unfolding(crate::specs::Pairs::pairs_after, crate::specs::Pairs::pieces_of))]
pub fn pairs_after(data_type: DataType, count: u32, value: &[u8]) -> u32
    ensures { result ≡ pairs_after data_type count value.now }
{
    let mut count = count;
    let mut rest = value;
    'pieces: while !rest.is_empty() {
        let (piece, more) = first_piece(rest);
        count = with_counted(data_type, count, piece);
        rest = more;
    }
    count
}

/// Whether a line of a value set holds a row.
#[tactic(auto, unfolding(crate::specs::Pairs::is_value))]
pub fn is_value(entry: &Entry<'_>) -> bool
    ensures { result ≡ is_value entry.now }
{
    is_same(entry.key, b"Value")
}
