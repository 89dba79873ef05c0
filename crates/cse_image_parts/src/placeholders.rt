//! The pieces of a message's text: bytes that stand for themselves, and placeholders for arguments.
//!
//! A `%` stands for itself but where it begins `%d`, `%nd` or `%0nd` with n from 1 to 99 without
//! leading zeros (a number), `%s` (a text), or `%%`, which stands for `%` (CSPro Users Guide,
//! Errmsg function; the limits are own). What counts is ASCII, so a text is taken by the bytes of
//! its UTF-8. Nothing here takes memory.

ghost use Rattle.std.specs.Prelude.{◌≡◌, ◌≤◌, length, true, false, [], ◌∷◌, ◌++◌, MatchOption};
ghost use Rattle.std.specs.List.{list_all, prefix_len, slice_get};
ghost use Rattle.std.specs.Iterator.{YieldsFirst, item_count};
ghost use Rattle.cse_image_parts.specs.Placeholders.{is_digit, width_of, number_of as spec_number_of, piece_of as spec_piece_of, marked as spec_marked, piece_at as spec_piece_at, pieces_of, argument_of, message_kinds, has_few_placeholders};
ghost use Rattle.cse_image_parts.specs.Pieces.{pieces_left, kinds_left};
ghost use Rattle.cse_image_parts.specs.Written.{written, IsWritable, BeginsNoPiece};

use crate::limits::MOST_PLACEHOLDERS;

/// The kind of an argument of a message.
#[derive(Clone, Copy)]
pub enum ArgumentKind {
    Number,
    Text,
}

/// A piece of a message's text.
#[derive(Clone, Copy)]
pub enum Piece {
    /// A byte that stands for itself.
    Plain(u8),
    /// The next argument, a number, in at least so many columns from 0 to 99 (0: in as many as it
    /// has), filled up with zeros after the sign, or else with blanks in front.
    Number { width: u8, zeros: bool },
    /// The next argument, a text.
    Text,
}

impl Piece {
    /// The kind of the argument that the piece takes, if it takes one.
    pub fn argument(self) -> Option<ArgumentKind>
        ensures { result ≡ argument_of self }
    {
        match self {
            Piece::Plain(_) => None,
            Piece::Number { .. } => Some(ArgumentKind::Number),
            Piece::Text => Some(ArgumentKind::Text),
        }
    }
}

/// How many digits stand in front.
fn count_digits(bytes: &[u8]) -> usize
    ensures { result ≡ prefix_len is_digit bytes.now }
{
    for (i, byte) in bytes.iter().enumerate() {
        if !byte.is_ascii_digit() {
            return i;
        }
    }
    bytes.len()
}

/// A number from 1 to 99 without leading zeros.
fn width_in(digits: &[u8]) -> Option<u8>
    requires { list_all is_digit digits.now ≡ true }
    ensures { result ≡ width_of digits.now }
{
    match digits {
        [b'0', ..] => None,
        [a] => Some(*a - b'0'),
        [a, b] => Some(10 * (*a - b'0') + (*b - b'0')),
        _ => None,
    }
}

/// The placeholder of a number with these digits between its `%` and its `d`.
fn number_of(digits: &[u8]) -> Option<Piece>
    requires { list_all is_digit digits.now ≡ true }
    ensures { result ≡ spec_number_of digits.now }
{
    match digits {
        [] => Some(Piece::Number {
            width: 0,
            zeros: false,
        }),
        [b'0', others @ ..] => {
            let width = width_in(others)?;
            Some(Piece::Number { width, zeros: true })
        }
        _ => {
            let width = width_in(digits)?;
            Some(Piece::Number {
                width,
                zeros: false,
            })
        }
    }
}

/// The piece of a `%`, the digits after it, and what follows them.
fn piece_of(digits: &[u8], rest: &[u8]) -> Option<Piece>
    requires { list_all is_digit digits.now ≡ true }
    ensures { result ≡ spec_piece_of digits.now rest.now }
{
    match (digits.is_empty(), rest.first()?) {
        (_, b'd') => number_of(digits),
        (true, b's') => Some(Piece::Text),
        (true, b'%') => Some(Piece::Plain(b'%')),
        _ => None,
    }
}

/// What a `%` and the bytes after it begin, and how many of those belong to it.
fn marked(rest: &[u8]) -> Option<(Piece, usize)>
    ensures { result ≡ spec_marked rest.now }
{
    let count = count_digits(rest);
    let piece = piece_of(&rest[..count], &rest[count..])?;
    Some((piece, count + 1))
}

/// The piece that a byte and those after it begin, and how many of those belong to it.
fn piece_at(first: u8, rest: &[u8]) -> (Piece, usize)
    ensures { result ≡ spec_piece_at first rest.now }
{
    if first != b'%' {
        return (Piece::Plain(first), 0);
    }
    match marked(rest) {
        Some(found) => found,
        None => (Piece::Plain(b'%'), 0),
    }
}

/// The first piece of a text, and what follows it.
fn first_piece(text: &[u8]) -> Option<(Piece, &[u8])>
    ensures { MatchOption result (pieces_of text.now ≡ []) (λ p. pieces_of text.now ≡ p.0 ∷ pieces_of p.1.now) }
{
    match text.split_first() {
        None => None,
        Some((first, rest)) => {
            let (piece, more) = piece_at(*first, rest);
            Some((piece, &rest[more..]))
        }
    }
}

/// The pieces of a text, the bytes of its UTF-8, from the front.
#[derive(Clone, Copy)]
pub struct Pieces<'a> {
    rest: &'a [u8],
}

impl<'a> Pieces<'a> {
    /// The pieces of this text.
    pub fn new(text: &'a [u8]) -> Pieces<'a>
        ensures { pieces_left result ≡ pieces_of text.now }
    {
        Pieces { rest: text }
    }
}

impl<'a> Iterator for Pieces<'a> {
    type Item = Piece;

    ghost next_gives = { YieldsFirst pieces_left };

    ghost remaining = { item_count pieces_left };

    fn next(&mut self) -> Option<Piece> {
        let (piece, rest) = first_piece(self.rest)?;
        self.rest = rest;
        Some(piece)
    }
}

/// The kinds of the arguments that a text takes, in order.
#[derive(Clone, Copy)]
pub struct Kinds<'a> {
    pieces: Pieces<'a>,
}

impl<'a> Kinds<'a> {
    /// The kinds of what this text takes.
    pub fn new(text: &'a [u8]) -> Kinds<'a>
        ensures { kinds_left result ≡ message_kinds text.now }
    {
        Kinds {
            pieces: Pieces::new(text),
        }
    }
}

impl<'a> Iterator for Kinds<'a> {
    type Item = ArgumentKind;

    ghost next_gives = { YieldsFirst kinds_left };

    ghost remaining = { item_count kinds_left };

    fn next(&mut self) -> Option<ArgumentKind> {
        while let Some(piece) = self.pieces.next() {
            if let Some(kind) = piece.argument() {
                return Some(kind);
            }
        }
        None
    }
}

/// How many placeholders of a text take an argument.
pub fn count_placeholders(text: &[u8]) -> usize
    ensures { result ≡ length (message_kinds text.now) }
{
    Kinds::new(text).count()
}

/// A message has at most 16 placeholders that take an argument.
pub fn are_few_placeholders(text: &[u8]) -> bool
    ensures { result ≡ has_few_placeholders text.now }
{
    count_placeholders(text) <= MOST_PLACEHOLDERS
}

/// The kind of the argument at this place, from 0.
pub fn kind_at(text: &[u8], place: usize) -> Option<ArgumentKind>
    ensures { result ≡ slice_get (message_kinds text.now) place }
{
    Kinds::new(text).nth(place)
}

/// Law: a piece is read from what is written for it, whatever follows.
pub fn written_piece_is_read(piece: Piece, rest: &[u8])
    ensures { IsWritable piece → pieces_of (written piece ++ rest.now) ≡ piece ∷ pieces_of rest.now }
{}

/// Law: a `%` with which nothing begins that is written for a piece stands for itself.
pub fn other_mark_stands_for_itself(rest: &[u8])
    ensures { BeginsNoPiece (37 ∷ rest.now) → pieces_of (37 ∷ rest.now) ≡ Piece.Plain 37 ∷ pieces_of rest.now }
{}
