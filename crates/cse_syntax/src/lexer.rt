//! From a text to its tokens.

ghost use Rattle.std.specs.Prelude.{◌≡◌, ◌≤◌, ◌<◌, ◌+◌, ◌-◌, drop, map, length, take, slice_index, Some, None, MatchOption, MatchResult, IfSome, IfNone, IfOk, IfErr, true, false, ◌∷◌};
ghost use Rattle.std.specs.List.{prefix_len, count_by};
ghost use Rattle.std.specs.Char.{is_ascii_digit};
ghost use Rattle.cse_syntax.specs.Text as spec;
ghost use Rattle.cse_syntax.specs.Text.{piece};
ghost use Rattle.cse_syntax_tree.specs.Leaf.{is_token};
ghost use Rattle.cse_syntax.specs.Lexed.{depth, Splits, Continues, IsShorter};

use crate::error::{Cause, SourceFault};
use crate::word::word_kind;
use cse_syntax_tree::{Kind, Mark, Token};
use std::alloc::{AllocError, Global};

/// Where a byte of blanks and comments is.
#[derive(Clone, Copy)]
pub enum Gap {
    /// In none.
    Between,
    /// At the second `/` of a `//`.
    Slash,
    /// In a comment to the line's end.
    Line,
    /// In a comment in braces, within this many others.
    Braces(usize),
}

/// Whether this byte comes next.
fn begins(byte: u8, bytes: &[u8]) -> bool
    ensures { result ≡ spec.begins byte bytes.now }
{
    match bytes.first() {
        Some(first) => *first == byte,
        None => false,
    }
}

/// Where the next byte is, or none where a token begins; `slash` says whether a `/` comes next.
fn gap_after(gap: Gap, byte: u8, slash: bool) -> Option<Gap>
    requires { depth gap < usize.MAX }
    ensures value { result ≡ spec.gap_after gap byte slash }
    ensures small { IfSome result (λ after. depth after ≤ depth gap + 1) }
    ensures ascii { IfSome result (λ after. after ≡ Gap.Between → byte < 128) }
    ensures token { IfNone result (gap ≡ Gap.Between) }
{
    match gap {
        Gap::Between => match byte {
            b'{' => Some(Gap::Braces(0)),
            b' ' | b'\t' | b'\n' | b'\r' => Some(Gap::Between),
            b'/' if slash => Some(Gap::Slash),
            _ => None,
        },
        Gap::Slash => Some(Gap::Line),
        Gap::Line => Some(if byte == b'\n' {
            Gap::Between
        } else {
            Gap::Line
        }),
        Gap::Braces(around) => Some(in_braces(around, byte)),
    }
}

fn in_braces(around: usize, byte: u8) -> Gap
    requires { around + 1 < usize.MAX }
    ensures value { Some result ≡ spec.gap_after (Gap.Braces around) byte false }
    ensures small { depth result ≤ around + 2 }
    ensures ascii { result ≡ Gap.Between → byte < 128 }
{
    match byte {
        b'{' => Gap::Braces(around + 1),
        b'}' if around == 0 => Gap::Between,
        b'}' => Gap::Braces(around - 1),
        _ => Gap::Braces(around),
    }
}

/// How many bytes of blanks and comments stand at the front, or else the place of the outermost brace that isn't closed.
fn gap_len(bytes: &[u8]) -> Result<usize, usize>
    ensures value { MatchResult result (λ n. spec.skip Gap.Between bytes.now ≡ Some (drop n bytes.now)) (λ _. spec.skip Gap.Between bytes.now ≡ None) }
    ensures within { IfOk result (λ n. n ≤ length bytes.now) }
    ensures cut { IfOk result (λ n. 0 < n → n < length bytes.now → slice_index bytes.now (n - 1) < 128) }
    ensures place { IfErr result (λ at. at ≤ length bytes.now) }
{
    let mut gap = Gap::Between;
    let mut outermost = 0;
    for (i, byte) in bytes.iter().enumerate() {
        if matches!(gap, Gap::Between) {
            outermost = i;
        }
        match gap_after(gap, *byte, begins(b'/', &bytes[i + 1..])) {
            Some(after) => gap = after,
            None => return Ok(i),
        }
    }
    match gap {
        Gap::Between | Gap::Line => Ok(bytes.len()),
        Gap::Slash | Gap::Braces(_) => Err(outermost),
    }
}

fn symbol(byte: u8) -> Option<Mark>
    ensures { result ≡ spec.symbol byte }
{
    match byte {
        b';' => Some(Mark::Semicolon),
        b',' => Some(Mark::Comma),
        b'(' => Some(Mark::Open),
        b')' => Some(Mark::Close),
        b'=' => Some(Mark::Equals),
        b'+' => Some(Mark::Plus),
        b'-' => Some(Mark::Minus),
        b'*' => Some(Mark::Star),
        b'/' => Some(Mark::Slash),
        b'%' => Some(Mark::Percent),
        _ => None,
    }
}

/// The longest symbol that begins with this byte, where these come after it.
fn symbol_at(byte: u8, after: &[u8]) -> Option<(usize, Mark)>
    ensures value { result ≡ spec.symbol_at byte after.now }
    ensures within { IfSome result (λ t. (0 < t.0) × (t.0 ≤ length after.now + 1)) }
    ensures ascii { IfSome result (λ t. slice_index (byte ∷ after.now) (t.0 - 1) < 128) }
{
    let equals = begins(b'=', after);
    match byte {
        b'<' if begins(b'>', after) => Some((2, Mark::Differs)),
        b'<' if equals => Some((2, Mark::AtMost)),
        b'<' => Some((1, Mark::Less)),
        b'>' if equals => Some((2, Mark::AtLeast)),
        b'>' => Some((1, Mark::More)),
        _ => Some((1, symbol(byte)?)),
    }
}

fn is_word_byte(byte: u8) -> bool
    ensures { result ≡ spec.is_word_byte byte }
{
    byte.is_ascii_alphanumeric() || byte == b'_'
}

fn word_len(bytes: &[u8]) -> usize
    ensures value { result ≡ prefix_len spec.is_word_byte bytes.now }
    ensures within { result ≤ length bytes.now }
    ensures ascii { 0 < result → slice_index bytes.now (result - 1) < 128 }
{
    let mut n = 0;
    while n < bytes.len() && is_word_byte(bytes[n]) {
        n += 1;
    }
    n
}

fn digits_len(bytes: &[u8]) -> usize
    ensures value { result ≡ prefix_len is_ascii_digit bytes.now }
    ensures within { result ≤ length bytes.now }
    ensures ascii { 0 < result → slice_index bytes.now (result - 1) < 128 }
{
    let mut n = 0;
    while n < bytes.len() && bytes[n].is_ascii_digit() {
        n += 1;
    }
    n
}

fn is_inside(quote: u8, byte: u8) -> bool
    ensures { result ≡ spec.is_inside quote byte }
{
    byte >= 32 && byte != quote
}

fn inside_len(quote: u8, bytes: &[u8]) -> usize
    ensures value { result ≡ prefix_len (spec.is_inside quote) bytes.now }
    ensures within { result ≤ length bytes.now }
{
    let mut n = 0;
    while n < bytes.len() && is_inside(quote, bytes[n]) {
        n += 1;
    }
    n
}

/// Whether a character begins with this byte.
fn is_start(byte: u8) -> bool
    ensures { result ≡ spec.is_start byte }
{
    byte < 128 || byte >= 192
}

/// How many characters are in the bytes of a text.
pub fn characters(bytes: &[u8]) -> usize
    ensures { result ≡ count_by spec.is_start bytes.now }
{
    let mut count = 0;
    'bytes: for i in 0..bytes.len() {
        if is_start(bytes[i]) {
            count += 1;
        }
    }
    count
}

/// The length of a text with its quotes, where these bytes come after the first one.
fn text_len(quote: u8, bytes: &[u8]) -> Option<usize>
    requires small { quote < 128 }
    requires fits { length bytes.now + 2 < usize.MAX }
    ensures value { result ≡ spec.text_len quote bytes.now }
    ensures within { IfSome result (λ n. (1 < n) × (n ≤ length bytes.now + 1)) }
    ensures ascii { IfSome result (λ n. slice_index (quote ∷ bytes.now) (n - 1) < 128) }
{
    let n = inside_len(quote, bytes);
    if begins(quote, &bytes[n..]) && characters(&bytes[..n]) <= 255 {
        Some(n + 2)
    } else {
        None
    }
}

/// The length and the kind of the longest token at the front, if one begins there.
fn token_at(bytes: &[u8]) -> Option<(usize, Kind)>
    ensures value { result ≡ spec.token_at bytes.now }
    ensures within { IfSome result (λ t. (0 < t.0) × (t.0 ≤ length bytes.now)) }
    ensures ascii { IfSome result (λ t. slice_index bytes.now (t.0 - 1) < 128) }
{
    let first = *bytes.first()?;
    if first.is_ascii_alphabetic() {
        let n = word_len(bytes);
        return Some((n, word_kind(&bytes[..n])));
    }
    if first.is_ascii_digit() {
        return Some((digits_len(bytes), Kind::Number));
    }
    if first == b'\'' || first == b'"' {
        let n = text_len(first, &bytes[1..])?;
        return Some((n, Kind::Text));
    }
    let (n, mark) = symbol_at(first, &bytes[1..])?;
    Some((n, Kind::Mark(mark)))
}

/// The same, written as its kind wants.
fn token_of_kind(bytes: &[u8]) -> Option<(usize, Kind)>
    ensures value { result ≡ spec.token_at bytes.now }
    ensures within { IfSome result (λ t. (0 < t.0) × (t.0 ≤ length bytes.now)) }
    ensures ascii { IfSome result (λ t. slice_index bytes.now (t.0 - 1) < 128) }
    ensures kind { IfSome result (λ t. is_token t.1 (take t.0 bytes.now) ≡ true) }
{
    token_at(bytes)
}

/// The text after blanks and comments at its front, or else the place of the outermost brace that isn't closed.
fn past_gap(text: &str) -> Result<&str, usize>
    ensures value { MatchResult result (λ rest. spec.skip Gap.Between text.now ≡ Some rest.now) (λ _. spec.skip Gap.Between text.now ≡ None) }
    ensures shorter { IfOk result (λ rest. length rest.now ≤ length text.now) }
    ensures place { IfErr result (λ at. at ≤ length text.now) }
{
    let n = gap_len(text.as_bytes())?;
    Ok(&text[n..])
}

/// The fault where no token begins.
fn fault_at(bytes: &[u8], place: usize) -> SourceFault {
    let cause = match bytes.first() {
        Some(b'\'' | b'"') => Cause::Comment,
        _ => Cause::Character,
    };
    SourceFault { cause, place }
}

/// The token at the front of what is left of a text, and the text from the next one on; or else the fault there,
/// and the token too if the fault is behind it.
#[tactic(auto, unfolding(crate::specs::Text::next_piece))]
fn next_token<'a>(index: usize, total: usize, rest: &'a str) -> Next<'a>
    requires { length rest.now ≤ total }
    ensures value { Continues index total rest.now result }
    ensures shorter { IsShorter rest.now result }
{
    let place = total - rest.len();
    let Some((len, kind)) = token_of_kind(rest.as_bytes()) else {
        return Next::Fault(fault_at(rest.as_bytes(), place));
    };
    let (text, behind) = rest.split_at(len);
    let token = Token {
        index,
        kind,
        start: place,
        end: place + len,
        text,
    };
    match past_gap(behind) {
        Ok(after) => Next::Token(token, after),
        Err(at) => Next::Last(
            token,
            SourceFault {
                cause: Cause::Comment,
                place: place + len + at,
            },
        ),
    }
}

/// What comes next in a text.
enum Next<'a> {
    /// A token, and the text from the next one on.
    Token(Token<'a>, &'a str),
    /// A token, and behind it a comment without an end.
    Last(Token<'a>, SourceFault),
    /// No token.
    Fault(SourceFault),
}

/// The tokens of a text, up to the first place where it has none.
#[derive(Drop)]
pub struct Lexed<'a> {
    pub tokens: Vec<Token<'a>>,
    pub fault: Option<SourceFault>,
}

/// The text after a byte order mark at its front.
pub fn past_mark(text: &str) -> &str
    ensures value { result.now ≡ drop (spec.mark_len text.now) text.now }
    ensures shorter { length result.now ≤ length text.now }
{
    let bytes = text.as_bytes();
    if begins(239, bytes) && begins(187, &bytes[1..]) && begins(191, &bytes[2..]) {
        &text[3..]
    } else {
        text
    }
}

/// The tokens of a text.
pub fn tokens<'a>(alloc: Global, text: &'a str) -> Result<Lexed<'a>, AllocError>
    ensures { IfOk result (λ l. Splits text.now l.tokens.items l.fault) }
{
    let mut tokens = Vec::new(alloc);
    let front = past_mark(text);
    let mut rest = match past_gap(front) {
        Ok(rest) => rest,
        Err(at) => {
            let place = text.len() - front.len() + at;
            return Ok(Lexed {
                tokens,
                fault: Some(SourceFault {
                    cause: Cause::Comment,
                    place,
                }),
            });
        }
    };
    'all: while !rest.is_empty() {
        match next_token(tokens.len(), text.len(), rest) {
            Next::Token(token, after) => {
                tokens.push(token)?;
                rest = after;
            }
            Next::Last(token, fault) => {
                tokens.push(token)?;
                return Ok(Lexed {
                    tokens,
                    fault: Some(fault),
                });
            }
            Next::Fault(fault) => return Ok(Lexed {
                tokens,
                fault: Some(fault),
            }),
        }
    }
    Ok(Lexed {
        tokens,
        fault: None,
    })
}
