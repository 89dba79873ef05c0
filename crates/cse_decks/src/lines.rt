//! Lines of a deck text.

ghost use Rattle.std.specs.Prelude.{◌≡◌, ◌==◌, ◌<◌, ◌≤◌, ◌+◌, [], ◌∷◌, MatchOption, IsTrue, length, take, drop};
ghost use Rattle.std.specs.List.{list_all};
ghost use Rattle.std.specs.Char.{is_ascii_digit};
ghost use Rattle.std.specs.Option.{option_map};
ghost use Rattle.cse_value.specs.Field.{field};
ghost use Rattle.cse_decks.specs.Loading.{cut, cell_of, if_shown, blank_place, word, after_word, is_plain, after_size, are_sizes, is_array_line};

use arrayvec::ArrayVec;
use cse_sections::text::place_of;
use cse_value::{Num, read_num, show_num};
use memchr::memchr;

/// The most characters of a number of 64 bits.
const NUMBER_LEN: usize = 20;

/// Where the first LF stands.
pub fn line_end(text: &[u8]) -> Option<usize>
    ensures { MatchOption result (cut text.now ≡ record { lines = []; rest = text.now }) (λ i. (i < length text.now) × (cut text.now
        ≡ record { lines = take i text.now ∷ (cut (drop (i + 1) text.now)).lines; rest = (cut (drop (i + 1) text.now)).rest })) }
{
    memchr(b'\n', text)
}

/// The value that the line of a cell tells.
#[tactic(auto, unfolding(crate::specs::Loading::cell_of))]
pub fn cell_of(line: &[u8]) -> Option<Num>
    ensures { result ≡ cell_of line.now }
{
    if line == b"NOTAPPL".as_slice() {
        return Some(Num::NotAppl);
    }
    if line == b"MISSING".as_slice() {
        return Some(Num::Missing);
    }
    if line == b"DEFAULT".as_slice() {
        return Some(Num::Undef);
    }
    if line.len() > NUMBER_LEN {
        return None;
    }
    if_shown(number_in(line), line)
}

/// The value, if the line is its text.
fn if_shown(value: Num, line: &[u8]) -> Option<Num>
    ensures { result ≡ if_shown value line.now }
{
    if show_num(value).as_str().as_bytes() == line {
        Some(value)
    } else {
        None
    }
}

/// The value of a line of few characters, as of a field without a code.
fn number_in(line: &[u8]) -> Num
    requires { length line.now ≤ 20 }
    ensures { result ≡ field line.now None }
{
    let mut columns = ArrayVec::<char, 20>::new();
    'columns: for byte in line {
        columns.push(*byte as char);
    }
    read_num(columns.as_slice(), None)
}

/// Where the first blank stands, or the end.
fn blank_place(text: &[u8]) -> usize
    ensures place { result ≡ blank_place text.now }
    ensures within { result ≤ length text.now }
{
    match place_of(b' ', text) {
        Some(place) => place,
        None => text.len(),
    }
}

/// The first word.
#[tactic(auto, unfolding(crate::specs::Loading::word))]
pub fn word(text: &[u8]) -> &[u8]
    ensures { result.now ≡ word text.now }
{
    &text[..blank_place(text)]
}

/// What follows the first word.
#[tactic(auto, unfolding(crate::specs::Loading::after_word))]
fn after_word(text: &[u8]) -> &[u8]
    ensures { result.now ≡ after_word text.now }
{
    &text[blank_place(text)..]
}

fn are_digits(digits: &[u8]) -> bool
    ensures { result ≡ list_all is_ascii_digit digits.now }
{
    digits.iter().all(|c| c.is_ascii_digit())
}

/// Digits without zeros in front.
fn is_plain(digits: &[u8]) -> bool
    ensures { result ≡ is_plain digits.now }
{
    if digits.is_empty() {
        return false;
    }
    are_digits(digits) && (digits[0] != b'0' || digits.len() == 1)
}

/// What follows a blank and a size, if these stand in front.
#[tactic(auto, unfolding(crate::specs::Loading::after_size))]
fn after_size(text: &[u8]) -> Option<&[u8]>
    ensures { option_map (λ rest. rest.now) result ≡ after_size text.now }
{
    if text.is_empty() || text[0] != b' ' {
        return None;
    }
    if !is_plain(word(&text[1..])) {
        return None;
    }
    Some(after_word(&text[1..]))
}

/// One to three sizes, each behind a blank.
#[tactic(auto, unfolding(crate::specs::Loading::are_sizes))]
fn are_sizes(text: &[u8]) -> bool
    ensures { result ≡ are_sizes text.now }
{
    let Some(second) = after_size(text) else {
        return false;
    };
    if second.is_empty() {
        return true;
    }
    let Some(third) = after_size(second) else {
        return false;
    };
    if third.is_empty() {
        return true;
    }
    let Some(end) = after_size(third) else {
        return false;
    };
    end.is_empty()
}

/// Whether the line is `ARRAY`, a name without blanks, and one to three sizes.
#[tactic(auto, unfolding(crate::specs::Loading::is_array_line))]
pub fn is_array_line(line: &[u8]) -> bool
    ensures value { result ≡ is_array_line line.now }
    ensures long { IsTrue result → 6 ≤ length line.now }
{
    if !line.starts_with(b"ARRAY ") {
        return false;
    }
    if line.len() < 6 {
        return false;
    }
    if word(&line[6..]).is_empty() {
        return false;
    }
    are_sizes(after_word(&line[6..]))
}
