//! Blanks and letter case of a text, as bytes, and its characters.
ghost use Rattle.std.specs.Prelude.{◌≡◌, ◌==◌, position, reverse, IfOk};
ghost use Rattle.std.specs.Str.{chars, is_utf8};
ghost use Rattle.cse_sections.specs.Text.{characters, is_same, trimmed, without_blanks};

use memchr::memchr;
use std::alloc::{AllocError, Global};

/// The text without the blanks in front.
fn without_front(text: &[u8]) -> &[u8]
    ensures { result.now ≡ without_blanks text.now }
{
    let mut rest = text;
    'blanks: while rest.first() == Some(&b' ') {
        rest = &rest[1..];
    }
    rest
}

/// The text without the blanks at its end.
fn without_back(text: &[u8]) -> &[u8]
    ensures { result.now ≡ reverse (without_blanks (reverse text.now)) }
{
    let mut rest = text;
    'blanks: while let [more @ .., b' '] = rest {
        rest = more;
    }
    rest
}

/// The text without the blanks (U+0020) at both ends.
#[tactic(auto, unfolding(crate::specs::Text::trimmed))]
pub fn trimmed(text: &[u8]) -> &[u8]
    ensures { result.now ≡ trimmed text.now }
{
    without_back(without_front(text))
}

/// Whether the texts are the same but for the case of ASCII letters.
#[tactic(auto, unfolding(crate::specs::Text::is_same))]
pub fn is_same(a: &[u8], b: &[u8]) -> bool
    ensures { result ≡ is_same a.now b.now }
{
    a.eq_ignore_ascii_case(b)
}

/// Where the byte first stands.
pub fn place_of(byte: u8, text: &[u8]) -> Option<usize>
    ensures { result ≡ position (λ b. b == byte) text.now }
{
    memchr(byte, text)
}

/// Whether the bytes are UTF-8.
pub fn is_utf8(bytes: &[u8]) -> bool
    ensures { result ≡ is_utf8 bytes.now }
{
    match str::from_utf8(bytes) {
        Ok(_) => true,
        Err(_) => false,
    }
}

/// The characters of a text.
fn chars_of(alloc: Global, text: &str) -> Result<Vec<char>, AllocError>
    ensures { IfOk result (λ v. v.items ≡ chars text.now) }
{
    text.chars().collect(alloc)
}

/// The characters of a text in UTF-8, and none of other bytes.
#[tactic(auto, unfolding(crate::specs::Text::characters))]
pub fn characters(alloc: Global, bytes: &[u8]) -> Result<Vec<char>, AllocError>
    ensures { IfOk result (λ v. v.items ≡ characters bytes.now) }
{
    match str::from_utf8(bytes) {
        Ok(text) => chars_of(alloc, text),
        Err(_) => Ok(Vec::new(alloc)),
    }
}
