//! The rules of texts and of the names of arrays, each once (own).

ghost use Rattle.std.specs.Prelude.{◌≡◌, map, nat_le, slice_index, MatchOption, IfSome, IsSome, true, false};
ghost use Rattle.std.specs.List.{list_all, list_any};
ghost use Rattle.std.specs.Str.{chars, bytes_eq};
ghost use Rattle.std.specs.String.{string_bytes};
ghost use Rattle.cse_image_parts.specs.Image.{array_lists};
ghost use Rattle.cse_image_parts.specs.Texts.{is_text, is_short, is_name, is_upper, is_name_char, is_new};

use crate::entries::Array;
use crate::limits::{MOST_CHARACTERS, MOST_NAME_BYTES};

/// The characters are U+0020 or above.
fn is_plain(text: &str) -> bool
    ensures { result ≡ list_all (λ c. nat_le 32 c) (chars text.now) }
{
    text.chars().all(|c| c >= ' ')
}

/// A text whose characters are U+0020 or above.
#[tactic(auto, unfolding(crate::specs::Texts::is_text))]
pub fn is_plain_text(text: &str) -> bool
    ensures { result ≡ is_text text.now }
{
    is_plain(text)
}

/// The text that the bytes are, if its characters are U+0020 or above.
#[tactic(auto, unfolding(crate::specs::Texts::is_text))]
pub fn plain_text(bytes: &[u8]) -> Option<&str>
    ensures { MatchOption result (is_text bytes.now ≡ false) (λ text. (text.now ≡ bytes.now) × (is_text bytes.now ≡ true)) }
{
    match str::from_utf8(bytes) {
        Ok(text) => { if is_plain(text) { Some(text) } else { None } }
        Err(_) => None,
    }
}

/// At most 255 characters.
#[tactic(auto, unfolding(crate::specs::Texts::is_short))]
pub fn is_short_text(text: &str) -> bool
    ensures { result ≡ is_short text.now }
{
    text.chars().count() <= MOST_CHARACTERS
}

fn is_name_byte(c: u8) -> bool
    ensures { result ≡ is_name_char c }
{
    matches!(c, b'A'..=b'Z' | b'0'..=b'9' | b'_')
}

fn are_name_bytes(bytes: &[u8]) -> bool
    ensures { result ≡ list_all is_name_char bytes.now }
{
    bytes.iter().all(|c| is_name_byte(*c))
}

fn begins_upper(bytes: &[u8]) -> bool
    ensures { result ≡ is_upper (slice_index bytes.now 0) }
{
    match bytes {
        [] => false,
        [first, ..] => matches!(first, b'A'..=b'Z'),
    }
}

/// An upper case letter, with upper case letters, digits and `_`, 1 to 32 in all.
#[tactic(auto, unfolding(crate::specs::Texts::is_name))]
pub fn is_array_name(name: &[u8]) -> bool
    ensures { result ≡ is_name name.now }
{
    begins_upper(name) && are_name_bytes(name) && name.len() <= MOST_NAME_BYTES
}

/// Is this the name of one of these arrays?
fn is_name_among(arrays: &[Array], name: &[u8]) -> bool
    ensures { result ≡ list_any (λ x. bytes_eq (string_bytes x.name) name.now) arrays.now }
{
    arrays.iter().any(|x| x.name.as_bytes() == name)
}

/// No array before has this name.
#[tactic(auto, unfolding(crate::specs::Texts::is_new))]
pub fn is_new_name(before: &[Array], name: &[u8]) -> bool
    ensures { result ≡ is_new (map array_lists before.now) name.now }
{
    !is_name_among(before, name)
}

/// Bytes of a name are text.
fn ascii_text(bytes: &[u8]) -> Option<&str>
    requires { is_name bytes.now ≡ true }
    ensures same { IfSome result (λ text. text.now ≡ bytes.now) }
    ensures there { IsSome result }
{
    match str::from_utf8(bytes) {
        Ok(text) => Some(text),
        Err(_) => None,
    }
}

/// The array's name that the bytes are.
pub fn array_name(bytes: &[u8]) -> Option<&str>
    ensures { MatchOption result (is_name bytes.now ≡ false) (λ text. (text.now ≡ bytes.now) × (is_name bytes.now ≡ true)) }
{
    if !is_array_name(bytes) {
        return None;
    }
    ascii_text(bytes)
}
