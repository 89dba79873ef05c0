//! The type of a record, as its characters.
ghost use Rattle.std.specs.Prelude.{◌≡◌, ◌≤◌, IfOk, IfSome, OnOk, length, nat_lt, vec_len};
ghost use Rattle.std.specs.Option.{option_map};
ghost use Rattle.cse_dict.specs.Types.{padded, type_len_of, type_of, type_text, unquoted};

use crate::keys::{entry_of, number_or};
use cse_sections::sections::Section;
use cse_sections::text::characters;
use std::alloc::{AllocError, Global};

/// The columns that a record type takes, if its key is readable.
#[tactic(auto, unfolding(crate::specs::Types::type_len_of))]
pub fn type_len_of(first: &Section<'_>) -> Option<u32>
    ensures len { result ≡ type_len_of first.now }
    ensures small { IfSome result (λ n. n ≤ 16) }
{
    number_or(first, b"RecordTypeLen", 0, 16, 0)
}

/// The text without one pair of single quotes at both ends.
#[tactic(auto, unfolding(crate::specs::Types::unquoted))]
fn unquoted(text: &[u8]) -> &[u8]
    ensures { result.now ≡ unquoted text.now }
{
    match text {
        [b'\'', inside @ .., b'\''] => inside,
        _ => text,
    }
}

/// The characters at `RecordTypeValue`, without one pair of quotes.
fn type_text(alloc: Global, value: &[u8]) -> Result<Vec<char>, AllocError>
    ensures { IfOk result (λ v. v.items ≡ type_text value.now) }
{
    characters(alloc, unquoted(value))
}

/// Whether the type at `RecordTypeValue` has more characters than the record type has columns.
pub fn is_too_long(alloc: Global, len: u32, value: &[u8]) -> Result<bool, AllocError>
    ensures { IfOk result (λ b. b ≡ nat_lt len (length (type_text value.now))) }
{
    let text = type_text(alloc, value)?;
    Ok((len as usize) < text.len())
}

/// The text with blanks at its end.
fn pad(text: &mut Vec<char>, len: u32) -> Result<(), AllocError>
    requires { vec_len text.old ≤ len }
    ensures { OnOk result (text.new.items ≡ padded len text.old.items) }
{
    text.resize(len as usize, ' ')?;
    Ok(())
}

/// The type of a record, padded with blanks.
pub fn type_of(
    alloc: Global,
    len: Option<u32>,
    section: &Section<'_>,
) -> Result<Option<Vec<char>>, AllocError>
    ensures { IfOk result (λ t. option_map (λ v. v.items) t ≡ type_of len section.now) }
{
    let Some(len) = len else {
        return Ok(None);
    };
    let Some(entry) = entry_of(section, b"RecordTypeValue") else {
        if len == 0 {
            return Ok(Some(Vec::new(alloc)));
        }
        return Ok(None);
    };
    let mut text = type_text(alloc, entry.value)?;
    if text.len() > len as usize {
        return Ok(None);
    }
    pad(&mut text, len)?;
    Ok(Some(text))
}
