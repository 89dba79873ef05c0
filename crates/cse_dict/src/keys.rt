//! What a section is, and what stands at its keys.
ghost use Rattle.std.specs.Prelude.{◌≡◌, ◌≤◌, IfSome};
ghost use Rattle.std.specs.Option.{option_copied};
ghost use Rattle.std.specs.List.{list_all};
ghost use Rattle.cse_dict.specs.Keys.{data_type_named, data_type_of, entry_of, is_name, is_name_byte, kind_of, number_in, number_or, says_yes};

use cse_sections::number::number_between;
use cse_sections::sections::{Entry, Section};
use cse_sections::text::is_same;

/// What a heading says.
#[derive(Clone, Copy)]
pub enum Kind {
    Dictionary,
    Level,
    IdItems,
    Record,
    Item,
    ValueSet,
    Other,
}

/// The type of an item's values.
#[derive(Clone, Copy)]
pub enum DataType {
    Numeric,
    Alpha,
    Neither,
}

/// The kind of section under a heading.
#[tactic(auto, unfolding(crate::specs::Keys::kind_of))]
pub fn kind_of(heading: &[u8]) -> Kind
    ensures { result ≡ kind_of heading.now }
{
    if is_same(heading, b"Dictionary") {
        return Kind::Dictionary;
    }
    if is_same(heading, b"Level") {
        return Kind::Level;
    }
    if is_same(heading, b"IdItems") {
        return Kind::IdItems;
    }
    if is_same(heading, b"Record") {
        return Kind::Record;
    }
    if is_same(heading, b"Item") {
        return Kind::Item;
    }
    if is_same(heading, b"ValueSet") {
        return Kind::ValueSet;
    }
    Kind::Other
}

/// The first entry with this key.
#[tactic(auto, unfolding(crate::specs::Keys::entry_of))]
pub fn entry_of<'s, 'a>(section: &'s Section<'a>, key: &[u8]) -> Option<&'s Entry<'a>>
    ensures { option_copied result ≡ entry_of key.now section.now }
{
    section.entries.iter().find(|entry| is_same(entry.key, key))
}

/// The number from `low` to `high` at a key.
pub fn number_in(section: &Section<'_>, key: &[u8], low: u32, high: u32) -> Option<u32>
    ensures number { result ≡ number_in low high (entry_of key.now section.now) }
    ensures high { IfSome result (λ n. n ≤ high) }
{
    let entry = entry_of(section, key)?;
    number_between(low, high, entry.value)
}

/// The number from `low` to `high` at a key, and another one where the key is absent.
pub fn number_or(section: &Section<'_>, key: &[u8], low: u32, high: u32, absent: u32) -> Option<u32>
    requires { absent ≤ high }
    ensures number { result ≡ number_or low high absent (entry_of key.now section.now) }
    ensures high { IfSome result (λ n. n ≤ high) }
{
    match entry_of(section, key) {
        Some(entry) => number_between(low, high, entry.value),
        None => Some(absent),
    }
}

/// Whether Yes stands at a key.
pub fn says_yes(section: &Section<'_>, key: &[u8]) -> bool
    ensures { result ≡ says_yes (entry_of key.now section.now) }
{
    match entry_of(section, key) {
        Some(entry) => is_same(entry.value, b"Yes"),
        None => false,
    }
}

/// The type that a word names.
#[tactic(auto, unfolding(crate::specs::Keys::data_type_named))]
fn data_type_named(word: &[u8]) -> DataType
    ensures { result ≡ data_type_named word.now }
{
    if is_same(word, b"Numeric") {
        return DataType::Numeric;
    }
    if is_same(word, b"Alpha") {
        return DataType::Alpha;
    }
    DataType::Neither
}

/// The type of an item's values; without the key it is a number.
#[tactic(auto, unfolding(crate::specs::Keys::data_type_of))]
pub fn data_type_of(section: &Section<'_>) -> DataType
    ensures { result ≡ data_type_of section.now }
{
    match entry_of(section, b"DataType") {
        Some(entry) => data_type_named(entry.value),
        None => DataType::Numeric,
    }
}

/// Whether the bytes are letters, digits and `_`.
fn are_name_bytes(bytes: &[u8]) -> bool
    ensures { result ≡ list_all is_name_byte bytes.now }
{
    bytes
        .iter()
        .all(|b| b.is_ascii_alphanumeric() || *b == b'_')
}

/// Whether the bytes are a name.
#[tactic(auto, unfolding(crate::specs::Keys::is_name))]
pub fn is_name(bytes: &[u8]) -> bool
    ensures { result ≡ is_name bytes.now }
{
    let Some(first) = bytes.first() else {
        return false;
    };
    if !first.is_ascii_alphabetic() {
        return false;
    }
    if bytes.len() > 32 {
        return false;
    }
    are_name_bytes(bytes)
}
