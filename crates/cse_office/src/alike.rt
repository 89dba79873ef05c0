//! Whether two runs have the same lines, by what they lie in: then no item has to be looked at.

ghost use Rattle.std.specs.Prelude.{◌≡◌, ◌<◌, ℕ, [], true, false, length, slice_index_or, take};
ghost use Rattle.std.specs.Str.{IsAscii};
ghost use Rattle.cse_case.specs.Bytes.{columns_by, columns_lent};
ghost use Rattle.cse_office.specs.Changes.{AreAlike, AreLikes, IsLike};

use crate::lines::{RunLines, is_same_record};
use cse_case::Columns;

/// What stands beside the bytes of columns, and behind these.
#[tactic(auto, using(crate::proofs::AlikeLaws::beside_from))]
fn rest_beside(columns: Columns<'_>) -> &[char]
    ensures { columns_lent columns.entry ≡ columns_by columns.entry.bytes.now result.now }
{
    let first = columns.first.min(columns.beside.len());
    &columns.beside[first..]
}

/// At most so many characters from the front.
#[tactic(auto, using(std::proofs::lemmas::List::take_all))]
fn front_of(characters: &[char], len: usize) -> &[char]
    ensures { result.now ≡ take len characters.now }
{
    if len < characters.len() {
        return &characters[..len];
    }
    characters
}

/// What stands beside the bytes of columns, and no more.
fn beside(columns: Columns<'_>) -> &[char]
    ensures { columns_lent columns.entry ≡ columns_by columns.entry.bytes.now result.now }
{
    front_of(rest_beside(columns), columns.bytes.len())
}

/// Whether nothing stands beside the bytes of both columns.
fn have_none_beside(before: Columns<'_>, after: Columns<'_>) -> bool
    ensures before { result ≡ true → columns_lent before.entry ≡ columns_by before.entry.bytes.now [] }
    ensures after { result ≡ true → columns_lent after.entry ≡ columns_by after.entry.bytes.now [] }
{
    if before.first < before.beside.len() {
        return false;
    }
    after.beside.len() <= after.first
}

/// Whether bytes are the same.
fn are_same_bytes(before: &[u8], after: &[u8]) -> bool
    ensures { result ≡ true → before.now ≡ after.now }
{
    before == after
}

/// Whether all bytes are ASCII.
fn are_ascii(bytes: &[u8]) -> bool
    ensures { result ≡ true → IsAscii bytes.now }
{
    let mut bits = 0u8;
    'bytes: for i in 0..bytes.len() {
        bits |= bytes[i];
    }
    bits < 128
}

/// Whether characters are.
fn are_same_characters(before: &[char], after: &[char]) -> bool
    ensures { result ≡ true → before.now ≡ after.now }
{
    before == after
}

/// Whether columns are known to be the same: by their bytes, and what stands beside these.
fn is_same(before: Columns<'_>, after: Columns<'_>) -> bool
    ensures { result ≡ true → columns_lent before.entry ≡ columns_lent after.entry }
{
    if !are_same_bytes(before.bytes, after.bytes) {
        return false;
    }
    if have_none_beside(before, after) {
        return true;
    }
    if are_ascii(before.bytes) {
        return true;
    }
    are_same_characters(beside(before), beside(after))
}

/// Whether the lines at a place are known to be of the same record and to have the same columns.
fn is_like_at(before: &RunLines, after: &RunLines, place: usize) -> bool
    requires before { place < length before.now }
    requires after { place < length after.now }
    ensures { result ≡ true → IsLike before.now after.now place }
{
    if !is_same_record(before.record(place), after.record(place)) {
        return false;
    }
    is_same(before.columns(place), after.columns(place))
}

/// How many lines are remembered.
pub const MOST_KNOWN: usize = 64;

/// Remembers of a line whether it is known to be alike, if there is room.
#[inline(always)]
fn remember(likes: &mut [bool], place: usize, is_like: bool)
    ensures len { length likes.new ≡ length likes.old }
    ensures here { slice_index_or likes.new place false ≡ true → is_like ≡ true }
    ensures others { (n : ℕ) → (n ≡ place → ⊥) → slice_index_or likes.new n false ≡ slice_index_or likes.old n false }
{
    if place < likes.len() {
        likes[place] = is_like;
    }
}

/// Whether both are so.
#[inline(always)]
fn both(one: bool, other: bool) -> bool
    ensures one { result ≡ true → one ≡ true }
    ensures other { result ≡ true → other ≡ true }
{
    one && other
}

/// Whether two runs are known to have the same lines: as many, of the same records, with the same columns. Remembers it of
/// each of the first lines.
pub fn are_alike(before: &RunLines, after: &RunLines, likes: &mut [bool]) -> bool
    ensures alike { result ≡ true → AreAlike before.now after.now }
    ensures len { length likes.new ≡ length likes.old }
    ensures likes { AreLikes likes.new before.now after.now }
{
    let len = before.len().min(after.len());
    let mut is_alike = before.len() == after.len();
    'lines: for place in 0..len {
        let is_like = is_like_at(before, after, place);
        remember(likes, place, is_like);
        is_alike = both(is_alike, is_like);
    }
    is_alike
}

/// Whether the lines at a place are known to be alike, by what is remembered of the first lines.
pub fn is_known_like(likes: &[bool], before: &RunLines, after: &RunLines, place: usize) -> bool
    requires before { place < length before.now }
    requires after { place < length after.now }
    requires likes { AreLikes likes.now before.now after.now }
    ensures { result ≡ true → IsLike before.now after.now place }
{
    if place < likes.len() {
        return likes[place];
    }
    is_like_at(before, after, place)
}
