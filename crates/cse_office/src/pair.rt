//! Which lines pair up.

ghost use Rattle.std.specs.Prelude.{◌≡◌, ◌<◌, ◌≤◌, IfNone, IfSome, length, slice_index_or};
ghost use Rattle.cse_case.specs.Bytes.{columns_lent};
ghost use Rattle.cse_case.specs.Columns.{no_line};
ghost use Rattle.cse_office.specs.Changes.{AreLikes, first_apart, has_same_ids, is_pair};

use crate::alike::is_known_like;
use crate::item::is_changed_own;
use crate::lines::{RunLines, is_same_record};
use cse_case::Columns;
use cse_value::shape::{ID_OWNER, ItemShape};

/// Whether lines have the same id items.
fn has_same_ids(items: &[ItemShape], before: Columns<'_>, after: Columns<'_>) -> bool
    ensures { result ≡ has_same_ids items.now (columns_lent before.entry) (columns_lent after.entry) }
{
    'items: for n in 0..items.len() {
        if is_changed_own(&items[n], ID_OWNER as usize, before, after) {
            return false;
        }
    }
    true
}

/// Whether the lines at a place pair up. Those that are known to be alike do.
fn is_pair(
    items: &[ItemShape],
    likes: &[bool],
    before: &RunLines,
    after: &RunLines,
    place: usize,
) -> bool
    requires before { place < length before.now }
    requires after { place < length after.now }
    requires likes { AreLikes likes.now before.now after.now }
    ensures { result ≡ is_pair items.now (slice_index_or before.now place no_line) (slice_index_or after.now place no_line) }
{
    if is_known_like(likes, before, after, place) {
        return true;
    }
    is_same_record(before.record(place), after.record(place))
        && has_same_ids(items, before.columns(place), after.columns(place))
}

/// The place, from 0, of the first line of two runs that has none beside it, or one that is no pair of it.
pub fn first_apart(
    items: &[ItemShape],
    likes: &[bool],
    before: &RunLines,
    after: &RunLines,
) -> Option<usize>
    requires { AreLikes likes.now before.now after.now }
    ensures is { result ≡ first_apart items.now 0 before.now after.now }
    ensures within { IfSome result (λ place. place ≤ length before.now) }
    ensures as_many { IfNone result (length before.now ≡ length after.now) }
{
    let len = before.len().min(after.len());
    'lines: for place in 0..len {
        if !is_pair(items, likes, before, after, place) {
            return Some(place);
        }
    }
    if before.len() == after.len() {
        None
    } else {
        Some(len)
    }
}
