//! Files that are one.

ghost use Rattle.std.specs.Prelude.{◌≡◌, ◌<◌, ℕ, None, Some, length, take, slice_index_or, IfSome, IfNone};
ghost use Rattle.cse_files.specs.Clashes.{is_one_file, may_meet, clashes, clash_before};
ghost use Rattle.cse_files.specs.declared.clashing.Named.{Named};

use crate::place::Place;

/// A file of a command: where its path leads, and what is done with it.
#[derive(Clone, Copy, Debug)]
pub struct Named<'a> {
    pub place: Place<'a>,
    pub is_read: bool,
    pub is_written: bool,
    /// Whether its path begins with `/dev/`.
    pub below_dev: bool,
}

/// The first file that clashes with one before it, and the first such one: one of them is written, and both are one
/// file. Their places in the list are told, from 0, the earlier one first.
///
/// A device may come as often as it is named, and so may what lies below `/dev/`, but for a regular file that is both
/// read and written.
pub fn first_clash(files: &[Named<'_>]) -> Option<(usize, usize)>
    ensures none { IfNone result ((d : Named) (n : ℕ) → n < length files.now → clash_before (take n files.now) (slice_index_or files.now n d) ≡ None) }
    ensures within { IfSome result (λ found. (found.0 < found.1) × (found.1 < length files.now)) }
    ensures clash { IfSome result (λ found. (d : Named) → clash_before (take found.1 files.now) (slice_index_or files.now found.1 d) ≡ Some found.0) }
{
    for (later, file) in files.iter().enumerate() {
        if let Some(earlier) = clash_before(&files[..later], file) {
            return Some((earlier, later));
        }
    }
    None
}

/// The first of some files that clashes with another one.
fn clash_before(files: &[Named<'_>], file: &Named<'_>) -> Option<usize>
    ensures { result ≡ clash_before files.now file.now }
{
    files.iter().position(|other| clashes(other, file))
}

/// Whether two files are one, of which something is lost.
fn clashes(one: &Named<'_>, other: &Named<'_>) -> bool
    ensures { result ≡ clashes one.now other.now }
{
    (one.is_written || other.is_written)
        && is_one_file(&one.place, &other.place)
        && !may_meet(one, other)
}

/// Whether two paths lead to one file.
fn is_one_file(one: &Place<'_>, other: &Place<'_>) -> bool
    ensures { result ≡ is_one_file one.now other.now }
{
    one.device == other.device && one.number == other.number && one.rest == other.rest
}

/// Whether a file may come twice.
fn may_meet(one: &Named<'_>, other: &Named<'_>) -> bool
    ensures { result ≡ may_meet one.now other.now }
{
    let is_lost = one.place.is_regular && (one.is_read || other.is_read);
    one.place.is_device || (one.below_dev && other.below_dev && !is_lost)
}
