//! Sections whose entries are read one after another into a list that is lent.

ghost use Rattle.std.specs.Prelude.{◌≡◌, [], List, Err, IfOk, IfErr, map};
ghost use Rattle.cse_image_parts.specs.Reader.{Reader, Gives, many, counted};

use cse_image_parts::{ReadStop, count_at};
use std::alloc::Global;

/// An entry that is read from the front of bytes.
pub(crate) trait Readable: Drop {
    // What is seen of an entry.
    ghost Seen: { Type 0 };

    ghost seen: { Self → Seen };

    // How one is read behind others.
    ghost reader: { List Seen → Reader Seen };

    /// The entry behind those before it, and the bytes after it.
    fn read<'a>(
        alloc: Global,
        before: &[Self],
        bytes: &'a [u8],
    ) -> Result<(Self, &'a [u8]), ReadStop>
        ensures { Gives (λ x. (seen x.0, x.1.now)) result (reader (map seen before.now) bytes.now) };
}

/// So many entries, behind those that are there; and the bytes after them.
fn entries_of<'a, E: Readable>(
    alloc: Global,
    entries: &mut Vec<E>,
    count: u32,
    bytes: &'a [u8],
) -> Result<&'a [u8], ReadStop>
    ensures { Gives (λ x. (map E.seen entries.new.items, x.now)) result (many E.reader (map E.seen entries.old.items) count bytes.now) }
{
    let mut rest = bytes;
    for _ in 0..count {
        let (entry, after) = E::read(alloc, entries, rest)?;
        entries.push(entry)?;
        rest = after;
    }
    Ok(rest)
}

/// A section, from where the bytes before it end, into a list that has no entry yet: their count, then each; and the
/// bytes after it.
#[tactic(auto, unfolding(cse_image_parts::specs::Reader::then_at, cse_image_parts::specs::Reader::counted))]
pub(crate) fn section_of<'a, E: Readable>(
    alloc: Global,
    limit: usize,
    entries: &mut Vec<E>,
    bytes: Result<&'a [u8], ReadStop>,
) -> Result<&'a [u8], ReadStop>
    requires { entries.old.items ≡ [] }
    ensures exact { IfOk bytes.entry (λ b. Gives (λ x. (map E.seen entries.new.items, x.now)) result (counted limit E.reader b.now)) }
    ensures stopped { IfErr bytes.entry (λ e. result ≡ Err e) }
{
    let (count, rest) = count_at(limit, bytes?)?;
    entries_of(alloc, entries, count, rest)
}
