//! Where a run writes.

ghost use Rattle.std.specs.Prelude.{◌≡◌};
ghost use Rattle.cse_value.specs.Gathering.{behind, Finishes};

use cse_value::{Failed, Gatherer, Output};

/// Where a run writes, and what waits to be written.
#[derive(Drop)]
pub(crate) struct Outputs<'o, O: Output, L: Output, F: Output, D: Output> {
    /// The lines that wait.
    pub(crate) written: Gatherer,
    pub(crate) out: &'o mut O,
    /// What waits of the listing.
    pub(crate) listed: Gatherer,
    pub(crate) listing: &'o mut L,
    pub(crate) frequencies: &'o mut F,
    pub(crate) decks: &'o mut D,
}

impl<'o, O: Output, L: Output, F: Output, D: Output> Outputs<'o, O, L, F, D> {
    ghost use Rattle.cse_batch_parts.specs.Outputs.{AreFresh};

    /// These outputs, before which nothing waits.
    pub(crate) fn new(
        out: &'o mut O,
        listing: &'o mut L,
        frequencies: &'o mut F,
        decks: &'o mut D,
    ) -> Outputs<'o, O, L, F, D>
        ensures same_out { result.out.ghost_name ≡ out.entry.ghost_name }
        ensures same_listing { result.listing.ghost_name ≡ listing.entry.ghost_name }
        ensures same_frequencies { result.frequencies.ghost_name ≡ frequencies.entry.ghost_name }
        ensures same_decks { result.decks.ghost_name ≡ decks.entry.ghost_name }
        ensures out { result.out.now ≡ out.old }
        ensures listing { result.listing.now ≡ listing.old }
        ensures frequencies { result.frequencies.now ≡ frequencies.old }
        ensures decks { result.decks.now ≡ decks.old }
        ensures fresh { AreFresh result }
    {
        Outputs {
            written: Gatherer::new(),
            out,
            listed: Gatherer::new(),
            listing,
            frequencies,
            decks,
        }
    }
}

/// Writes the bytes that wait, and tells whether all that was put was written.
pub(crate) fn finish<W: Output>(waiting: &mut Gatherer, out: &mut W) -> Result<(), Failed>
    ensures { Finishes result (behind W.taken W.has_failed out.old waiting.old) (W.taken out.new) (W.has_failed out.new) }
{
    waiting.flush(out);
    if waiting.gave_up {
        return Err(Failed);
    }
    Ok(())
}
