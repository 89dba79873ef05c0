//! The lines of a run, and the listing beside them.

ghost use Rattle.std.specs.Prelude.{◌≡◌};
ghost use Rattle.cse_case.specs.Run.{written_run};
ghost use Rattle.cse_value.specs.Gathering.{behind, Puts};
ghost use Rattle.cse_report.specs.Held.{flushed};
ghost use Rattle.cse_batch_parts.specs.Outputs.{AreSame, LeavesEnd, lines_so_far, listing_so_far};

use crate::outputs::Outputs;
use cse_case::Case;
use cse_report::Listing;
use cse_value::{Gatherer, Output};

/// Puts the lines that a listing holds. Where lines of the data were just written, what waits for the listing's file is written
/// too: a run that is stopped leaves both as far, but for what waited.
fn put_beside<L: Output>(
    held: &mut Listing,
    are_written: bool,
    listed: &mut Gatherer,
    listing: &mut L,
)
    ensures puts { Puts (behind L.taken L.has_failed listing.old listed.old) (behind L.taken L.has_failed listing.new listed.new) held.old.lines }
    ensures held { held.new ≡ flushed held.old }
{
    held.put_to(listed, listing);
    if are_written {
        listed.flush(listing);
    }
}

/// Puts the lines of a run, and what it listed beside them.
pub(crate) fn put_run<O: Output, L: Output, F: Output, D: Output>(
    case: &Case<'_>,
    held: &mut Listing,
    outputs: &mut Outputs<'_, O, L, F, D>,
)
    ensures same { AreSame outputs.old outputs.new }
    ensures left { LeavesEnd outputs.old outputs.new }
    ensures lines { Puts (lines_so_far O.Output outputs.old) (lines_so_far O.Output outputs.new) (written_run case.now.run) }
    ensures listing { Puts (listing_so_far L.Output outputs.old) (listing_so_far L.Output outputs.new) held.old.lines }
    ensures held { held.new ≡ flushed held.old }
{
    let waited = outputs.written.waiting.len();
    case.put_to(&mut outputs.written, outputs.out);
    let are_written = outputs.written.waiting.len() < waited;
    put_beside(held, are_written, &mut outputs.listed, outputs.listing);
}
