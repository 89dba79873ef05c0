//! The whole run over a data file, by a machine of its own.

ghost use Rattle.std.specs.Prelude.{IfOk, IfErr};
ghost use Rattle.cse_decks.specs.Store.{StoreFits};
ghost use Rattle.cse_batch_parts.specs.RunClauses.{RunStops, RunsWhole, contents, failures};

use cse_batch_parts::{RunFault, Totals, run_by};
use cse_decks::Store;
use cse_fault_numbers::WANT_OF_MEMORY;
use cse_image::Code;
use cse_machine::Machine;
use cse_value::{Input, Output};
use cse_verify::Verified;
use std::alloc::Global;

/// Want of memory.
const MEMORY_FAULT: RunFault = RunFault {
    number: WANT_OF_MEMORY,
    line: 0,
};

/// The whole run of a verified program over a data file: its application's preproc; each run of lines with its
/// events, if it is a case, and then its lines as they are written; and its postproc. The store is what was
/// kept of earlier runs.
///
/// `Ok` comes only where the end of the input was read and no line is faulty; then what was written to each
/// output is its text in the batch over what was read, and the totals are those of the batch. After a fault
/// what was written to each is a front of its text; after a fault of the data, and after 70, the written
/// lines and the listing are whole as far as runs were given, each unless its output has failed. The faults
/// are those of `DataError`, 71 where an output has failed, and 90.
pub fn run<C: Code, R: Input, O: Output, L: Output, F: Output, D: Output>(
    alloc: Global,
    verified: &Verified<'_, C>,
    store: Store,
    input: &mut R,
    out: &mut O,
    listing: &mut L,
    frequencies: &mut F,
    decks: &mut D,
) -> Result<Totals, RunFault>
    requires fits { StoreFits verified.now.image store }
    ensures ok { IfOk result (λ totals. RunsWhole verified.now store (R.given input.old) (R.given input.new)
        (contents (O.taken out.old) (L.taken listing.old) (F.taken frequencies.old) (D.taken decks.old))
        (contents (O.taken out.new) (L.taken listing.new) (F.taken frequencies.new) (D.taken decks.new)) totals) }
    ensures err { IfErr result (λ fault. RunStops verified.now store (R.given input.old) (R.given input.new)
        (contents (O.taken out.old) (L.taken listing.old) (F.taken frequencies.old) (D.taken decks.old))
        (contents (O.taken out.new) (L.taken listing.new) (F.taken frequencies.new) (D.taken decks.new))
        (failures (O.has_failed out.new) (L.has_failed listing.new) (F.has_failed frequencies.new) (D.has_failed decks.new)) fault) }
{
    let Ok(mut machine) = Machine::new(alloc, verified) else {
        return Err(MEMORY_FAULT);
    };
    run_by(
        alloc,
        verified,
        &mut machine,
        store,
        input,
        out,
        listing,
        frequencies,
        decks,
    )
}
