//! The events of the application, which stand around the cases.

ghost use Rattle.std.specs.Prelude.{◌≡◌, [], OnOk, OnErr, true};
ghost use Rattle.cse_value.specs.Gathering.{behind, Puts};
ghost use Rattle.cse_decks.specs.Store.{StoreFits};
ghost use Rattle.cse_report.specs.Reports.{ReportsFit};
ghost use Rattle.cse_steps.specs.Fits.{is_of_run};
ghost use Rattle.cse_batch_parts.specs.Edits.{Applies, KeepsOn};

use cse_decks::Store;
use cse_image::{Code, Event, EventCode};
use cse_report::Reports;
use cse_steps::event_ends;
use cse_steps::runs::Runs;
use cse_value::{Gatherer, OutOfMemory, Output};
use cse_verify::Verified;

/// Runs the preproc or the postproc of the application.
fn run_application<C: Code, M: Runs>(
    verified: &Verified<'_, C>,
    machine: &mut M,
    store: &mut Store,
    reports: &mut Reports,
    code: EventCode,
) -> Result<(), OutOfMemory>
    requires machine { M.program machine.old ≡ verified.now }
    requires of_run { is_of_run code ≡ true }
    requires store { StoreFits verified.now.image store.old }
    requires reports { ReportsFit verified.now.image reports.old }
    ensures same { M.program machine.new ≡ verified.now }
    ensures applies { OnOk result (Applies verified.now code store.old reports.old store.new reports.new) }
    ensures store_fits { OnOk result (StoreFits verified.now.image store.new) }
    ensures reports_fit { ReportsFit verified.now.image reports.new }
{
    event_ends(verified);
    reports.begin_run();
    machine.run_plain(store, reports, Event { code, index: 0 })?;
    Ok(())
}

/// Runs the preproc or the postproc of the application, and puts before the listing what it lists.
pub(crate) fn apply<C: Code, M: Runs, L: Output>(
    verified: &Verified<'_, C>,
    machine: &mut M,
    store: &mut Store,
    reports: &mut Reports,
    code: EventCode,
    listed: &mut Gatherer,
    listing: &mut L,
) -> Result<(), OutOfMemory>
    requires machine { M.program machine.old ≡ verified.now }
    requires of_run { is_of_run code ≡ true }
    requires store { StoreFits verified.now.image store.old }
    requires reports { ReportsFit verified.now.image reports.old }
    ensures same { M.program machine.new ≡ verified.now }
    ensures keeps { OnOk result (KeepsOn L.Output verified.now code store.old reports.old listed.old listing.old store.new reports.new listed.new listing.new) }
    ensures err { OnErr result (Puts (behind L.taken L.has_failed listing.old listed.old) (behind L.taken L.has_failed listing.new listed.new) []) }
    ensures store_fits { OnOk result (StoreFits verified.now.image store.new) }
    ensures reports_fit { ReportsFit verified.now.image reports.new }
{
    run_application(verified, machine, store, reports, code)?;
    reports.listing.put_to(listed, listing);
    Ok(())
}
