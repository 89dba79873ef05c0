//! A run of lines: its heading and unseen lines, and its events.

ghost use Rattle.std.specs.Prelude.{◌≡◌, Some, OnOk};
ghost use Rattle.cse_image_parts.specs.Image.{Image};
ghost use Rattle.cse_report.specs.AllReported.{all_reported};
ghost use Rattle.cse_report.specs.Reports.{ReportsFit};
ghost use Rattle.cse_batch_parts.specs.Batch.{unseen_reports};
ghost use Rattle.cse_batch_parts.specs.Edits.{Edits};
ghost use Rattle.cse_batch_parts.specs.Handled.{AreHandled};
ghost use Rattle.cse_batch_parts.specs.Scene.{GoesOn};

use crate::events::run_case_events;
use crate::handled::HandledEvents;
use cse_case::Case;
use cse_decks::Store;
use cse_image::Code;
use cse_report::Reports;
use cse_steps::runs::Runs;
use cse_value::OutOfMemory;
use cse_verify::Verified;

/// Lists the unseen lines.
fn list_unseen(case: &Case<'_>, reports: &mut Reports) -> Result<(), OutOfMemory>
    ensures listing { OnOk result (reports.new.listing ≡ all_reported reports.old.listing (unseen_reports case.now)) }
    ensures frequencies { reports.new.frequencies ≡ reports.old.frequencies }
    ensures fits { (x : Image) → ReportsFit x reports.old → ReportsFit x reports.new }
{
    let lines = case.unseen();
    'lines: for line in lines {
        reports.unseen(line.0, line.1)?;
    }
    Ok(())
}

/// Lists the unseen lines of a run under a heading with its ids, and runs its events, if it is a case.
pub(crate) fn edit<C: Code, M: Runs>(
    verified: &Verified<'_, C>,
    machine: &mut M,
    case: &mut Case<'_>,
    store: &mut Store,
    reports: &mut Reports,
    handled: &HandledEvents,
) -> Result<(), OutOfMemory>
    requires handled { AreHandled verified.now handled.now }
    requires machine { M.program machine.old ≡ verified.now }
    requires goes_on { GoesOn verified.now case.old case.old store.old }
    requires reports { ReportsFit verified.now.image reports.old }
    ensures same { M.program machine.new ≡ verified.now }
    ensures edits { OnOk result (Edits verified.now case.old store.old reports.old case.new store.new reports.new) }
    ensures goes_on { OnOk result (GoesOn verified.now case.old case.new store.new) }
    ensures reports_fit { ReportsFit verified.now.image reports.new }
{
    reports.begin_case(case.ids())?;
    list_unseen(case, reports)?;
    if case.is_case() {
        run_case_events(verified, machine, case, store, reports, handled)?;
    }
    Ok(())
}
