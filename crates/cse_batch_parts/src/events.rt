//! The events of a case, in order.

ghost use Rattle.std.specs.Prelude.{◌≡◌, ◌≤◌, Some, OnOk};
ghost use Rattle.cse_verify.specs.CaseEvents.{event, moment};
ghost use Rattle.cse_report.specs.Reports.{ReportsFit};
ghost use Rattle.cse_steps.specs.Fits.{IsThere, occurrences_in};
ghost use Rattle.cse_code_typing.specs.Handlers.{routine_of};
ghost use Rattle.cse_steps.specs.Handled.{handled_by};
ghost use Rattle.cse_batch_parts.specs.Handled.{AreHandled, IsHandledRecord};
ghost use Rattle.cse_batch_parts.specs.Moments.{AllLeave, Leaves, of_case, of_items, of_occurrences, of_record, of_records};
ghost use Rattle.cse_batch_parts.specs.Scene.{GoesOn};

use crate::handled::{HandledEvents, HandledRecord};
use cse_case::Case;
use cse_decks::Store;
use cse_image::{Code, Event, EventCode};
use cse_report::Reports;
use cse_steps::event_ends;
use cse_steps::handled::Handled;
use cse_steps::runs::Runs;
use cse_value::OutOfMemory;
use cse_verify::Verified;

/// Runs an event of the level or of a record with its routine, as a list of one, so that the machine's loop stands
/// once in the program.
fn run_event<C: Code, M: Runs>(
    verified: &Verified<'_, C>,
    machine: &mut M,
    case: &mut Case<'_>,
    store: &mut Store,
    reports: &mut Reports,
    event: Event,
    routine: u32,
) -> Result<(), OutOfMemory>
    requires routine { routine_of verified.now.image.lists.events event ≡ Some routine }
    requires machine { M.program machine.old ≡ verified.now }
    requires goes_on { GoesOn verified.now case.old case.old store.old }
    requires there { IsThere verified.now.image (occurrences_in (Some case.old)) event.code event.index 0 }
    requires reports { ReportsFit verified.now.image reports.old }
    ensures same { M.program machine.new ≡ verified.now }
    ensures scene { OnOk result (Leaves verified.now case.old store.old reports.old (moment event.code event.index 0) case.new store.new reports.new) }
    ensures goes_on { OnOk result (GoesOn verified.now case.old case.new store.new) }
    ensures reports_fit { ReportsFit verified.now.image reports.new }
{
    event_ends(verified);
    machine.run_handled(case, store, reports, &[Handled { event, routine }], 0)
}

/// Runs an event of the level or of a record, if the program has a routine for it.
#[inline]
fn run_if_handled<C: Code, M: Runs>(
    verified: &Verified<'_, C>,
    machine: &mut M,
    case: &mut Case<'_>,
    store: &mut Store,
    reports: &mut Reports,
    event: Event,
    handled: Option<Handled>,
) -> Result<(), OutOfMemory>
    requires handled { handled ≡ handled_by verified.now.image event }
    requires machine { M.program machine.old ≡ verified.now }
    requires goes_on { GoesOn verified.now case.old case.old store.old }
    requires there { IsThere verified.now.image (occurrences_in (Some case.old)) event.code event.index 0 }
    requires reports { ReportsFit verified.now.image reports.old }
    ensures same { M.program machine.new ≡ verified.now }
    ensures scene { OnOk result (Leaves verified.now case.old store.old reports.old (moment event.code event.index 0) case.new store.new reports.new) }
    ensures goes_on { OnOk result (GoesOn verified.now case.old case.new store.new) }
    ensures reports_fit { ReportsFit verified.now.image reports.new }
{
    let Some(handled) = handled else {
        return Ok(());
    };
    run_event(
        verified,
        machine,
        case,
        store,
        reports,
        event,
        handled.routine,
    )
}

/// An event, by its code and the number of its record or item.
fn event(code: EventCode, index: u16) -> Event
    ensures { result ≡ event code index }
{
    Event { code, index }
}

/// Runs the events of the items of a record in one of its occurrences.
fn run_items<C: Code, M: Runs>(
    verified: &Verified<'_, C>,
    machine: &mut M,
    case: &mut Case<'_>,
    store: &mut Store,
    reports: &mut Reports,
    handled: &HandledRecord,
    occurrence: u16,
) -> Result<(), OutOfMemory>
    requires handled { IsHandledRecord verified.now handled.now }
    requires machine { M.program machine.old ≡ verified.now }
    requires goes_on { GoesOn verified.now case.old case.old store.old }
    requires low { 1 ≤ occurrence }
    requires high { occurrence ≤ occurrences_in (Some case.old) handled.now.number }
    requires reports { ReportsFit verified.now.image reports.old }
    ensures same { M.program machine.new ≡ verified.now }
    ensures scene { OnOk result (AllLeave verified.now case.old store.old reports.old (of_items handled.now.number occurrence) case.new store.new reports.new) }
    ensures goes_on { OnOk result (GoesOn verified.now case.old case.new store.new) }
    ensures reports_fit { ReportsFit verified.now.image reports.new }
{
    event_ends(verified);
    machine.run_handled(case, store, reports, &handled.items, occurrence)
}

/// Runs the events of the items of a record in each of its occurrences.
fn run_occurrences<C: Code, M: Runs>(
    verified: &Verified<'_, C>,
    machine: &mut M,
    case: &mut Case<'_>,
    store: &mut Store,
    reports: &mut Reports,
    handled: &HandledRecord,
) -> Result<(), OutOfMemory>
    requires handled { IsHandledRecord verified.now handled.now }
    requires machine { M.program machine.old ≡ verified.now }
    requires goes_on { GoesOn verified.now case.old case.old store.old }
    requires reports { ReportsFit verified.now.image reports.old }
    ensures same { M.program machine.new ≡ verified.now }
    ensures scene { OnOk result (AllLeave verified.now case.old store.old reports.old (of_occurrences handled.now.number) case.new store.new reports.new) }
    ensures goes_on { OnOk result (GoesOn verified.now case.old case.new store.new) }
    ensures reports_fit { ReportsFit verified.now.image reports.new }
{
    if handled.items.is_empty() {
        return Ok(());
    }
    let count = case.occurrences(handled.number);
    'occurrences: for before in 0..count {
        run_items(verified, machine, case, store, reports, handled, before + 1)?;
    }
    Ok(())
}

/// Runs the events of a record and of its items.
fn run_record<C: Code, M: Runs>(
    verified: &Verified<'_, C>,
    machine: &mut M,
    case: &mut Case<'_>,
    store: &mut Store,
    reports: &mut Reports,
    handled: &HandledRecord,
) -> Result<(), OutOfMemory>
    requires handled { IsHandledRecord verified.now handled.now }
    requires machine { M.program machine.old ≡ verified.now }
    requires goes_on { GoesOn verified.now case.old case.old store.old }
    requires reports { ReportsFit verified.now.image reports.old }
    ensures same { M.program machine.new ≡ verified.now }
    ensures scene { OnOk result (AllLeave verified.now case.old store.old reports.old (of_record handled.now.number) case.new store.new reports.new) }
    ensures goes_on { OnOk result (GoesOn verified.now case.old case.new store.new) }
    ensures reports_fit { ReportsFit verified.now.image reports.new }
{
    let preproc = event(EventCode::RecordPreproc, handled.number);
    run_if_handled(
        verified,
        machine,
        case,
        store,
        reports,
        preproc,
        handled.preproc,
    )?;
    run_occurrences(verified, machine, case, store, reports, handled)?;
    let postproc = event(EventCode::RecordPostproc, handled.number);
    run_if_handled(
        verified,
        machine,
        case,
        store,
        reports,
        postproc,
        handled.postproc,
    )?;
    Ok(())
}

/// Runs the events of all records, in edit order.
fn run_records<C: Code, M: Runs>(
    verified: &Verified<'_, C>,
    machine: &mut M,
    case: &mut Case<'_>,
    store: &mut Store,
    reports: &mut Reports,
    handled: &HandledEvents,
) -> Result<(), OutOfMemory>
    requires handled { AreHandled verified.now handled.now }
    requires machine { M.program machine.old ≡ verified.now }
    requires goes_on { GoesOn verified.now case.old case.old store.old }
    requires reports { ReportsFit verified.now.image reports.old }
    ensures same { M.program machine.new ≡ verified.now }
    ensures scene { OnOk result (AllLeave verified.now case.old store.old reports.old of_records case.new store.new reports.new) }
    ensures goes_on { OnOk result (GoesOn verified.now case.old case.new store.new) }
    ensures reports_fit { ReportsFit verified.now.image reports.new }
{
    'records: for of_record in &handled.records {
        run_record(verified, machine, case, store, reports, of_record)?;
    }
    Ok(())
}

/// Runs the events of a case: those of the level around those of its records.
pub(crate) fn run_case_events<C: Code, M: Runs>(
    verified: &Verified<'_, C>,
    machine: &mut M,
    case: &mut Case<'_>,
    store: &mut Store,
    reports: &mut Reports,
    handled: &HandledEvents,
) -> Result<(), OutOfMemory>
    requires handled { AreHandled verified.now handled.now }
    requires machine { M.program machine.old ≡ verified.now }
    requires goes_on { GoesOn verified.now case.old case.old store.old }
    requires reports { ReportsFit verified.now.image reports.old }
    ensures same { M.program machine.new ≡ verified.now }
    ensures scene { OnOk result (AllLeave verified.now case.old store.old reports.old of_case case.new store.new reports.new) }
    ensures goes_on { OnOk result (GoesOn verified.now case.old case.new store.new) }
    ensures reports_fit { ReportsFit verified.now.image reports.new }
{
    let preproc = event(EventCode::LevelPreproc, 0);
    run_if_handled(
        verified,
        machine,
        case,
        store,
        reports,
        preproc,
        handled.preproc,
    )?;
    run_records(verified, machine, case, store, reports, handled)?;
    let postproc = event(EventCode::LevelPostproc, 0);
    run_if_handled(
        verified,
        machine,
        case,
        store,
        reports,
        postproc,
        handled.postproc,
    )?;
    Ok(())
}
