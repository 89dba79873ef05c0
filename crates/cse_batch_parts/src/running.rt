//! The runs of lines of a data file, one after the other.

ghost use Rattle.std.specs.Prelude.{◌≡◌, IfOk, IfErr, OnOk};
ghost use Rattle.cse_decks.specs.Store.{StoreFits};
ghost use Rattle.cse_report.specs.Reports.{ReportsFit};
ghost use Rattle.cse_batch_parts.specs.Outputs.{AreFresh, AreSame, CasesRanBy, HaltsBy, LeavesEnd, MayBegin, RanBy, RunStopsBy, RunsWholeBy};
ghost use Rattle.cse_batch_parts.specs.RunClauses.{RunStops, RunsWhole, contents, failures};

use crate::application::apply;
use crate::beside::put_run;
use crate::cases::edit;
use crate::handled::{HandledEvents, handled_events};
use crate::outputs::{Outputs, finish};
use crate::totals::{RunFault, Totals};
use cse_case::CaseReader;
use cse_decks::{Store, save};
use cse_fault_numbers::{WANT_OF_MEMORY, WRITE_FAILED};
use cse_image::{Code, EventCode};
use cse_report::Reports;
use cse_steps::runs::Runs;
use cse_value::{Input, Output};
use cse_verify::Verified;
use std::alloc::Global;

/// An output has failed.
const WRITE_FAULT: RunFault = RunFault {
    number: WRITE_FAILED,
    line: 0,
};

/// Want of memory.
const MEMORY_FAULT: RunFault = RunFault {
    number: WANT_OF_MEMORY,
    line: 0,
};

/// Runs the application's preproc, and then each run of lines with its events: its lines are put before one
/// output, and what it lists before the other.
pub(crate) fn run_cases<C: Code, M: Runs, R: Input, O: Output, L: Output, F: Output, D: Output>(
    verified: &Verified<'_, C>,
    machine: &mut M,
    reader: &mut CaseReader<'_, R>,
    store: &mut Store,
    reports: &mut Reports,
    handled: &HandledEvents,
    outputs: &mut Outputs<'_, O, L, F, D>,
) -> Result<Totals, RunFault>
    requires begins { MayBegin verified.now (M.program machine.old) reader.old.stream store.old reports.old handled.now }
    requires fresh { AreFresh outputs.old }
    ensures same_reference { reader.new.input.ghost_name ≡ reader.old.input.ghost_name }
    ensures same_outputs { AreSame outputs.old outputs.new }
    ensures left { LeavesEnd outputs.old outputs.new }
    ensures same { M.program machine.new ≡ verified.now }
    ensures ok { IfOk result (CasesRanBy R.Input O.Output L.Output verified.now store.old reader.old reader.new store.new reports.new outputs.old outputs.new) }
    ensures err { IfErr result (HaltsBy R.Input O.Output L.Output verified.now store.old reader.old reader.new outputs.old outputs.new) }
    ensures store_fits { OnOk result (StoreFits verified.now.image store.new) }
    ensures reports_fit { ReportsFit verified.now.image reports.new }
{
    let listed = &mut outputs.listed;
    let listing = &mut *outputs.listing;
    reports.listing.put_to(listed, listing);
    let preproc = EventCode::ApplicationPreproc;
    let Ok(()) = apply(verified, machine, store, reports, preproc, listed, listing) else {
        return Err(MEMORY_FAULT);
    };
    let mut cases = 0u64;
    let mut lines = 0u64;
    let mut unseen = 0u64;
    'runs: loop {
        match reader.next() {
            Ok(None) => return Ok(Totals {
                cases,
                lines,
                unseen,
            }),
            Ok(Some(mut case)) => {
                cases += u64::from(case.is_case());
                lines += case.lines();
                unseen += case.unseen().len() as u64;
                let Ok(()) = edit(verified, machine, &mut case, store, reports, handled) else {
                    return Err(MEMORY_FAULT);
                };
                put_run(&case, &mut reports.listing, outputs);
                if outputs.written.gave_up || outputs.listed.gave_up {
                    return Err(WRITE_FAULT);
                }
                reader.take_back(case);
            }
            Err(error) => return Err(RunFault {
                number: error.number,
                line: error.line,
            }),
        }
    }
}

/// Runs the application's events around the runs of lines.
fn run_around_cases<C: Code, M: Runs, R: Input, O: Output, L: Output, F: Output, D: Output>(
    verified: &Verified<'_, C>,
    machine: &mut M,
    reader: &mut CaseReader<'_, R>,
    store: &mut Store,
    reports: &mut Reports,
    handled: &HandledEvents,
    outputs: &mut Outputs<'_, O, L, F, D>,
) -> Result<Totals, RunFault>
    requires begins { MayBegin verified.now (M.program machine.old) reader.old.stream store.old reports.old handled.now }
    requires fresh { AreFresh outputs.old }
    ensures same_reference { reader.new.input.ghost_name ≡ reader.old.input.ghost_name }
    ensures same_outputs { AreSame outputs.old outputs.new }
    ensures left { LeavesEnd outputs.old outputs.new }
    ensures same { M.program machine.new ≡ verified.now }
    ensures ok { IfOk result (RanBy R.Input O.Output L.Output verified.now store.old reader.old reader.new store.new reports.new outputs.old outputs.new) }
    ensures err { IfErr result (HaltsBy R.Input O.Output L.Output verified.now store.old reader.old reader.new outputs.old outputs.new) }
    ensures store_fits { OnOk result (StoreFits verified.now.image store.new) }
    ensures reports_fit { ReportsFit verified.now.image reports.new }
{
    let totals = run_cases(verified, machine, reader, store, reports, handled, outputs)?;
    let postproc = EventCode::ApplicationPostproc;
    let listed = &mut outputs.listed;
    let listing = &mut *outputs.listing;
    let Ok(()) = apply(verified, machine, store, reports, postproc, listed, listing) else {
        return Err(MEMORY_FAULT);
    };
    Ok(totals)
}

/// Runs all that the reader has left, and writes all that waits.
fn run_reader<C: Code, M: Runs, R: Input, O: Output, L: Output, F: Output, D: Output>(
    verified: &Verified<'_, C>,
    machine: &mut M,
    reader: &mut CaseReader<'_, R>,
    store: &mut Store,
    reports: &mut Reports,
    handled: &HandledEvents,
    outputs: &mut Outputs<'_, O, L, F, D>,
) -> Result<Totals, RunFault>
    requires begins { MayBegin verified.now (M.program machine.old) reader.old.stream store.old reports.old handled.now }
    requires fresh { AreFresh outputs.old }
    ensures same_reference { reader.new.input.ghost_name ≡ reader.old.input.ghost_name }
    ensures same_outputs { AreSame outputs.old outputs.new }
    ensures same { M.program machine.new ≡ verified.now }
    ensures ok { IfOk result (RunsWholeBy R.Input O.Output L.Output F.Output D.Output verified.now store.old reader.old reader.new outputs.old outputs.new) }
    ensures err { IfErr result (RunStopsBy R.Input O.Output L.Output F.Output D.Output verified.now store.old reader.old reader.new outputs.old outputs.new) }
{
    let totals = match run_around_cases(
        verified, machine, reader, store, reports, handled, outputs,
    ) {
        Ok(totals) => totals,
        Err(fault) => {
            let _ = finish(&mut outputs.written, outputs.out);
            let _ = finish(&mut outputs.listed, outputs.listing);
            return Err(fault);
        }
    };
    let Ok(()) = finish(&mut outputs.written, outputs.out) else {
        return Err(WRITE_FAULT);
    };
    let Ok(()) = finish(&mut outputs.listed, outputs.listing) else {
        return Err(WRITE_FAULT);
    };
    let Ok(()) = reports
        .listing
        .write_to(totals.cases, totals.lines, totals.unseen, outputs.listing)
    else {
        return Err(WRITE_FAULT);
    };
    let Ok(()) = reports
        .frequencies
        .write_to(verified.dictionary(), outputs.frequencies)
    else {
        return Err(WRITE_FAULT);
    };
    let Ok(()) = save(verified.program(), store, outputs.decks) else {
        return Err(WRITE_FAULT);
    };
    Ok(totals)
}

/// The whole run over a data file, by what runs the events of the verified program.
///
/// `Ok` comes only where the end of the input was read and no line is faulty; then what was written to each
/// output is its text in the batch over what was read, and the totals are those of the batch. After a fault
/// what was written to each is a front of its text; after a fault of the data, and after 70, the written
/// lines and the listing are whole as far as runs were given, each unless its output has failed. The faults
/// are those of `DataError`, 71 where an output has failed, and 90.
pub fn run_by<C: Code, M: Runs, R: Input, O: Output, L: Output, F: Output, D: Output>(
    alloc: Global,
    verified: &Verified<'_, C>,
    machine: &mut M,
    store: Store,
    input: &mut R,
    out: &mut O,
    listing: &mut L,
    frequencies: &mut F,
    decks: &mut D,
) -> Result<Totals, RunFault>
    requires machine { M.program machine.old ≡ verified.now }
    requires fits { StoreFits verified.now.image store }
    // The machine still runs this program, so it may be lent to another run.
    ensures same { M.program machine.new ≡ verified.now }
    ensures ok { IfOk result (λ totals. RunsWhole verified.now store (R.given input.old) (R.given input.new)
        (contents (O.taken out.old) (L.taken listing.old) (F.taken frequencies.old) (D.taken decks.old))
        (contents (O.taken out.new) (L.taken listing.new) (F.taken frequencies.new) (D.taken decks.new)) totals) }
    ensures err { IfErr result (λ fault. RunStops verified.now store (R.given input.old) (R.given input.new)
        (contents (O.taken out.old) (L.taken listing.old) (F.taken frequencies.old) (D.taken decks.old))
        (contents (O.taken out.new) (L.taken listing.new) (F.taken frequencies.new) (D.taken decks.new))
        (failures (O.has_failed out.new) (L.has_failed listing.new) (F.has_failed frequencies.new) (D.has_failed decks.new)) fault) }
{
    let Ok(mut reports) = Reports::new(alloc, verified.program()) else {
        return Err(MEMORY_FAULT);
    };
    let Ok(handled) = handled_events(alloc, verified) else {
        return Err(MEMORY_FAULT);
    };
    let mut kept = store;
    let mut reader = CaseReader::new(alloc, verified.dictionary(), input);
    let mut outputs = Outputs::new(out, listing, frequencies, decks);
    let result = run_reader(
        verified,
        machine,
        &mut reader,
        &mut kept,
        &mut reports,
        &handled,
        &mut outputs,
    );
    let _ = reader.close();
    result
}
