//! What runs the events of a verified program.

ghost use Rattle.std.specs.Prelude.{◌≡◌, Option, Some, None, IfOk, OnErr, OnOk, true};
ghost use Rattle.cse_verify.specs.CaseEvents.{moment};
ghost use Rattle.cse_verify.specs.Verified.{VerifiedProgram};
ghost use Rattle.cse_case.specs.Fit.{IsFit};
ghost use Rattle.cse_decks.specs.Store.{StoreFits};
ghost use Rattle.cse_report.specs.Reports.{ReportsFit};
ghost use Rattle.cse_steps.specs.Fits.{FitsFirst, is_of_run};
ghost use Rattle.cse_steps.specs.Handled.{AllHandled, events_of};
ghost use Rattle.cse_steps.specs.Results.{AllFitFirst, AllRunTo, HaltsAmong, HaltsAt, RunsTo, in_occurrence};

use crate::handled::Handled;
use cse_case::Case;
use cse_decks::Store;
use cse_image::Event;
use cse_report::Reports;
use cse_value::OutOfMemory;

/// Runs the events of a program, each to its end. After want of memory, which only an imputation and a
/// message that is listed may meet, an event has not ended.
pub trait Runs {
    // The program that it runs.
    ghost program: { Self → VerifiedProgram };

    /// Runs events with their routines, one after the other, with the occurrence that all of them are of.
    fn run_handled(
        &mut self,
        case: &mut Case<'_>,
        store: &mut Store,
        reports: &mut Reports,
        events: &[Handled],
        occurrence: u16,
    ) -> Result<(), OutOfMemory>
        requires handled { AllHandled (program self.old).image events.now }
        requires case_fits { IsFit case.old }
        requires store_fits { StoreFits (program self.old).image store.old }
        requires fits { AllFitFirst (program self.old) (in_occurrence occurrence (events_of events.now)) (Some case.old) store.old }
        requires reports { ReportsFit (program self.old).image reports.old }
        ensures same { program self.new ≡ program self.old }
        ensures ended { OnOk result (AllRunTo (program self.old) (in_occurrence occurrence (events_of events.now)) (Some case.old) store.old reports.old
            (Some case.new) store.new reports.new) }
        ensures halted { OnErr result (HaltsAmong (program self.old) (in_occurrence occurrence (events_of events.now)) (Some case.old) store.old reports.old
            (Some case.new) store.new reports.new) }
        ensures case_fits { IsFit case.new }
        ensures store_fits { StoreFits (program self.old).image store.new }
        ensures reports_fit { ReportsFit (program self.old).image reports.new };

    /// Runs an event of the application, which has no case, and tells its steps.
    fn run_plain(
        &mut self,
        store: &mut Store,
        reports: &mut Reports,
        event: Event,
    ) -> Result<u64, OutOfMemory>
        requires of_run { is_of_run event.code ≡ true }
        requires fits { FitsFirst (program self.old) (moment event.code event.index 0) None store.old }
        requires reports { ReportsFit (program self.old).image reports.old }
        ensures same { program self.new ≡ program self.old }
        ensures ended { IfOk result (λ n. RunsTo (program self.old) (moment event.code event.index 0) None store.old reports.old n None store.new reports.new) }
        ensures halted { OnErr result (HaltsAt (program self.old) (moment event.code event.index 0) None store.old reports.old None store.new reports.new) }
        ensures store_fits { StoreFits (program self.old).image store.new }
        ensures reports_fit { ReportsFit (program self.old).image reports.new };
}
