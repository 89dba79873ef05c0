//! `try`: an image runs from its bytes to the messages of its preproc.

ghost use Rattle.std.specs.Prelude.{◌≡◌, false, None, IfOk, IfErr};
ghost use Rattle.cse_value.specs.Device.{Appends};
ghost use Rattle.cse_decks.specs.Store.{StoreFits};
ghost use Rattle.cse_report.specs.Held.{begun};
ghost use Rattle.cse_report.specs.Reports.{ReportsFit};
ghost use Rattle.cse_steps.specs.Results.{RunsTo};
ghost use Rattle.cse_command_images.specs.Tried.{empty_text, preproc, Goes, IsRefused, Runs, text_of, PrintsBefore, FailsByWrite, is_write};
ghost use Rattle.cse_command_parts.specs.Vetted.{IsReadAs};

use cse_command_parts::printing::print;
use cse_decks::Store;
use cse_dict::Dictionary;
use cse_image::{Code, Event, EventCode, ImageError};
use cse_machine::Machine;
use cse_report::Reports;
use cse_value::{Failed, OutOfMemory, Output};
use cse_verify::{CheckFault, Refusal, Verified, check_image};
use std::alloc::Global;
use thiserror::Error;

/// The text of the empty dictionary: a level without records, items and value sets.
const EMPTY: &[u8] = b"[Dictionary]\nName=T\n[Level]\nName=L\n";

/// The event that is run.
const PREPROC: Event = Event {
    code: EventCode::ApplicationPreproc,
    index: 0,
};

/// Why `try` could not run, or not print.
#[derive(Clone, Copy, Debug, Error)]
pub enum TryFault {
    /// The bytes are no image (60 to 64).
    #[error("{0}")]
    Image(ImageError),
    /// The program may not run with the empty dictionary (65 to 69).
    #[error("{0}")]
    Refused(Refusal),
    /// The output failed (71).
    #[error("a write failed")]
    Write,
    /// Want of memory (90).
    #[error("out of memory")]
    Memory,
}

/// What a run has come to: its steps, and what it reported.
struct Tried {
    steps: u64,
    reports: Reports,
}

/// Runs the application's preproc of an image with the empty dictionary and a new store. Writes the text of each
/// listed message on a line and then `n steps`, and answers n.
///
/// Faults, in this order: those of reading the image (60 to 64); those of verifying it (65 to 69), of which 68
/// comes where the program has a record, an item or a value set; and want of memory or a failed write in place of
/// an answer.
pub fn try_to<W: Output>(alloc: Global, image: &[u8], out: &mut W) -> Result<u64, TryFault>
    // What is printed is a run to its end.
    ensures runs { IfOk result (λ n. (r : Runs image.now n) × Appends (W.taken out.old) (W.taken out.new) (text_of r)) }
    // Why there is no run.
    ensures refused { IfErr result (λ f. is_write f ≡ false → IsRefused image.now f) }
    // What was printed before a fault.
    ensures printed { IfErr result (λ f. PrintsBefore image.now f (W.taken out.old) (W.taken out.new)) }
    ensures failed { FailsByWrite result (W.has_failed out.old) (W.has_failed out.new) }
{
    // The text is a dictionary, so that reading it meets want of memory alone.
    let Ok(dictionary) = Dictionary::read(alloc, EMPTY) else {
        return Err(TryFault::Memory);
    };
    try_with(alloc, &dictionary, image, out)
}

/// The same with the empty dictionary.
fn try_with<W: Output>(
    alloc: Global,
    dictionary: &Dictionary,
    image: &[u8],
    out: &mut W,
) -> Result<u64, TryFault>
    requires empty { IsReadAs empty_text dictionary.now }
    ensures runs { IfOk result (λ n. (r : Runs image.now n) × Appends (W.taken out.old) (W.taken out.new) (text_of r)) }
    ensures refused { IfErr result (λ f. is_write f ≡ false → IsRefused image.now f) }
    ensures printed { IfErr result (λ f. PrintsBefore image.now f (W.taken out.old) (W.taken out.new)) }
    ensures failed { FailsByWrite result (W.has_failed out.old) (W.has_failed out.new) }
{
    let verified = match check_image(alloc, dictionary, image) {
        Ok(verified) => verified,
        Err(CheckFault::Image(error)) => return Err(TryFault::Image(error)),
        Err(CheckFault::Refused(refusal)) => return Err(TryFault::Refused(refusal)),
        Err(CheckFault::Memory) => return Err(TryFault::Memory),
    };
    let Ok(Tried { steps, reports }) = run_preproc(alloc, &verified) else {
        return Err(TryFault::Memory);
    };
    match print(&reports.listing, steps, out) {
        Ok(()) => Ok(steps),
        Err(Failed) => Err(TryFault::Write),
    }
}

/// Runs the application's preproc from a new store.
fn run_preproc<C: Code>(alloc: Global, verified: &Verified<'_, C>) -> Result<Tried, OutOfMemory>
    ensures { IfOk result (λ t. Goes verified.now t.steps t.reports.listing.texts) }
{
    let mut reports = Reports::new(alloc, verified.program())?;
    let steps = run_from_start(alloc, verified, &mut reports)?;
    Ok(Tried { steps, reports })
}

/// The same, to reports in which nothing was reported yet. Tells the steps.
fn run_from_start<C: Code>(
    alloc: Global,
    verified: &Verified<'_, C>,
    reports: &mut Reports,
) -> Result<u64, OutOfMemory>
    requires fits { ReportsFit verified.now.image reports.old }
    requires empty { reports.old.listing ≡ begun verified.now.image.lists.messages }
    ensures { IfOk result (λ n. Goes verified.now n reports.new.listing.texts) }
{
    let mut store = Store::new(alloc, verified.program())?;
    run_with(alloc, verified, &mut store, reports)
}

/// Runs the application's preproc from a store, and tells its steps.
fn run_with<C: Code>(
    alloc: Global,
    verified: &Verified<'_, C>,
    store: &mut Store,
    reports: &mut Reports,
) -> Result<u64, OutOfMemory>
    requires store { StoreFits verified.now.image store.old }
    requires reports { ReportsFit verified.now.image reports.old }
    ensures { IfOk result (λ n. RunsTo verified.now preproc None store.old reports.old n None store.new reports.new) }
{
    let mut machine = Machine::new(alloc, verified)?;
    machine.run_plain(store, reports, PREPROC)
}
