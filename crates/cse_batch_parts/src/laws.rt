//! Laws of the definition of a batch.

ghost use Rattle.cse_batch_parts.specs.Laws.{ApplicationsEnd, BatchesEnd, CasesEnd, EndsAreFinal, FrontsStay};

use cse_image::Code;
use cse_steps::{case_keeps_to_bound, event_ends};
use cse_verify::Verified;

/// Law: an event that ends after so many steps, within its bound, ends in the state that a batch goes on
/// from, and takes that many steps there.
pub fn ends_are_final()
    ensures { EndsAreFinal }
{}

/// Law: the events of a case that fits all run to their ends, and take together at most `case_steps`.
pub fn cases_end<C: Code>(verified: &Verified<'_, C>)
    ensures { CasesEnd verified.now }
{
    event_ends(verified);
    case_keeps_to_bound(verified);
}

/// Law: the application's events run to their ends, and take together at most `run_steps`.
pub fn applications_end<C: Code>(verified: &Verified<'_, C>)
    ensures { ApplicationsEnd verified.now }
{
    event_ends(verified);
}

/// Law: in a batch over any bytes, from a store that fits, all events run to their ends: those of each run of
/// lines take together at most `case_steps`, those of the application at most `run_steps`.
pub fn batches_end<C: Code>(verified: &Verified<'_, C>)
    ensures { BatchesEnd verified.now }
{
    event_ends(verified);
    case_keeps_to_bound(verified);
}

/// Law: what a batch has written and listed after some of its runs stands at the front of its texts.
pub fn fronts_stay()
    ensures { FrontsStay }
{}
