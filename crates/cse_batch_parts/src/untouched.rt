//! The untouched promise: columns that no edit wrote stay as they were.

ghost use Rattle.cse_batch_parts.specs.Untouched.{ChecksChangeNothing, UntouchedColumnsStay};
ghost use Rattle.cse_batch_parts.specs.WorkedEdit.{IsBlanked};

use cse_image::Code;
use cse_steps::{
    case_columns_stay, case_ends, columns_stay, event_columns_stay, event_ends, first_states_fit,
};
use cse_verify::Verified;

/// Law, the untouched promise: what a batch writes is, line for line, what it read, but for the columns that
/// a step of the line's own case wrote. No line comes or goes or moves to another place, and none gets wider
/// or narrower; ids, record types and ends stay; a line into which no step wrote is written byte for byte,
/// and so is each unseen line and each line of a run that is no case.
pub fn untouched_columns_stay<C: Code>(verified: &Verified<'_, C>)
    ensures { UntouchedColumnsStay verified.now }
{
    event_ends(verified);
    first_states_fit(verified);
    columns_stay(verified);
    event_columns_stay(verified);
    case_ends(verified);
    case_columns_stay(verified);
}

/// Law: a program none of whose instructions writes an item, one of checks alone, gives sound data back byte
/// for byte.
pub fn checks_change_nothing<C: Code>(verified: &Verified<'_, C>)
    ensures { ChecksChangeNothing verified.now }
{
    untouched_columns_stay(verified);
}

/// Law: over four lines of one household, of which the third is of no record and the fourth a person too
/// many, a program that blanks the age of the second person changes these two columns of this line alone.
pub fn worked_edit()
    ensures { IsBlanked }
{}
