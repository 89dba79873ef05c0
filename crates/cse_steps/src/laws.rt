//! Laws of steps and runs.

ghost use Rattle.cse_dict.specs.Sound.{IsSound};
ghost use Rattle.cse_image.specs.Spelling.{Fits};
ghost use Rattle.cse_steps.specs.Columns.{ColumnsStay, EventColumnsStay};
ghost use Rattle.cse_steps.specs.Events.{CaseColumnsStay, CasesEnd, EventsCompose, HandledCount, OneOutcome};
ghost use Rattle.cse_steps.specs.Laws.{CaseKeepsToBound, EventsEnd, EventsGoWell, FirstFits, RunsCompose, StepsAreSafe};
ghost use Rattle.cse_steps.specs.Upgraded.{UpgradeRunsTheSame};

use cse_dict::Dictionary;
use cse_image::{Code, Program};
use cse_verify::{Verified, walks_keep_to_bound};

/// Hands on what a program keeps to.
fn hand_on<C: Code>(program: &Program<C>)
    ensures { Fits program.now }
{
    program.tables();
}

/// Hands on what a dictionary keeps to.
fn hand_on_sound(dictionary: &Dictionary)
    ensures { IsSound dictionary.now }
{
    dictionary.shape();
}

/// Law: a state of a verified program that fits and has not ended has a step, and what follows fits. No
/// operand lacks or is of another kind, size or record, and whatever an instruction names is there.
pub fn steps_are_safe<C: Code>(verified: &Verified<'_, C>)
    ensures { StepsAreSafe verified.now }
{
    hand_on(verified.program());
    hand_on_sound(verified.dictionary());
}

/// Law: the first state of an event of a verified program fits, where its case and store fit.
pub fn first_states_fit<C: Code>(verified: &Verified<'_, C>)
    ensures { FirstFits verified.now }
{
    hand_on(verified.program());
    hand_on_sound(verified.dictionary());
}

/// Law: each state that an event of a verified program comes to fits, and it has ended or a step follows.
pub fn events_go_well<C: Code>(verified: &Verified<'_, C>)
    ensures { EventsGoWell verified.now }
{
    hand_on(verified.program());
    hand_on_sound(verified.dictionary());
}

/// Law: an event of a verified program runs to its end. From its first state so many steps lead to an
/// ended state, at most as many as the bound of the event; each state before it fits, has a step, and keeps
/// to the depth of the program.
pub fn event_ends<C: Code>(verified: &Verified<'_, C>)
    ensures { EventsEnd verified.now }
{
    hand_on(verified.program());
    hand_on_sound(verified.dictionary());
    walks_keep_to_bound(verified.program());
    verified.calls_keep_to_depth();
}

/// Law: the events of a case that fits, each with its occurrence, take together at most the steps of the
/// case's bound.
pub fn case_keeps_to_bound<C: Code>(verified: &Verified<'_, C>)
    ensures { CaseKeepsToBound verified.now }
{
    verified.program();
    verified.events_keep_to_case();
}

/// Law: a run of n and m steps is one of n steps, and one of m steps from where that leads.
pub fn runs_compose()
    ensures { RunsCompose }
{}

/// Law: over a run from a state that fits, the lines of the case stay but for the columns that its steps
/// write: each column is as it was, or one of the steps writes it, as an instruction that writes an item
/// which has the column, into the occurrence that is the line.
pub fn columns_stay<C: Code>(verified: &Verified<'_, C>)
    ensures { ColumnsStay verified.now }
{
    hand_on(verified.program());
    hand_on_sound(verified.dictionary());
}

/// Law: the same over a whole event, from the case at its beginning to that at its end.
pub fn event_columns_stay<C: Code>(verified: &Verified<'_, C>)
    ensures { EventColumnsStay verified.now }
{
    hand_on(verified.program());
    hand_on_sound(verified.dictionary());
}

/// Law: the events of a case, one after the other and each begun with what the one before left, run to
/// their ends, in at most as many steps together as the bound of a case.
pub fn case_ends<C: Code>(verified: &Verified<'_, C>)
    ensures { CasesEnd verified.now }
{
    event_ends(verified);
    case_keeps_to_bound(verified);
    hand_on(verified.program());
    hand_on_sound(verified.dictionary());
}

/// Law: events, one after the other, leave one thing at most: after as many steps the same case and store,
/// with the same reports.
pub fn one_outcome()
    ensures { OneOutcome }
{}

/// Law: events and then others leave what the others leave of what the first ones left.
pub fn events_compose()
    ensures { EventsCompose }
{}

/// Law: an event without a routine changes nothing, so that those with one leave what all of them leave.
pub fn handled_events_count()
    ensures { HandledCount }
{}

/// Law: what the events of a case leave fits again, and its lines are those of the case but for the columns
/// that a step of an event writes.
pub fn case_columns_stay<C: Code>(verified: &Verified<'_, C>)
    ensures { CaseColumnsStay verified.now }
{
    hand_on(verified.program());
    hand_on_sound(verified.dictionary());
}

/// Law: the upgrade of a program of version 1 runs as that program, whose code stands as it is and whose
/// limits are 0, 1, 2, ..: with any dictionary events begin in the same state, so many steps lead from a
/// state to the same state, and so events end after as many steps with the same case, store and reports.
pub fn upgrade_runs_the_same()
    ensures { UpgradeRunsTheSame }
{}
