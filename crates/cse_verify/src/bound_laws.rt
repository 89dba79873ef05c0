//! What the bounds say of walks over the code, and of a whole case.

ghost use Rattle.std.specs.Prelude.{ℕ, ◌≤◌, List, length};
ghost use Rattle.cse_code_typing.specs.Order.{NamesEachOnce};
ghost use Rattle.cse_verify.specs.EventBound.{case_bound};
ghost use Rattle.cse_verify.specs.CaseEvents.{Moment, case_events, events_bound, KeepsMost, KeepsTimes};
ghost use Rattle.cse_verify.specs.Calls.{AllKeepRules, AllCallSmaller, StepsKeepToBound, RestFalls, WalksGoOn, WalksStayInside, RestIsBound, OpensKeepToFrames};

use cse_image::{Code, Program};

/// A law: the steps that a call of a routine takes are at most its bound, whatever its operands decide.
/// `steps` says that n steps and the rest that is left are at most the bound; `falls`, that each step
/// lowers the rest, which is the bound where the call begins (`begins`); `goes_on`, that there is a step
/// while there is a call; `inside`, that each call stands at a place of its routine, with the brackets
/// around the place open, behind a call of the next, whose routine is smaller; and `frames`, that the open
/// brackets of all calls are at most those that the routine may have open.
pub fn walks_keep_to_bound<C: Code>(program: &Program<C>)
    requires rules { AllKeepRules program.now }
    requires smaller { AllCallSmaller program.now }
    ensures steps { StepsKeepToBound program.now }
    ensures falls { RestFalls program.now }
    ensures begins { RestIsBound program.now }
    ensures goes_on { WalksGoOn program.now }
    ensures inside { WalksStayInside program.now }
    ensures frames { OpensKeepToFrames program.now }
{
    let _fits = program.tables();
}

/// A law: the events of a case take together at most the steps of the case's bound. `case` says so of
/// the events of a case by the program's order and any numbers of occurrences that its records may have,
/// and `listed` of any events of which none comes more often than it may in a case.
pub fn events_keep_to_bound<C: Code>(program: &Program<C>)
    requires { NamesEachOnce (length program.now.lists.records) program.now.lists.order }
    ensures case { (occurrences : ℕ → ℕ) → KeepsMost program.now occurrences
        → events_bound program.now (case_events program.now occurrences) ≤ case_bound program.now }
    ensures listed { (events : List Moment) → KeepsTimes program.now events → events_bound program.now events ≤ case_bound program.now }
{
    let _ = program;
}
