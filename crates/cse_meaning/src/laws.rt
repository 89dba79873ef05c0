//! What is proved of meanings.

ghost use Rattle.cse_meaning.specs.Acts.{AssignmentsGo, ConditionsGo};
ghost use Rattle.cse_meaning.specs.Lands.{StatementsLand};
ghost use Rattle.cse_meaning.specs.Means.{MeaningIsTheOutcome};
ghost use Rattle.cse_meaning.specs.Runs.{RunsJoin};
ghost use Rattle.cse_meaning.specs.Tables.{TablesAgree};
ghost use Rattle.cse_meaning.specs.Values.{NumbersGo, WordsGo};
ghost use Rattle.cse_meaning.specs.Whole.{EventsMean, FunctionsFollow};

/// Law: an event of a program that does what its logic means leaves what the logic means, and nothing else.
pub fn meaning_is_the_outcome()
    ensures { MeaningIsTheOutcome }
{}

/// Law: the compiler's table of events has of each event the statements that the meaning has.
pub fn tables_agree()
    ensures { TablesAgree }
{}

/// Law: a run to a state and a run from there are a run.
pub fn runs_join()
    ensures { RunsJoin }
{}

/// Law: where the code of an expression of whatever kind stands, and the functions below do what they mean, a run leads
/// behind it, with the value that the expression means on the stack, to the world that its meaning leaves, which fits.
pub fn numbers_go()
    ensures { NumbersGo }
{}

/// Law: the same of texts.
pub fn words_go()
    ensures { WordsGo }
{}

/// Law: where the code of an assignment to a variable stands, a run leads behind it, to the world that the assignment means,
/// and a variable of the function holds the value; what follows may run there.
pub fn assignments_go()
    ensures { AssignmentsGo }
{}

/// Law: where the code of a statement of whatever kind stands, a run leads where it ends by its meaning, and what follows may
/// run there: behind its code, with `next` to the end of the turn, with `break` behind the loop, and with `exit` to the end of
/// the call, with its gift.
pub fn statements_land()
    ensures { StatementsLand }
{}

/// Law: where a condition and its jump stand, a run leads behind them if the condition holds, and else where the jump leads.
pub fn conditions_go()
    ensures { ConditionsGo }
{}

/// Law: each function of a source whose code the program has, called with numbers above any calls, comes back with what it
/// means.
pub fn functions_follow()
    ensures { FunctionsFollow }
{}

/// Law: an event whose routine has the code of the logic runs to its end on whatever case and store fit, within its bound, and
/// leaves the case, the store and the reports that the logic means.
pub fn events_mean()
    ensures { EventsMean }
{}
