//! What holds of typings, of edges and of events: functions that do nothing, each with a law.

ghost use Rattle.cse_code_typing.specs.Laws.{TypingIsOne, EdgesLeadInside};
ghost use Rattle.cse_code_typing.specs.Handlers.{EventsRunHandlers};
ghost use Rattle.cse_code_typing.specs.Growth.{GrowthIsTold};

/// A law: two typings of the same places have the same stack at each of them.
pub fn typing_is_one()
    ensures { TypingIsOne }
{}

/// A law: where the brackets of a routine keep their rules, each instruction leads to places that are
/// there.
pub fn edges_lead_inside()
    ensures { EdgesLeadInside }
{}

/// A law: in a program that is typed, an event's routine is there and handles the event.
pub fn events_run_handlers()
    ensures { EventsRunHandlers }
{}

/// A law: a routine with an imputation or a listed message needs growth, and so does one that calls a
/// routine that needs it.
pub fn growth_is_told()
    ensures { GrowthIsTold }
{}
