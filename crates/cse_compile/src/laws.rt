//! What holds of the program of a source: functions that do nothing, each with a law.

ghost use Rattle.cse_compile.specs.Numbers.{HandlersKeepNumbers};

/// A law: where no two handlers are of one event, each event runs the routine of its own handler.
pub fn handlers_keep_numbers()
    ensures { HandlersKeepNumbers }
{}
