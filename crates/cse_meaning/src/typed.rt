//! What is proved of the code of logic.

ghost use Rattle.cse_meaning.specs.Emitted.{BracketsKeepRules, CodeIsTyped, InstructionsMayStand, RoutineIsCounted, RoutineIsTyped, StepsAreCounted};

/// A law: the code of a routine whose statements fit the tables of the program is typed. It keeps the rules of jumps and
/// brackets (`brackets`), each instruction may stand in the routine (`calls`), and there is a stack for each place
/// (`typing`). Its bound is the steps that the statements tell by their structure, whatever the bounds of the smaller
/// routines are (`steps`). So a routine of a program is typed (`routine`), and its bound is that of its statements
/// (`bound`).
pub fn code_is_typed()
    ensures brackets { BracketsKeepRules }
    ensures calls { InstructionsMayStand }
    ensures typing { CodeIsTyped }
    ensures steps { StepsAreCounted }
    ensures routine { RoutineIsTyped }
    ensures bound { RoutineIsCounted }
{}
