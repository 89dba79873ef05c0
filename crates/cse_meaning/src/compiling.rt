//! The program of a checked source.

ghost use Rattle.std.specs.Prelude.{◌≡◌, IfOk, IfErr};
ghost use Rattle.cse_dict.specs.Dictionary.{shape_of};
ghost use Rattle.cse_code_typing.specs.Typed.{IsTyped};
ghost use Rattle.cse_verify.specs.Bounded.{IsBounded};
ghost use Rattle.cse_types.specs.Answer.{checked};
ghost use Rattle.cse_compile.specs.Compiled.{HasNoRoom};
ghost use Rattle.cse_compile.specs.Fault.{IsReason};
ghost use Rattle.cse_compile.specs.Program.{IsProgramOf};
ghost use Rattle.cse_meaning.specs.Costs.{KeepsCosts};
ghost use Rattle.cse_meaning.specs.Within.{IsWithin};
ghost use Rattle.cse_meaning.specs.Means.{Means};

use crate::reading::read_shape;
use crate::{means_alone, programs_mean};
use cse_compile::{CompileError, program_of};
use cse_image::Program;
use cse_types::Typed;
use std::alloc::Global;

/// The program of a checked source, with what the source promises of it.
fn compiled(alloc: Global, typed: &Typed<'_>) -> Result<Program, CompileError>
    ensures typed { IfOk result (IsTyped (shape_of (checked typed.now).dictionary)) }
    ensures bounded { IfOk result IsBounded }
    ensures tables { IfOk result (IsProgramOf (checked typed.now).dictionary (checked typed.now).order (checked typed.now).tree) }
    ensures others { IfErr result IsReason }
    ensures room { IfErr result (λ e. e.number ≡ 64 → HasNoRoom (checked typed.now).dictionary (checked typed.now).order (checked typed.now).tree) }
    ensures within { IfErr result (λ e. e.number ≡ 64 → IsWithin (checked typed.now).tree → ⊥) }
    ensures cost { IfErr result (λ e. e.number ≡ 67 → KeepsCosts (checked typed.now).dictionary (checked typed.now).tree → ⊥) }
{
    let dictionary = typed.dictionary();
    let sound = dictionary.shape();
    read_shape(sound);
    program_of(alloc, typed.tree(), dictionary, typed.order().records())
}

/// A program of a checked source that may run does what the source means.
fn does_as_meant(typed: &Typed<'_>, program: &Program)
    requires typed { IsTyped (shape_of (checked typed.now).dictionary) program.now }
    requires bounded { IsBounded program.now }
    requires tables { IsProgramOf (checked typed.now).dictionary (checked typed.now).order (checked typed.now).tree program.now }
    ensures { Means (record { dictionary = (checked typed.now).dictionary; image = program.now }) (checked typed.now).tree }
{
    typed.dictionary().shape();
    program.tables();
    programs_mean();
    means_alone();
}

/// The program of a checked source, for the dictionary and the edit order that it was checked for. It may run with the
/// dictionary (`typed`, `bounded`), is the program of the source (`tables`), and does what the source means (`means`): each
/// event of the dictionary, on whatever case and store fit, runs to its end within its bound, and leaves the case, the store
/// and the reports that the statements mean.
///
/// A checked source is refused by 64, 67 or 90 alone (`others`): by 64 only where no program of it has a spelling, since
/// one of its tables, or its code, is beyond a limit of the format (`room`), and by 67 only where a routine or the events
/// of a case cost more than 10^15 steps (`cost`). By 64 only where the source itself is beyond a limit: where it has more
/// than 60,000 tokens, or 4,096 functions and parts of procedures, or an array, a function or a message that no image may
/// have (`within`).
pub fn compile(alloc: Global, typed: &Typed<'_>) -> Result<Program, CompileError>
    ensures typed { IfOk result (IsTyped (shape_of (checked typed.now).dictionary)) }
    ensures bounded { IfOk result IsBounded }
    ensures tables { IfOk result (IsProgramOf (checked typed.now).dictionary (checked typed.now).order (checked typed.now).tree) }
    ensures means { IfOk result (λ p. Means (record { dictionary = (checked typed.now).dictionary; image = p }) (checked typed.now).tree) }
    ensures others { IfErr result IsReason }
    ensures room { IfErr result (λ e. e.number ≡ 64 → HasNoRoom (checked typed.now).dictionary (checked typed.now).order (checked typed.now).tree) }
    ensures within { IfErr result (λ e. e.number ≡ 64 → IsWithin (checked typed.now).tree → ⊥) }
    ensures cost { IfErr result (λ e. e.number ≡ 67 → KeepsCosts (checked typed.now).dictionary (checked typed.now).tree → ⊥) }
{
    match compiled(alloc, typed) {
        Ok(program) => {
            does_as_meant(typed, &program);
            Ok(program)
        }
        Err(error) => Err(error),
    }
}
