//! Whether a program may run with a dictionary.

ghost use Rattle.std.specs.Prelude.{◌≡◌, IfOk, OnOk, IfErr, ◌⊎◌};
ghost use Rattle.cse_dict.specs.Dictionary.{shape_of};
ghost use Rattle.cse_code_typing.specs.Typed.{IsTyped, IsOutOfMemory};
ghost use Rattle.cse_verify.specs.Bounded.{IsBounded};
ghost use Rattle.cse_verify.specs.FirstFault.{IsFirstFault};

use crate::depth::depth_of;
use crate::events::{case_steps, run_steps};
use crate::routines::{check_routines, nowhere};
use crate::shape::same_shape;
use crate::verified::Verified;
use cse_code_typing::{Refusal, check_events};
use cse_dict::Dictionary;
use cse_fault_numbers::{OTHER_SHAPE, TOO_MANY_STEPS};
use cse_image::{Code, Program};
use std::alloc::Global;

/// The verified program, where it may run with the dictionary (own): it has the dictionary's shape; each
/// routine keeps the rules of jumps and brackets, each instruction may stand in it, one abstract stack
/// fits each place, and a call of it takes at most 10^15 steps; the order names each record once, each
/// event fits, and the events of a case take at most 10^15 steps. Else the first reason against it: 68;
/// then by routine, from 0, 65, at the least place 69 or 66, and 67 at the least place at which the sum
/// of steps passes the limit; then 69, and then 67, with no routine and no place. 90 where memory runs
/// out. A program that is refused is given up.
pub fn verify<'a, C: Code + Drop>(
    alloc: Global,
    dictionary: &'a Dictionary,
    program: Program<C>,
) -> Result<Verified<'a, C>, Refusal>
    ensures holds { IfOk result (λ v. v ≡ record { dictionary = dictionary.now; image = program }) }
    ensures typed { OnOk result (IsTyped (shape_of dictionary.now) program) }
    ensures bounded { OnOk result (IsBounded program) }
    ensures first { IfErr result (λ e. IsOutOfMemory e ⊎ IsFirstFault (shape_of dictionary.now) program e) }
    ensures never { IfErr result (λ e. IsOutOfMemory e ⊎ (IsTyped (shape_of dictionary.now) program → IsBounded program → ⊥)) }
{
    if !same_shape(dictionary, &program) {
        return Err(nowhere(OTHER_SHAPE));
    }
    let shape = dictionary.shape();
    let measured = check_routines(alloc, shape, &program)?;
    check_events(shape, &program)?;
    let depth = depth_of(&measured.cells, &measured.frames);
    let bounds = measured.bounds;
    let Some(of_case) = case_steps(&program, &bounds) else {
        return Err(nowhere(TOO_MANY_STEPS));
    };
    let of_run = run_steps(&program, &bounds);
    Ok(Verified::with(dictionary, program, bounds, of_case, of_run, depth))
}
