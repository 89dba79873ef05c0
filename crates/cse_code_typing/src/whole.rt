//! Whether a program as a whole is typed for a dictionary of a shape.

ghost use Rattle.std.specs.Prelude.{◌≡◌, ◌<◌, ◌≤◌, ◌+◌, ◌*◌, ◌^◌, length, OnOk, IfOk, IfErr, ◌⊎◌};
ghost use Rattle.cse_value.specs.Shape.{shape_lists};
ghost use Rattle.cse_code_typing.specs.Code.{part};
ghost use Rattle.cse_code_typing.specs.Shapes.{shape_of};
ghost use Rattle.cse_code_typing.specs.Tables.{scene_in};
ghost use Rattle.cse_code_typing.specs.Checked.{IsSound, Fails};
ghost use Rattle.cse_code_typing.specs.Depth.{IsAtMost, KeepFew, most_kept, IsDepth};
ghost use Rattle.cse_code_typing.specs.Typed.{AreTypedBelow, IsTyped, HasUnfitEvents, IsOutOfMemory, Refuses};

use crate::brackets::first_break;
use crate::depth::Depth;
use crate::order::{all_events_fit, names_each_once};
use crate::pass_at::Surroundings;
use crate::refusal::{Refusal, nowhere};
use crate::routine_code::RoutineCode;
use crate::shape::same_shape;
use crate::walk::{WalkFault, judge};
use cse_fault_numbers::{BAD_CALL, BAD_JUMP, NO_STACK, OTHER_SHAPE};
use cse_image::{Code, Program};
use cse_value::shape::Shape;
use std::alloc::Global;

/// The depth of the routine of this number, whose code starts there, by the depths of smaller routines,
/// where the routine keeps the rules of brackets, its instructions may stand in it, and it has a typing.
/// Else its first fault: 65; then, at the least place, 69 or 66. 90 where memory runs out.
pub fn check_routine<C: Code>(
    alloc: Global,
    around: Surroundings<'_>,
    code: &C,
    start: usize,
    number: u32,
    smaller: &[Depth],
) -> Result<Depth, Refusal>
    requires within { start + around.routine.now.instructions ≤ length (C.list code.now) }
    requires routines { length smaller.now < 2 ^ 32 }
    requires few { KeepFew smaller.now }
    requires locals { length around.routine.now.locals.items ≤ 255 }
    requires size { around.routine.now.instructions ≤ 1000000 }
    ensures sound { OnOk result (IsSound (scene_in around.entry) number (part start around.entry.routine.now.instructions (C.list code.now))) }
    ensures depth { IfOk result (IsDepth (scene_in around.entry) smaller.now (part start around.entry.routine.now.instructions (C.list code.now))) }
    ensures few { IfOk result (IsAtMost (most_kept * (length smaller.now + 1))) }
    ensures fails { IfErr result
        (λ e. IsOutOfMemory e ⊎ Fails (scene_in around.entry) number (part start around.entry.routine.now.instructions (C.list code.now)) e) }
{
    let size = around.routine.instructions;
    let skeleton = RoutineCode::new(code, around.tables, start, size);
    if let Some(at) = first_break(alloc, &skeleton)? {
        return Err(Refusal {
            number: BAD_JUMP,
            routine: number,
            at,
        });
    }
    match judge(alloc, around, code, start, number, smaller)? {
        Ok(depth) => Ok(depth),
        Err(WalkFault::MayNotStand(at)) => Err(Refusal {
            number: BAD_CALL,
            routine: number,
            at,
        }),
        Err(WalkFault::NoStack(at)) => Err(Refusal {
            number: NO_STACK,
            routine: number,
            at,
        }),
    }
}

/// Whether each routine is typed, in order.
fn check_routines<C: Code>(
    alloc: Global,
    shape: &Shape,
    program: &Program<C>,
) -> Result<(), Refusal>
    requires shape { shape_lists shape.now ≡ shape_of program.now }
    ensures typed { OnOk result (AreTypedBelow (shape_lists shape.now) program.now (length program.now.lists.routines)) }
    ensures refused { IfErr result (λ e. IsOutOfMemory e ⊎ Refuses (shape_lists shape.now) program.now e) }
{
    let code = program.code();
    let _fits = code.len();
    let tables = program.tables();
    let mut start = 0;
    let mut number = 0;
    for routine in &tables.routines {
        let around = Surroundings {
            shape,
            tables,
            routine,
        };
        check_routine(alloc, around, code, start, number, &[])?;
        start += routine.instructions as usize;
        number += 1;
    }
    Ok(())
}

/// Whether the order names each record once and each event fits.
pub fn check_events<C: Code>(shape: &Shape, program: &Program<C>) -> Result<(), Refusal>
    requires shape { shape_lists shape.now ≡ shape_of program.now }
    requires routines { AreTypedBelow (shape_lists shape.now) program.now (length program.now.lists.routines) }
    ensures typed { OnOk result (IsTyped (shape_lists shape.now) program.now) }
    ensures unfit { IfErr result (λ e. HasUnfitEvents (shape_lists shape.now) program.now e) }
{
    let tables = program.tables();
    let count = program.records().len() as u32;
    if !names_each_once(program.order(), count) || !all_events_fit(shape, tables) {
        return Err(nowhere(BAD_CALL));
    }
    Ok(())
}

/// Whether a program is typed for a dictionary of this shape (own): it has that shape; each routine
/// keeps the rules of jumps and brackets, each instruction may stand in it, and one abstract stack
/// fits each place; the order names each record exactly once; and each event fits. Else the first
/// reason: 68; then by routine, from 0, 65, and at the least place 69 or 66; then 69 with no routine
/// and no place. 90 where memory runs out.
///
/// The time grows with the number of instructions and, for each that leaves something, with the
/// logarithm of how many stacks the routine makes: a jump compares two entries of a table, and where
/// stacks meet two numbers are compared. At one place at most 64 openers are looked at, the kinds that
/// the instruction takes, and at a message 17 times its text, which has 255 characters. A routine of
/// 1,000,000 instructions takes some 200 MB at most.
pub fn typed<C: Code>(alloc: Global, shape: &Shape, program: &Program<C>) -> Result<(), Refusal>
    ensures typed { OnOk result (IsTyped (shape_lists shape.now) program.now) }
    ensures refused { IfErr result (λ e. IsOutOfMemory e ⊎ Refuses (shape_lists shape.now) program.now e) }
    ensures never { IfErr result (λ e. IsOutOfMemory e ⊎ (IsTyped (shape_lists shape.now) program.now → ⊥)) }
{
    if !same_shape(shape, program) {
        return Err(nowhere(OTHER_SHAPE));
    }
    check_routines(alloc, shape, program)?;
    check_events(shape, program)
}
