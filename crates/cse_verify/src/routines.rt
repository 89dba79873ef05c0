//! The check of the routines of a program, one after the other.

ghost use Rattle.std.specs.Prelude.{◌≡◌, ℕ, ◌+◌, ◌*◌, ◌^◌, ◌<◌, ◌≤◌, [], ◌∷◌, ◌++◌, length, slice_index, EachIndex, IfOk, OnOk, IfErr, ◌⊎◌};
ghost use Rattle.cse_value.specs.Shape.{shape_lists};
ghost use Rattle.cse_code_typing.specs.Shapes.{shape_of};
ghost use Rattle.cse_code_typing.specs.Bracket.{KeepsRules};
ghost use Rattle.cse_code_typing.specs.Typed.{IsNowhere, IsOutOfMemory};
ghost use Rattle.cse_verify.specs.Bound.{partial, CallsBelow};
ghost use Rattle.cse_verify.specs.Limit.{step_limit};
ghost use Rattle.cse_verify.specs.Frames.{most_frames};
ghost use Rattle.cse_verify.specs.FirstFault.{IsFirstFault};
ghost use Rattle.cse_verify.specs.Measured.{AreMeasured, Exceeds};

use crate::frames::frames_of;
use crate::sum::bound_of;
use cse_code_typing::{Depth as Cells, NONE, Refusal, RoutineCode, Surroundings, check_routine};
use cse_fault_numbers::TOO_MANY_STEPS;
use cse_image::{Code, Program};
use cse_value::shape::Shape;
use std::alloc::{AllocError, Global};

/// What is found of the routines beside their typing, in order.
#[derive(Drop)]
pub struct Measured {
    /// How many steps a call of each may take.
    pub bounds: Vec<u64>,
    /// How many brackets are open in it at once.
    pub frames: Vec<u64>,
    /// What a call of each keeps.
    pub cells: Vec<Cells>,
}

/// A refusal with no routine and no place.
pub fn nowhere(number: u8) -> Refusal
    ensures number { result.number ≡ number }
    ensures place { IsNowhere result }
{
    Refusal {
        number,
        routine: NONE,
        at: NONE,
    }
}

fn append<T: Drop>(table: &mut Vec<T>, entry: T) -> Result<(), AllocError>
    ensures { OnOk result (table.new.items ≡ table.old.items ++ entry ∷ []) }
{
    table.push(entry)?;
    Ok(())
}

/// Adds the bound of the next routine; or 67 at the least place at which its sum passes the limit.
fn add_bound<C: Code>(
    bounds: &mut Vec<u64>,
    code: &RoutineCode<'_, C>,
    routine: u32,
) -> Result<(), Refusal>
    requires keeps { KeepsRules code.now }
    requires calls { CallsBelow (length bounds.old.items) code.now }
    requires small { EachIndex bounds.old.items (λ r. slice_index bounds.old.items r ≤ step_limit) }
    ensures added { OnOk result (bounds.new.items ≡ bounds.old.items ++ partial bounds.old.items code.now (length code.now) ∷ []) }
    ensures small { OnOk result (partial bounds.old.items code.now (length code.now) ≤ step_limit) }
    ensures refused { IfErr result (λ e. IsOutOfMemory e ⊎ Exceeds bounds.old.items code.now routine e) }
{
    match bound_of(code, bounds) {
        Ok(bound) => {
            append(bounds, bound)?;
            Ok(())
        }
        Err(at) => Err(Refusal {
            number: TOO_MANY_STEPS,
            routine,
            at,
        }),
    }
}

/// Adds the most brackets that are open at once in the next routine.
fn add_frames<C: Code>(frames: &mut Vec<u64>, code: &RoutineCode<'_, C>) -> Result<(), AllocError>
    requires keeps { KeepsRules code.now }
    requires calls { CallsBelow (length frames.old.items) code.now }
    requires few { length frames.old.items < 2 ^ 32 }
    requires small { EachIndex frames.old.items (λ r. slice_index frames.old.items r ≤ 64 * length frames.old.items) }
    ensures added { OnOk result (frames.new.items ≡ frames.old.items ++ most_frames frames.old.items code.now (length code.now) ∷ []) }
    ensures small { OnOk result (most_frames frames.old.items code.now (length code.now) ≤ 64 * (length frames.old.items + 1)) }
{
    let number = frames_of(code, frames);
    append(frames, number)
}

/// Whether each routine is typed and bounded, in order, and what is found of it; or the first reason
/// against a routine.
pub fn check_routines<C: Code>(
    alloc: Global,
    shape: &Shape,
    program: &Program<C>,
) -> Result<Measured, Refusal>
    requires shape { shape_lists shape.now ≡ shape_of program.now }
    ensures measured { IfOk result
        (λ m. AreMeasured (shape_lists shape.now) program.now (length program.now.lists.routines) m.bounds.items m.frames.items m.cells.items) }
    ensures first { IfErr result (λ e. IsOutOfMemory e ⊎ IsFirstFault (shape_lists shape.now) program.now e) }
{
    let code = program.code();
    let _fits = code.len();
    let tables = program.tables();
    let mut bounds = Vec::new(alloc);
    let mut frames = Vec::new(alloc);
    let mut cells = Vec::new(alloc);
    let mut start = 0;
    let mut number = 0;
    'routines: for routine in &tables.routines {
        let around = Surroundings {
            shape,
            tables,
            routine,
        };
        let kept = check_routine(alloc, around, code, start, number, &cells)?;
        let skeleton = RoutineCode::new(code, tables, start, routine.instructions);
        add_bound(&mut bounds, &skeleton, number)?;
        add_frames(&mut frames, &skeleton)?;
        append(&mut cells, kept)?;
        start += routine.instructions as usize;
        number += 1;
    }
    Ok(Measured {
        bounds,
        frames,
        cells,
    })
}
