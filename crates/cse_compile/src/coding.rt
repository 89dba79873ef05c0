//! The code of all routines.

ghost use Rattle.std.specs.Prelude.{◌≡◌, ◌≤◌, ◌<◌, ◌++◌, ◌∷◌, [], map, OnOk, IfOk, IfErr};
ghost use Rattle.cse_image_parts.specs.Limits.{most_instructions};
ghost use Rattle.cse_image_parts.specs.Image.{routine_lists};
ghost use Rattle.cse_compile.specs.Setting.{setting as setting_view, sizes_of};
ghost use Rattle.cse_compile.specs.Routines as routines_spec;
ghost use Rattle.cse_logic_tree.specs.Typed.{block};
ghost use Rattle.cse_compile.specs.Outline as outline_spec;
ghost use Rattle.cse_compile.specs.Program as spec;
ghost use Rattle.cse_compile.specs.Fault.{IsLimit};
ghost use Rattle.cse_compile.specs.Room.{AreSmall, IsSmall};

use crate::error::{BEYOND, CompileError, WANT_OF_MEMORY};
use crate::{Emitter, Handler, Outline, RoutineSort, Setting, routine_size};
use cse_image_parts::entries::{Array, Routine};
use cse_logic_tree::Statement;
use cse_value::shape::RecordShape;
use std::alloc::{AllocError, Global};

/// The most instructions of all routines together.
const MOST: usize = 1_000_000;

/// A number of parameters as a field of a routine.
fn field_of(count: usize) -> Result<u8, CompileError>
    ensures ok { IfOk result (λ n. n ≡ count) }
    ensures err { IfErr result IsLimit }
    ensures room { IfErr result (λ _. 256 ≤ count) }
{
    match u8::try_from(count) {
        Ok(count) => Ok(count),
        Err(_) => Err(BEYOND),
    }
}

/// Emits the code of a routine, and tells how long it is.
fn emit<'a>(
    emitter: &mut Emitter<'a>,
    setting: &Setting,
    body: &Vec<Statement<'a>>,
) -> Result<u32, CompileError>
    ensures code { OnOk result (emitter.new ≡ emitter.old ++ routines_spec.routine_code (setting_view setting.now) (block body.now.items)) }
    ensures size { IfOk result (λ n. n ≡ routines_spec.routine_size (setting_view setting.now) (block body.now.items)) }
    ensures err { IfErr result IsLimit }
    ensures room { IfErr result (λ e. e.number ≡ 64 → most_instructions < routines_spec.routine_size (setting_view setting.now) (block body.now.items)) }
{
    if routine_size(setting, body) > MOST {
        return Err(BEYOND);
    }
    match emitter.routine(setting, body) {
        Ok(size) => Ok(size as u32),
        Err(_) => Err(WANT_OF_MEMORY),
    }
}

/// A routine with so many instructions.
fn routine_of(alloc: Global, sort: RoutineSort, instructions: u32) -> Result<Routine, CompileError>
    ensures ok { IfOk result (λ r. routine_lists r ≡ outline_spec.routine_of sort instructions) }
    ensures err { IfErr result IsLimit }
    ensures room { IfErr result (λ e. e.number ≡ 64 → 256 ≤ outline_spec.parameters_of sort) }
{
    let parameters = match field_of(sort.parameters()) {
        Ok(count) => count,
        Err(error) => return Err(error),
    };
    match sort.locals(alloc) {
        Ok(locals) => Ok(Routine {
            ambient: sort.ambient(),
            gives: sort.gives(),
            parameters,
            locals,
            instructions,
        }),
        Err(_) => Err(WANT_OF_MEMORY),
    }
}

/// Emits a routine, and gives its entry.
fn coded<'a>(
    alloc: Global,
    emitter: &mut Emitter<'a>,
    records: &[RecordShape],
    arrays: &[Array],
    written: Outline<'_, 'a>,
) -> Result<Routine, CompileError>
    ensures code { OnOk result (emitter.new ≡ emitter.old ++ spec.code_of records.now (map sizes_of arrays.now) (outline_spec.outline written.entry)) }
    ensures entry { IfOk result (λ r. routine_lists r ≡ spec.entry_of records.now (map sizes_of arrays.now) (outline_spec.outline written.entry)) }
    ensures err { IfErr result IsLimit }
    ensures room { IfErr result (λ e. e.number ≡ 64 → IsSmall records.now (map sizes_of arrays.now) (outline_spec.outline written.entry) → ⊥) }
{
    let setting = Setting {
        records,
        arrays,
        result_at: written.sort.result_at(),
    };
    let instructions = match emit(emitter, &setting, written.body) {
        Ok(instructions) => instructions,
        Err(error) => return Err(error),
    };
    routine_of(alloc, written.sort, instructions)
}

fn keep(routines: &mut Vec<Routine>, routine: Routine) -> Result<(), CompileError>
    ensures ok { OnOk result (routines.new.items ≡ routines.old.items ++ routine ∷ []) }
    ensures err { IfErr result IsLimit }
    ensures memory { IfErr result (λ e. e.number ≡ 90) }
{
    match routines.push(routine) {
        Ok(()) => Ok(()),
        Err(_) => Err(WANT_OF_MEMORY),
    }
}

/// Emits the routines, one after the other, and gives their entries.
pub fn code_all<'a>(
    alloc: Global,
    emitter: &mut Emitter<'a>,
    records: &[RecordShape],
    arrays: &[Array],
    outlines: &[Outline<'_, 'a>],
) -> Result<Vec<Routine>, CompileError>
    ensures code { OnOk result (emitter.new ≡ emitter.old ++ spec.all_code records.now (map sizes_of arrays.now) (map outline_spec.outline outlines.now)) }
    ensures entries { IfOk result (λ v. map routine_lists v.items
        ≡ map (spec.entry_of records.now (map sizes_of arrays.now)) (map outline_spec.outline outlines.now)) }
    ensures err { IfErr result IsLimit }
    ensures room { IfErr result (λ e. e.number ≡ 64 → AreSmall emitter.old records.now (map sizes_of arrays.now) (map outline_spec.outline outlines.now) → ⊥) }
{
    let mut routines = Vec::new(alloc);
    'all: for written in outlines {
        let routine = match coded(alloc, emitter, records, arrays, *written) {
            Ok(routine) => routine,
            Err(error) => return Err(error),
        };
        match keep(&mut routines, routine) {
            Ok(()) => {}
            Err(error) => return Err(error),
        }
        if emitter.code().len() > MOST {
            return Err(BEYOND);
        }
    }
    Ok(routines)
}

/// The outlines of the handlers behind those of the functions.
pub fn with_handlers<'t, 'a>(
    functions: Vec<Outline<'t, 'a>>,
    handlers: &[Handler<'t, 'a>],
) -> Result<Vec<Outline<'t, 'a>>, AllocError>
    ensures { IfOk result (λ v. map outline_spec.outline v.items
        ≡ map outline_spec.outline functions.entry.items ++ map (λ x. x.outline) (map outline_spec.handler handlers.now)) }
{
    let mut outlines = functions;
    'all: for written in handlers {
        outlines.push(written.outline)?;
    }
    Ok(outlines)
}
