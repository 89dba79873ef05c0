//! The routines of a typed source with their code, and the events that run them.

ghost use Rattle.cse_image_parts.specs.Limits.{most_routines};
ghost use Rattle.std.specs.Prelude.{◌≡◌, ◌≤◌, [], ◌++◌, map, length, IfOk, IfErr};
ghost use Rattle.cse_dict.specs.Dictionary.{shape_of};
ghost use Rattle.cse_image_parts.specs.Image.{routine_lists};
ghost use Rattle.cse_logic_tree.specs.Typed.{tree as tree_view, declaration as declaration_view};
ghost use Rattle.cse_compile.specs.Setting.{sizes_of};
ghost use Rattle.cse_compile.specs.Outline as outline_spec;
ghost use Rattle.cse_compile.specs.Outline.{functions_in};
ghost use Rattle.cse_compile.specs.Events as events_spec;
ghost use Rattle.cse_compile.specs.Stands.{AllStand};
ghost use Rattle.cse_compile.specs.Pooled.{pools_in};
ghost use Rattle.cse_compile.specs.Program as spec;
ghost use Rattle.cse_compile.specs.Fault.{IsLimit};
ghost use Rattle.cse_compile.specs.Room.{NoCodeFits};
ghost use Rattle.cse_compile.specs.Pools.{PoolsFit};

use crate::coding::{code_all, with_handlers};
use crate::error::{BEYOND, CompileError, WANT_OF_MEMORY};
use crate::pooled::{Pooled, resolved};
use crate::{Emitter, Handler, Outline, event_table, function_outlines, handlers_of};
use cse_dict::Dictionary;
use cse_image_parts::entries::{Array, EventEntry, Routine};
use cse_image_parts::limits::MOST_ROUTINES;
use cse_logic_tree::{Declaration, Tree};
use cse_value::shape::RecordShape;
use std::alloc::{AllocError, Global};

/// The declarations of a source.
pub fn declarations_of<'t, 'a>(tree: &'t Tree<'a>) -> &'t [Declaration<'a>]
    ensures { map declaration_view result.now ≡ spec.declarations (tree_view tree.now) }
{
    match &tree.globals {
        Some(declarations) => declarations.as_slice(),
        None => &[],
    }
}

/// The routines of a source, the events that run them, and their code.
#[derive(Drop)]
pub struct Routes {
    pub routines: Vec<Routine>,
    pub events: Vec<EventEntry>,
    pub code: Pooled,
}

/// The entries of the routines, and their code.
fn routed(
    alloc: Global,
    records: &[RecordShape],
    arrays: &[Array],
    outlines: &[Outline],
    events: Vec<EventEntry>,
) -> Result<Routes, CompileError>
    ensures routines { IfOk result (λ x. map routine_lists x.routines.items
        ≡ map (spec.entry_of records.now (map sizes_of arrays.now)) (map outline_spec.outline outlines.now)) }
    ensures events { IfOk result (λ x. x.events.items ≡ events.items) }
    ensures code { IfOk result (λ x. AllStand (pools_in x.code) x.code.instructions.items
        (spec.all_code records.now (map sizes_of arrays.now) (map outline_spec.outline outlines.now))) }
    ensures fit { IfOk result (λ x. PoolsFit (pools_in x.code)) }
    ensures err { IfErr result IsLimit }
    ensures room { IfErr result (λ e. e.number ≡ 64 → NoCodeFits records.now (map sizes_of arrays.now) (map outline_spec.outline outlines.now)) }
{
    let mut emitter = Emitter::new(alloc);
    let routines = match code_all(alloc, &mut emitter, records, arrays, outlines) {
        Ok(routines) => routines,
        Err(error) => return Err(error),
    };
    let code = match resolved(alloc, &emitter) {
        Ok(code) => code,
        Err(error) => return Err(error),
    };
    Ok(Routes {
        routines,
        events,
        code,
    })
}

/// The outlines of the routines of a source, and how many of them are functions, which stand first.
fn outlines_of<'t, 'a>(
    alloc: Global,
    tree: &'t Tree<'a>,
    handlers: &[Handler<'t, 'a>],
) -> Result<(Vec<Outline<'t, 'a>>, usize), AllocError>
    ensures outlines { IfOk result (λ r. map outline_spec.outline r.0.items
        ≡ functions_in (spec.declarations (tree_view tree.now)) ++ map (λ x. x.outline) (map outline_spec.handler handlers.now)) }
    ensures functions { IfOk result (λ r. r.1 ≡ length (functions_in (spec.declarations (tree_view tree.now)))) }
{
    let functions = function_outlines(alloc, declarations_of(tree))?;
    let count = functions.len();
    let outlines = with_handlers(functions, handlers)?;
    Ok((outlines, count))
}

/// The events of the handlers, which are the routines behind the functions.
fn events_of(
    alloc: Global,
    dictionary: &Dictionary,
    functions: usize,
    handlers: &[Handler],
) -> Result<Vec<EventEntry>, CompileError>
    ensures ok { IfOk result (λ v. v.items ≡ events_spec.entries_in (events_spec.table_from [] functions (map outline_spec.handler handlers.now))
        (length (shape_of dictionary.now).records) (length (shape_of dictionary.now).items)) }
    ensures err { IfErr result IsLimit }
    ensures room { IfErr result (λ e. e.number ≡ 64 → functions ≤ most_routines → length handlers.now ≤ most_routines → ⊥) }
{
    if functions > MOST_ROUTINES || handlers.len() > MOST_ROUTINES {
        return Err(BEYOND);
    }
    let shape = dictionary.shape();
    let table = match event_table(alloc, functions as u32, handlers) {
        Ok(table) => table,
        Err(_) => return Err(WANT_OF_MEMORY),
    };
    match table.entries(alloc, shape.records.len() as u16, shape.items.len() as u16) {
        Ok(events) => Ok(events),
        Err(_) => Err(WANT_OF_MEMORY),
    }
}

/// The routines of a source, their events and their code.
pub fn routes_of<'t, 'a>(
    alloc: Global,
    tree: &'t Tree<'a>,
    dictionary: &Dictionary,
    arrays: &[Array],
) -> Result<Routes, CompileError>
    ensures routines { IfOk result (λ x. map routine_lists x.routines.items
        ≡ map (spec.entry_of (shape_of dictionary.now).records (map sizes_of arrays.now)) (spec.outlines (tree_view tree.now))) }
    ensures events { IfOk result (λ x. x.events.items ≡ spec.events dictionary.now (tree_view tree.now)) }
    ensures code { IfOk result (λ x. AllStand (pools_in x.code) x.code.instructions.items
        (spec.all_code (shape_of dictionary.now).records (map sizes_of arrays.now) (spec.outlines (tree_view tree.now)))) }
    ensures fit { IfOk result (λ x. PoolsFit (pools_in x.code)) }
    ensures err { IfErr result IsLimit }
    ensures room { IfErr result (λ e. e.number
        ≡ 64 → NoCodeFits (shape_of dictionary.now).records (map sizes_of arrays.now) (spec.outlines (tree_view tree.now))) }
{
    let handlers = match handlers_of(alloc, &tree.procedures) {
        Ok(handlers) => handlers,
        Err(_) => return Err(WANT_OF_MEMORY),
    };
    let (outlines, functions) = match outlines_of(alloc, tree, &handlers) {
        Ok(found) => found,
        Err(_) => return Err(WANT_OF_MEMORY),
    };
    let events = match events_of(alloc, dictionary, functions, &handlers) {
        Ok(events) => events,
        Err(error) => return Err(error),
    };
    let records = &dictionary.shape().records;
    routed(alloc, records, arrays, &outlines, events)
}
