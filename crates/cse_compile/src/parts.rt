//! The sections of the image of a typed source.

ghost use Rattle.std.specs.Prelude.{◌≡◌, map, length, IfOk, IfErr};
ghost use Rattle.cse_dict.specs.Dictionary.{shape_of};
ghost use Rattle.cse_image_parts.specs.Image.{message_lists, array_lists, image_of};
ghost use Rattle.cse_logic_tree.specs.Typed.{tree as tree_view};
ghost use Rattle.cse_value.specs.Shape.{shape_lists};
ghost use Rattle.cse_compile.specs.Tables as tables_spec;
ghost use Rattle.cse_compile.specs.Order as order_spec;
ghost use Rattle.cse_compile.specs.Joined.{image_from};
ghost use Rattle.cse_compile.specs.Program as spec;
ghost use Rattle.cse_compile.specs.Program.{IsProgramOf};
ghost use Rattle.cse_compile.specs.Compiled.{HasNoRoom};
ghost use Rattle.cse_compile.specs.Fault.{IsLimit};
ghost use Rattle.cse_compile.specs.Pools.{PoolsFit};

use crate::error::CompileError;
use crate::routes::{Routes, declarations_of, routes_of};
use crate::{arrays_of, edit_order, globals_of, messages_of};
use cse_dict::Dictionary;
use cse_image_parts::entries::{Array, GlobalVariable, Message, Parts};
use cse_logic_tree::Tree;
use cse_value::shape::{ItemShape, RecordShape, SetShape, Shape};
use std::alloc::{AllocError, Global};

/// The lists that the dictionary, the declarations, the messages and the order file say.
#[derive(Drop)]
pub struct DeclaredLists {
    pub shape: Shape,
    pub order: Vec<u32>,
    pub globals: Vec<GlobalVariable>,
    pub messages: Vec<Message>,
}

/// The shape, in memory of its own.
fn copied(alloc: Global, shape: &Shape) -> Result<Shape, AllocError>
    ensures { IfOk result (λ x. shape_lists x ≡ shape_lists shape.now) }
{
    let records: Vec<RecordShape> = Vec::from_slice(alloc, &shape.records)?;
    let items: Vec<ItemShape> = Vec::from_slice(alloc, &shape.items)?;
    let sets: Vec<SetShape> = Vec::from_slice(alloc, &shape.sets)?;
    Ok(Shape {
        records,
        items,
        sets,
    })
}

fn said_in<'t, 'a>(
    alloc: Global,
    tree: &'t Tree<'a>,
    dictionary: &Dictionary,
    named: &[u16],
) -> Result<DeclaredLists, AllocError>
    ensures shape { IfOk result (λ x. shape_lists x.shape ≡ shape_of dictionary.now) }
    ensures order { IfOk result (λ x. x.order.items ≡ order_spec.edit_order (length (shape_of dictionary.now).records) named.now) }
    ensures globals { IfOk result (λ x. x.globals.items ≡ tables_spec.globals_in (spec.declarations (tree_view tree.now))) }
    ensures messages { IfOk result (λ x. map message_lists x.messages.items ≡ map tables_spec.message_of (tree_view tree.now).messages) }
{
    let shape = copied(alloc, dictionary.shape())?;
    let order = edit_order(alloc, dictionary.shape().records.len() as u16, named)?;
    let globals = globals_of(alloc, declarations_of(tree))?;
    let messages = messages_of(alloc, &tree.messages)?;
    Ok(DeclaredLists {
        shape,
        order,
        globals,
        messages,
    })
}

/// The sections from their lists.
fn joined(said: DeclaredLists, arrays: Vec<Array>, routes: Routes) -> Parts
    ensures { image_of result ≡ image_from said arrays routes }
{
    let DeclaredLists {
        shape,
        order,
        globals,
        messages,
    } = said;
    let Shape {
        records,
        items,
        sets,
    } = shape;
    let Routes {
        routines,
        events,
        code,
    } = routes;
    Parts {
        records,
        items,
        sets,
        order,
        constants: code.constants,
        limits: code.limits,
        texts: code.texts,
        globals,
        arrays,
        messages,
        routines,
        events,
        code: code.instructions,
    }
}

/// The sections of the image of a typed source, with the named records first in edit order.
#[tactic(auto, using(crate::proofs::Limits::memory_limit))]
pub fn parts_of<'t, 'a>(
    alloc: Global,
    tree: &'t Tree<'a>,
    dictionary: &Dictionary,
    named: &[u16],
) -> Result<Parts, CompileError>
    ensures ok { IfOk result (λ p. IsProgramOf dictionary.now named.now (tree_view tree.now) (image_of p)) }
    ensures fit { IfOk result (λ p. PoolsFit (spec.pools_of (image_of p).lists)) }
    ensures err { IfErr result IsLimit }
    ensures room { IfErr result (λ e. e.number ≡ 64 → HasNoRoom dictionary.now named.now (tree_view tree.now)) }
{
    let said = said_in(alloc, tree, dictionary, named)?;
    let arrays = arrays_of(alloc, declarations_of(tree))?;
    let routes = match routes_of(alloc, tree, dictionary, &arrays) {
        Ok(routes) => routes,
        Err(error) => return Err(error),
    };
    Ok(joined(said, arrays, routes))
}
