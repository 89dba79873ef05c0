//! The program of a typed source.

ghost use Rattle.std.specs.Prelude.{◌≡◌, IfOk, IfErr};
ghost use Rattle.cse_dict.specs.Dictionary.{shape_of};
ghost use Rattle.cse_image_parts.specs.Image.{image_of};
ghost use Rattle.cse_image.specs.Spelling.{Fits};
ghost use Rattle.cse_code_typing.specs.Typed.{IsTyped};
ghost use Rattle.cse_verify.specs.Bounded.{IsBounded};
ghost use Rattle.cse_logic_tree.specs.Typed.{tree as tree_view};
ghost use Rattle.cse_compile.specs.Fault.{IsReason};
ghost use Rattle.cse_compile.specs.Program.{IsProgramOf};
ghost use Rattle.cse_compile.specs.Compiled.{HasNoRoom, IsSound, MayTakeLong, IsRefused};

use crate::error::{BEYOND, CompileError};
use crate::parts::parts_of;
use cse_dict::Dictionary;
use cse_image::Program;
use cse_image_parts::entries::Parts;
use cse_logic_tree::Tree;
use cse_verify::verify;
use std::alloc::Global;

/// The program, where it may run with the dictionary.
fn verified(
    alloc: Global,
    dictionary: &Dictionary,
    program: Program,
) -> Result<Program, CompileError>
    ensures same { IfOk result (λ p. p ≡ program) }
    ensures typed { IfOk result (IsTyped (shape_of dictionary.now)) }
    ensures bounded { IfOk result IsBounded }
    ensures refused { IfErr result (λ e. Fits program → IsRefused (shape_of dictionary.now) program e) }
    ensures room { IfErr result (λ e. e.number ≡ 64 → ⊥) }
{
    match verify(alloc, dictionary, program) {
        Ok(verified) => Ok(verified.into_program()),
        Err(refusal) => Err(CompileError {
            number: refusal.number,
        }),
    }
}

/// The program of these sections, where they have a spelling and it may run with the dictionary.
fn spelled(alloc: Global, dictionary: &Dictionary, parts: Parts) -> Result<Program, CompileError>
    ensures same { IfOk result (λ p. p ≡ image_of parts) }
    ensures typed { IfOk result (IsTyped (shape_of dictionary.now)) }
    ensures bounded { IfOk result IsBounded }
    ensures refused { IfErr result (IsRefused (shape_of dictionary.now) (image_of parts)) }
    ensures room { IfErr result (λ e. e.number ≡ 64 → Fits (image_of parts) → ⊥) }
{
    match Program::from_parts(parts) {
        Some(program) => verified(alloc, dictionary, program),
        None => Err(BEYOND),
    }
}

/// The program of a typed source for its dictionary, with the named records first in edit order. It may run with the
/// dictionary (`typed`, `bounded`); it has the tables of the source, in order of the source and no others, and its
/// instructions stand for the code of its routines (`tables`). It refuses by 64 only where no program of the source has a
/// spelling, since one of its tables, or its code, is beyond a limit of the format (`room`). A source whose programs are
/// typed is refused by 64, 67 or 90 alone (`others`), and by 67 only where its program may take more than 10^15 steps
/// (`cost`).
pub fn program_of<'t, 'a>(
    alloc: Global,
    tree: &'t Tree<'a>,
    dictionary: &Dictionary,
    order: &[u16],
) -> Result<Program, CompileError>
    ensures typed { IfOk result (IsTyped (shape_of dictionary.now)) }
    ensures bounded { IfOk result IsBounded }
    ensures tables { IfOk result (IsProgramOf dictionary.now order.now (tree_view tree.now)) }
    ensures room { IfErr result (λ e. e.number ≡ 64 → HasNoRoom dictionary.now order.now (tree_view tree.now)) }
    ensures others { IsSound dictionary.now order.now (tree_view tree.now) → IfErr result IsReason }
    ensures cost { IsSound dictionary.now order.now (tree_view tree.now) → IfErr result (λ e. e.number
        ≡ 67 → MayTakeLong dictionary.now order.now (tree_view tree.now)) }
{
    match parts_of(alloc, tree, dictionary, order) {
        Ok(parts) => spelled(alloc, dictionary, parts),
        Err(error) => Err(error),
    }
}
