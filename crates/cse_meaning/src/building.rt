//! The image of logic, its message file and its order file.
//!
//! Each function owns what it makes, and hands it down by reference: the messages, the records of the order file, the
//! source, the typed tree, the program.

ghost use Rattle.std.specs.Prelude.{◌≡◌, ◌⊎◌, ℕ, List, true, IfOk, IfErr};
ghost use Rattle.std.specs.Str.{is_utf8};
ghost use Rattle.cse_image_parts.specs.Image.{Image};
ghost use Rattle.cse_image.specs.Spelling.{Spells};
ghost use Rattle.cse_syntax_tree.specs.Tree as syntax;
ghost use Rattle.cse_syntax.specs.Source.{IsSourceText};
ghost use Rattle.cse_logic_tree.specs.Typed as typed_spec;
ghost use Rattle.cse_types.specs.Answer.{checked};
ghost use Rattle.cse_logic_names.specs.OrderFile.{IsOrderOf};
ghost use Rattle.cse_logic_names.specs.WellTyped.{IsTypedAs};
ghost use Rattle.cse_meaning.specs.Build.{AreSound, IsBuilt, IsFault};
ghost use Rattle.cse_meaning.specs.Build.{AreNamed, IsFaultBehind, IsImage, IsLimitFault, IsLogic, IsLogicFault, IsSourceFault};
ghost use Rattle.cse_meaning.specs.Fault.{IsReason, out_of_memory};
ghost use Rattle.cse_meaning.specs.BuiltMeant.{MeansLogic};

use crate::compiling::compile;
use crate::error::{BuildFault, NO_TEXT, WANT_OF_MEMORY};
use crate::programs_mean;
use cse_dict::Dictionary;
use cse_image::{Program, none_begins_another, write_image};
use cse_syntax::{Source, parse};
use cse_types::{Messages, Order, Typed, check};
use std::alloc::Global;

/// The bytes of a program.
fn spelled(alloc: Global, program: &Program) -> Result<Vec<u8>, BuildFault>
    ensures bytes { IfOk result (λ v. Spells program.now v.items) }
    ensures memory { IfErr result (λ e. e ≡ out_of_memory) }
{
    let _fits = program.tables();
    match write_image(alloc, program) {
        Ok(bytes) => Ok(bytes),
        Err(_) => Err(WANT_OF_MEMORY),
    }
}

/// The image of a checked source.
fn of_typed(alloc: Global, typed: Typed<'_>) -> Result<Vec<u8>, BuildFault>
    ensures image { IfOk result (λ v. (x : Image) × IsImage (checked typed.entry).dictionary (checked typed.entry).order (checked typed.entry).tree x v.items) }
    ensures fault { IfErr result (λ e. (e ≡ out_of_memory) ⊎ IsLimitFault (checked typed.entry).dictionary (checked typed.entry).tree e) }
{
    match compile(alloc, &typed) {
        Ok(program) => spelled(alloc, &program),
        Err(error) => Err(BuildFault::from(error)),
    }
}

/// The image of a source.
fn of_source<'a>(
    alloc: Global,
    dictionary: &'a Dictionary,
    source: &Source<'a>,
    messages: &'a Messages,
    order: &'a Order,
) -> Result<Vec<u8>, BuildFault>
    requires order { IsOrderOf dictionary.now order.now }
    ensures image { IfOk result (λ v. (t : typed_spec.Tree) × (x : Image) × IsTypedAs dictionary.now messages.now (syntax.tree source.now.tree) t
        × IsImage dictionary.now order.now t x v.items) }
    ensures fault { IfErr result (λ e. (e ≡ out_of_memory) ⊎ IsSourceFault dictionary.now messages.now (syntax.tree source.now.tree) e) }
{
    match check(alloc, dictionary, source, messages, order) {
        Ok(typed) => of_typed(alloc, typed),
        Err(error) => Err(BuildFault::from(error)),
    }
}

/// The image of a text.
fn of_text<'a>(
    alloc: Global,
    dictionary: &'a Dictionary,
    text: &'a str,
    messages: &'a Messages,
    order: &'a Order,
) -> Result<Vec<u8>, BuildFault>
    requires order { IsOrderOf dictionary.now order.now }
    ensures image { IfOk result (λ v. (source : syntax.Tree) × (t : typed_spec.Tree) × (x : Image) × IsSourceText 64 text.now source
        × IsTypedAs dictionary.now messages.now source t × IsImage dictionary.now order.now t x v.items) }
    ensures fault { IfErr result (λ e. (e ≡ out_of_memory) ⊎ IsLogicFault dictionary.now messages.now text.now e) }
{
    match parse(alloc, text) {
        Ok(source) => of_source(alloc, dictionary, &source, messages, order),
        Err(error) => Err(BuildFault::from(error)),
    }
}

/// The image of logic, where the files beside it were read.
fn of_logic(
    alloc: Global,
    dictionary: &Dictionary,
    logic: &[u8],
    messages: &Messages,
    order: &Order,
) -> Result<Vec<u8>, BuildFault>
    requires order { IsOrderOf dictionary.now order.now }
    ensures image { IfOk result (λ v. (source : syntax.Tree) × (t : typed_spec.Tree) × (x : Image) × IsLogic dictionary.now messages.now logic.now source t
        × IsImage dictionary.now order.now t x v.items) }
    ensures fault { IfErr result (λ e. (e ≡ out_of_memory) ⊎ IsLogicFault dictionary.now messages.now logic.now e) }
{
    match str::from_utf8(logic) {
        Ok(text) => of_text(alloc, dictionary, text, messages, order),
        Err(_) => Err(NO_TEXT),
    }
}

/// The image of logic, where its message file was read.
fn with_messages(
    alloc: Global,
    dictionary: &Dictionary,
    logic: &[u8],
    messages: &Messages,
    order: &[u8],
) -> Result<Vec<u8>, BuildFault>
    ensures image { IfOk result (λ v. (named : List ℕ) × (source : syntax.Tree) × (t : typed_spec.Tree) × (x : Image)
        × AreNamed dictionary.now order.now named × IsLogic dictionary.now messages.now logic.now source t × IsImage dictionary.now named t x v.items) }
    ensures fault { IfErr result (λ e. (e ≡ out_of_memory) ⊎ IsFaultBehind dictionary.now messages.now logic.now order.now e) }
{
    match Order::read(alloc, dictionary, order) {
        Ok(order) => of_logic(alloc, dictionary, logic, messages, &order),
        Err(error) => Err(BuildFault::from(error)),
    }
}

/// The image of logic for a dictionary, with its message file and its order file; a file that isn't there is an empty
/// text. What is given is the spelling, in version 2, of a program of the logic, which may run with the dictionary
/// (`image`), and does what the logic means (`means`). So does each program that a reader makes of these bytes.
///
/// The fault that is told is that of the message file, else of the order file, else of the logic as text, else of its
/// names and kinds, else of its program (`fault`, see [`BuildFault`]). So, where the two files are sound and the logic is
/// a source text that keeps each rule of names and kinds, it is refused by 64, 67 or 90 alone (`sound`).
pub fn build(
    alloc: Global,
    dictionary: &Dictionary,
    logic: &[u8],
    messages: &[u8],
    order: &[u8],
) -> Result<Vec<u8>, BuildFault>
    ensures image { IfOk result (λ v. IsBuilt dictionary.now logic.now messages.now order.now v.items) }
    ensures means { IfOk result (λ v. MeansLogic dictionary.now logic.now messages.now order.now v.items) }
    ensures fault { IfErr result (IsFault dictionary.now logic.now messages.now order.now) }
    ensures sound { AreSound dictionary.now logic.now messages.now order.now → IfErr result IsReason }
{
    dictionary.shape();
    programs_mean();
    none_begins_another();
    match Messages::read(alloc, messages) {
        Ok(messages) => with_messages(alloc, dictionary, logic, &messages, order),
        Err(error) => Err(BuildFault::from(error)),
    }
}
