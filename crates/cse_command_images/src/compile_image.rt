//! `compile`: logic to an image, from the files of its words to that of the image.

ghost use Rattle.std.specs.Prelude.{IfOk, IfErr};
ghost use Rattle.cse_meaning.specs.Build.{IsBuilt};
ghost use Rattle.cse_meaning.specs.BuiltMeant.{MeansLogic};
ghost use Rattle.cse_command_parts.specs.Told.{told_by};
ghost use Rattle.cse_command_images.specs.Compiled.{AreCompilePaths, CompilesFiles};
ghost use Rattle.cse_command_images.specs.CompileHalts.{StopsCompile, TellsBuildFault};

use crate::compiled::CompiledFiles;
use cse_command_parts::apart::{see_apart, uses_of_compile};
use cse_command_parts::fault::Fault;
use cse_command_parts::files::{text_of, write_file};
use cse_command_parts::outcome::Stop;
use cse_command_parts::plan::CompilePaths;
use cse_command_parts::texts::{dict_file, logic_files};
use cse_dict::Dictionary;
use cse_meaning::build;
use cse_value::{Input, Output, Reads, Writes};
use std::alloc::Global;
use std::rt::Files;

/// Makes an image of logic for a dictionary, and answers each file that was opened.
///
/// No file is opened unless the image is apart from the others. The dictionary is read and checked; then logic, the
/// messages and the edit order are read, one after the other, and checked. The image is written where there is one, whole
/// or not at all. Faults are those of the dictionary (10 to 18); of the messages (30, 35), the order (40) and the logic
/// (30 to 35, 40 to 49, 64, 67); 70 to 72 of files and devices; and want of memory (90).
pub fn compile_files<'a, R: Files + AllocGlobal>(
    rt: &R,
    paths: &CompilePaths<'a>,
) -> Result<CompiledFiles<'a, R::File>, Stop>
    // Each file was opened by its path.
    ensures paths { IfOk result (AreCompilePaths paths.now) }
    // The image's file took the image that is built of what the files of the texts gave.
    ensures compiles { IfOk result (CompilesFiles (told_by (⟦<Reads<R::File> as Input>⟧.given)
        (⟦<Writes<R::File> as Output>⟧.taken) (⟦<Writes<R::File> as Output>⟧.has_failed))) }
    // Why there is no image: two files are one; or, in order, the first file that was not read, not accepted or not written.
    ensures stops { IfErr result (StopsCompile (⟦<Reads<R::File> as Input>⟧.given) paths.now) }
{
    see_apart(rt, &uses_of_compile(rt.alloc(), paths)?)?;
    let vetted = dict_file(rt, paths.dict)?;
    let texts = logic_files(rt, paths.logic, paths.messages, paths.order)?;
    let bytes = image_of(
        rt.alloc(),
        &vetted.dictionary,
        texts.logic.bytes(),
        text_of(&texts.messages),
        text_of(&texts.order),
    )?;
    let image = write_file(rt, paths.image, &bytes)?;
    let (logic, messages, order) = texts.into_parts();
    Ok(CompiledFiles {
        dict: vetted.into_file(),
        logic,
        messages,
        order,
        image,
        len: bytes.len(),
    })
}

/// The image of these texts. A refusal tells the fault of `build`, with its line and column.
pub fn image_of(
    alloc: Global,
    dictionary: &Dictionary,
    logic: &[u8],
    messages: &[u8],
    order: &[u8],
) -> Result<Vec<u8>, Stop>
    // The image is that of the logic, with these messages and this edit order.
    ensures built { IfOk result (λ image. IsBuilt dictionary.now logic.now messages.now order.now image.items) }
    // Each program that the image stands for does what the logic means.
    ensures means { IfOk result (λ image. MeansLogic dictionary.now logic.now messages.now order.now image.items) }
    // Why there is none.
    ensures refused { IfErr result (TellsBuildFault dictionary.now logic.now messages.now order.now) }
{
    match build(alloc, dictionary, logic, messages, order) {
        Ok(image) => Ok(image),
        Err(fault) => Err(Stop::Refused(Fault::in_text(fault.number, fault.line, fault.column))),
    }
}
