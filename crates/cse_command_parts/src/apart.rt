//! Whether the files of a command are apart: none that is written is one of the others.

ghost use Rattle.std.specs.Prelude.{◌≡◌, ◌++◌, ◌<◌, IfErr, IfOk, OnOk, length, slice_index_or};
ghost use Rattle.cse_command_parts.specs.Apart.{AreApart, AreOf, TellsOneFile, asked_of, done_with};
ghost use Rattle.cse_command_parts.specs.declared.role.Use.{Use};
ghost use Rattle.cse_command_parts.specs.Roles.{compile_uses, edit_uses, edited_uses, reads_named, run_uses};

use crate::outcome::Stop;
use crate::plan::{CompilePaths, EditPaths, RunPaths};
use crate::role::{Role, Use};
use cse_fault_numbers::WANT_OF_MEMORY;
use cse_files::{Named, first_clash, place_of};
use std::alloc::{AllocError, Global};
use std::rt::Files;

/// The files of `compile`.
pub fn uses_of_compile<'a>(
    alloc: Global,
    paths: &CompilePaths<'a>,
) -> Result<Vec<Use<'a>>, AllocError>
    ensures { IfOk result (λ uses. uses.items ≡ compile_uses paths.now) }
{
    let mut uses = Vec::new(alloc);
    uses.push(Use::read(Role::Dictionary, paths.dict))?;
    uses.push(Use::read(Role::Logic, paths.logic))?;
    uses.push(Use::written(Role::Image, paths.image))?;
    push_named(&mut uses, Role::Messages, paths.messages)?;
    push_named(&mut uses, Role::Order, paths.order)?;
    Ok(uses)
}

/// The files of `run`.
pub fn uses_of_run<'a>(alloc: Global, paths: &RunPaths<'a>) -> Result<Vec<Use<'a>>, AllocError>
    ensures { IfOk result (λ uses. uses.items ≡ run_uses paths.now) }
{
    let mut uses = Vec::new(alloc);
    uses.push(Use::read(Role::Dictionary, paths.dict))?;
    uses.push(Use::read(Role::Image, paths.image))?;
    push_edited(&mut uses, paths)?;
    Ok(uses)
}

/// The files of `edit`.
pub fn uses_of_edit<'a>(alloc: Global, paths: &EditPaths<'a>) -> Result<Vec<Use<'a>>, AllocError>
    ensures { IfOk result (λ uses. uses.items ≡ edit_uses paths.now) }
{
    let mut uses = Vec::new(alloc);
    uses.push(Use::read(Role::Dictionary, paths.run.dict))?;
    uses.push(Use::read(Role::Logic, paths.logic))?;
    push_edited(&mut uses, &paths.run)?;
    push_named(&mut uses, Role::Messages, paths.messages)?;
    push_named(&mut uses, Role::Order, paths.order)?;
    Ok(uses)
}

/// The data file, the outputs and the deck file.
fn push_edited<'a>(uses: &mut Vec<Use<'a>>, paths: &RunPaths<'a>) -> Result<(), AllocError>
    ensures { OnOk result (uses.new.items ≡ uses.old.items ++ edited_uses paths.now) }
{
    uses.push(Use::read(Role::Data, paths.data))?;
    uses.push(Use::written(Role::Out, paths.out))?;
    uses.push(Use::written(Role::Listing, paths.list))?;
    uses.push(Use::written(Role::Frequencies, paths.freq))?;
    if let Some(path) = paths.decks {
        uses.push(Use {
            is_written: true,
            ..Use::read(Role::Decks, path)
        })?;
    }
    Ok(())
}

/// A file that is read, if it is named.
fn push_named<'a>(
    uses: &mut Vec<Use<'a>>,
    role: Role,
    path: Option<&'a str>,
) -> Result<(), AllocError>
    ensures { OnOk result (uses.new.items ≡ uses.old.items ++ reads_named role path.entry) }
{
    match path {
        Some(path) => Ok(uses.push(Use::read(role, path))?),
        None => Ok(()),
    }
}

/// Sees that no file that is written is one of the others. Nothing is opened.
pub fn see_apart<R: Files + AllocGlobal>(rt: &R, uses: &[Use<'_>]) -> Result<(), Stop>
    ensures apart { OnOk result (AreApart uses.now) }
    ensures one_file { IfErr result (TellsOneFile uses.now) }
{
    let Ok(files) = named_files(rt, uses) else {
        return Err(Stop::of_number(WANT_OF_MEMORY));
    };
    match first_clash(&files) {
        Some((earlier, later)) => Err(Stop::OneFile(role_at(uses, earlier), role_at(uses, later))),
        None => Ok(()),
    }
}

/// What the file at a place in the list is.
fn role_at(uses: &[Use<'_>], place: usize) -> Role
    requires { place < length uses.now }
    ensures { (d : Use) → (slice_index_or uses.now place d).role ≡ result }
{
    uses[place].role
}

/// The files, each with the place that its path leads to.
fn named_files<'a, R: Files + AllocGlobal>(
    rt: &R,
    uses: &[Use<'a>],
) -> Result<Vec<Named<'a>>, AllocError>
    ensures { IfOk result (λ files. AreOf uses.now files.items) }
{
    let mut files = Vec::new(rt.alloc());
    for used in uses {
        files.push(named(rt, used))?;
    }
    Ok(files)
}

/// A file with the place that its path leads to.
fn named<'a, R: Files>(rt: &R, used: &Use<'a>) -> Named<'a>
    ensures { done_with result ≡ asked_of used.now }
{
    Named {
        place: place_of(rt, used.path),
        is_read: used.is_read,
        is_written: used.is_written,
        below_dev: used.path.as_bytes().starts_with(b"/dev/"),
    }
}
