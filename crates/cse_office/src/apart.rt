//! Whether the files of a command are apart: none that is written is one of the others.

ghost use Rattle.std.specs.Prelude.{◌≡◌, ◌++◌, ◌<◌, ◌∷◌, [], IfErr, IfOk, OnOk, length, slice_index_or};
ghost use Rattle.cse_office.specs.Apart.{AreApart, AreOf, TellsOneFile, asked_of, done_with};
ghost use Rattle.cse_office.specs.Roles.{reads, uses, word_of, writes_named};
ghost use Rattle.cse_office.specs.declared.apart.Use.{Use};

use crate::stop::Stop;
use crate::words::{Asked, Command};
use cse_files::{Named, first_clash, place_of};
use std::alloc::{AllocError, Global};
use std::rt::Files;

/// What a file is to a command.
#[derive(Clone, Copy)]
pub(crate) enum Role {
    Dictionary,
    Data,
    Out,
    Listing,
    Frequencies,
    Rows,
    Page,
    Table,
}

impl Role {
    /// The word that the usage has for it.
    pub(crate) fn word(self) -> &'static str
        ensures { result.now ≡ word_of self }
    {
        match self {
            Role::Dictionary => "DICT",
            Role::Data => "DATA",
            Role::Out => "OUT",
            Role::Listing => "LIST",
            Role::Frequencies => "FREQ",
            Role::Rows => "--cases",
            Role::Page => "--html",
            Role::Table => "--csv",
        }
    }
}

/// A file of a command: what it is to it, its path, and whether it is written; else it is read.
#[derive(Clone, Copy)]
pub(crate) struct Use<'a> {
    pub role: Role,
    pub path: &'a str,
    pub is_written: bool,
}

/// Adds a file that is read.
fn push_read<'a>(uses: &mut Vec<Use<'a>>, role: Role, path: &'a str) -> Result<(), AllocError>
    ensures { OnOk result (uses.new.items ≡ uses.old.items ++ (reads role path.entry ∷ [])) }
{
    Ok(uses.push(Use {
        role,
        path,
        is_written: false,
    })?)
}

/// Adds a file that is written, if it is named.
fn push_written<'a>(
    uses: &mut Vec<Use<'a>>,
    role: Role,
    path: Option<&'a str>,
) -> Result<(), AllocError>
    ensures { OnOk result (uses.new.items ≡ uses.old.items ++ writes_named role path.entry) }
{
    match path {
        Some(path) => Ok(uses.push(Use {
            role,
            path,
            is_written: true,
        })?),
        None => Ok(()),
    }
}

/// The files of a command that writes files.
fn uses_of<'a>(
    alloc: Global,
    command: Command,
    asked: &Asked<'a>,
) -> Result<Vec<Use<'a>>, AllocError>
    ensures { IfOk result (λ list. list.items ≡ uses command asked.now) }
{
    let (second, third) = match command {
        Command::Diff => (Role::Data, Role::Out),
        Command::Report => (Role::Listing, Role::Frequencies),
        _ => return Ok(Vec::new(alloc)),
    };
    let mut uses = Vec::new(alloc);
    push_read(&mut uses, Role::Dictionary, asked.first)?;
    push_read(&mut uses, second, asked.second)?;
    push_read(&mut uses, third, asked.third)?;
    push_written(&mut uses, Role::Rows, asked.cases)?;
    push_written(&mut uses, Role::Page, asked.html)?;
    push_written(&mut uses, Role::Table, asked.csv)?;
    Ok(uses)
}

/// Sees that no file that a command writes is one of its others. Nothing is opened.
pub(crate) fn see_files_apart<R: Files + AllocGlobal>(
    rt: &R,
    command: Command,
    asked: &Asked<'_>,
) -> Result<(), Stop>
    ensures { OnOk result (AreApart (uses command asked.now)) }
{
    match uses_of(rt.alloc(), command, asked) {
        Ok(uses) => see_apart(rt, &uses),
        Err(_) => Err(Stop::of_memory()),
    }
}

/// Sees that no file that is written is one of the others. Nothing is opened.
fn see_apart<R: Files + AllocGlobal>(rt: &R, uses: &[Use<'_>]) -> Result<(), Stop>
    ensures apart { OnOk result (AreApart uses.now) }
    ensures one_file { IfErr result (TellsOneFile uses.now) }
{
    let Ok(files) = named_files(rt, uses) else {
        return Err(Stop::of_memory());
    };
    match first_clash(&files) {
        Some((earlier, later)) => Err(Stop::OneFile(role_at(uses, earlier), role_at(uses, later))),
        None => Ok(()),
    }
}

/// What the file at a place in the list is.
fn role_at(uses: &[Use<'_>], place: usize) -> Role
    requires { place < length uses.now }
    ensures { (d : Use) → (slice_index_or uses.now place d).role ≡ result }
{
    uses[place].role
}

/// The files, each with the place that its path leads to.
fn named_files<'a, R: Files + AllocGlobal>(
    rt: &R,
    uses: &[Use<'a>],
) -> Result<Vec<Named<'a>>, AllocError>
    ensures { IfOk result (λ files. AreOf uses.now files.items) }
{
    let mut files = Vec::new(rt.alloc());
    for used in uses {
        files.push(named(rt, used))?;
    }
    Ok(files)
}

/// A file with the place that its path leads to.
fn named<'a, R: Files>(rt: &R, used: &Use<'a>) -> Named<'a>
    ensures { done_with result ≡ asked_of used.now }
{
    Named {
        place: place_of(rt, used.path),
        is_read: !used.is_written,
        is_written: used.is_written,
        below_dev: used.path.as_bytes().starts_with(b"/dev/"),
    }
}
