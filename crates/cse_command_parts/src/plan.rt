//! What the words of a command line ask for.

ghost use Rattle.std.specs.Prelude.{◌≡◌, IfOk, codes, map, option_map};
ghost use Rattle.clap.specs.Words.{HasMatchesOf, found_of, rows_of, subcommand_rows_of};
ghost use Rattle.cse_command_parts.specs.Words.{AreRunPaths, IsAsked, IsCommandOf, IsEntered, IsFlag, IsGiven, MayBeGiven, MayBeNumber, program};

use crate::words::program_words;
use clap::error::ErrorKind;
use clap::{ArgMatches, Error};
use std::alloc::{AllocError, Global};

/// What the program is asked to do, with the paths that it is given.
#[derive(Clone, Copy)]
pub enum Command<'a> {
    /// `csbatch try IMAGE`: run an image's preproc.
    Try { image: &'a str },
    /// `csbatch verify DICT IMAGE`: tell whether an image may run with a dictionary.
    Verify { dict: &'a str, image: &'a str },
    /// `csbatch compile DICT LOGIC IMAGE [--messages F] [--order F]`: make an image of logic.
    Compile(CompilePaths<'a>),
    /// `csbatch run DICT IMAGE DATA OUT LIST FREQ [--decks F] [--case-steps N] [--sync] [--quiet]`: run an image over a
    /// data file.
    Run(RunPaths<'a>),
    /// `csbatch edit DICT LOGIC DATA OUT LIST FREQ [--messages F] [--order F]`, and the options of `run`: run logic over a
    /// data file.
    Edit(EditPaths<'a>),
    /// `csbatch --version`: tell the version.
    Version,
}

/// The files of `compile`.
#[derive(Clone, Copy)]
pub struct CompilePaths<'a> {
    pub dict: &'a str,
    pub logic: &'a str,
    pub image: &'a str,
    /// The messages that logic names by number.
    pub messages: Option<&'a str>,
    /// The records that come first in edit order.
    pub order: Option<&'a str>,
}

/// The files of `run`, and what is asked beside them.
#[derive(Clone, Copy)]
pub struct RunPaths<'a> {
    pub dict: &'a str,
    pub image: &'a str,
    pub data: &'a str,
    pub out: &'a str,
    pub list: &'a str,
    pub freq: &'a str,
    /// The hot decks that are kept between runs.
    pub decks: Option<&'a str>,
    /// How many steps a case may take, by the bound of the image.
    pub case_steps: Option<u64>,
    /// Whether the disk is to have the outputs before what was counted is told.
    pub sync: bool,
    /// Whether a terminal is not to be told how far the run is.
    pub quiet: bool,
}

/// The files of `edit`: those of `compile` and of `run`, with no image between.
#[derive(Clone, Copy)]
pub struct EditPaths<'a> {
    pub logic: &'a str,
    /// The messages that logic names by number.
    pub messages: Option<&'a str>,
    /// The records that come first in edit order.
    pub order: Option<&'a str>,
    /// The files of `run`. Where that has the image, here the logic stands.
    pub run: RunPaths<'a>,
}

/// Why there is no command.
#[derive(Clone, Copy)]
pub enum PlanFault {
    /// The words are no command.
    Usage,
    /// Want of memory.
    Memory,
}

impl From<AllocError> for PlanFault {
    fn from(_refused: AllocError) -> PlanFault {
        PlanFault::Memory
    }
}

impl From<Error> for PlanFault {
    fn from(error: Error) -> PlanFault {
        match error.kind() {
            ErrorKind::OutOfMemory => PlanFault::Memory,
            _ => PlanFault::Usage,
        }
    }
}

/// The command that the words after the program's name ask for. Every other answer of the library,
/// help too, is usage.
pub fn plan<'a>(alloc: Global, words: &'a [&'a str]) -> Result<Command<'a>, PlanFault>
    // Each path and option is the word that stands for it.
    ensures { IfOk result (IsAsked (map (λ word. word.now) words.entry.now)) }
{
    if let ["--version"] = words {
        return Ok(Command::Version);
    }
    let matches = matches_of(alloc, words)?;
    command_of(&matches)
}

/// What the library finds in the words.
fn matches_of<'a>(alloc: Global, words: &'a [&'a str]) -> Result<ArgMatches<'a>, PlanFault>
    ensures { IfOk result (HasMatchesOf program (map (λ word. word.now) words.entry.now)) }
{
    let program = program_words(alloc)?;
    Ok(program.try_get_matches_from(words)?)
}

/// The command that was found.
fn command_of<'a>(matches: &ArgMatches<'a>) -> Result<Command<'a>, PlanFault>
    ensures { IfOk result (IsEntered (subcommand_rows_of matches.now)) }
{
    match matches.subcommand() {
        Some((name, matches)) => command_named(name, matches),
        None => Err(PlanFault::Usage),
    }
}

/// The command of this name.
fn command_named<'a>(name: &str, matches: &ArgMatches<'a>) -> Result<Command<'a>, PlanFault>
    ensures { IfOk result (IsCommandOf (rows_of (found_of matches.now)) name.now) }
{
    match name {
        "try" => try_of(matches),
        "verify" => verify_of(matches),
        "compile" => compile_of(matches),
        "run" => run_of(matches),
        "edit" => edit_of(matches),
        _ => Err(PlanFault::Usage),
    }
}

/// A word that has to be given.
fn given<'a>(matches: &ArgMatches<'a>, name: &str) -> Result<&'a str, PlanFault>
    ensures { IfOk result (IsGiven (rows_of (found_of matches.now)) name.now) }
{
    match matches.get_str(name) {
        Some(word) => Ok(word),
        None => Err(PlanFault::Usage),
    }
}

/// A word that may be given.
fn may<'a>(matches: &ArgMatches<'a>, name: &str) -> Option<&'a str>
    ensures { MayBeGiven (rows_of (found_of matches.now)) name.now result }
{
    matches.get_str(name)
}

/// Whether a name is given.
fn is_given(matches: &ArgMatches<'_>, name: &str) -> bool
    ensures { IsFlag (rows_of (found_of matches.now)) name.now result }
{
    matches.get_flag(name)
}

/// The number that a word is, if there is one.
fn number_of(word: Option<&str>) -> Result<Option<u64>, PlanFault>
    ensures { IfOk result (MayBeNumber (option_map (λ w. w.now) word.entry)) }
{
    match word {
        Some(word) => match word.parse() {
            Ok(number) => Ok(Some(number)),
            Err(_) => Err(PlanFault::Usage),
        },
        None => Ok(None),
    }
}

/// `try`.
fn try_of<'a>(matches: &ArgMatches<'a>) -> Result<Command<'a>, PlanFault>
    ensures { IfOk result (IsCommandOf (rows_of (found_of matches.now)) (codes "try")) }
{
    let image = given(matches, "IMAGE")?;
    Ok(Command::Try { image })
}

/// `verify`.
fn verify_of<'a>(matches: &ArgMatches<'a>) -> Result<Command<'a>, PlanFault>
    ensures { IfOk result (IsCommandOf (rows_of (found_of matches.now)) (codes "verify")) }
{
    Ok(Command::Verify {
        dict: given(matches, "DICT")?,
        image: given(matches, "IMAGE")?,
    })
}

/// `compile`.
fn compile_of<'a>(matches: &ArgMatches<'a>) -> Result<Command<'a>, PlanFault>
    ensures { IfOk result (IsCommandOf (rows_of (found_of matches.now)) (codes "compile")) }
{
    Ok(Command::Compile(CompilePaths {
        dict: given(matches, "DICT")?,
        logic: given(matches, "LOGIC")?,
        image: given(matches, "IMAGE")?,
        messages: may(matches, "messages"),
        order: may(matches, "order"),
    }))
}

/// The files of `run` with this image, and what is asked beside them.
fn run_paths<'a>(matches: &ArgMatches<'a>, image: &'a str) -> Result<RunPaths<'a>, PlanFault>
    ensures image { IfOk result (λ paths. paths.image ≡ image.entry) }
    ensures rest { IfOk result (AreRunPaths (rows_of (found_of matches.now))) }
{
    let case_steps = may(matches, "case-steps");
    Ok(RunPaths {
        dict: given(matches, "DICT")?,
        image,
        data: given(matches, "DATA")?,
        out: given(matches, "OUT")?,
        list: given(matches, "LIST")?,
        freq: given(matches, "FREQ")?,
        decks: may(matches, "decks"),
        case_steps: number_of(case_steps)?,
        sync: is_given(matches, "sync"),
        quiet: is_given(matches, "quiet"),
    })
}

/// `run`.
fn run_of<'a>(matches: &ArgMatches<'a>) -> Result<Command<'a>, PlanFault>
    ensures { IfOk result (IsCommandOf (rows_of (found_of matches.now)) (codes "run")) }
{
    let image = given(matches, "IMAGE")?;
    Ok(Command::Run(run_paths(matches, image)?))
}

/// `edit`.
fn edit_of<'a>(matches: &ArgMatches<'a>) -> Result<Command<'a>, PlanFault>
    ensures { IfOk result (IsCommandOf (rows_of (found_of matches.now)) (codes "edit")) }
{
    let logic = given(matches, "LOGIC")?;
    Ok(Command::Edit(EditPaths {
        logic,
        messages: may(matches, "messages"),
        order: may(matches, "order"),
        run: run_paths(matches, logic)?,
    }))
}
