//! The words of all commands, as the library of command lines takes them.

ghost use Rattle.std.specs.Prelude.{◌≡◌, IfOk, false};
ghost use Rattle.std.specs.List.{fold};
ghost use Rattle.clap.specs.Words.{new_app, rule_of};
ghost use Rattle.cse_command_parts.specs.Words.{AreWords, bare, program, rule_of_word, with_row, with_word};

use clap::{Arg, ArgAction, Command as Clap};
use std::alloc::{AllocError, Global};

/// A word of a command.
#[derive(Clone, Copy)]
pub(crate) enum Word<'a> {
    /// It has to be given.
    Given(&'a str),
    /// It may be given after its name.
    Named(&'a str),
    /// It is a name that may be given.
    Flag(&'a str),
}

/// The commands by their names, each with its words in their order.
const COMMANDS: [(&str, &[Word<'static>]); 5] = [
    // `try IMAGE`.
    ("try", &[Word::Given("IMAGE")]),
    // `verify DICT IMAGE`.
    ("verify", &[Word::Given("DICT"), Word::Given("IMAGE")]),
    // `compile DICT LOGIC IMAGE [--messages F] [--order F]`.
    (
        "compile",
        &[
            Word::Given("DICT"),
            Word::Given("LOGIC"),
            Word::Given("IMAGE"),
            Word::Named("messages"),
            Word::Named("order"),
        ],
    ),
    // `run DICT IMAGE DATA OUT LIST FREQ [--decks F] [--case-steps N] [--sync] [--quiet]`.
    (
        "run",
        &[
            Word::Given("DICT"),
            Word::Given("IMAGE"),
            Word::Given("DATA"),
            Word::Given("OUT"),
            Word::Given("LIST"),
            Word::Given("FREQ"),
            Word::Named("decks"),
            Word::Named("case-steps"),
            Word::Flag("sync"),
            Word::Flag("quiet"),
        ],
    ),
    // `edit DICT LOGIC DATA OUT LIST FREQ [--messages F] [--order F]`, and the options of `run`.
    (
        "edit",
        &[
            Word::Given("DICT"),
            Word::Given("LOGIC"),
            Word::Given("DATA"),
            Word::Given("OUT"),
            Word::Given("LIST"),
            Word::Given("FREQ"),
            Word::Named("messages"),
            Word::Named("order"),
            Word::Named("decks"),
            Word::Named("case-steps"),
            Word::Flag("sync"),
            Word::Flag("quiet"),
        ],
    ),
];

/// The words of all commands.
pub(crate) fn program_words<'a>(alloc: Global) -> Result<Clap<'a>, AllocError>
    ensures { IfOk result (AreWords program) }
{
    commands_of(alloc, &COMMANDS)
}

/// The words of these commands.
fn commands_of<'a>(
    alloc: Global,
    commands: &[(&'a str, &'a [Word<'a>])],
) -> Result<Clap<'a>, AllocError>
    ensures { IfOk result (AreWords (fold with_row bare commands.now)) }
{
    let mut program = Clap::new(alloc, "csbatch").no_binary_name(true);
    for &(name, words) in commands {
        let command = words_of(alloc, name, words)?;
        let added = program.subcommand(command)?;
        program = added;
    }
    Ok(program)
}

/// The words of a command, in their order.
fn words_of<'a>(alloc: Global, name: &'a str, words: &[Word<'a>]) -> Result<Clap<'a>, AllocError>
    ensures { IfOk result (AreWords (fold with_word (new_app name.now) words.now)) }
{
    let mut command = Clap::new(alloc, name);
    for word in words {
        let added = command.arg(arg_of(alloc, *word))?;
        command = added;
    }
    Ok(command)
}

/// A word as an argument.
fn arg_of<'a>(alloc: Global, word: Word<'a>) -> Arg<'a>
    ensures rule { rule_of result ≡ rule_of_word word.entry }
    ensures local { result.global ≡ false }
{
    match word {
        Word::Given(name) => Arg::new(alloc, name).required(true).action(ArgAction::Set),
        Word::Named(name) => Arg::new(alloc, name).long(name).action(ArgAction::Set),
        Word::Flag(name) => Arg::new(alloc, name).long(name).action(ArgAction::SetTrue),
    }
}
