//! What is done for the words of a command line, and the exit status.

ghost use Rattle.std.specs.Prelude.{◌≡◌, ◌≤◌, IfNone, IfOk, IfSome};
ghost use Rattle.cse_office.specs.Apart.{AreApart};
ghost use Rattle.cse_office.specs.Roles.{uses};

use crate::apart::see_files_apart;
use crate::diff::diff_files;
use crate::files::{dict_text, dictionary_of, names_of, print_text};
use crate::names::Names;
use crate::others::{look_files, report_files, show_files};
use crate::put_dict;
use crate::stop::{Stop, tell, tell_memory, tell_usage};
use crate::text::Text;
use crate::words::{Asked, Command, Slot, asked_of, command_of};
use cse_value::Output;
use std::io::ErrorKind;
use std::rt::{Env, Files};
use std::{env, io};

/// The status of work that is done: 0.
fn done(outcome: Result<(), Stop>) -> Result<u8, Stop>
    ensures { IfOk result (λ status. status ≤ 1) }
{
    match outcome {
        Ok(()) => Ok(0),
        Err(stop) => Err(stop),
    }
}

/// A command, with the names of its dictionary.
fn with_names<R: Files + Print + AllocGlobal>(
    rt: &R,
    command: Command,
    asked: &Asked<'_>,
    names: &Names<'_>,
) -> Result<u8, Stop>
    requires apart { AreApart (uses command asked.now) }
    ensures { IfOk result (λ status. status ≤ 1) }
{
    match command {
        Command::Diff => done(diff_files(rt, asked, names)),
        Command::Look => look_files(rt, asked, names),
        Command::Report => done(report_files(rt, asked, names)),
        Command::Dict | Command::Show => {
            let mut text = Text::new(rt.alloc());
            put_dict(&mut text, names);
            done(print_text(rt, text))
        }
    }
}

/// A command whose dictionary stands first.
fn with_dictionary<R: Files + Print + AllocGlobal>(
    rt: &R,
    command: Command,
    asked: &Asked<'_>,
) -> Result<u8, Stop>
    requires apart { AreApart (uses command asked.now) }
    ensures { IfOk result (λ status. status ≤ 1) }
{
    let text = dict_text(rt, asked, Slot::First)?;
    let dictionary = dictionary_of(rt.alloc(), text.bytes(), Slot::First)?;
    let names = names_of(rt.alloc(), &dictionary, text.bytes())?;
    with_names(rt, command, asked, &names)
}

/// A command.
fn carried_out<R: Files + Print + AllocGlobal>(
    rt: &R,
    command: Command,
    asked: &Asked<'_>,
) -> Result<u8, Stop>
    ensures { IfOk result (λ status. status ≤ 1) }
{
    see_files_apart(rt, command, asked)?;
    match command {
        Command::Show => done(show_files(rt, asked)),
        _ => with_dictionary(rt, command, asked),
    }
}

/// Does what the words ask for, if the first is one of these commands. Answers the status.
fn carry_out_words<R: Files + Print + AllocGlobal, W: Output>(
    rt: &R,
    words: &[String],
    usage: &str,
    errors: &mut W,
) -> Option<u8>
    ensures status { IfSome result (λ status. status ≤ 3) }
    ensures nothing { IfNone result (W.taken errors.new ≡ W.taken errors.old) }
{
    let [first, rest @ ..] = words else {
        return None;
    };
    let Some(command) = command_of(first.as_str()) else {
        return None;
    };
    let Some(asked) = asked_of(command, rest) else {
        return Some(tell_usage(usage, errors));
    };
    Some(match carried_out(rt, command, &asked) {
        Ok(status) => status,
        Err(stop) => tell(stop, &asked, errors),
    })
}

/// The words after the program's name.
fn words_given<R: Env + AllocGlobal>(rt: &R) -> io::Result<Vec<String>> {
    let mut words = Vec::new(rt.alloc());
    for word in env::args(rt)?.skip(1) {
        words.push(word)?;
    }
    Ok(words)
}

/// Does what the words ask for, if the first is one of these commands, and answers the exit status, 3 at most. Else nothing is
/// done or told, and none is answered; but where memory lacks for the words, that is told (90), whatever they ask for.
pub fn carry_out<R: Env + Files + Print + AllocGlobal, W: Output>(
    rt: &R,
    usage: &str,
    errors: &mut W,
) -> Option<u8>
    ensures status { IfSome result (λ status. status ≤ 3) }
    ensures nothing { IfNone result (W.taken errors.new ≡ W.taken errors.old) }
{
    match words_given(rt) {
        Ok(words) => carry_out_words(rt, &words, usage, errors),
        Err(error) if error.kind() == ErrorKind::OutOfMemory => Some(tell_memory(errors)),
        Err(_) => None,
    }
}
