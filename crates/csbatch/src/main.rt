//! The program `csbatch`. What its commands do stands in `cse_commands`; in `cse_check` what `check` and `explain` do, and in
//! `cse_office` what `diff`, `look`, `dict`, `report` and `show` do. All run over one runtime, which tells a terminal how far a
//! run is: with a second one, what is laid out where it is called would stand by itself.
#![tactic(auto)]

use cse_check::command::carry_out as carry_out_check;
use cse_command_parts::meter::{Meter, Told};
use cse_command_parts::watched::{watched_paths, words_if};
use cse_command_parts::watched_runtime::Watched;
use cse_commands::start::{USAGE, carry_out_and_tell};
use cse_office::command::carry_out as carry_out_office;
use cse_value::{Output, Writes};
use std::io::IsTerminal;
use std::process::ExitCode;
use std::rt::{Env, Files};

/// Does what the words ask for, tells what was not done, and answers the exit status.
fn carry_out<R: Env + Files + Print + AllocGlobal, W: Output>(rt: &R, errors: &mut W) -> u8 {
    if let Some(status) = carry_out_check(rt, USAGE, errors) {
        return status;
    }
    match carry_out_office(rt, USAGE, errors) {
        Some(status) => status,
        None => carry_out_and_tell(rt, errors),
    }
}

fn main(rt: HostRuntime) -> ExitCode {
    let words = words_if(&rt, rt.stderr().is_terminal());
    let named = watched_paths(rt.alloc(), &words);
    let paths = named.as_ref();
    let meter = Meter::new(rt.alloc(), rt, rt.stderr());
    let watched = Watched {
        rt: &rt,
        meter: &meter,
        paths,
    };
    let mut errors = Writes::new(Told { meter: &meter });
    ExitCode::from(carry_out(&watched, &mut errors))
}
