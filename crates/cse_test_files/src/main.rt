//! What the commands do with files: rows of tables, each carried out from its words to its status in the folder in which the program runs.
//! The files that are opened, in their order, all files after it, what is printed, what is told and the status are
//! compared with those that the formats and the rules of the language say.
//!
//! The tables are texts in `data/rows`, in the form that `block` and `text` of `cse_test_desk` say. They are read when the program runs, so that a
//! row costs no proof. `data/rows/tables.txt` names them.
//!
//! The files of `data/sample`, `data/household` and `data/hello` are those of `examples`. Those of `data/wanted` were
//! derived from the rules, as those of the household sample were, but for `AGE.img`: as `HOUSEHOLD.img` it is what the
//! compiler gave, read field by field.
//!
//! `cse_test_desk` says what a row is, and how it is carried out by commands. Here are the commands. Before the rows come those of
//! `cse_test_checks`, which look at calls that no command makes.
#![tactic(auto)]

use cse_check::command::carry_out;
use cse_commands::start::{USAGE, carry_out_and_tell};
use cse_office::command::carry_out as look;
use cse_test_checks::show::show_parts;
use cse_test_desk::desk::Desk;
use cse_test_desk::row::Commands;
use cse_test_desk::tables::show_tables;
use cse_value::Output;
use std::rt::Files;

/// The commands of csbatch.
struct All;

impl Commands for All {
    fn carry_out<R: Files + AllocGlobal, W: Output>(
        &self,
        desk: &Desk<'_, R>,
        errors: &mut W,
    ) -> u8 {
        if let Some(status) = carry_out(desk, USAGE, errors) {
            return status;
        }
        match look(desk, USAGE, errors) {
            Some(status) => status,
            None => carry_out_and_tell(desk, errors),
        }
    }
}

fn main(rt: HostRuntime) {
    show_parts(&rt);
    show_tables(&rt, USAGE, &All);
}
