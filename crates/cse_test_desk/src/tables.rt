//! Tables of rows, carried out.

use crate::block::{Row, is_row};
use crate::cut::{before, behind, parts};
use crate::row::{Commands, is_right};
use std::fs;
use std::rt::Files;

/// The tables, a path a line.
const TABLES: &str = "rows/tables.txt";

/// What stands between two blocks.
const BLOCK: &str = "\n\n";

/// What stands before a block whose first line is a comment.
const PART: &str = "\n\n#";

/// Carries out the rows of all tables. In these `usage` stands for a text.
pub fn show_tables<R: Files + Print + AllocGlobal + Clone + Drop, C: Commands>(
    rt: &R,
    usage: &str,
    commands: &C,
) {
    if let Ok(paths) = fs::read_to_string(rt, TABLES) {
        show_paths(rt, &paths, usage, commands);
    }
}

/// Carries out the rows of tables with these paths, each with a line end.
fn show_paths<R: Files + Print + AllocGlobal + Clone + Drop, C: Commands>(
    rt: &R,
    paths: &str,
    usage: &str,
    commands: &C,
) {
    let mut rest = paths;
    for _ in 1..parts(paths, "\n") {
        show_table(rt, before(rest, "\n"), usage, commands);
        rest = behind(rest, "\n");
    }
}

/// Carries out the rows of a table, and prints how many are as they should be.
fn show_table<R: Files + Print + AllocGlobal + Clone + Drop, C: Commands>(
    rt: &R,
    path: &str,
    usage: &str,
    commands: &C,
) {
    let right = match fs::read_to_string(rt, path) {
        Ok(text) => right_rows(rt, &text, usage, commands),
        Err(_) => 0,
    };
    let _ = println!(rt; "{path}: {right} rows");
}

/// How many rows of a text are as they should be. It begins with what all of them share.
fn right_rows<R: Files + Print + AllocGlobal + Clone + Drop, C: Commands>(
    rt: &R,
    text: &str,
    usage: &str,
    commands: &C,
) -> usize {
    let mut row = Row::new(rt.alloc());
    if row.set_all(before(text, BLOCK), usage) {
        right_in(rt, &mut row, text, commands)
    } else {
        0
    }
}

/// How many rows of a text are as they should be, by what all share.
fn right_in<R: Files + Print + AllocGlobal + Clone + Drop, C: Commands>(
    rt: &R,
    row: &mut Row,
    text: &str,
    commands: &C,
) -> usize {
    let mut right = 0usize;
    let mut rest = text;
    for _ in 0..parts(text, PART) {
        right = right.saturating_add(right_below(rt, row, before(rest, PART), commands));
        rest = behind(rest, PART);
    }
    right
}

/// How many rows are as they should be of blocks of which the first says what the others share.
fn right_below<R: Files + Print + AllocGlobal + Clone + Drop, C: Commands>(
    rt: &R,
    row: &mut Row,
    blocks: &str,
    commands: &C,
) -> usize {
    if !row.set_part(before(blocks, BLOCK)) {
        return 0;
    }
    let mut right = 0usize;
    let mut rest = blocks;
    for _ in 1..parts(blocks, BLOCK) {
        rest = behind(rest, BLOCK);
        let well = is_well(rt, row, before(rest, BLOCK), commands);
        right = right.saturating_add(usize::from(well));
    }
    right
}

/// Whether a block is a row that is as it should be. Prints its first line where it isn't.
fn is_well<R: Files + Print + AllocGlobal + Clone + Drop, C: Commands>(
    rt: &R,
    row: &mut Row,
    own: &str,
    commands: &C,
) -> bool {
    let well = is_row(own) && row.has_words() && row.set_own(own) && is_right(rt, row, commands);
    if !well {
        tell_row(rt, own);
    }
    well
}

/// Prints that a row is not as it should be.
fn tell_row<R: Print>(rt: &R, own: &str) {
    let _ = println!(rt; "{}: not as it should be", before(own, "\n"));
}
