//! A row is carried out: commands over the files of the folder in which the program runs, and what they come to.

use crate::amiss::{Amiss, amiss_of};
use crate::block::{AMISS, FILES, MADE, OPENED, PRINTED, Row, STATUS, TOLD, WORDS, path_of};
use crate::cut::{before, behind, parts};
use crate::desk::{Desk, Notes};
use crate::text::{put, put_lines, put_text};
use cse_value::{Output, Writes};
use std::cell::RefCell;
use std::fs;
use std::rt::Files;

/// What carries out the commands of rows.
pub trait Commands {
    /// Does what the words of a desk ask for, tells what was not done, and answers the exit status.
    fn carry_out<R: Files + AllocGlobal, W: Output>(
        &self,
        desk: &Desk<'_, R>,
        errors: &mut W,
    ) -> u8;
}

/// Carries out the commands of a row, and answers whether all is as it should be. Prints what is not.
pub fn is_right<R: Files + Print + AllocGlobal + Clone + Drop, C: Commands>(
    rt: &R,
    row: &Row,
    commands: &C,
) -> bool {
    let count = files_in(rt);
    let well = match amiss_of(rt.alloc(), row.of(AMISS)) {
        Some(amiss) => {
            lay_out(rt, row) && amiss.tie(rt) && is_carried_out(rt, row, &amiss, commands)
        }
        None => false,
    };
    let well = has_its_files(rt, row, count) && well;
    clear(rt, row);
    well
}

/// Prints what is not as it should be, and what it is. Answers that it isn't.
fn tell<R: Print>(rt: &R, row: &Row, what: &str, found: &[u8]) -> bool {
    let _ = println!(rt; "{}: {what} is not as it should be", row.name());
    let _ = rt.write_all(found);
    let _ = rt.write_all(b"\n");
    false
}

/// Puts the bytes of a text or of a stored file.
fn put_named<R: Files + AllocGlobal>(rt: &R, row: &Row, name: &str, into: &mut Vec<u8>) -> bool {
    match row.text(name) {
        Some(text) => put_text(into, text),
        None => put_file(rt, name, into),
    }
}

/// Puts the bytes of a file of a row: those of texts and stored files, with `+` between them.
fn put_bytes<R: Files + AllocGlobal>(rt: &R, row: &Row, stored: &str, into: &mut Vec<u8>) -> bool {
    let mut well = true;
    let mut rest = stored;
    for _ in 0..parts(stored, "+") {
        well &= put_named(rt, row, before(rest, "+"), into);
        rest = behind(rest, "+");
    }
    well
}

/// Puts the bytes of a stored file.
fn put_file<R: Files + AllocGlobal>(rt: &R, path: &str, into: &mut Vec<u8>) -> bool {
    match fs::read(rt, path) {
        Ok(bytes) => into.extend_from_slice(&bytes).is_ok(),
        Err(_) => false,
    }
}

/// Makes a file.
fn make<R: Files + AllocGlobal>(rt: &R, row: &Row, file: &str) -> bool {
    let mut bytes = Vec::new(rt.alloc());
    put_bytes(rt, row, row.stored(file), &mut bytes)
        && fs::write(rt, path_of(file), bytes.as_slice()).is_ok()
}

/// Makes the files of a row.
fn lay_out<R: Files + Print + AllocGlobal>(rt: &R, row: &Row) -> bool {
    let mut well = true;
    for place in 0..row.count(FILES) {
        let file = row.file(FILES, place);
        well &= make(rt, row, file) || tell(rt, row, path_of(file), b"");
    }
    well
}

/// Carries out a command, and answers its status.
fn carry_out<R: Files + AllocGlobal, C: Commands>(
    rt: &R,
    words: &str,
    amiss: &Amiss,
    notes: &Notes,
    errors: &mut Writes<Vec<u8>>,
    commands: &C,
) -> u8 {
    let desk = Desk {
        files: rt,
        alloc: rt.alloc(),
        words,
        amiss,
        notes,
    };
    commands.carry_out(&desk, errors)
}

/// Carries out commands, a line each, and answers the greatest status.
fn carry_out_all<R: Files + AllocGlobal, C: Commands>(
    rt: &R,
    lines: &str,
    amiss: &Amiss,
    notes: &Notes,
    errors: &mut Writes<Vec<u8>>,
    commands: &C,
) -> u8 {
    let mut status = 0u8;
    let mut rest = lines;
    for _ in 0..parts(lines, "\n") {
        let words = before(rest, "\n");
        status = status.max(carry_out(rt, words, amiss, notes, errors, commands));
        rest = behind(rest, "\n");
    }
    status
}

/// Carries out the commands, and answers whether the files were opened in their order, and the lines and the status are the row's.
fn is_carried_out<R: Files + Print + AllocGlobal, C: Commands>(
    rt: &R,
    row: &Row,
    amiss: &Amiss,
    commands: &C,
) -> bool {
    let notes = Notes {
        opened: RefCell::new(Vec::new(rt.alloc())),
        printed: RefCell::new(Vec::new(rt.alloc())),
    };
    let mut errors = Writes::new(Vec::new(rt.alloc()));
    let status = carry_out_all(rt, row.of(WORDS), amiss, &notes, &mut errors, commands);
    let is_noted = is_opened(rt, row, &notes) & is_printed(rt, row, &notes);
    let is_told = is_said(rt, row, TOLD, "told", &errors.into_inner());
    is_noted & is_told & has_status(rt, row, status)
}

/// Whether this status is the row's.
fn has_status<R: Print>(rt: &R, row: &Row, status: u8) -> bool {
    row.of(STATUS).parse::<u8>() == Ok(status)
        || tell(rt, row, "status", &[b'0'.saturating_add(status)])
}

/// Whether the files that were opened, each behind a blank, are the row's.
fn is_opened_as<R: Print>(rt: &R, row: &Row, opened: &[u8]) -> bool {
    opened.trim_ascii_start() == row.of(OPENED).as_bytes() || tell(rt, row, "opened", opened)
}

/// Whether the files that were opened are the row's.
fn is_opened<R: Print>(rt: &R, row: &Row, notes: &Notes) -> bool {
    match notes.opened.try_borrow() {
        Ok(opened) => is_opened_as(rt, row, &opened),
        Err(_) => false,
    }
}

/// Whether what was printed is the row's.
fn is_printed<R: Print + AllocGlobal>(rt: &R, row: &Row, notes: &Notes) -> bool {
    match notes.printed.try_borrow() {
        Ok(printed) => is_said(rt, row, PRINTED, "printed", &printed),
        Err(_) => false,
    }
}

/// Puts what a row says behind a word, or by the text of this name.
fn put_said(row: &Row, word: &str, name: &str, into: &mut Vec<u8>) -> bool {
    if let Some(text) = row.own_text(name) {
        return put_text(into, text);
    }
    match row.of(word) {
        "usage" => put(into, row.usage()),
        lines => put_lines(into, lines),
    }
}

/// Whether bytes are what the row says.
fn is_said<R: Print + AllocGlobal>(
    rt: &R,
    row: &Row,
    word: &str,
    name: &str,
    found: &[u8],
) -> bool {
    let mut wanted = Vec::new(rt.alloc());
    put_said(row, word, name, &mut wanted) && wanted.as_slice() == found
        || tell(rt, row, name, found)
}

/// Whether a file of a row is made anew.
fn is_made(row: &Row, path: &str) -> bool {
    for place in 0..row.count(MADE) {
        if path_of(row.file(MADE, place)) == path {
            return true;
        }
    }
    false
}

/// Whether a file has its bytes.
fn has_bytes<R: Files + AllocGlobal>(rt: &R, row: &Row, file: &str) -> bool {
    let mut wanted = Vec::new(rt.alloc());
    let mut found = Vec::new(rt.alloc());
    put_bytes(rt, row, row.stored(file), &mut wanted)
        && put_file(rt, path_of(file), &mut found)
        && found.as_slice() == wanted.as_slice()
}

/// Whether a file is as it should be.
fn is_file<R: Files + Print + AllocGlobal>(rt: &R, row: &Row, file: &str) -> bool {
    has_bytes(rt, row, file) || tell_file(rt, row, path_of(file))
}

/// Prints a file that is not as it should be.
fn tell_file<R: Files + Print + AllocGlobal>(rt: &R, row: &Row, path: &str) -> bool {
    let mut found = Vec::new(rt.alloc());
    let _ = put_file(rt, path, &mut found);
    tell(rt, row, path, &found)
}

/// How many files and folders there are.
fn files_in<R: Files + AllocGlobal + Clone + Drop>(rt: &R) -> usize {
    match fs::read_dir(rt, ".") {
        Ok(entries) => entries.count(),
        Err(_) => 0,
    }
}

/// Whether the files that a row makes are as they should be.
fn are_made<R: Files + Print + AllocGlobal>(rt: &R, row: &Row) -> bool {
    let mut well = true;
    for place in 0..row.count(MADE) {
        well &= is_file(rt, row, row.file(MADE, place));
    }
    well
}

/// Whether the files that a row leaves are as they should be.
fn are_left<R: Files + Print + AllocGlobal>(rt: &R, row: &Row) -> bool {
    let mut well = true;
    for place in 0..row.count(FILES) {
        let file = row.file(FILES, place);
        well &= is_made(row, path_of(file)) || is_file(rt, row, file);
    }
    well
}

/// How many files there are that a row makes or leaves.
fn count_files(row: &Row) -> usize {
    let mut count = row.count(MADE);
    for place in 0..row.count(FILES) {
        let is_left = !is_made(row, path_of(row.file(FILES, place)));
        count = count.saturating_add(usize::from(is_left));
    }
    count
}

/// Whether the folder has the files that it should have, and no other beside those that were there before.
fn has_its_files<R: Files + Print + AllocGlobal + Clone + Drop>(
    rt: &R,
    row: &Row,
    others: usize,
) -> bool {
    are_made(rt, row)
        && are_left(rt, row)
        && files_in(rt) == others.saturating_add(count_files(row))
}

/// Removes the files behind a word.
fn clear_behind<R: Files>(rt: &R, row: &Row, word: &str) {
    for place in 0..row.count(word) {
        let _ = fs::remove_file(rt, path_of(row.file(word, place)));
    }
}

/// Removes the files of a row.
fn clear<R: Files>(rt: &R, row: &Row) {
    clear_behind(rt, row, MADE);
    clear_behind(rt, row, FILES);
}
