//! Files, and what is printed.

use crate::names::Names;
use crate::sheet::Sheet;
use crate::stop::Stop;
use crate::text::Text;
use crate::words::{Asked, Slot};
use cse_dict::Dictionary;
use cse_fault_numbers::{TOO_MANY, WRITE_FAILED};
use cse_files::{OpenedInput, WholeFile, open_input, read_whole, replace};
use cse_value::{Writes, write_all};
use std::alloc::Global;
use std::io::BufReader;
use std::rt::Files;
use std::{fs, io};

/// The most bytes of a dictionary.
const MOST_TEXT: u64 = 268_435_456;

/// A file that is read from its beginning: 72 where it can't be opened.
pub(crate) fn opened<'a, R: Files>(
    rt: &R,
    asked: &Asked<'a>,
    slot: Slot,
) -> Result<OpenedInput<'a, R::File>, Stop> {
    match open_input(rt, asked.path(slot)) {
        Ok(file) => Ok(file),
        Err(error) => Err(Stop::of_open(error.kind(), slot)),
    }
}

/// A file that is read line by line.
pub(crate) fn source_of<R: Files + AllocGlobal>(
    rt: &R,
    asked: &Asked<'_>,
    slot: Slot,
) -> Result<BufReader<R::File>, Stop> {
    let file = match fs::open(rt, asked.path(slot)) {
        Ok(file) => file,
        Err(error) => return Err(Stop::of_open(error.kind(), slot)),
    };
    match BufReader::new(rt.alloc(), file) {
        Ok(source) => Ok(source),
        Err(_) => Err(Stop::of_memory()),
    }
}

/// A file and its bytes, and one more than these at most: 72 where it can't be opened, 70 where a read fails.
pub(crate) fn bytes_of<'a, R: Files + AllocGlobal>(
    rt: &R,
    asked: &Asked<'a>,
    slot: Slot,
    most: u64,
) -> Result<WholeFile<'a, R::File>, Stop> {
    match read_whole(rt, asked.path(slot), most) {
        Ok(file) => Ok(file),
        Err(fault) => Err(Stop::of_read(fault, slot)),
    }
}

/// A file and all bytes of a dictionary: 17 where they are too many.
pub(crate) fn dict_text<'a, R: Files + AllocGlobal>(
    rt: &R,
    asked: &Asked<'a>,
    slot: Slot,
) -> Result<WholeFile<'a, R::File>, Stop> {
    let file = bytes_of(rt, asked, slot, MOST_TEXT)?;
    if file.bytes().len() as u64 > MOST_TEXT {
        return Err(Stop::of_file(TOO_MANY, slot));
    }
    Ok(file)
}

/// The dictionary of a text, which is this file.
pub(crate) fn dictionary_of(alloc: Global, text: &[u8], slot: Slot) -> Result<Dictionary, Stop> {
    match Dictionary::read(alloc, text) {
        Ok(dictionary) => Ok(dictionary),
        Err(error) => Err(Stop::at_line(error.number, error.line, slot)),
    }
}

/// The names and labels of a dictionary.
pub(crate) fn names_of<'d>(
    alloc: Global,
    dictionary: &'d Dictionary,
    text: &'d [u8],
) -> Result<Names<'d>, Stop> {
    match Names::read(alloc, dictionary, text) {
        Ok(names) => Ok(names),
        Err(_) => Err(Stop::of_memory()),
    }
}

/// A table that is written to a file from its beginning, if one is named for it: 72 where it can't be opened.
pub(crate) fn sheet_of<R: Files + AllocGlobal>(
    rt: &R,
    asked: &Asked<'_>,
    slot: Slot,
) -> Result<Sheet<Writes<R::File>>, Stop> {
    let Some(path) = asked.path_if(slot) else {
        return Ok(Sheet::new(rt.alloc(), None));
    };
    match fs::create(rt, path) {
        Ok(file) => Ok(Sheet::new(rt.alloc(), Some(Writes::new(file)))),
        Err(error) => Err(Stop::of_open(error.kind(), slot)),
    }
}

/// Why a table was not written, by its number, if it was not.
pub(crate) fn written(failure: Option<u8>, slot: Slot) -> Result<(), Stop> {
    match failure {
        Some(number) => Err(Stop::of_file(number, slot)),
        None => Ok(()),
    }
}

/// Makes a text the bytes of a file, if one is named for it. It is written whole or not at all.
pub(crate) fn write_text<R: Files + AllocGlobal>(
    rt: &R,
    asked: &Asked<'_>,
    slot: Slot,
    text: Text,
) -> Result<(), Stop> {
    let Some(path) = asked.path_if(slot) else {
        return Ok(());
    };
    let Ok(text) = text.finish() else {
        return Err(Stop::of_memory());
    };
    match replace(rt, path, text.as_bytes()) {
        Ok(_) => Ok(()),
        Err(fault) => Err(Stop::of_write(fault, slot)),
    }
}

/// Prints a text: 71 where standard output takes no more.
pub(crate) fn print_text<R: Print>(rt: &R, text: Text) -> Result<(), Stop> {
    let Ok(text) = text.finish() else {
        return Err(Stop::of_memory());
    };
    let mut out = Writes::new(io::writer(rt));
    match write_all(&mut out, text.as_bytes()) {
        Ok(()) => Ok(()),
        Err(_) => Err(Stop::of_number(WRITE_FAILED)),
    }
}
