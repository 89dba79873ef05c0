//! `diff`: what a run changed, from the files of its words to what it prints.

ghost use Rattle.cse_office.specs.Apart.{AreApart};
ghost use Rattle.cse_office.specs.Roles.{uses};
ghost use Rattle.cse_office.specs.declared.words.Command.TheVariants.{Diff as DiffCommand};

use crate::files::{opened, print_text, sheet_of, write_text, written};
use crate::names::Names;
use crate::stop::Stop;
use crate::text::Text;
use crate::words::{Asked, Slot};
use crate::{
    Area, CompareFault, Diff, SeenFault, Watching, compare_watched, put_diff, put_page, put_sheet,
};
use cse_dict::Dictionary;
use cse_fault_numbers::UNKNOWN_NAME;
use cse_value::Input;
use cse_value::shape::ID_OWNER;
use std::alloc::Global;
use std::rt::Files;

/// The number of a line of OUT that is no pair of the line of DATA beside it.
const APART: u8 = 23;

/// The id item of a name.
fn id_item(dictionary: &Dictionary, name: &str) -> Option<usize> {
    let Some(number) = dictionary.find_item(name) else {
        return None;
    };
    let number = number as usize;
    match dictionary.shape().items.get(number) {
        Some(item) if item.owner == ID_OWNER => Some(number),
        _ => None,
    }
}

/// Adds the id items of names with commas between them: 40 where a name is none's.
fn add_id_items(items: &mut Vec<usize>, dictionary: &Dictionary, by: &str) -> Result<(), Stop> {
    for name in by.split(',') {
        let Some(number) = id_item(dictionary, name) else {
            return Err(Stop::of_number(UNKNOWN_NAME));
        };
        if items.push(number).is_err() {
            return Err(Stop::of_memory());
        }
    }
    Ok(())
}

/// The id items of names, if there are some.
fn id_items(alloc: Global, dictionary: &Dictionary, by: Option<&str>) -> Result<Vec<usize>, Stop> {
    let mut items = Vec::new(alloc);
    let Some(by) = by else {
        return Ok(items);
    };
    match add_id_items(&mut items, dictionary, by) {
        Ok(()) => Ok(items),
        Err(stop) => Err(stop),
    }
}

/// Why a comparison stopped, with the file.
fn stop_of(fault: SeenFault<u8>) -> Stop {
    match fault {
        SeenFault::Seen(number) => Stop::of_file(number, Slot::Cases),
        SeenFault::Compare(CompareFault::Data(error)) => {
            Stop::at_line(error.number, error.line, Slot::Second)
        }
        SeenFault::Compare(CompareFault::Out(error)) => {
            Stop::at_line(error.number, error.line, Slot::Third)
        }
        SeenFault::Compare(CompareFault::Apart { line }) => {
            Stop::at_line(APART, line, Slot::Third)
        }
        SeenFault::Compare(CompareFault::Memory) => Stop::of_memory(),
    }
}

/// Why a comparison, or the rows of its changes, did not come to the end.
fn ended(outcome: Result<(), SeenFault<u8>>, failure: Option<u8>) -> Result<(), Stop> {
    match outcome {
        Ok(()) => written(failure, Slot::Cases),
        Err(fault) => Err(stop_of(fault)),
    }
}

/// Compares what was read with what was written, and writes each change as a row, if these are asked for.
fn compared_with<'n, R: Files + AllocGlobal, D: Input, O: Input>(
    rt: &R,
    asked: &Asked<'_>,
    names: &Names<'n>,
    diff: Diff<'n>,
    data: &mut D,
    out: &mut O,
) -> Result<Diff<'n>, Stop> {
    let rows = match sheet_of(rt, asked, Slot::Cases) {
        Ok(rows) => rows,
        Err(stop) => return Err(stop),
    };
    let mut watching = Watching::new(rt.alloc(), names, diff, rows);
    let outcome = compare_watched(rt.alloc(), names.dictionary, data, out, &mut watching);
    let (diff, failure) = watching.finish();
    match ended(outcome, failure) {
        Ok(()) => Ok(diff),
        Err(stop) => Err(stop),
    }
}

/// Compares the files, whose areas are told apart by these id items.
fn compared<'n, R: Files + AllocGlobal>(
    rt: &R,
    asked: &Asked<'_>,
    names: &Names<'n>,
    by: Vec<usize>,
) -> Result<Diff<'n>, Stop> {
    let mut data = opened(rt, asked, Slot::Second)?;
    let mut out = opened(rt, asked, Slot::Third)?;
    let shape = names.dictionary.shape();
    match Diff::new(rt.alloc(), shape, by, asked.html.is_some()) {
        Ok(diff) => compared_with(rt, asked, names, diff, &mut data.device, &mut out.device),
        Err(_) => Err(Stop::of_memory()),
    }
}

/// Writes what was changed as a page, if one is asked for.
fn write_page<'v, R: Files + AllocGlobal>(
    rt: &R,
    asked: &Asked<'_>,
    names: &Names<'v>,
    diff: &Diff<'_>,
    kinds: &[(u64, u64, &'v [u8])],
    areas: &'v [Area],
) -> Result<(), Stop> {
    let mut page = Text::new(rt.alloc());
    if asked.html.is_some() {
        put_page(&mut page, rt.alloc(), names, diff, kinds, areas);
    }
    write_text(rt, asked, Slot::Page, page)
}

/// Writes it as a table, if one is asked for.
fn write_table<'v, R: Files + AllocGlobal>(
    rt: &R,
    asked: &Asked<'_>,
    names: &Names<'v>,
    diff: &Diff<'_>,
    areas: &'v [Area],
) -> Result<(), Stop> {
    let mut sheet = sheet_of(rt, asked, Slot::Table)?;
    if asked.csv.is_some() {
        put_sheet(&mut sheet, names, diff, areas);
    }
    written(sheet.finish(), Slot::Table)
}

/// Tells what was changed: the page, the table, and what is printed.
fn tell_changes<'v, R: Files + Print + AllocGlobal>(
    rt: &R,
    asked: &Asked<'_>,
    names: &Names<'v>,
    diff: &Diff<'_>,
    kinds: &[(u64, u64, &'v [u8])],
    areas: &'v [Area],
) -> Result<(), Stop> {
    write_page(rt, asked, names, diff, kinds, areas)?;
    write_table(rt, asked, names, diff, areas)?;
    let mut text = Text::new(rt.alloc());
    put_diff(&mut text, names, diff, kinds, areas);
    print_text(rt, text)
}

/// Tells what was changed.
fn tell_diff<R: Files + Print + AllocGlobal>(
    rt: &R,
    asked: &Asked<'_>,
    names: &Names<'_>,
    diff: &Diff<'_>,
) -> Result<(), Stop> {
    let Ok(kinds) = diff.kinds() else {
        return Err(Stop::of_memory());
    };
    let Ok(areas) = diff.areas(names) else {
        return Err(Stop::of_memory());
    };
    tell_changes(rt, asked, &*names, diff, &kinds, &areas)
}

/// `diff`, where no file that is written is one of the others.
pub(crate) fn diff_files<R: Files + Print + AllocGlobal>(
    rt: &R,
    asked: &Asked<'_>,
    names: &Names<'_>,
) -> Result<(), Stop>
    requires apart { AreApart (uses DiffCommand asked.now) }
{
    let by = id_items(rt.alloc(), names.dictionary, asked.by)?;
    match compared(rt, asked, names, by) {
        Ok(diff) => tell_diff(rt, asked, names, &diff),
        Err(stop) => Err(stop),
    }
}
