//! `look`, `report` and `show`, from the files of their words to what they print.

ghost use Rattle.std.specs.Prelude.{◌≤◌, IfOk};
ghost use Rattle.cse_office.specs.Apart.{AreApart};
ghost use Rattle.cse_office.specs.Roles.{uses};
ghost use Rattle.cse_office.specs.declared.words.Command.TheVariants.{Report as ReportCommand};

use crate::files::{
    bytes_of, dict_text, dictionary_of, names_of, opened, print_text, sheet_of, source_of,
    write_text, written,
};
use crate::names::Names;
use crate::stop::Stop;
use crate::text::Text;
use crate::words::{Asked, Slot};
use crate::{
    Look, NO_FREQUENCIES, NO_LISTING, Report, look_at, put_image, put_look, put_report,
    put_report_page, put_report_sheet,
};
use cse_image::{Program, read_image};
use std::rt::Files;

/// The most bytes of an image.
const MOST_IMAGE: u64 = 156_358_936;

/// Prints what a data file is. The status is 1 where no line is seen or ids come back.
fn tell_look<R: Print + AllocGlobal>(rt: &R, names: &Names<'_>, look: &Look) -> Result<u8, Stop>
    ensures { IfOk result (λ status. status ≤ 1) }
{
    let mut text = Text::new(rt.alloc());
    put_look(&mut text, names, look);
    match print_text(rt, text) {
        Ok(()) => Ok(u8::from(look.is_amiss())),
        Err(stop) => Err(stop),
    }
}

/// `look`.
pub(crate) fn look_files<R: Files + Print + AllocGlobal>(
    rt: &R,
    asked: &Asked<'_>,
    names: &Names<'_>,
) -> Result<u8, Stop>
    ensures { IfOk result (λ status. status ≤ 1) }
{
    let mut input = opened(rt, asked, Slot::Second)?;
    match look_at(rt.alloc(), names, &mut input.device) {
        Ok(look) => tell_look(rt, names, &look),
        Err(error) => Err(Stop::at_line(error.number, error.line, Slot::Second)),
    }
}

/// Reads a listing or frequencies, by the number of a line of another form.
fn read<R: Files + AllocGlobal>(
    rt: &R,
    report: &mut Report,
    asked: &Asked<'_>,
    slot: Slot,
    form: u8,
) -> Result<(), Stop> {
    let source = source_of(rt, asked, slot)?;
    match report.read(source, form) {
        Ok(()) => Ok(()),
        Err(trouble) => Err(Stop::at_line(trouble.number, trouble.line, slot)),
    }
}

/// Reads the listing and the frequencies.
fn read_both<R: Files + AllocGlobal>(
    rt: &R,
    report: &mut Report,
    asked: &Asked<'_>,
) -> Result<(), Stop> {
    read(rt, report, asked, Slot::Second, NO_LISTING)?;
    read(rt, report, asked, Slot::Third, NO_FREQUENCIES)
}

/// Writes what the outputs of a run tell as a page, if one is asked for.
fn write_page<R: Files + AllocGlobal>(
    rt: &R,
    asked: &Asked<'_>,
    names: &Names<'_>,
    report: &Report,
) -> Result<(), Stop> {
    let mut page = Text::new(rt.alloc());
    if asked.html.is_some() {
        put_report_page(&mut page, &*names, report);
    }
    write_text(rt, asked, Slot::Page, page)
}

/// Writes it as a table, if one is asked for.
fn write_table<R: Files + AllocGlobal>(
    rt: &R,
    asked: &Asked<'_>,
    names: &Names<'_>,
    report: &Report,
) -> Result<(), Stop> {
    let mut sheet = sheet_of(rt, asked, Slot::Table)?;
    if asked.csv.is_some() {
        put_report_sheet(&mut sheet, &*names, report);
    }
    written(sheet.finish(), Slot::Table)
}

/// Prints it.
fn print_report<R: Print + AllocGlobal>(
    rt: &R,
    names: &Names<'_>,
    report: &Report,
) -> Result<(), Stop> {
    let mut text = Text::new(rt.alloc());
    put_report(&mut text, &*names, report);
    print_text(rt, text)
}

/// Tells what the outputs of a run tell: the page, the table, and what is printed.
fn tell_report<R: Files + Print + AllocGlobal>(
    rt: &R,
    asked: &Asked<'_>,
    names: &Names<'_>,
    report: &Report,
) -> Result<(), Stop> {
    write_page(rt, asked, names, report)?;
    write_table(rt, asked, names, report)?;
    print_report(rt, names, report)
}

/// `report`, where no file that is written is one of the others.
pub(crate) fn report_files<R: Files + Print + AllocGlobal>(
    rt: &R,
    asked: &Asked<'_>,
    names: &Names<'_>,
) -> Result<(), Stop>
    requires apart { AreApart (uses ReportCommand asked.now) }
{
    let mut report = Report::new(rt.alloc());
    match read_both(rt, &mut report, asked) {
        Ok(()) => tell_report(rt, asked, names, &report),
        Err(stop) => Err(stop),
    }
}

/// The program of an image.
fn program_of<R: Files + AllocGlobal>(rt: &R, asked: &Asked<'_>) -> Result<Program, Stop> {
    let file = bytes_of(rt, asked, Slot::First, MOST_IMAGE)?;
    match read_image(rt.alloc(), file.bytes()) {
        Ok(program) => Ok(program),
        Err(error) => Err(Stop::at_byte(error.number, error.at as u64, Slot::First)),
    }
}

/// Prints a program, with the names of a dictionary if there is one.
fn print_image<R: Print + AllocGlobal>(
    rt: &R,
    program: &Program,
    names: Option<&Names<'_>>,
) -> Result<(), Stop> {
    let mut text = Text::new(rt.alloc());
    put_image(&mut text, rt.alloc(), program, names);
    print_text(rt, text)
}

/// Prints a program with the names of a dictionary.
fn print_with<R: Print + AllocGlobal>(
    rt: &R,
    program: &Program,
    names: &Names<'_>,
) -> Result<(), Stop> {
    print_image(rt, program, Some(names))
}

/// `show` with a dictionary.
fn show_with<R: Files + Print + AllocGlobal>(
    rt: &R,
    program: &Program,
    asked: &Asked<'_>,
) -> Result<(), Stop> {
    let text = dict_text(rt, asked, Slot::Second)?;
    let dictionary = dictionary_of(rt.alloc(), text.bytes(), Slot::Second)?;
    let names = names_of(rt.alloc(), &dictionary, text.bytes())?;
    print_with(rt, program, &names)
}

/// `show`.
pub(crate) fn show_files<R: Files + Print + AllocGlobal>(
    rt: &R,
    asked: &Asked<'_>,
) -> Result<(), Stop> {
    let program = program_of(rt, asked)?;
    if asked.count < 2 {
        return print_image(rt, &program, None);
    }
    show_with(rt, &program, asked)
}
