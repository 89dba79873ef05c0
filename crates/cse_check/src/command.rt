//! `csbatch check` and `csbatch explain`: what their words ask for, their files and their statuses.

ghost use Rattle.std.specs.Prelude.{◌≡◌, ◌≤◌, IfNone, IfOk, IfSome};

use crate::report::{File, Files, Report, report_of};
use crate::said::section_of;
use crate::words::{CheckWords, check_words};
use cse_files::{ReadFault, open_input, read_all};
use cse_value::{Input, Output, Writes, write_all};
use itoa::Buffer;
use std::alloc::Global;
use std::env;
use std::io::{self, ErrorKind};
use std::rt::{Env, Files as Opens};

/// The most bytes of a file.
const MOST_TEXT: u64 = 268_435_456;

/// What is told where memory lacks for the words, so that it isn't known what they ask for.
const NO_MEMORY: &[u8] = b"refused 90\n";

/// A file of `check`.
#[derive(Clone, Copy)]
enum Which {
    Dictionary,
    Logic,
    Messages,
    Order,
}

/// Why a command has not printed all.
#[derive(Clone, Copy)]
enum Stop {
    /// The words are no command.
    Usage,
    /// A file was not read.
    NotRead(Which, ReadFault),
    /// A file has more bytes than are read.
    TooLong(Which),
    /// Standard output took no more.
    NotWritten,
    /// Want of memory.
    Memory,
}

/// What stops a command where a file can't be opened.
fn not_opened(file: Which, kind: ErrorKind) -> Stop {
    match kind {
        ErrorKind::OutOfMemory => Stop::Memory,
        _ => Stop::NotRead(file, ReadFault::NotOpened),
    }
}

/// What stops it where one can't be read.
fn not_read(file: Which, fault: ReadFault) -> Stop {
    match fault {
        ReadFault::Memory => Stop::Memory,
        fault => Stop::NotRead(file, fault),
    }
}

/// The bytes that a file gives.
fn bytes_given<I: Input>(alloc: Global, file: Which, input: &mut I) -> Result<Vec<u8>, Stop> {
    match read_all(alloc, input, MOST_TEXT) {
        Ok(bytes) if bytes.len() as u64 > MOST_TEXT => Err(Stop::TooLong(file)),
        Ok(bytes) => Ok(bytes),
        Err(fault) => Err(not_read(file, fault)),
    }
}

/// The bytes of a file.
fn bytes_of<R: Opens + AllocGlobal>(rt: &R, file: Which, path: &str) -> Result<Vec<u8>, Stop> {
    match open_input(rt, path) {
        Ok(mut input) => bytes_given(rt.alloc(), file, &mut input.device),
        Err(error) => Err(not_opened(file, error.kind())),
    }
}

/// The path of a file, if it is named.
fn path_of<'a>(words: &CheckWords<'a>, file: Which) -> Option<&'a str> {
    match file {
        Which::Dictionary => Some(words.dict),
        Which::Logic => Some(words.logic),
        Which::Messages => words.messages,
        Which::Order => words.order,
    }
}

/// The bytes of a file, none of one that isn't named.
fn bytes_if<R: Opens + AllocGlobal>(
    rt: &R,
    words: &CheckWords<'_>,
    file: Which,
) -> Result<Vec<u8>, Stop> {
    match path_of(words, file) {
        Some(path) => bytes_of(rt, file, path),
        None => Ok(Vec::new(rt.alloc())),
    }
}

/// Adds the bytes of a file.
fn add_bytes<R: Opens + AllocGlobal>(
    rt: &R,
    words: &CheckWords<'_>,
    file: Which,
    all: &mut Vec<Vec<u8>>,
) -> Result<(), Stop> {
    match bytes_if(rt, words, file) {
        Ok(bytes) => match all.push(bytes) {
            Ok(()) => Ok(()),
            Err(_) => Err(Stop::Memory),
        },
        Err(stop) => Err(stop),
    }
}

/// Adds the bytes of the files.
fn add_all_bytes<R: Opens + AllocGlobal>(
    rt: &R,
    words: &CheckWords<'_>,
    all: &mut Vec<Vec<u8>>,
) -> Result<(), Stop> {
    add_bytes(rt, words, Which::Dictionary, all)?;
    add_bytes(rt, words, Which::Logic, all)?;
    add_bytes(rt, words, Which::Messages, all)?;
    add_bytes(rt, words, Which::Order, all)
}

/// A file that may be named, with its bytes.
fn file_if<'a>(path: Option<&'a str>, bytes: &'a [u8]) -> Option<File<'a>> {
    match path {
        Some(path) => Some(File { path, bytes }),
        None => None,
    }
}

/// All faults of files that have these bytes.
fn report_bytes(alloc: Global, words: &CheckWords<'_>, all: &[Vec<u8>]) -> Result<Report, Stop> {
    let [dict, logic, messages, order] = all else {
        return Err(Stop::Memory);
    };
    let files = Files {
        dict: File {
            path: words.dict,
            bytes: dict,
        },
        logic: File {
            path: words.logic,
            bytes: logic,
        },
        messages: file_if(words.messages, messages),
        order: file_if(words.order, order),
        has_warnings: words.has_warnings,
    };
    Ok(report_of(alloc, &files, words.is_json))
}

/// All faults of the files.
fn report_files<R: Opens + AllocGlobal>(rt: &R, words: &CheckWords<'_>) -> Result<Report, Stop> {
    let mut all = Vec::new(rt.alloc());
    match add_all_bytes(rt, words, &mut all) {
        Ok(()) => report_bytes(rt.alloc(), words, &all),
        Err(stop) => Err(stop),
    }
}

/// Prints bytes.
fn print<R: Print>(rt: &R, bytes: &[u8]) -> Result<(), Stop> {
    let mut out = Writes::new(io::writer(rt));
    match write_all(&mut out, bytes) {
        Ok(()) => Ok(()),
        Err(_) => Err(Stop::NotWritten),
    }
}

/// Prints bytes, and answers this status.
fn print_with<R: Print>(rt: &R, bytes: &[u8], status: u8) -> Result<u8, Stop>
    ensures { IfOk result (λ answer. answer ≡ status) }
{
    match print(rt, bytes) {
        Ok(()) => Ok(status),
        Err(stop) => Err(stop),
    }
}

/// Prints what a report has, and answers the status.
fn print_report<R: Print>(rt: &R, report: Report) -> Result<u8, Stop>
    ensures { IfOk result (λ status. status ≤ 1) }
{
    let Report {
        printed,
        faults,
        warnings: _,
    } = report;
    let status = if faults == 0 { 0 } else { 1 };
    match printed.finish() {
        Ok(bytes) => print_with(rt, &bytes, status),
        Err(_) => Err(Stop::Memory),
    }
}

/// Prints all faults of the files. Answers the status.
fn print_files<R: Opens + Print + AllocGlobal>(rt: &R, words: &CheckWords<'_>) -> Result<u8, Stop>
    ensures { IfOk result (λ status. status ≤ 1) }
{
    match report_files(rt, words) {
        Ok(report) => print_report(rt, report),
        Err(stop) => Err(stop),
    }
}

/// Prints what is known of a number. Answers the status.
fn print_number<R: Print>(rt: &R, words: &[String]) -> Result<u8, Stop>
    ensures { IfOk result (λ status. status ≤ 1) }
{
    let [word] = words else {
        return Err(Stop::Usage);
    };
    let Ok(number) = word.as_str().parse::<u8>() else {
        return Err(Stop::Usage);
    };
    let mut buffer = Buffer::new();
    let section = section_of(buffer.format(number).as_bytes());
    if section.is_empty() {
        print_with(rt, b"no fault has this number\n", 1)
    } else {
        print_with(rt, section, 0)
    }
}

/// Why a file was not read.
fn reason(fault: ReadFault) -> &'static [u8] {
    match fault {
        ReadFault::NotOpened => b"error[72]: can't open ",
        ReadFault::NotRead => b"error[70]: can't read ",
        ReadFault::Memory => b"error[90]: not enough memory for ",
    }
}

/// What is told of a command that has not printed all, before the path.
fn told(stop: Stop, usage: &str) -> &[u8] {
    match stop {
        Stop::Usage => usage.as_bytes(),
        Stop::NotRead(_, fault) => reason(fault),
        Stop::TooLong(_) => b"error[64]: more than 268435456 bytes in ",
        Stop::NotWritten => b"error[71]: standard output takes no more",
        Stop::Memory => b"error[90]: not enough memory",
    }
}

/// The path of the file that stopped `check`; none where it was another cause.
fn path_told<'a>(stop: Stop, words: &CheckWords<'a>) -> &'a str {
    match stop {
        Stop::NotRead(file, _) | Stop::TooLong(file) => path_of(words, file).unwrap_or(""),
        Stop::Usage | Stop::NotWritten | Stop::Memory => "",
    }
}

/// The status of a command that has not printed all.
fn status_of(stop: Stop) -> u8
    ensures { result ≤ 3 }
{
    match stop {
        Stop::Usage => 2,
        Stop::TooLong(_) => 1,
        Stop::NotRead(_, _) | Stop::NotWritten | Stop::Memory => 3,
    }
}

/// Tells why a command has not printed all, and of which file. Answers the status.
fn tell<W: Output>(stop: Stop, path: &str, usage: &str, errors: &mut W) -> u8
    ensures { result ≤ 3 }
{
    let status = status_of(stop);
    let end: &[u8] = if status == 2 { b"" } else { b"\n" };
    let _ = write_all(errors, told(stop, usage));
    let _ = write_all(errors, path.as_bytes());
    let _ = write_all(errors, end);
    status
}

/// `check`. Answers the status.
fn check<R: Opens + Print + AllocGlobal, W: Output>(
    rt: &R,
    words: &[String],
    usage: &str,
    errors: &mut W,
) -> u8
    ensures { result ≤ 3 }
{
    let Some(words) = check_words(words) else {
        return tell(Stop::Usage, "", usage, errors);
    };
    match print_files(rt, &words) {
        Ok(status) => status,
        Err(stop) => tell(stop, path_told(stop, &words), usage, errors),
    }
}

/// `explain`. Answers the status.
fn explain<R: Print, W: Output>(rt: &R, words: &[String], usage: &str, errors: &mut W) -> u8
    ensures { result ≤ 3 }
{
    match print_number(rt, words) {
        Ok(status) => status,
        Err(stop) => tell(stop, "", usage, errors),
    }
}

/// Does what the words behind the program's name ask for, if the first is `check` or `explain`. Answers the status.
fn carry_out_words<R: Opens + Print + AllocGlobal, W: Output>(
    rt: &R,
    words: &[String],
    usage: &str,
    errors: &mut W,
) -> Option<u8>
    ensures status { IfSome result (λ status. status ≤ 3) }
    ensures nothing { IfNone result (W.taken errors.new ≡ W.taken errors.old) }
{
    let [_, first, rest @ ..] = words else {
        return None;
    };
    match first.as_str() {
        "check" => Some(check(rt, rest, usage, errors)),
        "explain" => Some(explain(rt, rest, usage, errors)),
        _ => None,
    }
}

/// The program's name, and the words after it.
fn words_given<R: Env + AllocGlobal>(rt: &R) -> io::Result<Vec<String>> {
    match env::args(rt) {
        Ok(words) => match words.collect(rt.alloc()) {
            Ok(words) => Ok(words),
            Err(refused) => Err(io::Error::from(refused)),
        },
        Err(error) => Err(error),
    }
}

/// Does what the words ask for, if the first is `check` or `explain`, and answers the exit status, 3 at most. Else nothing is done
/// or told, and none is answered; but where memory lacks for the words, that is told (90), whatever they ask for. Other words
/// behind these are told by the usage.
pub fn carry_out<R: Env + Opens + Print + AllocGlobal, W: Output>(
    rt: &R,
    usage: &str,
    errors: &mut W,
) -> Option<u8>
    ensures status { IfSome result (λ status. status ≤ 3) }
    ensures nothing { IfNone result (W.taken errors.new ≡ W.taken errors.old) }
{
    match words_given(rt) {
        Ok(words) => carry_out_words(rt, &words, usage, errors),
        Err(error) if error.kind() == ErrorKind::OutOfMemory => {
            let _ = write_all(errors, NO_MEMORY);
            Some(3)
        }
        Err(_) => None,
    }
}
