//! One call of the reader, over its parts.

ghost use Rattle.std.specs.Prelude.{◌≡◌, ◌≢◌, ◌≤◌, ◌+◌, ◌<◌, ◌^◌, ◌⊎◌, true, length, Some, IfErr, IfOk, OnErr, OnOk};
ghost use Rattle.cse_value.specs.Device.{IsAtEnd, FailsOnce, IsUnfailing};
ghost use Rattle.cse_case.specs.Decoding.{IfFault};
ghost use Rattle.cse_case.specs.NamedColumns.{layout_of};
ghost use Rattle.cse_case.specs.Reader.{Next, given_lines};
ghost use Rattle.cse_case.specs.Refusing.{IsReadError, IsRefusal};
ghost use Rattle.cse_case.specs.Resting.{IsLayoutOf, IsResting, TakesRest, reader_of};
ghost use Rattle.cse_case.specs.RunReading.{ReadsMore};

use crate::buffer::{Buffer, ReadFault};
use crate::decode::LineStop;
use crate::error::DataError;
use crate::gather::gather;
use crate::layout::Layout;
use crate::run::{Lines, Run, keep_lines};
use cse_dict::Dictionary;
use cse_fault_numbers::{READ_FAILED, WANT_OF_MEMORY};
use cse_value::Input;
use std::alloc::{AllocError, Global};
use std::mem;

/// The most reads that give bytes.
pub const MOST_READS: u64 = 1 << 40;

/// The error of this number without a line.
fn error(number: u8) -> DataError
    ensures number { result.number ≡ number }
    ensures line { result.line ≡ 0 }
{
    DataError { number, line: 0 }
}

/// What is left of a run at the end of the file, if it has a line.
fn take_rest(alloc: Global, run: &mut Run) -> Option<Run>
    requires { run.old.first_line + length run.old.lines < 2 ^ 64 }
    ensures { TakesRest run.old run.new result }
{
    let len = run.len();
    if len == 0 {
        return None;
    }
    let next = Run::new(alloc, run.first_line() + len as u64);
    Some(mem::replace(run, next))
}

/// Why a line behind so many given ones and so many of the run isn't taken.
fn refusal(stop: LineStop, lines: u64, len: u64) -> DataError
    requires { IfFault (λ number. lines + len + 1 < 2 ^ 64) stop }
    ensures { IsRefusal lines len stop result }
{
    match stop {
        LineStop::Memory => error(WANT_OF_MEMORY),
        LineStop::Fault(number) => DataError {
            number,
            line: lines + len + 1,
        },
    }
}

/// Reads once more behind what is held, unless so many reads gave bytes as may.
fn read_more<R: Input>(
    alloc: Global,
    input: &mut R,
    buffer: &mut Buffer,
    reads: u64,
) -> Result<usize, DataError>
    ensures more { IfOk result (λ n. ReadsMore (R.given input.old) (R.given input.new) buffer.old buffer.new n) }
    ensures few { OnOk result (reads ≡ 2 ^ 40 → ⊥) }
    ensures err { IfErr result (IsReadError (R.given input.old) (R.given input.new) reads) }
    ensures works { OnOk result (IsUnfailing (R.given input.old) (R.given input.new)) }
{
    if reads == MOST_READS {
        return Err(error(READ_FAILED));
    }
    match buffer.read_from(alloc, input) {
        Ok(n) => Ok(n),
        Err(ReadFault::Device) => Err(error(READ_FAILED)),
        Err(ReadFault::Memory) => Err(error(WANT_OF_MEMORY)),
    }
}

/// The next run of what is held and read. It reads where these have no answer, and only there it ends in
/// 70.
fn next_run<R: Input>(
    alloc: Global,
    dictionary: &Dictionary,
    layout: &Layout,
    input: &mut R,
    run: &mut Run,
    room: &mut Option<Box<Lines>>,
    read: &mut Box<Lines>,
    buffer: &mut Buffer,
    ended: &mut bool,
    reads: &mut u64,
    lines: u64,
) -> Result<Option<Run>, DataError>
    requires layout { layout.now ≡ layout_of dictionary.now }
    requires rests { IsResting (reader_of dictionary.now run.old buffer.old ended.old reads.old lines) }
    requires end { ended.old ≡ true → IsAtEnd (R.given input.old) }
    ensures next { Next (R.given input.old) (R.given input.new) (reader_of dictionary.now run.old buffer.old ended.old reads.old lines)
        (reader_of dictionary.now run.new buffer.new ended.new reads.new (lines + length (given_lines result))) result }
    ensures rests { OnOk result (IsResting (reader_of dictionary.now run.new buffer.new ended.new reads.new (lines + length (given_lines result)))) }
    ensures few_reads { reads.new ≤ 2 ^ 40 }
    ensures end { ended.new ≡ true → IsAtEnd (R.given input.new) }
    ensures failed { IfErr result (λ error. error.number ≡ 70 → FailsOnce (R.given input.old) (R.given input.new) ⊎ (reads.new ≡ 2 ^ 40)) }
    ensures works { OnOk result (IsUnfailing (R.given input.old) (R.given input.new)) }
    ensures sound { IfErr result (λ error. error.number ≢ 70 → IsUnfailing (R.given input.old) (R.given input.new)) }
{
    'reads: loop {
        match gather(
            alloc,
            dictionary,
            layout,
            run,
            room,
            read,
            buffer,
            lines == 0,
            *ended,
        ) {
            Ok(Some(given)) => return Ok(Some(given)),
            Ok(None) if *ended => return Ok(take_rest(alloc, run)),
            Ok(None) => {}
            Err(stop) => return Err(refusal(stop, lines, run.len() as u64)),
        }
        match read_more(alloc, input, buffer, *reads) {
            Ok(0) => *ended = true,
            Ok(_) => *reads += 1,
            Err(failure) => return Err(failure),
        }
    }
}

/// Reads the layout of the dictionary, where none is kept.
fn keep_layout(
    alloc: Global,
    dictionary: &Dictionary,
    kept: &mut Option<Layout>,
) -> Result<(), AllocError>
    requires { IsLayoutOf dictionary.now kept.old }
    ensures ok { OnOk result (kept.new ≡ Some (layout_of dictionary.now)) }
    ensures err { OnErr result (kept.new ≡ kept.old) }
{
    match kept {
        Some(_) => {}
        None => *kept = Some(Layout::read(alloc, dictionary)?),
    }
    Ok(())
}

/// The next run of what is held and read. The layout is read in the first call.
pub fn next_by_layout<R: Input>(
    alloc: Global,
    dictionary: &Dictionary,
    layout: &mut Option<Layout>,
    input: &mut R,
    run: &mut Run,
    room: &mut Option<Box<Lines>>,
    read: &mut Option<Box<Lines>>,
    buffer: &mut Buffer,
    ended: &mut bool,
    reads: &mut u64,
    lines: u64,
) -> Result<Option<Run>, DataError>
    requires layout { IsLayoutOf dictionary.now layout.old }
    requires rests { IsResting (reader_of dictionary.now run.old buffer.old ended.old reads.old lines) }
    requires end { ended.old ≡ true → IsAtEnd (R.given input.old) }
    ensures layout { IsLayoutOf dictionary.now layout.new }
    ensures next { Next (R.given input.old) (R.given input.new) (reader_of dictionary.now run.old buffer.old ended.old reads.old lines)
        (reader_of dictionary.now run.new buffer.new ended.new reads.new (lines + length (given_lines result))) result }
    ensures rests { OnOk result (IsResting (reader_of dictionary.now run.new buffer.new ended.new reads.new (lines + length (given_lines result)))) }
    ensures few_reads { reads.new ≤ 2 ^ 40 }
    ensures end { ended.new ≡ true → IsAtEnd (R.given input.new) }
    ensures failed { IfErr result (λ error. error.number ≡ 70 → FailsOnce (R.given input.old) (R.given input.new) ⊎ (reads.new ≡ 2 ^ 40)) }
    ensures works { OnOk result (IsUnfailing (R.given input.old) (R.given input.new)) }
    ensures sound { IfErr result (λ error. error.number ≢ 70 → IsUnfailing (R.given input.old) (R.given input.new)) }
{
    let Ok(()) = keep_layout(alloc, dictionary, layout) else {
        return Err(error(WANT_OF_MEMORY));
    };
    let Some(known) = layout else {
        unreachable!();
    };
    let Ok(()) = keep_lines(alloc, read) else {
        return Err(error(WANT_OF_MEMORY));
    };
    let Some(read) = read else {
        unreachable!();
    };
    next_run(
        alloc, dictionary, known, input, run, room, read, buffer, ended, reads, lines,
    )
}
