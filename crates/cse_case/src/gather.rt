//! The lines that are there, cut and gathered into a run.

ghost use Rattle.std.specs.Prelude.{◌≡◌, ◌==◌, ◌&&◌, ◌+◌, ◌<◌, ◌≤◌, ◌^◌, length, IfErr, IfOk, OnOk};
ghost use Rattle.cse_case.specs.Alike.{GoesOnFrom};
ghost use Rattle.cse_case.specs.Decoding.{IfFault};
ghost use Rattle.cse_case.specs.NamedColumns.{layout_of};
ghost use Rattle.cse_case.specs.Gathering.{Gathered};
ghost use Rattle.cse_case.specs.Taking.{Cuts, RefusesAt};

use crate::buffer::Buffer;
use crate::cut::first_line;
use crate::decode::LineStop;
use crate::layout::Layout;
use crate::run::{Lines, Run};
use crate::take::{end_run, take_line};
use cse_dict::Dictionary;
use std::alloc::{AllocError, Global};

/// Whether the next line stands at the front of the file.
fn is_front(first: bool, run: &Run) -> bool
    ensures { result ≡ (first && (length run.now.lines == 0)) }
{
    first && run.len() == 0
}

/// Cuts the lines that are like the last one of the run, which they follow.
fn take_alike(layout: &Layout, run: &mut Run, buffer: &mut Buffer) -> Result<(), AllocError>
    ensures more { OnOk result (GoesOnFrom layout.now.least_width run.old buffer.old run.new buffer.new) }
    ensures shorter { OnOk result (length buffer.new ≤ length buffer.old) }
{
    let alike = run.push_alike(layout.least_width(), buffer.as_slice())?;
    buffer.drop_front(alike);
    Ok(())
}

/// Cuts the lines that are there, until the run is whole. Lines from the front of the file on are cut
/// where `first` says so.
pub fn gather(
    alloc: Global,
    dictionary: &Dictionary,
    layout: &Layout,
    run: &mut Run,
    room: &mut Option<Box<Lines>>,
    read: &mut Box<Lines>,
    buffer: &mut Buffer,
    first: bool,
    ended: bool,
) -> Result<Option<Run>, LineStop>
    requires layout { layout.now ≡ layout_of dictionary.now }
    requires gathered { Gathered dictionary.now first ended run.old.first_line run.old buffer.old }
    requires number { run.old.first_line + (length run.old.lines + length buffer.old) < 2 ^ 64 }
    ensures ok { IfOk result (λ given. Cuts dictionary.now first ended run.old buffer.old run.new buffer.new given) }
    ensures err { IfErr result (IfFault (λ number. RefusesAt dictionary.now first ended run.old buffer.old run.new number)) }
{
    'lines: loop {
        let Ok(()) = take_alike(layout, run, buffer) else {
            return Err(LineStop::Memory);
        };
        let front = is_front(first, run);
        let Some(line) = first_line(buffer.as_slice(), front, ended) else {
            return Ok(None);
        };
        let len = line.len();
        match take_line(dictionary, layout, run, &mut read.columns, line, front) {
            Ok(None) => buffer.drop_front(len),
            Ok(Some(head)) => {
                let Ok(given) = end_run(alloc, run, room, read, head, line) else {
                    return Err(LineStop::Memory);
                };
                buffer.drop_front(len);
                return Ok(Some(given));
            }
            Err(stop) => return Err(stop),
        }
    }
}
