//! A line that comes to the run that is gathered.

ghost use Rattle.std.specs.Prelude.{◌≡◌, ◌+◌, ◌++◌, ◌<◌, ◌≤◌, ◌^◌, length, true, false, IfErr, IfOk, OnOk};
ghost use Rattle.cse_case.specs.Bytes.{columns_lent};
ghost use Rattle.cse_case.specs.Decoding.{IfFault, line_with};
ghost use Rattle.cse_case.specs.NamedColumns.{ids_of, layout_of, least_width};
ghost use Rattle.cse_case.specs.Run.{line_at, run_of};
ghost use Rattle.cse_case.specs.Taking.{BeginsAsLast, LastIsLike, Refuses, Takes, run_id};
ghost use Rattle.cse_case.specs.Written.{mark_bytes, written_line};

use crate::columns::Columns;
use crate::decode::{Beginning, Head, LineStop, decode};
use crate::filled::Filled;
use crate::layout::Layout;
use crate::run::{Lines, Run, new_lines};
use cse_dict::Dictionary;
use cse_fault_numbers::RUN_TOO_LONG;
use std::alloc::{AllocError, Global};
use std::mem;

/// The most lines of a run.
pub const MOST_LINES: usize = 10_000;

/// Whether a line has other id columns than a run, beside whose last line it begins so.
fn has_other_ids(
    dictionary: &Dictionary,
    layout: &Layout,
    run: &Run,
    columns: Columns<'_>,
    beginning: Beginning,
) -> bool
    requires layout { layout.now ≡ layout_of dictionary.now }
    requires some { 0 < length run.now.lines }
    requires first { least_width dictionary.now ≤ length (line_at run.now 0).columns }
    requires wide { least_width dictionary.now ≤ length (columns_lent columns) }
    requires last { LastIsLike dictionary.now run.now }
    requires begins { BeginsAsLast dictionary.now beginning (columns_lent columns) run.now }
    ensures same { result ≡ false → run_id dictionary.now run.now ≡ ids_of dictionary.now (columns_lent columns.entry) }
    ensures other { result ≡ true → run_id dictionary.now run.now ≡ ids_of dictionary.now (columns_lent columns.entry) → ⊥ }
{
    match beginning {
        Beginning::Alike => false,
        Beginning::Apart => true,
        Beginning::Unknown => !layout.has_same_ids(run.first_columns(), columns),
    }
}

/// Takes a line with its end: it goes on the run, or else it ends the run, which stays, and is handed back
/// as columns and its head.
pub fn take_line(
    dictionary: &Dictionary,
    layout: &Layout,
    run: &mut Run,
    columns: &mut Filled,
    line: &[u8],
    front: bool,
) -> Result<Option<Head>, LineStop>
    requires layout { layout.now ≡ layout_of dictionary.now }
    requires width { 0 < length run.old.lines → least_width dictionary.now ≤ length (line_at run.old 0).columns }
    requires last { LastIsLike dictionary.now run.old }
    requires few { length run.old.lines ≤ 10000 }
    ensures ok { IfOk result (λ last. Takes dictionary.now (front, line.now) run.old run.new columns.new last) }
    ensures err { IfErr result (IfFault (λ number. Refuses dictionary.now (front, line.now) run.old run.new number)) }
{
    let last = run.last();
    let head = decode(dictionary, layout, line, front, last, columns)?;
    let len = run.len();
    if len > 0 && has_other_ids(dictionary, layout, run, columns.columns(), head.beginning) {
        return Ok(Some(head));
    }
    if len == MOST_LINES {
        return Err(LineStop::Fault(RUN_TOO_LONG));
    }
    run.push(columns, head, line)?;
    Ok(None)
}

/// Memory for lines: that of lines that were given back, of which so many columns are left at most, or new memory.
#[inline(always)]
fn take_room(
    alloc: Global,
    room: &mut Option<Box<Lines>>,
    len: usize,
) -> Result<Box<Lines>, AllocError> {
    match room.take() {
        Some(mut lines) => {
            lines.columns.shorten(len);
            Ok(lines)
        }
        None => new_lines(alloc),
    }
}

/// Gives the run that a line ended. The next one begins with that line, where it was read; from then on lines are read
/// over others, which may be those of a run that was given back.
#[inline(always)]
pub fn end_run(
    alloc: Global,
    run: &mut Run,
    room: &mut Option<Box<Lines>>,
    read: &mut Box<Lines>,
    head: Head,
    line: &[u8],
) -> Result<Run, AllocError>
    requires fits { head.len ≤ length read.old.value.columns }
    requires bytes { line.now ≡ mark_bytes head.marked ++ written_line (line_with read.old.value.columns head) }
    requires number { run.old.first_line + length run.old.lines < 2 ^ 64 }
    ensures given { IfOk result (λ given. given ≡ run.old) }
    ensures next { OnOk result (run.new ≡ run_of (run.old.first_line + length run.old.lines) head.marked (line_with read.old.value.columns head)) }
{
    let number = run.first_line() + run.len() as u64;
    read.begin(head, line)?;
    let others = take_room(alloc, room, read.columns.len())?;
    let own = mem::replace(read, others);
    let next = Run::beginning(alloc, own, number, head);
    Ok(mem::replace(run, next))
}
