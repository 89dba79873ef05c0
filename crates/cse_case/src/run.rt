//! Runs of lines.

ghost use Rattle.std.specs.Prelude.{◌≡◌, ◌<◌, ◌≤◌, ◌+◌, ◌++◌, ◌∷◌, [], ℕ, List, Bool, IfNone, IfOk, IfSome, IsSome, OnErr, OnOk, drop, false, length, take};
ghost use Rattle.std.specs.List.{flat_map};
ghost use Rattle.cse_case.specs.Alike.{GoesOnFrom, laid_run};
ghost use Rattle.cse_case.specs.Bytes.{columns_lent};
ghost use Rattle.cse_case.specs.Decoding.{line_with};
ghost use Rattle.cse_case.specs.Laid.{IsLaid, laid_lines, line_behind};
ghost use Rattle.cse_case.specs.Lines.{AreSame, bytes_in, columns_kept, lines_in};
ghost use Rattle.cse_case.specs.Run.{IsLastLine, line_at, run_of, with_line};
ghost use Rattle.cse_case.specs.Written.{IsWhole, mark_bytes, written_line};

use crate::alike::push_lines;
use crate::columns::Columns;
use crate::decode::Head;
use crate::filled::Filled;
use crate::line::Line;
use crate::run_bytes::RunBytes;
use std::alloc::{AllocError, Global};
use std::marker::Model;

/// The lines of a run, as they lie in its columns, their bytes, as they came, and the columns. They stand in memory
/// of their own, so that a run that is handed on is a few words.
#[derive(Drop)]
pub struct Lines {
    pub lines: Vec<Line>,
    pub bytes: RunBytes,
    pub columns: Filled,
    /// Whether the last line is ASCII. Behind one that isn't, no lines are looked for that are like it.
    is_ascii: bool,
}

/// Consecutive lines with equal id columns. The columns of all lines stand in one list, one line after
/// the other, each padded with blanks to its width.
pub struct Run {
    alloc: Global,
    /// None before the first line.
    lines: Option<Box<Lines>>,
    marked: bool,
    first_line: u64,
}

impl Model for Run {
    ghost use Rattle.cse_case.specs.Run.{RunText};

    ghost Value = { RunText };

    ghost use Rattle.cse_case.specs.Laid.{laid_lines};
    ghost use Rattle.cse_case.specs.Lines.{bytes_in, columns_kept, lines_in};
    ghost use Rattle.cse_case.specs.Written.{IsWhole};

    ghost view = { λ r. record { lines = laid_lines (columns_kept r.lines) (lines_in r.lines); marked = r.marked; first_line = r.first_line } };

    ghost invariant = { λ r. IsWhole (columns_kept r.lines) (lines_in r.lines) (bytes_in r.lines) };
}

impl Drop for Run {
    fn drop(self) {
        let Run {
            alloc: _alloc,
            lines: _lines,
            marked: _marked,
            first_line: _first_line,
        } = self;
    }
}

/// Memory for lines, of which there is none yet.
#[inline(never)]
pub(crate) fn new_lines(alloc: Global) -> Result<Box<Lines>, AllocError>
    ensures lines { IfOk result (λ own. own.value.lines.items ≡ []) }
    ensures bytes { IfOk result (λ own. own.value.bytes ≡ []) }
    ensures columns { IfOk result (λ own. own.value.columns ≡ []) }
{
    let none = Lines {
        lines: Vec::new(alloc),
        bytes: RunBytes::new(alloc),
        columns: Filled::new(alloc),
        is_ascii: true,
    };
    Ok(Box::new(alloc, none)?)
}

/// Takes memory for lines, where none is there.
#[inline(always)]
pub(crate) fn keep_lines(alloc: Global, lines: &mut Option<Box<Lines>>) -> Result<(), AllocError>
    ensures there { OnOk result (IsSome lines.new) }
    ensures same { AreSame lines.old lines.new }
{
    match lines {
        Some(_) => {}
        None => *lines = Some(new_lines(alloc)?),
    }
    Ok(())
}

/// The bytes of a line behind the mark, where that stands before it.
fn behind_mark(line: &[u8], marked: bool) -> &[u8]
    ensures { (bytes : List ℕ) → line.now ≡ mark_bytes marked ++ bytes → result.now ≡ bytes }
{
    match line {
        [_, _, _, bytes @ ..] if marked => bytes,
        _ => line,
    }
}

/// A line under this head, of which the columns begin at this one.
fn line_from(first: usize, width: usize, head: Head) -> Line
    ensures { result ≡ record { first = first; width = width; len = head.len; ending = head.ending; record_number = head.record_number } }
{
    Line {
        first,
        width,
        len: head.len,
        ending: head.ending,
        record_number: head.record_number,
    }
}

/// Appends a line and its columns.
#[inline(always)]
fn push_line(
    columns: &mut Filled,
    lines: &mut Vec<Line>,
    text: &Filled,
    head: Head,
) -> Result<(), AllocError>
    ensures columns { OnOk result (columns.new ≡ columns.old ++ text.now) }
    ensures lines { OnOk result (lines.new.items ≡ lines.old.items ++ line_behind columns.old text.now head ∷ []) }
    ensures same_columns { OnErr result (columns.new ≡ columns.old) }
    ensures same_lines { OnErr result (lines.new.items ≡ lines.old.items) }
{
    let first = columns.len();
    columns.push(text)?;
    if let Err(refused) = lines.push(line_from(first, text.len(), head)) {
        columns.truncate(first);
        return Err(refused.into());
    }
    Ok(())
}

impl Lines {
    /// One line alone, which these columns are, with its bytes and the mark.
    #[inline(always)]
    pub(crate) fn begin(&mut self, head: Head, line: &[u8]) -> Result<(), AllocError>
        requires { line.now ≡ mark_bytes head.marked ++ written_line (line_with self.old.columns head) }
        ensures columns { self.new.columns ≡ self.old.columns }
        ensures lines { OnOk result (self.new.lines.items ≡ line_behind [] self.old.columns head ∷ []) }
        ensures bytes { OnOk result (self.new.bytes ≡ written_line (line_with self.old.columns head)) }
    {
        self.lines.clear();
        self.bytes.truncate(0);
        let first = line_from(0, self.columns.len(), head);
        self.bytes.push(behind_mark(line, head.marked))?;
        self.lines.push(first)?;
        self.is_ascii = head.is_ascii;
        Ok(())
    }

    /// Appends a line and its columns, and its bytes.
    #[inline(always)]
    fn push(&mut self, text: &Filled, head: Head, bytes: &[u8]) -> Result<(), AllocError>
        ensures columns { OnOk result (self.new.columns ≡ self.old.columns ++ text.now) }
        ensures lines { OnOk result (self.new.lines.items ≡ self.old.lines.items ++ line_behind self.old.columns text.now head ∷ []) }
        ensures bytes { OnOk result (self.new.bytes ≡ self.old.bytes ++ bytes.now) }
        ensures same_columns { OnErr result (self.new.columns ≡ self.old.columns) }
        ensures same_lines { OnErr result (self.new.lines.items ≡ self.old.lines.items) }
        ensures same_bytes { OnErr result (self.new.bytes ≡ self.old.bytes) }
    {
        let len = self.bytes.len();
        self.bytes.push(bytes)?;
        if let Err(refused) = push_line(&mut self.columns, &mut self.lines, text, head) {
            self.bytes.truncate(len);
            return Err(refused);
        }
        self.is_ascii = head.is_ascii;
        Ok(())
    }

    /// Appends the first of the bytes that are lines like the last one, which they follow, and their columns.
    /// Tells how many bytes.
    #[inline(always)]
    fn push_alike(&mut self, width: usize, bytes: &[u8]) -> Result<usize, AllocError>
        requires whole { IsWhole self.old.columns self.old.lines.items self.old.bytes }
        ensures whole { IsWhole self.new.columns self.new.lines.items self.new.bytes }
        ensures fits { IfOk result (λ n. n ≤ length bytes.now) }
        ensures more { IfOk result (λ n. (marked : Bool) (first_line : ℕ)
            → GoesOnFrom width (laid_run self.old.columns self.old.lines.items marked first_line) bytes.now
            (laid_run self.new.columns self.new.lines.items marked first_line) (drop n bytes.now)) }
    {
        let count = self.lines.len();
        if count == 0 || !self.is_ascii {
            return Ok(0);
        }
        let last = self.lines[count - 1];
        let len = self.columns.len();
        let taken = push_lines(&mut self.columns, &mut self.lines, last, width, bytes);
        if taken > 0 {
            if let Err(refused) = self.bytes.push(&bytes[..taken]) {
                self.columns.truncate(len);
                self.lines.truncate(count);
                return Err(refused);
            }
        }
        Ok(taken)
    }
}

impl Run {
    /// A run without lines, which takes no memory.
    pub(crate) fn new(alloc: Global, first_line: u64) -> Run
        ensures lines { result.lines ≡ [] }
        ensures marked { result.marked ≡ false }
        ensures first_line { result.first_line ≡ first_line }
    {
        Run {
            alloc,
            lines: None,
            marked: false,
            first_line,
        }
    }

    /// The run of one line, which is the only one of these.
    #[inline(always)]
    pub(crate) fn beginning(alloc: Global, own: Box<Lines>, first_line: u64, head: Head) -> Run
        requires fits { head.len ≤ length own.value.columns }
        requires lines { own.value.lines.items ≡ line_behind [] own.value.columns head ∷ [] }
        requires bytes { own.value.bytes ≡ written_line (line_with own.value.columns head) }
        ensures { result ≡ run_of first_line head.marked (line_with own.value.columns head) }
    {
        Run {
            alloc,
            lines: Some(own),
            marked: head.marked,
            first_line,
        }
    }

    /// Appends a line that was read: its columns and its bytes, with the mark.
    #[inline(always)]
    pub(crate) fn push(
        &mut self,
        columns: &Filled,
        head: Head,
        line: &[u8],
    ) -> Result<(), AllocError>
        requires fits { head.len ≤ length columns.now }
        requires bytes { line.now ≡ mark_bytes head.marked ++ written_line (line_with columns.now head) }
        ensures { OnOk result (self.new ≡ with_line self.old head.marked (line_with columns.now head)) }
    {
        keep_lines(self.alloc, &mut self.lines)?;
        let Some(lines) = &mut self.lines else {
            unreachable!();
        };
        let bytes = behind_mark(line, head.marked);
        lines.push(columns, head, bytes)?;
        self.marked = self.marked || head.marked;
        Ok(())
    }

    /// Appends the first of the bytes that are lines like the last one, which they follow. Tells how many
    /// bytes.
    #[inline(always)]
    pub(crate) fn push_alike(&mut self, width: usize, bytes: &[u8]) -> Result<usize, AllocError>
        ensures fits { IfOk result (λ n. n ≤ length bytes.now) }
        ensures more { IfOk result (λ n. GoesOnFrom width self.old bytes.now self.new (drop n bytes.now)) }
    {
        let Some(kept) = &mut self.lines else {
            return Ok(0);
        };
        kept.push_alike(width, bytes)
    }

    /// Its lines with their columns and their bytes, whether it is marked, and the number of its first line. The
    /// lines lie one after the other in the columns, and are written as these bytes. Nothing is kept of the
    /// lines where there is none.
    #[inline(always)]
    pub fn into_parts(self) -> (Option<Box<Lines>>, bool, u64)
        ensures lines { laid_lines (columns_kept result.0) (lines_in result.0) ≡ self.lines }
        ensures laid { IsLaid 0 (columns_kept result.0) (lines_in result.0) }
        ensures bytes { bytes_in result.0 ≡ flat_map written_line self.lines }
        ensures marked { result.1 ≡ self.marked }
        ensures first_line { result.2 ≡ self.first_line }
    {
        let Run {
            alloc: _,
            lines,
            marked,
            first_line,
        } = self;
        (lines, marked, first_line)
    }

    /// How many lines it has.
    pub fn len(&self) -> usize
        ensures { result ≡ length self.now.lines }
    {
        match &self.lines {
            Some(kept) => kept.lines.len(),
            None => 0,
        }
    }

    /// The number of its first line in the file, counted from 1.
    pub fn first_line(&self) -> u64
        ensures { result ≡ self.now.first_line }
    {
        self.first_line
    }

    /// The columns of the last line and the number of its record, if there is a line.
    pub(crate) fn last(&self) -> Option<(Columns<'_>, Option<u16>)>
        ensures none { IfNone result (self.now.lines ≡ []) }
        ensures some { IfSome result (λ last. IsLastLine self.now (columns_lent last.0) last.1) }
    {
        let Some(kept) = &self.lines else {
            return None;
        };
        let len = kept.lines.len();
        if len == 0 {
            return None;
        }
        let line = kept.lines[len - 1];
        Some((
            kept.columns.columns().part(line.first, line.width),
            line.record_number,
        ))
    }

    /// The columns of a line, by its place from 0, padded with blanks to its width.
    pub fn columns(&self, i: usize) -> Columns<'_>
        requires { i < length self.now.lines }
        ensures { columns_lent result ≡ (line_at self.now i).columns }
    {
        let Some(kept) = &self.lines else {
            unreachable!();
        };
        let line = kept.lines[i];
        kept.columns.columns().part(line.first, line.width)
    }

    /// The columns of the first line.
    pub(crate) fn first_columns(&self) -> Columns<'_>
        requires { 0 < length self.now.lines }
        ensures { columns_lent result ≡ (line_at self.now 0).columns }
    {
        let Some(kept) = &self.lines else {
            unreachable!();
        };
        let line = kept.lines[0];
        kept.columns.columns().part(0, line.width)
    }
}
