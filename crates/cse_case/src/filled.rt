//! The columns of a run, in a vector that is filled further than they reach.

ghost use Rattle.std.specs.Prelude.{◌≡◌, ℕ, List, ◌≤◌, ◌+◌, ◌-◌, ◌++◌, ◌<◌, [], drop, length, max, replicate, set, take, true, false, vec_capacity, IfErr, IfOk, OnErr, OnOk};
ghost use Rattle.std.specs.Str.{IsAscii, chars, is_utf8};
ghost use Rattle.cse_value.specs.Field.{put_whole};
ghost use Rattle.cse_case.specs.Decoding.{Holds, IfFault};
ghost use Rattle.cse_case.specs.NamedColumns.{padded};
ghost use Rattle.cse_case.specs.Alike.{IsPlain};
ghost use Rattle.cse_case.specs.Bytes.{HasRoom, columns_by, columns_in, columns_lent};
ghost use Rattle.cse_case.specs.Few.{IsFew};
ghost use Rattle.cse_case.specs.Run.{with_columns};

use crate::beyond::put_beyond;
use crate::columns::{Columns, OwnColumns};
use crate::copy::put_beside;
use crate::decode::LineStop;
use crate::few::put_small;
use crate::fill::{put_blanks, put_line};
use std::alloc::{AllocError, Global};
use std::marker::Model;

/// Columns one after the other. What stood behind them before stays there, so that a line is written over
/// it, and no column is blanked first.
#[derive(Drop)]
pub struct Filled {
    own: OwnColumns,
    len: usize,
}

impl Model for Filled {
    ghost use Rattle.std.specs.Prelude.{ℕ, List, ◌≤◌, length, take};
    ghost use Rattle.cse_case.specs.Bytes.{HasRoom, columns_in};

    ghost Value = { List ℕ };

    ghost view = { λ f. take f.len (columns_in f.own) };

    ghost invariant = { λ f. (f.len ≤ length f.own.bytes.items) × HasRoom f.own };
}

/// Writes a line over the columns from a place up to another.
#[inline(always)]
fn put_between(bytes: &mut Vec<u8>, first: usize, end: usize, text: &[u8]) -> bool
    requires fits { first ≤ end }
    requires room { end ≤ length bytes.old.items }
    requires wide { first + length text.now ≤ end }
    ensures bytes { bytes.new.items ≡ with_columns first (padded (end - first) text.now) bytes.old.items }
    ensures plain { result ≡ true → IsPlain text.now }
{
    put_line(&mut bytes[first..end], text)
}

/// The characters of a text in place of so many columns, whose bytes are its own. Tells how many characters there are.
fn put_beyond_in(
    bytes: &mut Vec<u8>,
    beside: &mut [char],
    len: usize,
    text: &[u8],
) -> Result<usize, LineStop>
    requires room { len ≤ length bytes.old.items }
    requires beside { length bytes.old.items ≤ length beside.old }
    requires over { take len bytes.old.items ≡ padded len text.now }
    requires fits { length text.now ≤ len }
    ensures room { length bytes.new.items ≡ length bytes.old.items }
    ensures beside { length beside.new ≡ length beside.old }
    ensures columns { IfOk result (λ n. Holds (take len (columns_by bytes.new.items beside.new)) (chars text.now) n) }
    ensures utf8 { OnOk result (is_utf8 text.now ≡ true) }
    ensures err { IfErr result (IfFault (λ number. (number ≡ 20) × (is_utf8 text.now ≡ false))) }
{
    let (front, _) = bytes.split_at_mut(len);
    put_beyond(front, beside, text)
}

/// Fills bytes up to a length.
#[inline(never)]
pub(crate) fn fill_bytes(bytes: &mut Vec<u8>, len: usize) -> Result<(), AllocError>
    ensures room { OnOk result (len ≤ length bytes.new.items) }
    ensures same { take (length bytes.old.items) bytes.new.items ≡ bytes.old.items }
    ensures wide { length bytes.old.items ≤ length bytes.new.items }
    ensures least { length bytes.new.items ≤ max (length bytes.old.items) len }
{
    if bytes.len() < len {
        bytes.resize(len, b' ')?;
    }
    Ok(())
}

/// Takes memory beside bytes up to a length. Nothing is written there.
fn keep_beside(beside: &mut Vec<char>, len: usize) -> Result<(), AllocError>
    ensures room { OnOk result (len ≤ vec_capacity beside.new) }
    ensures same { beside.new.items ≡ beside.old.items }
    ensures wide { vec_capacity beside.old ≤ vec_capacity beside.new }
{
    beside.reserve(len.saturating_sub(beside.len()))
}

/// Fills columns up to a length.
#[inline(never)]
fn grow(own: &mut OwnColumns, len: usize) -> Result<(), AllocError>
    requires { HasRoom own.old }
    ensures room { OnOk result (len ≤ length own.new.bytes.items) }
    ensures wide { length own.old.bytes.items ≤ length own.new.bytes.items }
    ensures same { (n : ℕ) → n ≤ length own.old.bytes.items → take n (columns_in own.new) ≡ take n (columns_in own.old) }
    ensures beside { HasRoom own.new }
{
    keep_beside(&mut own.beside, len)?;
    fill_bytes(&mut own.bytes, len)
}

/// Fills columns up to a length, where they are fewer.
#[inline(always)]
fn fill_up(own: &mut OwnColumns, len: usize) -> Result<(), AllocError>
    requires { HasRoom own.old }
    ensures room { OnOk result (len ≤ length own.new.bytes.items) }
    ensures wide { length own.old.bytes.items ≤ length own.new.bytes.items }
    ensures same { (n : ℕ) → n ≤ length own.old.bytes.items → take n (columns_in own.new) ≡ take n (columns_in own.old) }
    ensures beside { HasRoom own.new }
{
    if own.bytes.len() < len {
        return grow(own, len);
    }
    Ok(())
}

/// Writes what stands beside bytes over as much from a place on, where these bytes were written before. It is called for few
/// lines, and isn't laid out where it is called.
#[cold]
#[inline(never)]
fn put_over_beside(own: &mut OwnColumns, first: usize, len: usize, text: &OwnColumns)
    requires room { first + len ≤ length own.old.bytes.items }
    requires beside { HasRoom own.old }
    requires there { len ≤ length text.now.bytes.items }
    ensures columns { (before : List ℕ) → length before ≡ length own.old.bytes.items
        → own.old.bytes.items ≡ with_columns first (take len text.now.bytes.items) before
        → columns_in own.new ≡ with_columns first (take len (columns_in text.now)) (columns_by before own.old.beside.items) }
    ensures bytes { own.new.bytes ≡ own.old.bytes }
    ensures beside { HasRoom own.new }
{
    own.reach(first + len);
    put_beside(&mut own.beside, first, &text.bytes[..len], &text.beside);
}

/// Writes columns over those from a place on. What stands beside their bytes goes along, where some are beyond ASCII.
#[inline(always)]
fn put_over(own: &mut OwnColumns, first: usize, len: usize, text: &OwnColumns)
    requires room { first + len ≤ length own.old.bytes.items }
    requires beside { HasRoom own.old }
    requires there { len ≤ length text.now.bytes.items }
    ensures columns { columns_in own.new ≡ with_columns first (take len (columns_in text.now)) (columns_in own.old) }
    ensures bytes { length own.new.bytes.items ≡ length own.old.bytes.items }
    ensures beside { HasRoom own.new }
{
    if !put_between(&mut own.bytes, first, first + len, &text.bytes[..len]) {
        put_over_beside(own, first, len, text);
    }
}

/// Writes a whole number over so many bytes from a place on, if they are few and have room for it.
#[inline(always)]
fn put_few_in(bytes: &mut Vec<u8>, start: usize, len: usize, number: i64, zero_fill: bool) -> bool
    requires { start + len ≤ length bytes.old.items }
    ensures bytes { result ≡ true → bytes.new.items ≡ with_columns start (put_whole len zero_fill number) bytes.old.items }
    ensures ascii { result ≡ true → IsAscii (put_whole len zero_fill number) }
    ensures some { 0 < len → IsFew len number → result ≡ true }
    ensures same { result ≡ false → bytes.new.items ≡ bytes.old.items }
{
    put_small(&mut bytes[start..start + len], number, zero_fill)
}

/// Writes blanks over the columns from a place up to another.
#[inline(never)]
fn put_blanks_in(bytes: &mut Vec<u8>, first: usize, end: usize)
    requires order { first ≤ end }
    requires room { end ≤ length bytes.old.items }
    ensures { bytes.new.items ≡ with_columns first (replicate (end - first) 32) bytes.old.items }
{
    put_blanks(&mut bytes[first..end]);
}

impl Filled {
    /// No columns, which take no memory.
    pub(crate) fn new(alloc: Global) -> Filled
        ensures { result ≡ [] }
    {
        Filled {
            own: OwnColumns::new(alloc),
            len: 0,
        }
    }

    /// How many there are.
    pub fn len(&self) -> usize
        ensures { result ≡ length self.now }
    {
        self.len
    }

    /// The columns.
    #[inline(always)]
    pub fn columns(&self) -> Columns<'_>
        ensures { columns_lent result ≡ self.now }
    {
        self.own.lent().part(0, self.len)
    }

    /// Gives up those from a place on.
    pub(crate) fn truncate(&mut self, len: usize)
        requires { len ≤ length self.old }
        ensures { self.new ≡ take len self.old }
    {
        self.len = len;
    }

    /// Gives up those from a place on, if there are more.
    pub(crate) fn shorten(&mut self, len: usize)
        ensures { self.new ≡ take len self.old }
    {
        if len < self.len {
            self.len = len;
        }
    }

    /// So many columns at least.
    fn reach(&mut self, len: usize) -> Result<(), AllocError>
        ensures { OnOk result (length self.new ≡ max (length self.old) len) }
    {
        if self.len < len {
            fill_up(&mut self.own, len)?;
            self.len = len;
        }
        Ok(())
    }

    /// The characters of a text in place of the columns, and blanks in place of those that are left. Tells how many
    /// characters there are.
    pub(crate) fn read(&mut self, text: &[u8]) -> Result<usize, LineStop>
        ensures columns { IfOk result (λ len. Holds self.new (chars text.now) len) }
        ensures utf8 { OnOk result (is_utf8 text.now ≡ true) }
        ensures err { IfErr result (IfFault (λ number. (number ≡ 20) × (is_utf8 text.now ≡ false))) }
    {
        self.reach(text.len())?;
        if put_between(&mut self.own.bytes, 0, self.len, text) {
            return Ok(text.len());
        }
        let reached = self.own.bytes.len();
        self.own.reach(reached);
        put_beyond_in(&mut self.own.bytes, &mut self.own.beside, self.len, text)
    }

    /// Pads them with blanks to a width, which they don't reach. It is called for few lines, and isn't laid out
    /// where it is called.
    #[inline(never)]
    fn pad_further(&mut self, width: usize) -> Result<(), AllocError>
        requires { length self.old ≤ width }
        ensures { OnOk result (self.new ≡ padded width self.old) }
    {
        fill_up(&mut self.own, width)?;
        put_blanks_in(&mut self.own.bytes, self.len, width);
        self.len = width;
        Ok(())
    }

    /// Pads them with blanks to a width.
    #[inline(always)]
    pub(crate) fn pad(&mut self, width: usize) -> Result<(), AllocError>
        ensures { OnOk result (self.new ≡ padded width self.old) }
    {
        if self.len < width {
            return self.pad_further(width);
        }
        Ok(())
    }

    /// Cuts them to a width, or pads them to it with blanks.
    pub(crate) fn set_width(&mut self, width: usize) -> Result<(), AllocError>
        ensures { OnOk result (self.new ≡ take width self.old ++ replicate (width - length self.old) 32) }
    {
        if width < self.len {
            self.len = width;
            return Ok(());
        }
        self.pad(width)
    }

    /// Appends columns.
    #[inline(always)]
    pub(crate) fn push(&mut self, text: &Filled) -> Result<(), AllocError>
        ensures pushed { OnOk result (self.new ≡ self.old ++ text.now) }
        ensures same { OnErr result (self.new ≡ self.old) }
    {
        let first = self.len;
        let end = first + text.len;
        fill_up(&mut self.own, end)?;
        put_over(&mut self.own, first, text.len, &text.own);
        self.len = end;
        Ok(())
    }

    /// Appends bytes and blanks up to a width, if all bytes are ASCII, none is a line feed, and
    /// there is room.
    pub(crate) fn push_plain(&mut self, text: &[u8], width: usize) -> bool
        requires { length text.now ≤ width }
        ensures pushed { result ≡ true → self.new ≡ self.old ++ padded width text.now }
        ensures plain { result ≡ true → IsPlain text.now }
        ensures same { result ≡ false → self.new ≡ self.old }
    {
        let first = self.len;
        let Some(end) = first.checked_add(width) else {
            return false;
        };
        let Ok(()) = fill_up(&mut self.own, end) else {
            return false;
        };
        let is_plain = put_between(&mut self.own.bytes, first, end, text);
        if is_plain {
            self.len = end;
        }
        is_plain
    }

    /// Writes a character over a column, by its place from 0.
    #[inline(always)]
    pub fn put(&mut self, i: usize, column: char)
        requires { i < length self.old }
        ensures { self.new ≡ set self.old i column }
    {
        self.own.put(i, column);
    }

    /// Writes a whole number over so many columns from a place on, if they are few and have room for it, and tells
    /// whether it did.
    #[inline(always)]
    pub fn put_few(&mut self, start: usize, len: usize, number: i64, zero_fill: bool) -> bool
        requires { start + len ≤ length self.old }
        ensures columns { result ≡ true → self.new ≡ with_columns start (put_whole len zero_fill number) self.old }
        ensures some { 0 < len → IsFew len number → result ≡ true }
        ensures same { result ≡ false → self.new ≡ self.old }
    {
        put_few_in(&mut self.own.bytes, start, len, number, zero_fill)
    }

    /// Writes blanks over so many columns from a place on.
    pub fn put_blanks(&mut self, start: usize, count: usize)
        requires { start + count ≤ length self.old }
        ensures { self.new ≡ with_columns start (replicate count 32) self.old }
    {
        put_blanks_in(&mut self.own.bytes, start, start + count);
    }
}
