//! A dictionary with its id items, which are listed when they are first needed.

ghost use Rattle.std.specs.Prelude.{◌≡◌, ◌<◌, ◌+◌, ◌-◌, ◌^◌, ◌++◌, ◌≤◌, ℕ, length, min, replicate, take, drop, true, IfOk, OnOk};
ghost use Rattle.cse_case.specs.NamedColumns.{field_at, fields_at, ids_of};
ghost use Rattle.cse_case.specs.Run.{line_at};
ghost use Rattle.cse_case.specs.Fit.{line_width};
ghost use Rattle.cse_case.specs.Bytes.{columns_lent};

use crate::case::Case;
use crate::columns::{piece, put_bytes};
use crate::items::Items;
use crate::layout::{ColumnSpan, id_blocks};
use crate::seen::Table;
use crate::{Columns, Run, put_columns};
use cse_dict::Dictionary;
use std::alloc::{AllocError, Global};
use std::marker::Model;

/// A dictionary, its id items once they are known, and room for the counts of a case's occurrences and for its table.
#[derive(Drop)]
pub struct Source<'a> {
    items: Items<'a>,
    /// The places of its id items, those that lie side by side as one.
    id_blocks: Vec<ColumnSpan>,
    is_known: bool,
    counts: Vec<u16>,
    table: Option<Box<Table>>,
}

impl<'a> Model for Source<'a> {
    ghost use Rattle.std.specs.Prelude.{◌≡◌, true};
    ghost use Rattle.cse_dict.specs.Dictionary.{DictionaryText};
    ghost use Rattle.cse_case.specs.NamedColumns.{HaveSame, id_spans};

    ghost Value = { DictionaryText };

    ghost view = { λ s. s.items };

    ghost invariant = { λ s. s.is_known ≡ true → HaveSame s.id_blocks.items (id_spans s.items) };
}

/// Where a place begins among the columns of a line, from 0; at most their number.
fn start_of(span: ColumnSpan, width: usize) -> usize
    ensures { result ≡ min (span.start - 1) width }
{
    (span.start as usize).saturating_sub(1).min(width)
}

/// Makes so many characters of them, with blanks at the end, where they are fewer.
fn widen(fields: &mut Vec<char>, width: usize) -> Result<(), AllocError>
    ensures { OnOk result (fields.new.items ≡ fields.old.items ++ replicate (width - length fields.old.items) 32) }
{
    if fields.len() < width {
        fields.resize(width, ' ')?;
    }
    Ok(())
}

/// Writes so many columns from a place on over characters. Where their bytes are ASCII, what stands beside them isn't looked
/// for.
#[inline(always)]
fn put_part(characters: &mut [char], columns: Columns<'_>, first: usize)
    requires { first + length characters.old ≤ length (columns_lent columns) }
    ensures { characters.new ≡ take (length characters.old) (drop first (columns_lent columns.entry)) }
{
    let len = characters.len();
    if !put_bytes(characters, piece(columns.bytes, first, len)) {
        put_columns(characters, columns.part(first, len));
    }
}

/// Writes what stands at a place over characters from another on, as many columns as there are, and tells where they end.
#[inline(always)]
fn put_at(
    fields: &mut Vec<char>,
    at: usize,
    span: ColumnSpan,
    columns: Columns<'_>,
) -> Result<usize, AllocError>
    requires { at ≤ length fields.old.items }
    ensures within { IfOk result (λ end. end ≤ length fields.new.items) }
    ensures put { IfOk result (λ end. take end fields.new.items ≡ take at fields.old.items ++ field_at span (columns_lent columns.entry)) }
{
    let start = start_of(span, columns.len());
    let end = at + (span.len as usize).min(columns.len() - start);
    widen(fields, end)?;
    put_part(&mut fields[at..end], columns, start);
    Ok(end)
}

/// Writes what stands at these places, one after the other, over others.
#[inline(never)]
fn put_each(
    fields: &mut Vec<char>,
    spans: &[ColumnSpan],
    columns: Columns<'_>,
) -> Result<(), AllocError>
    ensures { OnOk result (fields.new.items ≡ fields_at spans.now (columns_lent columns.entry)) }
{
    let mut at = 0;
    'spans: for span in spans {
        at = put_at(fields, at, *span, columns)?;
    }
    fields.truncate(at);
    Ok(())
}

/// Writes what stands at a place over as many characters, and tells whether it did: where the line reaches so far, and it is
/// ASCII.
#[inline(always)]
fn put_alone(fields: &mut Vec<char>, span: ColumnSpan, columns: Columns<'_>) -> bool
    ensures { result ≡ true → fields.new.items ≡ field_at span (columns_lent columns.entry) }
{
    let start = (span.start as usize).saturating_sub(1);
    let len = span.len as usize;
    if fields.len() != len || columns.len() < start + len {
        return false;
    }
    put_bytes(fields, piece(columns.bytes, start, len))
}

/// Writes what stands at these places, one after the other, over others, which mostly are as many. Mostly they are one place.
#[inline(always)]
fn put_fields(
    fields: &mut Vec<char>,
    spans: &[ColumnSpan],
    columns: Columns<'_>,
) -> Result<(), AllocError>
    ensures { OnOk result (fields.new.items ≡ fields_at spans.now (columns_lent columns.entry)) }
{
    if let [span] = spans {
        if put_alone(fields, *span, columns) {
            return Ok(());
        }
    }
    put_each(fields, spans, columns)
}

impl<'a> Source<'a> {
    /// The dictionary; its id items aren't listed yet.
    pub fn new(alloc: Global, dictionary: &'a Dictionary) -> Source<'a>
        ensures { result ≡ dictionary.now }
    {
        Source {
            items: Items::new(dictionary),
            id_blocks: Vec::new(alloc),
            is_known: false,
            counts: Vec::new(alloc),
            table: None,
        }
    }

    /// Writes the id columns of a line over others.
    fn put_ids(
        &mut self,
        alloc: Global,
        ids: &mut Vec<char>,
        columns: Columns<'_>,
    ) -> Result<(), AllocError>
        ensures same { self.new ≡ self.old }
        ensures ids { OnOk result (ids.new.items ≡ ids_of self.old (columns_lent columns.entry)) }
    {
        if !self.is_known {
            self.id_blocks = id_blocks(alloc, self.items.dictionary())?;
            self.is_known = true;
        }
        put_fields(ids, &self.id_blocks, columns)
    }

    /// Takes back a case's table, whose memory serves a later one.
    pub fn take_back(&mut self, table: Box<Table>)
        ensures { self.new ≡ self.old }
    {
        self.table = Some(table);
    }

    /// The case of a run. It lies in the memory of the one that was taken back, and in new memory where that
    /// doesn't serve.
    pub fn case_of(&mut self, alloc: Global, run: Run) -> Result<Case<'a>, AllocError>
        requires some { 0 < length run.lines }
        requires wide { (place : ℕ) → place < length run.lines → length (line_at run place).columns ≡ line_width self.old (line_at run place) }
        requires few { run.first_line + length run.lines < 2 ^ 64 }
        ensures same { self.new ≡ self.old }
        ensures made { IfOk result (λ c. c ≡ record { dictionary = self.old; ids = ids_of self.old (line_at run 0).columns; run = run }) }
    {
        let mut table = match self.table.take() {
            Some(table) => table,
            None => Box::new(alloc, Table::new(alloc))?,
        };
        self.put_ids(alloc, &mut table.ids, run.columns(0))?;
        Case::new(self.items.again(), &mut self.counts, table, run)
    }
}
