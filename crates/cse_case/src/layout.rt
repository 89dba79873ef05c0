//! The columns that a dictionary names on each line.

ghost use Rattle.std.specs.Prelude.{◌≡◌, ◌==◌, ◌+◌, ◌-◌, ◌<◌, ◌≤◌, ◌++◌, [], ◌∷◌, filter, length, map, true, IfOk, IfSome, OnOk};
ghost use Rattle.std.specs.Str.{bytes_eq};
ghost use Rattle.cse_case.specs.Bytes.{columns_lent};
ghost use Rattle.cse_case.specs.NamedColumns.{AreFront, HaveSame, TellApart, field_at, fields_at, id_spans, last_column, layout_of, span_of};

use crate::columns::Columns;
use crate::same::is_same;
use cse_dict::Dictionary;
use cse_value::shape::{ID_OWNER, ItemShape};
use std::alloc::{AllocError, Global};
use std::marker::Model;

/// Columns of a line: the first of them, counted from 1, and how many.
#[derive(Clone, Copy)]
pub struct ColumnSpan {
    pub start: u32,
    pub len: u32,
}

/// The columns of the id items in the order of the dictionary, those of the record type, and the last
/// column of all these.
#[derive(Drop)]
pub struct Layout {
    ids: Vec<ColumnSpan>,
    /// The same columns, those that lie side by side as one place.
    blocks: Vec<ColumnSpan>,
    record_type: ColumnSpan,
    least_width: usize,
    /// Whether the record type and the id items are known to fill each line up to the least width.
    is_filled: bool,
}

impl Model for Layout {
    ghost use Rattle.cse_case.specs.NamedColumns.{LayoutText};

    ghost Value = { LayoutText };

    ghost view = { λ l. record { ids = l.ids.items; record_type = l.record_type; least_width = l.least_width } };

    ghost use Rattle.cse_case.specs.NamedColumns.{IsLaidOut};

    ghost invariant = { λ l. IsLaidOut l.blocks.items l.ids.items l.record_type l.least_width l.is_filled };
}

/// The columns of an item.
fn span_of(item: &ItemShape) -> ColumnSpan
    ensures { result ≡ span_of item.now }
{
    ColumnSpan {
        start: item.start,
        len: u32::from(item.len),
    }
}

/// The columns of the id items among items, in their order.
fn id_spans(alloc: Global, items: &[ItemShape]) -> Result<Vec<ColumnSpan>, AllocError>
    ensures { IfOk result (λ v. v.items ≡ map span_of (filter (λ item. item.owner == 255) items.now)) }
{
    let mut spans = Vec::new(alloc);
    'items: for item in items {
        if item.owner == ID_OWNER {
            spans.push(span_of(item))?;
        }
    }
    Ok(spans)
}

/// The last column of a place.
fn last_of(span: ColumnSpan) -> usize
    ensures { result ≡ span.start - 1 + span.len }
{
    (span.start as usize).saturating_sub(1) + span.len as usize
}

/// The last column of these places.
fn last_column(spans: &[ColumnSpan]) -> usize
    ensures { result ≡ last_column spans.now }
{
    let mut last = 0usize;
    'spans: for span in spans {
        last = last.max(last_of(*span));
    }
    last
}

/// Two places as one, if the second one lies behind the first.
fn join(first: ColumnSpan, second: ColumnSpan) -> Option<ColumnSpan>
    ensures { IfSome result (λ both. HaveSame (both ∷ []) (first ∷ second ∷ [])) }
{
    let Some(end) = first.start.checked_add(first.len) else {
        return None;
    };
    if first.start == 0 || end != second.start {
        return None;
    }
    let Some(len) = first.len.checked_add(second.len) else {
        return None;
    };
    Some(ColumnSpan {
        start: first.start,
        len,
    })
}

/// Adds a place behind others: as one with the last of them, where the two lie side by side.
fn add_block(blocks: &mut Vec<ColumnSpan>, span: ColumnSpan) -> Result<(), AllocError>
    ensures { OnOk result (HaveSame blocks.new.items (blocks.old.items ++ span ∷ [])) }
{
    if let Some(last) = blocks.pop() {
        if let Some(both) = join(last, span) {
            blocks.push(both)?;
            return Ok(());
        }
        blocks.push(last)?;
    }
    blocks.push(span)?;
    Ok(())
}

/// The same columns, those that lie side by side as one place.
fn blocks_of(alloc: Global, spans: &[ColumnSpan]) -> Result<Vec<ColumnSpan>, AllocError>
    ensures { IfOk result (λ blocks. HaveSame blocks.items spans.now) }
{
    let mut blocks = Vec::new(alloc);
    'spans: for span in spans {
        add_block(&mut blocks, *span)?;
    }
    Ok(blocks)
}

/// The columns of the id items of a dictionary, those that lie side by side as one place.
pub fn id_blocks(alloc: Global, dictionary: &Dictionary) -> Result<Vec<ColumnSpan>, AllocError>
    ensures { IfOk result (λ blocks. HaveSame blocks.items (id_spans dictionary.now)) }
{
    let ids = id_spans(alloc, &dictionary.shape().items)?;
    blocks_of(alloc, &ids)
}

/// Whether two places are all columns up to a width: the one from the first column on, the other behind it.
fn are_front(first: ColumnSpan, second: ColumnSpan, width: usize) -> bool
    ensures { result ≡ true → AreFront first second width }
{
    match join(first, second) {
        Some(both) => both.start == 1 && both.len as usize == width,
        None => false,
    }
}

/// Whether the record type and the id items, of which these are the places, fill a line up to a width.
fn is_filled(record_type: ColumnSpan, blocks: &[ColumnSpan], width: usize) -> bool
    ensures { result ≡ true → TellApart record_type blocks.now width }
{
    match blocks {
        [ids] => are_front(record_type, *ids, width) || are_front(*ids, record_type, width),
        _ => false,
    }
}

/// What stands at a place.
pub fn field_at(columns: Columns<'_>, span: ColumnSpan) -> Columns<'_>
    requires { last_column (span ∷ []) ≤ length (columns_lent columns) }
    ensures { columns_lent result ≡ field_at span (columns_lent columns.entry) }
{
    let first = (span.start as usize).saturating_sub(1);
    columns.part(first, span.len as usize)
}

/// Whether the same stands at a place.
#[inline(always)]
pub(crate) fn is_same_at(a: Columns<'_>, b: Columns<'_>, span: ColumnSpan) -> bool
    requires left { last_column (span ∷ []) ≤ length (columns_lent a) }
    requires right { last_column (span ∷ []) ≤ length (columns_lent b) }
    ensures { result ≡ bytes_eq (field_at span (columns_lent a.entry)) (field_at span (columns_lent b.entry)) }
{
    let first = (span.start as usize).saturating_sub(1);
    is_same(a, b, first, span.len as usize)
}

/// Whether the same stands at these places.
fn are_equal(spans: &[ColumnSpan], a: Columns<'_>, b: Columns<'_>) -> bool
    requires left { last_column spans.now ≤ length (columns_lent a) }
    requires right { last_column spans.now ≤ length (columns_lent b) }
    ensures { result ≡ bytes_eq (fields_at spans.now (columns_lent a.entry)) (fields_at spans.now (columns_lent b.entry)) }
{
    'spans: for span in spans {
        if !is_same_at(a, b, *span) {
            return false;
        }
    }
    true
}

impl Layout {
    /// The layout of a dictionary.
    pub fn read(alloc: Global, dictionary: &Dictionary) -> Result<Layout, AllocError>
        ensures { IfOk result (λ layout. layout ≡ layout_of dictionary.now) }
    {
        let ids = id_spans(alloc, &dictionary.shape().items)?;
        let (start, len) = dictionary.type_columns();
        let record_type = ColumnSpan { start, len };
        let least_width = last_of(record_type).max(last_column(&ids));
        let blocks = blocks_of(alloc, &ids)?;
        let is_filled = is_filled(record_type, &blocks, least_width);
        Ok(Layout {
            ids,
            blocks,
            record_type,
            least_width,
            is_filled,
        })
    }

    /// The width that each line has at least.
    pub fn least_width(&self) -> usize
        ensures { result ≡ self.now.least_width }
    {
        self.least_width
    }

    /// The columns of the record type.
    pub fn record_type(&self) -> ColumnSpan
        ensures { result ≡ self.now.record_type }
    {
        self.record_type
    }

    /// Whether two lines that have the same record type and don't begin alike, up to the least width, are
    /// known to have other id columns.
    pub fn is_filled(&self) -> bool
        ensures { result ≡ true → TellApart self.now.record_type self.now.ids self.now.least_width }
    {
        self.is_filled
    }

    /// Whether two lines have the same id columns.
    pub fn has_same_ids(&self, a: Columns<'_>, b: Columns<'_>) -> bool
        requires left { last_column self.now.ids ≤ length (columns_lent a) }
        requires right { last_column self.now.ids ≤ length (columns_lent b) }
        ensures { result ≡ bytes_eq (fields_at self.now.ids (columns_lent a.entry)) (fields_at self.now.ids (columns_lent b.entry)) }
    {
        are_equal(&self.blocks, a, b)
    }
}
