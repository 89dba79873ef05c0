//! A line of a file, as columns.

ghost use Rattle.std.specs.Prelude.{◌≡◌, ◌<◌, ◌≤◌, ◌-◌, ◌++◌, ◌∷◌, [], ℕ, List, drop, length, replicate, take, true, false, Some, IfOk, IfErr, IfSome, OnOk};
ghost use Rattle.cse_dict.specs.Dictionary.{number_of_type};
ghost use Rattle.std.specs.Str.{chars, is_utf8};
ghost use Rattle.cse_case.specs.declared.decode.Beginning.TheVariants.{Alike, Apart};
ghost use Rattle.cse_case.specs.declared.decode.LineStop.TheVariants.{Memory};
ghost use Rattle.cse_case.specs.NamedColumns.{TellApart, field_at, last_column, layout_of, least_width, padded, record_len, record_of, type_span, width_of};
ghost use Rattle.cse_case.specs.Runs.{line_fault};
ghost use Rattle.cse_case.specs.Bytes.{columns_lent};
ghost use Rattle.cse_case.specs.Decoding.{BeginsAs, Holds, IfFault, IsDecoded, IsTyped};

use crate::columns::{Columns, put_columns};
use crate::cut::{MOST_BYTES, split_end, split_mark};
use crate::filled::Filled;
use crate::layout::{ColumnSpan, Layout, field_at, is_same_at};
use crate::line::Ending;
use crate::same::is_same;
use cse_dict::Dictionary;
use cse_fault_numbers::LINE_TOO_LONG;
use std::alloc::AllocError;

/// The most columns of a line.
pub const MOST_COLUMNS: usize = 65_536;

/// Why a line isn't taken: want of memory, or a fault of this number.
#[derive(Clone, Copy)]
pub enum LineStop {
    Memory,
    Fault(u8),
}

impl From<AllocError> for LineStop {
    ghost from_gives = { λ _ e. e ≡ Memory };

    fn from(_refused: AllocError) -> LineStop {
        LineStop::Memory
    }
}

/// How a line begins, beside the line before it.
#[derive(Clone, Copy)]
pub enum Beginning {
    /// As that line, up to the least width of a line.
    Alike,
    /// With other id columns.
    Apart,
    /// Neither is known.
    Unknown,
}

/// What a line is beside its columns.
#[derive(Clone, Copy)]
pub struct Head {
    /// How many columns it has in the file.
    pub len: usize,
    pub ending: Ending,
    /// The number of the record whose type stands in it.
    pub record_number: Option<u16>,
    /// Whether the byte order mark stands before it.
    pub marked: bool,
    /// How it begins beside the line before it.
    pub beginning: Beginning,
    /// Whether it has as many columns as bytes.
    pub is_ascii: bool,
}

/// The columns of a line of the record.
fn record_len(dictionary: &Dictionary, record_number: Option<u16>) -> usize
    ensures { result ≡ record_len dictionary.now record_number }
{
    match record_number {
        Some(number) => match dictionary.shape().records.get(number as usize) {
            Some(record) => record.record_len as usize,
            None => 0,
        },
        None => 0,
    }
}

/// The number of the record of a type, which has at most 16 columns.
#[inline(never)]
fn record_of_any(dictionary: &Dictionary, columns: Columns<'_>) -> Option<u16>
    requires { length (columns_lent columns) ≤ 16 }
    ensures { result ≡ number_of_type (columns_lent columns.entry) dictionary.now }
{
    let mut characters = [' '; 16];
    let front = &mut characters[..columns.len()];
    put_columns(front, columns);
    dictionary.record_of(front)
}

/// The number of the record whose type stands at a place, which has at most 16 columns, and mostly one.
#[inline(always)]
fn record_of(dictionary: &Dictionary, columns: Columns<'_>, span: ColumnSpan) -> Option<u16>
    requires few { span.len ≤ 16 }
    requires there { last_column (span ∷ []) ≤ length (columns_lent columns) }
    ensures { result ≡ number_of_type (field_at span (columns_lent columns.entry)) dictionary.now }
{
    if span.len == 1 {
        let first = (span.start as usize).saturating_sub(1);
        return dictionary.record_of(&[columns.at(first)]);
    }
    record_of_any(dictionary, field_at(columns, span))
}

/// How a line begins that has the record type of the line before it, and doesn't begin alike.
fn told_apart(layout: &Layout) -> Beginning
    ensures never { result ≡ Alike → ⊥ }
    ensures apart { result ≡ Apart → TellApart layout.now.record_type layout.now.ids layout.now.least_width }
{
    if layout.is_filled() {
        Beginning::Apart
    } else {
        Beginning::Unknown
    }
}

/// The record that the type of a line names, by its columns, and how these begin beside those of the line
/// before it. Where the types are the same, its record is that line's.
fn record_in(
    dictionary: &Dictionary,
    layout: &Layout,
    columns: Columns<'_>,
    last: Option<(Columns<'_>, Option<u16>)>,
) -> (Option<u16>, Beginning)
    requires layout { layout.now ≡ layout_of dictionary.now }
    requires wide { least_width dictionary.now ≤ length (columns_lent columns) }
    requires last { IfSome last (λ l. IsTyped dictionary.now (columns_lent l.0) l.1) }
    ensures number { result.0 ≡ number_of_type (field_at (type_span dictionary.now) (columns_lent columns.entry)) dictionary.now }
    ensures same { IfSome last.entry (λ l. BeginsAs dictionary.now result.1 (columns_lent columns.entry) (columns_lent l.0)) }
{
    let width = layout.least_width();
    let span = layout.record_type();
    if let Some((before, number)) = last {
        if is_same(columns, before, 0, width) {
            return (number, Beginning::Alike);
        }
        if is_same_at(columns, before, span) {
            return (number, told_apart(layout));
        }
    }
    let _shape = dictionary.shape();
    let number = record_of(dictionary, columns, span);
    (number, Beginning::Unknown)
}

/// Cuts or pads the columns of a line, of which the file has so many and the others are blank, to its
/// width, and tells the record that its type names, and how it begins beside the line before it.
fn widen(
    dictionary: &Dictionary,
    layout: &Layout,
    columns: &mut Filled,
    len: usize,
    last: Option<(Columns<'_>, Option<u16>)>,
) -> Result<(Option<u16>, Beginning), AllocError>
    requires layout { layout.now ≡ layout_of dictionary.now }
    requires last { IfSome last (λ l. IsTyped dictionary.now (columns_lent l.0) l.1) }
    ensures number { IfOk result (λ known. (text : List ℕ) → Holds columns.old text len → known.0 ≡ record_of dictionary.now text) }
    ensures same { IfOk result (λ known. IfSome last.entry (λ l. BeginsAs dictionary.now known.1 columns.new (columns_lent l.0))) }
    ensures columns { OnOk result ((text : List ℕ) → Holds columns.old text len → columns.new ≡ padded (width_of dictionary.now text) text) }
{
    let least_width = layout.least_width();
    columns.pad(least_width)?;
    let (record_number, beginning) = record_in(dictionary, layout, columns.columns(), last);
    let width = len.max(least_width);
    columns.set_width(width.max(record_len(dictionary, record_number)))?;
    Ok((record_number, beginning))
}

/// A line with its end, at the front of the file or not, as columns in place of what was there. The last
/// line before it may be told by its columns and the number of its record.
pub fn decode(
    dictionary: &Dictionary,
    layout: &Layout,
    line: &[u8],
    front: bool,
    last: Option<(Columns<'_>, Option<u16>)>,
    columns: &mut Filled,
) -> Result<Head, LineStop>
    requires layout { layout.now ≡ layout_of dictionary.now }
    requires last { IfSome last (λ l. IsTyped dictionary.now (columns_lent l.0) l.1) }
    ensures ok { IfOk result (λ head. IsDecoded dictionary.now (front, line.now) columns.new head) }
    ensures same { IfOk result (λ head. IfSome last.entry (λ l. BeginsAs dictionary.now head.beginning columns.new (columns_lent l.0))) }
    ensures err { IfErr result (IfFault (λ number. line_fault (front, line.now) ≡ Some number)) }
    ensures low { IfErr result (IfFault (λ number. number < 70)) }
{
    let (bytes, ending) = split_end(line);
    let (marked, text) = split_mark(bytes, front);
    if text.len() > MOST_BYTES {
        return Err(LineStop::Fault(LINE_TOO_LONG));
    }
    let len = columns.read(text)?;
    if len > MOST_COLUMNS {
        return Err(LineStop::Fault(LINE_TOO_LONG));
    }
    let (record_number, beginning) = widen(dictionary, layout, columns, len, last)?;
    Ok(Head {
        len,
        ending,
        record_number,
        marked,
        beginning,
        is_ascii: len == text.len(),
    })
}
