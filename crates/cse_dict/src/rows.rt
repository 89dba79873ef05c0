//! The rows of a value set: its pairs of numbers, each with its row.
ghost use Rattle.std.specs.Prelude.{◌≡◌, OnOk, IfOk, fold};
ghost use Rattle.cse_dict.specs.Pairs.{RowsText, no_rows, pieces_of, rows_of, with_pair, with_piece, with_pieces, with_value};

use crate::keys::DataType;
use crate::pairs::{Pair, first_piece, is_value, pair_of};
use cse_sections::sections::{Entry, Section};
use std::alloc::{AllocError, Global};
use std::marker::Model;

/// The numbers from one to another, and their row, counted from 0.
#[derive(Clone, Copy)]
pub struct NumberSpan {
    pub low: i64,
    pub high: i64,
    pub row: u32,
}

/// The pairs of numbers so far, how many rows there are (up to 65,535), and whether a piece was skipped.
#[derive(Drop)]
pub struct Rows {
    pub spans: Vec<NumberSpan>,
    pub rows: u16,
    pub partial: bool,
}

impl Model for Rows {
    ghost Value = { RowsText };

    ghost view = { λ r. record { spans = r.spans.items; rows = r.rows; partial = r.partial } };
}

/// One pair more.
fn add_pair(rows: &mut Rows, pair: Pair) -> Result<(), AllocError>
    ensures { OnOk result (rows.new ≡ with_pair rows.old pair) }
{
    match pair {
        Pair::Range(low, high) => {
            let row = u32::from(rows.rows).min(65534);
            rows.spans.push(NumberSpan { low, high, row })?;
            Ok(())
        }
        Pair::Skipped => {
            rows.partial = true;
            Ok(())
        }
        Pair::Nothing | Pair::NoNumber => Ok(()),
    }
}

/// One piece more.
#[tactic(auto, unfolding(crate::specs::Pairs::with_piece))]
fn add_piece(rows: &mut Rows, data_type: DataType, piece: &[u8]) -> Result<(), AllocError>
    ensures { OnOk result (rows.new ≡ with_piece data_type rows.old piece.now) }
{
    add_pair(rows, pair_of(data_type, piece))
}

/// All pieces of a value.
#[tactic(auto, unfolding(crate::specs::Pairs::pieces_of))]
fn add_pieces(rows: &mut Rows, data_type: DataType, value: &[u8]) -> Result<(), AllocError>
    ensures { OnOk result (rows.new ≡ with_pieces data_type rows.old value.now) }
{
    let mut rest = value;
    'pieces: while !rest.is_empty() {
        let (piece, more) = first_piece(rest);
        add_piece(rows, data_type, piece)?;
        rest = more;
    }
    Ok(())
}

/// The row that a line holds, if it holds one.
#[tactic(auto, unfolding(crate::specs::Pairs::with_value))]
fn add_value(rows: &mut Rows, data_type: DataType, entry: &Entry<'_>) -> Result<(), AllocError>
    ensures { OnOk result (rows.new ≡ with_value data_type rows.old entry.now) }
{
    if !is_value(entry) {
        return Ok(());
    }
    add_pieces(rows, data_type, entry.value)?;
    rows.rows = rows.rows.saturating_add(1).min(65535);
    Ok(())
}

/// The rows of a value set of an item of this type.
#[tactic(auto, unfolding(crate::specs::Pairs::rows_of))]
pub fn rows_of(
    alloc: Global,
    data_type: DataType,
    section: &Section<'_>,
) -> Result<Rows, AllocError>
    ensures { IfOk result (λ rows. rows ≡ rows_of data_type section.now) }
{
    let mut rows = Rows {
        spans: Vec::new(alloc),
        rows: 0,
        partial: false,
    };
    'entries: for entry in &section.entries {
        add_value(&mut rows, data_type, entry)?;
    }
    Ok(rows)
}
