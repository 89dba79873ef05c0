//! Parts of images, as they are built: placeholders, names, single fields and instructions, a row of each call. The others
//! are laws of `part_laws`.

use cse_image_parts::codes::*;
use cse_image_parts::entries::*;
use cse_image_parts::instruction::Op;
use cse_image_parts::opcodes::*;
use cse_image_parts::placeholders::*;
use cse_image_parts::rules::*;
use cse_image_parts::texts::*;
use cse_image_parts::version::*;

/// How many pieces a text has, and the width of the last placeholder of a number, with whether it is filled with zeros.
fn count_pieces(text: &[u8]) -> (u64, Option<(u8, bool)>) {
    let mut count = 0u64;
    let mut number = None;
    for piece in Pieces::new(text) {
        count = count.saturating_add(1);
        if let (Some(ArgumentKind::Number), Piece::Number { width, zeros }) = (
            piece.argument(),
            piece,
        ) {
            number = Some((width, zeros));
        }
    }
    (count, number)
}

fn placeholders() -> bool {
    let text = b"adults %d of %s".as_slice();
    (count_pieces(b"a%%%s%3%099d%0d") == (9, Some((99, true))))
        & (count_placeholders(text) == 2)
        & are_few_placeholders(text)
        & matches!(kind_at(text, 1), Some(ArgumentKind::Text))
        & kind_at(text, 2).is_none()
}

fn texts_and_names() -> bool {
    (plain_text(b"\xc3\xa4 b") == Some("\u{e4} b"))
        & plain_text(b"\xc3").is_none()
        & is_plain_text(" \x7f")
        & array_name(b"A_1").is_some()
        & array_name(b"1A").is_none()
}

fn fields() -> bool {
    let last = EventEntry {
        code: EventCode::ItemPreproc,
        index: 4,
        routine: 0,
    };
    is_right_global_length(GlobalKind::Text, 255)
        & !is_right_local_length(LocalKind::Occurrence, 1)
        & !is_right_owner(LocalKind::Number, 7)
        & !is_right_kind(2, 2, LocalKind::Occurrence)
        & !has_room_for_cells(0, &[65535, 65535, 65535])
        & is_right_cell_count(&[2, 3], 6)
        & has_room_for_code(999_999, 1)
        & comes_after(Some(last), EventCode::ItemPostproc, 0)
        & (event_code_number(EventCode::RecordPreproc) == 4)
}

fn instructions() -> bool {
    matches!(op_named(24), Some(Op::Row))
        & op_named(46).is_none()
        & is_right_a(Op::Row, 1)
        & is_right_b(Version::One, Op::Row, 65535)
        & !is_right_c(Op::Row, 1, 1)
}

/// Whether all parts are judged right.
pub(crate) fn are_right() -> bool {
    placeholders() & texts_and_names() & fields() & instructions()
}
