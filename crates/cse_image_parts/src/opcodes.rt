//! The table of the instructions: the code of each opcode, and what its fields may hold (own).

ghost use Rattle.std.specs.Prelude.{◌≡◌};
ghost use Rattle.cse_image_parts.specs.Codes.{HasOneCode};
ghost use Rattle.cse_image_parts.specs.Ranges.{range};
ghost use Rattle.cse_image_parts.specs.Opcodes.{Range, lies_in, up_to as spec_up_to, shape, op_of, op_code, fits_a, fits_b, fits_c};

use crate::instruction::Op;
use crate::version::{Version, holds_limit};

/// The opcode of this code.
#[tactic(auto, unfolding(crate::specs::Opcodes::op_of, crate::specs::Opcodes::shape))]
pub fn op_named(code: u8) -> Option<Op>
    ensures { result ≡ op_of code }
{
    match code {
        1 => Some(Op::Number),
        2 => Some(Op::Special),
        3 => Some(Op::Text),
        4 => Some(Op::LoadLocal),
        5 => Some(Op::StoreLocal),
        6 => Some(Op::LoadGlobal),
        7 => Some(Op::StoreGlobal),
        8 => Some(Op::Add),
        9 => Some(Op::Subtract),
        10 => Some(Op::Multiply),
        11 => Some(Op::Quotient),
        12 => Some(Op::Remainder),
        13 => Some(Op::Negate),
        14 => Some(Op::Compare),
        15 => Some(Op::CompareText),
        16 => Some(Op::And),
        17 => Some(Op::Or),
        18 => Some(Op::Not),
        19 => Some(Op::IsSpecial),
        20 => Some(Op::Jump),
        21 => Some(Op::JumpUnless),
        22 => Some(Op::Index),
        23 => Some(Op::Occurrence),
        24 => Some(Op::Row),
        25 => Some(Op::CurrentOccurrence),
        26 => Some(Op::OccurrenceNumber),
        27 => Some(Op::TotalOccurrences),
        28 => Some(Op::IdNumber),
        29 => Some(Op::IdText),
        30 => Some(Op::ItemNumber),
        31 => Some(Op::ItemText),
        32 => Some(Op::StoreNumber),
        33 => Some(Op::StoreText),
        34 => Some(Op::LoadCell),
        35 => Some(Op::StoreCell),
        36 => Some(Op::InSet),
        37 => Some(Op::Message),
        38 => Some(Op::Impute),
        39 => Some(Op::Call),
        40 => Some(Op::Return),
        41 => Some(Op::LoopCount),
        42 => Some(Op::LoopOccurrences),
        43 => Some(Op::End),
        44 => Some(Op::Break),
        45 => Some(Op::Pop),
        _ => None,
    }
}

/// The number of an opcode, from 0 to 45.
#[tactic(auto, unfolding(crate::specs::Opcodes::shape))]
pub fn op_number(op: Op) -> u8
    ensures { result ≡ op_code op }
{
    op as u8
}

/// The numbers from low to high.
#[derive(Clone, Copy)]
pub struct FieldRange {
    low: u32,
    high: u32,
}

/// What the fields of an opcode may hold; `c_else` is for c where a is not 0.
#[derive(Drop)]
struct Fields {
    a: FieldRange,
    b: FieldRange,
    c: FieldRange,
    c_else: FieldRange,
}

/// 0 alone: the opcode has no such field.
const NONE: FieldRange = FieldRange { low: 0, high: 0 };

/// A number in a table of the image, or a place: any.
const ANY: FieldRange = FieldRange {
    low: 0,
    high: 4294967295,
};

/// The number of a record.
const RECORD: FieldRange = FieldRange { low: 0, high: 255 };

/// The number of a value set.
const SET: FieldRange = FieldRange {
    low: 0,
    high: 65535,
};

/// The place of a limit.
const LIMIT: FieldRange = FieldRange {
    low: 0,
    high: 65535,
};

/// The limit of an index: from 1.
const POSITIVE: FieldRange = FieldRange {
    low: 1,
    high: 65535,
};

impl FieldRange {
    fn have(&self, n: u32) -> bool
        ensures { result ≡ lies_in (range self.now) n }
    {
        self.low <= n && n <= self.high
    }
}

fn up_to(high: u32) -> FieldRange
    ensures { range result ≡ spec_up_to high }
{
    FieldRange { low: 0, high }
}

/// The table, a line for the opcodes with the same fields.
#[tactic(auto, unfolding(crate::specs::Opcodes::shape))]
fn fields_of(op: Op) -> Fields
    ensures a { range result.a ≡ (shape op).a }
    ensures b { range result.b ≡ (shape op).b }
    ensures c { range result.c ≡ (shape op).c }
    ensures c_else { range result.c_else ≡ (shape op).c_else }
{
    let (a, b, c, c_else) = match op {
        Op::Add | Op::Subtract | Op::Multiply | Op::Quotient | Op::Remainder | Op::Negate => {
            (NONE, NONE, NONE, NONE)
        }
        Op::And | Op::Or | Op::Not | Op::IsSpecial | Op::Return => (NONE, NONE, NONE, NONE),
        Op::Special | Op::Pop => (up_to(2), NONE, NONE, NONE),
        Op::Compare | Op::CompareText => (up_to(5), NONE, NONE, NONE),
        Op::Number | Op::Text | Op::Message | Op::Call => (NONE, NONE, ANY, ANY),
        Op::LoadLocal | Op::StoreLocal | Op::LoadGlobal | Op::StoreGlobal => {
            (NONE, NONE, ANY, ANY)
        }
        Op::IdNumber | Op::IdText | Op::ItemNumber | Op::ItemText => (NONE, NONE, ANY, ANY),
        Op::StoreNumber | Op::StoreText | Op::Impute => (NONE, NONE, ANY, ANY),
        Op::LoadCell | Op::StoreCell => (NONE, NONE, ANY, ANY),
        Op::Jump | Op::JumpUnless | Op::End | Op::Break => (NONE, NONE, ANY, ANY),
        Op::Index => (NONE, POSITIVE, ANY, ANY),
        Op::LoopCount => (NONE, LIMIT, ANY, ANY),
        Op::Occurrence | Op::LoopOccurrences => (RECORD, NONE, ANY, ANY),
        Op::CurrentOccurrence | Op::OccurrenceNumber | Op::TotalOccurrences => {
            (RECORD, NONE, NONE, NONE)
        }
        Op::Row => (up_to(1), SET, ANY, NONE),
        Op::InSet => (NONE, SET, NONE, NONE),
    };
    Fields { a, b, c, c_else }
}

/// May an instruction of this opcode have this a?
pub fn is_right_a(op: Op, a: u8) -> bool
    ensures { result ≡ fits_a op a }
{
    fields_of(op).a.have(a as u32)
}

/// May it have this b? In version 1 the b of a counting loop is its limit, from 1.
pub fn is_right_b(version: Version, op: Op, b: u16) -> bool
    ensures { result ≡ fits_b version op b }
{
    fields_of(op).b.have(b as u32) && !(holds_limit(version, op) && b == 0)
}

/// May it have this c beside its a?
pub fn is_right_c(op: Op, a: u8, c: u32) -> bool
    ensures { result ≡ fits_c op a c }
{
    let fields = fields_of(op);
    if a == 0 {
        fields.c.have(c)
    } else {
        fields.c_else.have(c)
    }
}

/// Law: an opcode is the one that its code stands for, and no other number stands for it.
pub fn each_opcode_has_one_code(op: Op)
    ensures { HasOneCode op_code op_of op }
{}
