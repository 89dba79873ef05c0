//! An instruction, eight bytes.

ghost use Rattle.cse_image_parts.specs.Reader.{GivesFault};
ghost use Rattle.cse_image.specs.Reading.{instr_at};

use cse_image_parts::instruction::Instr;
use cse_image_parts::opcodes::{is_right_a, is_right_b, is_right_c, op_named};
use cse_image_parts::version::Version;
use cse_image_parts::{FieldFault, Rule, broken, u8_at, u16_at, u32_at};

/// An instruction, and the bytes after it: its opcode, then operands that this opcode may have in this version.
#[inline]
#[tactic(auto, unfolding(cse_image_parts::specs::Reader::checked, cse_image_parts::specs::Reader::decoded, cse_image_parts::specs::Reader::then_at, cse_image_parts::specs::Reader::done, crate::specs::Reading::instr_at))]
pub fn instr_of(version: Version, bytes: &[u8]) -> Result<(Instr, &[u8]), FieldFault>
    ensures { GivesFault (λ x. (x.0, x.1.now)) result (instr_at version bytes.now) }
{
    let (code, after_op) = u8_at(bytes)?;
    let Some(op) = op_named(code) else {
        return Err(broken(Rule::Form, bytes));
    };
    let (a, after_a) = u8_at(after_op)?;
    if !is_right_a(op, a) {
        return Err(broken(Rule::Form, after_op));
    }
    let (b, after_b) = u16_at(after_a)?;
    if !is_right_b(version, op, b) {
        return Err(broken(Rule::Form, after_a));
    }
    let (c, rest) = u32_at(after_b)?;
    if !is_right_c(op, a, c) {
        return Err(broken(Rule::Form, after_b));
    }
    Ok((Instr { op, a, b, c }, rest))
}
