//! The versions of the image format, and how they differ (own). In version 2 a counting loop names an
//! entry of the table of limits, and a routine may give a text. In version 1 there is no such table: the
//! loop's b is its limit, from 1, and a routine gives a number or nothing.

ghost use Rattle.std.specs.Prelude.{◌≡◌, ◌≤◌, ◌<◌, ℕ, List, Some, true, slice_get};
ghost use Rattle.cse_image_parts.specs.declared.instruction.Instr.{Instr as AnInstr};
ghost use Rattle.cse_image_parts.specs.Turns.{limit_of};
ghost use Rattle.cse_image_parts.specs.Upgrade.{greatest_limit, one_to, zero_below, upgrade_instr};
ghost use Rattle.cse_image_parts.specs.Versions.{version_code, version_of, may_give as spec_may_give, is_counting, holds_limit as spec_holds_limit};

use crate::entries::Gift;
use crate::instruction::Op;

/// A version of the image format.
#[derive(Clone, Copy)]
pub enum Version {
    One = 1,
    Two = 2,
}

/// The version of this number.
pub fn version_named(code: u16) -> Option<Version>
    ensures { result ≡ version_of code }
{
    match code {
        1 => Some(Version::One),
        2 => Some(Version::Two),
        _ => None,
    }
}

/// The number of a version, as the header has it.
pub fn version_number(version: Version) -> u16
    ensures { result ≡ version_code version }
{
    version as u16
}

/// May a routine give this? A text from version 2 on.
pub fn may_give(version: Version, gives: Gift) -> bool
    ensures { result ≡ spec_may_give version gives }
{
    match version {
        Version::One => match gives {
            Gift::Nothing | Gift::Number => true,
            Gift::Text => false,
        },
        Version::Two => true,
    }
}

/// Is this the opener of a counting loop?
#[inline]
pub fn is_counting_loop(op: Op) -> bool
    ensures { result ≡ is_counting op }
{
    match op {
        Op::LoopCount => true,
        _ => false,
    }
}

/// Is b the limit of a loop itself? In version 2 it is the limit's place in the table.
pub fn holds_limit(version: Version, op: Op) -> bool
    ensures { result ≡ spec_holds_limit version op }
{
    match version {
        Version::One => is_counting_loop(op),
        Version::Two => false,
    }
}

/// Law: a counting loop of an upgraded program may take as many turns as it might before.
#[tactic(auto, using(crate::proofs::UpgradeLaws::turns_kept))]
pub fn upgrade_keeps_turns()
    ensures { (code : List AnInstr) (i : ℕ) (x : AnInstr) → slice_get code i ≡ Some x → is_counting x.op
        ≡ true → 1 ≤ x.b → x.b < 65536 → limit_of (one_to (greatest_limit code)) (upgrade_instr x).b ≡ limit_of (zero_below 65536) x.b }
{}
