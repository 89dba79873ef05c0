//! The head of a `do`: where it begins, and how many turns it takes.

ghost use Rattle.std.specs.Prelude.{◌≡◌, [], ◌∷◌, ◌++◌, OnOk};
ghost use Rattle.cse_logic_tree.specs.Typed.{counting, limit};
ghost use Rattle.cse_image_parts.specs.declared.instruction.Op.TheVariants as ops;
ghost use Rattle.cse_compile.specs.Wide as wide;
ghost use Rattle.cse_compile.specs.Setting.{setting};
ghost use Rattle.cse_compile.specs.Statements as spec;

use crate::block_sizes::known;
use crate::emitter::Emitter;
use crate::setting::Setting;
use crate::wide::Wide;
use cse_image_parts::instruction::Op;
use cse_logic_tree::{Counting, Limit};
use cse_syntax_tree::Count;
use cse_value::number::{Num, add, quo, sub};
use std::alloc::AllocError;

/// The least that a limit may be.
pub fn least(s: &Setting, x: &Limit) -> i64
    ensures { result ≡ spec.least (setting s.now).records (limit x.now) }
{
    match x {
        Limit::Literal(whole) => whole.value,
        Limit::Count(Count::MaxOcc, _, of) => s.most_occurrences(*of) as i64,
        Limit::Count(Count::TotOcc, _, _) => 0,
    }
}

/// The greatest that a limit may be.
pub fn greatest(s: &Setting, x: &Limit) -> i64
    ensures { result ≡ spec.greatest (setting s.now).records (limit x.now) }
{
    match x {
        Limit::Literal(whole) => whole.value,
        Limit::Count(_, _, of) => s.most_occurrences(*of) as i64,
    }
}

/// How many turns there are from a first to a last number by a step.
pub fn turns(first: i64, last: i64, step: i64) -> Num
    ensures { result ≡ spec.turns first last step }
{
    quo(
        add(sub(Num::Whole(last), Num::Whole(first)), Num::Whole(step)),
        Num::Whole(step),
    )
}

/// A number of turns as a loop's limit: from 1, in 32 bits.
pub fn as_limit(turns: Num) -> u32
    ensures { result ≡ spec.as_limit turns }
{
    match turns {
        Num::Whole(count) => {
            if count <= 0 {
                1
            } else if count >= 4294967295 {
                u32::MAX
            } else {
                count as u32
            }
        }
        _ => 1,
    }
}

/// The most turns that the limits allow.
pub fn turn_limit(s: &Setting, x: &Counting) -> u32
    ensures { result ≡ spec.turn_limit (setting s.now).records (counting x.now) }
{
    as_limit(turns(least(s, &x.from), greatest(s, &x.to), x.step))
}

impl Emitter<'_> {
    /// A number, or a special value.
    pub fn value(&mut self, number: Num) -> Result<(), AllocError>
        ensures { OnOk result (self.new ≡ self.old ++ wide.value number ∷ []) }
    {
        match number {
            Num::Whole(constant) => self.put(Wide::Constant(constant)),
            Num::NotAppl => self.with_a(Op::Special, 0),
            Num::Missing => self.with_a(Op::Special, 1),
            Num::Undef => self.with_a(Op::Special, 2),
        }
    }

    /// Where a `do` begins or ends.
    pub fn limit(&mut self, s: &Setting, x: &Limit) -> Result<(), AllocError>
        ensures { OnOk result (self.new ≡ self.old ++ spec.limit_code (setting s.now).records (limit x.now) ∷ []) }
    {
        match x {
            Limit::Literal(whole) => self.put(Wide::Constant(whole.value)),
            Limit::Count(Count::MaxOcc, _, of) => {
                self.put(Wide::Constant(s.most_occurrences(*of) as i64))
            }
            Limit::Count(Count::TotOcc, _, of) => self.with_a(Op::TotalOccurrences, *of),
        }
    }

    /// How many turns the loop takes.
    pub fn turns(&mut self, s: &Setting, x: &Counting) -> Result<(), AllocError>
        ensures { OnOk result (self.new ≡ self.old ++ spec.turns_code (setting s.now).records (counting x.now)) }
    {
        match (known(s, &x.from), known(s, &x.to)) {
            (Some(first), Some(last)) => self.value(turns(first, last, x.step)),
            _ => {
                self.limit(s, &x.to)?;
                self.limit(s, &x.from)?;
                self.bare(Op::Subtract)?;
                self.put(Wide::Constant(x.step))?;
                self.bare(Op::Add)?;
                self.put(Wide::Constant(x.step))?;
                self.bare(Op::Quotient)?;
                Ok(())
            }
        }
    }

    /// An operation with a constant.
    fn by(&mut self, op: Op, constant: i64) -> Result<(), AllocError>
        ensures { OnOk result (self.new ≡ self.old ++ (wide.Constant constant ∷ wide.bare op ∷ [])) }
    {
        self.put(Wide::Constant(constant))?;
        self.bare(op)
    }

    /// The variable is set to its start, and the number of turns is laid down.
    pub fn head(&mut self, s: &Setting, x: &Counting) -> Result<(), AllocError>
        ensures { OnOk result (self.new ≡ self.old ++ spec.head_code (setting s.now) (counting x.now)) }
    {
        self.limit(s, &x.from)?;
        self.store(s, x.variable)?;
        self.turns(s, x)
    }

    /// The variable is counted on.
    pub fn step(&mut self, s: &Setting, x: &Counting) -> Result<(), AllocError>
        ensures { OnOk result (self.new ≡ self.old ++ spec.step_code (setting s.now) (counting x.now)) }
    {
        self.load(s, x.variable)?;
        self.by(Op::Add, x.step)?;
        self.store(s, x.variable)
    }
}
