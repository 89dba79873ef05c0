//! The code of variables and of items without subscripts.

ghost use Rattle.std.specs.Prelude.{◌≡◌, ◌+◌, ◌≤◌, [], ◌∷◌, ◌++◌, OnOk, IfOk};
ghost use Rattle.cse_image_parts.specs.declared.instruction.Op.TheVariants as ops;
ghost use Rattle.cse_compile.specs.Wide.{wide, with_b};
ghost use Rattle.cse_compile.specs.Setting.{setting};
ghost use Rattle.cse_compile.specs.Expressions as spec;

use crate::emitter::Emitter;
use crate::setting::Setting;
use crate::wide::Wide;
use cse_image_parts::instruction::Op;
use cse_logic_tree::{Found, Present, Variable};
use cse_syntax_tree::{Operator, Relation, Special};
use std::alloc::AllocError;

/// The special value `default`.
pub const UNDEFINED: Wide<'static> = Wide::Plain(Op::Special, 2, 0, 0);

/// The number of a special value in the image.
pub fn special_number(value: Special) -> u8
    ensures { result ≡ spec.special_number value }
{
    match value {
        Special::NotAppl => 0,
        Special::Missing => 1,
        Special::Default => 2,
    }
}

/// The number of a relation in the image.
pub fn relation_number(relation: Relation) -> u8
    ensures { result ≡ spec.relation_number relation }
{
    match relation {
        Relation::Equal => 0,
        Relation::Differs => 1,
        Relation::Less => 2,
        Relation::AtMost => 3,
        Relation::More => 4,
        Relation::AtLeast => 5,
    }
}

/// The instruction of an operator.
pub fn operation_of(operator: Operator) -> Op
    ensures { result ≡ spec.operation_of operator }
{
    match operator {
        Operator::Or => Op::Or,
        Operator::And => Op::And,
        Operator::Add => Op::Add,
        Operator::Subtract => Op::Subtract,
        Operator::Multiply => Op::Multiply,
        Operator::Divide => Op::Quotient,
        Operator::Remainder => Op::Remainder,
    }
}

impl<'a> Emitter<'a> {
    /// The value of a variable.
    pub fn load(&mut self, s: &Setting, variable: Variable) -> Result<(), AllocError>
        ensures { OnOk result (self.new ≡ self.old ++ spec.load (setting s.now) variable ∷ []) }
    {
        match variable {
            Variable::Global(global) => self.with_c(Op::LoadGlobal, global),
            Variable::Parameter(parameter) => self.with_c(Op::LoadLocal, parameter),
            Variable::Result => self.with_c(Op::LoadLocal, s.result_local()),
        }
    }

    /// The value of a variable, and the place behind it.
    pub(crate) fn number_of_variable(
        &mut self,
        s: &Setting,
        place: usize,
        variable: Variable,
    ) -> Result<usize, AllocError>
        requires room { place + 1 ≤ 1000000 }
        ensures code { OnOk result (self.new ≡ self.old ++ spec.load (setting s.now) variable ∷ []) }
        ensures behind { IfOk result (λ n. n ≡ place + 1) }
    {
        self.load(s, variable)?;
        Ok(place + 1)
    }

    /// The value on top goes into a variable.
    pub fn store(&mut self, s: &Setting, variable: Variable) -> Result<(), AllocError>
        ensures { OnOk result (self.new ≡ self.old ++ spec.store (setting s.now) variable ∷ []) }
    {
        match variable {
            Variable::Global(global) => self.with_c(Op::StoreGlobal, global),
            Variable::Parameter(parameter) => self.with_c(Op::StoreLocal, parameter),
            Variable::Result => self.with_c(Op::StoreLocal, s.result_local()),
        }
    }

    /// The number on top is an occurrence, which an instruction takes; where it is none, a value stands in its place.
    pub fn guarded(
        &mut self,
        place: usize,
        taken: Wide<'a>,
        none: Wide<'a>,
        of: u8,
    ) -> Result<usize, AllocError>
        requires room { place + 4 ≤ 1000000 }
        ensures code { OnOk result (self.new ≡ self.old ++ spec.guarded (wide taken.entry) (wide none.entry) of place) }
        ensures behind { IfOk result (λ n. n ≡ place + 4) }
    {
        self.put(Wide::Plain(Op::Occurrence, of, 0, place + 3))?;
        self.put(taken)?;
        self.with_c(Op::Jump, place + 4)?;
        self.one(place + 3, none)
    }

    /// An instruction takes the occurrence that an item has without a subscript.
    pub fn here(
        &mut self,
        place: usize,
        taken: Wide<'a>,
        none: Wide<'a>,
        of: u8,
        found: Found,
    ) -> Result<usize, AllocError>
        requires room { place + spec.here_size found ≤ 1000000 }
        ensures code { OnOk result (self.new ≡ self.old ++ spec.here_code (wide taken.entry) (wide none.entry) of place found) }
        ensures behind { IfOk result (λ n. n ≡ place + spec.here_size found) }
    {
        match found {
            Found::Loop => {
                self.with_a(Op::CurrentOccurrence, of)?;
                self.one(place + 1, taken)
            }
            Found::Event => {
                self.with_c(Op::LoadLocal, 0)?;
                self.one(place + 1, taken)
            }
            Found::First => {
                self.put(Wide::Constant(1))?;
                self.guarded(place + 1, taken, none, of)
            }
        }
    }

    /// Emits the number of an item that is there.
    pub fn number_of_item(&mut self, place: usize, item: Present) -> Result<usize, AllocError>
        requires room { place + spec.present_size item ≤ 1000000 }
        ensures code { OnOk result (self.new ≡ self.old ++ spec.number_of_item place item) }
        ensures behind { IfOk result (λ n. n ≡ place + spec.present_size item) }
    {
        match item {
            Present::Id(item) => self.one(place, Wide::Plain(Op::IdNumber, 0, 0, item as usize)),
            Present::Here(field, found) => {
                let taken = Wide::Plain(Op::ItemNumber, 0, 0, field.item as usize);
                self.here(place, taken, UNDEFINED, field.owner, found)
            }
        }
    }

    /// Whether an item's value is in a set.
    pub(crate) fn in_set(
        &mut self,
        place: usize,
        item: Present,
        set: u16,
    ) -> Result<usize, AllocError>
        requires room { place + (spec.present_size item + 1) ≤ 1000000 }
        ensures code { OnOk result (self.new ≡ self.old ++ (spec.number_of_item place item ++ with_b ops.InSet set ∷ [])) }
        ensures behind { IfOk result (λ n. n ≡ place + (spec.present_size item + 1)) }
    {
        let at = self.number_of_item(place, item)?;
        self.with_b(Op::InSet, set)?;
        Ok(at + 1)
    }

    /// Emits the text of an item that is there.
    pub fn text_of_item(&mut self, place: usize, item: Present) -> Result<usize, AllocError>
        requires room { place + spec.present_size item ≤ 1000000 }
        ensures code { OnOk result (self.new ≡ self.old ++ spec.text_of_item place item) }
        ensures behind { IfOk result (λ n. n ≡ place + spec.present_size item) }
    {
        match item {
            Present::Id(item) => self.one(place, Wide::Plain(Op::IdText, 0, 0, item as usize)),
            Present::Here(field, found) => {
                let taken = Wide::Plain(Op::ItemText, 0, 0, field.item as usize);
                self.here(place, taken, Wide::Blank, field.owner, found)
            }
        }
    }
}
