//! The code of statements that hold no other statements.

ghost use Rattle.std.specs.Prelude.{◌≡◌, ◌+◌, ◌≤◌, [], ◌∷◌, ◌++◌, map, OnOk, IfOk};
ghost use Rattle.cse_image_parts.specs.declared.instruction.Op.TheVariants as ops;
ghost use Rattle.cse_logic_tree.specs.Typed.{number, words, numbers, which, argument};
ghost use Rattle.cse_compile.specs.Wide.{with_a, with_c};
ghost use Rattle.cse_compile.specs.Setting.{setting};
ghost use Rattle.cse_compile.specs.Expressions.{store, behind, deepest, number_size, number_code, words_size, words_code, numbers_size, numbers_code, indexes_size, picks_size as size_of_picks};
ghost use Rattle.cse_compile.specs.Statements as spec;
ghost use Rattle.cse_compile.specs.Clauses.{all_numbers, cell_kept_code, cell_kept_end, deck_kept_code, number_put_code, words_put_code};

use crate::block_sizes::{drops_size, jump_size, which_size as size_of_which};
use crate::decks::{deepest as deepest_of, picks_size};
use crate::emitter::Emitter;
use crate::setting::Setting;
use crate::sizes::{
    behind as behind_of, indexes_size as size_of_indexes, number_size as size_of_number,
    words_size as size_of_words,
};
use crate::wide::Wide;
use cse_image_parts::instruction::Op;
use cse_logic_tree::{Argument, Field, Found, Number, Pick, Variable, Which, Words};
use std::alloc::AllocError;

impl<'a> Emitter<'a> {
    /// An occurrence of a record; to a place where it isn't there.
    pub fn which(
        &mut self,
        s: &Setting,
        of: u8,
        fail: usize,
        place: usize,
        x: &Which<'a>,
    ) -> Result<usize, AllocError>
        requires room { place + spec.which_size (which x.now) ≤ 1000000 }
        ensures code { OnOk result (self.new ≡ self.old ++ spec.which_code (setting s.now) of fail place (which x.now)) }
        ensures behind { IfOk result (λ n. n ≡ place + spec.which_size (which x.now)) }
    {
        match x {
            Which::Here(Found::Loop) => {
                self.one(place, Wide::Plain(Op::CurrentOccurrence, of, 0, 0))
            }
            Which::Here(Found::Event) => self.one(place, Wide::Plain(Op::LoadLocal, 0, 0, 0)),
            Which::Here(Found::First) => {
                self.put(Wide::Constant(1))?;
                self.one(place + 1, Wide::Plain(Op::Occurrence, of, 0, fail))
            }
            Which::At(subscript) => {
                let at = self.number(s, place, subscript)?;
                self.one(at, Wide::Plain(Op::Occurrence, of, 0, fail))
            }
        }
    }

    /// The end of a statement that puts a value where indexes lead.
    pub fn drops(&mut self, place: usize, count: usize) -> Result<usize, AllocError>
        requires room { place + spec.drops_size count ≤ 1000000 }
        ensures code { OnOk result (self.new ≡ self.old ++ spec.drops_code place count) }
        ensures behind { IfOk result (λ n. n ≡ place + spec.drops_size count) }
    {
        let end = place + drops_size(count);
        self.jump_over(end, count)?;
        self.pops(count)?;
        Ok(end)
    }

    /// A number into a variable.
    pub(crate) fn number_into_variable(
        &mut self,
        s: &Setting,
        place: usize,
        variable: Variable,
        value: &Number<'a>,
    ) -> Result<usize, AllocError>
        requires room { place + (number_size (number value.now) + 1) ≤ 1000000 }
        ensures code { OnOk result (self.new ≡ self.old ++ (number_code (setting s.now) place (number value.now) ++ store (setting s.now) variable ∷ [])) }
        ensures behind { IfOk result (λ n. n ≡ place + (number_size (number value.now) + 1)) }
    {
        let at = self.number(s, place, value)?;
        self.store(s, variable)?;
        Ok(at + 1)
    }

    /// A text into a variable, which is a global.
    pub(crate) fn words_into_variable(
        &mut self,
        s: &Setting,
        place: usize,
        variable: usize,
        value: &Words<'a>,
    ) -> Result<usize, AllocError>
        requires room { place + (words_size (words value.now) + 1) ≤ 1000000 }
        ensures code { OnOk result (self.new ≡ self.old ++ (words_code (setting s.now) place (words value.now) ++ with_c ops.StoreGlobal variable ∷ [])) }
        ensures behind { IfOk result (λ n. n ≡ place + (words_size (words value.now) + 1)) }
    {
        let at = self.words(s, place, value)?;
        self.one(at, Wide::Plain(Op::StoreGlobal, 0, 0, variable))
    }

    /// A number into an item, by the instruction that does it.
    pub fn number_into(
        &mut self,
        s: &Setting,
        place: usize,
        op: Op,
        field: Field,
        at: &Which<'a>,
        value: &Number<'a>,
    ) -> Result<usize, AllocError>
        requires room { place + (spec.which_size (which at.now) + (number_size (number value.now) + 1)) ≤ 1000000 }
        ensures code { OnOk result (self.new ≡ self.old ++ number_put_code (setting s.now) field op place (which at.now) (number value.now)) }
        ensures behind { IfOk result (λ n. n ≡ place + (spec.which_size (which at.now) + (number_size (number value.now) + 1))) }
    {
        let end = place + size_of_which(at) + size_of_number(value) + 1;
        let second = self.which(s, field.owner, end, place, at)?;
        let put = self.number(s, second, value)?;
        self.one(put, Wide::Plain(op, 0, 0, field.item as usize))
    }

    /// A text into an item.
    pub fn words_into(
        &mut self,
        s: &Setting,
        place: usize,
        field: Field,
        at: &Which<'a>,
        value: &Words<'a>,
    ) -> Result<usize, AllocError>
        requires room { place + (spec.which_size (which at.now) + (words_size (words value.now) + 1)) ≤ 1000000 }
        ensures code { OnOk result (self.new ≡ self.old ++ words_put_code (setting s.now) field place (which at.now) (words value.now)) }
        ensures behind { IfOk result (λ n. n ≡ place + (spec.which_size (which at.now) + (words_size (words value.now) + 1))) }
    {
        let end = place + size_of_which(at) + size_of_words(value) + 1;
        let second = self.which(s, field.owner, end, place, at)?;
        let put = self.words(s, second, value)?;
        self.one(put, Wide::Plain(Op::StoreText, 0, 0, field.item as usize))
    }

    /// A number into a cell.
    pub fn number_into_cell(
        &mut self,
        s: &Setting,
        place: usize,
        array: usize,
        subscripts: &Vec<Number<'a>>,
        value: &Number<'a>,
    ) -> Result<usize, AllocError>
        requires room { cell_kept_end place (all_numbers subscripts.now.items) (number value.now) ≤ 1000000 }
        ensures code { OnOk result (self.new ≡ self.old ++ cell_kept_code (setting s.now) array place (all_numbers subscripts.now.items) (number value.now)) }
        ensures behind { IfOk result (λ n. n ≡ cell_kept_end place (all_numbers subscripts.now.items) (number value.now)) }
    {
        let count = behind_of(subscripts);
        let after = size_of_number(value) + 1 + jump_size(count);
        let second = self.indexes(s, place, array, after, subscripts)?;
        let last = self.number(s, second, value)?;
        self.with_c(Op::StoreCell, array)?;
        self.drops(last + 1, count)
    }

    /// A number into the cell of a hot deck.
    pub fn number_into_deck(
        &mut self,
        s: &Setting,
        place: usize,
        array: usize,
        picks: &[Pick],
        value: &Number<'a>,
    ) -> Result<usize, AllocError>
        requires room { place + (size_of_picks picks.now + (number_size (number value.now) + (spec.drops_size (deepest picks.now) + 1))) ≤ 1000000 }
        ensures code { OnOk result (self.new ≡ self.old ++ deck_kept_code (setting s.now) array place picks.now (number value.now)) }
        ensures behind { IfOk result (λ n. n
            ≡ place + (size_of_picks picks.now + (number_size (number value.now) + (spec.drops_size (deepest picks.now) + 1)))) }
    {
        let count = deepest_of(picks);
        let drops = place + picks_size(picks) + size_of_number(value) + 1 + jump_size(count);
        let second = self.picks(drops, place, picks)?;
        let last = self.number(s, second, value)?;
        self.with_c(Op::StoreCell, array)?;
        self.drops(last + 1, count)
    }

    /// A function is called, and its result dropped.
    pub(crate) fn call_alone(
        &mut self,
        s: &Setting,
        place: usize,
        function: usize,
        arguments: &Vec<Number<'a>>,
    ) -> Result<usize, AllocError>
        requires room { place + (numbers_size (all_numbers arguments.now.items) + 2) ≤ 1000000 }
        ensures code { OnOk result (self.new
            ≡ self.old ++ (numbers_code (setting s.now) place (all_numbers arguments.now.items) ++ (with_c ops.Call function ∷ with_a ops.Pop 0 ∷ []))) }
        ensures behind { IfOk result (λ n. n ≡ place + (numbers_size (all_numbers arguments.now.items) + 2)) }
    {
        let at = self.numbers(s, place, arguments)?;
        self.with_c(Op::Call, function)?;
        self.one(at + 1, Wide::Plain(Op::Pop, 0, 0, 0))
    }

    /// A message is given, with its values.
    pub(crate) fn message(
        &mut self,
        s: &Setting,
        place: usize,
        index: usize,
        values: &Vec<Argument<'a>>,
    ) -> Result<usize, AllocError>
        requires room { place + (spec.arguments_size (map argument values.now.items) + 1) ≤ 1000000 }
        ensures code { OnOk result (self.new
            ≡ self.old ++ (spec.arguments_code (setting s.now) place (map argument values.now.items) ++ with_c ops.Message index ∷ [])) }
        ensures behind { IfOk result (λ n. n ≡ place + (spec.arguments_size (map argument values.now.items) + 1)) }
    {
        let at = self.arguments(s, place, values)?;
        self.one(at, Wide::Plain(Op::Message, 0, 0, index))
    }

    /// The values of a message.
    #[tactic(auto, unfolding(crate::specs::Statements::arguments_size, crate::specs::Statements::arguments_code))]
    pub fn arguments(
        &mut self,
        s: &Setting,
        place: usize,
        xs: &Vec<Argument<'a>>,
    ) -> Result<usize, AllocError>
        requires room { place + spec.arguments_size (map argument xs.now.items) ≤ 1000000 }
        ensures code { OnOk result (self.new ≡ self.old ++ spec.arguments_code (setting s.now) place (map argument xs.now.items)) }
        ensures behind { IfOk result (λ n. n ≡ place + spec.arguments_size (map argument xs.now.items)) }
    {
        let mut at = place;
        'all: for x in xs {
            at = self.argument(s, at, x)?;
        }
        Ok(at)
    }

    fn argument(&mut self, s: &Setting, place: usize, x: &Argument<'a>) -> Result<usize, AllocError>
        requires room { place + spec.argument_size (argument x.now) ≤ 1000000 }
        ensures code { OnOk result (self.new ≡ self.old ++ spec.argument_code (setting s.now) place (argument x.now)) }
        ensures behind { IfOk result (λ n. n ≡ place + spec.argument_size (argument x.now)) }
    {
        match x {
            Argument::Number(value) => self.number(s, place, value),
            Argument::Words(value) => self.words(s, place, value),
        }
    }
}
