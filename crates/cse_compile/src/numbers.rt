//! The code of expressions: the place goes in, and the place behind comes out.

ghost use Rattle.std.specs.Prelude.{◌≡◌, ◌+◌, ◌≤◌, [], ◌∷◌, ◌++◌, pos, map, OnOk, IfOk};
ghost use Rattle.cse_value.specs.Occurrences.{most_occurrences};
ghost use Rattle.cse_image_parts.specs.declared.instruction.Op.TheVariants as ops;
ghost use Rattle.cse_logic_tree.specs.Typed.{number, words, numbers, operations, operation_tree};
ghost use Rattle.cse_compile.specs.Wide.{Constant, wide, with_a, with_c, pops, undefined};
ghost use Rattle.cse_compile.specs.Setting.{setting};
ghost use Rattle.cse_compile.specs.Expressions as spec;
ghost use Rattle.cse_compile.specs.Clauses.{all_numbers, cell_code, cell_end, cell_tail, guarded_code};

use crate::emitter::Emitter;
use crate::items::{UNDEFINED, operation_of, relation_number, special_number};
use crate::setting::Setting;
use crate::sizes::{behind, indexes_size};
use crate::wide::Wide;
use cse_image_parts::instruction::Op;
use cse_logic_tree::{Field, Found, Number, NumberKind, Operation, Words, WordsKind};
use cse_syntax_tree::Special;
use std::alloc::AllocError;

impl<'a> Emitter<'a> {
    /// The cell that the indexes lead to, or `default` behind them.
    fn cell(
        &mut self,
        place: usize,
        array: usize,
        subscripts: &Vec<Number>,
    ) -> Result<usize, AllocError>
        requires room { place + (spec.behind (all_numbers subscripts.now.items) + 3) ≤ 1000000 }
        ensures code { OnOk result (self.new ≡ self.old ++ cell_tail array place (all_numbers subscripts.now.items)) }
        ensures behind { IfOk result (λ n. n ≡ place + (spec.behind (all_numbers subscripts.now.items) + 3)) }
    {
        let count = behind(subscripts);
        self.with_c(Op::LoadCell, array)?;
        self.with_c(Op::Jump, place + (count + 3))?;
        self.pops(count)?;
        self.one(place + (count + 2), UNDEFINED)
    }

    /// A special value.
    fn special(&mut self, place: usize, value: Special) -> Result<usize, AllocError>
        requires room { place + 1 ≤ 1000000 }
        ensures code { OnOk result (self.new ≡ self.old ++ with_a ops.Special (spec.special_number value) ∷ []) }
        ensures behind { IfOk result (λ n. n ≡ place + 1) }
    {
        let special = special_number(value);
        self.one(place, Wide::Plain(Op::Special, special, 0, 0))
    }

    /// The most occurrences of a record.
    fn most(&mut self, s: &Setting, place: usize, of: u8) -> Result<usize, AllocError>
        requires room { place + 1 ≤ 1000000 }
        ensures code { OnOk result (self.new ≡ self.old ++ Constant (pos (most_occurrences (setting s.now).records of)) ∷ []) }
        ensures behind { IfOk result (λ n. n ≡ place + 1) }
    {
        let most = s.most_occurrences(of);
        self.one(place, Wide::Constant(most as i64))
    }

    /// The number of the occurrence that an event or a loop has.
    fn current(&mut self, place: usize, of: u8, found: Found) -> Result<usize, AllocError>
        requires room { place + spec.here_size found ≤ 1000000 }
        ensures code { OnOk result (self.new ≡ self.old ++ spec.here_code (with_a ops.OccurrenceNumber of) undefined of place found) }
        ensures behind { IfOk result (λ n. n ≡ place + spec.here_size found) }
    {
        let taken = Wide::Plain(Op::OccurrenceNumber, of, 0, 0);
        self.here(place, taken, UNDEFINED, of, found)
    }

    /// Emits the code of a number, and tells the place behind it.
    #[cycle(emit)]
    #[tactic(auto, unfolding(crate::specs::Expressions::number_size, crate::specs::Expressions::number_code))]
    pub fn number(&mut self, s: &Setting, place: usize, x: &Number<'a>) -> Result<usize, AllocError>
        requires room { place + spec.number_size (number x.now) ≤ 1000000 }
        ensures code { OnOk result (self.new ≡ self.old ++ spec.number_code (setting s.now) place (number x.now)) }
        ensures behind { IfOk result (λ n. n ≡ place + spec.number_size (number x.now)) }
    {
        match &*x.kind {
            NumberKind::Literal(_, value) => self.one(place, Wide::Constant(*value)),
            NumberKind::Special(_, value) => self.special(place, *value),
            NumberKind::Variable(_, variable) => self.number_of_variable(s, place, *variable),
            NumberKind::Item(_, item) => self.number_of_item(place, *item),
            NumberKind::ItemAt(_, field, subscript) => self.number_at(s, place, *field, subscript),
            NumberKind::Cell(_, array, subscripts) => {
                self.number_of_cell(s, place, *array, subscripts)
            }
            NumberKind::Call(_, function, arguments) => {
                self.number_of_call(s, place, *function, arguments)
            }
            NumberKind::Group(inner) | NumberKind::Int(inner) => self.number(s, place, inner),
            NumberKind::IsSpecial(inner) => self.applied(s, place, inner, Op::IsSpecial, 0),
            NumberKind::Deck(_, array, picks) => self.number_of_deck(place, *array, picks),
            NumberKind::TotOcc(_, of) => self.one(
                place,
                Wide::Plain(Op::TotalOccurrences, *of, 0, 0),
            ),
            NumberKind::MaxOcc(_, of) => self.most(s, place, *of),
            NumberKind::CurOcc(_, of, found) => self.current(place, *of, *found),
            NumberKind::InSet(_, item, _, set) => self.in_set(place, *item, *set),
            NumberKind::Minus(operand) => self.applied(s, place, operand, Op::Negate, 0),
            NumberKind::Not(operand) => self.applied(s, place, operand, Op::Not, 0),
            NumberKind::Compare(x, relation, y) => {
                let second = self.number(s, place, x)?;
                self.applied(s, second, y, Op::Compare, relation_number(*relation))
            }
            NumberKind::CompareTexts(x, relation, y) => {
                let second = self.words(s, place, x)?;
                self.applied_to_words(s, second, y, Op::CompareText, relation_number(*relation))
            }
            NumberKind::Chain(first, others) => {
                let at = self.number(s, place, first)?;
                let last = self.operations(s, at, others)?;
                Ok(last)
            }
        }
    }

    /// Emits the code of a text, and tells the place behind it.
    #[cycle(emit)]
    #[tactic(auto, unfolding(crate::specs::Expressions::words_size, crate::specs::Expressions::words_code))]
    pub fn words(&mut self, s: &Setting, place: usize, x: &Words<'a>) -> Result<usize, AllocError>
        requires room { place + spec.words_size (words x.now) ≤ 1000000 }
        ensures code { OnOk result (self.new ≡ self.old ++ spec.words_code (setting s.now) place (words x.now)) }
        ensures behind { IfOk result (λ n. n ≡ place + spec.words_size (words x.now)) }
    {
        match &*x.kind {
            WordsKind::Literal(text) => self.one(place, Wide::Quoted(text.text)),
            WordsKind::Global(_, variable) => {
                self.one(place, Wide::Plain(Op::LoadGlobal, 0, 0, *variable))
            }
            WordsKind::Item(_, item) => self.text_of_item(place, *item),
            WordsKind::ItemAt(_, field, subscript) => {
                let taken = Wide::Plain(Op::ItemText, 0, 0, field.item as usize);
                self.subscripted(s, place, subscript, taken, Wide::Blank, field.owner)
            }
            WordsKind::Group(inner) => self.words(s, place, inner),
        }
    }

    /// A number, and an instruction that makes another of it.
    #[cycle(emit)]
    fn applied(
        &mut self,
        s: &Setting,
        place: usize,
        x: &Number<'a>,
        op: Op,
        a: u8,
    ) -> Result<usize, AllocError>
        requires room { place + (spec.number_size (number x.now) + 1) ≤ 1000000 }
        ensures code { OnOk result (self.new ≡ self.old ++ (spec.number_code (setting s.now) place (number x.now) ++ with_a op a ∷ [])) }
        ensures behind { IfOk result (λ n. n ≡ place + (spec.number_size (number x.now) + 1)) }
    {
        let at = self.number(s, place, x)?;
        self.one(at, Wide::Plain(op, a, 0, 0))
    }

    /// A text, and an instruction that makes a number of it.
    #[cycle(emit)]
    fn applied_to_words(
        &mut self,
        s: &Setting,
        place: usize,
        x: &Words<'a>,
        op: Op,
        a: u8,
    ) -> Result<usize, AllocError>
        requires room { place + (spec.words_size (words x.now) + 1) ≤ 1000000 }
        ensures code { OnOk result (self.new ≡ self.old ++ (spec.words_code (setting s.now) place (words x.now) ++ with_a op a ∷ [])) }
        ensures behind { IfOk result (λ n. n ≡ place + (spec.words_size (words x.now) + 1)) }
    {
        let at = self.words(s, place, x)?;
        self.one(at, Wide::Plain(op, a, 0, 0))
    }

    /// A number as an occurrence, which an instruction takes; where it is none, a value stands in its place.
    #[cycle(emit)]
    fn subscripted(
        &mut self,
        s: &Setting,
        place: usize,
        subscript: &Number<'a>,
        taken: Wide<'a>,
        none: Wide<'a>,
        of: u8,
    ) -> Result<usize, AllocError>
        requires room { place + (spec.number_size (number subscript.now) + 4) ≤ 1000000 }
        ensures code { OnOk result (self.new
            ≡ self.old ++ guarded_code (setting s.now) place (number subscript.now) (wide taken.entry) (wide none.entry) of) }
        ensures behind { IfOk result (λ n. n ≡ place + (spec.number_size (number subscript.now) + 4)) }
    {
        let at = self.number(s, place, subscript)?;
        self.guarded(at, taken, none, of)
    }

    /// A numeric item of an occurrence.
    #[cycle(emit)]
    fn number_at(
        &mut self,
        s: &Setting,
        place: usize,
        field: Field,
        subscript: &Number<'a>,
    ) -> Result<usize, AllocError>
        requires room { place + (spec.number_size (number subscript.now) + 4) ≤ 1000000 }
        ensures code { OnOk result (self.new
            ≡ self.old ++ guarded_code (setting s.now) place (number subscript.now) (with_c ops.ItemNumber field.item) undefined field.owner) }
        ensures behind { IfOk result (λ n. n ≡ place + (spec.number_size (number subscript.now) + 4)) }
    {
        let taken = Wide::Plain(Op::ItemNumber, 0, 0, field.item as usize);
        self.subscripted(s, place, subscript, taken, UNDEFINED, field.owner)
    }

    /// Indexes, and the cell that they lead to.
    #[cycle(emit)]
    fn number_of_cell(
        &mut self,
        s: &Setting,
        place: usize,
        array: usize,
        subscripts: &Vec<Number<'a>>,
    ) -> Result<usize, AllocError>
        requires room { cell_end place (all_numbers subscripts.now.items) ≤ 1000000 }
        ensures code { OnOk result (self.new ≡ self.old ++ cell_code (setting s.now) array place (all_numbers subscripts.now.items)) }
        ensures behind { IfOk result (λ n. n ≡ cell_end place (all_numbers subscripts.now.items)) }
    {
        let at = self.indexes(s, place, array, 2, subscripts)?;
        self.cell(at, array, subscripts)
    }

    /// Arguments, and the call that takes them.
    #[cycle(emit)]
    fn number_of_call(
        &mut self,
        s: &Setting,
        place: usize,
        function: usize,
        arguments: &Vec<Number<'a>>,
    ) -> Result<usize, AllocError>
        requires room { place + (spec.numbers_size (all_numbers arguments.now.items) + 1) ≤ 1000000 }
        ensures code { OnOk result (self.new
            ≡ self.old ++ (spec.numbers_code (setting s.now) place (all_numbers arguments.now.items) ++ with_c ops.Call function ∷ [])) }
        ensures behind { IfOk result (λ n. n ≡ place + (spec.numbers_size (all_numbers arguments.now.items) + 1)) }
    {
        let at = self.numbers(s, place, arguments)?;
        self.one(at, Wide::Plain(Op::Call, 0, 0, function))
    }

    /// One after the other.
    #[cycle(emit)]
    #[tactic(auto, unfolding(crate::specs::Expressions::numbers_size, crate::specs::Expressions::numbers_code))]
    pub fn numbers(
        &mut self,
        s: &Setting,
        place: usize,
        xs: &Vec<Number<'a>>,
    ) -> Result<usize, AllocError>
        requires room { place + spec.numbers_size (all_numbers xs.now.items) ≤ 1000000 }
        ensures code { OnOk result (self.new ≡ self.old ++ spec.numbers_code (setting s.now) place (all_numbers xs.now.items)) }
        ensures behind { IfOk result (λ n. n ≡ place + spec.numbers_size (all_numbers xs.now.items)) }
    {
        let mut at = place;
        'all: for x in xs {
            at = self.number(s, at, x)?;
        }
        Ok(at)
    }

    /// As indexes of an array. So many instructions behind them the indexes are dropped where the last one fails.
    #[cycle(emit)]
    #[tactic(auto, using(crate::proofs::Lists::count_is), unfolding(crate::specs::Expressions::indexes_size, crate::specs::Expressions::indexes_code))]
    pub fn indexes(
        &mut self,
        s: &Setting,
        place: usize,
        array: usize,
        behind: usize,
        xs: &Vec<Number<'a>>,
    ) -> Result<usize, AllocError>
        requires room { place + spec.indexes_size (all_numbers xs.now.items) ≤ 1000000 }
        requires within { behind ≤ 1000000 }
        ensures code { OnOk result (self.new ≡ self.old ++ spec.indexes_code (setting s.now) array
            (place + spec.indexes_size (all_numbers xs.now.items) + behind) 0 place (all_numbers xs.now.items)) }
        ensures behind { IfOk result (λ n. n ≡ place + spec.indexes_size (all_numbers xs.now.items)) }
    {
        let drops = place + indexes_size(xs) + behind;
        let mut fail = drops + xs.len();
        let mut direction = 0;
        let mut at = place;
        'all: for x in xs {
            let index = self.number(s, at, x)?;
            fail -= 1;
            let size = s.size_at(array, direction);
            self.put(Wide::Plain(Op::Index, 0, size, fail))?;
            direction += 1;
            at = index + 1;
        }
        Ok(at)
    }

    /// Emits the code of operations on what is on top, and tells the place behind it.
    #[cycle(emit)]
    #[tactic(auto, unfolding(crate::specs::Expressions::operations_size, crate::specs::Expressions::operations_code))]
    pub fn operations(
        &mut self,
        s: &Setting,
        place: usize,
        xs: &Vec<Operation<'a>>,
    ) -> Result<usize, AllocError>
        requires room { place + spec.operations_size (operations (map operation_tree xs.now.items)) ≤ 1000000 }
        ensures code { OnOk result (self.new ≡ self.old ++ spec.operations_code (setting s.now) place (operations (map operation_tree xs.now.items))) }
        ensures behind { IfOk result (λ n. n ≡ place + spec.operations_size (operations (map operation_tree xs.now.items))) }
    {
        let mut at = place;
        'all: for x in xs {
            let operand = self.number(s, at, &x.operand)?;
            self.bare(operation_of(x.operator))?;
            at = operand + 1;
        }
        Ok(at)
    }
}
