//! The code of statements: the place goes in, and the place behind comes out.

ghost use Rattle.std.specs.Prelude.{◌≡◌, ◌+◌, ◌≤◌, ◌==◌, if◌then◌else◌, [], ◌∷◌, ◌++◌, map, OnOk, IfOk};
ghost use Rattle.cse_logic_tree.specs.Typed.{statement, block, arm_tree, counting};
ghost use Rattle.cse_compile.specs.Setting.{setting};
ghost use Rattle.cse_compile.specs.Statements as spec;
ghost use Rattle.cse_compile.specs.Clauses.{do_code, do_end, for_code};

use crate::block_sizes::{
    arms_size, block_size, head_size, jump_size, otherwise_size, statement_size,
};
use crate::emitter::Emitter;
use crate::heads::turn_limit;
use crate::setting::{Loop, Setting};
use crate::wide::Wide;
use cse_image_parts::instruction::Op;
use cse_logic_tree::{Arm, Counting, Statement, StatementKind, Variable};
use cse_syntax_tree::Jump;
use std::alloc::AllocError;

impl<'a> Emitter<'a> {
    /// A routine is left; a function gives its result.
    pub fn exit(&mut self, s: &Setting, place: usize) -> Result<usize, AllocError>
        requires room { place + spec.exit_size (setting s.now) ≤ 1000000 }
        ensures code { OnOk result (self.new ≡ self.old ++ spec.exit_code (setting s.now)) }
        ensures behind { IfOk result (λ n. n ≡ place + spec.exit_size (setting s.now)) }
    {
        match s.result_at {
            None => self.one(place, Wide::Plain(Op::Return, 0, 0, 0)),
            Some(result) => {
                self.with_c(Op::LoadLocal, result)?;
                self.one(place + 1, Wide::Plain(Op::Return, 0, 0, 0))
            }
        }
    }

    fn jump(
        &mut self,
        s: &Setting,
        around: Loop,
        place: usize,
        jump: Jump,
    ) -> Result<usize, AllocError>
        requires room { place + spec.jump_code_size (setting s.now) jump ≤ 1000000 }
        ensures code { OnOk result (self.new ≡ self.old ++ spec.jump_code (setting s.now) around jump) }
        ensures behind { IfOk result (λ n. n ≡ place + spec.jump_code_size (setting s.now) jump) }
    {
        match jump {
            Jump::Break => self.one(place, Wide::Plain(Op::Break, 0, 0, around.end)),
            Jump::Next => self.one(place, Wide::Plain(Op::Jump, 0, 0, around.turn_end)),
            Jump::Exit => self.exit(s, place),
        }
    }

    /// Emits the code of a statement, and tells the place behind it.
    #[cycle(emit_block)]
    #[tactic(auto, unfolding(crate::specs::Statements::statement_size, crate::specs::Statements::statement_code))]
    pub fn statement(
        &mut self,
        s: &Setting,
        around: Loop,
        place: usize,
        x: &Statement<'a>,
    ) -> Result<usize, AllocError>
        requires room { place + spec.statement_size (setting s.now) (statement x.now) ≤ 1000000 }
        ensures code { OnOk result (self.new ≡ self.old ++ spec.statement_code (setting s.now) around place (statement x.now)) }
        ensures behind { IfOk result (λ n. n ≡ place + spec.statement_size (setting s.now) (statement x.now)) }
    {
        match &*x.kind {
            StatementKind::Empty => Ok(place),
            StatementKind::Set(_, into, value) => self.number_into_variable(s, place, *into, value),
            StatementKind::SetText(_, variable, value) => {
                self.words_into_variable(s, place, *variable, value)
            }
            StatementKind::SetItem(_, field, at, value) => {
                self.number_into(s, place, Op::StoreNumber, *field, at, value)
            }
            StatementKind::SetTextItem(_, field, at, value) => {
                self.words_into(s, place, *field, at, value)
            }
            StatementKind::SetCell(_, array, subscripts, value) => {
                self.number_into_cell(s, place, *array, subscripts, value)
            }
            StatementKind::Call(_, called, values) => self.call_alone(s, place, *called, values),
            StatementKind::If(first, others, otherwise) => {
                let behind = otherwise_size(s, otherwise);
                let rest = arms_size(s, others, behind);
                let end = place + statement_size(s, x);
                let second = self.arm(s, around, end, place, first, rest)?;
                let third = self.arms(s, around, end, second, others, behind)?;
                match otherwise {
                    None => Ok(third),
                    Some(body) => self.block(s, around, third, body),
                }
            }
            StatementKind::For(_, into, _, of, body) => self.over(s, place, *into, *of, body),
            StatementKind::Do(head, body) => self.counted(s, place, head, body),
            StatementKind::Jump(_, jump) => self.jump(s, around, place, *jump),
            StatementKind::Impute(_, field, at, value) => {
                self.number_into(s, place, Op::Impute, *field, at, value)
            }
            StatementKind::PutDeck(_, array, picks, value) => {
                self.number_into_deck(s, place, *array, picks, value)
            }
            StatementKind::ErrMsg(_, index, values, _) => self.message(s, place, *index, values),
        }
    }

    /// One after the other.
    #[cycle(emit_block)]
    #[tactic(auto, unfolding(crate::specs::Statements::block_size, crate::specs::Statements::block_code))]
    pub fn block(
        &mut self,
        s: &Setting,
        around: Loop,
        place: usize,
        xs: &Vec<Statement<'a>>,
    ) -> Result<usize, AllocError>
        requires room { place + spec.block_size (setting s.now) (block xs.now.items) ≤ 1000000 }
        ensures code { OnOk result (self.new ≡ self.old ++ spec.block_code (setting s.now) around place (block xs.now.items)) }
        ensures behind { IfOk result (λ n. n ≡ place + spec.block_size (setting s.now) (block xs.now.items)) }
    {
        let mut at = place;
        'all: for x in xs {
            at = self.statement(s, around, at, x)?;
        }
        Ok(at)
    }

    /// Over the occurrences of a record.
    #[cycle(emit_block)]
    fn over(
        &mut self,
        s: &Setting,
        place: usize,
        variable: Variable,
        of: u8,
        body: &Vec<Statement<'a>>,
    ) -> Result<usize, AllocError>
        requires room { place + (spec.block_size (setting s.now) (block body.now.items) + 5) ≤ 1000000 }
        ensures code { OnOk result (self.new ≡ self.old ++ for_code (setting s.now) place variable of (block body.now.items)) }
        ensures behind { IfOk result (λ n. n ≡ place + (spec.block_size (setting s.now) (block body.now.items) + 5)) }
    {
        let end = place + 4 + block_size(s, body);
        self.put(Wide::Plain(Op::LoopOccurrences, of, 0, end))?;
        self.with_a(Op::CurrentOccurrence, of)?;
        self.with_a(Op::OccurrenceNumber, of)?;
        self.store(s, variable)?;
        self.block(s, Loop { turn_end: end, end }, place + 4, body)?;
        self.one(end, Wide::Plain(Op::End, 0, 0, place))
    }

    /// So many turns as the head says.
    #[cycle(emit_block)]
    fn counted(
        &mut self,
        s: &Setting,
        place: usize,
        head: &Counting<'a>,
        body: &Vec<Statement<'a>>,
    ) -> Result<usize, AllocError>
        requires room { place +
            (spec.head_size (setting s.now).records (counting head.now) + (spec.block_size (setting s.now) (block body.now.items) + 6)) ≤ 1000000 }
        ensures code { OnOk result (self.new ≡ self.old ++ do_code (setting s.now) place (counting head.now) (block body.now.items)) }
        ensures behind { IfOk result (λ n. n ≡ do_end (setting s.now) place (counting head.now) (block body.now.items)) }
    {
        let opener = place + head_size(s, head);
        let turn_end = opener + 1 + block_size(s, body);
        let end = turn_end + 4;
        self.head(s, head)?;
        self.put(Wide::Turns(turn_limit(s, head), end))?;
        self.block(s, Loop { turn_end, end }, opener + 1, body)?;
        self.step(s, head)?;
        self.one(end, Wide::Plain(Op::End, 0, 0, opener))
    }

    /// One arm, with so many instructions behind it.
    #[cycle(emit_block)]
    fn arm(
        &mut self,
        s: &Setting,
        around: Loop,
        end: usize,
        place: usize,
        x: &Arm<'a>,
        rest: usize,
    ) -> Result<usize, AllocError>
        requires room { place + spec.arm_size (setting s.now) (arm_tree x.now) rest ≤ 1000000 }
        ensures code { OnOk result (self.new ≡ self.old ++ spec.arm_code (setting s.now) around end place (arm_tree x.now) rest) }
        ensures behind { IfOk result (λ n. n ≡ place + spec.arm_size (setting s.now) (arm_tree x.now) rest) }
    {
        let test = self.number(s, place, &x.condition)?;
        let behind = test + 1 + block_size(s, &x.body) + jump_size(rest);
        self.with_c(Op::JumpUnless, behind)?;
        self.block(s, around, test + 1, &x.body)?;
        self.jump_over(end, rest)?;
        Ok(behind)
    }

    /// The other arms, with so many instructions behind them.
    #[cycle(emit_block)]
    fn arms(
        &mut self,
        s: &Setting,
        around: Loop,
        end: usize,
        place: usize,
        others: &Vec<Arm<'a>>,
        last: usize,
    ) -> Result<usize, AllocError>
        requires room { place + spec.arms_alone_size (setting s.now) (map arm_tree others.now.items) last ≤ 1000000 }
        ensures code { OnOk result (self.new ≡ self.old ++ spec.arms_alone_code (setting s.now) around end place (map arm_tree others.now.items) last) }
        ensures behind { IfOk result (λ n. n ≡ place + spec.arms_alone_size (setting s.now) (map arm_tree others.now.items) last) }
    {
        let mut at = place;
        let mut left = others.len();
        'all: for x in others {
            left -= 1;
            at = self.arm(s, around, end, at, x, rest_size(left, last))?;
        }
        Ok(at)
    }
}

/// A size that is 0 where that of so many arms and what stands behind them is.
fn rest_size(arms: usize, last: usize) -> usize
    ensures { result ≡ (if arms == 0 then last else 1) }
{
    if arms == 0 { last } else { 1 }
}
