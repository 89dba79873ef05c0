//! From tokens to declarations and procedures, one method a rule of the grammar.

ghost use Rattle.std.specs.Prelude.{◌≡◌, ◌<◌, IfOk, List, ◌∷◌, length, map};
ghost use Rattle.std.specs.Option.{option_map};
ghost use Rattle.cse_syntax_tree.specs.Word.{Word, Sign, words};
ghost use Rattle.cse_syntax_tree.specs.Tree as tree;
ghost use Rattle.cse_syntax_tree.specs.Tree.{written};
ghost use Rattle.cse_syntax.specs.Reading as spec;
ghost use Rattle.cse_syntax.specs.Reading.{Reads};
ghost use Rattle.cse_syntax.specs.ReadingStmt as stmts;
ghost use Rattle.cse_syntax.specs.ReadingSource as rule;

use crate::error::ReadError;
use crate::expression::MOST;
use crate::parser::{Parser, refused};
use cse_syntax_tree::{
    Array, Body, Declaration, Dimension, Kind, Lexeme, Literal, Mark, Parameter, Procedure,
    is_within,
};

/// The greatest length of a text, and the greatest dimension.
const ALPHA_MOST: u64 = 255;

const DIMENSION_MOST: u64 = 65_535;

/// Whether a declaration begins with this mark.
fn declares(mark: Mark) -> bool
    ensures { (ws : List Word) → result ≡ rule.starts_declaration (Sign mark ∷ ws) }
{
    matches!(
        mark,
        Mark::Numeric | Mark::Alpha | Mark::Array | Mark::Function
    )
}

impl<'t, 'a> Parser<'t, 'a> {
    /// Names with commas between them.
    #[tactic(auto, unfolding(crate::specs::Reading::listed))]
    fn names(&mut self) -> Result<Vec<Lexeme<'a>>, ReadError>
        ensures { Reads (λ v. map written v.items) (spec.listed spec.take_name) result self.old.rest.now self.new.rest.now }
    {
        let mut found = Vec::new(self.alloc);
        'all: loop {
            let next = self.name()?;
            found.push(next)?;
            if !self.eat(Mark::Comma) {
                return Ok(found);
            }
        }
    }

    /// After the name of a value set.
    #[tactic(auto, unfolding(crate::specs::ReadingSource::rows))]
    fn rows(&mut self, set: Lexeme<'a>) -> Result<Dimension<'a>, ReadError>
        ensures { Reads tree.dimension (rule.rows (written set.entry)) result self.old.rest.now self.new.rest.now }
    {
        if !self.eat(Mark::Open) {
            return Ok(Dimension::Set(set, false));
        }
        self.expect(Mark::Plus)?;
        self.expect(Mark::Close)?;
        Ok(Dimension::Set(set, true))
    }

    #[tactic(auto, unfolding(crate::specs::ReadingSource::dimension))]
    fn dimension(&mut self) -> Result<Dimension<'a>, ReadError>
        ensures { Reads tree.dimension rule.dimension result self.old.rest.now self.new.rest.now }
    {
        let Some(first) = self.take() else {
            return Err(self.ended());
        };
        match first.kind {
            Kind::Name => self.rows(Lexeme {
                token: first.index,
                text: first.text,
            }),
            Kind::Number if is_within(1, DIMENSION_MOST, first.text) => {
                Ok(Dimension::Number(Lexeme {
                    token: first.index,
                    text: first.text,
                }))
            }
            Kind::Number => Err(self.out_of_range()),
            _ => Err(refused(&first)),
        }
    }

    #[tactic(auto, unfolding(crate::specs::Reading::listed))]
    fn dimensions(&mut self) -> Result<Vec<Dimension<'a>>, ReadError>
        ensures { Reads (λ v. map tree.dimension v.items) (spec.listed rule.dimension) result self.old.rest.now self.new.rest.now }
    {
        let mut found = Vec::new(self.alloc);
        'all: loop {
            let next = self.dimension()?;
            found.push(next)?;
            if !self.eat(Mark::Comma) {
                return Ok(found);
            }
        }
    }

    #[tactic(auto, unfolding(crate::specs::Reading::listed))]
    fn literals(&mut self) -> Result<Vec<Literal<'a>>, ReadError>
        ensures { Reads (λ v. map tree.literal v.items) (spec.listed (stmts.literal MOST)) result self.old.rest.now self.new.rest.now }
    {
        let mut found = Vec::new(self.alloc);
        'all: loop {
            let next = self.literal(MOST)?;
            found.push(next)?;
            if !self.eat(Mark::Comma) {
                return Ok(found);
            }
        }
    }

    #[tactic(auto, unfolding(crate::specs::ReadingSource::parameter))]
    fn parameter(&mut self) -> Result<Parameter<'a>, ReadError>
        ensures { Reads tree.parameter rule.parameter result self.old.rest.now self.new.rest.now }
    {
        let is_declared = self.eat(Mark::Numeric);
        let name = self.name()?;
        Ok(Parameter { is_declared, name })
    }

    #[tactic(auto, unfolding(crate::specs::Reading::listed))]
    fn some_parameters(&mut self) -> Result<Vec<Parameter<'a>>, ReadError>
        ensures { Reads (λ v. map tree.parameter v.items) (spec.listed rule.parameter) result self.old.rest.now self.new.rest.now }
    {
        let mut found = Vec::new(self.alloc);
        'all: loop {
            let next = self.parameter()?;
            found.push(next)?;
            if !self.eat(Mark::Comma) {
                return Ok(found);
            }
        }
    }

    #[tactic(auto, unfolding(crate::specs::ReadingSource::parameters))]
    fn parameters(&mut self) -> Result<Vec<Parameter<'a>>, ReadError>
        ensures { Reads (λ v. map tree.parameter v.items) rule.parameters result self.old.rest.now self.new.rest.now }
    {
        if self.sees(Mark::Close) {
            return Ok(Vec::new(self.alloc));
        }
        self.some_parameters()
    }

    /// The cells at the start, if they stand there.
    #[tactic(auto, unfolding(crate::specs::ReadingSource::cells))]
    fn cells(&mut self) -> Result<Vec<Literal<'a>>, ReadError>
        ensures { Reads (λ v. map tree.literal v.items) rule.cells result self.old.rest.now self.new.rest.now }
    {
        if !self.eat(Mark::Equals) {
            return Ok(Vec::new(self.alloc));
        }
        self.literals()
    }

    #[tactic(auto, unfolding(crate::specs::ReadingSource::numeric))]
    fn numeric(&mut self) -> Result<Declaration<'a>, ReadError>
        ensures { Reads tree.declaration rule.numeric result self.old.rest.now self.new.rest.now }
    {
        let names = self.names()?;
        self.expect(Mark::Semicolon)?;
        Ok(Declaration::Numeric(names))
    }

    #[tactic(auto, unfolding(crate::specs::ReadingSource::alpha))]
    fn alpha(&mut self) -> Result<Declaration<'a>, ReadError>
        ensures { Reads tree.declaration rule.alpha result self.old.rest.now self.new.rest.now }
    {
        self.expect(Mark::Open)?;
        let size = self.number(1, ALPHA_MOST)?;
        self.expect(Mark::Close)?;
        let names = self.names()?;
        self.expect(Mark::Semicolon)?;
        Ok(Declaration::Alpha(size, names))
    }

    #[tactic(auto, unfolding(crate::specs::ReadingSource::array))]
    fn array(&mut self) -> Result<Array<'a>, ReadError>
        ensures { Reads tree.array rule.array result self.old.rest.now self.new.rest.now }
    {
        let name = self.name_before(Mark::Open)?;
        let dimensions = self.dimensions()?;
        self.expect(Mark::Close)?;
        let is_saved = self.eat(Mark::Save);
        let cells = self.cells()?;
        Ok(Array {
            name,
            dimensions,
            is_saved,
            cells,
        })
    }

    #[tactic(auto, unfolding(crate::specs::ReadingSource::array_declaration))]
    fn array_declaration(&mut self) -> Result<Declaration<'a>, ReadError>
        ensures { Reads tree.declaration rule.array_declaration result self.old.rest.now self.new.rest.now }
    {
        let array = self.array()?;
        self.expect(Mark::Semicolon)?;
        Ok(Declaration::Array(array))
    }

    #[tactic(auto, unfolding(crate::specs::ReadingSource::function))]
    fn function(&mut self, room: usize) -> Result<Declaration<'a>, ReadError>
        ensures { Reads tree.declaration (rule.function room) result self.old.rest.now self.new.rest.now }
    {
        let name = self.name_before(Mark::Open)?;
        let parameters = self.parameters()?;
        self.expect(Mark::Close)?;
        let body = self.statements(room)?;
        self.ends(Mark::End)?;
        Ok(Declaration::Function(name, parameters, body))
    }

    fn starts_declaration(&self) -> bool
        ensures { result ≡ rule.starts_declaration (words self.now.rest.now) }
    {
        match self.rest.first() {
            None => false,
            Some(token) => match token.kind {
                Kind::Mark(mark) => declares(mark),
                _ => false,
            },
        }
    }

    #[tactic(auto, unfolding(crate::specs::ReadingSource::declaration))]
    fn declaration(&mut self, room: usize) -> Result<Declaration<'a>, ReadError>
        ensures reads { Reads tree.declaration (rule.declaration room) result self.old.rest.now self.new.rest.now }
        ensures taken { IfOk result (λ _. length self.new.rest.now < length self.old.rest.now) }
    {
        let Some(first) = self.take() else {
            return Err(self.ended());
        };
        match first.kind {
            Kind::Mark(Mark::Numeric) => self.numeric(),
            Kind::Mark(Mark::Alpha) => self.alpha(),
            Kind::Mark(Mark::Array) => self.array_declaration(),
            Kind::Mark(Mark::Function) => self.function(room),
            _ => Err(refused(&first)),
        }
    }

    #[tactic(auto, unfolding(crate::specs::ReadingSource::declarations))]
    fn declarations(&mut self, room: usize) -> Result<Vec<Declaration<'a>>, ReadError>
        ensures { Reads (λ v. map tree.declaration v.items) (rule.declarations room) result self.old.rest.now self.new.rest.now }
    {
        let mut found = Vec::new(self.alloc);
        'all: while self.starts_declaration() {
            let next = self.declaration(room)?;
            found.push(next)?;
        }
        Ok(found)
    }

    /// What stands after `PROC GLOBAL`, if it is there.
    #[tactic(auto, unfolding(crate::specs::ReadingSource::globals))]
    pub fn globals(&mut self, room: usize) -> Result<Option<Vec<Declaration<'a>>>, ReadError>
        ensures { Reads (option_map (λ v. map tree.declaration v.items)) (rule.globals room) result self.old.rest.now self.new.rest.now }
    {
        if !self.sees(Mark::Proc) || !self.sees_second(Mark::Global) {
            return Ok(None);
        }
        self.expect(Mark::Proc)?;
        self.expect(Mark::Global)?;
        let found = self.declarations(room)?;
        Ok(Some(found))
    }

    /// The statements of a procedure, after its first word.
    #[tactic(auto, unfolding(crate::specs::ReadingSource::preproc))]
    fn preproc(&mut self, room: usize) -> Result<Body<'a>, ReadError>
        ensures { Reads tree.body_tree (rule.preproc room) result self.old.rest.now self.new.rest.now }
    {
        let before = self.statements(room)?;
        if !self.eat(Mark::Postproc) {
            return Ok(Body::Preproc(before));
        }
        let after = self.statements(room)?;
        Ok(Body::Both(before, after))
    }

    #[tactic(auto, unfolding(crate::specs::ReadingSource::postproc))]
    fn postproc(&mut self, room: usize) -> Result<Body<'a>, ReadError>
        ensures { Reads tree.body_tree (rule.postproc room) result self.old.rest.now self.new.rest.now }
    {
        let statements = self.statements(room)?;
        Ok(Body::Postproc(statements))
    }

    #[tactic(auto, unfolding(crate::specs::ReadingSource::plain))]
    fn plain(&mut self, room: usize) -> Result<Body<'a>, ReadError>
        ensures { Reads tree.body_tree (rule.plain room) result self.old.rest.now self.new.rest.now }
    {
        let statements = self.statements(room)?;
        Ok(Body::Plain(statements))
    }

    #[tactic(auto, unfolding(crate::specs::ReadingSource::body))]
    fn procedure_body(&mut self, room: usize) -> Result<Body<'a>, ReadError>
        ensures { Reads tree.body_tree (rule.body room) result self.old.rest.now self.new.rest.now }
    {
        if self.eat(Mark::Preproc) {
            return self.preproc(room);
        }
        if self.eat(Mark::Postproc) {
            return self.postproc(room);
        }
        self.plain(room)
    }

    #[tactic(auto, unfolding(crate::specs::ReadingSource::procedure))]
    fn procedure(&mut self, room: usize) -> Result<Procedure<'a>, ReadError>
        ensures reads { Reads tree.procedure (rule.procedure room) result self.old.rest.now self.new.rest.now }
        ensures taken { IfOk result (λ _. length self.new.rest.now < length self.old.rest.now) }
    {
        if !self.eat(Mark::Proc) {
            return Err(self.unexpected());
        }
        let name = self.name()?;
        let body = self.procedure_body(room)?;
        Ok(Procedure { name, body })
    }

    /// Reads procedures up to the end of the tokens.
    #[tactic(auto, unfolding(crate::specs::ReadingSource::procedures))]
    pub fn procedures(&mut self, room: usize) -> Result<Vec<Procedure<'a>>, ReadError>
        ensures { Reads (λ v. map tree.procedure v.items) (rule.procedures room) result self.old.rest.now self.new.rest.now }
    {
        let mut found = Vec::new(self.alloc);
        'all: while self.sees(Mark::Proc) {
            let next = self.procedure(room)?;
            found.push(next)?;
        }
        Ok(found)
    }
}
