//! A whole text.

ghost use Rattle.std.specs.Prelude.{◌≡◌, ◌≤◌, ◌⊎◌, Some, IfOk, IfErr};
ghost use Rattle.cse_syntax_tree.specs.Word.{words, AreNumbered};
ghost use Rattle.cse_syntax_tree.specs.Tree as tree;
ghost use Rattle.cse_syntax_tree.specs.Tree.{tree as seen};
ghost use Rattle.cse_syntax.specs.Place.{cut, line_of, column_of, start_of};
ghost use Rattle.cse_syntax_tree.specs.Grammar.{IsSource};
ghost use Rattle.cse_syntax.specs.Reading.{GivesAll};
ghost use Rattle.cse_syntax.specs.ReadingSource.{source_at, tree_of};
ghost use Rattle.cse_syntax.specs.Text.{pieces, pieces_of};
ghost use Rattle.cse_syntax.specs.Source.{IsCovered, IsSourceText, cause_number, error_number, IsRead};

use crate::error::{Cause, ReadError, SourceFault, SyntaxError};
use crate::lexer;
use crate::parser::Parser;
use crate::place::{Position, position_of};
use cse_syntax_tree::{Token, Tree};
use std::alloc::Global;

/// How many parentheses and statements may be open at once.
pub const LIMIT: usize = 64;

/// The number of want of memory.
const MEMORY: u8 = cse_fault_numbers::WANT_OF_MEMORY;

/// A text, its tokens, in its order, and its tree.
///
/// [`parse`] makes one; whoever makes another proves that it is the tree of the tokens, with at most 64 parentheses and
/// statements open at once.
pub struct Source<'a> {
    pub text: &'a str,
    pub tokens: Vec<Token<'a>>,
    pub tree: Tree<'a>,
    pub ghost is_source: { ∥ IsSource 64 (seen tree) (words tokens.items) ∥₁ },
    pub ghost is_numbered: { ∥ AreNumbered 0 tokens.items ∥₁ },
}

// Written out, so that a crate that owns a source calls this drop and does not prove one for each part.
impl Drop for Source<'_> {
    fn drop(self) {
        let Source {
            text: _text,
            tokens: _tokens,
            tree: _tree,
        } = self;
    }
}

impl Source<'_> {
    /// Where this token is, by its index; the end of the text for one that isn't there.
    pub fn position(&self, token: usize) -> Position
        ensures line { result.line ≡ cut (line_of self.now.text.now (start_of self.now.text.now self.now.tokens.items token)) }
        ensures column { result.column ≡ cut (column_of self.now.text.now (start_of self.now.text.now self.now.tokens.items token)) }
    {
        match self.tokens.get(token) {
            Some(found) => position_of(self.text, found.start),
            None => position_of(self.text, self.text.len()),
        }
    }
}

/// All of the tokens as a tree; `end` is what is wrong behind them.
#[tactic(auto, unfolding(crate::specs::ReadingSource::source_at))]
fn tree_from<'a>(
    alloc: Global,
    tokens: &[Token<'a>],
    end: SourceFault,
) -> Result<Tree<'a>, ReadError>
    ensures { GivesAll tree.tree result (source_at LIMIT (words tokens.now)) }
{
    let mut parser = Parser::new(alloc, tokens, end);
    let globals = parser.globals(LIMIT)?;
    let procedures = parser.procedures(LIMIT)?;
    if !parser.is_at_end() {
        return Err(parser.unexpected());
    }
    Ok(Tree {
        globals,
        procedures,
    })
}

fn read<'a>(alloc: Global, text: &'a str) -> Result<Source<'a>, ReadError>
    ensures text { IfOk result (λ s. s.text.now ≡ text.now) }
    ensures tokens { IfOk result (λ s. pieces_of text.now ≡ Some (pieces s.tokens.items)) }
    ensures numbered { IfOk result (λ s. AreNumbered 0 s.tokens.items) }
    ensures tree { GivesAll (λ s. tree.tree s.tree) result (tree_of LIMIT text.now) }
{
    let found = lexer::tokens(alloc, text)?;
    match found.fault {
        None => {
            let end = SourceFault {
                cause: Cause::Unexpected,
                place: text.len(),
            };
            let tree = tree_from(alloc, &found.tokens, end)?;
            Ok(Source {
                text,
                tokens: found.tokens,
                tree,
            })
        }
        Some(fault) => {
            // A fault of the tokens before it comes first.
            let _tree = tree_from(alloc, &found.tokens, fault)?;
            Err(ReadError::Found(fault))
        }
    }
}

fn number(cause: Cause) -> u8
    ensures { result ≡ cause_number cause }
{
    cause as u8
}

/// An error with its line and column.
fn located(text: &str, error: ReadError) -> SyntaxError
    ensures number { result.number ≡ error_number error }
    ensures memory { result.number ≡ 90 → (result.line ≡ 0) × (result.column ≡ 0) }
{
    match error {
        ReadError::Memory => SyntaxError {
            number: MEMORY,
            line: 0,
            column: 0,
        },
        ReadError::Found(fault) => {
            let at = position_of(text, fault.place);
            SyntaxError {
                number: number(fault.cause),
                line: at.line,
                column: at.column,
            }
        }
    }
}

/// The tokens of a source text, and its tree.
///
/// A text that is none is refused by its first fault: see [`SyntaxError`]. Depth is bounded by fault 34, so no text
/// exhausts the stack.
pub fn parse<'a>(alloc: Global, text: &'a str) -> Result<Source<'a>, SyntaxError>
    ensures text { IfOk result (λ s. s.text.now ≡ text.now) }
    // The tokens are the text's, counted from 0.
    ensures numbered { IfOk result (λ s. AreNumbered 0 s.tokens.items) }
    ensures tokens { IfOk result (λ s. pieces_of text.now ≡ Some (pieces s.tokens.items)) }
    // They lie in the text in order, with blanks and comments alone between them.
    ensures spans { IfOk result (λ s. IsCovered text.now (pieces s.tokens.items)) }
    // The words of the tree are the tokens.
    ensures tree { IfOk result (λ s. IsSource LIMIT (tree.tree s.tree) (words s.tokens.items)) }
    // A source text is read as its tree, unless memory runs out: so another number comes for no source text.
    ensures only { (t : tree.Tree) → IsSourceText LIMIT text.now t → IsRead (λ s. tree.tree s.tree) result t }
    // The causes of an error are these, and want of memory has no place.
    ensures cause { IfErr result (λ e. ((30 ≤ e.number) × (e.number ≤ 35)) ⊎ ((e.number ≡ 90) × (e.line ≡ 0) × (e.column ≡ 0))) }
{
    match read(alloc, text) {
        Ok(source) => Ok(source),
        Err(error) => Err(located(text, error)),
    }
}
