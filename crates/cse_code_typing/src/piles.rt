//! Abstract stacks by number, in a table in which each entry puts a kind on an earlier stack. Equal
//! stacks have equal numbers.

ghost use Rattle.std.specs.Prelude.{◌≡◌, ◌≤◌, ◌<◌, ◌+◌, ◌^◌, [], ◌∷◌, ℕ, Some, length, OnErr, OnOk, IfOk, MatchOption};
ghost use Rattle.cse_code_typing.specs.Piles.{stack_of, entry_of};
ghost use Rattle.cse_code_typing.specs.Within.{KeepsStacks};
ghost use Rattle.cse_code_typing.specs.Kinds.{top_of};
ghost use Rattle.cse_code_typing.specs.Depth.{IsAtMost, count_of};
ghost use Rattle.cse_code_typing.specs.Pass.{same_kinds};

use crate::depth::Depth;
use crate::kind::Kind;
use crate::numbers::EntryNumbers;
use std::alloc::{AllocError, Global};
use std::marker::Model;

/// A kind on the stack of a number.
#[derive(Clone, Copy, PartialEq, Eq, PartialOrd, Ord)]
pub struct PileEntry {
    pub kind: Kind,
    pub below: usize,
}

/// What the places so far lead to, at one place: nothing, the stack of a number, or stacks that
/// differ.
#[derive(Clone, Copy)]
pub enum Expected {
    Free,
    Is(usize),
    Clash,
}

/// Stacks by number: 0 is the empty one. Contracts see the entries, the newest first.
#[derive(Drop)]
pub struct Piles {
    entries: Vec<PileEntry>,
    /// How many values each stack but the empty one has.
    depths: Vec<Depth>,
    numbers: EntryNumbers,
}

impl Model for Piles {
    ghost use Rattle.std.specs.Prelude.{List, reverse};
    ghost use Rattle.cse_code_typing.specs.declared.piles.PileEntry.{PileEntry};

    ghost Value = { List PileEntry };

    ghost use Rattle.cse_code_typing.specs.Shared.{IsShared};

    ghost view = { λ p. reverse p.entries.items };

    ghost invariant = { λ p. IsShared (reverse p.entries.items) (reverse p.depths.items) p.numbers };
}

impl Piles {
    /// No stacks yet.
    pub fn new(alloc: Global) -> Self
        ensures { result ≡ [] }
    {
        Piles {
            entries: Vec::new(alloc),
            depths: Vec::new(alloc),
            numbers: EntryNumbers::new(alloc),
        }
    }

    /// The number of a kind on a stack: that of the entry which is there already, or a new one. Takes
    /// time that grows with the logarithm of the number of stacks.
    pub fn push(&mut self, kind: Kind, below: usize) -> Result<usize, AllocError>
        requires below { below ≤ length self.old }
        requires few { length self.old < 2 ^ 32 }
        ensures stack { IfOk result (λ n. stack_of self.new n ≡ kind ∷ stack_of self.old below) }
        ensures within { IfOk result (λ n. n ≤ length self.new) }
        ensures keeps { KeepsStacks self.old self.new }
        ensures one { length self.new ≤ length self.old + 1 }
    {
        let entry = PileEntry { kind, below };
        if let Some(number) = self.numbers.find(entry) {
            return Ok(number);
        }
        let depth = Depth::one_of(kind).plus(self.depth(below));
        self.add(entry, depth)?;
        Ok(self.entries.len())
    }

    /// A new entry, with how many values its stack has; nothing changes where memory runs out.
    fn add(&mut self, entry: PileEntry, depth: Depth) -> Result<(), AllocError>
        requires new { (n : ℕ) → entry_of self.old n ≡ Some entry → ⊥ }
        requires below { entry.below ≤ length self.old }
        requires depth { depth ≡ count_of (entry.kind ∷ stack_of self.old entry.below) }
        ensures added { OnOk result (self.new ≡ entry ∷ self.old) }
        ensures err { OnErr result (self.new ≡ self.old) }
    {
        self.depths.reserve(1)?;
        self.entries.reserve(1)?;
        let number = self.entries.len() + 1;
        self.numbers.put(entry, number)?;
        self.depths.push_reserved(depth);
        self.entries.push_reserved(entry);
        Ok(())
    }

    /// How many numbers, texts and ordinals a stack has.
    pub fn depth(&self, stack: usize) -> Depth
        requires { stack ≤ length self.now }
        ensures value { result ≡ count_of (stack_of self.now stack) }
        ensures few { IsAtMost (length self.now) result }
    {
        if stack == 0 {
            return Depth::NONE;
        }
        self.depths[stack - 1]
    }

    /// The kind on top of a stack and the stack below it; none for the empty stack.
    pub fn take(&self, stack: usize) -> Option<(Kind, usize)>
        requires { stack ≤ length self.now }
        ensures stacks { MatchOption result (stack_of self.now stack ≡ []) (λ p. stack_of self.now stack ≡ p.0 ∷ stack_of self.now p.1) }
        ensures smaller { MatchOption result (stack ≡ 0) (λ p. p.1 < stack) }
    {
        if stack == 0 {
            return None;
        }
        let entry = self.entries[stack - 1];
        Some((entry.kind, entry.below))
    }

    /// The kind on top of a stack.
    pub fn top(&self, stack: usize) -> Option<Kind>
        requires { stack ≤ length self.now }
        ensures { result ≡ top_of (stack_of self.now stack) }
    {
        match self.take(stack) {
            None => None,
            Some((kind, _)) => Some(kind),
        }
    }

    /// Whether a stack has no entry.
    pub fn is_empty(&self, stack: usize) -> bool
        requires { stack ≤ length self.now }
        ensures { result ≡ same_kinds [] (stack_of self.now stack) }
    {
        match self.take(stack) {
            None => true,
            Some(_) => false,
        }
    }

    /// Whether two stacks are the same.
    pub fn are_same(&self, a: usize, b: usize) -> bool
        requires a { a ≤ length self.now }
        requires b { b ≤ length self.now }
        ensures { result ≡ same_kinds (stack_of self.now a) (stack_of self.now b) }
    {
        let _count = self.entries.len();
        a == b
    }
}
