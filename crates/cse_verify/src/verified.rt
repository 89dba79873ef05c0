//! A program that may run with a dictionary, and how much it may take.

ghost use Rattle.std.specs.Prelude.{◌≡◌, ℕ, ◌<◌, ◌≤◌, List, length};
ghost use Rattle.cse_verify.specs.Bound.{bound};
ghost use Rattle.cse_verify.specs.Limit.{step_limit};
ghost use Rattle.cse_verify.specs.EventBound.{case_bound, run_bound};
ghost use Rattle.cse_verify.specs.Calls.{StepsKeepToBound, RestFalls, WalksGoOn, WalksStayInside, RestIsBound, OpensKeepToFrames};
ghost use Rattle.cse_verify.specs.CaseEvents.{Moment, case_events, events_bound, KeepsMost, KeepsTimes};
ghost use Rattle.cse_dict.specs.Dictionary.{shape_of};
ghost use Rattle.cse_verify.specs.Chain.{Calling, IsChain, KeepsToDepth};
ghost use Rattle.cse_verify.specs.Depths.{IsDepthOf};
ghost use Rattle.cse_verify.specs.declared.depth.Depth.{Depth};
ghost use Rattle.cse_verify.specs.Verified.{MayRun, IsKept};

use crate::bound_laws::{events_keep_to_bound, walks_keep_to_bound};
use crate::depth::Depth;
use cse_dict::Dictionary;
use cse_image::{Code, Owned, Program};
use std::marker::Model;

/// A program that may run with its dictionary: `verify` alone makes one. It is seen as the dictionary
/// and the program that were handed in. None of its calls takes memory.
#[derive(Drop)]
pub struct Verified<'a, C: Code = Owned> {
    dictionary: &'a Dictionary,
    program: Program<C>,
    bounds: Vec<u64>,
    case_steps: u64,
    run_steps: u64,
    depth: Depth,
}

impl<'a, C: Code> Model for Verified<'a, C> {
    ghost use Rattle.cse_verify.specs.Verified.{VerifiedProgram, IsKept};

    ghost Value = { VerifiedProgram };

    ghost view = { λ v. record { dictionary = v.dictionary.now; image = v.program } };

    ghost invariant = { λ v. IsKept (record { dictionary = v.dictionary.now; image = v.program }) v.bounds.items v.case_steps v.run_steps v.depth };
}

impl<'a, C: Code> Verified<'a, C> {
    /// The verified program.
    pub(crate) fn with(
        dictionary: &'a Dictionary,
        program: Program<C>,
        bounds: Vec<u64>,
        case_steps: u64,
        run_steps: u64,
        depth: Depth,
    ) -> Self
        requires { IsKept (record { dictionary = dictionary.now; image = program }) bounds.items case_steps run_steps depth }
        ensures { result ≡ record { dictionary = dictionary.now; image = program } }
    {
        Verified {
            dictionary,
            program,
            bounds,
            case_steps,
            run_steps,
            depth,
        }
    }

    /// The program that was handed in. It is typed for the dictionary, and bounded.
    pub fn program(&self) -> &Program<C>
        ensures program { result.now ≡ self.now.image }
        ensures may_run { MayRun self.now }
    {
        &self.program
    }

    /// The dictionary that was handed in.
    pub fn dictionary(&self) -> &'a Dictionary
        ensures { result.now ≡ self.now.dictionary }
    {
        self.dictionary
    }

    /// The program again.
    pub fn into_program(self) -> Program<C>
        ensures { result ≡ self.entry.image }
    {
        self.program
    }

    /// The most steps that a call of a routine takes, those of the calls in it with them.
    pub fn steps(&self, routine: u32) -> u64
        requires { routine < length self.now.image.lists.routines }
        ensures value { result ≡ bound self.now.image routine }
        ensures small { result ≤ step_limit }
    {
        self.bounds[routine as usize]
    }

    /// The most steps that the events of a case take together.
    pub fn case_steps(&self) -> u64
        ensures value { result ≡ case_bound self.now.image }
        ensures small { result ≤ step_limit }
    {
        self.case_steps
    }

    /// The most steps that the application's events take together.
    pub fn run_steps(&self) -> u64
        ensures { result ≡ run_bound self.now.image }
    {
        self.run_steps
    }

    /// How much the calls of a run keep at most.
    pub fn depth(&self) -> Depth
        ensures { IsDepthOf (shape_of self.now.dictionary) self.now.image result }
    {
        self.depth
    }

    /// A law: the events of a case by the program's order, with any numbers of occurrences that its
    /// records may have, take together at most `case_steps`; and so do any events of which none comes
    /// more often than it may in a case.
    pub fn events_keep_to_case(&self)
        ensures listed { (events : List Moment) → KeepsTimes self.now.image events → events_bound self.now.image events ≤ case_bound self.now.image }
        ensures case { (occurrences : ℕ → ℕ) → KeepsMost self.now.image occurrences
            → events_bound self.now.image (case_events self.now.image occurrences) ≤ case_bound self.now.image }
    {
        events_keep_to_bound(self.program());
    }

    /// A law: all calls at one time, of which each but the innermost waits at a call of the one before
    /// it, keep together no more numbers, texts, ordinals and open brackets than `depth` says. A call
    /// keeps its locals and its stack; one that waits, the stack without the arguments.
    pub fn calls_keep_to_depth(&self)
        ensures { (calls : List Calling) (d : Depth) → IsChain (shape_of self.now.dictionary) self.now.image calls
            → IsDepthOf (shape_of self.now.dictionary) self.now.image d → KeepsToDepth self.now.image calls d }
    {
        let _may_run = self.program();
    }

    /// A law: the steps that a call of a routine takes are at most `steps` tells, whatever its operands
    /// decide. What each clause says stands at `walks_keep_to_bound` of `cse_code_bounds`.
    pub fn walks_keep_to_steps(&self)
        ensures steps { StepsKeepToBound self.now.image }
        ensures falls { RestFalls self.now.image }
        ensures begins { RestIsBound self.now.image }
        ensures goes_on { WalksGoOn self.now.image }
        ensures inside { WalksStayInside self.now.image }
        ensures frames { OpensKeepToFrames self.now.image }
    {
        walks_keep_to_bound(self.program());
    }
}
