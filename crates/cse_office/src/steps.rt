//! How many steps a routine may take, as `verify` tells them of an image that it accepts.

use cse_image::{Code, Instr, Op, Program, Tables};
use std::alloc::Global;

/// The steps of the routines so far.
pub struct Steps {
    routines: Vec<u64>,
    /// How often a call may come to a place within each bracket that is open, the innermost last.
    weights: Vec<u64>,
    pub lacks_memory: bool,
}

// Written out, so that one who owns it calls this drop and does not prove one for each part.
impl Drop for Steps {
    fn drop(self) {
        let Steps {
            routines: _routines,
            weights: _weights,
            lacks_memory: _lacks_memory,
        } = self;
    }
}

/// The most turns of the bracket that an instruction opens.
fn turns_of(tables: &Tables, instr: Instr) -> Option<u64> {
    match instr.op {
        Op::LoopCount => match tables.limits.get(instr.b as usize) {
            Some(limit) => Some(u64::from(*limit)),
            None => None,
        },
        Op::LoopOccurrences => match tables.records.get(instr.a as usize) {
            Some(record) => Some(u64::from(record.max_records)),
            None => None,
        },
        _ => None,
    }
}

impl Steps {
    /// No routines.
    pub fn new(alloc: Global) -> Steps {
        Steps {
            routines: Vec::new(alloc),
            weights: Vec::new(alloc),
            lacks_memory: false,
        }
    }

    /// How often a call may come to the next place.
    fn weight(&self) -> u64 {
        self.weights.last().copied().unwrap_or(1)
    }

    /// The steps of an instruction: a call has those of its routine too.
    fn cost_of(&self, instr: Instr) -> u64 {
        if instr.op == Op::Call {
            let callee = self.routines.get(instr.c as usize).copied().unwrap_or(0);
            return callee.saturating_add(1);
        }
        1
    }

    /// Adds the steps of the next routine, which has so many instructions from one on, and answers them.
    pub fn add(&mut self, program: &Program, first: usize, count: usize) -> u64 {
        let code = program.code();
        let mut steps = 0u64;
        self.weights.clear();
        for place in first..first.saturating_add(count) {
            if place < code.len() {
                let instr = code.at(place);
                let weight = self.weight();
                steps = steps.saturating_add(weight.saturating_mul(self.cost_of(instr)));
                if let Some(turns) = turns_of(program.tables(), instr) {
                    self.lacks_memory |= self.weights.push(weight.saturating_mul(turns)).is_err();
                } else if instr.op == Op::End {
                    self.weights.pop();
                }
            }
        }
        self.lacks_memory |= self.routines.push(steps).is_err();
        steps
    }
}
