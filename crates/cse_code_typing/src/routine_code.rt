//! The code of one routine, as a part of the code of the program.

ghost use Rattle.std.specs.Prelude.{◌≡◌, ◌≤◌, ◌<◌, ◌+◌, length, slice_get, Some};
ghost use Rattle.cse_image_parts.specs.Image.{lists_of};
ghost use Rattle.cse_code_typing.specs.Code.{part};
ghost use Rattle.cse_code_typing.specs.Skeleton.{skeleton};

use crate::control::{Control, control_of};
use cse_image::Code;
use cse_image_parts::entries::Tables;
use std::marker::Model;

/// The skeleton of a routine, read in place.
#[derive(Drop)]
pub struct RoutineCode<'a, C: Code> {
    code: &'a C,
    tables: &'a Tables,
    start: usize,
    size: u32,
}

impl<'a, C: Code> Model for RoutineCode<'a, C> {
    ghost use Rattle.std.specs.Prelude.{List, ◌≤◌, ◌+◌, length};
    ghost use Rattle.cse_code_typing.specs.declared.control.Control.{Control};
    ghost use Rattle.cse_image_parts.specs.Image.{lists_of};
    ghost use Rattle.cse_code_typing.specs.Code.{part};
    ghost use Rattle.cse_code_typing.specs.Skeleton.{skeleton};

    ghost Value = { List Control };

    ghost view = { λ r. skeleton (lists_of r.tables.now) (part r.start r.size (C.list r.code.now)) };

    ghost invariant = { λ r. r.start + r.size ≤ length (C.list r.code.now) };
}

impl<'a, C: Code> RoutineCode<'a, C> {
    /// The routine whose instructions start there.
    pub fn new(code: &'a C, tables: &'a Tables, start: usize, size: u32) -> Self
        requires { start + size ≤ length (C.list code.now) }
        ensures { result ≡ skeleton (lists_of tables.now) (part start size (C.list code.now)) }
    {
        RoutineCode {
            code,
            tables,
            start,
            size,
        }
    }

    /// How many instructions there are.
    pub fn len(&self) -> u32
        ensures { result ≡ length self.now }
    {
        self.size
    }

    /// What stands at a place, if it is there.
    pub fn at(&self, place: u32) -> Option<Control>
        ensures { result ≡ slice_get self.now place }
    {
        if place < self.size {
            let _fits = self.code.len();
            let instr = self.code.at(self.start + place as usize);
            Some(control_of(self.tables, instr))
        } else {
            None
        }
    }
}
