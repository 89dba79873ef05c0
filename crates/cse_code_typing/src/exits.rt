//! Where an instruction leads, and which stacks stand there.

ghost use Rattle.std.specs.Prelude.{◌≡◌, ◌≤◌, length, option_map, IfSome};
ghost use Rattle.cse_code_typing.specs.Piles.{stack_of};
ghost use Rattle.cse_code_typing.specs.Rule.{exits};
ghost use Rattle.cse_code_typing.specs.Edges.{edges_of};
ghost use Rattle.cse_code_typing.specs.Within.{ExitsWithin};

use crate::control::Control;
use crate::piles::Piles;

/// A place, and the number of the stack that stands there.
#[derive(Clone, Copy)]
pub struct Edge {
    pub to: usize,
    pub stack: usize,
}

/// Where an instruction leads.
#[derive(Clone, Copy)]
pub enum Exits {
    Nowhere,
    One(Edge),
    Two(Edge, Edge),
}

/// Where an instruction at a place leads: `rest` is the stack below what it takes, and `after` the
/// stack with what it leaves.
pub fn exits_of(
    piles: &Piles,
    place: u32,
    control: Control,
    rest: usize,
    after: usize,
) -> Option<Exits>
    requires rest { rest ≤ length piles.now }
    requires after { after ≤ length piles.now }
    ensures edges { option_map (edges_of piles.now) result ≡ exits place control (stack_of piles.now rest) (stack_of piles.now after) }
    ensures within { IfSome result (ExitsWithin (length piles.now)) }
{
    let next = Edge {
        to: place as usize + 1,
        stack: after,
    };
    match control {
        Control::Step => Some(Exits::One(next)),
        Control::Jump(to) => Some(Exits::One(Edge {
            to: to as usize,
            stack: after,
        })),
        Control::Branch(to) => Some(Exits::Two(
            Edge {
                to: to as usize,
                stack: rest,
            },
            next,
        )),
        Control::Open(_, end) => Some(Exits::Two(
            next,
            Edge {
                to: end as usize + 1,
                stack: after,
            },
        )),
        Control::End(opener) => Some(Exits::Two(
            Edge {
                to: opener as usize + 1,
                stack: after,
            },
            next,
        )),
        Control::Break(end) => Some(Exits::One(Edge {
            to: end as usize + 1,
            stack: after,
        })),
        Control::Call(_) => Some(Exits::One(next)),
        Control::Return => match piles.take(rest) {
            None => Some(Exits::Nowhere),
            Some(_) => None,
        },
    }
}
