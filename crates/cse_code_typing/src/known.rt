//! What the places so far lead to, at each place.

ghost use Rattle.std.specs.Prelude.{◌≡◌, ◌≤◌, ◌<◌, [], ◌∷◌, length, Some, None, if◌then◌else◌};
ghost use Rattle.cse_code_typing.specs.Pass.{met, stands, merge};
ghost use Rattle.cse_code_typing.specs.Piles.{stack_of, expects};
ghost use Rattle.cse_code_typing.specs.Edges.{edge_of, edges_of, known_of};
ghost use Rattle.cse_code_typing.specs.Within.{IsWithin, AreWithin, ExitsWithin, expected_in};

use crate::exits::{Edge, Exits};
use crate::piles::{Expected, Piles};

/// What a place expects after one more edge to it.
fn met_at(piles: &Piles, there: Expected, stack: usize) -> Expected
    requires there { IsWithin (length piles.now) there }
    requires stack { stack ≤ length piles.now }
    ensures value { expects piles.now result ≡ met (expects piles.now there) (stack_of piles.now stack) }
    ensures within { IsWithin (length piles.now) result }
{
    match there {
        Expected::Free => Expected::Is(stack),
        Expected::Is(other) => {
            if piles.are_same(other, stack) {
                Expected::Is(other)
            } else {
                Expected::Clash
            }
        }
        Expected::Clash => Expected::Clash,
    }
}

/// Whether a stack stands at a place that was passed.
fn stands_at(piles: &Piles, there: Expected, stack: usize) -> bool
    requires there { IsWithin (length piles.now) there }
    requires stack { stack ≤ length piles.now }
    ensures { result ≡ stands (expects piles.now there) (stack_of piles.now stack) }
{
    match there {
        Expected::Free => piles.is_empty(stack),
        Expected::Is(other) => piles.are_same(other, stack),
        Expected::Clash => false,
    }
}

/// What is expected at a place; nothing, where it isn't there.
pub fn expected_at(known: &[Expected], place: usize) -> Expected
    ensures { result ≡ expected_in known.now place }
{
    match known.get(place) {
        None => Expected::Free,
        Some(there) => *there,
    }
}

/// Meets one edge of the instruction at a place: a stack at a place that was passed has to stand
/// there.
fn merge_edge(piles: &Piles, place: u32, edge: Edge, known: &mut [Expected]) -> bool
    requires stack { edge.stack ≤ length piles.now }
    requires within { AreWithin (length piles.now) known.old }
    ensures merges { merge place (edge_of piles.now edge ∷ []) (known_of piles.now known.old) ≡ (if result then Some (known_of piles.now known.new) else None) }
    ensures within { AreWithin (length piles.now) known.new }
{
    let there = expected_at(known, edge.to);
    if edge.to <= place as usize {
        return stands_at(piles, there, edge.stack);
    }
    let more = met_at(piles, there, edge.stack);
    if edge.to < known.len() {
        known[edge.to] = more;
    }
    true
}

/// Meets the edges of the instruction at a place.
pub fn merge_exits(piles: &Piles, place: u32, exits: Exits, known: &mut [Expected]) -> bool
    requires exits { ExitsWithin (length piles.now) exits }
    requires within { AreWithin (length piles.now) known.old }
    ensures merges { merge place (edges_of piles.now exits) (known_of piles.now known.old) ≡ (if result then Some (known_of piles.now known.new) else None) }
    ensures within { AreWithin (length piles.now) known.new }
{
    match exits {
        Exits::Nowhere => true,
        Exits::One(edge) => merge_edge(piles, place, edge, known),
        Exits::Two(edge, other) => {
            if !merge_edge(piles, place, edge, known) {
                return false;
            }
            merge_edge(piles, place, other, known)
        }
    }
}
