//! What lies on a stack below the kinds that an instruction takes.

ghost use Rattle.std.specs.Prelude.{◌≡◌, ◌≤◌, ◌<◌, length, reverse, option_map, slice_get, IfSome};
ghost use Rattle.std.specs.Option.{option_to_list};
ghost use Rattle.cse_image_parts.specs.Image.{lists_of};
ghost use Rattle.cse_code_typing.specs.Kinds.{below};
ghost use Rattle.cse_code_typing.specs.Needs.{listed_kinds, takes_of};
ghost use Rattle.cse_code_typing.specs.Piles.{stack_of};

use crate::kind::{Kind, is_same_kind, kind_of_argument, kind_of_local};
use crate::need::{Listed, Need};
use crate::piles::Piles;
use cse_image_parts::entries::Tables;
use cse_image_parts::placeholders::{count_placeholders, kind_at};

/// How many kinds are listed.
fn count_of(tables: &Tables, listed: Listed) -> usize
    ensures { result ≡ length (listed_kinds (lists_of tables.now) listed) }
{
    match listed {
        Listed::Nothing => 0,
        Listed::Dimensions(array) => match tables.arrays.get(array as usize) {
            None => 0,
            Some(found) => found.dimensions.len(),
        },
        Listed::Arguments(message) => match tables.messages.get(message as usize) {
            None => 0,
            Some(found) => count_placeholders(found.text.as_bytes()),
        },
        Listed::Parameters(routine) => match tables.routines.get(routine as usize) {
            None => 0,
            Some(found) => (found.parameters as usize).min(found.locals.len()),
        },
    }
}

/// The listed kind at a place, from 0.
fn listed_at(tables: &Tables, listed: Listed, place: usize) -> Option<Kind>
    ensures { result ≡ slice_get (listed_kinds (lists_of tables.now) listed) place }
{
    match listed {
        Listed::Nothing => None,
        Listed::Dimensions(array) => match tables.arrays.get(array as usize) {
            None => None,
            Some(found) => match found.dimensions.get(place).copied() {
                None => None,
                Some(size) => Some(Kind::Index(size as u32)),
            },
        },
        Listed::Arguments(message) => match tables.messages.get(message as usize) {
            None => None,
            Some(found) => match kind_at(found.text.as_bytes(), place) {
                None => None,
                Some(kind) => Some(kind_of_argument(kind)),
            },
        },
        Listed::Parameters(routine) => match tables.routines.get(routine as usize) {
            None => None,
            Some(found) => {
                if place >= found.parameters as usize {
                    return None;
                }
                match found.locals.get(place).copied() {
                    None => None,
                    Some(local) => Some(kind_of_local(local)),
                }
            }
        },
    }
}

/// The stack below one kind, or the stack itself where there is none to take.
fn below_one(piles: &Piles, kind: Option<Kind>, stack: usize) -> Option<usize>
    requires { stack ≤ length piles.now }
    ensures stacks { option_map (stack_of piles.now) result ≡ below (option_to_list kind) (stack_of piles.now stack) }
    ensures within { IfSome result (λ n. n ≤ length piles.now) }
{
    let Some(kind) = kind else {
        return Some(stack);
    };
    match piles.take(stack) {
        None => None,
        Some((top, rest)) => {
            if is_same_kind(kind, top) {
                Some(rest)
            } else {
                None
            }
        }
    }
}

/// The stack below the listed kinds, the last of which is topmost.
fn below_listed(piles: &Piles, tables: &Tables, listed: Listed, stack: usize) -> Option<usize>
    requires { stack ≤ length piles.now }
    ensures stacks { option_map (stack_of piles.now) result ≡ below (reverse (listed_kinds (lists_of tables.now) listed)) (stack_of piles.now stack) }
    ensures within { IfSome result (λ n. n ≤ length piles.now) }
{
    let mut left = count_of(tables, listed);
    let mut rest = stack;
    'kinds: while left > 0 {
        left -= 1;
        let Some(kind) = listed_at(tables, listed, left) else {
            return None;
        };
        match below_one(piles, Some(kind), rest) {
            None => return None,
            Some(next) => rest = next,
        }
    }
    Some(rest)
}

/// The stack below all kinds that are taken.
pub fn below_need(piles: &Piles, tables: &Tables, need: &Need, stack: usize) -> Option<usize>
    requires { stack ≤ length piles.now }
    ensures stacks { option_map (stack_of piles.now) result ≡ below (takes_of (lists_of tables.now) need.now) (stack_of piles.now stack) }
    ensures within { IfSome result (λ n. n ≤ length piles.now) }
{
    let rest = below_one(piles, need.first, stack)?;
    let rest = below_one(piles, need.second, rest)?;
    below_listed(piles, tables, need.listed, rest)
}
