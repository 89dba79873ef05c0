//! Hot decks: how large their code is, and the code.

ghost use Rattle.std.specs.Prelude.{◌≡◌, ◌+◌, ◌≤◌, [], ◌∷◌, ◌++◌, min, OnOk, IfOk};
ghost use Rattle.cse_compile.specs.Expressions as spec;

use crate::emitter::Emitter;
use crate::items::UNDEFINED;
use crate::sizes::{plus, present_size};
use crate::wide::Wide;
use cse_image_parts::instruction::Op;
use cse_logic_tree::Pick;
use std::alloc::AllocError;

/// Whether a pick may find no row.
pub fn can_fail(picks: &[Pick]) -> bool
    ensures { result ≡ spec.can_fail picks.now }
{
    match picks {
        [] => false,
        [first, rest @ ..] => !first.has_leftover || can_fail(rest),
    }
}

/// How many indexes lie on the stack where the last pick fails that can fail.
pub fn deepest(picks: &[Pick]) -> usize
    ensures { result ≡ min (spec.deepest picks.now) 1000001 }
{
    match picks {
        [] => 0,
        [_, rest @ ..] => {
            if can_fail(rest) {
                plus(deepest(rest), 1)
            } else {
                0
            }
        }
    }
}

/// How many instructions the indexes into a hot deck have; 1,000,001 stands for more too.
pub fn picks_size(picks: &[Pick]) -> usize
    ensures { result ≡ min (spec.picks_size picks.now) 1000001 }
{
    match picks {
        [] => 0,
        [first, rest @ ..] => plus(present_size(first.item) + 1, picks_size(rest)),
    }
}

/// The code behind the indexes.
pub fn deck_size(picks: &[Pick]) -> usize
    ensures { result ≡ min (spec.deck_size picks.now) 1000001 }
{
    if can_fail(picks) {
        plus(deepest(picks), 3)
    } else {
        1
    }
}

impl Emitter<'_> {
    /// The row of the number on top.
    fn row(&mut self, pick: Pick, fail: usize) -> Result<(), AllocError>
        ensures { OnOk result (self.new ≡ self.old ++ spec.row pick fail ∷ []) }
    {
        if pick.has_leftover {
            self.put(Wide::Plain(Op::Row, 1, pick.set, 0))
        } else {
            self.put(Wide::Plain(Op::Row, 0, pick.set, fail))
        }
    }

    /// An index for each pick; from `drops` on they are dropped where one finds no row.
    #[tactic(auto, using(crate::proofs::Lists::deepest_at_most))]
    pub fn picks(&mut self, drops: usize, place: usize, picks: &[Pick]) -> Result<usize, AllocError>
        requires room { place + spec.picks_size picks.now ≤ 1000000 }
        requires within { drops ≤ 2000000 }
        ensures code { OnOk result (self.new ≡ self.old ++ spec.picks_code drops place picks.now) }
        ensures behind { IfOk result (λ n. n ≡ place + spec.picks_size picks.now) }
    {
        match picks {
            [] => Ok(place),
            [first, rest @ ..] => {
                let row = self.number_of_item(place, first.item)?;
                self.row(*first, drops + deepest(picks))?;
                let last = self.picks(drops, row + 1, rest)?;
                Ok(last)
            }
        }
    }

    /// The cell that the indexes pick, or `default`.
    pub fn deck(&mut self, place: usize, array: usize, picks: &[Pick]) -> Result<usize, AllocError>
        requires room { place + spec.deck_size picks.now ≤ 1000000 }
        ensures code { OnOk result (self.new ≡ self.old ++ spec.deck_code array place picks.now) }
        ensures behind { IfOk result (λ n. n ≡ place + spec.deck_size picks.now) }
    {
        if !can_fail(picks) {
            return self.one(place, Wide::Plain(Op::LoadCell, 0, 0, array));
        }
        let count = deepest(picks);
        self.with_c(Op::LoadCell, array)?;
        self.with_c(Op::Jump, place + count + 3)?;
        self.pops(count)?;
        self.one(place + count + 2, UNDEFINED)
    }

    /// The number in a hot deck's cell: an index for each pick, and the cell that they pick.
    pub(crate) fn number_of_deck(
        &mut self,
        place: usize,
        array: usize,
        picks: &[Pick],
    ) -> Result<usize, AllocError>
        requires room { place + (spec.picks_size picks.now + spec.deck_size picks.now) ≤ 1000000 }
        ensures code { OnOk result (self.new ≡ self.old ++
            (spec.picks_code (place + spec.picks_size picks.now + 2) place picks.now ++ spec.deck_code array (place + spec.picks_size picks.now) picks.now)) }
        ensures behind { IfOk result (λ n. n ≡ place + (spec.picks_size picks.now + spec.deck_size picks.now)) }
    {
        let at = self.picks(place + picks_size(picks) + 2, place, picks)?;
        self.deck(at, array, picks)
    }
}
