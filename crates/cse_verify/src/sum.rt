//! The sum of the steps of one routine.

ghost use Rattle.std.specs.Prelude.{◌≡◌, [], ◌∷◌, ℕ, suc, Some, ◌+◌, ◌*◌, ◌^◌, ◌<◌, ◌≤◌, length, slice_get, slice_index, EachIndex, IfOk, IfErr};
ghost use Rattle.cse_code_typing.specs.Bracket.{KeepsRules};
ghost use Rattle.cse_verify.specs.Limit.{step_limit};
ghost use Rattle.cse_verify.specs.Weight.{weight as weight_of};
ghost use Rattle.cse_verify.specs.Bound.{cost, partial, CallsBelow, PassesLimit};
ghost use Rattle.cse_verify.specs.Running.{weights_at};

use crate::limits::STEP_LIMIT;
use cse_code_typing::{Control, Nest, RoutineCode};
use cse_image::Code;

/// The steps of one visit of an instruction.
fn cost_of(control: Control, bounds: &[u64]) -> u64
    requires call { (c : ℕ) → control ≡ Control.Call c → c < length bounds.now }
    requires small { EachIndex bounds.now (λ r. slice_index bounds.now r ≤ step_limit) }
    ensures value { result ≡ cost bounds.now (Some control) }
    ensures small { result ≤ step_limit + 1 }
{
    match control {
        Control::Call(routine) => 1 + bounds[routine as usize],
        _ => 1,
    }
}

/// The weight of a place that no bracket is around, with room for those within 64 brackets.
fn outermost() -> Nest<u128>
    ensures { result ≡ 1 ∷ [] }
{
    let mut weights = Nest::new(0);
    weights.push(1);
    weights
}

/// From the weights at a place to those at the next one.
fn pass<C: Code>(code: &RoutineCode<'_, C>, place: u32, control: Control, weights: &mut Nest<u128>)
    requires keeps { KeepsRules code.now }
    requires there { slice_get code.now place ≡ Some control }
    requires weights { weights.old ≡ weights_at code.now place }
    requires small { weight_of code.now place ≤ step_limit }
    ensures { weights.new ≡ weights_at code.now (suc place) }
{
    match control {
        Control::Open(limit, _) => {
            let weight = weights.at(0);
            weights.push(limit as u128 * weight);
        }
        Control::End(_) => weights.pop(),
        _ => {}
    }
}

/// The bound of a routine, or the least place at which its sum passes the limit.
pub fn bound_of<C: Code>(code: &RoutineCode<'_, C>, bounds: &[u64]) -> Result<u64, u32>
    requires keeps { KeepsRules code.now }
    requires calls { CallsBelow (length bounds.now) code.now }
    requires small { EachIndex bounds.now (λ r. slice_index bounds.now r ≤ step_limit) }
    ensures bound { IfOk result (λ n. n ≡ partial bounds.now code.now (length code.now)) }
    ensures small { IfOk result (λ n. n ≤ step_limit) }
    ensures too_long { IfErr result (λ p. PassesLimit bounds.now code.now p) }
{
    let mut weights = outermost();
    let mut total = 0;
    'places: for place in 0..code.len() {
        let Some(control) = code.at(place) else {
            unreachable!()
        };
        let weight = weights.at(0);
        if weight > STEP_LIMIT as u128 {
            return Err(place);
        }
        let sum = total as u128 + weight * cost_of(control, bounds) as u128;
        if sum > STEP_LIMIT as u128 {
            return Err(place);
        }
        total = sum as u64;
        pass(code, place, control, &mut weights);
    }
    Ok(total)
}
