//! The limit on steps.

ghost use Rattle.std.specs.Prelude.{◌≡◌};
ghost use Rattle.cse_verify.specs.Limit.{step_limit};

/// The most steps that a call of a routine, and the events of a case, may take (own).
pub const STEP_LIMIT: u64 = 1_000_000_000_000_000;

/// Law: the limit is that of the definition.
pub fn limit_is_as_defined()
    ensures { STEP_LIMIT ≡ step_limit }
{}
