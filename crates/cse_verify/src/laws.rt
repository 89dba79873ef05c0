//! What holds of the reasons against programs: functions that do nothing, each with a law.

ghost use Rattle.cse_verify.specs.FirstFault.{FirstReasonIsOne};
ghost use Rattle.cse_verify.specs.Meaning.{UpgradeMeansSame, LimitsAreTheirOwn};

/// A law: a program has one first reason against it at most, with one number, routine and place.
pub fn first_reason_is_one()
    ensures { FirstReasonIsOne }
{}

/// A law: the upgrade of a program of version 1 is, for the verifier, the program whose limits are 0, 1,
/// 2, .. and whose code stands as it is: both have the same skeletons, typings, bounds and depths, and
/// are typed for the same dictionaries.
pub fn upgrade_means_the_same()
    ensures { UpgradeMeansSame }
{}

/// A law: where the code of version 1 stands as it is, entry b of the table of limits is b, for each b that a
/// counting loop of version 1 may have, from 1 to 65,535. So the loop may take b turns, which is what its b says.
pub fn limits_are_their_own()
    ensures { LimitsAreTheirOwn }
{}
