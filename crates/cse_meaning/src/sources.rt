//! What is proved of the program of a sound source.

ghost use Rattle.cse_meaning.specs.Checked.{RoutinesAreCounted, RoutinesAreTyped, StatementsFit};
ghost use Rattle.cse_meaning.specs.Cost.{BoundsAreCosts};
ghost use Rattle.cse_meaning.specs.Costs.{CheapIsBounded, LongOnlyAtCost};
ghost use Rattle.cse_meaning.specs.Sound.{BoundsAreCostsWhereSpelled, GrammarSuffices, OrdersNameAll, SourcesAreSound};

/// A law: where a source is sound for a dictionary and a message file, and a program is the source's, the statements of
/// each of its routines fit the tables of the program (`fits`). So each routine is typed (`typed`), and its bound is the
/// steps that its statements tell by their structure (`counted`).
pub fn code_of_a_source_is_typed()
    ensures fits { StatementsFit }
    ensures typed { RoutinesAreTyped }
    ensures counted { RoutinesAreCounted }
{}

/// A law: the bound of a routine of a sound source is at most its cost, which is 16 steps for each token, a loop's tokens
/// so often as its limit allows, and at a call the cost of the function (`cost`).
pub fn bounds_are_costs()
    ensures cost { BoundsAreCosts }
{}

/// A law: each program of a sound source is typed (`sound`), also where nothing more is known of its words than that they
/// are of the grammar (`truncated`); the edit order of an order file names each record once (`order`).
pub fn sources_are_sound()
    ensures sound { SourcesAreSound }
    ensures truncated { GrammarSuffices }
    ensures order { OrdersNameAll }
{}

/// A law: the bound of a routine of a program that has a spelling is at most its cost, since no array of it has more than
/// three dimensions (`cost`).
pub fn spelled_bounds_are_costs()
    ensures cost { BoundsAreCostsWhereSpelled }
{}

/// A law: a program of a sound source is bounded where no cost of the source is above 10^15 steps (`bounded`); so no
/// program of it takes too long unless one is (`long`).
pub fn cheap_sources_are_bounded()
    ensures bounded { CheapIsBounded }
    ensures long { LongOnlyAtCost }
{}
