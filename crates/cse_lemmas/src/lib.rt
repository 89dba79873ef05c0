//! Lemmas of lists, options, results, tests, numbers and texts that proofs of several crates cite, and that std has not. It has no
//! code.
//!
//! - `proofs/Lists.antt`: an element at a place, what is left behind it and what stands before, what holds of each element.
//! - `proofs/Options.antt`: what is known of an option that is there. `proofs/Results.antt`: what is known of a result.
//! - `proofs/Booleans.antt`: tests that are joined, and those that say the same.
//! - `proofs/Numbers.antt`: bounds of numbers that are joined by their bits.
//! - `proofs/Texts.antt`: bytes that are ASCII or UTF-8.
#![tactic(auto)]
