//! The verifier: whether a program may run, and how many steps it may take.
//!
//! It is the public face of the verifier. What jumps, brackets and typings are is defined in
//! `cse_code_typing`, on which it stands.
//!
//! - `verify`: whether a program may run with a dictionary; a `Verified` value tells how much it may take.
//! - `check_image`: the program of an image, read and verified.
//! - `check_jumps`: the rules of jumps and brackets alone.
//! - `same_shape`: whether a program was made for a dictionary, without memory.
//! - `routine_of`: which routine an event runs.
//! - `limits`, `sum`, `frames`, `events`: bounds, over the skeleton of the code: how many steps each routine, a case and the
//!   application's events may take, and how many brackets are open at once. `specs/Weight.antt` says how often a call comes to a
//!   place, `specs/Bound.antt` what a routine may take, `specs/EventBound.antt` what a case and the application's events may take.
//!   `specs/Walk.antt` says which steps code takes, and `bound_laws` that they keep to these bounds.
//!
//! Its tests are those of cse_test_checks.
#![tactic(auto)]

mod bound_laws;
mod depth;
mod events;
mod frames;
mod image;
mod jumps;
mod laws;
mod limits;
mod routines;
mod shape;
mod sum;
mod verified;
mod verifying;

pub use bound_laws::{events_keep_to_bound, walks_keep_to_bound};
pub use cse_code_typing::{NONE, Refusal, routine_of};
pub use depth::Depth;
pub use events::{case_steps, run_steps};
pub use frames::frames_of;
pub use image::{CheckFault, check_image};
pub use jumps::check_jumps;
pub use laws::{first_reason_is_one, limits_are_their_own, upgrade_means_the_same};
pub use limits::{STEP_LIMIT, limit_is_as_defined};
pub use shape::same_shape;
pub use sum::bound_of;
pub use verified::Verified;
pub use verifying::verify;
