//! The typing of programs: which jumps, brackets and abstract stacks a program may have.
//!
//! It is the lower half of the verifier. `typed` says whether a whole program is typed for a dictionary
//! of a shape, and gives the first reason where it isn't; `specs/Typed.antt` says what that means.
#![tactic(auto)]

mod below;
mod brackets;
mod control;
mod depth;
mod exits;
mod handlers;
mod in_loop;
mod innermost;
mod jumps;
mod kind;
mod known;
mod laws;
mod need;
mod nest;
mod numbers;
mod order;
mod pass_at;
mod piles;
mod place_depth;
mod refusal;
mod routine_code;
mod shape;
mod stand;
mod walk;
mod whole;

pub use control::{Control, control_of};
pub use depth::Depth;
pub use handlers::routine_of;
pub use in_loop::{instr_at, loops_at};
pub use jumps::check_jumps_and_brackets;
pub use kind::{Kind, is_same_kind, kind_of_argument, kind_of_global, kind_of_local};
pub use laws::{edges_lead_inside, events_run_handlers, growth_is_told, typing_is_one};
pub use nest::Nest;
pub use order::{all_events_fit, fits_event, names_each_once};
pub use pass_at::Surroundings;
pub use refusal::{NONE, Refusal};
pub use routine_code::RoutineCode;
pub use shape::same_shape;
pub use stand::may_stand;
pub use walk::{WalkFault, judge};
pub use whole::{check_events, check_routine, typed};
