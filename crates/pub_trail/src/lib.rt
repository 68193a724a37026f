//! The trail of a solver, its conflicts, and one turn over three lists, after PubGrub (`solver.md`) over sets of choices.
//!
//! A solver keeps the incompatibilities in the order of their arrival, the loads that are done, and the trail: assignments, each of
//! which leaves its node some choices, decided or derived from an incompatibility. `specs/Trail.antt` says what is left for a node, and
//! when an incompatibility holds. `specs/Turn.antt` has the turn, as the first of five cases: load the root, resolve a conflict, derive,
//! load or decide the next node, or be done. What a load brings and which node is next are given by `Rules`; a solver says its own.
//!
//! The calls that the solvers above use: [`Left::of`] works out what is left for each node; [`newest_of`] and [`forced`] find the newest
//! incompatibility that holds and the newest that is almost satisfied; [`walk_down`] resolves a conflict along the trail; [`drop_above`]
//! goes back to a level; [`decisions`] and [`open_nodes`] tell what is decided and what the loads' facts require. Each answers what the definitions say.
//!
//! The laws hold of every solver whose rules are right (`AreRules`): a conflict is sound ([`conflicts_are_sound`]), turns keep what the
//! lists are ([`turns_are_sound`]), a refutation is checked line by line ([`refutations_are_checked`]), every run ends ([`runs_end`]), and
//! what is selected is the first ([`selections_are_first`]).
//!
//! How the proof goes:
//!
//! - The trail stands newest first, so that "before" is its tail. The satisfier is the newest assignment that the terms need, so a
//!   conflict goes down the trail (`proofs/WalkLemmas`), and what it keeps is `IsAsked`: the terms hold, are formed and follow.
//! - Terms are read by their nodes alone (`set_at`); `proofs/HeldLemmas` and `NewestLemmas` go between tests and what they mean.
//! - Each property of a turn is one predicate, shown by the cases of `proofs/TurnLemmas`.
//! - The measure of a state is one number, with a digit for each level (`specs/Measure.antt`, `proofs/MeasureLemmas`).
#![tactic(auto)]

mod forcing;
mod laws;
mod left;
mod lists;
mod origin;
mod required;
mod shared;
mod trail;
mod turned;
mod walk;

pub use forcing::forced;
pub use laws::{
    conflicts_are_sound, refutations_are_checked, runs_end, selections_are_first, trail_is_implied,
    turns_are_sound,
};
pub use left::Left;
pub use lists::{drop_above, newest_of};
pub use origin::Origin;
pub use required::{decisions, open_nodes};
pub use trail::{Assigned, Place, Reason};
pub use turned::{Turned, Wide};
pub use walk::{Cited, Ending, walk_down};
