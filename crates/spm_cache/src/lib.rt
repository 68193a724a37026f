//! The cache of replies, shared: sessions and workers in several threads call it, and all their calls make one legal history.
//!
//! A [`Cache`] is a `TurnLock` round the state of `spm_cache_core`. [`Cache::open`] makes it together with a [`Pass`] for each actor,
//! in the order of actors: the sessions first, and then the workers. Each call of a pass takes the turn, makes the one call of the
//! core that has its name, and gives the turn back before it returns.
//!
//! The contract that the layer above uses: each call says `Calls` (`specs/Calls.antt`). The core's call was made on a state whose
//! history goes on from what the pass had seen by events of other actors alone, its answer is what the core's own relation says
//! (`AskTells`, `ClaimTells`, `Appends`, `Spends`), and what the pass has seen afterwards is the legal history that it left. So the
//! condition of a call is read in what the pass has seen: a session stays one and a flight stays open while only others act.
//! `Steps` says which events of its own the pass has besides, and `AskKnows` and `ClaimKnows` what an answer means in what the pass
//! has seen. [`Cache::rest`] waits until the history is longer than that. Passes meet, and the pass that has all numbers closes the
//! cache: then the state's history is what it has seen.
//!
//! How the proof goes: [`Pass`] has an invariant, that no turn is held, that its actor is one of its numbers, and that what it has
//! seen is legal. `src/kept.rt` has the core's calls with what the lock asks of a turn (`Moves`: one event of the actor at most,
//! and the same terms). `proofs/Turns` and `Taken` carry conditions from what was seen to the state, `proofs/Went` has what the calls
//! add, and `proofs/Answered` what their answers mean.
#![tactic(auto)]

mod cache;
mod kept;
mod opening;
mod pass;
mod shared;

pub use cache::Cache;
pub use pass::Pass;
