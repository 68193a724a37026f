//! A lock whose callers take turns by ticket, and share one history.
//!
//! A [`TurnLock`] holds a state that keeps a history ([`Chronicle`]). A thread works with it through a [`Seat`]: [`TurnLock::take`]
//! draws a ticket, waits until it is served and hands the state out as a [`Turn`]; [`TurnLock::give`] brings it back with one new
//! entry at most. Each entry carries a number, and each number of the lock is had by one seat alone.
//!
//! The contract that the layer above uses: all turns make one history. What a seat has seen is a beginning of it, and when the seat
//! takes its next turn, the history goes on from there by entries of others alone (`OthersFollow` of `specs/Log.antt`), under the
//! terms with which the state was made, and is at least as long as the seat was told. [`TurnLock::rest`] waits until it is longer
//! than what was seen. Seats are split by their numbers and meet again, and the seat that has all numbers closes the lock: then the
//! history is what it has seen. `src/laws.rt` says what that means for the places and the entries of a seat's own numbers.
//!
//! How the proof goes: the lock is a table of `atomic_table` with three words (the next ticket, the ticket that is served, the length
//! of the history) and one slot for the state. Between any two steps on it the rule `IsKept` holds (`specs/Rule.antt`), and each kind
//! of step tells its seat something (`specs/Told.antt`). `proofs/TurnSteps`, `CountSteps` and `SeatSteps` have a lemma for each kind:
//! it keeps the rule, and what it tells is so. `src/steps.rt` has the functions that make them, and `src/lock.rt` the calls.
#![tactic(auto)]

mod chronicle;
mod laws;
mod lock;
mod plays;
mod rule;
mod seat;
mod shared;
mod steps;
mod turn;
mod view;

pub use chronicle::Chronicle;
pub use laws::{others_keep_ones_own, those_who_met_have_both, turns_add_the_last_place};
pub use lock::TurnLock;
pub use seat::Seat;
pub use turn::Turn;
/// There was no memory for what a call had to make: the one fault of what only allocates.
pub use std::alloc::AllocError as NoMemory;
