//! The run of all roots over one shared cache: a session for each root and the workers, each in a thread of its own where one can be made.
//!
//! The contract that the layer above uses is the clause `run` of [`run_all`] (`IsRunOf` of `specs/Run.antt`): there is one legal history; the
//! events of each session and of each worker in it are those of `spm_session` and `spm_worker`, and say what became of the actor's own link;
//! and each root comes to its outcome over what has landed in that history. No session is told that another gave up.
//!
//! How the proof goes: `src/seats.rt` gives each actor its pass, its link and, if it is a session, its job; `src/actor.rt` lets them all act,
//! and `src/meeting.rt` takes the links and outcomes back and meets the passes. Each pass had seen a beginning of what the last one has seen,
//! behind which only others acted (`AreMet`), so the events of an actor in the history are those that it made (`proofs/PartLemmas`).
#![tactic(auto)]

mod actor;
mod laws;
mod meeting;
mod run;
mod seats;
mod stage;

pub use laws::{
    a_fetch_fault_is_of_the_own_link, calls_are_few, outcomes_are_of_what_landed,
    what_lands_is_of_the_book,
};
pub use run::{RunEnd, run_all};
pub use seats::LINKS;
