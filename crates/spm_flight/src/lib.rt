//! One flight: a key that an actor has begun to fetch is fetched over its link, and lands in the shared cache or fails there.
//!
//! The contract that sessions and workers stand on is the clause `does` of [`fly`]: `Does` of `specs/Work.antt` says what an actor did by
//! its pass and over its link. It made just these events, and its link was used for the flights among them alone, in their order
//! (`Works`): a reply that landed, and a link that failed, has one call for its key, which failed with the link, and where memory ran out
//! there is one or none; the link's faults rose where a flight failed by it, and nowhere else; and what landed is the book's, where the
//! book is told. What an actor does in two steps it does in one ([`work_goes_on`]).
//!
//! How the proof goes: an exchange leaves what `Leaves` says by its answer, and the one event that follows is that of the answer
//! (`proofs/FlownLemmas`). `Works` goes on by induction on the events (`proofs/WorkLemmas`).
#![tactic(auto)]

mod flight;
mod laws;

pub use flight::{Flown, Run, fly};
pub use laws::work_goes_on;
