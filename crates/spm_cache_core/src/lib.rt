//! The core of a cache of replies, for one thread at a time: who fetches what, and what has landed.
//!
//! Sessions ask for keys, and give hints of what they will ask for; workers fetch what was hinted. Each of them is an actor
//! with a number. A key is fetched by one actor at a time: [`CacheState::ask`] and [`CacheState::claim`] hand out a [`Ticket`],
//! which has to be spent by [`CacheState::land`] with the reply or by [`CacheState::fail`]. What landed is answered from then
//! on, until somebody cancels: then the others are told who did.
//!
//! Contracts see what happened: the list of all events ([`CacheState::history`]). The definitions of `specs/` speak of that list
//! alone. The contract that the layer above uses: the history is legal (`IsLegal`, [`CacheState::is_legal`]), each call adds the
//! event that it tells of and no other, and its answer is that of the definitions (`ask_answer`, `claim_answer`) for what
//! happened before. `src/laws.rt` has what holds of legal histories.
//!
//! No call goes through the history. The state keeps a cell for each key, in a map, and the hinted keys in a queue; a reply is
//! read at its place in the history. Landing, failing, cancelling and ending take no memory: room for them is made before.
//!
//! How the proof goes: `IsState` (`specs/State.antt`) says what the state's parts are to the history. For each key its cell tells
//! how often it was begun, failed and landed (`IsCell`), and `proofs/CellLemmas` has what an event does to that.
//! `proofs/StateLemmas` then has one lemma for each kind of event.
#![tactic(auto)]

mod answer;
mod cells;
mod event;
mod laws;
mod reads;
mod reply;
mod shared;
mod state;

pub use answer::{Asked, Claimed, Ticket};
pub use event::{Act, AskNote, ClaimNote, Event, Why};
pub use laws::{
    actors_balance, answers_are_determined, begun_at_most, flights_balance, flights_follow,
    landed_stays, legal_before, tickets_fly, what_flies_has_not_landed,
};
pub use reply::SharedReply;
pub use state::CacheState;
