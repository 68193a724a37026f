//! A worker, which fetches ahead what the sessions of a shared cache have hinted at.
//!
//! [`work`] claims a key, fetches it over its own link, and lands or fails its flight; where nothing is hinted it rests; it ends once every
//! session has ended. The contract that the layer above uses is its clause `work`: the worker did just the flights of `IsWork`
//! (`specs/Worker.antt`), each of which landed or failed before the next began, and no other use was made of its link (`Does` of
//! `spm_flight`). A flight that fails by the link is failed in the cache and told to nobody else, and the worker goes on; one that fails
//! for want of memory is its last.
//!
//! How the proof goes: one round does one flight or none, and rounds are appended (`does_then` of `spm_flight`).
#![tactic(auto)]

mod worker;

pub use worker::{WorkEnd, work};
