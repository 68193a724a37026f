//! Tests of the cache's crates over their public calls: `spm_turn`, `spm_cell`, `spm_cache_core` and `spm_cache`.
//!
//! They stand here and not in the crates, since a crate with tests is proved twice. What holds of every run is a clause or a law
//! there. Here are
//!
//! - runs that were worked out by hand, event by event (`runs`): a script is lines, each a call, ` => ` and its answer, which a
//!   [`stage::Stage`] plays; a further line costs no proof;
//! - the largest cache, and a key of 65,536 bytes;
//! - a cell's answers, and a reply's owners (`cells`). Each call that can answer want of memory is run where there is memory;
//! - the turn lock and the shared cache in threads (`turn`, `shared`).
//!
//! A call of the core has conditions. The stage sees before each call that they hold, by what `reads` finds in the history.
#![tactic(auto)]

#[cfg(test)]
mod cells;
#[cfg(test)]
mod reads;
#[cfg(test)]
mod runs;
#[cfg(test)]
mod shared;
#[cfg(test)]
mod stage;
#[cfg(test)]
mod turn;
