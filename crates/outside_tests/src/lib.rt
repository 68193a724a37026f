//! Tests of `spm_outside` over its public calls.
//!
//! They stand here and not in the crate, since a crate with tests is proved twice. This crate has no code of its own.
//!
//! What holds of every input is a clause there. Here are
//!
//! - courses of calls over the objects in memory, with what each answers and leaves (`scripts`): a script is lines, each a call, ` | ` and
//!   its answer, which a [`stage::Stage`] plays; a further line costs no proof;
//! - one run of each call that can answer want of memory, where there is memory, and the printed text of a fault;
//! - the files and the output of the system, of which no clause tells (`system`).
#![tactic(auto)]

#[cfg(test)]
mod scripts;
#[cfg(test)]
mod stage;
#[cfg(test)]
mod system;
