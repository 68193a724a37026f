//! Tests of the programs' top calls over files and output in memory.
//!
//! A clause of `spm_tool::resolve`, and one of `spm_tool::still`, say what every run does; these tests say that it was meant so: the
//! expected files and lines were written by hand, and the sums come from another program. A crate with
//! tests is proved twice, so the crates under test have none of their own.
//!
//! The cases are scripts (`scripts.rt`, `graphs.rt` with whole graphs, `judging.rt`, and
//! `archives.rt` with archives, fingerprints and several roots), a line a step, which a [`stage::Stage`] plays; a further case
//! costs no proof. `system.rt` runs the call on the system's files.
#![tactic(auto)]

#[cfg(test)]
mod archives;
#[cfg(test)]
mod graphs;
#[cfg(test)]
mod judging;
#[cfg(test)]
mod scripts;
#[cfg(test)]
mod stage;
#[cfg(test)]
mod system;
