//! Tests of `spm_ident`, `spm_trait` and `spm_version` over their public calls.
//!
//! They stand here and not in the crates, since a crate with tests is proved twice. This crate has no code of its own.
//!
//! What holds of every input is a clause there. Here are
//!
//! - values from outside: the texts and the order of SemVer 2.0, SwiftPM's rule for pre-releases in ranges, tools
//!   versions, the grammar of identities (SE-0292), and names of traits and what they enable (SE-0450);
//! - one run of each call that can answer want of memory, where there is memory;
//! - the printed texts.
//!
//! A test is a loop over a table of cases, a line `CASE => WANTED` each, or a few calls in a row. `support` has what the tests
//! share.
#![tactic(auto)]

#[cfg(test)]
mod ident;
#[cfg(test)]
mod support;
#[cfg(test)]
mod traits;
#[cfg(test)]
mod version;
