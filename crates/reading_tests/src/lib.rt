//! Tests of `spm_json`, `spm_manifest`, `spm_shelf`, `spm_digest`, `spm_resolved` and `spm_trust` over their public calls.
//!
//! They stand here and not in the crates, since a crate with tests is proved twice. This crate has no code of its own.
//!
//! What holds of every input is a clause there. Here are
//!
//! - values from outside: the refusals of JSON (RFC 8259), dumps as SwiftPM writes them, shelf, lock and fingerprint files with the place
//!   and the kind of their first fault, `Package.resolved` byte by byte, and NIST's sums of SHA-256;
//! - one run of each call that can answer want of memory, where there is memory;
//! - the printed texts.
//!
//! A test is a loop over a table of cases, a line `CASE => WANTED` each, or a few calls in a row. `support` has what the tests
//! share.
#![tactic(auto)]

#[cfg(test)]
mod json;
#[cfg(test)]
mod lock;
#[cfg(test)]
mod manifest;
#[cfg(test)]
mod shelf;
#[cfg(test)]
mod support;
#[cfg(test)]
mod trust;
