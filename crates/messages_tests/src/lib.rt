//! Tests of the messages layer over its public calls: `spm_key`, `spm_http`, `spm_api` and `spm_server`, and `spm_shelf` as far as the
//! server stands on it.
//!
//! They stand here and not in the crates, since a crate with tests is proved twice. What holds of every input is a clause there; here
//! are tables of values from outside (the registry's own service specification, RFC 9110, RFC 9112, RFC 7807, SE-0292, NIST's sums of
//! SHA-256), and one run of each call that can answer want of memory, where there is memory. `support` has what the tests share.
#![tactic(auto)]

#[cfg(test)]
mod bodies;
#[cfg(test)]
mod connections;
#[cfg(test)]
mod endpoints;
#[cfg(test)]
mod guessing;
#[cfg(test)]
mod keys;
#[cfg(test)]
mod requests;
#[cfg(test)]
mod responses;
#[cfg(test)]
mod sayings;
#[cfg(test)]
mod servers;
#[cfg(test)]
mod shelves;
#[cfg(test)]
mod sockets;
#[cfg(test)]
mod support;
