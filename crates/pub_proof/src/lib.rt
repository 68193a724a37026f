//! Derivations, and the checker whose yes means something.
//!
//! A [`Derivation`] names nodes with the sizes of their sets of choices, and has lines: each is a fact, or the resolution of two
//! earlier lines on a node. [`check`] goes through the lines once and answers what the last one says, or the first bad line with
//! what is wrong with it ([`ProofFault`]). A derivation may come from anywhere, as from a file, which [`Derivation::read`] reads and
//! [`Derivation::text`] writes; nothing is asked of it.
//!
//! The contract that the layers above use is that of [`check`]. Its clause `checked` says the answer exactly (`checked_of` of
//! `specs/Checked.antt`). Its clause `sound` says what a yes means: an assignment that gives each node one of its choices, and
//! violates the last line, violates one of the facts that were given. Its clause `refutes` says what follows for the root, which is
//! the first node that is named so: no assignment whose choice on the root is one of the last line's leaves every fact unviolated,
//! and where that line has no term no assignment at all does. Both rest on [`resolution_is_sound`](pub_term::resolution_is_sound),
//! whose premise is that the assignment's choice on the node that is resolved is one of the node's.
//!
//! [`Derivation::said`] answers what each line says by the derivation's own facts, for whoever writes a derivation out.
//!
//! [`checked_is_checked`] says the same of a derivation as a whole (`IsChecked` of `specs/IsChecked.antt`), and
//! [`checked_means_refuted`] that the two clauses hold of each derivation that is checked, whoever checked it. A file's bytes are
//! read as `derivation_in` says (`specs/File.antt`), the first fault with its place and kind included, and written as `proof_text`
//! (`specs/ProofText.antt`).
//!
//! How the proof goes:
//!
//! - Each line that passed is formed (`IsFormed` of `specs/Formed.antt`): its nodes ascend, no set is empty or whole, and each set has
//!   its node's size. A fact's line is tested for this. So the sets on a node that two such lines share have one size, and the tests
//!   of a resolution make what `pub_term`'s `resolve` asks (`proofs/FormedLemmas.antt`).
//! - The loop over the lines keeps that what the lines so far say, with the lines that are left behind them, is what all lines say.
//! - What a yes means is shown over the definition (`proofs/CheckedLemmas.antt`): each line follows from the facts, a resolvent by
//!   `pub_term`'s law.
//! - A file is read in two steps: the grammar, name by name (`written.rt`, `nodes.rt`), and then what its lines say by the numbers of
//!   the nodes (`file.rt`). The map of the nodes' places agrees with the list (`proofs/FileLemmas.antt`), and a stable sort puts terms
//!   in the order of their nodes (`proofs/SortLemmas.antt`).
#![tactic(auto)]

mod checking;
mod derivation;
mod fact;
mod fault;
mod file;
mod file_text;
mod laws;
mod nodes;
mod order;
mod resolving;
mod shared;
mod written;

pub use checking::check;
pub use derivation::{Derivation, Line};
pub use fault::{ProofFault, ProofKind};
pub use laws::{checked_is_checked, checked_means_refuted};
pub use spm_json::ReadFault as ProofFileFault;
