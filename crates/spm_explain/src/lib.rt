//! A derivation's text: why there is no selection, a line for each of its lines.
//!
//! ```text
//! 1. root needs mona.a exactly 1.0.0: [root chosen, mona.a none|2.0.0]
//! 2. root needs mona.a exactly 2.0.0: [root chosen, mona.a none..1.0.0]
//! 3. from 1 and 2 on mona.a: [root chosen]
//! So no selection exists.
//! ```
//!
//! [`explain`] writes the lines of a derivation in their order, numbered from 1. A fact's line says why it holds, in a sentence
//! for each cause; a resolution's line cites the two lines that it resolves, and the node. Behind it stand the terms that the
//! line says ([`Derivation::said`](pub_proof::Derivation::said)): of each node its name, and the maximal runs of the set's
//! choices, by the texts of their first and last one. The caller gives the texts of the choices, since it knows each package's
//! versions.
//!
//! The contract that the layers above use is that of [`explain`]: of a derivation that the check passes, it writes exactly
//! `derivation_text` (`specs/DerivationText.antt`), whose sentences are those of `specs/Sentence.antt`.
//!
//! How the proof goes:
//!
//! - A derivation that is checked has no bad line. So there are terms for each line, the node of each line is there, and each
//!   set has its node's size (`proofs/SaidLemmas.antt`). The runs of a set end below its size, so their choices have texts.
//! - The loops keep that the text so far is the old one with the items so far, or that the text so far, with the lines that are
//!   left behind it, is the whole text (`proofs/TextLemmas.antt`).
#![tactic(auto)]

mod explaining;
mod lines;
mod sentences;
mod terms;

pub use explaining::explain;
pub use sentences::sentence;
