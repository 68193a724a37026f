//! Package identities: a scope, a dot and a name, as in `apple.swift-nio` (SE-0292, "Package identity").
//!
//! A text is an identity, without regard to ASCII case, if what stands before its first dot is a scope and what
//! stands behind it is a name; `specs/Identity.antt` says both over whole texts. [`Identity`] holds such a text in
//! lower case, and contracts see it as the list of its bytes. So two spellings of one package are equal, and order
//! and hash are those of the text.
//!
//! The layer above uses [`Identity::parse`]: it answers the identity that `identity_of` gives, or the first fault of
//! the text, and where a text is refused no memory is taken. Every identity is one of the grammar (the clause
//! `identity` of [`Identity::text`]).
//!
//! How the proof goes: the grammar splits a text at its separators, and the code goes through the bytes once with a
//! flag that says whether a word has begun. `proofs/Scan.antt` shows by induction that both answer the same,
//! `proofs/Dots.antt` that the cut at the first dot is that of the grammar, and `proofs/Lowercase.antt` that lower
//! case keeps the grammar, which is the invariant of the type.
#![tactic(auto)]

mod grammar;
mod identity;
mod shared;

pub use identity::{IdentFault, Identity};
/// There was no memory for what a call had to make: the one fault of what only allocates.
pub use std::alloc::AllocError as NoMemory;
