//! Judging the pins of a lock file: whether they are a valid selection, with no solver.
//!
//! `specs/Judged.antt` says how pins are judged: which keys are read, in which order; which rule of valid selections is broken first; and the
//! sentence that says so. What a selection reaches and enables, and when it is valid, are the definitions of `pub_facts`
//! (`specs/Enabled.antt`, `specs/Valid.antt`), over what replies say ([`Replies`]).
//!
//! The contract that the layers above use is that of [`judge`]: it is Ok exactly where the pins are a valid selection, and else says the first key
//! that isn't answered, or the first rule that is broken. [`wanted`] says which of the keys that are read aren't held yet, so that a caller can
//! fetch them; [`judge_over`] does that over a link.
#![tactic(auto)]

mod broken;
mod held;
mod judgement;
mod judging;
mod keys;
mod laws;
mod order;
mod over;
mod pinned;
mod spread;

pub use held::{HeldReplies, Replies};
pub use judgement::Judgement;
pub use judging::{judge, wanted};
pub use laws::{a_verdict_is_right, nodes_on_are_one};
pub use order::pins_in_order;
pub use over::{Judged, judge_over};
