//! Terms and incompatibilities of PubGrub, over finite sets of choices; the names of nodes, and the causes of facts.
//!
//! - A [`Term`] is a node with a set of its choices, and an [`Incompat`] is terms that can't all hold, as `doc/solver.md` of
//!   Dart's `pub` defines them. There a term is a range of versions or its opposite; here it is any set, so that no term has
//!   to be negative.
//! - [`Incompat::holds`] and [`Incompat::almost`] tell what unit propagation asks: whether each term is held by what is known
//!   of the nodes, or each but one (`specs/Known.antt`). They go through the terms once, and take no memory.
//! - [`resolve`] is the rule of resolution, and [`resolution_is_sound`] its law.
//! - A [`NodeName`] is the root, a package, or a trait of either. Names have an order and a text (`specs/Node.antt`). A
//!   [`Cause`] says why a fact holds, and of which [`Subject`].
//!
//! The contract that the layers above use is that of [`resolve`]: where both incompatibilities have a term on the node, and
//! their sets meet on each other node that they share, it answers exactly `resolvent` (`specs/Resolvent.antt`), and that is an
//! incompatibility again: nodes ascend, and no set is empty or whole. By the law an assignment that violates it violates one
//! of the two.
//!
//! Two more laws serve what calls these: [`resolvents_keep_sizes`], and [`what_holds_is_violated`], which ties what unit propagation
//! asks to the assignments that are left.
//!
//! How the proof goes:
//!
//! - `resolvent` speaks of all nodes of both lists, and the code merges the two. `proofs/AboveLemmas.antt` shows that the nodes
//!   of two ascending lists begin with the lesser head, and `proofs/ResolventLemmas.antt` that the resolvent begins with that
//!   head's term, or with what both say where the heads are on one node.
//! - So each turn of the loop keeps that the terms so far, with the resolvent of what is left behind them, are the resolvent
//!   (`IsMerging` of `proofs/StepLemmas.antt`).
//! - `proofs/ProperLemmas.antt` shows that a union of proper sets has a choice, and that an intersection of sets that meet has
//!   one and lacks one. A union that is whole was dropped.
//! - For the law (`proofs/SoundLemmas.antt`): on the node that is resolved, the union has the assignment's choice, also where it
//!   was dropped. So one of the two sets has it, and on each other node what both say lies within what that one says.
#![tactic(auto)]

mod cause;
mod laws;
mod node;
mod resolution;
mod shared;
mod term;

pub use cause::{Cause, Subject};
pub use laws::{resolution_is_sound, resolvents_keep_sizes, what_holds_is_violated};
pub use node::NodeName;
pub use resolution::resolve;
pub use term::{Incompat, Term};
