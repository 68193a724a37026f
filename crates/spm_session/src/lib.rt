//! The resolution of one root: its job, what it comes to, its loop over any source of replies, the plain resolution in one thread, and the
//! session of a cache that is shared.
//!
//! `specs/Outcome.antt` says what a root comes to over a catalogue of replies, as the first of its items that applies: the refusal that
//! the job holds, the first demanded key whose reply is refused, a limit, a refutation, what is wrong with an archive of what is selected,
//! or the pins of the first selection. `specs/Archives.antt` says how the archives are looked at: of each pin its release, which names a
//! checksum, and then its archive, which has that sum, as has a fingerprint that is kept. Neither has a link, cache or memory in it.
//!
//! The contracts that the layers above use are the clauses `end` of [`run_alone`] and of [`run_session`]: the outcome is that of the definition
//! over replies of the link's book, or over those that have landed in the cache, or a fault of the own link at a demanded key, or want of
//! memory. What a root comes to over a catalogue it comes to over each that extends it ([`outcomes_stay`]). The clause `does` of [`run_session`]
//! says which events the session makes and which calls of its link (`specs/Session.antt`): a flight of its own fails only as the last, and
//! where it does the outcome says so; another actor's failure is never its own.
//!
//! Pins are the first valid selection, and a derivation is a checked derivation that none exists: these are parts of the outcome's definition,
//! which the laws of `pub_plain` give. So a refuted root has no valid selection ([`a_refuted_root_has_no_selection`]), and one that was
//! resolved is resolved again with its pins ([`resolving_again_keeps_the_pins`]).
//!
//! How the proof goes: the loop is written over a [`Source`], which says what it knows of replies (`knows`, by which it only ever grows) and
//! how it went on (`goes`, `misses`); a link of one's own is one (`specs/Alone.antt`), and a place in a shared cache another (`specs/Sharing.antt`).
//! At each moment the solver has done what a plain resolution over the replies so far does (`IsRun` of `specs/Run.antt`). A turn goes on from there; a reply that is given changes none of the turns that were done (`runs_go_on` of
//! `pub_plain`), and one that is refused says nothing (`proofs/RunLemmas`).
//! A number falls at each turn and at each reply (`resolutions_end`), so the loop comes to its end. The archives are looked at from a
//! catalogue on that has no reply of them yet; the replies that come change nothing of the selection (`proofs/SelectedLemmas`), and what
//! was right of a pin stays right (`proofs/ArchiveLemmas`, `PinsLemmas`).
#![tactic(auto)]

mod alone;
mod archives;
mod asking;
mod job;
mod laws;
mod outcome;
mod run;
mod session;
mod shared;
mod sharing;
mod source;

pub use asking::refused;
pub use job::{RootInput, RootJob};
pub use laws::{
    a_refuted_root_has_no_selection, outcomes_stay, resolving_again_keeps_the_pins,
    the_archives_of_a_resolved_root_are_right,
};
pub use outcome::Outcome;
pub use run::run_alone;
pub use session::run_session;
pub use source::{Missed, Source};
