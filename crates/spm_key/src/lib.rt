//! What a registry is asked, and what it answers.
//!
//! A [`Key`] is one question: the list of a package's releases, a release's manifest, metadata or archive, or the identities of a
//! URL. Its [`Key::text`] is the path at which the registry answers it, byte by byte `key_text` of `specs/Key.antt`. Keys have a
//! total order, by kind and then by their parts, so that they can be sorted and looked up.
//!
//! A [`Reply`] is a status with a body; an archive's body may be kept as its SHA-256 and length alone. `specs/Catalogue.antt` has
//! what the layers above speak of: a catalogue is a finite map from keys to replies, and one extends another if it holds all that
//! the other holds, unchanged; [`catalogues_extend`] has the laws of that.
#![tactic(auto)]

mod key;
mod laws;
mod reply;
mod shared;

pub use key::{Key, release_path};
pub use laws::catalogues_extend;
pub use reply::{Body, Reply};
