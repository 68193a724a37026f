//! Shelf files: what a registry has, as one JSON document.
//!
//! - [`ShelfFile::read`] answers what `shelf_of` gives of the bytes (`specs/File.antt`), the first fault in the reading
//!   order included, unless memory runs out.
//! - A [`Shelf`] has its packages in the order of their identities, each once, the releases of each and the URLs in byte
//!   order, and of each release without a problem its manifest and its archive (`IsShelf` of `specs/Shelf.antt`).
//!   [`Shelf::read`] makes one of a file (`IsShelfOf`), and [`Shelf::of`] of packages and URLs exactly where they are so.
//! - [`Shelf::package`] is the first package with an identity, and [`Shelf::text`] the file that `specs/ShelfText.antt`
//!   defines.
//! - An [`Archive`] has the SHA-256 of its bytes.
//!
//! The proof: each shape reads its members with the combinators of `spm_json` in the order of its definition, so that the
//! check finds most proofs alone. A package is read only if its identity stands among none before it, so the identities of
//! a file are distinct (`proofs/Distinct.antt`): sorted they ascend strictly, and a binary search among packages that
//! ascend finds the first match (`proofs/Ascending.antt`). Members are read in the order of a map's keys, and a release or
//! a URL has the text of its key, so they ascend too (`proofs/WholeMembers.antt`): the types `Packages` and `Urls` keep
//! that. What is written has no float, so its text is the compact one (`proofs/TextLemmas.antt`).
#![tactic(auto)]

mod archive;
mod checksum;
mod file;
mod file_text;
mod order;
mod shared;
mod shelf;

pub use archive::Archive;
pub use checksum::Checksum;
pub use file::{ShelfFile, ShelfPackage, ShelfRelease, ShelfUrl};
pub use shelf::Shelf;
pub use spm_json::ReadFault as ShelfFault;
