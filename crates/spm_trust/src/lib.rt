//! The fingerprint file: the SHA-256 of each version of each package that was met, so that another archive under a name
//! that is known is told.
//!
//! - [`Trust::read`] reads a file (`trust_of` of `specs/File.antt`), the first fault in the reading order included, unless
//!   memory runs out. A [`Trust`] has its packages in the order of their identities and the sums of each in the order of its
//!   versions' texts, and no package without a sum (`IsTrust` of `specs/Trust.antt`).
//! - [`Trust::look`] is the sum that is kept for a version, and [`Trust::meet`] what another one comes to beside it.
//!   [`Trust::add`] keeps a sum in its place. It can't be called where another sum is kept, so none is ever replaced.
//! - [`Trust::text`] is the file and [`Trust::lines`] a line for each version (`specs/TrustText.antt`).
//! - `what_is_added_is_kept` and `trust_reads_back` say what the three definitions come to together: a sum that was added is
//!   kept and all others stay, and what is written is read back.
//!
//! The proof: a package is read only if its identity stands among none before it, so the identities of a file are distinct
//! (`proofs/Distinct.antt`): sorted they ascend strictly (`Ascending`), and a binary search among packages that ascend finds
//! the first match or the place where one belongs (`Searching`). Sums are read in the order of a map's keys, and each has the
//! text of its key, so they ascend too (`WholeMembers`). The law of what is added goes by the order of what is added and each
//! package, and each sum (`AddedLemmas`). That of the text goes through its tokens (`TrustTokens`), its data (`TrustData`), and
//! what these are read as (`TrustReading`); `TrustLaw` joins them.
#![tactic(auto)]

mod adding;
mod file;
mod laws;
mod met;
mod shared;
mod trust;
mod writing;

pub use crate::file::{KeptPackage, KeptSum};
pub use crate::laws::{trust_reads_back, what_is_added_is_kept};
pub use crate::met::Met;
pub use crate::trust::Trust;
pub use spm_json::ReadFault as TrustFault;
