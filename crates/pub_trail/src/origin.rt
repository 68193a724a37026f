use crate::walk::Cited;
use pub_term::Cause;
use spm_version::Items;

/// Where an incompatibility comes from.
#[derive(Debug, Drop)]
pub enum Origin {
    /// A load brought it, as a fact with this cause.
    OfLoad(Cause),
    /// A conflict of the incompatibility of this number came to it, by these resolutions.
    OfConflict(u64, Items<Cited>),
}
