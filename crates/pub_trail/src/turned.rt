use spm_ident::Identity;
use spm_key::Key;

/// Which limit a load passes.
#[derive(Debug, Drop)]
pub enum Wide {
    /// More than 1,024 packages beside the root.
    Packages,
    /// More than 4,096 nodes.
    Nodes,
    /// A list of this package with more than 4,096 usable releases.
    Versions(Identity),
}

/// What a turn of a solver comes to.
#[derive(Debug, Drop)]
pub enum Turned {
    /// The reply of this key has to be given first.
    Need(Key),
    /// The turn was done.
    Went,
    /// The decisions are a selection.
    Selected,
    /// No selection exists.
    Refuted,
    /// A limit is passed.
    TooWide(Wide),
}
