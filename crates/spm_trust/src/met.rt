/// What the sum of a version's archive comes to beside what is kept for the version.
#[derive(Clone, Copy, Debug, PartialEq, Eq)]
pub enum Met {
    /// The same sum is kept.
    Known,
    /// No sum is kept for the version.
    New,
    /// Another sum is kept.
    Differs { kept: [u8; 32], said: [u8; 32] },
}
