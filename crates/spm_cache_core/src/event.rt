use crate::reply::SharedReply;
use spm_key::Key;
use spm_version::Items;

/// What an ask was answered.
#[derive(Drop)]
pub enum AskNote {
    /// This actor has cancelled.
    Cancelled(u32),
    /// The reply.
    Have(SharedReply),
    /// The asker fetches it.
    Fetch,
}

/// What a claim was answered.
#[derive(Drop)]
pub enum ClaimNote {
    /// Every session has ended.
    Closed,
    /// The worker fetches this key.
    Fetch(Key),
}

/// Why a flight failed.
#[derive(Debug, Clone, Copy, PartialEq, Eq)]
pub enum Why {
    /// By its link.
    Link,
    /// For want of memory.
    Memory,
}

/// What an actor did.
#[derive(Drop)]
pub enum Act {
    /// It asked for a key.
    Ask(Key, AskNote),
    /// It asked for something to fetch.
    Claim(ClaimNote),
    /// The reply that it fetched is here.
    Land(Key, SharedReply),
    /// It could not fetch the reply.
    Fail(Key, Why),
    /// It will want these keys.
    Hint(Items<Key>),
    /// It gave up, and tells the others.
    Cancel,
    /// It has ended.
    End,
}

/// Something that happened.
#[derive(Drop)]
pub struct Event {
    /// Who did it.
    pub actor: u32,
    /// What was done.
    pub act: Act,
}
