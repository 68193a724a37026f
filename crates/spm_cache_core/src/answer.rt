ghost use Rattle.std.specs.Prelude.{◌≡◌};

use crate::reply::SharedReply;
use spm_key::Key;
use std::marker::Model;

/// The right to fetch a key, and the duty to say what came of it.
///
/// It can only be spent: by `CacheState::land` or `CacheState::fail`. It can't be dropped, copied or made.
pub struct Ticket {
    pub(crate) key: Key,
    pub(crate) number: u64,
    pub(crate) actor: u32,
}

impl Model for Ticket {
    ghost use Rattle.spm_cache_core.specs.Flight.{Flight};

    ghost Value = { Flight };

    ghost view = { λ ticket. record { key = ticket.key; number = ticket.number; actor = ticket.actor } };
}

impl Ticket {
    /// What is to be fetched.
    pub fn key(&self) -> &Key
        ensures { result.now ≡ self.now.key }
    {
        &self.key
    }

    /// The number of the flight: the place of the event that began it.
    pub fn number(&self) -> u64
        ensures { result ≡ self.now.number }
    {
        self.number
    }

    /// Who fetches.
    pub fn actor(&self) -> u32
        ensures { result ≡ self.now.actor }
    {
        self.actor
    }
}

/// The answer to an ask.
pub enum Asked {
    /// This actor has cancelled.
    Cancelled(u32),
    /// The reply.
    Have(SharedReply),
    /// Somebody fetches it: ask again.
    Waiting,
    /// It is to be fetched by the asker.
    Fetch(Ticket),
}

/// The answer to a claim.
pub enum Claimed {
    /// Every session has ended.
    Closed,
    /// This key is to be fetched by the worker.
    Fetch(Key, Ticket),
    /// There is nothing to fetch yet: claim again.
    Nothing,
}
