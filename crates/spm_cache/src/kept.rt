//! The core's state, as the lock keeps it.
ghost use Rattle.std.specs.Prelude.{◌≡◌, false};
ghost use Rattle.spm_cache_core.specs.Calls.{Appends, AskTells, ClaimTells, Spends};
ghost use Rattle.spm_cache_core.specs.History.{event, has_cancelled};
ghost use Rattle.spm_cache_core.specs.Legal.{IsFlight, IsLegal, IsSession, IsWorker};
ghost use Rattle.spm_cache_core.specs.declared.event.Act.TheVariants.{Land, Fail, Hint, Cancel, End};
ghost use Rattle.spm_cache.specs.Calls.{Moves, OrSame};

use spm_cache_core::{Asked, CacheState, Claimed, Event, SharedReply, Ticket, Why};
use spm_key::Key;
use spm_turn::Chronicle;
use spm_version::NoMemory;
use std::marker::Model;

/// What is fixed when a cache is opened.
pub struct Terms {
    /// How many sessions there are: the actors below this number.
    pub sessions: u32,
    /// How many workers there are: the actors from `sessions` on.
    pub workers: u32,
}

/// The state of a cache, whose history the lock follows. Contracts see it as the core's state.
#[derive(Drop)]
pub struct Kept {
    state: CacheState,
}

impl Model for Kept {
    ghost use Rattle.spm_cache_core.specs.Cache.{Cache};

    ghost Value = { Cache };

    ghost view = { λ k. k.state };
}

impl Chronicle for Kept {
    type Entry = Event;

    type Terms = Terms;

    ghost history = { λ k. k.history };

    ghost terms = { λ k. record { sessions = k.sessions; workers = k.workers } };

    ghost blank = { record { sessions = 0; workers = 0 } };

    ghost by = { λ e. e.actor };

    fn entries(&self) -> u64 {
        self.state.history().len() as u64
    }
}

impl Kept {
    // The state, kept.
    pub(crate) fn new(state: CacheState) -> Kept
        ensures { result ≡ state }
    {
        Kept { state }
    }

    // The state that was kept.
    pub(crate) fn into_state(self) -> CacheState
        ensures { result ≡ self }
    {
        self.state
    }

    // A law, with nothing to run: the history is legal.
    pub(crate) fn is_legal(&self)
        ensures { IsLegal self.now.sessions self.now.workers self.now.history }
    {
        self.state.is_legal();
    }

    // A session asks for a key.
    #[tactic(auto, using(crate::proofs::Moved::kept_ask, crate::proofs::Moved::ask_moves))]
    pub(crate) fn ask(&mut self, actor: u32, key: &Key) -> Result<Asked, NoMemory>
        requires { IsSession self.old.sessions self.old.history actor }
        ensures call { OrSame result (λ asked. AskTells asked actor key.now) self.old self.new }
        ensures moves { Moves actor self.old self.new }
        ensures legal { IsLegal self.new.sessions self.new.workers self.new.history }
    {
        self.state.ask(actor, key)
    }

    // A worker asks for something to fetch.
    #[tactic(auto, using(crate::proofs::Moved::kept_claim, crate::proofs::Moved::claim_moves))]
    pub(crate) fn claim(&mut self, actor: u32) -> Result<Claimed, NoMemory>
        requires { IsWorker self.old.sessions self.old.workers actor }
        ensures call { OrSame result (λ claimed. ClaimTells claimed actor) self.old self.new }
        ensures moves { Moves actor self.old self.new }
        ensures legal { IsLegal self.new.sessions self.new.workers self.new.history }
    {
        self.state.claim(actor)
    }

    // The reply for which the ticket was given is here.
    #[tactic(auto, using(crate::proofs::Moved::spends_moves))]
    pub(crate) fn land(&mut self, ticket: Ticket, reply: SharedReply)
        requires { IsFlight self.old.history ticket }
        ensures call { Spends self.old (event ticket.actor (Land ticket.key reply)) self.new }
        ensures moves { Moves ticket.actor self.old self.new }
        ensures legal { IsLegal self.new.sessions self.new.workers self.new.history }
    {
        self.state.land(ticket, reply);
    }

    // The reply for which the ticket was given could not be fetched.
    #[tactic(auto, using(crate::proofs::Moved::spends_moves))]
    pub(crate) fn fail(&mut self, ticket: Ticket, why: Why)
        requires { IsFlight self.old.history ticket }
        ensures call { Spends self.old (event ticket.actor (Fail ticket.key why)) self.new }
        ensures moves { Moves ticket.actor self.old self.new }
        ensures legal { IsLegal self.new.sessions self.new.workers self.new.history }
    {
        self.state.fail(ticket, why);
    }

    // A session will want these keys.
    #[tactic(auto, using(crate::proofs::Moved::kept_hint, crate::proofs::Moved::hint_moves))]
    pub(crate) fn hint(&mut self, actor: u32, keys: &[Key]) -> Result<(), NoMemory>
        requires { IsSession self.old.sessions self.old.history actor }
        ensures call { OrSame result (λ done old new. Appends old (event actor (Hint keys.now)) 0 new) self.old self.new }
        ensures moves { Moves actor self.old self.new }
        ensures legal { IsLegal self.new.sessions self.new.workers self.new.history }
    {
        self.state.hint(actor, keys)
    }

    // A session gives up, and tells the others.
    #[tactic(auto, using(crate::proofs::Moved::spends_moves))]
    pub(crate) fn cancel(&mut self, actor: u32)
        requires running { IsSession self.old.sessions self.old.history actor }
        requires first { has_cancelled actor self.old.history ≡ false }
        ensures call { Spends self.old (event actor Cancel) self.new }
        ensures moves { Moves actor self.old self.new }
        ensures legal { IsLegal self.new.sessions self.new.workers self.new.history }
    {
        self.state.cancel(actor);
    }

    // A session has ended.
    #[tactic(auto, using(crate::proofs::Moved::spends_moves))]
    pub(crate) fn end(&mut self, actor: u32)
        requires { IsSession self.old.sessions self.old.history actor }
        ensures call { Spends self.old (event actor End) self.new }
        ensures moves { Moves actor self.old self.new }
        ensures legal { IsLegal self.new.sessions self.new.workers self.new.history }
    {
        self.state.end(actor);
    }
}
