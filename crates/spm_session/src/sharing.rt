// A source of replies that shares a cache with others.
ghost use Rattle.std.specs.Prelude.{◌≡◌, [], ◌∷◌, IfErr, IfNone, IfOk, IfSome, OnOk, true};
ghost use Rattle.spm_cache.specs.Work.{hint_events};
ghost use Rattle.spm_cache_core.specs.History.{event, has_ended};
ghost use Rattle.spm_cache_core.specs.Legal.{IsFlight};
ghost use Rattle.spm_cache_core.specs.declared.event.Act.TheVariants.{End};
ghost use Rattle.spm_session.specs.Sharing.{DoesBy, Fetches, GoesSharing, IsReady, IsSame, MissesSharing, knows_by};

use crate::source::{Missed, Source};
use spm_cache::Pass;
use spm_cache_core::{Asked, SharedReply, Ticket};
use spm_flight::{Flown, Run, fly};
use spm_key::Key;
use spm_outside::{Gate, Link};
use spm_version::NoMemory;
use std::alloc::Global;
use std::sync::Wait;

/// A session's place in a shared cache: its pass, and the link over which it fetches what it is told to.
#[derive(Drop)]
pub(crate) struct Sharing<'a, L, G, R> {
    pub run: &'a Run<'a, G, R>,
    pub pass: &'a mut Pass,
    pub link: &'a mut L,
    pub ahead: bool,
}

impl<'a, L: Link, G: Gate, R: Wait> Sharing<'a, L, G, R> {
    // Fetches the key of a ticket.
    fn fetch(&mut self, alloc: Global, ticket: Ticket) -> Result<SharedReply, Missed>
        requires ready { IsReady self.old }
        requires flight { IsFlight self.old.pass.now.seen ticket × (ticket.actor ≡ self.old.pass.now.actor) }
        ensures ready { IsReady self.new }
        ensures went { Fetches L.state self.old self.new ticket.key result }
    {
        match fly(self.run, alloc, self.pass, self.link, ticket) {
            Flown::Landed(reply) => Ok(reply),
            Flown::Broken => Err(Missed::Failed),
            Flown::Memory => Err(Missed::Memory),
        }
    }

    // Asks the cache for a key, and fetches it where it is told to. `None`: somebody else fetches it.
    fn ask(&mut self, alloc: Global, key: &Key) -> Option<Result<SharedReply, Missed>>
        requires ready { IsReady self.old }
        ensures ready { IsReady self.new }
        ensures goes { IfNone result (GoesSharing L.state self.old self.new) }
        ensures got { IfSome result (λ answer. OnOk answer (GoesSharing L.state self.old self.new)) }
        ensures knows { IfSome result (λ answer. IfOk answer (λ reply. knows_by self.new key.now reply)) }
        ensures misses { IfSome result (λ answer. IfErr answer (λ why. MissesSharing L.state self.old self.new key.now why)) }
    {
        match self.run.cache.ask(self.run.rt, self.pass, key) {
            Err(NoMemory) => Some(Err(Missed::Memory)),
            Ok(Asked::Cancelled(by)) => Some(Err(Missed::Cancelled(by))),
            Ok(Asked::Have(reply)) => Some(Ok(reply)),
            Ok(Asked::Waiting) => None,
            Ok(Asked::Fetch(ticket)) => Some(self.fetch(alloc, ticket)),
        }
    }
}

impl<'a, L: Link, G: Gate, R: Wait> Sharing<'a, L, G, R> {
    /// Says in the cache what is likely wanted next.
    ///
    /// # Errors
    ///
    /// `NoMemory` alone. Nothing was added then.
    pub fn hint(&mut self, keys: &[Key]) -> Result<(), NoMemory>
        requires ready { IsReady self.old }
        ensures ready { IsReady self.new }
        ensures same { IsSame self.old self.new }
        ensures does { DoesBy L.state self.old self.new (hint_events self.old.pass.now.actor keys.now result) }
    {
        self.run.cache.hint(self.run.rt, self.pass, keys)
    }

    /// Ends the session.
    pub fn end(&mut self)
        requires ready { IsReady self.old }
        ensures same { IsSame self.old self.new }
        ensures does { DoesBy L.state self.old self.new (event self.old.pass.now.actor End ∷ []) }
        ensures ended { has_ended self.new.pass.now.actor self.new.pass.now.seen ≡ true }
    {
        self.run.cache.end(self.run.rt, self.pass);
    }
}

impl<'a, L: Link, G: Gate, R: Wait> Source for Sharing<'a, L, G, R> {
    ghost use Rattle.spm_session.specs.Sharing.{GoesSharing, IsReady, MissesSharing, knows_by};
    ghost use Rattle.spm_session.specs.SharingLaws.{sharing_keeps, sharing_keeps_missed, sharing_onward, sharing_stays, sharing_then_misses};

    ghost ready = { IsReady };

    ghost knows = { knows_by };

    ghost goes = { GoesSharing L.state };

    ghost misses = { MissesSharing L.state };

    ghost stays = { sharing_stays L.state };

    ghost onward = { sharing_onward L.state };

    ghost then_misses = { sharing_then_misses L.state };

    ghost keeps = { sharing_keeps L.state };

    ghost keeps_missed = { sharing_keeps_missed L.state };

    fn reply(&mut self, alloc: Global, key: &Key) -> Result<SharedReply, Missed> {
        for _ in self.run.rt.forever() {
            match self.ask(alloc, key) {
                Some(answer) => return answer,
                None => self.run.cache.rest(self.run.rt, self.pass),
            }
        }
        unreachable!()
    }

    fn looks_ahead(&self) -> bool {
        self.ahead
    }

    fn expect(&mut self, keys: &[Key]) -> Result<(), NoMemory> {
        self.run.cache.hint(self.run.rt, self.pass, keys)
    }
}
