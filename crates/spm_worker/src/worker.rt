// The rounds of a worker.
ghost use Rattle.std.specs.Prelude.{◌≡◌, List, [], ◌∷◌, IfNone, IfSome, Option};
ghost use Rattle.spm_cache_core.specs.History.{event};
ghost use Rattle.spm_cache_core.specs.Legal.{IsFlight, IsWorker};
ghost use Rattle.spm_cache_core.specs.declared.event.Act.TheVariants.{Fail};
ghost use Rattle.spm_cache_core.specs.declared.event.Event.{Event};
ghost use Rattle.spm_cache_core.specs.declared.event.Why.TheVariants as why;
ghost use Rattle.spm_flight.specs.Work.{Does};
ghost use Rattle.spm_key.specs.declared.reply.Reply.{Reply};
ghost use Rattle.spm_worker.specs.Worker.{IsRound, IsWork, LastRound, end_after, end_of};
ghost use Rattle.spm_worker.specs.declared.worker.WorkEnd.TheVariants.{Memory};

use spm_cache::Pass;
use spm_cache_core::{Claimed, Ticket};
use spm_flight::{Flown, Run, fly};
use spm_outside::{Gate, Link};
use spm_version::NoMemory;
use std::alloc::Global;
use std::sync::Wait;

/// How a worker ends.
#[derive(Debug, Clone, Copy, PartialEq, Eq)]
pub enum WorkEnd {
    /// Every session has ended.
    Closed,
    /// Want of memory.
    Memory,
}

// How a worker ends after a flight, if it does.
fn end_after(flown: &Flown) -> Option<WorkEnd>
    ensures { result ≡ end_after flown.now }
{
    match flown {
        Flown::Landed(_) | Flown::Broken => None,
        Flown::Memory => Some(WorkEnd::Memory),
    }
}

// The flight of a ticket. It says how the worker ends, if it does.
fn fly_once<L: Link, G: Gate, R: Wait>(
    run: &Run<'_, G, R>,
    alloc: Global,
    pass: &mut Pass,
    link: &mut L,
    ticket: Ticket,
) -> Option<WorkEnd>
    requires own { pass.old.of ≡ run.now.cache.now.id }
    requires flight { IsFlight pass.old.seen ticket × (ticket.actor ≡ pass.old.actor) }
    ensures more { IfNone result ((reply : Option Reply) × Does run.now.base.now (L.state link.old) (L.state link.new) pass.old pass.new
        (event ticket.actor (end_of ticket.key reply) ∷ [])) }
    ensures last { IfSome result (λ end. (end ≡ Memory) × Does run.now.base.now (L.state link.old) (L.state link.new) pass.old pass.new
        (event ticket.actor (Fail ticket.key why.Memory) ∷ [])) }
{
    let flown = fly(run, alloc, pass, link, ticket);
    end_after(&flown)
}

// One claim, and its flight or a rest. It says how the worker ends, if it does.
fn round<L: Link, G: Gate, R: Wait>(
    run: &Run<'_, G, R>,
    alloc: Global,
    pass: &mut Pass,
    link: &mut L,
) -> Option<WorkEnd>
    requires own { pass.old.of ≡ run.now.cache.now.id }
    requires worker { IsWorker pass.old.sessions pass.old.workers pass.old.actor }
    ensures more { IfNone result ((added : List Event) × Does run.now.base.now (L.state link.old) (L.state link.new) pass.old pass.new added × IsRound pass.old.actor added) }
    ensures last { IfSome result (λ end. (added : List Event) × Does run.now.base.now (L.state link.old) (L.state link.new) pass.old pass.new added
        × LastRound pass.old.actor end added) }
{
    match run.cache.claim(run.rt, pass) {
        Err(NoMemory) => Some(WorkEnd::Memory),
        Ok(Claimed::Closed) => Some(WorkEnd::Closed),
        Ok(Claimed::Nothing) => {
            run.cache.rest(run.rt, pass);
            None
        }
        Ok(Claimed::Fetch(_, ticket)) => fly_once(run, alloc, pass, link, ticket),
    }
}

/// Fetches what is hinted, one key after the other, until every session has ended, or memory runs out. It waits for the turns of the
/// cache, and for what is hinted.
pub fn work<L: Link, G: Gate, R: Wait>(
    run: &Run<'_, G, R>,
    alloc: Global,
    pass: &mut Pass,
    link: &mut L,
) -> WorkEnd
    requires own { pass.old.of ≡ run.now.cache.now.id }
    requires worker { IsWorker pass.old.sessions pass.old.workers pass.old.actor }
    ensures work { (added : List Event) × Does run.now.base.now (L.state link.old) (L.state link.new) pass.old pass.new added
        × IsWork pass.old.actor result added }
{
    for _ in run.rt.forever() {
        if let Some(end) = round(run, alloc, pass, link) {
            return end;
        }
    }
    unreachable!()
}
