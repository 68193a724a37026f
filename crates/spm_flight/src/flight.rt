// A flight, from its begin to its end.
ghost use Rattle.std.specs.Prelude.{◌≡◌, IfOk, [], ◌∷◌};
ghost use Rattle.spm_cache.specs.Work.{Keeps};
ghost use Rattle.spm_cache_core.specs.Legal.{IsFlight};
ghost use Rattle.spm_flight.specs.Work.{Does, FlownKnows, Obtains, flown_event};
ghost use Rattle.spm_key.specs.Key.{IsKey};

use spm_api::{Base, fetch};
use spm_cache::{Cache, Pass};
use spm_cache_core::{SharedReply, Ticket, Why};
use spm_key::Reply;
use spm_outside::{Gate, Link, LinkFault};
use spm_version::NoMemory;
use std::alloc::Global;
use std::sync::Wait;

/// What all actors of a run share: the cache, the registry, and the gate that a flight passes.
#[derive(Drop)]
pub struct Run<'a, G, R> {
    pub rt: &'a R,
    pub cache: &'a Cache,
    pub base: &'a Base,
    pub gate: &'a G,
}

/// How a flight ended.
#[derive(Drop)]
pub enum Flown {
    /// The reply landed.
    Landed(SharedReply),
    /// The link failed.
    Broken,
    /// Want of memory.
    Memory,
}

// A reply, shared by two: the cache, and who fetched it.
fn shared_by_two(alloc: Global, reply: Reply) -> Result<(SharedReply, SharedReply), NoMemory>
    ensures { IfOk result (λ replies. (replies.0 ≡ reply) × (replies.1 ≡ reply)) }
{
    let kept = SharedReply::new(alloc, reply)?;
    let shared = kept.share()?;
    Ok((kept, shared))
}

// Fetches the reply of a ticket's key, between the gate's two points.
fn obtain<L: Link, G: Gate, R>(
    run: &Run<'_, G, R>,
    alloc: Global,
    link: &mut L,
    ticket: &Ticket,
) -> Result<(SharedReply, SharedReply), LinkFault>
    ensures leaves { Obtains run.now.base.now ticket.now.key result (L.state link.old) (L.state link.new) }
    ensures same { IfOk result (λ replies. replies.0 ≡ replies.1) }
    ensures form { IsKey ticket.now.key }
{
    let (actor, key) = (ticket.actor(), ticket.key());
    key.is_key();
    let text = key.text(alloc)?;
    run.gate.before(actor, text.as_str());
    let fetched = fetch(alloc, link, run.base, key);
    run.gate.after(actor, text.as_str());
    match fetched {
        Ok(reply) => Ok(shared_by_two(alloc, reply)?),
        Err(fault) => Err(fault),
    }
}

/// Fetches the key of a ticket over a link, in one exchange at most, and ends its flight: the reply lands, or the flight fails, by the link
/// or for want of memory. The gate is passed before and after the exchange.
pub fn fly<L: Link, G: Gate, R: Wait>(
    run: &Run<'_, G, R>,
    alloc: Global,
    pass: &mut Pass,
    link: &mut L,
    ticket: Ticket,
) -> Flown
    requires own { pass.old.of ≡ run.now.cache.now.id }
    requires flight { IsFlight pass.old.seen ticket × (ticket.actor ≡ pass.old.actor) }
    ensures does { Does run.now.base.now (L.state link.old) (L.state link.new) pass.old pass.new (flown_event ticket result ∷ []) }
    ensures session { Keeps pass.old pass.new }
    ensures knows { FlownKnows ticket.key pass.new.seen result }
{
    pass.has_its_actor();
    match obtain(run, alloc, link, &ticket) {
        Ok((kept, reply)) => {
            run.cache.land(run.rt, pass, ticket, kept);
            Flown::Landed(reply)
        }
        Err(LinkFault::Failed) => {
            run.cache.fail(run.rt, pass, ticket, Why::Link);
            Flown::Broken
        }
        Err(LinkFault::Memory) => {
            run.cache.fail(run.rt, pass, ticket, Why::Memory);
            Flown::Memory
        }
    }
}
