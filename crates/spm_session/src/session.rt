// A session of a shared cache.
ghost use Rattle.std.specs.Prelude.{◌≡◌, [], ◌∷◌, List, OnErr, OnOk, true};
ghost use Rattle.spm_cache_core.specs.History.{event, has_ended};
ghost use Rattle.spm_cache_core.specs.Legal.{IsSession};
ghost use Rattle.spm_cache_core.specs.declared.event.Act.TheVariants.{End};
ghost use Rattle.spm_cache_core.specs.declared.event.Event.{Event};
ghost use Rattle.spm_flight.specs.Work.{Does};
ghost use Rattle.spm_session.specs.Outcome.{CanBeTold};
ghost use Rattle.spm_session.specs.Run.{IsEnd, IsInput};
ghost use Rattle.spm_session.specs.Session.{GaveUp, IsReadyInput, IsSessionWork, Went, opening_of};
ghost use Rattle.spm_session.specs.Sharing.{DoesBy, IsReady, IsSame, knows_by, landed_by};

use crate::job::{RootInput, RootJob};
use crate::outcome::Outcome;
use crate::run::resolve;
use crate::sharing::Sharing;
use crate::source::Source;
use pub_term::Cause;
use spm_api::guess_root;
use spm_cache::Pass;
use spm_flight::Run;
use spm_outside::{Gate, Link};
use spm_trust::Trust;
use spm_version::NoMemory;
use std::alloc::Global;
use std::sync::Wait;

// Says what the manifest of a root makes likely to be wanted, where that may be fetched ahead.
fn look_ahead_of_root<L: Link, G: Gate, R: Wait>(
    alloc: Global,
    job: &RootJob,
    source: &mut Sharing<'_, L, G, R>,
) -> Result<(), NoMemory>
    requires ready { IsReady source.old }
    ensures ready { IsReady source.new }
    ensures same { IsSame source.old source.new }
    ensures opens { OnOk result (DoesBy L.state source.old source.new (opening_of source.old.ahead source.old.pass.now.actor job.now.input)) }
    ensures nothing { OnErr result (DoesBy L.state source.old source.new []) }
    ensures of_ready { OnErr result (IsReadyInput job.now.input) }
{
    match &job.input {
        RootInput::Ready { manifest, .. } if source.ahead => {
            let keys = guess_root(alloc, manifest)?;
            source.hint(keys.as_slice())
        }
        _ => Ok(()),
    }
}

// From the first hint to the outcome.
fn resolve_ahead<L: Link, G: Gate, R: Wait>(
    alloc: Global,
    job: RootJob,
    trust: &Trust,
    source: &mut Sharing<'_, L, G, R>,
) -> Outcome
    requires ready { IsReady source.old }
    requires input { IsInput job.input }
    ensures ready { IsReady source.new }
    ensures end { IsEnd ⟦<Cause as PartialEq>⟧.eq (knows_by source.new) trust.now job result }
    ensures told { CanBeTold result }
    ensures went { Went L.state source.old.ahead job.input source.old source.new result }
{
    match look_ahead_of_root(alloc, &job, source) {
        Ok(()) => resolve(alloc, job, trust, source),
        Err(NoMemory) => Outcome::Memory,
    }
}

/// Resolves a root as a session of a shared cache. It asks the cache for each key that the solver demands, fetches over its link those that it
/// is told to, and waits for those that others fetch; where `hints` says so it hints first what the root's manifest makes likely, and
/// behind each reply what that does. Then it ends its session.
///
/// The outcome is that of the definition over what has landed, or a fault of its own link at a key that is demanded, or that another
/// session gave up, or want of memory.
pub fn run_session<L: Link, G: Gate, R: Wait>(
    run: &Run<'_, G, R>,
    alloc: Global,
    pass: &mut Pass,
    link: &mut L,
    job: RootJob,
    trust: &Trust,
    hints: bool,
) -> Outcome
    requires own { pass.old.of ≡ run.now.cache.now.id }
    requires session { IsSession pass.old.sessions pass.old.seen pass.old.actor }
    requires input { IsInput job.input }
    ensures does { (added : List Event) × Does run.now.base.now (L.state link.old) (L.state link.new) pass.old pass.new added
        × IsSessionWork hints pass.old.actor job.input result added }
    ensures ended { has_ended pass.new.actor pass.new.seen ≡ true }
    ensures end { IsEnd ⟦<Cause as PartialEq>⟧.eq (landed_by pass.new.seen) trust.now job result }
    ensures gave_up { GaveUp pass.new.actor pass.new.seen result }
    ensures told { CanBeTold result }
{
    let ahead = hints;
    let mut source = Sharing {
        run,
        pass,
        link,
        ahead,
    };
    let outcome = resolve_ahead(alloc, job, trust, &mut source);
    source.end();
    outcome
}
