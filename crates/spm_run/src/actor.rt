// One who calls the cache.
ghost use Rattle.std.specs.Prelude.{◌≡◌, ℕ, ◌<◌, All, length, slice_index_or};
ghost use Rattle.spm_run.specs.Actors.{Acted, AreActed, IsReadyActor};

use pub_term::Cause;
use spm_cache::Pass;
use spm_flight::Run;
use spm_outside::{Gate, Link};
use spm_session::{Outcome, RootJob, run_session};
use spm_trust::Trust;
use spm_worker::work;
use std::alloc::Global;
use std::sync::Wait;
use std::thread;
use std::thread::Threads;

/// One who calls the cache by its pass, and fetches over its link: a session, which has a job and then its outcome, or a worker.
#[derive(Drop)]
pub(crate) struct Actor<L> {
    pub pass: Pass,
    pub link: L,
    pub job: Option<RootJob>,
    pub outcome: Option<Outcome>,
}

// Does all that the actor is there for. The sessions hint where there are workers.
fn act<L: Link, G: Gate, R: Wait>(
    run: &Run<'_, G, R>,
    alloc: Global,
    trust: &Trust,
    hints: bool,
    actor: &mut Actor<L>,
)
    requires ready { IsReadyActor run.now.cache.now.id actor.old }
    ensures acted { Acted L.state ⟦<Cause as PartialEq>⟧.eq run.now.base.now trust.now hints actor.old actor.new }
{
    match actor.job.take() {
        Some(job) => {
            let outcome = run_session(
                run,
                alloc,
                &mut actor.pass,
                &mut actor.link,
                job,
                trust,
                hints,
            );
            actor.outcome = Some(outcome);
        }
        None => {
            let _ = work(run, alloc, &mut actor.pass, &mut actor.link);
        }
    }
}

// Lets each of the actors act, in so many threads.
fn act_each<L: Link + Send, G: Gate + Sync, R: Threads + Wait + Sync>(
    run: &Run<'_, G, R>,
    alloc: Global,
    trust: &Trust,
    hints: bool,
    actors: &mut [Actor<L>],
    threads: usize,
)
    requires threads { 0 < threads }
    requires ready { All (IsReadyActor run.now.cache.now.id) actors.old }
    ensures each { (i : ℕ) (d : _) → i < length actors.old → Acted L.state ⟦<Cause as PartialEq>⟧.eq run.now.base.now trust.now hints
        (slice_index_or actors.old i d) (slice_index_or actors.new i d) }
    ensures len { length actors.new ≡ length actors.old }
{
    thread::for_each_mut(
        run.rt,
        actors,
        threads,
        &|_, actor| act(run, alloc, trust, hints, actor),
    );
}

/// Lets all actors act at once, each in a thread of its own; where no thread can be made they act one after the other, in their order.
pub(crate) fn act_all<L: Link + Send, G: Gate + Sync, R: Threads + Wait + Sync>(
    run: &Run<'_, G, R>,
    alloc: Global,
    trust: &Trust,
    hints: bool,
    actors: &mut Vec<Actor<L>>,
)
    requires some { 0 < length actors.old.items }
    requires ready { All (IsReadyActor run.now.cache.now.id) actors.old.items }
    ensures acted { AreActed L.state ⟦<Cause as PartialEq>⟧.eq run.now.base.now trust.now hints actors.old.items actors.new.items }
{
    let threads = actors.len();
    act_each(run, alloc, trust, hints, actors.as_mut_slice(), threads);
}
