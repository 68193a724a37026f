// What a run needs before it begins, and how it goes.
ghost use Rattle.std.specs.Prelude.{◌≡◌, ℕ, ◌+◌, ◌≤◌, ◌<◌, [], All, IfOk, length, true, vec_capacity};
ghost use Rattle.spm_cache_core.specs.Legal.{IsLegal};
ghost use Rattle.spm_cache_core.specs.declared.event.Event.{Event};
ghost use Rattle.spm_run.specs.Run.{IsUsedRun};
ghost use Rattle.spm_run.specs.Stage.{IsStage};
ghost use Rattle.spm_session.specs.Run.{IsInput};
ghost use Rattle.spm_session.specs.declared.job.RootJob.{RootJob};
ghost use Rattle.spm_turn.specs.Log.{has, of_numbers};

use crate::actor::{Actor, act_all};
use crate::meeting::take_back;
use crate::run::RunEnd;
use crate::seats::seat_all;
use pub_term::Cause;
use spm_api::Base;
use spm_cache::{Cache, Pass};
use spm_flight::Run;
use spm_outside::{Gate, Link};
use spm_session::{Outcome, RootJob};
use spm_trust::Trust;
use spm_version::{Items, NoMemory};
use std::alloc::Global;
use std::sync::Wait;
use std::thread::Threads;

// Closes the cache behind all actors.
fn close(cache: Cache, whole: Pass, outcomes: Vec<Outcome>) -> RunEnd
    requires own { whole.of ≡ cache.id }
    requires all { (n : ℕ) → n < cache.numbers → has whole.numbers n ≡ true }
    ensures outcomes { result.outcomes ≡ outcomes.items }
    ensures history { result.cache.history ≡ whole.seen }
    ensures terms { (result.cache.sessions ≡ whole.sessions) × (result.cache.workers ≡ whole.workers) }
    ensures own { of_numbers (λ (e : Event). e.actor) whole.numbers whole.seen ≡ whole.seen }
    ensures legal { IsLegal whole.sessions whole.workers whole.seen }
{
    let state = cache.close(whole);
    state.is_legal();
    RunEnd {
        outcomes: Items::from_vec(outcomes),
        cache: state,
    }
}

/// The cache with a pass for each actor, and the room that the run takes. No memory is taken behind it.
#[derive(Drop)]
pub(crate) struct Stage<L> {
    pub cache: Cache,
    pub passes: Vec<Pass>,
    pub actors: Vec<Actor<L>>,
    pub outcomes: Vec<Outcome>,
}

impl<L: Link + Send + Drop> Stage<L> {
    /// For so many sessions and workers.
    ///
    /// # Errors
    ///
    /// `NoMemory` alone.
    pub(crate) fn open(alloc: Global, roots: usize, workers: u32) -> Result<Stage<L>, NoMemory>
        requires roots { (1 ≤ roots) × (roots ≤ 64) }
        requires workers { workers ≤ 16 }
        ensures { IfOk result (IsStage roots workers) }
    {
        let (cache, passes) = Cache::open(alloc, roots as u32, workers)?;
        let actors = Vec::with_capacity(alloc, passes.len())?;
        let outcomes = Vec::with_capacity(alloc, passes.len())?;
        Ok(Stage {
            cache,
            passes,
            actors,
            outcomes,
        })
    }

    /// Resolves all roots, and puts the links that were used into `links`, in their order.
    pub(crate) fn play<G: Gate + Sync, R: Threads + Wait + Sync>(
        self,
        rt: &R,
        alloc: Global,
        jobs: Items<RootJob>,
        used: Vec<L>,
        trust: &Trust,
        base: &Base,
        gate: &G,
        hints: bool,
        links: &mut Vec<L>,
    ) -> RunEnd
        requires some { 1 ≤ length jobs }
        requires inputs { All (λ (job : RootJob). IsInput job.input) jobs }
        requires stage { (workers : ℕ) × IsStage (length jobs) workers self × (length used.items ≡ length jobs + workers) }
        requires links { (links.old.items ≡ []) × (length used.items ≤ vec_capacity links.old) }
        ensures run { (workers : ℕ) → IsStage (length jobs) workers self → IsUsedRun L.state
            (record { same = ⟦<Cause as PartialEq>⟧.eq; base = base.now; fingerprints = trust.now; hints = hints; history = result.cache.history })
            workers jobs used.items links.new.items result.outcomes result.cache }
        ensures as_many { length links.new.items ≡ length used.items }
        ensures room { vec_capacity links.new ≡ vec_capacity links.old }
    {
        let Stage {
            cache,
            passes,
            mut actors,
            mut outcomes,
        } = self;
        seat_all(&mut actors, passes, used, jobs);
        let run = Run {
            rt,
            cache: &cache,
            base,
            gate,
        };
        act_all(&run, alloc, trust, hints, &mut actors);
        match take_back(&cache, actors, links, &mut outcomes) {
            Some(whole) => close(cache, whole, outcomes),
            None => unreachable!(),
        }
    }
}
