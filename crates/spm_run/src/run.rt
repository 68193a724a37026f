// All roots at once.
ghost use Rattle.std.specs.Prelude.{◌≡◌, ◌≤◌, All, IfOk, OnErr, length};
ghost use Rattle.spm_run.specs.Run.{IsRunOf};
ghost use Rattle.spm_session.specs.Run.{IsInput};
ghost use Rattle.spm_session.specs.declared.job.RootJob.{RootJob};

use crate::seats::{LINKS, join_links, part_links};
use crate::stage::Stage;
use pub_term::Cause;
use spm_api::Base;
use spm_cache_core::CacheState;
use spm_outside::{Gate, Link};
use spm_session::{Outcome, RootJob};
use spm_trust::Trust;
use spm_version::{Items, NoMemory};
use std::alloc::Global;
use std::mem;
use std::sync::Wait;
use std::thread::Threads;

/// What a run comes to.
#[derive(Drop)]
pub struct RunEnd {
    /// What each root comes to, in the order of the jobs.
    pub outcomes: Items<Outcome>,
    /// The cache as it was left, with the run's history.
    pub cache: CacheState,
}

/// Resolves all roots at once over one cache: a session for each job, in the order of the jobs, and so many workers, each in a thread of
/// its own where one can be made. Session `i` fetches over the link `i`, worker `j` over the link `64 + j`; the other links aren't touched.
/// The sessions hint where there is a worker. It waits until all have ended.
///
/// # Errors
///
/// `NoMemory` alone, before any of them begins. The links are as they were then.
pub fn run_all<L: Link + Send + Drop, G: Gate + Sync, R: Threads + Wait + Sync>(
    rt: &R,
    alloc: Global,
    jobs: Items<RootJob>,
    trust: &Trust,
    workers: u32,
    base: &Base,
    links: &mut Vec<L>,
    gate: &G,
) -> Result<RunEnd, NoMemory>
    requires roots { (1 ≤ length jobs) × (length jobs ≤ 64) }
    requires inputs { All (λ (job : RootJob). IsInput job.input) jobs }
    requires workers { workers ≤ 16 }
    requires links { length links.old.items ≡ LINKS }
    ensures run { IfOk result (λ end. IsRunOf L.state ⟦<Cause as PartialEq>⟧.eq base.now trust.now workers jobs links.old.items links.new.items end.outcomes end.cache) }
    ensures nothing { OnErr result (links.new.items ≡ links.old.items) }
{
    let roots = jobs.as_slice().len();
    let stage = Stage::open(alloc, roots, workers)?;
    let spare = Vec::with_capacity(alloc, LINKS)?;
    let idle = part_links(links, roots, workers as usize)?;
    let used = mem::replace(links, spare);
    let end = stage.play(rt, alloc, jobs, used, trust, base, gate, workers > 0, links);
    join_links(links, idle, roots, workers as usize);
    Ok(end)
}
