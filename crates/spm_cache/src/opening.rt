//! How a cache is opened: a pass for each actor.
ghost use Rattle.std.specs.Prelude.{◌≡◌, ℕ, ◌+◌, ◌-◌, ◌^◌, ◌<◌, ◌≤◌, [], IfOk, vec_capacity};
ghost use Rattle.spm_cache.specs.Passing.{newcomer, newcomers};
ghost use Rattle.spm_cache.specs.Seated.{row};
ghost use Rattle.spm_turn.specs.Log.{numbers_from};

use crate::cache::Cache;
use crate::kept::Kept;
use crate::pass::Pass;
use spm_cache_core::CacheState;
use spm_turn::{Seat, TurnLock};
use spm_version::NoMemory;
use std::alloc::Global;

impl Cache {
    /// A cache in which nothing has happened, for so many sessions and workers, and a pass for each of them, in the order of actors:
    /// the sessions first.
    ///
    /// # Errors
    ///
    /// `NoMemory` alone.
    pub fn open(alloc: Global, sessions: u32, workers: u32) -> Result<(Cache, Vec<Pass>), NoMemory>
        requires some_sessions { 1 ≤ sessions }
        requires few_sessions { sessions ≤ 64 }
        requires few_workers { workers ≤ 16 }
        ensures cache { IfOk result (λ opened. opened.0.numbers ≡ sessions + workers) }
        ensures passes { IfOk result (λ opened. opened.1.items ≡ newcomers opened.0.id sessions workers) }
    {
        let state = CacheState::new(alloc, sessions, workers)?;
        let count = sessions + workers;
        let passes = Vec::with_capacity(alloc, count as usize)?;
        match TurnLock::new(alloc, Kept::new(state), count) {
            Ok((lock, seat)) => {
                let cache = Cache { lock };
                let passes = cache.deal(seat, sessions, workers, passes);
                Ok((cache, passes))
            }
            Err(_) => Err(NoMemory),
        }
    }

    // A pass for each actor, in their order, into the room that is there.
    fn deal(
        &self,
        mut seat: Seat<Kept>,
        sessions: u32,
        workers: u32,
        mut passes: Vec<Pass>,
    ) -> Vec<Pass>
        requires seat { seat ≡ row self.now.id sessions workers 0 (sessions + workers) }
        requires some { (0 < sessions + workers) × (sessions + workers < 2 ^ 32) }
        requires room { (passes.items ≡ []) × (sessions + workers ≤ vec_capacity passes) }
        ensures { result.items ≡ newcomers self.now.id sessions workers }
    {
        let count = sessions + workers;
        for actor in 0..count - 1 {
            let pass = self.first_pass(&mut seat, actor, count - actor);
            passes.push_reserved(pass);
        }
        passes.push_reserved(Pass {
            seat,
            actor: count - 1,
        });
        passes
    }

    // A pass for the first of a row of numbers.
    fn first_pass(&self, seat: &mut Seat<Kept>, actor: u32, left: u32) -> Pass
        requires seat { seat.old ≡ row self.now.id seat.old.terms.sessions seat.old.terms.workers actor left }
        requires more { 1 < left }
        ensures kept { seat.new ≡ row self.now.id seat.old.terms.sessions seat.old.terms.workers (actor + 1) (left - 1) }
        ensures given { result ≡ newcomer self.now.id seat.old.terms.sessions seat.old.terms.workers actor }
    {
        let seat = self.lock.split(seat, actor);
        Pass { seat, actor }
    }
}
