ghost use Rattle.std.specs.Prelude.{◌≡◌, IfOk};

use spm_version::NoMemory;
use std::alloc::Global;
use std::marker::Model;

/// Which calls of an object in memory fail: those whose numbers are listed, counted from 1 to the greatest u64.
#[derive(Debug, Drop)]
pub(crate) struct Schedule {
    failing: Vec<u64>,
    calls: u64,
}

impl Model for Schedule {
    ghost use Rattle.spm_outside.specs.Schedule.{Plan};

    ghost Value = { Plan };

    ghost view = { λ schedule. record { failing = schedule.failing.items; calls = schedule.calls } };
}

impl Schedule {
    ghost use Rattle.spm_outside.specs.Schedule.{after_call, fails_next};

    // The calls with these numbers fail. No call is made yet.
    pub(crate) fn new(alloc: Global, failing: &[u64]) -> Result<Schedule, NoMemory>
        ensures { IfOk result (λ schedule. schedule ≡ record { failing = failing.now; calls = 0 }) }
    {
        let failing = Vec::from_slice(alloc, failing)?;
        Ok(Schedule { failing, calls: 0 })
    }

    // Counts a call, and says whether it fails.
    pub(crate) fn next_fails(&mut self) -> bool
        ensures answer { result ≡ fails_next self.old }
        ensures counted { self.new ≡ after_call self.old }
    {
        if self.calls == u64::MAX {
            return false;
        }
        self.calls += 1;
        self.failing.contains(&self.calls)
    }
}
