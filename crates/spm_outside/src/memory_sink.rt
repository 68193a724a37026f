ghost use Rattle.std.specs.Prelude.{◌≡◌, ◌↔◌, [], IfOk, IsErrOf, IsTrue, Some, length};
ghost use Rattle.spm_outside.specs.Faults.{FaultsAfter};
ghost use Rattle.spm_outside.specs.Memory.{plan_of_sink, state_of_sink};
ghost use Rattle.spm_outside.specs.Schedule.{after_call, fails_next};
ghost use Rattle.spm_outside.specs.Sink.{TakesOf, written_after};

use crate::schedule::Schedule;
use crate::sink::{Sink, SinkFault};
use spm_version::NoMemory;
use std::alloc::Global;

/// A sink in memory, which tells all. It takes each piece whole. Its puts are numbered from 1 on, and those
/// with a listed number fail.
#[derive(Debug, Drop)]
pub struct MemorySink {
    written: Vec<u8>,
    faults: u64,
    schedule: Schedule,
}

impl MemorySink {
    /// A sink with nothing written, whose calls with these numbers fail.
    ///
    /// # Errors
    ///
    /// `NoMemory` alone.
    pub fn new(alloc: Global, failing: &[u64]) -> Result<MemorySink, NoMemory>
        ensures state { IfOk result (λ sink. state_of_sink sink ≡ record { written = Some []; faults = 0 }) }
        ensures plan { IfOk result (λ sink. plan_of_sink sink ≡ record { failing = failing.now; calls = 0 }) }
    {
        let schedule = Schedule::new(alloc, failing)?;
        Ok(MemorySink {
            written: Vec::new(alloc),
            faults: 0,
            schedule,
        })
    }

    /// The bytes written, in their order.
    pub fn written(&self) -> &[u8]
        ensures { Some result.now ≡ (state_of_sink self.now).written }
    {
        self.written.as_slice()
    }

    /// How many puts failed, up to the greatest u64.
    pub fn faults(&self) -> u64
        ensures { result ≡ (state_of_sink self.now).faults }
    {
        self.faults
    }
}

impl Sink for MemorySink {
    ghost state = { state_of_sink };

    fn put(&mut self, piece: &[u8]) -> Result<usize, SinkFault>
        ensures takes { IfOk result (λ count. TakesOf piece.now count) }
        ensures written { (state_of_sink self.new).written ≡ written_after result piece.now (state_of_sink self.old).written }
        ensures faults { FaultsAfter result (state_of_sink self.old).faults (state_of_sink self.new).faults }
        ensures whole { IfOk result (λ count. count ≡ length piece.now) }

        // Exactly the listed calls fail.
        ensures fails { IsErrOf result SinkFault.Failed ↔ IsTrue (fails_next (plan_of_sink self.old)) }
        ensures counted { plan_of_sink self.new ≡ after_call (plan_of_sink self.old) }
    {
        if self.schedule.next_fails() {
            self.faults = self.faults.saturating_add(1);
            return Err(SinkFault::Failed);
        }
        self.written.extend_from_slice(piece)?;
        Ok(piece.len())
    }
}
