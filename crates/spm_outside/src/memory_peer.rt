ghost use Rattle.std.specs.Prelude.{◌≡◌, ◌≢◌, ◌<◌, ◌↔◌, [], Err, IfOk, IsErrOf, IsTrue, Some, drop, length};
ghost use Rattle.spm_outside.specs.Faults.{FaultsAfter};
ghost use Rattle.spm_outside.specs.Memory.{plan_of_peer, state_of_peer};
ghost use Rattle.spm_outside.specs.Peer.{LeftAfter, taken_after};
ghost use Rattle.spm_outside.specs.Schedule.{after_call, fails_next};
ghost use Rattle.spm_outside.specs.Sink.{TakesOf, written_after};

use crate::peer::{Peer, PeerFault};
use crate::schedule::Schedule;
use spm_version::NoMemory;
use std::alloc::Global;

/// A peer in memory, which tells all. It takes each piece whole. Its reads and puts are numbered from 1 on, together, and those
/// with a listed number fail.
#[derive(Debug, Drop)]
pub struct MemoryPeer {
    bytes: Vec<u8>,
    taken: usize,
    written: Vec<u8>,
    faults: u64,
    schedule: Schedule,
}

impl MemoryPeer {
    /// A peer from which these bytes come, whose calls with these numbers fail. Nothing is taken or written yet.
    ///
    /// # Errors
    ///
    /// `NoMemory` alone.
    pub fn new(alloc: Global, bytes: &[u8], failing: &[u64]) -> Result<MemoryPeer, NoMemory>
        ensures state { IfOk result (λ peer. state_of_peer peer
            ≡ record { taken = Some []; rest = Some bytes.now; written = Some []; faults = 0 }) }
        ensures plan { IfOk result (λ peer. plan_of_peer peer ≡ record { failing = failing.now; calls = 0 }) }
    {
        let schedule = Schedule::new(alloc, failing)?;
        Ok(MemoryPeer {
            bytes: Vec::from_slice(alloc, bytes)?,
            taken: 0,
            written: Vec::new(alloc),
            faults: 0,
            schedule,
        })
    }

    // The bytes that are left.
    fn rest(&self) -> &[u8]
        ensures { result.now ≡ drop self.now.taken self.now.bytes.items }
    {
        self.bytes.get(self.taken..).unwrap_or(&[])
    }

    /// The bytes written to it, in their order.
    pub fn written(&self) -> &[u8]
        ensures { Some result.now ≡ (state_of_peer self.now).written }
    {
        self.written.as_slice()
    }

    /// How many calls failed, up to the greatest u64.
    pub fn faults(&self) -> u64
        ensures { result ≡ (state_of_peer self.now).faults }
    {
        self.faults
    }
}

impl Peer for MemoryPeer {
    ghost state = { state_of_peer };

    fn read(&mut self, piece: &mut [u8]) -> Result<usize, PeerFault>
        requires { 0 < length piece.old }
        ensures taken { (state_of_peer self.new).taken ≡ taken_after result piece.new (state_of_peer self.old).taken }
        ensures rest { LeftAfter result piece.new (state_of_peer self.old).rest (state_of_peer self.new).rest }
        ensures written { (state_of_peer self.new).written ≡ (state_of_peer self.old).written }
        ensures faults { FaultsAfter result (state_of_peer self.old).faults (state_of_peer self.new).faults }

        // Exactly the listed calls fail.
        ensures fails { IsErrOf result PeerFault.Failed ↔ IsTrue (fails_next (plan_of_peer self.old)) }
        ensures takes_no_memory { result ≢ Err PeerFault.Memory }
        ensures counted { plan_of_peer self.new ≡ after_call (plan_of_peer self.old) }
    {
        if self.schedule.next_fails() {
            self.faults = self.faults.saturating_add(1);
            return Err(PeerFault::Failed);
        }
        let rest = self.rest();
        let count = piece.len().min(rest.len());
        piece[..count].copy_from_slice(&rest[..count]);
        self.taken += count;
        Ok(count)
    }

    fn put(&mut self, piece: &[u8]) -> Result<usize, PeerFault>
        ensures takes { IfOk result (λ count. TakesOf piece.now count) }
        ensures taken { (state_of_peer self.new).taken ≡ (state_of_peer self.old).taken }
        ensures rest { (state_of_peer self.new).rest ≡ (state_of_peer self.old).rest }
        ensures written { (state_of_peer self.new).written ≡ written_after result piece.now (state_of_peer self.old).written }
        ensures faults { FaultsAfter result (state_of_peer self.old).faults (state_of_peer self.new).faults }
        ensures whole { IfOk result (λ count. count ≡ length piece.now) }

        // Exactly the listed calls fail.
        ensures fails { IsErrOf result PeerFault.Failed ↔ IsTrue (fails_next (plan_of_peer self.old)) }
        ensures counted { plan_of_peer self.new ≡ after_call (plan_of_peer self.old) }
    {
        if self.schedule.next_fails() {
            self.faults = self.faults.saturating_add(1);
            return Err(PeerFault::Failed);
        }
        self.written.extend_from_slice(piece)?;
        Ok(piece.len())
    }
}
