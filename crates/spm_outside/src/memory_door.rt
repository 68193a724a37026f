ghost use Rattle.std.specs.Prelude.{◌≡◌, ◌≢◌, ◌⊎◌, ◌↔◌, [], ◌∷◌, ◌++◌, Err, IfOk, IsErr, IsErrOf, IsTrue, OnOk, OnErr, Some, map};
ghost use Rattle.spm_outside.specs.Door.{IsFresh, served_after};
ghost use Rattle.spm_outside.specs.Doorway.{plan_of_door, state_of_door, waiting_at_door};
ghost use Rattle.spm_outside.specs.Faults.{FaultsAfter};
ghost use Rattle.spm_outside.specs.Memory.{state_of_peer};
ghost use Rattle.spm_outside.specs.Schedule.{after_call, fails_next};

use crate::door::{Door, DoorFault};
use crate::memory_peer::MemoryPeer;
use crate::schedule::Schedule;
use spm_version::NoMemory;
use std::alloc::Global;
use std::collections::VecDeque;
use std::marker::Model;

/// A door in memory, which tells all: it hands over the peers that were added, in their order. Its binds and calls of `next` are
/// numbered from 1 on, together, and those with a listed number fail; so does a `next` with no peer left.
#[derive(Debug, Drop)]
pub struct MemoryDoor {
    waiting: VecDeque<MemoryPeer>,
    served: Vec<MemoryPeer>,
    faults: u64,
    schedule: Schedule,
}

impl Model for MemoryDoor {
    ghost use Rattle.std.specs.List.{All};
    ghost use Rattle.spm_outside.specs.Doorway.{Doorway, IsFreshPeer};

    ghost Value = { Doorway };

    ghost view = { λ door. record { waiting = door.waiting.items; served = door.served.items; faults = door.faults; plan = door.schedule } };

    ghost invariant = { λ door. All IsFreshPeer door.waiting.items };
}

impl MemoryDoor {
    /// A door without peers, whose calls with these numbers fail.
    ///
    /// # Errors
    ///
    /// `NoMemory` alone.
    pub fn new(alloc: Global, failing: &[u64]) -> Result<MemoryDoor, NoMemory>
        ensures waiting { IfOk result (λ door. waiting_at_door door ≡ []) }
        ensures state { IfOk result (λ door. state_of_door door ≡ record { served = Some []; faults = 0 }) }
        ensures plan { IfOk result (λ door. plan_of_door door ≡ record { failing = failing.now; calls = 0 }) }
    {
        let schedule = Schedule::new(alloc, failing)?;
        Ok(MemoryDoor {
            waiting: VecDeque::new(alloc),
            served: Vec::new(alloc),
            faults: 0,
            schedule,
        })
    }

    /// Adds a peer behind the others. It has taken and written nothing and counted no fault. This is no call of the door.
    ///
    /// # Errors
    ///
    /// `NoMemory` alone.
    pub fn add(&mut self, peer: MemoryPeer) -> Result<(), NoMemory>
        requires { IsFresh (state_of_peer peer) }
        ensures waiting { OnOk result (waiting_at_door self.new ≡ waiting_at_door self.old ++ peer ∷ []) }
        ensures refused { OnErr result (self.new ≡ self.old) }
        ensures state { state_of_door self.new ≡ state_of_door self.old }
        ensures plan { plan_of_door self.new ≡ plan_of_door self.old }
    {
        self.waiting.push_back(peer)?;
        Ok(())
    }

    /// The peers that came back, in their order.
    pub fn served(&self) -> &[MemoryPeer]
        ensures { Some (map state_of_peer result.now) ≡ (state_of_door self.now).served }
    {
        self.served.as_slice()
    }
}

impl Door for MemoryDoor {
    type Peer = MemoryPeer;

    ghost state = { state_of_door };

    fn bind(&mut self, _port: u16) -> Result<(), DoorFault>
        ensures served { (state_of_door self.new).served ≡ (state_of_door self.old).served }
        ensures faults { FaultsAfter result (state_of_door self.old).faults (state_of_door self.new).faults }
        ensures waiting { waiting_at_door self.new ≡ waiting_at_door self.old }

        // Exactly the listed calls fail.
        ensures fails { IsErrOf result DoorFault.Failed ↔ IsTrue (fails_next (plan_of_door self.old)) }
        ensures takes_no_memory { result ≢ Err DoorFault.Memory }
        ensures counted { plan_of_door self.new ≡ after_call (plan_of_door self.old) }
    {
        if self.schedule.next_fails() {
            self.faults = self.faults.saturating_add(1);
            return Err(DoorFault::Failed);
        }
        Ok(())
    }

    fn next(&mut self) -> Result<MemoryPeer, DoorFault>
        ensures fresh { IfOk result (λ peer. IsFresh (state_of_peer peer)) }
        ensures served { (state_of_door self.new).served ≡ (state_of_door self.old).served }
        ensures faults { FaultsAfter result (state_of_door self.old).faults (state_of_door self.new).faults }
        ensures waiting { IfOk result (λ peer. waiting_at_door self.old ≡ peer ∷ waiting_at_door self.new) }
        ensures stay { IsErr result → waiting_at_door self.new ≡ waiting_at_door self.old }

        // The listed calls fail, and those with no peer left.
        ensures fails { IsErr result ↔ (IsTrue (fails_next (plan_of_door self.old)) ⊎ (waiting_at_door self.old ≡ [])) }
        ensures takes_no_memory { result ≢ Err DoorFault.Memory }
        ensures counted { plan_of_door self.new ≡ after_call (plan_of_door self.old) }
    {
        if !self.schedule.next_fails() {
            if let Some(peer) = self.waiting.pop_front() {
                return Ok(peer);
            }
        }
        self.faults = self.faults.saturating_add(1);
        Err(DoorFault::Failed)
    }

    fn done(&mut self, peer: MemoryPeer) -> Result<(), DoorFault>
        ensures answer { result ≢ Err DoorFault.Failed }
        ensures served { (state_of_door self.new).served ≡ served_after result (state_of_peer peer) (state_of_door self.old).served }
        ensures faults { (state_of_door self.new).faults ≡ (state_of_door self.old).faults }
        ensures waiting { waiting_at_door self.new ≡ waiting_at_door self.old }
        ensures plan { plan_of_door self.new ≡ plan_of_door self.old }
    {
        self.served.push(peer)?;
        Ok(())
    }
}
