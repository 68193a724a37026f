ghost use Rattle.std.specs.Prelude.{◌≡◌, ◌≢◌, Err, IfOk};
ghost use Rattle.spm_outside.specs.Door.{DoorState, IsFresh, served_after};
ghost use Rattle.spm_outside.specs.Faults.{FaultsAfter};
ghost use Rattle.spm_outside.specs.declared.fault.CallFault.TheVariants.{Failed};

pub use crate::fault::CallFault as DoorFault;
use crate::peer::Peer;

/// Where a server's connections come from, and where they go when they are served.
///
/// A door may tell what each peer that came back had taken, left, written and counted as faults, or not: `None`.
pub trait Door {
    type Peer: Peer + Drop;

    ghost state: { Self → DoorState };

    /// Listens on this port.
    ///
    /// # Errors
    ///
    /// `Failed` where the door failed, and `Memory`.
    fn bind(&mut self, port: u16) -> Result<(), DoorFault>
        ensures served { (state self.new).served ≡ (state self.old).served }
        ensures faults { FaultsAfter result (state self.old).faults (state self.new).faults };

    /// The next peer. It has counted no fault and, where it tells, has taken and written nothing.
    ///
    /// # Errors
    ///
    /// `Failed` where the door failed, and `Memory`.
    fn next(&mut self) -> Result<Self::Peer, DoorFault>
        ensures fresh { IfOk result (λ peer. IsFresh (Self.Peer.state peer)) }
        ensures served { (state self.new).served ≡ (state self.old).served }
        ensures faults { FaultsAfter result (state self.old).faults (state self.new).faults };

    /// Takes a peer back that was served. It never answers `Failed`.
    ///
    /// # Errors
    ///
    /// `Memory` alone; the peer is gone then.
    fn done(&mut self, peer: Self::Peer) -> Result<(), DoorFault>
        ensures answer { result ≢ Err Failed }
        ensures served { (state self.new).served ≡ served_after result (Self.Peer.state peer) (state self.old).served }
        ensures faults { (state self.new).faults ≡ (state self.old).faults };
}
