ghost use Rattle.std.specs.Prelude.{◌≡◌, ◌<◌, length, IfOk};
ghost use Rattle.spm_outside.specs.Faults.{FaultsAfter};
ghost use Rattle.spm_outside.specs.Peer.{LeftAfter, PeerState, taken_after};
ghost use Rattle.spm_outside.specs.Sink.{TakesOf, written_after};

pub use crate::fault::CallFault as PeerFault;

/// The other side of a connection that a server serves: bytes come from it and go to it.
///
/// A peer may tell the bytes that were taken from it, those that are left, and those that were written to it, each or not: `None`
/// is a meaning that isn't told.
pub trait Peer {
    ghost state: { Self → PeerState };

    /// Reads the next bytes into the front of `piece`, and says how many. It is 0 just where none are left.
    ///
    /// # Errors
    ///
    /// `Failed` where the peer failed, and `Memory`. Nothing is taken then.
    fn read(&mut self, piece: &mut [u8]) -> Result<usize, PeerFault>
        requires { 0 < length piece.old }
        ensures taken { (state self.new).taken ≡ taken_after result piece.new (state self.old).taken }
        ensures rest { LeftAfter result piece.new (state self.old).rest (state self.new).rest }
        ensures written { (state self.new).written ≡ (state self.old).written }
        ensures faults { FaultsAfter result (state self.old).faults (state self.new).faults };

    /// Writes some bytes from the front of `piece`, at least one if it has any, and says how many.
    ///
    /// # Errors
    ///
    /// `Failed` where the peer failed, and `Memory`. Nothing is written then.
    fn put(&mut self, piece: &[u8]) -> Result<usize, PeerFault>
        ensures takes { IfOk result (λ count. TakesOf piece.now count) }
        ensures taken { (state self.new).taken ≡ (state self.old).taken }
        ensures rest { (state self.new).rest ≡ (state self.old).rest }
        ensures written { (state self.new).written ≡ written_after result piece.now (state self.old).written }
        ensures faults { FaultsAfter result (state self.old).faults (state self.new).faults };
}
