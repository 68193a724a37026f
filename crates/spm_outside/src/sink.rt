ghost use Rattle.std.specs.Prelude.{◌≡◌, IfOk};
ghost use Rattle.spm_outside.specs.Faults.{FaultsAfter};
ghost use Rattle.spm_outside.specs.Sink.{PutsAll, SinkState, TakesOf, written_after};

pub use crate::fault::CallFault as SinkFault;

/// Where output goes. A sink may tell what is written, or not: `None`.
pub trait Sink {
    ghost state: { Self → SinkState };

    /// Writes some bytes from the front of `piece`, at least one if it has any, and says how many.
    ///
    /// # Errors
    ///
    /// `Failed` where the sink failed, and `Memory`. Nothing is written then.
    fn put(&mut self, piece: &[u8]) -> Result<usize, SinkFault>
        ensures takes { IfOk result (λ count. TakesOf piece.now count) }
        ensures written { (state self.new).written ≡ written_after result piece.now (state self.old).written }
        ensures faults { FaultsAfter result (state self.old).faults (state self.new).faults };
}

/// Writes all of the bytes, in as many puts as the sink needs.
///
/// # Errors
///
/// The fault of the put that failed. The bytes before it, from the front on, are written then.
pub fn put_all<S: Sink>(sink: &mut S, bytes: &[u8]) -> Result<(), SinkFault>
    ensures written { PutsAll result bytes.now (S.state sink.old).written (S.state sink.new).written }
    ensures faults { FaultsAfter result (S.state sink.old).faults (S.state sink.new).faults }
{
    let mut done = 0;
    while done < bytes.len() {
        done += sink.put(&bytes[done..])?;
    }
    Ok(())
}
