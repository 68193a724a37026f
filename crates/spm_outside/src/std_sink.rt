ghost use Rattle.std.specs.Prelude.{◌≡◌, None};
ghost use Rattle.spm_outside.specs.Faults.{Rises};

use crate::sink::{Sink, SinkFault};
use std::io;
use std::io::Write;

/// The standard output. It buffers nothing, and tells nothing.
#[derive(Drop)]
pub struct StdSink<R> {
    runtime: R,
    faults: u64,
}

impl<R: Print> StdSink<R> {
    /// The standard output of the runtime.
    pub fn new(runtime: R) -> StdSink<R>
        ensures { (⟦<StdSink<R> as Sink>⟧.state result).faults ≡ 0 }
    {
        StdSink { runtime, faults: 0 }
    }

    // Counts a fault.
    fn fail(&mut self) -> SinkFault
        ensures fault { result ≡ SinkFault.Failed }
        ensures rises { Rises self.old.faults self.new.faults }
    {
        self.faults = self.faults.saturating_add(1);
        SinkFault::Failed
    }
}

impl<R: Print> Sink for StdSink<R> {
    ghost state = { λ sink. record { written = None; faults = sink.faults } };

    fn put(&mut self, piece: &[u8]) -> Result<usize, SinkFault> {
        match io::writer(&self.runtime).write(piece) {
            Ok(0) if !piece.is_empty() => Err(self.fail()),
            Ok(count) => Ok(count),
            Err(_) => Err(self.fail()),
        }
    }
}
