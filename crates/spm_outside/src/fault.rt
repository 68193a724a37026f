ghost use Rattle.std.specs.Prelude.{◌≡◌};
ghost use Rattle.spm_outside.specs.declared.fault.CallFault.TheVariants.{Memory};

use std::alloc::{AllocError, AllocFailed};
use std::error::Error;
use std::fmt;

/// Why a call of the outside gave no answer. Each trait names it after itself: `DeskFault`, `SinkFault` and so on.
#[derive(Clone, Copy, Debug, PartialEq, Eq)]
pub enum CallFault {
    /// The object failed.
    Failed,
    /// There was no memory.
    Memory,
}

impl fmt::Display for CallFault {
    fn fmt<W: fmt::Write>(&self, f: &mut fmt::Formatter<W>) -> fmt::Result {
        f.write_str(match self {
            CallFault::Failed => "the call failed",
            CallFault::Memory => "no memory",
        })
    }
}

impl Error for CallFault {}

impl From<AllocError> for CallFault {
    ghost from_gives = { λ _ fault. fault ≡ Memory };

    fn from(_e: AllocError) -> CallFault {
        CallFault::Memory
    }
}

impl<T: Drop> From<AllocFailed<T>> for CallFault {
    ghost from_gives = { λ _ fault. fault ≡ Memory };

    fn from(_e: AllocFailed<T>) -> CallFault {
        CallFault::Memory
    }
}
