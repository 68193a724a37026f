ghost use Rattle.std.specs.Prelude.{◌≡◌};
ghost use Rattle.spm_tool.specs.declared.ending.Ending.TheVariants as run;
ghost use Rattle.spm_tool.specs.declared.ending.FileEnding.TheVariants as file;

use spm_session::Outcome;
use spm_trust::Trust;
use spm_version::{Items, Kind, NoMemory, Text};

/// Why a file that a run begins with can't be used.
#[derive(Debug, Drop)]
pub enum FileEnding {
    /// There is no such file.
    Missing,
    /// The file isn't of its form: the place and the kind of its first fault.
    Unreadable(Text, Kind),
    /// The desk failed at the file.
    Fault,
    /// Want of memory.
    Memory,
}

impl From<NoMemory> for FileEnding {
    ghost from_gives = { λ _ ending. ending ≡ file.Memory };

    fn from(_e: NoMemory) -> FileEnding {
        FileEnding::Memory
    }
}

/// How the put of a file ended.
#[derive(Clone, Copy, Debug, PartialEq, Eq)]
pub enum PutEnding {
    /// There was nothing to put.
    Nothing,
    /// The file has the bytes.
    Done,
    /// The desk failed, so the file is unknown.
    Failed,
    /// Want of memory; the file is as it was.
    Memory,
}

/// What a root came to, before any put.
#[derive(Debug, Drop)]
pub struct RootRun {
    /// The SHA-256 of its manifest's bytes, where its files weren't refused.
    pub origin: Option<[u8; 32]>,
    pub outcome: Outcome,
}

/// How a run with accepted words ends.
#[derive(Debug, Drop)]
pub enum Ending {
    /// There is no shelf; no root was begun.
    Shelf(FileEnding),
    /// The fingerprints can't be read; no root was begun.
    Fingerprints(FileEnding),
    /// Each root came to an outcome: the roots in order, and how the puts of their files ended; the fingerprints with those that are gained, and
    /// how the put of their file ended.
    Roots {
        runs: Items<RootRun>,
        puts: Items<PutEnding>,
        gained: Option<Trust>,
        put: PutEnding,
    },
    /// Want of memory before all roots had come to an outcome; no file was put.
    Memory,
}

impl From<NoMemory> for Ending {
    ghost from_gives = { λ _ ending. ending ≡ run.Memory };

    fn from(_e: NoMemory) -> Ending {
        Ending::Memory
    }
}
