ghost use Rattle.std.specs.Prelude.{◌≡◌, Err, None, ⊤};
ghost use Rattle.spm_outside.specs.Faults.{FaultsAfter};

use crate::desk::{Desk, DeskFault};
use spm_version::Bytes;
use std::alloc::Global;
use std::fs::OpenFile;
use std::io::{ErrorKind, Read, Write};
use std::rt::Files;
use std::{fs, io};

/// The files of the system. A name is a path from the current folder. It tells nothing.
///
/// A get finds no file exactly where the system says that there is none. A put writes a new file beside the
/// old one, `.partial` behind its name, and renames it, so that no reader sees half a file.
#[derive(Drop)]
pub struct FolderDesk<R> {
    runtime: R,
    alloc: Global,
    faults: u64,
}

impl<R: Files> FolderDesk<R> {
    /// The desk of the files that the runtime reaches.
    pub fn new(alloc: Global, runtime: R) -> FolderDesk<R>
        ensures { (⟦<FolderDesk<R> as Desk>⟧.state result).faults ≡ 0 }
    {
        FolderDesk {
            runtime,
            alloc,
            faults: 0,
        }
    }

    fn read(&self, name: &str) -> io::Result<Bytes> {
        let mut content = Vec::new(self.alloc);
        fs::open(&self.runtime, name)?.read_to_end(&mut content)?;
        Ok(Bytes::from_vec(content))
    }

    fn write(&self, name: &str, bytes: &[u8]) -> io::Result<()> {
        let mut file = fs::create(&self.runtime, name)?;
        file.write_all(bytes)?;
        file.sync_all()
    }

    // Writes the bytes to a new file and renames it. Where that fails, the new file is removed if it can be.
    fn replace(&self, name: &str, bytes: &[u8]) -> io::Result<()> {
        let partial = format!(in self.alloc; "{name}.partial")?;
        let partial = partial.as_str();
        let replaced = match self.write(partial, bytes) {
            Ok(()) => fs::rename(&self.runtime, partial, name),
            Err(e) => Err(e),
        };
        if replaced.is_err() {
            let _ = fs::remove_file(&self.runtime, partial);
        }
        replaced
    }

    // What the system's error is here. It counts a fault unless memory is wanting.
    fn fault_of(&mut self, e: io::Error) -> DeskFault
        ensures { FaultsAfter {T = ⊤} (Err result) self.old.faults self.new.faults }
    {
        match e.kind() {
            ErrorKind::OutOfMemory => DeskFault::Memory,
            _ => {
                self.faults = self.faults.saturating_add(1);
                DeskFault::Failed
            }
        }
    }
}

impl<R: Files> Desk for FolderDesk<R> {
    ghost state = { λ desk. record { files = None; failed = None; faults = desk.faults } };

    fn get(&mut self, name: &str) -> Result<Option<Bytes>, DeskFault> {
        match self.read(name) {
            Ok(bytes) => Ok(Some(bytes)),
            Err(e) if e.kind() == ErrorKind::NotFound => Ok(None),
            Err(e) => Err(self.fault_of(e)),
        }
    }

    fn put(&mut self, name: &str, bytes: &[u8]) -> Result<(), DeskFault> {
        match self.replace(name, bytes) {
            Ok(()) => Ok(()),
            Err(e) => Err(self.fault_of(e)),
        }
    }
}
