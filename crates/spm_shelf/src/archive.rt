ghost use Rattle.std.specs.Prelude.{◌≡◌, IfOk};
ghost use Rattle.spm_digest.specs.Digest.{sha256};
ghost use Rattle.spm_shelf.specs.File.{archive_reading};

use serde_json::Value;
use spm_digest::sum;
use spm_json::{FromJson, ReadFault, text};
use spm_version::{Bytes, Duplicate, Kind, NoMemory};
use std::alloc::Global;
use std::marker::Model;

/// An archive: its bytes, and their SHA-256, which is worked out once. Contracts see the bytes.
#[derive(Debug, Drop)]
pub struct Archive {
    bytes: Bytes,
    sum: [u8; 32],
}

impl Model for Archive {
    ghost use Rattle.std.specs.Prelude.{◌≡◌, ℕ, List};
    ghost use Rattle.spm_digest.specs.Digest.{sha256};

    ghost Value = { List ℕ };

    ghost view = { λ archive. archive.bytes };

    ghost invariant = { λ archive. archive.sum ≡ sha256 archive.bytes };
}

impl Archive {
    /// The archive of these bytes. It takes no memory.
    pub fn new(bytes: Bytes) -> Archive
        ensures { result ≡ bytes }
    {
        let sum = sum(bytes.as_slice());
        Archive { bytes, sum }
    }

    /// Its bytes, lent.
    pub fn bytes(&self) -> &[u8]
        ensures { result.now ≡ self.now }
    {
        self.bytes.as_slice()
    }

    /// The SHA-256 of its bytes.
    pub fn sum(&self) -> &[u8; 32]
        ensures { result.now ≡ sha256 self.now }
    {
        &self.sum
    }

    /// A copy of the archive, with its sum.
    ///
    /// # Errors
    ///
    /// `NoMemory` alone.
    pub fn copy(&self, alloc: Global) -> Result<Archive, NoMemory>
        ensures { IfOk result (λ copy. copy ≡ self.now) }
    {
        Ok(Archive {
            bytes: self.bytes.copy(alloc)?,
            sum: self.sum,
        })
    }
}

impl Duplicate for Archive {
    fn duplicate(&self, alloc: Global) -> Result<Archive, NoMemory> {
        self.copy(alloc)
    }
}

impl FromJson for Archive {
    ghost reading = { archive_reading };

    fn from_json(alloc: Global, value: &Value) -> Result<Archive, ReadFault> {
        let digits = text(alloc, value)?;
        match hex::decode(alloc, digits) {
            Ok(bytes) => Ok(Archive::new(Bytes::from_vec(bytes))),
            Err(hex::FromHexError::OutOfMemory) => Err(ReadFault::Memory),
            Err(_) => Err(ReadFault::here(alloc, Kind::BadHex)),
        }
    }
}
