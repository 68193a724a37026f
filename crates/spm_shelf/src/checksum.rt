ghost use Rattle.spm_shelf.specs.File.{checksum_reading};

use serde_json::Value;
use spm_digest::read_hex;
use spm_json::{FromJson, ReadFault, text};
use spm_version::Kind;
use std::alloc::Global;

/// An archive's SHA-256, read from 64 hexadecimal digits.
#[derive(Clone, Copy, Debug)]
pub struct Checksum {
    pub sum: [u8; 32],
}

impl FromJson for Checksum {
    ghost reading = { checksum_reading };

    fn from_json(alloc: Global, value: &Value) -> Result<Checksum, ReadFault> {
        let digits = text(alloc, value)?;
        match read_hex(digits) {
            Some(sum) => Ok(Checksum { sum }),
            None => Err(ReadFault::here(alloc, Kind::BadHex)),
        }
    }
}
