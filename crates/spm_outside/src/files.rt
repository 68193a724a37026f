ghost use Rattle.std.specs.Prelude.{◌≡◌, OnErr, OnOk, option_copied};
ghost use Rattle.std.specs.FinMap as map;

use spm_version::{Bytes, NoMemory};
use std::alloc::Global;
use std::collections::BTreeMap;
use std::marker::Model;

/// Files in memory. Contracts see the map from their names to their bytes.
#[derive(Drop)]
pub(crate) struct Files {
    by_name: BTreeMap<String, Bytes>,
}

impl Model for Files {
    ghost use Rattle.std.specs.Coded.{coded_list, coded_ℕ};
    ghost use Rattle.std.specs.FinMap as map;
    ghost use Rattle.spm_outside.specs.Names.{FileMap};

    ghost Value = { FileMap };

    ghost coded = { map.code (coded_list coded_ℕ) (coded_list coded_ℕ) };

    ghost use Rattle.spm_outside.specs.Files.{files_of};

    ghost view = { λ files. files_of files.by_name.entries };
}

impl Files {
    // No files.
    pub(crate) fn new(alloc: Global) -> Files
        ensures { result ≡ map.empty }
    {
        Files {
            by_name: BTreeMap::new(alloc),
        }
    }

    // The file with this name, if there is one.
    pub(crate) fn get(&self, name: &str) -> Option<&Bytes>
        ensures { option_copied result ≡ map.get self.now name.now }
    {
        self.by_name.get(name)
    }

    // Makes the bytes the file with this name.
    pub(crate) fn set(&mut self, alloc: Global, name: &str, bytes: &[u8]) -> Result<(), NoMemory>
        ensures ok { OnOk result (self.new ≡ map.insert self.old name.now bytes.now) }
        ensures err { OnErr result (self.new ≡ self.old) }
    {
        let name = String::from_str(alloc, name)?;
        let bytes = Bytes::from_slice(alloc, bytes)?;
        self.by_name.insert(name, bytes)?;
        Ok(())
    }
}
