ghost use Rattle.std.specs.Str.{bytes_eq};
ghost use Rattle.std.specs.Prelude.{◌≡◌, ◌||◌, ℕ, List, IfOk};
ghost use Rattle.serde_json.specs.View.{view};
ghost use Rattle.spm_json.specs.Names.{has_name};
ghost use Rattle.spm_json.specs.Reading.{Gives};
ghost use Rattle.spm_trust.specs.File.{file_reading, fingerprint_member, fingerprints_reading, sum_reading};
ghost use Rattle.spm_trust.specs.NewPackage.{package_unless};
ghost use Rattle.spm_trust.specs.Trust.{AreSums};

use serde_json::Value;
use spm_digest::read_hex;
use spm_ident::Identity;
use spm_json::{
    FromJson, FromMember, Names, Object, ReadFault, expect_version, identity, members, release,
    text, within,
};
use spm_version::{Duplicate, Items, Kind, NoMemory, Release};
use std::alloc::Global;
use std::marker::Model;

/// The version of the format.
const FORMAT: u64 = 1;

/// The fingerprint of a version: the SHA-256 of its archive.
#[derive(Debug, Drop)]
pub struct KeptSum {
    pub release: Release,
    pub sum: [u8; 32],
}

impl KeptSum {
    /// A copy.
    ///
    /// # Errors
    ///
    /// `NoMemory` alone.
    pub fn copy(&self, alloc: Global) -> Result<KeptSum, NoMemory>
        ensures { IfOk result (λ copy. copy ≡ self.now) }
    {
        Ok(KeptSum {
            release: self.release.copy(alloc)?,
            sum: self.sum,
        })
    }
}

impl Duplicate for KeptSum {
    fn duplicate(&self, alloc: Global) -> Result<KeptSum, NoMemory> {
        self.copy(alloc)
    }
}

impl FromMember for KeptSum {
    ghost reading = { fingerprint_member };

    fn from_member(
        alloc: Global,
        earlier: &[KeptSum],
        key: &str,
        value: &Value,
    ) -> Result<KeptSum, ReadFault> {
        let release = release(alloc, key)?;
        let sum = sum(alloc, value)?;
        Ok(KeptSum { release, sum })
    }
}

// The sum that an item is.
fn sum(alloc: Global, value: &Value) -> Result<[u8; 32], ReadFault>
    ensures { Gives result (sum_reading (view value.now)) }
{
    let digits = text(alloc, value)?;
    match read_hex(digits) {
        Some(sum) => Ok(sum),
        None => Err(ReadFault::here(alloc, Kind::BadHex)),
    }
}

/// A package with the fingerprints of its versions, in the byte order of their texts.
#[derive(Debug, Drop)]
pub struct KeptPackage {
    pub identity: Identity,
    pub sums: Items<KeptSum>,
}

impl KeptPackage {
    /// A copy.
    ///
    /// # Errors
    ///
    /// `NoMemory` alone.
    pub fn copy(&self, alloc: Global) -> Result<KeptPackage, NoMemory>
        ensures { IfOk result (λ copy. copy ≡ self.now) }
    {
        Ok(KeptPackage {
            identity: self.identity.copy(alloc)?,
            sums: self.sums.copy(alloc)?,
        })
    }
}

/// A file that was read, in its own order. Contracts see it as its packages, of which each has its sums in the order of their versions.
#[derive(Drop)]
pub struct TrustFile {
    pub packages: Items<KeptPackage>,
}

impl Model for TrustFile {
    ghost use Rattle.std.specs.Prelude.{All, List};
    ghost use Rattle.spm_trust.specs.Trust.{AreSums};
    ghost use Rattle.spm_trust.specs.declared.file.KeptPackage.{KeptPackage};

    ghost Value = { List KeptPackage };

    ghost view = { λ file. file.packages };

    ghost invariant = { λ file. All (λ entry. AreSums entry.sums) file.packages };
}

impl FromJson for TrustFile {
    ghost reading = { file_reading };

    fn from_json(alloc: Global, value: &Value) -> Result<TrustFile, ReadFault> {
        let object = Object::of(alloc, value)?;
        expect_version(alloc, &object, FORMAT)?;
        match object.get("fingerprints") {
            Some(value) => within(alloc, "fingerprints", fingerprints(alloc, value)),
            None => Err(ReadFault::of_member(alloc, Kind::Missing, "fingerprints")),
        }
    }
}

// The object `fingerprints`. Each identity is looked up in the set of those before it.
fn fingerprints(alloc: Global, value: &Value) -> Result<TrustFile, ReadFault>
    ensures { Gives result (fingerprints_reading (view value.now)) }
{
    let Some(object) = value.as_object() else {
        return Err(ReadFault::here(alloc, Kind::WrongKind));
    };
    let mut met = Names::new(alloc);
    let mut packages = Vec::new(alloc);
    for (key, sums) in object {
        match new_package(alloc, &mut met, key.as_str(), sums) {
            Ok(entry) => packages.push(entry)?,
            Err(fault) => return Err(fault.under_foreign_key(alloc)),
        }
    }
    Ok(TrustFile {
        packages: Items::from_vec(packages),
    })
}

// A package whose identity wasn't met before, and is met now.
fn new_package(
    alloc: Global,
    met: &mut Names,
    key: &str,
    value: &Value,
) -> Result<KeptPackage, ReadFault>
    ensures entry { Gives result (package_unless (has_name met.old) key.now (view value.now)) }
    ensures met { IfOk result (λ entry. (other : List ℕ)
        → has_name met.new other ≡ (bytes_eq entry.identity other || has_name met.old other)) }
    ensures sums { IfOk result (λ entry. AreSums entry.sums) }
{
    let identity = identity(alloc, key)?;
    if !met.insert(alloc, identity.text())? {
        return Err(ReadFault::here(alloc, Kind::Doubled));
    }
    let sums = members(alloc, value)?;
    Ok(KeptPackage { identity, sums })
}
