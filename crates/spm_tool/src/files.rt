// The files that a run begins with: the shelf, the fingerprints, and a root's manifest and lock file.
ghost use Rattle.std.specs.Prelude.{◌≡◌, IfErr, IfOk, IfSome, Ok, option_map, string_bytes};
ghost use Rattle.std.specs.FinMap as map;
ghost use Rattle.spm_manifest.specs.Profile.{manifest_of};
ghost use Rattle.spm_resolved.specs.Reading.{resolved_of};
ghost use Rattle.spm_session.specs.Outcome.{IsOfFiles};
ghost use Rattle.spm_tool.specs.Files.{
  IsOfDesk,
  ReadsAnyTrust,
  ReadsFingerprints,
  ReadsShelf,
  ReadsShelfBytes,
  ReadsTrustBytes,
  ReadsTrustFile,
  locked_in,
  manifest_in,
  read_pins,
  ready_manifest,
};
ghost use Rattle.spm_tool.specs.Left.{FaultsLeft, faulty_in, faulty_in_file, named};
ghost use Rattle.spm_tool.specs.Steps.{Computes, Steps};
ghost use Rattle.spm_tool.specs.Words.{lock_name, manifest_name, proof_name};

use crate::ending::FileEnding;
use spm_ident::Identity;
use spm_manifest::{Manifest, ManifestFault};
use spm_outside::{Desk, DeskFault};
use spm_resolved::{Resolved, ResolvedFault};
use spm_session::Outcome;
use spm_shelf::{Shelf, ShelfFault};
use spm_trust::{Trust, TrustFault};
use spm_version::{Bytes, Items, NoMemory, Release, Text, ToolsVersion};
use std::alloc::Global;

// The name of a root's manifest.
pub fn manifest_name(alloc: Global, root: &str) -> Result<String, NoMemory>
    ensures { IfOk result (λ name. string_bytes name ≡ manifest_name root.now) }
{
    format!(in alloc; "{root}/Package.json")
}

// The name of a root's lock file.
pub fn lock_name(alloc: Global, root: &str) -> Result<String, NoMemory>
    ensures { IfOk result (λ name. string_bytes name ≡ lock_name root.now) }
{
    format!(in alloc; "{root}/Package.resolved")
}

// The name of the file with a root's derivation.
pub fn proof_name(alloc: Global, root: &str) -> Result<String, NoMemory>
    ensures { IfOk result (λ name. string_bytes name ≡ proof_name root.now) }
{
    format!(in alloc; "{root}/Package.proof")
}

/// Gets a file that a run begins with.
pub fn get_file<D: Desk>(name: &str, desk: &mut D) -> Result<Option<Bytes>, FileEnding>
    ensures told { IfSome (D.state desk.old).files (λ files. IfOk result (λ found. found ≡ map.get files name.now)) }
    ensures err { IfErr result (λ why. IsOfDesk why) }
    ensures faults { FaultsLeft (faulty_in_file name.now result) (D.state desk.old) (D.state desk.new) }
    ensures files { (D.state desk.new).files ≡ (D.state desk.old).files }
{
    match desk.get(name) {
        Ok(found) => Ok(found),
        Err(DeskFault::Failed) => Err(FileEnding::Fault),
        Err(DeskFault::Memory) => Err(FileEnding::Memory),
    }
}

// Reads the bytes of a shelf's file.
fn read_shelf(alloc: Global, bytes: &[u8]) -> Result<Shelf, FileEnding>
    ensures { ReadsShelfBytes bytes.now result }
{
    match Shelf::read(alloc, bytes) {
        Ok(shelf) => Ok(shelf),
        Err(ShelfFault::At { place, kind }) => Err(FileEnding::Unreadable(place, kind)),
        Err(ShelfFault::Memory) => Err(FileEnding::Memory),
    }
}

/// Gets the shelf.
pub fn get_shelf<D: Desk>(alloc: Global, name: &str, desk: &mut D) -> Result<Shelf, FileEnding>
    ensures told { IfSome (D.state desk.old).files (λ files. ReadsShelf (map.get files name.now) result) }
    ensures faults { FaultsLeft (faulty_in_file name.now result) (D.state desk.old) (D.state desk.new) }
    ensures files { (D.state desk.new).files ≡ (D.state desk.old).files }
{
    match get_file(name, desk)? {
        Some(bytes) => read_shelf(alloc, bytes.as_slice()),
        None => Err(FileEnding::Missing),
    }
}

// Reads the bytes of a fingerprint file.
fn read_trust(alloc: Global, bytes: &[u8]) -> Result<Trust, FileEnding>
    ensures { ReadsTrustBytes bytes.now result }
{
    match Trust::read(alloc, bytes) {
        Ok(trust) => Ok(trust),
        Err(TrustFault::At { place, kind }) => Err(FileEnding::Unreadable(place, kind)),
        Err(TrustFault::Memory) => Err(FileEnding::Memory),
    }
}

/// Gets the fingerprints of a file that has to be there.
pub fn get_trust<D: Desk>(alloc: Global, name: &str, desk: &mut D) -> Result<Trust, FileEnding>
    ensures told { IfSome (D.state desk.old).files (λ files. ReadsTrustFile (map.get files name.now) result) }
    ensures faults { FaultsLeft (faulty_in_file name.now result) (D.state desk.old) (D.state desk.new) }
    ensures files { (D.state desk.new).files ≡ (D.state desk.old).files }
{
    match get_file(name, desk)? {
        Some(bytes) => read_trust(alloc, bytes.as_slice()),
        None => Err(FileEnding::Missing),
    }
}

// Gets the fingerprints of a file that may be absent, which keeps none.
fn get_any_trust<D: Desk>(alloc: Global, name: &str, desk: &mut D) -> Result<Trust, FileEnding>
    ensures told { IfSome (D.state desk.old).files (λ files. ReadsAnyTrust (map.get files name.now) result) }
    ensures faults { FaultsLeft (faulty_in_file name.now result) (D.state desk.old) (D.state desk.new) }
    ensures files { (D.state desk.new).files ≡ (D.state desk.old).files }
{
    match get_file(name, desk)? {
        Some(bytes) => read_trust(alloc, bytes.as_slice()),
        None => Ok(Trust::empty(alloc)),
    }
}

/// Gets the fingerprints of the file that the words name; none where they name none.
pub fn get_fingerprints<D: Desk>(
    alloc: Global,
    name: Option<&str>,
    desk: &mut D,
) -> Result<Trust, FileEnding>
    ensures told { IfSome (D.state desk.old).files (λ files. ReadsFingerprints (option_map (λ file. file.now) name.entry) files result) }
    ensures faults { FaultsLeft (faulty_in_file (named (option_map (λ file. file.now) name.entry)) result) (D.state desk.old) (D.state desk.new) }
    ensures files { (D.state desk.new).files ≡ (D.state desk.old).files }
{
    match name {
        Some(name) => get_any_trust(alloc, name, desk),
        None => Ok(Trust::empty(alloc)),
    }
}

// Gets a file of a root.
fn get_of_root<D: Desk>(name: String, desk: &mut D) -> Result<Option<Bytes>, Outcome>
    ensures told { IfSome (D.state desk.old).files (λ files. Steps (string_bytes name) result (Ok (map.get files (string_bytes name)))) }
    ensures kind { IfErr result (λ it. IsOfFiles it) }
    ensures faults { FaultsLeft (faulty_in result) (D.state desk.old) (D.state desk.new) }
    ensures files { (D.state desk.new).files ≡ (D.state desk.old).files }
{
    match desk.get(name.as_str()) {
        Ok(found) => Ok(found),
        Err(DeskFault::Failed) => Err(Outcome::DeskFault(Text::from_string(name))),
        Err(DeskFault::Memory) => Err(Outcome::Memory),
    }
}

// Reads a root's manifest.
fn read_manifest(alloc: Global, running: ToolsVersion, bytes: &[u8]) -> Result<Manifest, Outcome>
    ensures computes { Computes result (ready_manifest running (manifest_of bytes.now)) }
    ensures kind { IfErr result (λ it. IsOfFiles it) }
{
    let manifest = match Manifest::read(alloc, bytes) {
        Ok(manifest) => manifest,
        Err(ManifestFault::At { place, kind }) => return Err(Outcome::RootUnreadable(place, kind)),
        Err(ManifestFault::Memory) => return Err(Outcome::Memory),
    };
    let needed = manifest.tools();
    if needed <= running {
        Ok(manifest)
    } else {
        Err(Outcome::RootTooNew(needed, running))
    }
}

/// Gets a root's manifest, with its bytes.
pub fn get_manifest<D: Desk>(
    alloc: Global,
    running: ToolsVersion,
    root: &str,
    desk: &mut D,
) -> Result<(Manifest, Bytes), Outcome>
    ensures told { IfSome (D.state desk.old).files
        (λ files. Steps (manifest_name root.now) result (manifest_in running (map.get files (manifest_name root.now)))) }
    ensures kind { IfErr result (λ it. IsOfFiles it) }
    ensures faults { FaultsLeft (faulty_in result) (D.state desk.old) (D.state desk.new) }
    ensures files { (D.state desk.new).files ≡ (D.state desk.old).files }
{
    let Some(bytes) = get_of_root(manifest_name(alloc, root)?, desk)? else {
        return Err(Outcome::RootMissing);
    };
    let manifest = read_manifest(alloc, running, bytes.as_slice())?;
    Ok((manifest, bytes))
}

// Reads the pins of a root's lock file.
fn read_lock(alloc: Global, bytes: &[u8]) -> Result<Items<(Identity, Release)>, Outcome>
    ensures computes { Computes result (read_pins (resolved_of bytes.now)) }
    ensures kind { IfErr result (λ it. IsOfFiles it) }
{
    match Resolved::read(alloc, bytes) {
        Ok(resolved) => Ok(resolved.pins),
        Err(ResolvedFault::At { place, kind }) => Err(Outcome::ResolvedUnreadable(place, kind)),
        Err(ResolvedFault::Memory) => Err(Outcome::Memory),
    }
}

/// Gets the pins of a root's lock file, if there is one.
pub fn get_lock<D: Desk>(
    alloc: Global,
    root: &str,
    desk: &mut D,
) -> Result<Option<Items<(Identity, Release)>>, Outcome>
    ensures told { IfSome (D.state desk.old).files
        (λ files. Steps (lock_name root.now) result (locked_in (map.get files (lock_name root.now)))) }
    ensures kind { IfErr result (λ it. IsOfFiles it) }
    ensures faults { FaultsLeft (faulty_in result) (D.state desk.old) (D.state desk.new) }
    ensures files { (D.state desk.new).files ≡ (D.state desk.old).files }
{
    match get_of_root(lock_name(alloc, root)?, desk)? {
        Some(bytes) => Ok(Some(read_lock(alloc, bytes.as_slice())?)),
        None => Ok(None),
    }
}
