// The puts of a run: the fingerprint file, and then of each root its lock file or its derivation.
ghost use Rattle.std.specs.Prelude.{◌≡◌, [], is_some, length, map as map_list, option_map, string_bytes, true};
ghost use Rattle.std.specs.Result.{result_unwrap_or};
ghost use Rattle.pub_proof.specs.ProofText.{proof_text};
ghost use Rattle.spm_resolved.specs.Resolved.{resolved_text};
ghost use Rattle.spm_trust.specs.TrustText.{trust_text};
ghost use Rattle.spm_tool.specs.Words.{lock_name, proof_name};
ghost use Rattle.spm_tool.specs.declared.ending.PutEnding.TheVariants.{Memory};
ghost use Rattle.spm_tool.specs.Ending.{ArePuts};
ghost use Rattle.spm_tool.specs.Left.{FaultsLeft};
ghost use Rattle.spm_tool.specs.Puts.{
  IsPut,
  LeavesBy,
  PutsLeave,
  failed_name,
  failed_puts,
  fingerprints_put,
  lock_put,
  root_put,
  root_puts,
  with_put,
};

use crate::ending::{PutEnding, RootRun};
use crate::files::{lock_name, proof_name};
use pub_proof::Derivation;
use spm_ident::Identity;
use spm_outside::{Desk, DeskFault};
use spm_resolved::write;
use spm_session::Outcome;
use spm_trust::Trust;
use spm_version::{Items, NoMemory, Release};
use std::alloc::Global;

// Puts a file.
fn put_file<D: Desk>(name: &str, bytes: &[u8], desk: &mut D) -> PutEnding
    ensures is { IsPut true result }
    ensures files { LeavesBy result name.now bytes.now (D.state desk.old).files (D.state desk.new).files }
    ensures faults { FaultsLeft (failed_name result name.now []) (D.state desk.old) (D.state desk.new) }
{
    match desk.put(name, bytes) {
        Ok(()) => PutEnding::Done,
        Err(DeskFault::Failed) => PutEnding::Failed,
        Err(DeskFault::Memory) => PutEnding::Memory,
    }
}

// Puts the lock file of a root, from this origin.
fn put_pins<D: Desk>(
    alloc: Global,
    root: &str,
    origin: &[u8; 32],
    pins: &[(Identity, Release)],
    desk: &mut D,
) -> Result<PutEnding, NoMemory>
    ensures is { IsPut true (result_unwrap_or result Memory) }
    ensures files { LeavesBy (result_unwrap_or result Memory) (lock_name root.now) (resolved_text origin.now pins.now)
        (D.state desk.old).files (D.state desk.new).files }
    ensures faults { FaultsLeft (failed_name (result_unwrap_or result Memory) (lock_name root.now) []) (D.state desk.old) (D.state desk.new) }
{
    let name = lock_name(alloc, root)?;
    let text = write(alloc, origin, pins)?;
    Ok(put_file(name.as_str(), text.as_slice(), desk))
}

// Puts the derivation of a root.
fn put_proof<D: Desk>(
    alloc: Global,
    root: &str,
    derivation: &Derivation,
    desk: &mut D,
) -> Result<PutEnding, NoMemory>
    ensures is { IsPut true (result_unwrap_or result Memory) }
    ensures files { LeavesBy (result_unwrap_or result Memory) (proof_name root.now) (proof_text derivation.now)
        (D.state desk.old).files (D.state desk.new).files }
    ensures faults { FaultsLeft (failed_name (result_unwrap_or result Memory) (proof_name root.now) []) (D.state desk.old) (D.state desk.new) }
{
    let name = proof_name(alloc, root)?;
    let text = derivation.text(alloc)?;
    Ok(put_file(name.as_str(), text.as_slice(), desk))
}

// Puts the lock file of a root that was resolved, where its manifest has an origin.
fn put_lock<D: Desk>(
    alloc: Global,
    root: &str,
    origin: &Option<[u8; 32]>,
    pins: &[(Identity, Release)],
    desk: &mut D,
) -> PutEnding
    ensures is { IsPut (is_some (lock_put root.now origin.now pins.now result)) result }
    ensures files { PutsLeave (with_put (lock_put root.now origin.now pins.now result) []) (D.state desk.old).files (D.state desk.new).files }
    ensures faults { FaultsLeft (failed_puts (with_put (lock_put root.now origin.now pins.now result) [])) (D.state desk.old) (D.state desk.new) }
{
    match origin {
        Some(origin) => put_pins(alloc, root, origin, pins, desk).unwrap_or(PutEnding::Memory),
        None => PutEnding::Nothing,
    }
}

// Puts the file of a root, where it has one.
fn put_root<D: Desk>(
    alloc: Global,
    proofs: bool,
    root: &str,
    run: &RootRun,
    desk: &mut D,
) -> PutEnding
    ensures is { IsPut (is_some (root_put proofs root.now run.now result)) result }
    ensures files { PutsLeave (with_put (root_put proofs root.now run.now result) []) (D.state desk.old).files (D.state desk.new).files }
    ensures faults { FaultsLeft (failed_puts (with_put (root_put proofs root.now run.now result) [])) (D.state desk.old) (D.state desk.new) }
{
    match &run.outcome {
        Outcome::Resolved { pins, .. } => put_lock(alloc, root, &run.origin, pins.as_slice(), desk),
        Outcome::Refuted { derivation, .. } if proofs => {
            put_proof(alloc, root, derivation, desk).unwrap_or(PutEnding::Memory)
        }
        _ => PutEnding::Nothing,
    }
}

// Puts the files of the roots, one after the other. There is a place for how each put ends, and each says that there was nothing to put.
fn put_roots<D: Desk>(
    alloc: Global,
    proofs: bool,
    roots: &[String],
    runs: &[RootRun],
    puts: &mut [PutEnding],
    desk: &mut D,
)
    requires { (length runs.now ≡ length roots.now) × (length puts.old ≡ length roots.now) }
    ensures is { ArePuts proofs (map_list string_bytes roots.now) runs.now puts.new }
    ensures files { PutsLeave (root_puts proofs (map_list string_bytes roots.now) runs.now puts.new)
        (D.state desk.old).files (D.state desk.new).files }
    ensures faults { FaultsLeft (failed_puts (root_puts proofs (map_list string_bytes roots.now) runs.now puts.new))
        (D.state desk.old) (D.state desk.new) }
{
    for (place, run) in runs.iter().enumerate() {
        puts[place] = put_root(alloc, proofs, roots[place].as_str(), run, desk);
    }
}

/// Puts the files of the roots, one after the other, into places that say that there was nothing to put, and gives how each put ended.
pub fn put_all_roots<D: Desk>(
    alloc: Global,
    proofs: bool,
    roots: &[String],
    runs: &[RootRun],
    places: Vec<PutEnding>,
    desk: &mut D,
) -> Items<PutEnding>
    requires { (length runs.now ≡ length roots.now) × (length places.items ≡ length roots.now) }
    ensures each { length result ≡ length roots.now }
    ensures is { ArePuts proofs (map_list string_bytes roots.now) runs.now result }
    ensures files { PutsLeave (root_puts proofs (map_list string_bytes roots.now) runs.now result) (D.state desk.old).files (D.state desk.new).files }
    ensures faults { FaultsLeft (failed_puts (root_puts proofs (map_list string_bytes roots.now) runs.now result))
        (D.state desk.old) (D.state desk.new) }
{
    let mut puts = places;
    put_roots(alloc, proofs, roots, runs, puts.as_mut_slice(), desk);
    Items::from_vec(puts)
}

// Puts fingerprints into their file.
fn put_trust<D: Desk>(
    alloc: Global,
    file: &str,
    gained: &Trust,
    desk: &mut D,
) -> Result<PutEnding, NoMemory>
    ensures is { IsPut true (result_unwrap_or result Memory) }
    ensures files { LeavesBy (result_unwrap_or result Memory) file.now (trust_text gained.now) (D.state desk.old).files (D.state desk.new).files }
    ensures faults { FaultsLeft (failed_name (result_unwrap_or result Memory) file.now []) (D.state desk.old) (D.state desk.new) }
{
    let text = gained.text(alloc)?;
    Ok(put_file(file, text.as_slice(), desk))
}

/// Puts the fingerprint file, where one is named and gains some.
pub fn put_fingerprints<D: Desk>(
    alloc: Global,
    file: Option<&str>,
    gained: &Option<Trust>,
    desk: &mut D,
) -> PutEnding
    ensures is { IsPut (is_some (fingerprints_put (option_map (λ name. name.now) file.entry) gained.now result)) result }
    ensures files { PutsLeave (with_put (fingerprints_put (option_map (λ name. name.now) file.entry) gained.now result) [])
        (D.state desk.old).files (D.state desk.new).files }
    ensures faults { FaultsLeft (failed_puts (with_put (fingerprints_put (option_map (λ name. name.now) file.entry) gained.now result) []))
        (D.state desk.old) (D.state desk.new) }
{
    match (file, gained) {
        (Some(file), Some(gained)) => {
            put_trust(alloc, file, gained, desk).unwrap_or(PutEnding::Memory)
        }
        _ => PutEnding::Nothing,
    }
}
