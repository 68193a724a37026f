// The fingerprints that a run gains.
ghost use Rattle.std.specs.Prelude.{◌≡◌, IfOk, OnOk, option_map};
ghost use Rattle.std.specs.List.{zip};
ghost use Rattle.spm_tool.specs.Ending.{
  gained_in,
  gains,
  kept_with,
  kept_with_all,
  sums_in,
  sums_of,
};

use crate::ending::RootRun;
use spm_ident::Identity;
use spm_session::Outcome;
use spm_trust::Trust;
use spm_version::{NoMemory, Release};
use std::alloc::Global;

// Keeps the sum of a pin's archive, where none is kept for it.
fn keep(trust: &mut Trust, pin: &(Identity, Release), sum: &[u8; 32]) -> Result<(), NoMemory>
    ensures { OnOk result (trust.new ≡ kept_with trust.old (pin.now, sum.now)) }
{
    let (identity, release) = pin;
    if trust.look(identity, release).is_some() {
        return Ok(());
    }
    trust.add(identity, release, *sum)
}

// Keeps the sums of pins.
fn keep_pins(
    trust: &mut Trust,
    pins: &[(Identity, Release)],
    sums: &[[u8; 32]],
) -> Result<(), NoMemory>
    ensures { OnOk result (trust.new ≡ kept_with_all trust.old (zip pins.now sums.now)) }
{
    for (pin, sum) in pins.iter().zip(sums) {
        keep(trust, pin, sum)?;
    }
    Ok(())
}

// Keeps the sums of a root, where it was resolved.
fn keep_outcome(trust: &mut Trust, outcome: &Outcome) -> Result<(), NoMemory>
    ensures { OnOk result (trust.new ≡ kept_with_all trust.old (sums_of outcome.now)) }
{
    match outcome {
        Outcome::Resolved {
            pins,
            checksums,
            ..
        } => keep_pins(trust, pins.as_slice(), checksums.as_slice()),
        _ => Ok(()),
    }
}

// Keeps the sums of the roots that were resolved.
fn keep_runs(trust: &mut Trust, runs: &[RootRun]) -> Result<(), NoMemory>
    ensures { OnOk result (trust.new ≡ kept_with_all trust.old (sums_in runs.now)) }
{
    for run in runs {
        keep_outcome(trust, &run.outcome)?;
    }
    Ok(())
}

// Whether one of these pins has no sum yet.
fn gains_pins(trust: &Trust, pins: &[(Identity, Release)], sums: &[[u8; 32]]) -> bool
    ensures { result ≡ gains trust.now (zip pins.now sums.now) }
{
    pins.iter().zip(sums).any(|((identity, release), _)| trust.look(identity, release).is_none())
}

// Whether a root gains a fingerprint.
fn gains_by(trust: &Trust, outcome: &Outcome) -> bool
    ensures { result ≡ gains trust.now (sums_of outcome.now) }
{
    match outcome {
        Outcome::Resolved {
            pins,
            checksums,
            ..
        } => gains_pins(trust, pins.as_slice(), checksums.as_slice()),
        _ => false,
    }
}

// Whether the roots gain a fingerprint.
fn gains_any(trust: &Trust, runs: &[RootRun]) -> bool
    ensures { result ≡ gains trust.now (sums_in runs.now) }
{
    runs.iter().any(|run| gains_by(trust, &run.outcome))
}

/// The fingerprints with those that the roots gain; none where they gain none, or no file is named.
///
/// # Errors
///
/// `NoMemory` alone.
pub fn gained(
    alloc: Global,
    file: Option<&str>,
    trust: &Trust,
    runs: &[RootRun],
) -> Result<Option<Trust>, NoMemory>
    ensures { IfOk result (λ gained. gained ≡ gained_in (option_map (λ name. name.now) file.entry) trust.now (sums_in runs.now)) }
{
    if file.is_none() || !gains_any(trust, runs) {
        return Ok(None);
    }
    let mut gained = trust.copy(alloc)?;
    keep_runs(&mut gained, runs)?;
    Ok(Some(gained))
}
