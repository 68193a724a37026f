ghost use Rattle.std.specs.Prelude.{◌≡◌, IfOk, IfSome, string_bytes};
ghost use Rattle.std.specs.FinMap as map;
ghost use Rattle.pub_proof.specs.File.{derivation_in};
ghost use Rattle.spm_tool.specs.Check.{
  IsCheck,
  IsVerdict,
  check_in,
  check_read,
  check_report,
  check_status,
  faulty_check,
  verdict,
};
ghost use Rattle.spm_tool.specs.Left.{FaultsLeft};

use crate::ending::FileEnding;
use crate::files::get_file;
use crate::report::file_report;
use crate::status::file_status;
use pub_proof::{Derivation, ProofFault, ProofFileFault, ProofKind, check};
use spm_outside::Desk;
use spm_version::{Bytes, NoMemory};
use std::alloc::Global;

/// How the check of a derivation's file ends.
#[derive(Debug, Drop)]
pub enum CheckEnding {
    /// There is no derivation to check.
    File(FileEnding),
    /// The derivation holds, with so many lines.
    Holds(usize),
    /// The derivation fails: the first bad line, and what is wrong with it.
    Fails(u64, ProofKind),
}

// Checks a derivation by its own facts.
fn check_derivation(alloc: Global, derivation: &Derivation) -> CheckEnding
    ensures { IsVerdict (verdict derivation.now) result }
{
    let Ok(facts) = derivation.facts(alloc) else {
        return CheckEnding::File(FileEnding::Memory);
    };
    match check(alloc, derivation, facts.as_slice()) {
        Ok(_) => CheckEnding::Holds(derivation.lines.as_slice().len()),
        Err(ProofFault::At { line, kind }) => CheckEnding::Fails(line, kind),
        Err(ProofFault::Memory) => CheckEnding::File(FileEnding::Memory),
    }
}

// Checks the derivation that the bytes of a file say.
fn check_bytes(alloc: Global, bytes: &[u8]) -> CheckEnding
    ensures { IsVerdict (check_read (derivation_in bytes.now)) result }
{
    match Derivation::read(alloc, bytes) {
        Ok(derivation) => check_derivation(alloc, &derivation),
        Err(ProofFileFault::At { place, kind }) => {
            CheckEnding::File(FileEnding::Unreadable(place, kind))
        }
        Err(ProofFileFault::Memory) => CheckEnding::File(FileEnding::Memory),
    }
}

// Checks the derivation in a file of the desk.
pub fn check_file<D: Desk>(alloc: Global, file: &str, desk: &mut D) -> CheckEnding
    ensures told { IfSome (D.state desk.old).files (λ files. IsCheck (check_in (map.get files file.now)) result) }
    ensures faults { FaultsLeft (faulty_check file.now result)
        (D.state desk.old) (D.state desk.new) }
    ensures files { (D.state desk.new).files ≡ (D.state desk.old).files }
{
    match get_file(file, desk) {
        Ok(Some(bytes)) => check_bytes(alloc, bytes.as_slice()),
        Ok(None) => CheckEnding::File(FileEnding::Missing),
        Err(why) => CheckEnding::File(why),
    }
}

// The line on a check.
fn check_line(alloc: Global, file: &str, ending: &CheckEnding) -> Result<String, NoMemory>
    ensures { IfOk result (λ text. string_bytes text ≡ check_report file.now ending.now) }
{
    match ending {
        CheckEnding::File(why) => file_report(alloc, file, why),
        CheckEnding::Holds(lines) => Ok(format!(in alloc; "proof holds, {lines} lines\n")?),
        CheckEnding::Fails(line, kind) => {
            Ok(format!(in alloc; "proof fails at line {line}: {kind}\n")?)
        }
    }
}

// The same in bytes.
pub fn check_report(alloc: Global, file: &str, ending: &CheckEnding) -> Result<Bytes, NoMemory>
    ensures { IfOk result (λ report. report ≡ check_report file.now ending.now) }
{
    let line = check_line(alloc, file, ending)?;
    Ok(Bytes::from_vec(line.into_bytes()))
}

// The status of a check.
pub fn check_status(ending: &CheckEnding) -> u8
    ensures { result ≡ check_status ending.now }
{
    match ending {
        CheckEnding::File(why) => file_status(why),
        CheckEnding::Holds(_) => 0,
        CheckEnding::Fails(_, _) => 1,
    }
}
