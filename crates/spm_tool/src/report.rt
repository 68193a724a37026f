ghost use Rattle.std.specs.Prelude.{◌≡◌, ◌∷◌, ◌++◌, ℕ, All, List, Result, IfOk, OnOk, codes, length, map as map_list, option_map, string_bytes, ⊤};
ghost use Rattle.spm_digest.specs.Digest.{encode_lower};
ghost use Rattle.spm_key.specs.Key.{key_text};
ghost use Rattle.spm_outside.specs.declared.fault.CallFault.{CallFault};
ghost use Rattle.spm_session.specs.Outcome.{CanBeTold};
ghost use Rattle.spm_tool.specs.Report.{
  IsTellable,
  all_ended,
  answered_text,
  cancelled_line,
  checksum_text,
  counted,
  ended_by,
  fault_text,
  file_report,
  fingerprint_text,
  fingerprints_report,
  line_end,
  outcome_lines,
  outcome_status,
  outcome_text,
  pin_line,
  put_name,
  report_of,
  resolved_line,
  root_report,
  root_reports,
  roots_report,
  says_text,
  status_of,
  summary_of,
  summary_text,
  unreadable_text,
  wide_text,
  words_report,
};
ghost use Rattle.spm_tool.specs.Resolves.{Tells, Writes};
ghost use Rattle.spm_tool.specs.WordsView.{order_view};
ghost use Rattle.spm_tool.specs.declared.ending.RootRun.{RootRun};

use crate::ending::{Ending, FileEnding, PutEnding, RootRun};
use crate::files::{lock_name, proof_name};
use crate::status::{file_status, outcome_status, put_status, status_after, status_among};
use crate::words::Order;
use pub_trail::Wide;
use spm_digest::hex_of;
use spm_explain::explain;
use spm_ident::Identity;
use spm_key::Key;
use spm_outside::{Sink, put_all};
use spm_session::Outcome;
use spm_version::{Bytes, Items, Kind, NoMemory, Release, Text};
use std::alloc::Global;

/// What a line on an unreadable file says.
pub fn unreadable_text(alloc: Global, place: &Text, kind: Kind) -> Result<String, NoMemory>
    ensures { IfOk result (λ text. string_bytes text ≡ unreadable_text place.now kind) }
{
    format!(in alloc; "unreadable at {place}: {kind}")
}

// What a line on a fault of the desk says.
fn fault_text(alloc: Global, name: &str) -> Result<String, NoMemory>
    ensures { IfOk result (λ text. string_bytes text ≡ fault_text name.now) }
{
    format!(in alloc; "{name}: file fault")
}

// So many pins in so many turns.
fn resolved_line(alloc: Global, count: usize, turns: u64) -> Result<String, NoMemory>
    ensures { IfOk result (λ text. string_bytes text ≡ resolved_line count turns) }
{
    format!(in alloc; "resolved {count} in {turns} turns")
}

// Which limit is passed.
fn wide_text(alloc: Global, wide: &Wide) -> Result<String, NoMemory>
    ensures { IfOk result (λ text. string_bytes text ≡ wide_text wide.now) }
{
    match wide {
        Wide::Packages => Ok(String::from_str(alloc, "too wide: packages")?),
        Wide::Nodes => Ok(String::from_str(alloc, "too wide: nodes")?),
        Wide::Versions(identity) => Ok(format!(in alloc; "too wide: versions of {identity}")?),
    }
}

// What the registry says in place of an answer.
fn says_text(alloc: Global, status: u16, detail: &Option<Text>) -> Result<String, NoMemory>
    ensures { IfOk result (λ text. string_bytes text ≡ says_text status detail.now) }
{
    match detail {
        Some(detail) => Ok(format!(in alloc; "the registry says {status}: \"{detail}\"")?),
        None => Ok(format!(in alloc; "the registry says {status}")?),
    }
}

// A key and what is wrong with its reply.
fn key_line(alloc: Global, key: &Key, what: &str) -> Result<String, NoMemory>
    ensures { IfOk result (λ text. string_bytes text ≡ key_text key.now ++ (codes ": " ++ what.now)) }
{
    let key = key.text(alloc)?;
    format!(in alloc; "{key}: {what}")
}

// A key and what the registry says in place of an answer.
fn says_line(
    alloc: Global,
    key: &Key,
    status: u16,
    detail: &Option<Text>,
) -> Result<String, NoMemory>
    ensures { IfOk result (λ text. string_bytes text ≡ key_text key.now ++ (codes ": " ++ says_text status detail.now)) }
{
    let text = says_text(alloc, status, detail)?;
    key_line(alloc, key, text.as_str())
}

// A pin and what is wrong with its archive.
fn pin_line(
    alloc: Global,
    identity: &Identity,
    release: &Release,
    what: &str,
) -> Result<String, NoMemory>
    ensures { IfOk result (λ text. string_bytes text ≡ pin_line identity.now release.now what.now) }
{
    format!(in alloc; "{identity} {release}: {what}")
}

// Two sums that differ, each behind what it is.
fn sums_text(
    alloc: Global,
    first_name: &str,
    first: &[u8; 32],
    second_name: &str,
    second: &[u8; 32],
) -> Result<String, NoMemory>
    ensures { IfOk result (λ text. string_bytes text
        ≡ first_name.now ++ (encode_lower first.now ++ (second_name.now ++ encode_lower second.now))) }
{
    let first = hex_of(alloc, first)?;
    let second = hex_of(alloc, second)?;
    format!(in alloc; "{first_name}{first}{second_name}{second}")
}

// A pin, the checksum that is named of its archive, and the sum that was found.
fn checksum_line(
    alloc: Global,
    identity: &Identity,
    release: &Release,
    said: &[u8; 32],
    found: &[u8; 32],
) -> Result<String, NoMemory>
    ensures { IfOk result (λ text. string_bytes text ≡ pin_line identity.now release.now (checksum_text said.now found.now)) }
{
    let what = sums_text(alloc, "checksum ", said, ", found ", found)?;
    pin_line(alloc, identity, release, what.as_str())
}

// A pin, the fingerprint that is kept of its archive, and the checksum that the registry says.
fn fingerprint_line(
    alloc: Global,
    identity: &Identity,
    release: &Release,
    kept: &[u8; 32],
    said: &[u8; 32],
) -> Result<String, NoMemory>
    ensures { IfOk result (λ text. string_bytes text ≡ pin_line identity.now release.now (fingerprint_text kept.now said.now)) }
{
    let what = sums_text(alloc, "fingerprint ", kept, ", registry says ", said)?;
    pin_line(alloc, identity, release, what.as_str())
}

// The root that gave up, counted from 1.
fn cancelled_line(alloc: Global, by: u32) -> Result<String, NoMemory>
    ensures { IfOk result (λ text. string_bytes text ≡ cancelled_line by) }
{
    let number = u64::from(by) + 1;
    format!(in alloc; "cancelled by root {number}")
}

// What a root's line says of an unreadable file.
fn unreadable_file(alloc: Global, file: &str, place: &Text, kind: Kind) -> Result<String, NoMemory>
    ensures { IfOk result (λ text. string_bytes text ≡ file.now ++ (codes " is " ++ unreadable_text place.now kind)) }
{
    let text = unreadable_text(alloc, place, kind)?;
    format!(in alloc; "{file} is {text}")
}

// What a root's line says of an outcome.
pub fn outcome_text(alloc: Global, outcome: &Outcome) -> Result<String, NoMemory>
    ensures { IfOk result (λ text. string_bytes text ≡ outcome_text outcome.now) }
{
    match outcome {
        Outcome::Resolved { pins, turns, .. } => {
            resolved_line(alloc, pins.as_slice().len(), *turns)
        }
        Outcome::Refuted { turns, .. } => Ok(format!(in alloc; "no selection in {turns} turns")?),
        Outcome::RootMissing => Ok(String::from_str(alloc, "Package.json is missing")?),
        Outcome::RootUnreadable(place, kind) => unreadable_file(
            alloc,
            "Package.json",
            place,
            *kind,
        ),
        Outcome::RootTooNew(needed, running) => {
            Ok(format!(in alloc; "Package.json needs tools {needed}, running {running}")?)
        }
        Outcome::ResolvedUnreadable(place, kind) => {
            unreadable_file(alloc, "Package.resolved", place, *kind)
        }
        Outcome::TooWide(wide) => wide_text(alloc, wide),
        Outcome::RegistrySays(key, status, detail) => says_line(alloc, key, *status, detail),
        Outcome::Garbled(key) => key_line(alloc, key, "garbled response"),
        Outcome::TooLong(key) => key_line(alloc, key, "response too long"),
        Outcome::ListUnreadable(key) => key_line(alloc, key, "unreadable list"),
        Outcome::ReleaseUnreadable(key) => key_line(alloc, key, "unreadable release"),
        Outcome::NoArchive(identity, release) => pin_line(
            alloc,
            identity,
            release,
            "no source archive",
        ),
        Outcome::ChecksumDiffers(identity, release, said, found) => {
            checksum_line(alloc, identity, release, said, found)
        }
        Outcome::TrustDiffers(identity, release, kept, said) => {
            fingerprint_line(alloc, identity, release, kept, said)
        }
        Outcome::FetchFault(key) => key_line(alloc, key, "fetch failed"),
        Outcome::DeskFault(name) => fault_text(alloc, name.as_str()),
        Outcome::Cancelled(by) => cancelled_line(alloc, *by),
        Outcome::Memory => Ok(String::from_str(alloc, "no memory")?),
    }
}

// The lines behind the root's: the derivation of a refutation.
fn outcome_lines(alloc: Global, outcome: &Outcome) -> Result<Bytes, NoMemory>
    requires { CanBeTold outcome.now }
    ensures { IfOk result (λ lines. lines ≡ outcome_lines outcome.now) }
{
    match outcome {
        Outcome::Refuted {
            derivation,
            choices,
            ..
        } => explain(alloc, derivation, choices.as_slice()),
        _ => Ok(Bytes::from_vec(Vec::new(alloc))),
    }
}

// The name of the file that is put for a root with this outcome.
fn put_name(alloc: Global, root: &str, outcome: &Outcome) -> Result<String, NoMemory>
    ensures { IfOk result (λ name. string_bytes name ≡ put_name root.now outcome.now) }
{
    match outcome {
        Outcome::Refuted { .. } => proof_name(alloc, root),
        _ => lock_name(alloc, root),
    }
}

// One line on a root.
fn root_line(alloc: Global, root: &str, text: &str) -> Result<Bytes, NoMemory>
    ensures { IfOk result (λ line. line ≡ root.now ++ (codes ": " ++ (text.now ++ line_end))) }
{
    let line = format!(in alloc; "{root}: {text}\n")?;
    Ok(Bytes::from_vec(line.into_bytes()))
}

// The lines on a root with this outcome.
fn root_report(alloc: Global, root: &str, outcome: &Outcome) -> Result<Bytes, NoMemory>
    requires { CanBeTold outcome.now }
    ensures { IfOk result (λ report. report ≡ root_report root.now outcome.now) }
{
    let text = outcome_text(alloc, outcome)?;
    let mut report = format!(in alloc; "{root}: {text}\n")?.into_bytes();
    let lines = outcome_lines(alloc, outcome)?;
    report.extend_from_slice(lines.as_slice())?;
    Ok(Bytes::from_vec(report))
}

// The lines on a root with this outcome, once its put ended so.
fn ended_report(
    alloc: Global,
    root: &str,
    outcome: &Outcome,
    put: PutEnding,
) -> Result<Bytes, NoMemory>
    requires { CanBeTold outcome.now }
    ensures { IfOk result (λ report. report ≡ root_report root.now (ended_by put root.now outcome.now)) }
{
    match put {
        PutEnding::Nothing | PutEnding::Done => root_report(alloc, root, outcome),
        PutEnding::Failed => {
            let name = put_name(alloc, root, outcome)?;
            let text = fault_text(alloc, name.as_str())?;
            root_line(alloc, root, text.as_str())
        }
        PutEnding::Memory => root_line(alloc, root, "no memory"),
    }
}

// The status of a root with this outcome, once its put ended so.
fn ended_status(outcome: &Outcome, put: PutEnding) -> u8
    ensures { (root : List ℕ) → result ≡ outcome_status (ended_by put root outcome.now) }
{
    match put {
        PutEnding::Nothing | PutEnding::Done => outcome_status(outcome),
        PutEnding::Failed | PutEnding::Memory => put_status(put),
    }
}

// The statuses of the roots.
fn statuses(
    alloc: Global,
    roots: &[String],
    runs: &[RootRun],
    puts: &[PutEnding],
) -> Result<Vec<u8>, NoMemory>
    requires { (length runs.now ≡ length roots.now) × (length puts.now ≡ length roots.now) }
    ensures { IfOk result (λ found. found.items ≡ map_list outcome_status (all_ended (map_list string_bytes roots.now) runs.now puts.now)) }
{
    let mut found = Vec::new(alloc);
    for (place, run) in runs.iter().enumerate() {
        found.push(ended_status(&run.outcome, puts[place]))?;
    }
    Ok(found)
}

// The lines on the roots.
fn root_reports(
    alloc: Global,
    roots: &[String],
    runs: &[RootRun],
    puts: &[PutEnding],
) -> Result<Vec<u8>, NoMemory>
    requires { All (λ (run : RootRun). CanBeTold run.outcome) runs.now
        × (length runs.now ≡ length roots.now) × (length puts.now ≡ length roots.now) }
    ensures { IfOk result (λ report. report.items
        ≡ root_reports (map_list string_bytes roots.now) (all_ended (map_list string_bytes roots.now) runs.now puts.now)) }
{
    let mut report = Vec::new(alloc);
    for (place, run) in runs.iter().enumerate() {
        let lines = ended_report(alloc, roots[place].as_str(), &run.outcome, puts[place])?;
        report.extend_from_slice(lines.as_slice())?;
    }
    Ok(report)
}

// How many of these statuses are this one.
fn counted(status: u8, given: &[u8]) -> usize
    ensures { result ≡ counted status given.now }
{
    given.iter().filter(|one| **one == status).count()
}

// How many roots ended in which way.
#[derive(Clone, Copy, Debug)]
struct Summary {
    roots: usize,
    resolved: usize,
    refuted: usize,
    refused: usize,
    faulty: usize,
    differing: usize,
    cancelled: usize,
    memory: usize,
}

// How many roots ended in which way, by their statuses.
fn summary_of(given: &[u8]) -> Summary
    ensures { result ≡ summary_of given.now }
{
    Summary {
        roots: given.len(),
        resolved: counted(0, given),
        refuted: counted(1, given),
        refused: counted(3, given),
        faulty: counted(4, given),
        differing: counted(5, given),
        cancelled: counted(7, given),
        memory: counted(6, given),
    }
}

// The first half of the last line: the roots that came to an answer.
fn answered_text(alloc: Global, summary: Summary) -> Result<String, NoMemory>
    ensures { IfOk result (λ text. string_bytes text ≡ answered_text summary) }
{
    let Summary {
        roots,
        resolved,
        refuted,
        refused,
        ..
    } = summary;
    format!(in alloc; "roots {roots}: resolved {resolved}, refuted {refuted}, refused {refused}")
}

// The last line.
fn summary_text(alloc: Global, summary: Summary) -> Result<String, NoMemory>
    ensures { IfOk result (λ text. string_bytes text ≡ summary_text summary) }
{
    let answered = answered_text(alloc, summary)?;
    let Summary {
        faulty,
        differing,
        cancelled,
        memory,
        ..
    } = summary;
    format!(in alloc;
        "{answered}, faulty {faulty}, differing {differing}, cancelled {cancelled}, memory {memory}\n"
    )
}

// The line on the fingerprint file, where its put failed.
fn fingerprints_report(
    alloc: Global,
    file: Option<&str>,
    put: PutEnding,
) -> Result<String, NoMemory>
    ensures { IfOk result (λ text. string_bytes text ≡ fingerprints_report (option_map (λ name. name.now) file.entry) put) }
{
    match (file, put) {
        (Some(name), PutEnding::Failed) => {
            let text = fault_text(alloc, name)?;
            format!(in alloc; "{text}\n")
        }
        _ => Ok(String::new(alloc)),
    }
}

// The lines on a run that came to each root.
fn roots_report(
    alloc: Global,
    order: &Order,
    runs: &[RootRun],
    puts: &[PutEnding],
    put: PutEnding,
) -> Result<Bytes, NoMemory>
    requires { All (λ (run : RootRun). CanBeTold run.outcome) runs.now
        × (length runs.now ≡ length order.now.roots.now) × (length puts.now ≡ length order.now.roots.now) }
    ensures { IfOk result (λ report. report ≡ roots_report (order_view order.now)
        (all_ended (order_view order.now).roots runs.now puts.now) put) }
{
    let mut report = root_reports(alloc, order.roots, runs, puts)?;
    let line = fingerprints_report(alloc, order.fingerprints, put)?;
    report.extend_from_slice(line.as_bytes())?;
    let given = statuses(alloc, order.roots, runs, puts)?;
    let summary = summary_text(alloc, summary_of(given.as_slice()))?;
    report.extend_from_slice(summary.as_bytes())?;
    Ok(Bytes::from_vec(report))
}

// The line on a run without one of the files that it begins with.
pub fn file_report(alloc: Global, name: &str, why: &FileEnding) -> Result<String, NoMemory>
    ensures { IfOk result (λ text. string_bytes text ≡ file_report name.now why.now) }
{
    match why {
        FileEnding::Missing => Ok(format!(in alloc; "{name}: missing\n")?),
        FileEnding::Unreadable(place, kind) => {
            let text = unreadable_text(alloc, place, *kind)?;
            Ok(format!(in alloc; "{name}: {text}\n")?)
        }
        FileEnding::Fault => {
            let text = fault_text(alloc, name)?;
            Ok(format!(in alloc; "{text}\n")?)
        }
        FileEnding::Memory => Ok(String::new(alloc)),
    }
}

// The lines on a run with accepted words.
pub fn report_of(alloc: Global, order: &Order, ending: &Ending) -> Result<Bytes, NoMemory>
    requires { IsTellable (order_view order.now) ending.now }
    ensures { IfOk result (λ report. report ≡ report_of (order_view order.now) ending.now) }
{
    let line = match ending {
        Ending::Shelf(why) => file_report(alloc, order.shelf, why)?,
        Ending::Fingerprints(why) => {
            file_report(alloc, order.fingerprints.unwrap_or_default(), why)?
        }
        Ending::Memory => String::new(alloc),
        Ending::Roots {
            runs,
            puts,
            put,
            ..
        } => return roots_report(alloc, order, runs.as_slice(), puts.as_slice(), *put),
    };
    Ok(Bytes::from_vec(line.into_bytes()))
}

// The status of a run with accepted words.
pub fn status_of(alloc: Global, order: &Order, ending: &Ending) -> Result<u8, NoMemory>
    requires { IsTellable (order_view order.now) ending.now }
    ensures { IfOk result (λ status. status ≡ status_of (order_view order.now) ending.now) }
{
    match ending {
        Ending::Shelf(why) | Ending::Fingerprints(why) => Ok(file_status(why)),
        Ending::Memory => Ok(6),
        Ending::Roots {
            runs,
            puts,
            put,
            ..
        } => {
            let mut given = statuses(alloc, order.roots, runs.as_slice(), puts.as_slice())?;
            given.push(put_status(*put))?;
            Ok(status_among(given.as_slice()))
        }
    }
}

// Writes the report, if there was memory to make it, and gives the exit status with the sink's part in it.
pub fn tell<O: Sink>(report: Result<Bytes, NoMemory>, status: u8, out: &mut O) -> u8
    ensures { (text : List ℕ) → IfOk report (λ made. made ≡ text)
        → Tells text status (O.state out.old) (O.state out.new) result }
{
    match report {
        Ok(report) => status_after(status, put_all(out, report.as_slice())),
        Err(NoMemory) => 6,
    }
}

// Says that the words aren't accepted. The status is 2, whatever the sink does.
pub fn refuse_words<O: Sink>(out: &mut O) -> u8
    ensures report { (answer : Result ⊤ CallFault) × Writes words_report (O.state out.old) (O.state out.new) answer }
    ensures status { result ≡ 2 }
{
    let _ = put_all(out, b"words: not built yet\n");
    2
}
