ghost use Rattle.std.specs.Prelude.{◌≡◌, ℕ, All, IfOk, IfSome, List, length, map as map_list, string_bytes};
ghost use Rattle.spm_session.specs.Outcome.{CanBeTold};
ghost use Rattle.spm_tool.specs.Check.{ChecksFile};
ghost use Rattle.spm_tool.specs.Ending.{AreRootRuns, ArePutsOf, IsEnding, RootsEnding};
ghost use Rattle.spm_tool.specs.Judge.{JudgesFiles};
ghost use Rattle.spm_tool.specs.Left.{FaultsLeft, FaultsOf, FaultsOfRun, faulty_gets};
ghost use Rattle.spm_tool.specs.Puts.{FilesOfRun, PutsLeave, puts_of};
ghost use Rattle.spm_tool.specs.Report.{IsTellable};
ghost use Rattle.spm_tool.specs.Resolves.{Resolves, Runs};
ghost use Rattle.spm_tool.specs.Shown.{ShowsFile};
ghost use Rattle.spm_tool.specs.Still.{Still};
ghost use Rattle.spm_tool.specs.WordsView.{judgement_view, order_view};
ghost use Rattle.spm_tool.specs.declared.ending.RootRun.{RootRun};

use crate::check::{check_file, check_report, check_status};
use crate::ending::{Ending, PutEnding, RootRun};
use crate::files::{get_fingerprints, get_shelf, get_trust};
use crate::gain::gained;
use crate::job::get_jobs;
use crate::judge::{judge_files, judge_report, judge_status};
use crate::puts::{put_all_roots, put_fingerprints};
use crate::report::{refuse_words, report_of, status_of, tell};
use crate::run::{book_of, run_all, shelf_base};
use crate::shown::{shown_report, shown_status};
use crate::words::{Judgement, Order, judge_of, proof_of, shown_of};
use pub_term::Cause;
use spm_outside::{Desk, Gate, Link, Sink};
use spm_shelf::Shelf;
use spm_trust::Trust;
use spm_version::{Items, NoMemory};
use std::alloc::Global;
use std::sync::Wait;
use std::thread::Threads;

// What the roots come to over the shelf.
fn outcomes<D: Desk>(
    alloc: Global,
    order: &Order,
    shelf: &Shelf,
    trust: &Trust,
    desk: &mut D,
) -> Result<Items<RootRun>, NoMemory>
    ensures told { IfSome (D.state desk.old).files (λ files. IfOk result (λ runs. AreRootRuns ⟦<Cause as PartialEq>⟧.eq shelf.now trust.now
        (order_view order.now) files (order_view order.now).roots runs)) }
    ensures tellable { IfOk result (λ runs. All (λ (run : RootRun). CanBeTold run.outcome) runs) }
    ensures each { IfOk result (λ runs. length runs ≡ length order.now.roots.now) }
    ensures faults { (names : List (List ℕ)) × FaultsLeft names (D.state desk.old) (D.state desk.new)
        × IfOk result (λ runs. names ≡ faulty_gets runs) }
    ensures files { (D.state desk.new).files ≡ (D.state desk.old).files }
{
    let base = shelf_base(alloc)?;
    let book = book_of(alloc, shelf, &base)?;
    let jobs = get_jobs(alloc, order, desk)?;
    run_all(alloc, jobs, trust, &base, &book)
}

// So many places for how the puts of the roots' files end.
fn places(alloc: Global, count: usize) -> Result<Vec<PutEnding>, NoMemory>
    ensures { IfOk result (λ puts. length puts.items ≡ count) }
{
    Ok(vec![in alloc; PutEnding::Nothing; count]?)
}

// Resolves the roots against the shelf, beside these fingerprints, and puts what comes of it.
fn resolve_roots<D: Desk>(
    alloc: Global,
    order: &Order,
    shelf: &Shelf,
    trust: &Trust,
    desk: &mut D,
) -> Result<Ending, NoMemory>
    ensures told { IfSome (D.state desk.old).files (λ files. IfOk result (λ ending.
        RootsEnding ⟦<Cause as PartialEq>⟧.eq shelf.now trust.now (order_view order.now) files ending)) }
    ensures puts { IfOk result (λ ending. ArePutsOf (order_view order.now) ending) }
    ensures faults { FaultsOfRun (order_view order.now) result (D.state desk.old) (D.state desk.new) }
    ensures files { FilesOfRun (order_view order.now) result (D.state desk.old).files (D.state desk.new).files }
    ensures tellable { IfOk result (λ ending. IsTellable (order_view order.now) ending) }
{
    let runs = outcomes(alloc, order, shelf, trust, desk)?;
    let places = places(alloc, runs.as_slice().len())?;
    let (gained, put) = match gained(alloc, order.fingerprints, trust, runs.as_slice()) {
        Ok(gained) => {
            let put = put_fingerprints(alloc, order.fingerprints, &gained, desk);
            (gained, put)
        }
        Err(NoMemory) => (None, PutEnding::Memory),
    };
    let puts = put_all_roots(
        alloc,
        order.proofs,
        order.roots,
        runs.as_slice(),
        places,
        desk,
    );
    Ok(Ending::Roots {
        runs,
        puts,
        gained,
        put,
    })
}

// Does what accepted words ask.
fn run<D: Desk>(alloc: Global, order: &Order, desk: &mut D) -> Ending
    ensures told { IfSome (D.state desk.old).files
        (λ files. IsEnding ⟦<Cause as PartialEq>⟧.eq (order_view order.now) files result) }
    ensures puts { ArePutsOf (order_view order.now) result }
    ensures faults { FaultsOf (order_view order.now) result (D.state desk.old) (D.state desk.new) }
    ensures files { PutsLeave (puts_of (order_view order.now) result) (D.state desk.old).files (D.state desk.new).files }
    ensures tellable { IsTellable (order_view order.now) result }
{
    let shelf = match get_shelf(alloc, order.shelf, desk) {
        Ok(shelf) => shelf,
        Err(why) => return Ending::Shelf(why),
    };
    let trust = match get_fingerprints(alloc, order.fingerprints, desk) {
        Ok(trust) => trust,
        Err(why) => return Ending::Fingerprints(why),
    };
    match resolve_roots(alloc, order, &shelf, &trust, desk) {
        Ok(ending) => ending,
        Err(NoMemory) => Ending::Memory,
    }
}

// Does what accepted words ask, tells it, and gives the exit status.
fn resolve_order<D: Desk, O: Sink>(alloc: Global, order: &Order, desk: &mut D, out: &mut O) -> u8
    ensures { Runs ⟦<Cause as PartialEq>⟧.eq (order_view order.now)
        (D.state desk.old) (D.state desk.new) (O.state out.old) (O.state out.new) result }
{
    let ending = run(alloc, order, desk);
    match status_of(alloc, order, &ending) {
        Ok(status) => tell(report_of(alloc, order, &ending), status, out),
        Err(NoMemory) => 6,
    }
}

/// Resolves what the words ask, and gives the exit status.
///
/// The words are `resolve --shelf FILE [--fingerprints FILE] [--tools-version V] [TRAITS] [--proofs] ROOTS`, where TRAITS is `--traits LIST`,
/// `--enable-all-traits` or `--disable-default-traits`, and ROOTS are one to 64 folders. The shelf is the registry; each root's folder has a
/// `Package.json`, a manifest dump, and gets a `Package.resolved`, whose pins are kept where they are allowed, or, where no selection exists and
/// `--proofs` is given, a `Package.proof` with the derivation. The archive of each pin has the checksum that its release names, and a fingerprint
/// that the fingerprint file keeps is that checksum; those that are new are added to the file. The report goes to `out`.
///
/// Statuses: 0 resolved, 1 no selection, 2 words that aren't accepted, 3 a refusal, 4 a fault of the desk or the sink, 5 a checksum or fingerprint
/// that differs, 6 want of memory; of several roots the first of 6, 4, 5, 3, 1 and 0.
///
/// The links and the gate aren't used yet, and no thread is started.
pub fn resolve<R: Threads + Wait + Sync, D: Desk, L: Link + Send, O: Sink, G: Gate>(
    _rt: &R,
    alloc: Global,
    words: &[String],
    desk: &mut D,
    links: &mut Vec<L>,
    out: &mut O,
    _gate: &G,
) -> u8
    ensures run { Resolves ⟦<Cause as PartialEq>⟧.eq (map_list string_bytes words.now)
        (D.state desk.old) (D.state desk.new) (O.state out.old) (O.state out.new) result }
    ensures links { links.new.items ≡ links.old.items }
{
    match Order::read(alloc, words) {
        Ok(Some(order)) => resolve_order(alloc, &order, desk, out),
        Ok(None) => refuse_words(out),
        Err(NoMemory) => 6,
    }
}

// Judges the lock file that the words ask to judge, and tells it.
fn judge_order<D: Desk, O: Sink>(alloc: Global, order: &Judgement, desk: &mut D, out: &mut O) -> u8
    ensures { JudgesFiles (judgement_view order.now)
        (D.state desk.old) (D.state desk.new) (O.state out.old) (O.state out.new) result }
{
    let ending = judge_files(alloc, order, desk);
    tell(
        judge_report(alloc, order, &ending),
        judge_status(&ending),
        out,
    )
}

// Checks the derivation in the file that the words ask to check, and tells it.
fn check_proof<D: Desk, O: Sink>(alloc: Global, file: &str, desk: &mut D, out: &mut O) -> u8
    ensures { ChecksFile file.now
        (D.state desk.old) (D.state desk.new) (O.state out.old) (O.state out.new) result }
{
    let ending = check_file(alloc, file, desk);
    tell(
        check_report(alloc, file, &ending),
        check_status(&ending),
        out,
    )
}

// Shows the fingerprints of the file that the words ask to show.
fn show_file<D: Desk, O: Sink>(alloc: Global, file: &str, desk: &mut D, out: &mut O) -> u8
    ensures { ShowsFile file.now
        (D.state desk.old) (D.state desk.new) (O.state out.old) (O.state out.new) result }
{
    let found = get_trust(alloc, file, desk);
    tell(shown_report(alloc, file, &found), shown_status(&found), out)
}

/// Does what the words of a command ask that waits for nobody, and gives the exit status.
///
/// The words are `check --proof FILE`: the derivation in the file is checked by the file's own facts;
/// `judge --shelf FILE [--tools-version V] ROOT`: the pins of the root's `Package.resolved` are judged, whether they are a valid selection of
/// its `Package.json` with the traits that are on by default, over the shelf; or `fingerprints FILE`: a line for each fingerprint that the file
/// keeps. The lines go to `out`; no file is put.
///
/// Statuses: 0 the derivation holds, the pins are valid or the lines are written, 1 they don't or aren't, 2 words that aren't accepted, 3 a file
/// is missing or refused, 4 a fault of the desk or the sink, 6 want of memory.
pub fn still<D: Desk, O: Sink>(alloc: Global, words: &[String], desk: &mut D, out: &mut O) -> u8
    ensures run { Still (map_list string_bytes words.now)
        (D.state desk.old) (D.state desk.new) (O.state out.old) (O.state out.new) result }
{
    if let Some(file) = proof_of(words) {
        return check_proof(alloc, file, desk, out);
    }
    if let Some(order) = judge_of(words) {
        return judge_order(alloc, &order, desk, out);
    }
    match shown_of(words) {
        Some(file) => show_file(alloc, file, desk, out),
        None => refuse_words(out),
    }
}
