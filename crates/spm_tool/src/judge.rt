// The command `judge`.
ghost use Rattle.std.specs.Prelude.{◌≡◌, IfOk, IfSome, [], string_bytes};
ghost use Rattle.spm_tool.specs.Judge.{
  IsFetched,
  IsJudgeEnding,
  IsJudged,
  IsRootJudged,
  JudgesRoot,
  ending_of,
  faulty_judged,
  judge_line,
  judge_report,
  judge_root_line,
  judge_status,
};
ghost use Rattle.spm_tool.specs.Left.{FaultsLeft};
ghost use Rattle.spm_tool.specs.Shelf.{IsBookOf};
ghost use Rattle.spm_tool.specs.WordsView.{judgement_view};

use crate::ending::FileEnding;
use crate::files::{get_lock, get_manifest, get_shelf};
use crate::job::default_name;
use crate::report::{file_report, outcome_text};
use crate::run::{book_of, shelf_base};
use crate::shelf_link::ShelfLink;
use crate::status::{file_status, outcome_status};
use crate::words::Judgement;
use pub_trail::Wide;
use spm_api::Base;
use spm_ident::Identity;
use spm_judge::{Judged, judge_over, pins_in_order};
use spm_manifest::Manifest;
use spm_outside::{Book, Desk};
use spm_session::{Outcome, refused};
use spm_shelf::Shelf;
use spm_version::{Bytes, Items, NoMemory, Release, Text};
use std::alloc::Global;

/// How the judging of a root's lock file ends.
#[derive(Debug, Drop)]
pub enum JudgeEnding {
    /// There is no shelf to judge with.
    Shelf(FileEnding),
    /// A file of the root is missing, faulty or refused, or a reply is.
    Root(Outcome),
    /// There is no lock file.
    LockMissing,
    /// The pins are a valid selection.
    Valid,
    /// They aren't: the first rule that is broken.
    Invalid(Text),
}

// What a judgement comes to.
fn ending_of(judged: Judged) -> JudgeEnding
    ensures { result ≡ ending_of judged }
{
    match judged {
        Judged::Valid => JudgeEnding::Valid,
        Judged::Invalid(text) => JudgeEnding::Invalid(text),
        Judged::Refused(key, fault) => JudgeEnding::Root(refused(key, fault)),
        Judged::TooWide(identity) => {
            JudgeEnding::Root(Outcome::TooWide(Wide::Versions(identity)))
        }
        Judged::Failed(key) => JudgeEnding::Root(Outcome::FetchFault(key)),
        Judged::Memory => JudgeEnding::Root(Outcome::Memory),
    }
}

// Judges pins over a book of the shelf.
fn over_book(
    alloc: Global,
    order: &Judgement,
    manifest: &Manifest,
    pins: &Items<(Identity, Release)>,
    shelf: &Shelf,
    base: &Base,
    book: &Book,
) -> Result<Judged, NoMemory>
    requires { IsBookOf shelf.now base.now book.now }
    ensures is { IfOk result (λ it. IsJudged shelf.now (judgement_view order.now) manifest.now pins.now it) }
    ensures fetched { IfOk result IsFetched }
{
    let sorted = pins_in_order(alloc, pins.as_slice())?;
    let asked = [default_name(alloc)?];
    let mut link = ShelfLink::new(alloc, book)?;
    Ok(judge_over(
        alloc,
        manifest,
        &asked,
        order.tools,
        sorted.as_slice(),
        base,
        &mut link,
    ))
}

// Judges pins over the shelf.
fn over_shelf(
    alloc: Global,
    order: &Judgement,
    manifest: &Manifest,
    pins: &Items<(Identity, Release)>,
    shelf: &Shelf,
) -> Result<Judged, NoMemory>
    ensures is { IfOk result (λ it. IsJudged shelf.now (judgement_view order.now) manifest.now pins.now it) }
    ensures fetched { IfOk result IsFetched }
{
    let base = shelf_base(alloc)?;
    let book = book_of(alloc, shelf, &base)?;
    over_book(alloc, order, manifest, pins, shelf, &base, &book)
}

// Judges the pins of a root's lock file over the shelf.
fn judge_pins(
    alloc: Global,
    order: &Judgement,
    manifest: &Manifest,
    pins: &Items<(Identity, Release)>,
    shelf: &Shelf,
) -> JudgeEnding
    ensures judges { JudgesRoot shelf.now (judgement_view order.now) manifest.now pins.now result }
    ensures none { faulty_judged (judgement_view order.now) result ≡ [] }
{
    match over_shelf(alloc, order, manifest, pins, shelf) {
        Ok(judged) => ending_of(judged),
        Err(NoMemory) => JudgeEnding::Root(Outcome::Memory),
    }
}

// Judges the lock file of the root against the shelf.
fn judge_root<D: Desk>(alloc: Global, order: &Judgement, shelf: &Shelf, desk: &mut D) -> JudgeEnding
    ensures told { IfSome (D.state desk.old).files (λ files. IsRootJudged shelf.now (judgement_view order.now) files result) }
    ensures faults { FaultsLeft (faulty_judged (judgement_view order.now) result) (D.state desk.old) (D.state desk.new) }
    ensures files { (D.state desk.new).files ≡ (D.state desk.old).files }
{
    let (manifest, _) = match get_manifest(alloc, order.tools, order.root, desk) {
        Ok(found) => found,
        Err(refusal) => return JudgeEnding::Root(refusal),
    };
    match get_lock(alloc, order.root, desk) {
        Ok(Some(pins)) => judge_pins(alloc, order, &manifest, &pins, shelf),
        Ok(None) => JudgeEnding::LockMissing,
        Err(refusal) => JudgeEnding::Root(refusal),
    }
}

/// Judges the lock file of a root against a shelf of the desk.
pub fn judge_files<D: Desk>(alloc: Global, order: &Judgement, desk: &mut D) -> JudgeEnding
    ensures told { IfSome (D.state desk.old).files (λ files. IsJudgeEnding (judgement_view order.now) files result) }
    ensures faults { FaultsLeft (faulty_judged (judgement_view order.now) result) (D.state desk.old) (D.state desk.new) }
    ensures files { (D.state desk.new).files ≡ (D.state desk.old).files }
{
    match get_shelf(alloc, order.shelf, desk) {
        Ok(shelf) => judge_root(alloc, order, &shelf, desk),
        Err(why) => JudgeEnding::Shelf(why),
    }
}

// The line on the root.
fn judge_line(alloc: Global, root: &str, text: &str) -> Result<String, NoMemory>
    ensures { IfOk result (λ line. string_bytes line ≡ judge_line root.now text.now) }
{
    format!(in alloc; "{root}: {text}\n")
}

// The line on a root that isn't judged.
fn root_line(alloc: Global, root: &str, refusal: &Outcome) -> Result<String, NoMemory>
    ensures { IfOk result (λ line. string_bytes line ≡ judge_root_line root.now refusal.now) }
{
    if outcome_status(refusal) == 6 {
        return Ok(String::new(alloc));
    }
    let text = outcome_text(alloc, refusal)?;
    judge_line(alloc, root, text.as_str())
}

// The line on a judgement.
fn line_of(alloc: Global, order: &Judgement, ending: &JudgeEnding) -> Result<String, NoMemory>
    ensures { IfOk result (λ line. string_bytes line ≡ judge_report (judgement_view order.now) ending.now) }
{
    match ending {
        JudgeEnding::Shelf(why) => file_report(alloc, order.shelf, why),
        JudgeEnding::Root(refusal) => root_line(alloc, order.root, refusal),
        JudgeEnding::LockMissing => judge_line(alloc, order.root, "Package.resolved is missing"),
        JudgeEnding::Valid => judge_line(alloc, order.root, "valid"),
        JudgeEnding::Invalid(text) => {
            let text = format!(in alloc; "not valid: {text}")?;
            judge_line(alloc, order.root, text.as_str())
        }
    }
}

/// The same in bytes.
pub fn judge_report(
    alloc: Global,
    order: &Judgement,
    ending: &JudgeEnding,
) -> Result<Bytes, NoMemory>
    ensures { IfOk result (λ report. report ≡ judge_report (judgement_view order.now) ending.now) }
{
    let line = line_of(alloc, order, ending)?;
    Ok(Bytes::from_vec(line.into_bytes()))
}

/// The status of a judgement.
pub fn judge_status(ending: &JudgeEnding) -> u8
    ensures { result ≡ judge_status ending.now }
{
    match ending {
        JudgeEnding::Shelf(why) => file_status(why),
        JudgeEnding::Root(refusal) => outcome_status(refusal),
        JudgeEnding::LockMissing => 3,
        JudgeEnding::Valid => 0,
        JudgeEnding::Invalid(_) => 1,
    }
}
