// What the jobs come to over the book of a shelf.
ghost use Rattle.std.specs.Prelude.{◌≡◌, [], All, IfOk, length};
ghost use Rattle.spm_server.specs.RoundTrip.{IsPlainBase};
ghost use Rattle.spm_session.specs.Outcome.{CanBeTold, IsNoFault};
ghost use Rattle.spm_session.specs.Run.{IsInput};
ghost use Rattle.spm_session.specs.declared.job.RootJob.{RootJob};
ghost use Rattle.spm_shelf.specs.declared.file.ShelfFile.{ShelfFile};
ghost use Rattle.spm_tool.specs.Ending.{origin_in};
ghost use Rattle.spm_tool.specs.Jobs.{AreRunsOf, IsReady, IsRunOf, faulty_input, faulty_inputs};
ghost use Rattle.spm_tool.specs.Left.{faulty_get, faulty_gets};
ghost use Rattle.spm_tool.specs.Shelf.{IsBookOf, IsShelfOutcome};
ghost use Rattle.spm_tool.specs.declared.ending.RootRun.{RootRun};

use crate::ending::RootRun;
use crate::shelf_link::ShelfLink;
use pub_term::Cause;
use spm_api::Base;
use spm_outside::{Authority, Book};
use spm_server::book;
use spm_session::{Outcome, RootInput, RootJob, run_alone};
use spm_shelf::Shelf;
use spm_trust::Trust;
use spm_version::{Items, NoMemory, Text};
use std::alloc::Global;

// Where the shelf stands for a registry.
pub fn shelf_base(alloc: Global) -> Result<Base, NoMemory>
    ensures { IfOk result IsPlainBase }
{
    let host = Text::from_str(alloc, "shelf")?;
    let prefix = Text::from_str(alloc, "")?;
    Ok(Base {
        to: Authority { host, port: 80 },
        prefix,
    })
}

// The fixed replies of the shelf.
pub fn book_of(alloc: Global, shelf: &Shelf, base: &Base) -> Result<Book, NoMemory>
    requires { IsPlainBase base.now }
    ensures { IfOk result (λ book. IsBookOf shelf.now base.now book) }
{
    book(alloc, shelf, base)
}

// The outcome of a job that is ready, over a book of the shelf.
fn over_book(alloc: Global, job: RootJob, trust: &Trust, base: &Base, book: &Book) -> Outcome
    requires { IsReady job.input }
    ensures end { (shelf : ShelfFile) → IsBookOf shelf base.now book.now → IsShelfOutcome ⟦<Cause as PartialEq>⟧.eq shelf trust.now job result }
    ensures told { CanBeTold result }
    ensures quiet { IsNoFault result }
    ensures names { faulty_get result ≡ [] }
{
    match ShelfLink::new(alloc, book) {
        Ok(link) => {
            let mut link = link;
            run_alone(alloc, job, trust, base, &mut link)
        }
        Err(NoMemory) => Outcome::Memory,
    }
}

// The outcome of a job over a book of the shelf; one that is refused keeps its refusal.
fn outcome_of(alloc: Global, job: RootJob, trust: &Trust, base: &Base, book: &Book) -> Outcome
    requires { IsInput job.input }
    ensures end { (shelf : ShelfFile) → IsBookOf shelf base.now book.now → IsShelfOutcome ⟦<Cause as PartialEq>⟧.eq shelf trust.now job result }
    ensures told { CanBeTold result }
    ensures quiet { IsNoFault result }
    ensures names { faulty_get result ≡ faulty_input job.input }
{
    let RootJob {
        name,
        input,
        asked,
        tools,
    } = job;
    match input {
        RootInput::Refused(refusal) => refusal,
        RootInput::Ready {
            manifest,
            origin,
            pins,
        } => {
            let input = RootInput::Ready {
                manifest,
                origin,
                pins,
            };
            let job = RootJob {
                name,
                input,
                asked,
                tools,
            };
            over_book(alloc, job, trust, base, book)
        }
    }
}

// The sum of the manifest's bytes, where the files weren't refused.
fn origin_in(input: &RootInput) -> Option<[u8; 32]>
    ensures { result ≡ origin_in input.now }
{
    match input {
        RootInput::Ready { origin, .. } => Some(*origin),
        RootInput::Refused(_) => None,
    }
}

// What a job comes to over a book of the shelf.
fn run_of(alloc: Global, job: RootJob, trust: &Trust, base: &Base, book: &Book) -> RootRun
    requires { IsInput job.input }
    ensures end { (shelf : ShelfFile) → IsBookOf shelf base.now book.now → IsRunOf ⟦<Cause as PartialEq>⟧.eq shelf trust.now job result }
    ensures told { CanBeTold result.outcome }
    ensures names { faulty_get result.outcome ≡ faulty_input job.input }
{
    let origin = origin_in(&job.input);
    let outcome = outcome_of(alloc, job, trust, base, book);
    RootRun { origin, outcome }
}

/// What the jobs come to over a book of the shelf, one after the other.
///
/// # Errors
///
/// `NoMemory` alone.
pub fn run_all(
    alloc: Global,
    jobs: Items<RootJob>,
    trust: &Trust,
    base: &Base,
    book: &Book,
) -> Result<Items<RootRun>, NoMemory>
    requires { All (λ (job : RootJob). IsInput job.input) jobs }
    ensures end { IfOk result (λ runs. (shelf : ShelfFile) → IsBookOf shelf base.now book.now
        → AreRunsOf ⟦<Cause as PartialEq>⟧.eq shelf trust.now jobs runs) }
    ensures each { IfOk result (λ runs. length runs ≡ length jobs) }
    ensures told { IfOk result (λ runs. All (λ (run : RootRun). CanBeTold run.outcome) runs) }
    ensures names { IfOk result (λ runs. faulty_gets runs ≡ faulty_inputs jobs) }
{
    let mut runs = Items::new(alloc);
    for job in jobs.into_vec() {
        runs.push(run_of(alloc, job, trust, base, book))?;
    }
    Ok(runs)
}
