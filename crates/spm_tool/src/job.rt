// The jobs of the roots: what their files say, and what is asked of them.
ghost use Rattle.std.specs.Prelude.{◌≡◌, ◌∷◌, [], ℕ, All, IfErr, IfOk, IfSome, List, codes, length, map as map_list, string_bytes};
ghost use Rattle.spm_session.specs.Outcome.{IsOfFiles};
ghost use Rattle.spm_session.specs.Run.{IsInput};
ghost use Rattle.spm_session.specs.declared.job.RootJob.{RootJob};
ghost use Rattle.spm_tool.specs.Files.{asked_of, others_of};
ghost use Rattle.spm_tool.specs.Jobs.{AreJobsOf, IsJobOf, IsReady, ReadsRoot, faulty_in_job, faulty_inputs};
ghost use Rattle.spm_tool.specs.Left.{FaultsLeft, faulty_in};
ghost use Rattle.spm_tool.specs.WordsView.{order_view};

use crate::files::{get_lock, get_manifest};
use crate::words::{Order, TraitWords};
use spm_digest::sum;
use spm_outside::Desk;
use spm_session::{Outcome, RootInput, RootJob};
use spm_trait::{TraitEntry, TraitName};
use spm_version::{Items, NoMemory, Text};
use std::alloc::Global;

// The trait that stands for those that are on by default. Its name is one, so only memory can be lacking.
pub fn default_name(alloc: Global) -> Result<TraitName, NoMemory>
    ensures { IfOk result (λ name. name ≡ codes "default") }
{
    let Ok(name) = TraitName::parse(alloc, "default") else {
        return Err(NoMemory);
    };
    Ok(name)
}

// All traits of a root: those by default, and the others that it declares.
fn all_of(alloc: Global, entries: &[TraitEntry]) -> Result<Items<TraitName>, NoMemory>
    ensures { IfOk result (λ names. names ≡ codes "default" ∷ others_of entries.now) }
{
    let mut names = Items::new(alloc);
    names.push(default_name(alloc)?)?;
    for entry in entries {
        if entry.name.text() != "default" {
            names.push(entry.name.copy(alloc)?)?;
        }
    }
    Ok(names)
}

// The traits that the words ask of a root which declares these.
fn asked_of(
    alloc: Global,
    traits: &TraitWords,
    entries: &[TraitEntry],
) -> Result<Items<TraitName>, NoMemory>
    ensures { IfOk result (λ names. names ≡ asked_of traits.now entries.now) }
{
    match traits {
        TraitWords::ByDefault => {
            let mut names = Items::new(alloc);
            names.push(default_name(alloc)?)?;
            Ok(names)
        }
        TraitWords::These(names) => Ok(names.copy(alloc)?),
        TraitWords::All => all_of(alloc, entries),
        TraitWords::Nothing => Ok(Items::new(alloc)),
    }
}

// What the files of a root say, with the traits that are asked of it, or why it is refused.
fn read_root<D: Desk>(
    alloc: Global,
    order: &Order,
    root: &str,
    desk: &mut D,
) -> Result<(RootInput, Items<TraitName>), Outcome>
    ensures told { IfSome (D.state desk.old).files (λ files. ReadsRoot (order_view order.now) files root.now result) }
    ensures kind { IfErr result (λ it. IsOfFiles it) }
    ensures ready { IfOk result (λ found. IsReady found.0) }
    ensures faults { FaultsLeft (faulty_in result) (D.state desk.old) (D.state desk.new) }
    ensures files { (D.state desk.new).files ≡ (D.state desk.old).files }
{
    let (manifest, bytes) = get_manifest(alloc, order.tools, root, desk)?;
    let pins = match get_lock(alloc, root, desk)? {
        Some(pins) => pins,
        None => Items::new(alloc),
    };
    let asked = asked_of(alloc, &order.traits, manifest.traits().entries.as_slice())?;
    let origin = sum(bytes.as_slice());
    let input = RootInput::Ready {
        manifest,
        origin,
        pins,
    };
    Ok((input, asked))
}

// Gets the job of a root.
fn get_job<D: Desk>(
    alloc: Global,
    order: &Order,
    root: &str,
    desk: &mut D,
) -> Result<RootJob, NoMemory>
    ensures told { IfSome (D.state desk.old).files (λ files. IfOk result (λ job. IsJobOf (order_view order.now) files root.now job)) }
    ensures input { IfOk result (λ job. IsInput job.input) }
    ensures faults { FaultsLeft (faulty_in_job result) (D.state desk.old) (D.state desk.new) }
    ensures files { (D.state desk.new).files ≡ (D.state desk.old).files }
{
    let name = Text::from_str(alloc, root)?;
    let tools = order.tools;
    match read_root(alloc, order, root, desk) {
        Ok((input, asked)) => Ok(RootJob {
            name,
            input,
            asked,
            tools,
        }),
        Err(refusal) => Ok(RootJob {
            name,
            input: RootInput::Refused(refusal),
            asked: Items::new(alloc),
            tools,
        }),
    }
}

/// Gets the jobs of the roots, one after the other.
///
/// # Errors
///
/// `NoMemory` alone.
pub fn get_jobs<D: Desk>(
    alloc: Global,
    order: &Order,
    desk: &mut D,
) -> Result<Items<RootJob>, NoMemory>
    ensures told { IfSome (D.state desk.old).files
        (λ files. IfOk result (λ jobs. AreJobsOf (order_view order.now) files (map_list string_bytes order.now.roots.now) jobs)) }
    ensures each { IfOk result (λ jobs. length jobs ≡ length order.now.roots.now) }
    ensures inputs { IfOk result (λ jobs. All (λ (job : RootJob). IsInput job.input) jobs) }
    ensures faults { (names : List (List ℕ)) × FaultsLeft names (D.state desk.old) (D.state desk.new)
        × IfOk result (λ jobs. names ≡ faulty_inputs jobs) }
    ensures files { (D.state desk.new).files ≡ (D.state desk.old).files }
{
    let mut jobs = Items::new(alloc);
    for root in order.roots {
        jobs.push(get_job(alloc, order, root.as_str(), desk)?)?;
    }
    Ok(jobs)
}
