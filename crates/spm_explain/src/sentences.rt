// Why a fact holds, as a sentence.
ghost use Rattle.std.specs.Prelude.{◌≡◌, IfOk, Some, string_bytes};
ghost use Rattle.spm_explain.specs.Sentence.{
  owner_text,
  quoted,
  requirement_text,
  sentence,
  subject_text,
  under_text,
  unversioned_text,
};

use pub_term::{Cause, Subject};
use serde_json::Value;
use spm_ident::Identity;
use spm_trait::TraitName;
use spm_version::{NoMemory, Release, Requirement, Text};
use std::alloc::Global;
use std::fmt;

// The root, or a package at a version.
#[derive(Clone, Copy)]
struct Owner<'a>(&'a Option<(Identity, Release)>);

impl fmt::Display for Owner<'_> {
    ghost output = { λ owner. Some (owner_text owner.0.now) };

    fn fmt<W: fmt::Write>(&self, f: &mut fmt::Formatter<W>) -> fmt::Result {
        match self.0 {
            None => f.write_str("root"),
            Some((identity, release)) => write!(f, "{identity} {release}"),
        }
    }
}

// The traits that stand behind it.
#[derive(Clone, Copy)]
struct Under<'a>(&'a [TraitName]);

impl fmt::Display for Under<'_> {
    ghost output = { λ under. Some (under_text under.0.now) };

    fn fmt<W: fmt::Write>(&self, f: &mut fmt::Formatter<W>) -> fmt::Result {
        let [first, others @ ..] = self.0 else {
            return Ok(());
        };
        write!(f, " with {first}")?;
        for name in others {
            write!(f, " and {name}")?;
        }
        Ok(())
    }
}

// Whose need or trait it is: what most sentences begin with.
#[derive(Clone, Copy)]
struct Who<'a>(&'a Subject);

impl fmt::Display for Who<'_> {
    ghost output = { λ who. Some (subject_text who.0.now) };

    fn fmt<W: fmt::Write>(&self, f: &mut fmt::Formatter<W>) -> fmt::Result {
        let (owner, under) = (Owner(&self.0.owner), Under(self.0.under.as_slice()));
        write!(f, "{owner}{under}")
    }
}

// The text in double quotes, as JSON has it.
fn quoted(alloc: Global, text: &Text) -> Result<String, NoMemory>
    ensures { IfOk result (λ written. string_bytes written ≡ quoted text.now) }
{
    let value = Value::String(String::from_str(alloc, text.as_str())?);
    value.to_string(alloc)
}

// What is needed of a package.
fn requirement_text(alloc: Global, requirement: &Requirement) -> Result<String, NoMemory>
    ensures { IfOk result (λ written. string_bytes written ≡ requirement_text requirement.now) }
{
    match requirement {
        Requirement::Exact(release) => format!(in alloc; "exactly {release}"),
        Requirement::Range(low, high) => format!(in alloc; "{low}..<{high}"),
        Requirement::Branch(name) => {
            let name = quoted(alloc, name)?;
            format!(in alloc; "branch {name}")
        }
        Requirement::Revision(name) => {
            let name = quoted(alloc, name)?;
            format!(in alloc; "revision {name}")
        }
        Requirement::Path => String::from_str(alloc, "path"),
    }
}

// What is needed by its URL, or by its path.
fn unversioned_text(
    alloc: Global,
    requirement: &Requirement,
    text: &Text,
) -> Result<String, NoMemory>
    ensures { IfOk result (λ written. string_bytes written ≡ unversioned_text requirement.now text.now) }
{
    let text = quoted(alloc, text)?;
    match requirement {
        Requirement::Path => format!(in alloc; "path {text}"),
        _ => {
            let requirement = requirement_text(alloc, requirement)?;
            format!(in alloc; "{requirement} of {text}")
        }
    }
}

/// The sentence of a cause, as the line of a fact has it.
///
/// # Errors
///
/// `NoMemory` alone.
pub fn sentence(alloc: Global, cause: &Cause) -> Result<String, NoMemory>
    ensures { IfOk result (λ written. string_bytes written ≡ sentence cause.now) }
{
    match cause {
        Cause::Requires(subject, identity, requirement) => {
            let (who, requirement) = (Who(subject), requirement_text(alloc, requirement)?);
            format!(in alloc; "{who} needs {identity} {requirement}")
        }
        Cause::Asks(subject, identity, name) => {
            format!(in alloc; "{} asks {identity}#{name}", Who(subject))
        }
        Cause::WordsAsk(name) => format!(in alloc; "the words ask root#{name}"),
        Cause::Enables(subject, name) => format!(in alloc; "{} enables {name}", Who(subject)),
        Cause::NoTrait(subject) => format!(in alloc; "{} has no such trait", Who(subject)),
        Cause::NoManifest(subject) => format!(in alloc; "{} has no manifest", Who(subject)),
        Cause::Unreadable(subject, place, kind) => {
            let who = Who(subject);
            format!(in alloc; "{who} has an unreadable manifest at {place}: {kind}")
        }
        Cause::Tools(subject, tools) => format!(in alloc; "{} needs tools {tools}", Who(subject)),
        Cause::Unversioned(subject, requirement, text) => {
            let need = unversioned_text(alloc, requirement, text)?;
            format!(in alloc; "{} needs {need}", Who(subject))
        }
        Cause::UnknownUrl(subject, url) => {
            let (who, url) = (Who(subject), quoted(alloc, url)?);
            format!(in alloc; "{who} needs {url}, which the registry doesn't know")
        }
        Cause::Given => String::from_str(alloc, "given"),
    }
}
