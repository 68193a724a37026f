// What the replies say of the pins and of what is needed.
ghost use Rattle.std.specs.Prelude.{◌≡◌, IfOk};
ghost use Rattle.std.specs.List.{list_any};
ghost use Rattle.std.specs.Option.{option_copied};
ghost use Rattle.pub_facts.specs.Catalogue.{Read, is_above, package_of_target, target_of};
ghost use Rattle.pub_plain.specs.Answers.{lookups_by};
ghost use Rattle.spm_judge.specs.Heard.{contents_in, contents_or, heard, heard_of, is_listed, pin_subject, usable_or};
ghost use Rattle.spm_judge.specs.Held.{says_of};
ghost use Rattle.spm_version.specs.ReleaseLaws.{release_eq};

use crate::held::{Replies, hear};
use pub_term::{Cause, Subject};
use spm_api::Said;
use spm_ident::Identity;
use spm_key::Key;
use spm_manifest::{Manifest, Need, Target};
use spm_version::{Items, NoMemory, Release, Requirement, ToolsVersion};
use std::alloc::Global;

/// A pinned release, and what the replies say of it.
#[derive(Drop)]
pub(crate) struct Pinned {
    pub(crate) identity: Identity,
    pub(crate) release: Release,
    /// Its package's list has it.
    pub(crate) listed: bool,
    /// Its manifest, or why it can't be used.
    pub(crate) contents: Result<Manifest, Cause>,
}

// Whether a list has a release.
fn has_release(releases: &[Release], release: &Release) -> bool
    ensures { result ≡ list_any (release_eq release.now) releases.now }
{
    releases.contains(release)
}

// Whether the list of a package has a release.
fn is_listed<R: Replies>(
    alloc: Global,
    replies: &R,
    identity: &Identity,
    release: &Release,
) -> Result<bool, NoMemory>
    ensures { IfOk result (λ listed. listed ≡ is_listed (says_of (R.held replies.now)) (identity.now, release.now)) }
{
    match hear(alloc, replies, &Key::List(identity.copy(alloc)?))? {
        Some(Said::Releases(releases)) => Ok(has_release(releases.as_slice(), release)),
        _ => Ok(false),
    }
}

// What is said of a pin itself.
fn subject_of(alloc: Global, identity: &Identity, release: &Release) -> Result<Subject, NoMemory>
    ensures { IfOk result (λ subject. subject ≡ pin_subject (identity.now, release.now)) }
{
    let owner = Some((identity.copy(alloc)?, release.copy(alloc)?));
    let under = Items::new(alloc);
    Ok(Subject { owner, under })
}

// Whether the first version of the tools is greater.
fn is_above(first: ToolsVersion, second: ToolsVersion) -> bool
    ensures { result ≡ is_above first second }
{
    first.major > second.major
        || (first.major == second.major
            && (first.minor > second.minor
                || (first.minor == second.minor && first.patch > second.patch)))
}

// A manifest that doesn't need greater tools.
fn usable(tools: ToolsVersion, subject: Subject, manifest: Manifest) -> Result<Manifest, Cause>
    ensures { result ≡ usable_or tools subject (Read manifest) }
{
    let needed = manifest.tools();
    if is_above(needed, tools) {
        return Err(Cause::Tools(subject, needed));
    }
    Ok(manifest)
}

// The manifest of a release, or why it can't be used.
fn contents_of<R: Replies>(
    alloc: Global,
    tools: ToolsVersion,
    replies: &R,
    identity: &Identity,
    release: &Release,
) -> Result<Result<Manifest, Cause>, NoMemory>
    ensures { IfOk result (λ contents. contents ≡ contents_or tools (says_of (R.held replies.now)) (identity.now, release.now)) }
{
    let key = Key::Manifest(identity.copy(alloc)?, release.copy(alloc)?);
    let subject = subject_of(alloc, identity, release)?;
    match hear(alloc, replies, &key)? {
        Some(Said::Manifest(manifest)) => Ok(usable(tools, subject, manifest)),
        Some(Said::FaultyManifest(place, kind)) => {
            Ok(Err(Cause::Unreadable(subject, place, kind)))
        }
        _ => Ok(Err(Cause::NoManifest(subject))),
    }
}

// What the replies say of one pin.
fn hear_pin<R: Replies>(
    alloc: Global,
    tools: ToolsVersion,
    identity: &Identity,
    release: &Release,
    replies: &R,
) -> Result<Pinned, NoMemory>
    ensures { IfOk result (λ pin. pin ≡ heard_of tools (says_of (R.held replies.now)) (identity.now, release.now)) }
{
    let listed = is_listed(alloc, replies, identity, release)?;
    let package = identity.copy(alloc)?;
    let version = release.copy(alloc)?;
    let contents = contents_of(alloc, tools, replies, identity, release)?;
    Ok(Pinned {
        identity: package,
        release: version,
        listed,
        contents,
    })
}

/// What the replies say of the pins, one by one.
pub(crate) fn hear_pins<R: Replies>(
    alloc: Global,
    tools: ToolsVersion,
    pins: &[(Identity, Release)],
    replies: &R,
) -> Result<Items<Pinned>, NoMemory>
    ensures { IfOk result (λ pinned. pinned ≡ heard tools (says_of (R.held replies.now)) pins.now) }
{
    let mut pinned = Items::new(alloc);
    for (identity, release) in pins {
        pinned.push(hear_pin(alloc, tools, identity, release, replies)?)?;
    }
    Ok(pinned)
}

/// The contents of the root, where there is no package, or of a pinned package that can be used.
pub(crate) fn contents_at<'j>(
    root: &'j Manifest,
    pinned: &'j [Pinned],
    owner: Option<&Identity>,
) -> Option<&'j Manifest>
    ensures { option_copied result ≡ contents_in root.now pinned.now (option_copied owner.entry) }
{
    let Some(identity) = owner else {
        return Some(root);
    };
    for pin in pinned {
        if &pin.identity == identity {
            return match &pin.contents {
                Ok(contents) => Some(contents),
                Err(_) => None,
            };
        }
    }
    None
}

// The package of what a need is on, where it is known.
fn package_at<R: Replies>(
    alloc: Global,
    replies: &R,
    target: &Target,
) -> Result<Option<Identity>, NoMemory>
    ensures { IfOk result (λ found. found ≡ package_of_target (lookups_by (says_of (R.held replies.now))) target.now) }
{
    match target {
        Target::Registry(identity) => Ok(Some(identity.copy(alloc)?)),
        Target::Url(url) => match hear(alloc, replies, &Key::Identifiers(url.copy(alloc)?))? {
            Some(Said::Package(package)) => Ok(package),
            _ => Ok(None),
        },
        Target::Local(_) => Ok(None),
    }
}

/// The package of a need for a range or for one version, where it is known.
pub(crate) fn target_of<R: Replies>(
    alloc: Global,
    replies: &R,
    need: &Need,
) -> Result<Option<Identity>, NoMemory>
    ensures { IfOk result (λ target. target ≡ target_of (lookups_by (says_of (R.held replies.now))) need.now) }
{
    match need.requirement {
        Requirement::Exact(_) | Requirement::Range(_, _) => {
            package_at(alloc, replies, &need.target)
        }
        Requirement::Branch(_) | Requirement::Revision(_) | Requirement::Path => Ok(None),
    }
}
