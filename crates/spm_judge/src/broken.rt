// The first rule of valid selections that is broken.
ghost use Rattle.std.specs.Prelude.{◌≡◌, ◌++◌, codes, IfOk, Some, option_map};
ghost use Rattle.std.specs.List.{filter, list_any};
ghost use Rattle.pub_facts.specs.Facts.{is_inside, is_of, under_names};
ghost use Rattle.pub_plain.specs.Choosing.{pin_of};
ghost use Rattle.pub_term.specs.Node.{trait_of};
ghost use Rattle.pub_term.specs.NodeLaws.{node_eq};
ghost use Rattle.pub_term.specs.declared.node.NodeName.TheVariants.{Package};
ghost use Rattle.spm_explain.specs.Sentence.{sentence};
ghost use Rattle.spm_judge.specs.Heard.{contents_in};
ghost use Rattle.spm_judge.specs.Held.{says_of};
ghost use Rattle.spm_judge.specs.Judged.{Because, Unlisted, Unreached, broken_in, first_of, subject_at, text_of, undeclared, unmet, unmet_on, unreached};
ghost use Rattle.spm_judge.specs.Steps.{broken_by, first_in, unlisted_in, unusable_in};

use crate::held::Replies;
use crate::pinned::{Pinned, contents_at, target_of};
use pub_facts::{is_declared, is_of, unmet_cause};
use pub_plain::pin_of;
use pub_term::{Cause, NodeName, Subject};
use spm_explain::sentence;
use spm_ident::Identity;
use spm_manifest::{Manifest, Need};
use spm_trait::TraitName;
use spm_version::{Items, NoMemory, Release, Text};
use std::alloc::Global;
use std::collections::BTreeSet;

// That a release isn't listed.
fn unlisted_text(alloc: Global, identity: &Identity, release: &Release) -> Result<Text, NoMemory>
    ensures { IfOk result (λ text. text ≡ text_of (Unlisted identity.now release.now)) }
{
    let text = format!(in alloc; "{identity} {release} isn't listed")?;
    Ok(Text::from_string(text))
}

// The first pin whose release isn't listed.
fn unlisted(alloc: Global, pinned: &[Pinned]) -> Result<Option<Text>, NoMemory>
    ensures { IfOk result (λ text. text ≡ option_map text_of (first_of unlisted_in pinned.now)) }
{
    for pin in pinned {
        if !pin.listed {
            return Ok(Some(unlisted_text(alloc, &pin.identity, &pin.release)?));
        }
    }
    Ok(None)
}

// The sentence of a cause.
fn because(alloc: Global, cause: &Cause) -> Result<Text, NoMemory>
    ensures { IfOk result (λ text. text ≡ text_of (Because cause.now)) }
{
    Ok(Text::from_string(sentence(alloc, cause)?))
}

// The first pin that can't be used.
fn unusable(alloc: Global, pinned: &[Pinned]) -> Result<Option<Text>, NoMemory>
    ensures { IfOk result (λ text. text ≡ option_map text_of (first_of unusable_in pinned.now)) }
{
    for pin in pinned {
        if let Err(cause) = &pin.contents {
            return Ok(Some(because(alloc, cause)?));
        }
    }
    Ok(None)
}

// The trait of a node, where it has one.
fn under_names(alloc: Global, node: &NodeName) -> Result<Items<TraitName>, NoMemory>
    ensures { IfOk result (λ under. under ≡ under_names (trait_of node.now)) }
{
    let mut under = Items::new(alloc);
    if let Some(name) = node.trait_name() {
        under.push(name.copy(alloc)?)?;
    }
    Ok(under)
}

// The root or a pin, with the node's trait.
fn subject_at(
    alloc: Global,
    pins: &[(Identity, Release)],
    node: &NodeName,
) -> Result<Subject, NoMemory>
    ensures { IfOk result (λ subject. subject ≡ subject_at pins.now node.now) }
{
    let under = under_names(alloc, node)?;
    let Some(identity) = node.package() else {
        return Ok(Subject { owner: None, under });
    };
    match pin_of(pins, identity) {
        None => Ok(Subject { owner: None, under }),
        Some(release) => {
            let owner = Some((identity.copy(alloc)?, release.copy(alloc)?));
            Ok(Subject { owner, under })
        }
    }
}

// Whether a release is pinned of a package that a need has within its requirement.
fn is_inside(pins: &[(Identity, Release)], need: &Need, target: &Identity) -> bool
    ensures { result ≡ is_inside need.now.requirement (pin_of pins.now target.now) }
{
    match pin_of(pins, target) {
        None => false,
        Some(release) => need.requirement.contains(release),
    }
}

// Why a need that is active isn't met, where it is on this package.
fn unmet_on(
    alloc: Global,
    pins: &[(Identity, Release)],
    subject: Subject,
    need: &Need,
    target: Option<Identity>,
) -> Result<Option<Cause>, NoMemory>
    ensures { IfOk result (λ cause. option_map (λ one. Because one) cause ≡ unmet_on pins.now subject need.now target) }
{
    let Some(target) = target else {
        return Ok(Some(unmet_cause(alloc, subject, need)?));
    };
    if is_inside(pins, need, &target) {
        return Ok(None);
    }
    let requirement = need.requirement.copy(alloc)?;
    Ok(Some(Cause::Requires(subject, target, requirement)))
}

// Why a need that is active isn't met.
fn unmet<R: Replies>(
    alloc: Global,
    replies: &R,
    pins: &[(Identity, Release)],
    node: &NodeName,
    need: &Need,
) -> Result<Option<Cause>, NoMemory>
    ensures { IfOk result (λ cause. option_map (λ one. Because one) cause
        ≡ unmet (says_of (R.held replies.now)) pins.now (subject_at pins.now node.now) need.now) }
{
    let target = target_of(alloc, replies, need)?;
    let subject = subject_at(alloc, pins, node)?;
    unmet_on(alloc, pins, subject, need, target)
}

// Why a need of a node isn't met: of the needs that it makes active the first that isn't.
fn first_unmet<R: Replies>(
    alloc: Global,
    replies: &R,
    pins: &[(Identity, Release)],
    node: &NodeName,
    needs: &[Need],
) -> Result<Option<Cause>, NoMemory>
    ensures { IfOk result (λ cause. option_map (λ one. Because one) cause
        ≡ first_of (unmet (says_of (R.held replies.now)) pins.now (subject_at pins.now node.now)) (filter (is_of (trait_of node.now)) needs.now)) }
{
    let under = node.trait_name();
    for need in needs {
        if is_of(under, need) {
            if let Some(cause) = unmet(alloc, replies, pins, node, need)? {
                return Ok(Some(cause));
            }
        }
    }
    Ok(None)
}

// Why the node's trait isn't declared.
fn undeclared(
    alloc: Global,
    pins: &[(Identity, Release)],
    node: &NodeName,
    contents: &Manifest,
) -> Result<Option<Cause>, NoMemory>
    ensures { IfOk result (λ cause. option_map (λ one. Because one) cause
        ≡ undeclared (subject_at pins.now node.now) contents.now.traits.entries (trait_of node.now)) }
{
    let Some(name) = node.trait_name() else {
        return Ok(None);
    };
    if is_declared(contents.traits().entries.as_slice(), name) {
        return Ok(None);
    }
    Ok(Some(Cause::NoTrait(subject_at(alloc, pins, node)?)))
}

// What breaks a rule at a node that is on.
fn broken_at<R: Replies>(
    alloc: Global,
    replies: &R,
    pins: &[(Identity, Release)],
    node: &NodeName,
    contents: &Manifest,
) -> Result<Option<Cause>, NoMemory>
    ensures { IfOk result (λ cause. option_map (λ one. Because one) cause
        ≡ broken_in (says_of (R.held replies.now)) pins.now node.now (Some contents.now)) }
{
    if let Some(cause) = undeclared(alloc, pins, node, contents)? {
        return Ok(Some(cause));
    }
    first_unmet(alloc, replies, pins, node, contents.needs())
}

// What breaks a rule at a node that is on, as a sentence.
fn broken_text<R: Replies>(
    alloc: Global,
    replies: &R,
    root: &Manifest,
    pins: &[(Identity, Release)],
    pinned: &[Pinned],
    node: &NodeName,
) -> Result<Option<Text>, NoMemory>
    ensures { IfOk result (λ text. text
        ≡ option_map text_of (broken_by (says_of (R.held replies.now)) pins.now (contents_in root.now pinned.now) node.now)) }
{
    let Some(contents) = contents_at(root, pinned, node.package()) else {
        return Ok(None);
    };
    match broken_at(alloc, replies, pins, node, contents)? {
        None => Ok(None),
        Some(cause) => Ok(Some(because(alloc, &cause)?)),
    }
}

// The first thing that is broken at the nodes that are on.
fn first_at<R: Replies>(
    alloc: Global,
    replies: &R,
    root: &Manifest,
    pins: &[(Identity, Release)],
    pinned: &[Pinned],
    on: &BTreeSet<NodeName>,
) -> Result<Option<Text>, NoMemory>
    ensures { IfOk result (λ text. text
        ≡ option_map text_of (first_of (broken_by (says_of (R.held replies.now)) pins.now (contents_in root.now pinned.now)) on.now.keys)) }
{
    for node in on {
        if let Some(text) = broken_text(alloc, replies, root, pins, pinned, node)? {
            return Ok(Some(text));
        }
    }
    Ok(None)
}

// Whether a package is reached.
fn is_reached(alloc: Global, on: &BTreeSet<NodeName>, identity: &Identity) -> Result<bool, NoMemory>
    ensures { IfOk result (λ reached. reached ≡ list_any (node_eq (Package identity.now)) on.now.keys) }
{
    let node = NodeName::Package(identity.copy(alloc)?);
    Ok(on.contains(&node))
}

// That nothing reaches a pin.
fn unreached_text(alloc: Global, identity: &Identity) -> Result<Text, NoMemory>
    ensures { IfOk result (λ text. text ≡ text_of (Unreached identity.now)) }
{
    let text = format!(in alloc; "{identity} isn't reached")?;
    Ok(Text::from_string(text))
}

// The first pin that nothing reaches.
fn unreached(
    alloc: Global,
    pins: &[(Identity, Release)],
    on: &BTreeSet<NodeName>,
) -> Result<Option<Text>, NoMemory>
    ensures { IfOk result (λ text. text ≡ option_map text_of (first_of (unreached on.now.keys) pins.now)) }
{
    for (identity, _) in pins {
        if !is_reached(alloc, on, identity)? {
            return Ok(Some(unreached_text(alloc, identity)?));
        }
    }
    Ok(None)
}

/// The first rule that is broken, as a sentence.
pub(crate) fn first_broken<R: Replies>(
    alloc: Global,
    replies: &R,
    root: &Manifest,
    pins: &[(Identity, Release)],
    pinned: &[Pinned],
    on: &BTreeSet<NodeName>,
) -> Result<Option<Text>, NoMemory>
    ensures { IfOk result (λ text. text
        ≡ option_map text_of (first_in (says_of (R.held replies.now)) pins.now (contents_in root.now pinned.now) pinned.now on.now.keys)) }
{
    if let Some(text) = unlisted(alloc, pinned)? {
        return Ok(Some(text));
    }
    if let Some(text) = unusable(alloc, pinned)? {
        return Ok(Some(text));
    }
    if let Some(text) = first_at(alloc, replies, root, pins, pinned, on)? {
        return Ok(Some(text));
    }
    unreached(alloc, pins, on)
}
