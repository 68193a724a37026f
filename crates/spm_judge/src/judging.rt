ghost use Rattle.std.specs.Prelude.{◌≡◌, ℕ, IfErr, IfOk, IsOk, List, map, not};
ghost use Rattle.std.specs.List.{filter};
ghost use Rattle.std.specs.Cmp.Lexicographic.{slice_cmp};
ghost use Rattle.std.specs.List.Sorted.{IsStrictlySortedBy};
ghost use Rattle.std.specs.Ordering.{nat_cmp};
ghost use Rattle.pub_facts.specs.Valid.{IsValid};
ghost use Rattle.pub_plain.specs.Answers.{catalogue_by};
ghost use Rattle.pub_plain.specs.Choosing.{pin_of};
ghost use Rattle.spm_judge.specs.Heard.{contents_in};
ghost use Rattle.spm_judge.specs.Held.{is_held, says_of};
ghost use Rattle.spm_judge.specs.Judged.{AreWanted, IsJudged, Refuses, Tells, first_lacking};
ghost use Rattle.spm_judge.specs.Steps.{AreWantedIn, IsJudgedIn, keys_in, verdict_in};
ghost use Rattle.spm_version.specs.Release.{Parts};

use crate::broken::first_broken;
use crate::held::{Replies, is_answered};
use crate::judgement::Judgement;
use crate::keys::keys_read;
use crate::pinned::{Pinned, hear_pins};
use crate::spread::nodes_on;
use pub_term::NodeName;
use spm_ident::Identity;
use spm_key::Key;
use spm_manifest::Manifest;
use spm_trait::TraitName;
use spm_version::{Items, NoMemory, Release, ToolsVersion};
use std::alloc::Global;
use std::collections::BTreeSet;

// The first of the keys that isn't answered.
fn first_lacking<R: Replies>(
    alloc: Global,
    replies: &R,
    keys: &[Key],
) -> Result<Option<Key>, NoMemory>
    ensures { IfOk result (λ lacking. lacking ≡ first_lacking (says_of (R.held replies.now)) keys.now) }
{
    for key in keys {
        if !is_answered(alloc, replies, key)? {
            return Ok(Some(key.copy(alloc)?));
        }
    }
    Ok(None)
}

// Those of the keys that aren't held.
fn unheld<R: Replies>(alloc: Global, replies: &R, keys: &[Key]) -> Result<Items<Key>, NoMemory>
    ensures { IfOk result (λ lacking. lacking ≡ filter (λ asked. not (is_held (R.held replies.now) asked)) keys.now) }
{
    let mut lacking = Items::new(alloc);
    for key in keys {
        if replies.reply(key).is_none() {
            lacking.push(key.copy(alloc)?)?;
        }
    }
    Ok(lacking)
}

// The judgement over what was heard and the nodes that are on.
fn judge_on<R: Replies>(
    alloc: Global,
    replies: &R,
    root: &Manifest,
    pins: &[(Identity, Release)],
    pinned: &[Pinned],
    on: &BTreeSet<NodeName>,
) -> Result<Result<(), Judgement>, NoMemory>
    ensures { IfOk result (λ it. Tells it (verdict_in (says_of (R.held replies.now)) pins.now (contents_in root.now pinned.now) pinned.now on.now.keys)) }
{
    let keys = keys_read(alloc, root, pins, pinned, on)?;
    let lacking = first_lacking(alloc, replies, keys.as_slice())?;
    match lacking {
        Some(key) => Ok(Err(Judgement::NoReply(key))),
        None => match first_broken(alloc, replies, root, pins, pinned, on)? {
            Some(text) => Ok(Err(Judgement::Invalid(text))),
            None => Ok(Ok(())),
        },
    }
}

// The judgement over what was heard.
fn judge_heard<R: Replies>(
    alloc: Global,
    replies: &R,
    root: &Manifest,
    asked: &[TraitName],
    pins: &[(Identity, Release)],
    pinned: &[Pinned],
) -> Result<Result<(), Judgement>, NoMemory>
    ensures { IfOk result (IsJudgedIn root.now asked.now (says_of (R.held replies.now)) pins.now pinned.now) }
{
    let on = nodes_on(alloc, replies, root, asked, pinned)?;
    judge_on(alloc, replies, root, pins, pinned, &on)
}

// The judgement, but for want of memory.
fn judge_all<R: Replies>(
    alloc: Global,
    root: &Manifest,
    asked: &[TraitName],
    tools: ToolsVersion,
    pins: &[(Identity, Release)],
    replies: &R,
) -> Result<Result<(), Judgement>, NoMemory>
    ensures { IfOk result (IsJudged (record { root = root.now; asked = asked.now; tools = tools }) (says_of (R.held replies.now)) pins.now) }
{
    let pinned = hear_pins(alloc, tools, pins, replies)?;
    judge_heard(alloc, replies, root, asked, pins, pinned.as_slice())
}

// The keys that are wanted over what was heard and the nodes that are on.
fn wanted_on<R: Replies>(
    alloc: Global,
    replies: &R,
    root: &Manifest,
    pins: &[(Identity, Release)],
    pinned: &[Pinned],
    on: &BTreeSet<NodeName>,
) -> Result<Items<Key>, NoMemory>
    ensures { IfOk result (λ keys. keys
        ≡ filter (λ asked. not (is_held (R.held replies.now) asked)) (keys_in (contents_in root.now pinned.now) pins.now on.now.keys)) }
{
    let keys = keys_read(alloc, root, pins, pinned, on)?;
    unheld(alloc, replies, keys.as_slice())
}

// The keys that are wanted over what was heard.
fn wanted_heard<R: Replies>(
    alloc: Global,
    replies: &R,
    root: &Manifest,
    asked: &[TraitName],
    pins: &[(Identity, Release)],
    pinned: &[Pinned],
) -> Result<Items<Key>, NoMemory>
    ensures { IfOk result (AreWantedIn root.now asked.now (R.held replies.now) pins.now pinned.now) }
{
    let on = nodes_on(alloc, replies, root, asked, pinned)?;
    wanted_on(alloc, replies, root, pins, pinned, &on)
}

/// Judges pins: whether they are a valid selection of the root, with these of its traits asked and these tools running, over the replies. The
/// pins ascend by their identities.
///
/// It reads the list of each pin, then the manifest of each pin, in the order of identities, and then the look-up of each active need for a range
/// or one version that is on a URL: those of the root, and then of the pins in the order of identities, those that are always in force before
/// those that a trait guards, and traits by their bytes. A look-up that isn't answered gives no package.
///
/// # Errors
///
/// `NoReply` exactly where a key that is read isn't answered, with the first; `Invalid` exactly where all are answered and the pins aren't valid,
/// with the first rule that is broken: a release that isn't listed; a version that can't be used; a trait that isn't declared or a need
/// that isn't met, in the order in which look-ups are read; a pin that nothing reaches; and `Memory`.
pub fn judge<R: Replies>(
    alloc: Global,
    root: &Manifest,
    asked: &[TraitName],
    tools: ToolsVersion,
    pins: &[(Identity, Release)],
    replies: &R,
) -> Result<(), Judgement>
    requires { IsStrictlySortedBy (slice_cmp nat_cmp) (map (λ (pin : List ℕ × Parts). pin.0) pins.now) }
    ensures judged { IsJudged (record { root = root.now; asked = asked.now; tools = tools }) (says_of (R.held replies.now)) pins.now result }
    ensures valid { IsOk result → IsValid (record { root = root.now; asked = asked.now; tools = tools })
        (catalogue_by (says_of (R.held replies.now))) (pin_of pins.now) }
    ensures invalid { IfErr result (λ why. Refuses why (IsValid (record { root = root.now; asked = asked.now; tools = tools })
        (catalogue_by (says_of (R.held replies.now))) (pin_of pins.now))) }
{
    match judge_all(alloc, root, asked, tools, pins, replies) {
        Ok(judgement) => judgement,
        Err(NoMemory) => Err(Judgement::Memory),
    }
}

/// Of the keys that judging reads over the replies that are held so far, those that aren't held, in the order of reading. Where there are none,
/// [`judge`] reads no key that isn't held.
///
/// # Errors
///
/// `NoMemory` alone.
pub fn wanted<R: Replies>(
    alloc: Global,
    root: &Manifest,
    asked: &[TraitName],
    tools: ToolsVersion,
    pins: &[(Identity, Release)],
    replies: &R,
) -> Result<Items<Key>, NoMemory>
    requires { IsStrictlySortedBy (slice_cmp nat_cmp) (map (λ (pin : List ℕ × Parts). pin.0) pins.now) }
    ensures { IfOk result (λ keys. AreWanted (record { root = root.now; asked = asked.now; tools = tools }) (R.held replies.now) pins.now keys) }
{
    let pinned = hear_pins(alloc, tools, pins, replies)?;
    wanted_heard(alloc, replies, root, asked, pins, pinned.as_slice())
}
