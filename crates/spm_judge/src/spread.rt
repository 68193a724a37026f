// What pins reach and enable: from the root and what the words ask of it, pass by pass, until a pass adds nothing.
ghost use Rattle.std.specs.Prelude.{◌≡◌, IfOk, OnOk, Some};
ghost use Rattle.std.specs.Option.{option_copied};
ghost use Rattle.pub_facts.specs.Catalogue.{target_of};
ghost use Rattle.pub_facts.specs.Facts.{owner_node, trait_node};
ghost use Rattle.pub_plain.specs.Answers.{lookups_by};
ghost use Rattle.spm_judge.specs.Heard.{contents_in};
ghost use Rattle.spm_judge.specs.Held.{says_of};
ghost use Rattle.spm_judge.specs.On.{AreOn};
ghost use Rattle.spm_judge.specs.Spread.{
  each_put,
  is_active,
  is_asked,
  is_one_on,
  opening,
  put_on,
  put_trait,
  spread,
  spread_ask,
  spread_need,
  spread_owner,
  spread_pin,
  spread_to,
  spread_trait,
};

use crate::held::Replies;
use crate::pinned::{Pinned, contents_at, target_of};
use pub_facts::enabled_by;
use pub_term::NodeName;
use spm_ident::Identity;
use spm_manifest::{Ask, Guard, Manifest, Need};
use spm_trait::{TraitEntry, TraitName};
use spm_version::NoMemory;
use std::alloc::Global;
use std::collections::BTreeSet;

// The node of an owner.
fn owner_node(alloc: Global, owner: Option<&Identity>) -> Result<NodeName, NoMemory>
    ensures { IfOk result (λ node. node ≡ owner_node (option_copied owner.entry)) }
{
    match owner {
        None => Ok(NodeName::Root),
        Some(identity) => Ok(NodeName::Package(identity.copy(alloc)?)),
    }
}

// The node of a trait of an owner.
fn trait_node(
    alloc: Global,
    owner: Option<&Identity>,
    name: &TraitName,
) -> Result<NodeName, NoMemory>
    ensures { IfOk result (λ node. node ≡ trait_node (option_copied owner.entry) name.now) }
{
    let name = name.copy(alloc)?;
    match owner {
        None => Ok(NodeName::RootTrait(name)),
        Some(identity) => Ok(NodeName::PackageTrait(identity.copy(alloc)?, name)),
    }
}

// Puts a node.
fn put(on: &mut BTreeSet<NodeName>, node: NodeName) -> Result<(), NoMemory>
    ensures { OnOk result (on.new.keys ≡ put_on on.old.keys node) }
{
    on.insert(node)?;
    Ok(())
}

// Puts traits of an owner.
fn put_traits(
    alloc: Global,
    on: &mut BTreeSet<NodeName>,
    owner: Option<&Identity>,
    names: &[TraitName],
) -> Result<(), NoMemory>
    ensures { OnOk result (on.new.keys ≡ each_put (put_trait (option_copied owner.entry)) on.old.keys names.now) }
{
    for name in names {
        put(on, trait_node(alloc, owner, name)?)?;
    }
    Ok(())
}

// Whether one of the traits of an owner is on.
fn is_one_on(
    alloc: Global,
    on: &BTreeSet<NodeName>,
    owner: Option<&Identity>,
    names: &[TraitName],
) -> Result<bool, NoMemory>
    ensures { IfOk result (λ one. one ≡ is_one_on on.now.keys (option_copied owner.entry) names.now) }
{
    for name in names {
        if on.contains(&trait_node(alloc, owner, name)?) {
            return Ok(true);
        }
    }
    Ok(false)
}

// Whether a need with this guard is active.
fn is_active(
    alloc: Global,
    on: &BTreeSet<NodeName>,
    owner: Option<&Identity>,
    guard: &Guard,
) -> Result<bool, NoMemory>
    ensures { IfOk result (λ active. active ≡ is_active on.now.keys (option_copied owner.entry) guard.now) }
{
    match guard {
        Guard::Always => Ok(on.contains(&owner_node(alloc, owner)?)),
        Guard::Any(names) => is_one_on(alloc, on, owner, names.as_slice()),
    }
}

// Whether what is asked under these traits of an owner is asked.
fn is_asked(
    alloc: Global,
    on: &BTreeSet<NodeName>,
    owner: Option<&Identity>,
    under: &[TraitName],
) -> Result<bool, NoMemory>
    ensures { IfOk result (λ asked. asked ≡ is_asked on.now.keys (option_copied owner.entry) under.now) }
{
    if under.is_empty() {
        return Ok(true);
    }
    is_one_on(alloc, on, owner, under)
}

// What an active need asks of its package.
fn spread_ask(
    alloc: Global,
    on: &mut BTreeSet<NodeName>,
    owner: Option<&Identity>,
    target: &Identity,
    ask: &Ask,
) -> Result<(), NoMemory>
    ensures { OnOk result (on.new.keys ≡ spread_ask (option_copied owner.entry) target.now on.old.keys ask.now) }
{
    if !is_asked(alloc, on, owner, ask.under.as_slice())? {
        return Ok(());
    }
    put(on, trait_node(alloc, Some(target), &ask.name)?)
}

// What an active need on this package reaches and enables.
fn spread_to(
    alloc: Global,
    on: &mut BTreeSet<NodeName>,
    owner: Option<&Identity>,
    need: &Need,
    target: &Identity,
) -> Result<(), NoMemory>
    ensures { OnOk result (on.new.keys ≡ spread_to (option_copied owner.entry) need.now on.old.keys (Some target.now)) }
{
    put(on, owner_node(alloc, Some(target))?)?;
    for ask in need.asked.as_slice() {
        spread_ask(alloc, on, owner, target, ask)?;
    }
    Ok(())
}

// What a need reaches and enables, where it is active.
fn spread_need<R: Replies>(
    alloc: Global,
    replies: &R,
    on: &mut BTreeSet<NodeName>,
    owner: Option<&Identity>,
    need: &Need,
) -> Result<(), NoMemory>
    ensures { OnOk result (on.new.keys
        ≡ spread_need (target_of (lookups_by (says_of (R.held replies.now)))) (option_copied owner.entry) on.old.keys need.now) }
{
    if !is_active(alloc, on, owner, &need.guard)? {
        return Ok(());
    }
    match target_of(alloc, replies, need)? {
        None => Ok(()),
        Some(target) => spread_to(alloc, on, owner, need, &target),
    }
}

// What a trait enables, where it is on.
fn spread_trait(
    alloc: Global,
    on: &mut BTreeSet<NodeName>,
    owner: Option<&Identity>,
    entries: &[TraitEntry],
    entry: &TraitEntry,
) -> Result<(), NoMemory>
    ensures { OnOk result (on.new.keys ≡ spread_trait (option_copied owner.entry) entries.now on.old.keys entry.now) }
{
    if !on.contains(&trait_node(alloc, owner, &entry.name)?) {
        return Ok(());
    }
    put_traits(alloc, on, owner, enabled_by(entries, &entry.name))
}

// What needs reach and enable, where they are active.
fn spread_needs<R: Replies>(
    alloc: Global,
    replies: &R,
    on: &mut BTreeSet<NodeName>,
    owner: Option<&Identity>,
    needs: &[Need],
) -> Result<(), NoMemory>
    ensures { OnOk result (on.new.keys
        ≡ each_put (spread_need (target_of (lookups_by (says_of (R.held replies.now)))) (option_copied owner.entry)) on.old.keys needs.now) }
{
    for need in needs {
        spread_need(alloc, replies, on, owner, need)?;
    }
    Ok(())
}

// What traits enable, where they are on.
fn spread_traits(
    alloc: Global,
    on: &mut BTreeSet<NodeName>,
    owner: Option<&Identity>,
    entries: &[TraitEntry],
) -> Result<(), NoMemory>
    ensures { OnOk result (on.new.keys ≡ each_put (spread_trait (option_copied owner.entry) entries.now) on.old.keys entries.now) }
{
    for entry in entries {
        spread_trait(alloc, on, owner, entries, entry)?;
    }
    Ok(())
}

// What the needs and the traits of an owner reach and enable.
fn spread_owner<R: Replies>(
    alloc: Global,
    replies: &R,
    on: &mut BTreeSet<NodeName>,
    owner: Option<&Identity>,
    contents: &Manifest,
) -> Result<(), NoMemory>
    ensures { OnOk result (on.new.keys
        ≡ spread_owner (target_of (lookups_by (says_of (R.held replies.now)))) (option_copied owner.entry) contents.now on.old.keys) }
{
    spread_needs(alloc, replies, on, owner, contents.needs())?;
    spread_traits(alloc, on, owner, contents.traits().entries.as_slice())
}

// What the needs and the traits of a pin reach and enable, if it can be used.
fn spread_pin<R: Replies>(
    alloc: Global,
    replies: &R,
    root: &Manifest,
    pinned: &[Pinned],
    on: &mut BTreeSet<NodeName>,
    pin: &Pinned,
) -> Result<(), NoMemory>
    ensures { OnOk result (on.new.keys
        ≡ spread_pin (target_of (lookups_by (says_of (R.held replies.now)))) (contents_in root.now pinned.now) on.old.keys pin.now) }
{
    let owner = Some(&pin.identity);
    match contents_at(root, pinned, owner) {
        None => Ok(()),
        Some(contents) => spread_owner(alloc, replies, on, owner, contents),
    }
}

// One pass: the root, and then the pins that can be used.
fn spread<R: Replies>(
    alloc: Global,
    replies: &R,
    root: &Manifest,
    pinned: &[Pinned],
    on: &mut BTreeSet<NodeName>,
) -> Result<(), NoMemory>
    ensures { OnOk result (on.new.keys
        ≡ spread (target_of (lookups_by (says_of (R.held replies.now)))) (contents_in root.now pinned.now) pinned.now on.old.keys) }
{
    spread_owner(alloc, replies, on, None, root)?;
    for pin in pinned {
        spread_pin(alloc, replies, root, pinned, on, pin)?;
    }
    Ok(())
}

// The root, and what the words ask of it.
fn opening(alloc: Global, asked: &[TraitName]) -> Result<BTreeSet<NodeName>, NoMemory>
    ensures { IfOk result (λ on. on.keys ≡ opening asked.now) }
{
    let mut on = BTreeSet::new(alloc);
    put(&mut on, NodeName::Root)?;
    put_traits(alloc, &mut on, None, asked)?;
    Ok(on)
}

/// The nodes of what the root and the pins reach and enable.
pub(crate) fn nodes_on<R: Replies>(
    alloc: Global,
    replies: &R,
    root: &Manifest,
    asked: &[TraitName],
    pinned: &[Pinned],
) -> Result<BTreeSet<NodeName>, NoMemory>
    ensures { IfOk result (λ on. AreOn (record {
      asked = asked.now;
      contents = contents_in root.now pinned.now;
      target = target_of (lookups_by (says_of (R.held replies.now)));
    }) on.keys) }
{
    let mut on = opening(alloc, asked)?;
    loop {
        let before = on.len();
        spread(alloc, replies, root, pinned, &mut on)?;
        if on.len() == before {
            return Ok(on);
        }
    }
}
