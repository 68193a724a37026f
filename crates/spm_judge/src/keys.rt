// The keys that judging reads.
ghost use Rattle.std.specs.Prelude.{◌≡◌, ◌++◌, [], filter_map, flat_map, IfOk, OnOk};
ghost use Rattle.std.specs.List.{cons_option, filter};
ghost use Rattle.std.specs.Option.{option_copied};
ghost use Rattle.pub_facts.specs.Facts.{is_of};
ghost use Rattle.spm_judge.specs.Heard.{contents_in};
ghost use Rattle.spm_judge.specs.Judged.{list_keys, lookup_key, manifest_keys};
ghost use Rattle.spm_judge.specs.Steps.{keys_in, lookups_in};

use crate::pinned::{Pinned, contents_at};
use pub_facts::is_of;
use pub_term::NodeName;
use spm_api::is_looked_up;
use spm_ident::Identity;
use spm_key::Key;
use spm_manifest::{Manifest, Need, Target};
use spm_trait::TraitName;
use spm_version::{Items, NoMemory, Release};
use std::alloc::Global;
use std::collections::BTreeSet;

// Puts the look-up of a need behind the keys, where it has one.
fn push_lookup(alloc: Global, keys: &mut Items<Key>, need: &Need) -> Result<(), NoMemory>
    ensures { OnOk result (keys.new ≡ keys.old ++ cons_option (lookup_key need.now) []) }
{
    if !is_looked_up(&need.requirement) {
        return Ok(());
    }
    match &need.target {
        Target::Url(url) => keys.push(Key::Identifiers(url.copy(alloc)?)),
        Target::Registry(_) | Target::Local(_) => Ok(()),
    }
}

// Puts the look-ups of the needs that are always in force, or of those that a trait guards, behind the keys.
fn push_lookups(
    alloc: Global,
    keys: &mut Items<Key>,
    under: Option<&TraitName>,
    needs: &[Need],
) -> Result<(), NoMemory>
    ensures { OnOk result (keys.new ≡ keys.old ++ filter_map lookup_key (filter (is_of (option_copied under.entry)) needs.now)) }
{
    for need in needs {
        if is_of(under, need) {
            push_lookup(alloc, keys, need)?;
        }
    }
    Ok(())
}

// Puts the look-ups of what a node makes active behind the keys.
fn push_lookups_at(
    alloc: Global,
    keys: &mut Items<Key>,
    root: &Manifest,
    pinned: &[Pinned],
    node: &NodeName,
) -> Result<(), NoMemory>
    ensures { OnOk result (keys.new ≡ keys.old ++ lookups_in (contents_in root.now pinned.now) node.now) }
{
    match contents_at(root, pinned, node.package()) {
        None => Ok(()),
        Some(contents) => push_lookups(alloc, keys, node.trait_name(), contents.needs()),
    }
}

// The lists of the pins.
fn list_keys(alloc: Global, pins: &[(Identity, Release)]) -> Result<Items<Key>, NoMemory>
    ensures { IfOk result (λ keys. keys ≡ list_keys pins.now) }
{
    let mut keys = Items::new(alloc);
    for (identity, _) in pins {
        keys.push(Key::List(identity.copy(alloc)?))?;
    }
    Ok(keys)
}

// Puts the manifests of the pins behind the keys.
fn push_manifests(
    alloc: Global,
    keys: &mut Items<Key>,
    pins: &[(Identity, Release)],
) -> Result<(), NoMemory>
    ensures { OnOk result (keys.new ≡ keys.old ++ manifest_keys pins.now) }
{
    for (identity, release) in pins {
        keys.push(Key::Manifest(identity.copy(alloc)?, release.copy(alloc)?))?;
    }
    Ok(())
}

/// The lists of the pins, their manifests, and the look-ups of what is active, node by node.
pub(crate) fn keys_read(
    alloc: Global,
    root: &Manifest,
    pins: &[(Identity, Release)],
    pinned: &[Pinned],
    on: &BTreeSet<NodeName>,
) -> Result<Items<Key>, NoMemory>
    ensures { IfOk result (λ keys. keys ≡ keys_in (contents_in root.now pinned.now) pins.now on.now.keys) }
{
    let mut keys = list_keys(alloc, pins)?;
    push_manifests(alloc, &mut keys, pins)?;
    for node in on {
        push_lookups_at(alloc, &mut keys, root, pinned, node)?;
    }
    Ok(keys)
}
