// The releases that packages are decided on.
ghost use Rattle.std.specs.Prelude.{◌≡◌, ◌<◌, ◌≤◌, ℕ, All, IfOk, OnOk, ◌++◌, [], filter_map, length, reverse};
ghost use Rattle.std.specs.List.{cons_option};
ghost use Rattle.pub_plain.specs.Answers.{lookups_by};
ghost use Rattle.pub_plain.specs.Derivation.{pin_at};
ghost use Rattle.pub_plain.specs.Next.{choice_or_none};
ghost use Rattle.pub_plain.specs.Told.{answers_to};
ghost use Rattle.pub_trail.specs.First.{chosen};
ghost use Rattle.pub_trail.specs.Required.{decision_in};
ghost use Rattle.pub_trail.specs.Turn.{State};

use crate::ordering::number_of;
use crate::told::Told;
use pub_facts::release_at;
use pub_term::NodeName;
use pub_trail::{Assigned, decisions};
use spm_ident::Identity;
use spm_version::{Items, NoMemory, Release};
use std::alloc::Global;

// A package with the release that it is decided on, by what is decided of each node.
fn pin_at(
    alloc: Global,
    told: &Told,
    decided: &[Option<u32>],
    node: &NodeName,
) -> Result<Option<(Identity, Release)>, NoMemory>
    requires few { length told.now.known.nodes ≤ 4096 }
    ensures { IfOk result (λ pin. (state : State) → state.names ≡ told.now.known.nodes
        → ((number : ℕ) → choice_or_none (decision_in decided.now number) ≡ chosen state.trail number)
        → pin ≡ pin_at (lookups_by (answers_to told.now)) state node.now) }
{
    let NodeName::Package(identity) = node else {
        return Ok(None);
    };
    let number = number_of(told.known.nodes.as_slice(), node);
    let Some(Some(choice)) = decided.get(number as usize) else {
        return Ok(None);
    };
    match release_at(told.known.list_of(identity), *choice) {
        None => Ok(None),
        Some(release) => Ok(Some((identity.copy(alloc)?, release.copy(alloc)?))),
    }
}

// Puts what was found behind the others.
fn push_found(
    pins: &mut Items<(Identity, Release)>,
    found: Option<(Identity, Release)>,
) -> Result<(), NoMemory>
    ensures { OnOk result (pins.new ≡ pins.old ++ cons_option found []) }
{
    match found {
        None => Ok(()),
        Some(pin) => pins.push(pin),
    }
}

/// The packages among these nodes that are decided, with their releases, in the order of the nodes. The trail has the newest behind the
/// others.
///
/// # Errors
///
/// `NoMemory` alone.
pub fn pins_of(
    alloc: Global,
    told: &Told,
    nodes: &[NodeName],
    trail: &[Assigned],
) -> Result<Items<(Identity, Release)>, NoMemory>
    requires few { length told.now.known.nodes ≤ 4096 }
    requires there { All (λ entry. entry.node < length told.now.known.nodes) trail.now }
    ensures { IfOk result (λ pins. (state : State) → state.names ≡ told.now.known.nodes → state.trail ≡ reverse trail.now
        → pins ≡ filter_map (pin_at (lookups_by (answers_to told.now)) state) nodes.now) }
{
    let decided = decisions(alloc, told.known.nodes.as_slice().len(), trail)?;
    let mut pins = Items::new(alloc);
    for node in nodes {
        let found = pin_at(alloc, told, &decided, node)?;
        push_found(&mut pins, found)?;
    }
    Ok(pins)
}
