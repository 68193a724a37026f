// What is almost satisfied.
ghost use Rattle.std.specs.Prelude.{◌≡◌, All, IfOk, Some, option_map};
ghost use Rattle.pub_set.specs.declared.choices.Choices.{Choices};
ghost use Rattle.pub_term.specs.Term.{set_at};
ghost use Rattle.pub_term.specs.declared.term.Incompat.{Incompat};
ghost use Rattle.pub_trail.specs.Forced.{kept_forced};
ghost use Rattle.pub_trail.specs.KnownOf.{CanHold};
ghost use Rattle.pub_trail.specs.Turn.{forced_entry};
ghost use Rattle.pub_trail.specs.Walk.{terms_of};

use crate::trail::{Assigned, Reason};
use pub_set::Choices;
use pub_term::Incompat;
use spm_version::NoMemory;
use std::alloc::Global;

// The assignment that leaves a node the choices outside of its set.
fn derived(
    alloc: Global,
    choices: &Choices,
    node: u32,
    number: u64,
    level: u32,
) -> Result<Assigned, NoMemory>
    ensures { IfOk result (λ entry. entry ≡ forced_entry level (record { number = number; term = record { node = node; choices = choices.now } })) }
{
    Ok(Assigned {
        node,
        choices: choices.opposite(alloc)?,
        level,
        reason: Reason::Derived(number),
    })
}

/// What the newest incompatibility that is almost satisfied forces: its node is left the choices outside of its set, at this level.
pub fn forced(
    alloc: Global,
    left: &[Choices],
    incompats: &[Incompat],
    level: u32,
) -> Result<Option<Assigned>, NoMemory>
    requires { All (λ (incompat : Incompat). CanHold left.now incompat) incompats.now }
    ensures { IfOk result (λ entry. entry ≡ option_map (forced_entry level) (kept_forced left.now 0 (terms_of incompats.now))) }
{
    let mut place = incompats.len();
    while place > 0 {
        place -= 1;
        let incompat = &incompats[place];
        if let Some(node) = incompat.almost(left) {
            if let Some(choices) = incompat.set_on(node) {
                return Ok(Some(derived(alloc, choices, node, place as u64, level)?));
            }
        }
    }
    Ok(None)
}
