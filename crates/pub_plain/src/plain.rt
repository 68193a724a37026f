ghost use Rattle.std.specs.Prelude.{◌≡◌, [], ◌∷◌, ℕ, IfErr, IfOk, List, None, OnErr, OnOk, filter_map};
ghost use Rattle.pub_plain.specs.Answers.{lookups_by};
ghost use Rattle.pub_plain.specs.Derivation.{choice_texts, derivation_in, pin_at, pins_in};
ghost use Rattle.pub_plain.specs.Gives.{IsGiven, Refuses};
ghost use Rattle.pub_plain.specs.Kept.{state_with};
ghost use Rattle.pub_plain.specs.Solver.{Turns, answers_now, opened, turn_now};
ghost use Rattle.pub_plain.specs.Stops.{IsRead};
ghost use Rattle.pub_plain.specs.Told.{answers_to};
ghost use Rattle.pub_plain.specs.Turning.{IsTurning, opening_kept};
ghost use Rattle.pub_term.specs.declared.node.NodeName.TheVariants.{Root};
ghost use Rattle.pub_term.specs.declared.term.Term.{Term};
ghost use Rattle.pub_trail.specs.Turn.{Refuted, Step};
ghost use Rattle.spm_api.specs.Said.{reply_said};

use crate::giving::keep;
use crate::lists::Lists;
use crate::ordering::ordered;
use crate::pins::pins_of;
use crate::refuting::derivation;
use crate::texts::choices_text;
use crate::told::Told;
use crate::turning::turn;
use pub_facts::Known;
use pub_proof::Derivation;
use pub_set::Choices;
use pub_term::{Cause, NodeName};
use pub_trail::{Assigned, Reason, Turned};
use spm_api::{ReplyFault, said};
use spm_ident::Identity;
use spm_key::{Key, Reply};
use spm_manifest::Manifest;
use spm_trait::TraitName;
use spm_version::{Items, NoMemory, Release, Text, ToolsVersion};
use std::alloc::Global;
use std::marker::Model;

/// The plain solver of one job. Contracts see it as a `Solver` of `specs/Solver.antt`: its job and pins, what the replies that were given
/// say, its state, and how many turns it did.
#[derive(Drop)]
pub struct Plain {
    alloc: Global,
    told: Told,
    lists: Lists,
    turns: u64,
}

impl Model for Plain {
    ghost use Rattle.pub_plain.specs.Solver.{Solver};

    ghost Value = { Solver };

    ghost use Rattle.pub_plain.specs.Turning.{IsTurning, solver_of};

    ghost view = { λ p. solver_of p.told p.lists p.turns };

    ghost invariant = { λ p. IsTurning p.told p.lists };
}

// The lists of a solver at its opening: the root is chosen, at the first level.
fn opening(alloc: Global) -> Result<Lists, NoMemory>
    ensures { IfOk result (λ lists. opening_kept ≡ lists) }
{
    let mut sizes = Vec::new(alloc);
    sizes.push(2)?;
    let mut trail = Vec::new(alloc);
    trail.push(Assigned {
        node: 0,
        choices: Choices::of(alloc, 2, &[1])?,
        level: 1,
        reason: Reason::Decided,
    })?;
    Ok(Lists {
        sizes,
        incompats: Vec::new(alloc),
        origins: Vec::new(alloc),
        loads: Vec::new(alloc),
        trail,
    })
}

// What a solver knows at its opening: the root is named.
fn known(alloc: Global, asked: Items<TraitName>) -> Result<Known, NoMemory>
    ensures { IfOk result (λ known. known ≡ record { asked = asked; lists = []; urls = []; nodes = Root ∷ [] }) }
{
    let mut nodes = Items::new(alloc);
    nodes.push(NodeName::Root)?;
    Ok(Known {
        asked,
        lists: Items::new(alloc),
        urls: Items::new(alloc),
        nodes,
    })
}

impl Plain {
    /// A solver of a root's manifest, with the traits that the words ask of it, the releases that are pinned, and the running version of
    /// the tools.
    ///
    /// # Errors
    ///
    /// `NoMemory` alone.
    pub fn new(
        alloc: Global,
        root: Manifest,
        asked: Items<TraitName>,
        pins: Items<(Identity, Release)>,
        tools: ToolsVersion,
    ) -> Result<Plain, NoMemory>
        ensures { IfOk result (λ plain. plain ≡ opened (record { root = root; asked = asked; tools = tools }) pins) }
    {
        let known = known(alloc, asked)?;
        let lists = opening(alloc)?;
        let told = Told {
            root,
            tools,
            pins,
            known,
            long: Items::new(alloc),
            manifests: Items::new(alloc),
        };
        Ok(Plain {
            alloc,
            told,
            lists,
            turns: 0,
        })
    }

    /// How many turns were done. The count stops at the greatest number of 64 bits.
    pub fn turns(&self) -> u64
        ensures { result ≡ self.now.turns }
    {
        self.turns
    }

    /// One turn: the first of its cases that applies, as `turn_of` of `pub_trail` has it (PubGrub's `solver.md`, over sets of choices).
    /// Where it needs a reply, passes a limit, selects or refutes, nothing changes, and no turn is counted.
    ///
    /// Where it selects, the pins are the first valid selection ([`a_selection_is_first`](crate::a_selection_is_first)). Where it refutes, the
    /// derivation is checked by its own facts, which are those of loads that were done, and no selection is valid
    /// ([`a_refutation_is_checked`](crate::a_refutation_is_checked), [`a_refutation_means_none`](crate::a_refutation_means_none)). Turns and
    /// replies come to an end ([`resolutions_end`](crate::resolutions_end)).
    ///
    /// # Errors
    ///
    /// `NoMemory` alone. Nothing has changed then.
    pub fn turn(&mut self) -> Result<Turned, NoMemory>
        ensures ok { IfOk result (λ turned. Turns turned self.old self.new) }
        ensures err { OnErr result (self.new ≡ self.old) }
    {
        let turned = turn(self.alloc, &mut self.told, &mut self.lists)?;
        if let Turned::Went = turned {
            self.turns = self.turns.saturating_add(1);
        }
        Ok(turned)
    }

    /// Gives the reply of a key that a turn needs: a list, a look-up or a manifest. What it says is known from then on.
    ///
    /// # Errors
    ///
    /// The reason for which the reply is refused: `Garbled`, `TooLong`, `Says` exactly where its status isn't 200, 404 or 410, with the
    /// detail of its problem (RFC 7807), and `Unreadable` exactly where a list or a look-up isn't of its form; and `Memory`. Nothing has
    /// changed then.
    pub fn give(&mut self, key: &Key, reply: &Reply) -> Result<(), ReplyFault>
        requires read { IsRead key.now }
        requires fresh { answers_now self.old key.now ≡ None }
        ensures ok { OnOk result (IsGiven key.now reply.now self.old self.new) }
        ensures refused { IfErr result (λ fault. Refuses fault (reply_said key.now reply.now)) }
        ensures err { OnErr result (self.new ≡ self.old) }
    {
        let it = said(self.alloc, key, reply)?;
        keep(self.alloc, &mut self.told, key, it)?;
        Ok(())
    }

    /// The packages that are decided, with their releases, in the order of their identities. Where a turn is `Selected` they are the
    /// selection.
    ///
    /// # Errors
    ///
    /// `NoMemory` alone.
    pub fn pins(&self) -> Result<Items<(Identity, Release)>, NoMemory>
        ensures { IfOk result (λ pins. pins ≡ pins_in (lookups_by (answers_now self.now)) self.now.state) }
    {
        let nodes = ordered(self.alloc, self.told.known.nodes.as_slice())?;
        decided_pins(self.alloc, &self.told, &self.lists, nodes.as_slice())
    }

    /// The derivation behind a refutation: a fact is one line, and a resolution comes after its two parts (PubGrub's `solver.md`). Its
    /// nodes stand in node order.
    ///
    /// # Errors
    ///
    /// `NoMemory` alone.
    pub fn derivation(&self) -> Result<Derivation, NoMemory>
        requires { (terms : List Term) × (first : ℕ) × (steps : List Step) × (turn_now self.now ≡ Refuted terms first steps) }
        ensures { IfOk result (λ derivation. (terms : List Term) (first : ℕ) (steps : List Step)
            → turn_now self.now ≡ Refuted terms first steps
            → derivation ≡ derivation_in ⟦<Cause as PartialEq>⟧.eq (lookups_by (answers_now self.now)) self.now.state first steps) }
    {
        derivation(self.alloc, &self.told, &self.lists)
    }

    /// For each node, in the order of the derivation's nodes, the texts of its choices.
    ///
    /// # Errors
    ///
    /// `NoMemory` alone.
    pub fn choices_text(&self) -> Result<Items<Items<Text>>, NoMemory>
        ensures { IfOk result (λ texts. texts ≡ choice_texts (lookups_by (answers_now self.now)) self.now.state.names) }
    {
        let nodes = ordered(self.alloc, self.told.known.nodes.as_slice())?;
        choices_text(self.alloc, &self.told.known, nodes.as_slice())
    }
}

// The packages among these nodes that are decided.
fn decided_pins(
    alloc: Global,
    told: &Told,
    lists: &Lists,
    nodes: &[NodeName],
) -> Result<Items<(Identity, Release)>, NoMemory>
    requires { IsTurning told.now lists.now }
    ensures { IfOk result (λ pins. pins
        ≡ filter_map (pin_at (lookups_by (answers_to told.now)) (state_with told.now.known.nodes lists.now)) nodes.now) }
{
    pins_of(alloc, told, nodes, &lists.trail)
}
