// The lists of a solver beside its names, and how a turn changes them.
ghost use Rattle.std.specs.Prelude.{◌≡◌, ◌+◌, ◌≤◌, ◌++◌, IfOk, List, OnErr, OnOk, map, reverse, vec_capacity, vec_len};
ghost use Rattle.std.specs.List.{list_any};
ghost use Rattle.pub_plain.specs.Kept.{assigned_kept, loaded_kept, state_with};
ghost use Rattle.pub_term.specs.declared.node.NodeName.{NodeName};
ghost use Rattle.pub_trail.specs.Trail.{level_of};
ghost use Rattle.pub_trail.specs.Turn.{Learns, Went, after_conflict, same_place};
ghost use Rattle.pub_trail.specs.declared.origin.Origin.TheVariants.{OfLoad};

use pub_term::{Cause, Incompat};
use pub_trail::{Assigned, Cited, Origin, Place, drop_above};
use spm_version::{Items, NoMemory};
use std::alloc::Global;
use std::marker::Model;

/// The lists of a solver beside its names. Contracts see them as a `Kept` of `specs/Kept.antt`.
#[derive(Debug, Drop)]
pub struct Lists {
    pub sizes: Vec<u32>,
    pub incompats: Vec<Incompat>,
    pub origins: Vec<Origin>,
    pub loads: Vec<Place>,
    /// The newest behind the others.
    pub trail: Vec<Assigned>,
}

impl Model for Lists {
    ghost use Rattle.pub_plain.specs.Kept.{Kept};

    ghost Value = { Kept };

    ghost view = { λ l. record {
      sizes = l.sizes.items;
      incompats = l.incompats.items;
      origins = l.origins.items;
      loads = l.loads.items;
      trail = l.trail.items;
    } };
}

// The incompatibilities of facts, and their origins.
fn parts(
    alloc: Global,
    facts: Items<(Incompat, Cause)>,
) -> Result<(Vec<Incompat>, Vec<Origin>), NoMemory>
    ensures { IfOk result (λ parts. (parts.0.items ≡ map (λ fact. fact.0) facts) × (parts.1.items ≡ map (λ fact. OfLoad fact.1) facts)) }
{
    let mut incompats = Vec::new(alloc);
    let mut origins = Vec::new(alloc);
    for (incompat, cause) in facts.into_vec() {
        incompats.push(incompat)?;
        origins.push(Origin::OfLoad(cause))?;
    }
    Ok((incompats, origins))
}

// Puts items behind a list that has room for them.
fn put_all<T: Drop>(list: &mut Vec<T>, more: Vec<T>)
    requires { vec_len list.old + vec_len more ≤ vec_capacity list.old }
    ensures { list.new.items ≡ list.old.items ++ more.items }
{
    let mut more = more;
    let Ok(()) = list.append(&mut more) else {
        unreachable!()
    };
}

impl Lists {
    /// Whether a load is done.
    pub fn is_loaded(&self, place: &Place) -> bool
        ensures { result ≡ list_any (same_place place.now) self.now.loads }
    {
        for done in &self.loads {
            if place.node == done.node && place.choice == done.choice {
                return true;
            }
        }
        false
    }

    /// The level of the newest assignment.
    pub fn level(&self) -> u32
        ensures { result ≡ level_of (reverse self.now.trail) }
    {
        match self.trail.last() {
            Some(entry) => entry.level,
            None => 0,
        }
    }

    /// Puts what a load brought behind the others: the sizes of its names, and its facts.
    ///
    /// # Errors
    ///
    /// `NoMemory` alone. The lists are what they were then.
    pub fn put_load(
        &mut self,
        alloc: Global,
        place: Place,
        sizes: Vec<u32>,
        facts: Items<(Incompat, Cause)>,
    ) -> Result<(), NoMemory>
        ensures ok { OnOk result (self.new ≡ loaded_kept self.old place sizes.items facts) }
        ensures err { OnErr result (self.new ≡ self.old) }
    {
        let (incompats, origins) = parts(alloc, facts)?;
        self.sizes.reserve(sizes.len())?;
        self.incompats.reserve(incompats.len())?;
        self.origins.reserve(origins.len())?;
        self.loads.reserve(1)?;
        put_all(&mut self.sizes, sizes);
        put_all(&mut self.incompats, incompats);
        put_all(&mut self.origins, origins);
        self.loads.push_reserved(place);
        Ok(())
    }

    /// Puts an assignment behind the others.
    ///
    /// # Errors
    ///
    /// `NoMemory` alone. The lists are what they were then.
    pub fn assign(&mut self, entry: Assigned) -> Result<(), NoMemory>
        ensures ok { OnOk result (self.new ≡ assigned_kept self.old entry) }
        ensures err { OnErr result (self.new ≡ self.old) }
    {
        self.trail.push(entry)?;
        Ok(())
    }

    /// Puts what a conflict learned behind the others, unless it is what was in conflict, and goes back to a level.
    ///
    /// # Errors
    ///
    /// `NoMemory` alone. The lists are what they were then.
    pub fn go_back(
        &mut self,
        first: u64,
        incompat: Incompat,
        steps: Items<Cited>,
        level: u32,
    ) -> Result<(), NoMemory>
        ensures ok { OnOk result ((names : List NodeName)
            → after_conflict (state_with names self.old) first (Learns incompat.terms steps level) ≡ Went (state_with names self.new)) }
        ensures err { OnErr result (self.new ≡ self.old) }
    {
        if !steps.as_slice().is_empty() {
            self.incompats.reserve(1)?;
            self.origins.reserve(1)?;
            self.incompats.push_reserved(incompat);
            self.origins.push_reserved(Origin::OfConflict(first, steps));
        }
        drop_above(&mut self.trail, level);
        Ok(())
    }
}
