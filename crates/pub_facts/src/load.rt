ghost use Rattle.std.specs.Prelude.{◌≡◌, ◌++◌, ◌∷◌, [], map, flat_map, IfOk, None, OnOk, Some, true};
ghost use Rattle.std.specs.List.{filter};
ghost use Rattle.std.specs.Option.{option_copied};
ghost use Rattle.pub_facts.specs.Facts.{
  asks_of,
  clauses_in,
  enables,
  fact,
  facts_in,
  is_of,
  load_of,
  need_clauses,
  subject_of,
  under_names,
  words_clauses,
};
ghost use Rattle.pub_facts.specs.Known.{IsInRange, IsWithinLimits, lookups_of};
ghost use Rattle.pub_term.specs.Node.{package_of, trait_of};
ghost use Rattle.pub_term.specs.declared.cause.Cause.TheVariants.{NoTrait};
ghost use Rattle.spm_trait.specs.Closure.{enabled_by, is_declared};

use crate::cause::own_subject;
use crate::clause::{alone, asked_always, asked_under, enables, required, unmet, words_ask};
use crate::fact::{Fact, Written, subject_terms};
use crate::known::{Known, LoadPlace};
use pub_term::Cause;
use spm_ident::Identity;
use spm_manifest::{Ask, Guard, Manifest, Need};
use spm_trait::{TraitEntry, TraitName};
use spm_version::{Items, NoMemory};
use std::alloc::Global;

// Puts what is said of a trait that is asked of a package behind the others.
fn push_asked(
    alloc: Global,
    known: &Known,
    place: &LoadPlace,
    clauses: &mut Items<Fact>,
    target: &Identity,
    ask: &Ask,
) -> Result<(), NoMemory>
    ensures { OnOk result (clauses.new ≡ clauses.old
        ++ asks_of (lookups_of known.now) (load_of place.now.node place.now.choice) target.now ask.now.name ask.now.under) }
{
    if ask.under.as_slice().is_empty() {
        return clauses.push(asked_always(alloc, known, place, target, &ask.name)?);
    }
    for condition in ask.under.as_slice() {
        clauses.push(asked_under(alloc, known, place, target, &ask.name, condition)?)?;
    }
    Ok(())
}

// Puts what is said of all traits that are asked of a package behind the others.
fn push_asks(
    alloc: Global,
    known: &Known,
    place: &LoadPlace,
    clauses: &mut Items<Fact>,
    target: &Identity,
    asks: &[Ask],
) -> Result<(), NoMemory>
    ensures { OnOk result (clauses.new ≡ clauses.old
        ++ flat_map (λ ask. asks_of (lookups_of known.now) (load_of place.now.node place.now.choice) target.now ask.name ask.under) asks.now) }
{
    for ask in asks {
        push_asked(alloc, known, place, clauses, target, ask)?;
    }
    Ok(())
}

// Puts what is said of a need behind the others.
fn push_need(
    alloc: Global,
    known: &Known,
    place: &LoadPlace,
    clauses: &mut Items<Fact>,
    need: &Need,
) -> Result<(), NoMemory>
    requires { IsWithinLimits known.now }
    ensures { OnOk result (clauses.new ≡ clauses.old
        ++ need_clauses (lookups_of known.now) (load_of place.now.node place.now.choice) need.now) }
{
    let Some(target) = known.target_of(need) else {
        return clauses.push(unmet(alloc, known, place, need)?);
    };
    clauses.push(required(alloc, known, place, target, need)?)?;
    push_asks(alloc, known, place, clauses, target, need.asked.as_slice())?;
    Ok(())
}

/// Whether a load has the need: the load of a trait has those whose guard names it, each other load those that are always in force.
pub fn is_of(under: Option<&TraitName>, need: &Need) -> bool
    ensures { result ≡ is_of (option_copied under.entry) need.now }
{
    match (under, &need.guard) {
        (None, Guard::Always) => true,
        (Some(name), Guard::Any(names)) => names.as_slice().contains(name),
        (None, Guard::Any(_)) | (Some(_), Guard::Always) => false,
    }
}

// Puts what is said of the needs that the load has behind the others.
fn push_needs(
    alloc: Global,
    known: &Known,
    place: &LoadPlace,
    clauses: &mut Items<Fact>,
    needs: &[Need],
) -> Result<(), NoMemory>
    requires { IsWithinLimits known.now }
    ensures { OnOk result (clauses.new ≡ clauses.old
        ++ flat_map (need_clauses (lookups_of known.now) (load_of place.now.node place.now.choice))
        (filter (is_of (trait_of place.now.node)) needs.now)) }
{
    let under = place.node.trait_name();
    for need in needs {
        if is_of(under, need) {
            push_need(alloc, known, place, clauses, need)?;
        }
    }
    Ok(())
}

// What the words ask of the root.
fn words_clauses(alloc: Global, known: &Known, place: &LoadPlace) -> Result<Items<Fact>, NoMemory>
    ensures { IfOk result (λ clauses. clauses ≡ words_clauses known.now.asked (package_of place.now.node)) }
{
    let mut clauses = Items::new(alloc);
    if place.node.package().is_some() {
        return Ok(clauses);
    }
    for name in known.asked.as_slice() {
        clauses.push(words_ask(alloc, name)?)?;
    }
    Ok(clauses)
}

/// What a trait enables: what its entry says.
pub fn enabled_by<'e>(entries: &'e [TraitEntry], name: &TraitName) -> &'e [TraitName]
    ensures { result.now ≡ enabled_by entries.now name.now }
{
    for entry in entries {
        if &entry.name == name {
            return entry.enables.as_slice();
        }
    }
    &[]
}

/// Whether a trait has an entry, or is `default`, which needs none.
pub fn is_declared(entries: &[TraitEntry], name: &TraitName) -> bool
    ensures { result ≡ is_declared entries.now name.now }
{
    if name.text() == "default" {
        return true;
    }
    for entry in entries {
        if &entry.name == name {
            return true;
        }
    }
    false
}

// What a trait's enabling of others says.
fn enabled_clauses(
    alloc: Global,
    known: &Known,
    place: &LoadPlace,
    enabled: &[TraitName],
) -> Result<Items<Fact>, NoMemory>
    ensures { IfOk result (λ clauses. clauses
        ≡ map (enables (lookups_of known.now) (load_of place.now.node place.now.choice)) enabled.now) }
{
    let mut clauses = Items::new(alloc);
    for other in enabled {
        clauses.push(enables(alloc, known, place, other)?)?;
    }
    Ok(clauses)
}

// What the load of the root or of a package says.
fn owner_clauses(
    alloc: Global,
    known: &Known,
    place: &LoadPlace,
    manifest: &Manifest,
) -> Result<Items<Fact>, NoMemory>
    requires within { IsWithinLimits known.now }
    requires owner { trait_of place.now.node ≡ None }
    ensures { IfOk result (λ clauses. clauses
        ≡ clauses_in known.now.asked (lookups_of known.now) (load_of place.now.node place.now.choice) manifest.now) }
{
    let mut clauses = words_clauses(alloc, known, place)?;
    push_needs(alloc, known, place, &mut clauses, manifest.needs())?;
    Ok(clauses)
}

// What the load of a trait that is declared says.
fn trait_clauses(
    alloc: Global,
    known: &Known,
    place: &LoadPlace,
    name: &TraitName,
    manifest: &Manifest,
) -> Result<Items<Fact>, NoMemory>
    requires within { IsWithinLimits known.now }
    requires name { trait_of place.now.node ≡ Some name.now }
    requires declared { is_declared manifest.now.traits.entries name.now ≡ true }
    ensures { IfOk result (λ clauses. clauses
        ≡ clauses_in known.now.asked (lookups_of known.now) (load_of place.now.node place.now.choice) manifest.now) }
{
    let enabled = enabled_by(manifest.traits().entries.as_slice(), name);
    let mut clauses = enabled_clauses(alloc, known, place, enabled)?;
    push_needs(alloc, known, place, &mut clauses, manifest.needs())?;
    Ok(clauses)
}

// What the load of a trait that isn't declared says.
fn undeclared_clause(
    alloc: Global,
    known: &Known,
    place: &LoadPlace,
) -> Result<Items<Fact>, NoMemory>
    ensures { IfOk result (λ clauses. clauses
        ≡ fact [] (NoTrait (subject_of (lookups_of known.now) (load_of place.now.node place.now.choice) (under_names (trait_of place.now.node)))) ∷ []) }
{
    let subject = own_subject(alloc, known, place)?;
    let mut clauses = Items::new(alloc);
    clauses.push(alone(alloc, Cause::NoTrait(subject)))?;
    Ok(clauses)
}

// What a load whose owner can be used says.
fn clauses_in(
    alloc: Global,
    known: &Known,
    place: &LoadPlace,
    manifest: &Manifest,
) -> Result<Items<Fact>, NoMemory>
    requires { IsWithinLimits known.now }
    ensures { IfOk result (λ clauses. clauses
        ≡ clauses_in known.now.asked (lookups_of known.now) (load_of place.now.node place.now.choice) manifest.now) }
{
    let Some(name) = place.node.trait_name() else {
        return owner_clauses(alloc, known, place, manifest);
    };
    if is_declared(manifest.traits().entries.as_slice(), name) {
        trait_clauses(alloc, known, place, name, manifest)
    } else {
        undeclared_clause(alloc, known, place)
    }
}

// Terms behind those of the subject.
fn terms_behind(
    alloc: Global,
    subject: &Items<Written>,
    terms: Items<Written>,
) -> Result<Items<Written>, NoMemory>
    ensures { IfOk result (λ all. all ≡ subject.now ++ terms) }
{
    let mut own = terms.into_vec();
    let mut all = subject.copy(alloc)?.into_vec();
    all.append(&mut own)?;
    Ok(Items::from_vec(all))
}

// The fact of a clause: the subject's terms stand before its own.
fn behind(
    alloc: Global,
    subject: &Items<Written>,
    terms: Items<Written>,
    cause: Cause,
) -> Result<Fact, NoMemory>
    ensures { IfOk result (λ one. one ≡ fact (subject.now ++ terms) cause) }
{
    let terms = terms_behind(alloc, subject, terms)?;
    Ok(Fact { terms, cause })
}

// The facts of clauses.
fn all_behind(
    alloc: Global,
    subject: &Items<Written>,
    clauses: Items<Fact>,
) -> Result<Items<Fact>, NoMemory>
    ensures { IfOk result (λ facts. facts ≡ map (λ clause. fact (subject.now ++ clause.terms) clause.cause) clauses) }
{
    let mut facts = Items::new(alloc);
    for clause in clauses.into_vec() {
        let Fact { terms, cause } = clause;
        let one = behind(alloc, subject, terms, cause)?;
        facts.push(one)?;
    }
    Ok(facts)
}

/// The facts of a load whose owner can be used, as they are written.
pub fn load_facts(
    alloc: Global,
    known: &Known,
    place: &LoadPlace,
    manifest: &Manifest,
) -> Result<Items<Fact>, NoMemory>
    requires within { IsWithinLimits known.now }
    requires there { IsInRange (lookups_of known.now) (load_of place.now.node place.now.choice) }
    ensures { IfOk result (λ facts. facts
        ≡ facts_in known.now.asked (lookups_of known.now) (load_of place.now.node place.now.choice) manifest.now) }
{
    let subject = subject_terms(alloc, known, place)?;
    let clauses = clauses_in(alloc, known, place, manifest)?;
    all_behind(alloc, &subject, clauses)
}
