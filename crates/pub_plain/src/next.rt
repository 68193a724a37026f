// Which node is next, and its choice.
ghost use Rattle.std.specs.Prelude.{◌≡◌, ◌<◌, ◌≤◌, All, IfOk, IfSome, false, get_or, is_some, length, reverse};
ghost use Rattle.std.specs.Option.{option_map};
ghost use Rattle.pub_facts.specs.Known.{IsWithinLimits, list_in};
ghost use Rattle.pub_plain.specs.Answers.{lookups_by};
ghost use Rattle.pub_plain.specs.Choosing.{first_that, least_from, next_in, next_package, owner_number, pin_of, ranked_in};
ghost use Rattle.pub_plain.specs.Kept.{state_with};
ghost use Rattle.pub_plain.specs.Loading.{name_at};
ghost use Rattle.pub_plain.specs.Next.{ArePasses, choice_or_none, is_before, is_needed_in, is_ready_in, next_by, next_of, numbered_name};
ghost use Rattle.pub_plain.specs.Told.{answers_to};
ghost use Rattle.pub_plain.specs.Turning.{IsTurning};
ghost use Rattle.pub_set.specs.Choices.{has};
ghost use Rattle.pub_term.specs.Known.{known_at};
ghost use Rattle.pub_trail.specs.KnownOf.{AreLeft};
ghost use Rattle.pub_trail.specs.Required.{AreDecisions, AreOpen, decision_in, loaded_facts};
ghost use Rattle.pub_trail.specs.Turn.{or_some};
ghost use Rattle.pub_trail.specs.Walk.{terms_of};

use crate::lists::Lists;
use crate::loading::is_package;
use crate::preference::{pin_of, preferred};
use crate::told::Told;
use pub_set::Choices;
use pub_term::NodeName;
use pub_trail::{Place, decisions, open_nodes};
use spm_ident::Identity;
use spm_version::NoMemory;
use std::alloc::Global;
use std::cmp::Ordering;

/// A node that is next, the choice for it, and the load that its decision asks.
#[derive(Debug, Drop)]
pub struct NextNode {
    pub node: u32,
    pub choice: u32,
    pub place: Place,
}

// What is decided of each node, and for each whether it is open.
#[derive(Drop)]
struct Standing {
    decided: Vec<Option<u32>>,
    opens: Vec<bool>,
}

// Whether a node comes before the least so far.
fn is_before(names: &[NodeName], place: usize, least: Option<usize>) -> bool
    requires place { place < length names.now }
    requires least { IfSome least (λ other. other < length names.now) }
    ensures { result ≡ is_before names.now place least }
{
    match least {
        None => true,
        Some(other) => names[other].cmp(&names[place]) != Ordering::Less,
    }
}

// The number of the least of the nodes that pass.
fn least(names: &[NodeName], passes: &[bool]) -> Option<usize>
    requires { length passes.now ≡ length names.now }
    ensures { numbered_name names.now result
        ≡ least_from (λ number name. get_or passes.now number false) 0 names.now }
{
    let mut least = None;
    let mut place = names.len();
    while place > 0 {
        place -= 1;
        if passes[place] && is_before(names, place, least) {
            least = Some(place);
        }
    }
    least
}

// The number of the owner of a trait; a package and the root own themselves.
fn owner_number(names: &[NodeName], name: &NodeName) -> usize
    ensures { result ≡ owner_number names.now name.now }
{
    let mut number = 0;
    for other in names {
        if other.package() == name.package() && other.trait_name().is_none() {
            return number;
        }
        number += 1;
    }
    number
}

// The decided choice of a node; 0 where it isn't decided.
fn chosen(decided: &[Option<u32>], number: usize) -> u32
    ensures { result ≡ choice_or_none (decision_in decided.now number) }
{
    match decided.get(number) {
        Some(Some(choice)) => *choice,
        Some(None) | None => 0,
    }
}

// Whether a node is decided.
fn is_decided(decided: &[Option<u32>], number: usize) -> bool
    ensures { result ≡ is_some (decision_in decided.now number) }
{
    match decided.get(number) {
        Some(Some(_)) => true,
        Some(None) | None => false,
    }
}

// For each node whether it is an open trait whose owner is decided.
fn ready_nodes(
    alloc: Global,
    names: &[NodeName],
    opens: &[bool],
    decided: &[Option<u32>],
) -> Result<Vec<bool>, NoMemory>
    requires { length opens.now ≡ length names.now }
    ensures { IfOk result (λ passes. ArePasses (is_ready_in names.now opens.now decided.now) names.now passes.items) }
{
    let mut passes = Vec::new(alloc);
    while passes.len() < names.len() {
        let number = passes.len();
        let name = &names[number];
        let is_ready = name.trait_name().is_some()
            && (opens[number] && is_decided(decided, owner_number(names, name)));
        passes.push(is_ready)?;
    }
    Ok(passes)
}

// For each node whether it is an open package.
fn needed_nodes(alloc: Global, names: &[NodeName], opens: &[bool]) -> Result<Vec<bool>, NoMemory>
    requires { length opens.now ≡ length names.now }
    ensures { IfOk result (λ passes. ArePasses (is_needed_in opens.now) names.now passes.items) }
{
    let mut passes = Vec::new(alloc);
    while passes.len() < names.len() {
        let number = passes.len();
        let is_needed = is_package(&names[number]) && opens[number];
        passes.push(is_needed)?;
    }
    Ok(passes)
}

// The number of the node that is next: the least ready trait, else the least package that is needed.
fn next_number(
    alloc: Global,
    names: &[NodeName],
    opens: &[bool],
    decided: &[Option<u32>],
) -> Result<Option<usize>, NoMemory>
    requires { length opens.now ≡ length names.now }
    ensures { IfOk result (λ number. numbered_name names.now number
        ≡ or_some (least_from (is_ready_in names.now opens.now decided.now) 0 names.now) (least_from (is_needed_in opens.now) 0 names.now)) }
{
    let ready = ready_nodes(alloc, names, opens, decided)?;
    if let Some(number) = least(names, &ready) {
        return Ok(Some(number));
    }
    let needed = needed_nodes(alloc, names, opens)?;
    Ok(least(names, &needed))
}

// A package is loaded at the choice that it is decided on: the first of its preferred choices that is left.
fn next_package(
    told: &Told,
    left: &[Choices],
    number: usize,
    identity: &Identity,
) -> Option<NextNode>
    requires there { number < length left.now }
    requires short { All (λ one. length one.1 ≤ 4096) told.now.known.lists }
    requires few { number < 4096 }
    ensures { option_map next_of result ≡ next_package number (first_that (has (known_at left.now number))
        (ranked_in (pin_of told.now.pins identity.now) (list_in told.now.known.lists identity.now))) }
{
    let list = told.known.list_of(identity);
    let pin = pin_of(told.pins.as_slice(), identity);
    let choice = preferred(list, pin, &left[number])?;
    let node = number as u32;
    let place = Place { node, choice };
    Some(NextNode {
        node,
        choice,
        place,
    })
}

// A trait is decided on, and loaded at its owner's choice.
fn next_trait(
    names: &[NodeName],
    decided: &[Option<u32>],
    number: usize,
    name: &NodeName,
) -> NextNode
    requires { number < 4096 }
    ensures { next_of result ≡ record {
      node = number;
      choice = 1;
      place = record { node = number; choice = choice_or_none (decision_in decided.now (owner_number names.now name.now)) };
    } }
{
    let node = number as u32;
    let choice = chosen(decided, owner_number(names, name));
    NextNode {
        node,
        choice: 1,
        place: Place { node, choice },
    }
}

// The node of this number as the next one, by what is left for it and what is decided.
fn next_named(
    told: &Told,
    left: &[Choices],
    decided: &[Option<u32>],
    number: usize,
) -> Option<NextNode>
    requires there { number < length told.now.known.nodes }
    requires left { length left.now ≡ length told.now.known.nodes }
    requires within { IsWithinLimits told.now.known }
    ensures { option_map next_of result ≡ next_by told.now left.now decided.now number (name_at told.now.known.nodes number) }
{
    let names = told.known.nodes.as_slice();
    let name = &names[number];
    match name {
        NodeName::Root => None,
        NodeName::Package(identity) => next_package(told, left, number, identity),
        NodeName::RootTrait(_) | NodeName::PackageTrait(_, _) => {
            Some(next_trait(names, decided, number, name))
        }
    }
}

// What is decided of each node, and which nodes are open.
fn standing_of(alloc: Global, told: &Told, lists: &Lists) -> Result<Standing, NoMemory>
    requires { IsTurning told.now lists.now }
    ensures decided { IfOk result (λ standing. AreDecisions (length told.now.known.nodes) (reverse lists.now.trail) standing.decided.items) }
    ensures opens { IfOk result (λ standing. AreOpen (length told.now.known.nodes)
        (loaded_facts (terms_of lists.now.incompats) lists.now.origins) (reverse lists.now.trail) standing.opens.items) }
{
    let count = told.known.nodes.as_slice().len();
    let decided = decisions(alloc, count, &lists.trail)?;
    let opens = open_nodes(alloc, &lists.incompats, &lists.origins, &decided)?;
    Ok(Standing { decided, opens })
}

/// Which node is next, if one is, from what is left for each node.
///
/// # Errors
///
/// `NoMemory` alone.
pub fn next_node(
    alloc: Global,
    told: &Told,
    lists: &Lists,
    left: &[Choices],
) -> Result<Option<NextNode>, NoMemory>
    requires turning { IsTurning told.now lists.now }
    requires left { AreLeft lists.now.sizes (reverse lists.now.trail) left.now }
    ensures { IfOk result (λ next. option_map next_of next
        ≡ next_in told.now.pins (lookups_by (answers_to told.now)) (state_with told.now.known.nodes lists.now)) }
{
    let Standing { decided, opens } = standing_of(alloc, told, lists)?;
    match next_number(alloc, told.known.nodes.as_slice(), &opens, &decided)? {
        None => Ok(None),
        Some(number) => Ok(next_named(told, left, &decided, number)),
    }
}
