// Terms, incompatibilities, names of nodes and causes.
ghost use Rattle.std.specs.Prelude.{[], ◌∷◌, IsTrue};
ghost use Rattle.std.specs.Option.{option_copied};
ghost use Rattle.pub_term.specs.Known.{AreKnown};
ghost use Rattle.pub_term.specs.Resolvent.{CanResolve};
ghost use Rattle.pub_term.specs.Term.{AreNodesAscending, IsIncompat};
ghost use Rattle.solver_tests.specs.Agreed.{Agree, Fits};

use crate::sets::set;
use pub_set::Choices;
use pub_term::{Cause, Incompat, NodeName, Subject, Term, resolve};
use spm_ident::Identity;
use spm_trait::TraitName;
use spm_version::{Items, NoMemory, Release, Requirement, Text};
use std::alloc::Global;
use std::cmp::Ordering;
use std::process::Abort;

const SIZE: u32 = 4;

// The sets of the bits of the numbers.
fn known_sets(alloc: Global, sets: &[u32]) -> Result<Vec<Choices>, NoMemory> {
    let mut known = Vec::new(alloc);
    for bits in sets {
        known.push(set(alloc, SIZE, *bits)?)?;
    }
    Ok(known)
}

// A term for each number that is not 0: its place is the node, its bits the set.
fn incompat(alloc: Global, sets: &[u32; 4]) -> Result<Incompat, NoMemory> {
    let mut terms = Items::new(alloc);
    for node in 0..4 {
        let bits = sets[node as usize];
        if bits != 0 {
            let choices = set(alloc, SIZE, bits)?;
            terms.push(Term { node, choices })?;
        }
    }
    Ok(Incompat { terms })
}

// `resolve`, `holds` and `almost` ask something of what they are called on. The helpers from here on find out whether it is
// so, and their clauses say what they found.

fn is_before(term: &Term, rest: &[Term]) -> bool
    ensures { IsTrue result → AreNodesAscending rest.now → AreNodesAscending (term.now ∷ rest.now) }
{
    match rest.first() {
        None => true,
        Some(next) => term.node < next.node,
    }
}

fn are_incompat(terms: &[Term]) -> bool
    ensures { IsTrue result → IsIncompat terms.now }
{
    match terms.split_first() {
        None => true,
        Some((term, rest)) => {
            !term.choices.is_empty()
                && !term.choices.is_whole()
                && is_before(term, rest)
                && are_incompat(rest)
        }
    }
}

fn is_incompat(incompat: &Incompat) -> bool
    ensures { IsTrue result → IsIncompat incompat.now.terms }
{
    are_incompat(incompat.terms.as_slice())
}

fn fits(term: &Term, other: Option<&Choices>, on: u32) -> bool
    ensures { IsTrue result → Fits term.now (option_copied other.entry) on }
{
    match other {
        None => true,
        Some(other) => {
            term.choices.size() == other.size() && (term.node == on || term.choices.meets(other))
        }
    }
}

fn agree(first: &[Term], second: &Incompat, on: u32) -> bool
    ensures { IsTrue result → Agree first.now second.now.terms on }
{
    for term in first {
        if !fits(term, second.set_on(term.node), on) {
            return false;
        }
    }
    true
}

fn can_resolve(first: &Incompat, second: &Incompat, on: u32) -> bool
    ensures { IsTrue result → CanResolve first.now.terms second.now.terms on }
{
    match (first.set_on(on), second.set_on(on)) {
        (Some(_), Some(_)) => agree(first.terms.as_slice(), second, on),
        _ => false,
    }
}

fn is_known(known: &[Choices], term: &Term) -> bool
    ensures { IsTrue result → AreKnown known.now (term.now ∷ []) }
{
    let node = term.node as usize;
    node < known.len() && known[node].size() == term.choices.size()
}

fn are_known(known: &[Choices], incompat: &Incompat) -> bool
    ensures { IsTrue result → AreKnown known.now incompat.now.terms }
{
    for term in incompat.terms.as_slice() {
        if !is_known(known, term) {
            return false;
        }
    }
    true
}

// The resolution, where it may be asked for.
fn resolved(
    alloc: Global,
    first: &[u32; 4],
    second: &[u32; 4],
    on: u32,
) -> Result<Option<Incompat>, NoMemory> {
    let first = incompat(alloc, first)?;
    let second = incompat(alloc, second)?;
    if is_incompat(&first) && is_incompat(&second) && can_resolve(&first, &second, on) {
        Ok(Some(resolve(alloc, &first, &second, on)?))
    } else {
        Ok(None)
    }
}

// Asserts what a resolution comes to.
fn assert_resolved(
    rt: &impl Abort,
    alloc: Global,
    sides: &[[u32; 4]; 2],
    on: u32,
    wanted: &[u32; 4],
) {
    let found = resolved(alloc, &sides[0], &sides[1], on).expect(rt, "memory");
    let wanted = incompat(alloc, wanted).expect(rt, "memory");
    assert!(rt; found == Some(wanted));
}

#[test]
fn resolutions_unite_on_the_node_and_intersect_on_others(rt: HostRuntime) {
    let alloc = rt.alloc();
    let sides = [[0b0011, 0, 0, 0], [0b0110, 0, 0, 0]];
    assert_resolved(&rt, alloc, &sides, 0, &[0b0111, 0, 0, 0]);
    let sides = [[0b0011, 0, 0, 0], [0b1100, 0, 0, 0]];
    assert_resolved(&rt, alloc, &sides, 0, &[0, 0, 0, 0]);
    let sides = [[0b0011, 0, 0b1000, 0], [0b0110, 0b0100, 0, 0]];
    assert_resolved(&rt, alloc, &sides, 0, &[0b0111, 0b0100, 0b1000, 0]);
    let sides = [
        [0b0011, 0b0111, 0b1010, 0],
        [0b1100, 0b1110, 0b1100, 0b0001],
    ];
    assert_resolved(&rt, alloc, &sides, 0, &[0, 0b0110, 0b1000, 0b0001]);
    let sides = [[0, 0b0001, 0b0011, 0b0110], [0b0111, 0, 0b0101, 0b1011]];
    assert_resolved(&rt, alloc, &sides, 3, &[0b0111, 0b0001, 0b0001, 0]);
    let sides = [[0, 0b0001, 0b0011, 0b0110], [0b0111, 0, 0b0101, 0b0011]];
    assert_resolved(&rt, alloc, &sides, 3, &[0b0111, 0b0001, 0b0001, 0b0111]);
    let sides = [[0, 0b0011, 0, 0], [0b0001, 0b1100, 0, 0b0110]];
    assert_resolved(&rt, alloc, &sides, 1, &[0b0001, 0, 0, 0b0110]);
}

const KNOWN: [u32; 4] = [0b0001, 0b0110, 0b1111, 0];

// What `holds` and `almost` answer, where they may be asked.
fn propagated(alloc: Global, terms: &[u32; 4]) -> Result<Option<(bool, Option<u32>)>, NoMemory> {
    let known = known_sets(alloc, &KNOWN)?;
    let incompat = incompat(alloc, terms)?;
    if are_known(&known, &incompat) {
        Ok(Some((incompat.holds(&known), incompat.almost(&known))))
    } else {
        Ok(None)
    }
}

// Asserts what they answer.
fn assert_propagated(
    rt: &impl Abort,
    alloc: Global,
    terms: [u32; 4],
    holds: bool,
    almost: Option<u32>,
) {
    assert!(rt; propagated(alloc, &terms) == Ok(Some((holds, almost))));
}

#[test]
fn terms_hold_by_what_is_known(rt: HostRuntime) {
    let alloc = rt.alloc();
    assert_propagated(&rt, alloc, [0, 0, 0, 0], true, None);
    assert_propagated(&rt, alloc, [0b0011, 0b1110, 0, 0b0001], true, None);
    assert_propagated(&rt, alloc, [0b0011, 0b0010, 0, 0], false, Some(1));
    assert_propagated(&rt, alloc, [0b0011, 0b1110, 0b1000, 0], false, Some(2));
    assert_propagated(&rt, alloc, [0b0010, 0b0110, 0, 0], false, None);
    assert_propagated(&rt, alloc, [0b0011, 0b1001, 0, 0], false, None);
    assert_propagated(&rt, alloc, [0b0011, 0b0010, 0b1000, 0], false, None);
    assert_propagated(&rt, alloc, [0b0010, 0b0010, 0, 0], false, None);
}

// The root, where there is no package; a trait, where there is one.
fn node(alloc: Global, package: &str, name: &str) -> Option<NodeName> {
    if package.is_empty() {
        if name.is_empty() {
            return Some(NodeName::Root);
        }
        return Some(NodeName::RootTrait(TraitName::parse(alloc, name).ok()?));
    }
    let identity = Identity::parse(alloc, package).ok()?;
    if name.is_empty() {
        return Some(NodeName::Package(identity));
    }
    Some(NodeName::PackageTrait(identity, TraitName::parse(alloc, name).ok()?))
}

const NODES: [(&str, &str, &str); 5] = [
    ("", "", "root"),
    ("", "b", "root#b"),
    ("a.a", "", "a.a"),
    ("a.a", "x", "a.a#x"),
    ("b.a", "", "b.a"),
];

// The node of that place.
fn node_at(alloc: Global, place: usize) -> Option<NodeName> {
    let (package, name, _) = NODES.get(place)?;
    node(alloc, package, name)
}

// The order of a copy of the first and the second, and whether they are equal.
fn compared(alloc: Global, first: usize, second: usize) -> Option<(Ordering, bool)> {
    let first = node_at(alloc, first)?;
    let second = node_at(alloc, second)?;
    let copy = first.copy(alloc).ok()?;
    Some((copy.cmp(&second), copy == second))
}

// Asserts the text of the node of that place.
fn assert_printed(rt: &impl Abort, alloc: Global, place: usize) {
    let node = node_at(alloc, place).expect(rt, "memory");
    let printed = node.to_string(alloc).expect(rt, "memory");
    assert!(rt;
        NODES
            .get(place)
            .is_some_and(|(_, _, text)| printed.as_str() == *text)
    );
}

#[test]
fn nodes_are_printed(rt: HostRuntime) {
    let alloc = rt.alloc();
    assert_printed(&rt, alloc, 0);
    assert_printed(&rt, alloc, 1);
    assert_printed(&rt, alloc, 2);
    assert_printed(&rt, alloc, 3);
    assert_printed(&rt, alloc, 4);
}

// Whether the two nodes are in the order of their places.
fn are_ordered(alloc: Global, x: usize, y: usize) -> bool {
    compared(alloc, x, y) == Some((x.cmp(&y), x == y))
}

#[test]
fn nodes_are_ordered(rt: HostRuntime) {
    let alloc = rt.alloc();
    assert!(rt; (0..25).all(|pair| are_ordered(alloc, pair / 5, pair % 5)));
}

// Whether a copy of the incompatibility, and so of its terms, is equal.
fn has_equal_copies(alloc: Global, sets: &[u32; 4]) -> Result<bool, NoMemory> {
    let incompat = incompat(alloc, sets)?;
    let copy = incompat.copy(alloc)?;
    Ok(copy == incompat)
}

// The trait `x` of the package `a.a` at 1.2.3.
fn subject(alloc: Global) -> Option<Subject> {
    let owner = (
        Identity::parse(alloc, "a.a").ok()?,
        Release::parse(alloc, "1.2.3").ok()?,
    );
    let mut under = Vec::new(alloc);
    under.push(TraitName::parse(alloc, "x").ok()?).ok()?;
    Some(Subject {
        owner: Some(owner),
        under: Items::from_vec(under),
    })
}

// A cause on that subject.
fn cause(alloc: Global) -> Option<Cause> {
    let text = Text::from_str(alloc, "../a").ok()?;
    Some(Cause::Unversioned(subject(alloc)?, Requirement::Path, text))
}

// Whether a copy of the cause, and so of its subject, is equal.
fn is_copied(alloc: Global, cause: &Cause) -> Option<bool> {
    let copy = cause.copy(alloc).ok()?;
    Some(copy == *cause)
}

// The same of that cause, which isn't another.
fn has_equal_cause(alloc: Global) -> Option<bool> {
    let cause = cause(alloc)?;
    if cause == Cause::Given {
        return Some(false);
    }
    is_copied(alloc, &cause)
}

#[test]
fn copies_are_equal(rt: HostRuntime) {
    assert_eq!(rt;
        has_equal_copies(rt.alloc(), &[0b0001, 0, 0b0110, 0]),
        Ok(true)
    );
    assert_eq!(rt; has_equal_cause(rt.alloc()), Some(true));
}
