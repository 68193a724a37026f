// Derivations that are made by hand.
use crate::sets::made;
use pub_proof::{Derivation, Line, check};
use pub_term::{Cause, Incompat, NodeName, Subject, Term};
use spm_ident::Identity;
use spm_version::{Items, NoMemory};
use std::alloc::Global;
use std::process::Abort;

// Two facts on a package, of three choices, and the root, of two; and a line that resolves two lines.
#[derive(Clone, Copy)]
struct Case {
    // the number of the root; the package has the other one
    root: u32,
    // the choices of the package in the second fact
    second: &'static [u32],
    cited: (u64, u64),
    on: u32,
    // how many of the two facts are given
    given: usize,
}

// A term on a node.
fn term(alloc: Global, node: u32, size: u32, choices: &[u32]) -> Result<Term, NoMemory> {
    let choices = made(alloc, size, choices)?;
    Ok(Term { node, choices })
}

// A term on the root, whose second choice it is, and one on the package, in the order of their nodes.
fn fact(alloc: Global, root: u32, package: &[u32]) -> Result<Incompat, NoMemory> {
    let mut terms = Items::new(alloc);
    for node in 0..2 {
        let term = if node == root {
            term(alloc, node, 2, &[1])
        } else {
            term(alloc, node, 3, package)
        };
        terms.push(term?)?;
    }
    Ok(Incompat { terms })
}

// The first fact, and the second.
fn facts(alloc: Global, case: &Case) -> Result<Items<Incompat>, NoMemory> {
    let mut facts = Items::new(alloc);
    facts.push(fact(alloc, case.root, &[0, 2])?)?;
    facts.push(fact(alloc, case.root, case.second)?)?;
    Ok(facts)
}

// A cause, of which the check doesn't ask.
fn cause(alloc: Global) -> Cause {
    Cause::NoManifest(Subject {
        owner: None,
        under: Items::from_vec(Vec::new(alloc)),
    })
}

// The lines of the facts, and the one that resolves.
fn lines(alloc: Global, case: &Case, facts: &[Incompat]) -> Result<Items<Line>, NoMemory> {
    let mut lines = Items::new(alloc);
    for fact in facts {
        lines.push(Line::Fact(fact.copy(alloc)?, cause(alloc)))?;
    }
    let (first, second) = case.cited;
    let on = case.on;
    lines.push(Line::Resolve { first, second, on })?;
    Ok(lines)
}

// The names of the root and the package.
fn nodes(alloc: Global, root: u32) -> Option<Items<NodeName>> {
    let package = NodeName::Package(Identity::parse(alloc, "mona.a").ok()?);
    let mut nodes = Items::new(alloc);
    if root == 0 {
        nodes.push(NodeName::Root).ok()?;
        nodes.push(package).ok()?;
    } else {
        nodes.push(package).ok()?;
        nodes.push(NodeName::Root).ok()?;
    }
    Some(nodes)
}

// The sizes of their sets.
fn sizes(alloc: Global, root: u32) -> Option<Items<u32>> {
    let sizes = if root == 0 { [2, 3] } else { [3, 2] };
    Some(Items::from_vec(Vec::from_slice(alloc, &sizes).ok()?))
}

// A derivation over the root and the package.
fn derivation(alloc: Global, root: u32, lines: Items<Line>) -> Option<Derivation> {
    let nodes = nodes(alloc, root)?;
    let sizes = sizes(alloc, root)?;
    Some(Derivation {
        nodes,
        sizes,
        lines,
    })
}

// What a copy of the derivation comes to.
fn told(alloc: Global, derivation: &Derivation, facts: &[Incompat]) -> Option<String> {
    let derivation = derivation.copy(alloc).ok()?;
    match check(alloc, &derivation, facts) {
        Ok(_) => String::from_str(alloc, "holds").ok(),
        Err(fault) => format!(in alloc; "{fault}").ok(),
    }
}

// What the case's derivation comes to by the facts that are given.
fn told_of(alloc: Global, case: &Case) -> Option<String> {
    let facts = facts(alloc, case).ok()?;
    let facts = facts.as_slice();
    let derivation = derivation(alloc, case.root, lines(alloc, case, facts).ok()?)?;
    told(alloc, &derivation, facts.get(..case.given)?)
}

// Asserts what it comes to.
fn assert_told(rt: &impl Abort, alloc: Global, case: Case, wanted: &str) {
    let told = told_of(alloc, &case).expect(rt, "memory");
    assert_eq!(rt; told.as_str(), wanted);
}

// A case whose root is the first node, and whose facts are both given.
fn on_first_root(second: &'static [u32], cited: (u64, u64), on: u32) -> Case {
    Case {
        root: 0,
        second,
        cited,
        on,
        given: 2,
    }
}

#[test]
fn derivations_are_checked(rt: HostRuntime) {
    let alloc = rt.alloc();
    assert_told(&rt, alloc, on_first_root(&[0, 1], (1, 2), 1), "holds");
    assert_told(&rt, alloc, on_first_root(&[0, 1], (2, 1), 1), "holds");
    assert_told(
        &rt,
        alloc,
        on_first_root(&[0, 2], (1, 2), 1),
        "line 3: not a refutation",
    );
    assert_told(
        &rt,
        alloc,
        on_first_root(&[0, 1], (1, 2), 0),
        "line 3: not a refutation",
    );
    assert_told(
        &rt,
        alloc,
        on_first_root(&[0, 1], (1, 3), 1),
        "line 3: no such line",
    );
    assert_told(
        &rt,
        alloc,
        on_first_root(&[0, 1], (0, 2), 1),
        "line 3: no such line",
    );
    assert_told(
        &rt,
        alloc,
        on_first_root(&[0, 1], (1, 2), 2),
        "line 3: no such node",
    );
    assert_told(&rt, alloc, on_first_root(&[1], (1, 2), 0), "line 3: not on");
    assert_told(
        &rt,
        alloc,
        on_first_root(&[0, 3], (1, 2), 1),
        "line 2: bad set",
    );
    assert_told(
        &rt,
        alloc,
        on_first_root(&[0, 1, 2], (1, 3), 1),
        "line 2: bad set",
    );
}

// The same case, with a fact less or with its root behind the package.
fn other(root: u32, on: u32, given: usize) -> Case {
    Case {
        root,
        second: &[0, 1],
        cited: (1, 2),
        on,
        given,
    }
}

#[test]
fn facts_are_given_and_the_root_is_named(rt: HostRuntime) {
    let alloc = rt.alloc();
    assert_told(&rt, alloc, other(0, 1, 1), "line 2: not a fact");
    assert_told(&rt, alloc, other(1, 0, 2), "holds");
    assert_told(&rt, alloc, other(1, 1, 2), "line 3: not a refutation");
}

#[test]
fn no_lines_are_no_refutation(rt: HostRuntime) {
    let alloc = rt.alloc();
    let derivation = derivation(alloc, 0, Items::new(alloc)).expect(&rt, "memory");
    let told = told(alloc, &derivation, &[]).expect(&rt, "memory");
    assert_eq!(rt; told.as_str(), "line 0: not a refutation");
}
