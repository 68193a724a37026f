use crate::support::{assert_text, sides, sign};
use spm_ident::{IdentFault, Identity};
use std::alloc::Global;
use std::process::Abort;
use std::test::Fail;

// What a text is read as: how a copy of it prints, its scope and its name, or its fault.
fn reading(alloc: Global, text: &str) -> Result<String, Fail> {
    match Identity::parse(alloc, text) {
        Ok(identity) => {
            let copy = identity.copy(alloc)?;
            let (scope, name) = (copy.scope(), copy.name());
            Ok(format!(in alloc; "{copy}, {scope}, {name}")?)
        }
        Err(fault) => Ok(fault.to_string(alloc)?),
    }
}

fn readings() -> &'static str {
    "mona.LinkedList => mona.linkedlist, mona, linkedlist
mona.linkedlist => mona.linkedlist, mona, linkedlist
Apple.Swift-NIO => apple.swift-nio, apple, swift-nio
a-b.c_d-e => a-b.c_d-e, a-b, c_d-e
0.1 => 0.1, 0, 1
 => no dot between scope and name
mona => no dot between scope and name
. => malformed scope before the dot
.a => malformed scope before the dot
-m.a => malformed scope before the dot
m-.a => malformed scope before the dot
m--a.b => malformed scope before the dot
m_a.b => malformed scope before the dot
é.a => malformed scope before the dot
m. => malformed name behind the dot
m._a => malformed name behind the dot
m.a_ => malformed name behind the dot
m.a_-b => malformed name behind the dot
m.a.b => malformed name behind the dot
m.é => malformed name behind the dot"
}

#[test]
fn identities_are_read_in_any_case(rt: HostRuntime) -> Result<(), Fail> {
    for line in readings().lines() {
        let (text, wanted) = sides(&rt, line);
        let found = reading(rt.alloc(), text)?;
        assert_text(&rt, found.as_str(), wanted, text);
    }
    Ok(())
}

// The fault of a scope and a name of so many letters.
fn fault_of_lengths(alloc: Global, scope: usize, name: usize) -> Result<Option<IdentFault>, Fail> {
    let scope = "m".repeat(alloc, scope)?;
    let name = "a".repeat(alloc, name)?;
    let text = format!(in alloc; "{scope}.{name}")?;
    Ok(Identity::parse(alloc, text.as_str()).err())
}

// Asserts the fault of a scope and a name of so many letters.
fn assert_lengths(
    rt: &impl Abort,
    alloc: Global,
    scope: usize,
    name: usize,
    wanted: Option<IdentFault>,
) -> Result<(), Fail> {
    let found = fault_of_lengths(alloc, scope, name)?;
    assert_eq!(rt; found, wanted, "at {scope} and {name}");
    Ok(())
}

#[test]
fn scopes_have_39_letters_at_most_and_names_100(rt: HostRuntime) -> Result<(), Fail> {
    let alloc = rt.alloc();
    assert_lengths(&rt, alloc, 1, 1, None)?;
    assert_lengths(&rt, alloc, 39, 100, None)?;
    assert_lengths(&rt, alloc, 40, 100, Some(IdentFault::Scope))?;
    assert_lengths(&rt, alloc, 39, 101, Some(IdentFault::Name))?;
    assert_lengths(&rt, alloc, 40, 101, Some(IdentFault::Scope))?;
    Ok(())
}

// How two of them are ordered.
fn order(alloc: Global, first: &str, second: &str) -> Result<&'static str, IdentFault> {
    let first = Identity::parse(alloc, first)?;
    let second = Identity::parse(alloc, second)?;
    Ok(sign(first.cmp(&second)))
}

fn orders() -> &'static str {
    "mona.A mona.a => =
mona.a mona.B => <
mona.list mona.list2 => <
a-b.z a.b => <
a.b a0.b => <
a.b-c a.b0 => <
a.b0 a.b_c => <
a.b_c a.bc => <
b.a a.b => >"
}

#[test]
fn identities_are_ordered_by_bytes(rt: HostRuntime) -> Result<(), Fail> {
    for line in orders().lines() {
        let (case, wanted) = sides(&rt, line);
        let (first, second) = case.split_once(' ').expect(&rt, case);
        let found = order(rt.alloc(), first, second)?;
        assert_text(&rt, found, wanted, case);
    }
    Ok(())
}

#[test]
fn want_of_memory_for_an_identity_is_printed(rt: HostRuntime) -> Result<(), Fail> {
    let printed = IdentFault::Memory.to_string(rt.alloc())?;
    assert_text(&rt, printed.as_str(), "no memory", "memory");
    Ok(())
}
