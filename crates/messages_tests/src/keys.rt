use crate::support::{assert_told, key, sides};
use spm_key::{Body, Reply};
use spm_version::Bytes;
use std::alloc::Global;
use std::process::Abort;

// In ascending order.
fn keys() -> &'static str {
    "list mona.Hash => /mona/hash
list mona.LinkedList => /mona/linkedlist
manifest mona.LinkedList 1.1.0 => /mona/linkedlist/1.1.0/Package.json
release Mona.LinkedList 1.0.0-Beta.1+X => /mona/linkedlist/1.0.0-Beta.1+X
release mona.LinkedList 1.0.0 => /mona/linkedlist/1.0.0
release mona.LinkedList 1.10.0 => /mona/linkedlist/1.10.0
archive a.b 2.0.0 => /a/b/2.0.0.zip
archive mona.LinkedList 1.1.0 => /mona/linkedlist/1.1.0.zip
identifiers a-b.c_d~e é%&=? => /identifiers?url=a-b.c_d~e%20%C3%A9%25%26%3D%3F
identifiers https://example.com/mona/LinkedList => /identifiers?url=https%3A%2F%2Fexample.com%2Fmona%2FLinkedList"
}

// The path of the key, by a copy that is equal.
fn told_path(alloc: Global, asked: &str) -> Option<String> {
    let key = key(alloc, asked)?;
    let copy = key.copy(alloc).ok()?;
    if copy != key {
        return None;
    }
    Some(copy.text(alloc).ok()?.into_string())
}

#[test]
fn keys_have_their_paths(rt: HostRuntime) {
    for line in keys().lines() {
        let (asked, path) = sides(&rt, line);
        assert_told(&rt, told_path(rt.alloc(), asked), path, line);
    }
}

fn is_below(alloc: Global, first: &str, second: &str) -> Option<bool> {
    Some(key(alloc, first)? < key(alloc, second)?)
}

fn assert_below(rt: &impl Abort, alloc: Global, first: &str, second: &str) {
    assert!(rt; is_below(alloc, first, second) == Some(true), "{second}");
}

#[test]
fn keys_are_in_order(rt: HostRuntime) {
    let (_, others) = keys().split_once('\n').expect(&rt, "two keys");
    for (line, next) in keys().lines().zip(others.lines()) {
        assert_below(&rt, rt.alloc(), sides(&rt, line).0, sides(&rt, next).0);
    }
}

fn is_same(first: &Body, second: &Body) -> bool {
    match (first, second) {
        (Body::Whole(bytes), Body::Whole(others)) => bytes.as_slice() == others.as_slice(),
        (
            Body::Sum { sum, length },
            Body::Sum {
                sum: other,
                length: count,
            },
        ) => sum == other && length == count,
        (Body::Garbled, Body::Garbled) | (Body::TooLong, Body::TooLong) => true,
        _ => false,
    }
}

// Whether the copy of a reply with this body is the same.
fn is_copied(alloc: Global, body: Body) -> Option<bool> {
    let reply = Reply { status: 200, body };
    let copy = reply.copy(alloc).ok()?;
    Some(copy.status == reply.status && is_same(&copy.body, &reply.body))
}

fn assert_copied(rt: &impl Abort, alloc: Global, body: Body) {
    assert!(rt; is_copied(alloc, body) == Some(true));
}

#[test]
fn replies_are_copied(rt: HostRuntime) {
    let alloc = rt.alloc();
    let bytes = Bytes::from_slice(alloc, b"{}").expect(&rt, "memory");
    assert_copied(&rt, alloc, Body::Whole(bytes));
    assert_copied(
        &rt,
        alloc,
        Body::Sum {
            sum: [7; 32],
            length: 3,
        },
    );
    assert_copied(&rt, alloc, Body::Garbled);
    assert_copied(&rt, alloc, Body::TooLong);
}
