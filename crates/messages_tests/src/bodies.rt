use crate::support::{assert_told, sides};
use spm_api::{BodyFault, read_identifiers, read_list, read_problem, read_release};
use spm_digest::hex_of;
use spm_version::Release;
use std::alloc::Global;
use std::process::Abort;

/// The readers of bodies.
#[derive(Clone, Copy)]
enum Reader {
    List,
    Release,
    Identifiers,
    Problem,
}

// The versions, with a semicolon behind each.
fn versions(alloc: Global, releases: &[Release]) -> Option<String> {
    let mut text = String::new(alloc);
    for release in releases {
        write!(text, "{release};").ok()?;
    }
    Some(text)
}

fn refused(alloc: Global, fault: BodyFault) -> Option<String> {
    match fault {
        BodyFault::Memory => None,
        fault => format!(in alloc; "{fault}").ok(),
    }
}

fn told_list(alloc: Global, body: &[u8]) -> Option<String> {
    match read_list(alloc, body) {
        Ok(releases) if releases.as_slice().is_empty() => String::from_str(alloc, "none").ok(),
        Ok(releases) => versions(alloc, releases.as_slice()),
        Err(fault) => refused(alloc, fault),
    }
}

fn told_release(alloc: Global, body: &[u8]) -> Option<String> {
    match read_release(alloc, body) {
        Ok(Some(sum)) => Some(hex_of(alloc, &sum).ok()?.into_string()),
        Ok(None) => String::from_str(alloc, "none").ok(),
        Err(fault) => refused(alloc, fault),
    }
}

fn told_identifiers(alloc: Global, body: &[u8]) -> Option<String> {
    match read_identifiers(alloc, body) {
        Ok(Some(identity)) => String::from_str(alloc, identity.text()).ok(),
        Ok(None) => String::from_str(alloc, "none").ok(),
        Err(fault) => refused(alloc, fault),
    }
}

fn told_problem(alloc: Global, body: &[u8]) -> Option<String> {
    match read_problem(alloc, body).ok()? {
        Some(detail) => format!(in alloc; "\"{detail}\"").ok(),
        None => String::from_str(alloc, "none").ok(),
    }
}

fn told(alloc: Global, reader: Reader, body: &[u8]) -> Option<String> {
    match reader {
        Reader::List => told_list(alloc, body),
        Reader::Release => told_release(alloc, body),
        Reader::Identifiers => told_identifiers(alloc, body),
        Reader::Problem => told_problem(alloc, body),
    }
}

// Asserts what each body of a table is read as.
fn assert_read(rt: &impl Abort, alloc: Global, reader: Reader, table: &str) {
    for line in table.lines() {
        let (body, wanted) = sides(rt, line);
        assert_told(rt, told(alloc, reader, body.as_bytes()), wanted, line);
    }
}

fn lists() -> &'static str {
    r#"{"releases":{"1.2.0":{"problem":{}},"latest":{},"1.0.0":{"url":"/x"}}} => 1.0.0;
{"releases":{}} => none
{"releases":{"1.10.0":{},"1.9.0":{},"1.9.0-a":{},"1.9.0+b":{}}} => 1.9.0-a;1.9.0;1.9.0+b;1.10.0;
{"releases":{"1.0.0-a.zip":{},"1.0.0-a.zi":{}}} => 1.0.0-a.zi;
{"releases":{"1.0.0":{"problem":null}}} => none
{"releases":{"1.0":{},"v1.0.0":{},"":{}}} => none
{"other":1,"releases":{"1.0.0":{}}} => 1.0.0;
 => unreadable body
[] => unreadable body
null => unreadable body
{} => unreadable body
{"releases":null} => unreadable body
{"releases":[]} => unreadable body
{"releases":{"1.0.0":1}} => unreadable body
{"releases":{"1.0.0":null}} => unreadable body
{"releases":{"latest":1}} => unreadable body
{"releases":{"1.0.0":{}} => unreadable body
{"releases":{"1.0.0":{}}} x => unreadable body"#
}

#[test]
fn lists_are_read(rt: HostRuntime) {
    assert_read(&rt, rt.alloc(), Reader::List, lists());
}

/// A list of so many usable releases, and of some that have a problem.
pub fn long_list(alloc: Global, usable: u32) -> Option<String> {
    let mut text = String::from_str(alloc, r#"{"releases":{"0.0.1":{"problem":{}}"#).ok()?;
    for number in 0..usable {
        write!(text, r#","1.{number}.0":{{}}"#).ok()?;
    }
    text.push_str("}}").ok()?;
    Some(text)
}

// How many releases are read of such a list, or the fault.
fn count_of(alloc: Global, usable: u32) -> Option<Result<usize, BodyFault>> {
    let text = long_list(alloc, usable)?;
    match read_list(alloc, text.as_bytes()) {
        Ok(releases) => Some(Ok(releases.as_slice().len())),
        Err(fault) => Some(Err(fault)),
    }
}

#[test]
fn a_list_has_4096_usable_releases_at_most(rt: HostRuntime) {
    assert!(rt; count_of(rt.alloc(), 4096) == Some(Ok(4096)));
    assert!(rt; count_of(rt.alloc(), 4097) == Some(Err(BodyFault::TooMany)));
}

fn releases() -> &'static str {
    r#"{"id":"mona.LinkedList","resources":[{"name":"source-archive","type":"application/zip","checksum":"ba7816bf8f01cfea414140de5dae2223b00361a396177a9cb410ff61f20015ad"}]} => ba7816bf8f01cfea414140de5dae2223b00361a396177a9cb410ff61f20015ad
{"resources":[{"name":"source-archive","type":"application/x"},{"name":"x","type":"application/zip"},{"name":"source-archive","type":"application/zip","checksum":"BA7816BF8F01CFEA414140DE5DAE2223B00361A396177A9CB410FF61F20015AD"}]} => ba7816bf8f01cfea414140de5dae2223b00361a396177a9cb410ff61f20015ad
{"resources":[]} => none
{"resources":[{"name":"source-archive","type":1},{}]} => none
{"resources":[{"name":"source-archive","type":"application/zip"}]} => unreadable body
{"resources":[{"name":"source-archive","type":"application/zip","checksum":"ba78"},{"name":"source-archive","type":"application/zip","checksum":"ba7816bf8f01cfea414140de5dae2223b00361a396177a9cb410ff61f20015ad"}]} => unreadable body
{"resources":[{"name":"source-archive","type":"application/zip","checksum":1}]} => unreadable body
{"resources":[1]} => unreadable body
{"resources":{}} => unreadable body
{} => unreadable body
x => unreadable body"#
}

#[test]
fn releases_are_read(rt: HostRuntime) {
    assert_read(&rt, rt.alloc(), Reader::Release, releases());
}

fn lookups() -> &'static str {
    r#"{"identifiers":["zed.list","mona.LinkedList"]} => mona.linkedlist
{"identifiers":["mona.LinkedList","zed.list"]} => mona.linkedlist
{"identifiers":["x","","b.c","a"]} => b.c
{"identifiers":[]} => none
{"identifiers":["x"]} => none
{"identifiers":["a.b",1]} => unreadable body
{"identifiers":"a.b"} => unreadable body
{} => unreadable body
 => unreadable body"#
}

#[test]
fn lookups_are_read(rt: HostRuntime) {
    assert_read(&rt, rt.alloc(), Reader::Identifiers, lookups());
}

fn problems() -> &'static str {
    r#"{"detail":"busy","status":503,"title":"Service Unavailable"} => "busy"
{"detail":""} => ""
{"detail":1} => none
{"title":"x"} => none
["detail"] => none
 => none
{"detail":"busy" => none"#
}

#[test]
fn problems_are_read(rt: HostRuntime) {
    assert_read(&rt, rt.alloc(), Reader::Problem, problems());
}

// Cut at each byte no body is of its form.
#[test]
fn bodies_cut_short_are_unreadable(rt: HostRuntime) {
    let alloc = rt.alloc();
    let body = r#"{"releases":{"1.0.0":{}},"resources":[],"identifiers":[],"detail":"x"}"#;
    for end in 0..body.len() {
        let cut = &body.as_bytes()[..end];
        assert_told(&rt, told_list(alloc, cut), "unreadable body", "a list");
        assert_told(
            &rt,
            told_release(alloc, cut),
            "unreadable body",
            "a release",
        );
        assert_told(
            &rt,
            told_identifiers(alloc, cut),
            "unreadable body",
            "a look-up",
        );
        assert_told(&rt, told_problem(alloc, cut), "none", "a problem");
    }
}
