use crate::support::{assert_told, bytes_of, key, sides, told_reply, with_many};
use spm_api::{Base, reply_of, request_of};
use spm_server::answer;
use spm_shelf::Shelf;
use std::alloc::Global;
use std::process::Abort;

const EMPTY_LIST: &str =
    "HTTP/1.1 200 OK\r\nContent-Version: 1\r\nContent-Type: application/json\r\nContent-Length: 15\r\nConnection: close\r\n\r\n{\"releases\":{}}";

const UNREADABLE: &str =
    "HTTP/1.1 400 Bad Request\r\nContent-Version: 1\r\nContent-Type: application/problem+json\r\nContent-Length: 66\r\nConnection: close\r\n\r\n{\"detail\":\"unreadable request\",\"status\":400,\"title\":\"Bad Request\"}";

const NOT_FOUND: &str =
    "HTTP/1.1 404 Not Found\r\nContent-Version: 1\r\nContent-Type: application/problem+json\r\nContent-Length: 62\r\nConnection: close\r\n\r\n{\"detail\":\"no such resource\",\"status\":404,\"title\":\"Not Found\"}";

const NOT_GET: &str =
    "HTTP/1.1 405 Method Not Allowed\r\nContent-Version: 1\r\nContent-Type: application/problem+json\r\nContent-Length: 73\r\nConnection: close\r\n\r\n{\"detail\":\"only GET is served\",\"status\":405,\"title\":\"Method Not Allowed\"}";

const OTHER_VERSION: &str =
    "HTTP/1.1 415 Unsupported Media Type\r\nContent-Version: 1\r\nContent-Type: application/problem+json\r\nContent-Length: 82\r\nConnection: close\r\n\r\n{\"detail\":\"unsupported API version\",\"status\":415,\"title\":\"Unsupported Media Type\"}";

/// A shelf. The checksum that is said of 1.1.0 is that of no bytes.
pub fn shelf(alloc: Global) -> Option<Shelf> {
    let text = r#"{
  "packages": {
    "mona.LinkedList": {
      "1.0.0": { "manifest": "{}", "archive": "616263" },
      "1.1.0": {
        "manifest": "{}",
        "archive": "616263",
        "checksum": "e3b0c44298fc1c149afbf4c8996fb92427ae41e4649b934ca495991b7852b855"
      },
      "2.0.0": { "problem": "withdrawn" }
    },
    "zed.list": {}
  },
  "urls": {
    "https://example.com/mona/LinkedList": ["mona.LinkedList"],
    "https://example.com/%zz": []
  }
}"#;
    Shelf::read(alloc, text.as_bytes()).ok()
}

// The response to a request.
fn answered(alloc: Global, shelf: &Shelf, request: &[u8]) -> Option<String> {
    let response = answer(alloc, shelf, request).ok()?;
    String::from_utf8(response.into_vec()).ok()
}

fn answered_at(alloc: Global, shelf: &Shelf, target: &str) -> Option<String> {
    let request = format!(in alloc; "GET {target} HTTP/1.1\r\n\r\n").ok()?;
    answered(alloc, shelf, request.as_bytes())
}

// The response with a resource, of which the media type, the length and the body are said.
fn response_with(alloc: Global, resource: &str) -> Option<String> {
    let (kind, rest) = resource.split_once(' ')?;
    let (length, body) = rest.split_once(' ')?;
    format!(in alloc;
        "HTTP/1.1 200 OK\r\nContent-Version: 1\r\nContent-Type: {kind}\r\nContent-Length: {length}\r\nConnection: close\r\n\r\n{body}"
    ).ok()
}

// Targets, with the media type, the length and the body of their resources.
fn resources() -> &'static str {
    r#"/identifiers?url=https%3A%2F%2Fexample.com%2Fmona%2FLinkedList => application/json 35 {"identifiers":["mona.linkedlist"]}
/identifiers?url=https://example.com/mona/LinkedList => application/json 35 {"identifiers":["mona.linkedlist"]}
/identifiers?url=https://example.com/%zz => application/json 18 {"identifiers":[]}
/mona/linkedlist => application/json 167 {"releases":{"1.0.0":{"url":"/mona/linkedlist/1.0.0"},"1.1.0":{"url":"/mona/linkedlist/1.1.0"},"2.0.0":{"problem":{"detail":"withdrawn","status":410,"title":"Gone"}}}}
/MONA/LinkedList => application/json 167 {"releases":{"1.0.0":{"url":"/mona/linkedlist/1.0.0"},"1.1.0":{"url":"/mona/linkedlist/1.1.0"},"2.0.0":{"problem":{"detail":"withdrawn","status":410,"title":"Gone"}}}}
/zed/list => application/json 15 {"releases":{}}
/mona/linkedlist/1.0.0 => application/json 199 {"id":"mona.linkedlist","metadata":{},"resources":[{"checksum":"ba7816bf8f01cfea414140de5dae2223b00361a396177a9cb410ff61f20015ad","name":"source-archive","type":"application/zip"}],"version":"1.0.0"}
/Mona/linkedList/1.1.0 => application/json 199 {"id":"mona.linkedlist","metadata":{},"resources":[{"checksum":"e3b0c44298fc1c149afbf4c8996fb92427ae41e4649b934ca495991b7852b855","name":"source-archive","type":"application/zip"}],"version":"1.1.0"}
/mona/linkedlist/1.0.0/Package.json => application/json 2 {}
/mona/linkedlist/1.0.0.zip => application/zip 3 abc
/mona/linkedlist/1.1.0.zip => application/zip 3 abc"#
}

fn assert_resource(rt: &impl Abort, alloc: Global, shelf: &Shelf, line: &str) {
    let (target, resource) = sides(rt, line);
    let wanted = response_with(alloc, resource).expect(rt, line);
    assert_told(rt, answered_at(alloc, shelf, target), wanted.as_str(), line);
}

#[test]
fn targets_are_answered(rt: HostRuntime) {
    let shelf = shelf(rt.alloc()).expect(&rt, "a shelf");
    for line in resources().lines() {
        assert_resource(&rt, rt.alloc(), &shelf, line);
    }
}

fn other_targets() -> &'static str {
    "/
/mona
/mona/none
//linkedlist
/mona/linkedlist/
/mona/linkedlist/1.2.0
/mona/linkedlist/1.0.0/Package.swift
/mona/linkedlist/1.0.0/Package.json/x
/mona/linkedlist/2.0.0
/mona/linkedlist/2.0.0/Package.json
/mona/linkedlist/2.0.0.zip
/identifiers
/identifiers?url=
/identifiers?url=%zz
/identifiers?url=%ff
/identifiers?url=https://example.com/mona/linkedlist"
}

#[test]
fn other_targets_are_not_found(rt: HostRuntime) {
    let shelf = shelf(rt.alloc()).expect(&rt, "a shelf");
    for target in other_targets().lines() {
        assert_told(
            &rt,
            answered_at(rt.alloc(), &shelf, target),
            NOT_FOUND,
            target,
        );
    }
}

// Requests, and the responses to them.
fn requests() -> &'static str {
    r"GET /zed/list HTTP/1.1\r\n\r\n => an empty list
GET /zed/list HTTP/1.1\r\nAccept: */*\r\n\r\n => an empty list
GET /zed/list HTTP/1.1\r\nAccept: application/vnd.swift.registry.v1\r\n\r\n => an empty list
GET /zed/list HTTP/1.1\r\nAccept: application/vnd.swift.registry.v1+json\r\n\r\n => an empty list
GET /zed/list HTTP/1.1\r\nAccept: application/vnd.swift.registry.v1+zip\r\n\r\n => an empty list
GET /zed/list HTTP/1.1\r\nAccept: application/vnd.swift.registry.v1+swift\r\n\r\n => another version
GET /zed/list HTTP/1.1\r\nAccept: application/vnd.swift.registry.v2+json\r\n\r\n => another version
GET /zed/list HTTP/1.1\r\nAccept: application/vnd.swift.registry\r\n\r\n => another version
GET /mona HTTP/1.1\r\nAccept: application/vnd.swift.registry.v2+json\r\n\r\n => another version
POST /mona/linkedlist HTTP/1.1\r\nAccept: application/vnd.swift.registry.v2+json\r\n\r\n => not GET
POST /mona/linkedlist HTTP/1.1\r\n\r\n => not GET
get /mona/linkedlist HTTP/1.1\r\n\r\n => not GET
GET /mona HTTP/1.1\r\n\r\n => not found
GET /mona/\xc3\xa9 HTTP/1.1\r\n\r\n => not found
GET /mona/\xc3 HTTP/1.1\r\n\r\n => unreadable
GET /mona/\x00 HTTP/1.1\r\n\r\n => unreadable
GET /mona HTTP/1.1\r\n => unreadable
 => unreadable"
}

// The response of this name.
fn named(name: &str) -> &'static str {
    match name {
        "an empty list" => EMPTY_LIST,
        "another version" => OTHER_VERSION,
        "not GET" => NOT_GET,
        "not found" => NOT_FOUND,
        _ => UNREADABLE,
    }
}

fn assert_answer(rt: &impl Abort, alloc: Global, shelf: &Shelf, line: &str) {
    let (request, name) = sides(rt, line);
    let request = bytes_of(alloc, request).expect(rt, line);
    assert_told(
        rt,
        answered(alloc, shelf, request.as_slice()),
        named(name),
        line,
    );
}

#[test]
fn requests_are_answered(rt: HostRuntime) {
    let shelf = shelf(rt.alloc()).expect(&rt, "a shelf");
    for line in requests().lines() {
        assert_answer(&rt, rt.alloc(), &shelf, line);
    }
}

#[test]
fn a_request_that_is_cut_is_unreadable(rt: HostRuntime) {
    let shelf = shelf(rt.alloc()).expect(&rt, "a shelf");
    let request = b"GET /zed/list HTTP/1.1\r\nHost: a\r\nAccept: */*\r\n\r\n";
    for end in 0..request.len() {
        let found = answered(rt.alloc(), &shelf, &request[..end]);
        assert_told(&rt, found, UNREADABLE, "a cut request");
    }
}

// The response to a request with a piece that stands so many times, behind its line.
fn answered_many(
    alloc: Global,
    shelf: &Shelf,
    before: &str,
    piece: &str,
    count: usize,
) -> Option<String> {
    let request = with_many(alloc, before, piece, count, "\r\n\r\n")?;
    answered(alloc, shelf, request.as_bytes())
}

// The request line, the field's name and the empty line have 30 bytes.
#[test]
fn a_head_has_64_fields_and_65536_bytes_at_most(rt: HostRuntime) {
    let shelf = shelf(rt.alloc()).expect(&rt, "a shelf");
    let fields = "GET /zed/list HTTP/1.1\r\nN:v";
    let value = "GET /zed/list HTTP/1.1\r\nN:";
    for (before, piece, count, wanted) in [
        (fields, "\r\na: b", 63, EMPTY_LIST),
        (fields, "\r\na: b", 64, UNREADABLE),
        (value, "v", 65_506, EMPTY_LIST),
        (value, "v", 65_507, UNREADABLE),
    ] {
        let found = answered_many(rt.alloc(), &shelf, before, piece, count);
        assert_told(&rt, found, wanted, piece);
    }
}

/// The reply to a key, by the server's answer to the request for it.
pub fn told_answer(alloc: Global, shelf: &Shelf, asked: &str) -> Option<String> {
    let base = Base::parse(alloc, "http://127.0.0.1:8080").ok()?;
    let key = key(alloc, asked)?;
    let request = request_of(alloc, &base, &key).ok()?;
    let response = answer(alloc, shelf, request.as_slice()).ok()?;
    told_reply(alloc, &reply_of(alloc, &key, response.as_slice()).ok()?)
}

#[test]
fn answers_are_replies(rt: HostRuntime) {
    let shelf = shelf(rt.alloc()).expect(&rt, "a shelf");
    for (asked, wanted) in [
        (
            "archive mona.LinkedList 1.0.0",
            "200 ba7816bf8f01cfea414140de5dae2223b00361a396177a9cb410ff61f20015ad 3",
        ),
        ("list mona.none", "404 whole 62"),
        ("identifiers https://example.com/%zz", "200 whole 18"),
    ] {
        assert_told(&rt, told_answer(rt.alloc(), &shelf, asked), wanted, asked);
    }
}
