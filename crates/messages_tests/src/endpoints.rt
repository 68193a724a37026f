use crate::support::{assert_told, bytes_of, key, sides, told_reply};
use spm_api::{Base, BaseFault, fetch, reply_of, request_of};
use spm_key::Key;
use spm_outside::{Book, BookLink, Entry, LinkFault};
use spm_version::{Bytes, Items};
use std::alloc::Global;
use std::process::Abort;

// The host, the port and the prefix, or the fault.
fn told_base(alloc: Global, text: &str) -> Option<String> {
    match Base::parse(alloc, text) {
        Ok(base) => {
            let (host, port, prefix) = (&base.to.host, base.to.port, &base.prefix);
            format!(in alloc; "{host}:{port}{prefix}").ok()
        }
        Err(BaseFault::Memory) => None,
        Err(fault) => format!(in alloc; "{fault}").ok(),
    }
}

fn bases() -> &'static str {
    "http://127.0.0.1:8080/r/ => 127.0.0.1:8080/r
http://localhost => localhost:80
http://localhost:80/ => localhost:80
HTTP://Example.COM/a/b// => example.com:80/a/b
http://example.com/a//b => example.com:80/a//b
http://[::1]:1/ => [::1]:1
https://example.com => bad URL
ftp://example.com => bad URL
http:// => bad URL
http://user@example.com => bad URL
http://:word@example.com => bad URL
http://example.com? => bad URL
http://example.com/?q => bad URL
http://example.com/#f => bad URL
http://example.com:99999 => bad URL
example.com => bad URL
 => bad URL"
}

#[test]
fn bases_are_read(rt: HostRuntime) {
    for line in bases().lines() {
        let (text, wanted) = sides(&rt, line);
        assert_told(&rt, told_base(rt.alloc(), text), wanted, line);
    }
}

fn requested(alloc: Global, base: &str, asked: &str) -> Option<String> {
    let base = Base::parse(alloc, base).ok()?;
    let base = base.copy(alloc).ok()?;
    let bytes = request_of(alloc, &base, &key(alloc, asked)?).ok()?;
    String::from_utf8(bytes.into_vec()).ok()
}

#[test]
fn requests_are_written(rt: HostRuntime) {
    for (base, asked, text) in [
        (
            "http://127.0.0.1:8080/r/",
            "list mona.LinkedList",
            "GET /r/mona/linkedlist HTTP/1.1\r\nHost: 127.0.0.1:8080\r\nAccept: application/vnd.swift.registry.v1+json\r\nConnection: close\r\n\r\n",
        ),
        (
            "http://localhost",
            "archive mona.LinkedList 1.1.0",
            "GET /mona/linkedlist/1.1.0.zip HTTP/1.1\r\nHost: localhost\r\nAccept: application/vnd.swift.registry.v1+zip\r\nConnection: close\r\n\r\n",
        ),
    ] {
        assert_told(&rt, requested(rt.alloc(), base, asked), text, asked);
    }
}

// The reply to a key that a response is.
fn told_response(alloc: Global, asked: &str, response: &str) -> Option<String> {
    let key = key(alloc, asked)?;
    let response = bytes_of(alloc, response)?;
    told_reply(alloc, &reply_of(alloc, &key, response.as_slice()).ok()?)
}

fn list_responses() -> &'static str {
    r#"HTTP/1.1 200 OK\r\nContent-Length: 15\r\n\r\n{"releases":{}} => 200 whole 15
 => 0 garbled
HTTP/1.1 200 OK\r\nContent-Length: 1048577\r\n\r\n => 0 too long
HTTP/1.1 503 Busy\r\n\r\n{} => 503 whole 2"#
}

fn archive_responses() -> &'static str {
    r#"HTTP/1.1 200 OK\r\nContent-Length: 1048577\r\n\r\n => 0 garbled
HTTP/1.1 200 OK\r\nContent-Length: 67108865\r\n\r\n => 0 too long
HTTP/1.1 200 OK\r\n\r\nabc => 200 ba7816bf8f01cfea414140de5dae2223b00361a396177a9cb410ff61f20015ad 3
HTTP/1.1 404 Not Found\r\n\r\nabc => 404 whole 3"#
}

fn assert_replies(rt: &impl Abort, alloc: Global, asked: &str, table: &str) {
    for line in table.lines() {
        let (response, wanted) = sides(rt, line);
        assert_told(rt, told_response(alloc, asked, response), wanted, line);
    }
}

#[test]
fn responses_are_replies(rt: HostRuntime) {
    assert_replies(&rt, rt.alloc(), "list mona.LinkedList", list_responses());
    assert_replies(
        &rt,
        rt.alloc(),
        "archive mona.LinkedList 1.1.0",
        archive_responses(),
    );
}

// A book that answers the request for the key alone.
fn book(alloc: Global, base: &Base, key: &Key) -> Option<Book> {
    let entry = Entry {
        to: base.to.copy(alloc).ok()?,
        request: request_of(alloc, base, key).ok()?,
        response: Bytes::from_slice(alloc, b"HTTP/1.1 200 OK\r\n\r\nabc").ok()?,
    };
    let mut entries = Items::new(alloc);
    entries.push(entry).ok()?;
    let other = Bytes::from_slice(alloc, b"x").ok()?;
    Book::new(alloc, entries, other).ok()
}

// What a fetch of the key tells, over a link whose call with this number fails.
fn fetched(alloc: Global, asked: &str, failing: u64) -> Option<String> {
    let base = Base::parse(alloc, "http://localhost/r").ok()?;
    let book = book(alloc, &base, &key(alloc, "archive mona.LinkedList 1.1.0")?)?;
    let mut link = BookLink::new(alloc, &book, &[failing]).ok()?;
    match fetch(alloc, &mut link, &base, &key(alloc, asked)?) {
        Ok(reply) => told_reply(alloc, &reply),
        Err(LinkFault::Failed) => String::from_str(alloc, "failed").ok(),
        Err(LinkFault::Memory) => None,
    }
}

#[test]
fn keys_are_fetched(rt: HostRuntime) {
    for (asked, failing, wanted) in [
        (
            "archive mona.LinkedList 1.1.0",
            9,
            "200 ba7816bf8f01cfea414140de5dae2223b00361a396177a9cb410ff61f20015ad 3",
        ),
        ("list mona.LinkedList", 9, "0 garbled"),
        ("archive mona.LinkedList 1.1.0", 1, "failed"),
        ("archive mona.LinkedList 1.1.0", 2, "failed"),
    ] {
        assert_told(&rt, fetched(rt.alloc(), asked, failing), wanted, asked);
    }
}
