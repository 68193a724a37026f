use crate::servers::{shelf, told_answer};
use crate::support::{assert_told, key, sides, told_reply, with_many};
use spm_api::{Base, fetch};
use spm_outside::{BookLink, MemoryPeer};
use spm_server::{ServeFault, answer, book, is_plain_base, serve_connection};
use spm_shelf::Shelf;
use std::alloc::Global;
use std::process::Abort;

/// A request, the number of the call that fails, and how the connection ends.
type Served<'r> = (&'r str, u64, Result<u16, ServeFault>);

// Whether the connection ends so, and what is written is the whole answer, or nothing where a call failed.
fn is_served(alloc: Global, shelf: &Shelf, served: Served) -> Option<bool> {
    let (request, failing, ending) = served;
    let mut peer = MemoryPeer::new(alloc, request.as_bytes(), &[failing]).ok()?;
    if serve_connection(alloc, shelf, &mut peer) != ending {
        return Some(false);
    }
    if ending.is_err() {
        return Some(peer.written().is_empty());
    }
    let whole = answer(alloc, shelf, request.as_bytes()).ok()?;
    Some(peer.written() == whole.as_slice())
}

fn assert_served(rt: &impl Abort, alloc: Global, shelf: &Shelf, served: Served) {
    assert!(rt;
        is_served(alloc, shelf, served) == Some(true),
        "{}",
        served.0
    );
}

#[test]
fn connections_are_served(rt: HostRuntime) {
    let shelf = shelf(rt.alloc()).expect(&rt, "a shelf");
    let none = "GET /mona/none HTTP/1.1\r\n\r\n";
    for served in [
        (none, 9, Ok(404)),
        ("POST /mona/none HTTP/1.1\r\n\r\n", 9, Ok(405)),
        ("GET /zed/list HTTP/1.1\r\n\r\n", 9, Ok(200)),
        // The peer ends in the head.
        ("GET /zed/list HTTP/1.1\r\n", 9, Ok(400)),
        ("", 9, Ok(400)),
        // The first read fails, and the first put.
        (none, 1, Err(ServeFault::Peer)),
        (none, 2, Err(ServeFault::Peer)),
    ] {
        assert_served(&rt, rt.alloc(), &shelf, served);
    }
}

// Whether that is so of a head with an Accept field so long that it comes in several pieces.
fn is_long_served(
    alloc: Global,
    shelf: &Shelf,
    failing: u64,
    ending: Result<u16, ServeFault>,
) -> Option<bool> {
    let before = "GET /mona/none HTTP/1.1\r\nAccept: ";
    let behind = "\r\n\r\nwhat follows is left alone";
    let request = with_many(alloc, before, "x", 20_000, behind)?;
    is_served(alloc, shelf, (request.as_str(), failing, ending))
}

#[test]
fn pieces_of_a_long_head_are_read(rt: HostRuntime) {
    let alloc = rt.alloc();
    let shelf = shelf(alloc).expect(&rt, "a shelf");
    assert!(rt; is_long_served(alloc, &shelf, 9, Ok(404)) == Some(true));
    // The second read fails.
    assert!(rt; is_long_served(alloc, &shelf, 2, Err(ServeFault::Peer)) == Some(true));
}

// What a fetch from the shelf's book tells.
fn told_fetch(alloc: Global, shelf: &Shelf, asked: &str) -> Option<String> {
    let base = Base::parse(alloc, "http://127.0.0.1:8080").ok()?;
    if !is_plain_base(&base) {
        return None;
    }
    let book = book(alloc, shelf, &base).ok()?;
    let mut link = BookLink::new(alloc, &book, &[]).ok()?;
    told_reply(
        alloc,
        &fetch(alloc, &mut link, &base, &key(alloc, asked)?).ok()?,
    )
}

fn fetches() -> &'static str {
    "list mona.linkedlist => 200 whole 167
list mona.none => 404 whole 62
manifest mona.linkedlist 1.0.0 => 200 whole 2
manifest mona.linkedlist 2.0.0 => 404 whole 62
release mona.linkedlist 1.1.0 => 200 whole 199
archive mona.linkedlist 1.1.0 => 200 ba7816bf8f01cfea414140de5dae2223b00361a396177a9cb410ff61f20015ad 3
identifiers https://example.com/mona/LinkedList => 200 whole 35
identifiers https://example.com/none => 404 whole 62"
}

#[test]
fn a_book_answers_as_the_server(rt: HostRuntime) {
    let shelf = shelf(rt.alloc()).expect(&rt, "a shelf");
    for line in fetches().lines() {
        let (asked, wanted) = sides(&rt, line);
        assert_told(&rt, told_fetch(rt.alloc(), &shelf, asked), wanted, line);
        assert_told(&rt, told_answer(rt.alloc(), &shelf, asked), wanted, line);
    }
}
