use crate::servers::shelf;
use crate::support::{key, told_reply};
use spm_api::{Base, fetch};
use spm_outside::{Door, Link, TcpDoor, WireLink};
use spm_server::serve_connection;
use spm_shelf::Shelf;
use std::alloc::Global;
use std::{process, thread};

// Serves one connection of a door. The status that was sent.
fn serve_one(alloc: Global, shelf: &Shelf, door: &mut impl Door) -> Option<u16> {
    let mut peer = door.next().ok()?;
    let status = serve_connection(alloc, shelf, &mut peer).ok()?;
    door.done(peer).ok()?;
    Some(status)
}

// What is told of the reply of a key that is fetched from a port of this machine.
fn told_over(alloc: Global, link: &mut impl Link, port: u16, asked: &str) -> Option<String> {
    let address = format!(in alloc; "http://127.0.0.1:{port}").ok()?;
    let base = Base::parse(alloc, address.as_str()).ok()?;
    told_reply(alloc, &fetch(alloc, link, &base, &key(alloc, asked)?).ok()?)
}

// A thread serves one connection, and a link asks for one key of the same shelf. The port is below those that systems give to
// connections that go out, and is another in each process.
#[test]
fn a_reply_comes_over_sockets(rt: HostRuntime) {
    let alloc = rt.alloc();
    let shelf = shelf(alloc).expect(&rt, "a shelf");
    let port = 20000 + (process::id(rt.process()) % 12000) as u16;
    let mut door = TcpDoor::new(rt);
    assert!(&rt; door.bind(port).is_ok());
    let mut link = WireLink::new(rt);
    let (served, told) = thread::join(
        &rt,
        || serve_one(alloc, &shelf, &mut door),
        || told_over(alloc, &mut link, port, "list mona.linkedlist"),
    );
    assert!(rt; served == Some(200));
    assert!(rt; told.is_some_and(|text| text.as_str() == "200 whole 167"));
}

// Nothing listens at a port that was never bound.
#[test]
fn nobody_answers_at_a_closed_port(rt: HostRuntime) {
    let mut link = WireLink::new(rt);
    assert!(rt; told_over(rt.alloc(), &mut link, 1, "list mona.linkedlist").is_none());
}
