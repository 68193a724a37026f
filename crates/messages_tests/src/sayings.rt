use crate::bodies::long_list;
use crate::support::{assert_told, bytes_of, key, sides};
use spm_api::{ReplyFault, Said, reply_of, said};
use spm_key::{Body, Reply};
use spm_version::Release;
use std::alloc::Global;

// The versions, with a semicolon behind each.
fn versions(alloc: Global, releases: &[Release]) -> Option<String> {
    let mut text = String::from_str(alloc, "releases ").ok()?;
    for release in releases {
        write!(text, "{release};").ok()?;
    }
    Some(text)
}

// What is said.
fn told_said(alloc: Global, said: &Said) -> Option<String> {
    match said {
        Said::Releases(releases) => versions(alloc, releases.as_slice()),
        Said::TooMany => String::from_str(alloc, "too many").ok(),
        Said::Package(Some(identity)) => String::from_str(alloc, identity.text()).ok(),
        Said::Package(None) => String::from_str(alloc, "no package").ok(),
        Said::Manifest(manifest) => {
            let name = manifest.name();
            format!(in alloc; "manifest {name}").ok()
        }
        Said::FaultyManifest(place, kind) => format!(in alloc; "{place}: {kind}").ok(),
        Said::NoManifest => String::from_str(alloc, "no manifest").ok(),
        Said::Nothing => String::from_str(alloc, "nothing").ok(),
    }
}

// Why the reply is refused.
fn told_fault(alloc: Global, fault: &ReplyFault) -> Option<String> {
    match fault {
        ReplyFault::Memory => None,
        ReplyFault::Says(status, Some(detail)) => {
            format!(in alloc; "says {status}: {detail}").ok()
        }
        fault => format!(in alloc; "{fault}").ok(),
    }
}

// What the reply of this key says.
fn told_reply(alloc: Global, asked: &str, reply: &Reply) -> Option<String> {
    let key = key(alloc, asked)?;
    match said(alloc, &key, reply) {
        Ok(said) => told_said(alloc, &said),
        Err(fault) => told_fault(alloc, &fault),
    }
}

// What a response with this status and body, parted by ` | `, says to the request for the key before them.
fn told_response(alloc: Global, case: &str) -> Option<String> {
    let (asked, rest) = case.split_once(" | ")?;
    let (status, body) = rest.split_once(" | ")?;
    let key = key(alloc, asked)?;
    let text = format!(in alloc; r"HTTP/1.1 {status}\r\n\r\n{body}").ok()?;
    let reply = reply_of(alloc, &key, bytes_of(alloc, text.as_str())?.as_slice()).ok()?;
    told_reply(alloc, asked, &reply)
}

fn responses() -> &'static str {
    r#"list a.b | 200 OK | {"releases":{"10.0.0":{},"2.0.0":{},"3.0.0":{"problem":{}}}} => releases 2.0.0;10.0.0;
list a.b | 200 OK | {"releases":{}} => releases 
list a.b | 200 OK | [] => unreadable body
list a.b | 404 Not Found | [] => releases 
list a.b | 410 Gone | {"releases":{"1.0.0":{}}} => releases 
list a.b | 500 Oh | {"detail":"busy"} => says 500: busy
list a.b | 503 Busy | busy => the registry says 503
list a.b | 20 |  => garbled response
list a.b | 200 OK\r\nContent-Length: 1048577 |  => response too long
manifest a.b 1.0.0 | 200 OK | {"name":"app","toolsVersion":{"_version":"5.9.0"}} => manifest app
manifest a.b 1.0.0 | 200 OK | {"name":1} => /name: wrong kind
manifest a.b 1.0.0 | 200 OK | x => /: not JSON
manifest a.b 1.0.0 | 404 Not Found | x => no manifest
manifest a.b 1.0.0 | 410 Gone | x => no manifest
manifest a.b 1.0.0 | 500 Oh | x => the registry says 500
manifest a.b 1.0.0 | 20 |  => garbled response
manifest a.b 1.0.0 | 200 OK\r\nContent-Length: 1048577 |  => response too long
release a.b 1.0.0 | 200 OK | x => nothing
release a.b 1.0.0 | 404 Not Found | x => nothing
release a.b 1.0.0 | 410 Gone | x => nothing
release a.b 1.0.0 | 500 Oh | {"detail":"busy"} => says 500: busy
archive a.b 1.0.0 | 200 OK | x => nothing
archive a.b 1.0.0 | 404 Not Found | x => nothing
archive a.b 1.0.0 | 410 Gone | x => nothing
archive a.b 1.0.0 | 500 Oh | {"detail":1} => the registry says 500
archive a.b 1.0.0 | 200 OK\r\nContent-Length: 67108865 |  => response too long
identifiers https://a.com/b | 200 OK | {"identifiers":["b.c","B.b","x"]} => b.b
identifiers https://a.com/b | 200 OK | {"identifiers":["x"]} => no package
identifiers https://a.com/b | 200 OK | {} => unreadable body
identifiers https://a.com/b | 404 Not Found | {} => no package
identifiers https://a.com/b | 410 Gone | {} => no package
identifiers https://a.com/b | 500 Oh |  => the registry says 500
identifiers https://a.com/b | 20 |  => garbled response"#
}

#[test]
fn responses_say_so(rt: HostRuntime) {
    for line in responses().lines() {
        let (case, wanted) = sides(&rt, line);
        assert_told(&rt, told_response(rt.alloc(), case), wanted, line);
    }
}

// The last release of a list of so many, or that they are too many.
fn told_long(alloc: Global, usable: u32) -> Option<String> {
    let key = key(alloc, "list a.b")?;
    let body = long_list(alloc, usable)?;
    let text = format!(in alloc; "HTTP/1.1 200 OK\r\n\r\n{body}").ok()?;
    let reply = reply_of(alloc, &key, text.as_bytes()).ok()?;
    match said(alloc, &key, &reply) {
        Ok(Said::Releases(releases)) => {
            let last = releases.as_slice().last()?;
            format!(in alloc; "{last}").ok()
        }
        Ok(said) => told_said(alloc, &said),
        Err(fault) => told_fault(alloc, &fault),
    }
}

#[test]
fn long_lists_are_too_many(rt: HostRuntime) {
    for (usable, wanted) in [(4096, "1.4095.0"), (4097, "too many")] {
        assert_told(&rt, told_long(rt.alloc(), usable), wanted, wanted);
    }
}

#[test]
fn a_sum_is_no_json(rt: HostRuntime) {
    for (asked, wanted) in [
        ("manifest a.b 1.0.0", "/: not JSON"),
        ("list a.b", "unreadable body"),
        ("archive a.b 1.0.0", "nothing"),
    ] {
        let reply = Reply {
            status: 200,
            body: Body::Sum {
                sum: [0; 32],
                length: 0,
            },
        };
        assert_told(&rt, told_reply(rt.alloc(), asked, &reply), wanted, asked);
    }
}
