use spm_digest::hex_of;
use spm_ident::Identity;
use spm_key::{Body, Key, Reply};
use spm_version::{Release, Text};
use std::alloc::Global;
use std::process::Abort;

/// The sides of a line `CASE => WANTED` of a table.
pub fn sides<'l>(rt: &impl Abort, line: &'l str) -> (&'l str, &'l str) {
    line.split_once(" => ").expect(rt, line)
}

/// Asserts that what is told of a case is what is wanted.
pub fn assert_told(rt: &impl Abort, found: Option<String>, wanted: &str, case: &str) {
    let found = found.expect(rt, case);
    assert_eq!(rt; found.as_str(), wanted, "{case}");
}

// The byte that an escape says, and what stands behind it.
fn escaped(piece: &str) -> Option<(u8, &str)> {
    for (name, byte) in [
        ("r", b'\r'),
        ("n", b'\n'),
        ("t", b'\t'),
        ("x00", 0),
        ("x20", b' '),
        ("xa9", 0xa9),
        ("xc3", 0xc3),
        ("xff", 0xff),
    ] {
        if let Some(rest) = piece.strip_prefix(name) {
            return Some((byte, rest));
        }
    }
    None
}

/// The bytes of a text of a table, in which `\r`, `\n`, `\t` and `\xff` and its like stand for these bytes.
pub fn bytes_of(alloc: Global, text: &str) -> Option<Vec<u8>> {
    let mut bytes = Vec::new(alloc);
    for (place, piece) in text.split('\\').enumerate() {
        let mut rest = piece;
        if place > 0 {
            let (byte, behind) = escaped(piece)?;
            bytes.push(byte).ok()?;
            rest = behind;
        }
        bytes.extend_from_slice(rest.as_bytes()).ok()?;
    }
    Some(bytes)
}

/// A text in which a piece stands so many times.
pub fn with_many(
    alloc: Global,
    before: &str,
    piece: &str,
    count: usize,
    behind: &str,
) -> Option<String> {
    let pieces = piece.repeat(alloc, count).ok()?;
    format!(in alloc; "{before}{pieces}{behind}").ok()
}

/// The key that a line of a table names: its kind, and an identity and a version, or a URL.
pub fn key(alloc: Global, asked: &str) -> Option<Key> {
    let (kind, rest) = asked.split_once(' ')?;
    match kind {
        "list" => Some(Key::List(Identity::parse(alloc, rest).ok()?)),
        "identifiers" => Some(Key::Identifiers(Text::from_str(alloc, rest).ok()?)),
        _ => release_key(alloc, kind, rest),
    }
}

// The key of a release.
fn release_key(alloc: Global, kind: &str, rest: &str) -> Option<Key> {
    let (identity, version) = rest.split_once(' ')?;
    let identity = Identity::parse(alloc, identity).ok()?;
    let release = Release::parse(alloc, version).ok()?;
    match kind {
        "manifest" => Some(Key::Manifest(identity, release)),
        "release" => Some(Key::Release(identity, release)),
        "archive" => Some(Key::Archive(identity, release)),
        _ => None,
    }
}

/// The status, and what the body is.
pub fn told_reply(alloc: Global, reply: &Reply) -> Option<String> {
    let status = reply.status;
    match &reply.body {
        Body::Whole(bytes) => {
            let length = bytes.as_slice().len();
            format!(in alloc; "{status} whole {length}").ok()
        }
        Body::Sum { sum, length } => {
            let sum = hex_of(alloc, sum).ok()?;
            format!(in alloc; "{status} {sum} {length}").ok()
        }
        Body::Garbled => format!(in alloc; "{status} garbled").ok(),
        Body::TooLong => format!(in alloc; "{status} too long").ok(),
    }
}
