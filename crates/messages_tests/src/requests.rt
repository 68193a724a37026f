use crate::support::{assert_told, bytes_of, sides, with_many};
use spm_http::{HttpFault, RequestHead, read_request, request, response};
use std::alloc::Global;
use std::process::Abort;

fn fault_of(alloc: Global, fault: HttpFault) -> Option<String> {
    match fault {
        HttpFault::Partial => String::from_str(alloc, "partial").ok(),
        HttpFault::Bad => String::from_str(alloc, "bad").ok(),
        HttpFault::Memory => None,
    }
}

fn told(alloc: Global, head: &RequestHead) -> Option<String> {
    let (method, length) = (&head.method, head.length);
    let target = str::from_utf8(head.target.as_slice()).ok()?;
    format!(in alloc; "{method} {target} {length}").ok()
}

// The method, the target and the length of the head that is read, or the fault.
fn told_head(alloc: Global, bytes: &[u8]) -> Option<String> {
    match read_request(alloc, bytes) {
        Ok(head) => told(alloc, &head),
        Err(fault) => fault_of(alloc, fault),
    }
}

// The length of the head that is read, or the fault.
fn told_length(alloc: Global, bytes: &[u8]) -> Option<String> {
    match read_request(alloc, bytes) {
        Ok(head) => {
            let length = head.length;
            format!(in alloc; "{length}").ok()
        }
        Err(fault) => fault_of(alloc, fault),
    }
}

fn heads() -> &'static str {
    r#"GET /a HTTP/1.1\r\n\r\n => GET /a 19
GET /a HTTP/1.1\n\n => GET /a 17
GET /a HTTP/1.0\r\n\r\n => GET /a 19
\r\n\nGET /a HTTP/1.1\r\n\r\n => GET /a 22
POST /login HTTP/1.1\r\nHost: a\r\n\r\nbody => POST /login 33
GET /a HTTP/1.1\r\n\r\nGET /b HTTP/1.1\r\n\r\n => GET /a 19
GET /é HTTP/1.1\r\n\r\n => GET /é 20
GET /\x00 HTTP/1.1\r\n\r\n => bad
GET /\x00 => bad
GET /\xff HTTP/1.1\r\n\r\n => bad
GET /\xff\x20 => bad
GET /\xff => partial
GET /\xc3 => partial
GET  / HTTP/1.1\r\n\r\n => bad
GET / HTTP/2.0\r\n\r\n => bad
GET / HTTP/1.2 => bad
GET / HTTP/1.1\r\r => bad
GET / HTTP/1.1\r\n a: b\r\n => bad
GET / HTTP/1.1\r\na : b\r\n => bad
GET / HTTP/1.1\r\na\r\n => bad
GET / HTTP/1.1\r\na: \x00 => bad
G\x00 => bad"#
}

fn assert_head(rt: &impl Abort, alloc: Global, text: &str, wanted: &str) {
    let bytes = bytes_of(alloc, text).expect(rt, text);
    assert_told(rt, told_head(alloc, bytes.as_slice()), wanted, text);
}

#[test]
fn heads_are_read(rt: HostRuntime) {
    for line in heads().lines() {
        let (text, wanted) = sides(&rt, line);
        assert_head(&rt, rt.alloc(), text, wanted);
    }
}

#[test]
fn a_head_that_is_cut_may_still_come(rt: HostRuntime) {
    let text = "\r\nGET /a HTTP/1.1\r\nAccept: b\r\nc: d\n\r\n";
    for count in 0..text.len() {
        let cut = &text.as_bytes()[..count];
        assert_told(&rt, told_head(rt.alloc(), cut), "partial", "a cut head");
    }
    assert_told(&rt, told_length(rt.alloc(), text.as_bytes()), "37", text);
}

// What is accepted, where a head is read and it has that field.
fn told_accept(alloc: Global, fields: &str) -> Option<String> {
    let fields = bytes_of(alloc, fields)?;
    let fields = str::from_utf8(fields.as_slice()).ok()?;
    let text = format!(in alloc; "GET / HTTP/1.1\r\n{fields}\r\n").ok()?;
    let head = read_request(alloc, text.as_bytes()).ok()?;
    let Some(accept) = &head.accept else {
        return String::from_str(alloc, "none").ok();
    };
    let accept = str::from_utf8(accept.as_slice()).ok()?;
    format!(in alloc; "\"{accept}\"").ok()
}

fn accepts() -> &'static str {
    r#" => none
Host: a\r\n => none
Accept: b\r\n => "b"
accept:b\r\n => "b"
Host: a\r\nACCEPT: \t b c \t\r\nAccept: d\r\n => "b c"
Accept:\r\nAccept: d\r\n => ""
Accept-Language: b\r\n => none"#
}

#[test]
fn the_first_accept_is_told(rt: HostRuntime) {
    for line in accepts().lines() {
        let (fields, wanted) = sides(&rt, line);
        assert_told(&rt, told_accept(rt.alloc(), fields), wanted, line);
    }
}

// A request line, that many fields, and these bytes.
fn assert_fields(rt: &impl Abort, alloc: Global, count: usize, end: &str, wanted: &str) {
    let text = with_many(alloc, "GET / HTTP/1.1\r\n", "a: b\r\n", count, end).expect(rt, end);
    assert_told(rt, told_length(alloc, text.as_bytes()), wanted, end);
}

#[test]
fn at_most_64_fields_are_read(rt: HostRuntime) {
    for (count, end, wanted) in [
        (64, "\r\n", "402"),
        (65, "\r\n", "bad"),
        (64, "", "partial"),
        (64, "\r", "partial"),
        (64, "c", "bad"),
        (64, "c:", "bad"),
        (64, "c: d", "bad"),
        (64, "c: d\r", "bad"),
        (65, "", "bad"),
        (63, "c", "partial"),
        (63, "c:", "partial"),
        (63, "c: d", "partial"),
        (63, "c: d\r", "partial"),
        (63, "c: d\r\n", "partial"),
        (63, "c: d\r\ne", "bad"),
        (80, "", "bad"),
    ] {
        assert_fields(&rt, rt.alloc(), count, end, wanted);
    }
}

// A request line whose target has that many bytes behind its slash, and these bytes.
fn assert_target(rt: &impl Abort, alloc: Global, count: usize, end: &str, wanted: &str) {
    let text = with_many(alloc, "GET /", "a", count, end).expect(rt, end);
    assert_told(rt, told_length(alloc, text.as_bytes()), wanted, end);
}

#[test]
fn a_head_has_at_most_65536_bytes(rt: HostRuntime) {
    for (count, end, wanted) in [
        (65_518, " HTTP/1.1\r\n\r\n", "65536"),
        (65_518, " HTTP/1.1\r\n\r\nbody", "65536"),
        (65_519, " HTTP/1.1\r\n\r\n", "bad"),
        (65_518, " HTTP/1.1\r\n\r", "partial"),
        (65_519, " HTTP/1.1\r\n\r", "bad"),
        (65_530, "", "partial"),
        (65_531, "", "bad"),
        (80_000, " HTTP/1.1\r\n\r\n", "bad"),
    ] {
        assert_target(&rt, rt.alloc(), count, end, wanted);
    }
}

#[test]
fn a_request_is_written_and_read(rt: HostRuntime) {
    let text = "GET /a HTTP/1.1\r\nHost: b:81\r\nAccept: c\r\nConnection: close\r\n\r\n";
    let bytes = request(rt.alloc(), "/a", "b:81", "c").expect(&rt, "memory");
    assert!(rt; bytes.as_slice() == text.as_bytes());
    assert_head(&rt, rt.alloc(), text, "GET /a 61");
}

// The line of a response with this status, the rest of which is as it is to be.
fn told_response(alloc: Global, status: u16) -> Option<String> {
    let bytes = response(alloc, status, "a/b", b"[]").ok()?;
    let text = String::from_utf8(bytes.into_vec()).ok()?;
    let rest =
        "\r\nContent-Version: 1\r\nContent-Type: a/b\r\nContent-Length: 2\r\nConnection: close\r\n\r\n[]";
    String::from_str(alloc, text.as_str().strip_suffix(rest)?).ok()
}

#[test]
fn a_response_is_written(rt: HostRuntime) {
    for (status, line) in [
        (200, "HTTP/1.1 200 OK"),
        (404, "HTTP/1.1 404 Not Found"),
        (299, "HTTP/1.1 299 "),
        (7, "HTTP/1.1 7 "),
        (65_535, "HTTP/1.1 65535 "),
    ] {
        assert_told(&rt, told_response(rt.alloc(), status), line, line);
    }
}
