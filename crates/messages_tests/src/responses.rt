use crate::support::{bytes_of, sides, with_many};
use spm_http::{Heard, read_response};
use std::alloc::Global;
use std::process::Abort;

const LIMIT: u64 = 1_048_576;

// Whether what is heard is this: `garbled`, `too long`, or a status and a body.
fn is_heard(found: &Heard, wanted: &str) -> bool {
    match found {
        Heard::Garbled => wanted == "garbled",
        Heard::TooLong => wanted == "too long",
        Heard::Whole { status, body } => match wanted.split_once(' ') {
            Some((code, text)) => {
                code.parse::<u16>() == Ok(*status) && body.as_slice() == text.as_bytes()
            }
            None => false,
        },
    }
}

fn assert_heard(rt: &impl Abort, alloc: Global, bytes: &[u8], limit: u64, wanted: &str) {
    let found = read_response(alloc, bytes, limit).expect(rt, "memory");
    assert!(rt; is_heard(&found, wanted), "{found:?} and not {wanted}");
}

/// What stands around a piece of a response.
#[derive(Clone, Copy)]
struct Frame {
    before: &'static str,
    behind: &'static str,
}

const ALL: Frame = Frame {
    before: "",
    behind: "",
};

const FIELDS: Frame = Frame {
    before: "HTTP/1.1 200 OK\r\n",
    behind: "\r\n{}",
};

const ENCODINGS: Frame = Frame {
    before: "HTTP/1.1 200 OK\r\n",
    behind: "\r\n1\r\n{\r\n1\r\n}\r\n0\r\n\r\n",
};

const CHUNKS: Frame = Frame {
    before: "HTTP/1.1 200 OK\r\nTransfer-Encoding: chunked\r\n\r\n",
    behind: "",
};

// The response with this piece.
fn around(alloc: Global, frame: Frame, piece: &str) -> Option<Vec<u8>> {
    let mut bytes = Vec::from_slice(alloc, frame.before.as_bytes()).ok()?;
    let piece = bytes_of(alloc, piece)?;
    bytes.extend_from_slice(piece.as_slice()).ok()?;
    bytes.extend_from_slice(frame.behind.as_bytes()).ok()?;
    Some(bytes)
}

fn assert_piece(rt: &impl Abort, alloc: Global, frame: Frame, piece: &str, wanted: &str) {
    let bytes = around(alloc, frame, piece).expect(rt, piece);
    assert_heard(rt, alloc, bytes.as_slice(), LIMIT, wanted);
}

// Asserts what is heard of each piece of a table.
fn assert_pieces(rt: &impl Abort, alloc: Global, frame: Frame, table: &str) {
    for line in table.lines() {
        let (piece, wanted) = sides(rt, line);
        assert_piece(rt, alloc, frame, piece, wanted);
    }
}

fn responses() -> &'static str {
    r#" => garbled
HTTP/1.1 200 OK\r\nContent-Length: 15\r\n\r\n{"releases":{}} => 200 {"releases":{}}
HTTP/1.1 200 OK\r\nContent-Length: 16\r\n\r\n{"releases":{}} => garbled
HTTP/1.1 200 OK\r\ncontent-LENGTH: 2\r\n\r\n{}more => 200 {}
HTTP/1.1 200 OK\r\nContent-Length: 1048577\r\n\r\n => too long
HTTP/1.1 200 OK\r\nContent-Length: 1048576\r\n\r\n => garbled
HTTP/1.1 503 Busy\r\nContent-Length: 2\r\n\r\nno => 503 no
HTTP/1.1 200 OK\r\n\r\nall of it => 200 all of it
HTTP/1.0 404\r\n\r\nnot here => 404 not here
\r\nHTTP/1.1 200 OK\n\nlenient ends of lines => 200 lenient ends of lines
HTTP/2.0 200 OK\r\n\r\n => garbled
HTTP/1.1 20 OK\r\n\r\n => garbled
HTTP/1.1 200 OK\r\nno colon\r\n\r\n => garbled
HTTP/1.1 200 OK\r\nContent-Length: 0\r\n => garbled
HTTP/1.1 199 Early\r\nContent-Length: 0\r\n\r\n => garbled
HTTP/1.1 100 Continue\r\n\r\n => garbled"#
}

#[test]
fn the_status_line_and_the_fields_decide(rt: HostRuntime) {
    assert_pieces(&rt, rt.alloc(), ALL, responses());
    for (text, wanted) in [
        (r"HTTP/1.1 200 OK\r\nContent-Length: 0\r\n\r\n", "200 "),
        (r"HTTP/1.1 200 OK\r\n\r\n", "200 "),
        (
            r"HTTP/1.1 204 No Content\r\nContent-Length: 2\r\n\r\n{}",
            "204 ",
        ),
        (
            r"HTTP/1.1 304 Not Modified\r\nTransfer-Encoding: gzip\r\n\r\n",
            "304 ",
        ),
    ] {
        assert_piece(&rt, rt.alloc(), ALL, text, wanted);
    }
}

fn lengths() -> &'static str {
    r#"Content-Length: 2\r\ncontent-length: 2\r\n => 200 {}
Content-Length: 2\r\nX: y\r\ncontent-length:\t2 \r\n => 200 {}
Content-Length: 2\r\nContent-Length: 1\r\n => garbled
Content-Length: 2\r\nContent-Length: 02\r\n => garbled
Content-Length: 02\r\n => 200 {}
Content-Length: 0000000000000000002\r\n => 200 {}
Content-Length: 00000000000000000002\r\n => garbled
Content-Length: 9999999999999999999\r\n => too long
Content-Length: 10000000000000000000\r\n => garbled
Content-Length: +2\r\n => garbled
Content-Length: -2\r\n => garbled
Content-Length: 2, 2\r\n => garbled
Content-Length: 0x2\r\n => garbled
Content-Length:\r\n => garbled
Content-Lengths: 1\r\n => 200 {}"#
}

#[test]
fn lengths_are_equal_and_of_19_digits_at_most(rt: HostRuntime) {
    assert_pieces(&rt, rt.alloc(), FIELDS, lengths());
}

fn encodings() -> &'static str {
    r#"Transfer-Encoding: chunked\r\n => 200 {}
transfer-encoding:   CHUNKED\t\r\n => 200 {}
Transfer-Encoding: chunked\r\nContent-Length: 9\r\n => 200 {}
Content-Length: no\r\nTransfer-Encoding: chunked\r\n => 200 {}
Transfer-Encoding: gzip\r\n => garbled
Transfer-Encoding: gzip, chunked\r\n => garbled
Transfer-Encoding:\r\n => garbled
Transfer-Encoding: chunked\r\nTransfer-Encoding: chunked\r\n => garbled"#
}

#[test]
fn an_encoding_is_chunked_alone(rt: HostRuntime) {
    assert_pieces(&rt, rt.alloc(), ENCODINGS, encodings());
}

fn chunks() -> &'static str {
    r#"a\r\n0123456789\r\n0\r\n => 200 0123456789
A\r\n0123456789\r\n00\r\n => 200 0123456789
1;a=b\r\nx\r\n0;last\r\n\r\n => 200 x
1 \t\r\nx\r\n0 ;\r\n\r\n => 200 x
0000000000000001\r\nx\r\n0\r\n\r\n => 200 x
00000000000000001\r\nx\r\n0\r\n\r\n => garbled
 => garbled
3\r\nab => garbled
3\r\nabc => garbled
3\r\nabc\r => garbled
3\r\nabc\r\n => garbled
3\r\nabcd\r\n0\r\n\r\n => garbled
3\r\nabc\n0\r\n\r\n => garbled
3\nabc\r\n0\r\n\r\n => garbled
g\r\nabc\r\n0\r\n\r\n => garbled
\r\nabc\r\n0\r\n\r\n => garbled
 3\r\nabc\r\n0\r\n\r\n => garbled
-3\r\nabc\r\n0\r\n\r\n => garbled
100001\r\n => too long
100000\r\n => garbled
FFFFFFFFFFFFFFFF\r\n => too long
1\r\nx\r\nFFFFFFFFFFFFFFFF\r\n => too long"#
}

#[test]
fn chunks_are_read(rt: HostRuntime) {
    assert_pieces(&rt, rt.alloc(), CHUNKS, chunks());
    for (piece, wanted) in [
        (r"0\r\nTrailer: y\r\n\r\nmore", "200 "),
        (r"2\r\n\r\n\r\n0\r\n\r\n", "200 \r\n"),
    ] {
        assert_piece(&rt, rt.alloc(), CHUNKS, piece, wanted);
    }
}

// Asserts what is heard of chunks under a limit.
fn assert_chunks(rt: &impl Abort, alloc: Global, chunks: &str, limit: u64, wanted: &str) {
    let bytes = around(alloc, CHUNKS, chunks).expect(rt, chunks);
    assert_heard(rt, alloc, bytes.as_slice(), limit, wanted);
}

#[test]
fn chunks_are_within_the_limit(rt: HostRuntime) {
    for (chunks, limit, wanted) in [
        (r"0\r\n\r\n", 0, "200 "),
        (r"3\r\nabc\r\n3\r\ndef\r\n0\r\n\r\n", 6, "200 abcdef"),
        (r"3\r\nabc\r\n3\r\ndef\r\n0\r\n\r\n", 5, "too long"),
    ] {
        assert_chunks(&rt, rt.alloc(), chunks, limit, wanted);
    }
}

/// A response in which a piece stands so many times.
#[derive(Clone, Copy)]
struct Many {
    before: &'static str,
    piece: &'static str,
    behind: &'static str,
    limit: u64,
}

fn assert_many(rt: &impl Abort, alloc: Global, many: Many, count: usize, wanted: &str) {
    let text = with_many(alloc, many.before, many.piece, count, many.behind).expect(rt, "memory");
    assert_heard(rt, alloc, text.as_bytes(), many.limit, wanted);
}

#[test]
fn a_head_has_64_fields_at_most(rt: HostRuntime) {
    let many = Many {
        before: "HTTP/1.1 200 OK\r\n",
        piece: "Name: value\r\n",
        behind: "\r\nx",
        limit: LIMIT,
    };
    for (count, wanted) in [(0, "200 x"), (64, "200 x"), (65, "garbled")] {
        assert_many(&rt, rt.alloc(), many, count, wanted);
    }
}

// The status line and the empty line have 19 bytes, and the field's name and the end of its line 4.
#[test]
fn a_head_has_65536_bytes_at_most(rt: HostRuntime) {
    let many = Many {
        before: "HTTP/1.1 200 OK\r\nN:",
        piece: "v",
        behind: "\r\n\r\nx",
        limit: LIMIT,
    };
    for (count, wanted) in [(65_513, "200 x"), (65_514, "garbled")] {
        assert_many(&rt, rt.alloc(), many, count, wanted);
    }
}

// The size, the semicolon and the end of the line have 4 bytes.
#[test]
fn a_size_line_has_4096_bytes_at_most(rt: HostRuntime) {
    let many = Many {
        before: "HTTP/1.1 200 OK\r\nTransfer-Encoding: chunked\r\n\r\n1;",
        piece: "e",
        behind: "\r\nx\r\n0\r\n",
        limit: LIMIT,
    };
    for (count, wanted) in [(4092, "200 x"), (4093, "garbled")] {
        assert_many(&rt, rt.alloc(), many, count, wanted);
    }
}

// All the bytes are at most twice the limit and 65,536.
#[test]
fn bytes_have_a_limit_too(rt: HostRuntime) {
    let many = Many {
        before: "",
        piece: "x",
        behind: "",
        limit: 0,
    };
    for (count, wanted) in [
        (65_536, "garbled"),
        (65_537, "too long"),
        (65_540, "too long"),
    ] {
        assert_many(&rt, rt.alloc(), many, count, wanted);
    }
    let text = b"HTTP/1.1 200 OK\r\n\r\n12345";
    for (limit, wanted) in [(4, "too long"), (5, "200 12345"), (u64::MAX, "200 12345")] {
        assert_heard(&rt, rt.alloc(), text, limit, wanted);
    }
}

// Asserts that each prefix of so many bytes is whole, and none before.
fn assert_prefixes(rt: &impl Abort, alloc: Global, text: &str, from: usize) {
    for len in 0..text.len() {
        let cut = &text.as_bytes()[..len];
        let wanted = if len < from { "garbled" } else { "200 {}" };
        assert_heard(rt, alloc, cut, LIMIT, wanted);
    }
    assert_heard(rt, alloc, text.as_bytes(), LIMIT, "200 {}");
}

// A body of a known length is whole from that many bytes on, and of chunks from the line of the last on.
#[test]
fn a_prefix_is_garbled(rt: HostRuntime) {
    let said = "HTTP/1.1 200 OK\r\nContent-Length: 2\r\n\r\n{}";
    assert_prefixes(&rt, rt.alloc(), said, 40);
    let chunked = "HTTP/1.1 200 OK\r\nTransfer-Encoding: chunked\r\n\r\n2\r\n{}\r\n0\r\n\r\n";
    assert_prefixes(&rt, rt.alloc(), chunked, 57);
}
