// The fields of a head, as spans of its bytes, and what their values say of the body.
ghost use Rattle.std.specs.Str.{bytes_eq};
ghost use Rattle.std.specs.Prelude.{◌≡◌, length, map, All, option_map, IfSome, IfOk, Some, None, if◌then◌else◌, codes};
ghost use Rattle.std.specs.List.{list_all};
ghost use Rattle.std.specs.Str.{str_eq_ignore_ascii_case};
ghost use Rattle.std.specs.Str.Parse.{digits_value};
ghost use Rattle.httparse.specs.Spans.{IsHeaderWithin, header_bytes};
ghost use Rattle.spm_http.specs.Named.{from_next, heard_by, values_in};
ghost use Rattle.spm_http.specs.Response.{body_of_length, body_to_end, by_encodings, by_lengths, is_length};
ghost use Rattle.spm_http.specs.declared.response_head.Heard.TheVariants.{Whole};

use crate::chunked::read_chunks;
use crate::response_head::Heard;
use httparse::spans::HeaderSpan;
use spm_version::{Bytes, NoMemory};
use std::alloc::Global;

// A text of more digits could say more than a `u64` can hold.
const MAX_DIGITS: usize = 19;

// Whether the texts are equal but for the case of letters.
fn is_same(text: &[u8], other: &[u8]) -> bool
    ensures { result ≡ str_eq_ignore_ascii_case text.now other.now }
{
    text.eq_ignore_ascii_case(other)
}

// The name of a field.
fn name_of<'b>(head: &'b [u8], field: &HeaderSpan) -> &'b [u8]
    requires within { IsHeaderWithin (length head.now) field.now }
    ensures { result.now ≡ (header_bytes head.now field.now).0 }
{
    field.name.of(head)
}

// The value of a field.
fn value_of<'b>(head: &'b [u8], field: &HeaderSpan) -> &'b [u8]
    requires within { IsHeaderWithin (length head.now) field.now }
    ensures { result.now ≡ (header_bytes head.now field.now).1 }
{
    field.value.of(head)
}

// The first value with the name, and the fields behind it.
fn next_value<'b>(
    head: &'b [u8],
    fields: &'b [HeaderSpan],
    name: &[u8],
) -> Option<(&'b [u8], &'b [HeaderSpan])>
    requires within { All (IsHeaderWithin (length head.now)) fields.now }
    ensures values { values_in name.now (map (header_bytes head.now) fields.now)
        ≡ from_next name.now (option_map (λ next. (next.0.now, map (header_bytes head.now) next.1.now)) result) }
    ensures within { IfSome result (λ next. All (IsHeaderWithin (length head.now)) next.1.now) }
{
    for (place, field) in fields.iter().enumerate() {
        if is_same(name_of(head, field), name) {
            return Some((value_of(head, field), &fields[place + 1..]));
        }
    }
    None
}

// Whether each value with the name is this one.
fn all_are(head: &[u8], fields: &[HeaderSpan], name: &[u8], value: &[u8]) -> bool
    requires within { All (IsHeaderWithin (length head.now)) fields.now }
    ensures { result ≡ list_all (bytes_eq value.now) (values_in name.now (map (header_bytes head.now) fields.now)) }
{
    for field in fields {
        if is_same(name_of(head, field), name) && value != value_of(head, field) {
            return false;
        }
    }
    true
}

// The number that a text of 1 to 19 digits says.
fn read_length(text: &[u8]) -> Option<u64>
    ensures { result ≡ (if is_length text.now then Some (digits_value 10 text.now) else None) }
{
    if text.is_empty() || text.len() > MAX_DIGITS {
        return None;
    }
    let mut said = 0;
    for digit in text {
        if !digit.is_ascii_digit() {
            return None;
        }
        said = said * 10 + u64::from(*digit - b'0');
    }
    Some(said)
}

// A response with this body.
fn whole(alloc: Global, status: u16, body: &[u8]) -> Result<Heard, NoMemory>
    ensures { IfOk result (λ heard. heard ≡ Whole status body.now) }
{
    let body = Bytes::from_slice(alloc, body)?;
    Ok(Heard::Whole { status, body })
}

// The body whose length is said.
fn read_said(
    alloc: Global,
    status: u16,
    limit: u64,
    said: u64,
    rest: &[u8],
) -> Result<Heard, NoMemory>
    ensures { IfOk result (λ heard. heard ≡ body_of_length status limit said rest.now) }
{
    if limit < said {
        return Ok(Heard::TooLong);
    }
    if (rest.len() as u64) < said {
        return Ok(Heard::Garbled);
    }
    whole(alloc, status, &rest[..said as usize])
}

// The body that ends where the bytes end.
fn read_to_end(alloc: Global, status: u16, limit: u64, rest: &[u8]) -> Result<Heard, NoMemory>
    ensures { IfOk result (λ heard. heard ≡ body_to_end status limit rest.now) }
{
    if limit < rest.len() as u64 {
        return Ok(Heard::TooLong);
    }
    whole(alloc, status, rest)
}

// The body by the lengths that the fields say.
fn read_by_lengths(
    alloc: Global,
    status: u16,
    limit: u64,
    head: &[u8],
    fields: &[HeaderSpan],
    rest: &[u8],
) -> Result<Heard, NoMemory>
    requires within { All (IsHeaderWithin (length head.now)) fields.now }
    ensures { IfOk result (λ heard. heard
        ≡ by_lengths status limit (values_in (codes "content-length") (map (header_bytes head.now) fields.now)) rest.now) }
{
    match next_value(head, fields, b"content-length") {
        None => read_to_end(alloc, status, limit, rest),
        Some((text, others)) => match read_length(text) {
            None => Ok(Heard::Garbled),
            Some(said) => {
                if all_are(head, others, b"content-length", text) {
                    read_said(alloc, status, limit, said, rest)
                } else {
                    Ok(Heard::Garbled)
                }
            }
        },
    }
}

// The body by the encodings and the lengths that the fields say.
fn read_by_encodings(
    alloc: Global,
    status: u16,
    limit: u64,
    head: &[u8],
    fields: &[HeaderSpan],
    rest: &[u8],
) -> Result<Heard, NoMemory>
    requires within { All (IsHeaderWithin (length head.now)) fields.now }
    ensures { IfOk result (λ heard. heard ≡ by_encodings status limit
        (values_in (codes "transfer-encoding") (map (header_bytes head.now) fields.now))
        (values_in (codes "content-length") (map (header_bytes head.now) fields.now)) rest.now) }
{
    match next_value(head, fields, b"transfer-encoding") {
        None => read_by_lengths(alloc, status, limit, head, fields, rest),
        Some((encoding, others)) => match next_value(head, others, b"transfer-encoding") {
            Some(_) => Ok(Heard::Garbled),
            None => {
                if is_same(encoding, b"chunked") {
                    read_chunks(alloc, status, limit, rest)
                } else {
                    Ok(Heard::Garbled)
                }
            }
        },
    }
}

// What is heard behind a head with this status and these fields.
pub fn read_behind(
    alloc: Global,
    status: u16,
    limit: u64,
    head: &[u8],
    fields: &[HeaderSpan],
    rest: &[u8],
) -> Result<Heard, NoMemory>
    requires within { All (IsHeaderWithin (length head.now)) fields.now }
    ensures { IfOk result (λ heard. heard ≡ heard_by limit status (map (header_bytes head.now) fields.now) rest.now) }
{
    if status < 200 {
        return Ok(Heard::Garbled);
    }
    if status == 204 || status == 304 {
        return whole(alloc, status, &[]);
    }
    read_by_encodings(alloc, status, limit, head, fields, rest)
}
