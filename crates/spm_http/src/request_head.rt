ghost use Rattle.std.specs.Prelude.{◌≡◌, ◌<◌, ◌≤◌, ◌++◌, length, take, codes, All, IfOk, IsTrue, IsFalse};
ghost use Rattle.std.specs.Str.{str_eq_ignore_ascii_case};
ghost use Rattle.httparse.specs.Grammar.{RequestHead as Head, IsToken, HasNoRequest, MayBecomeRequest};
ghost use Rattle.httparse.specs.Spans.{IsHeaderWithin, IsRequestWithin, IsRequestOf, IsRequestAt, RequestExceeds};
ghost use Rattle.spm_http.specs.Request.{ReadsHead, IsProperPrefix, head_view};
ghost use Rattle.spm_http.specs.Parts.{accept_at, HasFewFields};
ghost use Rattle.spm_http.specs.declared.request_head.HttpFault.TheVariants.{Memory};

use crate::limits::{MAX_FIELDS, MAX_HEAD, front_of};
use httparse::spans::{EMPTY_HEADER_SPAN, HeaderSpan, RequestSpans, parse_request};
use httparse::{Error as ParseError, Status};
use spm_version::{Bytes, NoMemory, Text};
use std::alloc::{AllocError, Global};
use std::error::Error;
use std::fmt;

/// The head of a request (RFC 9112, section 3).
#[derive(Debug, Drop)]
pub struct RequestHead {
    /// The method.
    pub method: Text,
    /// The target, as it stands.
    pub target: Bytes,
    /// The value of the first field named Accept, in any case, without the white space around it.
    pub accept: Option<Bytes>,
    /// How many bytes the head has, its empty line included.
    pub length: u64,
}

/// Why no head was read.
#[derive(Clone, Copy, Debug, PartialEq, Eq)]
pub enum HttpFault {
    /// Fewer than 65,536 bytes were given, and more of them may make a head.
    Partial,
    /// The bytes are no head, or none ends within 65,536 bytes.
    Bad,
    /// Want of memory.
    Memory,
}

impl fmt::Display for HttpFault {
    fn fmt<W: fmt::Write>(&self, f: &mut fmt::Formatter<W>) -> fmt::Result {
        f.write_str(match self {
            HttpFault::Partial => "an unfinished request",
            HttpFault::Bad => "no request",
            HttpFault::Memory => "no memory",
        })
    }
}

impl Error for HttpFault {}

impl From<AllocError> for HttpFault {
    ghost from_gives = { λ _ e. e ≡ Memory };

    fn from(_e: AllocError) -> HttpFault {
        HttpFault::Memory
    }
}

impl RequestHead {
    /// A copy of the head.
    ///
    /// # Errors
    ///
    /// `NoMemory` alone.
    pub fn copy(&self, alloc: Global) -> Result<RequestHead, NoMemory>
        ensures { IfOk result (λ head. head ≡ self.now) }
    {
        let accept = match &self.accept {
            Some(accept) => Some(accept.copy(alloc)?),
            None => None,
        };
        Ok(RequestHead {
            method: self.method.copy(alloc)?,
            target: self.target.copy(alloc)?,
            accept,
            length: self.length,
        })
    }
}

/// Reads the head of a request at the front of the bytes; what follows it is left alone.
///
/// # Errors
///
/// See [`HttpFault`].
pub fn read_request(alloc: Global, bytes: &[u8]) -> Result<RequestHead, HttpFault>
    ensures { ReadsHead result bytes.now }
{
    let front = front_of(bytes, MAX_HEAD);
    let mut fields = [EMPTY_HEADER_SPAN; MAX_FIELDS];
    match parse_request(front, &mut fields) {
        Ok(Status::Complete(spans)) => Ok(head_of(alloc, front, &fields, spans)?),
        Ok(Status::Partial) => Err(unfinished(alloc, bytes)),
        Err(_) => Err(HttpFault::Bad),
    }
}

// What is read of the head that these spans cover.
fn head_of(
    alloc: Global,
    front: &[u8],
    fields: &[HeaderSpan],
    spans: RequestSpans,
) -> Result<RequestHead, NoMemory>
    requires within { IsRequestWithin front.now fields.now spans }
    requires of { IsRequestOf front.now fields.now spans }
    ensures { IfOk result (λ found. (head : Head) × IsRequestAt front.now fields.now spans head × (found ≡ head_view head)) }
{
    let method = text_of(alloc, spans.method.of(front))?;
    let target = Bytes::from_slice(alloc, spans.path.of(front))?;
    let accept = accept_of(alloc, front, &fields[..spans.headers])?;
    Ok(RequestHead {
        method,
        target,
        accept,
        length: spans.len as u64,
    })
}

// A token as a text.
fn text_of(alloc: Global, token: &[u8]) -> Result<Text, NoMemory>
    requires { IsToken token.now }
    ensures { IfOk result (λ text. text ≡ token.now) }
{
    match str::from_utf8(token) {
        Ok(text) => Text::from_str(alloc, text),
        Err(_) => unreachable!(),
    }
}

// The value of the first field named Accept, in any case.
fn accept_of(alloc: Global, front: &[u8], fields: &[HeaderSpan]) -> Result<Option<Bytes>, NoMemory>
    requires { All (IsHeaderWithin (length front.now)) fields.now }
    ensures { IfOk result (λ found. found ≡ accept_at front.now fields.now) }
{
    for field in fields {
        if is_accept(field.name.of(front)) {
            let value = Bytes::from_slice(alloc, field.value.of(front))?;
            return Ok(Some(value));
        }
    }
    Ok(None)
}

// Whether a field has the name Accept, in any case.
fn is_accept(name: &[u8]) -> bool
    ensures { result ≡ str_eq_ignore_ascii_case name.now (codes "accept") }
{
    name.eq_ignore_ascii_case(b"accept")
}

// What is told of bytes that are no head yet.
fn unfinished(alloc: Global, bytes: &[u8]) -> HttpFault
    requires none { HasNoRequest (take 65536 bytes.now) }
    requires may { MayBecomeRequest (take 65536 bytes.now) }
    ensures { ReadsHead (Err result) bytes.now }
{
    if bytes.len() >= MAX_HEAD {
        return HttpFault::Bad;
    }
    match is_full(alloc, bytes) {
        Ok(true) => HttpFault::Bad,
        Ok(false) => HttpFault::Partial,
        Err(_) => HttpFault::Memory,
    }
}

// Whether the bytes have all the fields that a head may have, and a begun one.
fn is_full(alloc: Global, bytes: &[u8]) -> Result<bool, NoMemory>
    ensures full { IfOk result (λ full. IsTrue full → ¬ (IsProperPrefix bytes.now)) }
    ensures in_value { IfOk result (λ full. IsFalse full → HasFewFields (bytes.now ++ codes "\n\n")) }
    ensures in_name { IfOk result (λ full. IsFalse full → HasFewFields (bytes.now ++ codes ":\n\n")) }
{
    if exceeds(alloc, bytes, b"\n\n")? {
        return Ok(true);
    }
    exceeds(alloc, bytes, b":\n\n")
}

// Whether the bytes with this end have more fields than a head may have.
fn exceeds(alloc: Global, bytes: &[u8], end: &[u8]) -> Result<bool, NoMemory>
    ensures over { IfOk result (λ over. IsTrue over → RequestExceeds 64 (bytes.now ++ end.now)) }
    ensures few { IfOk result (λ over. IsFalse over → HasFewFields (bytes.now ++ end.now)) }
{
    let mut text = Vec::from_slice(alloc, bytes)?;
    text.extend_from_slice(end)?;
    Ok(has_too_many(text.as_slice()))
}

// Whether a head has begun with more fields than a head may have.
fn has_too_many(text: &[u8]) -> bool
    ensures over { IsTrue result → RequestExceeds 64 text.now }
    ensures few { IsFalse result → HasFewFields text.now }
{
    let mut fields = [EMPTY_HEADER_SPAN; MAX_FIELDS];
    match parse_request(text, &mut fields) {
        Err(error) => error == ParseError::TooManyHeaders,
        Ok(_) => false,
    }
}
