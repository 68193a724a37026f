ghost use Rattle.std.specs.Prelude.{◌≡◌, IfOk};
ghost use Rattle.http.specs.StatusCode.{reason_phrase};
ghost use Rattle.spm_http.specs.Parts as parts;
ghost use Rattle.spm_http.specs.Writing.{phrase_or_none, request_text, response_text};

use http::StatusCode;
use spm_version::{Bytes, NoMemory};
use std::alloc::Global;

/// The bytes of a GET request (RFC 9112), after which the connection is closed: its target, the host (with the port unless it is
/// 80) and what is accepted.
///
/// # Errors
///
/// `NoMemory` alone.
pub fn request(alloc: Global, target: &str, host: &str, accept: &str) -> Result<Bytes, NoMemory>
    ensures { IfOk result (λ bytes. bytes ≡ request_text target.now host.now accept.now) }
{
    let text = format!(in alloc;
        "GET {target} HTTP/1.1\r\nHost: {host}\r\nAccept: {accept}\r\nConnection: close\r\n\r\n"
    )?;
    Ok(Bytes::from_vec(text.into_bytes()))
}

/// The bytes of a response (RFC 9112) with this status, a body of this media type, and the version of the registry's API. The
/// reason phrase is the standard one of the status, or empty where it has none.
///
/// # Errors
///
/// `NoMemory` alone.
pub fn response(alloc: Global, status: u16, kind: &str, body: &[u8]) -> Result<Bytes, NoMemory>
    ensures { IfOk result (λ bytes. bytes ≡ response_text status kind.now body.now) }
{
    let mut bytes = response_lines(alloc, status, phrase(status), kind, body.len())?;
    bytes.extend_from_slice(body)?;
    Ok(Bytes::from_vec(bytes))
}

// The lines of a response before its body, which has this many bytes.
fn response_lines(
    alloc: Global,
    status: u16,
    phrase: &str,
    kind: &str,
    count: usize,
) -> Result<Vec<u8>, NoMemory>
    ensures { IfOk result (λ bytes. bytes.items ≡ parts.response_lines status phrase.now kind.now count) }
{
    let text = format!(in alloc;
        "HTTP/1.1 {status} {phrase}\r\nContent-Version: 1\r\nContent-Type: {kind}\r\nContent-Length: {count}\r\nConnection: close\r\n\r\n"
    )?;
    Ok(text.into_bytes())
}

// The standard phrase of a status, or none where it has none.
fn phrase(status: u16) -> &'static str
    ensures { result.now ≡ phrase_or_none (reason_phrase status) }
{
    match StatusCode::from_u16(status) {
        Ok(code) => match code.canonical_reason() {
            Some(phrase) => phrase,
            None => "",
        },
        Err(_) => "",
    }
}
