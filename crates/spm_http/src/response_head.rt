ghost use Rattle.std.specs.Prelude.{◌≡◌, ◌+◌, ◌*◌, IfOk, length, nat_lt};
ghost use Rattle.spm_http.specs.Response.{Hears};

use crate::limits::{MAX_FIELDS, MAX_HEAD, front_of};
use crate::named::read_behind;
use httparse::Status;
use httparse::spans::{EMPTY_HEADER_SPAN, parse_response};
use spm_version::{Bytes, NoMemory};
use std::alloc::Global;

/// What is heard of a response.
#[derive(Debug, Drop)]
pub enum Heard {
    /// Its status and its body.
    Whole { status: u16, body: Bytes },
    /// It is no response.
    Garbled,
    /// It is longer than is allowed.
    TooLong,
}

impl Heard {
    /// A copy of what is heard.
    ///
    /// # Errors
    ///
    /// `NoMemory` alone.
    pub fn copy(&self, alloc: Global) -> Result<Heard, NoMemory>
        ensures { IfOk result (λ heard. heard ≡ self.now) }
    {
        match self {
            Heard::Whole { status, body } => Ok(Heard::Whole {
                status: *status,
                body: body.copy(alloc)?,
            }),
            Heard::Garbled => Ok(Heard::Garbled),
            Heard::TooLong => Ok(Heard::TooLong),
        }
    }
}

// Whether the bytes are more than a response with such a limit may have.
fn is_too_long(bytes: &[u8], limit: u64) -> bool
    ensures { result ≡ nat_lt (2 * limit + 65536) (length bytes.now) }
{
    2 * u128::from(limit) + (MAX_HEAD as u128) < bytes.len() as u128
}

/// Reads a response (RFC 9112) whose body may have so many bytes. It is too long where all its bytes are more than twice that
/// limit and 65,536, or its body is above the limit; what follows a body whose length is known is left alone.
///
/// # Errors
///
/// `NoMemory` alone.
pub fn read_response(alloc: Global, bytes: &[u8], limit: u64) -> Result<Heard, NoMemory>
    ensures { Hears result limit bytes.now }
{
    if is_too_long(bytes, limit) {
        return Ok(Heard::TooLong);
    }
    let head = front_of(bytes, MAX_HEAD);
    let mut fields = [EMPTY_HEADER_SPAN; MAX_FIELDS];
    match parse_response(head, &mut fields) {
        Ok(Status::Complete(spans)) => {
            let (fields, _) = fields.split_at(spans.headers);
            let (_, rest) = bytes.split_at(spans.len);
            read_behind(alloc, spans.code, limit, head, fields, rest)
        }
        Ok(Status::Partial) => Ok(Heard::Garbled),
        Err(_) => Ok(Heard::Garbled),
    }
}
