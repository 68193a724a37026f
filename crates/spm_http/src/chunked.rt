// A chunked body: size lines, and the chunks behind them.
ghost use Rattle.std.specs.Prelude.{◌≡◌, take, option_map, IfSome, IfOk};
ghost use Rattle.spm_http.specs.Chunked.{behind_chunk, behind_end, chunked_body, size_line};

use crate::limits::front_of;
use crate::response_head::Heard;
use httparse::{Status, parse_chunk_size};
use spm_version::{Bytes, NoMemory};
use std::alloc::Global;

// A line before a chunk has at most so many bytes.
const MAX_LINE: usize = 4096;

// The size that the line at the front says, and what stands behind that line.
fn read_size_line(bytes: &[u8]) -> Option<(u64, &[u8])>
    ensures { option_map (λ line. (line.0, line.1.now)) result ≡ size_line bytes.now }
{
    match parse_chunk_size(front_of(bytes, MAX_LINE)) {
        Ok(Status::Complete((len, size))) => {
            let (_, behind) = bytes.split_at(len);
            Some((size, behind))
        }
        Ok(Status::Partial) => None,
        Err(_) => None,
    }
}

// What stands behind the CR LF at the front.
fn skip_end(bytes: &[u8]) -> Option<&[u8]>
    ensures { option_map (λ rest. rest.now) result ≡ behind_end bytes.now }
{
    if bytes.len() < 2 {
        return None;
    }
    if bytes[0] == b'\r' && bytes[1] == b'\n' {
        Some(&bytes[2..])
    } else {
        None
    }
}

// A chunk of this size, and what stands behind its CR LF.
fn split_chunk(size: u64, bytes: &[u8]) -> Option<(&[u8], &[u8])>
    ensures rest { option_map (λ parts. parts.1.now) result ≡ behind_chunk size bytes.now }
    ensures chunk { IfSome result (λ parts. parts.0.now ≡ take size bytes.now) }
{
    if (bytes.len() as u64) < size {
        return None;
    }
    let (chunk, behind) = bytes.split_at(size as usize);
    match skip_end(behind) {
        None => None,
        Some(rest) => Some((chunk, rest)),
    }
}

// The body whose chunks these are.
pub fn read_chunks(alloc: Global, status: u16, limit: u64, bytes: &[u8]) -> Result<Heard, NoMemory>
    ensures { IfOk result (λ heard. heard ≡ chunked_body status limit bytes.now) }
{
    let mut body = Vec::new(alloc);
    let mut left = bytes;
    while let Some((size, behind)) = read_size_line(left) {
        if size > limit - body.len() as u64 {
            return Ok(Heard::TooLong);
        }
        if size == 0 {
            return Ok(Heard::Whole {
                status,
                body: Bytes::from_vec(body),
            });
        }
        match split_chunk(size, behind) {
            None => return Ok(Heard::Garbled),
            Some((chunk, rest)) => {
                body.extend_from_slice(chunk)?;
                left = rest;
            }
        }
    }
    Ok(Heard::Garbled)
}
