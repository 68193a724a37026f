ghost use Rattle.std.specs.Prelude.{◌≡◌, ◌+◌, ◌*◌, ◌≤◌, IfOk, IfSome, string_bytes};
ghost use Rattle.std.specs.FinMap as map;
ghost use Rattle.spm_key.specs.Catalogue.{Catalogue};
ghost use Rattle.spm_api.specs.Refused.{ComesFrom};
ghost use Rattle.spm_outside.specs.Book.{response_of};
ghost use Rattle.spm_outside.specs.Exchange.{CallsAfterExchange, RestAfterExchange, TakenAfterExchange};
ghost use Rattle.spm_outside.specs.Faults.{FaultsAfter};
ghost use Rattle.spm_api.specs.Endpoint.{
  IsReply,
  accept_for,
  archive_reply,
  content_reply,
  heard_reply,
  host_field,
  limit_for,
  request_for,
};

use crate::base::{Base, HTTP_PORT};
use spm_digest::sum;
use spm_http::{Heard, MAX_HEAD, read_response, request};
use spm_key::{Body, Key, Reply};
use spm_outside::{Authority, Link, LinkFault, exchange};
use spm_version::{Bytes, NoMemory};
use std::alloc::Global;

/// How many bytes a JSON body may have.
const MAX_JSON: u64 = 1_048_576;

/// How many bytes an archive may have.
const MAX_ARCHIVE: u64 = 67_108_864;

// The host, with the port unless it is 80.
fn host_field(alloc: Global, to: &Authority) -> Result<String, NoMemory>
    ensures { IfOk result (λ host. string_bytes host ≡ host_field to.now) }
{
    let host = &to.host;
    let port = to.port;
    if port == HTTP_PORT {
        Ok(format!(in alloc; "{host}")?)
    } else {
        Ok(format!(in alloc; "{host}:{port}")?)
    }
}

// What is accepted of a key.
fn accept_for(key: &Key) -> &'static str
    ensures { result.now ≡ accept_for key.now }
{
    match key {
        Key::Archive(_, _) => "application/vnd.swift.registry.v1+zip",
        Key::List(_) | Key::Manifest(_, _) | Key::Release(_, _) | Key::Identifiers(_) => {
            "application/vnd.swift.registry.v1+json"
        }
    }
}

/// The bytes of the request for a key: a GET of its path behind the base's (SE-0292).
///
/// # Errors
///
/// `NoMemory` alone.
pub fn request_of(alloc: Global, base: &Base, key: &Key) -> Result<Bytes, NoMemory>
    ensures { IfOk result (λ bytes. bytes ≡ request_for base.now key.now) }
{
    let path = key.text(alloc)?;
    let prefix = &base.prefix;
    let target = format!(in alloc; "{prefix}{path}")?;
    let host = host_field(alloc, &base.to)?;
    request(alloc, target.as_str(), host.as_str(), accept_for(key))
}

// How many bytes a body may have.
fn limit_for(key: &Key) -> u64
    ensures { result ≡ limit_for key.now }
{
    match key {
        Key::Archive(_, _) => MAX_ARCHIVE,
        Key::List(_) | Key::Manifest(_, _) | Key::Release(_, _) | Key::Identifiers(_) => MAX_JSON,
    }
}

// The reply of a key that is an archive's.
fn archive_reply(status: u16, body: Bytes) -> Reply
    ensures { result ≡ archive_reply status body }
{
    if status != 200 {
        let body = Body::Whole(body);
        return Reply { status, body };
    }
    let bytes = body.as_slice();
    Reply {
        status,
        body: Body::Sum {
            sum: sum(bytes),
            length: bytes.len() as u64,
        },
    }
}

// The reply with this status and body.
fn content_reply(key: &Key, status: u16, body: Bytes) -> Reply
    ensures { result ≡ content_reply key.now status body }
{
    match key {
        Key::Archive(_, _) => archive_reply(status, body),
        Key::List(_) | Key::Manifest(_, _) | Key::Release(_, _) | Key::Identifiers(_) => Reply {
            status,
            body: Body::Whole(body),
        },
    }
}

// The reply that what was heard is.
fn heard_reply(key: &Key, heard: Heard) -> Reply
    ensures { result ≡ heard_reply key.now heard }
{
    match heard {
        Heard::Whole { status, body } => content_reply(key, status, body),
        Heard::Garbled => Reply {
            status: 0,
            body: Body::Garbled,
        },
        Heard::TooLong => Reply {
            status: 0,
            body: Body::TooLong,
        },
    }
}

/// The reply that a response to the request for a key is. Of an archive that is there the SHA-256 and the length are kept.
///
/// # Errors
///
/// `NoMemory` alone.
pub fn reply_of(alloc: Global, key: &Key, response: &[u8]) -> Result<Reply, NoMemory>
    ensures { IfOk result (λ reply. IsReply key.now response.now reply) }
{
    let heard = read_response(alloc, response, limit_for(key))?;
    Ok(heard_reply(key, heard))
}

/// Asks the registry at the base for a key, in one exchange. At most twice the limit of the key's body and 65,537 bytes are read.
///
/// # Errors
///
/// `Failed` where the link failed, and `Memory`.
pub fn fetch<L: Link>(
    alloc: Global,
    link: &mut L,
    base: &Base,
    key: &Key,
) -> Result<Reply, LinkFault>
    // Where the link tells its book, the reply is that of the book's response.
    ensures reply { IfOk result (λ reply. IfSome (L.state link.old).book
        (λ pages. IsReply key.now (response_of pages base.now.to (request_for base.now key.now)) reply)) }
    // A catalogue that comes from the book still does with this reply.
    ensures catalogue { IfOk result (λ reply. IfSome (L.state link.old).book (λ pages. (catalogue : Catalogue)
        → ComesFrom catalogue pages base.now → ComesFrom (map.insert catalogue key.now reply) pages base.now)) }
    // Of the response at most twice the limit and 65,537 bytes are read.
    ensures rest { RestAfterExchange result (L.state link.old).book base.now.to (request_for base.now key.now) (2 * limit_for key.now + 65537)
        (L.state link.old).rest (L.state link.new).rest }
    ensures taken { TakenAfterExchange result (2 * limit_for key.now + 65537) (L.state link.old).taken (L.state link.new).taken }
    ensures book { (L.state link.new).book ≡ (L.state link.old).book }
    ensures calls { CallsAfterExchange result base.now.to (request_for base.now key.now) (L.state link.old).calls (L.state link.new).calls }
    ensures faults { FaultsAfter result (L.state link.old).faults (L.state link.new).faults }
{
    let request = request_of(alloc, base, key)?;
    let limit = 2 * limit_for(key) + MAX_HEAD as u64 + 1;
    let response = exchange(alloc, link, &base.to, request.as_slice(), limit)?;
    Ok(reply_of(alloc, key, response.as_slice())?)
}
