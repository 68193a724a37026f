ghost use Rattle.std.specs.Prelude.{◌≡◌, ◌||◌, ◌==◌, IfOk, None, Some, option_and_then, option_map};
ghost use Rattle.spm_api.specs.Bodies.{identifiers_of, problem_of, releases_of};
ghost use Rattle.spm_api.specs.Guess.{bytes_in};
ghost use Rattle.spm_api.specs.Refused.{has_form, lists_releases, names_identities};
ghost use Rattle.spm_api.specs.Said.{Says, absent, list_said, manifest_said, package_said, present, reply_said};
ghost use Rattle.spm_api.specs.SaidParts.{said_by, unless_unreadable};
ghost use Rattle.spm_manifest.specs.Profile.{manifest_of};

use crate::bodies::{BodyFault, read_identifiers, read_list, read_problem};
use crate::replies::{ReplyFault, Said};
use spm_key::{Body, Key, Reply};
use spm_manifest::{Manifest, ManifestFault};
use spm_version::{Items, Kind, NoMemory, Text};
use std::alloc::Global;

/// What was asked for is there (RFC 9110, section 15.3.1).
const STATUS_OK: u16 = 200;
/// It isn't there (RFC 9110, section 15.5.5).
const STATUS_NOT_FOUND: u16 = 404;
/// It is gone (RFC 9110, section 15.5.11).
const STATUS_GONE: u16 = 410;

/// What the reply of a key says to a resolution.
///
/// # Errors
///
/// The first reason for which the reply is refused: `Garbled`, `TooLong`, `Says` exactly where its status isn't 200, 404 or 410, and
/// `Unreadable` exactly where a list or a look-up with the status 200 isn't of its form; and `Memory`.
pub fn said(alloc: Global, key: &Key, reply: &Reply) -> Result<Said, ReplyFault>
    ensures { Says result (reply_said key.now reply.now) }
{
    match &reply.body {
        Body::Garbled => Err(ReplyFault::Garbled),
        Body::TooLong => Err(ReplyFault::TooLong),
        Body::Whole(_) | Body::Sum { .. } => said_by(alloc, key, reply.status, &reply.body),
    }
}

// By its status.
fn said_by(alloc: Global, key: &Key, status: u16, body: &Body) -> Result<Said, ReplyFault>
    ensures { Says result (said_by key.now status (bytes_in body.now)) }
{
    if status == STATUS_OK {
        return present(alloc, key, body);
    }
    if is_absent(status) {
        return Ok(absent(alloc, key));
    }
    Err(ReplyFault::Says(status, detail_in(alloc, body)?))
}

// Whether nothing is there.
fn is_absent(status: u16) -> bool
    ensures { result ≡ (status == 404 || status == 410) }
{
    status == STATUS_NOT_FOUND || status == STATUS_GONE
}

// The bytes of a body, where they are kept.
fn bytes_in(body: &Body) -> Option<&[u8]>
    ensures { option_map (λ bytes. bytes.now) result ≡ bytes_in body.now }
{
    match body {
        Body::Whole(bytes) => Some(bytes.as_slice()),
        Body::Sum { .. } | Body::Garbled | Body::TooLong => None,
    }
}

// The detail of a problem, where the body is one.
fn detail_in(alloc: Global, body: &Body) -> Result<Option<Text>, NoMemory>
    ensures { IfOk result (λ detail. detail ≡ option_and_then problem_of (bytes_in body.now)) }
{
    match bytes_in(body) {
        Some(bytes) => read_problem(alloc, bytes),
        None => Ok(None),
    }
}

// What is said where nothing is there.
fn absent(alloc: Global, key: &Key) -> Said
    ensures { result ≡ absent key.now }
{
    match key {
        Key::List(_) => Said::Releases(Items::new(alloc)),
        Key::Manifest(_, _) => Said::NoManifest,
        Key::Release(_, _) | Key::Archive(_, _) => Said::Nothing,
        Key::Identifiers(_) => Said::Package(None),
    }
}

// What is said where something is there.
fn present(alloc: Global, key: &Key, body: &Body) -> Result<Said, ReplyFault>
    ensures { Says result (unless_unreadable (has_form key.now (bytes_in body.now)) (present key.now (bytes_in body.now))) }
{
    match bytes_in(body) {
        Some(bytes) => readable(alloc, key, bytes),
        None => bare(alloc, key),
    }
}

// What is said where the bytes aren't kept.
fn bare(alloc: Global, key: &Key) -> Result<Said, ReplyFault>
    ensures { Says result (unless_unreadable (has_form key.now None) (present key.now None)) }
{
    match key {
        Key::List(_) | Key::Identifiers(_) => Err(ReplyFault::Unreadable),
        Key::Manifest(_, _) => Ok(Said::FaultyManifest(Text::from_str(alloc, "/")?, Kind::NotJson)),
        Key::Release(_, _) | Key::Archive(_, _) => Ok(Said::Nothing),
    }
}

// What is said by these bytes.
fn readable(alloc: Global, key: &Key, bytes: &[u8]) -> Result<Said, ReplyFault>
    ensures { Says result (unless_unreadable (has_form key.now (Some bytes.now)) (present key.now (Some bytes.now))) }
{
    match key {
        Key::List(_) => list_said(alloc, bytes),
        Key::Manifest(_, _) => Ok(manifest_said(alloc, bytes)?),
        Key::Release(_, _) | Key::Archive(_, _) => Ok(Said::Nothing),
        Key::Identifiers(_) => package_said(alloc, bytes),
    }
}

// What a list says.
fn list_said(alloc: Global, bytes: &[u8]) -> Result<Said, ReplyFault>
    ensures { Says result (unless_unreadable (lists_releases (Some bytes.now)) (list_said (releases_of bytes.now))) }
{
    match read_list(alloc, bytes) {
        Ok(releases) => Ok(Said::Releases(releases)),
        Err(BodyFault::TooMany) => Ok(Said::TooMany),
        Err(BodyFault::Unreadable) => Err(ReplyFault::Unreadable),
        Err(BodyFault::Memory) => Err(ReplyFault::Memory),
    }
}

// What a look-up says, which has no bound on its length but that of its body.
fn package_said(alloc: Global, bytes: &[u8]) -> Result<Said, ReplyFault>
    ensures { Says result (unless_unreadable (names_identities (Some bytes.now)) (package_said (identifiers_of bytes.now))) }
{
    match read_identifiers(alloc, bytes) {
        Ok(least) => Ok(Said::Package(least)),
        Err(BodyFault::Unreadable) | Err(BodyFault::TooMany) => Err(ReplyFault::Unreadable),
        Err(BodyFault::Memory) => Err(ReplyFault::Memory),
    }
}

// What a manifest says.
fn manifest_said(alloc: Global, bytes: &[u8]) -> Result<Said, NoMemory>
    ensures { IfOk result (λ said. said ≡ manifest_said (manifest_of bytes.now)) }
{
    match Manifest::read(alloc, bytes) {
        Ok(manifest) => Ok(Said::Manifest(manifest)),
        Err(ManifestFault::At { place, kind }) => Ok(Said::FaultyManifest(place, kind)),
        Err(ManifestFault::Memory) => Err(NoMemory),
    }
}
