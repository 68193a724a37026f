ghost use Rattle.std.specs.Prelude.{◌≡◌, IfErr, IfOk, None, Ok, codes, option_and_then, option_map};
ghost use Rattle.serde_json.specs.View.{view};
ghost use Rattle.spm_digest.specs.Digest.{sum_of};
ghost use Rattle.spm_json.specs.Object.{data_of};
ghost use Rattle.spm_json.specs.Reading.{Gives};
ghost use Rattle.spm_json.specs.Sequence.{members_of};
ghost use Rattle.spm_json.specs.Shape.{whole_of};
ghost use Rattle.spm_api.specs.Bodies.{
  IsLeastIdentity,
  all_some,
  archive_checksum,
  checksum_of,
  identifiers_of,
  is_text,
  lesser,
  listed_reading,
  member_reading,
  problem_of,
  releases_of,
  resource_in,
  resource_reading,
  text_at,
  usable_release,
};
ghost use Rattle.spm_api.specs.Reads.{Reads, ReadsIdentifiers, ReadsList, refusal_of};
ghost use Rattle.spm_api.specs.declared.bodies.BodyFault.TheVariants.{Memory};

use crate::texts::{identity_of, release_of};
use serde_json::Value;
use spm_digest::read_hex;
use spm_ident::Identity;
use spm_json::{FromJson, FromMember, Object, ReadFault, members, read_document};
use spm_version::{Items, NoMemory, Release, Text, ends_in_zip};
use std::alloc::{AllocError, AllocFailed, Global};
use std::error::Error;
use std::fmt;
use std::marker::Model;

/// How many usable releases a list may have.
const MAX_RELEASES: usize = 4096;

/// Why a body was refused.
#[derive(Clone, Copy, Debug, PartialEq, Eq)]
pub enum BodyFault {
    /// The body isn't of its form.
    Unreadable,
    /// A list has more than 4,096 usable releases.
    TooMany,
    /// Want of memory.
    Memory,
}

impl fmt::Display for BodyFault {
    fn fmt<W: fmt::Write>(&self, f: &mut fmt::Formatter<W>) -> fmt::Result {
        f.write_str(match self {
            BodyFault::Unreadable => "unreadable body",
            BodyFault::TooMany => "too many releases",
            BodyFault::Memory => "no memory",
        })
    }
}

impl Error for BodyFault {}

impl From<AllocError> for BodyFault {
    ghost from_gives = { λ _ e. e ≡ Memory };

    fn from(_e: AllocError) -> BodyFault {
        BodyFault::Memory
    }
}

impl From<ReadFault> for BodyFault {
    ghost from_gives = { λ fault e. e ≡ refusal_of fault };

    fn from(fault: ReadFault) -> BodyFault {
        match fault {
            ReadFault::At { .. } => BodyFault::Unreadable,
            ReadFault::Memory => BodyFault::Memory,
        }
    }
}

impl<T: Drop> From<AllocFailed<T>> for BodyFault {
    ghost from_gives = { λ _ e. e ≡ Memory };

    fn from(_e: AllocFailed<T>) -> BodyFault {
        BodyFault::Memory
    }
}

// The member of an object.
fn member_of<T: FromJson + Drop>(alloc: Global, value: &Value, key: &str) -> Result<T, ReadFault>
    ensures { Gives result (member_reading T.reading key.now (view value.now)) }
{
    let object = Object::of(alloc, value)?;
    object.field(key)
}

// The member of the object that a body is.
fn read_member<T: FromJson + Drop>(alloc: Global, body: &[u8], key: &str) -> Result<T, ReadFault>
    ensures { Gives result (whole_of (member_reading T.reading key.now) body.now) }
{
    match read_document(alloc, body) {
        Ok(document) => match member_of(alloc, &document, key) {
            Ok(read) => Ok(read),
            Err(fault) => Err(fault.of_document(alloc)),
        },
        Err(fault) => Err(fault.of_document(alloc)),
    }
}

// A member of a list of releases: its release, if that is usable.
#[derive(Drop)]
struct ListedRelease {
    release: Option<Release>,
}

impl Model for ListedRelease {
    ghost use Rattle.std.specs.Prelude.{Option};
    ghost use Rattle.spm_version.specs.Release.{Parts};

    ghost Value = { Option Parts };

    ghost view = { λ listed. listed.release };
}

impl FromMember for ListedRelease {
    ghost reading = { listed_reading };

    fn from_member(
        alloc: Global,
        _earlier: &[ListedRelease],
        key: &str,
        value: &Value,
    ) -> Result<ListedRelease, ReadFault> {
        let object = Object::of(alloc, value)?;
        let release = usable_release(alloc, key, &object)?;
        Ok(ListedRelease { release })
    }
}

// The release of a member, if it is usable.
fn usable_release(alloc: Global, key: &str, object: &Object) -> Result<Option<Release>, ReadFault>
    ensures { Gives result (Ok (usable_release key.now (data_of object.now))) }
{
    if ends_in_zip(key) || object.get("problem").is_some() {
        return Ok(None);
    }
    Ok(release_of(alloc, key)?)
}

// The member `releases`: its members, each of which is an object.
#[derive(Drop)]
struct Listing {
    listed: Items<ListedRelease>,
}

impl Model for Listing {
    ghost use Rattle.std.specs.Prelude.{List, Option};
    ghost use Rattle.std.specs.List.{IsDistinct};
    ghost use Rattle.spm_version.specs.Release.{Parts};
    ghost use Rattle.spm_version.specs.ReleaseLaws.{release_eq};
    ghost use Rattle.spm_api.specs.Bodies.{all_some};

    ghost Value = { List (Option Parts) };

    ghost view = { λ listing. listing.listed };

    // Each release stands once, as its text does among the keys.
    ghost invariant = { λ listing. IsDistinct release_eq (all_some listing.listed) };
}

impl FromJson for Listing {
    ghost reading = { members_of listed_reading };

    fn from_json(alloc: Global, value: &Value) -> Result<Listing, ReadFault> {
        let listed = members(alloc, value)?;
        Ok(Listing { listed })
    }
}

// The releases that are usable, in the order in which they stand.
fn usable(alloc: Global, listed: Items<ListedRelease>) -> Result<Vec<Release>, BodyFault>
    ensures ok { IfOk result (λ releases. releases.items ≡ all_some listed) }
    ensures err { IfErr result (λ fault. fault ≡ Memory) }
{
    let mut releases = Vec::new(alloc);
    for entry in listed.into_vec() {
        if let Some(release) = entry.release {
            releases.push(release)?;
        }
    }
    Ok(releases)
}

/// Reads the body of a list: its usable releases in ascending order, each once. A key that is no version, or ends in `.zip`, is passed over,
/// and so is a release with a problem.
///
/// # Errors
///
/// `Unreadable` exactly where the body isn't of its form, `TooMany` exactly where more than 4,096 releases are usable, and `Memory`.
pub fn read_list(alloc: Global, body: &[u8]) -> Result<Items<Release>, BodyFault>
    ensures { ReadsList result (releases_of body.now) }
{
    let listing: Listing = read_member(alloc, body, "releases")?;
    let mut releases = usable(alloc, listing.listed)?;
    if releases.len() > MAX_RELEASES {
        return Err(BodyFault::TooMany);
    }
    releases.sort()?;
    Ok(Items::from_vec(releases))
}

// What is said of a resource of a release.
#[derive(Drop)]
struct ReleaseResource {
    is_archive: bool,
    checksum: Option<[u8; 32]>,
}

impl Model for ReleaseResource {
    ghost use Rattle.spm_api.specs.Bodies.{Resource};

    ghost Value = { Resource };

    ghost view = { λ archive. record { is_archive = archive.is_archive; checksum = archive.checksum } };
}

impl FromJson for ReleaseResource {
    ghost reading = { resource_reading };

    fn from_json(alloc: Global, value: &Value) -> Result<ReleaseResource, ReadFault> {
        let object = Object::of(alloc, value)?;
        Ok(resource(&object))
    }
}

// The text of a member.
fn text_at<'v>(object: &Object<'v>, key: &str) -> Option<&'v str>
    ensures { option_map (λ text. text.now) result ≡ text_at key.now (data_of object.now) }
{
    object.get(key)?.as_str()
}

// Whether a member is this text.
fn is_text(object: &Object, key: &str, wanted: &str) -> bool
    ensures { result ≡ is_text wanted.now (text_at key.now (data_of object.now)) }
{
    match text_at(object, key) {
        Some(text) => text == wanted,
        None => false,
    }
}

// The sum that a member writes, if it does.
fn checksum_at(object: &Object) -> Option<[u8; 32]>
    ensures { result ≡ option_and_then sum_of (text_at (codes "checksum") (data_of object.now)) }
{
    read_hex(text_at(object, "checksum")?)
}

// What an object says of a resource.
fn resource(object: &Object) -> ReleaseResource
    ensures { result ≡ resource_in (data_of object.now) }
{
    ReleaseResource {
        is_archive: is_text(object, "name", "source-archive")
            && is_text(object, "type", "application/zip"),
        checksum: checksum_at(object),
    }
}

// The checksum of the first source archive.
fn first_checksum(resources: &[ReleaseResource]) -> Result<Option<[u8; 32]>, BodyFault>
    ensures { Reads result (archive_checksum resources.now) }
{
    for resource in resources {
        if resource.is_archive {
            return match resource.checksum {
                Some(checksum) => Ok(Some(checksum)),
                None => Err(BodyFault::Unreadable),
            };
        }
    }
    Ok(None)
}

/// Reads the body of a release: the SHA-256 that it says its source archive has, or nothing where it names none.
///
/// # Errors
///
/// `Unreadable` exactly where the body isn't of its form, or the first source archive has no checksum; and `Memory`.
pub fn read_release(alloc: Global, body: &[u8]) -> Result<Option<[u8; 32]>, BodyFault>
    ensures { Reads result (checksum_of body.now) }
{
    let resources: Items<ReleaseResource> = read_member(alloc, body, "resources")?;
    first_checksum(resources.as_slice())
}

// The lesser of two identities.
fn lesser(identity: Identity, least: Option<Identity>) -> Identity
    ensures { result ≡ lesser identity least }
{
    match least {
        Some(other) if other < identity => other,
        _ => identity,
    }
}

// The least of the texts that are identities.
fn least(alloc: Global, texts: &[Text]) -> Result<Option<Identity>, NoMemory>
    ensures { IfOk result (λ least. IsLeastIdentity texts.now least) }
{
    let mut least = None;
    for text in texts {
        if let Some(identity) = identity_of(alloc, text.as_str())? {
            least = Some(lesser(identity, least));
        }
    }
    Ok(least)
}

/// Reads the body of a look-up: the least of the identities that it names, in the order of their bytes, or nothing. A text that is no
/// identity is passed over.
///
/// # Errors
///
/// `Unreadable` exactly where the body isn't of its form, and `Memory`.
pub fn read_identifiers(alloc: Global, body: &[u8]) -> Result<Option<Identity>, BodyFault>
    ensures { ReadsIdentifiers result (identifiers_of body.now) }
{
    let texts: Items<Text> = read_member(alloc, body, "identifiers")?;
    let least = least(alloc, texts.as_slice())?;
    Ok(least)
}

/// Reads what a problem says (RFC 7807): the text `detail` of an object, or nothing.
///
/// # Errors
///
/// `NoMemory` alone.
pub fn read_problem(alloc: Global, body: &[u8]) -> Result<Option<Text>, NoMemory>
    ensures { IfOk result (λ detail. detail ≡ problem_of body.now) }
{
    let document = match read_document(alloc, body) {
        Ok(document) => document,
        Err(ReadFault::At { .. }) => return Ok(None),
        Err(ReadFault::Memory) => return Err(NoMemory),
    };
    match document.get("detail").and_then(Value::as_str) {
        Some(detail) => Ok(Some(Text::from_str(alloc, detail)?)),
        None => Ok(None),
    }
}
