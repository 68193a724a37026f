// What a shelf has behind a key.
ghost use Rattle.std.specs.Prelude.{◌≡◌, ℕ, List, [], IfOk, codes, false, map};
ghost use Rattle.spm_digest.specs.Digest.{encode_lower};
ghost use Rattle.std.specs.Option.{option_copied};
ghost use Rattle.serde_json.specs.Data.{array, member, no_members, object, string};
ghost use Rattle.serde_json.specs.View.{items_of, view};
ghost use Rattle.serde_json.specs.Written.{has_float};
ghost use Rattle.spm_key.specs.Key.{release_path};
ghost use Rattle.spm_json.specs.Written.{object_with};
ghost use Rattle.spm_server.specs.Content.{
  archive_content,
  checksum_for,
  content_of,
  found_release,
  identifiers_data,
  json_content,
  list_data,
  listed_pair,
  manifest_content,
  metadata_content,
  metadata_data,
  metadata_of,
  place_data,
  release_in,
  source_of,
  unless_problem,
  url_of,
  usable_release,
};
ghost use Rattle.spm_server.specs.Problem.{details_data};

use crate::media::Media;
use serde_json::{Value, json};
use spm_digest::hex_of;
use spm_ident::Identity;
use spm_json::{WrittenObject, identities_value};
use spm_key::{Key, release_path};
use spm_shelf::{Archive, Shelf, ShelfPackage, ShelfRelease, ShelfUrl};
use spm_version::{Bytes, NoMemory, Release, Text};
use std::alloc::Global;

// The resource behind a key.
#[derive(Drop)]
pub(crate) struct Content {
    pub media: Media,
    pub body: Bytes,
}

// What the shelf has behind a key, if anything.
pub(crate) fn content_of(
    alloc: Global,
    shelf: &Shelf,
    key: &Key,
) -> Result<Option<Content>, NoMemory>
    ensures { IfOk result (λ content. content ≡ content_of shelf.now key.now) }
{
    match key {
        Key::List(identity) => match shelf.package(identity) {
            Some(entry) => Ok(Some(list_content(alloc, entry)?)),
            None => Ok(None),
        },
        Key::Manifest(identity, release) => match found_release(shelf, identity, release) {
            Some(entry) => manifest_content(alloc, entry),
            None => Ok(None),
        },
        Key::Release(identity, release) => match found_release(shelf, identity, release) {
            Some(entry) => metadata_content(alloc, identity, entry),
            None => Ok(None),
        },
        Key::Archive(identity, release) => match found_release(shelf, identity, release) {
            Some(entry) => archive_content(alloc, entry),
            None => Ok(None),
        },
        Key::Identifiers(url) => match url_of(url, shelf.urls()) {
            Some(entry) => Ok(Some(identifiers_content(alloc, entry)?)),
            None => Ok(None),
        },
    }
}

// ---- look-ups

// The first release of a package that is this one.
fn release_in<'s>(release: &Release, entries: &'s [ShelfRelease]) -> Option<&'s ShelfRelease>
    ensures { option_copied result ≡ release_in release.now entries.now }
{
    for entry in entries {
        if entry.release == *release {
            return Some(entry);
        }
    }
    None
}

// The release, unless it has a problem.
fn usable_release<'s>(release: &Release, entry: &'s ShelfPackage) -> Option<&'s ShelfRelease>
    ensures { option_copied result ≡ usable_release release.now entry.now }
{
    let found = release_in(release, entry.releases.as_slice())?;
    match found.problem {
        Some(_) => None,
        None => Some(found),
    }
}

// The release of a package on the shelf, unless it has a problem.
fn found_release<'s>(
    shelf: &'s Shelf,
    identity: &Identity,
    release: &Release,
) -> Option<&'s ShelfRelease>
    ensures { option_copied result ≡ found_release shelf.now identity.now release.now }
{
    let entry = shelf.package(identity)?;
    usable_release(release, entry)
}

// The entry of a URL.
fn url_of<'s>(url: &Text, entries: &'s [ShelfUrl]) -> Option<&'s ShelfUrl>
    ensures { option_copied result ≡ url_of url.now entries.now }
{
    for entry in entries {
        if entry.url == *url {
            return Some(entry);
        }
    }
    None
}

// ---- bodies

// JSON as a resource.
fn json_content(alloc: Global, value: &Value) -> Result<Content, NoMemory>
    requires { has_float (view value.now) ≡ false }
    ensures { IfOk result (λ content. content ≡ json_content (view value.now)) }
{
    let text = value.to_string(alloc)?;
    Ok(Content {
        media: Media::Json,
        body: Bytes::from_vec(text.into_bytes()),
    })
}

// The members of a problem.
pub(crate) fn details_value(
    alloc: Global,
    status: u16,
    title: &str,
    detail: &str,
) -> Result<Value, NoMemory>
    ensures { IfOk result (λ value. view value ≡ details_data status title.now detail.now) }
{
    json!(in alloc; {"detail": detail, "status": status, "title": title})
}

// A release with this problem, in a list.
fn gone_value(alloc: Global, problem: &str) -> Result<Value, NoMemory>
    ensures { IfOk result (λ value. view value ≡ object (member (codes "problem") (details_data 410 (codes "Gone") problem.now) no_members)) }
{
    let details = details_value(alloc, 410, "Gone", problem)?;
    json!(in alloc; {"problem": details})
}

// The path of a release, in a list.
fn path_value(alloc: Global, identity: &Identity, release: &Release) -> Result<Value, NoMemory>
    ensures { IfOk result (λ value. view value ≡ object (member (codes "url") (string (release_path identity.now release.now [])) no_members)) }
{
    let path = release_path(alloc, identity, release, "")?;
    json!(in alloc; {"url": path.into_string()})
}

// The place of a release, in a list.
fn place_value(alloc: Global, identity: &Identity, entry: &ShelfRelease) -> Result<Value, NoMemory>
    ensures { IfOk result (λ value. view value ≡ place_data identity.now entry.now.release entry.now.problem) }
{
    match &entry.problem {
        Some(problem) => gone_value(alloc, problem.as_str()),
        None => path_value(alloc, identity, &entry.release),
    }
}

// The places of releases, by their versions.
fn places_value(
    alloc: Global,
    identity: &Identity,
    entries: &[ShelfRelease],
) -> Result<Value, NoMemory>
    ensures { IfOk result (λ value. view value ≡ object_with (map (listed_pair identity.now) entries.now)) }
{
    let mut places = WrittenObject::new(alloc);
    for entry in entries {
        let version = entry.release.text(alloc)?;
        places.put(
            alloc,
            version.as_str(),
            place_value(alloc, identity, entry)?,
        )?;
    }
    Ok(places.into_value())
}

// The members of a list.
fn list_value(alloc: Global, places: Value) -> Result<Value, NoMemory>
    ensures { IfOk result (λ value. view value ≡ object (member (codes "releases") (view places) no_members)) }
{
    json!(in alloc; {"releases": places})
}

// The list of a package.
fn list_content(alloc: Global, entry: &ShelfPackage) -> Result<Content, NoMemory>
    ensures { IfOk result (λ content. content ≡ json_content (list_data entry.now)) }
{
    let places = places_value(alloc, &entry.identity, entry.releases.as_slice())?;
    let value = list_value(alloc, places)?;
    json_content(alloc, &value)
}

// The manifest of a release, if there is one.
fn manifest_content(alloc: Global, entry: &ShelfRelease) -> Result<Option<Content>, NoMemory>
    ensures { IfOk result (λ content. content ≡ manifest_content entry.now) }
{
    match &entry.manifest {
        Some(manifest) => Ok(Some(Content {
            media: Media::Json,
            body: Bytes::from_slice(alloc, manifest.as_str().as_bytes())?,
        })),
        None => Ok(None),
    }
}

// The archive of a release, if there is one.
fn archive_content(alloc: Global, entry: &ShelfRelease) -> Result<Option<Content>, NoMemory>
    ensures { IfOk result (λ content. content ≡ archive_content entry.now) }
{
    match &entry.archive {
        Some(archive) => Ok(Some(Content {
            media: Media::Zip,
            body: Bytes::from_slice(alloc, archive.bytes())?,
        })),
        None => Ok(None),
    }
}

// The checksum that the shelf says, or else the archive's own, in hexadecimal.
fn checksum_text(alloc: Global, entry: &ShelfRelease, archive: &Archive) -> Result<Text, NoMemory>
    ensures { IfOk result (λ text. text ≡ encode_lower (checksum_for entry.now.checksum archive.now)) }
{
    match &entry.checksum {
        Some(said) => hex_of(alloc, &said.sum),
        None => hex_of(alloc, archive.sum()),
    }
}

// The source archive of a release, as a resource.
fn source_value(alloc: Global, checksum: &str) -> Result<Value, NoMemory>
    ensures { IfOk result (λ value. view value ≡ source_of (string checksum.now)) }
{
    json!(in alloc; {"checksum": checksum, "name": "source-archive", "type": "application/zip"})
}

// The members of a release.
fn metadata_value(alloc: Global, id: &str, source: Value, version: &str) -> Result<Value, NoMemory>
    ensures { IfOk result (λ value. view value ≡ metadata_of (string id.now) (view source) (string version.now)) }
{
    json!(in alloc; {"id": id, "metadata": {}, "resources": [source], "version": version})
}

// The metadata of a release, if it has an archive.
fn metadata_content(
    alloc: Global,
    identity: &Identity,
    entry: &ShelfRelease,
) -> Result<Option<Content>, NoMemory>
    ensures { IfOk result (λ content. content ≡ metadata_content identity.now entry.now) }
{
    match &entry.archive {
        Some(archive) => Ok(Some(archived_content(alloc, identity, entry, archive)?)),
        None => Ok(None),
    }
}

// The metadata of a release with this archive.
fn archived_content(
    alloc: Global,
    identity: &Identity,
    entry: &ShelfRelease,
    archive: &Archive,
) -> Result<Content, NoMemory>
    ensures { IfOk result (λ content. content
        ≡ json_content (metadata_data identity.now entry.now.release (checksum_for entry.now.checksum archive.now))) }
{
    let checksum = checksum_text(alloc, entry, archive)?;
    let source = source_value(alloc, checksum.as_str())?;
    let version = entry.release.text(alloc)?;
    let value = metadata_value(alloc, identity.text(), source, version.as_str())?;
    json_content(alloc, &value)
}

// The members of a look-up.
fn identifiers_value(alloc: Global, identities: Value) -> Result<Value, NoMemory>
    ensures { IfOk result (λ value. view value ≡ object (member (codes "identifiers") (view identities) no_members)) }
{
    json!(in alloc; {"identifiers": identities})
}

// The identities of a URL.
fn identifiers_content(alloc: Global, entry: &ShelfUrl) -> Result<Content, NoMemory>
    ensures { IfOk result (λ content. content ≡ json_content (identifiers_data entry.now)) }
{
    let identities = identities_value(alloc, entry.identities.as_slice())?;
    let value = identifiers_value(alloc, identities)?;
    json_content(alloc, &value)
}
