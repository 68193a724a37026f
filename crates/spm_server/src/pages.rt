ghost use Rattle.std.specs.Prelude.{◌≡◌, ◌++◌, ◌∷◌, [], All, IfOk, OnOk, map};
ghost use Rattle.std.specs.List.{flat_map};
ghost use Rattle.spm_key.specs.Key.{IsKey};
ghost use Rattle.spm_key.specs.declared.key.Key.TheVariants as key;
ghost use Rattle.spm_server.specs.Pages.{
  AnswersAskable,
  RefusesOthers,
  entries_for,
  entries_on,
  has_plain_version,
  keys_on,
  not_found,
  package_keys,
  release_keys,
  url_key,
};
ghost use Rattle.spm_server.specs.RoundTrip.{IsPlainBase};

use crate::answering::{content_answer, problem_answer};
use crate::content::content_of;
use crate::problem::Problem;
use spm_api::{Base, request_of};
use spm_http::MAX_HEAD;
use spm_ident::Identity;
use spm_key::Key;
use spm_outside::{Book, Entry};
use spm_shelf::{Shelf, ShelfPackage, ShelfRelease, ShelfUrl};
use spm_version::{Bytes, Items, NoMemory, Release, Text};
use std::alloc::Global;

/// Fixed replies to requests at the base. For the request for a key that has at most 65,536 bytes, and whose version doesn't end in
/// `.zip`, that is what the server with this shelf answers ([`answer`](crate::answer)); for the request for every other key, and for
/// what has no reply of its own, it is the 404 response.
///
/// # Errors
///
/// `NoMemory` alone.
pub fn book(alloc: Global, shelf: &Shelf, base: &Base) -> Result<Book, NoMemory>
    requires { IsPlainBase base.now }
    ensures askable { IfOk result (λ book. AnswersAskable shelf.now base.now book) }
    ensures others { IfOk result (λ book. RefusesOthers base.now book) }
    ensures other { IfOk result (λ book. book.other ≡ not_found) }
{
    let keys = keys_on(alloc, shelf)?;
    let mut entries = Vec::new(alloc);
    for key in &keys {
        add_entry(alloc, shelf, base, key, &mut entries)?;
    }
    let other = not_found(alloc)?;
    Book::new(alloc, Items::from_vec(entries), other)
}

// The 404 response.
fn not_found(alloc: Global) -> Result<Bytes, NoMemory>
    ensures { IfOk result (λ bytes. bytes ≡ not_found) }
{
    let answer = problem_answer(alloc, Problem::NoResource)?;
    answer.text(alloc)
}

// Adds the entry of a key, if its request fits and its version is plain.
fn add_entry(
    alloc: Global,
    shelf: &Shelf,
    base: &Base,
    key: &Key,
    entries: &mut Vec<Entry>,
) -> Result<(), NoMemory>
    ensures { OnOk result (entries.new.items ≡ entries.old.items ++ entries_for shelf.now base.now key.now) }
{
    let request = request_of(alloc, base, key)?;
    if request.as_slice().len() > MAX_HEAD || !has_plain_version(alloc, key)? {
        return Ok(());
    }
    let content = content_of(alloc, shelf, key)?;
    let answer = content_answer(alloc, content)?;
    let response = answer.text(alloc)?;
    entries.push(Entry {
        to: base.to.copy(alloc)?,
        request,
        response,
    })?;
    Ok(())
}

// Whether the version of a key, if it has one, doesn't end in `.zip`.
fn has_plain_version(alloc: Global, key: &Key) -> Result<bool, NoMemory>
    ensures { IfOk result (λ plain. plain ≡ has_plain_version key.now) }
{
    match key {
        Key::List(_) | Key::Identifiers(_) => Ok(true),
        Key::Manifest(_, release) | Key::Release(_, release) | Key::Archive(_, release) => {
            Ok(!release.ends_in_zip(alloc)?)
        }
    }
}

// ---- the keys of all that is on a shelf

// The key of a package's list.
fn list_key(alloc: Global, identity: &Identity) -> Result<Key, NoMemory>
    ensures same { IfOk result (λ made. made ≡ key.List identity.now) }
    ensures is { IfOk result IsKey }
{
    Ok(Key::List(identity.copy(alloc)?))
}

// The key of a release's manifest.
fn manifest_key(alloc: Global, identity: &Identity, release: &Release) -> Result<Key, NoMemory>
    ensures same { IfOk result (λ made. made ≡ key.Manifest identity.now release.now) }
    ensures is { IfOk result IsKey }
{
    Ok(Key::Manifest(identity.copy(alloc)?, release.copy(alloc)?))
}

// The key of what is said of a release.
fn release_key(alloc: Global, identity: &Identity, release: &Release) -> Result<Key, NoMemory>
    ensures same { IfOk result (λ made. made ≡ key.Release identity.now release.now) }
    ensures is { IfOk result IsKey }
{
    Ok(Key::Release(identity.copy(alloc)?, release.copy(alloc)?))
}

// The key of a release's archive.
fn archive_key(alloc: Global, identity: &Identity, release: &Release) -> Result<Key, NoMemory>
    ensures same { IfOk result (λ made. made ≡ key.Archive identity.now release.now) }
    ensures is { IfOk result IsKey }
{
    Ok(Key::Archive(identity.copy(alloc)?, release.copy(alloc)?))
}

// The key of a URL's identities.
fn url_key(alloc: Global, url: &str) -> Result<Key, NoMemory>
    ensures same { IfOk result (λ made. made ≡ key.Identifiers url.now) }
    ensures is { IfOk result IsKey }
{
    Ok(Key::Identifiers(Text::from_str(alloc, url)?))
}

// Adds the keys of a release.
fn add_release_keys(
    alloc: Global,
    identity: &Identity,
    entry: &ShelfRelease,
    keys: &mut Vec<Key>,
) -> Result<(), NoMemory>
    ensures keys { OnOk result (keys.new.items ≡ keys.old.items ++ release_keys identity.now entry.now) }
    ensures are { OnOk result (All IsKey keys.old.items → All IsKey keys.new.items) }
{
    keys.push(manifest_key(alloc, identity, &entry.release)?)?;
    keys.push(release_key(alloc, identity, &entry.release)?)?;
    keys.push(archive_key(alloc, identity, &entry.release)?)?;
    Ok(())
}

// Adds the keys of a package and of its releases.
fn add_package_keys(
    alloc: Global,
    entry: &ShelfPackage,
    keys: &mut Vec<Key>,
) -> Result<(), NoMemory>
    ensures keys { OnOk result (keys.new.items ≡ keys.old.items ++ package_keys entry.now) }
    ensures are { OnOk result (All IsKey keys.old.items → All IsKey keys.new.items) }
{
    keys.push(list_key(alloc, &entry.identity)?)?;
    for release in entry.releases.as_slice() {
        add_release_keys(alloc, &entry.identity, release, keys)?;
    }
    Ok(())
}

// Adds the keys of the URLs.
fn add_url_keys(alloc: Global, urls: &[ShelfUrl], keys: &mut Vec<Key>) -> Result<(), NoMemory>
    ensures keys { OnOk result (keys.new.items ≡ keys.old.items ++ map url_key urls.now) }
    ensures are { OnOk result (All IsKey keys.old.items → All IsKey keys.new.items) }
{
    for entry in urls {
        keys.push(url_key(alloc, entry.url.as_str())?)?;
    }
    Ok(())
}

// The keys of all that is on the shelf.
fn keys_on(alloc: Global, shelf: &Shelf) -> Result<Vec<Key>, NoMemory>
    ensures keys { IfOk result (λ keys. keys.items ≡ keys_on shelf.now) }
    ensures are { IfOk result (λ keys. All IsKey keys.items) }
{
    let mut keys = Vec::new(alloc);
    for package in shelf.packages() {
        add_package_keys(alloc, package, &mut keys)?;
    }
    add_url_keys(alloc, shelf.urls(), &mut keys)?;
    Ok(keys)
}
