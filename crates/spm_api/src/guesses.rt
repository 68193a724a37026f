ghost use Rattle.std.specs.Prelude.{◌≡◌, IfOk, not, reverse};
ghost use Rattle.std.specs.List.{find};
ghost use Rattle.std.specs.Option.{option_copied, option_map, option_to_list};
ghost use Rattle.spm_api.specs.Bodies.{releases_of};
ghost use Rattle.spm_api.specs.Guess.{
  Guesses,
  GuessesOfList,
  content_of,
  is_looked_up,
  keys_of,
  manifest_keys,
  need_keys,
  target_keys,
};
ghost use Rattle.spm_manifest.specs.Profile.{manifest_of};
ghost use Rattle.spm_version.specs.Release.{is_prerelease};

use crate::bodies::{BodyFault, read_list};
use spm_ident::Identity;
use spm_key::{Body, Key, Reply};
use spm_manifest::{Manifest, ManifestFault, Need, Target};
use spm_version::{Items, NoMemory, Release, Requirement};
use std::alloc::Global;

/// The status of a reply whose body is what was asked for (RFC 9110, section 15.3.1).
const STATUS_OK: u16 = 200;

/// Whether a registry is asked for the versions of what is required: for a version or a range of versions (SE-0292), and not for a
/// branch, a revision or a path.
pub fn is_looked_up(requirement: &Requirement) -> bool
    ensures { result ≡ is_looked_up requirement.now }
{
    match requirement {
        Requirement::Exact(_) | Requirement::Range(_, _) => true,
        Requirement::Branch(_) | Requirement::Revision(_) | Requirement::Path => false,
    }
}

// The key by which a registry knows a target, if it does.
fn target_key(alloc: Global, target: &Target) -> Result<Option<Key>, NoMemory>
    ensures { IfOk result (λ key. option_to_list key ≡ target_keys target.now) }
{
    match target {
        Target::Registry(identity) => Ok(Some(Key::List(identity.copy(alloc)?))),
        Target::Url(url) => Ok(Some(Key::Identifiers(url.copy(alloc)?))),
        Target::Local(_) => Ok(None),
    }
}

// The key that a dependency makes likely, if it does.
fn need_key(alloc: Global, need: &Need) -> Result<Option<Key>, NoMemory>
    ensures { IfOk result (λ key. option_to_list key ≡ need_keys need.now) }
{
    if !is_looked_up(&need.requirement) {
        return Ok(None);
    }
    target_key(alloc, &need.target)
}

/// The keys that a resolution of this root's manifest will ask for: for each dependency on a version or a range of versions, in
/// order, the list of its package or the identifiers of its URL.
///
/// # Errors
///
/// `NoMemory` alone.
pub fn guess_root(alloc: Global, manifest: &Manifest) -> Result<Items<Key>, NoMemory>
    ensures { IfOk result (λ keys. keys ≡ keys_of manifest.now.needs) }
{
    let mut keys = Items::new(alloc);
    for need in manifest.needs() {
        if let Some(key) = need_key(alloc, need)? {
            keys.push(key)?;
        }
    }
    Ok(keys)
}

// The keys that the manifest of a release makes likely.
fn guess_manifest(alloc: Global, body: &[u8]) -> Result<Items<Key>, NoMemory>
    ensures { IfOk result (λ keys. keys ≡ manifest_keys (manifest_of body.now)) }
{
    match Manifest::read(alloc, body) {
        Ok(manifest) => guess_root(alloc, &manifest),
        Err(ManifestFault::At { .. }) => Ok(Items::new(alloc)),
        Err(ManifestFault::Memory) => Err(NoMemory),
    }
}

// The last of the releases that are no pre-releases.
fn last_stable(releases: &[Release]) -> Option<&Release>
    ensures { option_copied result ≡ find (λ release. not (is_prerelease release)) (reverse releases.now) }
{
    releases
        .iter()
        .rev()
        .find(|release| !release.is_prerelease())
}

// The keys that the list of a package makes likely.
fn guess_list(alloc: Global, identity: &Identity, body: &[u8]) -> Result<Items<Key>, NoMemory>
    ensures { IfOk result (λ keys. GuessesOfList identity.now (releases_of body.now) keys) }
{
    let mut keys = Items::new(alloc);
    let releases = match read_list(alloc, body) {
        Ok(releases) => releases,
        Err(BodyFault::Unreadable) | Err(BodyFault::TooMany) => return Ok(keys),
        Err(BodyFault::Memory) => return Err(NoMemory),
    };
    let Some(newest) = last_stable(releases.as_slice()) else {
        return Ok(keys);
    };
    let identity = identity.copy(alloc)?;
    keys.push(Key::Manifest(identity, newest.copy(alloc)?))?;
    Ok(keys)
}

// The bytes of a reply that is there.
fn content_of(reply: &Reply) -> Option<&[u8]>
    ensures { option_map (λ content. content.now) result ≡ content_of reply.now }
{
    if reply.status != STATUS_OK {
        return None;
    }
    match &reply.body {
        Body::Whole(bytes) => Some(bytes.as_slice()),
        Body::Sum { .. } | Body::Garbled | Body::TooLong => None,
    }
}

/// The keys that a reply makes likely: of a readable manifest those of its dependencies, as for a root; of a readable list, the
/// manifest of the newest release that is no pre-release, if there is one; none of all else.
///
/// # Errors
///
/// `NoMemory` alone.
pub fn guess(alloc: Global, key: &Key, reply: &Reply) -> Result<Items<Key>, NoMemory>
    ensures { IfOk result (λ keys. Guesses key.now reply.now keys) }
{
    let Some(content) = content_of(reply) else {
        return Ok(Items::new(alloc));
    };
    match key {
        Key::List(identity) => guess_list(alloc, identity, content),
        Key::Manifest(_, _) => guess_manifest(alloc, content),
        Key::Release(_, _) | Key::Archive(_, _) | Key::Identifiers(_) => Ok(Items::new(alloc)),
    }
}
