// What a reply says is kept.
ghost use Rattle.std.specs.Prelude.{◌≡◌, None, OnErr, OnOk};
ghost use Rattle.pub_plain.specs.Gives.{IsKeptMore, IsSaidOf};
ghost use Rattle.pub_plain.specs.Told.{answers_to};
ghost use Rattle.spm_key.specs.declared.key.Key.TheVariants.{Identifiers, List, Manifest};

use crate::told::{GivenManifest, Told};
use spm_api::Said;
use spm_ident::Identity;
use spm_key::Key;
use spm_version::{NoMemory, Release, Text};
use std::alloc::Global;

// Keeps what is said of the list of a package.
fn keep_list(
    alloc: Global,
    told: &mut Told,
    identity: &Identity,
    said: Said,
) -> Result<(), NoMemory>
    requires said { IsSaidOf (List identity.now) said }
    requires fresh { answers_to told.old (List identity.now) ≡ None }
    ensures ok { OnOk result (IsKeptMore (List identity.now) said told.old told.new) }
    ensures err { OnErr result (told.new ≡ told.old) }
{
    let package = identity.copy(alloc)?;
    match said {
        Said::Releases(list) => told.known.lists.push((package, list)),
        Said::TooMany => told.long.push(package),
        _ => Ok(()),
    }
}

// Keeps what is said of the package of a URL.
fn keep_package(alloc: Global, told: &mut Told, url: &Text, said: Said) -> Result<(), NoMemory>
    requires said { IsSaidOf (Identifiers url.now) said }
    requires fresh { answers_to told.old (Identifiers url.now) ≡ None }
    ensures ok { OnOk result (IsKeptMore (Identifiers url.now) said told.old told.new) }
    ensures err { OnErr result (told.new ≡ told.old) }
{
    match said {
        Said::Package(package) => {
            let url = url.copy(alloc)?;
            told.known.urls.push((url, package))
        }
        _ => Ok(()),
    }
}

// Keeps what is said of the manifest of a release.
fn keep_manifest(
    alloc: Global,
    told: &mut Told,
    identity: &Identity,
    release: &Release,
    said: Said,
) -> Result<(), NoMemory>
    requires fresh { answers_to told.old (Manifest identity.now release.now) ≡ None }
    ensures ok { OnOk result (IsKeptMore (Manifest identity.now release.now) said told.old told.new) }
    ensures err { OnErr result (told.new ≡ told.old) }
{
    let identity = identity.copy(alloc)?;
    let release = release.copy(alloc)?;
    told.manifests.push(GivenManifest {
        identity,
        release,
        said,
    })
}

/// Keeps what the reply of a key says.
///
/// # Errors
///
/// `NoMemory` alone. Nothing has changed then.
pub fn keep(alloc: Global, told: &mut Told, key: &Key, said: Said) -> Result<(), NoMemory>
    requires said { IsSaidOf key.now said }
    requires fresh { answers_to told.old key.now ≡ None }
    ensures ok { OnOk result (IsKeptMore key.now said told.old told.new) }
    ensures err { OnErr result (told.new ≡ told.old) }
{
    match key {
        Key::List(identity) => keep_list(alloc, told, identity, said),
        Key::Manifest(identity, release) => keep_manifest(alloc, told, identity, release, said),
        Key::Identifiers(url) => keep_package(alloc, told, url, said),
        Key::Release(_, _) | Key::Archive(_, _) => Ok(()),
    }
}
