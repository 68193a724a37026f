// Reading the target of a request.
ghost use Rattle.std.specs.Prelude.{◌≡◌, ◌∷◌, IfOk, [], List, ℕ, Option};
ghost use Rattle.std.specs.List.{slice_split};
ghost use Rattle.percent_encoding.specs.Percent.{percent_decode};
ghost use Rattle.spm_server.specs.Target.{
  file_key,
  identity_at,
  is_slash,
  key_of_target,
  last_key,
  package_key,
  parts_key,
  text_key,
  url_key,
};
ghost use Rattle.spm_server.specs.Cut.{parts_behind};

use percent_encoding::percent_decode;
use spm_api::{identity_of, release_of};
use spm_ident::Identity;
use spm_key::Key;
use spm_version::{NoMemory, Text};
use std::alloc::Global;

// The key whose path the target is, if it is one.
pub(crate) fn key_of_target(alloc: Global, target: &[u8]) -> Result<Option<Key>, NoMemory>
    ensures { IfOk result (λ key. key ≡ key_of_target target.now) }
{
    match str::from_utf8(target) {
        Ok(target) => text_key(alloc, target),
        Err(_) => Ok(None),
    }
}

/// What stands before the URL of a query.
const QUERY: &[u8] = b"/identifiers?url=";

// The key of a target that is a text.
fn text_key(alloc: Global, target: &str) -> Result<Option<Key>, NoMemory>
    ensures { IfOk result (λ key. key ≡ text_key target.now) }
{
    let bytes = target.as_bytes();
    if bytes.starts_with(QUERY) {
        let (_, escaped) = bytes.split_at(QUERY.len());
        url_key(alloc, escaped)
    } else {
        path_key(alloc, target)
    }
}

// The key of a URL, which stands behind escapes.
fn url_key(alloc: Global, escaped: &[u8]) -> Result<Option<Key>, NoMemory>
    ensures { IfOk result (λ key. key ≡ url_key (percent_decode escaped.now)) }
{
    let mut bytes = Vec::new(alloc);
    percent_decode(escaped).append_to(&mut bytes)?;
    match String::from_utf8(bytes) {
        Ok(url) => Ok(Some(Key::Identifiers(Text::from_string(url)))),
        Err(_) => Ok(None),
    }
}

// What stands before the first slash, and what stands behind it, if there is one.
fn cut(path: &str) -> (&str, Option<&str>)
    ensures { slice_split is_slash path.now ≡ result.0.now ∷ parts_behind result.1 }
{
    match path.split_once('/') {
        Some((part, rest)) => (part, Some(rest)),
        None => (path, None),
    }
}

// The key of a path.
fn path_key(alloc: Global, path: &str) -> Result<Option<Key>, NoMemory>
    ensures { IfOk result (λ key. key ≡ parts_key (slice_split is_slash path.now)) }
{
    let (front, Some(path)) = cut(path) else {
        return Ok(None);
    };
    let (scope, Some(path)) = cut(path) else {
        return Ok(None);
    };
    let (name, rest) = cut(path);
    if !front.is_empty() {
        return Ok(None);
    }
    match identity_at(alloc, scope, name)? {
        Some(identity) => package_key(alloc, identity, rest),
        None => Ok(None),
    }
}

// The identity of a scope and a name.
fn identity_at(alloc: Global, scope: &str, name: &str) -> Result<Option<Identity>, NoMemory>
    ensures { IfOk result (λ identity. identity ≡ identity_at scope.now name.now) }
{
    let text = format!(in alloc; "{scope}.{name}")?;
    identity_of(alloc, text.as_str())
}

// By what stands behind the name of the package.
fn package_key(
    alloc: Global,
    identity: Identity,
    rest: Option<&str>,
) -> Result<Option<Key>, NoMemory>
    ensures { IfOk result (λ key. key ≡ package_key identity (parts_behind rest.entry)) }
{
    let Some(rest) = rest else {
        return Ok(Some(Key::List(identity)));
    };
    let (first, behind) = cut(rest);
    let Some(behind) = behind else {
        return last_key(alloc, identity, first);
    };
    match cut(behind) {
        (file, None) => file_key(alloc, identity, first, file),
        (_, Some(_)) => Ok(None),
    }
}

// An archive where the path ends in `.zip`, or else the release.
fn last_key(alloc: Global, identity: Identity, last: &str) -> Result<Option<Key>, NoMemory>
    ensures { IfOk result (λ key. key ≡ last_key identity last.now) }
{
    match last.strip_suffix(".zip") {
        Some(version) => match release_of(alloc, version)? {
            Some(release) => Ok(Some(Key::Archive(identity, release))),
            None => Ok(None),
        },
        None => match release_of(alloc, last)? {
            Some(release) => Ok(Some(Key::Release(identity, release))),
            None => Ok(None),
        },
    }
}

// A manifest where the file is `Package.json`.
fn file_key(
    alloc: Global,
    identity: Identity,
    version: &str,
    file: &str,
) -> Result<Option<Key>, NoMemory>
    ensures { IfOk result (λ key. key ≡ file_key identity version.now file.now) }
{
    if file != "Package.json" {
        return Ok(None);
    }
    match release_of(alloc, version)? {
        Some(release) => Ok(Some(Key::Manifest(identity, release))),
        None => Ok(None),
    }
}
