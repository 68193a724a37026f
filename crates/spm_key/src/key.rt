ghost use Rattle.std.specs.Prelude.{◌≡◌, IfOk, Some, refl};
ghost use Rattle.std.specs.Cmp.{partial_equiv_from_equiv};
ghost use Rattle.std.specs.Option.{option_copied};
ghost use Rattle.spm_ident.specs.Identity.{IsIdentity};
ghost use Rattle.spm_key.specs.Key.{IsKey, IsText, key_text, package_path, query_path, release_path};
ghost use Rattle.spm_key.specs.KeyLaws.{
  identity_in,
  key_cmp,
  key_eq,
  key_equiv,
  key_po,
  key_ties,
  key_total,
  kind_of,
  release_in,
  url_in,
};

use percent_encoding::{AsciiSet, NON_ALPHANUMERIC, ascii_set, utf8_percent_encode};
use spm_ident::Identity;
use spm_version::{NoMemory, Release, Text};
use std::alloc::Global;
use std::cmp::Ordering;

/// What a registry can be asked.
#[derive(Debug, Drop)]
pub enum Key {
    /// The releases of a package.
    List(Identity),
    /// The manifest of a release.
    Manifest(Identity, Release),
    /// What the registry says of a release.
    Release(Identity, Release),
    /// The source archive of a release.
    Archive(Identity, Release),
    /// The identities of the package at a URL.
    Identifiers(Text),
}

/// The bytes of a URL that are escaped in a query: all but the unreserved ones (RFC 3986, section 2.3).
const ESCAPED: AsciiSet = ascii_set!(
    NON_ALPHANUMERIC
        .remove(b'-')
        .remove(b'.')
        .remove(b'_')
        .remove(b'~')
);

impl Key {
    /// The path of the key: `/scope/name`, `/scope/name/version/Package.json`, `/scope/name/version`, `/scope/name/version.zip` or
    /// `/identifiers?url=ENCODED` (SE-0292; the manifest's path is this project's own).
    ///
    /// # Errors
    ///
    /// `NoMemory` alone.
    pub fn text(&self, alloc: Global) -> Result<Text, NoMemory>
        ensures { IfOk result (λ text. text ≡ key_text self.now) }
    {
        match self {
            Key::List(identity) => package_path(alloc, identity),
            Key::Manifest(identity, release) => release_path(
                alloc,
                identity,
                release,
                "/Package.json",
            ),
            Key::Release(identity, release) => release_path(alloc, identity, release, ""),
            Key::Archive(identity, release) => release_path(alloc, identity, release, ".zip"),
            Key::Identifiers(url) => query_path(alloc, url.as_str()),
        }
    }

    /// A copy of the key.
    ///
    /// # Errors
    ///
    /// `NoMemory` alone.
    pub fn copy(&self, alloc: Global) -> Result<Key, NoMemory>
        ensures { IfOk result (λ key. key ≡ self.now) }
    {
        match self {
            Key::List(identity) => Ok(Key::List(identity.copy(alloc)?)),
            Key::Manifest(identity, release) => Ok(Key::Manifest(
                identity.copy(alloc)?,
                release.copy(alloc)?,
            )),
            Key::Release(identity, release) => Ok(Key::Release(
                identity.copy(alloc)?,
                release.copy(alloc)?,
            )),
            Key::Archive(identity, release) => Ok(Key::Archive(
                identity.copy(alloc)?,
                release.copy(alloc)?,
            )),
            Key::Identifiers(url) => Ok(Key::Identifiers(url.copy(alloc)?)),
        }
    }

    /// A law, with nothing to run: each key is one that can be.
    pub fn is_key(&self)
        ensures { IsKey self.now }
    {
        match self {
            Key::List(identity) => is_identity(identity),
            Key::Manifest(identity, release)
            | Key::Release(identity, release)
            | Key::Archive(identity, release) => {
                is_identity(identity);
                release.is_valid();
            }
            Key::Identifiers(url) => is_text(url.as_str()),
        }
    }

    // The place of its kind in the order.
    fn kind(&self) -> u8
        ensures { result ≡ kind_of self.now }
    {
        match self {
            Key::List(_) => 0,
            Key::Manifest(_, _) => 1,
            Key::Release(_, _) => 2,
            Key::Archive(_, _) => 3,
            Key::Identifiers(_) => 4,
        }
    }

    // The package that it asks for.
    fn identity(&self) -> Option<&Identity>
        ensures { option_copied result ≡ identity_in self.now }
    {
        match self {
            Key::List(identity)
            | Key::Manifest(identity, _)
            | Key::Release(identity, _)
            | Key::Archive(identity, _) => Some(identity),
            Key::Identifiers(_) => None,
        }
    }

    // The release that it asks for.
    fn release(&self) -> Option<&Release>
        ensures { option_copied result ≡ release_in self.now }
    {
        match self {
            Key::Manifest(_, release) | Key::Release(_, release) | Key::Archive(_, release) => {
                Some(release)
            }
            Key::List(_) | Key::Identifiers(_) => None,
        }
    }

    // The URL that it asks for.
    fn url(&self) -> Option<&Text>
        ensures { option_copied result ≡ url_in self.now }
    {
        match self {
            Key::Identifiers(url) => Some(url),
            Key::List(_) | Key::Manifest(_, _) | Key::Release(_, _) | Key::Archive(_, _) => None,
        }
    }
}

/// By the kind and the parts.
impl PartialEq for Key {
    ghost eq = { key_eq };

    ghost laws = { partial_equiv_from_equiv key_equiv };

    fn eq(&self, other: &Key) -> bool {
        self.kind() == other.kind()
            && self.identity() == other.identity()
            && self.release() == other.release()
            && self.url() == other.url()
    }
}

impl Eq for Key {
    ghost laws = { key_equiv };
}

impl PartialOrd for Key {
    ghost partial_cmp = { λ x y. Some (key_cmp x y) };

    ghost laws = { key_po };

    fn partial_cmp(&self, other: &Key) -> Option<Ordering> {
        Some(self.cmp(other))
    }
}

/// Lists first, then manifests, releases, archives and identifiers; among one kind by identity, release and URL.
impl Ord for Key {
    ghost cmp = { key_cmp };

    ghost total = { key_total };

    ghost matches_partial_cmp = { λ x y. refl };

    ghost matches_eq = { key_ties };

    fn cmp(&self, other: &Key) -> Ordering {
        let by_kind = self.kind().cmp(&other.kind());
        by_kind
            .then(self.identity().cmp(&other.identity()))
            .then(self.release().cmp(&other.release()))
            .then(self.url().cmp(&other.url()))
    }
}

// A law: each identity is one of the grammar.
fn is_identity(identity: &Identity)
    ensures { IsIdentity identity.now }
{
    identity.text();
}

// A law: each `str` is a text.
fn is_text(text: &str)
    ensures { IsText text.now }
{}

// `/scope/name`.
fn package_path(alloc: Global, identity: &Identity) -> Result<Text, NoMemory>
    ensures { IfOk result (λ text. text ≡ package_path identity.now) }
{
    let (scope, name) = (identity.scope(), identity.name());
    Ok(Text::from_string(format!(in alloc; "/{scope}/{name}")?))
}

/// The path of a release: `/scope/name/version`, and what ends it.
///
/// # Errors
///
/// `NoMemory` alone.
pub fn release_path(
    alloc: Global,
    identity: &Identity,
    release: &Release,
    ending: &str,
) -> Result<Text, NoMemory>
    ensures { IfOk result (λ text. text ≡ release_path identity.now release.now ending.now) }
{
    let (scope, name) = (identity.scope(), identity.name());
    Ok(Text::from_string(format!(in alloc; "/{scope}/{name}/{release}{ending}")?))
}

// `/identifiers?url=` and the URL, escaped.
fn query_path(alloc: Global, url: &str) -> Result<Text, NoMemory>
    ensures { IfOk result (λ text. text ≡ query_path url.now) }
{
    let mut text = String::from_str(alloc, "/identifiers?url=")?;
    utf8_percent_encode(url, ESCAPED).append_to(&mut text)?;
    Ok(Text::from_string(text))
}
