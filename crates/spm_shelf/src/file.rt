ghost use Rattle.std.specs.Str.{bytes_eq};
ghost use Rattle.std.specs.Prelude.{◌≡◌, ◌||◌, ℕ, List, IfOk};
ghost use Rattle.serde_json.specs.View.{view};
ghost use Rattle.spm_json.specs.Names.{has_name};
ghost use Rattle.spm_json.specs.Object.{data_of};
ghost use Rattle.spm_json.specs.Reading.{Gives};
ghost use Rattle.spm_json.specs.Shape.{text_of};
ghost use Rattle.spm_shelf.specs.File.{
  file_reading,
  packages_reading,
  release_member,
  shelf_of,
  unless_problem,
  url_member,
  urls_in,
  urls_reading,
};
ghost use Rattle.spm_shelf.specs.NewPackage.{package_unless};
ghost use Rattle.spm_shelf.specs.Shelf.{AreReleases};

use crate::archive::Archive;
use crate::checksum::Checksum;
use serde_json::Value;
use spm_ident::Identity;
use spm_json::{
    FromJson, FromMember, Names, Object, ReadFault, identity, items, members, read_whole, release,
};
use spm_version::{Duplicate, Items, Kind, NoMemory, Release, Text};
use std::alloc::Global;
use std::marker::Model;

/// A release on a shelf. Where it has no problem, its manifest and its archive are there.
#[derive(Debug, Drop)]
pub struct ShelfRelease {
    pub release: Release,
    /// Why the release can't be used.
    pub problem: Option<Text>,
    /// The bytes of its manifest dump.
    pub manifest: Option<Text>,
    pub archive: Option<Archive>,
    /// The sum that the registry says in place of the archive's own.
    pub checksum: Option<Checksum>,
}

impl ShelfRelease {
    /// A copy of the release.
    ///
    /// # Errors
    ///
    /// `NoMemory` alone.
    pub fn copy(&self, alloc: Global) -> Result<ShelfRelease, NoMemory>
        ensures { IfOk result (λ copy. copy ≡ self.now) }
    {
        Ok(ShelfRelease {
            release: self.release.copy(alloc)?,
            problem: copy_some(alloc, &self.problem)?,
            manifest: copy_some(alloc, &self.manifest)?,
            archive: copy_some(alloc, &self.archive)?,
            checksum: self.checksum,
        })
    }
}

impl Duplicate for ShelfRelease {
    fn duplicate(&self, alloc: Global) -> Result<ShelfRelease, NoMemory> {
        self.copy(alloc)
    }
}

// A copy of what may be absent.
fn copy_some<T: Duplicate + Drop>(alloc: Global, some: &Option<T>) -> Result<Option<T>, NoMemory>
    ensures { IfOk result (λ copy. copy ≡ some.now) }
{
    match some {
        Some(x) => Ok(Some(x.duplicate(alloc)?)),
        None => Ok(None),
    }
}

// The manifest of a release, or its archive: it may be absent only where the release has a problem.
fn unless_problem_of<T: FromJson + Drop>(
    object: &Object,
    key: &str,
    problem: &Option<Text>,
) -> Result<Option<T>, ReadFault>
    ensures { Gives result (unless_problem T.reading key.now problem.now (data_of object.now)) }
{
    match problem {
        Some(_) => object.optional_field(key),
        None => {
            let x = object.needed_field(key)?;
            Ok(Some(x))
        }
    }
}

impl FromMember for ShelfRelease {
    ghost reading = { release_member };

    fn from_member(
        alloc: Global,
        earlier: &[ShelfRelease],
        key: &str,
        value: &Value,
    ) -> Result<ShelfRelease, ReadFault> {
        let release = release(alloc, key)?;
        let object = Object::of(alloc, value)?;
        let problem: Option<Text> = object.optional_field("problem")?;
        let manifest: Option<Text> = unless_problem_of(&object, "manifest", &problem)?;
        let archive: Option<Archive> = unless_problem_of(&object, "archive", &problem)?;
        let checksum: Option<Checksum> = object.optional_field("checksum")?;
        Ok(ShelfRelease {
            release,
            problem,
            manifest,
            archive,
            checksum,
        })
    }
}

/// A package on a shelf, with its releases in the byte order of their texts.
#[derive(Debug, Drop)]
pub struct ShelfPackage {
    pub identity: Identity,
    pub releases: Items<ShelfRelease>,
}

impl ShelfPackage {
    /// A copy of the package.
    ///
    /// # Errors
    ///
    /// `NoMemory` alone.
    pub fn copy(&self, alloc: Global) -> Result<ShelfPackage, NoMemory>
        ensures { IfOk result (λ copy. copy ≡ self.now) }
    {
        Ok(ShelfPackage {
            identity: self.identity.copy(alloc)?,
            releases: self.releases.copy(alloc)?,
        })
    }
}

impl Duplicate for ShelfPackage {
    fn duplicate(&self, alloc: Global) -> Result<ShelfPackage, NoMemory> {
        self.copy(alloc)
    }
}

/// The object `packages`. Contracts see it as its packages, of which each has its releases as a shelf has them.
#[derive(Drop)]
pub struct Packages {
    pub packages: Items<ShelfPackage>,
}

impl Model for Packages {
    ghost use Rattle.std.specs.Prelude.{All, List};
    ghost use Rattle.spm_shelf.specs.Shelf.{AreReleases};
    ghost use Rattle.spm_shelf.specs.declared.file.ShelfPackage.{ShelfPackage};

    ghost Value = { List ShelfPackage };

    ghost view = { λ read. read.packages };

    ghost invariant = { λ read. All (λ entry. AreReleases entry.releases) read.packages };
}

impl FromJson for Packages {
    ghost reading = { packages_reading };

    fn from_json(alloc: Global, value: &Value) -> Result<Packages, ReadFault> {
        let Some(object) = value.as_object() else {
            return Err(ReadFault::here(alloc, Kind::WrongKind));
        };
        let mut met = Names::new(alloc);
        let mut packages = Vec::new(alloc);
        for (key, releases) in object {
            match new_package(alloc, &mut met, key.as_str(), releases) {
                Ok(entry) => packages.push(entry)?,
                Err(fault) => return Err(fault.under_foreign_key(alloc)),
            }
        }
        Ok(Packages {
            packages: Items::from_vec(packages),
        })
    }
}

// A package whose identity wasn't met before, and is met now.
fn new_package(
    alloc: Global,
    met: &mut Names,
    key: &str,
    value: &Value,
) -> Result<ShelfPackage, ReadFault>
    ensures entry { Gives result (package_unless (has_name met.old) key.now (view value.now)) }
    ensures met { IfOk result (λ entry. (other : List ℕ)
        → has_name met.new other ≡ (bytes_eq entry.identity other || has_name met.old other)) }
    ensures releases { IfOk result (λ entry. AreReleases entry.releases) }
{
    let identity = identity(alloc, key)?;
    if !met.insert(alloc, identity.text())? {
        return Err(ReadFault::here(alloc, Kind::Doubled));
    }
    let releases = members(alloc, value)?;
    Ok(ShelfPackage { identity, releases })
}

/// A source-control URL with the identities that the registry knows for it.
#[derive(Debug, Drop)]
pub struct ShelfUrl {
    pub url: Text,
    pub identities: Items<Identity>,
}

impl ShelfUrl {
    /// A copy of the URL with its identities.
    ///
    /// # Errors
    ///
    /// `NoMemory` alone.
    pub fn copy(&self, alloc: Global) -> Result<ShelfUrl, NoMemory>
        ensures { IfOk result (λ copy. copy ≡ self.now) }
    {
        Ok(ShelfUrl {
            url: self.url.copy(alloc)?,
            identities: copy_identities(alloc, self.identities.as_slice())?,
        })
    }
}

impl Duplicate for ShelfUrl {
    fn duplicate(&self, alloc: Global) -> Result<ShelfUrl, NoMemory> {
        self.copy(alloc)
    }
}

// A copy of these identities.
fn copy_identities(alloc: Global, identities: &[Identity]) -> Result<Items<Identity>, NoMemory>
    ensures { IfOk result (λ copy. copy ≡ identities.now) }
{
    let mut copy = Vec::with_capacity(alloc, identities.len())?;
    for identity in identities {
        copy.push(identity.copy(alloc)?)?;
    }
    Ok(Items::from_vec(copy))
}

impl FromMember for ShelfUrl {
    ghost reading = { url_member };

    fn from_member(
        alloc: Global,
        earlier: &[ShelfUrl],
        key: &str,
        value: &Value,
    ) -> Result<ShelfUrl, ReadFault> {
        let identities = items(alloc, value)?;
        let url = Text::from_str(alloc, key)?;
        Ok(ShelfUrl { url, identities })
    }
}

/// The object `urls`. Contracts see it as its URLs, which ascend by their bytes.
#[derive(Drop)]
pub struct Urls {
    pub urls: Items<ShelfUrl>,
}

impl Model for Urls {
    ghost use Rattle.std.specs.Prelude.{List};
    ghost use Rattle.spm_shelf.specs.Shelf.{AreUrls};
    ghost use Rattle.spm_shelf.specs.declared.file.ShelfUrl.{ShelfUrl};

    ghost Value = { List ShelfUrl };

    ghost view = { λ read. read.urls };

    ghost invariant = { λ read. AreUrls read.urls };
}

impl FromJson for Urls {
    ghost reading = { urls_reading };

    fn from_json(alloc: Global, value: &Value) -> Result<Urls, ReadFault> {
        let urls = members(alloc, value)?;
        Ok(Urls { urls })
    }
}

/// What a shelf file says: packages in the byte order of their keys in the file, and URLs in byte order.
#[derive(Debug, Drop)]
pub struct ShelfFile {
    pub packages: Items<ShelfPackage>,
    pub urls: Items<ShelfUrl>,
}

/// A file that was read, whose releases and URLs stand as a shelf has them. Contracts see it as the file.
#[derive(Drop)]
pub struct WholeFile {
    pub packages: Packages,
    pub urls: Urls,
}

impl Model for WholeFile {
    ghost use Rattle.spm_shelf.specs.declared.file.ShelfFile.{ShelfFile};

    ghost Value = { ShelfFile };

    ghost view = { λ read. record { packages = read.packages; urls = read.urls } };
}

// The URLs of a file, or none.
fn or_no_urls(alloc: Global, urls: Option<Urls>) -> Urls
    ensures { result ≡ urls_in urls }
{
    match urls {
        Some(urls) => urls,
        None => Urls {
            urls: Items::new(alloc),
        },
    }
}

impl FromJson for WholeFile {
    ghost reading = { file_reading };

    fn from_json(alloc: Global, value: &Value) -> Result<WholeFile, ReadFault> {
        let object = Object::of(alloc, value)?;
        let packages = object.field("packages")?;
        let urls: Option<Urls> = object.optional_field("urls")?;
        Ok(WholeFile {
            packages,
            urls: or_no_urls(alloc, urls),
        })
    }
}

impl ShelfFile {
    /// Reads a shelf file, with its packages and URLs in the byte order of their keys.
    ///
    /// # Errors
    ///
    /// The first fault in the reading order: its kind, and its place as a path from the document's root, which is `/`; and `Memory`.
    pub fn read(alloc: Global, bytes: &[u8]) -> Result<ShelfFile, ReadFault>
        ensures { Gives result (shelf_of bytes.now) }
    {
        let WholeFile { packages, urls } = read_whole(alloc, bytes)?;
        Ok(ShelfFile {
            packages: packages.packages,
            urls: urls.urls,
        })
    }

    /// A copy of the file.
    ///
    /// # Errors
    ///
    /// `NoMemory` alone.
    pub fn copy(&self, alloc: Global) -> Result<ShelfFile, NoMemory>
        ensures { IfOk result (λ copy. copy ≡ self.now) }
    {
        Ok(ShelfFile {
            packages: self.packages.copy(alloc)?,
            urls: self.urls.copy(alloc)?,
        })
    }
}
