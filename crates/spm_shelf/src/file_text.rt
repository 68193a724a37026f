// Writing a shelf's file.
ghost use Rattle.std.specs.Prelude.{◌≡◌, IfOk, OnOk, codes, map, option_map};
ghost use Rattle.serde_json.specs.Data.{member, no_members, object, string};
ghost use Rattle.serde_json.specs.View.{view};
ghost use Rattle.spm_shelf.specs.ShelfText.{checksum_data, hex_data, package_pair, release_data, release_pair, url_pair};
ghost use Rattle.spm_json.specs.Written.{object_with, put_present};

use crate::archive::Archive;
use crate::checksum::Checksum;
use crate::file::{ShelfPackage, ShelfRelease, ShelfUrl};
use serde_json::{Value, json};
use spm_digest::hex_of;
use spm_json::{WrittenObject, identities_value};
use spm_version::{NoMemory, Text};
use std::alloc::{AllocError, Global};

// The whole file.
pub(crate) fn shelf_value(
    alloc: Global,
    packages: &[ShelfPackage],
    urls: &[ShelfUrl],
) -> Result<Value, NoMemory>
    ensures { IfOk result (λ value. view value
        ≡ object (member (codes "packages") (object_with (map package_pair packages.now))
        (member (codes "urls") (object_with (map url_pair urls.now)) no_members))) }
{
    let packages = packages_value(alloc, packages)?;
    let urls = urls_value(alloc, urls)?;
    let value = file_value(alloc, packages, urls)?;
    Ok(value)
}

// The whole file, of its packages and URLs.
fn file_value(alloc: Global, packages: Value, urls: Value) -> Result<Value, AllocError>
    ensures { IfOk result (λ value. view value
        ≡ object (member (codes "packages") (view packages) (member (codes "urls") (view urls) no_members))) }
{
    json!(in alloc; {"packages": packages, "urls": urls})
}

// The object `packages`.
fn packages_value(alloc: Global, packages: &[ShelfPackage]) -> Result<Value, NoMemory>
    ensures { IfOk result (λ value. view value ≡ object_with (map package_pair packages.now)) }
{
    let mut object = WrittenObject::new(alloc);
    for package in packages {
        let releases = releases_value(alloc, package.releases.as_slice())?;
        object.put(alloc, package.identity.text(), releases)?;
    }
    Ok(object.into_value())
}

// The releases of a package.
fn releases_value(alloc: Global, releases: &[ShelfRelease]) -> Result<Value, NoMemory>
    ensures { IfOk result (λ value. view value ≡ object_with (map release_pair releases.now)) }
{
    let mut object = WrittenObject::new(alloc);
    for release in releases {
        let version = release.release.text(alloc)?;
        object.put(alloc, version.as_str(), release_value(alloc, release)?)?;
    }
    Ok(object.into_value())
}

// A release.
fn release_value(alloc: Global, release: &ShelfRelease) -> Result<Value, NoMemory>
    ensures { IfOk result (λ value. view value ≡ release_data release.now) }
{
    let archive = archive_value(alloc, &release.archive)?;
    let checksum = checksum_value(alloc, &release.checksum)?;
    let manifest = text_value(alloc, &release.manifest)?;
    let problem = text_value(alloc, &release.problem)?;
    let mut object = WrittenObject::new(alloc);
    put_present(&mut object, alloc, "archive", archive)?;
    put_present(&mut object, alloc, "checksum", checksum)?;
    put_present(&mut object, alloc, "manifest", manifest)?;
    put_present(&mut object, alloc, "problem", problem)?;
    Ok(object.into_value())
}

// Puts a member that may be absent.
fn put_present(
    object: &mut WrittenObject,
    alloc: Global,
    key: &str,
    value: Option<Value>,
) -> Result<(), NoMemory>
    ensures { OnOk result (object.new ≡ put_present key.now (option_map view value) object.old) }
{
    match value {
        Some(value) => object.put(alloc, key, value),
        None => Ok(()),
    }
}

// An archive, if there is one, in hexadecimal.
fn archive_value(alloc: Global, archive: &Option<Archive>) -> Result<Option<Value>, NoMemory>
    ensures { IfOk result (λ value. option_map view value ≡ option_map hex_data archive.now) }
{
    match archive {
        Some(archive) => Ok(Some(Value::String(hex::encode(alloc, archive.bytes())?))),
        None => Ok(None),
    }
}

// A sum, if there is one, in hexadecimal.
fn checksum_value(alloc: Global, checksum: &Option<Checksum>) -> Result<Option<Value>, NoMemory>
    ensures { IfOk result (λ value. option_map view value ≡ option_map checksum_data checksum.now) }
{
    match checksum {
        Some(checksum) => Ok(Some(Value::String(hex_of(alloc, &checksum.sum)?.into_string()))),
        None => Ok(None),
    }
}

// A text, if there is one.
fn text_value(alloc: Global, text: &Option<Text>) -> Result<Option<Value>, NoMemory>
    ensures { IfOk result (λ value. option_map view value ≡ option_map string text.now) }
{
    match text {
        Some(text) => Ok(Some(Value::String(String::from_str(alloc, text.as_str())?))),
        None => Ok(None),
    }
}

// The object `urls`.
fn urls_value(alloc: Global, urls: &[ShelfUrl]) -> Result<Value, NoMemory>
    ensures { IfOk result (λ value. view value ≡ object_with (map url_pair urls.now)) }
{
    let mut object = WrittenObject::new(alloc);
    for url in urls {
        let identities = identities_value(alloc, url.identities.as_slice())?;
        object.put(alloc, url.url.as_str(), identities)?;
    }
    Ok(object.into_value())
}
