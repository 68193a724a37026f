// Whether packages and URLs stand as a shelf has them.
ghost use Rattle.std.specs.Prelude.{◌↔◌, All, IfOk, IsTrue};
ghost use Rattle.spm_shelf.specs.Shelf.{AreAscending, AreReleases, AreUrls, IsComplete, IsShelf};

use crate::file::{ShelfPackage, ShelfRelease, ShelfUrl};
use spm_version::NoMemory;
use std::alloc::Global;

// Whether they are a shelf.
pub(crate) fn is_shelf(
    alloc: Global,
    packages: &[ShelfPackage],
    urls: &[ShelfUrl],
) -> Result<bool, NoMemory>
    ensures { IfOk result (λ answer. IsTrue answer ↔ IsShelf (record { packages = packages.now; urls = urls.now })) }
{
    if !are_ascending(packages) || !are_urls(urls) {
        return Ok(false);
    }
    have_releases(alloc, packages)
}

// Whether the identities ascend strictly.
fn are_ascending(packages: &[ShelfPackage]) -> bool
    ensures { IsTrue result ↔ AreAscending packages.now }
{
    packages.is_sorted_by(|first, second| first.identity < second.identity)
}

// Whether the URLs ascend strictly.
fn are_urls(urls: &[ShelfUrl]) -> bool
    ensures { IsTrue result ↔ AreUrls urls.now }
{
    urls.is_sorted_by(|first, second| first.url < second.url)
}

// Whether each package has its releases as a shelf has them.
fn have_releases(alloc: Global, packages: &[ShelfPackage]) -> Result<bool, NoMemory>
    ensures { IfOk result (λ answer. IsTrue answer ↔ All (λ entry. AreReleases entry.releases) packages.now) }
{
    for entry in packages {
        if !are_releases(alloc, entry.releases.as_slice())? {
            return Ok(false);
        }
    }
    Ok(true)
}

// Whether these are releases as a package of a shelf has them.
fn are_releases(alloc: Global, releases: &[ShelfRelease]) -> Result<bool, NoMemory>
    ensures { IfOk result (λ answer. IsTrue answer ↔ AreReleases releases.now) }
{
    let mut texts = Vec::with_capacity(alloc, releases.len())?;
    for release in releases {
        if !is_complete(release) {
            return Ok(false);
        }
        texts.push(release.release.text(alloc)?)?;
    }
    Ok(texts.is_sorted_by(|first, second| first < second))
}

// Whether a release without a problem has its manifest and its archive.
fn is_complete(release: &ShelfRelease) -> bool
    ensures { IsTrue result ↔ IsComplete release.now }
{
    release.problem.is_some() || (release.manifest.is_some() && release.archive.is_some())
}
