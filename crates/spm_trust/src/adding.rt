// Where packages and sums stand, and where new ones belong.
ghost use Rattle.std.specs.Prelude.{◌≡◌, ◌≤◌, length, insert, IfErr, IfOk, OnErr, OnOk};
ghost use Rattle.std.specs.List.{HoldsAt};
ghost use Rattle.std.specs.List.Sorted.{IsPartitionPoint, IsSearchInRange};
ghost use Rattle.spm_trust.specs.Adding.{AddsAt, beside};
ghost use Rattle.spm_trust.specs.Trust.{AreAscending, added_sum, package_with, sum_in};

use crate::file::{KeptPackage, KeptSum};
use spm_ident::Identity;
use spm_version::{Items, NoMemory, Release};
use std::alloc::Global;
use std::cmp::Ordering;
use std::mem;

// Where the package with this identity stands, or where it belongs.
pub(crate) fn place_of(packages: &[KeptPackage], identity: &Identity) -> Result<usize, usize>
    requires { AreAscending packages.now }
    ensures range { IsSearchInRange result (length packages.now) }
    ensures found { IfOk result (HoldsAt (λ entry. beside identity.now entry ≡ Ordering.Equal) packages.now) }
    // Those before the place are less, and those from it on greater.
    ensures missed { IfErr result (IsPartitionPoint (λ entry. beside identity.now entry ≡ Ordering.Less)
        (λ entry. beside identity.now entry ≡ Ordering.Greater) packages.now) }
{
    packages.binary_search_by(|entry| entry.identity.cmp(identity))
}

// The first sum of this version.
pub(crate) fn sum_in(sums: &[KeptSum], release: &Release) -> Option<[u8; 32]>
    ensures { result ≡ sum_in release.now sums.now }
{
    for kept in sums {
        if kept.release.has_text(release) {
            return Some(kept.sum);
        }
    }
    None
}

// A package with one sum.
pub(crate) fn package_with(
    alloc: Global,
    identity: &Identity,
    release: &Release,
    sum: [u8; 32],
) -> Result<KeptPackage, NoMemory>
    ensures { IfOk result (λ entry. entry ≡ package_with identity.now release.now sum) }
{
    let identity = identity.copy(alloc)?;
    let release = release.copy(alloc)?;
    let mut sums = Items::new(alloc);
    sums.push(KeptSum { release, sum })?;
    Ok(KeptPackage { identity, sums })
}

// Puts the sum of a version in its place, unless one is kept for it.
pub(crate) fn add_sum(
    alloc: Global,
    sums: &mut Items<KeptSum>,
    release: &Release,
    sum: [u8; 32],
) -> Result<(), NoMemory>
    ensures ok { OnOk result (sums.new ≡ added_sum release.now sum sums.old) }
    ensures err { OnErr result (sums.new ≡ sums.old) }
{
    match sum_place(alloc, sums.as_slice(), release)? {
        Some(place) => {
            let release = release.copy(alloc)?;
            insert_sum(alloc, sums, place, KeptSum { release, sum })
        }
        None => Ok(()),
    }
}

// Where the sum of a version belongs, unless one is kept for it.
fn sum_place(alloc: Global, sums: &[KeptSum], release: &Release) -> Result<Option<usize>, NoMemory>
    ensures { IfOk result (λ place. AddsAt place release.now sums.now) }
{
    let text = release.text(alloc)?;
    for (place, kept) in sums.iter().enumerate() {
        match text.cmp(&kept.release.text(alloc)?) {
            Ordering::Less => return Ok(Some(place)),
            Ordering::Equal => return Ok(None),
            Ordering::Greater => {}
        }
    }
    Ok(Some(sums.len()))
}

// Puts a sum at this place, or drops it where memory runs out.
fn insert_sum(
    alloc: Global,
    sums: &mut Items<KeptSum>,
    place: usize,
    kept: KeptSum,
) -> Result<(), NoMemory>
    requires { place ≤ length sums.old }
    ensures ok { OnOk result (sums.new ≡ insert sums.old place kept) }
    ensures err { OnErr result (sums.new ≡ sums.old) }
{
    let mut all = mem::replace(sums, Items::new(alloc)).into_vec();
    let inserted = all.insert(place, kept);
    *sums = Items::from_vec(all);
    inserted?;
    Ok(())
}
