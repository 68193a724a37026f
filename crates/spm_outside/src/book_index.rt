// The order in which a book's entries are looked up: their places, sorted by authority and request.
ghost use Rattle.std.specs.Prelude.{◌≡◌, IfOk, Some, false, true};
ghost use Rattle.std.specs.Option.{option_cmp, option_copied, option_map};
ghost use Rattle.std.specs.List.{find, range_with_len};
ghost use Rattle.std.specs.List.Sorted.{IsPartitionPoint};
ghost use Rattle.spm_outside.specs.Book.{is_for};
ghost use Rattle.spm_outside.specs.BookOrder.{IsOrderOf, is_below, key_at, key_cmp, place_cmp};

use crate::book::{Authority, Entry};
use spm_version::NoMemory;
use std::alloc::Global;
use std::cmp::Ordering;

// The places of the entries, in the order of their authorities and requests. Among equal ones the first stands
// first.
pub(crate) fn places_in_order(alloc: Global, entries: &[Entry]) -> Result<Vec<usize>, NoMemory>
    ensures { IfOk result (λ places. IsOrderOf entries.now places.items) }
{
    let mut places = all_places(alloc, entries.len())?;
    places.sort_unstable_by(|first, second| compare_places(entries, *first, *second));
    Ok(places)
}

// The places below this one.
fn all_places(alloc: Global, count: usize) -> Result<Vec<usize>, NoMemory>
    ensures { IfOk result (λ places. places.items ≡ range_with_len 0 count) }
{
    Ok((0..count).collect(alloc)?)
}

// The first entry that is for this request at this authority.
pub(crate) fn first_entry<'a>(
    places: &[usize],
    entries: &'a [Entry],
    to: &Authority,
    request: &[u8],
) -> Option<&'a Entry>
    requires { IsOrderOf entries.now places.now }
    ensures { option_copied result ≡ find (is_for to.now request.now) entries.now }
{
    let place = *places.get(count_below(places, entries, to, request))?;
    let entry = entries.get(place)?;
    entry.is_for(to, request).then_some(entry)
}

// How many places stand before those of this authority and request.
fn count_below(places: &[usize], entries: &[Entry], to: &Authority, request: &[u8]) -> usize
    requires { IsOrderOf entries.now places.now }
    ensures { IsPartitionPoint (λ place. is_below entries.now to.now request.now place ≡ true)
        (λ place. is_below entries.now to.now request.now place ≡ false) places.now result }
{
    places.partition_point(|place| compare(entries, *place, to, request).is_lt())
}

// What the entry at this place is found by.
fn key(entries: &[Entry], place: usize) -> Option<(&Authority, &[u8])>
    ensures { option_map (λ key. (key.0.now, key.1.now)) result ≡ key_at entries.now place }
{
    let entry = entries.get(place)?;
    Some((&entry.to, entry.request.as_slice()))
}

// How the entry at this place stands to this authority and request.
fn compare(entries: &[Entry], place: usize, to: &Authority, request: &[u8]) -> Ordering
    ensures { result ≡ option_cmp key_cmp (key_at entries.now place) (Some (to.now, request.now)) }
{
    key(entries, place).cmp(&Some((to, request)))
}

// How the first place stands to the second: by the entries there, and else by the places.
fn compare_places(entries: &[Entry], first: usize, second: usize) -> Ordering
    ensures { result ≡ place_cmp entries.now first second }
{
    let by_key = key(entries, first).cmp(&key(entries, second));
    by_key.then(first.cmp(&second))
}
