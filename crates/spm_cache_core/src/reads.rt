ghost use Rattle.std.specs.List.{list_all};
ghost use Rattle.std.specs.Prelude.{◌≡◌, ◌≤◌, IfOk, IfSome, IsSome, Some, false, filter, length, not, slice_get, take, true};
ghost use Rattle.spm_cache_core.specs.Cells.{cell_at, was_begun};
ghost use Rattle.spm_cache_core.specs.State.{reply_in};

use crate::cells::Cells;
use crate::event::{Act, Event};
use crate::reply::SharedReply;
use spm_key::Key;
use spm_version::NoMemory;
use std::alloc::Global;

// The place, from `next` on, of the first key that was never begun; if there is none, how many keys there are.
pub(crate) fn first_free(cells: &Cells, queue: &[Key], next: usize) -> usize
    requires within { next ≤ length queue.now }
    requires passed { list_all (λ key. was_begun (cell_at cells.now key)) (take next queue.now) ≡ true }
    ensures within { result ≤ length queue.now }
    ensures passed { list_all (λ key. was_begun (cell_at cells.now key)) (take result queue.now) ≡ true }
    ensures free { IfSome (slice_get queue.now result) (λ key. was_begun (cell_at cells.now key) ≡ false) }
{
    let mut place = next;
    while place < queue.len() && cells.was_begun(&queue[place]) {
        place += 1;
    }
    place
}

// The reply that landed at this place.
pub(crate) fn reply_at(history: &[Event], place: usize) -> &SharedReply
    requires { IsSome (reply_in (slice_get history.now place)) }
    ensures { reply_in (slice_get history.now place) ≡ Some result.now }
{
    match &history[place].act {
        Act::Land(_, reply) => reply,
        _ => unreachable!(),
    }
}

// Copies of the keys.
pub(crate) fn copies(alloc: Global, keys: &[Key]) -> Result<Vec<Key>, NoMemory>
    ensures { IfOk result (λ made. made.items ≡ keys.now) }
{
    let mut made = Vec::with_capacity(alloc, keys.len())?;
    for key in keys {
        made.push(key.copy(alloc)?)?;
    }
    Ok(made)
}

// Copies of those of the keys that were never begun.
pub(crate) fn unbegun(alloc: Global, cells: &Cells, keys: &[Key]) -> Result<Vec<Key>, NoMemory>
    ensures { IfOk result (λ made. made.items ≡ filter (λ key. not (was_begun (cell_at cells.now key))) keys.now) }
{
    let mut made = Vec::new(alloc);
    for key in keys {
        if !cells.was_begun(key) {
            made.push(key.copy(alloc)?)?;
        }
    }
    Ok(made)
}
