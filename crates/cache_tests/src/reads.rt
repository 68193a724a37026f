ghost use Rattle.std.specs.Prelude.{◌≡◌, ◌&&◌, ◌==◌, IsTrue, Some, is_some};
ghost use Rattle.spm_cache_core.specs.History.{
  begins,
  begun,
  failed,
  fails,
  flies,
  flight,
  has_cancelled,
  has_ended,
  is_cancel,
  is_end,
  landings,
  lands,
  last_begin,
};
ghost use Rattle.spm_cache_core.specs.Legal.{IsFlight};

use spm_cache_core::{Act, AskNote, ClaimNote, Event, Ticket};
use spm_key::Key;

fn begins(act: &Act, key: &Key) -> bool
    ensures { result ≡ begins key.now act.now }
{
    match act {
        Act::Ask(other, AskNote::Fetch) => other == key,
        Act::Claim(ClaimNote::Fetch(other)) => other == key,
        _ => false,
    }
}

fn fails(act: &Act, key: &Key) -> bool
    ensures { result ≡ fails key.now act.now }
{
    match act {
        Act::Fail(other, _) => other == key,
        _ => false,
    }
}

fn lands(act: &Act, key: &Key) -> bool
    ensures { result ≡ is_some (lands key.now act.now) }
{
    match act {
        Act::Land(other, _) => other == key,
        _ => false,
    }
}

fn is_end(event: &Event, actor: u32) -> bool
    ensures { result ≡ (is_end event.now.act && event.now.actor == actor) }
{
    match &event.act {
        Act::End => event.actor == actor,
        _ => false,
    }
}

fn is_cancel(event: &Event, actor: u32) -> bool
    ensures { result ≡ (is_cancel event.now.act && event.now.actor == actor) }
{
    match &event.act {
        Act::Cancel => event.actor == actor,
        _ => false,
    }
}

/// Whether the actor has ended.
pub fn has_ended(history: &[Event], actor: u32) -> bool
    ensures { result ≡ has_ended actor history.now }
{
    history.iter().any(|event| is_end(event, actor))
}

/// Whether the actor has cancelled.
pub fn has_cancelled(history: &[Event], actor: u32) -> bool
    ensures { result ≡ has_cancelled actor history.now }
{
    history.iter().any(|event| is_cancel(event, actor))
}

fn begun(history: &[Event], key: &Key) -> usize
    ensures { result ≡ begun key.now history.now }
{
    history
        .iter()
        .filter(|event| begins(&event.act, key))
        .count()
}

fn failed(history: &[Event], key: &Key) -> usize
    ensures { result ≡ failed key.now history.now }
{
    history
        .iter()
        .filter(|event| fails(&event.act, key))
        .count()
}

fn landings(history: &[Event], key: &Key) -> usize
    ensures { result ≡ landings key.now history.now }
{
    history
        .iter()
        .filter(|event| lands(&event.act, key))
        .count()
}

fn last_begin(history: &[Event], key: &Key) -> Option<(usize, u32)>
    ensures { result ≡ last_begin key.now history.now }
{
    let mut found = None;
    for (place, event) in history.iter().enumerate() {
        if begins(&event.act, key) {
            found = Some((place, event.actor));
        }
    }
    found
}

fn flies(history: &[Event], key: &Key) -> bool
    ensures { result ≡ flies key.now history.now }
{
    let (begun, failed) = (begun(history, key), failed(history, key));
    begun > failed && begun - failed > landings(history, key)
}

fn flight(history: &[Event], key: &Key) -> Option<(usize, u32)>
    ensures { result ≡ flight key.now history.now }
{
    if flies(history, key) {
        last_begin(history, key)
    } else {
        None
    }
}

// Whether the flight has this number and this actor.
fn is_same(flight: Option<(usize, u32)>, number: u64, actor: u32) -> bool
    ensures { IsTrue result → flight ≡ Some (number, actor) }
{
    match flight {
        Some((place, by)) => place as u64 == number && by == actor,
        None => false,
    }
}

/// Whether the ticket is that of its key's open flight.
pub fn is_flight(history: &[Event], ticket: &Ticket) -> bool
    ensures { IsTrue result → IsFlight history.now ticket.now }
{
    is_same(
        flight(history, ticket.key()),
        ticket.number(),
        ticket.actor(),
    )
}
