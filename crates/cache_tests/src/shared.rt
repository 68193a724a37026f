//! The shared cache in threads: two sessions ask for the same keys, in no order or in one that is forced.
ghost use Rattle.std.specs.Prelude.{◌≡◌, [], ◌∷◌, IfOk};
ghost use Rattle.cache_tests.specs.Ready.{IsReady};
ghost use Rattle.spm_cache.specs.Passing.{newcomers};
ghost use Rattle.spm_cache_core.specs.Legal.{IsFlight};

use spm_cache::{Cache, Pass};
use spm_cache_core::{Act, AskNote, Asked, CacheState, Event, SharedReply, Ticket, Why};
use spm_key::{Body, Key, Reply};
use spm_version::{Bytes, NoMemory, Text};
use std::alloc::Global;
use std::sync::{Barrier, Wait};
use std::thread::{Threads, join};

// The body of each reply that lands.
const BODY: &[u8] = b"a reply";

// A reply with that body.
fn fetched(alloc: Global) -> Result<SharedReply, NoMemory> {
    let body = Body::Whole(Bytes::from_slice(alloc, BODY)?);
    SharedReply::new(alloc, Reply { status: 200, body })
}

// Lands a reply for the ticket.
#[tactic(auto, using(crate::proofs::Ready::own_number))]
fn fetch<R: Wait>(rt: &R, alloc: Global, cache: &Cache, pass: &mut Pass, ticket: Ticket)
    requires ready { IsReady cache.now.id pass.old }
    requires flight { IsFlight pass.old.seen ticket × (ticket.actor ≡ pass.old.actor) }
    ensures ready { IsReady cache.now.id pass.new }
    ensures actor { pass.new.actor ≡ pass.old.actor }
{
    match fetched(alloc) {
        Ok(reply) => cache.land(rt, pass, ticket, reply),
        Err(_) => cache.fail(rt, pass, ticket, Why::Memory),
    }
}

// Asks for the key until its reply is here. Its status.
fn obtain<R: Wait>(
    rt: &R,
    alloc: Global,
    cache: &Cache,
    pass: &mut Pass,
    key: &Key,
) -> Result<u16, NoMemory>
    requires ready { IsReady cache.now.id pass.old }
    ensures ready { IsReady cache.now.id pass.new }
    ensures actor { pass.new.actor ≡ pass.old.actor }
{
    for _ in rt.forever() {
        match cache.ask(rt, pass, key)? {
            Asked::Have(reply) => return Ok(reply.reply().status),
            Asked::Waiting => cache.rest(rt, pass),
            Asked::Fetch(ticket) => fetch(rt, alloc, cache, pass, ticket),
            Asked::Cancelled(_) => return Err(NoMemory),
        }
    }
    unreachable!()
}

// The key of a number.
fn numbered(alloc: Global, number: u32) -> Result<Key, NoMemory> {
    let url = format!(in alloc; "https://h/{number}")?;
    Ok(Key::Identifiers(Text::from_str(alloc, url.as_str())?))
}

// Asks for a hundred keys, and gives the pass back.
fn obtain_all<R: Wait>(
    rt: &R,
    alloc: Global,
    cache: &Cache,
    mut pass: Pass,
) -> Result<Pass, NoMemory>
    requires ready { IsReady cache.now.id pass }
    ensures ready { IfOk result (λ p. IsReady cache.now.id p × (p.actor ≡ pass.actor)) }
{
    for number in 0..100 {
        let key = numbered(alloc, number)?;
        obtain(rt, alloc, cache, &mut pass, &key)?;
    }
    Ok(pass)
}

// The state of a cache of two sessions.
fn finish(cache: Cache, first: Pass, second: Pass) -> CacheState
    requires cache { cache.numbers ≡ 2 }
    requires first { IsReady cache.id first × (first.actor ≡ 0) }
    requires second { IsReady cache.id second × (second.actor ≡ 1) }
{
    let pass = cache.meet(first, second);
    cache.close(pass)
}

// Two sessions ask for the same keys, each in its thread.
fn both_ask<R: Threads + Wait + Sync>(
    rt: &R,
    alloc: Global,
    cache: Cache,
    first: Pass,
    second: Pass,
) -> Result<CacheState, NoMemory>
    requires cache { cache.numbers ≡ 2 }
    requires first { IsReady cache.id first × (first.actor ≡ 0) }
    requires second { IsReady cache.id second × (second.actor ≡ 1) }
{
    let shared = &cache;
    let (first, second) = join(
        rt,
        move || -> Result<Pass, NoMemory>
            requires { IsReady shared.now.id first × (first.actor ≡ 0) }
            ensures { IfOk result (λ p. IsReady shared.entry.now.id p × (p.actor ≡ 0)) }
        { obtain_all(rt, alloc, shared, first) },
        move || -> Result<Pass, NoMemory>
            requires { IsReady shared.now.id second × (second.actor ≡ 1) }
            ensures { IfOk result (λ p. IsReady shared.entry.now.id p × (p.actor ≡ 1)) }
        { obtain_all(rt, alloc, shared, second) },
    );
    Ok(finish(cache, first?, second?))
}

// The same, with the passes of a cache that was opened for two sessions.
fn two_ask<R: Threads + Wait + Sync>(
    rt: &R,
    alloc: Global,
    cache: Cache,
    mut passes: Vec<Pass>,
) -> Result<CacheState, NoMemory>
    requires cache { cache.numbers ≡ 2 }
    requires passes { passes.items ≡ newcomers cache.id 2 0 }
{
    let Some(second) = passes.pop() else {
        return Err(NoMemory);
    };
    let Some(first) = passes.pop() else {
        return Err(NoMemory);
    };
    both_ask(rt, alloc, cache, first, second)
}

// The first of two sessions fetches a key and fails, and the second asks until it has the reply.
#[tactic(auto, using(crate::proofs::Ready::own_number))]
fn one_fails<R: Wait>(
    rt: &R,
    alloc: Global,
    cache: Cache,
    mut passes: Vec<Pass>,
) -> Result<CacheState, NoMemory>
    requires cache { cache.numbers ≡ 2 }
    requires passes { passes.items ≡ newcomers cache.id 2 0 }
{
    let key = numbered(alloc, 7)?;
    let Some(mut second) = passes.pop() else {
        return Err(NoMemory);
    };
    let Some(mut first) = passes.pop() else {
        return Err(NoMemory);
    };
    match cache.ask(rt, &mut first, &key)? {
        Asked::Fetch(ticket) => cache.fail(rt, &mut first, ticket, Why::Link),
        Asked::Have(_) | Asked::Waiting | Asked::Cancelled(_) => return Err(NoMemory),
    }
    obtain(rt, alloc, &cache, &mut second, &key)?;
    Ok(finish(cache, first, second))
}

// What a session was told.
#[derive(Drop)]
enum Told {
    // Another fetches the key.
    Waiting,
    // The reply.
    Have(SharedReply),
    // Something else.
    Other,
}

// Asks for the key once. What it is then given to fetch fails.
#[tactic(auto, using(crate::proofs::Ready::own_number))]
fn ask_once<R: Wait>(rt: &R, cache: &Cache, pass: &mut Pass, key: &Key) -> Result<Told, NoMemory>
    requires ready { IsReady cache.now.id pass.old }
    ensures ready { IsReady cache.now.id pass.new }
{
    match cache.ask(rt, pass, key)? {
        Asked::Have(reply) => Ok(Told::Have(reply)),
        Asked::Waiting => Ok(Told::Waiting),
        Asked::Fetch(ticket) => {
            cache.fail(rt, pass, ticket, Why::Link);
            Ok(Told::Other)
        }
        Asked::Cancelled(_) => Ok(Told::Other),
    }
}

// Asks first, and lands its reply once the other has asked too. The two meet when this one has asked, and when the other has.
#[tactic(auto, using(crate::proofs::Ready::own_number))]
fn fetch_first<R: Wait>(
    rt: &R,
    alloc: Global,
    cache: &Cache,
    mut pass: Pass,
    key: &Key,
    meetings: &Barrier,
) -> Result<(), NoMemory>
    requires ready { IsReady cache.now.id pass }
{
    let asked = cache.ask(rt, &mut pass, key);
    meetings.wait(rt);
    meetings.wait(rt);
    match asked? {
        Asked::Fetch(ticket) => fetch(rt, alloc, cache, &mut pass, ticket),
        Asked::Have(_) | Asked::Waiting | Asked::Cancelled(_) => return Err(NoMemory),
    }
    Ok(())
}

// Asks once the other has asked, rests where it is told to wait, and asks again. What it was told, both times.
fn ask_second<R: Wait>(
    rt: &R,
    cache: &Cache,
    mut pass: Pass,
    key: &Key,
    meetings: &Barrier,
) -> Result<(Told, Told), NoMemory>
    requires ready { IsReady cache.now.id pass }
{
    meetings.wait(rt);
    let told = ask_once(rt, cache, &mut pass, key);
    meetings.wait(rt);
    let told = told?;
    if matches!(&told, Told::Waiting) {
        cache.rest(rt, &mut pass);
    }
    let again = ask_once(rt, cache, &mut pass, key)?;
    Ok((told, again))
}

// One session fetches a key, and the other asks for it meanwhile. What the other was told.
fn one_waits<R: Threads + Wait + Sync>(
    rt: &R,
    alloc: Global,
    cache: &Cache,
    mut passes: Vec<Pass>,
) -> Result<(Told, Told), NoMemory>
    requires passes { passes.items ≡ newcomers cache.now.id 2 0 }
{
    let key = numbered(alloc, 7)?;
    let meetings = Barrier::new(2);
    let Some(second) = passes.pop() else {
        return Err(NoMemory);
    };
    let Some(first) = passes.pop() else {
        return Err(NoMemory);
    };
    let (key, meetings) = (&key, &meetings);
    let (landed, told) = join(
        rt,
        move || -> Result<(), NoMemory>
            requires { IsReady cache.now.id first }
        { fetch_first(rt, alloc, cache, first, key, meetings) },
        move || -> Result<(Told, Told), NoMemory>
            requires { IsReady cache.now.id second }
        { ask_second(rt, cache, second, key, meetings) },
    );
    landed?;
    told
}

// Whether the other was told to wait, and then had the reply with its body.
fn waited(told: &(Told, Told)) -> bool {
    match told {
        (Told::Waiting, Told::Have(reply)) => match &reply.reply().body {
            Body::Whole(bytes) => bytes.as_slice() == BODY,
            _ => false,
        },
        _ => false,
    }
}

// How many asks were answered that the asker fetches, and how many replies landed.
fn flights(history: &[Event]) -> [usize; 2] {
    let begun = history
        .iter()
        .filter(|event| matches!(&event.act, Act::Ask(_, AskNote::Fetch)))
        .count();
    let landed = history
        .iter()
        .filter(|event| matches!(&event.act, Act::Land(..)))
        .count();
    [begun, landed]
}

#[test]
fn two_sessions_fetch_each_key_once(rt: HostRuntime) {
    let (cache, passes) = Cache::open(rt.alloc(), 2, 0).expect(&rt, "memory");
    let state = two_ask(&rt, rt.alloc(), cache, passes).expect(&rt, "memory");
    assert!(rt; flights(state.history()) == [100, 100]);
}

#[test]
fn a_fail_lets_the_other_session_begin(rt: HostRuntime) {
    let (cache, passes) = Cache::open(rt.alloc(), 2, 0).expect(&rt, "memory");
    let state = one_fails(&rt, rt.alloc(), cache, passes).expect(&rt, "memory");
    assert!(rt; flights(state.history()) == [2, 1]);
}

#[test]
fn a_session_waits_for_the_reply_that_another_fetches(rt: HostRuntime) {
    let (cache, passes) = Cache::open(rt.alloc(), 2, 0).expect(&rt, "memory");
    let told = one_waits(&rt, rt.alloc(), &cache, passes).expect(&rt, "memory");
    assert!(rt; waited(&told));
}
