//! Asks for a reply that has landed, by several threads at once, which share the asks: by the shared cache, and by a `Mutex` round the
//! core's state. Each of these asks is answered with the reply, and noted in the history.
ghost use Rattle.std.specs.Prelude.{◌≡◌, ◌<◌, ◌≤◌, OnOk};
ghost use Rattle.std.specs.List.{All};
ghost use Rattle.bench.specs.Ready.{IsReady, NoneEnded};

use crate::pieces::{BenchError, empty_reply};
use spm_cache::{Cache, Pass};
use spm_cache_core::{Asked, CacheState, SharedReply, Why};
use spm_key::Key;
use spm_version::{NoMemory, Text};
use std::alloc::Global;
use std::sync::{Mutex, Wait};
use std::thread::{Threads, map_indices, map_vec};

// The most threads: a cache has 64 sessions, one of which lands the reply.
const MOST: u32 = 63;

// The core's state for a plain lock. Of what comes out of such a lock its type alone is known: here, that no session has ended.
#[derive(Drop)]
struct Guarded {
    state: CacheState,
    sessions: u32,
    ghost sessions_are: { state.sessions ≡ sessions },
    ghost none_ended: { NoneEnded state },
}

impl Guarded {
    // The state for so many sessions, in which the first has landed the reply.
    fn new(alloc: Global, sessions: u32, key: &Key, reply: SharedReply) -> Result<Guarded, NoMemory>
        requires { (0 < sessions) × (sessions ≤ 64) }
    {
        let mut state = CacheState::new(alloc, sessions, 0)?;
        land_first(&mut state, key, reply)?;
        Ok(Guarded { state, sessions })
    }

    // A session asks for the key: the reply, if that is the answer. What it is to fetch instead fails.
    #[tactic(auto, using(crate::proofs::CacheLemmas::asked_open, crate::proofs::CacheLemmas::failed_open, crate::proofs::CacheLemmas::given_flight))]
    fn ask(&mut self, actor: u32, key: &Key) -> Result<Option<SharedReply>, NoMemory> {
        if actor >= self.sessions {
            return Ok(None);
        }
        self.state.is_legal();
        match self.state.ask(actor, key)? {
            Asked::Have(reply) => Ok(Some(reply)),
            Asked::Fetch(ticket) => {
                self.state.fail(ticket, Why::Link);
                Ok(None)
            }
            Asked::Waiting | Asked::Cancelled(_) => Ok(None),
        }
    }
}

// The first session asks for the key and lands the reply.
#[tactic(auto, using(crate::proofs::CacheLemmas::asked_open, crate::proofs::CacheLemmas::landed_open, crate::proofs::CacheLemmas::given_flight))]
fn land_first(state: &mut CacheState, key: &Key, reply: SharedReply) -> Result<(), NoMemory>
    requires some { 0 < state.old.sessions }
    requires none { NoneEnded state.old }
    ensures sessions { OnOk result (state.new.sessions ≡ state.old.sessions) }
    ensures none { OnOk result (NoneEnded state.new) }
{
    state.is_legal();
    match state.ask(0, key)? {
        Asked::Fetch(ticket) => state.land(ticket, reply),
        Asked::Have(_) | Asked::Waiting | Asked::Cancelled(_) => {}
    }
    Ok(())
}

// The key that is asked for.
fn one_key(alloc: Global) -> Result<Key, NoMemory> {
    Ok(Key::Identifiers(Text::from_str(alloc, "https://registry.example/p")?))
}

// How many asks of all threads were answered with the reply.
fn total(counts: Vec<Result<usize, NoMemory>>) -> Result<usize, NoMemory> {
    let mut all: usize = 0;
    for count in counts {
        all = all.saturating_add(count?);
    }
    Ok(all)
}

// Asks by the shared cache so many times, and counts the answers with the reply.
#[tactic(auto, using(crate::proofs::Ready::own_number))]
fn ask_by_pass<R: Wait>(
    rt: &R,
    cache: &Cache,
    mut pass: Pass,
    key: &Key,
    asks: u32,
) -> Result<usize, NoMemory>
    requires { IsReady cache.now.id pass }
{
    let mut had: usize = 0;
    for _ask in 0..asks {
        match cache.ask(rt, &mut pass, key)? {
            Asked::Have(_) => had = had.saturating_add(1),
            Asked::Fetch(ticket) => cache.fail(rt, &mut pass, ticket, Why::Link),
            Asked::Waiting | Asked::Cancelled(_) => {}
        }
    }
    Ok(had)
}

// Asks by the plain lock so many times, and counts the answers with the reply.
fn ask_by_lock<R: Wait>(
    rt: &R,
    lock: &Mutex<Guarded>,
    actor: u32,
    key: &Key,
    asks: u32,
) -> Result<usize, NoMemory> {
    let mut had: usize = 0;
    for _ask in 0..asks {
        let reply = lock.lock(rt).ask(actor, key)?;
        if reply.is_some() {
            had = had.saturating_add(1);
        }
    }
    Ok(had)
}

// Lands the reply in the shared cache.
#[tactic(auto, using(crate::proofs::Ready::own_number))]
fn land_by_pass<R: Wait>(
    rt: &R,
    cache: &Cache,
    pass: &mut Pass,
    key: &Key,
    reply: SharedReply,
) -> Result<(), NoMemory>
    requires { IsReady cache.now.id pass.old }
{
    match cache.ask(rt, pass, key)? {
        Asked::Fetch(ticket) => cache.land(rt, pass, ticket, reply),
        Asked::Have(_) | Asked::Waiting | Asked::Cancelled(_) => {}
    }
    Ok(())
}

// A thread for each pass asks by the shared cache so many times.
fn ask_shared<R: Threads + Wait + Sync>(
    rt: &R,
    cache: &Cache,
    passes: Vec<Pass>,
    key: &Key,
    asks: u32,
) -> Result<usize, NoMemory>
    requires { All (λ p. IsReady cache.now.id p) passes.items }
{
    let counts = map_vec(
        rt,
        passes,
        &|pass: Pass| -> Result<usize, NoMemory>
            requires { IsReady cache.now.id pass }
        { ask_by_pass(rt, cache, pass, key, asks) },
    )?;
    total(counts)
}

// Opens a shared cache for a session in each thread and one more, which lands the reply, and has the threads share the asks.
fn ask_in_turns<R: Threads + Wait + Sync>(
    rt: &R,
    alloc: Global,
    threads: u32,
    asks: u32,
) -> Result<usize, NoMemory>
    requires { (0 < threads) × (threads ≤ MOST) }
{
    let key = one_key(alloc)?;
    let (cache, mut passes) = Cache::open(alloc, threads + 1, 0)?;
    let Some(mut lander) = passes.pop() else {
        return Err(NoMemory);
    };
    let reply = empty_reply(alloc)?;
    land_by_pass(rt, &cache, &mut lander, &key, reply)?;
    ask_shared(rt, &cache, passes, &key, asks / threads)
}

// Has the threads share the asks by a plain lock round the state.
fn ask_locked<R: Threads + Wait + Sync>(
    rt: &R,
    alloc: Global,
    threads: u32,
    asks: u32,
) -> Result<usize, NoMemory>
    requires { (0 < threads) × (threads ≤ MOST) }
{
    let key = one_key(alloc)?;
    let reply = empty_reply(alloc)?;
    let lock = Mutex::new(Guarded::new(alloc, threads + 1, &key, reply)?);
    let (shared, key, share) = (&lock, &key, asks / threads);
    let counts = map_indices(
        rt,
        alloc,
        threads as usize,
        &|thread: usize| ask_by_lock(rt, shared, thread as u32, key, share),
    )?;
    total(counts)
}

/// Has so many threads ask so many times in all, by the turn lock or by a plain one, and gives how many asks had the reply.
///
/// # Errors
///
/// `Words` where there is no such piece, or no such number of threads.
pub fn run_asks<R: Threads + Wait + Sync>(
    rt: &R,
    alloc: Global,
    piece: &str,
    threads: u32,
    asks: u32,
) -> Result<usize, BenchError> {
    if threads == 0 || threads > MOST {
        return Err(BenchError::Words);
    }
    match piece {
        "turn" => Ok(ask_in_turns(rt, alloc, threads, asks)?),
        "mutex" => Ok(ask_locked(rt, alloc, threads, asks)?),
        _ => Err(BenchError::Words),
    }
}
