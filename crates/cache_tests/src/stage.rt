ghost use Rattle.std.specs.Prelude.{◌≡◌, ◌≤◌};

use crate::reads::{has_cancelled, has_ended, is_flight};
use spm_cache_core::{
    Act, AskNote, Asked, CacheState, ClaimNote, Claimed, Event, SharedReply, Ticket, Why,
};
use spm_key::{Body, Key, Reply};
use spm_version::{NoMemory, Text};
use std::alloc::Global;
use std::mem;
use std::process::Abort;

/// Tickets that are to be spent: at most two.
enum Hand {
    Empty,
    One(Ticket),
    Two(Ticket, Ticket),
}

/// A cache, which a script calls. A call that may not be made ends the test.
pub struct Stage {
    alloc: Global,
    state: CacheState,
    sessions: u32,
    workers: u32,
    hand: Hand,
    ghost sessions_are: { state.sessions ≡ sessions },
    ghost workers_are: { state.workers ≡ workers },
}

// The key of this name.
fn key(alloc: Global, name: &str) -> Result<Key, NoMemory> {
    Ok(Key::Identifiers(Text::from_str(alloc, name)?))
}

// The keys of these names.
fn keys(alloc: Global, names: &str) -> Result<Vec<Key>, NoMemory> {
    let mut keys = Vec::new(alloc);
    for name in names.split(' ') {
        keys.push(key(alloc, name)?)?;
    }
    Ok(keys)
}

// The name of a key.
fn name_of(key: &Key) -> &str {
    match key {
        Key::Identifiers(name) => name.as_str(),
        _ => "?",
    }
}

// What an actor did, as a text.
fn act_text(alloc: Global, act: &Act) -> Result<String, NoMemory> {
    match act {
        Act::Ask(key, AskNote::Cancelled(by)) => {
            format!(in alloc; "ask {}: cancelled by {by}", name_of(key))
        }
        Act::Ask(key, AskNote::Have(reply)) => {
            format!(in alloc; "ask {}: have {}", name_of(key), reply.reply().status)
        }
        Act::Ask(key, AskNote::Fetch) => format!(in alloc; "ask {}: fetch", name_of(key)),
        Act::Claim(ClaimNote::Closed) => String::from_str(alloc, "claim: closed"),
        Act::Claim(ClaimNote::Fetch(key)) => format!(in alloc; "claim: fetch {}", name_of(key)),
        Act::Land(key, reply) => format!(in alloc;
            "land {} {}",
            name_of(key),
            reply.reply().status
        ),
        Act::Fail(key, Why::Link) => format!(in alloc; "fail {} link", name_of(key)),
        Act::Fail(key, Why::Memory) => format!(in alloc; "fail {} memory", name_of(key)),
        Act::Hint(keys) => format!(in alloc; "hint {}", keys.as_slice().len()),
        Act::Cancel => String::from_str(alloc, "cancel"),
        Act::End => String::from_str(alloc, "end"),
    }
}

// What happened, as a text.
fn history_text(alloc: Global, history: &[Event]) -> Result<String, NoMemory> {
    let mut text = String::new(alloc);
    for event in history {
        let act = act_text(alloc, &event.act)?;
        let line = format!(in alloc; "{} {act}\n", event.actor)?;
        text.push_str(line.as_str())?;
    }
    Ok(text)
}

impl Stage {
    /// A cache in which nothing has happened.
    pub fn new(alloc: Global, sessions: u32, workers: u32) -> Result<Stage, NoMemory>
        requires some { 1 ≤ sessions }
        requires few { sessions ≤ 64 }
        requires hands { workers ≤ 16 }
    {
        let state = CacheState::new(alloc, sessions, workers)?;
        Ok(Stage {
            alloc,
            state,
            sessions,
            workers,
            hand: Hand::Empty,
        })
    }

    // Keeps a ticket.
    fn keep(&mut self, rt: &impl Abort, ticket: Ticket) {
        let hand = match mem::replace(&mut self.hand, Hand::Empty) {
            Hand::Empty => Hand::One(ticket),
            Hand::One(first) => Hand::Two(first, ticket),
            Hand::Two(_first, _second) => panic!(rt; "a third ticket"),
        };
        self.fill(rt, hand);
    }

    // Puts tickets into the hand, which is empty.
    fn fill(&mut self, rt: &impl Abort, hand: Hand) {
        match mem::replace(&mut self.hand, hand) {
            Hand::Empty => {}
            Hand::One(_ticket) => panic!(rt; "a ticket is there"),
            Hand::Two(_first, _second) => panic!(rt; "tickets are there"),
        }
    }

    // Hands out the ticket of the actor, or if there is one alone that.
    fn take(&mut self, rt: &impl Abort, actor: u32) -> Ticket {
        match mem::replace(&mut self.hand, Hand::Empty) {
            Hand::Empty => panic!(rt; "no ticket"),
            Hand::One(ticket) => ticket,
            Hand::Two(first, second) => {
                let is_first = first.actor() == actor;
                let (taken, left) = if is_first {
                    (first, second)
                } else {
                    (second, first)
                };
                self.fill(rt, Hand::One(left));
                taken
            }
        }
    }

    fn ask(&mut self, rt: &impl Abort, actor: u32, name: &str) -> Result<String, NoMemory> {
        let key = key(self.alloc, name)?;
        assert!(rt; actor < self.sessions);
        assert!(rt; !has_ended(self.state.history(), actor));
        match self.state.ask(actor, &key)? {
            Asked::Cancelled(by) => format!(in self.alloc; "cancelled by {by}"),
            Asked::Have(reply) => format!(in self.alloc; "have {}", reply.reply().status),
            Asked::Waiting => String::from_str(self.alloc, "waiting"),
            Asked::Fetch(ticket) => {
                self.keep(rt, ticket);
                String::from_str(self.alloc, "fetch")
            }
        }
    }

    fn claim(&mut self, rt: &impl Abort, actor: u32) -> Result<String, NoMemory> {
        assert!(rt; self.sessions <= actor);
        assert!(rt; actor - self.sessions < self.workers);
        match self.state.claim(actor)? {
            Claimed::Closed => String::from_str(self.alloc, "closed"),
            Claimed::Fetch(key, ticket) => {
                self.keep(rt, ticket);
                format!(in self.alloc; "fetch {}", name_of(&key))
            }
            Claimed::Nothing => String::from_str(self.alloc, "nothing"),
        }
    }

    fn land(&mut self, rt: &impl Abort, actor: u32, status: u16) -> Result<String, NoMemory> {
        let body = Body::Garbled;
        let reply = SharedReply::new(self.alloc, Reply { status, body })?;
        let ticket = self.take(rt, actor);
        assert!(rt; is_flight(self.state.history(), &ticket));
        self.state.land(ticket, reply);
        String::from_str(self.alloc, "done")
    }

    fn fail(&mut self, rt: &impl Abort, actor: u32, why: Why) -> Result<String, NoMemory> {
        let ticket = self.take(rt, actor);
        assert!(rt; is_flight(self.state.history(), &ticket));
        self.state.fail(ticket, why);
        String::from_str(self.alloc, "done")
    }

    fn hint(&mut self, rt: &impl Abort, actor: u32, names: &str) -> Result<String, NoMemory> {
        let keys = keys(self.alloc, names)?;
        assert!(rt; actor < self.sessions);
        assert!(rt; !has_ended(self.state.history(), actor));
        self.state.hint(actor, keys.as_slice())?;
        String::from_str(self.alloc, "done")
    }

    fn cancel(&mut self, rt: &impl Abort, actor: u32) -> Result<String, NoMemory> {
        assert!(rt; actor < self.sessions);
        assert!(rt; !has_ended(self.state.history(), actor));
        assert!(rt; !has_cancelled(self.state.history(), actor));
        self.state.cancel(actor);
        String::from_str(self.alloc, "done")
    }

    fn end(&mut self, rt: &impl Abort, actor: u32) -> Result<String, NoMemory> {
        assert!(rt; actor < self.sessions);
        assert!(rt; !has_ended(self.state.history(), actor));
        self.state.end(actor);
        String::from_str(self.alloc, "done")
    }

    /// Makes a call, and tells its answer.
    pub fn call(
        &mut self,
        rt: &impl Abort,
        actor: u32,
        word: &str,
        rest: &str,
    ) -> Result<String, NoMemory> {
        match word {
            "ask" => self.ask(rt, actor, rest),
            "claim" => self.claim(rt, actor),
            "land" => self.land(rt, actor, rest.parse().unwrap_or(0)),
            "fail" => self.fail(rt, actor, Why::Link),
            "lack" => self.fail(rt, actor, Why::Memory),
            "hint" => self.hint(rt, actor, rest),
            "cancel" => self.cancel(rt, actor),
            _ => self.end(rt, actor),
        }
    }

    /// Makes a call, whose answer has to be this.
    pub fn expect(&mut self, rt: &impl Abort, actor: u32, word: &str, rest: &str, wanted: &str) {
        let answer = self.call(rt, actor, word, rest).expect(rt, word);
        assert_eq!(rt; answer.as_str(), wanted, "{actor} {word}");
    }

    /// Plays a script, each of whose lines is a call and its answer.
    pub fn play(&mut self, rt: &impl Abort, script: &str) {
        for line in script.lines() {
            let (call, wanted) = line.split_once(" => ").expect(rt, line);
            let (actor, rest) = call.split_once(' ').expect(rt, call);
            let (word, rest) = rest.split_once(' ').unwrap_or((rest, ""));
            self.expect(rt, actor.parse().unwrap_or(99), word, rest, wanted);
        }
    }

    /// Sees that all tickets were spent, and tells what happened.
    pub fn finish(self, rt: &impl Abort) -> String {
        let Stage {
            alloc,
            state,
            sessions: _,
            workers: _,
            hand,
        } = self;
        match hand {
            Hand::Empty => history_text(alloc, state.history()).expect(rt, "a text"),
            Hand::One(_ticket) => panic!(rt; "a ticket is left"),
            Hand::Two(_first, _second) => panic!(rt; "tickets are left"),
        }
    }
}
