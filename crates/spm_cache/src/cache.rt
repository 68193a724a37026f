//! The cache and its calls.
ghost use Rattle.std.specs.Prelude.{◌≡◌, ℕ, ◌+◌, ◌≤◌, ◌<◌, true, false, [], ◌∷◌, ◌++◌, length, max, IfOk, None, Some};
ghost use Rattle.spm_cache_core.specs.Calls.{Appends, AskTells, ClaimTells, Spends};
ghost use Rattle.spm_cache_core.specs.History.{event, has_cancelled, has_ended, landed};
ghost use Rattle.spm_cache_core.specs.Legal.{IsFlight, IsLegal, IsSession, IsWorker};
ghost use Rattle.spm_cache_core.specs.declared.event.Act.TheVariants.{Land, Fail, Hint, Cancel, End};
ghost use Rattle.spm_cache_core.specs.declared.event.Event.{Event};
ghost use Rattle.spm_cache.specs.Calls.{Calls, OrSame};
ghost use Rattle.spm_cache.specs.Work.{AskKnows, ClaimKnows, Keeps, Steps, ask_events, claim_events, hint_events};
ghost use Rattle.std.specs.FinMap as map;
ghost use Rattle.spm_turn.specs.Log.{OthersFollow, has, longer, of_numbers};

use crate::kept::Kept;
use crate::pass::Pass;
use spm_cache_core::{Asked, CacheState, Claimed, SharedReply, Ticket, Why};
use spm_key::Key;
use spm_turn::{Seat, Turn, TurnLock};
use spm_version::NoMemory;
use std::marker::Model;
use std::sync::Wait;

/// A cache that sessions and workers share. Contracts see which one it is, and how many numbers its passes have (`Locking` of
/// spm_turn's `specs/Sitting.antt`).
///
/// Each call has the condition that the passes which it is given are of this cache. `open` and `meet` make such passes.
#[derive(Drop)]
pub struct Cache {
    pub(crate) lock: TurnLock<Kept>,
}

impl Model for Cache {
    ghost use Rattle.spm_turn.specs.Sitting.{Locking};

    ghost Value = { Locking };

    ghost view = { λ c. c.lock };
}

impl Cache {
    /// A session asks for a key, as `CacheState::ask`.
    ///
    /// # Errors
    ///
    /// `NoMemory` alone. Nothing was added then.
    pub fn ask<R: Wait>(&self, rt: &R, pass: &mut Pass, key: &Key) -> Result<Asked, NoMemory>
        requires own { pass.old.of ≡ self.now.id }
        requires session { IsSession pass.old.sessions pass.old.seen pass.old.actor }
        ensures pass { pass.new ≡ record pass.old { seen = pass.new.seen } }
        ensures call { Calls pass.old pass.new.seen (λ old new. OrSame result (λ asked. AskTells asked pass.old.actor key.now) old new) }
        ensures steps { Steps pass.old pass.new (ask_events pass.old.actor key.now result) }
        ensures session { Keeps pass.old pass.new }
        ensures knows { AskKnows pass.old.actor key.now pass.new.seen result }
    {
        let mut turn = self.take(rt, &mut pass.seat);
        let asked = turn.state().ask(pass.actor, key);
        self.lock.give(&mut pass.seat, turn);
        asked
    }

    /// A worker asks for something to fetch, as `CacheState::claim`.
    ///
    /// # Errors
    ///
    /// `NoMemory` alone. Nothing was added then.
    pub fn claim<R: Wait>(&self, rt: &R, pass: &mut Pass) -> Result<Claimed, NoMemory>
        requires own { pass.old.of ≡ self.now.id }
        requires worker { IsWorker pass.old.sessions pass.old.workers pass.old.actor }
        ensures pass { pass.new ≡ record pass.old { seen = pass.new.seen } }
        ensures call { Calls pass.old pass.new.seen (λ old new. OrSame result (λ claimed. ClaimTells claimed pass.old.actor) old new) }
        ensures steps { Steps pass.old pass.new (claim_events pass.old.actor result) }
        ensures session { Keeps pass.old pass.new }
        ensures knows { ClaimKnows pass.old.sessions pass.old.actor pass.new.seen result }
    {
        let mut turn = self.take(rt, &mut pass.seat);
        let claimed = turn.state().claim(pass.actor);
        self.lock.give(&mut pass.seat, turn);
        claimed
    }

    /// The reply for which the ticket was given is here, as `CacheState::land`. Takes no memory.
    pub fn land<R: Wait>(&self, rt: &R, pass: &mut Pass, ticket: Ticket, reply: SharedReply)
        requires own { pass.old.of ≡ self.now.id }
        requires flight { IsFlight pass.old.seen ticket × (has pass.old.numbers ticket.actor ≡ true) }
        ensures pass { pass.new ≡ record pass.old { seen = pass.new.seen } }
        ensures call { Calls pass.old pass.new.seen (λ old new. Spends old (event ticket.actor (Land ticket.key reply)) new) }
        ensures steps { Steps pass.old pass.new (event ticket.actor (Land ticket.key reply) ∷ []) }
        ensures session { Keeps pass.old pass.new }
        ensures knows { map.get (landed pass.new.seen) ticket.key ≡ Some reply }
    {
        let mut turn = self.take(rt, &mut pass.seat);
        turn.state().land(ticket, reply);
        self.lock.give(&mut pass.seat, turn);
    }

    /// The reply for which the ticket was given could not be fetched, as `CacheState::fail`. Takes no memory.
    pub fn fail<R: Wait>(&self, rt: &R, pass: &mut Pass, ticket: Ticket, why: Why)
        requires own { pass.old.of ≡ self.now.id }
        requires flight { IsFlight pass.old.seen ticket × (has pass.old.numbers ticket.actor ≡ true) }
        ensures pass { pass.new ≡ record pass.old { seen = pass.new.seen } }
        ensures call { Calls pass.old pass.new.seen (λ old new. Spends old (event ticket.actor (Fail ticket.key why)) new) }
        ensures steps { Steps pass.old pass.new (event ticket.actor (Fail ticket.key why) ∷ []) }
        ensures session { Keeps pass.old pass.new }
    {
        let mut turn = self.take(rt, &mut pass.seat);
        turn.state().fail(ticket, why);
        self.lock.give(&mut pass.seat, turn);
    }

    /// A session will want these keys, as `CacheState::hint`.
    ///
    /// # Errors
    ///
    /// `NoMemory` alone. Nothing was added then.
    pub fn hint<R: Wait>(&self, rt: &R, pass: &mut Pass, keys: &[Key]) -> Result<(), NoMemory>
        requires own { pass.old.of ≡ self.now.id }
        requires session { IsSession pass.old.sessions pass.old.seen pass.old.actor }
        ensures pass { pass.new ≡ record pass.old { seen = pass.new.seen } }
        ensures call { Calls pass.old pass.new.seen (λ old new. OrSame result (λ done old new. Appends old (event pass.old.actor (Hint keys.now)) 0 new) old new) }
        ensures steps { Steps pass.old pass.new (hint_events pass.old.actor keys.now result) }
        ensures session { Keeps pass.old pass.new }
    {
        let mut turn = self.take(rt, &mut pass.seat);
        let hinted = turn.state().hint(pass.actor, keys);
        self.lock.give(&mut pass.seat, turn);
        hinted
    }

    /// A session gives up, and tells the others, as `CacheState::cancel`. Takes no memory.
    pub fn cancel<R: Wait>(&self, rt: &R, pass: &mut Pass)
        requires own { pass.old.of ≡ self.now.id }
        requires session { IsSession pass.old.sessions pass.old.seen pass.old.actor }
        requires first { has_cancelled pass.old.actor pass.old.seen ≡ false }
        ensures pass { pass.new ≡ record pass.old { seen = pass.new.seen } }
        ensures call { Calls pass.old pass.new.seen (λ old new. Spends old (event pass.old.actor Cancel) new) }
        ensures steps { Steps pass.old pass.new (event pass.old.actor Cancel ∷ []) }
        ensures session { Keeps pass.old pass.new }
        ensures knows { has_cancelled pass.old.actor pass.new.seen ≡ true }
    {
        let mut turn = self.take(rt, &mut pass.seat);
        turn.state().cancel(pass.actor);
        self.lock.give(&mut pass.seat, turn);
    }

    /// A session has ended, as `CacheState::end`. Takes no memory.
    pub fn end<R: Wait>(&self, rt: &R, pass: &mut Pass)
        requires own { pass.old.of ≡ self.now.id }
        requires session { IsSession pass.old.sessions pass.old.seen pass.old.actor }
        ensures pass { pass.new ≡ record pass.old { seen = pass.new.seen } }
        ensures call { Calls pass.old pass.new.seen (λ old new. Spends old (event pass.old.actor End) new) }
        ensures steps { Steps pass.old pass.new (event pass.old.actor End ∷ []) }
        ensures knows { has_ended pass.old.actor pass.new.seen ≡ true }
    {
        let mut turn = self.take(rt, &mut pass.seat);
        turn.state().end(pass.actor);
        self.lock.give(&mut pass.seat, turn);
    }

    /// Waits until the history is longer than what the pass has seen. What it has seen stays.
    pub fn rest<R: Wait>(&self, rt: &R, pass: &mut Pass)
        requires own { pass.old.of ≡ self.now.id }
        ensures pass { pass.new ≡ record pass.old { told = pass.new.told } }
        ensures told { (pass.old.told ≤ pass.new.told) × (length pass.old.seen < pass.new.told) }
    {
        self.lock.rest(rt, &mut pass.seat);
    }

    /// One pass of two: that of the first one's actor, with the numbers of both. What it has seen is the longer of what the two had
    /// seen, and the other is a beginning of that. Takes no memory.
    pub fn meet(&self, first: Pass, second: Pass) -> Pass
        requires own { (first.of ≡ self.now.id) × (second.of ≡ self.now.id) }
        ensures pass { result ≡ record first { seen = longer first.seen second.seen; numbers = first.numbers ++ second.numbers; told = max first.told second.told } }
        ensures terms { (first.sessions ≡ second.sessions) × (first.workers ≡ second.workers) }
        ensures first { OthersFollow (λ (e : Event). e.actor) first.numbers first.seen result.seen }
        ensures second { OthersFollow (λ (e : Event). e.actor) second.numbers second.seen result.seen }
        ensures apart { (n : ℕ) → has first.numbers n ≡ true → has second.numbers n ≡ false }
    {
        let Pass { seat, actor } = first;
        let Pass {
            seat: other,
            actor: _,
        } = second;
        Pass {
            seat: self.lock.meet(seat, other),
            actor,
        }
    }

    /// The state, for the pass that has all numbers. What that pass has seen is its history, and all events are its own.
    pub fn close(self, pass: Pass) -> CacheState
        requires own { pass.of ≡ self.id }
        requires all { (n : ℕ) → n < self.numbers → has pass.numbers n ≡ true }
        ensures history { result.history ≡ pass.seen }
        ensures terms { (result.sessions ≡ pass.sessions) × (result.workers ≡ pass.workers) }
        ensures own { of_numbers (λ (e : Event). e.actor) pass.numbers pass.seen ≡ pass.seen }
    {
        let Cache { lock } = self;
        let Pass { seat, actor: _ } = pass;
        lock.close(seat).into_state()
    }

    // Takes the turn. The state's history is legal, and goes on from what was seen by events of others.
    fn take<R: Wait>(&self, rt: &R, seat: &mut Seat<Kept>) -> Turn<Kept>
        requires own { (seat.old.of ≡ self.now.id) × (seat.old.base ≡ None) }
        ensures seat { seat.new ≡ record seat.old { base = Some result.history } }
        ensures others { OthersFollow (λ (e : Event). e.actor) seat.old.numbers seat.old.seen result.history }
        ensures told { seat.old.told ≤ length result.history }
        ensures terms { (result.sessions ≡ seat.old.terms.sessions) × (result.workers ≡ seat.old.terms.workers) }
        ensures legal { IsLegal result.sessions result.workers result.history }
    {
        let mut turn = self.lock.take(rt, seat);
        turn.state().is_legal();
        turn
    }
}
