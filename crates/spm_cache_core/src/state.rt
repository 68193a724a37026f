ghost use Rattle.std.specs.Prelude.{
  ◌≡◌,
  ◌≢◌,
  ℕ,
  ◌*◌,
  ◌≤◌,
  [],
  ◌∷◌,
  ◌++◌,
  IfNone,
  IfOk,
  IfSome,
  None,
  OnErr,
  OnOk,
  Some,
  false,
  length,
};
ghost use Rattle.spm_cache_core.specs.Answers.{claimed_key, first_unbegun};
ghost use Rattle.spm_cache_core.specs.Calls.{Appends, AskTells, ClaimTells, Spends};
ghost use Rattle.spm_cache_core.specs.Hints.{hinted};
ghost use Rattle.spm_cache_core.specs.History.{all_ended, canceller, event, has_cancelled};
ghost use Rattle.spm_cache_core.specs.Legal.{IsAllowed, IsFlight, IsLegal, IsSession, IsWorker};
ghost use Rattle.spm_cache_core.specs.State.{IsBeginning, IsQuiet};
ghost use Rattle.spm_cache_core.specs.declared.event.Act.TheVariants.{Land, Fail, Hint, Cancel, End};

use crate::answer::{Asked, Claimed, Ticket};
use crate::cells::Cells;
use crate::event::{Act, AskNote, ClaimNote, Event, Why};
use crate::reads::{copies, first_free, reply_at, unbegun};
use crate::reply::SharedReply;
use spm_cell::Cell;
use spm_key::Key;
use spm_version::{Items, NoMemory};
use std::alloc::Global;
use std::marker::Model;

/// The state of a cache. Contracts see what happened, how many sessions and workers there are, and how many events may come that
/// take no memory.
#[derive(Drop)]
pub struct CacheState {
    alloc: Global,
    sessions: u32,
    workers: u32,
    history: Vec<Event>,
    cells: Cells,
    // The hinted keys that were not begun yet when they were hinted, in their order. Those before `next` were begun since.
    queue: Vec<Key>,
    next: usize,
    // Who was the first to cancel.
    canceller: Option<u32>,
    // How many sessions have not ended.
    running: u32,
    // How many events may come that take no memory.
    spare: usize,
}

impl Model for CacheState {
    ghost use Rattle.spm_cache_core.specs.Cache.{Cache};

    ghost Value = { Cache };

    ghost use Rattle.spm_cache_core.specs.State.{IsState};
    ghost use Rattle.spm_cache_core.specs.View.{cache_of, parts_of};

    ghost view = { cache_of };

    ghost invariant = { λ s. IsState (cache_of s) (parts_of s) };
}

impl CacheState {
    /// The cache in which nothing has happened, for so many sessions and workers.
    ///
    /// # Errors
    ///
    /// `NoMemory` alone.
    pub fn new(alloc: Global, sessions: u32, workers: u32) -> Result<CacheState, NoMemory>
        requires some_sessions { 1 ≤ sessions }
        requires few_sessions { sessions ≤ 64 }
        requires few_workers { workers ≤ 16 }
        ensures ok { IfOk result (λ state.
            state ≡ record { history = []; sessions = sessions; workers = workers; spare = 2 * sessions }) }
        ensures legal { IfOk result (λ state. IsLegal state.sessions state.workers state.history) }
    {
        let spare = 2 * sessions as usize;
        let history = Vec::with_capacity(alloc, spare)?;
        Ok(CacheState {
            alloc,
            sessions,
            workers,
            history,
            cells: Cells::new(alloc),
            queue: Vec::new(alloc),
            next: 0,
            canceller: None,
            running: sessions,
            spare,
        })
    }

    /// A session asks for a key: somebody else has cancelled, the reply is here, somebody fetches it, or the session has to.
    ///
    /// # Errors
    ///
    /// `NoMemory` alone. The state is what it was then.
    pub fn ask(&mut self, actor: u32, key: &Key) -> Result<Asked, NoMemory>
        requires { IsSession self.old.sessions self.old.history actor }
        ensures ok { IfOk result (λ asked. AskTells asked actor key.now self.old self.new) }
        ensures err { OnErr result (self.new ≡ self.old) }
        ensures legal { IsLegal self.new.sessions self.new.workers self.new.history }
    {
        if let Some(by) = self.stopped(actor) {
            let noted = key.copy(self.alloc)?;
            self.note(actor, Act::Ask(noted, AskNote::Cancelled(by)))?;
            return Ok(Asked::Cancelled(by));
        }
        match self.cells.cell(key) {
            Cell::Idle { .. } => {
                let noted = key.copy(self.alloc)?;
                let ticket = self.begin(actor, key, Act::Ask(noted, AskNote::Fetch))?;
                Ok(Asked::Fetch(ticket))
            }
            Cell::Flying { .. } => {
                self.is_legal();
                Ok(Asked::Waiting)
            }
            Cell::Ready { place } => {
                let reply = reply_at(self.history.as_slice(), place).share()?;
                let noted = reply.share()?;
                let key = key.copy(self.alloc)?;
                self.note(actor, Act::Ask(key, AskNote::Have(noted)))?;
                Ok(Asked::Have(reply))
            }
        }
    }

    /// A worker asks for something to fetch: every session has ended, the first hinted key that was never begun, or nothing yet.
    ///
    /// # Errors
    ///
    /// `NoMemory` alone. The state is what it was then.
    pub fn claim(&mut self, actor: u32) -> Result<Claimed, NoMemory>
        requires { IsWorker self.old.sessions self.old.workers actor }
        ensures ok { IfOk result (λ claimed. ClaimTells claimed actor self.old self.new) }
        ensures err { OnErr result (self.new ≡ self.old) }
        ensures legal { IsLegal self.new.sessions self.new.workers self.new.history }
    {
        self.is_legal();
        if self.all_ended() {
            self.note(actor, Act::Claim(ClaimNote::Closed))?;
            return Ok(Claimed::Closed);
        }
        match self.first_hint()? {
            Some(key) => {
                let noted = key.copy(self.alloc)?;
                let ticket = self.begin(actor, &key, Act::Claim(ClaimNote::Fetch(noted)))?;
                Ok(Claimed::Fetch(key, ticket))
            }
            None => Ok(Claimed::Nothing),
        }
    }

    /// The reply for which the ticket was given is here. It takes no memory.
    pub fn land(&mut self, ticket: Ticket, reply: SharedReply)
        requires { IsFlight self.old.history ticket }
        ensures new { Spends self.old (event ticket.actor (Land ticket.key reply)) self.new }
        ensures legal { IsLegal self.new.sessions self.new.workers self.new.history }
    {
        let Ticket {
            key,
            number: _,
            actor,
        } = ticket;
        let mut cell = self.cells.cell(&key);
        cell.land(self.history.len());
        self.cells.set(&key, cell);
        self.history.push_reserved(Event {
            actor,
            act: Act::Land(key, reply),
        });
        self.spare -= 1;
        self.is_legal();
    }

    /// The reply for which the ticket was given could not be fetched. It takes no memory.
    pub fn fail(&mut self, ticket: Ticket, why: Why)
        requires { IsFlight self.old.history ticket }
        ensures new { Spends self.old (event ticket.actor (Fail ticket.key why)) self.new }
        ensures legal { IsLegal self.new.sessions self.new.workers self.new.history }
    {
        let Ticket {
            key,
            number: _,
            actor,
        } = ticket;
        let mut cell = self.cells.cell(&key);
        cell.fail();
        self.cells.set(&key, cell);
        self.history.push_reserved(Event {
            actor,
            act: Act::Fail(key, why),
        });
        self.spare -= 1;
        self.is_legal();
    }

    /// A session will want these keys.
    ///
    /// # Errors
    ///
    /// `NoMemory` alone. The state is what it was then.
    pub fn hint(&mut self, actor: u32, keys: &[Key]) -> Result<(), NoMemory>
        requires { IsSession self.old.sessions self.old.history actor }
        ensures ok { OnOk result (Appends self.old (event actor (Hint keys.now)) 0 self.new) }
        ensures err { OnErr result (self.new ≡ self.old) }
        ensures legal { IsLegal self.new.sessions self.new.workers self.new.history }
    {
        let noted = copies(self.alloc, keys)?;
        let mut queued = unbegun(self.alloc, &self.cells, keys)?;
        let room = self.spare.checked_add(1).ok_or(NoMemory)?;
        self.history.reserve(room)?;
        self.queue.append(&mut queued)?;
        self.history.push_reserved(Event {
            actor,
            act: Act::Hint(Items::from_vec(noted)),
        });
        self.is_legal();
        Ok(())
    }

    /// A session gives up, and tells the others. It takes no memory.
    pub fn cancel(&mut self, actor: u32)
        requires running { IsSession self.old.sessions self.old.history actor }
        requires first { has_cancelled actor self.old.history ≡ false }
        ensures new { Spends self.old (event actor Cancel) self.new }
        ensures legal { IsLegal self.new.sessions self.new.workers self.new.history }
    {
        self.canceller = Some(self.canceller.unwrap_or(actor));
        self.history.push_reserved(Event {
            actor,
            act: Act::Cancel,
        });
        self.spare -= 1;
        self.is_legal();
    }

    /// A session has ended. It takes no memory.
    pub fn end(&mut self, actor: u32)
        requires { IsSession self.old.sessions self.old.history actor }
        ensures new { Spends self.old (event actor End) self.new }
        ensures legal { IsLegal self.new.sessions self.new.workers self.new.history }
    {
        self.running -= 1;
        self.history.push_reserved(Event {
            actor,
            act: Act::End,
        });
        self.spare -= 1;
        self.is_legal();
    }

    /// What happened, oldest first.
    pub fn history(&self) -> &[Event]
        ensures { result.now ≡ self.now.history }
    {
        self.history.as_slice()
    }

    /// A law, with nothing to run: the history is legal, and the numbers are those that `new` takes.
    pub fn is_legal(&self)
        ensures legal { IsLegal self.now.sessions self.now.workers self.now.history }
        ensures some_sessions { 1 ≤ self.now.sessions }
        ensures few_sessions { self.now.sessions ≤ 64 }
        ensures few_workers { self.now.workers ≤ 16 }
    {
        let _ = &self.history;
    }

    // Who was the first to cancel, where that is another than the actor.
    fn stopped(&self, actor: u32) -> Option<u32>
        ensures some { IfSome result (λ by. (canceller self.now.history ≡ Some by) × (by ≢ actor)) }
        ensures none { IfNone result ((by : ℕ) → canceller self.now.history ≡ Some by → by ≡ actor) }
    {
        match self.canceller {
            Some(by) => { if by == actor { None } else { Some(by) } }
            None => None,
        }
    }

    // Whether every session has ended.
    fn all_ended(&self) -> bool
        ensures { result ≡ all_ended self.now.sessions self.now.history }
    {
        self.running == 0
    }

    // A copy of the first hinted key that was never begun. Those before it are passed over from then on.
    fn first_hint(&mut self) -> Result<Option<Key>, NoMemory>
        ensures found { IfOk result (λ found. first_unbegun self.old.history (hinted self.old.history) ≡ claimed_key found) }
        ensures same { self.new ≡ self.old }
    {
        let queue = self.queue.as_slice();
        let place = first_free(&self.cells, queue, self.next);
        self.next = place;
        let Some(key) = self.queue.get(place) else {
            return Ok(None);
        };
        let copy = key.copy(self.alloc)?;
        Ok(Some(copy))
    }

    // Adds an event that begins and ends nothing.
    fn note(&mut self, actor: u32, act: Act) -> Result<(), NoMemory>
        requires allowed { IsAllowed self.old.sessions self.old.workers self.old.history actor act }
        requires quiet { IsQuiet act }
        ensures ok { OnOk result (Appends self.old (event actor act) 0 self.new) }
        ensures err { OnErr result (self.new ≡ self.old) }
        ensures legal { IsLegal self.new.sessions self.new.workers self.new.history }
    {
        self.is_legal();
        let room = self.spare.checked_add(1).ok_or(NoMemory)?;
        self.history.reserve(room)?;
        self.history.push_reserved(Event { actor, act });
        self.is_legal();
        Ok(())
    }

    // Begins a flight of the key, by an event that says so.
    fn begin(&mut self, actor: u32, key: &Key, act: Act) -> Result<Ticket, NoMemory>
        requires allowed { IsAllowed self.old.sessions self.old.workers self.old.history actor act }
        requires begins { IsBeginning key.now act }
        ensures ok { OnOk result (Appends self.old (event actor act) 1 self.new) }
        ensures ticket { IfOk result (λ ticket.
            ticket ≡ record { key = key.now; number = length self.old.history; actor = actor }) }
        ensures err { OnErr result (self.new ≡ self.old) }
        ensures legal { IsLegal self.new.sessions self.new.workers self.new.history }
    {
        self.is_legal();
        let number = self.history.len();
        let kept = key.copy(self.alloc)?;
        let mut cell = self.cells.cell(key);
        cell.want(actor, number as u64);
        let spare = self.spare.checked_add(1).ok_or(NoMemory)?;
        let room = spare.checked_add(1).ok_or(NoMemory)?;
        self.history.reserve(room)?;
        self.cells.put(self.alloc, key, cell)?;
        self.history.push_reserved(Event { actor, act });
        self.spare = spare;
        self.is_legal();
        Ok(Ticket {
            key: kept,
            number: number as u64,
            actor,
        })
    }
}
