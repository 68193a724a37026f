ghost use Rattle.std.specs.Prelude.{◌≡◌, ◌≢◌, ◌<◌, ◌↔◌, [], Err, IfOk, IsErr, IsErrOf, IsTrue, Some, length};
ghost use Rattle.spm_outside.specs.Faults.{FaultsAfter};
ghost use Rattle.spm_outside.specs.Link.{
  RestAfterOpen,
  RestAfterRead,
  calls_after_open,
  calls_after_read,
  last_failed,
  taken_after_open,
  taken_after_read,
};
ghost use Rattle.spm_outside.specs.Memory.{plan_of_link, state_of_link};
ghost use Rattle.spm_outside.specs.Schedule.{after_call, fails_next};

use crate::book::{Authority, Book};
use crate::link::{Call, Link, LinkFault};
use crate::schedule::Schedule;
use spm_version::{Bytes, NoMemory};
use std::alloc::Global;

/// A link in memory, which tells all: its registries answer what the book that it is lent says. Its opens and
/// reads are numbered from 1 on, together, and those with a listed number fail.
#[derive(Drop)]
pub struct BookLink<'b> {
    alloc: Global,
    book: &'b Book,
    // The last response, and how many bytes of it were read.
    response: &'b [u8],
    taken: usize,
    calls: Vec<Call>,
    faults: u64,
    schedule: Schedule,
}

impl<'b> BookLink<'b> {
    /// A link to this book with no calls made, whose calls with these numbers fail.
    ///
    /// # Errors
    ///
    /// `NoMemory` alone.
    pub fn new(alloc: Global, book: &'b Book, failing: &[u64]) -> Result<BookLink<'b>, NoMemory>
        ensures state { IfOk result (λ link. state_of_link link
            ≡ record { book = Some book.now; calls = Some []; taken = Some 0; rest = Some []; faults = 0 }) }
        ensures plan { IfOk result (λ link. plan_of_link link ≡ record { failing = failing.now; calls = 0 }) }
    {
        let schedule = Schedule::new(alloc, failing)?;
        Ok(BookLink {
            alloc,
            book,
            response: &[],
            taken: 0,
            calls: Vec::new(alloc),
            faults: 0,
            schedule,
        })
    }

    /// The calls made, in their order.
    pub fn calls(&self) -> &[Call]
        ensures { Some result.now ≡ (state_of_link self.now).calls }
    {
        self.calls.as_slice()
    }

    /// How many opens and reads failed, up to the greatest u64.
    pub fn faults(&self) -> u64
        ensures { result ≡ (state_of_link self.now).faults }
    {
        self.faults
    }

    // The bytes of the last response that are left to read.
    fn rest(&self) -> &'b [u8]
        ensures { Some result.now ≡ (state_of_link self.now).rest }
    {
        self.response.get(self.taken..).unwrap_or(&[])
    }
}

// Marks the last call, if there is one, as failed.
fn mark_last(calls: &mut Vec<Call>)
    ensures { calls.new.items ≡ last_failed calls.old.items }
{
    if let Some(call) = calls.last_mut() {
        call.failed = true;
    }
}

impl<'b> Link for BookLink<'b> {
    ghost state = { state_of_link };

    ghost use Rattle.std.specs.Prelude.{refl};

    ghost tells_all = { λ link told. (refl, refl, refl) };

    fn open(&mut self, to: &Authority, request: &[u8]) -> Result<(), LinkFault>
        ensures book { (state_of_link self.new).book ≡ (state_of_link self.old).book }
        ensures calls { (state_of_link self.new).calls
            ≡ calls_after_open result to.now request.now (state_of_link self.old).calls }
        ensures taken { (state_of_link self.new).taken ≡ taken_after_open result (state_of_link self.old).taken }
        ensures rest { RestAfterOpen result (state_of_link self.old).book to.now request.now
            (state_of_link self.old).rest (state_of_link self.new).rest }
        ensures faults { FaultsAfter result (state_of_link self.old).faults (state_of_link self.new).faults }

        // A listed call fails, or has no memory to record it, and no other call fails.
        ensures fails { IsErrOf result LinkFault.Failed → IsTrue (fails_next (plan_of_link self.old)) }
        ensures listed { IsTrue (fails_next (plan_of_link self.old)) → IsErr result }
        ensures counted { plan_of_link self.new ≡ after_call (plan_of_link self.old) }
    {
        let failed = self.schedule.next_fails();
        let call = Call {
            to: to.copy(self.alloc)?,
            request: Bytes::from_slice(self.alloc, request)?,
            failed,
        };
        self.calls.push(call)?;
        self.taken = 0;
        if failed {
            self.response = &[];
            self.faults = self.faults.saturating_add(1);
            return Err(LinkFault::Failed);
        }
        let book = self.book;
        self.response = book.response(to, request);
        Ok(())
    }

    fn read(&mut self, piece: &mut [u8]) -> Result<usize, LinkFault>
        requires { 0 < length piece.old }
        ensures book { (state_of_link self.new).book ≡ (state_of_link self.old).book }
        ensures calls { (state_of_link self.new).calls
            ≡ calls_after_read result (state_of_link self.old).calls }
        ensures taken { (state_of_link self.new).taken ≡ taken_after_read result (state_of_link self.old).taken }
        ensures rest { RestAfterRead result piece.new
            (state_of_link self.old).rest (state_of_link self.new).rest }
        ensures faults { FaultsAfter result (state_of_link self.old).faults (state_of_link self.new).faults }

        // Exactly the listed calls fail.
        ensures fails { IsErrOf result LinkFault.Failed ↔ IsTrue (fails_next (plan_of_link self.old)) }
        ensures takes_no_memory { result ≢ Err LinkFault.Memory }
        ensures counted { plan_of_link self.new ≡ after_call (plan_of_link self.old) }
    {
        if self.schedule.next_fails() {
            mark_last(&mut self.calls);
            self.faults = self.faults.saturating_add(1);
            return Err(LinkFault::Failed);
        }
        let rest = self.rest();
        let count = piece.len().min(rest.len());
        piece[..count].copy_from_slice(&rest[..count]);
        self.taken += count;
        Ok(count)
    }
}
