ghost use Rattle.std.specs.Prelude.{◌≡◌, ◌<◌, ◌≤◌, length, take, IsSome, IfOk, IfSome};
ghost use Rattle.spm_outside.specs.Book.{response_of};
ghost use Rattle.spm_outside.specs.Exchange.{
  CallsAfterExchange,
  RestAfterExchange,
  RestAfterReads,
  TakenAfterExchange,
  TakesUpTo,
};
ghost use Rattle.spm_outside.specs.Faults.{FaultsAfter};
ghost use Rattle.spm_outside.specs.Link.{
  LinkState,
  RestAfterOpen,
  RestAfterRead,
  calls_after_open,
  calls_after_read,
  taken_after_open,
  taken_after_read,
};

use crate::book::Authority;
pub use crate::fault::CallFault as LinkFault;
use spm_version::{Bytes, NoMemory};
use std::alloc::Global;

/// One call of a link: the authority that was opened, the request, and whether the open or a later read failed.
#[derive(Debug, Drop)]
pub struct Call {
    pub to: Authority,
    pub request: Bytes,
    pub failed: bool,
}

impl Call {
    /// A copy of the call.
    ///
    /// # Errors
    ///
    /// `NoMemory` alone.
    pub fn copy(&self, alloc: Global) -> Result<Call, NoMemory>
        ensures { IfOk result (λ call. call ≡ self.now) }
    {
        let to = self.to.copy(alloc)?;
        let request = self.request.copy(alloc)?;
        Ok(Call {
            to,
            request,
            failed: self.failed,
        })
    }
}

/// A way to registries: one exchange after another, each an open and reads to the end of its response.
///
/// A link may tell its book, which is what the registries answer, and with it the calls made, how many bytes of the
/// last response were read, and those that are left to read. `None` is a meaning that isn't told.
pub trait Link {
    ghost state: { Self → LinkState };

    /// Sends the request to the authority. Reads then give the bytes of its response, and none of an earlier one.
    ///
    /// # Errors
    ///
    /// `Failed` where the link failed, which leaves nothing to read, and `Memory`, which leaves all as it was.
    fn open(&mut self, to: &Authority, request: &[u8]) -> Result<(), LinkFault>
        ensures book { (state self.new).book ≡ (state self.old).book }
        ensures calls { (state self.new).calls ≡ calls_after_open result to.now request.now (state self.old).calls }
        ensures taken { (state self.new).taken ≡ taken_after_open result (state self.old).taken }
        ensures rest { RestAfterOpen result (state self.old).book to.now request.now (state self.old).rest (state self.new).rest }
        ensures faults { FaultsAfter result (state self.old).faults (state self.new).faults };

    /// Reads the next bytes of the response into the front of `piece`, and says how many. None are left where
    /// it is 0.
    ///
    /// # Errors
    ///
    /// `Failed` where the link failed, which marks the last call, and `Memory`, which leaves all as it was.
    fn read(&mut self, piece: &mut [u8]) -> Result<usize, LinkFault>
        requires { 0 < length piece.old }
        ensures book { (state self.new).book ≡ (state self.old).book }
        ensures calls { (state self.new).calls ≡ calls_after_read result (state self.old).calls }
        ensures taken { (state self.new).taken ≡ taken_after_read result (state self.old).taken }
        ensures rest { RestAfterRead result piece.new (state self.old).rest (state self.new).rest }
        ensures faults { FaultsAfter result (state self.old).faults (state self.new).faults };

    /// Who tells its book tells all but its faults.
    ghost tells_all: { (link : Self) → IsSome (state link).book
        → IsSome (state link).calls × IsSome (state link).taken × IsSome (state link).rest };
}

/// How many bytes are read at once.
const PIECE: usize = 4096;

/// One exchange: sends the request to the authority, and reads the response to its end, or its first `limit` bytes if it is longer.
/// It opens the link once.
///
/// # Errors
///
/// `Failed` where the link failed, and `Memory`.
pub fn exchange<L: Link>(
    alloc: Global,
    link: &mut L,
    to: &Authority,
    request: &[u8],
    limit: u64,
) -> Result<Bytes, LinkFault>
    ensures response { IfOk result (λ bytes. IfSome (L.state link.old).book (λ pages. bytes ≡ take limit (response_of pages to.now request.now))) }
    ensures within { IfOk result (λ bytes. length bytes ≤ limit) }
    // Nothing is read past the limit, however it ends.
    ensures taken { TakenAfterExchange result limit (L.state link.old).taken (L.state link.new).taken }
    ensures rest { RestAfterExchange result (L.state link.old).book to.now request.now limit (L.state link.old).rest (L.state link.new).rest }
    ensures book { (L.state link.new).book ≡ (L.state link.old).book }
    ensures calls { CallsAfterExchange result to.now request.now (L.state link.old).calls (L.state link.new).calls }
    ensures faults { FaultsAfter result (L.state link.old).faults (L.state link.new).faults }
{
    link.open(to, request)?;
    read_all(alloc, link, limit)
}

// Reads what is left of the response, or the first `limit` bytes of it.
fn read_all<L: Link>(alloc: Global, link: &mut L, limit: u64) -> Result<Bytes, LinkFault>
    ensures response { IfOk result (λ bytes. IfSome (L.state link.old).rest (λ rest. bytes ≡ take limit rest)) }
    ensures within { IfOk result (λ bytes. length bytes ≤ limit) }
    ensures taken { TakesUpTo limit (L.state link.old).taken (L.state link.new).taken }
    ensures rest { RestAfterReads result limit (L.state link.old).rest (L.state link.new).rest }
    ensures book { (L.state link.new).book ≡ (L.state link.old).book }
    ensures calls { (L.state link.new).calls ≡ calls_after_read result (L.state link.old).calls }
    ensures faults { FaultsAfter result (L.state link.old).faults (L.state link.new).faults }
{
    let limit = limit as usize;
    let mut bytes = Vec::new(alloc);
    let mut piece = [0; PIECE];
    while bytes.len() < limit {
        let wanted = PIECE.min(limit - bytes.len());
        let count = link.read(&mut piece[..wanted])?;
        if count == 0 {
            return Ok(Bytes::from_vec(bytes));
        }
        bytes.extend_from_slice(&piece[..count])?;
    }
    Ok(Bytes::from_vec(bytes))
}
