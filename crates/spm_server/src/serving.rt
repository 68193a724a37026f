ghost use Rattle.std.specs.Prelude.{◌≡◌, ◌≤◌, [], length, IfErr, IfOk, IfSome, IsFalse, IsTrue};
ghost use Rattle.spm_http.specs.Request.{ReadsHead};
ghost use Rattle.spm_outside.specs.Sink.{PutsAll};
ghost use Rattle.spm_server.specs.Serving.{
  IsSettled,
  IsWhole,
  ServeFaultsAfter,
  StopsInTime,
  WritesAnswer,
  WritesPrefix,
  serve_fault,
};
ghost use Rattle.spm_server.specs.declared.serving.ServeFault.TheVariants.{Memory};

use crate::answering::answer_to;
use spm_http::{HttpFault, MAX_HEAD, read_request};
use spm_outside::{Peer, PeerFault};
use spm_shelf::Shelf;
use spm_version::NoMemory;
use std::alloc::{AllocError, Global};
use std::error::Error;
use std::fmt;

/// How many bytes are read at once.
const PIECE: usize = 4096;

/// Why a connection wasn't served to its end.
#[derive(Clone, Copy, Debug, PartialEq, Eq)]
pub enum ServeFault {
    /// The peer failed.
    Peer,
    /// Want of memory.
    Memory,
}

impl fmt::Display for ServeFault {
    fn fmt<W: fmt::Write>(&self, f: &mut fmt::Formatter<W>) -> fmt::Result {
        f.write_str(match self {
            ServeFault::Peer => "the peer failed",
            ServeFault::Memory => "no memory",
        })
    }
}

impl Error for ServeFault {}

impl From<AllocError> for ServeFault {
    ghost from_gives = { λ _ e. e ≡ Memory };

    fn from(_e: AllocError) -> ServeFault {
        ServeFault::Memory
    }
}

impl From<PeerFault> for ServeFault {
    ghost from_gives = { λ fault e. e ≡ serve_fault fault };

    fn from(fault: PeerFault) -> ServeFault {
        match fault {
            PeerFault::Failed => ServeFault::Peer,
            PeerFault::Memory => ServeFault::Memory,
        }
    }
}

/// Serves one connection: reads until the bytes are a head of a request or none, the peer has no more, or 65,536 bytes are read,
/// and writes the answer to what was read. It reads in pieces of at most 4,096 bytes, and looks at nothing that follows a head. It
/// gives the status of the answer.
///
/// # Errors
///
/// `Peer` where the peer failed, and `Memory`. A proper prefix of the answer to the bytes read was written then.
pub fn serve_connection<P: Peer>(
    alloc: Global,
    shelf: &Shelf,
    peer: &mut P,
) -> Result<u16, ServeFault>
    requires { IfSome (P.state peer.old).taken (λ taken. taken ≡ []) }
    ensures answered { IfOk result (λ status. IfSome (P.state peer.new).taken
        (λ taken. WritesAnswer shelf.now taken status (P.state peer.old).written (P.state peer.new).written)) }
    ensures whole { IfOk result (λ status. IfSome (P.state peer.new).taken (λ taken. IsWhole taken (P.state peer.new).rest)) }
    ensures cut { IfErr result (λ fault. IfSome (P.state peer.new).taken
        (λ taken. WritesPrefix shelf.now taken (P.state peer.old).written (P.state peer.new).written)) }
    // No more is read than a head may have, and at most one piece behind an unfinished head.
    ensures within { IfSome (P.state peer.new).taken (λ taken. length taken ≤ 65536) }
    ensures in_time { IfSome (P.state peer.new).taken StopsInTime }
    ensures faults { ServeFaultsAfter result (P.state peer.old).faults (P.state peer.new).faults }
{
    let request = take_request(alloc, peer)?;
    let answer = answer_to(alloc, shelf, request.as_slice())?;
    let text = answer.text(alloc)?;
    send(peer, text.as_slice())?;
    Ok(answer.status)
}

// Reads until the bytes are a head of a request or none, the peer has no more, or they are as many as a head may have.
fn take_request<P: Peer>(alloc: Global, peer: &mut P) -> Result<Vec<u8>, ServeFault>
    requires { IfSome (P.state peer.old).taken (λ taken. taken ≡ []) }
    ensures taken { IfOk result (λ request. IfSome (P.state peer.new).taken (λ taken. taken ≡ request.items)) }
    ensures whole { IfOk result (λ request. IsWhole request.items (P.state peer.new).rest) }
    ensures within { IfSome (P.state peer.new).taken (λ taken. length taken ≤ 65536) }
    ensures in_time { IfSome (P.state peer.new).taken StopsInTime }
    ensures written { (P.state peer.new).written ≡ (P.state peer.old).written }
    ensures faults { ServeFaultsAfter result (P.state peer.old).faults (P.state peer.new).faults }
{
    let mut request = Vec::new(alloc);
    let mut piece = [0; PIECE];
    while request.len() < MAX_HEAD {
        let wanted = PIECE.min(MAX_HEAD - request.len());
        let count = peer.read(&mut piece[..wanted])?;
        if count == 0 {
            return Ok(request);
        }
        request.extend_from_slice(&piece[..count])?;
        if is_settled(alloc, request.as_slice())? {
            return Ok(request);
        }
    }
    Ok(request)
}

// Whether the bytes are a head of a request, or none whatever follows.
fn is_settled(alloc: Global, bytes: &[u8]) -> Result<bool, NoMemory>
    ensures settled { IfOk result (λ settled. IsTrue settled → IsSettled bytes.now) }
    ensures unfinished { IfOk result (λ settled. IsFalse settled → ReadsHead (Err HttpFault.Partial) bytes.now) }
{
    match read_request(alloc, bytes) {
        Ok(_) | Err(HttpFault::Bad) => Ok(true),
        Err(HttpFault::Partial) => Ok(false),
        Err(HttpFault::Memory) => Err(NoMemory),
    }
}

// Writes all of the text, in as many puts as the peer needs.
fn send<P: Peer>(peer: &mut P, text: &[u8]) -> Result<(), ServeFault>
    ensures written { PutsAll result text.now (P.state peer.old).written (P.state peer.new).written }
    ensures taken { (P.state peer.new).taken ≡ (P.state peer.old).taken }
    ensures rest { (P.state peer.new).rest ≡ (P.state peer.old).rest }
    ensures faults { ServeFaultsAfter result (P.state peer.old).faults (P.state peer.new).faults }
{
    let mut done = 0;
    while done < text.len() {
        done += peer.put(&text[done..])?;
    }
    Ok(())
}
