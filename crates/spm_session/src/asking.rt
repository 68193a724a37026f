// Asking a source for the reply of a key.
ghost use Rattle.std.specs.Prelude.{◌≡◌, IfErr, IfOk};
ghost use Rattle.spm_session.specs.Known.{IsWider};
ghost use Rattle.spm_session.specs.Run.{GoesBy, IsNotFetched, missed_by, refused_by};

use crate::outcome::Outcome;
use crate::source::{Missed, Source};
use spm_api::ReplyFault;
use spm_cache_core::SharedReply;
use spm_key::Key;
use std::alloc::Global;

/// The outcome of a key whose reply is refused for this reason.
pub fn refused(key: Key, fault: ReplyFault) -> Outcome
    ensures { result ≡ refused_by key fault }
{
    match fault {
        ReplyFault::Garbled => Outcome::Garbled(key),
        ReplyFault::TooLong => Outcome::TooLong(key),
        ReplyFault::Unreadable => Outcome::ListUnreadable(key),
        ReplyFault::Says(status, detail) => Outcome::RegistrySays(key, status, detail),
        ReplyFault::Memory => Outcome::Memory,
    }
}

// The outcome of a key without a reply.
fn missed(key: Key, why: Missed) -> Outcome
    ensures { result ≡ missed_by key why }
{
    match why {
        Missed::Failed => Outcome::FetchFault(key),
        Missed::Cancelled(by) => Outcome::Cancelled(by),
        Missed::Memory => Outcome::Memory,
    }
}

/// Has the reply of a key from its source, and gives the key back with it.
pub(crate) fn fetched<S: Source>(
    alloc: Global,
    source: &mut S,
    key: Key,
) -> Result<(Key, SharedReply), Outcome>
    requires { S.ready source.old }
    ensures ready { S.ready source.new }
    ensures key { IfOk result (λ found. found.0 ≡ key) }
    ensures known { IfOk result (λ found. S.knows source.new key found.1) }
    ensures err { IfErr result (λ it. IsNotFetched key it) }
    ensures went { GoesBy S.goes S.misses source.old source.new result }
    ensures wider { IsWider (S.knows source.old) (S.knows source.new) }
{
    match source.reply(alloc, &key) {
        Ok(reply) => Ok((key, reply)),
        Err(why) => Err(missed(key, why)),
    }
}
