ghost use Rattle.std.specs.Prelude.{◌≡◌, IfOk, None, OnErr, OnOk, Some, is_some, if◌then◌else◌};
ghost use Rattle.std.specs.Option.{option_copied};
ghost use Rattle.spm_judge.specs.Held.{Held, held_in, is_answer, says_of};
ghost use Rattle.spm_key.specs.KeyLaws.{key_eq};
ghost use Rattle.spm_key.specs.declared.key.Key.{Key};

use spm_api::{ReplyFault, Said, said};
use spm_key::{Key, Reply};
use spm_version::NoMemory;
use std::alloc::Global;
use std::collections::BTreeMap;

/// Replies of a registry.
pub trait Replies {
    ghost held: { Self → Held };

    /// The reply of a key, where it is held.
    fn reply(&self, key: &Key) -> Option<&Reply>
        ensures { option_copied result ≡ held self.now key.now };
}

/// Replies by their keys.
#[derive(Drop)]
pub struct HeldReplies {
    by_key: BTreeMap<Key, Reply>,
}

impl HeldReplies {
    /// No reply.
    pub fn new(alloc: Global) -> HeldReplies
        ensures { (key : Key) → held_in result key ≡ None }
    {
        HeldReplies {
            by_key: BTreeMap::new(alloc),
        }
    }

    /// Holds the reply of a key, in place of an earlier one.
    ///
    /// # Errors
    ///
    /// `NoMemory` alone, which leaves all as it was.
    pub fn put(&mut self, key: Key, reply: Reply) -> Result<(), NoMemory>
        ensures ok { OnOk result ((other : Key) → held_in self.new other ≡ (if key_eq key other then Some reply else held_in self.old other)) }
        ensures err { OnErr result ((other : Key) → held_in self.new other ≡ held_in self.old other) }
    {
        self.by_key.insert(key, reply)?;
        Ok(())
    }
}

impl Replies for HeldReplies {
    ghost held = { held_in };

    fn reply(&self, key: &Key) -> Option<&Reply> {
        self.by_key.get(key)
    }
}

// What the reply of a key says, where one is held that isn't refused.
pub(crate) fn hear<R: Replies>(
    alloc: Global,
    replies: &R,
    key: &Key,
) -> Result<Option<Said>, NoMemory>
    ensures { IfOk result (λ heard. heard ≡ says_of (R.held replies.now) key.now) }
{
    let Some(reply) = replies.reply(key) else {
        return Ok(None);
    };
    match said(alloc, key, reply) {
        Ok(said) => Ok(Some(said)),
        Err(ReplyFault::Memory) => Err(NoMemory),
        Err(_) => Ok(None),
    }
}

// Whether a key is answered.
pub(crate) fn is_answered<R: Replies>(
    alloc: Global,
    replies: &R,
    key: &Key,
) -> Result<bool, NoMemory>
    ensures { IfOk result (λ answered. answered ≡ is_answer (says_of (R.held replies.now) key.now)) }
{
    match hear(alloc, replies, key)? {
        None | Some(Said::TooMany) => Ok(false),
        Some(_) => Ok(true),
    }
}
