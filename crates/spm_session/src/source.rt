// Where the replies of a resolution come from.
ghost use Rattle.std.specs.Prelude.{IfErr, IfOk, OnOk};
ghost use Rattle.spm_key.specs.declared.key.Key.{Key};
ghost use Rattle.spm_key.specs.declared.reply.Reply.{Reply};
ghost use Rattle.spm_session.specs.Known.{IsWider};
ghost use Rattle.spm_session.specs.declared.source.Missed.{Missed};

use spm_cache_core::SharedReply;
use spm_key::Key;
use spm_version::NoMemory;
use std::alloc::Global;

/// Why there is no reply of a key.
#[derive(Debug, Clone, Copy, PartialEq, Eq)]
pub enum Missed {
    /// The link failed.
    Failed,
    /// The session with this number gave up, and told the others.
    Cancelled(u32),
    /// Want of memory.
    Memory,
}

/// Where a resolution has the replies of keys from: a link of its own, or a cache that it shares.
///
/// What a source knows of replies stays known. What it does goes on from call to call: `goes` says it of calls that had their replies, and
/// `misses` of calls of which the last had none.
pub trait Source {
    ghost ready: { Self → Type 0 };

    ghost knows: { Self → Key → Reply → Type 0 };

    ghost goes: { Self → Self → Type 0 };

    ghost misses: { Self → Self → Key → Missed → Type 0 };

    /// A source that does nothing goes on, and so does one that goes on twice.
    ghost stays: { (one : Self) → goes one one };

    ghost onward: { (one two three : Self) → goes one two → goes two three → goes one three };

    ghost then_misses: { (one two three : Self) (asked : Key) (why : Missed) → goes one two → misses two three asked why → misses one three asked why };

    /// What is known stays known.
    ghost keeps: { (one two : Self) → goes one two → IsWider (knows one) (knows two) };

    ghost keeps_missed: { (one two : Self) (asked : Key) (why : Missed) → misses one two asked why → IsWider (knows one) (knows two) };

    /// The reply of a key.
    ///
    /// # Errors
    ///
    /// Why there is none.
    fn reply(&mut self, alloc: Global, key: &Key) -> Result<SharedReply, Missed>
        requires { ready self.old }
        ensures ready { ready self.new }
        ensures goes { OnOk result (goes self.old self.new) }
        ensures knows { IfOk result (λ reply. knows self.new key.now reply) }
        ensures misses { IfErr result (λ why. misses self.old self.new key.now why) };

    /// Whether what is wanted next may be fetched ahead.
    fn looks_ahead(&self) -> bool;

    /// Says what is likely wanted next.
    ///
    /// # Errors
    ///
    /// `NoMemory` alone.
    fn expect(&mut self, keys: &[Key]) -> Result<(), NoMemory>
        requires { ready self.old }
        ensures ready { ready self.new }
        ensures goes { goes self.old self.new };
}
