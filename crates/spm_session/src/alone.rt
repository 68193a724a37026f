// A source that fetches each reply over a link of its own.
ghost use Rattle.std.specs.Prelude.{◌≡◌, ⊤};

use crate::source::{Missed, Source};
use spm_api::{Base, fetch};
use spm_cache_core::SharedReply;
use spm_key::Key;
use spm_outside::{Link, LinkFault};
use spm_version::NoMemory;
use std::alloc::Global;

impl From<NoMemory> for Missed {
    ghost use Rattle.spm_session.specs.declared.source.Missed.TheVariants.{Memory};

    ghost from_gives = { λ _ why. why ≡ Memory };

    fn from(_e: NoMemory) -> Missed {
        Missed::Memory
    }
}

/// A link to a registry, which one resolution has for itself.
#[derive(Drop)]
pub(crate) struct Alone<'a, L> {
    pub base: &'a Base,
    pub link: &'a mut L,
}

impl<'a, L: Link> Source for Alone<'a, L> {
    ghost use Rattle.spm_session.specs.Alone.{GoesAlone, MissesAlone};
    ghost use Rattle.spm_session.specs.Known.{in_book};
    ghost use Rattle.spm_session.specs.AloneLaws.{alone_keeps, alone_keeps_missed, alone_onward, alone_stays, alone_then_misses};

    ghost ready = { λ source. ⊤ };

    ghost knows = { λ source. in_book (L.state source.link.now).book source.base.now };

    ghost goes = { GoesAlone L.state };

    ghost misses = { MissesAlone L.state };

    ghost stays = { alone_stays L.state };

    ghost onward = { alone_onward L.state };

    ghost then_misses = { alone_then_misses L.state };

    ghost keeps = { alone_keeps L.state };

    ghost keeps_missed = { alone_keeps_missed L.state };

    fn reply(&mut self, alloc: Global, key: &Key) -> Result<SharedReply, Missed> {
        match fetch(alloc, self.link, self.base, key) {
            Ok(reply) => Ok(SharedReply::new(alloc, reply)?),
            Err(LinkFault::Failed) => Err(Missed::Failed),
            Err(LinkFault::Memory) => Err(Missed::Memory),
        }
    }

    fn looks_ahead(&self) -> bool {
        false
    }

    fn expect(&mut self, _keys: &[Key]) -> Result<(), NoMemory> {
        Ok(())
    }
}
