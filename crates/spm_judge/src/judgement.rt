ghost use Rattle.std.specs.Prelude.{◌≡◌};
ghost use Rattle.spm_judge.specs.declared.judgement.Judgement.TheVariants.{Memory};

use spm_key::Key;
use spm_version::{NoMemory, Text};

/// Why pins aren't said to be valid.
#[derive(Debug, Drop)]
pub enum Judgement {
    /// The first key that is read and isn't answered: no reply of it is held, or one that is refused, or one of a list that is too long.
    NoReply(Key),
    /// The first rule of valid selections that is broken, as a sentence.
    Invalid(Text),
    /// Want of memory.
    Memory,
}

impl From<NoMemory> for Judgement {
    ghost from_gives = { λ _ it. it ≡ Memory };

    fn from(_e: NoMemory) -> Judgement {
        Judgement::Memory
    }
}
