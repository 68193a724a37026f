//! What a session or a worker has of a cache.
ghost use Rattle.std.specs.Prelude.{◌≡◌, true};
ghost use Rattle.spm_turn.specs.Log.{has};

use crate::kept::Kept;
use spm_turn::Seat;
use std::marker::Model;

/// The right of an actor to call a cache. Contracts see it as a `Passing` of `specs/Passing.antt`: whose it is, and what it has seen.
///
/// Between two calls it holds no turn, its actor is one of its numbers, and what it has seen is legal.
#[derive(Drop)]
pub struct Pass {
    pub(crate) seat: Seat<Kept>,
    pub(crate) actor: u32,
}

impl Model for Pass {
    ghost use Rattle.spm_cache.specs.Passing.{Passing};

    ghost Value = { Passing };

    ghost use Rattle.spm_cache.specs.Seated.{passing, IsPass};

    ghost view = { λ p. passing p.seat p.actor };

    ghost invariant = { λ p. IsPass p.seat p.actor };
}

impl Pass {
    /// A law, with nothing to run: its actor is one of its numbers, so that what the actor does is the pass's own.
    pub fn has_its_actor(&self)
        ensures { has self.now.numbers self.now.actor ≡ true }
    {
        let _ = &self.seat;
    }
}
