//! The state, while a seat has the turn.
use std::marker::Model;

/// The state of a lock, which a seat has until it gives the turn back. It can't be let go otherwise: it has no `Drop`. Contracts see
/// it as the state.
pub struct Turn<T> {
    pub(crate) state: T,
}

impl<T> Model for Turn<T> {
    ghost Value = { T };

    ghost coded = { T.code };

    ghost view = { λ t. t.state };
}

impl<T> Turn<T> {
    ghost use Rattle.std.specs.Prelude.{◌≡◌};
    ghost use Rattle.std.specs.Borrow.{sem, Lends};
    ghost use Rattle.spm_turn.specs.contracts.turn.Turn.{the_row};

    /// The state, for its calls.
    pub fn state(&mut self) -> &mut T
        ensures* writes_back { sem 𝓛 (Lends (the_row T.row) T.row self.entry result (λ w. w)) }
        ensures value { result.now ≡ self.old }
    {
        &mut self.state
    }
}
