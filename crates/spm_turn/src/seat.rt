//! What a thread has of a lock.
use crate::chronicle::Chronicle;
use crate::view::View;
use std::marker::Model;

// A seat of the lock's table.
pub(crate) type Place<T> = atomic_table::Seat<
    Option<T>,
    View<<T as Chronicle>::Entry, <T as Chronicle>::Terms>,
>;

/// What one thread knows of a lock, and the numbers that it alone has. Contracts see it as a `Sitting` of `specs/Sitting.antt`.
#[derive(Drop)]
pub struct Seat<T: Chronicle> {
    pub(crate) place: Place<T>,
    // The length of what was seen, or of the history as the turn began.
    pub(crate) count: u64,
}

impl<T: Chronicle> Model for Seat<T> {
    ghost use Rattle.spm_turn.specs.Sitting.{Sitting, sitting_code};

    ghost Value = { Sitting T.Entry T.Terms };

    ghost coded = { sitting_code T.Entry.code T.Terms.code };

    ghost use Rattle.spm_turn.specs.Seated.{sitting, IsSeated};

    ghost view = { λ s. sitting s.place };

    ghost invariant = { λ s. IsSeated s.place s.count };
}
