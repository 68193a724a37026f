// The rule of a lock's table. Its words are the next ticket, the ticket that is served, and the length of the log; its slot has
// the state.
use crate::chronicle::Chronicle;
use crate::view::View;
use atomic_table::TableRule;
use std::marker::PhantomData;

// What a lock is made of: how many numbers its seats have, and the state. The rule reads it as it was then.
#[derive(Drop)]
pub struct Founding<T> {
    pub numbers: u32,
    pub state: T,
}

// The rule, `IsKept`.
pub struct Steps<T> {
    state: PhantomData<T>,
}

impl<T: Chronicle> TableRule<Option<T>, View<T::Entry, T::Terms>, Founding<T>> for Steps<T> {
    ghost use Rattle.spm_turn.specs.Rule.{IsKept};
    ghost use Rattle.spm_turn.specs.Views.{newcomer};

    ghost holds = { λ f. IsKept T.history T.terms T.by f.numbers (T.terms f.state) };

    ghost first = { λ f. newcomer f.numbers (T.terms f.state) };
}
