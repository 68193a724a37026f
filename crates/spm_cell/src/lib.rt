//! One key's cell: what is known of it, and how that changes.
//!
//! A [`Cell`] says whether anybody fetches the key, who, and whether its reply landed. [`Cell::want`] is what somebody learns who
//! wants the reply, and begins a flight where there is none; [`Cell::land`] and [`Cell::fail`] end a flight. A flight carries a
//! number and its actor, and a landed reply the place at which it stands; the cell gives both back and looks at neither.
//!
//! The contract that the layer above uses: each call is the function of `specs/Cell.antt` that has its name (`cell_wanted`,
//! `wanted_of`, `fails_of`), and no call takes memory. The search proves all of it.
#![tactic(auto)]

mod cell;
mod shared;

pub use cell::{Cell, Wanted};
