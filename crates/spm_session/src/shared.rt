// What may be moved into a thread, and looked at by several: nothing calls this, and that it is proved is what it shows.
use crate::job::{RootInput, RootJob};
use crate::outcome::Outcome;

// Asks of a type that it may be moved and shared.
fn is_shared<T: Send + Sync>() {}

// Jobs and outcomes.
#[allow(dead_code)]
fn are_shared() {
    is_shared::<Outcome>();
    is_shared::<RootInput>();
    is_shared::<RootJob>();
}
