// What may be moved into a thread, and looked at by several: nothing calls this, and that it is proved is what it shows.
use crate::cell::{Cell, Wanted};

// Asks of a type that it may be moved and shared.
fn is_shared<T: Send + Sync>() {}

// A cell, and what is learned of one.
#[allow(dead_code)]
fn are_shared() {
    is_shared::<Cell>();
    is_shared::<Wanted>();
}
