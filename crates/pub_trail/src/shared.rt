// What may be moved into a thread, and looked at by several: nothing calls this, and that it is proved is what it shows.
use crate::origin::Origin;
use crate::trail::{Assigned, Place};
use crate::turned::{Turned, Wide};

// Asks of a type that it may be moved and shared.
fn is_shared<T: Send + Sync>() {}

// Assignments, loads, origins and answers.
#[allow(dead_code)]
fn are_shared() {
    is_shared::<Assigned>();
    is_shared::<Origin>();
    is_shared::<Place>();
    is_shared::<Turned>();
    is_shared::<Wide>();
}
