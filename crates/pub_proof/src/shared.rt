// What may be moved into a thread, and looked at by several: nothing calls this, and that it is proved is what it shows.
use crate::derivation::{Derivation, Line};

// Asks of a type that it may be moved and shared.
fn is_shared<T: Send + Sync>() {}

// Derivations and their lines.
#[allow(dead_code)]
fn are_shared() {
    is_shared::<Derivation>();
    is_shared::<Line>();
}
