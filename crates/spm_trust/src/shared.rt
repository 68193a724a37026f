// What may be moved into a thread, and looked at by several: nothing calls this, and that it is proved is what it shows.
use crate::met::Met;
use crate::trust::Trust;

// Asks of a type that it may be moved and shared.
fn is_shared<T: Send + Sync>() {}

// Maps of fingerprints, and what a sum comes to.
#[allow(dead_code)]
fn are_shared() {
    is_shared::<Trust>();
    is_shared::<Met>();
}
