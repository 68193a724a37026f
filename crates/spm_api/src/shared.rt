// What may be moved into a thread, and looked at by several: nothing calls this, and that it is proved is what it shows.
use crate::base::Base;

// Asks of a type that it may be moved and shared.
fn is_shared<T: Send + Sync>() {}

// Where a registry is.
#[allow(dead_code)]
fn are_shared() {
    is_shared::<Base>();
}
