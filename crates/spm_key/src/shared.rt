// What may be moved into a thread, and looked at by several: nothing calls this, and that it is proved is what it shows.
use crate::key::Key;
use crate::reply::{Body, Reply};

// Asks of a type that it may be moved and shared.
fn is_shared<T: Send + Sync>() {}

// Keys, and what is answered to them.
#[allow(dead_code)]
fn are_shared() {
    is_shared::<Key>();
    is_shared::<Reply>();
    is_shared::<Body>();
}
