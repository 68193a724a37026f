// What may be moved into a thread, and looked at by several: nothing calls this, and that it is proved is what it shows.
use crate::known::{Known, LoadPlace};

// Asks of a type that it may be moved and shared.
fn is_shared<T: Send + Sync>() {}

// What is known, and what is loaded.
#[allow(dead_code)]
fn are_shared() {
    is_shared::<Known>();
    is_shared::<LoadPlace>();
}
