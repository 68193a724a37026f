// What may be moved into a thread, and looked at by several: nothing calls this, and that it is proved is what it shows.
use crate::cache::Cache;
use crate::pass::Pass;

// Asks of a type that it may be moved.
fn is_moved<T: Send>() {}

// Asks of a type that it may be shared.
fn is_shared<T: Sync>() {}

// Passes and caches.
#[allow(dead_code)]
fn are_shared() {
    is_moved::<Pass>();
    is_moved::<Cache>();
    is_shared::<Cache>();
}
