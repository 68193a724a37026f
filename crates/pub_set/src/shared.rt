// What may be moved into a thread, and looked at by several: nothing calls this, and that it is proved is what it shows.
use crate::choices::Choices;
use crate::runs::Run;

// Asks of a type that it may be moved and shared.
fn is_shared<T: Send + Sync>() {}

// Sets and their runs.
#[allow(dead_code)]
fn are_shared() {
    is_shared::<Choices>();
    is_shared::<Run>();
}
