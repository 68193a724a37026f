// What may be moved into a thread, and looked at by several: nothing calls this, and that it is proved is what it shows.
use crate::chronicle::Chronicle;
use crate::lock::TurnLock;
use crate::seat::Seat;

// Asks of a type that it may be moved.
fn is_moved<T: Send>() {}

// Asks of a type that it may be shared.
fn is_shared<T: Sync>() {}

// Seats and locks, of any state that may be moved.
#[allow(dead_code)]
fn are_shared<T: Chronicle + Send + Drop>() {
    is_moved::<Seat<T>>();
    is_moved::<TurnLock<T>>();
    is_shared::<TurnLock<T>>();
}
