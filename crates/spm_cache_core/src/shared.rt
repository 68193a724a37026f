// What may be moved into a thread, and looked at by several: nothing calls this, and that it is proved is what it shows.
use crate::answer::{Asked, Claimed, Ticket};
use crate::event::{Act, Event};
use crate::reply::SharedReply;
use crate::state::CacheState;

// Asks of a type that it may be moved and shared.
fn is_shared<T: Send + Sync>() {}

// The state, what happened, and what is answered.
#[allow(dead_code)]
fn are_shared() {
    is_shared::<CacheState>();
    is_shared::<SharedReply>();
    is_shared::<Event>();
    is_shared::<Act>();
    is_shared::<Ticket>();
    is_shared::<Asked>();
    is_shared::<Claimed>();
}
