// What may be moved into a thread, and looked at by several: nothing calls this, and that it is proved is what it shows.
use crate::cause::{Cause, Subject};
use crate::node::NodeName;
use crate::term::{Incompat, Term};

// Asks of a type that it may be moved and shared.
fn is_shared<T: Send + Sync>() {}

// Terms, incompatibilities, names and causes.
#[allow(dead_code)]
fn are_shared() {
    is_shared::<Term>();
    is_shared::<Incompat>();
    is_shared::<NodeName>();
    is_shared::<Cause>();
    is_shared::<Subject>();
}
