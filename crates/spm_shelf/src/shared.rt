// What may be moved into a thread, and looked at by several: nothing calls this, and that it is proved is what it shows.
use crate::file::ShelfFile;
use crate::shelf::Shelf;

// Asks of a type that it may be moved and shared.
fn is_shared<T: Send + Sync>() {}

// Shelves and their files, with all that these hold.
#[allow(dead_code)]
fn are_shared() {
    is_shared::<ShelfFile>();
    is_shared::<Shelf>();
}
