// What may be moved into a thread, and looked at by several: nothing calls this, and that it is proved is what it shows.
use crate::bytes::Bytes;
use crate::items::Items;
use crate::release::Release;
use crate::requirement::Requirement;
use crate::text::Text;

// Asks of a type that it may be moved and shared.
fn is_shared<T: Send + Sync>() {}

// Texts, bytes, lists, releases and requirements.
#[allow(dead_code)]
fn are_shared() {
    is_shared::<Text>();
    is_shared::<Bytes>();
    is_shared::<Items<Text>>();
    is_shared::<Release>();
    is_shared::<Requirement>();
}
