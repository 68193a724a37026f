// What may be moved into a thread, and looked at by several: nothing calls this, and that it is proved is what it shows.
use crate::closures::ClosureFault;
use crate::trait_name::TraitName;
use crate::traits::Traits;

// Asks of a type that it may be moved and shared.
fn is_shared<T: Send + Sync>() {}

// Names, what a package declares, and a closure's fault.
#[allow(dead_code)]
fn are_shared() {
    is_shared::<TraitName>();
    is_shared::<Traits>();
    is_shared::<ClosureFault>();
}
