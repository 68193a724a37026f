/// A gate that an actor passes before and after it works on a key, so that a test can order what happens at once.
/// It promises nothing: what the actors do holds whatever it does.
pub trait Gate {
    /// The actor is about to work on the key.
    fn before(&self, actor: u32, key: &str);

    /// The actor has worked on the key.
    fn after(&self, actor: u32, key: &str);
}

/// The gate that lets everybody pass.
#[derive(Clone, Copy, Debug)]
pub struct OpenGate;

impl Gate for OpenGate {
    fn before(&self, _actor: u32, _key: &str) {}

    fn after(&self, _actor: u32, _key: &str) {}
}
