use crate::gate::Gate;
use spm_version::{NoMemory, Text};
use std::alloc::Global;
use std::hint;
use std::sync::atomic::{AtomicBool, Ordering};

/// A gate that holds who comes to one key until somebody has done another one. It looks so often at most, and then lets pass.
#[derive(Drop)]
pub struct StepGate {
    held: Text,
    until: Text,
    turns: u64,
    open: AtomicBool,
    late: AtomicBool,
}

impl StepGate {
    /// A gate that holds `before` on the key `held` until an `after` on the key `until`, for as many looks as `turns` says at most. The
    /// texts are the paths of the keys.
    ///
    /// # Errors
    ///
    /// `NoMemory` alone.
    pub fn new(alloc: Global, held: &str, until: &str, turns: u64) -> Result<StepGate, NoMemory> {
        Ok(StepGate {
            held: Text::from_str(alloc, held)?,
            until: Text::from_str(alloc, until)?,
            turns,
            open: AtomicBool::new(false),
            late: AtomicBool::new(false),
        })
    }

    /// Whether it has let somebody pass whom it held, without what they waited for.
    pub fn late(&self) -> bool {
        self.late.load(Ordering::SeqCst)
    }

    // Looks until the gate is open, or its turns are over. It says which.
    fn opens(&self) -> bool {
        for _ in 0..self.turns {
            if self.open.load(Ordering::SeqCst) {
                return true;
            }
            hint::spin_loop();
        }
        false
    }
}

impl Gate for StepGate {
    fn before(&self, _actor: u32, key: &str) {
        if key == self.held.as_str() && !self.opens() {
            self.late.store(true, Ordering::SeqCst);
        }
    }

    fn after(&self, _actor: u32, key: &str) {
        if key == self.until.as_str() {
            self.open.store(true, Ordering::SeqCst);
        }
    }
}
