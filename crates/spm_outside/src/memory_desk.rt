ghost use Rattle.std.specs.Prelude.{◌≡◌, ℕ, [], Err, IfOk, IfSome, IsErr, IsErrOf, IsTrue, OnErr, OnOk, Some, option_copied};
ghost use Rattle.std.specs.FinMap as map;
ghost use Rattle.spm_outside.specs.Desk.{FilesAfterPut, failed_after};
ghost use Rattle.spm_outside.specs.Faults.{FaultsAfter, Rises};
ghost use Rattle.spm_outside.specs.Memory.{files_of_desk, plan_of_desk, state_of_desk};
ghost use Rattle.spm_outside.specs.Schedule.{after_call, fails_next};
ghost use Rattle.spm_outside.specs.declared.fault.CallFault.TheVariants.{Failed};

use crate::desk::{Desk, DeskFault};
use crate::files::Files;
use crate::schedule::Schedule;
use spm_version::{Bytes, Items, NoMemory, Text};
use std::alloc::Global;

/// A desk in memory, which tells all. Its gets and puts are numbered from 1 on, together, and those with a
/// listed number fail. A put that fails leaves the file as it was.
#[derive(Drop)]
pub struct MemoryDesk {
    alloc: Global,
    files: Files,
    failed: Items<Text>,
    faults: u64,
    schedule: Schedule,
}

impl MemoryDesk {
    /// A desk with no files, whose calls with these numbers fail.
    ///
    /// # Errors
    ///
    /// `NoMemory` alone.
    pub fn new(alloc: Global, failing: &[u64]) -> Result<MemoryDesk, NoMemory>
        ensures state { IfOk result
            (λ desk. state_of_desk desk ≡ record { files = Some map.empty; failed = Some []; faults = 0 }) }
        ensures plan { IfOk result (λ desk. plan_of_desk desk ≡ record { failing = failing.now; calls = 0 }) }
    {
        let schedule = Schedule::new(alloc, failing)?;
        Ok(MemoryDesk {
            alloc,
            files: Files::new(alloc),
            failed: Items::new(alloc),
            faults: 0,
            schedule,
        })
    }

    /// Makes the bytes the file with this name. It is no call of the desk, so it has no number.
    ///
    /// # Errors
    ///
    /// `NoMemory` alone.
    pub fn set(&mut self, name: &str, bytes: &[u8]) -> Result<(), NoMemory>
        ensures ok { OnOk result
            (files_of_desk self.new ≡ map.insert (files_of_desk self.old) name.now bytes.now) }
        ensures err { OnErr result (files_of_desk self.new ≡ files_of_desk self.old) }
        ensures failed { (state_of_desk self.new).failed ≡ (state_of_desk self.old).failed }
        ensures faults { (state_of_desk self.new).faults ≡ (state_of_desk self.old).faults }
        ensures plan { plan_of_desk self.new ≡ plan_of_desk self.old }
    {
        self.files.set(self.alloc, name, bytes)
    }

    /// The file with this name, if there is one. It is no call of the desk, so it has no number.
    pub fn file(&self, name: &str) -> Option<&Bytes>
        ensures { option_copied result ≡ map.get (files_of_desk self.now) name.now }
    {
        self.files.get(name)
    }

    /// The names of the calls that failed, in their order.
    pub fn failed(&self) -> &[Text]
        ensures { Some result.now ≡ (state_of_desk self.now).failed }
    {
        self.failed.as_slice()
    }

    /// How many calls failed, up to the greatest u64.
    pub fn faults(&self) -> u64
        ensures { result ≡ (state_of_desk self.now).faults }
    {
        self.faults
    }

    // Records that a call on this name fails.
    fn note_failure(&mut self, name: &str) -> Result<(), NoMemory>
        ensures names { OnOk result ((state_of_desk self.new).failed
            ≡ failed_after {T = ℕ} (Err Failed) name.now (state_of_desk self.old).failed) }
        ensures rises { OnOk result (Rises (state_of_desk self.old).faults (state_of_desk self.new).faults) }
        ensures err { OnErr result (state_of_desk self.new ≡ state_of_desk self.old) }
        ensures files { files_of_desk self.new ≡ files_of_desk self.old }
        ensures plan { plan_of_desk self.new ≡ plan_of_desk self.old }
    {
        let name = Text::from_str(self.alloc, name)?;
        self.failed.push(name)?;
        self.faults = self.faults.saturating_add(1);
        Ok(())
    }
}

impl Desk for MemoryDesk {
    ghost state = { state_of_desk };

    fn get(&mut self, name: &str) -> Result<Option<Bytes>, DeskFault>
        ensures found { IfOk result (λ found. found ≡ map.get (files_of_desk self.old) name.now) }
        ensures files { (state_of_desk self.new).files ≡ (state_of_desk self.old).files }
        ensures failed { (state_of_desk self.new).failed ≡ failed_after result name.now (state_of_desk self.old).failed }
        ensures faults { FaultsAfter result (state_of_desk self.old).faults (state_of_desk self.new).faults }

        // A listed call fails, or has no memory to record it, and no other call fails.
        ensures fails { IsErrOf result DeskFault.Failed → IsTrue (fails_next (plan_of_desk self.old)) }
        ensures listed { IsTrue (fails_next (plan_of_desk self.old)) → IsErr result }
        ensures counted { plan_of_desk self.new ≡ after_call (plan_of_desk self.old) }
    {
        if self.schedule.next_fails() {
            self.note_failure(name)?;
            return Err(DeskFault::Failed);
        }
        match self.files.get(name) {
            Some(bytes) => Ok(Some(bytes.copy(self.alloc)?)),
            None => Ok(None),
        }
    }

    fn put(&mut self, name: &str, bytes: &[u8]) -> Result<(), DeskFault>
        ensures files { FilesAfterPut result name.now bytes.now
            (state_of_desk self.old).files (state_of_desk self.new).files }
        ensures failed { (state_of_desk self.new).failed ≡ failed_after result name.now (state_of_desk self.old).failed }
        ensures faults { FaultsAfter result (state_of_desk self.old).faults (state_of_desk self.new).faults }

        // A listed call fails, or has no memory to record it, and no other call fails.
        ensures fails { IsErrOf result DeskFault.Failed → IsTrue (fails_next (plan_of_desk self.old)) }
        ensures listed { IsTrue (fails_next (plan_of_desk self.old)) → IsErr result }
        ensures counted { plan_of_desk self.new ≡ after_call (plan_of_desk self.old) }

        // The file of a failed put is as it was.
        ensures err { OnErr result (files_of_desk self.new ≡ files_of_desk self.old) }
    {
        if self.schedule.next_fails() {
            self.note_failure(name)?;
            return Err(DeskFault::Failed);
        }
        self.files.set(self.alloc, name, bytes)?;
        Ok(())
    }
}
