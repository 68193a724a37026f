ghost use Rattle.std.specs.Prelude.{◌≡◌, IfSome, IfOk};
ghost use Rattle.std.specs.FinMap as map;
ghost use Rattle.spm_outside.specs.Desk.{DeskState, FilesAfterPut, failed_after};
ghost use Rattle.spm_outside.specs.Faults.{FaultsAfter};

pub use crate::fault::CallFault as DeskFault;
use spm_version::Bytes;

/// Files, each read and written as a whole.
///
/// A desk may tell its files, and the names of the calls that failed. `None` is a meaning that isn't told.
pub trait Desk {
    ghost state: { Self → DeskState };

    /// The bytes of the file with this name, or `None` where there is no such file.
    ///
    /// # Errors
    ///
    /// `Failed` where the desk failed, so that nothing is known of the file, and `Memory`.
    fn get(&mut self, name: &str) -> Result<Option<Bytes>, DeskFault>
        ensures found { IfOk result (λ found. IfSome (state self.old).files (λ known. found ≡ map.get known name.now)) }
        ensures files { (state self.new).files ≡ (state self.old).files }
        ensures failed { (state self.new).failed ≡ failed_after result name.now (state self.old).failed }
        ensures faults { FaultsAfter result (state self.old).faults (state self.new).faults };

    /// Makes the bytes the file with this name, new or in place of an old one.
    ///
    /// # Errors
    ///
    /// `Failed` where the file can't be written, which leaves it unknown and the others as they were, and
    /// `Memory`, which leaves all as it was.
    fn put(&mut self, name: &str, bytes: &[u8]) -> Result<(), DeskFault>
        ensures files { FilesAfterPut result name.now bytes.now (state self.old).files (state self.new).files }
        ensures failed { (state self.new).failed ≡ failed_after result name.now (state self.old).failed }
        ensures faults { FaultsAfter result (state self.old).faults (state self.new).faults };
}
