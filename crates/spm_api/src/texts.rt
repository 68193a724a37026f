ghost use Rattle.std.specs.Prelude.{◌≡◌, IfOk};
ghost use Rattle.std.specs.Result.{result_ok};
ghost use Rattle.spm_ident.specs.Identity.{identity_of};
ghost use Rattle.spm_version.specs.Release.{release_of};

use spm_ident::{IdentFault, Identity};
use spm_version::{NoMemory, Release, VersionFault};
use std::alloc::Global;

/// The identity that a text is, if it is one.
///
/// # Errors
///
/// `NoMemory` alone.
pub fn identity_of(alloc: Global, text: &str) -> Result<Option<Identity>, NoMemory>
    ensures { IfOk result (λ identity. identity ≡ result_ok (identity_of text.now)) }
{
    match Identity::parse(alloc, text) {
        Ok(identity) => Ok(Some(identity)),
        Err(IdentFault::Memory) => Err(NoMemory),
        Err(_) => Ok(None),
    }
}

/// The release that a text is, if it is one.
///
/// # Errors
///
/// `NoMemory` alone.
pub fn release_of(alloc: Global, text: &str) -> Result<Option<Release>, NoMemory>
    ensures { IfOk result (λ release. release ≡ release_of text.now) }
{
    match Release::parse(alloc, text) {
        Ok(release) => Ok(Some(release)),
        Err(VersionFault::BadVersion) => Ok(None),
        Err(VersionFault::Memory) => Err(NoMemory),
    }
}
