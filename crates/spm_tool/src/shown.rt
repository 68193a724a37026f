// The command `fingerprints`.
ghost use Rattle.std.specs.Prelude.{◌≡◌, IfOk};
ghost use Rattle.spm_tool.specs.Shown.{shown_report, shown_status};

use crate::ending::FileEnding;
use crate::report::file_report;
use crate::status::file_status;
use spm_trust::Trust;
use spm_version::{Bytes, NoMemory};
use std::alloc::Global;

/// The lines on the fingerprints that a file keeps, or the one on the file.
pub fn shown_report(
    alloc: Global,
    name: &str,
    found: &Result<Trust, FileEnding>,
) -> Result<Bytes, NoMemory>
    ensures { IfOk result (λ report. report ≡ shown_report name.now found.now) }
{
    let text = match found {
        Ok(trust) => trust.lines(alloc)?.into_string(),
        Err(why) => file_report(alloc, name, why)?,
    };
    Ok(Bytes::from_vec(text.into_bytes()))
}

/// The status of showing them.
pub fn shown_status(found: &Result<Trust, FileEnding>) -> u8
    ensures { result ≡ shown_status found.now }
{
    match found {
        Ok(_) => 0,
        Err(why) => file_status(why),
    }
}
