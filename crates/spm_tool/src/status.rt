// The exit statuses.
ghost use Rattle.std.specs.Prelude.{◌≡◌, ◌==◌};
ghost use Rattle.std.specs.List.{list_any};
ghost use Rattle.spm_tool.specs.Report.{file_status, outcome_status, put_status, status_after, status_among};

use crate::ending::{FileEnding, PutEnding};
use spm_outside::SinkFault;
use spm_session::Outcome;

// The status of an outcome: a refusal is 3. 7 stands for none.
pub fn outcome_status(outcome: &Outcome) -> u8
    ensures { result ≡ outcome_status outcome.now }
{
    match outcome {
        Outcome::Resolved { .. } => 0,
        Outcome::Refuted { .. } => 1,
        Outcome::ChecksumDiffers(_, _, _, _) | Outcome::TrustDiffers(_, _, _, _) => 5,
        Outcome::FetchFault(_) | Outcome::DeskFault(_) => 4,
        Outcome::Memory => 6,
        Outcome::Cancelled(_) => 7,
        _ => 3,
    }
}

// The status of a put.
pub fn put_status(put: PutEnding) -> u8
    ensures { result ≡ put_status put }
{
    match put {
        PutEnding::Nothing | PutEnding::Done => 0,
        PutEnding::Failed => 4,
        PutEnding::Memory => 6,
    }
}

// The status of a run without one of the files that it begins with.
pub fn file_status(why: &FileEnding) -> u8
    ensures { result ≡ file_status why.now }
{
    match why {
        FileEnding::Fault => 4,
        FileEnding::Memory => 6,
        FileEnding::Missing | FileEnding::Unreadable(_, _) => 3,
    }
}

// Whether this status is given.
fn is_given(given: &[u8], status: u8) -> bool
    ensures { result ≡ list_any (λ one. status == one) given.now }
{
    given.contains(&status)
}

// The first of 6, 4, 5, 3, 1 and 0 that is given.
pub fn status_among(given: &[u8]) -> u8
    ensures { result ≡ status_among given.now }
{
    if is_given(given, 6) {
        6
    } else if is_given(given, 4) {
        4
    } else if is_given(given, 5) {
        5
    } else if is_given(given, 3) {
        3
    } else if is_given(given, 1) {
        1
    } else {
        0
    }
}

// The status, with what the sink answered to the report.
pub fn status_after(status: u8, answer: Result<(), SinkFault>) -> u8
    ensures { result ≡ status_after status answer }
{
    match answer {
        Ok(()) => status,
        Err(SinkFault::Failed) if status != 6 => 4,
        Err(_) => 6,
    }
}
