use spm_json::ReadFault;
use spm_version::NoMemory;
use std::alloc::{AllocError, Global};
use std::process::Abort;

/// The sides of a line `CASE => WANTED` of a table.
pub fn sides<'l>(rt: &impl Abort, line: &'l str) -> (&'l str, &'l str) {
    line.split_once(" => ").expect(rt, line)
}

/// Asserts what a case comes to.
pub fn assert_text(rt: &impl Abort, found: &str, wanted: &str, case: &str) {
    assert_eq!(rt; found, wanted, "at {case}");
}

/// What a fault comes to: `PLACE: KIND` of a copy of it.
pub fn fault_text(alloc: Global, fault: &ReadFault) -> Result<String, NoMemory> {
    match fault.copy(alloc)? {
        ReadFault::At { place, kind } => format!(in alloc; "{place}: {kind}"),
        ReadFault::Memory => Err(NoMemory),
    }
}

/// What reading comes to: `ok`, or its first fault.
pub fn outcome<T: Drop>(alloc: Global, found: Result<T, ReadFault>) -> Result<String, NoMemory> {
    match found {
        Ok(_) => Ok(String::from_str(alloc, "ok")?),
        Err(fault) => fault_text(alloc, &fault),
    }
}

/// Asserts what reading comes to.
pub fn assert_outcome<T: Drop>(
    rt: &impl Abort,
    alloc: Global,
    found: Result<T, ReadFault>,
    wanted: &str,
    case: &str,
) {
    let text = outcome(alloc, found).expect(rt, "memory");
    assert_text(rt, text.as_str(), wanted, case);
}

/// That many lists in one another, the innermost empty.
pub fn nested_lists(alloc: Global, levels: usize) -> Result<String, AllocError> {
    let opening = "[".repeat(alloc, levels)?;
    let closing = "]".repeat(alloc, levels)?;
    format!(in alloc; "{opening}{closing}")
}
