use std::cmp::Ordering;
use std::process::Abort;

/// The sides of a line `CASE => WANTED` of a table.
pub fn sides<'l>(rt: &impl Abort, line: &'l str) -> (&'l str, &'l str) {
    line.split_once(" => ").expect(rt, line)
}

/// Asserts what a case comes to.
pub fn assert_text(rt: &impl Abort, found: &str, wanted: &str, case: &str) {
    assert_eq!(rt; found, wanted, "at {case}");
}

/// The sign of an order.
pub fn sign(order: Ordering) -> &'static str {
    match order {
        Ordering::Less => "<",
        Ordering::Equal => "=",
        Ordering::Greater => ">",
    }
}
