ghost use Rattle.std.specs.Prelude.{◌<◌};

use crate::support::{assert_outcome, assert_text, sides};
use spm_digest::{Summer, hex_of, read_hex, sum};
use spm_resolved::{Resolved, ResolvedFault, write};
use spm_version::Bytes;
use std::alloc::{AllocError, Global};
use std::process::Abort;
use std::test::Fail;

// The SHA-256 of nothing, and NIST's examples (FIPS 180-2, appendix B): one block, and a message that needs a
// second block for its length.
fn sums() -> &'static str {
    " => e3b0c44298fc1c149afbf4c8996fb92427ae41e4649b934ca495991b7852b855
abc => ba7816bf8f01cfea414140de5dae2223b00361a396177a9cb410ff61f20015ad
abcdbcdecdefdefgefghfghighijhijkijkljklmklmnlmnomnopnopq => 248d6a61d20638b8e5c026930c3e6039a33ce45964ff2167f6ecedd419db06c1"
}

// The sum of the message, fed in pieces of this many bytes.
fn sum_in_pieces(message: &[u8], size: usize) -> [u8; 32]
    requires { 0 < size }
{
    let mut summer = Summer::new();
    for piece in message.chunks(size) {
        summer.update(piece);
    }
    summer.finish()
}

// Asserts that digits write the sum of a message, whole and in pieces.
fn assert_sum(rt: &impl Abort, alloc: Global, message: &str, digits: &str) {
    let bytes = message.as_bytes();
    let found = sum(bytes);
    let written = hex_of(alloc, &found).expect(rt, "memory");
    assert_text(rt, written.as_str(), digits, message);
    let read = read_hex(digits).expect(rt, digits);
    let is_same = read == found
        && sum_in_pieces(bytes, 1) == found
        && sum_in_pieces(bytes, 2) == found
        && sum_in_pieces(bytes, 7) == found;
    assert!(rt; is_same);
}

#[test]
fn sums_are_those_of_the_standard(rt: HostRuntime) {
    for line in sums().lines() {
        let (message, digits) = sides(&rt, line);
        assert_sum(&rt, rt.alloc(), message, digits);
    }
}

// Asserts which bytes so many of a digit write, each the same, if any.
fn assert_digits(rt: &impl Abort, alloc: Global, digit: &str, count: usize, wanted: Option<u8>) {
    let digits = digit.repeat(alloc, count).expect(rt, "memory");
    let sum = wanted.map(|byte| [byte; 32]);
    let is_so = read_hex(digits.as_str()) == sum;
    assert!(rt; is_so);
}

#[test]
fn sums_are_64_digits(rt: HostRuntime) {
    let alloc = rt.alloc();
    assert_digits(&rt, alloc, "a", 64, Some(0xaa));
    assert_digits(&rt, alloc, "B", 64, Some(0xbb));
    assert_digits(&rt, alloc, "0", 0, None);
    assert_digits(&rt, alloc, "0", 63, None);
    assert_digits(&rt, alloc, "0", 65, None);
    assert_digits(&rt, alloc, "0", 66, None);
    assert_digits(&rt, alloc, "g", 64, None);
    assert_digits(&rt, alloc, "é", 32, None);
}

fn read(alloc: Global, json: &str) -> Result<Resolved, ResolvedFault> {
    Resolved::read(alloc, json.as_bytes())
}

const NO_PINS: &str = r#"{
  "originHash" : "e3b0c44298fc1c149afbf4c8996fb92427ae41e4649b934ca495991b7852b855",
  "pins" : [

  ],
  "version" : 3
}
"#;

const TWO_PINS: &str = r#"{
  "originHash" : "e3b0c44298fc1c149afbf4c8996fb92427ae41e4649b934ca495991b7852b855",
  "pins" : [
    {
      "identity" : "mona.linkedlist",
      "kind" : "registry",
      "location" : "",
      "state" : {
        "version" : "1.1.0"
      }
    },
    {
      "identity" : "swift.numbers",
      "kind" : "registry",
      "location" : "",
      "state" : {
        "version" : "3.1.0-rc.1+build.7"
      }
    }
  ],
  "version" : 3
}
"#;

// The two pins in one line.
const TWO_IN_ONE_LINE: &str =
    r#"{"version":3,"pins":[{"state":{"version":"1.1.0"},"identity":"mona.LinkedList","kind":"registry","location":"x"},{"identity":"swift.numbers","kind":"registry","location":"","state":{"version":"3.1.0-rc.1+build.7"}}]}"#;

// The file for the pins of a copy of this one, and for a manifest of no bytes.
fn written_again(alloc: Global, json: &str) -> Result<Bytes, ResolvedFault> {
    let copy = read(alloc, json)?.copy(alloc)?;
    Ok(write(alloc, &sum(b""), copy.pins.as_slice())?)
}

// Asserts that the pins of a file are written so.
fn assert_written(rt: &impl Abort, alloc: Global, json: &str, wanted: &str) {
    let found = written_again(alloc, json).expect(rt, json);
    let is_so = found.as_slice() == wanted.as_bytes();
    assert!(rt; is_so);
}

#[test]
fn pins_are_written_in_the_layout_of_swiftpm(rt: HostRuntime) {
    let alloc = rt.alloc();
    assert_written(&rt, alloc, r#"{"pins":[],"version":3}"#, NO_PINS);
    assert_written(&rt, alloc, TWO_IN_ONE_LINE, TWO_PINS);
}

#[test]
fn what_is_written_is_read_back(rt: HostRuntime) {
    let alloc = rt.alloc();
    assert_written(&rt, alloc, NO_PINS, NO_PINS);
    assert_written(&rt, alloc, TWO_PINS, TWO_PINS);
}

#[test]
fn origins_are_read(rt: HostRuntime) -> Result<(), Fail> {
    let found = read(rt.alloc(), NO_PINS)?;
    let origin = found.origin.as_ref().ok_or("an origin")?;
    let wanted = "e3b0c44298fc1c149afbf4c8996fb92427ae41e4649b934ca495991b7852b855";
    assert_text(&rt, origin.as_str(), wanted, "an origin");
    Ok(())
}

// Lock files with the place and the kind of their first fault.
fn files() -> &'static str {
    r#"{"pins":[],"version":3} => ok
{"originHash":null,"pins":[],"version":3} => ok
{"originHash":"x","pins":[],"version":3,"other":4} => ok
 => /: not JSON
{ => /: not JSON
[] => /: wrong kind
3 => /: wrong kind
{"pins":[]} => /version: missing
{"pins":[],"version":null} => /version: wrong kind
{"pins":[],"version":"3"} => /version: wrong kind
{"pins":[],"version":4} => /version: bad version
{"pins":[],"version":2} => /version: bad version
{"pins":[],"version":3.0} => /version: bad version
{"pins":[],"version":3e0} => /version: bad version
{"pins":[],"version":-3} => /version: bad version
{"originHash":3,"version":4} => /version: bad version
{"originHash":3,"pins":[],"version":3} => /originHash: wrong kind
{"originHash":3,"version":3} => /originHash: wrong kind
{"version":3} => /pins: missing
{"pins":null,"version":3} => /pins: wrong kind
{"pins":{},"version":3} => /pins: wrong kind
{"pins":[3],"version":3} => /pins/0: wrong kind
{"pins":[{"identity":"mona","kind":"registry","location":"","state":{"version":"1.0.0"}}],"version":3} => /pins/0/identity: bad identity
{"pins":[{"identity":"mona.a","kind":"registry","location":"","state":{"version":"1.0"}}],"version":3} => /pins/0/state/version: bad version"#
}

#[test]
fn the_first_fault_of_a_lock_file_is_told(rt: HostRuntime) {
    let alloc = rt.alloc();
    for line in files().lines() {
        let (json, wanted) = sides(&rt, line);
        assert_outcome(&rt, alloc, read(alloc, json), wanted, json);
    }
}

// Pins behind one of the registry, with the place and the kind of their first fault.
fn pins() -> &'static str {
    r#"{"identity":"mona.b","kind":"registry","location":"","state":{"version":"1.0.0"}} => ok
{"identity":"mona.a","kind":"registry","location":"","state":{"version":"1.0.0"}} => /pins/1/identity: doubled
{"identity":"Mona.A","kind":"registry","location":"","state":{"version":"1.0"}} => /pins/1/identity: doubled
{"identity":"mona","kind":"registry","location":"","state":{"version":"1.0"}} => /pins/1/identity: bad identity
{"identity":null,"kind":"registry","location":"","state":{"version":"1.0.0"}} => /pins/1/identity: wrong kind
{"kind":"registry","location":"","state":{"version":"1.0.0"}} => /pins/1/identity: missing
{"identity":"mona","location":"","state":{"version":"1.0.0"}} => /pins/1/kind: missing
{"identity":"mona","kind":[],"state":{"version":"1.0.0"}} => /pins/1/kind: wrong kind
{"identity":"mona","kind":"registry","state":{"version":"1.0.0"}} => /pins/1/location: missing
{"identity":"mona","kind":"registry","location":3} => /pins/1/location: wrong kind
{"identity":"mona","kind":"registry","location":""} => /pins/1/state: missing
{"identity":"mona","kind":"registry","location":"","state":[]} => /pins/1/state: wrong kind
{"identity":"mona.b","kind":"registry","location":"","state":{}} => /pins/1/state/version: missing
{"identity":"mona.b","kind":"registry","location":"","state":{"version":1}} => /pins/1/state/version: wrong kind
{"identity":"mona.b","kind":"registry","location":"","state":{"version":"1.0"}} => /pins/1/state/version: bad version
{"identity":"mona.a","kind":"remoteSourceControl","location":"https://a/a","state":{"revision":"x"}} => ok
{"identity":"mona","kind":"","location":"","state":{"version":3}} => ok
{"identity":"mona","kind":"remoteSourceControl","location":""} => /pins/1/state: missing
{"identity":"mona","kind":"remoteSourceControl","location":"","state":null} => /pins/1/state: wrong kind
[] => /pins/1: wrong kind"#
}

// A lock file with a pin of the registry before these.
fn lock_with(alloc: Global, pins: &str) -> Result<String, AllocError> {
    format!(in alloc;
        r#"{{"pins":[{{"identity":"mona.a","kind":"registry","location":"","state":{{"version":"1.0.0"}}}},{pins}],"version":3}}"#
    )
}

// Asserts what reading a lock file with this pin behind one of the registry comes to.
fn assert_pin(rt: &impl Abort, alloc: Global, pin: &str, wanted: &str) {
    let json = lock_with(alloc, pin).expect(rt, "memory");
    let found = read(alloc, json.as_str());
    assert_outcome(rt, alloc, found, wanted, pin);
}

#[test]
fn the_first_fault_of_a_pin_is_told(rt: HostRuntime) {
    for line in pins().lines() {
        let (pin, wanted) = sides(&rt, line);
        assert_pin(&rt, rt.alloc(), pin, wanted);
    }
}

// Two pins of one identity that are on no package of the registry.
const OTHERS: &str =
    r#"{"identity":"a","kind":"remoteSourceControl","location":"","state":{}},{"identity":"a","kind":"localSourceControl","location":"","state":{}}"#;

#[test]
fn pins_of_other_kinds_are_read_over(rt: HostRuntime) {
    let alloc = rt.alloc();
    let json = lock_with(alloc, OTHERS).expect(&rt, "memory");
    let found = read(alloc, json.as_str()).expect(&rt, "a lock file");
    assert_eq!(rt; found.pins.as_slice().len(), 1);
}

#[test]
fn a_lock_file_cut_short_is_not_read(rt: HostRuntime) {
    let alloc = rt.alloc();
    let bytes = TWO_PINS.trim_end().as_bytes();
    for end in 0..bytes.len() {
        let found = Resolved::read(alloc, &bytes[..end]);
        assert_outcome(&rt, alloc, found, "/: not JSON", "a prefix");
    }
}

// That many pins, each with a comma behind it.
fn many_pins(alloc: Global, count: u32) -> Result<String, AllocError> {
    let mut pins = String::new(alloc);
    for number in 0..count {
        write!(
            pins,
            r#"{{"identity":"mona.p{number}","kind":"registry","location":"","state":{{"version":"1.0.{number}"}}}},"#
        )?;
    }
    Ok(pins)
}

// A lock file with these pins before a last one.
fn lock_ending(alloc: Global, pins: &str, last: &str) -> Result<String, AllocError> {
    let pins = format!(in alloc;
        r#"{pins}{{"identity":"{last}","kind":"registry","location":"","state":{{"version":"1.0.0"}}}}"#
    )?;
    lock_with(alloc, pins.as_str())
}

// Asserts what reading a lock file with a pin, these pins and a last one comes to.
fn assert_ending(rt: &impl Abort, alloc: Global, many: &str, last: &str, wanted: &str) {
    let json = lock_ending(alloc, many, last).expect(rt, "memory");
    let found = read(alloc, json.as_str());
    assert_outcome(rt, alloc, found, wanted, last);
}

#[test]
fn a_lock_file_has_1024_pins(rt: HostRuntime) {
    let alloc = rt.alloc();
    let many = many_pins(alloc, 1022).expect(&rt, "memory");
    let many = many.as_str();
    assert_ending(&rt, alloc, many, "mona.b", "ok");
    assert_ending(&rt, alloc, many, "mona.a", "/pins/1023/identity: doubled");
    assert_ending(
        &rt,
        alloc,
        many,
        "mona.p1021",
        "/pins/1023/identity: doubled",
    );
}
