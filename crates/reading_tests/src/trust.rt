use crate::support::{assert_outcome, assert_text, fault_text, sides};
use spm_ident::Identity;
use spm_trust::{Met, Trust, TrustFault};
use spm_version::{NoMemory, Release};
use std::alloc::Global;
use std::process::Abort;

// The SHA-256 of no bytes.
const EMPTY: &str = "e3b0c44298fc1c149afbf4c8996fb92427ae41e4649b934ca495991b7852b855";

fn read(alloc: Global, json: &str) -> Result<Trust, TrustFault> {
    Trust::read(alloc, json.as_bytes())
}

// The lines of a copy of the map that a file is, with a semicolon in place of each line feed, or the file's first fault.
fn lines_of(alloc: Global, json: &str) -> Result<String, NoMemory> {
    match read(alloc, json) {
        Ok(trust) => {
            let lines = trust.copy(alloc)?.lines(alloc)?;
            lines.as_str().replace(alloc, "\n", ";")
        }
        Err(fault) => fault_text(alloc, &fault),
    }
}

// Files with what is kept of them, or with their first fault. `HEX` stands for the digits of a sum.
fn files() -> &'static str {
    r#"{"fingerprints":{},"version":1} => 
{"version":1,"fingerprints":{"mona.A":{}},"other":3} => 
{"fingerprints":{"mona.B":{"1.9.0":"HEX","1.10.0":"HEX"},"mona.a":{},"Mona.C":{"1.0.0+00":"HEX","1.0.0+0":"HEX","1.0.0":"HEX"}},"version":1} => mona.b 1.10.0 HEX;mona.b 1.9.0 HEX;mona.c 1.0.0 HEX;mona.c 1.0.0+0 HEX;mona.c 1.0.0+00 HEX;
{"fingerprints":{"mona.a":{"1.0.0":3,"1.0.0":"HEX"}},"version":1} => mona.a 1.0.0 HEX;
 => /: not JSON
{"fingerprints":{},"version":1 => /: not JSON
[] => /: wrong kind
{"fingerprints":{}} => /version: missing
{"fingerprints":{},"version":null} => /version: wrong kind
{"fingerprints":{},"version":"1"} => /version: wrong kind
{"fingerprints":{},"version":2} => /version: bad version
{"fingerprints":{},"version":1.0} => /version: bad version
{"fingerprints":{},"version":-1} => /version: bad version
{"fingerprints":[],"version":2} => /version: bad version
{"version":1} => /fingerprints: missing
{"fingerprints":null,"version":1} => /fingerprints: wrong kind
{"fingerprints":[],"version":1} => /fingerprints: wrong kind
{"fingerprints":{"mona":{}},"version":1} => /fingerprints: bad identity
{"fingerprints":{"mona":[]},"version":1} => /fingerprints: bad identity
{"fingerprints":{"mona.a":[]},"version":1} => /fingerprints: wrong kind
{"fingerprints":{"mona.a":[],"mona":{}},"version":1} => /fingerprints: bad identity
{"fingerprints":{"mona.A":{},"mona.a":{}},"version":1} => /fingerprints: doubled
{"fingerprints":{"mona.A":{"1.0.0":"HEX"},"mona.a":{"1.0.0":"HEX"}},"version":1} => /fingerprints: doubled
{"fingerprints":{"mona.A":{},"mona.a":[]},"version":1} => /fingerprints: doubled
{"fingerprints":{"mona.a":{"1.0":3}},"version":1} => /fingerprints: bad version
{"fingerprints":{"mona.a":{"1.0.0":3}},"version":1} => /fingerprints: wrong kind
{"fingerprints":{"mona.a":{"1.0.0":null}},"version":1} => /fingerprints: wrong kind
{"fingerprints":{"mona.a":{"1.0.0":""}},"version":1} => /fingerprints: bad hex
{"fingerprints":{"mona.a":{"1.0.0":"HEX0"}},"version":1} => /fingerprints: bad hex"#
}

// Asserts what a file comes to.
fn assert_file(rt: &impl Abort, alloc: Global, line: &str) {
    let line = line.replace(alloc, "HEX", EMPTY).expect(rt, "memory");
    let (json, wanted) = sides(rt, line.as_str());
    let found = lines_of(alloc, json).expect(rt, "memory");
    assert_text(rt, found.as_str(), wanted, json);
}

#[test]
fn files_are_read(rt: HostRuntime) {
    for line in files().lines() {
        assert_file(&rt, rt.alloc(), line);
    }
}

// Digits, with what a file that has them for a version comes to.
fn digits() -> &'static str {
    "e3b0c44298fc1c149afbf4c8996fb92427ae41e4649b934ca495991b7852b855 => ok
E3B0C44298FC1C149AFBF4C8996FB92427AE41E4649B934CA495991B7852B855 => ok
e3b0c44298fc1c149afbf4c8996fb92427ae41e4649b934ca495991b7852b85 => /fingerprints: bad hex
e3b0c44298fc1c149afbf4c8996fb92427ae41e4649b934ca495991b7852b8555 => /fingerprints: bad hex
g3b0c44298fc1c149afbf4c8996fb92427ae41e4649b934ca495991b7852b855 => /fingerprints: bad hex"
}

// Asserts what a file with these digits comes to.
fn assert_digits(rt: &impl Abort, alloc: Global, digits: &str, wanted: &str) {
    let json = format!(in alloc;
        r#"{{"fingerprints":{{"mona.a":{{"1.0.0":"{digits}"}}}},"version":1}}"#
    ).expect(rt, "memory");
    assert_outcome(rt, alloc, read(alloc, json.as_str()), wanted, digits);
}

#[test]
fn sums_are_64_digits_of_either_case(rt: HostRuntime) {
    for line in digits().lines() {
        let (digits, wanted) = sides(&rt, line);
        assert_digits(&rt, rt.alloc(), digits, wanted);
    }
}

// A file in its own order, with digits in upper case, spaces and a package without versions.
const UNSORTED: &str =
    r#"{ "version": 1, "fingerprints": { "mona.B": { "1.9.0": "E3B0C44298FC1C149AFBF4C8996FB92427AE41E4649B934CA495991B7852B855", "1.10.0": "ba7816bf8f01cfea414140de5dae2223b00361a396177a9cb410ff61f20015ad" }, "mona.none": {}, "mona.a": { "2.0.0-rc.1+x": "e3b0c44298fc1c149afbf4c8996fb92427ae41e4649b934ca495991b7852b855" } } }"#;

// The same map, as it is written.
const SORTED: &str =
    r#"{"fingerprints":{"mona.a":{"2.0.0-rc.1+x":"e3b0c44298fc1c149afbf4c8996fb92427ae41e4649b934ca495991b7852b855"},"mona.b":{"1.10.0":"ba7816bf8f01cfea414140de5dae2223b00361a396177a9cb410ff61f20015ad","1.9.0":"e3b0c44298fc1c149afbf4c8996fb92427ae41e4649b934ca495991b7852b855"}},"version":1}
"#;

// The lines of the same map.
const LINES: &str =
    "mona.a 2.0.0-rc.1+x e3b0c44298fc1c149afbf4c8996fb92427ae41e4649b934ca495991b7852b855
mona.b 1.10.0 ba7816bf8f01cfea414140de5dae2223b00361a396177a9cb410ff61f20015ad
mona.b 1.9.0 e3b0c44298fc1c149afbf4c8996fb92427ae41e4649b934ca495991b7852b855
";

// Asserts which file and which lines a map is written as.
fn assert_written(rt: &impl Abort, alloc: Global, trust: &Trust, file: &str, lines: &str) {
    let text = trust.text(alloc).expect(rt, "memory");
    let is_so = text.as_slice() == file.as_bytes();
    assert!(rt; is_so);
    let found = trust.lines(alloc).expect(rt, "memory");
    assert_text(rt, found.as_str(), lines, file);
}

#[test]
fn what_is_read_is_written_in_order(rt: HostRuntime) {
    let alloc = rt.alloc();
    let trust = read(alloc, UNSORTED).expect(&rt, "a file");
    assert_written(&rt, alloc, &trust, SORTED, LINES);
    let trust = read(alloc, SORTED).expect(&rt, "a file");
    assert_written(&rt, alloc, &trust, SORTED, LINES);
    let trust = Trust::empty(alloc);
    let none = "{\"fingerprints\":{},\"version\":1}\n";
    assert_written(&rt, alloc, &trust, none, "");
}

#[test]
fn a_file_cut_short_is_not_read(rt: HostRuntime) {
    let alloc = rt.alloc();
    let bytes = SORTED.trim_end().as_bytes();
    for end in 0..bytes.len() {
        let found = Trust::read(alloc, &bytes[..end]);
        assert_outcome(&rt, alloc, found, "/: not JSON", "a prefix");
    }
}

// What a sum of this byte alone comes to for `mona.a`, by a letter: it is known, new or differs. Where it doesn't differ, it is kept.
fn meeting(
    rt: &impl Abort,
    alloc: Global,
    trust: &mut Trust,
    version: &str,
    byte: u8,
) -> &'static str {
    let identity = Identity::parse(alloc, "Mona.A").expect(rt, "an identity");
    let release = Release::parse(alloc, version).expect(rt, version);
    let said = [byte; 32];
    match trust.meet(&identity, &release, &said) {
        Met::Differs { kept, said } => {
            let is_so = kept != said && trust.look(&identity, &release) == Some(kept);
            assert!(rt; is_so);
            return "differs";
        }
        Met::Known => return "known",
        Met::New => {}
    }
    trust.add(&identity, &release, said).expect(rt, "memory");
    "new"
}

// Asserts what a sum comes to.
fn assert_meeting(
    rt: &impl Abort,
    alloc: Global,
    trust: &mut Trust,
    version: &str,
    byte: u8,
    wanted: &str,
) {
    let found = meeting(rt, alloc, trust, version, byte);
    assert_text(rt, found, wanted, version);
}

// The lines of what is kept in the end.
const ADDED: &str = "mona.a 1.0.0 0101010101010101010101010101010101010101010101010101010101010101
mona.a 1.0.0+0 0202020202020202020202020202020202020202020202020202020202020202
mona.a 1.10.0 0404040404040404040404040404040404040404040404040404040404040404
mona.a 1.9.0 0303030303030303030303030303030303030303030303030303030303030303
";

#[test]
fn a_sum_is_new_and_then_known_or_differs(rt: HostRuntime) {
    let alloc = rt.alloc();
    let mut trust = Trust::empty(alloc);
    assert_meeting(&rt, alloc, &mut trust, "1.9.0", 3, "new");
    assert_meeting(&rt, alloc, &mut trust, "1.0.0", 1, "new");
    assert_meeting(&rt, alloc, &mut trust, "1.0.0+0", 2, "new");
    assert_meeting(&rt, alloc, &mut trust, "1.10.0", 4, "new");
    assert_meeting(&rt, alloc, &mut trust, "1.0.0", 1, "known");
    assert_meeting(&rt, alloc, &mut trust, "1.0.0", 2, "differs");
    assert_meeting(&rt, alloc, &mut trust, "1.0.0+0", 1, "differs");
    let lines = trust.lines(alloc).expect(&rt, "memory");
    assert_text(&rt, lines.as_str(), ADDED, "the lines");
}

// The file of a map with one sum more, for a package that stands before the others, between them or behind them.
const MORE: &str =
    r#"{"fingerprints":{"mona.a":{"2.0.0-rc.1+x":"e3b0c44298fc1c149afbf4c8996fb92427ae41e4649b934ca495991b7852b855"},"mona.aa":{"1.0.0":"0707070707070707070707070707070707070707070707070707070707070707"},"mona.b":{"1.10.0":"ba7816bf8f01cfea414140de5dae2223b00361a396177a9cb410ff61f20015ad","1.9.0":"e3b0c44298fc1c149afbf4c8996fb92427ae41e4649b934ca495991b7852b855"}},"version":1}
"#;

#[test]
fn a_package_is_added_in_its_place(rt: HostRuntime) {
    let alloc = rt.alloc();
    let mut trust = read(alloc, UNSORTED).expect(&rt, "a file");
    let identity = Identity::parse(alloc, "mona.AA").expect(&rt, "an identity");
    let release = Release::parse(alloc, "1.0.0").expect(&rt, "a release");
    if trust.meet(&identity, &release, &[7; 32]) == Met::New {
        trust
            .add(&identity, &release, [7; 32])
            .expect(&rt, "memory");
    }
    let text = trust.text(alloc).expect(&rt, "memory");
    let is_so = text.as_slice() == MORE.as_bytes() && trust.packages().len() == 3;
    assert!(rt; is_so);
}
