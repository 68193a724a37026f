use crate::support::{assert_text, fault_text, sides};
use spm_digest::hex_of;
use spm_shelf::{Shelf, ShelfFault, ShelfFile, ShelfPackage, ShelfRelease, ShelfUrl};
use spm_version::{NoMemory, Text};
use std::alloc::Global;
use std::process::Abort;

// Adds a text behind its name, where there is one.
fn push_some(line: &mut String, name: &str, text: &Option<Text>) -> Result<(), NoMemory> {
    if let Some(text) = text {
        write!(line, " {name}={text}")?;
    }
    Ok(())
}

fn push_release(line: &mut String, alloc: Global, entry: &ShelfRelease) -> Result<(), NoMemory> {
    write!(line, " {}", entry.release)?;
    push_some(line, "problem", &entry.problem)?;
    push_some(line, "manifest", &entry.manifest)?;
    if let Some(archive) = &entry.archive {
        write!(line, " archive={:?}", archive.bytes())?;
    }
    if let Some(checksum) = &entry.checksum {
        write!(line, " checksum={}", hex_of(alloc, &checksum.sum)?)?;
    }
    Ok(())
}

fn push_package(line: &mut String, alloc: Global, entry: &ShelfPackage) -> Result<(), NoMemory> {
    write!(line, "{}:", entry.identity)?;
    for release in entry.releases.as_slice() {
        push_release(line, alloc, release)?;
    }
    line.push(';')?;
    Ok(())
}

fn push_url(line: &mut String, entry: &ShelfUrl) -> Result<(), NoMemory> {
    write!(line, "{}:", entry.url)?;
    for identity in entry.identities.as_slice() {
        write!(line, " {identity}")?;
    }
    line.push(';')?;
    Ok(())
}

// All that packages and URLs say.
fn description(
    alloc: Global,
    packages: &[ShelfPackage],
    urls: &[ShelfUrl],
) -> Result<String, NoMemory> {
    let mut line = String::from_str(alloc, "{")?;
    for entry in packages {
        push_package(&mut line, alloc, entry)?;
    }
    for entry in urls {
        push_url(&mut line, entry)?;
    }
    line.push('}')?;
    Ok(line)
}

// What a file is read as: what a copy of it says, or its first fault.
fn file_outcome(alloc: Global, json: &str) -> Result<String, NoMemory> {
    match ShelfFile::read(alloc, json.as_bytes()) {
        Ok(file) => {
            let copy = file.copy(alloc)?;
            description(alloc, copy.packages.as_slice(), copy.urls.as_slice())
        }
        Err(fault) => fault_text(alloc, &fault),
    }
}

// Asserts what a file is read as.
fn assert_file(rt: &impl Abort, alloc: Global, json: &str, wanted: &str) {
    let found = file_outcome(alloc, json).expect(rt, "memory");
    assert_text(rt, found.as_str(), wanted, json);
}

// Files with what they say, packages in the byte order of their keys in the file, releases in that of their texts and URLs in
// byte order, or with their first fault.
fn files() -> &'static str {
    r#"{"packages":{}} => {}
{"packages":{},"urls":null} => {}
{"packages":{"mona.a":{},"mona.B":{"1.9.0":{"problem":"x"},"1.10.0":{"problem":"y"}}}} => {mona.b: 1.10.0 problem=y 1.9.0 problem=x;mona.a:;}
{"packages":{},"urls":{"https://b":["mona.B","mona.A"],"https://a":[]}} => {https://a:;https://b: mona.b mona.a;}
{"packages":{ => /: not JSON
[] => /: wrong kind
{"urls":[]} => /packages: missing
{"packages":[]} => /packages: wrong kind
{"packages":null} => /packages: wrong kind
{"packages":{"mona":{}}} => /packages: bad identity
{"packages":{"mona":[]},"urls":[]} => /packages: bad identity
{"packages":{"mona.a":[]}} => /packages: wrong kind
{"packages":{"mona.a":[],"mona.A":{}}} => /packages: doubled
{"packages":{"mona.a":{"1.0":{"problem":"x"}}}} => /packages: bad version
{"packages":{},"urls":[]} => /urls: wrong kind
{"packages":{},"urls":{"https://a":"mona.a"}} => /urls: wrong kind
{"packages":{},"urls":{"https://a":["mona.a","mona"]}} => /urls: bad identity"#
}

#[test]
fn files_are_read(rt: HostRuntime) {
    for line in files().lines() {
        let (json, wanted) = sides(&rt, line);
        assert_file(&rt, rt.alloc(), json, wanted);
    }
}

// Asserts what a file with one release is read as.
fn assert_release(rt: &impl Abort, alloc: Global, release: &str, wanted: &str) {
    let json = format!(in alloc; r#"{{"packages":{{"mona.a":{{"1.0.0":{release}}}}}}}"#).expect(
        rt, "memory",
    );
    assert_file(rt, alloc, json.as_str(), wanted);
}

// The only releases of files. They stand under foreign keys, so that their faults stand at all packages.
fn releases() -> &'static str {
    r#"{"manifest":"{}","archive":"616263"} => {mona.a: 1.0.0 manifest={} archive=[97, 98, 99];}
{"problem":null,"manifest":"","archive":"","checksum":null,"other":1} => {mona.a: 1.0.0 manifest= archive=[];}
{"manifest":"é","archive":"FfC0","checksum":"E3B0C44298FC1C149AFBF4C8996FB92427AE41E4649B934CA495991B7852b855"} => {mona.a: 1.0.0 manifest=é archive=[255, 192] checksum=e3b0c44298fc1c149afbf4c8996fb92427ae41e4649b934ca495991b7852b855;}
{"problem":"gone"} => {mona.a: 1.0.0 problem=gone;}
{"problem":"gone","manifest":"{}","archive":null} => {mona.a: 1.0.0 problem=gone manifest={};}
{"problem":"","manifest":null,"archive":"61"} => {mona.a: 1.0.0 problem= archive=[97];}
{"manifest":"{}","archive":""} => {mona.a: 1.0.0 manifest={} archive=[];}
{"problem":"x","checksum":"e3b0c44298fc1c149afbf4c8996fb92427ae41e4649b934ca495991b7852b855"} => {mona.a: 1.0.0 problem=x checksum=e3b0c44298fc1c149afbf4c8996fb92427ae41e4649b934ca495991b7852b855;}
[] => /packages: wrong kind
{"archive":""} => /packages: missing
{"manifest":null,"archive":""} => /packages: missing
{"problem":null,"archive":""} => /packages: missing
{"manifest":"{}"} => /packages: missing
{"manifest":{},"archive":""} => /packages: wrong kind
{"manifest":"{}","archive":[]} => /packages: wrong kind
{"manifest":"{}","archive":"6"} => /packages: bad hex
{"manifest":"{}","archive":"zz"} => /packages: bad hex
{"problem":"x","archive":"zz"} => /packages: bad hex
{"problem":3} => /packages: wrong kind
{"problem":"x","checksum":"e3b0c44298fc1c149afbf4c8996fb92427ae41e4649b934ca495991b7852b85"} => /packages: bad hex
{"problem":"x","checksum":"g3b0c44298fc1c149afbf4c8996fb92427ae41e4649b934ca495991b7852b855"} => /packages: bad hex
{"problem":"x","checksum":3} => /packages: wrong kind"#
}

#[test]
fn releases_are_read(rt: HostRuntime) {
    for line in releases().lines() {
        let (release, wanted) = sides(&rt, line);
        assert_release(&rt, rt.alloc(), release, wanted);
    }
}

// A copy of the shelf that a file is.
fn shelf(alloc: Global, bytes: &[u8]) -> Result<Shelf, ShelfFault> {
    Ok(Shelf::read(alloc, bytes)?.copy(alloc)?)
}

// What the shelf says that a file is, and that is read of the shelf's own text.
fn shelved(alloc: Global, json: &str) -> Result<String, ShelfFault> {
    let text = shelf(alloc, json.as_bytes())?.text(alloc)?;
    let again = shelf(alloc, text.as_slice())?;
    Ok(description(alloc, again.packages(), again.urls())?)
}

const UNSORTED: &str =
    r#"{"packages":{"mona.a":{"1.9.0":{"problem":"x"},"1.10.0":{"manifest":"{}","archive":"61"}},"mona.B":{}},"urls":{"b":["mona.a"],"a":[]}}"#;

#[test]
fn shelves_have_their_packages_in_order(rt: HostRuntime) {
    let found = shelved(rt.alloc(), UNSORTED).expect(&rt, "a shelf");
    let wanted = "{mona.a: 1.10.0 manifest={} archive=[97] 1.9.0 problem=x;mona.b:;a:;b: mona.a;}";
    assert_text(&rt, found.as_str(), wanted, UNSORTED);
}

// Whether the packages and URLs of a file are those of a shelf as they stand.
fn is_shelf(alloc: Global, json: &str) -> Result<bool, ShelfFault> {
    let ShelfFile { packages, urls } = ShelfFile::read(alloc, json.as_bytes())?;
    Ok(Shelf::of(alloc, packages, urls)?.is_some())
}

#[test]
fn a_shelf_is_made_of_what_stands_in_order(rt: HostRuntime) {
    let is_made = is_shelf(rt.alloc(), UNSORTED).expect(&rt, "a file");
    assert!(rt; !is_made);
    let sorted =
        r#"{"packages":{"mona.A":{"1.0.0":{"problem":"x"},"1.1.0":{"problem":"y"}},"mona.b":{}},"urls":{"a":[]}}"#;
    let is_made = is_shelf(rt.alloc(), sorted).expect(&rt, "a file");
    assert!(rt; is_made);
}
