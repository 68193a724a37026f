use crate::support::{assert_told, sides};
use spm_ident::Identity;
use spm_json::ReadFault;
use spm_shelf::Shelf;
use std::alloc::Global;

// In byte order the keys stand as Zed.C, mona-b.x, mona.B and mona.a.
fn packages(alloc: Global) -> Option<Shelf> {
    let json = r#"{"packages":{"mona.a":{},"mona.B":{},"mona-b.x":{},"Zed.C":{}}}"#;
    Shelf::read(alloc, json.as_bytes()).ok()
}

// The identities, with a space behind each.
fn told_identities(alloc: Global, shelf: &Shelf) -> Option<String> {
    let mut text = String::new(alloc);
    for package in shelf.packages() {
        let identity = package.identity.text();
        write!(text, "{identity} ").ok()?;
    }
    Some(text)
}

// The identity of the package that is found.
fn told_package(alloc: Global, shelf: &Shelf, identity: &str) -> Option<String> {
    let identity = Identity::parse(alloc, identity).ok()?;
    match shelf.package(&identity) {
        Some(package) => String::from_str(alloc, package.identity.text()).ok(),
        None => String::from_str(alloc, "none").ok(),
    }
}

#[test]
fn packages_are_in_the_order_of_their_identities(rt: HostRuntime) {
    let shelf = packages(rt.alloc()).expect(&rt, "a shelf");
    let order = "mona-b.x mona.a mona.b zed.c ";
    assert_told(&rt, told_identities(rt.alloc(), &shelf), order, "the order");
    for (identity, wanted) in [
        ("mona-b.x", "mona-b.x"),
        ("mona.A", "mona.a"),
        ("mona.b", "mona.b"),
        ("zed.c", "zed.c"),
        ("a.a", "none"),
        ("mona.aa", "none"),
        ("mona.c", "none"),
        ("zed.d", "none"),
    ] {
        assert_told(
            &rt,
            told_package(rt.alloc(), &shelf, identity),
            wanted,
            identity,
        );
    }
}

// The text of the shelf that is read, or the fault.
fn told_shelf(alloc: Global, json: &str) -> Option<String> {
    match Shelf::read(alloc, json.as_bytes()) {
        Ok(shelf) => String::from_utf8(shelf.text(alloc).ok()?.into_vec()).ok(),
        Err(ReadFault::At { place, kind }) => format!(in alloc; "{place}: {kind}").ok(),
        Err(ReadFault::Memory) => None,
    }
}

#[test]
fn shelves_are_written(rt: HostRuntime) {
    let alloc = rt.alloc();
    for (json, text) in [
        (r#"{"packages":{}}"#, "{\"packages\":{},\"urls\":{}}\n"),
        (
            r#"{
  "urls": { "https://b": [ "mona.B", "Mona.A" ], "https://a": [] },
  "packages": {
    "mona.a": {
      "1.9.0": { "manifest": "{\"name\":\"é\"}", "archive": "FFc0", "problem": null, "other": 1 },
      "1.10.0": { "problem": "gone" },
      "1.0.0-B+C": {
        "manifest": "",
        "checksum": "E3B0C44298FC1C149AFBF4C8996FB92427AE41E4649B934CA495991B7852B855",
        "archive": ""
      }
    },
    "mona.B": {},
    "Zed.C": { "1.0.0": { "problem": "", "manifest": "{}", "archive": "61" } }
  }
}"#,
            "{\"packages\":{\"mona.a\":{\"1.0.0-B+C\":{\"archive\":\"\",\"checksum\":\"e3b0c44298fc1c149afbf4c8996fb92427ae41e4649b934ca495991b7852b855\",\"manifest\":\"\"},\"1.10.0\":{\"problem\":\"gone\"},\"1.9.0\":{\"archive\":\"ffc0\",\"manifest\":\"{\\\"name\\\":\\\"é\\\"}\"}},\"mona.b\":{},\"zed.c\":{\"1.0.0\":{\"archive\":\"61\",\"manifest\":\"{}\",\"problem\":\"\"}}},\"urls\":{\"https://a\":[],\"https://b\":[\"mona.b\",\"mona.a\"]}}\n",
        ),
    ] {
        assert_told(&rt, told_shelf(alloc, json), text, json);
        assert_told(&rt, told_shelf(alloc, text), text, text);
    }
}

fn faults() -> &'static str {
    r#" => /: not JSON
{"packages":{}} x => /: not JSON
[] => /: wrong kind
{} => /packages: missing
{"packages":{"mona.a":{},"Mona.A":{}}} => /packages: doubled
{"packages":{"mona.a":{"1.0.0":{"manifest":"{}","archive":"6"}}},"urls":[]} => /packages: bad hex
{"packages":{},"urls":[]} => /urls: wrong kind"#
}

#[test]
fn the_first_fault_of_a_shelf_is_told(rt: HostRuntime) {
    for line in faults().lines() {
        let (json, wanted) = sides(&rt, line);
        assert_told(&rt, told_shelf(rt.alloc(), json), wanted, line);
    }
}
