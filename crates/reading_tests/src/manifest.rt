use crate::support::{assert_outcome, assert_text, nested_lists, outcome, sides};
use spm_manifest::{Ask, Guard, Manifest, ManifestFault, Need, Target};
use spm_trait::{TraitEntry, TraitName};
use spm_version::{NoMemory, Release, Requirement};
use std::alloc::Global;
use std::process::Abort;

/// What stands around a piece of a dump, and the place of the piece.
#[derive(Clone, Copy)]
struct Frame {
    before: &'static str,
    after: &'static str,
    place: &'static str,
}

impl Frame {
    /// The dump with this piece.
    fn around(self, alloc: Global, piece: &str) -> Result<String, NoMemory> {
        let Frame { before, after, .. } = self;
        Ok(format!(in alloc; "{before}{piece}{after}")?)
    }

    /// What reading the dump comes to, where reading the piece comes to this.
    fn outcome(self, alloc: Global, outcome: &str) -> Result<String, NoMemory> {
        if outcome == "ok" {
            Ok(String::from_str(alloc, outcome)?)
        } else {
            let place = self.place;
            Ok(format!(in alloc; "{place}{outcome}")?)
        }
    }
}

/// Asserts what reading the piece comes to, where the place is that within the piece.
fn assert_case(rt: &impl Abort, alloc: Global, frame: Frame, piece: &str, wanted: &str) {
    let json = frame.around(alloc, piece).expect(rt, "memory");
    let found = outcome(alloc, Manifest::read(alloc, json.as_bytes())).expect(rt, "memory");
    let wanted = frame.outcome(alloc, wanted).expect(rt, "memory");
    assert_text(rt, found.as_str(), wanted.as_str(), json.as_str());
}

/// Asserts what reading each piece of a table comes to.
fn assert_cases(rt: &impl Abort, alloc: Global, frame: Frame, table: &str) {
    for line in table.lines() {
        let (piece, wanted) = sides(rt, line);
        assert_case(rt, alloc, frame, piece, wanted);
    }
}

const DOCUMENT: Frame = Frame {
    before: "",
    after: "",
    place: "",
};

fn documents() -> &'static str {
    r#" => /: not JSON
{ => /: not JSON
[] => /: wrong kind
null => /: wrong kind
{} => /name: missing
{"toolsVersion":3,"traits":3,"dependencies":3,"targets":3} => /name: missing
{"name":3,"toolsVersion":3,"traits":3,"dependencies":3,"targets":3} => /name: wrong kind
{"name":null} => /name: wrong kind
{"name":"app","traits":3,"dependencies":3,"targets":3} => /toolsVersion: missing
{"name":"app","toolsVersion":"5.9.0","traits":3,"dependencies":3,"targets":3} => /toolsVersion: wrong kind
{"name":"app","toolsVersion":null} => /toolsVersion: wrong kind
{"name":"app","toolsVersion":{}} => /toolsVersion/_version: missing
{"name":"app","toolsVersion":{"_version":5}} => /toolsVersion/_version: wrong kind
{"name":"app","toolsVersion":{"_version":null}} => /toolsVersion/_version: wrong kind
{"name":"app","toolsVersion":{"_version":"5.x"}} => /toolsVersion/_version: bad version
{"name":"app","toolsVersion":{"_version":"5.9.0"},"traits":3,"dependencies":3,"targets":3} => /traits: wrong kind
{"name":"app","toolsVersion":{"_version":"5.9.0"},"dependencies":3,"targets":3} => /dependencies: wrong kind
{"name":"app","toolsVersion":{"_version":"5.9.0"},"targets":3} => /targets: wrong kind
{"name":"app","toolsVersion":{"_version":"5.9.0"}} => ok
{"name":"","toolsVersion":{"_version":"6"}} => ok
{"name":"app","toolsVersion":{"_version":"5.9.0","other":1},"products":[{}]} => ok"#
}

#[test]
fn the_first_fault_of_a_document_is_told(rt: HostRuntime) {
    assert_cases(&rt, rt.alloc(), DOCUMENT, documents());
}

const TRAITS: Frame = Frame {
    before: r#"{"name":"app","toolsVersion":{"_version":"5.9.0"},"traits":"#,
    after: "}",
    place: "/traits",
};

fn traits() -> &'static str {
    r#"null => ok
[] => ok
{} => : wrong kind
[3] => /0: wrong kind
[{}] => /0/name: missing
[{"name":null}] => /0/name: wrong kind
[{"name":""}] => /0/name: bad trait
[{"name":"-x"}] => /0/name: bad trait
[{"name":"defaults"}] => /0/name: bad trait
[{"name":"default"},{"name":"x"}] => ok
[{"name":"x"},{"name":"x","enabledTraits":3}] => /1/name: doubled
[{"name":"x"},{"name":"y"},{"name":"x"}] => /2/name: doubled
[{"name":"x","enabledTraits":null}] => ok
[{"name":"x","enabledTraits":["y","y"]}] => ok
[{"name":"x","enabledTraits":"y"}] => /0/enabledTraits: wrong kind
[{"name":"x","enabledTraits":["y",3]}] => /0/enabledTraits/1: wrong kind
[{"name":"x","enabledTraits":["y","-"]}] => /0/enabledTraits/1: bad trait"#
}

#[test]
fn the_first_fault_of_declared_traits_is_told(rt: HostRuntime) {
    assert_cases(&rt, rt.alloc(), TRAITS, traits());
}

const DEPENDENCIES: Frame = Frame {
    before: r#"{"name":"app","toolsVersion":{"_version":"5.9.0"},"dependencies":"#,
    after: "}",
    place: "/dependencies",
};

fn dependencies() -> &'static str {
    r#"null => ok
[] => ok
{} => : wrong kind
[3] => /0: wrong kind
[{}] => /0: missing
[{"other":[]}] => /0: missing
[{"registry":3}] => /0/registry: wrong kind
[{"registry":[]}] => /0/registry: wrong kind
[{"registry":[{},{}]}] => /0/registry: wrong kind
[{"sourceControl":[]}] => /0/sourceControl: wrong kind
[{"sourceControl":[{},{}]}] => /0/sourceControl: wrong kind
[{"fileSystem":[]}] => /0/fileSystem: wrong kind
[{"fileSystem":[{},{}]}] => /0/fileSystem: wrong kind
[{"fileSystem":[{"identity":"b","path":"/b"}],"registry":null}] => /0/registry: wrong kind
[{"fileSystem":[{"identity":"b","path":"/b"}],"sourceControl":null}] => /0/sourceControl: wrong kind
[{"fileSystem":[{"identity":"b","path":"/b"}]},{}] => /1: missing"#
}

#[test]
fn the_first_fault_of_dependencies_is_told(rt: HostRuntime) {
    assert_cases(&rt, rt.alloc(), DEPENDENCIES, dependencies());
}

const REGISTRY: Frame = Frame {
    before: r#"{"name":"app","toolsVersion":{"_version":"5.9.0"},"dependencies":[{"registry":["#,
    after: "]}]}",
    place: "/dependencies/0/registry/0",
};

fn registry_packages() -> &'static str {
    r#"3 => : wrong kind
{} => /identity: missing
{"identity":3} => /identity: wrong kind
{"identity":"mona"} => /identity: bad identity
{"identity":"a.b","traits":3} => /requirement: missing
{"identity":"a.b","requirement":null} => /requirement: wrong kind
{"identity":"a.b","requirement":{},"traits":3} => /requirement: missing"#
}

#[test]
fn the_first_fault_of_a_registry_package_is_told(rt: HostRuntime) {
    assert_cases(&rt, rt.alloc(), REGISTRY, registry_packages());
}

const REQUIREMENT: Frame = Frame {
    before: r#"{"name":"app","toolsVersion":{"_version":"5.9.0"},"dependencies":[{"registry":[{"identity":"a.b","requirement":"#,
    after: "}]}]}",
    place: "/dependencies/0/registry/0/requirement",
};

fn requirements() -> &'static str {
    r#"{} => : missing
{"other":[]} => : missing
{"range":{}} => /range: wrong kind
{"range":[]} => /range: wrong kind
{"range":[{},{}]} => /range: wrong kind
{"range":[3]} => /range/0: wrong kind
{"range":[{}]} => /range/0/lowerBound: missing
{"range":[{"lowerBound":1}]} => /range/0/lowerBound: wrong kind
{"range":[{"lowerBound":"1.0"}]} => /range/0/lowerBound: bad version
{"range":[{"lowerBound":"1.0.0"}]} => /range/0/upperBound: missing
{"range":[{"lowerBound":"1.0.0","upperBound":2}]} => /range/0/upperBound: wrong kind
{"range":[{"lowerBound":"1.0.0","upperBound":"2"}]} => /range/0/upperBound: bad version
{"range":[{"lowerBound":"2.0.0","upperBound":"1.0.0"}]} => ok
{"exact":[]} => /exact: wrong kind
{"exact":["1.0.0","1.0.0"]} => /exact: wrong kind
{"exact":[1]} => /exact/0: wrong kind
{"exact":["x"]} => /exact/0: bad version
{"exact":["1.0.0"]} => ok
{"branch":["main"]} => /branch: wrong kind
{"revision":["abc"]} => /revision: wrong kind
{"revision":["abc"],"branch":["main"]} => /branch: wrong kind
{"range":null,"exact":["1.0.0"]} => /range: wrong kind
{"exact":null,"branch":["main"]} => /exact: wrong kind
{"exact":["1.0.0"],"branch":null} => ok"#
}

#[test]
fn the_first_fault_of_a_requirement_is_told(rt: HostRuntime) {
    assert_cases(&rt, rt.alloc(), REQUIREMENT, requirements());
}

const ASKED: Frame = Frame {
    before: r#"{"name":"app","toolsVersion":{"_version":"5.9.0"},"dependencies":[{"registry":[{"identity":"a.b","requirement":{"exact":["1.0.0"]},"traits":"#,
    after: "}]}]}",
    place: "/dependencies/0/registry/0/traits",
};

fn asked_traits() -> &'static str {
    r#"null => ok
[] => ok
{} => : wrong kind
[3] => /0: wrong kind
[{}] => /0/name: missing
[{"name":null,"condition":3}] => /0/name: wrong kind
[{"name":"-x","condition":3}] => /0/name: bad trait
[{"name":"x","condition":3}] => /0/condition: wrong kind
[{"name":"x","condition":null}] => ok
[{"name":"x","condition":{}}] => ok
[{"name":"x","condition":{"traits":null}}] => ok
[{"name":"x","condition":{"traits":"y"}}] => /0/condition/traits: wrong kind
[{"name":"x","condition":{"traits":["-"]}}] => /0/condition/traits/0: bad trait
[{"name":"x"},{"name":"defaults"}] => /1/name: bad trait"#
}

#[test]
fn the_first_fault_of_asked_traits_is_told(rt: HostRuntime) {
    assert_cases(&rt, rt.alloc(), ASKED, asked_traits());
}

const REPOSITORY: Frame = Frame {
    before: r#"{"name":"app","toolsVersion":{"_version":"5.9.0"},"dependencies":[{"sourceControl":["#,
    after: "]}]}",
    place: "/dependencies/0/sourceControl/0",
};

fn repositories() -> &'static str {
    r#"3 => : wrong kind
{"location":3} => /identity: missing
{"identity":null,"location":3} => /identity: wrong kind
{"identity":"b","requirement":3} => /location: missing
{"identity":"b","location":{"remote":["https://a/b"]},"traits":3} => /requirement: missing
{"identity":"b","location":{"remote":["https://a/b"]},"requirement":null} => /requirement: wrong kind
{"identity":"b","location":{"remote":["https://a/b"]},"requirement":{"branch":["main"]},"traits":3} => /traits: wrong kind
{"identity":"b","location":{"local":["/b"]},"requirement":3,"traits":3} => ok"#
}

#[test]
fn the_first_fault_of_a_repository_is_told(rt: HostRuntime) {
    assert_cases(&rt, rt.alloc(), REPOSITORY, repositories());
}

const LOCATION: Frame = Frame {
    before: r#"{"name":"app","toolsVersion":{"_version":"5.9.0"},"dependencies":[{"sourceControl":[{"identity":"b","requirement":{"exact":["1.0.0"]},"location":"#,
    after: "}]}]}",
    place: "/dependencies/0/sourceControl/0/location",
};

fn locations() -> &'static str {
    r#"null => : wrong kind
{} => : missing
{"other":[]} => : missing
{"remote":["https://a/b"]} => ok
{"remote":[{"urlString":"https://a/b"}]} => ok
{"remote":[]} => /remote: wrong kind
{"remote":["x","y"]} => /remote: wrong kind
{"remote":[3]} => /remote/0: wrong kind
{"remote":[{}]} => /remote/0/urlString: missing
{"remote":[{"urlString":3}]} => /remote/0/urlString: wrong kind
{"local":["/b"],"remote":null} => /remote: wrong kind
{"local":["/b"]} => ok
{"local":[]} => /local: wrong kind
{"local":["/b","/c"]} => /local: wrong kind
{"local":[3]} => /local/0: wrong kind"#
}

#[test]
fn the_first_fault_of_a_location_is_told(rt: HostRuntime) {
    assert_cases(&rt, rt.alloc(), LOCATION, locations());
}

const COMMIT: Frame = Frame {
    before: r#"{"name":"app","toolsVersion":{"_version":"5.9.0"},"dependencies":[{"sourceControl":[{"identity":"b","location":{"remote":["https://a/b"]},"requirement":"#,
    after: "}]}]}",
    place: "/dependencies/0/sourceControl/0/requirement",
};

fn commits() -> &'static str {
    r#"{} => : missing
{"branch":["main"]} => ok
{"revision":["abc"]} => ok
{"branch":[]} => /branch: wrong kind
{"branch":[3]} => /branch/0: wrong kind
{"revision":["a","b"]} => /revision: wrong kind
{"revision":[null]} => /revision/0: wrong kind
{"branch":null,"revision":["abc"]} => /branch: wrong kind
{"range":null,"branch":["main"]} => /range: wrong kind
{"exact":["x"]} => /exact/0: bad version"#
}

#[test]
fn the_first_fault_of_a_repositorys_requirement_is_told(rt: HostRuntime) {
    assert_cases(&rt, rt.alloc(), COMMIT, commits());
}

const FOLDER: Frame = Frame {
    before: r#"{"name":"app","toolsVersion":{"_version":"5.9.0"},"dependencies":[{"fileSystem":["#,
    after: "]}]}",
    place: "/dependencies/0/fileSystem/0",
};

fn folders() -> &'static str {
    r#"3 => : wrong kind
{} => /identity: missing
{"identity":3,"path":3} => /identity: wrong kind
{"identity":"b"} => /path: missing
{"identity":"b","path":null} => /path: wrong kind
{"identity":"b","path":"/b","requirement":3,"traits":3} => ok"#
}

#[test]
fn the_first_fault_of_a_folder_is_told(rt: HostRuntime) {
    assert_cases(&rt, rt.alloc(), FOLDER, folders());
}

const TARGETS: Frame = Frame {
    before: r#"{"name":"app","toolsVersion":{"_version":"5.9.0"},"targets":"#,
    after: "}",
    place: "/targets",
};

fn targets() -> &'static str {
    r#"null => ok
[] => ok
{} => : wrong kind
[3] => /0: wrong kind
[{"name":3}] => ok
[{"dependencies":null}] => ok
[{},{"dependencies":{}}] => /1/dependencies: wrong kind
[{"dependencies":[{},3]}] => /0/dependencies/1: wrong kind"#
}

#[test]
fn the_first_fault_of_targets_is_told(rt: HostRuntime) {
    assert_cases(&rt, rt.alloc(), TARGETS, targets());
}

const USE: Frame = Frame {
    before: r#"{"name":"app","toolsVersion":{"_version":"5.9.0"},"targets":[{"dependencies":["#,
    after: "]}]}",
    place: "/targets/0/dependencies/0",
};

fn uses() -> &'static str {
    r#"{} => ok
{"product":3} => /product: wrong kind
{"product":["P",null,null,null,null]} => /product: wrong kind
{"product":[]} => /product/0: wrong kind
{"product":[null,3]} => /product/0: wrong kind
{"product":[3,3]} => /product/0: wrong kind
{"product":["P"]} => ok
{"product":["P",3,null,3]} => /product/1: wrong kind
{"product":["P","b",3]} => ok
{"product":["P",null,null,null]} => ok
{"product":["P",null,null,3]} => /product/3: wrong kind
{"product":["P",null,null,{"traits":3}]} => /product/3/traits: wrong kind
{"product":["P",null,null,{"traits":["x","-"]}]} => /product/3/traits/1: bad trait
{"byName":3} => /byName: wrong kind
{"byName":["b",null,null]} => /byName: wrong kind
{"byName":[]} => /byName/0: wrong kind
{"byName":[3,3]} => /byName/0: wrong kind
{"byName":["b"]} => ok
{"byName":["b",{}]} => ok
{"byName":["b",3]} => /byName/1: wrong kind
{"byName":["b",{"traits":[3]}]} => /byName/1/traits/0: wrong kind
{"target":3} => ok
{"target":null} => ok
{"byName":["b"],"product":null} => /product: wrong kind
{"target":["T"],"byName":null} => /byName: wrong kind
{"product":["P"],"byName":3} => ok
{"byName":["b"],"target":3} => ok"#
}

#[test]
fn the_first_fault_of_a_use_is_told(rt: HostRuntime) {
    assert_cases(&rt, rt.alloc(), USE, uses());
}

/// Lists of so many items, each with its number between these texts, and what reading them comes to.
fn limits() -> [(Frame, &'static str, &'static str, usize, &'static str); 6] {
    let dependency = r#"","requirement":{"exact":["1.0.0"]}}]}"#;
    [
        (TRAITS, r#"{"name":"t"#, r#""}"#, 300, "ok"),
        (TRAITS, "", "", 301, ": too many"),
        (
            DEPENDENCIES,
            r#"{"registry":[{"identity":"a.b"#,
            dependency,
            512,
            "ok",
        ),
        (DEPENDENCIES, "", "", 513, ": too many"),
        (ASKED, r#"{"name":"t"#, r#""}"#, 300, "ok"),
        (ASKED, "", "", 301, ": too many"),
    ]
}

/// A list of so many items, each with its number between these texts.
fn numbered(alloc: Global, before: &str, after: &str, count: usize) -> Result<String, NoMemory> {
    let mut list = String::from_str(alloc, "[")?;
    for number in 0..count {
        let comma = if number == 0 { "" } else { "," };
        write!(list, "{comma}{before}{number}{after}")?;
    }
    list.push_str("]")?;
    Ok(list)
}

// The length of a list is judged before its items.
#[test]
fn lists_have_their_limits(rt: HostRuntime) {
    let alloc = rt.alloc();
    for (frame, before, after, count, wanted) in limits() {
        let list = numbered(alloc, before, after, count).expect(&rt, "memory");
        assert_case(&rt, alloc, frame, list.as_str(), wanted);
    }
}

// The document is the first level, and the list `other` the second.
#[test]
fn a_dump_has_127_levels_at_most(rt: HostRuntime) {
    let alloc = rt.alloc();
    let frame = Frame {
        before: r#"{"name":"app","toolsVersion":{"_version":"5.9.0"},"other":"#,
        after: "}",
        place: "/",
    };
    for (levels, wanted) in [(126, "ok"), (127, ": not JSON")] {
        let lists = nested_lists(alloc, levels).expect(&rt, "memory");
        assert_case(&rt, alloc, frame, lists.as_str(), wanted);
    }
}

/// Adds the word and the names behind it, where there are any.
fn push_names(text: &mut String, word: &str, names: &[TraitName]) -> Result<(), NoMemory> {
    if !names.is_empty() {
        text.push_str(word)?;
    }
    for name in names {
        write!(text, " {name}")?;
    }
    Ok(())
}

fn push_declared(text: &mut String, entries: &[TraitEntry]) -> Result<(), NoMemory> {
    for entry in entries {
        let TraitEntry { name, enables } = entry;
        write!(text, "\ntrait {name}")?;
        push_names(text, " enables", enables.as_slice())?;
    }
    Ok(())
}

fn push_target(text: &mut String, target: &Target) -> Result<(), NoMemory> {
    match target {
        Target::Registry(identity) => write!(text, "registry {identity}")?,
        Target::Url(url) => write!(text, "url {url}")?,
        Target::Local(path) => write!(text, "local {path}")?,
    }
    Ok(())
}

fn push_requirement(text: &mut String, requirement: &Requirement) -> Result<(), NoMemory> {
    match requirement {
        Requirement::Exact(release) => write!(text, "exact {release}")?,
        Requirement::Range(lower, upper) => write!(text, "range {lower} {upper}")?,
        Requirement::Branch(name) => write!(text, "branch {name}")?,
        Requirement::Revision(name) => write!(text, "revision {name}")?,
        Requirement::Path => text.push_str("path")?,
    }
    Ok(())
}

fn push_guard(text: &mut String, guard: &Guard) -> Result<(), NoMemory> {
    match guard {
        Guard::Always => Ok(text.push_str("always")?),
        Guard::Any(names) => push_names(text, "any", names.as_slice()),
    }
}

fn push_asked(text: &mut String, asked: &[Ask]) -> Result<(), NoMemory> {
    for ask in asked {
        let Ask { name, under } = ask;
        write!(text, ", asks {name}")?;
        push_names(text, " under", under.as_slice())?;
    }
    Ok(())
}

fn push_need(text: &mut String, need: &Need) -> Result<(), NoMemory> {
    push_target(text, &need.target)?;
    text.push_str(", ")?;
    push_requirement(text, &need.requirement)?;
    text.push_str(", ")?;
    push_guard(text, &need.guard)?;
    push_asked(text, need.asked.as_slice())
}

fn push_needs(text: &mut String, needs: &[Need]) -> Result<(), NoMemory> {
    for need in needs {
        text.push_str("\n")?;
        push_need(text, need)?;
    }
    Ok(())
}

/// All that a manifest says: a line with its name and tools version, one for each trait, one for each dependency.
fn description(alloc: Global, manifest: &Manifest) -> Result<String, NoMemory> {
    let (name, tools) = (manifest.name(), manifest.tools());
    let mut text = format!(in alloc; "{name} {tools}")?;
    push_declared(&mut text, manifest.traits().entries.as_slice())?;
    push_needs(&mut text, manifest.needs())?;
    Ok(text)
}

/// A dump with all that is read.
fn whole_dump() -> &'static str {
    r#"{
  "name" : "é app",
  "toolsVersion" : { "_version" : "5.9" },
  "traits" : [
    { "name" : "default", "enabledTraits" : [ "Fast", "Small" ] },
    { "name" : "Fast" },
    { "name" : "Small", "enabledTraits" : [ "Fast" ] }
  ],
  "dependencies" : [
    { "registry" : [ {
      "identity" : "mona.LinkedList",
      "requirement" : { "range" : [ { "lowerBound" : "1.0.0", "upperBound" : "2.0.0-rc.1" } ] },
      "traits" : [ { "name" : "default" }, { "name" : "Sorted", "condition" : { "traits" : [ "Small", "Fast" ] } } ]
    } ] },
    { "registry" : [ { "identity" : "mona.other", "requirement" : { "exact" : [ "1.0.0+x" ] }, "traits" : [ ] } ] },
    { "sourceControl" : [ {
      "identity" : "Numbers",
      "location" : { "remote" : [ { "urlString" : "https://a/Numbers" } ] },
      "requirement" : { "branch" : [ "main" ] }
    } ] },
    { "sourceControl" : [ { "identity" : "near", "location" : { "local" : [ "/near" ] } } ] },
    { "fileSystem" : [ { "identity" : "here", "path" : "/here" } ] }
  ],
  "targets" : [
    { "name" : "App", "dependencies" : [
      { "product" : [ "Numbers", "numbers", null, { "platformNames" : [ ], "traits" : [ "Fast" ] } ] },
      { "target" : [ "Core", null ] }
    ] },
    { "name" : "Core", "dependencies" : [
      { "byName" : [ "Numbers", { "traits" : [ "Small", "Fast" ] } ] },
      { "byName" : [ "Core", null ] },
      { "byName" : [ "here" ] }
    ] }
  ]
}"#
}

fn whole_description() -> &'static str {
    "é app 5.9.0
trait default enables Fast Small
trait Fast
trait Small enables Fast
registry mona.linkedlist, range 1.0.0 2.0.0-rc.1, always, asks default, asks Sorted under Small Fast
registry mona.other, exact 1.0.0+x, always
url https://a/Numbers, branch main, any Fast Small, asks default
local /near, path, always, asks default
local /here, path, always, asks default"
}

/// Asserts what a manifest says.
fn assert_description(rt: &impl Abort, alloc: Global, manifest: &Manifest, wanted: &str) {
    let found = description(alloc, manifest).expect(rt, "memory");
    assert_text(rt, found.as_str(), wanted, "a manifest");
}

#[test]
fn a_dump_and_its_copy_say_the_same(rt: HostRuntime) {
    let alloc = rt.alloc();
    let read = Manifest::read(alloc, whole_dump().as_bytes()).expect(&rt, "a manifest");
    assert_description(&rt, alloc, &read, whole_description());
    let copy = read.copy(alloc).expect(&rt, "memory");
    assert_eq!(rt; copy.needs().len(), 5);
    assert_description(&rt, alloc, &copy, whole_description());
}

#[test]
fn a_dump_that_is_cut_is_not_json(rt: HostRuntime) {
    let alloc = rt.alloc();
    let bytes = whole_dump().as_bytes();
    for length in 0..bytes.len() {
        let found = Manifest::read(alloc, &bytes[..length]);
        assert_outcome(&rt, alloc, found, "/: not JSON", "a prefix");
    }
}

/// Dependencies, and what is read of them.
fn read_dependencies() -> &'static str {
    r#"{"registry":[{"identity":"A.b","requirement":{"exact":["1.0.0"]}}]} => registry a.b, exact 1.0.0, always, asks default
{"registry":[{"identity":"a.b","requirement":{"exact":["1.0.0"]},"traits":null}]} => registry a.b, exact 1.0.0, always, asks default
{"registry":[{"identity":"a.b","requirement":{"exact":["1.0.0"]},"traits":[]}]} => registry a.b, exact 1.0.0, always
{"registry":[{"identity":"a.b","requirement":{"range":[{"lowerBound":"1.0.0","upperBound":"2.0.0"}],"exact":[]},"traits":[{"name":"X"},{"name":"X","condition":{"traits":[]}}]}]} => registry a.b, range 1.0.0 2.0.0, always, asks X, asks X
{"registry":[{"identity":"a.b","requirement":{"exact":["1.0.0"]}}],"sourceControl":3,"fileSystem":3} => registry a.b, exact 1.0.0, always, asks default
{"sourceControl":[{"identity":"","location":{"remote":["https://a/b"]},"requirement":{"exact":["1.0.0"]},"traits":[{"name":"X","condition":{"traits":["Y","Y"]}}]}],"fileSystem":3} => url https://a/b, exact 1.0.0, always, asks X under Y Y
{"sourceControl":[{"identity":"b","location":{"remote":[{"urlString":"https://a/b"}],"local":["/b"]},"requirement":{"range":[{"lowerBound":"1.0.0","upperBound":"2.0.0"}]}}]} => url https://a/b, range 1.0.0 2.0.0, always, asks default
{"sourceControl":[{"identity":"b","location":{"remote":["x"]},"requirement":{"branch":["main"],"revision":["abc"]}}]} => url x, branch main, always, asks default
{"sourceControl":[{"identity":"b","location":{"remote":["x"]},"requirement":{"revision":["abc"]}}]} => url x, revision abc, always, asks default
{"sourceControl":[{"identity":"b","location":{"local":["/b"]},"traits":[{"name":"X"}]}]} => local /b, path, always, asks default
{"fileSystem":[{"identity":"no.identity.","path":"/b","traits":[{"name":"X"}]}]} => local /b, path, always, asks default"#
}

/// What is read of the only dependency of a dump.
fn need_in(alloc: Global, dependency: &str) -> Result<String, ManifestFault> {
    let list = format!(in alloc; "[{dependency}]")?;
    let json = DEPENDENCIES.around(alloc, list.as_str())?;
    let manifest = Manifest::read(alloc, json.as_bytes())?;
    let mut text = String::new(alloc);
    for need in manifest.needs() {
        push_need(&mut text, need)?;
    }
    Ok(text)
}

#[test]
fn dependencies_are_read(rt: HostRuntime) {
    let alloc = rt.alloc();
    for line in read_dependencies().lines() {
        let (dependency, wanted) = sides(&rt, line);
        let found = need_in(alloc, dependency).expect(&rt, dependency);
        assert_text(&rt, found.as_str(), wanted, dependency);
    }
}

/// Requirements, versions, and whether they are contained.
fn contained() -> &'static str {
    r#"{"range":[{"lowerBound":"1.0.0","upperBound":"2.0.0"}]} / 0.9.9 => outside
{"range":[{"lowerBound":"1.0.0","upperBound":"2.0.0"}]} / 1.0.0 => inside
{"range":[{"lowerBound":"1.0.0","upperBound":"2.0.0"}]} / 1.1.0 => inside
{"range":[{"lowerBound":"1.0.0","upperBound":"2.0.0"}]} / 2.0.0 => outside
{"exact":["1.0.0"]} / 1.0.0 => inside
{"exact":["1.0.0"]} / 1.0.1 => outside
{"exact":["1.0.0"]} / 1.0.0+x => outside
{"branch":["1.0.0"]} / 1.0.0 => outside
{"revision":["1.0.0"]} / 1.0.0 => outside"#
}

/// Whether the requirement of the only dependency of a dump contains the version.
fn containment(manifest: &Manifest, version: &Release) -> &'static str {
    match manifest.needs() {
        [need] if need.requirement.contains(version) => "inside",
        [_] => "outside",
        _ => "not one dependency",
    }
}

/// Asserts whether a requirement contains a version.
fn assert_containment(
    rt: &impl Abort,
    alloc: Global,
    requirement: &str,
    version: &str,
    wanted: &str,
) {
    let json = COMMIT.around(alloc, requirement).expect(rt, "memory");
    let release = Release::parse(alloc, version).expect(rt, version);
    let manifest = Manifest::read(alloc, json.as_bytes()).expect(rt, requirement);
    assert_text(rt, containment(&manifest, &release), wanted, requirement);
}

#[test]
fn requirements_contain_versions(rt: HostRuntime) {
    for line in contained().lines() {
        let (case, wanted) = sides(&rt, line);
        let (requirement, version) = case.split_once(" / ").expect(&rt, case);
        assert_containment(&rt, rt.alloc(), requirement, version, wanted);
    }
}

/// A dump with a package of the registry, `mona.list`, and a folder, `Numbers`.
const TWO: Frame = Frame {
    before: r#"{"name":"app","toolsVersion":{"_version":"5.9.0"},"dependencies":[{"registry":[{"identity":"mona.List","requirement":{"exact":["1.0.0"]}}]},{"fileSystem":[{"identity":"Numbers","path":"/n"}]}],"targets":"#,
    after: "}",
    place: "/targets",
};

/// Targets, and the guards of `mona.list` and `Numbers`.
fn guards() -> &'static str {
    r#"null => always, always
[] => always, always
[{"dependencies":[{"product":["L","mona.list",null,{"traits":["X"]}]},{"product":["L","mona.list"]}]}] => always, always
[{"dependencies":[{"product":["L","mona.list",null,{"traits":["X"]}]}]}] => any X, always
[{"dependencies":[{"product":["L","mona.list",null,{"traits":["X"]}]},{"product":["L","mona.list",null,{"traits":["Y","X"]}]}]}] => any X Y, always
[{"dependencies":[{"byName":["mona.list",{"traits":["Y","Y"]}]}]},{},{"dependencies":[{"byName":["mona.list",{"traits":["X","Y"]}]}]}] => any Y X, always
[{"dependencies":[{"byName":["mona.list",{"traits":["X"]}]},{"byName":["mona.list",{"traits":["x"]}]}]}] => any X x, always
[{"dependencies":[{"byName":["mona.list",{"traits":["X"]}]},{"byName":["Numbers"]}]}] => any X, always
[{"dependencies":[{"byName":["mona.list",{"traits":["X"]}]},{"byName":["Numbers",{"traits":["Y"]}]}]}] => any X, any Y
[{"dependencies":[{"byName":["MONA.List",{"traits":["X"]}]},{"byName":["numbers",{"traits":["Y"]}]}]}] => any X, any Y
[{"dependencies":[{"product":["L","Mona.LIST",null,{"traits":["X"]}]},{"product":["N","NUMBERS",null,{"traits":["Y"]}]}]}] => any X, any Y
[{"dependencies":[{"product":["L",null,null,{"traits":["X"]}]}]}] => any X, any X
[{"dependencies":[{"byName":["mona.list",{"traits":["X"]}]},{"product":["N",null,null,{"traits":["Y"]}]}]}] => any X Y, any Y
[{"dependencies":[{"byName":["mona.list",{"traits":["X"]}]},{"byName":["Numbers",{"traits":["X"]}]},{"product":["L"]}]}] => always, always
[{"dependencies":[{"byName":["other",{"traits":["X"]}]}]}] => any X, any X
[{"dependencies":[{"product":["L","list",null,{"traits":["X"]}]}]}] => any X, any X
[{"dependencies":[{"byName":["mona.list",{"traits":["X"]}]},{"byName":["Numbers",{"traits":["X"]}]},{}]}] => always, always
[{"name":"T","dependencies":[{"byName":["T"]},{"byName":["mona.list",{"traits":["X"]}]}]}] => any X, always
[{"dependencies":[{"byName":["T"]},{"byName":["mona.list",{"traits":["X"]}]}]},{"name":"T"}] => any X, always
[{"name":"mona.list","dependencies":[{"byName":["mona.list",{"traits":["X"]}]}]}] => always, always
[{"name":"mona.list","dependencies":[{"product":["L","mona.list",null,{"traits":["X"]}]}]}] => any X, always
[{"name":3,"dependencies":[{"byName":["T",{"traits":["X"]}]}]},{"name":"t"}] => any X, any X
[{"dependencies":[{"target":["mona.list"]},{"byName":["mona.list",{"traits":["X"]}]}]}] => any X, always
[{"dependencies":[{"byName":["mona.list",{"traits":[]}]},{"byName":["Numbers",{}]}]}] => always, always
[{"dependencies":[{"byName":["mona.list",{"traits":["X"]}]},{"byName":["mona.list",{"traits":[]}]}]}] => always, always
[{"dependencies":[{"byName":["Numbers",{"traits":["X"]}]},{"product":["N","Numbers",null,{"traits":null}]}]}] => always, always"#
}

/// A dump with two dependencies whose identities differ in case alone.
const TWICE: Frame = Frame {
    before: r#"{"name":"app","toolsVersion":{"_version":"5.9.0"},"dependencies":[{"registry":[{"identity":"mona.list","requirement":{"exact":["1.0.0"]}}]},{"fileSystem":[{"identity":"Mona.List","path":"/n"}]}],"targets":"#,
    after: "}",
    place: "/targets",
};

fn guards_of_both() -> &'static str {
    r#"[{"dependencies":[{"byName":["mona.list",{"traits":["X"]}]}]}] => any X, any X
[{"dependencies":[{"byName":["other",{"traits":["X"]}]},{"product":["L","mona.LIST"]}]}] => always, always"#
}

/// The guards of the two dependencies of a dump.
fn guards_in(alloc: Global, json: &str) -> Result<String, ManifestFault> {
    let manifest = Manifest::read(alloc, json.as_bytes())?;
    let mut text = String::new(alloc);
    if let [list, numbers] = manifest.needs() {
        push_guard(&mut text, &list.guard)?;
        text.push_str(", ")?;
        push_guard(&mut text, &numbers.guard)?;
    }
    Ok(text)
}

fn assert_guards(rt: &impl Abort, alloc: Global, frame: Frame, table: &str) {
    for line in table.lines() {
        let (targets, wanted) = sides(rt, line);
        let json = frame.around(alloc, targets).expect(rt, "memory");
        let found = guards_in(alloc, json.as_str()).expect(rt, targets);
        assert_text(rt, found.as_str(), wanted, targets);
    }
}

#[test]
fn dependencies_are_guarded_by_their_uses(rt: HostRuntime) {
    let alloc = rt.alloc();
    assert_guards(&rt, alloc, TWO, guards());
    assert_guards(&rt, alloc, TWICE, guards_of_both());
}
