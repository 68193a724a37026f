// Files of derivations: what is told of each, and what is written of it.
use pub_proof::{Derivation, ProofFault, ProofFileFault, check};
use spm_json::read_document;
use spm_version::Bytes;
use std::alloc::{AllocError, Global};
use std::fmt::Write;
use std::process::Abort;

// Two facts on the root, of two choices, and on a package, of three; and the line that resolves them.
const FILE: &str =
    r#"{"lines":[{"fact":[["root",[1]],["mona.a",[0,2]]]},{"fact":[["root",[1]],["mona.a",[0,1]]]},{"on":"mona.a","resolve":[1,2]}],"nodes":[["root",2],["mona.a",3]],"version":1}
"#;

// What `check` tells of a derivation by its own facts.
fn told_by_check(alloc: Global, derivation: &Derivation) -> Option<String> {
    let facts = derivation.facts(alloc).ok()?;
    match check(alloc, derivation, facts.as_slice()) {
        Ok(_) => String::from_str(alloc, "holds").ok(),
        Err(ProofFault::Memory) => None,
        Err(fault) => format!(in alloc; "{fault}").ok(),
    }
}

// The place and the kind of a file's first fault, or what `check` tells of what it says.
fn told(alloc: Global, bytes: &[u8]) -> Option<String> {
    match Derivation::read(alloc, bytes) {
        Ok(derivation) => told_by_check(alloc, &derivation),
        Err(ProofFileFault::At { place, kind }) => format!(in alloc; "{place}: {kind}").ok(),
        Err(ProofFileFault::Memory) => None,
    }
}

// Asserts what is told of a file.
fn assert_told(rt: &impl Abort, alloc: Global, text: &str, wanted: &str) {
    let found = told(alloc, text.as_bytes()).expect(rt, "memory");
    assert_eq!(rt; found.as_str(), wanted, "of {text}");
}

// The two sides of a line of a table.
fn sides<'l>(rt: &impl Abort, line: &'l str, mark: &str) -> (&'l str, &'l str) {
    line.split_once(mark).expect(rt, line)
}

// The file with another part in place of the first such part.
fn file_with(rt: &impl Abort, alloc: Global, part: &str, other: &str) -> String {
    assert!(rt; FILE.contains(part), "no {part} is there");
    FILE.replacen(alloc, part, other, 1).expect(rt, "memory")
}

// Asserts what is told of the file with other parts, by lines `PART >> OTHER => WANTED`.
fn assert_parts(rt: &impl Abort, alloc: Global, table: &str) {
    for line in table.lines() {
        let (change, wanted) = sides(rt, line, " => ");
        let (part, other) = sides(rt, change, " >> ");
        let text = file_with(rt, alloc, part, other);
        assert_told(rt, alloc, text.as_str(), wanted);
    }
}

// Asserts what is told of files with these pieces, by lines `PIECE => WANTED`.
fn assert_pieces(rt: &impl Abort, alloc: Global, before: &str, after: &str, table: &str) {
    for line in table.lines() {
        let (piece, wanted) = sides(rt, line, " => ");
        let text = format!(in alloc; "{before}{piece}{after}").expect(rt, "memory");
        assert_told(rt, alloc, text.as_str(), wanted);
    }
}

// The second fact in other words.
fn second_facts() -> &'static str {
    r#"[0,1] >> [0,1] => holds
[0,1] >> [0,2] => line 3: not a refutation
[0,1] >> [0,3] => line 2: bad set
[0,1] >> [3] => line 2: bad set
[0,1] >> [4294967295] => line 2: bad set
[0,1] >> [1,0] => line 2: bad set
[0,1] >> [0,0] => line 2: bad set
[0,1] >> [] => line 2: bad set
[0,1] >> [0,1,2] => line 2: bad set
"mona.a",[0,1] >> "mona.A",[0,1] => holds
"mona.a",[0,1] >> "MONA.a",[0,1] => holds
"mona.a",[0,1] >> "mona.b",[0,1] => line 2: no such node
"mona.a",[0,1] >> "mona.a#t",[0,1] => line 2: no such node
"mona.a",[0,1] >> "root#t",[0,1] => line 2: no such node
"mona.a",[0,1] >> "root",[1] => line 2: bad set
["mona.a",[0,1]] >> ["mona.a",[0,1]],["mona.a",[0,1]] => line 2: bad set
["mona.a",[0,1]] >> ["mona.A",[0,1]],["mona.a",[0,2]] => line 2: bad set
["root",[1]],["mona.a",[0,1]] >> ["mona.a",[0,1]],["root",[1]] => holds
["root",[1]],["mona.a",[0,2]] >> ["mona.a",[0,2]],["root",[1]] => holds
,["mona.a",[0,1]] >>  => line 3: not on"#
}

// The line that resolves the two in other words.
fn last_lines() -> &'static str {
    r#"[1,2] >> [2,1] => holds
[1,2] >> [1,1] => line 3: not a refutation
[1,2] >> [1,3] => line 3: no such line
[1,2] >> [3,1] => line 3: no such line
[1,2] >> [1,4] => line 3: no such line
[1,2] >> [0,2] => line 3: no such line
[1,2] >> [1,0] => line 3: no such line
[1,2] >> [1,9223372036854775808] => line 3: no such line
[1,2] >> [1,18446744073709551615] => line 3: no such line
[1,2] >> [18446744073709551615,2] => line 3: no such line
"on":"mona.a" >> "on":"Mona.A" => holds
"on":"mona.a" >> "on":"root" => line 3: not a refutation
"on":"mona.a" >> "on":"mona.b" => line 3: no such node
"on":"mona.a" >> "on":"mona.a#t" => line 3: no such node
["root",[1]] >> ["root",[0]] => line 3: not on
,{"on":"mona.a","resolve":[1,2]} >>  => line 2: not a refutation
{"lines":[{"fact":[["root",[1]],["mona.a",[0,2]]]},{"fact":[["root",[1]],["mona.a",[0,1]]]},{"on":"mona.a","resolve":[1,2]}] >> {"lines":[] => line 0: not a refutation"#
}

#[test]
fn lines_of_a_file_are_checked(rt: HostRuntime) {
    assert_parts(&rt, rt.alloc(), second_facts());
    assert_parts(&rt, rt.alloc(), last_lines());
}

// The file without one of its members.
fn members() -> &'static str {
    r#""lines":[{"fact":[["root",[1]],["mona.a",[0,2]]]},{"fact":[["root",[1]],["mona.a",[0,1]]]},{"on":"mona.a","resolve":[1,2]}], >>  => /lines: missing
"fact":[["root",[1]],["mona.a",[0,2]]] >>  => /lines/0: missing
"fact":[["root",[1]],["mona.a",[0,1]]] >>  => /lines/1: missing
"on":"mona.a", >>  => /lines/2/on: missing
,"resolve":[1,2] >>  => /lines/2: missing
"nodes":[["root",2],["mona.a",3]], >>  => /nodes: missing
,"version":1 >>  => /version: missing"#
}

// The file with `null` for one of its items.
fn items() -> &'static str {
    r#"[{"fact":[["root",[1]],["mona.a",[0,2]]]},{"fact":[["root",[1]],["mona.a",[0,1]]]},{"on":"mona.a","resolve":[1,2]}] >> null => /lines: wrong kind
{"fact":[["root",[1]],["mona.a",[0,2]]]} >> null => /lines/0: wrong kind
[["root",[1]],["mona.a",[0,2]]] >> null => /lines/0/fact: wrong kind
["root",[1]],["mona.a",[0,2]] >> null,["mona.a",[0,2]] => /lines/0/fact/0: wrong kind
"root",[1]],["mona.a",[0,2]] >> null,[1]],["mona.a",[0,2]] => /lines/0/fact/0/0: wrong kind
[1]],["mona.a",[0,2]] >> null],["mona.a",[0,2]] => /lines/0/fact/0/1: wrong kind
1]],["mona.a",[0,2]] >> null]],["mona.a",[0,2]] => /lines/0/fact/0/1/0: wrong kind
["mona.a",[0,2]] >> null => /lines/0/fact/1: wrong kind
"mona.a",[0,2] >> null,[0,2] => /lines/0/fact/1/0: wrong kind
[0,2] >> null => /lines/0/fact/1/1: wrong kind
[0,2] >> [null,2] => /lines/0/fact/1/1/0: wrong kind
[0,2] >> [0,null] => /lines/0/fact/1/1/1: wrong kind
{"fact":[["root",[1]],["mona.a",[0,1]]]} >> null => /lines/1: wrong kind
[["root",[1]],["mona.a",[0,1]]] >> null => /lines/1/fact: wrong kind
["root",[1]],["mona.a",[0,1]] >> null,["mona.a",[0,1]] => /lines/1/fact/0: wrong kind
"root",[1]],["mona.a",[0,1]] >> null,[1]],["mona.a",[0,1]] => /lines/1/fact/0/0: wrong kind
[1]],["mona.a",[0,1]] >> null],["mona.a",[0,1]] => /lines/1/fact/0/1: wrong kind
1]],["mona.a",[0,1]] >> null]],["mona.a",[0,1]] => /lines/1/fact/0/1/0: wrong kind
["mona.a",[0,1]] >> null => /lines/1/fact/1: wrong kind
"mona.a",[0,1] >> null,[0,1] => /lines/1/fact/1/0: wrong kind
[0,1] >> null => /lines/1/fact/1/1: wrong kind
[0,1] >> [null,1] => /lines/1/fact/1/1/0: wrong kind
[0,1] >> [0,null] => /lines/1/fact/1/1/1: wrong kind
{"on":"mona.a","resolve":[1,2]} >> null => /lines/2: wrong kind
"on":"mona.a" >> "on":null => /lines/2/on: wrong kind
[1,2] >> null => /lines/2/resolve: wrong kind
[1,2] >> [null,2] => /lines/2/resolve/0: wrong kind
[1,2] >> [1,null] => /lines/2/resolve/1: wrong kind
[["root",2],["mona.a",3]] >> null => /nodes: wrong kind
["root",2] >> null => /nodes/0: wrong kind
["root",2] >> [null,2] => /nodes/0/0: wrong kind
["root",2] >> ["root",null] => /nodes/0/1: wrong kind
["mona.a",3] >> null => /nodes/1: wrong kind
["mona.a",3] >> [null,3] => /nodes/1/0: wrong kind
["mona.a",3] >> ["mona.a",null] => /nodes/1/1: wrong kind
"version":1 >> "version":null => /version: wrong kind"#
}

#[test]
fn each_key_is_due_and_no_item_may_be_null(rt: HostRuntime) {
    assert_parts(&rt, rt.alloc(), members());
    assert_parts(&rt, rt.alloc(), items());
}

// The version is read first, the nodes then, the lines at last.
fn whole_files() -> &'static str {
    r#" => /: not JSON
{ => /: not JSON
{"lines":[],"nodes":[["root",2]],"version":1}} => /: not JSON
[] => /: wrong kind
1 => /: wrong kind
null => /: wrong kind
"version" => /: wrong kind
{} => /version: missing
{"lines":[],"nodes":[["root",2]]} => /version: missing
{"lines":3,"nodes":3} => /version: missing
{"lines":[],"nodes":[["root",2]],"version":null} => /version: wrong kind
{"lines":[],"nodes":[["root",2]],"version":"1"} => /version: wrong kind
{"lines":[],"nodes":[["root",2]],"version":2} => /version: bad version
{"lines":[],"nodes":[["root",2]],"version":0} => /version: bad version
{"lines":[],"nodes":[["root",2]],"version":-1} => /version: bad version
{"lines":[],"nodes":[["root",2]],"version":1.0} => /version: bad version
{"lines":3,"nodes":3,"version":2} => /version: bad version
{"lines":[],"version":1} => /nodes: missing
{"lines":3,"version":1} => /nodes: missing
{"lines":[],"nodes":[],"version":1} => /nodes: missing
{"lines":3,"nodes":[],"version":1} => /nodes: missing
{"lines":[],"nodes":null,"version":1} => /nodes: wrong kind
{"lines":[],"nodes":{},"version":1} => /nodes: wrong kind
{"lines":[],"nodes":"root","version":1} => /nodes: wrong kind
{"lines":3,"nodes":3,"version":1} => /nodes: wrong kind
{"lines":3,"nodes":[["root",1]],"version":1} => /nodes/0/1: wrong kind
{"nodes":[["root",2]],"version":1} => /lines: missing
{"lines":null,"nodes":[["root",2]],"version":1} => /lines: wrong kind
{"lines":{},"nodes":[["root",2]],"version":1} => /lines: wrong kind
{"lines":3,"nodes":[["root",2]],"version":1} => /lines: wrong kind
{"lines":[],"nodes":[["root",2]],"version":1} => line 0: not a refutation"#
}

#[test]
fn the_first_fault_of_a_file_is_told(rt: HostRuntime) {
    assert_pieces(&rt, rt.alloc(), "", "", whole_files());
}

// What stands around a list of nodes.
const BEFORE_NODES: &str = r#"{"lines":[],"nodes":"#;

const BEHIND_NODES: &str = r#","version":1}"#;

// A node is a pair of a name and a size.
fn nodes() -> &'static str {
    r#"[3] => /nodes/0: wrong kind
[[]] => /nodes/0: wrong kind
["root",2] => /nodes/0: wrong kind
[["root",2],["mona.a"]] => /nodes/1: wrong kind
[["root",2],["mona.a",2,3]] => /nodes/1: wrong kind
[["root",2],"mona.a"] => /nodes/1: wrong kind
[["root",2],{"mona.a":2}] => /nodes/1: wrong kind
[["root",2],null] => /nodes/1: wrong kind
[["root",2],[3,2]] => /nodes/1/0: wrong kind
[["root",2],[null,2]] => /nodes/1/0: wrong kind
[["root",2],[["mona.a"],2]] => /nodes/1/0: wrong kind
[["root",2],["mona.a",1]] => /nodes/1/1: wrong kind
[["root",2],["mona.a",0]] => /nodes/1/1: wrong kind
[["root",2],["mona.a",4098]] => /nodes/1/1: wrong kind
[["root",2],["mona.a",-1]] => /nodes/1/1: wrong kind
[["root",2],["mona.a",2.0]] => /nodes/1/1: wrong kind
[["root",2],["mona.a",4294967296]] => /nodes/1/1: wrong kind
[["root",2],["mona.a","2"]] => /nodes/1/1: wrong kind
[["root",2],["mona.a",null]] => /nodes/1/1: wrong kind
[["root",1]] => /nodes/0/1: wrong kind
[["root",2],["mona.a",1],["mona",2]] => /nodes/1/1: wrong kind
[["root",2],["mona.a",2],3] => /nodes/2: wrong kind
[["root",2],["mona.a",2]] => line 0: not a refutation
[["root",4097],["mona.a",4097]] => line 0: not a refutation"#
}

// The name of a node is read before its size.
fn names() -> &'static str {
    r##"[["mona.a",2]] => /nodes/0/0: bad identity
[["mona.a",2],["root",2]] => /nodes/0/0: bad identity
[["root#t",2]] => /nodes/0/0: bad identity
[["mona.a",1]] => /nodes/0/0: bad identity
[["mona",2]] => /nodes/0/0: bad identity
[["root#",2]] => /nodes/0/0: bad trait
[["root",2],["mona",2]] => /nodes/1/0: bad identity
[["root",2],["mona",1]] => /nodes/1/0: bad identity
[["root",2],["",2]] => /nodes/1/0: bad identity
[["root",2],["Root",2]] => /nodes/1/0: bad identity
[["root",2],["x#?",2]] => /nodes/1/0: bad identity
[["root",2],["#t",2]] => /nodes/1/0: bad identity
[["root",2],["mona.a#",2]] => /nodes/1/0: bad trait
[["root",2],["mona.a#defaults",2]] => /nodes/1/0: bad trait
[["root",2],["mona.a#t#u",2]] => /nodes/1/0: bad trait
[["root",2],["root#a b",2]] => /nodes/1/0: bad trait
[["root",2],["root#a b",1]] => /nodes/1/0: bad trait
[["root",2],["root",2]] => /nodes/1/0: doubled
[["root",2],["root",1]] => /nodes/1/0: doubled
[["root",2],["mona.a",2],["mona.A",2]] => /nodes/2/0: doubled
[["root",2],["mona.a",2],["mona.a",null]] => /nodes/2/0: doubled
[["root",2],["mona.a#t",2],["mona.A#t",2]] => /nodes/2/0: doubled
[["root",2],["root#t",2],["root#t",3]] => /nodes/2/0: doubled
[["root",2],["root#t",2],["root#T",2]] => line 0: not a refutation
[["root",2],["mona.a#t",2],["mona.a",2],["root#t",2]] => line 0: not a refutation"##
}

#[test]
fn nodes_have_names_of_their_own_and_sizes(rt: HostRuntime) {
    assert_pieces(&rt, rt.alloc(), BEFORE_NODES, BEHIND_NODES, nodes());
    assert_pieces(&rt, rt.alloc(), BEFORE_NODES, BEHIND_NODES, names());
}

// The first present of `fact` and `resolve` decides what a line is, and `on` is read before `resolve`.
fn lines() -> &'static str {
    r#"3 => /lines/0: wrong kind
null => /lines/0: wrong kind
["fact",[]] => /lines/0: wrong kind
"fact" => /lines/0: wrong kind
{} => /lines/0: missing
{"on":"mona.a"} => /lines/0: missing
{"on":3,"Fact":[]} => /lines/0: missing
{"fact":[]} => holds
{"fact":[["root",[1]]]} => holds
{"fact":[["root",[1]]],"on":3,"resolve":3} => holds
{"fact":null} => /lines/0/fact: wrong kind
{"fact":null,"on":"mona.a","resolve":[1,2]} => /lines/0/fact: wrong kind
{"fact":{}} => /lines/0/fact: wrong kind
{"fact":"root"} => /lines/0/fact: wrong kind
{"resolve":[1,2]} => /lines/0/on: missing
{"resolve":null} => /lines/0/on: missing
{"on":null,"resolve":[1,2]} => /lines/0/on: wrong kind
{"on":3,"resolve":[1,2]} => /lines/0/on: wrong kind
{"on":3,"resolve":3} => /lines/0/on: wrong kind
{"on":"mona","resolve":[1,2]} => /lines/0/on: bad identity
{"on":"mona.a#","resolve":3} => /lines/0/on: bad trait
{"on":"mona.a","resolve":null} => /lines/0/resolve: wrong kind
{"on":"mona.a","resolve":3} => /lines/0/resolve: wrong kind
{"on":"mona.a","resolve":[]} => /lines/0/resolve: wrong kind
{"on":"mona.a","resolve":[1]} => /lines/0/resolve: wrong kind
{"on":"mona.a","resolve":[1,2,3]} => /lines/0/resolve: wrong kind
{"on":"mona.a","resolve":[1,-1]} => /lines/0/resolve/1: wrong kind
{"on":"mona.a","resolve":[1,1.5]} => /lines/0/resolve/1: wrong kind
{"on":"mona.a","resolve":[1,18446744073709551616]} => /lines/0/resolve/1: wrong kind
{"on":"mona.a","resolve":[1,"2"]} => /lines/0/resolve/1: wrong kind
{"on":"mona.a","resolve":[-1,-1]} => /lines/0/resolve/0: wrong kind
{"on":"mona.b","resolve":[-1,1]} => /lines/0/resolve/0: wrong kind
{"on":"mona.b","resolve":[0,1]} => line 1: no such line
{"on":"mona.a","resolve":[1,18446744073709551615]} => line 1: no such line
{"fact":[]},3 => /lines/1: wrong kind
{"fact":[["root",[]]]},3 => /lines/1: wrong kind"#
}

// A term is a pair of a name and choices.
fn terms() -> &'static str {
    r#"3 => /lines/0/fact/0: wrong kind
null => /lines/0/fact/0: wrong kind
"root" => /lines/0/fact/0: wrong kind
{"root":[1]} => /lines/0/fact/0: wrong kind
[] => /lines/0/fact/0: wrong kind
["root"] => /lines/0/fact/0: wrong kind
["root",[1],2] => /lines/0/fact/0: wrong kind
[3,[1]] => /lines/0/fact/0/0: wrong kind
[null,3] => /lines/0/fact/0/0: wrong kind
["mona",[1]] => /lines/0/fact/0/0: bad identity
["mona",3] => /lines/0/fact/0/0: bad identity
["x#?",[1]] => /lines/0/fact/0/0: bad identity
["mona.a#",[1]] => /lines/0/fact/0/0: bad trait
["mona.a#defaults",[1]] => /lines/0/fact/0/0: bad trait
["root",3] => /lines/0/fact/0/1: wrong kind
["root",null] => /lines/0/fact/0/1: wrong kind
["root",{}] => /lines/0/fact/0/1: wrong kind
["root",[4294967296]] => /lines/0/fact/0/1/0: wrong kind
["root",[-1]] => /lines/0/fact/0/1/0: wrong kind
["root",[0.5]] => /lines/0/fact/0/1/0: wrong kind
["root",["1"]] => /lines/0/fact/0/1/0: wrong kind
["root",[1,-1]] => /lines/0/fact/0/1/1: wrong kind
["root",[1]],["mona",[1]] => /lines/0/fact/1/0: bad identity
["root",[1]],["mona.a",[0,null]] => /lines/0/fact/1/1/1: wrong kind
["root",[4294967295]] => line 1: bad set
["mona.b",[4294967295]],["root",[]] => line 1: no such node"#
}

#[test]
fn lines_are_facts_or_resolutions(rt: HostRuntime) {
    assert_pieces(
        &rt,
        rt.alloc(),
        r#"{"lines":["#,
        r#"],"nodes":[["root",2],["mona.a",3]],"version":1}"#,
        lines(),
    );
    assert_pieces(
        &rt,
        rt.alloc(),
        r#"{"lines":[{"fact":["#,
        r#"]}],"nodes":[["root",2],["mona.a",3]],"version":1}"#,
        terms(),
    );
}

// What a file's derivation is written as.
fn rewritten(alloc: Global, text: &str) -> Option<Bytes> {
    let derivation = Derivation::read(alloc, text.as_bytes()).ok()?;
    derivation.text(alloc).ok()
}

// Asserts what a file is written as, once it was read.
fn assert_rewritten(rt: &impl Abort, alloc: Global, text: &str, wanted: &str) {
    let found = rewritten(alloc, text).expect(rt, "a file and memory");
    assert!(rt; found.as_slice() == wanted.as_bytes());
}

// Asserts that the file with another part says the same.
fn assert_same(rt: &impl Abort, alloc: Global, part: &str, other: &str) {
    let text = file_with(rt, alloc, part, other);
    assert_rewritten(rt, alloc, text.as_str(), FILE);
}

// Parts of the file, and others that say the same.
fn same_parts() -> &'static str {
    r#""version":1 >> "version":1,"made":{"by":["mona"]}
{"on":"mona.a","resolve":[1,2]} >> {"resolve":[1,2],"on":"mona.a"}
["root",[1]],["mona.a",[0,2]] >> ["mona.a",[0,2]],["root",[1]]
["mona.a",[0,2]] >> ["Mona.A",[0,2]]
["mona.a",3] >> ["MONA.A",3]
["mona.a",3] >> ["mona.a",3],["mona.b",7]
["mona.a",3] >> ["mona.b",7],["mona.a",3]
["mona.a",3] >> ["root#t",2],["mona.a",3],["mona.a#t",2]"#
}

#[test]
fn a_file_is_written_in_one_form(rt: HostRuntime) {
    let alloc = rt.alloc();
    for line in same_parts().lines() {
        let (part, other) = sides(&rt, line, " >> ");
        assert_same(&rt, alloc, part, other);
    }
    assert_same(&rt, alloc, "{", "\r\n {");
    assert_same(&rt, alloc, "\n", "");
    assert_same(&rt, alloc, "\n", " \r\n\t\n");
    assert_same(&rt, alloc, ",", " ,\n");
    assert_same(&rt, alloc, "[1,2]", "[ 1 ,\t2 ]");
}

// The file with its keys in another order.
const OTHER_ORDER: &str =
    r#"{"version":1,"nodes":[["root",2],["mona.a",3]],"lines":[{"fact":[["root",[1]],["mona.a",[0,2]]]},{"fact":[["root",[1]],["mona.a",[0,1]]]},{"resolve":[1,2],"on":"mona.a"}]}"#;

// A node for each form of a name.
const TRAITS: &str =
    r#"{"lines":[{"fact":[["root",[1]],["root#t",[0]],["mona.a",[0,2]],["mona.a#t",[1]]]}],"nodes":[["root",2],["root#t",2],["mona.a",3],["mona.a#t",2]],"version":1}
"#;

// The same, in other words.
const OTHER_TRAITS: &str =
    r#"{"lines":[{"fact":[["mona.A#t",[1]],["root#t",[0]],["Mona.a",[0,2]],["root",[1]]]}],"nodes":[["root",2],["root#t",2],["mona.A",3],["mona.a#T",9],["MONA.a#t",2]],"version":1}"#;

// Nodes that only resolutions name.
const ONLY_ON: &str =
    r#"{"lines":[{"on":"mona.b","resolve":[0,18446744073709551615]},{"on":"mona.a","resolve":[7,9223372036854775808]}],"nodes":[["root",4097],["mona.a",3],["mona.b",2]],"version":1}
"#;

const NO_LINES: &str = r#"{"lines":[],"nodes":[["root",2]],"version":1}
"#;

const NO_TERMS: &str = r#"{"lines":[{"fact":[]}],"nodes":[["root",2]],"version":1}
"#;

#[test]
fn what_is_written_is_read_back(rt: HostRuntime) {
    let alloc = rt.alloc();
    assert_rewritten(&rt, alloc, OTHER_ORDER, FILE);
    assert_rewritten(&rt, alloc, TRAITS, TRAITS);
    assert_rewritten(&rt, alloc, OTHER_TRAITS, TRAITS);
    assert_rewritten(&rt, alloc, ONLY_ON, ONLY_ON);
    assert_rewritten(&rt, alloc, NO_LINES, NO_LINES);
    assert_rewritten(&rt, alloc, NO_TERMS, NO_TERMS);
}

// A file of the root, so many packages, and a last node, without lines.
fn many_nodes(alloc: Global, packages: u32, last: &str) -> Result<String, AllocError> {
    let mut text = String::from_str(alloc, r#"{"lines":[],"nodes":[["root",2],"#)?;
    for number in 0..packages {
        write!(text, r#"["mona.p{number}",2],"#)?;
    }
    write!(text, r#"{last}],"version":1}}"#)?;
    Ok(text)
}

// Asserts what is told of that file.
fn assert_many(rt: &impl Abort, alloc: Global, packages: u32, last: &str, wanted: &str) {
    let text = many_nodes(alloc, packages, last).expect(rt, "memory");
    let found = told(alloc, text.as_bytes()).expect(rt, "memory");
    assert_eq!(rt; found.as_str(), wanted);
}

#[test]
fn a_file_has_4096_nodes_at_most(rt: HostRuntime) {
    let alloc = rt.alloc();
    assert_many(
        &rt,
        alloc,
        4094,
        r#"["mona.a",2]"#,
        "line 0: not a refutation",
    );
    assert_many(
        &rt,
        alloc,
        4094,
        r#"["mona.p0",2]"#,
        "/nodes/4095/0: doubled",
    );
    assert_many(
        &rt,
        alloc,
        4094,
        r#"["mona.p4093",2]"#,
        "/nodes/4095/0: doubled",
    );
    assert_many(&rt, alloc, 4094, "null", "/nodes/4095: wrong kind");
    assert_many(&rt, alloc, 4095, r#"["mona.a",2]"#, "/nodes: too many");
    assert_many(&rt, alloc, 4095, "null", "/nodes: too many");
    assert_many(&rt, alloc, 4096, r#"["mona.a",2]"#, "/nodes: too many");
}

// Whether the bytes are told to be no JSON.
fn is_no_json(alloc: Global, bytes: &[u8]) -> bool {
    match told(alloc, bytes) {
        Some(found) => found.as_str() == "/: not JSON",
        None => false,
    }
}

#[test]
fn a_file_cut_short_is_not_read(rt: HostRuntime) {
    let alloc = rt.alloc();
    let text = FILE.trim_end();
    let bytes = text.as_bytes();
    assert!(rt; (0..bytes.len()).all(|end| is_no_json(alloc, &bytes[..end])));
    assert_told(&rt, alloc, text, "holds");
}

// Items of each JSON kind, of some more than one.
const OTHERS: [&str; 9] = [
    "null",
    "true",
    "0",
    "-1",
    "1.5",
    r#""""#,
    r#""mona.a""#,
    "[]",
    "{}",
];

// The file with another part in place of the bytes from the start to the end.
fn with_part(alloc: Global, start: usize, end: usize, other: &str) -> Option<Vec<u8>> {
    let bytes = FILE.as_bytes();
    let mut text = Vec::from_slice(alloc, bytes.get(..start)?).ok()?;
    text.extend_from_slice(other.as_bytes()).ok()?;
    text.extend_from_slice(bytes.get(end..)?).ok()?;
    Some(text)
}

// Whether something is told of the file with this part.
fn is_told_with(alloc: Global, start: usize, end: usize, other: &str) -> bool {
    match with_part(alloc, start, end, other) {
        Some(text) => told(alloc, text.as_slice()).is_some(),
        None => false,
    }
}

// Whether the file's bytes from the start to the end are JSON.
fn is_item(alloc: Global, start: usize, end: usize) -> bool {
    match FILE.as_bytes().get(start..end) {
        Some(bytes) => read_document(alloc, bytes).is_ok(),
        None => false,
    }
}

// Whether something is told, whatever stands in place of the item there.
fn any_is_told(alloc: Global, start: usize, end: usize) -> bool {
    !is_item(alloc, start, end)
        || OTHERS
            .iter()
            .all(|other| is_told_with(alloc, start, end, other))
}

#[test]
fn any_item_may_be_another(rt: HostRuntime) {
    let alloc = rt.alloc();
    let told = (0..FILE.len()).all(|start| {
        (start..FILE.len()).all(|end| any_is_told(alloc, start, end))
    });
    assert!(rt; told);
}
