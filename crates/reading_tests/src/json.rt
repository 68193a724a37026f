ghost use Rattle.std.specs.Prelude.{Ok, codes};
ghost use Rattle.spm_json.specs.Reading.{◌>>=◌};
ghost use Rattle.spm_json.specs.Field.{field_of};
ghost use Rattle.spm_json.specs.Sequence.{sole_of};
ghost use Rattle.spm_json.specs.Shape.{object_of, whole_number_of};

use crate::support::{assert_outcome, assert_text, fault_text, nested_lists, outcome, sides};
use serde_json::Value;
use spm_ident::Identity;
use spm_json::{
    FromJson, FromMember, Object, ReadFault, items, limited_items, limited_list, list, members,
    read_document, sole, sole_member, text, whole_number, within,
};
use spm_version::{Items, Kind, NoMemory, Release, Text, ToolsVersion};
use std::alloc::Global;
use std::process::Abort;
use std::test::Fail;

fn document(alloc: Global, json: &str) -> Result<Value, ReadFault> {
    read_document(alloc, json.as_bytes())
}

// A character that is cut short, and one that no text has, are asserted below.
fn texts_that_are_not_json() -> &'static str {
    r#"
{
nul
"\x"
"\ud800"
1e400
01
[1,]
1 2"#
}

#[test]
fn other_bytes_are_not_json(rt: HostRuntime) {
    let alloc = rt.alloc();
    for line in texts_that_are_not_json().lines() {
        assert_outcome(&rt, alloc, document(alloc, line), ": not JSON", line);
    }
    let found = read_document(alloc, b"\"\xff\"");
    assert_outcome(&rt, alloc, found, ": not JSON", "a byte that no text has");
    let found = read_document(alloc, b"\"\xc3\"");
    assert_outcome(&rt, alloc, found, ": not JSON", "a character cut short");
}

// Asserts what a document of so many levels comes to.
fn assert_levels(rt: &impl Abort, alloc: Global, levels: usize, wanted: &str) {
    let json = nested_lists(alloc, levels).expect(rt, "memory");
    let found = document(alloc, json.as_str());
    assert_outcome(rt, alloc, found, wanted, json.as_str());
}

#[test]
fn documents_have_127_levels_at_most(rt: HostRuntime) {
    assert_levels(&rt, rt.alloc(), 127, "ok");
    assert_levels(&rt, rt.alloc(), 128, ": not JSON");
}

// Adds what reading comes to, behind what is there.
fn push_outcome<T: Drop>(
    line: &mut String,
    alloc: Global,
    found: Result<T, ReadFault>,
) -> Result<(), NoMemory> {
    let text = outcome(alloc, found)?;
    if !line.is_empty() {
        line.push_str("; ")?;
    }
    line.push_str(text.as_str())?;
    Ok(())
}

// What an item is read as: as a text, a list, an object and a whole number.
fn shapes_of(alloc: Global, value: &Value) -> Result<String, NoMemory> {
    let mut line = String::new(alloc);
    push_outcome(&mut line, alloc, text(alloc, value))?;
    push_outcome(&mut line, alloc, list(alloc, value))?;
    push_outcome(&mut line, alloc, Object::of(alloc, value))?;
    push_outcome(&mut line, alloc, whole_number(alloc, value))?;
    Ok(line)
}

fn shapes() -> &'static str {
    r#"null => : wrong kind; : wrong kind; : wrong kind; : wrong kind
true => : wrong kind; : wrong kind; : wrong kind; : wrong kind
"3" => ok; : wrong kind; : wrong kind; : wrong kind
[3] => : wrong kind; ok; : wrong kind; : wrong kind
{"3":3} => : wrong kind; : wrong kind; ok; : wrong kind
3 => : wrong kind; : wrong kind; : wrong kind; ok
3.0 => : wrong kind; : wrong kind; : wrong kind; : wrong kind
3e0 => : wrong kind; : wrong kind; : wrong kind; : wrong kind
-1 => : wrong kind; : wrong kind; : wrong kind; : wrong kind
18446744073709551615 => : wrong kind; : wrong kind; : wrong kind; ok
18446744073709551616 => : wrong kind; : wrong kind; : wrong kind; : wrong kind"#
}

#[test]
fn items_of_another_shape_are_of_the_wrong_kind(rt: HostRuntime) -> Result<(), Fail> {
    let alloc = rt.alloc();
    for line in shapes().lines() {
        let (json, wanted) = sides(&rt, line);
        let found = shapes_of(alloc, &document(alloc, json)?)?;
        assert_text(&rt, found.as_str(), wanted, json);
    }
    Ok(())
}

// What a list is read as under a limit: its items as numbers, and the list. The length decides before the items are read.
fn limited(alloc: Global, value: &Value, limit: usize) -> Result<String, NoMemory> {
    let mut line = String::new(alloc);
    let numbers: Result<Items<u64>, ReadFault> = limited_items(alloc, value, limit);
    push_outcome(&mut line, alloc, numbers)?;
    push_outcome(&mut line, alloc, limited_list(alloc, value, limit))?;
    Ok(line)
}

fn assert_limited(rt: &impl Abort, alloc: Global, limit: usize, table: &str) -> Result<(), Fail> {
    for line in table.lines() {
        let (json, wanted) = sides(rt, line);
        let found = limited(alloc, &document(alloc, json)?, limit)?;
        assert_text(rt, found.as_str(), wanted, json);
    }
    Ok(())
}

fn lists_of_two() -> &'static str {
    "[1,2] => ok; ok
[1,2,3] => : too many; : too many
[null,2,3] => : too many; : too many
{} => : wrong kind; : wrong kind"
}

#[test]
fn lists_have_their_limit_at_most(rt: HostRuntime) -> Result<(), Fail> {
    let none = "[] => ok; ok
[1] => : too many; : too many";
    assert_limited(&rt, rt.alloc(), 0, none)?;
    assert_limited(&rt, rt.alloc(), 2, lists_of_two())
}

// What a list of one number is read as, by itself and as the member `a`.
fn sole_of_both(alloc: Global, value: &Value) -> Result<String, NoMemory> {
    let mut line = String::new(alloc);
    let number: Result<u64, ReadFault> = sole(alloc, value);
    push_outcome(&mut line, alloc, number)?;
    let number: Result<u64, ReadFault> = sole_member(alloc, "a", value);
    push_outcome(&mut line, alloc, number)?;
    Ok(line)
}

fn soles() -> &'static str {
    "[3] => ok; ok
[] => : wrong kind; /a: wrong kind
[3,4] => : wrong kind; /a: wrong kind
3 => : wrong kind; /a: wrong kind
[null] => /0: wrong kind; /a/0: wrong kind"
}

#[test]
fn a_sole_item_is_alone(rt: HostRuntime) -> Result<(), Fail> {
    let alloc = rt.alloc();
    for line in soles().lines() {
        let (json, wanted) = sides(&rt, line);
        let found = sole_of_both(alloc, &document(alloc, json)?)?;
        assert_text(&rt, found.as_str(), wanted, json);
    }
    Ok(())
}

// What the member `a` is read as: as a number that has to be there, one that is needed, and one that is optional.
fn presence(alloc: Global, object: &Object) -> Result<String, NoMemory> {
    let mut line = String::new(alloc);
    let number: Result<u64, ReadFault> = object.field("a");
    push_outcome(&mut line, alloc, number)?;
    let number: Result<u64, ReadFault> = object.needed_field("a");
    push_outcome(&mut line, alloc, number)?;
    let number: Result<Option<u64>, ReadFault> = object.optional_field("a");
    push_outcome(&mut line, alloc, number)?;
    Ok(line)
}

fn absent() -> &'static str {
    r#"{} => /a: missing; /a: missing; ok
{"a":null} => /a: wrong kind; /a: missing; ok
{"a":"3"} => /a: wrong kind; /a: wrong kind; /a: wrong kind
{"a":3} => ok; ok; ok"#
}

#[test]
fn null_is_absent_where_a_member_is_optional(rt: HostRuntime) -> Result<(), Fail> {
    let alloc = rt.alloc();
    for line in absent().lines() {
        let (json, wanted) = sides(&rt, line);
        let value = document(alloc, json)?;
        let found = presence(alloc, &Object::of(alloc, &value)?)?;
        assert_text(&rt, found.as_str(), wanted, json);
    }
    Ok(())
}

// The optional number that the member `a` is.
fn number_of(alloc: Global, json: &str) -> Result<Option<u64>, ReadFault> {
    let value = document(alloc, json)?;
    Object::of(alloc, &value)?.optional_field("a")
}

// Asserts which optional number the member `a` is.
fn assert_number(rt: &impl Abort, alloc: Global, json: &str, wanted: Option<u64>) {
    let found = number_of(alloc, json).expect(rt, json);
    assert!(rt; found == wanted, "at {json}");
}

#[test]
fn members_are_read(rt: HostRuntime) {
    let alloc = rt.alloc();
    assert_number(&rt, alloc, "{}", None);
    assert_number(&rt, alloc, r#"{"a":null}"#, None);
    assert_number(&rt, alloc, r#"{"a":0}"#, Some(0));
    assert_number(&rt, alloc, r#"{"a":3}"#, Some(3));
    assert_number(&rt, alloc, r#"{"a":18446744073709551615}"#, Some(u64::MAX));
    assert_number(&rt, alloc, r#"{"a":3,"b":5,"a":4}"#, Some(4));
    assert_number(&rt, alloc, r#"{"a":3,"\u0061":4}"#, Some(4));
    assert_number(&rt, alloc, r#"{"a":3,"a":null}"#, None);
}

// What the member `a` is read as: as an identity, a release, a tools version and a text.
fn values_of(alloc: Global, object: &Object) -> Result<String, NoMemory> {
    let mut line = String::new(alloc);
    let identity: Result<Identity, ReadFault> = object.field("a");
    push_outcome(&mut line, alloc, identity)?;
    let release: Result<Release, ReadFault> = object.field("a");
    push_outcome(&mut line, alloc, release)?;
    let tools: Result<ToolsVersion, ReadFault> = object.field("a");
    push_outcome(&mut line, alloc, tools)?;
    let text: Result<Text, ReadFault> = object.field("a");
    push_outcome(&mut line, alloc, text)?;
    Ok(line)
}

fn values() -> &'static str {
    r#"{"a":"mona.LinkedList"} => ok; /a: bad version; /a: bad version; ok
{"a":"1.0.0"} => /a: bad identity; ok; ok; ok
{"a":"5"} => /a: bad identity; /a: bad version; ok; ok
{"a":5} => /a: wrong kind; /a: wrong kind; /a: wrong kind; /a: wrong kind"#
}

#[test]
fn values_are_read_from_texts(rt: HostRuntime) -> Result<(), Fail> {
    let alloc = rt.alloc();
    for line in values().lines() {
        let (json, wanted) = sides(&rt, line);
        let value = document(alloc, json)?;
        let found = values_of(alloc, &Object::of(alloc, &value)?)?;
        assert_text(&rt, found.as_str(), wanted, json);
    }
    Ok(())
}

// `{"b":NUMBER}`
#[derive(Drop)]
struct Row {
    b: u64,
}

impl FromJson for Row {
    ghost reading = { λ d. object_of d >>= λ o. field_of whole_number_of (codes "b") o >>= λ b. Ok (record { b = b }) };

    fn from_json(alloc: Global, value: &Value) -> Result<Row, ReadFault> {
        let object = Object::of(alloc, value)?;
        let b = object.field("b")?;
        Ok(Row { b })
    }
}

// The rows of the list that the member `a` is.
fn rows(alloc: Global, json: &str) -> Result<Items<Row>, ReadFault> {
    let value = document(alloc, json)?;
    match Object::of(alloc, &value)?.get("a") {
        Some(list) => within(alloc, "a", items(alloc, list)),
        None => Err(ReadFault::here(alloc, Kind::Missing)),
    }
}

fn paths() -> &'static str {
    r#"{"a":[{"b":3}]} => ok
{"a":[{"b":"3"}]} => /a/0/b: wrong kind
{"a":[{"b":3},{}]} => /a/1/b: missing
{"a":[{"b":3},3]} => /a/1: wrong kind
{"a":[{},3]} => /a/0/b: missing
{"a":{}} => /a: wrong kind
[] => : wrong kind"#
}

#[test]
fn faults_have_their_path(rt: HostRuntime) {
    let alloc = rt.alloc();
    for line in paths().lines() {
        let (json, wanted) = sides(&rt, line);
        assert_outcome(&rt, alloc, rows(alloc, json), wanted, json);
    }
}

// `KEY:[NUMBER]`
#[derive(Drop)]
struct Entry {
    key: Text,
    number: u64,
}

impl FromMember for Entry {
    ghost reading = { λ earlier key d. sole_of whole_number_of d >>= λ number. Ok (record { key = key; number = number }) };

    fn from_member(
        alloc: Global,
        earlier: &[Entry],
        key: &str,
        value: &Value,
    ) -> Result<Entry, ReadFault> {
        let number = sole(alloc, value)?;
        let key = Text::from_str(alloc, key)?;
        Ok(Entry { key, number })
    }
}

// The members in their order, as in `{a=3 b=4 }`, or their first fault.
fn listed(alloc: Global, json: &str) -> Result<String, NoMemory> {
    let entries: Items<Entry> = match entries(alloc, json) {
        Ok(entries) => entries,
        Err(fault) => return fault_text(alloc, &fault),
    };
    let mut listed = String::from_str(alloc, "{")?;
    for entry in entries.as_slice() {
        write!(listed, "{}={} ", entry.key, entry.number)?;
    }
    listed.push('}')?;
    Ok(listed)
}

fn entries(alloc: Global, json: &str) -> Result<Items<Entry>, ReadFault> {
    let value = document(alloc, json)?;
    members(alloc, &value)
}

// A fault under a foreign key stands at the object.
fn listings() -> &'static str {
    r#"{} => {}
{"b":[1],"é":[2],"a":[3],"":[4],"a.b":[5],"B":[6]} => {=4 B=6 a=3 a.b=5 b=1 é=2 }
{"b":[1],"a":[2],"b":[3],"\u0061":[4]} => {a=4 b=3 }
{"a":[3],"b":[4]} => {a=3 b=4 }
{"a":[3],"b":[]} => : wrong kind
{"a":[3],"b":["4"]} => : wrong kind
[] => : wrong kind"#
}

#[test]
fn members_come_in_byte_order(rt: HostRuntime) {
    for line in listings().lines() {
        let (json, wanted) = sides(&rt, line);
        let found = listed(rt.alloc(), json).expect(&rt, "memory");
        assert_text(&rt, found.as_str(), wanted, json);
    }
}

// How a fault prints that was moved, and want of memory.
fn printed(alloc: Global) -> Result<String, NoMemory> {
    let fault = ReadFault::here(alloc, Kind::TooMany)
        .under_index(alloc, 10)
        .under_key(alloc, "a");
    let memory = ReadFault::Memory;
    format!(in alloc; "{fault}, {memory}")
}

#[test]
fn faults_are_printed(rt: HostRuntime) {
    let found = printed(rt.alloc()).expect(&rt, "memory");
    let wanted = "unreadable at /a/10: too many, no memory";
    assert_text(&rt, found.as_str(), wanted, "both");
}
