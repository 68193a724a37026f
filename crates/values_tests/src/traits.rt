use crate::support::{assert_text, sides, sign};
use spm_trait::{ClosureFault, TraitEntry, TraitFault, TraitName, Traits, closure};
use spm_version::Items;
use std::alloc::Global;
use std::test::Fail;

// What a text is read as: how a copy of the name prints, or its fault.
fn reading(alloc: Global, text: &str) -> Result<String, Fail> {
    match TraitName::parse(alloc, text) {
        Ok(name) => Ok(name.copy(alloc)?.to_string(alloc)?),
        Err(fault) => Ok(fault.to_string(alloc)?),
    }
}

// A combining accent continues an identifier, and starts none.
fn readings() -> &'static str {
    "default => default
D => D
1x => 1x
_x => _x
x-y+z.w => x-y+z.w
é => é
défaut => défaut
Defaults => Defaults
 => empty name
defaults => reserved name
-x => bad character 0
. => bad character 0
 x => bad character 0
\u{301}x => bad character 0
x y => bad character 1
x😀 => bad character 1
éé/ => bad character 2
abcdefghijkl/ => bad character 12"
}

#[test]
fn names_of_traits_are_read(rt: HostRuntime) -> Result<(), Fail> {
    for line in readings().lines() {
        let (text, wanted) = sides(&rt, line);
        let found = reading(rt.alloc(), text)?;
        assert_text(&rt, found.as_str(), wanted, text);
    }
    Ok(())
}

// How two of them are ordered.
fn order(alloc: Global, first: &str, second: &str) -> Result<&'static str, TraitFault> {
    let first = TraitName::parse(alloc, first)?;
    let second = TraitName::parse(alloc, second)?;
    Ok(sign(first.cmp(&second)))
}

fn orders() -> &'static str {
    "D D => =
E default => <
x x1 => <
é z => >"
}

#[test]
fn names_of_traits_are_ordered_by_bytes(rt: HostRuntime) -> Result<(), Fail> {
    for line in orders().lines() {
        let (case, wanted) = sides(&rt, line);
        let (first, second) = case.split_once(' ').expect(&rt, case);
        let found = order(rt.alloc(), first, second)?;
        assert_text(&rt, found, wanted, case);
    }
    Ok(())
}

// The words of a text, as names.
fn names(alloc: Global, text: &str) -> Result<Vec<TraitName>, Fail> {
    let mut names = Vec::new(alloc);
    for word in text.split_whitespace() {
        names.push(TraitName::parse(alloc, word)?)?;
    }
    Ok(names)
}

// A copy of traits, written as their names, each with a colon and what it enables, and a semicolon.
fn traits(alloc: Global, text: &str) -> Result<Traits, Fail> {
    let mut entries = Vec::new(alloc);
    for entry in text.split(';') {
        let Some((name, enables)) = entry.split_once(':') else {
            break;
        };
        let name = TraitName::parse(alloc, name.trim())?;
        let enables = Items::from_vec(names(alloc, enables)?);
        entries.push(TraitEntry { name, enables }.copy(alloc)?)?;
    }
    let entries = Items::from_vec(entries);
    Ok(Traits { entries }.copy(alloc)?)
}

// The names in braces, with a space behind each.
fn joined(alloc: Global, names: &[TraitName]) -> Result<String, Fail> {
    let mut text = String::from_str(alloc, "{")?;
    for name in names {
        text.push_str(name.text())?;
        text.push(' ')?;
    }
    text.push('}')?;
    Ok(text)
}

// The names of a closure, or how a copy of its fault prints.
fn closed(alloc: Global, declared: &str, asked: &str) -> Result<String, Fail> {
    let traits = traits(alloc, declared)?;
    let asked = names(alloc, asked)?;
    match closure(alloc, &traits, &asked) {
        Ok(names) => joined(alloc, &names),
        Err(fault) => Ok(fault.copy(alloc)?.to_string(alloc)?),
    }
}

// Of entries with one name the first counts.
fn closures() -> &'static str {
    "default: D; D: E; E:; / default => {D E default }
default: D; D: E; E:; / D => {D E }
default: D; D: E; E:; / E => {E }
default: D; D: E; E:; /  => {}
default: D; D: E; E:; / Z => no trait Z is declared
default: D; D: E; / default => no trait E is declared
default: D; D: E; / D E D => no trait E is declared
 / default => {default }
 /  => {}
A: B; B: A; / A => {A B }
A: B; B: A; / B B => {A B }
A: A default; / A => {A default }
A: Z; B: Y; / A B => no trait Y is declared
A: Z; B: Y; / B A => no trait Y is declared
A: Y Z default; / A => no trait Y is declared
A: B C; B: D; C: D; D:; / A => {A B C D }
A: B; A: C; B:; C:; / A => {A B }"
}

#[test]
fn closures_are_the_least(rt: HostRuntime) -> Result<(), Fail> {
    for line in closures().lines() {
        let (case, wanted) = sides(&rt, line);
        let (declared, asked) = case.split_once(" / ").expect(&rt, case);
        let found = closed(rt.alloc(), declared, asked)?;
        assert_text(&rt, found.as_str(), wanted, case);
    }
    Ok(())
}

#[test]
fn want_of_memory_for_traits_is_printed(rt: HostRuntime) -> Result<(), Fail> {
    let printed = TraitFault::Memory.to_string(rt.alloc())?;
    assert_text(&rt, printed.as_str(), "no memory", "a name");
    let printed = ClosureFault::Memory.to_string(rt.alloc())?;
    assert_text(&rt, printed.as_str(), "no memory", "a closure");
    Ok(())
}
