use crate::support::{assert_text, sides, sign};
use spm_version::{
    Bytes, Duplicate, Items, Kind, Release, Requirement, Text, ToolsVersion, VersionFault, ranks,
};
use std::alloc::Global;
use std::cmp::Ordering;
use std::process::Abort;
use std::test::Fail;

// What a text is read as: how a copy of the release is spelled, or its fault.
fn reading(alloc: Global, text: &str) -> Result<Text, VersionFault> {
    match Release::parse(alloc, text) {
        Ok(release) => Ok(release.copy(alloc)?.text(alloc)?),
        Err(fault) => Ok(Text::from_string(fault.to_string(alloc)?)),
    }
}

// The examples of SemVer 2.0, sections 2, 9, 10 and 11, the greatest number, and texts that are no versions.
fn readings() -> &'static str {
    "1.9.0 => 1.9.0
1.10.0 => 1.10.0
1.0.0-alpha => 1.0.0-alpha
1.0.0-alpha.1 => 1.0.0-alpha.1
1.0.0-0.3.7 => 1.0.0-0.3.7
1.0.0-x.7.z.92 => 1.0.0-x.7.z.92
1.0.0-x-y-z.-- => 1.0.0-x-y-z.--
1.0.0-alpha+001 => 1.0.0-alpha+001
1.0.0+20130313144700 => 1.0.0+20130313144700
1.0.0-beta+exp.sha.5114f85 => 1.0.0-beta+exp.sha.5114f85
1.0.0+21AF26D3----117B344092BD => 1.0.0+21AF26D3----117B344092BD
1.0.0-alpha.beta => 1.0.0-alpha.beta
1.0.0-rc.1 => 1.0.0-rc.1
1.0.0-rc.1+x => 1.0.0-rc.1+x
18446744073709551615.0.0 => 18446744073709551615.0.0
 => bad version
1 => bad version
1.2 => bad version
01.2.3 => bad version
1.2.3- => bad version
1.2.3-01 => bad version
1.2.3-a..b => bad version
1.2.3+ => bad version
1.2.3-é => bad version
1.2.3  => bad version
v1.2.3 => bad version
1.2.3.4 => bad version
18446744073709551616.0.0 => bad version"
}

#[test]
fn versions_are_read_and_spelled(rt: HostRuntime) -> Result<(), Fail> {
    for line in readings().lines() {
        let (text, wanted) = sides(&rt, line);
        let found = reading(rt.alloc(), text)?;
        assert_text(&rt, found.as_str(), wanted, text);
    }
    Ok(())
}

// How two releases are ordered by precedence, where the first is less than the second.
fn order(alloc: Global, first: &str, second: &str) -> Result<&'static str, VersionFault> {
    let first = Release::parse(alloc, first)?;
    let second = Release::parse(alloc, second)?;
    Ok(match first.cmp(&second) {
        Ordering::Less => sign(first.cmp_precedence(&second)),
        _ => "no",
    })
}

// The two lists of SemVer 2.0, section 11, and then build metadata, which has no part in precedence.
fn orders() -> &'static str {
    "1.0.0 2.0.0 => <
2.0.0 2.1.0 => <
2.1.0 2.1.1 => <
1.0.0-alpha 1.0.0-alpha.1 => <
1.0.0-alpha.1 1.0.0-alpha.beta => <
1.0.0-alpha.beta 1.0.0-beta => <
1.0.0-beta 1.0.0-beta.2 => <
1.0.0-beta.2 1.0.0-beta.11 => <
1.0.0-beta.11 1.0.0-rc.1 => <
1.0.0-rc.1 1.0.0 => <
1.0.0 1.0.0+0 => =
1.0.0+0 1.0.0+00 => =
1.0.0+00 1.0.0+1 => =
1.0.0+1 1.0.0+01 => =
1.0.0+01 1.0.0+x => ="
}

#[test]
fn releases_are_ordered(rt: HostRuntime) -> Result<(), Fail> {
    for line in orders().lines() {
        let (case, wanted) = sides(&rt, line);
        let (lower, higher) = case.split_once(' ').expect(&rt, case);
        let found = order(rt.alloc(), lower, higher)?;
        assert_text(&rt, found, wanted, case);
    }
    Ok(())
}

fn range(alloc: Global, low: &str, high: &str) -> Result<Requirement, VersionFault> {
    let low = Release::parse(alloc, low)?;
    let high = Release::parse(alloc, high)?;
    Ok(Requirement::Range(low, high))
}

// A requirement: a range with `..<` between its bounds, a word and a text, or a path.
fn requirement(alloc: Global, text: &str) -> Result<Requirement, VersionFault> {
    if let Some((low, high)) = text.split_once("..<") {
        return range(alloc, low, high);
    }
    match text.split_once(' ') {
        Some(("exact", release)) => Ok(Requirement::Exact(Release::parse(alloc, release)?)),
        Some(("branch", name)) => Ok(Requirement::Branch(Text::from_str(alloc, name)?)),
        Some(("revision", name)) => Ok(Requirement::Revision(Text::from_str(alloc, name)?)),
        _ => Ok(Requirement::Path),
    }
}

// Whether a copy of the requirement contains the release.
fn contains(alloc: Global, text: &str, release: &str) -> Result<&'static str, VersionFault> {
    let release = Release::parse(alloc, release)?;
    let copy = requirement(alloc, text)?.duplicate(alloc)?;
    Ok(if copy.contains(&release) {
        "inside"
    } else {
        "outside"
    })
}

fn contained() -> &'static str {
    "1.0.0..<2.0.0, 0.9.9 => outside
1.0.0..<2.0.0, 1.0.0 => inside
1.0.0..<2.0.0, 2.0.0 => outside
1.0.0..<2.0.0, 2.0.0+x => outside
1.0.0..<2.0.0, 1.5.0-rc.1 => outside
1.0.0..<2.0.0, 2.0.0-beta.1 => outside
1.0.0-a..<2.0.0, 1.5.0-rc.1 => inside
2.0.0-alpha..<2.0.0, 2.0.0-beta.1 => outside
2.0.0-alpha..<3.0.0, 2.0.0-beta.1 => inside
1.0.0..<2.0.0-beta, 2.0.0-alpha => inside
1.0.0..<2.0.0-beta, 2.0.0-beta => outside
1.0.0..<2.0.0-beta, 1.0.0-alpha => outside
1.0.0..<1.0.0, 1.0.0 => outside
1.0.0-a..<1.0.0-a, 1.0.0-a => outside
exact 1.0.0, 1.0.0 => inside
exact 1.0.0, 1.0.0+x => outside
branch 1.0.0, 1.0.0 => outside
revision 1.0.0, 1.0.0 => outside
path, 1.0.0 => outside"
}

#[test]
fn requirements_contain_releases(rt: HostRuntime) -> Result<(), Fail> {
    for line in contained().lines() {
        let (case, wanted) = sides(&rt, line);
        let (text, release) = case.split_once(", ").expect(&rt, case);
        let found = contains(rt.alloc(), text, release)?;
        assert_text(&rt, found, wanted, case);
    }
    Ok(())
}

// A copy of the releases that the words of a text are.
fn releases(alloc: Global, text: &str) -> Result<Items<Release>, VersionFault> {
    let mut releases = Items::new(alloc);
    for word in text.split_whitespace() {
        releases.push(Release::parse(alloc, word)?)?;
    }
    Ok(releases.copy(alloc)?)
}

// The ranks of the releases in a range, with a comma behind each.
fn ranked(alloc: Global, range: &str, list: &str) -> Result<String, Fail> {
    let releases = releases(alloc, list)?;
    let three = releases.as_slice().get(..3).ok_or("three releases")?;
    let range = requirement(alloc, range)?;
    let mut text = String::new(alloc);
    for rank in ranks(alloc, three, &range)? {
        write!(text, "{rank},")?;
    }
    Ok(text)
}

#[test]
fn ranks_are_counted_from_1(rt: HostRuntime) -> Result<(), Fail> {
    let alloc = rt.alloc();
    let list = "1.0.0 1.1.0 2.0.0";
    let found = ranked(alloc, "1.0.0..<2.0.0", list)?;
    assert_text(&rt, found.as_str(), "1,2,", list);
    let found = ranked(alloc, "1.1.0..<3.0.0", list)?;
    assert_text(&rt, found.as_str(), "2,3,", list);
    Ok(())
}

// What a text is read as: how the tools version prints, or that it is none.
fn tools(alloc: Global, text: &str) -> Result<String, Fail> {
    match ToolsVersion::parse(text) {
        Some(version) => Ok(version.to_string(alloc)?),
        None => Ok(String::from_str(alloc, "none")?),
    }
}

fn tools_versions() -> &'static str {
    "5.9.0 => 5.9.0
5.9 => 5.9.0
5 => 5.0.0
6.1 => 6.1.0
05.009 => 5.9.0
999999999 => 999999999.0.0
 => none
5. => none
.5 => none
5..0 => none
5.9.0.1 => none
1234567890 => none
5.x => none
+5 => none"
}

#[test]
fn tools_versions_have_one_to_three_numbers(rt: HostRuntime) -> Result<(), Fail> {
    for line in tools_versions().lines() {
        let (text, wanted) = sides(&rt, line);
        let found = tools(rt.alloc(), text)?;
        assert_text(&rt, found.as_str(), wanted, text);
    }
    Ok(())
}

#[test]
fn tools_versions_are_ordered_by_numbers(rt: HostRuntime) -> Result<(), Fail> {
    let ninth = ToolsVersion::parse("5.9").ok_or("5.9")?;
    let tenth = ToolsVersion::parse("5.10").ok_or("5.10")?;
    assert!(rt; tenth > ninth);
    assert_eq!(rt; (ninth.major, ninth.minor, ninth.patch), (5, 9, 0));
    Ok(())
}

#[test]
fn texts_are_copied(rt: HostRuntime) -> Result<(), Fail> {
    let alloc = rt.alloc();
    let text = Text::from_str(alloc, "main")?.duplicate(alloc)?;
    let printed = text.to_string(alloc)?;
    assert_text(&rt, printed.as_str(), "main", "a text");
    Ok(())
}

#[test]
fn bytes_are_copied(rt: HostRuntime) -> Result<(), Fail> {
    let alloc = rt.alloc();
    let bytes = Bytes::from_slice(alloc, b"main")?.copy(alloc)?;
    let copy = bytes.duplicate(alloc)?;
    assert!(rt; copy.as_slice() == b"main".as_slice());
    Ok(())
}

// Asserts how a kind prints.
fn assert_kind(rt: &impl Abort, alloc: Global, kind: Kind, wanted: &str) {
    let printed = kind.to_string(alloc).expect(rt, wanted);
    assert_text(rt, printed.as_str(), wanted, "a kind");
}

#[test]
fn kinds_are_printed(rt: HostRuntime) {
    let alloc = rt.alloc();
    assert_kind(&rt, alloc, Kind::NotJson, "not JSON");
    assert_kind(&rt, alloc, Kind::Missing, "missing");
    assert_kind(&rt, alloc, Kind::WrongKind, "wrong kind");
    assert_kind(&rt, alloc, Kind::BadIdentity, "bad identity");
    assert_kind(&rt, alloc, Kind::BadVersion, "bad version");
    assert_kind(&rt, alloc, Kind::BadTrait, "bad trait");
    assert_kind(&rt, alloc, Kind::Doubled, "doubled");
    assert_kind(&rt, alloc, Kind::TooMany, "too many");
    assert_kind(&rt, alloc, Kind::BadHex, "bad hex");
}

#[test]
fn releases_and_want_of_memory_are_printed(rt: HostRuntime) -> Result<(), Fail> {
    let alloc = rt.alloc();
    let release = Release::parse(alloc, "1.0.0-rc.1+x")?;
    let memory = VersionFault::Memory;
    let printed = format!(in alloc; "{release}, {memory}")?;
    assert_text(&rt, printed.as_str(), "1.0.0-rc.1+x, no memory", "both");
    Ok(())
}
