// Texts of derivations. The derivations are made of two tables: a line for each node, `NAME CHOICE CHOICE ..`, and one for each
// line of the derivation.
ghost use Rattle.std.specs.Prelude.{◌≡◌, length, map};

use crate::sets::made;
use pub_proof::{Derivation, Line, check};
use pub_term::{Cause, Incompat, NodeName, Subject, Term};
use spm_explain::explain;
use spm_ident::Identity;
use spm_trait::TraitName;
use spm_version::{Bytes, Items, Kind, Release, Requirement, Text, ToolsVersion};
use std::alloc::Global;
use std::process::Abort;

// A text.
fn text(rt: &impl Abort, alloc: Global, word: &str) -> Text {
    Text::from_str(alloc, word).expect(rt, "memory")
}

// An identity.
fn identity(rt: &impl Abort, alloc: Global, word: &str) -> Identity {
    Identity::parse(alloc, word).expect(rt, word)
}

// A release, by its version.
fn release(rt: &impl Abort, alloc: Global, word: &str) -> Release {
    Release::parse(alloc, word).expect(rt, word)
}

// A trait's name.
fn trait_name(rt: &impl Abort, alloc: Global, word: &str) -> TraitName {
    TraitName::parse(alloc, word).expect(rt, word)
}

// What stands before a mark, and behind it.
fn sides<'l>(rt: &impl Abort, words: &'l str, mark: char) -> (&'l str, &'l str) {
    words.split_once(mark).expect(rt, words)
}

// `root`, or an identity and a version.
fn owner(rt: &impl Abort, alloc: Global, words: &str) -> Option<(Identity, Release)> {
    if words == "root" {
        return None;
    }
    let (before, behind) = sides(rt, words, ' ');
    Some((identity(rt, alloc, before), release(rt, alloc, behind)))
}

// The traits that stand behind `+`.
fn under(rt: &impl Abort, alloc: Global, words: &str) -> Items<TraitName> {
    let mut under = Items::new(alloc);
    for word in words.split('+').skip(1) {
        let pushed = under.push(trait_name(rt, alloc, word));
        pushed.expect(rt, "memory");
    }
    under
}

// An owner, and its traits.
fn subject(rt: &impl Abort, alloc: Global, words: &str) -> Subject {
    let first = words.split('+').next().expect(rt, words);
    let owner = owner(rt, alloc, first);
    let under = under(rt, alloc, words);
    Subject { owner, under }
}

// A version, or two with `~` between.
fn versions(rt: &impl Abort, alloc: Global, words: &str) -> Requirement {
    match words.split_once('~') {
        None => Requirement::Exact(release(rt, alloc, words)),
        Some((low, high)) => Requirement::Range(release(rt, alloc, low), release(rt, alloc, high)),
    }
}

// A branch, a revision or a path.
fn unversioned(rt: &impl Abort, alloc: Global, kind: &str, word: &str) -> Requirement {
    match kind {
        "branch" => Requirement::Branch(text(rt, alloc, word)),
        "revision" => Requirement::Revision(text(rt, alloc, word)),
        _ => Requirement::Path,
    }
}

// The cause of a kind whose words are two.
fn cause_of_two(
    rt: &impl Abort,
    alloc: Global,
    subject: Subject,
    kind: &str,
    words: &str,
) -> Cause {
    let (before, behind) = sides(rt, words, ' ');
    match kind {
        "needs" => Cause::Requires(
            subject,
            identity(rt, alloc, before),
            versions(rt, alloc, behind),
        ),
        "asks" => Cause::Asks(
            subject,
            identity(rt, alloc, before),
            trait_name(rt, alloc, behind),
        ),
        _ => Cause::Unversioned(
            subject,
            unversioned(rt, alloc, kind, before),
            text(rt, alloc, behind),
        ),
    }
}

// The cause of a kind, of the words that tell it.
fn cause(rt: &impl Abort, alloc: Global, subject: Subject, kind: &str, words: &str) -> Cause {
    match kind {
        "words" => Cause::WordsAsk(trait_name(rt, alloc, words)),
        "enables" => Cause::Enables(subject, trait_name(rt, alloc, words)),
        "no trait" => Cause::NoTrait(subject),
        "no manifest" => Cause::NoManifest(subject),
        "unreadable" => Cause::Unreadable(subject, text(rt, alloc, words), Kind::WrongKind),
        "tools" => Cause::Tools(subject, ToolsVersion::parse(words).expect(rt, words)),
        "url" => Cause::UnknownUrl(subject, text(rt, alloc, words)),
        "given" => Cause::Given,
        _ => cause_of_two(rt, alloc, subject, kind, words),
    }
}

// A set, by its choices with commas between.
fn numbers(rt: &impl Abort, alloc: Global, words: &str) -> Vec<u32> {
    let mut numbers = Vec::new(alloc);
    for word in words.split(',') {
        let number = word.parse::<u32>().expect(rt, word);
        numbers.push(number).expect(rt, "memory");
    }
    numbers
}

// A term: the number of its node, a colon, and its choices.
fn term(rt: &impl Abort, alloc: Global, sizes: &[u32], words: &str) -> Term {
    let (node, behind) = sides(rt, words, ':');
    let node = node.parse::<u32>().expect(rt, words);
    let size = sizes.get(node as usize).copied().expect(rt, words);
    let choices = made(alloc, size, &numbers(rt, alloc, behind)).expect(rt, "memory");
    Term { node, choices }
}

// Terms with spaces between.
fn terms(rt: &impl Abort, alloc: Global, sizes: &[u32], words: &str) -> Incompat {
    let mut terms = Items::new(alloc);
    for word in words.split_whitespace() {
        terms
            .push(term(rt, alloc, sizes, word))
            .expect(rt, "memory");
    }
    Incompat { terms }
}

// `FIRST SECOND NODE`, by their numbers.
fn resolution(rt: &impl Abort, words: &str) -> Line {
    let (first, rest) = sides(rt, words, ' ');
    let (second, on) = sides(rt, rest, ' ');
    Line::Resolve {
        first: first.parse::<u64>().expect(rt, words),
        second: second.parse::<u64>().expect(rt, words),
        on: on.parse::<u32>().expect(rt, words),
    }
}

// `WHO|KIND|WORDS|TERMS`, or a resolution.
fn line(rt: &impl Abort, alloc: Global, sizes: &[u32], words: &str) -> Line {
    let Some((who, rest)) = words.split_once('|') else {
        return resolution(rt, words);
    };
    let (kind, rest) = sides(rt, rest, '|');
    let (words, behind) = sides(rt, rest, '|');
    let incompat = terms(rt, alloc, sizes, behind);
    let subject = subject(rt, alloc, who);
    Line::Fact(incompat, cause(rt, alloc, subject, kind, words))
}

// The lines of a table.
fn lines(rt: &impl Abort, alloc: Global, sizes: &[u32], table: &str) -> Items<Line> {
    let mut lines = Items::new(alloc);
    for words in table.lines() {
        lines
            .push(line(rt, alloc, sizes, words))
            .expect(rt, "memory");
    }
    lines
}

// The name of a node, which is the first of its words.
fn name(rt: &impl Abort, alloc: Global, words: &str) -> NodeName {
    match sides(rt, words, ' ').0 {
        "root" => NodeName::Root,
        word => NodeName::Package(identity(rt, alloc, word)),
    }
}

// The names of the nodes of a table.
fn names(rt: &impl Abort, alloc: Global, table: &str) -> Items<NodeName> {
    let mut names = Items::new(alloc);
    for words in table.lines() {
        names.push(name(rt, alloc, words)).expect(rt, "memory");
    }
    names
}

// The texts of a node's choices, which are its other words.
fn texts(rt: &impl Abort, alloc: Global, words: &str) -> Items<Text> {
    let mut texts = Items::new(alloc);
    for word in words.split(' ').skip(1) {
        texts.push(text(rt, alloc, word)).expect(rt, "memory");
    }
    texts
}

// The texts of all nodes' choices.
fn choices(rt: &impl Abort, alloc: Global, table: &str) -> Items<Items<Text>> {
    let mut choices = Items::new(alloc);
    for words in table.lines() {
        choices.push(texts(rt, alloc, words)).expect(rt, "memory");
    }
    choices
}

// How many choices each node has.
fn sizes(rt: &impl Abort, alloc: Global, choices: &[Items<Text>]) -> Items<u32>
    ensures { map length choices.now ≡ result }
{
    let mut sizes = Items::new(alloc);
    for texts in choices {
        let size = u32::try_from(texts.as_slice().len()).expect(rt, "a node with few choices");
        sizes.push(size).expect(rt, "memory");
    }
    sizes
}

// The text of a derivation that the check passes.
fn text_of(
    rt: &impl Abort,
    alloc: Global,
    derivation: &Derivation,
    choices: &[Items<Text>],
) -> Bytes
    requires { map length choices.now ≡ derivation.now.sizes }
{
    let (sizes, nodes) = (derivation.sizes.as_slice(), derivation.nodes.as_slice());
    assert!(rt; sizes.len() == nodes.len());
    let facts = derivation.facts(alloc).expect(rt, "memory");
    check(alloc, derivation, facts.as_slice()).expect(rt, "a checked derivation");
    explain(alloc, derivation, choices).expect(rt, "memory")
}

// Asserts the text of the derivation that the tables tell.
fn assert_told(rt: &impl Abort, alloc: Global, nodes: &str, table: &str, wanted: &str) {
    let choices = choices(rt, alloc, nodes);
    let sizes = sizes(rt, alloc, choices.as_slice());
    let lines = lines(rt, alloc, sizes.as_slice(), table);
    let nodes = names(rt, alloc, nodes);
    let derivation = Derivation {
        nodes,
        sizes,
        lines,
    };
    let told = text_of(rt, alloc, &derivation, choices.as_slice());
    assert_eq!(rt; str::from_utf8(told.as_slice()), Ok(wanted));
}

#[test]
fn one_package_is_needed_twice(rt: HostRuntime) {
    let nodes = "root none chosen\nmona.a none 1.0.0 2.0.0";
    let lines = r#"root|needs|mona.a 1.0.0|0:1 1:0,2
root|needs|mona.a 2.0.0|0:1 1:0,1
1 2 1"#;
    let wanted = r#"1. root needs mona.a exactly 1.0.0: [root chosen, mona.a none|2.0.0]
2. root needs mona.a exactly 2.0.0: [root chosen, mona.a none..1.0.0]
3. from 1 and 2 on mona.a: [root chosen]
So no selection exists.
"#;
    assert_told(&rt, rt.alloc(), nodes, lines, wanted);
}

#[test]
fn two_packages_share_a_third(rt: HostRuntime) {
    let nodes = r#"root none chosen
mona.l none 1.0.0
mona.r none 1.0.0
mona.s none 1.0.0 2.0.0 3.0.0
mona.t none 1.0.0 2.0.0"#;
    let lines = r#"mona.l 1.0.0|needs|mona.s 2.0.0~4.0.0|1:1 3:0,1
mona.r 1.0.0|needs|mona.s 1.0.0~3.0.0|2:1 3:0,3
mona.s 2.0.0|needs|mona.t 1.0.0|3:2 4:0,2
2 3 3
1 4 3
root|needs|mona.l 1.0.0~2.0.0|0:1 1:0
5 6 1
root|needs|mona.r 1.0.0~2.0.0|0:1 2:0
7 8 2
root|needs|mona.t 2.0.0|0:1 4:0,1
9 10 4"#;
    let wanted = r#"1. mona.l 1.0.0 needs mona.s 2.0.0..<4.0.0: [mona.l 1.0.0, mona.s none..1.0.0]
2. mona.r 1.0.0 needs mona.s 1.0.0..<3.0.0: [mona.r 1.0.0, mona.s none|3.0.0]
3. mona.s 2.0.0 needs mona.t exactly 1.0.0: [mona.s 2.0.0, mona.t none|2.0.0]
4. from 2 and 3 on mona.s: [mona.r 1.0.0, mona.s none|2.0.0..3.0.0, mona.t none|2.0.0]
5. from 1 and 4 on mona.s: [mona.l 1.0.0, mona.r 1.0.0, mona.t none|2.0.0]
6. root needs mona.l 1.0.0..<2.0.0: [root chosen, mona.l none]
7. from 5 and 6 on mona.l: [root chosen, mona.r 1.0.0, mona.t none|2.0.0]
8. root needs mona.r 1.0.0..<2.0.0: [root chosen, mona.r none]
9. from 7 and 8 on mona.r: [root chosen, mona.t none|2.0.0]
10. root needs mona.t exactly 2.0.0: [root chosen, mona.t none..1.0.0]
11. from 9 and 10 on mona.t: [root chosen]
So no selection exists.
"#;
    assert_told(&rt, rt.alloc(), nodes, lines, wanted);
}

#[test]
fn each_cause_has_a_sentence(rt: HostRuntime) {
    let lines = "mona.a 1.0.0-b+t+u|needs|mona.s 2.0.0~4.0.0|0:1
root+t|needs|mona.s 2.0.0-a.1|0:1
root+t+u+v|asks|mona.s u|0:1
root|words|t|0:1
mona.a 1.0.0+t|enables|u|0:1
mona.a 1.0.0+t|no trait||0:1
mona.a 1.0.0|no manifest||0:1
mona.a 1.0.0|unreadable|/dependencies/0|0:1
root|tools|5.9|0:1
root|branch|main http://a/b|0:1
mona.a 1.0.0+t|revision|0b0b \"|0:1
root|path|. ../\\a b|0:1
root|url|http://é/\"\\\u{1}\t\u{7f}\u{2028}|0:0
root|given||0:0
root|given||";
    let wanted = "1. mona.a 1.0.0-b with t and u needs mona.s 2.0.0..<4.0.0: [root chosen]
2. root with t needs mona.s exactly 2.0.0-a.1: [root chosen]
3. root with t and u and v asks mona.s#u: [root chosen]
4. the words ask root#t: [root chosen]
5. mona.a 1.0.0 with t enables u: [root chosen]
6. mona.a 1.0.0 with t has no such trait: [root chosen]
7. mona.a 1.0.0 has no manifest: [root chosen]
8. mona.a 1.0.0 has an unreadable manifest at /dependencies/0: wrong kind: [root chosen]
9. root needs tools 5.9.0: [root chosen]
10. root needs branch \"main\" of \"http://a/b\": [root chosen]
11. mona.a 1.0.0 with t needs revision \"0b0b\" of \"\\\"\": [root chosen]
12. root needs path \"../\\\\a b\": [root chosen]
13. root needs \"http://é/\\\"\\\\\\u0001\\t\u{7f}\u{2028}\", which the registry doesn't know: [root none]
14. given: [root none]
15. given: []
So no selection exists.
";
    assert_told(&rt, rt.alloc(), "root none chosen", lines, wanted);
}
