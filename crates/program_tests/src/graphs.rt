//! The scripts of whole graphs: what packages need of each other, and the traits that they ask (`stage::Stage`).
//!
//! Without a conflict a run takes a turn for the root's load, and three for each node that is required: it is derived, loaded and
//! decided. A node is a package that is pinned, or a trait that is on; `default` of the root is one. A need that narrows a package which another
//! has narrowed takes one turn more.
use crate::stage::play;

#[test]
fn graphs_are_resolved_or_refuted(rt: HostRuntime) {
    assert_eq!(rt; play(&rt, rt.alloc(), GRAPHS), Ok(0));
}

#[test]
fn traits_are_asked_and_enabled(rt: HostRuntime) {
    assert_eq!(rt; play(&rt, rt.alloc(), TRAITS), Ok(0));
}

#[test]
fn limits_are_met(rt: HostRuntime) {
    assert_eq!(rt; play(&rt, rt.alloc(), LIMITS), Ok(0));
}

// Graphs of packages, derivations, releases that can't be used, and dependencies by their URLs.
const GRAPHS: &str = r##"let tools "toolsVersion":{"_version":"5.9.0"}}
let from_one "requirement":{"range":[{"lowerBound":"1.0.0","upperBound":"2.0.0"}]}
let end \"toolsVersion\":{\"_version\":\"5.9.0\"}}","archive":""}
let needing {"manifest":"{\"name\":\"it\",\"dependencies\":[
let up_one \"requirement\":{\"range\":[{\"lowerBound\":\"1.0.0\",\"upperBound\":\"2.0.0\"}]}
let up_two \"requirement\":{\"range\":[{\"lowerBound\":\"2.0.0\",\"upperBound\":\"3.0.0\"}]}
let leaf {"manifest":"{\"name\":\"leaf\",\"toolsVersion\":{\"_version\":\"5.9.0\"}}","archive":""}
let go resolve --shelf s.json app
let resolved roots 1: resolved 1, refuted 0, refused 0, faulty 0, differing 0, cancelled 0, memory 0
let refuted roots 1: resolved 0, refuted 1, refused 0, faulty 0, differing 0, cancelled 0, memory 0
let abc_a {"1.0.0":$needing{\"registry\":[{\"identity\":\"mona.c\",$up_one,\"traits\":[]}]}],$end,"1.1.0":$needing{\"registry\":[{\"identity\":\"mona.c\",$up_two,\"traits\":[]}]}],$end}
let abc_b {"1.0.0":$needing{\"registry\":[{\"identity\":\"mona.c\",$up_one,\"traits\":[]}]}],$end}
let abc_shelf {"packages":{"mona.a":$abc_a,"mona.b":$abc_b,"mona.c":{"1.0.0":$leaf,"2.0.0":$leaf}}}
let abc_root {"name":"app","dependencies":[{"registry":[{"identity":"mona.a",$from_one,"traits":[]}]},{"registry":[{"identity":"mona.b",$from_one,"traits":[]}]}],$tools

# a 1.1.0 is decided in turn 8, and its need of c 2 meets that of b in turn 11; the second run begins with the pins and meets no conflict:
# 1 + 3 for the root's trait, a, b and c.
case two packages that need a third in different versions, and again over the pins
file s.json $abc_shelf
file app/Package.json $abc_root
run $go
status 0
out app: resolved 3 in 19 turns
out $resolved
= {
=   "originHash" : "566420f12a610236fb85eb5e9d1bbfa33f655c5c136538009df9dd256622df81",
=   "pins" : [
=     {
=       "identity" : "mona.a",
=       "kind" : "registry",
=       "location" : "",
=       "state" : {
=         "version" : "1.0.0"
=       }
=     },
=     {
=       "identity" : "mona.b",
=       "kind" : "registry",
=       "location" : "",
=       "state" : {
=         "version" : "1.0.0"
=       }
=     },
=     {
=       "identity" : "mona.c",
=       "kind" : "registry",
=       "location" : "",
=       "state" : {
=         "version" : "1.0.0"
=       }
=     }
=   ],
=   "version" : 3
= }
is app/Package.resolved
run $go
status 0
out app: resolved 3 in 13 turns
out $resolved
= {
=   "originHash" : "566420f12a610236fb85eb5e9d1bbfa33f655c5c136538009df9dd256622df81",
=   "pins" : [
=     {
=       "identity" : "mona.a",
=       "kind" : "registry",
=       "location" : "",
=       "state" : {
=         "version" : "1.0.0"
=       }
=     },
=     {
=       "identity" : "mona.b",
=       "kind" : "registry",
=       "location" : "",
=       "state" : {
=         "version" : "1.0.0"
=       }
=     },
=     {
=       "identity" : "mona.c",
=       "kind" : "registry",
=       "location" : "",
=       "state" : {
=         "version" : "1.0.0"
=       }
=     }
=   ],
=   "version" : 3
= }
is app/Package.resolved
faults 0

case pins that no selection has, and the same file
file s.json $abc_shelf
file app/Package.json $abc_root
file app/Package.resolved {"pins":[{"identity":"mona.a","kind":"registry","location":"","state":{"version":"1.1.0"}},{"identity":"mona.c","kind":"registry","location":"","state":{"version":"2.0.0"}}],"version":3}
run $go
status 0
out app: resolved 3 in 19 turns
out $resolved
= {
=   "originHash" : "566420f12a610236fb85eb5e9d1bbfa33f655c5c136538009df9dd256622df81",
=   "pins" : [
=     {
=       "identity" : "mona.a",
=       "kind" : "registry",
=       "location" : "",
=       "state" : {
=         "version" : "1.0.0"
=       }
=     },
=     {
=       "identity" : "mona.b",
=       "kind" : "registry",
=       "location" : "",
=       "state" : {
=         "version" : "1.0.0"
=       }
=     },
=     {
=       "identity" : "mona.c",
=       "kind" : "registry",
=       "location" : "",
=       "state" : {
=         "version" : "1.0.0"
=       }
=     }
=   ],
=   "version" : 3
= }
is app/Package.resolved

# No put is made: the desk would fail there.
case two exact needs of one package
desk 4
file s.json {"packages":{"mona.a":{"1.0.0":$leaf,"2.0.0":$leaf}}}
file app/Package.json {"name":"app","dependencies":[{"registry":[{"identity":"mona.a","requirement":{"exact":["1.0.0"]}}]},{"registry":[{"identity":"mona.a","requirement":{"exact":["2.0.0"]}}]}],$tools
run $go
status 1
out app: no selection in 3 turns
out 1. root needs mona.a exactly 1.0.0: [root chosen, mona.a none|2.0.0]
out 2. root needs mona.a exactly 2.0.0: [root chosen, mona.a none..1.0.0]
out 3. from 1 and 2 on mona.a: [root chosen]
out So no selection exists.
out $refuted
faults 0
absent app/Package.resolved

let lr_l {"1.0.0":$needing{\"registry\":[{\"identity\":\"mona.s\",\"requirement\":{\"range\":[{\"lowerBound\":\"2.0.0\",\"upperBound\":\"4.0.0\"}]},\"traits\":[]}]}],$end}
let lr_r {"1.0.0":$needing{\"registry\":[{\"identity\":\"mona.s\",\"requirement\":{\"range\":[{\"lowerBound\":\"1.0.0\",\"upperBound\":\"3.0.0\"}]},\"traits\":[]}]}],$end}
let lr_s {"1.0.0":$leaf,"2.0.0":$needing{\"registry\":[{\"identity\":\"mona.t\",\"requirement\":{\"exact\":[\"1.0.0\"]},\"traits\":[]}]}],$end,"3.0.0":$leaf}

case a derivation with parts of a set
desk 4
file s.json {"packages":{"mona.l":$lr_l,"mona.r":$lr_r,"mona.s":$lr_s,"mona.t":{"1.0.0":$leaf,"2.0.0":$leaf}}}
file app/Package.json {"name":"app","dependencies":[{"registry":[{"identity":"mona.l",$from_one,"traits":[]}]},{"registry":[{"identity":"mona.r",$from_one,"traits":[]}]},{"registry":[{"identity":"mona.t","requirement":{"exact":["2.0.0"]},"traits":[]}]}],$tools
run $go
status 1
out app: no selection in 18 turns
out 1. mona.l 1.0.0 needs mona.s 2.0.0..<4.0.0: [mona.l 1.0.0, mona.s none..1.0.0]
out 2. mona.r 1.0.0 needs mona.s 1.0.0..<3.0.0: [mona.r 1.0.0, mona.s none|3.0.0]
out 3. mona.s 2.0.0 needs mona.t exactly 1.0.0: [mona.s 2.0.0, mona.t none|2.0.0]
out 4. from 2 and 3 on mona.s: [mona.r 1.0.0, mona.s none|2.0.0..3.0.0, mona.t none|2.0.0]
out 5. from 1 and 4 on mona.s: [mona.l 1.0.0, mona.r 1.0.0, mona.t none|2.0.0]
out 6. root needs mona.l 1.0.0..<2.0.0: [root chosen, mona.l none]
out 7. from 5 and 6 on mona.l: [root chosen, mona.r 1.0.0, mona.t none|2.0.0]
out 8. root needs mona.r 1.0.0..<2.0.0: [root chosen, mona.r none]
out 9. from 7 and 8 on mona.r: [root chosen, mona.t none|2.0.0]
out 10. root needs mona.t exactly 2.0.0: [root chosen, mona.t none..1.0.0]
out 11. from 9 and 10 on mona.t: [root chosen]
out So no selection exists.
out $refuted
faults 0
absent app/Package.resolved

# 1 + 3 for the root's trait, a, b, d and the trait of each, and one turn more, since both needs of d narrow it.
case two needs of one package meet in the middle
file s.json {"packages":{"mona.a":{"1.0.0":$needing{\"registry\":[{\"identity\":\"mona.d\",\"requirement\":{\"range\":[{\"lowerBound\":\"1.0.0\",\"upperBound\":\"1.2.0\"}]}}]}],$end},"mona.b":{"1.0.0":$needing{\"registry\":[{\"identity\":\"mona.d\",\"requirement\":{\"range\":[{\"lowerBound\":\"1.1.0\",\"upperBound\":\"2.0.0\"}]}}]}],$end},"mona.d":{"1.0.0":$leaf,"1.1.0":$leaf,"1.2.0":$leaf}}}
file app/Package.json {"name":"app","dependencies":[{"registry":[{"identity":"mona.a",$from_one}]},{"registry":[{"identity":"mona.b",$from_one}]}],$tools
run $go
status 0
out app: resolved 3 in 23 turns
out $resolved
has app/Package.resolved "identity" : "mona.a"
has app/Package.resolved "identity" : "mona.b"
has app/Package.resolved "identity" : "mona.d"
has app/Package.resolved "version" : "1.1.0"

# The newest fact is met first: the exact need narrows a to one version, and the range has nothing left to narrow.
case two needs of one package in one manifest, the narrower last
file s.json {"packages":{"mona.a":{"1.0.0":$leaf,"1.1.0":$leaf}}}
file app/Package.json {"name":"app","dependencies":[{"registry":[{"identity":"mona.a",$from_one,"traits":[]}]},{"registry":[{"identity":"mona.a","requirement":{"exact":["1.0.0"]},"traits":[]}]}],$tools
run $go
status 0
out app: resolved 1 in 7 turns
out $resolved
has app/Package.resolved "version" : "1.0.0"

case two needs of one package in one manifest, the narrower first
file s.json {"packages":{"mona.a":{"1.0.0":$leaf,"1.1.0":$leaf}}}
file app/Package.json {"name":"app","dependencies":[{"registry":[{"identity":"mona.a","requirement":{"exact":["1.0.0"]},"traits":[]}]},{"registry":[{"identity":"mona.a",$from_one,"traits":[]}]}],$tools
run $go
status 0
out app: resolved 1 in 8 turns
out $resolved
has app/Package.resolved "version" : "1.0.0"

# a is derived in turn 7 behind the decision of the root's trait, which turn 8 takes back, and again in turn 9.
case two exact needs in the manifest of a release
file s.json {"packages":{"mona.a":{"1.0.0":$leaf,"2.0.0":$leaf},"mona.p":{"1.0.0":$needing{\"registry\":[{\"identity\":\"mona.a\",\"requirement\":{\"exact\":[\"1.0.0\"]},\"traits\":[]}]},{\"registry\":[{\"identity\":\"mona.a\",\"requirement\":{\"exact\":[\"2.0.0\"]},\"traits\":[]}]}],$end}}}
file app/Package.json {"name":"app","dependencies":[{"registry":[{"identity":"mona.p",$from_one,"traits":[]}]}],$tools
run $go
status 1
out app: no selection in 9 turns
out 1. mona.p 1.0.0 needs mona.a exactly 1.0.0: [mona.a none|2.0.0, mona.p 1.0.0]
out 2. mona.p 1.0.0 needs mona.a exactly 2.0.0: [mona.a none..1.0.0, mona.p 1.0.0]
out 3. from 1 and 2 on mona.a: [mona.p 1.0.0]
out 4. root needs mona.p 1.0.0..<2.0.0: [root chosen, mona.p none]
out 5. from 3 and 4 on mona.p: [root chosen]
out So no selection exists.
out $refuted

case the same need twice
file s.json {"packages":{"mona.a":{"1.0.0":$leaf,"1.1.0":$leaf}}}
file app/Package.json {"name":"app","dependencies":[{"registry":[{"identity":"mona.a",$from_one}]},{"registry":[{"identity":"MONA.A",$from_one}]}],$tools
run $go
status 0
out app: resolved 1 in 10 turns
out $resolved
has app/Package.resolved "version" : "1.1.0"

case a package that needs itself
file s.json {"packages":{"mona.a":{"1.0.0":$needing{\"registry\":[{\"identity\":\"mona.a\",$up_one}]}],$end}}}
file app/Package.json {"name":"app","dependencies":[{"registry":[{"identity":"mona.a",$from_one}]}],$tools
run $go
status 0
out app: resolved 1 in 10 turns
out $resolved
has app/Package.resolved "identity" : "mona.a"

# The sixth turn decides the root's trait, and the seventh loads a 1.0.0, the one version that is left.
case a package that needs itself in another version
file s.json {"packages":{"mona.a":{"1.0.0":$needing{\"registry\":[{\"identity\":\"mona.a\",\"requirement\":{\"exact\":[\"2.0.0\"]}}]}],$end,"2.0.0":$leaf}}}
file app/Package.json {"name":"app","dependencies":[{"registry":[{"identity":"mona.a",$from_one}]}],$tools
run $go
status 1
out app: no selection in 7 turns
out 1. mona.a 1.0.0 needs mona.a exactly 2.0.0: [mona.a 1.0.0]
out 2. root needs mona.a 1.0.0..<2.0.0: [root chosen, mona.a none|2.0.0]
out 3. from 1 and 2 on mona.a: [root chosen]
out So no selection exists.
out $refuted

# 1 + 3 for the root's trait, a, b and the trait of each: b's need of a narrows nothing.
case a cycle of two packages
file s.json {"packages":{"mona.a":{"1.0.0":$needing{\"registry\":[{\"identity\":\"mona.b\",$up_one}]}],$end},"mona.b":{"1.0.0":$needing{\"registry\":[{\"identity\":\"mona.a\",$up_one}]}],$end}}}
file app/Package.json {"name":"app","dependencies":[{"registry":[{"identity":"mona.a",$from_one}]}],$tools
run $go
status 0
out app: resolved 2 in 16 turns
out $resolved
has app/Package.resolved "identity" : "mona.a"
has app/Package.resolved "identity" : "mona.b"

# b 1.0.0 is loaded in turn 9; turn 10 goes back to the first level, where turn 11 leaves b none.
case a cycle that doesn't close
file s.json {"packages":{"mona.a":{"1.0.0":$needing{\"registry\":[{\"identity\":\"mona.b\",$up_one,\"traits\":[]}]}],$end,"2.0.0":$leaf},"mona.b":{"1.0.0":$needing{\"registry\":[{\"identity\":\"mona.a\",\"requirement\":{\"exact\":[\"2.0.0\"]},\"traits\":[]}]}],$end}}}
file app/Package.json {"name":"app","dependencies":[{"registry":[{"identity":"mona.a",$from_one,"traits":[]}]}],$tools
run $go
status 1
out app: no selection in 11 turns
out 1. mona.a 1.0.0 needs mona.b 1.0.0..<2.0.0: [mona.a 1.0.0, mona.b none]
out 2. mona.b 1.0.0 needs mona.a exactly 2.0.0: [mona.a none..1.0.0, mona.b 1.0.0]
out 3. from 1 and 2 on mona.b: [mona.a 1.0.0]
out 4. root needs mona.a 1.0.0..<2.0.0: [root chosen, mona.a none|2.0.0]
out 5. from 3 and 4 on mona.a: [root chosen]
out So no selection exists.
out $refuted

case a range of a release whose bounds are crossed
file s.json {"packages":{"mona.p":{"1.0.0":$needing{\"registry\":[{\"identity\":\"mona.q\",\"requirement\":{\"range\":[{\"lowerBound\":\"2.0.0\",\"upperBound\":\"1.0.0\"}]},\"traits\":[]}]}],$end},"mona.q":{"1.0.0":$leaf,"1.5.0":$leaf,"2.0.0":$leaf}}}
file app/Package.json {"name":"app","dependencies":[{"registry":[{"identity":"mona.p",$from_one,"traits":[]}]}],$tools
run $go
status 1
out app: no selection in 6 turns
out 1. mona.p 1.0.0 needs mona.q 2.0.0..<1.0.0: [mona.p 1.0.0]
out 2. root needs mona.p 1.0.0..<2.0.0: [root chosen, mona.p none]
out 3. from 1 and 2 on mona.p: [root chosen]
out So no selection exists.
out $refuted

# Build metadata: each text is a version of its own, above the one without, and precedence doesn't tell them apart.

let built {"packages":{"mona.a":{"1.0.0+x":$leaf,"1.0.0":$leaf}}}

case an exact need without build metadata
file s.json $built
file app/Package.json {"name":"app","dependencies":[{"registry":[{"identity":"mona.a","requirement":{"exact":["1.0.0"]}}]}],$tools
run $go
status 0
out app: resolved 1 in 10 turns
out $resolved
has app/Package.resolved "version" : "1.0.0"

case an exact need with build metadata
file s.json $built
file app/Package.json {"name":"app","dependencies":[{"registry":[{"identity":"mona.a","requirement":{"exact":["1.0.0+x"]}}]}],$tools
run $go
status 0
out app: resolved 1 in 10 turns
out $resolved
has app/Package.resolved "version" : "1.0.0+x"

case exact needs that differ in build metadata
file s.json $built
file app/Package.json {"name":"app","dependencies":[{"registry":[{"identity":"mona.a","requirement":{"exact":["1.0.0"]}}]},{"registry":[{"identity":"mona.a","requirement":{"exact":["1.0.0+x"]}}]}],$tools
run $go
status 1
out app: no selection in 3 turns
out 1. root needs mona.a exactly 1.0.0: [root chosen, mona.a none|1.0.0+x]
out 2. root needs mona.a exactly 1.0.0+x: [root chosen, mona.a none..1.0.0]
out 3. from 1 and 2 on mona.a: [root chosen]
out So no selection exists.
out $refuted

case a range up to build metadata
file s.json $built
file app/Package.json {"name":"app","dependencies":[{"registry":[{"identity":"mona.a","requirement":{"range":[{"lowerBound":"1.0.0","upperBound":"1.0.0+x"}]}}]}],$tools
run $go
status 1
out app: no selection in 1 turns
out 1. root needs mona.a 1.0.0..<1.0.0+x: [root chosen]
out So no selection exists.
out $refuted

# Releases that are no choices.

let withdrawn {"packages":{"mona.p":{"1.0.0":$leaf,"1.2.0":{"problem":"withdrawn"}},"mona.q":{"1.0.0":{"problem":"","manifest":"{}","archive":""}},"mona.z":{"1.0.0":$leaf,"1.1.0-a.zip":$leaf}}}

case the newest has a problem
file s.json $withdrawn
file app/Package.json {"name":"app","dependencies":[{"registry":[{"identity":"mona.p",$from_one}]}],$tools
run $go
status 0
out app: resolved 1 in 10 turns
out $resolved
has app/Package.resolved "version" : "1.0.0"

case the one that is needed has a problem
file s.json $withdrawn
file app/Package.json {"name":"app","dependencies":[{"registry":[{"identity":"mona.p","requirement":{"exact":["1.2.0"]}}]}],$tools
run $go
status 1
out app: no selection in 1 turns
out 1. root needs mona.p exactly 1.2.0: [root chosen]
out So no selection exists.
out $refuted

case all have a problem
file s.json $withdrawn
file app/Package.json {"name":"app","dependencies":[{"registry":[{"identity":"mona.q",$from_one}]}],$tools
run $go
status 1
out app: no selection in 1 turns
out 1. root needs mona.q 1.0.0..<2.0.0: [root chosen]
out So no selection exists.
out $refuted

case a version whose text ends as that of an archive
file s.json $withdrawn
file app/Package.json {"name":"app","dependencies":[{"registry":[{"identity":"mona.z","requirement":{"range":[{"lowerBound":"1.0.0-a","upperBound":"2.0.0"}]}}]}],$tools
run $go
status 0
out app: resolved 1 in 10 turns
out $resolved
has app/Package.resolved "version" : "1.0.0"

# Releases that can't be used. Where there is one more, a turn loads the newer and a turn leaves it out.

let unread {"manifest":"{","archive":""}
let too_new {"manifest":"{\"name\":\"new\",\"toolsVersion\":{\"_version\":\"6.1.1\"}}","archive":""}
let astray $needing{\"sourceControl\":[{\"identity\":\"none\",\"location\":{\"remote\":[\"https://example.com/none\"]},$up_one}]}],$end
let branched $needing{\"sourceControl\":[{\"identity\":\"none\",\"location\":{\"remote\":[{\"urlString\":\"https://example.com/none\"}]},\"requirement\":{\"branch\":[\"main\"]}}]}],$end

case an unreadable manifest
file s.json {"packages":{"mona.p":{"1.0.0":$unread}}}
file app/Package.json {"name":"app","dependencies":[{"registry":[{"identity":"mona.p",$from_one}]}],$tools
run $go
status 1
out app: no selection in 7 turns
out 1. mona.p 1.0.0 has an unreadable manifest at /: not JSON: [mona.p 1.0.0]
out 2. root needs mona.p 1.0.0..<2.0.0: [root chosen, mona.p none]
out 3. from 1 and 2 on mona.p: [root chosen]
out So no selection exists.
out $refuted

case a manifest with a trait twice
file s.json {"packages":{"mona.p":{"1.0.0":{"manifest":"{\"name\":\"p\",\"traits\":[{\"name\":\"X\"},{\"name\":\"X\"}],$end}}}
file app/Package.json {"name":"app","dependencies":[{"registry":[{"identity":"mona.p",$from_one,"traits":[]}]}],$tools
run $go
status 1
out app: no selection in 6 turns
out 1. mona.p 1.0.0 has an unreadable manifest at /traits/1/name: doubled: [mona.p 1.0.0]
out 2. root needs mona.p 1.0.0..<2.0.0: [root chosen, mona.p none]
out 3. from 1 and 2 on mona.p: [root chosen]
out So no selection exists.
out $refuted

case a manifest that needs newer tools
file s.json {"packages":{"mona.p":{"1.0.0":$too_new}}}
file app/Package.json {"name":"app","dependencies":[{"registry":[{"identity":"mona.p",$from_one}]}],$tools
run $go
status 1
out app: no selection in 7 turns
out 1. mona.p 1.0.0 needs tools 6.1.1: [mona.p 1.0.0]
out 2. root needs mona.p 1.0.0..<2.0.0: [root chosen, mona.p none]
out 3. from 1 and 2 on mona.p: [root chosen]
out So no selection exists.
out $refuted
run resolve --shelf s.json --tools-version 6.1.1 app
status 0
out app: resolved 1 in 10 turns
out $resolved

case a manifest with a URL that the registry doesn't know
file s.json {"packages":{"mona.p":{"1.0.0":$astray}}}
file app/Package.json {"name":"app","dependencies":[{"registry":[{"identity":"mona.p",$from_one}]}],$tools
run $go
status 1
out app: no selection in 7 turns
out 1. mona.p 1.0.0 needs "https://example.com/none", which the registry doesn't know: [mona.p 1.0.0]
out 2. root needs mona.p 1.0.0..<2.0.0: [root chosen, mona.p none]
out 3. from 1 and 2 on mona.p: [root chosen]
out So no selection exists.
out $refuted

case an older release takes the place of one that can't be used
file s.json {"packages":{"mona.p":{"1.0.0":$leaf,"1.1.0":$unread},"mona.q":{"1.0.0":$leaf,"1.1.0":$too_new},"mona.r":{"1.0.0":$leaf,"1.1.0":$astray},"mona.s":{"1.0.0":$leaf,"1.1.0":$branched},"mona.t":{"1.0.0":$leaf,"1.1.0":$needing{\"registry\":[{\"identity\":\"mona.none\",$up_one}]}],$end}}}
file app/Package.json {"name":"app","dependencies":[{"registry":[{"identity":"mona.p",$from_one}]}],$tools
run $go
status 0
out app: resolved 1 in 12 turns
out $resolved
has app/Package.resolved "version" : "1.0.0"
file app/Package.json {"name":"app","dependencies":[{"registry":[{"identity":"mona.q",$from_one}]}],$tools
run $go
status 0
out app: resolved 1 in 12 turns
out $resolved
has app/Package.resolved "version" : "1.0.0"
file app/Package.json {"name":"app","dependencies":[{"registry":[{"identity":"mona.r",$from_one}]}],$tools
run $go
status 0
out app: resolved 1 in 12 turns
out $resolved
has app/Package.resolved "version" : "1.0.0"
file app/Package.json {"name":"app","dependencies":[{"registry":[{"identity":"mona.s",$from_one}]}],$tools
run $go
status 0
out app: resolved 1 in 12 turns
out $resolved
has app/Package.resolved "version" : "1.0.0"
file app/Package.json {"name":"app","dependencies":[{"registry":[{"identity":"mona.t",$from_one}]}],$tools
run $go
status 0
out app: resolved 1 in 12 turns
out $resolved
has app/Package.resolved "version" : "1.0.0"

# Turns 7 to 12 load and leave out 1.4.0, 1.2.0 and 1.1.0, and 13 loads 1.0.0. Turn 14 learns that none of the first three can be, at the first
# level, and turn 15 leaves 1.4.0 alone.
case no release can be used
file s.json {"packages":{"mona.p":{"1.0.0":$unread,"1.1.0":$too_new,"1.2.0":$astray,"1.3.0":{"problem":"withdrawn"},"1.4.0":$branched}}}
file app/Package.json {"name":"app","dependencies":[{"registry":[{"identity":"mona.p",$from_one}]}],$tools
run $go
status 1
out app: no selection in 15 turns
out 1. mona.p 1.4.0 needs branch "main" of "https://example.com/none": [mona.p 1.4.0]
out 2. mona.p 1.0.0 has an unreadable manifest at /: not JSON: [mona.p 1.0.0]
out 3. mona.p 1.1.0 needs tools 6.1.1: [mona.p 1.1.0]
out 4. from 2 and 3 on mona.p: [mona.p 1.0.0..1.1.0]
out 5. mona.p 1.2.0 needs "https://example.com/none", which the registry doesn't know: [mona.p 1.2.0]
out 6. from 4 and 5 on mona.p: [mona.p 1.0.0..1.2.0]
out 7. from 1 and 6 on mona.p: [mona.p 1.0.0..1.4.0]
out 8. root needs mona.p 1.0.0..<2.0.0: [root chosen, mona.p none]
out 9. from 7 and 8 on mona.p: [root chosen]
out So no selection exists.
out $refuted

case a newest release whose need nothing meets, beside another package
file s.json {"packages":{"mona.l":{"1.0.0":$leaf,"1.1.0":$leaf},"mona.p":{"1.0.0":$leaf,"1.1.0":$needing{\"registry\":[{\"identity\":\"mona.none\",$up_one}]}],$end}}}
file app/Package.json {"name":"app","dependencies":[{"registry":[{"identity":"mona.l",$from_one}]},{"registry":[{"identity":"mona.p",$from_one}]}],$tools
run $go
status 0
out app: resolved 2 in 18 turns
out $resolved
has app/Package.resolved "version" : "1.1.0"
has app/Package.resolved "version" : "1.0.0"

# Dependencies by their URLs: the least of the identities that the shelf has for it is the package.

let known {"packages":{"mona.LinkedList":{"1.0.0":$leaf,"1.1.0":$leaf,"2.0.0":$leaf},"mona.p":{"1.0.0":$needing{\"sourceControl\":[{\"identity\":\"linkedlist\",\"location\":{\"remote\":[\"https://example.com/mona/LinkedList\"]},$up_one,\"traits\":[]}]}],$end}},"urls":{"https://example.com/mona/LinkedList":["zed.list","mona.LinkedList"],"https://example.com/empty":[]}}

case a URL in an object
file s.json $known
file app/Package.json {"name":"app","dependencies":[{"sourceControl":[{"identity":"linkedlist","location":{"remote":[{"urlString":"https://example.com/mona/LinkedList"}]},$from_one}]}],$tools
run $go
status 0
out app: resolved 1 in 10 turns
out $resolved
= {
=   "originHash" : "9392a5219387e0e2493c8d2fc5e5def24a483407df49f0ce85dcc65ef3b30ab6",
=   "pins" : [
=     {
=       "identity" : "mona.linkedlist",
=       "kind" : "registry",
=       "location" : "",
=       "state" : {
=         "version" : "1.1.0"
=       }
=     }
=   ],
=   "version" : 3
= }
is app/Package.resolved

case a URL as a plain text
file s.json $known
file app/Package.json {"name":"app","dependencies":[{"sourceControl":[{"identity":"linkedlist","location":{"remote":["https://example.com/mona/LinkedList"]},$from_one}]}],$tools
run $go
status 0
out app: resolved 1 in 10 turns
out $resolved
= {
=   "originHash" : "a2c0ce512e5a53d810fcde18e97337274a79b41b3ba720c00abf625e39526803",
=   "pins" : [
=     {
=       "identity" : "mona.linkedlist",
=       "kind" : "registry",
=       "location" : "",
=       "state" : {
=         "version" : "1.1.0"
=       }
=     }
=   ],
=   "version" : 3
= }
is app/Package.resolved

case a URL at one version, and a pin
file s.json $known
file app/Package.json {"name":"app","dependencies":[{"sourceControl":[{"identity":"linkedlist","location":{"remote":["https://example.com/mona/LinkedList"]},"requirement":{"exact":["2.0.0"]}}]}],$tools
run $go
status 0
out app: resolved 1 in 10 turns
out $resolved
has app/Package.resolved "version" : "2.0.0"
file app/Package.json {"name":"app","dependencies":[{"sourceControl":[{"identity":"linkedlist","location":{"remote":["https://example.com/mona/LinkedList"]},"requirement":{"range":[{"lowerBound":"1.0.0","upperBound":"3.0.0"}]}}]}],$tools
file app/Package.resolved {"pins":[{"identity":"mona.linkedlist","kind":"registry","location":"","state":{"version":"1.1.0"}}],"version":3}
run $go
status 0
out app: resolved 1 in 10 turns
out $resolved
has app/Package.resolved "version" : "1.1.0"

case a URL and its package
file s.json $known
file app/Package.json {"name":"app","dependencies":[{"sourceControl":[{"identity":"linkedlist","location":{"remote":["https://example.com/mona/LinkedList"]},$from_one}]},{"registry":[{"identity":"mona.LinkedList",$from_one}]}],$tools
run $go
status 0
out app: resolved 1 in 10 turns
out $resolved
has app/Package.resolved "identity" : "mona.linkedlist"

case a release that needs a URL
file s.json $known
file app/Package.json {"name":"app","dependencies":[{"registry":[{"identity":"mona.p",$from_one,"traits":[]}]}],$tools
run $go
status 0
out app: resolved 2 in 10 turns
out $resolved
has app/Package.resolved "identity" : "mona.linkedlist"
has app/Package.resolved "identity" : "mona.p"

case a branch
file s.json $known
file app/Package.json {"name":"app","dependencies":[{"sourceControl":[{"identity":"linkedlist","location":{"remote":[{"urlString":"https://example.com/mona/LinkedList"}]},"requirement":{"branch":["main"]}}]}],$tools
run $go
status 1
out app: no selection in 1 turns
out 1. root needs branch "main" of "https://example.com/mona/LinkedList": [root chosen]
out So no selection exists.
out $refuted
absent app/Package.resolved

case a revision, whose text is quoted
file s.json $known
file app/Package.json {"name":"app","dependencies":[{"sourceControl":[{"identity":"linkedlist","location":{"remote":["https://example.com/mona/LinkedList"]},"requirement":{"revision":["a\"b\n"]}}]}],$tools
run $go
status 1
out app: no selection in 1 turns
out 1. root needs revision "a\"b\n" of "https://example.com/mona/LinkedList": [root chosen]
out So no selection exists.
out $refuted

case a URL that the shelf doesn't have
file s.json $known
file app/Package.json {"name":"app","dependencies":[{"sourceControl":[{"identity":"linkedlist","location":{"remote":["https://example.com/mona/LinkedList.git"]},$from_one}]}],$tools
run $go
status 1
out app: no selection in 1 turns
out 1. root needs "https://example.com/mona/LinkedList.git", which the registry doesn't know: [root chosen]
out So no selection exists.
out $refuted

case a URL without identities
file s.json $known
file app/Package.json {"name":"app","dependencies":[{"sourceControl":[{"identity":"empty","location":{"remote":["https://example.com/empty"]},"requirement":{"exact":["1.0.0"]}}]}],$tools
run $go
status 1
out app: no selection in 1 turns
out 1. root needs "https://example.com/empty", which the registry doesn't know: [root chosen]
out So no selection exists.
out $refuted

case a repository in a folder
file s.json $known
file app/Package.json {"name":"app","dependencies":[{"sourceControl":[{"identity":"linkedlist","location":{"local":["/linkedlist"]}}]}],$tools
run $go
status 1
out app: no selection in 1 turns
out 1. root needs path "/linkedlist": [root chosen]
out So no selection exists.
out $refuted

case a folder
file s.json $known
file app/Package.json {"name":"app","dependencies":[{"fileSystem":[{"identity":"linkedlist","path":"/linkedlist"}]}],$tools
run $go
status 1
out app: no selection in 1 turns
out 1. root needs path "/linkedlist": [root chosen]
out So no selection exists.
out $refuted
"##;

// Traits that are asked, enabled and guarded by, of packages and of the root.
const TRAITS: &str = r##"let tools "toolsVersion":{"_version":"5.9.0"}}
let from_one "requirement":{"range":[{"lowerBound":"1.0.0","upperBound":"2.0.0"}]}
let end \"toolsVersion\":{\"_version\":\"5.9.0\"}}","archive":""}
let needing {"manifest":"{\"name\":\"it\",\"dependencies\":[
let up_one \"requirement\":{\"range\":[{\"lowerBound\":\"1.0.0\",\"upperBound\":\"2.0.0\"}]}
let leaf {"manifest":"{\"name\":\"leaf\",\"toolsVersion\":{\"_version\":\"5.9.0\"}}","archive":""}
let go resolve --shelf s.json app
let with resolve --shelf s.json
let resolved roots 1: resolved 1, refuted 0, refused 0, faulty 0, differing 0, cancelled 0, memory 0
let refuted roots 1: resolved 0, refuted 1, refused 0, faulty 0, differing 0, cancelled 0, memory 0
let its_needs \"dependencies\":[{\"registry\":[{\"identity\":\"mona.d\",$up_one}]},{\"registry\":[{\"identity\":\"mona.x\",$up_one}]}]
let its_uses \"targets\":[{\"name\":\"C\",\"dependencies\":[{\"product\":[\"D\",\"mona.d\",null,{\"traits\":[\"D\"]}]},{\"product\":[\"X\",\"mona.x\",null,{\"traits\":[\"X\"]}]}]}]
let guarded {"1.0.0":{"manifest":"{\"name\":\"c\",\"traits\":[{\"name\":\"default\",\"enabledTraits\":[\"D\"]},{\"name\":\"D\"},{\"name\":\"X\"}],$its_needs,$its_uses,$end}
let asks_x {"1.0.0":$needing{\"registry\":[{\"identity\":\"mona.c\",$up_one,\"traits\":[{\"name\":\"X\"}]}]}],\"targets\":[{\"name\":\"B\",\"dependencies\":[{\"product\":[\"C\",\"mona.c\",null,null]}]}],$end}
let asks_default {"1.0.0":$needing{\"registry\":[{\"identity\":\"mona.c\",$up_one}]}],\"targets\":[{\"name\":\"A\",\"dependencies\":[{\"byName\":[\"mona.c\",null]}]}],$end}
let leaves "mona.d":{"1.0.0":$leaf},"mona.x":{"1.0.0":$leaf}
let shelf {"packages":{"mona.a":$asks_default,"mona.b":$asks_x,"mona.c":$guarded,$leaves,"mona.z":$asks_x}}
let two_roots {"name":"app","dependencies":[{"registry":[{"identity":"mona.a",$from_one}]},{"registry":[{"identity":"mona.b",$from_one}]}],"targets":[{"name":"App","dependencies":[{"product":["A","mona.a",null,null]},{"product":["B","mona.b",null,null]}]}],$tools

# The nodes: the five packages, `default` of the root, a, b, c, d and x, and D and X of c: 1 + 3 * 13.
case a package that two others need, one of them with a trait, and again over the pins
file s.json $shelf
file app/Package.json $two_roots
run $go
status 0
out app: resolved 5 in 40 turns
out $resolved
run $go
status 0
out app: resolved 5 in 40 turns
out $resolved
= {
=   "originHash" : "b12eab0e22d7f58be3b1e1fd97e269402aa7f2687d8743d79f92259a326a5cee",
=   "pins" : [
=     {
=       "identity" : "mona.a",
=       "kind" : "registry",
=       "location" : "",
=       "state" : {
=         "version" : "1.0.0"
=       }
=     },
=     {
=       "identity" : "mona.b",
=       "kind" : "registry",
=       "location" : "",
=       "state" : {
=         "version" : "1.0.0"
=       }
=     },
=     {
=       "identity" : "mona.c",
=       "kind" : "registry",
=       "location" : "",
=       "state" : {
=         "version" : "1.0.0"
=       }
=     },
=     {
=       "identity" : "mona.d",
=       "kind" : "registry",
=       "location" : "",
=       "state" : {
=         "version" : "1.0.0"
=       }
=     },
=     {
=       "identity" : "mona.x",
=       "kind" : "registry",
=       "location" : "",
=       "state" : {
=         "version" : "1.0.0"
=       }
=     }
=   ],
=   "version" : 3
= }
is app/Package.resolved

# The root's trait isn't asked, and its three turns fall away.
case the root without its traits by default
file s.json $shelf
file app/Package.json $two_roots
run $with --disable-default-traits app
status 0
out app: resolved 5 in 37 turns
out $resolved
= {
=   "originHash" : "b12eab0e22d7f58be3b1e1fd97e269402aa7f2687d8743d79f92259a326a5cee",
=   "pins" : [
=     {
=       "identity" : "mona.a",
=       "kind" : "registry",
=       "location" : "",
=       "state" : {
=         "version" : "1.0.0"
=       }
=     },
=     {
=       "identity" : "mona.b",
=       "kind" : "registry",
=       "location" : "",
=       "state" : {
=         "version" : "1.0.0"
=       }
=     },
=     {
=       "identity" : "mona.c",
=       "kind" : "registry",
=       "location" : "",
=       "state" : {
=         "version" : "1.0.0"
=       }
=     },
=     {
=       "identity" : "mona.d",
=       "kind" : "registry",
=       "location" : "",
=       "state" : {
=         "version" : "1.0.0"
=       }
=     },
=     {
=       "identity" : "mona.x",
=       "kind" : "registry",
=       "location" : "",
=       "state" : {
=         "version" : "1.0.0"
=       }
=     }
=   ],
=   "version" : 3
= }
is app/Package.resolved

# Neither X of c, nor x and its trait: 40 - 9.
case nobody asks the trait
file s.json {"packages":{"mona.a":$asks_default,"mona.b":{"1.0.0":$leaf},"mona.c":$guarded,$leaves}}
file app/Package.json $two_roots
run $go
status 0
out app: resolved 4 in 31 turns
out $resolved
has app/Package.resolved "identity" : "mona.a"
has app/Package.resolved "identity" : "mona.b"
has app/Package.resolved "identity" : "mona.c"
has app/Package.resolved "identity" : "mona.d"

# The root's trait, c, z and its trait, X of c, x and its trait: 1 + 3 * 7.
case the root asks no trait of a package, and another asks one
file s.json $shelf
file app/Package.json {"name":"app","dependencies":[{"registry":[{"identity":"mona.c",$from_one,"traits":[]}]},{"registry":[{"identity":"mona.z",$from_one}]}],$tools
run $go
status 0
out app: resolved 3 in 22 turns
out $resolved
has app/Package.resolved "identity" : "mona.c"
has app/Package.resolved "identity" : "mona.x"
has app/Package.resolved "identity" : "mona.z"

case the root asks no trait of a package, nor does another
file s.json $shelf
file app/Package.json {"name":"app","dependencies":[{"registry":[{"identity":"mona.c",$from_one,"traits":[]}]}],$tools
run $go
status 0
out app: resolved 1 in 7 turns
out $resolved
has app/Package.resolved "identity" : "mona.c"
run $with --enable-all-traits app
status 0
out app: resolved 1 in 7 turns
out $resolved
has app/Package.resolved "identity" : "mona.c"

# The root's trait, c, its `default`, D and X, and d and x, each with its trait: 1 + 3 * 9.
case the root asks the traits by default and another
file s.json $shelf
file app/Package.json {"name":"app","dependencies":[{"registry":[{"identity":"mona.c",$from_one,"traits":[{"name":"default"},{"name":"X"}]}]}],$tools
run $go
status 0
out app: resolved 3 in 28 turns
out $resolved
has app/Package.resolved "identity" : "mona.c"
has app/Package.resolved "identity" : "mona.d"
has app/Package.resolved "identity" : "mona.x"

# c 1.1.0 is decided in turn 8, and X is loaded at it in turn 9. Turn 10 goes back to the first level, 11 leaves c 1.0.0 alone, 12 decides the
# root's trait again; c and X are loaded and decided in four turns more.
case the newest release doesn't declare the trait that is asked
file s.json {"packages":{"mona.c":{"1.1.0":$leaf,"1.0.0":{"manifest":"{\"name\":\"c\",\"traits\":[{\"name\":\"X\"}],$end}}}
file app/Package.json {"name":"app","dependencies":[{"registry":[{"identity":"mona.c",$from_one,"traits":[{"name":"X"}]}]}],$tools
run $go
status 0
out app: resolved 1 in 16 turns
out $resolved
has app/Package.resolved "identity" : "mona.c"
has app/Package.resolved "version" : "1.0.0"

# Nine turns: the root's load, three derivations, two for the root's trait, two for c, and X's load.
case no release declares the trait that is asked
file s.json {"packages":{"mona.c":{"1.0.0":$leaf}}}
file app/Package.json {"name":"app","dependencies":[{"registry":[{"identity":"mona.c",$from_one,"traits":[{"name":"X"}]}]}],$tools
run $go
status 1
out app: no selection in 9 turns
out 1. mona.c 1.0.0 with X has no such trait: [mona.c 1.0.0, mona.c#X on]
out 2. root needs mona.c 1.0.0..<2.0.0: [root chosen, mona.c none]
out 3. from 1 and 2 on mona.c: [root chosen, mona.c#X on]
out 4. root asks mona.c#X: [root chosen, mona.c#X off]
out 5. from 3 and 4 on mona.c#X: [root chosen]
out So no selection exists.
out $refuted
absent app/Package.resolved

case what a trait guards isn't on the shelf
file s.json {"packages":{"mona.c":$guarded}}
file app/Package.json {"name":"app","dependencies":[{"registry":[{"identity":"mona.c",$from_one,"traits":[{"name":"X"}]}]}],$tools
run $go
status 1
out app: no selection in 9 turns
out 1. mona.c 1.0.0 with X needs mona.x 1.0.0..<2.0.0: [mona.c 1.0.0, mona.c#X on]
out 2. root needs mona.c 1.0.0..<2.0.0: [root chosen, mona.c none]
out 3. from 1 and 2 on mona.c: [root chosen, mona.c#X on]
out 4. root asks mona.c#X: [root chosen, mona.c#X off]
out 5. from 3 and 4 on mona.c#X: [root chosen]
out So no selection exists.
out $refuted

# ---- the root's own traits

let ab_root {"name":"app","traits":[{"name":"A"},{"name":"B"}],"dependencies":[{"registry":[{"identity":"mona.d",$from_one}]}],"targets":[{"name":"App","dependencies":[{"product":["D","mona.d",null,{"traits":["A"]}]}]}],$tools

case a root with two traits, one of which guards a dependency
file s.json $shelf
file app/Package.json $ab_root
run $go
status 0
out app: resolved 0 in 4 turns
out $resolved
run $with --enable-all-traits app
status 0
out app: resolved 1 in 16 turns
out $resolved
has app/Package.resolved "identity" : "mona.d"
run $with --traits A app
status 0
out app: resolved 1 in 10 turns
out $resolved
run $with --traits B app
status 0
out app: resolved 0 in 4 turns
out $resolved
run $with --traits B,A,B app
status 0
out app: resolved 1 in 13 turns
out $resolved
run $with --traits default,A app
status 0
out app: resolved 1 in 13 turns
out $resolved
run $with --disable-default-traits app
status 0
out app: resolved 0 in 1 turns
out $resolved
run $with --tools-version 5.9 --traits A app
status 0
out app: resolved 1 in 10 turns
out $resolved

case a trait that the root doesn't declare
desk 4
file s.json $shelf
file app/Package.json $ab_root
run $with --traits X app
status 1
out app: no selection in 3 turns
out 1. root with X has no such trait: [root chosen, root#X on]
out 2. the words ask root#X: [root chosen, root#X off]
out 3. from 1 and 2 on root#X: [root chosen]
out So no selection exists.
out $refuted
absent app/Package.resolved

# The last name that is asked is derived first, the least in byte order is loaded first, which is A; X is loaded once A is decided.
case a trait that the root declares, and one that it doesn't
file s.json $shelf
file app/Package.json {"name":"app","traits":[{"name":"A"}],$tools
run $with --traits A,X app
status 1
out app: no selection in 6 turns
out 1. root with X has no such trait: [root chosen, root#X on]
out 2. the words ask root#X: [root chosen, root#X off]
out 3. from 1 and 2 on root#X: [root chosen]
out So no selection exists.
out $refuted

case a trait that enables one that isn't declared
file s.json $shelf
file app/Package.json {"name":"app","traits":[{"name":"A","enabledTraits":["Z"]}],$tools
run $go
status 0
out app: resolved 0 in 4 turns
out $resolved
run $with --traits A app
status 1
out app: no selection in 6 turns
out 1. root with Z has no such trait: [root chosen, root#Z on]
out 2. root with A enables Z: [root chosen, root#A on, root#Z off]
out 3. from 1 and 2 on root#Z: [root chosen, root#A on]
out 4. the words ask root#A: [root chosen, root#A off]
out 5. from 3 and 4 on root#A: [root chosen]
out So no selection exists.
out $refuted

case the traits by default enable one that guards a dependency
file s.json $shelf
file app/Package.json {"name":"app","traits":[{"name":"A"},{"name":"default","enabledTraits":["A"]}],"dependencies":[{"registry":[{"identity":"mona.d",$from_one}]}],"targets":[{"name":"App","dependencies":[{"byName":["mona.d",{"traits":["A"]}]}]}],$tools
run $go
status 0
out app: resolved 1 in 13 turns
out $resolved
run $with --enable-all-traits app
status 0
out app: resolved 1 in 13 turns
out $resolved
run $with --disable-default-traits app
status 0
out app: resolved 0 in 1 turns
out $resolved

# Two traits that enable each other: A is asked, B is enabled by it.
case traits that enable each other
file s.json $shelf
file app/Package.json {"name":"app","traits":[{"name":"A","enabledTraits":["B"]},{"name":"B","enabledTraits":["A","B"]}],$tools
run $with --traits A app
status 0
out app: resolved 0 in 7 turns
out $resolved

case a trait that asks one of a dependency
file s.json $shelf
file app/Package.json {"name":"app","traits":[{"name":"T"}],"dependencies":[{"registry":[{"identity":"mona.c",$from_one,"traits":[{"name":"X","condition":{"traits":["T"]}}]}]}],$tools
run $go
status 0
out app: resolved 1 in 7 turns
out $resolved
run $with --traits T app
status 0
out app: resolved 2 in 16 turns
out $resolved
has app/Package.resolved "identity" : "mona.c"
has app/Package.resolved "identity" : "mona.x"

# A is loaded in turn 4, and brings d and its trait; both and both traits of the root are derived by turn 6, and decided in turns 7, 9 and 11;
# turn 12 loads Y of d.
case a trait that guards a dependency, and one that asks of it
file s.json $shelf
file app/Package.json {"name":"app","traits":[{"name":"A"},{"name":"B"}],"dependencies":[{"registry":[{"identity":"mona.d",$from_one,"traits":[{"name":"Y","condition":{"traits":["B"]}}]}]}],"targets":[{"name":"App","dependencies":[{"product":["D","mona.d",null,{"traits":["A"]}]}]}],$tools
run $with --traits A app
status 0
out app: resolved 1 in 7 turns
out $resolved
run $with --traits A,B app
status 1
out app: no selection in 12 turns
out 1. mona.d 1.0.0 with Y has no such trait: [mona.d 1.0.0, mona.d#Y on]
out 2. root with A needs mona.d 1.0.0..<2.0.0: [root chosen, root#A on, mona.d none]
out 3. from 1 and 2 on mona.d: [root chosen, root#A on, mona.d#Y on]
out 4. root with A and B asks mona.d#Y: [root chosen, root#A on, root#B on, mona.d#Y off]
out 5. from 3 and 4 on mona.d#Y: [root chosen, root#A on, root#B on]
out 6. the words ask root#A: [root chosen, root#A off]
out 7. from 5 and 6 on root#A: [root chosen, root#B on]
out 8. the words ask root#B: [root chosen, root#B off]
out 9. from 7 and 8 on root#B: [root chosen]
out So no selection exists.
out $refuted

case a dependency that two traits guard
file s.json $shelf
file app/Package.json {"name":"app","traits":[{"name":"A"},{"name":"B"}],"dependencies":[{"registry":[{"identity":"mona.d",$from_one}]}],"targets":[{"name":"App","dependencies":[{"product":["D","mona.d",null,{"traits":["A"]}]},{"product":["E","mona.d",null,{"traits":["B"]}]}]}],$tools
run $with --traits B app
status 0
out app: resolved 1 in 10 turns
out $resolved
run $with --traits A,B app
status 0
out app: resolved 1 in 13 turns
out $resolved

# A name of no dependency counts for each of them.
case a dependency that no declared trait guards isn't needed, even where its package isn't there
file s.json $shelf
file app/Package.json {"name":"app","dependencies":[{"registry":[{"identity":"mona.none",$from_one}]}],"targets":[{"name":"App","dependencies":[{"product":["N","mona.none",null,{"traits":["Q"]}]}]}],$tools
run $go
status 0
out app: resolved 0 in 4 turns
out $resolved
file app/Package.json {"name":"app","dependencies":[{"registry":[{"identity":"mona.none",$from_one}]}],"targets":[{"name":"App","dependencies":[{"byName":["Other",{"traits":["Q"]}]}]}],$tools
run $go
status 0
out app: resolved 0 in 4 turns
out $resolved

case a dependency that the traits by default guard
file s.json $shelf
file app/Package.json {"name":"app","dependencies":[{"registry":[{"identity":"mona.d",$from_one}]}],"targets":[{"name":"App","dependencies":[{"product":["D","mona.d",null,{"traits":["default"]}]}]}],$tools
run $go
status 0
out app: resolved 1 in 10 turns
out $resolved
run $with --disable-default-traits app
status 0
out app: resolved 0 in 1 turns
out $resolved

# A condition on a trait that the root doesn't declare is never met, and the traits by default of d aren't asked.
case a trait of a dependency under a condition that is never met
file s.json $shelf
file app/Package.json {"name":"app","dependencies":[{"registry":[{"identity":"mona.d",$from_one,"traits":[{"name":"default","condition":{"traits":["Q"]}}]}]}],$tools
run $go
status 0
out app: resolved 1 in 7 turns
out $resolved

case a name of a trait with all that it may have
file s.json $shelf
file app/Package.json {"name":"app","traits":[{"name":"_é-1+2.x"},{"name":"9"}],$tools
run $with --traits _é-1+2.x,9 app
status 0
out app: resolved 0 in 7 turns
out $resolved
"##;

// As much as may be, and one more.
const LIMITS: &str =
    r##"let leaf {"manifest":"{\"name\":\"leaf\",\"toolsVersion\":{\"_version\":\"5.9.0\"}}","archive":""}
let tools "toolsVersion":{"_version":"5.9.0"}}
let from_one "requirement":{"range":[{"lowerBound":"1.0.0","upperBound":"2.0.0"}]}
let resolved roots 1: resolved 1, refuted 0, refused 0, faulty 0, differing 0, cancelled 0, memory 0
let refused roots 1: resolved 0, refuted 0, refused 1, faulty 0, differing 0, cancelled 0, memory 0
let app {"name":"app","dependencies":[{"registry":[{"identity":"mona.a",$from_one}]}],$tools
let go resolve --shelf s.json app
many releases 4096 "1.%.0":$leaf
many more 4097 "1.%.0":$leaf
many needs 513 {"registry":[{"identity":"mona.p%",$from_one}]}
many traits 300 {"name":"t%"}
many too_many 301 {"name":"t%"}

case 4,096 releases in a list
file s.json {"packages":{"mona.a":{$releases}}}
file app/Package.json $app
run $go
status 0
out app: resolved 1 in 10 turns
out $resolved
faults 0
has app/Package.resolved "version" : "1.4095.0"

case 4,097 releases in a list
file s.json {"packages":{"mona.a":{$more}}}
file app/Package.json $app
run $go
status 3
out app: too wide: versions of mona.a
out $refused
faults 0
absent app/Package.resolved

case 513 dependencies
file s.json {"packages":{}}
file app/Package.json {"name":"app","dependencies":[$needs],$tools
run $go
status 3
out app: Package.json is unreadable at /dependencies: too many
out $refused
faults 0

# The root's load, and three turns for `default` and each of the others.

case 300 traits
file s.json {"packages":{}}
file app/Package.json {"name":"app","traits":[$traits],$tools
run resolve --shelf s.json --enable-all-traits app
status 0
out app: resolved 0 in 904 turns
out $resolved
faults 0

case 301 traits
file s.json {"packages":{}}
file app/Package.json {"name":"app","traits":[$too_many],$tools
run resolve --shelf s.json --enable-all-traits app
status 3
out app: Package.json is unreadable at /traits: too many
out $refused
faults 0
"##;
