//! The scripts of `judge`: lock files of whole graphs, each with one rule that is broken, and files and words that are refused
//! (`stage::Stage`).
use crate::stage::play;

#[test]
fn lock_files_are_judged(rt: HostRuntime) {
    assert_eq!(rt; play(&rt, rt.alloc(), JUDGING), Ok(0));
}

// A lock file is a line here: `$of` and `$at` stand round the identity of a pin and its version.
const JUDGING: &str = r##"let tools "toolsVersion":{"_version":"5.9.0"}}
let from_one "requirement":{"range":[{"lowerBound":"1.0.0","upperBound":"2.0.0"}]}
let end \"toolsVersion\":{\"_version\":\"5.9.0\"}}","archive":""}
let needing {"manifest":"{\"name\":\"it\",\"dependencies\":[
let up_one \"requirement\":{\"range\":[{\"lowerBound\":\"1.0.0\",\"upperBound\":\"2.0.0\"}]}
let leaf {"manifest":"{\"name\":\"leaf\",\"toolsVersion\":{\"_version\":\"5.9.0\"}}","archive":""}
let go judge --shelf s.json app
let resolved roots 1: resolved 1, refuted 0, refused 0, faulty 0, differing 0, cancelled 0, memory 0
let of {"kind":"registry","location":"","identity":"
let at ","state":{"version":"
let no "}}
let lock {"pins":[
let done ],"version":3}

# ---- one dependency

let one_shelf {"packages":{"mona.LinkedList":{"1.0.0":$leaf,"1.1.0":$leaf,"2.0.0":$leaf,"1.2.0":{"problem":"withdrawn"}}}}
let one_root {"name":"app","dependencies":[{"registry":[{"identity":"mona.LinkedList",$from_one}]}],$tools

case what resolve put is valid
file s.json $one_shelf
file app/Package.json $one_root
run resolve --shelf s.json app
status 0
out app: resolved 1 in 10 turns
out $resolved
run $go
status 0
out app: valid

case an older version is valid too
file s.json $one_shelf
file app/Package.json $one_root
file app/Package.resolved $lock$ofmona.linkedlist$at1.0.0$no$done
run $go
status 0
out app: valid

case a version outside the range
file s.json $one_shelf
file app/Package.json $one_root
file app/Package.resolved $lock$ofmona.linkedlist$at2.0.0$no$done
run $go
status 1
out app: not valid: root needs mona.linkedlist 1.0.0..<2.0.0
text app/Package.resolved $lock$ofmona.linkedlist$at2.0.0$no$done

case a version with a problem isn't listed
file s.json $one_shelf
file app/Package.json $one_root
file app/Package.resolved $lock$ofmona.linkedlist$at1.2.0$no$done
run $go
status 1
out app: not valid: mona.linkedlist 1.2.0 isn't listed

case a package that the shelf lacks
file s.json $one_shelf
file app/Package.json $one_root
file app/Package.resolved $lock$ofmona.linkedlist$at1.1.0$no,$ofmona.none$at1.0.0$no$done
run $go
status 1
out app: not valid: mona.none 1.0.0 isn't listed

case no pins
file s.json $one_shelf
file app/Package.json $one_root
file app/Package.resolved $lock$done
run $go
status 1
out app: not valid: root needs mona.linkedlist 1.0.0..<2.0.0

case a pin that nothing needs
file s.json {"packages":{"mona.LinkedList":{"1.0.0":$leaf},"mona.other":{"1.0.0":$leaf}}}
file app/Package.json $one_root
file app/Package.resolved $lock$ofmona.other$at1.0.0$no,$ofmona.linkedlist$at1.0.0$no$done
run $go
status 1
out app: not valid: mona.other isn't reached

case a shelf with checksums is judged
file s.json {"packages":{"mona.LinkedList":{"1.0.0":{"manifest":"{\"name\":\"leaf\",$end,"1.1.0":{"checksum":"0000000000000000000000000000000000000000000000000000000000000000","manifest":"{\"name\":\"leaf\",$end}}}
file app/Package.json $one_root
file app/Package.resolved $lock$ofmona.linkedlist$at1.1.0$no$done
run $go
status 0
out app: valid

# ---- traits and guards

let its_needs \"dependencies\":[{\"registry\":[{\"identity\":\"mona.d\",$up_one}]},{\"registry\":[{\"identity\":\"mona.x\",$up_one}]}]
let its_uses \"targets\":[{\"name\":\"C\",\"dependencies\":[{\"product\":[\"D\",\"mona.d\",null,{\"traits\":[\"D\"]}]},{\"product\":[\"X\",\"mona.x\",null,{\"traits\":[\"X\"]}]}]}]
let guarded {"1.0.0":{"manifest":"{\"name\":\"c\",\"traits\":[{\"name\":\"default\",\"enabledTraits\":[\"D\"]},{\"name\":\"D\"},{\"name\":\"X\"}],$its_needs,$its_uses,$end,"1.1.0":$leaf}
let asks_x {"1.0.0":$needing{\"registry\":[{\"identity\":\"mona.c\",$up_one,\"traits\":[{\"name\":\"X\"}]}]}],\"targets\":[{\"name\":\"B\",\"dependencies\":[{\"product\":[\"C\",\"mona.c\",null,null]}]}],$end}
let shelf {"packages":{"mona.c":$guarded,"mona.d":{"1.0.0":$leaf},"mona.x":{"1.0.0":$leaf},"mona.z":$asks_x}}
let cz_root {"name":"app","dependencies":[{"registry":[{"identity":"mona.c",$from_one,"traits":[]}]},{"registry":[{"identity":"mona.z",$from_one}]}],"targets":[{"name":"App","dependencies":[{"product":["C","mona.c",null,null]},{"product":["Z","mona.z",null,null]}]}],$tools
let c_x_z $ofmona.c$at1.0.0$no,$ofmona.x$at1.0.0$no,$ofmona.z$at1.0.0$no

case a guard that is on, by what another package asks
file s.json $shelf
file app/Package.json $cz_root
file app/Package.resolved $lock$c_x_z$done
run $go
status 0
out app: valid

case what a guard needs is missing
file s.json $shelf
file app/Package.json $cz_root
file app/Package.resolved $lock$ofmona.c$at1.0.0$no,$ofmona.z$at1.0.0$no$done
run $go
status 1
out app: not valid: mona.c 1.0.0 with X needs mona.x 1.0.0..<2.0.0

case what a guard that is off would need is pinned
file s.json $shelf
file app/Package.json $cz_root
file app/Package.resolved $lock$ofmona.d$at1.0.0$no,$c_x_z$done
run $go
status 1
out app: not valid: mona.d isn't reached

case a trait that the version doesn't declare
file s.json $shelf
file app/Package.json $cz_root
file app/Package.resolved $lock$ofmona.c$at1.1.0$no,$ofmona.z$at1.0.0$no$done
run $go
status 1
out app: not valid: mona.c 1.1.0 with X has no such trait

# b's need is broken, and it isn't active: nothing reaches b.
case a broken need of a pin that isn't reached
file s.json {"packages":{"mona.LinkedList":{"1.0.0":$leaf},"mona.b":$asks_x}}
file app/Package.json $one_root
file app/Package.resolved $lock$ofmona.linkedlist$at1.0.0$no,$ofmona.b$at1.0.0$no$done
run $go
status 1
out app: not valid: mona.b isn't reached

case a cycle that nothing else reaches
file s.json {"packages":{"mona.LinkedList":{"1.0.0":$leaf},"mona.p":{"1.0.0":$needing{\"registry\":[{\"identity\":\"mona.q\",$up_one}]}],$end},"mona.q":{"1.0.0":$needing{\"registry\":[{\"identity\":\"mona.p\",$up_one}]}],$end}}}
file app/Package.json $one_root
file app/Package.resolved $lock$ofmona.linkedlist$at1.0.0$no,$ofmona.p$at1.0.0$no,$ofmona.q$at1.0.0$no$done
run $go
status 1
out app: not valid: mona.p isn't reached

case the order of the rules: unlisted before unusable, unusable before a need, a need before a pin that isn't reached
file s.json {"packages":{"mona.a":{"1.0.0":{"manifest":"{","archive":""}},"mona.b":{"1.0.0":$leaf},"mona.LinkedList":{"2.0.0":$leaf}}}
file app/Package.json $one_root
file app/Package.resolved $lock$ofmona.a$at1.0.0$no,$ofmona.b$at1.1.0$no,$ofmona.linkedlist$at2.0.0$no$done
run $go
status 1
out app: not valid: mona.b 1.1.0 isn't listed
file app/Package.resolved $lock$ofmona.a$at1.0.0$no,$ofmona.b$at1.0.0$no,$ofmona.linkedlist$at2.0.0$no$done
run $go
status 1
out app: not valid: mona.a 1.0.0 has an unreadable manifest at /: not JSON
file app/Package.resolved $lock$ofmona.b$at1.0.0$no,$ofmona.linkedlist$at2.0.0$no$done
run $go
status 1
out app: not valid: root needs mona.linkedlist 1.0.0..<2.0.0

case a version that needs newer tools, and the tools that the words say
file s.json {"packages":{"mona.LinkedList":{"1.0.0":{"manifest":"{\"name\":\"new\",\"toolsVersion\":{\"_version\":\"6.1.1\"}}","archive":""}}}}
file app/Package.json $one_root
file app/Package.resolved $lock$ofmona.linkedlist$at1.0.0$no$done
run $go
status 1
out app: not valid: mona.linkedlist 1.0.0 needs tools 6.1.1
run judge --shelf s.json --tools-version 7 app
status 0
out app: valid

# ---- URLs, branches and paths

let by_url {"packages":{"mona.LinkedList":{"1.0.0":$leaf},"mona.p":{"1.0.0":$needing{\"sourceControl\":[{\"identity\":\"linkedlist\",\"location\":{\"remote\":[\"https://example.com/mona/LinkedList\"]},$up_one,\"traits\":[]}]}],$end}},"urls":{"https://example.com/mona/LinkedList":["mona.LinkedList"]}}
let root_p {"name":"app","dependencies":[{"registry":[{"identity":"mona.p",$from_one}]}],$tools

case a package by its URL
file s.json $by_url
file app/Package.json $root_p
file app/Package.resolved $lock$ofmona.linkedlist$at1.0.0$no,$ofmona.p$at1.0.0$no$done
run $go
status 0
out app: valid
file app/Package.resolved $lock$ofmona.p$at1.0.0$no$done
run $go
status 1
out app: not valid: mona.p 1.0.0 needs mona.linkedlist 1.0.0..<2.0.0

case a URL that the shelf doesn't have
file s.json {"packages":{}}
file app/Package.json {"name":"app","dependencies":[{"sourceControl":[{"identity":"none","location":{"remote":["https://example.com/none"]},$from_one}]}],$tools
file app/Package.resolved $lock$done
run $go
status 1
out app: not valid: root needs "https://example.com/none", which the registry doesn't know

case a branch
file s.json {"packages":{}}
file app/Package.json {"name":"app","dependencies":[{"sourceControl":[{"identity":"none","location":{"remote":["https://example.com/none"]},"requirement":{"branch":["main"]}}]}],$tools
file app/Package.resolved $lock$done
run $go
status 1
out app: not valid: root needs branch "main" of "https://example.com/none"

# ---- replies that aren't answers

many more 4097 "1.%.0":$leaf

case a list with too many releases
file s.json {"packages":{"mona.LinkedList":{$more}}}
file app/Package.json $one_root
file app/Package.resolved $lock$ofmona.linkedlist$at1.0.0$no$done
run $go
status 3
out app: too wide: versions of mona.linkedlist

# ---- files

case no lock file
file s.json $one_shelf
file app/Package.json $one_root
run $go
status 3
out app: Package.resolved is missing
absent app/Package.resolved

case no manifest
file s.json $one_shelf
file app/Package.resolved $lock$done
run $go
status 3
out app: Package.json is missing

case a manifest that is no manifest
file s.json $one_shelf
file app/Package.json {"name":7,$tools
file app/Package.resolved $lock$done
run $go
status 3
out app: Package.json is unreadable at /name: wrong kind

case a manifest that needs newer tools
file s.json $one_shelf
file app/Package.json {"name":"app","toolsVersion":{"_version":"6.2.0"}}
file app/Package.resolved $lock$done
run $go
status 3
out app: Package.json needs tools 6.2.0, running 6.1.0

case a lock file of another version
file s.json $one_shelf
file app/Package.json $one_root
file app/Package.resolved {"pins":[],"version":4}
run $go
status 3
out app: Package.resolved is unreadable at /version: bad version

case two pins of one package
file s.json $one_shelf
file app/Package.json $one_root
file app/Package.resolved $lock$ofmona.linkedlist$at1.0.0$no,$ofmona.LinkedList$at1.1.0$no$done
run $go
status 3
out app: Package.resolved is unreadable at /pins/1/identity: doubled

case no shelf, nor the root's files
run $go
status 3
out s.json: missing

case a shelf that is none
file s.json []
run $go
status 3
out s.json: unreadable at /: wrong kind

case the desk fails at the shelf
desk 1
file s.json $one_shelf
run $go
status 4
out s.json: file fault
faults 1

case the desk fails at the manifest
desk 2
file s.json $one_shelf
file app/Package.json $one_root
run $go
status 4
out app: app/Package.json: file fault

case the desk fails at the lock file
desk 3
file s.json $one_shelf
file app/Package.json $one_root
file app/Package.resolved $lock$done
run $go
status 4
out app: app/Package.resolved: file fault

case the sink fails
sink 1
file s.json $one_shelf
file app/Package.json $one_root
file app/Package.resolved $lock$ofmona.linkedlist$at1.0.0$no$done
run $go
status 4
silent

# ---- words

case words of no form
run judge
status 2
out words: not built yet
run judge --shelf s.json
status 2
out words: not built yet
run judge --shelf s.json --tools-version 6.1.0
status 2
out words: not built yet
run judge --shelf s.json --tools-version x app
status 2
out words: not built yet
run judge --shelf s.json --traits A app
status 2
out words: not built yet
run judge --shelf '' app
status 2
out words: not built yet
run judge --shelf s.json -app
status 2
out words: not built yet
run judge --shelf s.json app bad
status 2
out words: not built yet
"##;
