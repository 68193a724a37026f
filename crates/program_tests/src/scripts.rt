//! The scripts: what is on the desk, what is run, and what is left (`stage::Stage`).
use crate::stage::play;

#[test]
fn roots_are_resolved(rt: HostRuntime) {
    assert_eq!(rt; play(&rt, rt.alloc(), RESOLVED), Ok(0));
}

#[test]
fn words_shelves_and_roots_are_refused(rt: HostRuntime) {
    assert_eq!(rt; play(&rt, rt.alloc(), REFUSED), Ok(0));
}

#[test]
fn lock_files_and_faults_are_met(rt: HostRuntime) {
    assert_eq!(rt; play(&rt, rt.alloc(), MET), Ok(0));
}

#[test]
fn derivations_in_files_are_checked(rt: HostRuntime) {
    assert_eq!(rt; play(&rt, rt.alloc(), CHECKED), Ok(0));
}

// Roots that are resolved: their lock files, whole or in part.
const RESOLVED: &str =
    r##"let one {"registry":[{"identity":"mona.LinkedList","requirement":{"range":[{"lowerBound":"1.0.0","upperBound":"2.0.0"}]}}]}
let range {"range":[{"lowerBound":"1.0.0","upperBound":"2.0.0"}]}
let leaf {\"name\":\"leaf\",\"toolsVersion\":{\"_version\":\"5.9.0\"}}
let needy {\"name\":\"needy\",\"dependencies\":[{\"registry\":[{\"identity\":\"mona.a\",\"requirement\":{\"range\":[{\"lowerBound\":\"1.0.0\",\"upperBound\":\"2.0.0\"}]}}]}],\"toolsVersion\":{\"_version\":\"5.9.0\"}}
let newer {\"name\":\"new\",\"toolsVersion\":{\"_version\":\"6.1.1\"}}
let optional {\"name\":\"optional\",\"traits\":[{\"name\":\"x\"}],\"toolsVersion\":{\"_version\":\"5.9.0\"}}
let with {"manifest":"$leaf","archive":"616263"}
let tools "toolsVersion":{"_version":"5.9.0"}}
let shelf {"packages":{"mona.LinkedList":{"1.0.0":$with,"1.1.0":$with,"2.0.0":$with},"Mona.Other":{"1.0.0":$with},"mona.needs":{"1.0.0":$with,"1.1.0":{"manifest":"$needy","archive":"616263"}},"mona.tools":{"1.0.0":{"manifest":"$newer","archive":"616263"}},"mona.garbled":{"1.0.0":{"manifest":"{","archive":"616263"}},"mona.traits":{"1.0.0":{"manifest":"$optional","archive":"616263"}}},"urls":{}}
let app {"name":"app","dependencies":[$one],"targets":[],$tools
let none {"name":"app","dependencies":[],"targets":[],$tools
let resolved roots 1: resolved 1, refuted 0, refused 0, faulty 0, differing 0, cancelled 0, memory 0
let refused roots 1: resolved 0, refuted 0, refused 1, faulty 0, differing 0, cancelled 0, memory 0
let refuted roots 1: resolved 0, refuted 1, refused 0, faulty 0, differing 0, cancelled 0, memory 0
let faulty roots 1: resolved 0, refuted 0, refused 0, faulty 1, differing 0, cancelled 0, memory 0
let go resolve --shelf s.json app

case one dependency
file s.json $shelf
file app/Package.json $app
run $go
status 0
out app: resolved 1 in 10 turns
out $resolved
faults 0
= {
=   "originHash" : "4c0e9e7750f69dc3064a8eda4df79a673f1a1a90787223b62fb4b33669c14d83",
=   "pins" : [
=     {
=       "identity" : "mona.linkedlist",
=       "kind" : "registry",
=       "location" : "",
=       "state" : {
=         "version" : "1.1.0"
=       }
=     }
=   ],
=   "version" : 3
= }
is app/Package.resolved

case no dependency
file s.json $shelf
file app/Package.json $none
run $go
status 0
out app: resolved 0 in 4 turns
out $resolved
faults 0
= {
=   "originHash" : "c8486d42269ad1c1895470ab6576e60509047c102f495e06b3719653335eceb6",
=   "pins" : [
= 
=   ],
=   "version" : 3
= }
is app/Package.resolved

case the running tools
file s.json $shelf
file app/Package.json {"name":"app","toolsVersion":{"_version":"6.1.0"}}
run $go
status 0
out app: resolved 0 in 4 turns
out $resolved
faults 0
= {
=   "originHash" : "21fd5a464071a86c84a146d38606a1f266cca15d6bead3b2e54868222ad784a2",
=   "pins" : [
= 
=   ],
=   "version" : 3
= }
is app/Package.resolved

case two dependencies, of which the later identity is written first
file s.json $shelf
file app/Package.json {"name":"app","dependencies":[{"registry":[{"identity":"mona.other","requirement":$range}]},$one],"targets":[],$tools
run $go
status 0
out app: resolved 2 in 16 turns
out $resolved
faults 0
= {
=   "originHash" : "c6aec2c50a0407eb7fc2a8934e2ab2694e9da9e2e81ec62ecb3fcef22e996dee",
=   "pins" : [
=     {
=       "identity" : "mona.linkedlist",
=       "kind" : "registry",
=       "location" : "",
=       "state" : {
=         "version" : "1.1.0"
=       }
=     },
=     {
=       "identity" : "mona.other",
=       "kind" : "registry",
=       "location" : "",
=       "state" : {
=         "version" : "1.0.0"
=       }
=     }
=   ],
=   "version" : 3
= }
is app/Package.resolved

case the newest of 1.9.0 1.10.0 2.0.0-beta.1 in 1.0.0..<2.0.0
file s.json {"packages":{"mona.LinkedList":{"1.9.0":$with,"1.10.0":$with,"2.0.0-beta.1":$with}},"urls":{}}
file app/Package.json {"name":"app","dependencies":[{"registry":[{"identity":"mona.LinkedList","requirement":{"range":[{"lowerBound":"1.0.0","upperBound":"2.0.0"}]}}]}],$tools
run $go
status 0
out app: resolved 1 in 10 turns
out $resolved
faults 0
has app/Package.resolved "version" : "1.10.0"

case the newest of 0.9.0 1.0.0 2.0.0 in 1.0.0..<2.0.0
file s.json {"packages":{"mona.LinkedList":{"0.9.0":$with,"1.0.0":$with,"2.0.0":$with}},"urls":{}}
file app/Package.json {"name":"app","dependencies":[{"registry":[{"identity":"mona.LinkedList","requirement":{"range":[{"lowerBound":"1.0.0","upperBound":"2.0.0"}]}}]}],$tools
run $go
status 0
out app: resolved 1 in 10 turns
out $resolved
faults 0
has app/Package.resolved "version" : "1.0.0"

case the newest of 1.0.0 1.5.0-rc.1 3.0.0 in 1.0.0..<2.0.0
file s.json {"packages":{"mona.LinkedList":{"1.0.0":$with,"1.5.0-rc.1":$with,"3.0.0":$with}},"urls":{}}
file app/Package.json {"name":"app","dependencies":[{"registry":[{"identity":"mona.LinkedList","requirement":{"range":[{"lowerBound":"1.0.0","upperBound":"2.0.0"}]}}]}],$tools
run $go
status 0
out app: resolved 1 in 10 turns
out $resolved
faults 0
has app/Package.resolved "version" : "1.0.0"

case the newest of 2.0.0-alpha 2.0.0-beta.1 1.0.0 in 2.0.0-alpha..<3.0.0
file s.json {"packages":{"mona.LinkedList":{"2.0.0-alpha":$with,"2.0.0-beta.1":$with,"1.0.0":$with}},"urls":{}}
file app/Package.json {"name":"app","dependencies":[{"registry":[{"identity":"mona.LinkedList","requirement":{"range":[{"lowerBound":"2.0.0-alpha","upperBound":"3.0.0"}]}}]}],$tools
run $go
status 0
out app: resolved 1 in 10 turns
out $resolved
faults 0
has app/Package.resolved "version" : "2.0.0-beta.1"

case the newest of 1.0.0 1.0.0+x 1.0.0+1 in 1.0.0..<2.0.0
file s.json {"packages":{"mona.LinkedList":{"1.0.0":$with,"1.0.0+x":$with,"1.0.0+1":$with}},"urls":{}}
file app/Package.json {"name":"app","dependencies":[{"registry":[{"identity":"mona.LinkedList","requirement":{"range":[{"lowerBound":"1.0.0","upperBound":"2.0.0"}]}}]}],$tools
run $go
status 0
out app: resolved 1 in 10 turns
out $resolved
faults 0
has app/Package.resolved "version" : "1.0.0+x"

case other forms of a need, 1
file s.json $shelf
file app/Package.json {"name":"app","dependencies":[{"registry":[{"identity":"mona.LinkedList","requirement":{"exact":["1.0.0"]}}]}],$tools
run $go
status 0
out app: resolved 1 in 10 turns
out $resolved
faults 0
has app/Package.resolved "version" : "1.0.0"

case other forms of a need, 2
file s.json $shelf
file app/Package.json {"name":"app","dependencies":[{"registry":[{"identity":"MONA.linkedlist","requirement":{"exact":["2.0.0"]}}]}],$tools
run $go
status 0
out app: resolved 1 in 10 turns
out $resolved
faults 0
has app/Package.resolved "version" : "2.0.0"

case other forms of a need, 3
file s.json $shelf
file app/Package.json {"name":"app","traits":[],"dependencies":[$one],$tools
run $go
status 0
out app: resolved 1 in 10 turns
out $resolved
faults 0
has app/Package.resolved "version" : "1.1.0"

case other forms of a need, 4
file s.json $shelf
file app/Package.json {"name":"app","dependencies":[{"registry":[{"identity":"mona.LinkedList","requirement":$range,"traits":null}]}],$tools
run $go
status 0
out app: resolved 1 in 10 turns
out $resolved
faults 0
has app/Package.resolved "version" : "1.1.0"

case other forms of a need, 5
file s.json $shelf
file app/Package.json {"name":"app","dependencies":[{"registry":[{"identity":"mona.LinkedList","requirement":$range,"traits":[{"name":"default"}]}]}],$tools
run $go
status 0
out app: resolved 1 in 10 turns
out $resolved
faults 0
has app/Package.resolved "version" : "1.1.0"

case other forms of a need, 6
file s.json $shelf
file app/Package.json {"name":"app","dependencies":[{"registry":[{"identity":"mona.LinkedList","requirement":$range,"traits":[{"name":"default","condition":{"traits":[]}}]}]}],$tools
run $go
status 0
out app: resolved 1 in 10 turns
out $resolved
faults 0
has app/Package.resolved "version" : "1.1.0"

case other forms of a need, 7
file s.json $shelf
file app/Package.json {"name":"app","dependencies":[$one],"targets":[{"name":"App","dependencies":[{"product":["L","mona.linkedlist"]}]}],$tools
run $go
status 0
out app: resolved 1 in 10 turns
out $resolved
faults 0
has app/Package.resolved "version" : "1.1.0"

case other forms of a need, 8
file s.json $shelf
file app/Package.json {"name":"app","dependencies":[$one],"targets":[{"dependencies":[{"product":["L","mona.linkedlist",null,{"traits":["X"]}]},{"byName":["mona.linkedlist"]}]}],$tools
run $go
status 0
out app: resolved 1 in 10 turns
out $resolved
faults 0
has app/Package.resolved "version" : "1.1.0"
"##;

// Words, shelves and manifests that are refused, and needs of the root that no release meets.
const REFUSED: &str =
    r##"let one {"registry":[{"identity":"mona.LinkedList","requirement":{"range":[{"lowerBound":"1.0.0","upperBound":"2.0.0"}]}}]}
let range {"range":[{"lowerBound":"1.0.0","upperBound":"2.0.0"}]}
let leaf {\"name\":\"leaf\",\"toolsVersion\":{\"_version\":\"5.9.0\"}}
let needy {\"name\":\"needy\",\"dependencies\":[{\"registry\":[{\"identity\":\"mona.a\",\"requirement\":{\"range\":[{\"lowerBound\":\"1.0.0\",\"upperBound\":\"2.0.0\"}]}}]}],\"toolsVersion\":{\"_version\":\"5.9.0\"}}
let newer {\"name\":\"new\",\"toolsVersion\":{\"_version\":\"6.1.1\"}}
let optional {\"name\":\"optional\",\"traits\":[{\"name\":\"x\"}],\"toolsVersion\":{\"_version\":\"5.9.0\"}}
let with {"manifest":"$leaf","archive":"616263"}
let tools "toolsVersion":{"_version":"5.9.0"}}
let shelf {"packages":{"mona.LinkedList":{"1.0.0":$with,"1.1.0":$with,"2.0.0":$with},"Mona.Other":{"1.0.0":$with},"mona.needs":{"1.0.0":$with,"1.1.0":{"manifest":"$needy","archive":"616263"}},"mona.tools":{"1.0.0":{"manifest":"$newer","archive":"616263"}},"mona.garbled":{"1.0.0":{"manifest":"{","archive":"616263"}},"mona.traits":{"1.0.0":{"manifest":"$optional","archive":"616263"}}},"urls":{}}
let app {"name":"app","dependencies":[$one],"targets":[],$tools
let none {"name":"app","dependencies":[],"targets":[],$tools
let resolved roots 1: resolved 1, refuted 0, refused 0, faulty 0, differing 0, cancelled 0, memory 0
let refused roots 1: resolved 0, refuted 0, refused 1, faulty 0, differing 0, cancelled 0, memory 0
let refuted roots 1: resolved 0, refuted 1, refused 0, faulty 0, differing 0, cancelled 0, memory 0
let faulty roots 1: resolved 0, refuted 0, refused 0, faulty 1, differing 0, cancelled 0, memory 0
let go resolve --shelf s.json app

case other words
desk 1
file s.json $shelf
file app/Package.json $none
run resolve
status 2
out words: not built yet
faults 0
absent app/Package.resolved

case other words
desk 1
file s.json $shelf
file app/Package.json $none
run resolve app
status 2
out words: not built yet
faults 0
absent app/Package.resolved

case other words
desk 1
file s.json $shelf
file app/Package.json $none
run resolve --shelf s.json
status 2
out words: not built yet
faults 0
absent app/Package.resolved

case other words
desk 1
file s.json $shelf
file app/Package.json $none
run resolve --shelf s.json app app
status 2
out words: not built yet
faults 0
absent app/Package.resolved

case other words
desk 1
file s.json $shelf
file app/Package.json $none
run resolve app --shelf s.json
status 2
out words: not built yet
faults 0
absent app/Package.resolved

case other words
desk 1
file s.json $shelf
file app/Package.json $none
run resolve --shelf=s.json app
status 2
out words: not built yet
faults 0
absent app/Package.resolved

case other words
desk 1
file s.json $shelf
file app/Package.json $none
run resolve --registry s.json app
status 2
out words: not built yet
faults 0
absent app/Package.resolved

case other words
desk 1
file s.json $shelf
file app/Package.json $none
run resolve --shelf '' app
status 2
out words: not built yet
faults 0
absent app/Package.resolved

case other words
desk 1
file s.json $shelf
file app/Package.json $none
run resolve --shelf s.json ''
status 2
out words: not built yet
faults 0
absent app/Package.resolved

case other words
desk 1
file s.json $shelf
file app/Package.json $none
run resolve --shelf -s app
status 2
out words: not built yet
faults 0
absent app/Package.resolved

case other words
desk 1
file s.json $shelf
file app/Package.json $none
run resolve --shelf s.json --app
status 2
out words: not built yet
faults 0
absent app/Package.resolved

case other words
desk 1
file s.json $shelf
file app/Package.json $none
run resolve --proof s.json
status 2
out words: not built yet
faults 0
absent app/Package.resolved

case traits and tools that aren't accepted
desk 1
file s.json $shelf
file app/Package.json $none
run resolve --shelf s.json --tools-version x app
status 2
out words: not built yet
run resolve --shelf s.json --tools-version 7.0.0.0 app
status 2
out words: not built yet
run resolve --shelf s.json --tools-version '' app
status 2
out words: not built yet
run resolve --shelf s.json --tools-version 1234567890 app
status 2
out words: not built yet
run resolve --shelf s.json --tools-version 6.-1 app
status 2
out words: not built yet
run resolve --shelf s.json --tools-version app
status 2
out words: not built yet
run resolve --shelf s.json --tools-version 7
status 2
out words: not built yet
run resolve --shelf s.json --tools-version 7 --tools-version 7 app
status 2
out words: not built yet
run resolve --shelf s.json --tools-version
status 2
out words: not built yet
run resolve --shelf s.json --traits '' app
status 2
out words: not built yet
run resolve --shelf s.json --traits a/b app
status 2
out words: not built yet
run resolve --shelf s.json --traits -a app
status 2
out words: not built yet
run resolve --shelf s.json --traits a,,b app
status 2
out words: not built yet
run resolve --shelf s.json --traits a, app
status 2
out words: not built yet
run resolve --shelf s.json --traits defaults app
status 2
out words: not built yet
run resolve --shelf s.json --traits a
status 2
out words: not built yet
run resolve --shelf s.json --traits a --traits b app
status 2
out words: not built yet
run resolve --shelf s.json --traits a --enable-all-traits app
status 2
out words: not built yet
run resolve --shelf s.json --enable-all-traits --disable-default-traits app
status 2
out words: not built yet
run resolve --shelf s.json --enable-all-traits
status 2
out words: not built yet
run resolve --shelf s.json --disable-default-traits
status 2
out words: not built yet
run resolve --shelf s.json --enable-all-traits app app
status 2
out words: not built yet
run resolve --shelf s.json --enable-all-trait app
status 2
out words: not built yet
run resolve --shelf s.json app --traits a
status 2
out words: not built yet
run resolve --shelf s.json app --enable-all-traits
status 2
out words: not built yet
run resolve --shelf s.json --traits a --tools-version 7 app
status 2
out words: not built yet
run resolve --shelf s.json --enable-all-traits --tools-version 7 app
status 2
out words: not built yet
run resolve --shelf s.json --tools-version 7 --traits a -app
status 2
out words: not built yet
run resolve --tools-version 7 --shelf s.json app
status 2
out words: not built yet
run resolve --traits a --shelf s.json app
status 2
out words: not built yet
faults 0
absent app/Package.resolved

case other words of the commands that wait for nobody
desk 1
run 
status 2
out words: not built yet
faults 0

case other words of the commands that wait for nobody
desk 1
run Resolve --shelf s.json app
status 2
out words: not built yet
faults 0

case other words of the commands that wait for nobody
desk 1
run check
status 2
out words: not built yet
faults 0

case other words of the commands that wait for nobody
desk 1
run check --proof
status 2
out words: not built yet
faults 0

case other words of the commands that wait for nobody
desk 1
run check --proof ''
status 2
out words: not built yet
faults 0

case other words of the commands that wait for nobody
desk 1
run check --proof -p
status 2
out words: not built yet
faults 0

case other words of the commands that wait for nobody
desk 1
run check p.json --proof
status 2
out words: not built yet
faults 0

case other words of the commands that wait for nobody
desk 1
run check --proof p.json q.json
status 2
out words: not built yet
faults 0

case other words of the commands that wait for nobody
desk 1
run judge --proof p.json
status 2
out words: not built yet
faults 0

case other words of the commands that wait for nobody
desk 1
run check --shelf s.json app
status 2
out words: not built yet
faults 0

case refused words keep their status
sink 1
run resolve
status 2
silent

case no manifest
file s.json $shelf
run $go
status 3
out app: Package.json is missing
out $refused
faults 0
absent app/Package.resolved

case no shelf
file app/Package.json $none
run $go
status 3
out s.json: missing
faults 0
absent app/Package.resolved

case a shelf
file app/Package.json $none
file s.json {"packages":{}}
run $go
status 0
out app: resolved 0 in 4 turns
out $resolved
file s.json {"packages":{},"urls":null}
run $go
status 0
out app: resolved 0 in 4 turns
out $resolved
file s.json {"packages":{},"urls":{"u":[]},"more":1}
run $go
status 0
out app: resolved 0 in 4 turns
out $resolved
file s.json {"packages":{"mona.A":{}}}
run $go
status 0
out app: resolved 0 in 4 turns
out $resolved
file s.json {"packages":{"mona.a":{"1.0.0":{"manifest":"","archive":""}}}}
run $go
status 0
out app: resolved 0 in 4 turns
out $resolved
file s.json {"packages":{"mona.a":{"1.0.0":{"manifest":"","archive":"","checksum":null}}}}
run $go
status 0
out app: resolved 0 in 4 turns
out $resolved
file s.json {"packages":{"mona.a":{"1.0.0-a.zip":{"manifest":"","archive":""}}}}
run $go
status 0
out app: resolved 0 in 4 turns
out $resolved
file s.json {"packages":{"mona.a":{"1.0.0":{"problem":"gone"}}}}
run $go
status 0
out app: resolved 0 in 4 turns
out $resolved
faults 0

# The root's files aren't got, and no file is put: the desk would fail there.

case a file that is no shelf
desk 2
file s.json 
file app/Package.json $none
run $go
status 3
out s.json: unreadable at /: not JSON
faults 0
absent app/Package.resolved

case a file that is no shelf
desk 2
file s.json {"packages":{
file app/Package.json $none
run $go
status 3
out s.json: unreadable at /: not JSON
faults 0
absent app/Package.resolved

case a file that is no shelf
desk 2
file s.json {"packages":{}} x
file app/Package.json $none
run $go
status 3
out s.json: unreadable at /: not JSON
faults 0
absent app/Package.resolved

case a file that is no shelf
desk 2
file s.json []
file app/Package.json $none
run $go
status 3
out s.json: unreadable at /: wrong kind
faults 0
absent app/Package.resolved

case a file that is no shelf
desk 2
file s.json {}
file app/Package.json $none
run $go
status 3
out s.json: unreadable at /packages: missing
faults 0
absent app/Package.resolved

case a file that is no shelf
desk 2
file s.json {"urls":[]}
file app/Package.json $none
run $go
status 3
out s.json: unreadable at /packages: missing
faults 0
absent app/Package.resolved

case a file that is no shelf
desk 2
file s.json {"packages":null}
file app/Package.json $none
run $go
status 3
out s.json: unreadable at /packages: wrong kind
faults 0
absent app/Package.resolved

case a file that is no shelf
desk 2
file s.json {"packages":[]}
file app/Package.json $none
run $go
status 3
out s.json: unreadable at /packages: wrong kind
faults 0
absent app/Package.resolved

case a file that is no shelf
desk 2
file s.json {"packages":{"mona":{}}}
file app/Package.json $none
run $go
status 3
out s.json: unreadable at /packages: bad identity
faults 0
absent app/Package.resolved

case a file that is no shelf
desk 2
file s.json {"packages":{"mona.A":{},"mona.a":{}}}
file app/Package.json $none
run $go
status 3
out s.json: unreadable at /packages: doubled
faults 0
absent app/Package.resolved

case a file that is no shelf
desk 2
file s.json {"packages":{"mona.a":[]}}
file app/Package.json $none
run $go
status 3
out s.json: unreadable at /packages: wrong kind
faults 0
absent app/Package.resolved

case a file that is no shelf
desk 2
file s.json {"packages":{"mona.a":{"1":{}}}}
file app/Package.json $none
run $go
status 3
out s.json: unreadable at /packages: bad version
faults 0
absent app/Package.resolved

case a file that is no shelf
desk 2
file s.json {"packages":{"mona.a":{"1.0.0":[]}}}
file app/Package.json $none
run $go
status 3
out s.json: unreadable at /packages: wrong kind
faults 0
absent app/Package.resolved

case a file that is no shelf
desk 2
file s.json {"packages":{"mona.a":{"1.0.0":{}}}}
file app/Package.json $none
run $go
status 3
out s.json: unreadable at /packages: missing
faults 0
absent app/Package.resolved

case a file that is no shelf
desk 2
file s.json {"packages":{"mona.a":{"1.0.0":{"manifest":null,"archive":""}}}}
file app/Package.json $none
run $go
status 3
out s.json: unreadable at /packages: missing
faults 0
absent app/Package.resolved

case a file that is no shelf
desk 2
file s.json {"packages":{"mona.a":{"1.0.0":{"problem":null,"manifest":""}}}}
file app/Package.json $none
run $go
status 3
out s.json: unreadable at /packages: missing
faults 0
absent app/Package.resolved

case a file that is no shelf
desk 2
file s.json {"packages":{"mona.a":{"1.0.0":{"manifest":{},"archive":""}}}}
file app/Package.json $none
run $go
status 3
out s.json: unreadable at /packages: wrong kind
faults 0
absent app/Package.resolved

case a file that is no shelf
desk 2
file s.json {"packages":{"mona.a":{"1.0.0":{"problem":3}}}}
file app/Package.json $none
run $go
status 3
out s.json: unreadable at /packages: wrong kind
faults 0
absent app/Package.resolved

case a file that is no shelf
desk 2
file s.json {"packages":{"mona.a":{"1.0.0":{"manifest":"","archive":"6"}}}}
file app/Package.json $none
run $go
status 3
out s.json: unreadable at /packages: bad hex
faults 0
absent app/Package.resolved

case a file that is no shelf
desk 2
file s.json {"packages":{"mona.a":{"1.0.0":{"problem":"gone","archive":"zz"}}}}
file app/Package.json $none
run $go
status 3
out s.json: unreadable at /packages: bad hex
faults 0
absent app/Package.resolved

case a file that is no shelf
desk 2
file s.json {"packages":{"mona.a":{"1.0.0":{"manifest":"","archive":"","checksum":"e3b0"}}}}
file app/Package.json $none
run $go
status 3
out s.json: unreadable at /packages: bad hex
faults 0
absent app/Package.resolved

case a file that is no shelf
desk 2
file s.json {"packages":{},"urls":[]}
file app/Package.json $none
run $go
status 3
out s.json: unreadable at /urls: wrong kind
faults 0
absent app/Package.resolved

case a file that is no shelf
desk 2
file s.json {"packages":{},"urls":{"u":"mona.a"}}
file app/Package.json $none
run $go
status 3
out s.json: unreadable at /urls: wrong kind
faults 0
absent app/Package.resolved

case a file that is no shelf
desk 2
file s.json {"packages":{},"urls":{"u":["mona.a","mona"]}}
file app/Package.json $none
run $go
status 3
out s.json: unreadable at /urls: bad identity
faults 0
absent app/Package.resolved

case a file that is no shelf
desk 2
file s.json {"packages":{"mona":{}},"urls":[]}
file app/Package.json $none
run $go
status 3
out s.json: unreadable at /packages: bad identity
faults 0
absent app/Package.resolved

case a file that is no shelf
desk 2
file s.json {"packages":{"mona.b":[],"mona.A":{"1":{}}}}
file app/Package.json $none
run $go
status 3
out s.json: unreadable at /packages: bad version
faults 0
absent app/Package.resolved

case a file that is no shelf
desk 2
file s.json {"packages":{"mona.a":{"1.0.0":{"manifest":"","archive":"","checksum":"e3b0c44298fc1c149afbf4c8996fb92427ae41e4649b934ca495991b7852b855"}},"mona.b":[]}}
file app/Package.json $none
run $go
status 3
out s.json: unreadable at /packages: wrong kind
faults 0
absent app/Package.resolved

case a shelf with a checksum
file s.json {"packages":{"mona.a":{"1.0.0":{"manifest":"","archive":"","checksum":"e3b0c44298fc1c149afbf4c8996fb92427ae41e4649b934ca495991b7852b855"}}}}
file app/Package.json $none
run $go
status 0
out app: resolved 0 in 4 turns
out $resolved
faults 0

case a shelf with a checksum
file s.json {"packages":{"mona.a":{"1.0.0":{"problem":"gone","checksum":"e3b0c44298fc1c149afbf4c8996fb92427ae41e4649b934ca495991b7852b855"}}}}
file app/Package.json $none
run $go
status 0
out app: resolved 0 in 4 turns
out $resolved
faults 0

case a long shelf
file s.json {"packages":{}}
pad s.json 70000
file app/Package.json $none
run $go
status 0
out app: resolved 0 in 4 turns
out $resolved
faults 0

# The lock file isn't got: the desk would fail there.

case a refused manifest
desk 3
file s.json $shelf
file app/Package.json 
run $go
status 3
out app: Package.json is unreadable at /: not JSON
out $refused
faults 0
absent app/Package.resolved

case a refused manifest
desk 3
file s.json $shelf
file app/Package.json []
run $go
status 3
out app: Package.json is unreadable at /: wrong kind
out $refused
faults 0
absent app/Package.resolved

case a refused manifest
desk 3
file s.json $shelf
file app/Package.json {}
run $go
status 3
out app: Package.json is unreadable at /name: missing
out $refused
faults 0
absent app/Package.resolved

case a refused manifest
desk 3
file s.json $shelf
file app/Package.json {"name":"app","toolsVersion":{"_version":"6.1.1"},"traits":[{"name":"x"},{"name":"x"}]}
run $go
status 3
out app: Package.json is unreadable at /traits/1/name: doubled
out $refused
faults 0
absent app/Package.resolved

case a refused manifest
desk 3
file s.json $shelf
file app/Package.json {"name":"app","toolsVersion":{"_version":"6.1.1"},"dependencies":[{"registry":[{"identity":"a.b","requirement":{"range":[{"lowerBound":"1.0","upperBound":"2.0.0"}]}}]}]}
run $go
status 3
out app: Package.json is unreadable at /dependencies/0/registry/0/requirement/range/0/lowerBound: bad version
out $refused
faults 0
absent app/Package.resolved

case a refused manifest
desk 3
file s.json $shelf
file app/Package.json {"name":"app","toolsVersion":{"_version":"6.1.1"}}
run $go
status 3
out app: Package.json needs tools 6.1.1, running 6.1.0
out $refused
faults 0
absent app/Package.resolved

case a refused manifest
desk 3
file s.json $shelf
file app/Package.json {"name":"app","toolsVersion":{"_version":"7.0.0"},"traits":[{"name":"x"}]}
run $go
status 3
out app: Package.json needs tools 7.0.0, running 6.1.0
out $refused
faults 0
absent app/Package.resolved

case the version of the tools that is running
file s.json $shelf
file app/Package.json {"name":"app","toolsVersion":{"_version":"7.0.0"}}
run resolve --shelf s.json --tools-version 7 app
status 0
out app: resolved 0 in 4 turns
out $resolved
run resolve --shelf s.json --tools-version 07.0 --enable-all-traits app
status 0
out app: resolved 0 in 4 turns
out $resolved
run resolve --shelf s.json --tools-version 6.999999999.0 app
status 3
out app: Package.json needs tools 7.0.0, running 6.999999999.0
out $refused
file app/Package.json $none
run resolve --shelf s.json --tools-version 5.8.9 app
status 3
out app: Package.json needs tools 5.9.0, running 5.8.9
out $refused
run resolve --shelf s.json --tools-version 5.9 app
status 0
out app: resolved 0 in 4 turns
out $resolved
faults 0

# No put is made: the desk would fail there.

case the last need that no release meets is named
desk 4
file s.json $shelf
file app/Package.json {"name":"app","dependencies":[{"registry":[{"identity":"mona.none","requirement":$range}]}],$tools
run $go
status 1
out app: no selection in 1 turns
out 1. root needs mona.none 1.0.0..<2.0.0: [root chosen]
out So no selection exists.
out $refuted
faults 0
absent app/Package.resolved

case the last need that no release meets is named
desk 4
file s.json $shelf
file app/Package.json {"name":"app","dependencies":[{"registry":[{"identity":"mona.LinkedList","requirement":{"exact":["9.0.0"]}}]}],$tools
run $go
status 1
out app: no selection in 1 turns
out 1. root needs mona.linkedlist exactly 9.0.0: [root chosen]
out So no selection exists.
out $refuted
faults 0
absent app/Package.resolved

case the last need that no release meets is named
desk 4
file s.json $shelf
file app/Package.json {"name":"app","dependencies":[{"registry":[{"identity":"mona.LinkedList","requirement":{"range":[{"lowerBound":"3.0.0-rc.1","upperBound":"4.0.0"}]}}]}],$tools
run $go
status 1
out app: no selection in 1 turns
out 1. root needs mona.linkedlist 3.0.0-rc.1..<4.0.0: [root chosen]
out So no selection exists.
out $refuted
faults 0
absent app/Package.resolved

case the last need that no release meets is named
desk 4
file s.json $shelf
file app/Package.json {"name":"app","dependencies":[{"registry":[{"identity":"mona.LinkedList","requirement":{"range":[{"lowerBound":"2.0.0","upperBound":"1.0.0"}]}}]}],$tools
run $go
status 1
out app: no selection in 1 turns
out 1. root needs mona.linkedlist 2.0.0..<1.0.0: [root chosen]
out So no selection exists.
out $refuted
faults 0
absent app/Package.resolved

case the last need that no release meets is named
desk 4
file s.json $shelf
file app/Package.json {"name":"app","dependencies":[{"registry":[{"identity":"mona.none","requirement":$range}]},{"registry":[{"identity":"mona.absent","requirement":{"exact":["1.0.0+x"]}}]}],$tools
run $go
status 1
out app: no selection in 1 turns
out 1. root needs mona.absent exactly 1.0.0+x: [root chosen]
out So no selection exists.
out $refuted
faults 0
absent app/Package.resolved

case the last need that no release meets is named
desk 4
file s.json $shelf
file app/Package.json {"name":"app","dependencies":[{"registry":[{"identity":"mona.none","requirement":$range}]},{"registry":[{"identity":"mona.LinkedList","requirement":$range}]}],$tools
run $go
status 1
out app: no selection in 1 turns
out 1. root needs mona.none 1.0.0..<2.0.0: [root chosen]
out So no selection exists.
out $refuted
faults 0
absent app/Package.resolved

case the last need that no release meets is named
desk 4
file s.json $shelf
file app/Package.json {"name":"app","dependencies":[{"registry":[{"identity":"mona.garbled","requirement":$range}]},{"registry":[{"identity":"mona.none","requirement":$range}]}],$tools
run $go
status 1
out app: no selection in 1 turns
out 1. root needs mona.none 1.0.0..<2.0.0: [root chosen]
out So no selection exists.
out $refuted
faults 0
absent app/Package.resolved

case the last need that no release meets is named
desk 4
file s.json $shelf
file app/Package.json {"name":"app","dependencies":[{"registry":[{"identity":"mona.none","requirement":{"exact":["1.0.0"]}}]},{"registry":[{"identity":"MONA.NONE","requirement":{"exact":["2.0.0"]}}]}],$tools
run $go
status 1
out app: no selection in 1 turns
out 1. root needs mona.none exactly 2.0.0: [root chosen]
out So no selection exists.
out $refuted
faults 0
absent app/Package.resolved

let xa xxxxxxxxxxxxxxxx
let xb $xa$xa$xa$xa$xa$xa$xa$xa$xa$xa$xa$xa$xa$xa$xa$xa
let xc $xb$xb$xb$xb$xb$xb$xb$xb$xb$xb$xb$xb$xb$xb$xb$xb
let xd $xc$xc$xc$xc$xc$xc$xc$xc$xc$xc$xc$xc$xc$xc$xc$xc
let almost $xd$xd$xd$xd$xd$xd$xd$xd$xd$xd$xd$xd$xd$xd$xd$xc$xc$xc$xc$xc$xc$xc$xc$xc$xc$xc$xc$xc$xc$xc$xb$xb$xb$xb$xb$xb$xb$xb$xb$xb$xb$xb$xb$xb$xb$xa$xa$xa$xa$xa$xa$xa$xa$xa$xa$xa$xa$xax

# A manifest has at most 1,048,576 bytes, and a request 65,536.
case the longest manifest of a release
file s.json {"packages":{"mona.p":{"1.0.0":{"manifest":"{\"name\":\"$almost\",\"toolsVersion\":{\"_version\":\"5.9.0\"}}","archive":""}}}}
file app/Package.json {"name":"app","dependencies":[{"registry":[{"identity":"mona.p","requirement":$range}]}],$tools
run $go
status 0
out app: resolved 1 in 10 turns
out $resolved

case a manifest of a release that is one byte longer
desk 4
file s.json {"packages":{"mona.p":{"1.0.0":{"manifest":"{\"name\":\"x$almost\",\"toolsVersion\":{\"_version\":\"5.9.0\"}}","archive":""}}}}
file app/Package.json {"name":"app","dependencies":[{"registry":[{"identity":"mona.p","requirement":$range}]}],$tools
run $go
status 3
out app: /mona/p/1.0.0/Package.json: response too long
out $refused
faults 0
absent app/Package.resolved

case a URL on the shelf that no request has room for
desk 4
file s.json {"packages":{"mona.p":{"1.0.0":$with}},"urls":{"$xd":["mona.p"]}}
file app/Package.json {"name":"app","dependencies":[{"sourceControl":[{"identity":"p","location":{"remote":["$xd"]},"requirement":$range}]}],$tools
run $go
status 1
out app: no selection in 1 turns
out 1. root needs "$xd", which the registry doesn't know: [root chosen]
out So no selection exists.
out $refuted
faults 0
absent app/Package.resolved
"##;

// Pins that are kept or not, lock files that are refused, and faults of the desk and the output.
const MET: &str =
    r##"let one {"registry":[{"identity":"mona.LinkedList","requirement":{"range":[{"lowerBound":"1.0.0","upperBound":"2.0.0"}]}}]}
let range {"range":[{"lowerBound":"1.0.0","upperBound":"2.0.0"}]}
let leaf {\"name\":\"leaf\",\"toolsVersion\":{\"_version\":\"5.9.0\"}}
let needy {\"name\":\"needy\",\"dependencies\":[{\"registry\":[{\"identity\":\"mona.a\",\"requirement\":{\"range\":[{\"lowerBound\":\"1.0.0\",\"upperBound\":\"2.0.0\"}]}}]}],\"toolsVersion\":{\"_version\":\"5.9.0\"}}
let newer {\"name\":\"new\",\"toolsVersion\":{\"_version\":\"6.1.1\"}}
let optional {\"name\":\"optional\",\"traits\":[{\"name\":\"x\"}],\"toolsVersion\":{\"_version\":\"5.9.0\"}}
let with {"manifest":"$leaf","archive":"616263"}
let tools "toolsVersion":{"_version":"5.9.0"}}
let shelf {"packages":{"mona.LinkedList":{"1.0.0":$with,"1.1.0":$with,"2.0.0":$with},"Mona.Other":{"1.0.0":$with},"mona.needs":{"1.0.0":$with,"1.1.0":{"manifest":"$needy","archive":"616263"}},"mona.tools":{"1.0.0":{"manifest":"$newer","archive":"616263"}},"mona.garbled":{"1.0.0":{"manifest":"{","archive":"616263"}},"mona.traits":{"1.0.0":{"manifest":"$optional","archive":"616263"}}},"urls":{}}
let app {"name":"app","dependencies":[$one],"targets":[],$tools
let none {"name":"app","dependencies":[],"targets":[],$tools
let resolved roots 1: resolved 1, refuted 0, refused 0, faulty 0, differing 0, cancelled 0, memory 0
let refused roots 1: resolved 0, refuted 0, refused 1, faulty 0, differing 0, cancelled 0, memory 0
let refuted roots 1: resolved 0, refuted 1, refused 0, faulty 0, differing 0, cancelled 0, memory 0
let faulty roots 1: resolved 0, refuted 0, refused 0, faulty 1, differing 0, cancelled 0, memory 0
let go resolve --shelf s.json app
let pin "kind":"registry","location":"","state"

case an allowed pin is kept
file s.json $shelf
file app/Package.json $app
file app/Package.resolved {"pins":[],"version":3}
run $go
status 0
out app: resolved 1 in 10 turns
out $resolved
faults 0
= {
=   "originHash" : "4c0e9e7750f69dc3064a8eda4df79a673f1a1a90787223b62fb4b33669c14d83",
=   "pins" : [
=     {
=       "identity" : "mona.linkedlist",
=       "kind" : "registry",
=       "location" : "",
=       "state" : {
=         "version" : "1.1.0"
=       }
=     }
=   ],
=   "version" : 3
= }
is app/Package.resolved

case an allowed pin is kept
file s.json $shelf
file app/Package.json $app
file app/Package.resolved {"pins":[{"identity":"mona.linkedlist",$pin:{"version":"1.0.0"}}],"version":3}
run $go
status 0
out app: resolved 1 in 10 turns
out $resolved
faults 0
= {
=   "originHash" : "4c0e9e7750f69dc3064a8eda4df79a673f1a1a90787223b62fb4b33669c14d83",
=   "pins" : [
=     {
=       "identity" : "mona.linkedlist",
=       "kind" : "registry",
=       "location" : "",
=       "state" : {
=         "version" : "1.0.0"
=       }
=     }
=   ],
=   "version" : 3
= }
is app/Package.resolved

case an allowed pin is kept
file s.json $shelf
file app/Package.json $app
file app/Package.resolved {"pins":[{"identity":"Mona.LinkedList",$pin:{"version":"1.0.0"}}],"version":3}
run $go
status 0
out app: resolved 1 in 10 turns
out $resolved
faults 0
= {
=   "originHash" : "4c0e9e7750f69dc3064a8eda4df79a673f1a1a90787223b62fb4b33669c14d83",
=   "pins" : [
=     {
=       "identity" : "mona.linkedlist",
=       "kind" : "registry",
=       "location" : "",
=       "state" : {
=         "version" : "1.0.0"
=       }
=     }
=   ],
=   "version" : 3
= }
is app/Package.resolved

case an allowed pin is kept
file s.json $shelf
file app/Package.json $app
file app/Package.resolved {"pins":[{"identity":"mona.other",$pin:{"version":"1.1.0"}},{"identity":"mona.linkedlist",$pin:{"version":"1.0.0"}}],"version":3}
run $go
status 0
out app: resolved 1 in 10 turns
out $resolved
faults 0
= {
=   "originHash" : "4c0e9e7750f69dc3064a8eda4df79a673f1a1a90787223b62fb4b33669c14d83",
=   "pins" : [
=     {
=       "identity" : "mona.linkedlist",
=       "kind" : "registry",
=       "location" : "",
=       "state" : {
=         "version" : "1.0.0"
=       }
=     }
=   ],
=   "version" : 3
= }
is app/Package.resolved

case an allowed pin is kept
file s.json $shelf
file app/Package.json $app
file app/Package.resolved {"pins":[{"identity":"mona.linkedlist",$pin:{"version":"2.0.0"}}],"version":3}
run $go
status 0
out app: resolved 1 in 10 turns
out $resolved
faults 0
= {
=   "originHash" : "4c0e9e7750f69dc3064a8eda4df79a673f1a1a90787223b62fb4b33669c14d83",
=   "pins" : [
=     {
=       "identity" : "mona.linkedlist",
=       "kind" : "registry",
=       "location" : "",
=       "state" : {
=         "version" : "1.1.0"
=       }
=     }
=   ],
=   "version" : 3
= }
is app/Package.resolved

case an allowed pin is kept
file s.json $shelf
file app/Package.json $app
file app/Package.resolved {"pins":[{"identity":"mona.linkedlist",$pin:{"version":"1.0.5"}}],"version":3}
run $go
status 0
out app: resolved 1 in 10 turns
out $resolved
faults 0
= {
=   "originHash" : "4c0e9e7750f69dc3064a8eda4df79a673f1a1a90787223b62fb4b33669c14d83",
=   "pins" : [
=     {
=       "identity" : "mona.linkedlist",
=       "kind" : "registry",
=       "location" : "",
=       "state" : {
=         "version" : "1.1.0"
=       }
=     }
=   ],
=   "version" : 3
= }
is app/Package.resolved

case an allowed pin is kept
file s.json $shelf
file app/Package.json $app
file app/Package.resolved {"pins":[{"identity":"mona.linkedlist",$pin:{"version":"1.0.0+x"}}],"version":3}
run $go
status 0
out app: resolved 1 in 10 turns
out $resolved
faults 0
= {
=   "originHash" : "4c0e9e7750f69dc3064a8eda4df79a673f1a1a90787223b62fb4b33669c14d83",
=   "pins" : [
=     {
=       "identity" : "mona.linkedlist",
=       "kind" : "registry",
=       "location" : "",
=       "state" : {
=         "version" : "1.1.0"
=       }
=     }
=   ],
=   "version" : 3
= }
is app/Package.resolved

case an allowed pin is kept
file s.json $shelf
file app/Package.json $app
file app/Package.resolved {"pins":[{"identity":"mona.other",$pin:{"version":"1.0.0"}}],"version":3}
run $go
status 0
out app: resolved 1 in 10 turns
out $resolved
faults 0
= {
=   "originHash" : "4c0e9e7750f69dc3064a8eda4df79a673f1a1a90787223b62fb4b33669c14d83",
=   "pins" : [
=     {
=       "identity" : "mona.linkedlist",
=       "kind" : "registry",
=       "location" : "",
=       "state" : {
=         "version" : "1.1.0"
=       }
=     }
=   ],
=   "version" : 3
= }
is app/Package.resolved

case an allowed pin is kept
file s.json $shelf
file app/Package.json $app
file app/Package.resolved {"pins":[{"identity":"mona.linkedlist","kind":"remoteSourceControl","location":"","state":{"version":"1.0.0"}}],"version":3}
run $go
status 0
out app: resolved 1 in 10 turns
out $resolved
faults 0
= {
=   "originHash" : "4c0e9e7750f69dc3064a8eda4df79a673f1a1a90787223b62fb4b33669c14d83",
=   "pins" : [
=     {
=       "identity" : "mona.linkedlist",
=       "kind" : "registry",
=       "location" : "",
=       "state" : {
=         "version" : "1.1.0"
=       }
=     }
=   ],
=   "version" : 3
= }
is app/Package.resolved

case a pinned version comes before the newest, whose need nothing meets
file s.json $shelf
file app/Package.json {"name":"app","dependencies":[{"registry":[{"identity":"mona.needs","requirement":$range}]}],$tools
file app/Package.resolved {"pins":[{"identity":"mona.needs",$pin:{"version":"1.0.0"}}],"version":3}
run $go
status 0
out app: resolved 1 in 10 turns
out $resolved
faults 0
has app/Package.resolved "version" : "1.0.0"

# The pinned one is loaded and left out in two turns more, and the other one is chosen.
case a pinned version that can't be chosen
file s.json $shelf
file app/Package.json {"name":"app","dependencies":[{"registry":[{"identity":"mona.needs","requirement":$range}]}],$tools
file app/Package.resolved {"pins":[{"identity":"mona.needs",$pin:{"version":"1.1.0"}}],"version":3}
run $go
status 0
out app: resolved 1 in 12 turns
out $resolved
faults 0
has app/Package.resolved "version" : "1.0.0"

# A refused lock file stays as it was, and no put is made: the desk would fail there.

case a refused lock file
desk 4
file s.json $shelf
file app/Package.json $app
file app/Package.resolved 
run $go
status 3
out app: Package.resolved is unreadable at /: not JSON
out $refused
faults 0
text app/Package.resolved 

case a refused lock file
desk 4
file s.json $shelf
file app/Package.json $app
file app/Package.resolved {"pins":[],"version":4}
run $go
status 3
out app: Package.resolved is unreadable at /version: bad version
out $refused
faults 0
text app/Package.resolved {"pins":[],"version":4}

case a refused lock file
desk 4
file s.json $shelf
file app/Package.json $app
file app/Package.resolved {"pins":[],"version":2}
run $go
status 3
out app: Package.resolved is unreadable at /version: bad version
out $refused
faults 0
text app/Package.resolved {"pins":[],"version":2}

case a refused lock file
desk 4
file s.json $shelf
file app/Package.json $app
file app/Package.resolved {"version":3}
run $go
status 3
out app: Package.resolved is unreadable at /pins: missing
out $refused
faults 0
text app/Package.resolved {"version":3}

case a refused lock file
desk 4
file s.json $shelf
file app/Package.json $app
file app/Package.resolved {"pins":[{"identity":"mona.linkedlist",$pin:{"version":"1.0.0"}},{"identity":"mona.LinkedList",$pin:{"version":"1.1.0"}}],"version":3}
run $go
status 3
out app: Package.resolved is unreadable at /pins/1/identity: doubled
out $refused
faults 0
text app/Package.resolved {"pins":[{"identity":"mona.linkedlist",$pin:{"version":"1.0.0"}},{"identity":"mona.LinkedList",$pin:{"version":"1.1.0"}}],"version":3}

case the lock file is read before a selection is sought
desk 4
file s.json $shelf
file app/Package.json {"name":"app","dependencies":[{"registry":[{"identity":"mona.none","requirement":{"exact":["1.0.0"]}}]}],$tools
file app/Package.resolved []
run $go
status 3
out app: Package.resolved is unreadable at /: wrong kind
out $refused
faults 0
text app/Package.resolved []

case a fault at each file of the root
desk 2
file s.json $shelf
file app/Package.json $app
run $go
status 4
out app: app/Package.json: file fault
out $faulty
faults 1
absent app/Package.resolved

case a fault at each file of the root
desk 3
file s.json $shelf
file app/Package.json $app
run $go
status 4
out app: app/Package.resolved: file fault
out $faulty
faults 1
absent app/Package.resolved

case a fault at each file of the root
desk 4
file s.json $shelf
file app/Package.json $app
run $go
status 4
out app: app/Package.resolved: file fault
out $faulty
faults 1
absent app/Package.resolved

case a fault at the shelf
desk 1
file s.json $shelf
file app/Package.json $app
run $go
status 4
out s.json: file fault
faults 1
absent app/Package.resolved

case a run makes four calls of its desk
desk 5
file s.json $shelf
file app/Package.json $app
run $go
status 0
out app: resolved 1 in 10 turns
out $resolved
faults 0

case a sink that fails at its first call gets nothing, and the file is put all the same
sink 1
file s.json $shelf
file app/Package.json $app
run $go
status 4
silent
has app/Package.resolved "version" : "1.1.0"

case a sink that fails gets nothing of a derivation
sink 1
file s.json $shelf
file app/Package.json {"name":"app","dependencies":[{"registry":[{"identity":"mona.none","requirement":$range}]}],$tools
run $go
status 4
silent
absent app/Package.resolved
"##;

// Files of derivations: two facts on the root and a package, and their resolution, and what is wrong with others.
const CHECKED: &str =
    r##"let holds {"lines":[{"fact":[["root",[1]],["mona.a",[0,2]]]},{"fact":[["root",[1]],["mona.a",[0,1]]]},{"on":"mona.a","resolve":[1,2]}],"nodes":[["root",2],["mona.a",3]],"version":1}
let go check --proof p.json

case a derivation
file p.json $holds
run $go
status 0
out proof holds, 3 lines
faults 0
text p.json $holds

case a derivation
file p.json {"lines":[{"fact":[["root",[1]],["mona.a",[0,2]]]},{"fact":[["root",[1]],["mona.a",[0,2]]]},{"on":"mona.a","resolve":[1,2]}],"nodes":[["root",2],["mona.a",3]],"version":1}
run $go
status 1
out proof fails at line 3: not a refutation
faults 0
text p.json {"lines":[{"fact":[["root",[1]],["mona.a",[0,2]]]},{"fact":[["root",[1]],["mona.a",[0,2]]]},{"on":"mona.a","resolve":[1,2]}],"nodes":[["root",2],["mona.a",3]],"version":1}

case a derivation
file p.json {"lines":[{"fact":[["root",[1]],["mona.a",[0,2]]]},{"fact":[["root",[1]],["mona.a",[0,1]]]},{"on":"mona.a","resolve":[1,3]}],"nodes":[["root",2],["mona.a",3]],"version":1}
run $go
status 1
out proof fails at line 3: no such line
faults 0
text p.json {"lines":[{"fact":[["root",[1]],["mona.a",[0,2]]]},{"fact":[["root",[1]],["mona.a",[0,1]]]},{"on":"mona.a","resolve":[1,3]}],"nodes":[["root",2],["mona.a",3]],"version":1}

case a derivation
file p.json {"lines":[{"fact":[["root",[1]],["mona.a",[0,2]]]},{"fact":[["root",[1]],["mona.a",[0,3]]]},{"on":"mona.a","resolve":[1,2]}],"nodes":[["root",2],["mona.a",3]],"version":1}
run $go
status 1
out proof fails at line 2: bad set
faults 0
text p.json {"lines":[{"fact":[["root",[1]],["mona.a",[0,2]]]},{"fact":[["root",[1]],["mona.a",[0,3]]]},{"on":"mona.a","resolve":[1,2]}],"nodes":[["root",2],["mona.a",3]],"version":1}

case a derivation
file p.json {"lines":[{"fact":[["root",[1]],["mona.a",[0,2]]]},{"fact":[["root",[1]],["mona.a",[0,1]]]},{"on":"mona.b","resolve":[1,2]}],"nodes":[["root",2],["mona.a",3]],"version":1}
run $go
status 1
out proof fails at line 3: no such node
faults 0
text p.json {"lines":[{"fact":[["root",[1]],["mona.a",[0,2]]]},{"fact":[["root",[1]],["mona.a",[0,1]]]},{"on":"mona.b","resolve":[1,2]}],"nodes":[["root",2],["mona.a",3]],"version":1}

case a derivation
file p.json {"lines":[{"fact":[["root",[1]],["mona.a",[0,2]]]},{"fact":[["root",[1]],["mona.a",[0,1]]]},{"on":"mona.a","resolve":[1,2]}],"nodes":[["root",2],["mona.a",3]],"version":2}
run $go
status 3
out p.json: unreadable at /version: bad version
faults 0
text p.json {"lines":[{"fact":[["root",[1]],["mona.a",[0,2]]]},{"fact":[["root",[1]],["mona.a",[0,1]]]},{"on":"mona.a","resolve":[1,2]}],"nodes":[["root",2],["mona.a",3]],"version":2}

case a derivation
file p.json {"lines":[{"fact":[["root",[1]],["mona.a",[0,2]]]},{"fact":[["root",[1]],["mona.a",[0,1]]]},{"on":"mona.a","resolve":[1,2]}],"nodes":[["root",2],["mona.a",1]],"version":1}
run $go
status 3
out p.json: unreadable at /nodes/1/1: wrong kind
faults 0
text p.json {"lines":[{"fact":[["root",[1]],["mona.a",[0,2]]]},{"fact":[["root",[1]],["mona.a",[0,1]]]},{"on":"mona.a","resolve":[1,2]}],"nodes":[["root",2],["mona.a",1]],"version":1}

case a derivation
file p.json "lines":[{"fact":[["root",[1]],["mona.a",[0,2]]]},{"fact":[["root",[1]],["mona.a",[0,1]]]},{"on":"mona.a","resolve":[1,2]}],"nodes":[["root",2],["mona.a",3]],"version":1}
run $go
status 3
out p.json: unreadable at /: not JSON
faults 0
text p.json "lines":[{"fact":[["root",[1]],["mona.a",[0,2]]]},{"fact":[["root",[1]],["mona.a",[0,1]]]},{"on":"mona.a","resolve":[1,2]}],"nodes":[["root",2],["mona.a",3]],"version":1}

case an empty file
file p.json 
run $go
status 3
out p.json: unreadable at /: not JSON

case no file
run $go
status 3
out p.json: missing

case a fault at the file
desk 1
file p.json $holds
run $go
status 4
out p.json: file fault
faults 1
text p.json $holds

case the file is got once
desk 2
file p.json $holds
run $go
status 0
out proof holds, 3 lines
faults 0

case a fault of the output
sink 1
file p.json $holds
run $go
status 4
silent
"##;
