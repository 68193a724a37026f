//! The scripts of archives, fingerprints and several roots (`stage::Stage`).
use crate::stage::play;

#[test]
fn archives_are_checked(rt: HostRuntime) {
    assert_eq!(rt; play(&rt, rt.alloc(), ARCHIVES), Ok(0));
}

#[test]
fn several_roots_are_resolved(rt: HostRuntime) {
    assert_eq!(rt; play(&rt, rt.alloc(), ROOTS), Ok(0));
}

// What stands behind a summary's numbers; `$abc` is the sum of the archives, `$empty` that of no bytes.
const ARCHIVES: &str = r##"let abc ba7816bf8f01cfea414140de5dae2223b00361a396177a9cb410ff61f20015ad
let empty e3b0c44298fc1c149afbf4c8996fb92427ae41e4649b934ca495991b7852b855
let tools "toolsVersion":{"_version":"5.9.0"}}
let leaf "manifest":"{\"name\":\"leaf\",\"toolsVersion\":{\"_version\":\"5.9.0\"}}"
let with {$leaf,"archive":"616263"}
let one {"registry":[{"identity":"mona.LinkedList","requirement":{"range":[{"lowerBound":"1.0.0","upperBound":"2.0.0"}]}}]}
let app {"name":"app","dependencies":[$one],"targets":[],$tools
let shelf {"packages":{"mona.LinkedList":{"1.0.0":$with,"1.1.0":$with,"2.0.0":$with}},"urls":{}}
let said {"packages":{"mona.LinkedList":{"1.0.0":$with,"1.1.0":{$leaf,"archive":"616263","checksum":
let end },"2.0.0":$with}},"urls":{}}
let kept {"fingerprints":{"mona.linkedlist":{"1.1.0":
let known },"version":1}
let resolved roots 1: resolved 1, refuted 0, refused 0, faulty 0, differing 0, cancelled 0, memory 0
let refused roots 1: resolved 0, refuted 0, refused 1, faulty 0, differing 0, cancelled 0, memory 0
let faulty roots 1: resolved 0, refuted 0, refused 0, faulty 1, differing 0, cancelled 0, memory 0
let differing roots 1: resolved 0, refuted 0, refused 0, faulty 0, differing 1, cancelled 0, memory 0
let go resolve --shelf s.json --fingerprints f.json app

# ---- one dependency

case its fingerprint is kept, and shown
file s.json $shelf
file app/Package.json $app
run $go
status 0
out app: resolved 1 in 10 turns
out $resolved
has app/Package.resolved "version" : "1.1.0"
= $kept"$abc"}$known
is f.json
run fingerprints f.json
status 0
out mona.linkedlist 1.1.0 $abc
faults 0

case one that is known isn't put again
desk 6
file s.json $shelf
file app/Package.json $app
file f.json $kept"$abc"}$known
run $go
status 0
out app: resolved 1 in 10 turns
out $resolved
text f.json $kept"$abc"}$known
faults 0

case upper case is read, and other entries stay
file s.json $shelf
file app/Package.json $app
file f.json {"fingerprints":{"Mona.Other":{"1.10.0":"E3B0C44298FC1C149AFBF4C8996FB92427AE41E4649B934CA495991B7852B855","1.9.0":"$abc"},"mona.empty":{}},"more":1,"version":1}
run $go
status 0
out app: resolved 1 in 10 turns
out $resolved
= $kept"$abc"},"mona.other":{"1.10.0":"$empty","1.9.0":"$abc"}$known
is f.json

case another version of it stays
file s.json $shelf
file app/Package.json $app
file f.json {"fingerprints":{"mona.linkedlist":{"1.0.0":"$empty"}},"version":1}
run $go
status 0
out app: resolved 1 in 10 turns
out $resolved
= {"fingerprints":{"mona.linkedlist":{"1.0.0":"$empty","1.1.0":"$abc"}},"version":1}
is f.json

case no fingerprint file is named
file s.json $shelf
file app/Package.json $app
run resolve --shelf s.json app
status 0
out app: resolved 1 in 10 turns
out $resolved
absent f.json

case a root without dependencies gains nothing
file s.json $shelf
file app/Package.json {"name":"app",$tools
run $go
status 0
out app: resolved 0 in 4 turns
out $resolved
absent f.json

# ---- sums that differ

case a wrong checksum
file s.json $said"$empty"$end
file app/Package.json $app
run $go
status 5
out app: mona.linkedlist 1.1.0: checksum $empty, found $abc
out $differing
absent app/Package.resolved
absent f.json
faults 0

case a kept fingerprint that differs
file s.json $shelf
file app/Package.json $app
file f.json $kept"$empty"}$known
run $go
status 5
out app: mona.linkedlist 1.1.0: fingerprint $empty, registry says $abc
out $differing
absent app/Package.resolved
text f.json $kept"$empty"}$known

case the checksum before the fingerprint
file s.json $said"$empty"$end
file app/Package.json $app
file f.json $kept"$empty"}$known
run $go
status 5
out app: mona.linkedlist 1.1.0: checksum $empty, found $abc
out $differing

case a fingerprint is no excuse for a checksum
file s.json $said"$empty"$end
file app/Package.json $app
file f.json $kept"$abc"}$known
run $go
status 5
out app: mona.linkedlist 1.1.0: checksum $empty, found $abc
out $differing

case a right checksum in upper case
file s.json $said"BA7816BF8F01CFEA414140DE5DAE2223B00361A396177A9CB410FF61F20015AD"$end
file app/Package.json $app
run $go
status 0
out app: resolved 1 in 10 turns
out $resolved

case a wrong checksum of a version that isn't chosen
file s.json $said"$empty"$end
file app/Package.json {"name":"app","dependencies":[{"registry":[{"identity":"mona.LinkedList","requirement":{"exact":["1.0.0"]}}]}],$tools
run $go
status 0
out app: resolved 1 in 10 turns
out $resolved
= {"fingerprints":{"mona.linkedlist":{"1.0.0":"$abc"}},"version":1}
is f.json

case an archive of no bytes
file s.json {"packages":{"mona.LinkedList":{"1.1.0":{$leaf,"archive":""}}},"urls":{}}
file app/Package.json $app
run $go
status 0
out app: resolved 1 in 10 turns
out $resolved
= $kept"$empty"}$known
is f.json

# ---- derivations

let twice {"name":"app","dependencies":[{"registry":[{"identity":"mona.a","requirement":{"exact":["1.0.0"]}}]},{"registry":[{"identity":"mona.a","requirement":{"exact":["2.0.0"]}}]}],$tools
let two {"packages":{"mona.a":{"1.0.0":$with,"2.0.0":$with}},"urls":{}}
let refuted roots 1: resolved 0, refuted 1, refused 0, faulty 0, differing 0, cancelled 0, memory 0

case a derivation is put, and holds
file s.json $two
file app/Package.json $twice
run resolve --shelf s.json --proofs app
status 1
out app: no selection in 3 turns
out 1. root needs mona.a exactly 1.0.0: [root chosen, mona.a none|2.0.0]
out 2. root needs mona.a exactly 2.0.0: [root chosen, mona.a none..1.0.0]
out 3. from 1 and 2 on mona.a: [root chosen]
out So no selection exists.
out $refuted
= {"lines":[{"fact":[["root",[1]],["mona.a",[0,2]]]},{"fact":[["root",[1]],["mona.a",[0,1]]]},{"on":"mona.a","resolve":[1,2]}],"nodes":[["root",2],["mona.a",3]],"version":1}
is app/Package.proof
absent app/Package.resolved
run check --proof app/Package.proof
status 0
out proof holds, 3 lines

case without the flag it isn't put
file s.json $two
file app/Package.json $twice
run $go
status 1
out app: no selection in 3 turns
out 1. root needs mona.a exactly 1.0.0: [root chosen, mona.a none|2.0.0]
out 2. root needs mona.a exactly 2.0.0: [root chosen, mona.a none..1.0.0]
out 3. from 1 and 2 on mona.a: [root chosen]
out So no selection exists.
out $refuted
absent app/Package.proof

case with the flag, all other options and a selection
file s.json $shelf
file app/Package.json $app
run resolve --shelf s.json --fingerprints f.json --tools-version 6 --enable-all-traits --proofs app
status 0
out app: resolved 1 in 10 turns
out $resolved
absent app/Package.proof

# ---- faults

case the put of the lock file fails
desk 4
file s.json $shelf
file app/Package.json $app
run resolve --shelf s.json app
status 4
out app: app/Package.resolved: file fault
out $faulty
faults 1

case the put of the derivation fails
desk 4
file s.json $two
file app/Package.json $twice
run resolve --shelf s.json --proofs app
status 4
out app: app/Package.proof: file fault
out $faulty
faults 1

case the put of the fingerprint file fails
desk 5
file s.json $shelf
file app/Package.json $app
run $go
status 4
out app: resolved 1 in 10 turns
out f.json: file fault
out $resolved
has app/Package.resolved "version" : "1.1.0"
faults 1

case the get of the fingerprint file fails
desk 2
file s.json $shelf
file app/Package.json $app
run $go
status 4
out f.json: file fault
absent app/Package.resolved
faults 1

case the sink fails at its first call
sink 1
file s.json $shelf
file app/Package.json $app
run $go
status 4
silent
has app/Package.resolved "version" : "1.1.0"
= $kept"$abc"}$known
is f.json

# ---- fingerprint files that are refused

case a fingerprint file of no form
file s.json $shelf
file app/Package.json $app
file f.json {}
run $go
status 3
out f.json: unreadable at /version: missing
absent app/Package.resolved
run fingerprints f.json
status 3
out f.json: unreadable at /version: missing
text f.json {}

case one that is missing can't be shown
run fingerprints f.json
status 3
out f.json: missing

case the get of what is to be shown fails
desk 1
run fingerprints f.json
status 4
out f.json: file fault
faults 1

case what is shown, in order
file f.json {"fingerprints":{"mona.B":{"1.9.0":"$abc","1.10.0":"$empty"},"mona.a":{"1.0.0":"$abc"}},"version":1}
run fingerprints f.json
status 0
out mona.a 1.0.0 $abc
out mona.b 1.10.0 $empty
out mona.b 1.9.0 $abc
"##;

// Several roots, each with its own files, and one fingerprint file.
const ROOTS: &str = r##"let abc ba7816bf8f01cfea414140de5dae2223b00361a396177a9cb410ff61f20015ad
let empty e3b0c44298fc1c149afbf4c8996fb92427ae41e4649b934ca495991b7852b855
let tools "toolsVersion":{"_version":"5.9.0"}}
let leaf "manifest":"{\"name\":\"leaf\",\"toolsVersion\":{\"_version\":\"5.9.0\"}}"
let with {$leaf,"archive":"616263"}
let wrong {$leaf,"archive":"616263","checksum":"$empty"}
let from_one "requirement":{"range":[{"lowerBound":"1.0.0","upperBound":"2.0.0"}]}
let need_list {"registry":[{"identity":"mona.LinkedList",$from_one}]}
let need_wrong {"registry":[{"identity":"mona.wrong",$from_one}]}
let need_other {"registry":[{"identity":"mona.other",$from_one}]}
let shelf {"packages":{"mona.LinkedList":{"1.0.0":$with,"1.1.0":$with,"2.0.0":$with},"mona.wrong":{"1.0.0":$wrong},"mona.other":{"1.0.0":$with},"mona.a":{"1.0.0":$with,"2.0.0":$with}},"urls":{}}
let app {"name":"app","dependencies":[$need_list],"targets":[],$tools
let other {"name":"other","dependencies":[$need_other],$tools
let differing_root {"name":"wrong","dependencies":[$need_wrong],$tools
let bad {"name":"bad","dependencies":[{"registry":[{"identity":"mona.a","requirement":{"exact":["1.0.0"]}}]},{"registry":[{"identity":"mona.a","requirement":{"exact":["2.0.0"]}}]}],$tools
let go resolve --shelf s.json --fingerprints f.json

case one that is resolved and one that has no selection
file s.json $shelf
file app/Package.json $app
file bad/Package.json $bad
run $go app bad
status 1
out app: resolved 1 in 10 turns
out bad: no selection in 3 turns
out 1. root needs mona.a exactly 1.0.0: [root chosen, mona.a none|2.0.0]
out 2. root needs mona.a exactly 2.0.0: [root chosen, mona.a none..1.0.0]
out 3. from 1 and 2 on mona.a: [root chosen]
out So no selection exists.
out roots 2: resolved 1, refuted 1, refused 0, faulty 0, differing 0, cancelled 0, memory 0
has app/Package.resolved "version" : "1.1.0"
absent bad/Package.resolved
absent bad/Package.proof

case the derivation of the second alone
file s.json $shelf
file app/Package.json $app
file bad/Package.json $bad
run resolve --shelf s.json --proofs app bad
status 1
out app: resolved 1 in 10 turns
out bad: no selection in 3 turns
out 1. root needs mona.a exactly 1.0.0: [root chosen, mona.a none|2.0.0]
out 2. root needs mona.a exactly 2.0.0: [root chosen, mona.a none..1.0.0]
out 3. from 1 and 2 on mona.a: [root chosen]
out So no selection exists.
out roots 2: resolved 1, refuted 1, refused 0, faulty 0, differing 0, cancelled 0, memory 0
absent app/Package.proof
has bad/Package.proof "resolve":[1,2]

case the fingerprints of those alone that are resolved, all in one file
file s.json $shelf
file app/Package.json $app
file wrong/Package.json $differing_root
file other/Package.json $other
run $go app wrong other
status 5
out app: resolved 1 in 10 turns
out wrong: mona.wrong 1.0.0: checksum $empty, found $abc
out other: resolved 1 in 10 turns
out roots 3: resolved 2, refuted 0, refused 0, faulty 0, differing 1, cancelled 0, memory 0
= {"fingerprints":{"mona.linkedlist":{"1.1.0":"$abc"},"mona.other":{"1.0.0":"$abc"}},"version":1}
is f.json
absent wrong/Package.resolved
has other/Package.resolved mona.other

case all roots are met beside the file as it was
file s.json $shelf
file app/Package.json $app
file again/Package.json $app
run $go app again
status 0
out app: resolved 1 in 10 turns
out again: resolved 1 in 10 turns
out roots 2: resolved 2, refuted 0, refused 0, faulty 0, differing 0, cancelled 0, memory 0
= {"fingerprints":{"mona.linkedlist":{"1.1.0":"$abc"}},"version":1}
is f.json

case a failed put spoils its own root alone
desk 6
file s.json $shelf
file app/Package.json $app
file other/Package.json $other
run resolve --shelf s.json app other
status 4
out app: app/Package.resolved: file fault
out other: resolved 1 in 10 turns
out roots 2: resolved 1, refuted 0, refused 0, faulty 1, differing 0, cancelled 0, memory 0
has other/Package.resolved mona.other
faults 1

case a root that was resolved gives its fingerprint though its put failed
desk 8
file s.json $shelf
file app/Package.json $app
file other/Package.json $other
run $go app other
status 4
out app: app/Package.resolved: file fault
out other: resolved 1 in 10 turns
out roots 2: resolved 1, refuted 0, refused 0, faulty 1, differing 0, cancelled 0, memory 0
= {"fingerprints":{"mona.linkedlist":{"1.1.0":"$abc"},"mona.other":{"1.0.0":"$abc"}},"version":1}
is f.json
faults 1

case a failed get spoils its own root alone
desk 2
file s.json $shelf
file app/Package.json $app
file other/Package.json $other
run resolve --shelf s.json app other
status 4
out app: app/Package.json: file fault
out other: resolved 1 in 10 turns
out roots 2: resolved 1, refuted 0, refused 0, faulty 1, differing 0, cancelled 0, memory 0
absent app/Package.resolved
faults 1

case the gravest status, and all kinds in the last line
desk 6
file s.json $shelf
file app/Package.json $app
file bad/Package.json $bad
file wrong/Package.json $differing_root
file none/Package.json {
run resolve --shelf s.json app bad wrong none gone
status 4
out app: resolved 1 in 10 turns
out bad: no selection in 3 turns
out 1. root needs mona.a exactly 1.0.0: [root chosen, mona.a none|2.0.0]
out 2. root needs mona.a exactly 2.0.0: [root chosen, mona.a none..1.0.0]
out 3. from 1 and 2 on mona.a: [root chosen]
out So no selection exists.
out wrong: wrong/Package.json: file fault
out none: Package.json is unreadable at /: not JSON
out gone: Package.json is missing
out roots 5: resolved 1, refuted 1, refused 2, faulty 1, differing 0, cancelled 0, memory 0
faults 1

case a sum that differs is graver than a refusal, and that than no selection
file s.json $shelf
file bad/Package.json $bad
file wrong/Package.json $differing_root
run resolve --shelf s.json wrong gone bad
status 5
out wrong: mona.wrong 1.0.0: checksum $empty, found $abc
out gone: Package.json is missing
out bad: no selection in 3 turns
out 1. root needs mona.a exactly 1.0.0: [root chosen, mona.a none|2.0.0]
out 2. root needs mona.a exactly 2.0.0: [root chosen, mona.a none..1.0.0]
out 3. from 1 and 2 on mona.a: [root chosen]
out So no selection exists.
out roots 3: resolved 0, refuted 1, refused 1, faulty 0, differing 1, cancelled 0, memory 0
run resolve --shelf s.json bad gone
status 3
out bad: no selection in 3 turns
out 1. root needs mona.a exactly 1.0.0: [root chosen, mona.a none|2.0.0]
out 2. root needs mona.a exactly 2.0.0: [root chosen, mona.a none..1.0.0]
out 3. from 1 and 2 on mona.a: [root chosen]
out So no selection exists.
out gone: Package.json is missing
out roots 2: resolved 0, refuted 1, refused 1, faulty 0, differing 0, cancelled 0, memory 0

case one folder in two spellings is two roots
file s.json $shelf
file app/Package.json $app
file ./app/Package.json $app
run resolve --shelf s.json app ./app
status 0
out app: resolved 1 in 10 turns
out ./app: resolved 1 in 10 turns
out roots 2: resolved 2, refuted 0, refused 0, faulty 0, differing 0, cancelled 0, memory 0
has ./app/Package.resolved mona.linkedlist

case sixty-four roots, and sixty-five
file s.json $shelf
run resolve --shelf s.json r0 r1 r2 r3 r4 r5 r6 r7 r8 r9 r10 r11 r12 r13 r14 r15 r16 r17 r18 r19 r20 r21 r22 r23 r24 r25 r26 r27 r28 r29 r30 r31 r32 r33 r34 r35 r36 r37 r38 r39 r40 r41 r42 r43 r44 r45 r46 r47 r48 r49 r50 r51 r52 r53 r54 r55 r56 r57 r58 r59 r60 r61 r62 r63
status 3
out r0: Package.json is missing
out r1: Package.json is missing
out r2: Package.json is missing
out r3: Package.json is missing
out r4: Package.json is missing
out r5: Package.json is missing
out r6: Package.json is missing
out r7: Package.json is missing
out r8: Package.json is missing
out r9: Package.json is missing
out r10: Package.json is missing
out r11: Package.json is missing
out r12: Package.json is missing
out r13: Package.json is missing
out r14: Package.json is missing
out r15: Package.json is missing
out r16: Package.json is missing
out r17: Package.json is missing
out r18: Package.json is missing
out r19: Package.json is missing
out r20: Package.json is missing
out r21: Package.json is missing
out r22: Package.json is missing
out r23: Package.json is missing
out r24: Package.json is missing
out r25: Package.json is missing
out r26: Package.json is missing
out r27: Package.json is missing
out r28: Package.json is missing
out r29: Package.json is missing
out r30: Package.json is missing
out r31: Package.json is missing
out r32: Package.json is missing
out r33: Package.json is missing
out r34: Package.json is missing
out r35: Package.json is missing
out r36: Package.json is missing
out r37: Package.json is missing
out r38: Package.json is missing
out r39: Package.json is missing
out r40: Package.json is missing
out r41: Package.json is missing
out r42: Package.json is missing
out r43: Package.json is missing
out r44: Package.json is missing
out r45: Package.json is missing
out r46: Package.json is missing
out r47: Package.json is missing
out r48: Package.json is missing
out r49: Package.json is missing
out r50: Package.json is missing
out r51: Package.json is missing
out r52: Package.json is missing
out r53: Package.json is missing
out r54: Package.json is missing
out r55: Package.json is missing
out r56: Package.json is missing
out r57: Package.json is missing
out r58: Package.json is missing
out r59: Package.json is missing
out r60: Package.json is missing
out r61: Package.json is missing
out r62: Package.json is missing
out r63: Package.json is missing
out roots 64: resolved 0, refuted 0, refused 64, faulty 0, differing 0, cancelled 0, memory 0
run resolve --shelf s.json r0 r1 r2 r3 r4 r5 r6 r7 r8 r9 r10 r11 r12 r13 r14 r15 r16 r17 r18 r19 r20 r21 r22 r23 r24 r25 r26 r27 r28 r29 r30 r31 r32 r33 r34 r35 r36 r37 r38 r39 r40 r41 r42 r43 r44 r45 r46 r47 r48 r49 r50 r51 r52 r53 r54 r55 r56 r57 r58 r59 r60 r61 r62 r63 r64
status 2
out words: not built yet

case words of no form
desk 1
file s.json $shelf
file app/Package.json $app
run resolve --shelf s.json app other app
status 2
out words: not built yet
run resolve --shelf s.json app '' other
status 2
out words: not built yet
run resolve --shelf s.json app -other
status 2
out words: not built yet
run resolve --shelf s.json --fingerprints app
status 2
out words: not built yet
run resolve --shelf s.json --fingerprints '' app
status 2
out words: not built yet
run resolve --shelf s.json --fingerprints -f app
status 2
out words: not built yet
run resolve --shelf s.json --fingerprints s.json app
status 2
out words: not built yet
run resolve --shelf s.json --fingerprints app/Package.json other app
status 2
out words: not built yet
run resolve --shelf s.json --fingerprints app/Package.resolved app
status 2
out words: not built yet
run resolve --shelf s.json --fingerprints app/Package.proof app
status 2
out words: not built yet
run resolve --shelf s.json --tools-version 6 --fingerprints f.json app
status 2
out words: not built yet
run resolve --shelf s.json --proofs --enable-all-traits app
status 2
out words: not built yet
run resolve --shelf s.json --proofs
status 2
out words: not built yet
run fingerprints
status 2
out words: not built yet
run fingerprints ''
status 2
out words: not built yet
run fingerprints -f
status 2
out words: not built yet
run fingerprints f.json g.json
status 2
out words: not built yet
faults 0
"##;
