use crate::stage::{book, play};
use spm_outside::{Gate, OpenGate};

// Plays each of the scripts.
#[test]
fn objects_in_memory_answer_as_they_should(rt: HostRuntime) {
    let alloc = rt.alloc();
    let book = book(alloc).expect(&rt, "memory");
    assert_eq!(rt; play(alloc, &book, DESKS_AND_SINKS), Ok(None));
    assert_eq!(rt; play(alloc, &book, LINKS), Ok(None));
    assert_eq!(rt; play(alloc, &book, PEERS_AND_DOORS), Ok(None));
    assert_eq!(rt; book.entries().len(), 4);
    assert_eq!(rt; book.other(), b"not found".as_slice());
}

#[test]
fn an_open_gate_lets_everybody_pass() {
    OpenGate.before(1, "mona.linkedlist");
    OpenGate.after(1, "mona.linkedlist");
}

// Gets and puts are numbered together, and a set has no number. A sink takes a piece whole, and the slow one a byte a put.
const DESKS_AND_SINKS: &str = "desk 2 4
set a set | done
get a | set
put a lost | the call failed
get a | set
get b | the call failed
get b | no file
put b new | done
get b | new
put a over the old | done
get a | over the old
put c  | done
get c | \nfile a | over the old
file d | no file
desk_faults | 2 a b
sink 1 5
write lost | the call failed
write ab | 2
write  | 0
write cde | 3
write lost | the call failed
write f | 1
write_all gh | done
written | abcdefgh
sink_faults | 2
slow 1
write_slowly bytes | the call failed
slowly_written | \nslow 3
write_slowly bytes | the call failed
slowly_written | by
slow 5
write_slowly bytes | the call failed
slowly_written | byte
slow 6
write_slowly bytes | done
slowly_written | bytes
";

// A book's first entry with the port and the request answers. Opens and reads are numbered together; a failed open leaves nothing to
// read, and a failed read all. An exchange reads up to its limit, and opens the link once.
const LINKS: &str = "link
open 80 GET /a | done
rest 1 | first
open 80 GET /a | done
rest 2 | first
open 80 GET /a | done
rest 7 | first
open 81 GET /a | done
rest 2 | second
open 82 GET /a | done
rest 1 | not found
open 80 GET /b | done
rest 7 | not found
open 80 GET / | done
rest 2 | not found
calls | 7, 80 false
link_faults | 0
link 1 4 7
open 80 GET /a | the call failed
calls | 1, 80 true
read | 0
open 80 GET /a | done
calls | 2, 80 false
open 81 GET /a | the call failed
calls | 3, 81 true
read | 0
open 82 GET /a | done
read | the call failed
calls | 4, 82 true
read | 2
calls | 4, 82 true
open 80 GET /a | done
calls | 5, 80 false
link_faults | 3
link 9
ask 20000 long | 10000
calls | 1, 80 false
link 9
ask 10000 long | 10000
link 9
ask 9999 long | 9999
link 9
ask 4096 long | 4096
link 9
ask 1 long | 1
link 9
ask 0 long | 0
calls | 1, 80 false
link 9
ask 18446744073709551615 long | 10000
link 9
ask 100 no | 9
link 1
ask 20000 long | the call failed
calls | 1, 80 true
link 2
ask 20000 long | the call failed
calls | 1, 80 true
link 4
ask 20000 long | the call failed
link 6
ask 20000 long | 10000
link 3
ask 4096 long | 4096
";

// Reads and puts are numbered together; binds and calls of `next` too. A door hands over its peers in order.
const PEERS_AND_DOORS: &str = "peer 2 6
take3 | 3
take3 | the call failed
take4 | 4
take4 | 1
take4 | 0
answer lost | the call failed
answer an | 2
answer swer | 4
answered | answer
peer_faults | 2
door 3
add | done
add | done
bind | done
serve one | done
serve lost | the call failed
serve two | done
serve none is left | the call failed
served | one.two.
door 1
bind | the call failed
bind | done
";
