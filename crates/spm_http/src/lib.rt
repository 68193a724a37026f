//! Messages of HTTP/1.1, as a client and a server of a package registry write and read them.
//!
//! [`request`] and [`response`] give the bytes of `request_text` and `response_text` (`specs/Writing.antt`). [`read_request`] reads the
//! head of a request: `ReadsHead` of `specs/Request.antt` says which answer comes, over `httparse`'s grammar of heads.
//! [`read_response`] reads a response, with a limit on its body: `Hears` of `specs/Response.antt` says what it answers, over the same
//! grammar and that of the lines before chunks. Both leave one answer, as [`a_request_is_one_head`] and
//! [`a_response_is_heard_one_way`] say, and a response is always heard as something ([`every_response_is_heard`]: whether a head stands
//! in the bytes can be told, since each piece of the grammar is there or isn't, `proofs/Told.antt`).
//!
//! The proof of the writing is that of its `format!` and, for a response, that the lines and then the body are the whole, and that
//! a number that is no status has no phrase (`proofs/Phrases.antt`).
//!
//! The proof of reading a request: `httparse` tells whether the first 65,536 bytes have a head of at most 64 fields, and where its parts
//! are (`proofs/Found.antt`); what holds of them holds of all the bytes, since a head of the grammar begins a text in one way only
//! (`proofs/Fronts.antt`). That leaves bytes that are no head yet, of which `httparse` tells only that some bytes make them one,
//! with any number of fields. Whether 64 fields are enough is told by two trials: the bytes are parsed again with two line feeds
//! behind them, and with a colon and two line feeds.
//!
//! - Where neither trial has more than 64 fields, a head of few fields may come (`unfinished_is` in `proofs/Heads.antt`). For bytes
//!   that end before the fields, it is the head without fields. Else one of the trials ends the field that has begun, or the
//!   head itself (`finish` in `proofs/Finish.antt`, by cases on where the bytes end in their completion), and so that trial has a
//!   head at its front, whose fields are all there are.
//! - Where a trial has more, 64 whole fields and the first byte of another name stand in the bytes, since the trial's own bytes
//!   begin no name. Each head that begins so has more than 64 fields (`full` in `proofs/Full.antt`).
//!
//! `proofs/Meet.antt` has the one lemma on lists under these: two ways to cut a text.
//!
//! The proof of reading a response:
//!
//! - A head that has room in the first 65,536 bytes is a head of those bytes and the other way round (`proofs/ResponseHeads.antt`), so
//!   `httparse` is given these alone, and what it can't read has no head.
//! - What is heard depends on the names and the values of the fields alone. `specs/Named.antt` says it of pairs, which is what
//!   the parser's spans cover; the code goes through the spans, and no field is copied.
//! - `httparse`'s grammar of size lines and the one of `specs/Chunked.antt`, which cuts a line off from its front, agree
//!   (`proofs/SizeLines.antt`). The loop over the chunks has as its invariant that what is left, behind the body so far, is
//!   heard as all the bytes are (`proofs/Chunks.antt`); each step takes some of the bytes, so the steps of the definition last.
#![tactic(auto)]

mod chunked;
mod laws;
mod limits;
mod named;
mod request_head;
mod response_head;
mod writing;

pub use laws::{a_request_is_one_head, a_response_is_heard_one_way, every_response_is_heard};
pub use limits::MAX_HEAD;
pub use request_head::{HttpFault, RequestHead, read_request};
pub use response_head::{Heard, read_response};
pub use writing::{request, response};
