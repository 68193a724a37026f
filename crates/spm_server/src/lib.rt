//! What a registry server answers, as a function of its shelf and of a request's bytes.
//!
//! - [`answer`] gives the bytes of the answer to a request: `IsAnswerText` of `specs/Answer.antt`, a table by what is read of the
//!   request (`ReadsHead` of `spm_http`), then by its method, by what it accepts, and by the key that its target asks for
//!   (`specs/Target.antt`) and what the shelf has behind that (`specs/Content.antt`). [`serve_connection`] reads a request from a peer
//!   and writes that answer (`specs/Serving.antt`).
//! - [`book`] gives those answers as fixed replies to the requests for the keys at a base, where the base is plain
//!   ([`is_plain_base`]), and 404 to all else (`specs/Pages.antt`).
//! - [`an_answer_comes_back`] is the law of the round trip (`specs/RoundTrip.antt`): the request for a key has an answer, and that
//!   is read, by `reply_of` of `spm_api`, as the shelf's contents where the shelf has the resource, else as 404.
//!   [`a_request_has_one_answer`] says that the table is a function.
//! - [`a_book_says_its_shelf`] says what the book says of a key, once the reply is read: what the shelf says of it, in the shelf's parts
//!   (`specs/Shelved.antt`). It stands on the round trip and on reading back the JSON that is written (`proofs/ReadBack.antt`).
//!
//! How the law goes:
//!
//! - The path of a key asks for that key (`proofs/Paths.antt`): the bytes of identities and versions are no slashes and no question
//!   marks, so a path is cut at its own slashes and is no query, and its parts are read back.
//! - The request for a key is read as the head that it says (`proofs/WrittenRequests.antt`), and a request has one head
//!   (`request_unique` of `httparse`); so it is answered with what the shelf has (`proofs/AnswerLaws.antt`).
//! - A response that was written is heard with its status and its body (`proofs/WrittenResponses.antt`, `ReplyLaws.antt`), and a
//!   response is one reply (`reply_unique` of `spm_api`); so the reply is there (`proofs/RoundTripLaw.antt`).
//!
//! The book: two keys with one request are one key (`different_keys_have_different_requests` of `spm_api`), so the first entry with a key's request is that key's
//! own; and what the shelf has behind a key is in the list of keys (`known` in `proofs/PagesLemmas.antt`).
#![tactic(auto)]

mod answering;
mod content;
mod laws;
mod media;
mod pages;
mod plain;
mod problem;
mod serving;
mod target;

pub use answering::answer;
pub use laws::{a_book_says_its_shelf, a_request_has_one_answer, an_answer_comes_back};
pub use pages::book;
pub use plain::is_plain_base;
pub use serving::{ServeFault, serve_connection};
