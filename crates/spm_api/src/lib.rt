//! The endpoints of a package registry: where they are, how a key is asked for, and what its replies say.
//!
//! A [`Base`] is where a registry is. [`request_of`] gives the bytes of the request for a key and [`reply_of`] the reply that a response
//! is (`specs/Endpoint.antt`); [`fetch`] does both in one exchange over any link. Its clause `reply` is what the layers above use: where
//! the link tells its book, the reply is that of the book's response to the request. Its clause `catalogue` keeps that of all replies
//! together: a catalogue that comes from a book still does with the reply (`specs/Refused.antt`, which also says which replies a
//! resolution can't use). [`a_response_is_one_reply`] and [`every_response_is_a_reply`] make such a catalogue one that the book
//! determines; [`different_keys_have_different_requests`], so the requests that a link was opened with tell which keys were asked;
//! [`a_lookup_is_one_identity`] and [`a_reply_makes_one_guess`] say the like of what is read and of what is guessed.
//!
//! [`read_list`], [`read_release`], [`read_identifiers`] and [`read_problem`] read the bodies of replies, as far as a resolution needs
//! them; [`identity_of`] and [`release_of`] read the texts in them. `specs/Bodies.antt` says what a body is read as, by the readings of `spm_json`; `specs/Reads.antt` says what each reader
//! answers. [`said`] says what the reply of a key says to a resolution, or why it is refused (`specs/Said.antt`); a catalogue is read
//! through that definition alone, and says something of a key exactly where it answers it ([`a_catalogue_says_what_it_answers`]).
//!
//! [`guess_root`] and [`guess`] give the keys that a resolution will likely ask for next, from a manifest or a list that is there
//! already (`specs/Guess.antt`).
//!
//! How the proof goes: the readers are those of `spm_json`, which mostly need no proof; their loops keep that what is left goes on
//! behind what was read. Each release of a list stands under its text, and an object has each key once, so the releases are distinct
//! and ascend strictly when they are sorted (`proofs/DistinctLemmas.antt`); the last of them that is no pre-release is the greatest
//! of the usable ones (`proofs/NewestLemmas.antt`). The least identity is found in one pass (`proofs/LeastLemmas.antt`).
//! A list that ascends strictly is the ascending list of its releases ([`a_sorted_list_is_ascending`], `proofs/AscendingLemmas.antt`),
//! and the least identity the one that the definition finds ([`the_least_identity_is_found`]), so what is read is what is said. Of a
//! response no more is read than twice the limit and 65,537 bytes, and a longer one is told as too long by those alone
//! (`proofs/FetchLemmas.antt`). Keys that their order doesn't tell apart are the same, so that a catalogue changes at one key
//! (`proofs/CatalogueLemmas.antt`). The slashes at the end of a path are dropped one by one (`proofs/SlashLemmas.antt`).
#![tactic(auto)]

mod base;
mod bodies;
mod endpoint;
mod guesses;
mod laws;
mod replies;
mod saying;
mod shared;
mod texts;

pub use base::{Base, BaseFault};
pub use bodies::{BodyFault, read_identifiers, read_list, read_problem, read_release};
pub use endpoint::{fetch, reply_of, request_of};
pub use guesses::{guess, guess_root, is_looked_up};
pub use laws::{
    a_catalogue_says_what_it_answers, a_lookup_is_one_identity, a_reply_makes_one_guess,
    a_response_is_one_reply, a_sorted_list_is_ascending, different_keys_have_different_requests,
    every_response_is_a_reply, the_least_identity_is_found,
};
pub use replies::{ReplyFault, Said};
pub use saying::said;
pub use texts::{identity_of, release_of};
