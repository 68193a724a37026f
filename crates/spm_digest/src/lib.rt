//! Sums: SHA-256 (FIPS 180-4) of bytes, and a sum in hexadecimal.
//!
//! - `sum` is the sum of bytes that lie in memory, and `Summer` that of pieces that come one after another.
//! - `hex_of` writes a sum in lower case, and `read_hex` reads 64 digits of either case.
//!
//! The contract that the layers above use: `sum(bytes)` is `sha256 bytes`, a `Summer` that was fed some pieces
//! finishes with the sum of the pieces joined, and `read_hex(text)` is `sum_of text`. No sum takes memory, and
//! reading takes none. `hex_reads_back` says that what `hex_of` writes of 32 bytes is read as these bytes.
//!
//! How the proof goes: the hash itself is the crate `sha2`, and the digits are the crate `hex`, both proved there.
//! What a `Summer` holds is what `sha2` says of its hasher. `proofs/SumLemmas.antt` shows that a text decodes into
//! 32 bytes exactly where it is 64 digits, by the laws of `hex` on which texts decode and on the round trip.
#![tactic(auto)]

mod hexadecimal;
mod sums;

pub use crate::hexadecimal::{hex_of, hex_reads_back, read_hex};
pub use crate::sums::{Summer, sum};
