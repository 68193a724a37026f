ghost use Rattle.std.specs.Prelude.{◌≡◌, ℕ, List, length, Some, IfOk};
ghost use Rattle.spm_digest.specs.Digest.{IsBytes, encode_lower, sum_of};

use hex::FromHex;
use spm_version::{NoMemory, Text};
use std::alloc::Global;

/// The sum in hexadecimal, in lower case.
///
/// # Errors
///
/// `NoMemory` alone.
pub fn hex_of(alloc: Global, sum: &[u8; 32]) -> Result<Text, NoMemory>
    ensures { IfOk result (λ t. t ≡ encode_lower sum.now) }
{
    let string = hex::encode(alloc, sum.as_slice())?;
    Ok(Text::from_string(string))
}

/// The bytes that 64 hexadecimal digits of either case write. It takes no memory.
pub fn read_hex(text: &str) -> Option<[u8; 32]>
    ensures { result ≡ sum_of text.now }
{
    <[u8; 32] as FromHex>::from_hex(text).ok()
}

/// A law, with nothing to run: what `hex_of` writes of 32 bytes, `read_hex` reads as these bytes.
pub fn hex_reads_back()
    ensures { (sum : List ℕ) → length sum ≡ 32 → IsBytes sum → sum_of (encode_lower sum) ≡ Some sum }
{}
