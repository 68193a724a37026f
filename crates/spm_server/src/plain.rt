ghost use Rattle.std.specs.Prelude.{◌≡◌, IsTrue};
ghost use Rattle.std.specs.List.{list_all};
ghost use Rattle.spm_server.specs.RoundTrip.{IsPlainBase, is_printable};

use spm_api::Base;

/// Whether a base has no prefix, and a host of printable ASCII characters, as [`book`](crate::book) asks.
pub fn is_plain_base(base: &Base) -> bool
    ensures plain { IsTrue result → IsPlainBase base.now }
    ensures every { IsPlainBase base.now → IsTrue result }
{
    // Reading the port shows the proof its range.
    let _port = base.to.port;
    base.prefix.as_str().is_empty() && are_printable(base.to.host.as_str())
}

// Whether each of the bytes is a printable character of ASCII.
fn are_printable(text: &str) -> bool
    ensures { result ≡ list_all is_printable text.now }
{
    text.as_bytes().iter().all(|byte| is_printable(*byte))
}

// Whether a byte is one.
fn is_printable(byte: u8) -> bool
    ensures { result ≡ is_printable byte }
{
    32 <= byte && byte < 127
}
