// How much of a message is looked at.
ghost use Rattle.std.specs.Prelude.{◌≡◌, take};

/// How many bytes the head of a message may have.
pub const MAX_HEAD: usize = 65536;

// How many fields a head may have.
pub const MAX_FIELDS: usize = 64;

// So many bytes at the front, or all of them where there are fewer.
pub fn front_of(bytes: &[u8], most: usize) -> &[u8]
    ensures { result.now ≡ take most bytes.now }
{
    if bytes.len() > most {
        &bytes[..most]
    } else {
        bytes
    }
}
