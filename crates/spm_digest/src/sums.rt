ghost use Rattle.std.specs.Prelude.{◌≡◌, ℕ, List, [], ◌++◌};
ghost use Rattle.spm_digest.specs.Digest.{sha256};
ghost use Rattle.spm_digest.specs.Summer.{Holds};

use sha2::{Digest, Sha256};

/// The SHA-256 of the bytes (FIPS 180-4). It takes no memory.
pub fn sum(bytes: &[u8]) -> [u8; 32]
    ensures { result ≡ sha256 bytes.now }
{
    Sha256::digest(bytes)
}

/// The SHA-256 of pieces that come one after another. It takes no memory.
#[derive(Debug, Drop)]
pub struct Summer {
    hasher: Sha256,
}

impl Summer {
    /// A summer that was fed nothing yet.
    pub fn new() -> Summer
        ensures { Holds result [] }
    {
        Summer {
            hasher: Sha256::new(),
        }
    }

    /// Feeds the next piece.
    pub fn update(&mut self, piece: &[u8])
        ensures { (message : List ℕ) → Holds self.old message → Holds self.new (message ++ piece.now) }
    {
        self.hasher.update(piece);
    }

    /// The SHA-256 of the pieces joined.
    pub fn finish(self) -> [u8; 32]
        ensures { (message : List ℕ) → Holds self message → result ≡ sha256 message }
    {
        self.hasher.finalize()
    }
}

impl Default for Summer {
    ghost is_default = { λ summer. Holds summer [] };

    fn default() -> Summer {
        Summer::new()
    }
}
