ghost use Rattle.std.specs.Prelude.{◌≡◌, IfOk};

use spm_version::{Bytes, NoMemory};
use std::alloc::Global;

/// What a registry answers to a key.
#[derive(Debug, Drop)]
pub struct Reply {
    /// The status of the response (RFC 9110); 0 where the response could not be read.
    pub status: u16,
    /// Its body.
    pub body: Body,
}

/// The body of a reply.
#[derive(Debug, Drop)]
pub enum Body {
    /// All its bytes.
    Whole(Bytes),
    /// Of an archive, the SHA-256 of its bytes, and how many they are.
    Sum { sum: [u8; 32], length: u64 },
    /// The response could not be read.
    Garbled,
    /// The response is longer than is allowed.
    TooLong,
}

impl Body {
    /// A copy of the body.
    ///
    /// # Errors
    ///
    /// `NoMemory` alone.
    pub fn copy(&self, alloc: Global) -> Result<Body, NoMemory>
        ensures { IfOk result (λ body. body ≡ self.now) }
    {
        match self {
            Body::Whole(bytes) => Ok(Body::Whole(bytes.copy(alloc)?)),
            Body::Sum { sum, length } => Ok(Body::Sum {
                sum: *sum,
                length: *length,
            }),
            Body::Garbled => Ok(Body::Garbled),
            Body::TooLong => Ok(Body::TooLong),
        }
    }
}

impl Reply {
    /// A copy of the reply.
    ///
    /// # Errors
    ///
    /// `NoMemory` alone.
    pub fn copy(&self, alloc: Global) -> Result<Reply, NoMemory>
        ensures { IfOk result (λ reply. reply ≡ self.now) }
    {
        let body = self.body.copy(alloc)?;
        Ok(Reply {
            status: self.status,
            body,
        })
    }
}
