ghost use Rattle.std.specs.Prelude.{◌≡◌};
ghost use Rattle.spm_api.specs.declared.replies.ReplyFault.TheVariants.{Memory};

use spm_ident::Identity;
use spm_manifest::Manifest;
use spm_version::{Items, Kind, Release, Text};
use std::alloc::AllocError;
use std::error::Error;
use std::fmt;

/// What the reply of a key says to a resolution.
#[derive(Debug, Drop)]
pub enum Said {
    /// Of a list: its usable releases, ascending, at most 4,096; none where there is no list (404 or 410).
    Releases(Items<Release>),
    /// Of a list: more than 4,096 releases are usable.
    TooMany,
    /// Of a look-up: the package of the URL, where the registry knows one.
    Package(Option<Identity>),
    /// Of a manifest: what it says.
    Manifest(Manifest),
    /// Of a manifest that can't be read: the place and the kind of its first fault.
    FaultyManifest(Text, Kind),
    /// There is no manifest (404 or 410).
    NoManifest,
    /// Of a release and of an archive, which a solver doesn't read.
    Nothing,
}

/// Why the reply of a key is refused.
#[derive(Debug, Drop)]
pub enum ReplyFault {
    /// The response couldn't be read.
    Garbled,
    /// The response is longer than is allowed.
    TooLong,
    /// A list or a look-up isn't of its form.
    Unreadable,
    /// The registry says another status than 200, 404 and 410, maybe with the detail of a problem (RFC 7807).
    Says(u16, Option<Text>),
    /// Want of memory.
    Memory,
}

impl fmt::Display for ReplyFault {
    fn fmt<W: fmt::Write>(&self, f: &mut fmt::Formatter<W>) -> fmt::Result {
        match self {
            ReplyFault::Garbled => f.write_str("garbled response"),
            ReplyFault::TooLong => f.write_str("response too long"),
            ReplyFault::Unreadable => f.write_str("unreadable body"),
            ReplyFault::Says(status, _) => write!(f, "the registry says {status}"),
            ReplyFault::Memory => f.write_str("no memory"),
        }
    }
}

impl Error for ReplyFault {}

impl From<AllocError> for ReplyFault {
    ghost from_gives = { λ _ e. e ≡ Memory };

    fn from(_e: AllocError) -> ReplyFault {
        ReplyFault::Memory
    }
}
