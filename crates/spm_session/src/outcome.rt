ghost use Rattle.std.specs.Prelude.{◌≡◌};
ghost use Rattle.spm_session.specs.declared.outcome.Outcome.TheVariants.{Memory};

use pub_proof::Derivation;
use pub_trail::Wide;
use spm_ident::Identity;
use spm_key::Key;
use spm_version::{Items, Kind, NoMemory, Release, Text, ToolsVersion};

/// What the resolution of a root comes to.
#[derive(Debug, Drop)]
pub enum Outcome {
    /// The first valid selection, in the order of identities, the SHA-256 of the archive of each pin, and the number of turns.
    Resolved {
        pins: Items<(Identity, Release)>,
        checksums: Items<[u8; 32]>,
        turns: u64,
    },
    /// No selection exists: a derivation that says so, the texts of its nodes' choices, and the number of turns.
    Refuted {
        derivation: Derivation,
        choices: Items<Items<Text>>,
        turns: u64,
    },
    /// There is no `Package.json`.
    RootMissing,
    /// `Package.json` is no manifest: the place and the kind of its first fault.
    RootUnreadable(Text, Kind),
    /// `Package.json` needs the first version of the tools, and the second is running.
    RootTooNew(ToolsVersion, ToolsVersion),
    /// `Package.resolved` is no lock file of version 3: the place and the kind of its first fault.
    ResolvedUnreadable(Text, Kind),
    /// A limit is passed.
    TooWide(Wide),
    /// The registry answers this key with another status than 200, 404 and 410, maybe with the detail of a problem (RFC 7807).
    RegistrySays(Key, u16, Option<Text>),
    /// The response to the request for this key couldn't be read.
    Garbled(Key),
    /// The response to the request for this key is longer than is allowed.
    TooLong(Key),
    /// The list or look-up of this key isn't of its form.
    ListUnreadable(Key),
    /// The release of this key isn't of its form.
    ReleaseUnreadable(Key),
    /// There is no archive of this release, or its release names no checksum of one.
    NoArchive(Identity, Release),
    /// The checksum that is named of this release's archive, and the SHA-256 of the archive, which is another.
    ChecksumDiffers(Identity, Release, [u8; 32], [u8; 32]),
    /// The fingerprint that is kept of this release, and the checksum that is named of its archive, which is another.
    TrustDiffers(Identity, Release, [u8; 32], [u8; 32]),
    /// The link failed at this key.
    FetchFault(Key),
    /// The session with this number gave up, and told the others.
    Cancelled(u32),
    /// The get or put of this file failed.
    DeskFault(Text),
    /// Want of memory.
    Memory,
}

impl From<NoMemory> for Outcome {
    ghost from_gives = { λ _ it. it ≡ Memory };

    fn from(_e: NoMemory) -> Outcome {
        Outcome::Memory
    }
}
