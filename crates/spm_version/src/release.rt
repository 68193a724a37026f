ghost use Rattle.std.specs.Str.{bytes_eq};
ghost use Rattle.std.specs.Prelude.{◌≡◌, ℕ, List, length, Ok, Some, None, IfOk, IsOk, IsErrOf, ◌↔◌, refl, if◌then◌else◌};
ghost use Rattle.std.specs.Cmp.{partial_equiv_from_equiv};
ghost use Rattle.semver.specs.Parse.{is_memory};
ghost use Rattle.spm_version.specs.Release.{
  IsValid,
  Parts,
  Spells,
  ends_in_zip,
  is_prerelease,
  parts_text,
  precedence,
  release_of,
};
ghost use Rattle.spm_version.specs.ReleaseLaws.{release_cmp, release_eq, release_equiv, release_po, release_ties, release_total};
ghost use Rattle.spm_version.specs.declared.release.VersionFault.TheVariants.{Memory};

use crate::NoMemory;
use crate::items::Duplicate;
use crate::text::Text;
use semver::Version;
use std::alloc::{AllocError, AllocFailed, Global};
use std::cmp::Ordering;
use std::error::Error;
use std::fmt;
use std::marker::Model;

/// Why a text gave no release.
#[derive(Clone, Copy, Debug, PartialEq, Eq)]
pub enum VersionFault {
    /// The text is no version of SemVer 2.0 with numbers of 64 bits.
    BadVersion,
    /// There was no memory.
    Memory,
}

impl fmt::Display for VersionFault {
    fn fmt<W: fmt::Write>(&self, f: &mut fmt::Formatter<W>) -> fmt::Result {
        f.write_str(match self {
            VersionFault::BadVersion => "bad version",
            VersionFault::Memory => "no memory",
        })
    }
}

impl Error for VersionFault {}

impl From<AllocError> for VersionFault {
    ghost from_gives = { λ _ fault. fault ≡ Memory };

    fn from(_e: AllocError) -> VersionFault {
        VersionFault::Memory
    }
}

impl<T: Drop> From<AllocFailed<T>> for VersionFault {
    ghost from_gives = { λ _ fault. fault ≡ Memory };

    fn from(_e: AllocFailed<T>) -> VersionFault {
        VersionFault::Memory
    }
}

// What an error of `semver` means here: its kind is private there, but it can be compared.
fn fault_of(e: semver::Error) -> VersionFault
    ensures { result ≡ (if is_memory e.kind then VersionFault.Memory else VersionFault.BadVersion) }
{
    if e == semver::Error::from(AllocError) {
        VersionFault::Memory
    } else {
        VersionFault::BadVersion
    }
}

/// A release: a version of SemVer 2.0 with numbers of 64 bits. Contracts see its five parts, which are
/// the three numbers and the texts of the pre-release and of the build metadata.
#[derive(Debug, Drop)]
pub struct Release {
    version: Version,
}

impl Model for Release {
    ghost use Rattle.semver.specs.Grammar.{IsValid};
    ghost use Rattle.semver.specs.Identifiers.{parts_of};
    ghost use Rattle.semver.specs.Parse.{Parts};

    ghost Value = { Parts };

    ghost view = { λ r. parts_of r.version };

    ghost invariant = { λ r. IsValid (parts_of r.version) };
}

impl Release {
    /// The release that a text is (SemVer 2.0, section 9 and the BNF).
    ///
    /// # Errors
    ///
    /// `BadVersion` where the text is none, and `Memory`.
    pub fn parse(alloc: Global, text: &str) -> Result<Release, VersionFault>
        ensures ok { IfOk result (λ release. release_of text.now ≡ Some release) }
        ensures bad { IsErrOf result VersionFault.BadVersion ↔ (release_of text.now ≡ None) }

        // A version without pre-release and build metadata takes no memory.
        ensures plain { (parts : Parts) → release_of text.now ≡ Some parts
            → length parts.3 ≡ 0 → length parts.4 ≡ 0 → IsOk result }
    {
        match Version::parse(alloc, text) {
            Ok(version) => Ok(Release { version }),
            Err(e) => Err(fault_of(e)),
        }
    }

    /// The release as it is spelled. No other release is spelled so.
    ///
    /// # Errors
    ///
    /// `NoMemory` alone.
    pub fn text(&self, alloc: Global) -> Result<Text, NoMemory>
        ensures { IfOk result (λ t. t ≡ parts_text self.now) }
    {
        let string = self.version.to_string(alloc)?;
        Ok(Text::from_string(string))
    }

    /// Whether its text ends in `.zip`, as the path of an archive does.
    ///
    /// # Errors
    ///
    /// `NoMemory` alone.
    pub fn ends_in_zip(&self, alloc: Global) -> Result<bool, NoMemory>
        ensures { IfOk result (λ ends. ends ≡ ends_in_zip (parts_text self.now)) }
    {
        let text = self.text(alloc)?;
        Ok(ends_in_zip(text.as_str()))
    }

    /// A law, with nothing to run: each release has parts of the grammar of SemVer 2.0.
    pub fn is_valid(&self)
        ensures { IsValid self.now }
    {
        let _ = &self.version;
    }

    /// Whether it has a pre-release (section 9).
    pub fn is_prerelease(&self) -> bool
        ensures { result ≡ is_prerelease self.now }
    {
        !self.version.pre.is_empty()
    }

    /// The order of precedence (section 11). Build metadata has no part in it.
    pub fn cmp_precedence(&self, other: &Release) -> Ordering
        ensures { result ≡ precedence self.now other.now }
    {
        self.version.cmp_precedence(&other.version)
    }

    /// Whether the two are spelled alike, build metadata included.
    pub fn has_text(&self, other: &Release) -> bool
        ensures { result ≡ bytes_eq (parts_text self.now) (parts_text other.now) }
    {
        self.version == other.version
    }

    // Major, minor and patch.
    pub(crate) fn numbers(&self) -> (u64, u64, u64)
        ensures { result ≡ (self.now.0, self.now.1, self.now.2) }
    {
        (self.version.major, self.version.minor, self.version.patch)
    }

    /// A copy of the release.
    ///
    /// # Errors
    ///
    /// `NoMemory` alone.
    pub fn copy(&self, alloc: Global) -> Result<Release, NoMemory>
        ensures { IfOk result (λ r. r ≡ self.now) }
    {
        let version = self.version.clone()?;
        Ok(Release { version })
    }
}

/// Whether a text ends in `.zip`.
pub fn ends_in_zip(text: &str) -> bool
    ensures { result ≡ ends_in_zip text.now }
{
    text.as_bytes().ends_with(b".zip")
}

/// A law, with nothing to run: what is read as a release is exactly what the grammar of SemVer 2.0 spells.
pub fn release_grammar()
    ensures { (text : List ℕ) (parts : Parts) → (release_of text ≡ Some parts) ↔ Spells text parts }
{}

impl Duplicate for Release {
    fn duplicate(&self, alloc: Global) -> Result<Release, NoMemory> {
        self.copy(alloc)
    }
}

impl fmt::Display for Release {
    ghost output = { λ r. Some (parts_text r) };

    fn fmt<W: fmt::Write>(&self, f: &mut fmt::Formatter<W>) -> fmt::Result {
        fmt::Display::fmt(&self.version, f)
    }
}

impl PartialEq for Release {
    ghost eq = { release_eq };

    ghost laws = { partial_equiv_from_equiv release_equiv };

    fn eq(&self, other: &Release) -> bool {
        self.version == other.version
    }
}

impl Eq for Release {
    ghost laws = { release_equiv };
}

impl PartialOrd for Release {
    ghost partial_cmp = { λ x y. Some (release_cmp x y) };

    ghost laws = { release_po };

    fn partial_cmp(&self, other: &Release) -> Option<Ordering> {
        Some(self.cmp(other))
    }
}

impl Ord for Release {
    ghost cmp = { release_cmp };

    ghost total = { release_total };

    ghost matches_partial_cmp = { λ x y. refl };

    ghost matches_eq = { release_ties };

    fn cmp(&self, other: &Release) -> Ordering {
        self.version.cmp(&other.version)
    }
}
