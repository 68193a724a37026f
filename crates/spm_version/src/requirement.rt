ghost use Rattle.std.specs.Prelude.{◌≡◌, ◌≤◌, length, IfOk};
ghost use Rattle.spm_version.specs.Requirement.{allows_prerelease, contains, is_between, ranks_of};

use crate::NoMemory;
use crate::items::Duplicate;
use crate::release::Release;
use crate::text::Text;
use std::alloc::Global;

/// What a manifest asks of the releases of a package.
#[derive(Debug, PartialEq, Eq, Drop)]
pub enum Requirement {
    /// One release, by its text.
    Exact(Release),
    /// From the first on, below the second, in the order of precedence (SemVer 2.0, section 11).
    Range(Release, Release),
    /// The head of a branch. No release is in it.
    Branch(Text),
    /// A revision of the repository. No release is in it.
    Revision(Text),
    /// A folder beside the package. No release is in it.
    Path,
}

impl Requirement {
    /// Whether a release is in it. In a range a pre-release counts only where a bound has a pre-release,
    /// and one of the upper bound's own numbers only where the upper bound has one.
    pub fn contains(&self, release: &Release) -> bool
        ensures { result ≡ contains self.now release.now }
    {
        match self {
            Requirement::Exact(exact) => exact.has_text(release),
            Requirement::Range(low, high) => {
                (!release.is_prerelease() || allows_prerelease(low, high, release))
                    && is_between(low, high, release)
            }
            Requirement::Branch(_) | Requirement::Revision(_) | Requirement::Path => false,
        }
    }

    /// A copy of the requirement.
    ///
    /// # Errors
    ///
    /// `NoMemory` alone.
    pub fn copy(&self, alloc: Global) -> Result<Requirement, NoMemory>
        ensures { IfOk result (λ r. r ≡ self.now) }
    {
        match self {
            Requirement::Exact(exact) => Ok(Requirement::Exact(exact.copy(alloc)?)),
            Requirement::Range(low, high) => {
                Ok(Requirement::Range(low.copy(alloc)?, high.copy(alloc)?))
            }
            Requirement::Branch(name) => Ok(Requirement::Branch(name.copy(alloc)?)),
            Requirement::Revision(name) => Ok(Requirement::Revision(name.copy(alloc)?)),
            Requirement::Path => Ok(Requirement::Path),
        }
    }
}

impl Duplicate for Requirement {
    fn duplicate(&self, alloc: Global) -> Result<Requirement, NoMemory> {
        self.copy(alloc)
    }
}

// Whether a pre-release may be in the range, wherever it stands in precedence.
fn allows_prerelease(low: &Release, high: &Release, release: &Release) -> bool
    ensures { result ≡ allows_prerelease low.now high.now release.now }
{
    (low.is_prerelease() || high.is_prerelease())
        && (high.is_prerelease() || release.numbers() != high.numbers())
}

// Whether the release is at least the lower bound and below the upper one.
fn is_between(low: &Release, high: &Release, release: &Release) -> bool
    ensures { result ≡ is_between low.now high.now release.now }
{
    release.cmp_precedence(low).is_ge() && release.cmp_precedence(high).is_lt()
}

/// The places, counted from 1, of the releases of a list that are in the requirement.
///
/// # Errors
///
/// `NoMemory` alone.
pub fn ranks(
    alloc: Global,
    list: &[Release],
    requirement: &Requirement,
) -> Result<Vec<u32>, NoMemory>
    requires { length list.now ≤ 4096 }
    ensures { IfOk result (λ v. v.items ≡ ranks_of requirement.now list.now) }
{
    let mut places = Vec::new(alloc);
    for (index, release) in list.iter().enumerate() {
        if requirement.contains(release) {
            places.push(index as u32 + 1)?;
        }
    }
    Ok(places)
}
