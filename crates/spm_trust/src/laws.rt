ghost use Rattle.std.specs.Prelude.{◌≡◌, ◌≢◌, ◌⊎◌, All, ℕ, List, Ok, Some, false};
ghost use Rattle.spm_version.specs.Release.{Parts, parts_text};
ghost use Rattle.spm_trust.specs.File.{trust_of};
ghost use Rattle.spm_trust.specs.Trust.{IsKeptPackage, IsTrust, added, differs, kept_in};
ghost use Rattle.spm_trust.specs.TrustText.{trust_text};
ghost use Rattle.spm_trust.specs.declared.file.KeptPackage.{KeptPackage};

/// A law, with nothing to run: a sum that is added to a map, where no other is kept for its version, is kept, the sum of every other
/// version is what it was, and what comes of it is a map.
pub fn what_is_added_is_kept()
    ensures kept { (identity : List ℕ) (release : Parts) (sum : List ℕ) (packages : List KeptPackage) → IsTrust packages
        → differs (kept_in identity release packages) sum ≡ false
        → kept_in identity release (added identity release sum packages) ≡ Some sum }
    ensures others { (identity : List ℕ) (release : Parts) (sum : List ℕ) (packages : List KeptPackage) → IsTrust packages
        → (other : List ℕ) (version : Parts) → (other ≢ identity) ⊎ (parts_text version ≢ parts_text release)
        → kept_in other version (added identity release sum packages) ≡ kept_in other version packages }
    ensures trust { (identity : List ℕ) (release : Parts) (sum : List ℕ) (packages : List KeptPackage) → IsTrust packages
        → IsTrust (added identity release sum packages) }
{}

/// A law, with nothing to run: what `text` writes of a map is read back as the same map.
pub fn trust_reads_back()
    ensures { (packages : List KeptPackage) → IsTrust packages → All IsKeptPackage packages
        → trust_of (trust_text packages) ≡ Ok packages }
{}
