ghost use Rattle.std.specs.Prelude.{◌≡◌, false, IfOk, OnErr, OnOk, []};
ghost use Rattle.spm_trust.specs.File.{trust_of};
ghost use Rattle.spm_trust.specs.Trust.{IsTrust, ReadsTrust, added, differs, kept_in, met_by};
ghost use Rattle.spm_trust.specs.TrustText.{trust_lines, trust_text};

use crate::TrustFault;
use crate::adding::{add_sum, package_with, place_of, sum_in};
use crate::file::{KeptPackage, TrustFile};
use crate::met::Met;
use crate::writing::{lines, write};
use spm_ident::Identity;
use spm_json::read_whole;
use spm_version::{Bytes, NoMemory, Release, Text};
use std::alloc::Global;
use std::marker::Model;

/// The fingerprints that are kept: of each version of a package, one sum. Contracts see the packages, which stand in the order of
/// their identities, each with its sums in the order of their versions' texts, and none without a sum (`IsTrust`).
#[derive(Debug, Drop)]
pub struct Trust {
    alloc: Global,
    packages: Vec<KeptPackage>,
}

impl Model for Trust {
    ghost use Rattle.std.specs.Prelude.{List};
    ghost use Rattle.spm_trust.specs.Trust.{IsTrust};
    ghost use Rattle.spm_trust.specs.declared.file.KeptPackage.{KeptPackage};

    ghost Value = { List KeptPackage };

    ghost view = { λ trust. trust.packages.items };

    ghost invariant = { λ trust. IsTrust trust.packages.items };
}

impl Trust {
    /// The map of no fingerprints. It takes no memory.
    pub fn empty(alloc: Global) -> Trust
        ensures { result ≡ [] }
    {
        Trust {
            alloc,
            packages: Vec::new(alloc),
        }
    }

    /// Reads a fingerprint file. A package without versions in it isn't kept.
    ///
    /// # Errors
    ///
    /// The first fault in the reading order: its kind, and its place as a path from the document's root, which is `/`; and `Memory`.
    pub fn read(alloc: Global, bytes: &[u8]) -> Result<Trust, TrustFault>
        ensures { ReadsTrust result (trust_of bytes.now) }
    {
        let file: TrustFile = read_whole(alloc, bytes)?;
        let mut packages = file.packages.into_vec();
        packages.retain(|entry| !entry.sums.as_slice().is_empty());
        packages.sort_unstable_by(|first, second| first.identity.cmp(&second.identity));
        Ok(Trust { alloc, packages })
    }

    /// A copy of the map.
    ///
    /// # Errors
    ///
    /// `NoMemory` alone.
    pub fn copy(&self, alloc: Global) -> Result<Trust, NoMemory>
        ensures { IfOk result (λ copy. copy ≡ self.now) }
    {
        let mut packages = Vec::with_capacity(alloc, self.packages.len())?;
        for entry in &self.packages {
            packages.push(entry.copy(alloc)?)?;
        }
        Ok(Trust { alloc, packages })
    }

    /// Its packages, in the order of their identities.
    pub fn packages(&self) -> &[KeptPackage]
        ensures packages { result.now ≡ self.now }
        // What each map is.
        ensures trust { IsTrust self.now }
    {
        self.packages.as_slice()
    }

    /// The sum that is kept for this version of this package. It takes no memory.
    pub fn look(&self, identity: &Identity, release: &Release) -> Option<[u8; 32]>
        ensures { result ≡ kept_in identity.now release.now self.now }
    {
        match place_of(self.packages.as_slice(), identity) {
            Ok(place) => sum_in(self.packages[place].sums.as_slice(), release),
            Err(_) => None,
        }
    }

    /// What the sum that a version is said to have comes to beside the one that is kept for it. It takes no memory.
    pub fn meet(&self, identity: &Identity, release: &Release, said: &[u8; 32]) -> Met
        ensures { result ≡ met_by (kept_in identity.now release.now self.now) said.now }
    {
        match self.look(identity, release) {
            None => Met::New,
            Some(kept) if kept == *said => Met::Known,
            Some(kept) => Met::Differs { kept, said: *said },
        }
    }

    /// Keeps the sum of a version. Another one that is kept for it can't be replaced: `meet` has to answer something else than
    /// `Differs`.
    ///
    /// # Errors
    ///
    /// `NoMemory` alone, which leaves the map as it was.
    pub fn add(
        &mut self,
        identity: &Identity,
        release: &Release,
        sum: [u8; 32],
    ) -> Result<(), NoMemory>
        requires { differs (kept_in identity.now release.now self.old) sum ≡ false }
        ensures ok { OnOk result (self.new ≡ added identity.now release.now sum self.old) }
        ensures err { OnErr result (self.new ≡ self.old) }
    {
        match place_of(self.packages.as_slice(), identity) {
            Ok(place) => add_sum(self.alloc, &mut self.packages[place].sums, release, sum),
            Err(place) => {
                let entry = package_with(self.alloc, identity, release, sum)?;
                self.packages.insert(place, entry)?;
                Ok(())
            }
        }
    }

    /// The file of the map: compact JSON and a line feed.
    ///
    /// # Errors
    ///
    /// `NoMemory` alone.
    pub fn text(&self, alloc: Global) -> Result<Bytes, NoMemory>
        ensures { IfOk result (λ bytes. bytes ≡ trust_text self.now) }
    {
        write(alloc, self.packages.as_slice())
    }

    /// A line `IDENTITY VERSION HEX` for each version, in the order of the map.
    ///
    /// # Errors
    ///
    /// `NoMemory` alone.
    pub fn lines(&self, alloc: Global) -> Result<Text, NoMemory>
        ensures { IfOk result (λ text. text ≡ trust_lines self.now) }
    {
        lines(alloc, self.packages.as_slice())
    }
}
