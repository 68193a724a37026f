ghost use Rattle.std.specs.Prelude.{◌≡◌, ◌↔◌, IfOk, IfSome, IsSome};
ghost use Rattle.std.specs.Option.{option_copied};
ghost use Rattle.spm_shelf.specs.File.{shelf_of};
ghost use Rattle.spm_shelf.specs.Shelf.{IsShelf, ReadsShelf, package_of};
ghost use Rattle.spm_shelf.specs.ShelfText.{shelf_text};

use crate::ShelfFault;
use crate::file::{ShelfPackage, ShelfUrl, WholeFile};
use crate::file_text::shelf_value;
use crate::order::is_shelf;
use spm_ident::Identity;
use spm_json::read_whole;
use spm_version::{Bytes, Items, NoMemory};
use std::alloc::Global;
use std::marker::Model;

/// What a registry has: packages in the order of their identities, each once, the releases of each and the URLs in byte order, and
/// of each release without a problem its manifest and its archive. Contracts see it as a file that is so (`IsShelf`).
#[derive(Debug, Drop)]
pub struct Shelf {
    packages: Items<ShelfPackage>,
    urls: Items<ShelfUrl>,
}

impl Model for Shelf {
    ghost use Rattle.spm_shelf.specs.Shelf.{IsShelf};
    ghost use Rattle.spm_shelf.specs.declared.file.ShelfFile.{ShelfFile};

    ghost Value = { ShelfFile };

    ghost view = { λ shelf. record { packages = shelf.packages; urls = shelf.urls } };

    ghost invariant = { λ shelf. IsShelf (record { packages = shelf.packages; urls = shelf.urls }) };
}

impl Shelf {
    /// Reads a shelf file.
    ///
    /// # Errors
    ///
    /// The first fault in the reading order: its kind, and its place as a path from the document's root, which is `/`; and `Memory`.
    pub fn read(alloc: Global, bytes: &[u8]) -> Result<Shelf, ShelfFault>
        ensures { ReadsShelf result (shelf_of bytes.now) }
    {
        let WholeFile { packages, urls } = read_whole(alloc, bytes)?;
        let mut packages = packages.packages.into_vec();
        packages.sort_unstable_by(|first, second| first.identity.cmp(&second.identity));
        Ok(Shelf {
            packages: Items::from_vec(packages),
            urls: urls.urls,
        })
    }

    /// The shelf of these packages and URLs, where they stand as a shelf has them.
    ///
    /// # Errors
    ///
    /// `NoMemory` alone.
    pub fn of(
        alloc: Global,
        packages: Items<ShelfPackage>,
        urls: Items<ShelfUrl>,
    ) -> Result<Option<Shelf>, NoMemory>
        ensures exact { IfOk result (λ made. IsSome made ↔ IsShelf (record { packages = packages; urls = urls })) }
        ensures shelf { IfOk result (λ made. IfSome made (λ shelf. shelf ≡ record { packages = packages; urls = urls })) }
    {
        if is_shelf(alloc, packages.as_slice(), urls.as_slice())? {
            Ok(Some(Shelf { packages, urls }))
        } else {
            Ok(None)
        }
    }

    /// A copy of the shelf.
    ///
    /// # Errors
    ///
    /// `NoMemory` alone.
    pub fn copy(&self, alloc: Global) -> Result<Shelf, NoMemory>
        ensures { IfOk result (λ copy. copy ≡ self.now) }
    {
        Ok(Shelf {
            packages: self.packages.copy(alloc)?,
            urls: self.urls.copy(alloc)?,
        })
    }

    /// Its packages, in the order of their identities.
    pub fn packages(&self) -> &[ShelfPackage]
        ensures packages { result.now ≡ self.now.packages }
        // What each shelf is.
        ensures shelf { IsShelf self.now }
    {
        self.packages.as_slice()
    }

    /// Its URLs, in byte order.
    pub fn urls(&self) -> &[ShelfUrl]
        ensures { result.now ≡ self.now.urls }
    {
        self.urls.as_slice()
    }

    /// The package with this identity.
    pub fn package(&self, identity: &Identity) -> Option<&ShelfPackage>
        ensures { option_copied result ≡ package_of identity.now self.now.packages }
    {
        let packages = self.packages.as_slice();
        match packages.binary_search_by(|entry| entry.identity.cmp(identity)) {
            Ok(place) => Some(&packages[place]),
            Err(_) => None,
        }
    }

    /// The shelf's file: compact JSON and a line feed.
    ///
    /// # Errors
    ///
    /// `NoMemory` alone.
    pub fn text(&self, alloc: Global) -> Result<Bytes, NoMemory>
        ensures { IfOk result (λ bytes. bytes ≡ shelf_text self.now) }
    {
        let value = shelf_value(alloc, self.packages.as_slice(), self.urls.as_slice())?;
        let mut text = value.to_string(alloc)?;
        text.push_str("\n")?;
        Ok(Bytes::from_vec(text.into_bytes()))
    }
}
