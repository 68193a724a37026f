// A link to the book of a shelf.
ghost use Rattle.std.specs.Prelude.{◌≡◌, IfOk};
ghost use Rattle.spm_tool.specs.Faultless.{state_of};

use spm_outside::{Authority, Book, BookLink, Link, LinkFault};
use spm_version::NoMemory;
use std::alloc::Global;
use std::marker::Model;

/// A link in memory to a book, none of whose calls fails.
#[derive(Drop)]
pub struct ShelfLink<'b> {
    link: BookLink<'b>,
}

impl<'b> Model for ShelfLink<'b> {
    ghost use Rattle.std.specs.Prelude.{◌≡◌, []};
    ghost use Rattle.spm_outside.specs.Memory.{plan_of_link};
    ghost use Rattle.spm_tool.specs.Faultless.{Faultless, faultless};

    ghost Value = { Faultless };

    ghost view = { λ l. faultless l.link };

    ghost invariant = { λ l. (plan_of_link l.link).failing ≡ [] };
}

impl<'b> ShelfLink<'b> {
    /// A link to this book.
    ///
    /// # Errors
    ///
    /// `NoMemory` alone.
    pub fn new(alloc: Global, book: &'b Book) -> Result<ShelfLink<'b>, NoMemory>
        ensures { IfOk result (λ link. link.book ≡ book.now) }
    {
        let link = BookLink::new(alloc, book, &[])?;
        Ok(ShelfLink { link })
    }
}

impl<'b> Link for ShelfLink<'b> {
    ghost state = { state_of };

    ghost use Rattle.std.specs.Prelude.{refl};

    ghost tells_all = { λ link told. (refl, refl, refl) };

    fn open(&mut self, to: &Authority, request: &[u8]) -> Result<(), LinkFault> {
        self.link.open(to, request)
    }

    fn read(&mut self, piece: &mut [u8]) -> Result<usize, LinkFault> {
        self.link.read(piece)
    }
}
