ghost use Rattle.std.specs.Prelude.{◌≡◌, IfOk};

use crate::book_index::{first_entry, places_in_order};
use spm_version::{Bytes, Duplicate, Items, NoMemory, Text};
use std::alloc::Global;
use std::marker::Model;

/// Where a registry answers (RFC 3986, section 3.2): a host and a port.
#[derive(Debug, PartialEq, Eq, PartialOrd, Ord, Drop)]
pub struct Authority {
    pub host: Text,
    pub port: u16,
}

impl Authority {
    /// A copy of the authority.
    ///
    /// # Errors
    ///
    /// `NoMemory` alone.
    pub fn copy(&self, alloc: Global) -> Result<Authority, NoMemory>
        ensures { IfOk result (λ authority. authority ≡ self.now) }
    {
        let host = self.host.copy(alloc)?;
        Ok(Authority {
            host,
            port: self.port,
        })
    }
}

impl Duplicate for Authority {
    fn duplicate(&self, alloc: Global) -> Result<Authority, NoMemory> {
        self.copy(alloc)
    }
}

/// One reply of a book: what the authority `to` answers to the request.
#[derive(Debug, Drop)]
pub struct Entry {
    pub to: Authority,
    pub request: Bytes,
    pub response: Bytes,
}

impl Entry {
    ghost use Rattle.spm_outside.specs.Book.{is_for};

    /// A copy of the entry.
    ///
    /// # Errors
    ///
    /// `NoMemory` alone.
    pub fn copy(&self, alloc: Global) -> Result<Entry, NoMemory>
        ensures { IfOk result (λ entry. entry ≡ self.now) }
    {
        let to = self.to.copy(alloc)?;
        let request = self.request.copy(alloc)?;
        let response = self.response.copy(alloc)?;
        Ok(Entry {
            to,
            request,
            response,
        })
    }

    // Whether it replies to this request at this authority.
    pub(crate) fn is_for(&self, to: &Authority, request: &[u8]) -> bool
        ensures { result ≡ is_for to.now request.now self.now }
    {
        self.to == *to && self.request.as_slice() == request
    }
}

impl Duplicate for Entry {
    fn duplicate(&self, alloc: Global) -> Result<Entry, NoMemory> {
        self.copy(alloc)
    }
}

/// What registries answer, as fixed replies: its entries, of which the first that fits replies, and the
/// response to every other request. Contracts see these two.
#[derive(Debug, Drop)]
pub struct Book {
    entries: Items<Entry>,
    other: Bytes,
    // The places of the entries, in the order in which they are looked up.
    places: Vec<usize>,
}

impl Model for Book {
    ghost use Rattle.spm_outside.specs.Book.{Pages};
    ghost use Rattle.spm_outside.specs.BookOrder.{IsOrderOf};

    ghost Value = { Pages };

    ghost view = { λ book. record { entries = book.entries; other = book.other } };

    ghost invariant = { λ book. IsOrderOf book.entries book.places.items };
}

impl Book {
    ghost use Rattle.spm_outside.specs.Book.{response_of};

    /// The book of these entries, and of this response to every other request. It sorts the entries' places, so that
    /// a look-up needn't go through all of them.
    ///
    /// # Errors
    ///
    /// `NoMemory` alone.
    pub fn new(alloc: Global, entries: Items<Entry>, other: Bytes) -> Result<Book, NoMemory>
        ensures { IfOk result (λ book. book ≡ record { entries = entries; other = other }) }
    {
        let places = places_in_order(alloc, entries.as_slice())?;
        Ok(Book {
            entries,
            other,
            places,
        })
    }

    /// Its entries, in their order.
    pub fn entries(&self) -> &[Entry]
        ensures { result.now ≡ self.now.entries }
    {
        self.entries.as_slice()
    }

    /// The response to every request that no entry is for.
    pub fn other(&self) -> &[u8]
        ensures { result.now ≡ self.now.other }
    {
        self.other.as_slice()
    }

    /// What the authority answers to the request. It compares as many entries as a binary search does, and takes no
    /// memory.
    pub fn response(&self, to: &Authority, request: &[u8]) -> &[u8]
        ensures { result.now ≡ response_of self.now to.now request.now }
    {
        match first_entry(&self.places, self.entries.as_slice(), to, request) {
            Some(entry) => entry.response.as_slice(),
            None => self.other.as_slice(),
        }
    }

    /// A copy of the book.
    ///
    /// # Errors
    ///
    /// `NoMemory` alone.
    pub fn copy(&self, alloc: Global) -> Result<Book, NoMemory>
        ensures { IfOk result (λ book. book ≡ self.now) }
    {
        let entries = self.entries.copy(alloc)?;
        let other = self.other.copy(alloc)?;
        let places = Vec::from_slice(alloc, &self.places)?;
        Ok(Book {
            entries,
            other,
            places,
        })
    }
}
