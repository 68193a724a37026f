ghost use Rattle.std.specs.Prelude.{◌≡◌, ◌⊎◌, [], ◌∷◌, ◌++◌, IfOk, IfSome};
ghost use Rattle.spm_json.specs.declared.fault.ReadFault.TheVariants.{Memory};

use spm_version::{Kind, NoMemory, Text};
use std::alloc::{AllocError, AllocFailed, Global};
use std::error::Error;
use std::fmt;

/// Why an item could not be read.
#[derive(Debug, Drop)]
pub enum ReadFault {
    /// The first fault in the reading order: its kind, and its place as the path from the item
    /// that was read, which is empty for that item itself.
    At { place: Text, kind: Kind },
    /// Want of memory.
    Memory,
}

impl fmt::Display for ReadFault {
    fn fmt<W: fmt::Write>(&self, f: &mut fmt::Formatter<W>) -> fmt::Result {
        match self {
            ReadFault::At { place, kind } => write!(f, "unreadable at {place}: {kind}"),
            ReadFault::Memory => write!(f, "no memory"),
        }
    }
}

impl Error for ReadFault {}

impl From<AllocError> for ReadFault {
    ghost from_gives = { λ _ e. e ≡ Memory };

    fn from(_e: AllocError) -> ReadFault {
        ReadFault::Memory
    }
}

impl<T: Drop> From<AllocFailed<T>> for ReadFault {
    ghost from_gives = { λ _ e. e ≡ Memory };

    fn from(_e: AllocFailed<T>) -> ReadFault {
        ReadFault::Memory
    }
}

impl ReadFault {
    ghost use Rattle.std.specs.Fmt.{decimal};
    ghost use Rattle.spm_json.specs.Moved.{moved, whole_place, without_place};
    ghost use Rattle.spm_json.specs.declared.fault.ReadFault.TheVariants.{At};

    /// A fault of the item that is read itself. It takes no memory.
    pub fn here(alloc: Global, kind: Kind) -> ReadFault
        ensures { result ≡ At [] kind }
    {
        ReadFault::At {
            place: Text::from_string(String::new(alloc)),
            kind,
        }
    }

    /// The fault that the member `key` of the item has: it is of this kind, at its own place.
    pub fn of_member(alloc: Global, kind: Kind, key: &str) -> ReadFault
        ensures { (result ≡ moved key.now (At [] kind)) ⊎ (result ≡ Memory) }
    {
        ReadFault::here(alloc, kind).under_key(alloc, key)
    }

    // The fault, seen from the item around it, where this step leads to its own.
    fn under<S: fmt::Display + Drop>(self, alloc: Global, step: S) -> ReadFault
        ensures { IfSome (S.output step) (λ text. (result ≡ moved text self) ⊎ (result ≡ Memory)) }
    {
        match self {
            ReadFault::At { place, kind } => match format!(in alloc; "/{step}{place}") {
                Ok(path) => ReadFault::At {
                    place: Text::from_string(path),
                    kind,
                },
                Err(_) => ReadFault::Memory,
            },
            ReadFault::Memory => ReadFault::Memory,
        }
    }

    /// The fault, seen from the object whose member `key` has it.
    pub fn under_key(self, alloc: Global, key: &str) -> ReadFault
        ensures { (result ≡ moved key.now self) ⊎ (result ≡ Memory) }
    {
        self.under(alloc, key)
    }

    /// The fault, seen from the list whose item at this place has it.
    pub fn under_index(self, alloc: Global, index: usize) -> ReadFault
        ensures { (result ≡ moved (decimal index) self) ⊎ (result ≡ Memory) }
    {
        self.under(alloc, index)
    }

    /// The fault, seen from an object whose keys are foreign text: its place is the object's. It
    /// takes no memory.
    pub fn under_foreign_key(self, alloc: Global) -> ReadFault
        ensures { result ≡ without_place self }
    {
        match self {
            ReadFault::At { kind, .. } => ReadFault::here(alloc, kind),
            ReadFault::Memory => ReadFault::Memory,
        }
    }

    /// The fault of a whole document, whose own place is `/`.
    pub fn of_document(self, alloc: Global) -> ReadFault
        ensures { (result ≡ whole_place self) ⊎ (result ≡ Memory) }
    {
        match self {
            ReadFault::At { place, kind } if place.as_str().is_empty() => {
                match Text::from_str(alloc, "/") {
                    Ok(place) => ReadFault::At { place, kind },
                    Err(NoMemory) => ReadFault::Memory,
                }
            }
            fault => fault,
        }
    }

    /// A copy of the fault.
    ///
    /// # Errors
    ///
    /// `NoMemory` alone.
    pub fn copy(&self, alloc: Global) -> Result<ReadFault, NoMemory>
        ensures { IfOk result (λ copy. copy ≡ self.now) }
    {
        match self {
            ReadFault::At { place, kind } => Ok(ReadFault::At {
                place: place.copy(alloc)?,
                kind: *kind,
            }),
            ReadFault::Memory => Ok(ReadFault::Memory),
        }
    }
}
