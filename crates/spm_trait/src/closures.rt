ghost use Rattle.std.specs.Prelude.{◌≡◌, ◌++◌, IfErr, IfOk, OnOk};
ghost use Rattle.spm_trait.specs.Closure.{IsClosure};
ghost use Rattle.spm_trait.specs.ClosureFault.{IsClosureFault};
ghost use Rattle.spm_trait.specs.Reached.{
  AreDeclaredCopies,
  IsIndex,
  IsReached,
  IsUndeclaredFault,
  enabled_in,
  is_declared_in,
  names_in,
  names_of,
};
ghost use Rattle.spm_trait.specs.declared.closures.ClosureFault.TheVariants.{Memory};

use crate::NoMemory;
use crate::trait_name::TraitName;
use crate::traits::{TraitEntry, Traits};
use std::alloc::{AllocError, AllocFailed, Global};
use std::collections::{BTreeMap, BTreeSet};
use std::error::Error;
use std::fmt;

/// The trait that needs no entry.
const DEFAULT: &str = "default";

/// Why there is no closure.
#[derive(Debug, Drop)]
pub enum ClosureFault {
    /// The least set has this name, which is not declared, and no lesser one that is not.
    Unknown(TraitName),
    /// There was no memory.
    Memory,
}

impl ClosureFault {
    /// A copy of the fault.
    ///
    /// # Errors
    ///
    /// `NoMemory` alone.
    pub fn copy(&self, alloc: Global) -> Result<ClosureFault, NoMemory>
        ensures { IfOk result (λ fault. fault ≡ self.now) }
    {
        match self {
            ClosureFault::Unknown(name) => Ok(ClosureFault::Unknown(name.copy(alloc)?)),
            ClosureFault::Memory => Ok(ClosureFault::Memory),
        }
    }
}

impl fmt::Display for ClosureFault {
    fn fmt<W: fmt::Write>(&self, f: &mut fmt::Formatter<W>) -> fmt::Result {
        match self {
            ClosureFault::Unknown(name) => write!(f, "no trait {name} is declared"),
            ClosureFault::Memory => f.write_str("no memory"),
        }
    }
}

impl Error for ClosureFault {}

impl From<AllocError> for ClosureFault {
    ghost from_gives = { λ _ e. e ≡ Memory };

    fn from(_error: AllocError) -> ClosureFault {
        ClosureFault::Memory
    }
}

impl<T: Drop> From<AllocFailed<T>> for ClosureFault {
    ghost from_gives = { λ _ e. e ≡ Memory };

    fn from(_error: AllocFailed<T>) -> ClosureFault {
        ClosureFault::Memory
    }
}

// What the traits of each name enable, by the name. It goes from the back, so that the first entry of a name stays.
fn index_of<'a>(
    alloc: Global,
    entries: &'a [TraitEntry],
) -> Result<BTreeMap<&'a TraitName, &'a [TraitName]>, NoMemory>
    ensures { IfOk result (λ index. IsIndex entries.now index) }
{
    let mut index = BTreeMap::new(alloc);
    for entry in entries.iter().rev() {
        index.insert(&entry.name, entry.enables.as_slice())?;
    }
    Ok(index)
}

// What the trait of a name enables.
fn enabled<'a>(
    index: &BTreeMap<&'a TraitName, &'a [TraitName]>,
    name: &'a TraitName,
) -> &'a [TraitName]
    ensures { result.now ≡ enabled_in index.now name.now }
{
    match index.get(&name) {
        Some(names) => *names,
        None => &[],
    }
}

// Whether a trait of this name is declared.
fn is_declared<'a>(index: &BTreeMap<&'a TraitName, &'a [TraitName]>, name: &'a TraitName) -> bool
    ensures { result ≡ is_declared_in index.now name.now }
{
    name.text() == DEFAULT || index.contains_key(&name)
}

// Puts more names behind those that wait.
fn push_all<'a>(waiting: &mut Vec<&'a TraitName>, more: &'a [TraitName]) -> Result<(), NoMemory>
    ensures { OnOk result (names_of waiting.new.items ≡ names_of waiting.old.items ++ more.now) }
{
    for name in more {
        waiting.push(name)?;
    }
    Ok(())
}

// The least set that has the asked names and what each of its members enables.
fn reached<'a>(
    alloc: Global,
    index: &BTreeMap<&'a TraitName, &'a [TraitName]>,
    asked: &'a [TraitName],
) -> Result<BTreeSet<&'a TraitName>, NoMemory>
    ensures { IfOk result (λ names. IsReached (enabled_in index.now) asked.now (names_in names)) }
{
    let mut names = BTreeSet::new(alloc);
    let mut waiting: Vec<&TraitName> = asked.iter().collect(alloc)?;
    while let Some(name) = waiting.pop() {
        let is_new = names.insert(name)?;
        if !is_new {
            continue;
        }
        push_all(&mut waiting, enabled(index, name))?;
    }
    Ok(names)
}

// Copies of the names, in their order, or the first of them that is not declared.
fn declared_copies<'a>(
    alloc: Global,
    index: &BTreeMap<&'a TraitName, &'a [TraitName]>,
    names: &BTreeSet<&'a TraitName>,
) -> Result<Vec<TraitName>, ClosureFault>
    ensures ok { IfOk result (λ copies. AreDeclaredCopies index.now (names_in names.now) copies.items) }
    ensures err { IfErr result (IsUndeclaredFault index.now (names_in names.now)) }
{
    let mut copies = Vec::with_capacity(alloc, names.len())?;
    for name in names {
        let copy = name.copy(alloc)?;
        if !is_declared(index, *name) {
            return Err(ClosureFault::Unknown(copy));
        }
        copies.push(copy)?;
    }
    Ok(copies)
}

/// The least set of traits that has the asked names and what each of its members enables, in byte order (SE-0450).
///
/// # Errors
///
/// `Unknown` exactly where one of them is not declared, with the least such name; and `Memory`.
pub fn closure(
    alloc: Global,
    traits: &Traits,
    asked: &[TraitName],
) -> Result<Vec<TraitName>, ClosureFault>
    ensures ok { IfOk result (λ names. IsClosure traits.now.entries asked.now names.items) }
    ensures err { IfErr result (λ fault. IsClosureFault traits.now.entries asked.now fault) }
{
    let index = index_of(alloc, traits.entries.as_slice())?;
    let names = reached(alloc, &index, asked)?;
    declared_copies(alloc, &index, &names)
}
