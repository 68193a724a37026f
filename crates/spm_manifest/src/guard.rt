ghost use Rattle.std.specs.Prelude.{◌≡◌, ◌∷◌, ◌++◌, ℕ, List, map, unwrap_or, IfOk, IsSome, OnOk};
ghost use Rattle.std.specs.Str.{str_to_ascii_lowercase};
ghost use Rattle.std.specs.BTreeMap.{get_by_text};
ghost use Rattle.std.specs.List.{flat_map, list_all};
ghost use Rattle.spm_json.specs.Names.{has_name};
ghost use Rattle.spm_manifest.specs.Counted.{
  by_number,
  counted_of,
  counted_use,
  counts_at,
  need_at,
  number_of,
  uses_at,
  with_counted,
};
ghost use Rattle.spm_manifest.specs.Guard.{
  all_uses,
  distinct,
  distinct_after,
  guard_by,
  has_condition,
  is_target,
  need_of,
  some_uses,
};

use crate::dependency::Dependency;
use crate::need::{Guard, Need};
use crate::uses::{Named, OptionalUse, Use, UsingTarget};
use spm_json::Names;
use spm_trait::TraitName;
use spm_version::{Items, NoMemory};
use std::alloc::Global;
use std::collections::BTreeMap;

/// For whom a use counts.
#[derive(Clone, Copy)]
pub enum Counted {
    /// For no dependency: it is of a target of this manifest.
    Nobody,
    /// For each dependency.
    Everybody,
    /// For the dependencies whose identity has this number.
    Number(usize),
}

impl Counted {
    // Whether it counts for the dependencies with this number.
    fn counts_at(self, number: usize) -> bool
        ensures { result ≡ counts_at number self }
    {
        match self {
            Counted::Nobody => false,
            Counted::Everybody => true,
            Counted::Number(other) => other == number,
        }
    }
}

// The number of each identity, in lower case: that of the last dependency with it.
fn numbers_of(
    alloc: Global,
    dependencies: &[Dependency],
) -> Result<BTreeMap<String, usize>, NoMemory>
    ensures { IfOk result (λ numbers. (identity : List ℕ) → get_by_text numbers identity ≡ number_of dependencies.now identity) }
{
    let mut numbers = BTreeMap::new(alloc);
    for (number, dependency) in dependencies.iter().enumerate() {
        let identity = dependency.identity.as_str().to_ascii_lowercase(alloc)?;
        let _earlier: Option<usize> = numbers.insert(identity, number)?;
    }
    Ok(numbers)
}

// The names of the targets that have one.
fn target_names(alloc: Global, targets: &[UsingTarget]) -> Result<Names, NoMemory>
    ensures { IfOk result (λ names. (name : List ℕ) → has_name names name ≡ is_target targets.now name) }
{
    let mut names = Names::new(alloc);
    for target in targets {
        if let Some(name) = &target.name {
            let _new: bool = names.insert(alloc, name.as_str())?;
        }
    }
    Ok(names)
}

// Adds the uses that are no uses of targets.
fn push_uses<'t>(uses: &mut Vec<&'t Use>, optional: &'t [OptionalUse]) -> Result<(), NoMemory>
    ensures { OnOk result (map (λ found. found.now) uses.new.items ≡ map (λ found. found.now) uses.old.items ++ some_uses optional.now) }
{
    for item in optional {
        if let Some(found) = &item.found {
            uses.push(found)?;
        }
    }
    Ok(())
}

// The uses of all targets, in order of appearance.
fn all_uses<'t>(alloc: Global, targets: &'t [UsingTarget]) -> Result<Vec<&'t Use>, NoMemory>
    ensures { IfOk result (λ uses. map (λ found. found.now) uses.items ≡ all_uses targets.now) }
{
    let mut uses = Vec::new(alloc);
    for target in targets {
        push_uses(&mut uses, target.uses.as_slice())?;
    }
    Ok(uses)
}

/// What the uses of a manifest are counted by.
#[derive(Drop)]
struct Counting {
    numbers: BTreeMap<String, usize>,
    targets: Names,
}

impl Counting {
    // Whom a name counts for that isn't a target's.
    fn by_name(&self, alloc: Global, name: &str) -> Result<Counted, NoMemory>
        ensures { IfOk result (λ counted. counted ≡ by_number (get_by_text self.now.numbers (str_to_ascii_lowercase name.now))) }
    {
        let identity = name.to_ascii_lowercase(alloc)?;
        match self.numbers.get(identity.as_str()) {
            Some(number) => Ok(Counted::Number(*number)),
            None => Ok(Counted::Everybody),
        }
    }

    // Whom a use counts for.
    fn counted(&self, alloc: Global, named: &Named) -> Result<Counted, NoMemory>
        ensures { IfOk result (λ counted. counted ≡ counted_of (get_by_text self.now.numbers) (has_name self.now.targets) named.now) }
    {
        match named {
            Named::Package(name) => self.by_name(alloc, name.as_str()),
            Named::Name(name) if self.targets.has(name.as_str()) => Ok(Counted::Nobody),
            Named::Name(name) => self.by_name(alloc, name.as_str()),
            Named::Everything => Ok(Counted::Everybody),
        }
    }

    // The uses, each with whom it counts for.
    fn counted_uses<'u>(
        &self,
        alloc: Global,
        uses: &[&'u Use],
    ) -> Result<Vec<CountedUse<'u>>, NoMemory>
        ensures { IfOk result (λ counted. map counted_use counted.items
            ≡ with_counted (get_by_text self.now.numbers) (has_name self.now.targets) (map (λ found. found.now) uses.now)) }
    {
        let mut counted = Vec::with_capacity(alloc, uses.len())?;
        for found in uses {
            let one = CountedUse {
                counted: self.counted(alloc, &found.named)?,
                found,
            };
            counted.push(one)?;
        }
        Ok(counted)
    }

    // The need that a dependency is.
    fn need(
        &self,
        alloc: Global,
        counted: &[CountedUse],
        dependency: &Dependency,
    ) -> Result<Need, NoMemory>
        requires { IsSome (get_by_text self.now.numbers (str_to_ascii_lowercase dependency.now.identity)) }
        ensures { IfOk result (λ need. need ≡ need_at
            (unwrap_or (get_by_text self.now.numbers (str_to_ascii_lowercase dependency.now.identity)) 0)
            (map counted_use counted.now) dependency.now) }
    {
        let identity = dependency.identity.as_str().to_ascii_lowercase(alloc)?;
        let number = *self.numbers.get(identity.as_str()).unwrap();
        let uses = uses_at(alloc, counted, number)?;
        let guard = guard_by(alloc, uses.as_slice())?;
        Ok(Need {
            target: dependency.target.copy(alloc)?,
            requirement: dependency.requirement.copy(alloc)?,
            guard,
            asked: dependency.asked.copy(alloc)?,
        })
    }
}

/// A use, with whom it counts for.
#[derive(Clone, Copy)]
pub struct CountedUse<'u> {
    pub counted: Counted,
    pub found: &'u Use,
}

// The uses that count for the dependencies with this number.
fn uses_at<'u>(
    alloc: Global,
    counted: &[CountedUse<'u>],
    number: usize,
) -> Result<Vec<&'u Use>, NoMemory>
    ensures { IfOk result (λ uses. map (λ found. found.now) uses.items ≡ uses_at number (map counted_use counted.now)) }
{
    let mut uses = Vec::new(alloc);
    for one in counted {
        if one.counted.counts_at(number) {
            uses.push(one.found)?;
        }
    }
    Ok(uses)
}

// Adds the names that weren't met before.
fn push_distinct(
    alloc: Global,
    met: &mut Names,
    list: &mut Vec<TraitName>,
    names: &[TraitName],
) -> Result<(), NoMemory>
    ensures { OnOk result ((rest : List (List ℕ)) → list.new.items ++ distinct_after (has_name met.new) rest
        ≡ list.old.items ++ distinct_after (has_name met.old) (names.now ++ rest)) }
{
    for name in names {
        if !met.has(name.text()) {
            let _new: bool = met.insert(alloc, name.text())?;
            list.push(name.copy(alloc)?)?;
        }
    }
    Ok(())
}

// The traits of the uses' conditions, in order of appearance, without repeats.
fn distinct_conditions(alloc: Global, uses: &[&Use]) -> Result<Items<TraitName>, NoMemory>
    ensures { IfOk result (λ names. names ≡ distinct (flat_map (λ found. found.condition) (map (λ found. found.now) uses.now))) }
{
    let mut met = Names::new(alloc);
    let mut list = Vec::new(alloc);
    for found in uses {
        push_distinct(alloc, &mut met, &mut list, found.condition.as_slice())?;
    }
    Ok(Items::from_vec(list))
}

// Whether each of the uses has a condition.
fn have_conditions(uses: &[&Use]) -> bool
    ensures { result ≡ list_all has_condition (map (λ found. found.now) uses.now) }
{
    for found in uses {
        if found.condition.as_slice().is_empty() {
            return false;
        }
    }
    true
}

// The guard of a dependency with these uses.
fn guard_by(alloc: Global, uses: &[&Use]) -> Result<Guard, NoMemory>
    ensures { IfOk result (λ guard. guard ≡ guard_by (map (λ found. found.now) uses.now)) }
{
    if uses.is_empty() || !have_conditions(uses) {
        return Ok(Guard::Always);
    }
    let names = distinct_conditions(alloc, uses)?;
    Ok(Guard::Any(names))
}

/// The needs that the dependencies are.
pub fn needs_of(
    alloc: Global,
    dependencies: &[Dependency],
    targets: &[UsingTarget],
) -> Result<Items<Need>, NoMemory>
    ensures { IfOk result (λ needs. needs ≡ map (need_of targets.now dependencies.now) dependencies.now) }
{
    let counting = Counting {
        numbers: numbers_of(alloc, dependencies)?,
        targets: target_names(alloc, targets)?,
    };
    let uses = all_uses(alloc, targets)?;
    let counted = counting.counted_uses(alloc, uses.as_slice())?;
    let mut needs = Vec::with_capacity(alloc, dependencies.len())?;
    for dependency in dependencies {
        needs.push(counting.need(alloc, counted.as_slice(), dependency)?)?;
    }
    Ok(Items::from_vec(needs))
}
