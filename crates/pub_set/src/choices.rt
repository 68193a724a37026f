ghost use Rattle.std.specs.Prelude.{◌≡◌, ◌<◌, All, IfOk};
ghost use Rattle.std.specs.Cmp.{partial_equiv_from_equiv};
ghost use Rattle.pub_set.specs.Choices.{
  IsSet,
  choices_of,
  do_meet,
  has,
  intersection,
  is_empty,
  is_whole,
  is_within,
  no_choices,
  opposite,
  same_set,
  union,
};
ghost use Rattle.pub_set.specs.ChoicesLaws.{same_set_equiv};
ghost use Rattle.pub_set.specs.Runs.{runs_of};

use crate::NoMemory;
use crate::runs::{
    Run, are_whole, are_within, do_meet, lies_in, of_numbers, others, shared, to_numbers, united,
};
use spm_version::Duplicate;
use std::alloc::Global;
use std::marker::Model;

/// A set of the choices below a size. A choice is a number: which of a package's versions, or whether a trait is on.
#[derive(Debug, Drop)]
pub struct Choices {
    size: u32,
    // Ascending, with a gap between two neighbours, the last one's last below the size.
    runs: Vec<Run>,
}

impl Model for Choices {
    ghost use Rattle.std.specs.Prelude.{◌+◌};
    ghost use Rattle.pub_set.specs.Choices.{ChoiceSet};
    ghost use Rattle.pub_set.specs.Runs.{AreRuns, numbers_in};

    ghost Value = { ChoiceSet };

    ghost view = { λ set. record { size = set.size; members = numbers_in set.runs.items } };

    ghost invariant = { λ set. AreRuns 0 (set.size + 1) set.runs.items };
}

impl Choices {
    /// The set without choices, of this size.
    ///
    /// # Errors
    ///
    /// `NoMemory` alone.
    pub fn none(alloc: Global, size: u32) -> Result<Choices, NoMemory>
        ensures { IfOk result (λ set. set ≡ no_choices size) }
    {
        Ok(Choices {
            size,
            runs: Vec::new(alloc),
        })
    }

    /// The set of these choices, in any order and with repeats.
    ///
    /// # Errors
    ///
    /// `NoMemory` alone.
    pub fn of(alloc: Global, size: u32, choices: &[u32]) -> Result<Choices, NoMemory>
        requires { All (λ choice. choice < size) choices.now }
        ensures { IfOk result (λ set. set ≡ choices_of size choices.now) }
    {
        let runs = of_numbers(alloc, choices)?;
        Ok(Choices { size, runs })
    }

    /// How many choices there are, in the set or not.
    pub fn size(&self) -> u32
        ensures size { result ≡ self.now.size }
        // Each value is a set: its members are below the size, ascending and each once.
        ensures set { IsSet self.now }
    {
        self.size
    }

    /// Whether the choice is in the set. It takes no memory.
    pub fn has(&self, choice: u32) -> bool
        ensures { result ≡ has self.now choice }
    {
        lies_in(&self.runs, choice)
    }

    /// Whether each of its choices is in the other set.
    pub fn within(&self, other: &Choices) -> bool
        requires { self.now.size ≡ other.now.size }
        ensures { result ≡ is_within self.now other.now }
    {
        are_within(&self.runs, &other.runs)
    }

    /// Whether some choice is in both.
    pub fn meets(&self, other: &Choices) -> bool
        requires { self.now.size ≡ other.now.size }
        ensures { result ≡ do_meet self.now other.now }
    {
        do_meet(&self.runs, &other.runs)
    }

    /// The choices that are in both.
    ///
    /// # Errors
    ///
    /// `NoMemory` alone.
    pub fn intersect(&self, alloc: Global, other: &Choices) -> Result<Choices, NoMemory>
        requires { self.now.size ≡ other.now.size }
        ensures { IfOk result (λ set. set ≡ intersection self.now other.now) }
    {
        let runs = shared(alloc, &self.runs, &other.runs)?;
        Ok(Choices {
            size: self.size,
            runs,
        })
    }

    /// The choices that are in one of them.
    ///
    /// # Errors
    ///
    /// `NoMemory` alone.
    pub fn unite(&self, alloc: Global, other: &Choices) -> Result<Choices, NoMemory>
        requires { self.now.size ≡ other.now.size }
        ensures { IfOk result (λ set. set ≡ union self.now other.now) }
    {
        let runs = united(alloc, &self.runs, &other.runs)?;
        Ok(Choices {
            size: self.size,
            runs,
        })
    }

    /// The choices that are not in the set.
    ///
    /// # Errors
    ///
    /// `NoMemory` alone.
    pub fn opposite(&self, alloc: Global) -> Result<Choices, NoMemory>
        ensures { IfOk result (λ set. set ≡ opposite self.now) }
    {
        let runs = others(alloc, self.size, &self.runs)?;
        Ok(Choices {
            size: self.size,
            runs,
        })
    }

    /// Whether it has no choice.
    pub fn is_empty(&self) -> bool
        ensures { result ≡ is_empty self.now }
    {
        self.runs.is_empty()
    }

    /// Whether it has every choice below its size.
    pub fn is_whole(&self) -> bool
        ensures { result ≡ is_whole self.now }
    {
        are_whole(self.size, &self.runs)
    }

    /// Its maximal runs, ascending. It takes no memory, and lends what the set keeps.
    pub fn runs(&self) -> &[Run]
        ensures { result.now ≡ runs_of self.now }
    {
        &self.runs
    }

    /// Its choices, ascending.
    ///
    /// # Errors
    ///
    /// `NoMemory` alone.
    pub fn to_vec(&self, alloc: Global) -> Result<Vec<u32>, NoMemory>
        ensures { IfOk result (λ choices. choices.items ≡ self.now.members) }
    {
        to_numbers(alloc, &self.runs)
    }

    /// A copy of the set.
    ///
    /// # Errors
    ///
    /// `NoMemory` alone.
    pub fn copy(&self, alloc: Global) -> Result<Choices, NoMemory>
        ensures { IfOk result (λ set. set ≡ self.now) }
    {
        let runs = Vec::from_slice(alloc, &self.runs)?;
        Ok(Choices {
            size: self.size,
            runs,
        })
    }
}

impl PartialEq for Choices {
    ghost eq = { same_set };

    ghost laws = { partial_equiv_from_equiv same_set_equiv };

    fn eq(&self, other: &Choices) -> bool {
        self.size == other.size && self.runs == other.runs
    }
}

impl Eq for Choices {
    ghost laws = { same_set_equiv };
}

impl Duplicate for Choices {
    fn duplicate(&self, alloc: Global) -> Result<Choices, NoMemory> {
        self.copy(alloc)
    }
}
