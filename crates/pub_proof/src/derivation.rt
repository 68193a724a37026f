ghost use Rattle.std.specs.Prelude.{◌≡◌, IfOk};
ghost use Rattle.pub_proof.specs.Checks.{own_facts, terms_of};

use pub_term::{Cause, Incompat, NodeName};
use spm_version::{Duplicate, Items, NoMemory};
use std::alloc::Global;

/// A line of a derivation.
#[derive(Debug, Drop)]
pub enum Line {
    /// A fact, with its cause.
    Fact(Incompat, Cause),
    /// The resolution of two earlier lines, counted from 1, on a node.
    Resolve { first: u64, second: u64, on: u32 },
}

impl Line {
    /// A copy of the line.
    ///
    /// # Errors
    ///
    /// `NoMemory` alone.
    pub fn copy(&self, alloc: Global) -> Result<Line, NoMemory>
        ensures { IfOk result (λ line. line ≡ self.now) }
    {
        match self {
            Line::Fact(incompat, cause) => {
                Ok(Line::Fact(incompat.copy(alloc)?, cause.copy(alloc)?))
            }
            Line::Resolve { first, second, on } => Ok(Line::Resolve {
                first: *first,
                second: *second,
                on: *on,
            }),
        }
    }
}

impl Duplicate for Line {
    fn duplicate(&self, alloc: Global) -> Result<Line, NoMemory> {
        self.copy(alloc)
    }
}

/// A derivation: the nodes that it speaks of, with the sizes of their sets of choices, and its lines.
#[derive(Debug, Drop)]
pub struct Derivation {
    pub nodes: Items<NodeName>,
    pub sizes: Items<u32>,
    pub lines: Items<Line>,
}

// A copy of numbers.
fn copy_of_sizes(alloc: Global, sizes: &[u32]) -> Result<Items<u32>, NoMemory>
    ensures { IfOk result (λ copy. copy ≡ sizes.now) }
{
    let copy = Vec::from_slice(alloc, sizes)?;
    Ok(Items::from_vec(copy))
}

impl Derivation {
    /// Its own facts: those of its fact lines, in their order.
    ///
    /// # Errors
    ///
    /// `NoMemory` alone.
    pub fn facts(&self, alloc: Global) -> Result<Items<Incompat>, NoMemory>
        ensures { IfOk result (λ facts. terms_of facts ≡ own_facts self.now.lines) }
    {
        let mut facts = Items::new(alloc);
        for line in self.lines.as_slice() {
            if let Line::Fact(incompat, _) = line {
                facts.push(incompat.copy(alloc)?)?;
            }
        }
        Ok(facts)
    }

    /// A copy of the derivation.
    ///
    /// # Errors
    ///
    /// `NoMemory` alone.
    pub fn copy(&self, alloc: Global) -> Result<Derivation, NoMemory>
        ensures { IfOk result (λ derivation. derivation ≡ self.now) }
    {
        let nodes = self.nodes.copy(alloc)?;
        let sizes = copy_of_sizes(alloc, self.sizes.as_slice())?;
        let lines = self.lines.copy(alloc)?;
        Ok(Derivation {
            nodes,
            sizes,
            lines,
        })
    }
}
