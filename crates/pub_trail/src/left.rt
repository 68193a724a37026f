// What a trail leaves each node.
ghost use Rattle.std.specs.Prelude.{◌≡◌, [], reverse, All, IfOk, true};
ghost use Rattle.pub_set.specs.Choices.{intersection, set_where};
ghost use Rattle.pub_trail.specs.KnownOf.{AreBefore, AreLeft, IsEntry};

use crate::trail::Assigned;
use pub_set::Choices;
use spm_version::NoMemory;
use std::alloc::Global;

// All choices.
fn whole(alloc: Global, size: u32) -> Result<Choices, NoMemory>
    ensures { IfOk result (λ set. set ≡ set_where size (λ choice. true)) }
{
    let none = Choices::none(alloc, size)?;
    let set = none.opposite(alloc)?;
    Ok(set)
}

// All choices of each node.
fn all_whole(alloc: Global, sizes: &[u32]) -> Result<Vec<Choices>, NoMemory>
    ensures { IfOk result (λ known. AreLeft sizes.now [] known.items) }
{
    let mut known = Vec::new(alloc);
    for size in sizes {
        known.push(whole(alloc, *size)?)?;
    }
    Ok(known)
}

// The choices that both leave.
pub(crate) fn narrowed(alloc: Global, left: &Choices, entry: &Assigned) -> Result<Choices, NoMemory>
    requires { left.now.size ≡ entry.now.choices.size }
    ensures { IfOk result (λ set. set ≡ intersection left.now entry.now.choices) }
{
    let set = left.intersect(alloc, &entry.choices)?;
    Ok(set)
}

/// What a trail leaves each node.
#[derive(Debug, Drop)]
pub struct Left {
    /// For each node the choices that are left for it.
    pub now: Vec<Choices>,
    /// For each assignment of the trail the choices that were left for its node before it.
    pub before: Vec<Choices>,
}

impl Left {
    /// What a trail leaves nodes of these sizes. The trail has the newest behind the others.
    pub fn of(alloc: Global, sizes: &[u32], trail: &[Assigned]) -> Result<Left, NoMemory>
        requires { All (λ entry. IsEntry sizes.now entry) trail.now }
        ensures now { IfOk result (λ left. AreLeft sizes.now (reverse trail.now) left.now.items) }
        ensures before { IfOk result (λ left. AreBefore sizes.now trail.now left.before.items) }
    {
        let mut now = all_whole(alloc, sizes)?;
        let mut before = Vec::new(alloc);
        for entry in trail {
            let node = entry.node as usize;
            let was = now[node].copy(alloc)?;
            let narrow = narrowed(alloc, &was, entry)?;
            before.push(was)?;
            now[node] = narrow;
        }
        Ok(Left { now, before })
    }
}
