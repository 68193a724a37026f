// Walks over the lists of a solver.
ghost use Rattle.std.specs.Prelude.{◌≡◌, reverse, All};
ghost use Rattle.pub_term.specs.Known as kept;
ghost use Rattle.pub_term.specs.declared.term.Incompat.{Incompat};
ghost use Rattle.pub_trail.specs.KnownOf.{CanHold};
ghost use Rattle.pub_trail.specs.Trail.{up_to};
ghost use Rattle.pub_trail.specs.Turn.{newest_from};
ghost use Rattle.pub_trail.specs.Walk.{terms_of};

use crate::trail::Assigned;
use pub_set::Choices;
use pub_term::Incompat;

/// Drops the assignments above a level. The trail has the newest behind the others.
pub fn drop_above(trail: &mut Vec<Assigned>, level: u32)
    ensures { reverse trail.new.items ≡ up_to level (reverse trail.old.items) }
{
    let mut kept = trail.len();
    while kept > 0 && trail[kept - 1].level > level {
        kept -= 1;
    }
    trail.truncate(kept);
}

/// The number of the newest incompatibility that holds by what is left.
pub fn newest_of(left: &[Choices], incompats: &[Incompat]) -> Option<usize>
    requires { All (λ (incompat : Incompat). CanHold left.now incompat) incompats.now }
    ensures { result ≡ newest_from (kept.holds left.now) 0 (terms_of incompats.now) }
{
    let mut place = incompats.len();
    while place > 0 {
        place -= 1;
        if incompats[place].holds(left) {
            return Some(place);
        }
    }
    None
}
