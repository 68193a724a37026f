//! Laws of the definitions: each function here has one as its contract, and nothing calls them.
ghost use Rattle.std.specs.Prelude.{◌≡◌, ℕ, List, map};
ghost use Rattle.std.specs.Cmp.Lexicographic.{slice_cmp};
ghost use Rattle.std.specs.List.Sorted.{IsStrictlySortedBy};
ghost use Rattle.std.specs.Ordering.{nat_cmp};
ghost use Rattle.pub_facts.specs.Catalogue.{Job};
ghost use Rattle.pub_facts.specs.Enabled.{World};
ghost use Rattle.pub_facts.specs.Valid.{IsValid};
ghost use Rattle.pub_plain.specs.Answers.{Answers, catalogue_by};
ghost use Rattle.pub_plain.specs.Choosing.{Pins, pin_of};
ghost use Rattle.pub_term.specs.declared.node.NodeName.{NodeName};
ghost use Rattle.spm_judge.specs.Judged.{Holds, verdict, world_by};
ghost use Rattle.spm_judge.specs.On.{AreOn};
ghost use Rattle.spm_version.specs.Release.{Parts};

/// A law, with nothing to run: the verdict over the nodes that are on holds exactly where the pins are a valid selection, in which nothing is
/// said of solvers.
pub fn a_verdict_is_right()
    ensures valid { (job : Job) (answers : Answers) (pins : Pins) (on : List NodeName)
        → IsStrictlySortedBy (slice_cmp nat_cmp) (map (λ (pin : List ℕ × Parts). pin.0) pins) → AreOn (world_by job answers pins) on
        → verdict job answers pins on ≡ Holds → IsValid job (catalogue_by answers) (pin_of pins) }
    ensures holds { (job : Job) (answers : Answers) (pins : Pins) (on : List NodeName)
        → IsStrictlySortedBy (slice_cmp nat_cmp) (map (λ (pin : List ℕ × Parts). pin.0) pins) → AreOn (world_by job answers pins) on
        → IsValid job (catalogue_by answers) (pin_of pins) → verdict job answers pins on ≡ Holds }
{}

/// A law, with nothing to run: the nodes that are on are one list, so that a verdict is one.
pub fn nodes_on_are_one()
    ensures { (world : World) (first second : List NodeName) → AreOn world first → AreOn world second → first ≡ second }
{}
