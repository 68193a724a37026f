// The laws of checked derivations, over the definitions alone.
ghost use Rattle.std.specs.Prelude.{◌≡◌, ◌↔◌, List, Ok};
ghost use Rattle.pub_proof.specs.Checked.{checked_of};
ghost use Rattle.pub_proof.specs.IsChecked.{IsChecked};
ghost use Rattle.pub_proof.specs.Root.{root_of};
ghost use Rattle.pub_proof.specs.Sound.{Follows, RefutesRoot};
ghost use Rattle.pub_proof.specs.declared.derivation.Derivation.{Derivation};
ghost use Rattle.pub_term.specs.declared.term.Term.{Term};

/// A law, with nothing to run: a derivation is checked as a whole just where its lines are found right one after the other.
pub fn checked_is_checked()
    ensures { (facts : List (List Term)) (derivation : Derivation) (terms : List Term)
        → IsChecked facts derivation terms ↔ (checked_of derivation.nodes derivation.sizes facts derivation.lines ≡ Ok terms) }
{}

/// A law, with nothing to run: whatever violates the last line of a checked derivation violates one of the facts, and so no
/// assignment with the root chosen leaves every fact unviolated.
pub fn checked_means_refuted()
    ensures follows { (facts : List (List Term)) (derivation : Derivation) (terms : List Term)
        → IsChecked facts derivation terms → Follows derivation.sizes facts terms }
    ensures refutes { (facts : List (List Term)) (derivation : Derivation) (terms : List Term)
        → IsChecked facts derivation terms → RefutesRoot (root_of derivation.nodes) derivation.sizes facts terms }
{}
