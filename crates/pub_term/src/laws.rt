// The laws of incompatibilities, over the definitions alone.
ghost use Rattle.std.specs.Prelude.{◌≡◌, ◌<◌, ◌⊎◌, ℕ, All, List, Some, false, true};
ghost use Rattle.pub_set.specs.Choices.{ChoiceSet, IsSet, has, opposite};
ghost use Rattle.pub_term.specs.Known.{AreKnown, LiesIn, almost_on, holds};
ghost use Rattle.pub_term.specs.Resolvent.{CanResolve, resolvent};
ghost use Rattle.pub_term.specs.Sized.{AreSets, AreSized};
ghost use Rattle.pub_term.specs.Term.{IsIncompat, set_at, violates};
ghost use Rattle.pub_term.specs.declared.term.Term.{Term};

/// A law, with nothing to run: an assignment that violates the resolution of two incompatibilities violates one of them, if
/// its choice on the node that is resolved is one of the node's.
pub fn resolution_is_sound()
    ensures { (first second : List Term) (on : ℕ) (assignment : ℕ → ℕ) → IsIncompat first → IsIncompat second
        → CanResolve first second on → ((set : ChoiceSet) → set_at first on ≡ Some set → assignment on < set.size)
        → violates assignment (resolvent first second on) ≡ true
        → (violates assignment first ≡ true) ⊎ (violates assignment second ≡ true) }
{}

/// A law, with nothing to run: a resolution's sets have their nodes' sizes where those of both incompatibilities do, and are sets where
/// theirs are.
pub fn resolvents_keep_sizes()
    ensures sizes { (sizes : List ℕ) (first second : List Term) (on : ℕ) → AreSized sizes first → AreSized sizes second
        → AreSized sizes (resolvent first second on) }
    ensures sets { (first second : List Term) (on : ℕ) → AreSets first → AreSets second → AreSets (resolvent first second on) }
{}

/// A law, with nothing to run, of an assignment whose choices lie in what is known: it violates what holds, and where it doesn't
/// violate what almost holds, its choice on the open node is not in that node's set.
pub fn what_holds_is_violated()
    ensures holds { (known : List ChoiceSet) (terms : List Term) (assignment : ℕ → ℕ) → AreKnown known terms
        → LiesIn assignment known → holds known terms ≡ true → violates assignment terms ≡ true }
    ensures almost { (known : List ChoiceSet) (terms : List Term) (assignment : ℕ → ℕ) (node : ℕ) (set : ChoiceSet)
        → All IsSet known → IsIncompat terms → AreKnown known terms → LiesIn assignment known
        → almost_on known terms ≡ Some node → violates assignment terms ≡ false → set_at terms node ≡ Some set
        → has (opposite set) (assignment node) ≡ true }
{}
