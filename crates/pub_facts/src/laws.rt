// The laws between valid selections and facts, and those of the first selection, over the definitions alone.
ghost use Rattle.std.specs.Prelude.{◌≡◌, ℕ, Bool, Contains, List, true, false};
ghost use Rattle.pub_term.specs.declared.node.NodeName.{NodeName};
ghost use Rattle.pub_facts.specs.Assigns.{Agrees, AreNamed, IsReachedPart, Shows};
ghost use Rattle.pub_facts.specs.Catalogue.{Catalogue, Job};
ghost use Rattle.pub_facts.specs.Enabled.{Selection};
ghost use Rattle.pub_facts.specs.Facts.{Load, facts_of, violates};
ghost use Rattle.pub_facts.specs.First.{IsAmong, IsFirst, IsPreferred, Preference, TellsApart};
ghost use Rattle.pub_facts.specs.Known.{IsThere};
ghost use Rattle.pub_facts.specs.Valid.{IsValid};
ghost use Rattle.pub_facts.specs.declared.fact.Fact.{Fact};

/// A law, with nothing to run: a valid selection, with its enabled traits on, the root chosen and all else absent, violates no
/// fact of any load. The assignment tells this of the nodes that are named, and the fact is on such nodes.
pub fn valid_selections_violate_nothing()
    ensures { (job : Job) (c : Catalogue) (selection : Selection) (named : NodeName → Bool) (at : NodeName → ℕ)
        → IsValid job c selection → Shows job c selection (λ node. named node ≡ true) at
        → (load : Load) → IsThere c.lookups load.owner load.choice
        → (one : Fact) → Contains (facts_of job c load) one → AreNamed (λ node. named node ≡ true) one.terms
        → violates at one.terms ≡ false }
{}

/// A law, with nothing to run: an assignment with the root chosen that violates no fact of the loads of its own choices contains
/// a valid selection, which is the part of its versions that it reaches.
pub fn unviolated_assignments_are_valid()
    ensures { (job : Job) (c : Catalogue) (at : NodeName → ℕ) (part : Selection)
        → Agrees job c at → IsReachedPart job c at part → IsValid job c part }
{}

/// A law, with nothing to run: of the selections of finitely many packages at most one is first. It is enough that they are first among the
/// valid selections of this very catalogue; so those are, that are first among those of all catalogues that extend it, itself among them.
pub fn first_selections_are_one()
    ensures { (prefers : Preference) (job : Job) (c : Catalogue) (first second : Selection) (identities : List (List ℕ))
        → TellsApart prefers c → IsAmong identities first
        → IsFirst prefers (λ said wider. wider ≡ said) job c first → IsFirst prefers (λ said wider. wider ≡ said) job c second
        → (identity : List ℕ) → first identity ≡ second identity }
{}

/// A law, with nothing to run: a valid selection whose releases are preferred to all others, as those of a lock file are, is first,
/// whatever else catalogues say.
pub fn a_valid_selection_is_settled()
    ensures { (prefers : Preference) (job : Job) (c : Catalogue) (selection : Selection)
        → IsPreferred prefers selection → IsValid job c selection → IsFirst prefers (λ said wider. Unit {0}) job c selection }
{}
