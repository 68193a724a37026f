ghost use Rattle.std.specs.Prelude.{◌≡◌, ℕ, Bool, List, true};
ghost use Rattle.pub_term.specs.declared.cause.Cause.{Cause};
ghost use Rattle.pub_term.specs.declared.term.Term.{Term};
ghost use Rattle.pub_trail.specs.Derived.{IsHistory};
ghost use Rattle.pub_trail.specs.First.{AreFirstRules, IsChosen, Preference};
ghost use Rattle.pub_trail.specs.Invariant.{Agrees, AreFormed, AreRules, IsAssignment, IsSmall, IsState, IsTrail, Limits, LiesIn, ViolatesNone};
ghost use Rattle.pub_trail.specs.Measure.{AreLoads, AreRunRules, Ends};
ghost use Rattle.pub_trail.specs.Outcome.{IsAfter, IsAsked, IsOutcome};
ghost use Rattle.pub_trail.specs.Selection.{IsChosenAfter, IsHistoryAfter};
ghost use Rattle.pub_trail.specs.Trail.{up_to};
ghost use Rattle.pub_trail.specs.Turn.{Rules, State, Step, conflict, turn_of};
ghost use Rattle.pub_trail.specs.declared.trail.Assigned.{Assigned};

/// A law, with nothing to run: an assignment that violates no incompatibility and agrees with the decisions up to a level lies
/// in every set of the trail up to that level.
pub fn trail_is_implied()
    ensures { (sizes : List ℕ) (incompats : List (List Term)) (trail : List Assigned) (level : ℕ) (assignment : ℕ → ℕ)
        → AreFormed sizes incompats → IsTrail sizes incompats trail → IsAssignment sizes assignment
        → ViolatesNone incompats assignment → Agrees assignment (up_to level trail) → LiesIn assignment (up_to level trail) }
{}

/// A law, with nothing to run: what a conflict refutes or learns follows from the incompatibilities, and what it learns is almost
/// satisfied at the lower level to go back to.
pub fn conflicts_are_sound()
    ensures { (sizes : List ℕ) (incompats : List (List Term)) (trail : List Assigned) (terms : List Term) (steps : List Step)
        → IsAsked sizes incompats trail terms → IsOutcome sizes incompats trail (conflict sizes incompats trail terms steps) }
{}

/// A law, with nothing to run: each turn keeps what the three lists are, and what it refutes follows from the facts.
pub fn turns_are_sound()
    ensures { (limits : Limits) (rules : Rules) (facts : List (List Term)) (state : State) → AreRules limits rules facts state
        → IsState facts state → IsAfter facts state (turn_of rules state) }
{}

/// A law, with nothing to run: every run ends.
pub fn runs_end()
    ensures { (limits : Limits) (rules : Rules) (real : State → Bool) (facts : List (List Term)) (state : State) → AreRunRules limits rules real
        → real state ≡ true → IsState facts state → IsSmall limits state.sizes → AreLoads limits state.loads → Ends rules state }
{}

/// A law, with nothing to run: each turn keeps where the incompatibilities come from, and the lines behind a refutation are checked, the last
/// of them the refutation.
pub fn refutations_are_checked()
    ensures { (limits : Limits) (rules : Rules) (facts : List (List Term)) (state : State) → AreRules limits rules facts state
        → IsState facts state → IsHistory facts state → (same : Cause → Cause → Bool) → IsHistoryAfter same facts state (turn_of rules state) }
{}

/// A law, with nothing to run: each turn keeps that the decisions are first choices, and what is selected violates no fact and is first.
pub fn selections_are_first()
    ensures { (prefers : Preference) (limits : Limits) (rules : Rules) (facts : List (List Term)) (state : State) → AreRules limits rules facts state
        → AreFirstRules prefers rules facts state → IsState facts state → IsHistory facts state → IsChosen prefers facts state
        → IsChosenAfter prefers facts state (turn_of rules state) }
{}
