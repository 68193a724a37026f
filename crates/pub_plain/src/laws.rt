//! Laws of the definitions: each function here has one as its contract, and nothing calls them.
ghost use Rattle.pub_facts.specs.Catalogue.{Job};
ghost use Rattle.pub_facts.specs.Enabled.{Selection};
ghost use Rattle.pub_facts.specs.First.{IsFirst};
ghost use Rattle.pub_facts.specs.Valid.{IsValid};
ghost use Rattle.pub_plain.specs.Answers.{Answers, AreShort, Carries, answers_of, catalogue_by, lookups_by};
ghost use Rattle.pub_plain.specs.Choosing.{Pins, pin_of};
ghost use Rattle.pub_plain.specs.Derivation.{derivation_in, pins_in};
ghost use Rattle.pub_plain.specs.Ending.{AreFew, IsRunning, steps_left};
ghost use Rattle.pub_plain.specs.FactLines.{IsFactLine};
ghost use Rattle.pub_plain.specs.Gives.{IsGiven};
ghost use Rattle.pub_plain.specs.Invariant.{IsSolver};
ghost use Rattle.pub_plain.specs.Plain.{opening, plain_after, plain_limits, rules_of};
ghost use Rattle.pub_plain.specs.Preferred.{AreAscending, IsWider, prefers_by};
ghost use Rattle.pub_plain.specs.Solver.{Solver, Turns, answers_now, turn_now};
ghost use Rattle.pub_plain.specs.Stops.{IsStill, TurnStops};
ghost use Rattle.pub_proof.specs.Checked.{checked_of};
ghost use Rattle.pub_proof.specs.Checks.{own_facts};
ghost use Rattle.pub_term.specs.declared.cause.Cause.{Cause};
ghost use Rattle.pub_term.specs.declared.term.Term.{Term};
ghost use Rattle.pub_trail.specs.Derived.{IsHistory};
ghost use Rattle.pub_trail.specs.First.{IsChosen, Preference};
ghost use Rattle.pub_trail.specs.Invariant.{AreRules, IsState};
ghost use Rattle.pub_trail.specs.Measure.{Ends, IsLast};
ghost use Rattle.pub_trail.specs.Turn.{Needs, Refuted, Selected, State, Step, Turn, Went, turn_of};
ghost use Rattle.pub_trail.specs.declared.turned.Turned.TheVariants as turned;
ghost use Rattle.spm_key.specs.Catalogue as replies;
ghost use Rattle.spm_key.specs.declared.key.Key.{Key};
ghost use Rattle.spm_key.specs.declared.reply.Reply.{Reply};
ghost use Rattle.spm_version.specs.Release.{Parts};
ghost use Rattle.std.specs.Cmp.Lexicographic.{slice_cmp};
ghost use Rattle.std.specs.List.Sorted.{IsStrictlySortedBy};
ghost use Rattle.std.specs.Ordering.{nat_cmp};
ghost use Rattle.std.specs.Prelude.{◌≡◌, ◌<◌, ℕ, All, Bool, List, [], IsOk, map, suc};

/// A law, with nothing to run: a turn needs a key only where nothing is said of it, and finds the versions of a package too many only
/// where its list says so.
pub fn a_turn_needs_what_is_not_given()
    ensures { (job : Job) (pins : Pins) (answers : Answers) (state : State)
        → TurnStops answers (turn_of (rules_of job pins answers) state) }
{}

/// A law, with nothing to run: what a solver's lists are at each moment they are at its opening, before any fact.
pub fn a_solver_opens_right()
    ensures state { IsState [] opening }
    ensures history { IsHistory [] opening }
    ensures chosen { (prefers : Preference) → IsChosen prefers [] opening }
    ensures solver { (answers : Answers) → AreShort answers → IsSolver answers opening }
{}

/// A law, with nothing to run: at each state of a solver the rules of its turns are right, and its turns keep what a solver is.
pub fn the_rules_are_right()
    ensures rules { (job : Job) (pins : Pins) (answers : Answers) (state : State) → (is : IsSolver answers state)
        → AreRules plain_limits (rules_of job pins answers) is.facts state }
    ensures kept { (job : Job) (pins : Pins) (answers : Answers) (state next : State) → IsSolver answers state
        → turn_of (rules_of job pins answers) state ≡ Went next → IsSolver answers next }
{}

/// A law, with nothing to run: what is said of more keys changes nothing of a solver, nor of a turn that needs no more, or a key of which
/// nothing more is said.
pub fn more_answers_change_nothing()
    ensures solver { (answers more : Answers) (state : State) → IsSolver answers state → Carries answers more → AreShort more → IsSolver more state }
    ensures turn { (job : Job) (pins : Pins) (answers more : Answers) (state : State) → IsSolver answers state → Carries answers more
        → IsStill more (turn_of (rules_of job pins answers) state)
        → turn_of (rules_of job pins more) state ≡ turn_of (rules_of job pins answers) state }
{}

/// A law, with nothing to run: the derivation behind a refutation is checked by its own facts.
pub fn a_refutation_is_checked()
    ensures { (same : Cause → Cause → Bool) (job : Job) (pins : Pins) (answers : Answers) (state : State) (terms : List Term) (first : ℕ)
        (steps : List Step) → IsSolver answers state → turn_of (rules_of job pins answers) state ≡ Refuted terms first steps
        → IsOk (checked_of (derivation_in same (lookups_by answers) state first steps).nodes
        (derivation_in same (lookups_by answers) state first steps).sizes
        (own_facts (derivation_in same (lookups_by answers) state first steps).lines)
        (derivation_in same (lookups_by answers) state first steps).lines) }
{}

/// A law, with nothing to run: the states that a run goes to are a solver's, what is said of more keys changes none of them, a turn more goes
/// on from the last, and a run has one end.
pub fn runs_go_on()
    ensures solver { (job : Job) (pins : Pins) (answers : Answers) (n : ℕ) (state : State) → AreShort answers
        → plain_after job pins answers n ≡ Went state → IsSolver answers state }
    ensures more { (job : Job) (pins : Pins) (answers more : Answers) (n : ℕ) (state : State) → AreShort answers → AreShort more → Carries answers more
        → plain_after job pins answers n ≡ Went state → plain_after job pins more n ≡ Went state }
    ensures step { (job : Job) (pins : Pins) (answers : Answers) (n : ℕ) (state : State) → plain_after job pins answers n ≡ Went state
        → plain_after job pins answers (suc n) ≡ turn_of (rules_of job pins answers) state }
    ensures one { (job : Job) (pins : Pins) (answers : Answers) (n m : ℕ) (state other : State) → plain_after job pins answers n ≡ Went state
        → plain_after job pins answers m ≡ Went other → IsLast (turn_of (rules_of job pins answers) state)
        → IsLast (turn_of (rules_of job pins answers) other) → (n ≡ m) × (state ≡ other) }
{}

/// A law, with nothing to run: the pins of a solver are those of its packages, in ascending order of their identities.
pub fn pins_ascend()
    ensures { (answers : Answers) (state : State) → IsSolver answers state
        → IsStrictlySortedBy (slice_cmp nat_cmp) (map (λ (pin : List ℕ × Parts). pin.0) (pins_in (lookups_by answers) state)) }
{}

/// A law, with nothing to run: a resolution ends. A number falls at each turn that goes on and at each reply that a turn needs, whatever
/// the replies are; and over one lot of replies there is a number of turns after which a solver has ended, or asks for a key.
pub fn resolutions_end()
    ensures turned { (old new : Solver) → IsRunning (answers_now old) old.state → AreFew (answers_now old) → Turns turned.Went old new
        → steps_left new < steps_left old }
    ensures given { (asked : Key) (reply : Reply) (old new : Solver) → IsRunning (answers_now old) old.state → AreFew (answers_now old)
        → turn_now old ≡ Needs asked → IsGiven asked reply old new → steps_left new < steps_left old }
    ensures few { (asked : Key) (reply : Reply) (old new : Solver) → AreFew (answers_now old) → IsGiven asked reply old new
        → AreFew (answers_now new) }
    ensures ends { (job : Job) (pins : Pins) (answers : Answers) → AreShort answers → Ends (rules_of job pins answers) opening }
{}

/// A law, with nothing to run: where a solver refutes, each fact line of its derivation is one of the facts of a load that was done, and
/// there is no valid selection, in any catalogue that says the same of the keys that were given.
pub fn a_refutation_means_none()
    ensures facts { (same : Cause → Cause → Bool) (job : Job) (pins : Pins) (answers : Answers) (n : ℕ) (state : State) (terms : List Term)
        (first : ℕ) (steps : List Step) → AreShort answers → plain_after job pins answers n ≡ Went state
        → turn_of (rules_of job pins answers) state ≡ Refuted terms first steps
        → All (IsFactLine job answers state) (derivation_in same (lookups_by answers) state first steps).lines }
    ensures none { (job : Job) (pins : Pins) (answers more : Answers) (n : ℕ) (state : State) (terms : List Term) (first : ℕ) (steps : List Step)
        (selection : Selection) → AreShort answers → AreShort more → Carries answers more → plain_after job pins answers n ≡ Went state
        → turn_of (rules_of job pins answers) state ≡ Refuted terms first steps → IsValid job (catalogue_by more) selection → ⊥ }
{}

/// A law, with nothing to run: where a solver selects, its pins are the first valid selection: they are valid, and at each step no version
/// that is preferred to the chosen one lies in a valid selection of any catalogue that says the same of the keys that were given.
pub fn a_selection_is_first()
    ensures { (job : Job) (pins : Pins) (answers : Answers) (n : ℕ) (state : State) → AreShort answers → AreAscending answers
        → plain_after job pins answers n ≡ Went state → turn_of (rules_of job pins answers) state ≡ Selected
        → IsFirst (prefers_by pins) (IsWider answers) job (catalogue_by answers) (pin_of (pins_in (lookups_by answers) state)) }
{}

/// A law, with nothing to run: the lists that replies say ascend.
pub fn said_lists_ascend()
    ensures { (c : replies.Catalogue) → AreAscending (answers_of c) }
{}

/// A law, with nothing to run: what is resolved is resolved again with the same pins, over the same replies.
pub fn resolving_again_keeps_the_pins()
    ensures { (job : Job) (pins : Pins) (answers : Answers) (n m : ℕ) (state again : State) → AreShort answers → AreAscending answers
        → plain_after job pins answers n ≡ Went state → turn_of (rules_of job pins answers) state ≡ Selected
        → plain_after job (pins_in (lookups_by answers) state) answers m ≡ Went again
        → turn_of (rules_of job (pins_in (lookups_by answers) state) answers) again ≡ Selected
        → pins_in (lookups_by answers) again ≡ pins_in (lookups_by answers) state }
{}
