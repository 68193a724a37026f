ghost use Rattle.std.specs.Prelude.{◌≡◌, ℕ, ◌+◌, ◌<◌, ◌≤◌, ◌&&◌, Bool, Contains, false, length, nat_lt, true};
ghost use Rattle.pub_set.specs.Choices.{
  ChoiceSet,
  IsSet,
  has,
  intersection,
  is_within,
  opposite,
  set_where,
  union,
};
ghost use Rattle.pub_set.specs.Runs.{AreRuns, runs_of};
ghost use Rattle.pub_set.specs.declared.runs.Run.{Run};

/// A law, with nothing to run: what the operations' results have. A set has no choice from its size on.
pub fn sets_have()
    ensures below { (set : ChoiceSet) (choice : ℕ) → IsSet set → has set choice ≡ true → choice < set.size }
    ensures made { (size choice : ℕ) (test : ℕ → Bool)
        → has (set_where size test) choice ≡ (nat_lt choice size && test choice) }
    ensures sets { (size : ℕ) (test : ℕ → Bool) → IsSet (set_where size test) }
    ensures same { (first second : ChoiceSet) → IsSet first → IsSet second → first.size ≡ second.size
        → ((choice : ℕ) → choice < first.size → has first choice ≡ has second choice) → first ≡ second }
{}

/// A law, with nothing to run: a set's runs are its maximal ones. They ascend with a gap between two neighbours, and have its
/// choices and no other.
pub fn runs_are_maximal()
    ensures filled { (set : ChoiceSet) (run : Run) (choice : ℕ) → IsSet set → Contains (runs_of set) run → run.first ≤ choice
        → choice ≤ run.last → has set choice ≡ true }
    ensures before { (set : ChoiceSet) (run : Run) (choice : ℕ) → IsSet set → Contains (runs_of set) run
        → choice + 1 ≡ run.first → has set choice ≡ false }
    ensures behind { (set : ChoiceSet) (run : Run) → IsSet set → Contains (runs_of set) run → has set (run.last + 1) ≡ false }
    ensures covered { (set : ChoiceSet) (choice : ℕ) → IsSet set → has set choice ≡ true
        → (run : Run) × Contains (runs_of set) run × (run.first ≤ choice) × (choice ≤ run.last) }
    ensures apart { (set : ChoiceSet) → IsSet set → AreRuns 0 (set.size + 1) (runs_of set) }
{}

/// A law, with nothing to run: an intersection and a union have at most as many runs as both sets together, and an opposite has at
/// most one more than its set.
pub fn few_runs()
    ensures intersection { (a b : ChoiceSet) → IsSet a → IsSet b → a.size ≡ b.size
        → length (runs_of (intersection a b)) ≤ length (runs_of a) + length (runs_of b) }
    ensures union { (a b : ChoiceSet) → IsSet a → IsSet b → a.size ≡ b.size
        → length (runs_of (union a b)) ≤ length (runs_of a) + length (runs_of b) }
    ensures opposite { (a : ChoiceSet) → IsSet a → length (runs_of (opposite a)) ≤ length (runs_of a) + 1 }
{}

/// A law, with nothing to run: how many choices a set, its opposite and an intersection have. A set that is not within another has
/// fewer in common with it than it has.
pub fn choices_are_counted()
    ensures opposite { (set : ChoiceSet) → IsSet set → length set.members + length (opposite set).members ≡ set.size }
    ensures parts { (a b : ChoiceSet) → IsSet a → IsSet b → a.size ≡ b.size
        → length (intersection a b).members + length (intersection a (opposite b)).members ≡ length a.members }
    ensures fewer { (a b : ChoiceSet) → IsSet a → IsSet b → a.size ≡ b.size → is_within a b ≡ false
        → length (intersection a b).members < length a.members }
{}
