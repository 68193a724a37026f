//! Laws of the definitions: each function here has one as its contract, and nothing calls them.
ghost use Rattle.std.specs.Prelude.{◌≡◌, ℕ, ◌+◌, ◌||◌, true, List, [], ◌∷◌, ◌++◌, length};
ghost use Rattle.spm_turn.specs.Log.{has, of_numbers, places_of, NoneShared, OthersFollow};

/// A law, with nothing to run: where a history goes on by entries of others, the entries of one's own numbers stay, and so do their
/// places.
pub fn others_keep_ones_own<E>()
    ensures places { (by : E → ℕ) (numbers : List ℕ) (seen log : List E) → OthersFollow by numbers seen log
        → places_of by numbers log ≡ places_of by numbers seen }
    ensures entries { (by : E → ℕ) (numbers : List ℕ) (seen log : List E) → OthersFollow by numbers seen log
        → of_numbers by numbers log ≡ of_numbers by numbers seen }
{}

/// A law, with nothing to run: an entry of one's own is one more place, the last, and one more entry.
pub fn turns_add_the_last_place<E>()
    ensures places { (by : E → ℕ) (numbers : List ℕ) (log : List E) (entry : E) → has numbers (by entry) ≡ true
        → places_of by numbers (log ++ entry ∷ []) ≡ places_of by numbers log ++ length log ∷ [] }
    ensures entries { (by : E → ℕ) (numbers : List ℕ) (log : List E) (entry : E) → has numbers (by entry) ≡ true
        → of_numbers by numbers (log ++ entry ∷ []) ≡ of_numbers by numbers log ++ entry ∷ [] }
{}

/// A law, with nothing to run: a seat of two has the places of both, and as many entries as the two together.
pub fn those_who_met_have_both<E>()
    ensures places { (by : E → ℕ) (first second : List ℕ) (log : List E) (place : ℕ)
        → has (places_of by (first ++ second) log) place ≡ (has (places_of by first log) place || has (places_of by second log) place) }
    ensures entries { (by : E → ℕ) (first second : List ℕ) (log : List E) → NoneShared first second
        → length (of_numbers by (first ++ second) log) ≡ length (of_numbers by first log) + length (of_numbers by second log) }
{}
