//! Laws of the definitions: each function here has one as its contract, and nothing calls them.
ghost use Rattle.std.specs.FinMap as map;
ghost use Rattle.std.specs.Prelude.{◌≡◌, ℕ, ◌+◌, ◌≤◌, [], ◌∷◌, ◌||◌, ◌++◌, Bool, List, None, Some, false, is_some, length, true, if◌then◌else◌};
ghost use Rattle.spm_cache_core.specs.Answers.{ask_answer, claim_answer};
ghost use Rattle.spm_cache_core.specs.Answers as answer;
ghost use Rattle.spm_cache_core.specs.Balance.{begun_by, broken_by, failed_by, has_acted, lacked_by};
ghost use Rattle.spm_cache_core.specs.Cache.{Cache};
ghost use Rattle.spm_cache_core.specs.Calls.{AskTells, ClaimTells};
ghost use Rattle.spm_cache_core.specs.History.{
  begun,
  broken,
  canceller,
  event,
  failed,
  flies,
  flight,
  has_cancelled,
  lacked,
  landed,
  landings,
};
ghost use Rattle.spm_cache_core.specs.Legal.{IsLegal, IsSession};
ghost use Rattle.spm_cache_core.specs.declared.answer.Asked.{Asked};
ghost use Rattle.spm_cache_core.specs.declared.answer.Claimed.{Claimed};
ghost use Rattle.spm_cache_core.specs.declared.event.Act.TheVariants.{Ask, Claim};
ghost use Rattle.spm_cache_core.specs.declared.event.AskNote.TheVariants as ask;
ghost use Rattle.spm_cache_core.specs.declared.event.ClaimNote.TheVariants as claim;
ghost use Rattle.spm_cache_core.specs.declared.event.Event.{Event};
ghost use Rattle.spm_key.specs.Catalogue.{Extends};
ghost use Rattle.spm_key.specs.declared.key.Key.{Key};

/// A law, with nothing to run: in a legal history each key was begun as often as it failed, and once more where it flies or has
/// landed; and it lands once at most.
pub fn flights_balance()
    ensures balance { (sessions workers : ℕ) (history : List Event) (key : Key) → IsLegal sessions workers history
        → begun key history
        ≡ failed key history + (if flies key history || is_some (map.get (landed history) key) then 1 else 0) }
    ensures once { (sessions workers : ℕ) (history : List Event) (key : Key) → IsLegal sessions workers history
        → landings key history ≤ 1 }
{}

/// A law, with nothing to run: what flies has not landed.
pub fn what_flies_has_not_landed()
    ensures { (sessions workers : ℕ) (history : List Event) (key : Key) → IsLegal sessions workers history
        → flies key history ≡ true → map.get (landed history) key ≡ None }
{}

/// A law, with nothing to run: a key is begun at most once more than its flights failed.
pub fn begun_at_most()
    ensures { (sessions workers : ℕ) (history : List Event) (key : Key) → IsLegal sessions workers history
        → begun key history ≤ 1 + broken key history + lacked key history }
{}

/// A law, with nothing to run: some of the actors, those that pass a test, begin a key at most once more than they fail it.
pub fn actors_balance()
    ensures failed { (test : ℕ → Bool) (sessions workers : ℕ) (history : List Event) (key : Key)
        → IsLegal sessions workers history → begun_by test key history ≤ 1 + failed_by test key history }
    ensures reasons { (test : ℕ → Bool) (sessions workers : ℕ) (history : List Event) (key : Key)
        → IsLegal sessions workers history
        → begun_by test key history ≤ 1 + broken_by test key history + lacked_by test key history }
{}

/// A law, with nothing to run: what has landed stays, and so does who was the first to cancel. No legality is needed.
pub fn landed_stays()
    ensures landed { (history more : List Event) → Extends (landed (history ++ more)) (landed history) }
    ensures canceller { (history more : List Event) (by : ℕ) → canceller history ≡ Some by
        → canceller (history ++ more) ≡ Some by }
{}

/// A law, with nothing to run: while an actor does nothing, its flights stay open, and it stays a session that has not ended and
/// one that has not cancelled.
pub fn flights_follow()
    ensures flight { (sessions workers : ℕ) (history more : List Event) (key : Key) (number by : ℕ)
        → IsLegal sessions workers (history ++ more) → flight key history ≡ Some (number, by) → has_acted by more ≡ false
        → flight key (history ++ more) ≡ Some (number, by) }
    ensures session { (sessions : ℕ) (history more : List Event) (actor : ℕ) → IsSession sessions history actor
        → has_acted actor more ≡ false → IsSession sessions (history ++ more) actor }
    ensures cancelled { (history more : List Event) (actor : ℕ) → has_cancelled actor history ≡ false
        → has_acted actor more ≡ false → has_cancelled actor (history ++ more) ≡ false }
{}

/// A law, with nothing to run: the beginning of a legal history is legal.
pub fn legal_before()
    ensures { (sessions workers : ℕ) (history more : List Event) → IsLegal sessions workers (history ++ more)
        → IsLegal sessions workers history }
{}

/// A law, with nothing to run: an ask and a claim have one answer, and leave one state.
pub fn answers_are_determined()
    ensures asked { (one other : Asked) (actor : ℕ) (key : Key) (old new next : Cache) → AskTells one actor key old new
        → AskTells other actor key old next → (one ≡ other) × (new ≡ next) }
    ensures claimed { (one other : Claimed) (actor : ℕ) (old new next : Cache) → ClaimTells one actor old new
        → ClaimTells other actor old next → (one ≡ other) × (new ≡ next) }
{}

/// A law, with nothing to run: where an ask or a claim is answered that the key is to be fetched, its flight is open after that, with
/// the place of that event for a number. So a ticket that was just given can be spent.
pub fn tickets_fly()
    ensures asked { (sessions workers : ℕ) (history : List Event) (actor : ℕ) (key : Key) → IsLegal sessions workers history
        → ask_answer history actor key ≡ answer.Fetch
        → flight key (history ++ event actor (Ask key ask.Fetch) ∷ []) ≡ Some (length history, actor) }
    ensures claimed { (sessions workers : ℕ) (history : List Event) (actor : ℕ) (key : Key)
        → IsLegal sessions workers history → claim_answer sessions history ≡ answer.Fetch key
        → flight key (history ++ event actor (Claim (claim.Fetch key)) ∷ []) ≡ Some (length history, actor) }
{}
