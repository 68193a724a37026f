//! Laws of the definitions: each function here has one as its contract, and nothing calls them.
ghost use Rattle.std.specs.FinMap as map;
ghost use Rattle.std.specs.Prelude.{◌≡◌, ℕ, ◌+◌, ◌<◌, ◌≤◌, All, Bool, IfSome, IsSome, List, Option, Some, take};
ghost use Rattle.pub_term.specs.declared.cause.Cause.{Cause};
ghost use Rattle.spm_api.specs.Endpoint.{IsBookReply};
ghost use Rattle.spm_api.specs.declared.base.Base.{Base};
ghost use Rattle.spm_cache_core.specs.Cache.{Cache};
ghost use Rattle.spm_cache_core.specs.History.{lacked, landed};
ghost use Rattle.spm_key.specs.Catalogue.{Catalogue, Extends};
ghost use Rattle.spm_key.specs.Key.{IsKey};
ghost use Rattle.spm_key.specs.declared.key.Key.{Key};
ghost use Rattle.spm_key.specs.declared.reply.Reply.{Reply};
ghost use Rattle.spm_outside.specs.Book.{Pages};
ghost use Rattle.spm_outside.specs.Faults.{Rises};
ghost use Rattle.spm_outside.specs.Link.{LinkState};
ghost use Rattle.spm_run.specs.Calls.{all_calls_for, all_failed_calls_for, failed_calls_for, memories};
ghost use Rattle.spm_run.specs.Run.{ComesTo, IsRunOf, IsSessionOf, Setting};
ghost use Rattle.spm_session.specs.Archives.{Fingerprints};
ghost use Rattle.spm_session.specs.declared.job.RootJob.{RootJob};
ghost use Rattle.spm_session.specs.declared.outcome.Outcome.{Outcome};
ghost use Rattle.spm_session.specs.declared.outcome.Outcome.TheVariants.{FetchFault};

use spm_outside::Link;

/// A law, with nothing to run: where the links tell a book, what landed in a run is of that book, and they tell it still.
pub fn what_lands_is_of_the_book<L: Link>()
    ensures landed { (same : Cause → Cause → Bool) (base : Base) (fingerprints : Fingerprints) (workers : ℕ)
        (jobs : List RootJob) (old new : List L) (outcomes : List Outcome) (cache : Cache) (book : Option Pages)
        → IsRunOf L.state same base fingerprints workers jobs old new outcomes cache → All (λ (link : L). (L.state link).book ≡ book) old
        → (key : Key) (reply : Reply) → map.get (landed cache.history) key ≡ Some reply → IsBookReply base book key reply }
{}

/// A law, with nothing to run: where the links tell their calls, a key is asked for in a run at most once more than such calls failed, and
/// than memory wasn't there for them; for that a root or a worker stops, so that it is once for each at most. The links of the sessions
/// alone ask for it at most once more than their calls failed and than roots found no memory, however many workers there are.
pub fn calls_are_few<L: Link>()
    ensures history { (same : Cause → Cause → Bool) (base : Base) (fingerprints : Fingerprints) (workers : ℕ)
        (jobs : List RootJob) (old new : List L) (outcomes : List Outcome) (cache : Cache)
        → IsRunOf L.state same base fingerprints workers jobs old new outcomes cache → All (λ (link : L). IsSome (L.state link).calls) old
        → (key : Key) → IsKey key → all_calls_for L.state base key new + all_failed_calls_for L.state base key old
        ≤ all_calls_for L.state base key old + (all_failed_calls_for L.state base key new + (1 + lacked key cache.history)) }
    ensures outcomes { (same : Cause → Cause → Bool) (base : Base) (fingerprints : Fingerprints) (workers : ℕ)
        (jobs : List RootJob) (old new : List L) (outcomes : List Outcome) (cache : Cache)
        → IsRunOf L.state same base fingerprints workers jobs old new outcomes cache → All (λ (link : L). IsSome (L.state link).calls) old
        → (key : Key) → IsKey key → all_calls_for L.state base key new + all_failed_calls_for L.state base key old
        ≤ all_calls_for L.state base key old + (all_failed_calls_for L.state base key new + (1 + (memories outcomes + workers))) }
    ensures sessions { (same : Cause → Cause → Bool) (base : Base) (fingerprints : Fingerprints) (workers : ℕ)
        (jobs : List RootJob) (old new : List L) (outcomes : List Outcome) (cache : Cache)
        → IsRunOf L.state same base fingerprints workers jobs old new outcomes cache → All (λ (link : L). IsSome (L.state link).calls) old
        → (key : Key) → IsKey key
        → all_calls_for L.state base key (take 64 new) + all_failed_calls_for L.state base key (take 64 old)
        ≤ all_calls_for L.state base key (take 64 old) + (all_failed_calls_for L.state base key (take 64 new) + (1 + memories outcomes)) }
{}

/// A law, with nothing to run: what a root comes to in a run is the outcome over all that landed, and over each catalogue that extends that.
pub fn outcomes_are_of_what_landed()
    ensures { (setting : Setting) (actor : ℕ) (job : RootJob) (it : Outcome) (old new : LinkState) → IsSessionOf setting actor job it old new
        → (more : Catalogue) → Extends more (landed setting.history) → ComesTo setting.same more setting.fingerprints job it }
{}

/// A law, with nothing to run: where a root that isn't refused ends with a key that could not be fetched, its own link failed at a call for this
/// key: the count of its faults rose, and it has such a call, where it tells its calls.
pub fn a_fetch_fault_is_of_the_own_link()
    ensures { (setting : Setting) (actor : ℕ) (job : RootJob) (asked : Key) (old new : LinkState)
        → IsSessionOf setting actor job (FetchFault asked) old new
        → Rises old.faults new.faults × IfSome old.calls (λ calls. failed_calls_for setting.base asked old.calls < failed_calls_for setting.base asked new.calls) }
{}
