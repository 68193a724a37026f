// What comes back of the actors.
ghost use Rattle.std.specs.Prelude.{◌≡◌, ◌+◌, ◌<◌, ◌≤◌, [], ◌∷◌, ◌++◌, IfSome, List, length, vec_capacity, vec_len};
ghost use Rattle.std.specs.List.{cons_option};
ghost use Rattle.spm_cache.specs.Passing.{Passing};
ghost use Rattle.spm_run.specs.Actors.{AreMet, AreMetIn, AreOf, links_of, outcomes_of, passes_of};

use crate::actor::Actor;
use spm_cache::{Cache, Pass};
use spm_session::Outcome;

// One pass of those that met and of the next one.
fn meet_next(cache: &Cache, whole: Option<Pass>, pass: Pass) -> Pass
    requires whole { IfSome whole (λ whole. whole.of ≡ cache.now.id) }
    requires next { pass.of ≡ cache.now.id }
    ensures met { (passes : List Passing) → AreMetIn passes whole → AreMet (passes ++ pass ∷ []) result }
    ensures of { result.of ≡ cache.now.id }
{
    match whole {
        Some(whole) => cache.meet(whole, pass),
        None => pass,
    }
}

// Puts an outcome behind the others, if there is one. Takes no memory.
fn keep(outcomes: &mut Vec<Outcome>, outcome: Option<Outcome>)
    requires room { vec_len outcomes.old < vec_capacity outcomes.old }
    ensures items { outcomes.new.items ≡ outcomes.old.items ++ cons_option outcome [] }
    ensures len { vec_len outcomes.new ≤ vec_len outcomes.old + 1 }
    ensures room { vec_capacity outcomes.new ≡ vec_capacity outcomes.old }
{
    if let Some(outcome) = outcome {
        outcomes.push_reserved(outcome);
    }
}

/// Takes the links and the outcomes back, in the order of the actors, and meets their passes. Takes no memory.
pub(crate) fn take_back<L: Drop>(
    cache: &Cache,
    actors: Vec<Actor<L>>,
    links: &mut Vec<L>,
    outcomes: &mut Vec<Outcome>,
) -> Option<Pass>
    requires of { AreOf cache.now.id actors.items }
    requires links { length links.old.items + length actors.items ≤ vec_capacity links.old }
    requires outcomes { length outcomes.old.items + length actors.items ≤ vec_capacity outcomes.old }
    ensures links { links.new.items ≡ links.old.items ++ links_of actors.items }
    ensures outcomes { outcomes.new.items ≡ outcomes.old.items ++ outcomes_of actors.items }
    ensures met { AreMetIn (passes_of actors.items) result }
    ensures of { IfSome result (λ whole. whole.of ≡ cache.now.id) }
    ensures room { vec_capacity links.new ≡ vec_capacity links.old }
{
    let mut whole = None;
    for actor in actors {
        links.push_reserved(actor.link);
        keep(outcomes, actor.outcome);
        whole = Some(meet_next(cache, whole, actor.pass));
    }
    whole
}
