// How each actor gets its pass, its link and its job.
ghost use Rattle.std.specs.Prelude.{◌≡◌, ◌+◌, ◌-◌, ◌≤◌, [], ◌∷◌, ◌++◌, IfNone, IfOk, IfSome, OnErr, OnOk, drop, length, take, vec_capacity, vec_len};
ghost use Rattle.spm_run.specs.Actors.{seated};
ghost use Rattle.std.specs.Vec.Iter.{into_iter_items};
ghost use Rattle.spm_run.specs.Links.{turned};

use crate::actor::Actor;
use spm_cache::Pass;
use spm_session::RootJob;
use spm_version::{Items, NoMemory};
use std::vec::IntoIter;

/// How many links are handed to a run.
pub const LINKS: usize = 80;

/// How many of them are for sessions: the first ones. The others are for workers.
pub(crate) const SESSIONS: usize = 64;

// Turns a part of the links, from `start` to `end`, so that those from `middle` on come before the others.
fn turn<L>(links: &mut Vec<L>, start: usize, middle: usize, end: usize)
    requires { (start ≤ middle) × (middle ≤ end) × (end ≤ length links.old.items) }
    ensures items { links.new.items ≡ turned start middle end links.old.items }
    ensures len { vec_len links.new ≡ vec_len links.old }
    ensures room { vec_capacity links.new ≡ vec_capacity links.old }
{
    let (_, rest) = links.as_mut_slice().split_at_mut(start);
    let (part, _) = rest.split_at_mut(end - start);
    part.rotate_left(middle - start);
}

/// Leaves the links of so many sessions and workers, and gives the others.
///
/// # Errors
///
/// `NoMemory` alone. All links are as they were then.
pub(crate) fn part_links<L: Drop>(
    links: &mut Vec<L>,
    roots: usize,
    workers: usize,
) -> Result<Vec<L>, NoMemory>
    requires links { length links.old.items ≡ LINKS }
    requires few { (roots ≤ 64) × (workers ≤ 16) }
    ensures parts { IfOk result (λ idle. turned roots 64 (64 + workers) links.old.items ≡ links.new.items ++ idle.items) }
    ensures used { OnOk result (length links.new.items ≡ roots + workers) }
    ensures others { IfOk result (λ idle. length idle.items + roots + workers ≡ LINKS) }
    ensures room { vec_capacity links.new ≡ vec_capacity links.old }
    ensures err { OnErr result (links.new.items ≡ links.old.items) }
{
    let last = SESSIONS + workers;
    turn(links, roots, SESSIONS, last);
    match links.split_off(roots + workers) {
        Ok(idle) => Ok(idle),
        Err(_) => {
            turn(links, roots, roots + workers, last);
            Err(NoMemory)
        }
    }
}

/// Puts the links of so many sessions, and those of workers behind them, back among the others. Takes no memory.
pub(crate) fn join_links<L: Drop>(links: &mut Vec<L>, idle: Vec<L>, roots: usize, workers: usize)
    requires few { (roots ≤ 64) × (workers ≤ 16) }
    requires links { length links.old.items ≡ roots + workers }
    requires idle { length idle.items + roots + workers ≡ LINKS }
    requires room { LINKS ≤ vec_capacity links.old }
    ensures { links.new.items ≡ turned roots (roots + workers) (64 + workers) (links.old.items ++ idle.items) }
{
    let mut idle = idle;
    let _ = links.append(&mut idle);
    turn(links, roots, roots + workers, SESSIONS + workers);
}

// The next actor: the next pass and link, with the next job if there is one.
fn next_actor<L: Drop>(
    passes: &mut IntoIter<Pass>,
    links: &mut IntoIter<L>,
    jobs: &mut IntoIter<RootJob>,
) -> Option<Actor<L>>
    ensures some { IfSome result (λ actor. seated (into_iter_items passes.old) (into_iter_items links.old) (into_iter_items jobs.old)
        ≡ actor ∷ seated (into_iter_items passes.new) (into_iter_items links.new) (into_iter_items jobs.new)) }
    ensures none { IfNone result (seated (into_iter_items passes.old) (into_iter_items links.old) (into_iter_items jobs.old) ≡ []) }
    ensures fewer { IfSome result (λ actor. length (into_iter_items passes.new) + 1 ≡ length (into_iter_items passes.old)) }
{
    let pass = passes.next()?;
    let link = links.next()?;
    Some(Actor {
        pass,
        link,
        job: jobs.next(),
        outcome: None,
    })
}

/// Gives each pass the link beside it, and the first of them the jobs. Takes no memory.
pub(crate) fn seat_all<L: Drop>(
    actors: &mut Vec<Actor<L>>,
    passes: Vec<Pass>,
    links: Vec<L>,
    jobs: Items<RootJob>,
)
    requires empty { actors.old.items ≡ [] }
    requires room { length passes.items ≤ vec_capacity actors.old }
    ensures { actors.new.items ≡ seated passes.items links.items jobs }
{
    let mut passes = passes.into_iter();
    let mut links = links.into_iter();
    let mut jobs = jobs.into_vec().into_iter();
    while let Some(actor) = next_actor(&mut passes, &mut links, &mut jobs) {
        actors.push_reserved(actor);
    }
}
