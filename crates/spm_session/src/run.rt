// A resolution, from its first turn to its outcome.
ghost use Rattle.std.specs.Prelude.{◌≡◌, ◌<◌, ℕ, IfErr, IfOk, List, OnErr, OnOk};
ghost use Rattle.pub_plain.specs.Ending.{steps_left};
ghost use Rattle.pub_plain.specs.Gives.{IsGiven};
ghost use Rattle.pub_plain.specs.Solver.{turn_now};
ghost use Rattle.pub_term.specs.declared.term.Term.{Term};
ghost use Rattle.pub_trail.specs.Turn.{Needs, Refuted, Selected, Step};
ghost use Rattle.spm_session.specs.Archives.{Fingerprints};
ghost use Rattle.spm_session.specs.Known.{IsWider, in_book};
ghost use Rattle.spm_session.specs.Outcome.{CanBeTold};
ghost use Rattle.spm_session.specs.Run.{
  EndsBy,
  FaultsOfJob,
  GoesBy,
  IsEnd,
  IsInput,
  IsPutAs,
  IsReadyEnd,
  IsRefusedBy,
  IsRun,
  WentOfJob,
};

use crate::alone::Alone;
use crate::archives::look_at_pins;
use crate::asking::{fetched, refused};
use crate::job::{RootInput, RootJob};
use crate::outcome::Outcome;
use crate::source::Source;
use pub_plain::Plain;
use pub_term::Cause;
use pub_trail::Turned;
use spm_api::{Base, guess};
use spm_key::{Key, Reply};
use spm_outside::Link;
use spm_trust::Trust;
use spm_version::NoMemory;
use std::alloc::Global;

// The outcome of a selection, once the archives of its pins were looked at.
fn selected<S: Source>(alloc: Global, plain: &Plain, trust: &Trust, source: &mut S) -> Outcome
    requires selected { turn_now plain.now ≡ Selected }
    requires ready { S.ready source.old }
    ensures ready { S.ready source.new }
    ensures end { IsRun (S.knows source.old) plain.now
        → IsReadyEnd ⟦<Cause as PartialEq>⟧.eq (S.knows source.new) plain.now.job trust.now plain.now.pins result }
    ensures told { CanBeTold result }
    ensures went { EndsBy S.goes S.misses source.old source.new result }
    ensures wider { IsWider (S.knows source.old) (S.knows source.new) }
{
    let turns = plain.turns();
    let pins = match plain.pins() {
        Ok(pins) => pins,
        Err(NoMemory) => return Outcome::Memory,
    };
    match look_at_pins(alloc, trust, pins.as_slice(), source) {
        Ok(checksums) => Outcome::Resolved {
            pins,
            checksums,
            turns,
        },
        Err(outcome) => outcome,
    }
}

// The outcome of a refutation.
fn refuted(plain: &Plain) -> Result<Outcome, NoMemory>
    requires { (terms : List Term) × (first : ℕ) × (steps : List Step) × (turn_now plain.now ≡ Refuted terms first steps) }
    ensures put { IfOk result (λ it. IsPutAs ⟦<Cause as PartialEq>⟧.eq plain.now it) }
{
    let derivation = plain.derivation()?;
    let choices = plain.choices_text()?;
    let turns = plain.turns();
    Ok(Outcome::Refuted {
        derivation,
        choices,
        turns,
    })
}

// Gives the solver the reply of a key that it needs, and gives the key back.
fn give(plain: &mut Plain, key: Key, reply: &Reply) -> Result<Key, Outcome>
    requires { turn_now plain.old ≡ Needs key }
    ensures key { IfOk result (λ given. given ≡ key) }
    ensures ok { OnOk result (IsGiven key reply.now plain.old plain.new) }
    ensures err { IfErr result (λ it. IsRefusedBy key reply.now it) }
    ensures same { OnErr result (plain.new ≡ plain.old) }
{
    match plain.give(&key, reply) {
        Ok(()) => Ok(key),
        Err(fault) => Err(refused(key, fault)),
    }
}

// Says what a reply makes likely to be wanted next, where that may be fetched ahead.
fn look_ahead<S: Source>(
    alloc: Global,
    source: &mut S,
    key: &Key,
    reply: &Reply,
) -> Result<(), NoMemory>
    requires ready { S.ready source.old }
    ensures ready { S.ready source.new }
    ensures goes { S.goes source.old source.new }
{
    if !source.looks_ahead() {
        return Ok(());
    }
    let keys = guess(alloc, key, reply)?;
    source.expect(keys.as_slice())
}

// Has the reply of a key that the solver needs, and gives it.
fn demand<S: Source>(
    alloc: Global,
    plain: &mut Plain,
    source: &mut S,
    key: Key,
) -> Result<(), Outcome>
    requires needs { turn_now plain.old ≡ Needs key }
    requires ready { S.ready source.old }
    ensures ready { S.ready source.new }
    ensures run { OnOk result (IsRun (S.knows source.old) plain.old → IsRun (S.knows source.new) plain.new) }
    ensures job { OnOk result ((plain.new.job ≡ plain.old.job) × (plain.new.pins ≡ plain.old.pins)) }
    ensures falls { OnOk result (IsRun (S.knows source.old) plain.old → steps_left plain.new < steps_left plain.old) }
    ensures end { IfErr result (λ it. (fingerprints : Fingerprints) → IsRun (S.knows source.old) plain.old
        → IsReadyEnd ⟦<Cause as PartialEq>⟧.eq (S.knows source.new) plain.old.job fingerprints plain.old.pins it) }
    ensures told { IfErr result (λ it. IsRun (S.knows source.old) plain.old → CanBeTold it) }
    ensures went { GoesBy S.goes S.misses source.old source.new result }
    ensures wider { IsWider (S.knows source.old) (S.knows source.new) }
{
    let (key, reply) = match fetched(alloc, source, key) {
        Ok(found) => found,
        Err(outcome) => return Err(outcome),
    };
    let key = match give(plain, key, reply.reply()) {
        Ok(key) => key,
        Err(outcome) => return Err(outcome),
    };
    Ok(look_ahead(alloc, source, &key, reply.reply())?)
}

// One turn, or one reply that it needs.
fn step<S: Source>(
    alloc: Global,
    plain: &mut Plain,
    trust: &Trust,
    source: &mut S,
) -> Result<(), Outcome>
    requires ready { S.ready source.old }
    ensures ready { S.ready source.new }
    ensures run { OnOk result (IsRun (S.knows source.old) plain.old → IsRun (S.knows source.new) plain.new) }
    ensures job { OnOk result ((plain.new.job ≡ plain.old.job) × (plain.new.pins ≡ plain.old.pins)) }
    ensures falls { OnOk result (IsRun (S.knows source.old) plain.old → steps_left plain.new < steps_left plain.old) }
    ensures end { IfErr result (λ it. IsRun (S.knows source.old) plain.old
        → IsReadyEnd ⟦<Cause as PartialEq>⟧.eq (S.knows source.new) plain.old.job trust.now plain.old.pins it) }
    ensures told { IfErr result (λ it. IsRun (S.knows source.old) plain.old → CanBeTold it) }
    ensures went { GoesBy S.goes S.misses source.old source.new result }
    ensures wider { IsWider (S.knows source.old) (S.knows source.new) }
{
    match plain.turn()? {
        Turned::Went => Ok(()),
        Turned::Need(key) => demand(alloc, plain, source, key),
        Turned::Selected => Err(selected(alloc, plain, trust, source)),
        Turned::Refuted => Err(refuted(plain)?),
        Turned::TooWide(wide) => Err(Outcome::TooWide(wide)),
    }
}

// Turns the solver to its end.
fn turn_on<S: Source>(alloc: Global, plain: Plain, trust: &Trust, source: &mut S) -> Outcome
    requires run { IsRun (S.knows source.old) plain }
    requires ready { S.ready source.old }
    ensures ready { S.ready source.new }
    ensures end { IsReadyEnd ⟦<Cause as PartialEq>⟧.eq (S.knows source.new) plain.job trust.now plain.pins result }
    ensures told { CanBeTold result }
    ensures went { EndsBy S.goes S.misses source.old source.new result }
    ensures wider { IsWider (S.knows source.old) (S.knows source.new) }
{
    let mut plain = plain;
    loop {
        if let Err(outcome) = step(alloc, &mut plain, trust, source) {
            return outcome;
        }
    }
}

/// Resolves a root from a source of replies: the plain resolution. It asks for each key that the solver demands, once, in the order of first
/// demand, and then for the release and the archive of each pin.
pub(crate) fn resolve<S: Source>(
    alloc: Global,
    job: RootJob,
    trust: &Trust,
    source: &mut S,
) -> Outcome
    requires ready { S.ready source.old }
    requires input { IsInput job.input }
    ensures ready { S.ready source.new }
    ensures end { IsEnd ⟦<Cause as PartialEq>⟧.eq (S.knows source.new) trust.now job result }
    ensures told { CanBeTold result }
    ensures went { WentOfJob S.goes S.misses job.input source.old source.new result }
{
    let RootJob {
        input,
        asked,
        tools,
        ..
    } = job;
    let (manifest, pins) = match input {
        RootInput::Refused(outcome) => return outcome,
        RootInput::Ready { manifest, pins, .. } => (manifest, pins),
    };
    match Plain::new(alloc, manifest, asked, pins, tools) {
        Ok(plain) => turn_on(alloc, plain, trust, source),
        Err(NoMemory) => Outcome::Memory,
    }
}

/// Resolves a root over a link of its own: the plain resolution, in one thread. It fetches each key that the solver demands, once, in the
/// order of first demand, and then the release and the archive of each pin. It returns, whatever the link answers, where each of the link's
/// calls does; what it returns is the outcome of the definition over replies of the link's book, or a fault of the link, or want of memory.
pub fn run_alone<L: Link>(
    alloc: Global,
    job: RootJob,
    trust: &Trust,
    base: &Base,
    link: &mut L,
) -> Outcome
    requires { IsInput job.input }
    ensures end { IsEnd ⟦<Cause as PartialEq>⟧.eq (in_book (L.state link.old).book base.now) trust.now job result }
    // A refutation can be put into words (`explain` of `spm_explain`).
    ensures told { CanBeTold result }
    ensures faults { FaultsOfJob job.input result (L.state link.old).faults (L.state link.new).faults }
    ensures book { (L.state link.new).book ≡ (L.state link.old).book }
{
    let mut source = Alone { base, link };
    resolve(alloc, job, trust, &mut source)
}
