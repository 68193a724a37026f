// The archives of the pins of a selection.
ghost use Rattle.std.specs.Prelude.{◌≡◌, IfErr, IfOk, None, option_and_then};
ghost use Rattle.spm_api.specs.Bodies.{checksum_of};
ghost use Rattle.spm_api.specs.Guess.{bytes_in};
ghost use Rattle.spm_api.specs.Refused.{reply_refusal};
ghost use Rattle.spm_session.specs.Archives.{
  archive_by,
  archive_key,
  checksum_by,
  checksum_in,
  looked_at,
  matched,
  no_archive,
  pin_looked,
  pins_looked,
  release_key,
  sum_in,
};
ghost use Rattle.spm_session.specs.Known.{IsWider};
ghost use Rattle.spm_session.specs.Outcome.{IsNoFault};
ghost use Rattle.spm_session.specs.Run.{
  ArePinsAscending,
  Finds,
  GoesBy,
  IsKeyOf,
  IsKeyOfAny,
  IsOfArchivesEnd,
  IsUnanswered,
  LooksFrom,
};

use crate::asking::{fetched, refused};
use crate::outcome::Outcome;
use crate::source::Source;
use spm_api::{BodyFault, read_release, said};
use spm_cache_core::SharedReply;
use spm_digest::sum;
use spm_ident::Identity;
use spm_key::{Body, Key, Reply};
use spm_trust::{Met, Trust};
use spm_version::{Items, NoMemory, Release};
use std::alloc::Global;

type Pin = (Identity, Release);

// The key of a pin's release.
fn release_key(alloc: Global, pin: &Pin) -> Result<Key, NoMemory>
    ensures { IfOk result (λ key. key ≡ release_key pin.now) }
{
    let (identity, release) = pin;
    Ok(Key::Release(identity.copy(alloc)?, release.copy(alloc)?))
}

// The key of a pin's archive.
fn archive_key(alloc: Global, pin: &Pin) -> Result<Key, NoMemory>
    ensures { IfOk result (λ key. key ≡ archive_key pin.now) }
{
    let (identity, release) = pin;
    Ok(Key::Archive(identity.copy(alloc)?, release.copy(alloc)?))
}

// The outcome of a pin without an archive.
fn no_archive(alloc: Global, pin: &Pin) -> Result<Outcome, NoMemory>
    ensures { IfOk result (λ it. it ≡ no_archive pin.now) }
{
    let (identity, release) = pin;
    Ok(Outcome::NoArchive(identity.copy(alloc)?, release.copy(alloc)?))
}

// The checksum that the body of a release names.
fn checksum_in(alloc: Global, pin: &Pin, body: &Body) -> Result<[u8; 32], Outcome>
    ensures finds { Finds result (checksum_in pin.now (option_and_then checksum_of (bytes_in body.now))) }
    ensures kind { IfErr result (λ it. IsOfArchivesEnd it) }
    ensures quiet { IfErr result (λ it. IsNoFault it) }
{
    let Body::Whole(bytes) = body else {
        return Err(Outcome::ReleaseUnreadable(release_key(alloc, pin)?));
    };
    match read_release(alloc, bytes.as_slice()) {
        Ok(Some(checksum)) => Ok(checksum),
        Ok(None) => Err(no_archive(alloc, pin)?),
        Err(BodyFault::Memory) => Err(Outcome::Memory),
        Err(BodyFault::Unreadable | BodyFault::TooMany) => {
            Err(Outcome::ReleaseUnreadable(release_key(alloc, pin)?))
        }
    }
}

// The checksum that the reply of a release names.
fn checksum_by(alloc: Global, pin: &Pin, reply: &Reply) -> Result<[u8; 32], Outcome>
    ensures finds { Finds result (checksum_by pin.now reply.now) }
    ensures kind { IfErr result (λ it. IsOfArchivesEnd it) }
    ensures quiet { IfErr result (λ it. IsNoFault it) }
{
    if reply.status == 200 {
        checksum_in(alloc, pin, &reply.body)
    } else {
        Err(no_archive(alloc, pin)?)
    }
}

// The sum of an archive's bytes.
fn sum_in(body: &Body) -> Option<[u8; 32]>
    ensures { result ≡ sum_in body.now }
{
    match body {
        Body::Whole(bytes) => Some(sum(bytes.as_slice())),
        Body::Sum { sum, .. } => Some(*sum),
        Body::Garbled | Body::TooLong => None,
    }
}

// The checksum, where the archive has its sum and no other fingerprint is kept.
fn matched(
    alloc: Global,
    trust: &Trust,
    pin: &Pin,
    checksum: [u8; 32],
    found: Option<[u8; 32]>,
) -> Result<[u8; 32], Outcome>
    ensures finds { Finds result (matched trust.now pin.now checksum found) }
    ensures kind { IfErr result (λ it. IsOfArchivesEnd it) }
    ensures quiet { IfErr result (λ it. IsNoFault it) }
{
    let (identity, release) = pin;
    let Some(found) = found else {
        return Err(no_archive(alloc, pin)?);
    };
    if found != checksum {
        let (identity, release) = (identity.copy(alloc)?, release.copy(alloc)?);
        return Err(Outcome::ChecksumDiffers(identity, release, checksum, found));
    }
    match trust.meet(identity, release, &checksum) {
        Met::Known | Met::New => Ok(checksum),
        Met::Differs { kept, said } => {
            let (identity, release) = (identity.copy(alloc)?, release.copy(alloc)?);
            Err(Outcome::TrustDiffers(identity, release, kept, said))
        }
    }
}

// The checksum, where the reply of the archive has its sum and no other fingerprint is kept.
fn archive_by(
    alloc: Global,
    trust: &Trust,
    pin: &Pin,
    checksum: [u8; 32],
    reply: &Reply,
) -> Result<[u8; 32], Outcome>
    ensures finds { Finds result (archive_by trust.now pin.now checksum reply.now) }
    ensures kind { IfErr result (λ it. IsOfArchivesEnd it) }
    ensures quiet { IfErr result (λ it. IsNoFault it) }
{
    if reply.status == 200 {
        matched(alloc, trust, pin, checksum, sum_in(&reply.body))
    } else {
        Err(no_archive(alloc, pin)?)
    }
}

// The reply of a key, where it isn't refused.
fn answered<S: Source>(alloc: Global, source: &mut S, key: Key) -> Result<SharedReply, Outcome>
    requires { S.ready source.old }
    ensures ready { S.ready source.new }
    ensures known { IfOk result (λ reply. S.knows source.new key reply) }
    ensures answered { IfOk result (λ reply. reply_refusal key reply ≡ None) }
    ensures err { IfErr result (λ it. IsUnanswered (S.knows source.new) key it) }
    ensures kind { IfErr result (λ it. IsOfArchivesEnd it) }
    ensures went { GoesBy S.goes S.misses source.old source.new result }
    ensures wider { IsWider (S.knows source.old) (S.knows source.new) }
{
    let (key, reply) = match fetched(alloc, source, key) {
        Ok(found) => found,
        Err(outcome) => return Err(outcome),
    };
    match said(alloc, &key, reply.reply()) {
        Ok(_) => Ok(reply),
        Err(fault) => Err(refused(key, fault)),
    }
}

// Looks at the release of a pin: the checksum that it names.
fn look_at_release<S: Source>(alloc: Global, pin: &Pin, source: &mut S) -> Result<[u8; 32], Outcome>
    requires { S.ready source.old }
    ensures ready { S.ready source.new }
    ensures looks { LooksFrom (S.knows source.new) (λ asked. asked ≡ release_key pin.now)
        (λ c. looked_at c (release_key pin.now) (checksum_by pin.now)) result }
    ensures kind { IfErr result (λ it. IsOfArchivesEnd it) }
    ensures went { GoesBy S.goes S.misses source.old source.new result }
    ensures wider { IsWider (S.knows source.old) (S.knows source.new) }
{
    match answered(alloc, source, release_key(alloc, pin)?) {
        Ok(reply) => checksum_by(alloc, pin, reply.reply()),
        Err(outcome) => Err(outcome),
    }
}

// Looks at the archive of a pin, whose release names this checksum.
fn look_at_archive<S: Source>(
    alloc: Global,
    trust: &Trust,
    pin: &Pin,
    checksum: [u8; 32],
    source: &mut S,
) -> Result<[u8; 32], Outcome>
    requires { S.ready source.old }
    ensures ready { S.ready source.new }
    ensures looks { LooksFrom (S.knows source.new) (λ asked. asked ≡ archive_key pin.now)
        (λ c. looked_at c (archive_key pin.now) (archive_by trust.now pin.now checksum)) result }
    ensures kind { IfErr result (λ it. IsOfArchivesEnd it) }
    ensures went { GoesBy S.goes S.misses source.old source.new result }
    ensures wider { IsWider (S.knows source.old) (S.knows source.new) }
{
    match answered(alloc, source, archive_key(alloc, pin)?) {
        Ok(reply) => archive_by(alloc, trust, pin, checksum, reply.reply()),
        Err(outcome) => Err(outcome),
    }
}

// Looks at the release and then at the archive of a pin: the archive's sum.
fn look_at_pin<S: Source>(
    alloc: Global,
    trust: &Trust,
    pin: &Pin,
    source: &mut S,
) -> Result<[u8; 32], Outcome>
    requires { S.ready source.old }
    ensures ready { S.ready source.new }
    ensures looks { LooksFrom (S.knows source.new) (IsKeyOf pin.now) (λ c. pin_looked trust.now c pin.now) result }
    ensures kind { IfErr result (λ it. IsOfArchivesEnd it) }
    ensures went { GoesBy S.goes S.misses source.old source.new result }
    ensures wider { IsWider (S.knows source.old) (S.knows source.new) }
{
    match look_at_release(alloc, pin, source) {
        Ok(checksum) => look_at_archive(alloc, trust, pin, checksum, source),
        Err(outcome) => Err(outcome),
    }
}

/// Looks at the archives of pins that ascend by their identities, one after the other: the sums of the archives.
pub(crate) fn look_at_pins<S: Source>(
    alloc: Global,
    trust: &Trust,
    pins: &[(Identity, Release)],
    source: &mut S,
) -> Result<Items<[u8; 32]>, Outcome>
    requires { S.ready source.old }
    ensures ready { S.ready source.new }
    ensures looks { ArePinsAscending pins.now
        → LooksFrom (S.knows source.new) (IsKeyOfAny pins.now) (λ c. pins_looked trust.now c pins.now) result }
    ensures kind { IfErr result (λ it. IsOfArchivesEnd it) }
    ensures went { GoesBy S.goes S.misses source.old source.new result }
    ensures wider { IsWider (S.knows source.old) (S.knows source.new) }
{
    let mut sums = Items::new(alloc);
    for pin in pins {
        match look_at_pin(alloc, trust, pin, source) {
            Ok(sum) => sums.push(sum)?,
            Err(outcome) => return Err(outcome),
        }
    }
    Ok(sums)
}
