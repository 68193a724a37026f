// Judging over a link.
ghost use Rattle.std.specs.Prelude.{◌≡◌, ◌<◌, ℕ, Contains, IfErr, IfOk, List, OnOk, Option, false, map, true};
ghost use Rattle.std.specs.Cmp.Lexicographic.{slice_cmp};
ghost use Rattle.std.specs.List.Sorted.{IsStrictlySortedBy};
ghost use Rattle.std.specs.Ordering.{nat_cmp};
ghost use Rattle.spm_api.specs.declared.base.Base.{Base};
ghost use Rattle.spm_judge.specs.Fetching.{AreHeld, ArePinsHeld, FaultsAfterHold, IsHoldEnd, IsListKey, IsMore, IsSettled, IsUnanswered, IsWide, keys_left};
ghost use Rattle.spm_judge.specs.Held.{held_in, is_answer, is_held, says_of};
ghost use Rattle.spm_judge.specs.Over.{AreFrom, FaultsBy, IsJudgedEnd, IsUnfetched};
ghost use Rattle.spm_judge.specs.declared.over.Judged.TheVariants.{Memory};
ghost use Rattle.spm_outside.specs.Book.{Pages};
ghost use Rattle.spm_version.specs.Release.{Parts};

use crate::held::{HeldReplies, Replies};
use crate::judgement::Judgement;
use crate::judging::{judge, wanted};
use spm_api::{Base, ReplyFault, fetch, said};
use spm_ident::Identity;
use spm_key::Key;
use spm_manifest::Manifest;
use spm_outside::{Link, LinkFault};
use spm_trait::TraitName;
use spm_version::{NoMemory, Release, Text, ToolsVersion};
use std::alloc::Global;

/// What the judging of pins over a link comes to.
#[derive(Debug, Drop)]
pub enum Judged {
    /// The pins are a valid selection.
    Valid,
    /// They aren't: the first rule that is broken, as a sentence.
    Invalid(Text),
    /// The reply of this key, the first that isn't answered, is refused.
    Refused(Key, ReplyFault),
    /// The list of this package, the first key that isn't answered, is too long.
    TooWide(Identity),
    /// The link failed at this key.
    Failed(Key),
    /// Want of memory.
    Memory,
}

impl From<NoMemory> for Judged {
    ghost from_gives = { λ _ it. it ≡ Memory };

    fn from(_e: NoMemory) -> Judged {
        Judged::Memory
    }
}

// Whether the reply of a key is held.
fn is_held(held: &HeldReplies, key: &Key) -> bool
    ensures { result ≡ is_held (held_in held.now) key.now }
{
    held.reply(key).is_some()
}

// Fetches the reply of a key that isn't held, and holds it.
fn hold<L: Link>(
    alloc: Global,
    base: &Base,
    link: &mut L,
    held: &mut HeldReplies,
    key: &Key,
) -> Result<(), Judged>
    ensures more { OnOk result (IsMore (held_in held.old) (held_in held.new)) }
    ensures there { OnOk result (is_held (held_in held.new) key.now ≡ true) }
    ensures from { OnOk result (AreFrom (L.state link.old).book base.now (held_in held.old)
        → AreFrom (L.state link.old).book base.now (held_in held.new)) }
    ensures end { IfErr result (IsHoldEnd (λ asked. asked ≡ key.now)) }
    ensures faults { FaultsAfterHold result (L.state link.old).faults (L.state link.new).faults }
    ensures book { (L.state link.new).book ≡ (L.state link.old).book }
{
    if is_held(held, key) {
        return Ok(());
    }
    let key = key.copy(alloc)?;
    let reply = match fetch(alloc, link, base, &key) {
        Ok(reply) => reply,
        Err(LinkFault::Failed) => return Err(Judged::Failed(key)),
        Err(LinkFault::Memory) => return Err(Judged::Memory),
    };
    held.put(key, reply)?;
    Ok(())
}

// Holds the replies of keys, one after another.
fn hold_all<L: Link>(
    alloc: Global,
    base: &Base,
    link: &mut L,
    held: &mut HeldReplies,
    keys: &[Key],
) -> Result<(), Judged>
    ensures more { OnOk result (IsMore (held_in held.old) (held_in held.new)) }
    ensures there { OnOk result (AreHeld keys.now (held_in held.new)) }
    ensures from { OnOk result (AreFrom (L.state link.old).book base.now (held_in held.old)
        → AreFrom (L.state link.old).book base.now (held_in held.new)) }
    ensures end { IfErr result (IsHoldEnd (Contains keys.now)) }
    ensures faults { FaultsAfterHold result (L.state link.old).faults (L.state link.new).faults }
    ensures book { (L.state link.new).book ≡ (L.state link.old).book }
{
    for key in keys {
        hold(alloc, base, link, held, key)?;
    }
    Ok(())
}

// One round: holds the replies of the keys that are wanted, and says whether there were any.
fn hold_wanted<L: Link>(
    alloc: Global,
    root: &Manifest,
    asked: &[TraitName],
    tools: ToolsVersion,
    pins: &[(Identity, Release)],
    base: &Base,
    link: &mut L,
    held: &mut HeldReplies,
) -> Result<bool, Judged>
    requires { IsStrictlySortedBy (slice_cmp nat_cmp) (map (λ (pin : List ℕ × Parts). pin.0) pins.now) }
    ensures pins { OnOk result (ArePinsHeld pins.now (held_in held.new)) }
    ensures falls { IfOk result (λ some. some ≡ true → ArePinsHeld pins.now (held_in held.old)
        → keys_left (record { root = root.now; asked = asked.now; tools = tools }) pins.now (held_in held.new)
        < keys_left (record { root = root.now; asked = asked.now; tools = tools }) pins.now (held_in held.old)) }
    ensures settled { IfOk result (λ some. some ≡ false
        → IsSettled (record { root = root.now; asked = asked.now; tools = tools }) pins.now (held_in held.new)) }
    ensures from { OnOk result (AreFrom (L.state link.old).book base.now (held_in held.old)
        → AreFrom (L.state link.old).book base.now (held_in held.new)) }
    ensures end { IfErr result (λ it. AreFrom (L.state link.old).book base.now (held_in held.old)
        → IsHoldEnd (IsUnfetched (L.state link.old).book base.now (record { root = root.now; asked = asked.now; tools = tools }) pins.now) it) }
    ensures faults { FaultsAfterHold result (L.state link.old).faults (L.state link.new).faults }
    ensures book { (L.state link.new).book ≡ (L.state link.old).book }
{
    let keys = wanted(alloc, root, asked, tools, pins, &*held)?;
    if keys.as_slice().is_empty() {
        return Ok(false);
    }
    match hold_all(alloc, base, link, held, keys.as_slice()) {
        Ok(()) => Ok(true),
        Err(end) => Err(end),
    }
}

// Holds the replies of all keys that are read: at first those of the pins, and then round by round the look-ups of what is active, as each may
// make more active.
fn hold_keys<L: Link>(
    alloc: Global,
    root: &Manifest,
    asked: &[TraitName],
    tools: ToolsVersion,
    pins: &[(Identity, Release)],
    base: &Base,
    link: &mut L,
    held: &mut HeldReplies,
) -> Result<(), Judged>
    requires { IsStrictlySortedBy (slice_cmp nat_cmp) (map (λ (pin : List ℕ × Parts). pin.0) pins.now) }
    ensures settled { OnOk result (IsSettled (record { root = root.now; asked = asked.now; tools = tools }) pins.now (held_in held.new)) }
    ensures from { OnOk result (AreFrom (L.state link.old).book base.now (held_in held.old)
        → AreFrom (L.state link.old).book base.now (held_in held.new)) }
    ensures end { IfErr result (λ it. AreFrom (L.state link.old).book base.now (held_in held.old)
        → IsHoldEnd (IsUnfetched (L.state link.old).book base.now (record { root = root.now; asked = asked.now; tools = tools }) pins.now) it) }
    ensures faults { FaultsAfterHold result (L.state link.old).faults (L.state link.new).faults }
    ensures book { (L.state link.new).book ≡ (L.state link.old).book }
{
    hold_wanted(alloc, root, asked, tools, pins, base, link, held)?;
    loop {
        let some = hold_wanted(alloc, root, asked, tools, pins, base, link, held)?;
        if !some {
            return Ok(());
        }
    }
}

// That a list is too long.
fn too_wide(key: Key) -> Judged
    requires { IsListKey key }
    ensures { IsWide key result }
{
    match key {
        Key::List(identity) => Judged::TooWide(identity),
        _ => unreachable!(),
    }
}

// Why a key that is held isn't answered.
fn unanswered(alloc: Global, held: &HeldReplies, key: Key) -> Judged
    requires held { is_held (held_in held.now) key ≡ true }
    requires lacks { is_answer (says_of (held_in held.now) key) ≡ false }
    ensures { IsUnanswered (held_in held.now) key result }
{
    let reply = held.reply(&key).unwrap();
    match said(alloc, &key, reply) {
        Ok(_) => too_wide(key),
        Err(ReplyFault::Memory) => Judged::Memory,
        Err(fault) => Judged::Refused(key, fault),
    }
}

// The judgement over replies that have each key that is read.
fn judge_held(
    alloc: Global,
    root: &Manifest,
    asked: &[TraitName],
    tools: ToolsVersion,
    pins: &[(Identity, Release)],
    held: &HeldReplies,
) -> Judged
    requires ordered { IsStrictlySortedBy (slice_cmp nat_cmp) (map (λ (pin : List ℕ × Parts). pin.0) pins.now) }
    requires settled { IsSettled (record { root = root.now; asked = asked.now; tools = tools }) pins.now (held_in held.now) }
    ensures end { (book : Option Pages) (base : Base) → AreFrom book base (held_in held.now)
        → IsJudgedEnd book base (record { root = root.now; asked = asked.now; tools = tools }) pins.now result }
    ensures quiet { (faults : ℕ) → FaultsBy result faults faults }
{
    match judge(alloc, root, asked, tools, pins, held) {
        Ok(()) => Judged::Valid,
        Err(Judgement::Invalid(text)) => Judged::Invalid(text),
        Err(Judgement::NoReply(key)) => unanswered(alloc, held, key),
        Err(Judgement::Memory) => Judged::Memory,
    }
}

/// Judges pins over a link, as [`judge`] does over all replies: it fetches each key that is read, once. The pins ascend by their identities.
pub fn judge_over<L: Link>(
    alloc: Global,
    root: &Manifest,
    asked: &[TraitName],
    tools: ToolsVersion,
    pins: &[(Identity, Release)],
    base: &Base,
    link: &mut L,
) -> Judged
    requires { IsStrictlySortedBy (slice_cmp nat_cmp) (map (λ (pin : List ℕ × Parts). pin.0) pins.now) }
    ensures end { IsJudgedEnd (L.state link.old).book base.now (record { root = root.now; asked = asked.now; tools = tools }) pins.now result }
    ensures faults { FaultsBy result (L.state link.old).faults (L.state link.new).faults }
    ensures book { (L.state link.new).book ≡ (L.state link.old).book }
{
    let mut held = HeldReplies::new(alloc);
    match hold_keys(alloc, root, asked, tools, pins, base, link, &mut held) {
        Ok(()) => judge_held(alloc, root, asked, tools, pins, &held),
        Err(end) => end,
    }
}
