ghost use Rattle.std.specs.Str.{bytes_eq};
ghost use Rattle.std.specs.Prelude.{◌≡◌, ◌≢◌, IfErr, IfOk, Some, refl};
ghost use Rattle.std.specs.Ordering.{nat_cmp};
ghost use Rattle.std.specs.Cmp.{partial_equiv_from_equiv};
ghost use Rattle.std.specs.Cmp.Lexicographic.{slice_cmp, nat_list_eq_equiv, nat_list_cmp_total, texts_ties, texts_po};
ghost use Rattle.std.specs.Str.{chars};
ghost use Rattle.spm_trait.specs.declared.trait_name.TraitFault.TheVariants.{Memory};
ghost use Rattle.spm_trait.specs.Stands.{stands};
ghost use Rattle.spm_trait.specs.TraitName.{IsTraitName, begins_trait, continues_trait, first_bad, trait_name_of};

use crate::NoMemory;
use spm_version::Duplicate;
use std::alloc::{AllocError, Global};
use std::cmp::Ordering;
use std::error::Error;
use std::fmt;
use std::marker::Model;

/// The name that is reserved.
const RESERVED: &str = "defaults";

/// Why a text is no trait's name: the first of its faults, in the order of the variants.
#[derive(Clone, Copy, Debug, PartialEq, Eq)]
pub enum TraitFault {
    /// The text is empty.
    Empty,
    /// The text is `defaults`, which is reserved.
    Reserved,
    /// The character with this number, from 0, may not stand there.
    BadChar(usize),
    /// There is no memory for the name.
    Memory,
}

impl fmt::Display for TraitFault {
    fn fmt<W: fmt::Write>(&self, f: &mut fmt::Formatter<W>) -> fmt::Result {
        match self {
            TraitFault::Empty => f.write_str("empty name"),
            TraitFault::Reserved => f.write_str("reserved name"),
            TraitFault::BadChar(place) => write!(f, "bad character {place}"),
            TraitFault::Memory => f.write_str("no memory"),
        }
    }
}

impl Error for TraitFault {}

impl From<AllocError> for TraitFault {
    ghost from_gives = { λ _ e. e ≡ Memory };

    fn from(_error: AllocError) -> TraitFault {
        TraitFault::Memory
    }
}

// Whether a trait's name may begin with the character.
fn begins_trait(ch: char) -> bool
    ensures { result ≡ begins_trait ch }
{
    unicode_ident::is_xid_start(ch) || ch == '_' || ch.is_ascii_digit()
}

// Whether the character may stand behind others in a trait's name.
fn continues_trait(ch: char) -> bool
    ensures { result ≡ continues_trait ch }
{
    unicode_ident::is_xid_continue(ch) || ch == '-' || ch == '+' || ch == '.'
}

// Whether the character may stand at a place of a trait's name.
fn stands(place: usize, ch: char) -> bool
    ensures { result ≡ stands place ch }
{
    if place == 0 {
        begins_trait(ch)
    } else {
        continues_trait(ch)
    }
}

// The number, from 0, of the first character that may not stand where it does.
fn first_bad(text: &str) -> Option<usize>
    ensures { result ≡ first_bad (chars text.now) }
{
    for (place, ch) in text.chars().enumerate() {
        if !stands(place, ch) {
            return Some(place);
        }
    }
    None
}

/// The name of a trait (SE-0450).
#[derive(Debug, Drop)]
pub struct TraitName {
    text: String,
}

impl Model for TraitName {
    ghost use Rattle.std.specs.Prelude.{List, ℕ};
    ghost use Rattle.std.specs.String.{string_bytes};
    ghost use Rattle.spm_trait.specs.TraitName.{IsTraitName};

    ghost Value = { List ℕ };

    ghost view = { λ n. string_bytes n.text };

    ghost invariant = { λ n. IsTraitName (string_bytes n.text) };
}

impl TraitName {
    /// Reads a trait's name. The first character is XID_Start, `_` or an ASCII digit, the others are XID_Continue, `-`,
    /// `+` or `.`; `defaults` is reserved.
    ///
    /// # Errors
    ///
    /// The first of the faults of the text; and `Memory`, which no text that is refused gets.
    pub fn parse(alloc: Global, text: &str) -> Result<TraitName, TraitFault>
        ensures ok { IfOk result (λ name. trait_name_of text.now ≡ Ok name) }
        ensures err { IfErr result (λ e. e ≢ TraitFault.Memory → trait_name_of text.now ≡ Err e) }
        // A refusal takes no memory.
        ensures refused { IfErr (trait_name_of text.now) (λ e. result ≡ Err e) }
    {
        if text.is_empty() {
            return Err(TraitFault::Empty);
        }
        if text == RESERVED {
            return Err(TraitFault::Reserved);
        }
        if let Some(place) = first_bad(text) {
            return Err(TraitFault::BadChar(place));
        }
        let text = String::from_str(alloc, text)?;
        Ok(TraitName { text })
    }

    /// The name as it is written.
    pub fn text(&self) -> &str
        ensures text { result.now ≡ self.now }
        ensures name { IsTraitName self.now }
    {
        self.text.as_str()
    }

    /// A copy of the name.
    ///
    /// # Errors
    ///
    /// `NoMemory` alone.
    pub fn copy(&self, alloc: Global) -> Result<TraitName, NoMemory>
        ensures { IfOk result (λ name. name ≡ self.now) }
    {
        let text = String::from_str(alloc, self.text.as_str())?;
        Ok(TraitName { text })
    }
}

impl Duplicate for TraitName {
    fn duplicate(&self, alloc: Global) -> Result<TraitName, NoMemory> {
        self.copy(alloc)
    }
}

impl fmt::Display for TraitName {
    ghost output = { λ n. Some n };

    fn fmt<W: fmt::Write>(&self, f: &mut fmt::Formatter<W>) -> fmt::Result {
        f.pad(self.text())
    }
}

/// By the bytes of the text.
impl PartialEq for TraitName {
    ghost eq = { bytes_eq };

    ghost laws = { partial_equiv_from_equiv nat_list_eq_equiv };

    fn eq(&self, other: &TraitName) -> bool {
        self.text() == other.text()
    }
}

impl Eq for TraitName {
    ghost laws = { nat_list_eq_equiv };
}

impl PartialOrd for TraitName {
    ghost partial_cmp = { λ x y. Some (slice_cmp nat_cmp x y) };

    ghost laws = { texts_po };

    fn partial_cmp(&self, other: &TraitName) -> Option<Ordering> {
        Some(self.cmp(other))
    }
}

impl Ord for TraitName {
    ghost cmp = { slice_cmp nat_cmp };

    ghost total = { nat_list_cmp_total };

    ghost matches_partial_cmp = { λ x y. refl };

    ghost matches_eq = { texts_ties };

    fn cmp(&self, other: &TraitName) -> Ordering {
        self.text().cmp(other.text())
    }
}
