ghost use Rattle.std.specs.Str.{bytes_eq};
ghost use Rattle.std.specs.Prelude.{◌≡◌, ◌≢◌, IfErr, IfOk, Some, refl};
ghost use Rattle.std.specs.Ordering.{nat_cmp};
ghost use Rattle.std.specs.Cmp.{partial_equiv_from_equiv};
ghost use Rattle.std.specs.Cmp.Lexicographic.{slice_cmp, nat_list_eq_equiv, nat_list_cmp_total, texts_ties, texts_po};
ghost use Rattle.std.specs.Cmp.Rules.{hashing};
ghost use Rattle.std.specs.Hash as fed;
ghost use Rattle.std.proofs.Common.{rules};
ghost use Rattle.spm_ident.specs.declared.identity.IdentFault.TheVariants.{Memory};
ghost use Rattle.spm_ident.specs.Identity.{IsIdentity, identity_of, name_of, scope_of};

use crate::NoMemory;
use crate::grammar::{is_name, is_scope};
use std::alloc::{AllocError, Global};
use std::cmp::Ordering;
use std::error::Error;
use std::fmt;
use std::hash::{Hash, Hasher};
use std::marker::Model;

/// Why a text is no identity: the first of its faults, in the order of the variants.
#[derive(Clone, Copy, Debug, PartialEq, Eq)]
pub enum IdentFault {
    /// The text has no dot.
    Dot,
    /// What stands before the first dot is no scope: 1 to 39 ASCII letters, digits and hyphens, with no hyphen at
    /// either end or beside another.
    Scope,
    /// What stands behind the first dot is no name: 1 to 100 ASCII letters, digits, hyphens and underscores, with
    /// no hyphen or underscore at either end or beside another.
    Name,
    /// There is no memory for the identity.
    Memory,
}

impl fmt::Display for IdentFault {
    fn fmt<W: fmt::Write>(&self, f: &mut fmt::Formatter<W>) -> fmt::Result {
        f.write_str(match self {
            IdentFault::Dot => "no dot between scope and name",
            IdentFault::Scope => "malformed scope before the dot",
            IdentFault::Name => "malformed name behind the dot",
            IdentFault::Memory => "no memory",
        })
    }
}

impl Error for IdentFault {}

impl From<AllocError> for IdentFault {
    ghost from_gives = { λ _ e. e ≡ Memory };

    fn from(_error: AllocError) -> IdentFault {
        IdentFault::Memory
    }
}

/// The identity of a package: a scope, a dot and a name, in lower case. Two spellings that differ in ASCII case
/// alone are one identity (SE-0292, "Package identity").
#[derive(Debug, Drop)]
pub struct Identity {
    text: String,
}

impl Model for Identity {
    ghost use Rattle.std.specs.Prelude.{List, ℕ};
    ghost use Rattle.std.specs.String.{string_bytes};
    ghost use Rattle.spm_ident.specs.Identity.{IsIdentity};

    ghost Value = { List ℕ };

    ghost view = { λ i. string_bytes i.text };

    ghost invariant = { λ i. IsIdentity (string_bytes i.text) };
}

impl Identity {
    /// Reads an identity in any ASCII case.
    ///
    /// # Errors
    ///
    /// The first of the faults of the text; and `Memory`, which no text that is refused gets.
    #[tactic(auto, using(crate::proofs::Dots::list_any_by_place))]
    pub fn parse(alloc: Global, text: &str) -> Result<Identity, IdentFault>
        ensures ok { IfOk result (λ identity. identity_of text.now ≡ Ok identity) }
        ensures err { IfErr result (λ e. e ≢ IdentFault.Memory → identity_of text.now ≡ Err e) }
        // A refusal takes no memory.
        ensures refused { IfErr (identity_of text.now) (λ e. result ≡ Err e) }
    {
        let Some((scope, name)) = text.split_once('.') else {
            return Err(IdentFault::Dot);
        };
        if !is_scope(scope) {
            return Err(IdentFault::Scope);
        }
        if !is_name(name) {
            return Err(IdentFault::Name);
        }
        let text = text.to_ascii_lowercase(alloc)?;
        Ok(Identity { text })
    }

    /// The identity as it is written, in lower case.
    pub fn text(&self) -> &str
        ensures text { result.now ≡ self.now }
        ensures identity { IsIdentity self.now }
    {
        self.text.as_str()
    }

    /// What stands before the dot.
    pub fn scope(&self) -> &str
        ensures { result.now ≡ scope_of self.now }
    {
        self.parts().0
    }

    /// What stands behind the dot.
    pub fn name(&self) -> &str
        ensures { result.now ≡ name_of self.now }
    {
        self.parts().1
    }

    // What stands around the dot.
    fn parts(&self) -> (&str, &str)
        ensures scope { result.0.now ≡ scope_of self.now }
        ensures name { result.1.now ≡ name_of self.now }
    {
        self.text.as_str().split_once('.').unwrap()
    }

    /// A copy of the identity.
    ///
    /// # Errors
    ///
    /// `NoMemory` alone.
    pub fn copy(&self, alloc: Global) -> Result<Identity, NoMemory>
        ensures { IfOk result (λ i. i ≡ self.now) }
    {
        let text = String::from_str(alloc, self.text.as_str())?;
        Ok(Identity { text })
    }
}

impl fmt::Display for Identity {
    ghost output = { λ i. Some i };

    fn fmt<W: fmt::Write>(&self, f: &mut fmt::Formatter<W>) -> fmt::Result {
        f.pad(self.text())
    }
}

/// By the bytes of the text.
impl PartialEq for Identity {
    ghost eq = { bytes_eq };

    ghost laws = { partial_equiv_from_equiv nat_list_eq_equiv };

    fn eq(&self, other: &Identity) -> bool {
        self.text() == other.text()
    }
}

impl Eq for Identity {
    ghost laws = { nat_list_eq_equiv };
}

impl PartialOrd for Identity {
    ghost partial_cmp = { λ x y. Some (slice_cmp nat_cmp x y) };

    ghost laws = { texts_po };

    fn partial_cmp(&self, other: &Identity) -> Option<Ordering> {
        Some(self.cmp(other))
    }
}

impl Ord for Identity {
    ghost cmp = { slice_cmp nat_cmp };

    ghost total = { nat_list_cmp_total };

    ghost matches_partial_cmp = { λ x y. refl };

    ghost matches_eq = { texts_ties };

    fn cmp(&self, other: &Identity) -> Ordering {
        self.text().cmp(other.text())
    }
}

impl Hash for Identity {
    ghost hash_input = { fed.str };

    ghost respects_eq = { Prim.search (hashing, rules) };

    fn hash<H: Hasher>(&self, state: &mut H) {
        self.text().hash(state);
    }
}
