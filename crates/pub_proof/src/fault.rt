ghost use Rattle.std.specs.Prelude.{◌≡◌, Some};
ghost use Rattle.pub_proof.specs.Kinds.{fault_text, kind_text};
ghost use Rattle.pub_proof.specs.declared.fault.ProofFault.TheVariants.{Memory};

use spm_version::NoMemory;
use std::alloc::{AllocError, AllocFailed};
use std::error::Error;
use std::fmt;

/// What is wrong with a line.
#[derive(Clone, Copy, Debug, PartialEq, Eq)]
pub enum ProofKind {
    /// It cites no earlier line.
    NoSuchLine,
    /// It speaks of a node that the derivation doesn't name.
    NoSuchNode,
    /// A set of another size than its node's, an empty or a whole one, or nodes that don't ascend.
    BadSet,
    /// Its terms are those of no fact that was given.
    NotAFact,
    /// One of the two lines has no term on the node, or their sets on another node don't meet.
    NotOn,
    /// The last line has a term on another node than the root, which is the first node that is named so; or there is no line.
    NotARefutation,
}

impl fmt::Display for ProofKind {
    ghost output = { λ kind. Some (kind_text kind) };

    fn fmt<W: fmt::Write>(&self, f: &mut fmt::Formatter<W>) -> fmt::Result {
        f.write_str(match self {
            ProofKind::NoSuchLine => "no such line",
            ProofKind::NoSuchNode => "no such node",
            ProofKind::BadSet => "bad set",
            ProofKind::NotAFact => "not a fact",
            ProofKind::NotOn => "not on",
            ProofKind::NotARefutation => "not a refutation",
        })
    }
}

/// Why a derivation was refused.
#[derive(Clone, Copy, Debug, PartialEq, Eq)]
pub enum ProofFault {
    /// The first bad line, counted from 1, or 0 where there are no lines, and what is wrong with it.
    At { line: u64, kind: ProofKind },
    /// Want of memory.
    Memory,
}

/// `line 3: bad set`, or `no memory`.
impl fmt::Display for ProofFault {
    ghost output = { λ fault. Some (fault_text fault) };

    fn fmt<W: fmt::Write>(&self, f: &mut fmt::Formatter<W>) -> fmt::Result {
        match self {
            ProofFault::At { line, kind } => write!(f, "line {line}: {kind}"),
            ProofFault::Memory => f.write_str("no memory"),
        }
    }
}

impl Error for ProofFault {}

impl From<AllocError> for ProofFault {
    ghost from_gives = { λ _ e. e ≡ Memory };

    fn from(_e: AllocError) -> ProofFault {
        ProofFault::Memory
    }
}

impl<T: Drop> From<AllocFailed<T>> for ProofFault {
    ghost from_gives = { λ _ e. e ≡ Memory };

    fn from(_e: AllocFailed<T>) -> ProofFault {
        ProofFault::Memory
    }
}
