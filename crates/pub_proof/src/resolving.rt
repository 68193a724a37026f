// The tests of a line that resolves two earlier ones.
ghost use Rattle.std.specs.Prelude.{◌≡◌, length, IfOk, IfSome};
ghost use Rattle.std.specs.List.{list_all};
ghost use Rattle.std.specs.Option.{option_copied, option_map};
ghost use Rattle.pub_term.specs.Term.{set_at};
ghost use Rattle.pub_proof.specs.Checked.{at_line, can_resolve, earlier_line, has_node, meets_in, resolved_in};
ghost use Rattle.pub_proof.specs.Checks.{Checks, terms_of};
ghost use Rattle.pub_proof.specs.Formed.{AreFormed, IsFormed, SizesAgree};

use crate::fault::{ProofFault, ProofKind};
use pub_term::{Incompat, Term, resolve};
use std::alloc::Global;

// Whether there is a term on the node.
fn has_node(incompat: &Incompat, node: u32) -> bool
    ensures { result ≡ has_node incompat.now.terms node }
{
    for term in incompat.terms.as_slice() {
        if term.node == node {
            return true;
        }
    }
    false
}

// Whether a term's set meets the other line's set on its node, where that is not the node that is resolved.
fn meets_in(second: &Incompat, on: u32, term: &Term) -> bool
    requires { IfSome (set_at second.now.terms term.now.node) (λ set. term.now.choices.size ≡ set.size) }
    ensures { result ≡ meets_in second.now.terms on term.now }
{
    if term.node == on {
        return true;
    }
    match second.set_on(term.node) {
        None => true,
        Some(set) => term.choices.meets(set),
    }
}

// The same of each term.
fn do_sets_meet(first: &[Term], second: &Incompat, on: u32) -> bool
    requires { SizesAgree first.now second.now.terms }
    ensures { result ≡ list_all (meets_in second.now.terms on) first.now }
{
    for term in first {
        if !meets_in(second, on, term) {
            return false;
        }
    }
    true
}

// Whether the two lines can be resolved on the node.
fn can_resolve(first: &Incompat, second: &Incompat, on: u32) -> bool
    requires { SizesAgree first.now.terms second.now.terms }
    ensures { result ≡ can_resolve first.now.terms second.now.terms on }
{
    has_node(first, on) && has_node(second, on) && do_sets_meet(first.terms.as_slice(), second, on)
}

// The line with this number, counted from 1, of those before.
pub(crate) fn earlier_line(earlier: &[Incompat], number: u64) -> Option<&Incompat>
    ensures { option_map (λ incompat. incompat.terms) (option_copied result) ≡ earlier_line (terms_of earlier.now) number }
{
    if number == 0 {
        return None;
    }
    earlier.get((number - 1) as usize)
}

// What the resolution of two lines says, or what is wrong with it.
fn resolved(
    alloc: Global,
    sizes: &[u32],
    first: &Incompat,
    second: &Incompat,
    on: u32,
    line: u64,
) -> Result<Incompat, ProofFault>
    requires first { IsFormed sizes.now first.now.terms }
    requires second { IsFormed sizes.now second.now.terms }
    ensures checked { Checks result (at_line line (resolved_in (length sizes.now) (Some first.now.terms) (Some second.now.terms) on)) }
    ensures formed { IfOk result (λ incompat. IsFormed sizes.now incompat.terms) }
{
    if on as usize >= sizes.len() {
        let kind = ProofKind::NoSuchNode;
        return Err(ProofFault::At { line, kind });
    }
    if !can_resolve(first, second, on) {
        let kind = ProofKind::NotOn;
        return Err(ProofFault::At { line, kind });
    }
    let incompat = resolve(alloc, first, second, on)?;
    Ok(incompat)
}

// What a line that resolves two earlier ones says, or what is wrong with it.
pub(crate) fn resolved_line(
    alloc: Global,
    sizes: &[u32],
    earlier: &[Incompat],
    cited: (u64, u64),
    on: u32,
    line: u64,
) -> Result<Incompat, ProofFault>
    requires { AreFormed sizes.now (terms_of earlier.now) }
    ensures checked { Checks result (at_line line (resolved_in (length sizes.now)
        (earlier_line (terms_of earlier.now) cited.0) (earlier_line (terms_of earlier.now) cited.1) on)) }
    ensures formed { IfOk result (λ incompat. IsFormed sizes.now incompat.terms) }
{
    let kind = ProofKind::NoSuchLine;
    let Some(first) = earlier_line(earlier, cited.0) else {
        return Err(ProofFault::At { line, kind });
    };
    let Some(second) = earlier_line(earlier, cited.1) else {
        return Err(ProofFault::At { line, kind });
    };
    resolved(alloc, sizes, first, second, on, line)
}
