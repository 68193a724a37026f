// Reading a file of a derivation.
ghost use Rattle.std.specs.Prelude.{◌≡◌, IfOk, None, map, suc, length};
ghost use Rattle.pub_set.specs.Choices.{numbers_below};
ghost use Rattle.spm_json.specs.Reading.{Gives};
ghost use Rattle.pub_proof.specs.File.{
  are_choices,
  by_node,
  derivation_in,
  derivation_reading,
  line_of,
  set_in,
  term_of,
  terms_of,
};

use crate::derivation::{Derivation, Line};
use crate::nodes::Nodes;
use crate::order::is_above;
use crate::written::{WrittenLine, WrittenTerm};
use pub_set::Choices;
use pub_term::{Cause, Incompat, Term};
use serde_json::Value;
use spm_json::{FromJson, Object, ReadFault, expect_version, read_whole};
use spm_version::{Items, NoMemory};
use std::alloc::Global;

/// The version of the format.
pub(crate) const FORMAT: u64 = 1;

impl Derivation {
    /// Reads a file of a derivation. What a line says wrongly, but in the file's grammar, is left for [`check`](crate::check) to
    /// find: a name that is no node's gets the number behind the last node's, with a set of size 0, and choices that are no set
    /// of their node's size become the empty set. The terms of a line are put in the order of their nodes.
    ///
    /// # Errors
    ///
    /// The first fault in the reading order, with its place from the document's root, which is `/`, or `Memory`.
    pub fn read(alloc: Global, bytes: &[u8]) -> Result<Derivation, ReadFault>
        ensures { Gives result (derivation_in bytes.now) }
    {
        read_whole(alloc, bytes)
    }
}

impl FromJson for Derivation {
    ghost reading = { derivation_reading };

    fn from_json(alloc: Global, value: &Value) -> Result<Derivation, ReadFault> {
        let object = Object::of(alloc, value)?;
        expect_version(alloc, &object, FORMAT)?;
        let nodes: Nodes = object.field("nodes")?;
        let written: Items<WrittenLine> = object.field("lines")?;
        let lines = lines(alloc, &nodes, written.as_slice())?;
        Ok(Derivation {
            nodes: nodes.names,
            sizes: nodes.sizes,
            lines,
        })
    }
}

// What the lines say.
fn lines(alloc: Global, nodes: &Nodes, written: &[WrittenLine]) -> Result<Items<Line>, NoMemory>
    ensures { IfOk result (λ lines. lines ≡ map (line_of nodes.now) written.now) }
{
    let mut lines = Items::new(alloc);
    for next in written {
        lines.push(line(alloc, nodes, next)?)?;
    }
    Ok(lines)
}

// What a line says.
fn line(alloc: Global, nodes: &Nodes, written: &WrittenLine) -> Result<Line, NoMemory>
    ensures { IfOk result (λ line. line ≡ line_of nodes.now written.now) }
{
    match written {
        WrittenLine::Fact(written) => {
            let terms = terms(alloc, nodes, written.as_slice())?;
            Ok(Line::Fact(Incompat { terms }, Cause::Given))
        }
        WrittenLine::Resolve(on, (first, second)) => Ok(Line::Resolve {
            first: *first,
            second: *second,
            on: nodes.number(&on.name),
        }),
    }
}

// The terms of a fact, in the order of their nodes.
fn terms(alloc: Global, nodes: &Nodes, written: &[WrittenTerm]) -> Result<Items<Term>, NoMemory>
    ensures { IfOk result (λ terms. terms ≡ terms_of nodes.now written.now) }
{
    let mut terms = written_terms(alloc, nodes, written)?;
    terms.sort_by_key(|term| term.node)?;
    Ok(Items::from_vec(terms))
}

// The terms of a fact, in the order in which they stand.
fn written_terms(
    alloc: Global,
    nodes: &Nodes,
    written: &[WrittenTerm],
) -> Result<Vec<Term>, NoMemory>
    ensures { IfOk result (λ terms. terms.items ≡ map (term_of nodes.now) written.now) }
{
    let mut terms = Vec::new(alloc);
    for next in written {
        terms.push(term(alloc, nodes, next)?)?;
    }
    Ok(terms)
}

// What a term says.
fn term(alloc: Global, nodes: &Nodes, written: &WrittenTerm) -> Result<Term, NoMemory>
    ensures { IfOk result (λ term. term ≡ term_of nodes.now written.now) }
{
    let (name, numbers) = written;
    let node = nodes.number(&name.name);
    let choices = set(alloc, nodes.size(node), numbers.as_slice())?;
    Ok(Term { node, choices })
}

// The set of these choices, if they are one.
fn set(alloc: Global, size: u32, numbers: &[u32]) -> Result<Choices, NoMemory>
    ensures { IfOk result (λ set. set ≡ set_in size numbers.now) }
{
    if are_choices(size, numbers) {
        Choices::of(alloc, size, numbers)
    } else {
        Choices::none(alloc, size)
    }
}

// Whether the numbers ascend, each below the size.
fn are_choices(size: u32, numbers: &[u32]) -> bool
    ensures { result ≡ are_choices size None numbers.now }
{
    let mut before = None;
    for number in numbers {
        if !is_above(before, *number) || *number >= size {
            return false;
        }
        before = Some(*number);
    }
    true
}
