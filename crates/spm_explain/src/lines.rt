// The lines of a derivation, with what they say.
ghost use Rattle.std.specs.Prelude.{◌≡◌, ◌<◌, ◌^◌, ◌++◌, All, OnOk, length, map, string_bytes};
ghost use Rattle.pub_proof.specs.Checks.{terms_of};
ghost use Rattle.spm_explain.specs.DerivationText.{line_text, lines_text, reason_text};
ghost use Rattle.spm_explain.specs.Told.{IsOnNode, IsSizedTerm};

use crate::sentences::sentence;
use crate::terms::push_terms;
use pub_proof::Line;
use pub_term::{Incompat, NodeName};
use spm_version::{Items, NoMemory, Text};
use std::alloc::Global;
use std::fmt::Write;

// Puts why a line holds behind the text.
fn push_reason(
    alloc: Global,
    text: &mut String,
    nodes: &[NodeName],
    line: &Line,
) -> Result<(), NoMemory>
    requires { IsOnNode (length nodes.now) line.now }
    ensures { OnOk result (string_bytes text.new ≡ string_bytes text.old ++ reason_text nodes.now line.now) }
{
    match line {
        Line::Fact(_, cause) => {
            let sentence = sentence(alloc, cause)?;
            text.push_str(sentence.as_str())
        }
        Line::Resolve { first, second, on } => {
            let name = &nodes[*on as usize];
            write!(text, "from {first} and {second} on {name}")
        }
    }
}

// Puts the line with this number behind the text, with the terms that it says.
fn push_line(
    alloc: Global,
    text: &mut String,
    nodes: &[NodeName],
    choices: &[Items<Text>],
    number: usize,
    line: &Line,
    said: &Incompat,
) -> Result<(), NoMemory>
    requires nodes { length nodes.now ≡ length choices.now }
    requires on { IsOnNode (length nodes.now) line.now }
    requires sized { All (IsSizedTerm (map length choices.now)) said.now.terms }
    ensures { OnOk result (string_bytes text.new
        ≡ string_bytes text.old ++ line_text nodes.now choices.now number line.now said.now.terms) }
{
    write!(text, "{number}. ")?;
    push_reason(alloc, text, nodes, line)?;
    text.push_str(": [")?;
    push_terms(text, nodes, choices, said.terms.as_slice())?;
    text.push_str("]\n")
}

// Puts all lines behind the text.
pub(crate) fn push_lines(
    alloc: Global,
    text: &mut String,
    nodes: &[NodeName],
    choices: &[Items<Text>],
    lines: &[Line],
    said: &[Incompat],
) -> Result<(), NoMemory>
    requires nodes { length nodes.now ≡ length choices.now }
    requires one_each { length said.now ≡ length lines.now }
    requires on { All (IsOnNode (length nodes.now)) lines.now }
    requires sized { All (λ incompat. All (IsSizedTerm (map length choices.now)) incompat.terms) said.now }
    ensures { OnOk result (string_bytes text.new
        ≡ string_bytes text.old ++ lines_text nodes.now choices.now 1 lines.now (terms_of said.now)) }
{
    for (place, line) in lines.iter().enumerate() {
        push_line(alloc, text, nodes, choices, place + 1, line, &said[place])?;
    }
    Ok(())
}
