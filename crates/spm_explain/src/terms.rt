// The terms of a line, by the names of their nodes and the texts of their choices.
ghost use Rattle.std.specs.Prelude.{
  ◌≡◌,
  ◌<◌,
  ◌==◌,
  ◌++◌,
  [],
  All,
  OnOk,
  codes,
  if◌then◌else◌,
  length,
  map,
  string_bytes,
};
ghost use Rattle.std.specs.List.{join_by};
ghost use Rattle.pub_set.specs.Runs.{runs_of};
ghost use Rattle.spm_explain.specs.DerivationText.{run_text, term_text};
ghost use Rattle.spm_explain.specs.Told.{IsRunBelow, IsSizedTerm};

use pub_set::{Choices, Run};
use pub_term::{NodeName, Term};
use spm_version::{Items, NoMemory, Text};
use std::fmt::Write;

// What stands before the item at this place of a list: nothing before the first, else the mark.
fn before_item(place: usize, mark: &str) -> &str
    ensures { result.now ≡ (if place == 0 then [] else mark.now) }
{
    if place == 0 { "" } else { mark }
}

// Puts a run behind the text: its one choice, or its first and its last.
fn push_run(text: &mut String, texts: &[Text], run: &Run) -> Result<(), NoMemory>
    requires { IsRunBelow (length texts.now) run.now }
    ensures { OnOk result (string_bytes text.new ≡ string_bytes text.old ++ run_text texts.now run.now) }
{
    let first = &texts[run.first as usize];
    if run.first == run.last {
        return write!(text, "{first}");
    }
    let last = &texts[run.last as usize];
    write!(text, "{first}..{last}")
}

// Puts runs behind the text.
fn push_runs(text: &mut String, texts: &[Text], runs: &[Run]) -> Result<(), NoMemory>
    requires { All (IsRunBelow (length texts.now)) runs.now }
    ensures { OnOk result (string_bytes text.new ≡ string_bytes text.old ++ join_by (run_text texts.now) (codes "|") runs.now) }
{
    for (place, run) in runs.iter().enumerate() {
        text.push_str(before_item(place, "|"))?;
        push_run(text, texts, run)?;
    }
    Ok(())
}

// The maximal runs of a set. That its choices are below its size is what its size tells.
fn runs_below(choices: &Choices) -> &[Run]
    ensures runs { result.now ≡ runs_of choices.now }
    ensures below { All (IsRunBelow choices.now.size) result.now }
{
    let _ = choices.size();
    choices.runs()
}

// Puts a term behind the text.
fn push_term(
    text: &mut String,
    nodes: &[NodeName],
    choices: &[Items<Text>],
    term: &Term,
) -> Result<(), NoMemory>
    requires nodes { length nodes.now ≡ length choices.now }
    requires sized { IsSizedTerm (map length choices.now) term.now }
    ensures { OnOk result (string_bytes text.new ≡ string_bytes text.old ++ term_text nodes.now choices.now term.now) }
{
    let name = &nodes[term.node as usize];
    let texts = choices[term.node as usize].as_slice();
    write!(text, "{name} ")?;
    push_runs(text, texts, runs_below(&term.choices))
}

// Puts terms behind the text.
pub(crate) fn push_terms(
    text: &mut String,
    nodes: &[NodeName],
    choices: &[Items<Text>],
    terms: &[Term],
) -> Result<(), NoMemory>
    requires nodes { length nodes.now ≡ length choices.now }
    requires sized { All (IsSizedTerm (map length choices.now)) terms.now }
    ensures { OnOk result (string_bytes text.new
        ≡ string_bytes text.old ++ join_by (term_text nodes.now choices.now) (codes ", ") terms.now) }
{
    for (place, term) in terms.iter().enumerate() {
        text.push_str(before_item(place, ", "))?;
        push_term(text, nodes, choices, term)?;
    }
    Ok(())
}
