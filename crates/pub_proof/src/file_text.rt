// Writing a file of a derivation.
ghost use Rattle.std.specs.Prelude.{◌≡◌, ◌||◌, ℕ, IfOk, OnOk, map, slice_get};
ghost use Rattle.std.specs.Option.{option_copied};
ghost use Rattle.std.specs.BTreeSet.{contains};
ghost use Rattle.std.specs.Ordering.{nat_cmp};
ghost use Rattle.serde_json.specs.View.{view};
ghost use Rattle.serde_json.specs.Data.{string};
ghost use Rattle.pub_term.specs.Node.{node_text};
ghost use Rattle.pub_proof.specs.ProofText.{
  choices_data,
  derivation_data,
  file_data,
  is_named,
  line_data,
  list_data,
  name_data,
  names_node,
  nodes_data,
  number_data,
  pair_data,
  proof_text,
  term_data,
};

use crate::derivation::{Derivation, Line};
use crate::file::FORMAT;
use pub_set::Choices;
use pub_term::{NodeName, Term};
use serde_json::{Value, json};
use spm_version::{Bytes, NoMemory};
use std::alloc::Global;
use std::collections::BTreeSet;

impl Derivation {
    /// The file of a derivation: compact JSON and a line feed, with the root, the nodes that a line names in the order in which they
    /// stand, and no causes.
    ///
    /// # Errors
    ///
    /// `NoMemory` alone.
    pub fn text(&self, alloc: Global) -> Result<Bytes, NoMemory>
        ensures { IfOk result (λ bytes. bytes ≡ proof_text self.now) }
    {
        let value = derivation_value(alloc, self)?;
        let mut text = value.to_string(alloc)?;
        text.push_str("\n")?;
        Ok(Bytes::from_vec(text.into_bytes()))
    }
}

// The file of a derivation, as JSON.
fn derivation_value(alloc: Global, derivation: &Derivation) -> Result<Value, NoMemory>
    ensures { IfOk result (λ value. view value ≡ derivation_data derivation.now) }
{
    let lines = lines_value(
        alloc,
        derivation.nodes.as_slice(),
        derivation.lines.as_slice(),
    )?;
    let nodes = nodes_value(alloc, derivation)?;
    file_value(alloc, lines, nodes)
}

// The whole file, of its lines and nodes.
fn file_value(alloc: Global, lines: Value, nodes: Value) -> Result<Value, NoMemory>
    ensures { IfOk result (λ value. view value ≡ file_data (view lines) (view nodes)) }
{
    json!(in alloc; {"lines": lines, "nodes": nodes, "version": FORMAT})
}

// The list of lines.
fn lines_value(alloc: Global, nodes: &[NodeName], lines: &[Line]) -> Result<Value, NoMemory>
    ensures { IfOk result (λ value. view value ≡ list_data (map (line_data nodes.now) lines.now)) }
{
    let mut values = Vec::new(alloc);
    for line in lines {
        values.push(line_value(alloc, nodes, line)?)?;
    }
    Ok(Value::Array(values))
}

// A line: a fact with its terms, or the two lines that it resolves, with the node.
fn line_value(alloc: Global, nodes: &[NodeName], line: &Line) -> Result<Value, NoMemory>
    ensures { IfOk result (λ value. view value ≡ line_data nodes.now line.now) }
{
    match line {
        Line::Fact(incompat, _) => {
            let terms = terms_value(alloc, nodes, incompat.terms.as_slice())?;
            Ok(json!(in alloc; {"fact": terms})?)
        }
        Line::Resolve { first, second, on } => {
            let on = name_value(alloc, nodes, *on)?;
            Ok(json!(in alloc; {"on": on, "resolve": [*first, *second]})?)
        }
    }
}

// The list of a fact's terms.
fn terms_value(alloc: Global, nodes: &[NodeName], terms: &[Term]) -> Result<Value, NoMemory>
    ensures { IfOk result (λ value. view value ≡ list_data (map (term_data nodes.now) terms.now)) }
{
    let mut values = Vec::new(alloc);
    for term in terms {
        values.push(term_value(alloc, nodes, term)?)?;
    }
    Ok(Value::Array(values))
}

// A term: the name of its node, and its choices.
fn term_value(alloc: Global, nodes: &[NodeName], term: &Term) -> Result<Value, NoMemory>
    ensures { IfOk result (λ value. view value ≡ term_data nodes.now term.now) }
{
    let name = name_value(alloc, nodes, term.node)?;
    let choices = choices_value(alloc, &term.choices)?;
    Ok(json!(in alloc; [name, choices])?)
}

// The list of a set's choices.
fn choices_value(alloc: Global, choices: &Choices) -> Result<Value, NoMemory>
    ensures { IfOk result (λ value. view value ≡ choices_data choices.now.members) }
{
    let numbers = choices.to_vec(alloc)?;
    let mut values = Vec::new(alloc);
    for number in numbers.as_slice() {
        values.push(Value::from(*number))?;
    }
    Ok(Value::Array(values))
}

// The name of the node with this number.
fn name_value(alloc: Global, nodes: &[NodeName], node: u32) -> Result<Value, NoMemory>
    ensures { IfOk result (λ value. view value ≡ name_data nodes.now node) }
{
    match node_at(nodes, node) {
        Some(name) => Ok(Value::String(format!(in alloc; "{name}")?)),
        None => Ok(Value::String(String::new(alloc))),
    }
}

// The node with this number.
fn node_at(nodes: &[NodeName], node: u32) -> Option<&NodeName>
    ensures { option_copied result ≡ slice_get nodes.now node }
{
    nodes.get(node as usize)
}

// The root and the nodes that a line names, each with the size of its sets.
fn nodes_value(alloc: Global, derivation: &Derivation) -> Result<Value, NoMemory>
    ensures { IfOk result (λ value. view value
        ≡ list_data (nodes_data (is_named derivation.now.lines) derivation.now.sizes 0 derivation.now.nodes)) }
{
    let named = named_nodes(alloc, derivation.lines.as_slice())?;
    let sizes = derivation.sizes.as_slice();
    let mut values = Vec::new(alloc);
    for (node, name) in derivation.nodes.as_slice().iter().enumerate() {
        if node == 0 || named.contains(&node) {
            let size = sizes.get(node).copied().unwrap_or(0);
            values.push(node_value(alloc, name, size)?)?;
        }
    }
    Ok(Value::Array(values))
}

// A node: its name, and the size of its sets.
fn node_value(alloc: Global, name: &NodeName, size: u32) -> Result<Value, NoMemory>
    ensures { IfOk result (λ value. view value ≡ pair_data (string (node_text name.now)) (number_data size)) }
{
    let name = Value::String(format!(in alloc; "{name}")?);
    Ok(json!(in alloc; [name, size])?)
}

// The numbers of the nodes that a line names.
fn named_nodes(alloc: Global, lines: &[Line]) -> Result<BTreeSet<usize>, NoMemory>
    ensures { IfOk result (λ named. (node : ℕ) → contains nat_cmp named node ≡ is_named lines.now node) }
{
    let mut named = BTreeSet::new(alloc);
    for line in lines {
        add_nodes(&mut named, line)?;
    }
    Ok(named)
}

// Adds the nodes that a line names.
fn add_nodes(named: &mut BTreeSet<usize>, line: &Line) -> Result<(), NoMemory>
    ensures { OnOk result ((node : ℕ) → contains nat_cmp named.new node ≡ (names_node node line.now || contains nat_cmp named.old node)) }
{
    match line {
        Line::Fact(incompat, _) => {
            for term in incompat.terms.as_slice() {
                named.insert(term.node as usize)?;
            }
        }
        Line::Resolve { on, .. } => {
            named.insert(*on as usize)?;
        }
    }
    Ok(())
}
