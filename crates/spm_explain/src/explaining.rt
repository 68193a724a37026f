ghost use Rattle.std.specs.Prelude.{◌≡◌, IfOk, IsOk, length, map};
ghost use Rattle.pub_proof.specs.Checked.{checked_of};
ghost use Rattle.pub_proof.specs.Checks.{own_facts};
ghost use Rattle.spm_explain.specs.DerivationText.{derivation_text};

use crate::lines::push_lines;
use pub_proof::{Derivation, ProofFault};
use spm_version::{Bytes, Items, NoMemory, Text};
use std::alloc::Global;

/// The text of a derivation that the check passes by its own facts: its lines in their order, numbered from 1, each with why it
/// holds and the terms that it says, and at last that no selection exists. `choices` has the texts of each node's choices: of a
/// package `none` and then its versions, of a trait `off` and `on`, of the root `none` and `chosen`.
///
/// # Errors
///
/// `NoMemory` alone.
pub fn explain(
    alloc: Global,
    derivation: &Derivation,
    choices: &[Items<Text>],
) -> Result<Bytes, NoMemory>
    requires sizes { length derivation.now.sizes ≡ length derivation.now.nodes }
    requires checked { IsOk (checked_of derivation.now.nodes derivation.now.sizes
        (own_facts derivation.now.lines) derivation.now.lines) }
    // There is a list for each node, with a text for each of its choices.
    requires choices { map length choices.now ≡ derivation.now.sizes }
    ensures { IfOk result (λ bytes. bytes ≡ derivation_text derivation.now choices.now) }
{
    let said = match derivation.said(alloc) {
        Ok(said) => said,
        Err(ProofFault::Memory) => return Err(NoMemory),
        Err(ProofFault::At { .. }) => unreachable!(),
    };
    let (nodes, lines) = (derivation.nodes.as_slice(), derivation.lines.as_slice());
    let mut text = String::new(alloc);
    push_lines(alloc, &mut text, nodes, choices, lines, said.as_slice())?;
    text.push_str("So no selection exists.\n")?;
    Ok(Bytes::from_vec(text.into_bytes()))
}
