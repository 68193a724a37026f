// The texts of choices.
ghost use Rattle.std.specs.Prelude.{◌≡◌, ◌∷◌, [], IfOk, codes, map};
ghost use Rattle.pub_facts.specs.Known.{lookups_of};
ghost use Rattle.pub_plain.specs.Derivation.{texts_of};
ghost use Rattle.spm_version.specs.Release.{parts_text};

use pub_facts::Known;
use pub_term::NodeName;
use spm_version::{Items, NoMemory, Release, Text};
use std::alloc::Global;

// Two texts.
fn both(alloc: Global, first: &str, second: &str) -> Result<Items<Text>, NoMemory>
    ensures { IfOk result (λ texts. texts ≡ first.now ∷ second.now ∷ []) }
{
    let mut texts = Items::new(alloc);
    texts.push(Text::from_str(alloc, first)?)?;
    texts.push(Text::from_str(alloc, second)?)?;
    Ok(texts)
}

// `none`, and then the releases of a list.
fn package_texts(alloc: Global, list: &[Release]) -> Result<Items<Text>, NoMemory>
    ensures { IfOk result (λ texts. texts ≡ codes "none" ∷ map parts_text list.now) }
{
    let mut texts = Items::new(alloc);
    texts.push(Text::from_str(alloc, "none")?)?;
    for release in list {
        texts.push(release.text(alloc)?)?;
    }
    Ok(texts)
}

// The texts of the choices of a node.
fn texts_of(alloc: Global, known: &Known, node: &NodeName) -> Result<Items<Text>, NoMemory>
    ensures { IfOk result (λ texts. texts ≡ texts_of (lookups_of known.now) node.now) }
{
    match node {
        NodeName::Root => both(alloc, "none", "chosen"),
        NodeName::Package(identity) => package_texts(alloc, known.list_of(identity)),
        NodeName::RootTrait(_) | NodeName::PackageTrait(_, _) => both(alloc, "off", "on"),
    }
}

/// For each of these nodes the texts of its choices.
///
/// # Errors
///
/// `NoMemory` alone.
pub fn choices_text(
    alloc: Global,
    known: &Known,
    nodes: &[NodeName],
) -> Result<Items<Items<Text>>, NoMemory>
    ensures { IfOk result (λ texts. texts ≡ map (texts_of (lookups_of known.now)) nodes.now) }
{
    let mut texts = Items::new(alloc);
    for node in nodes {
        texts.push(texts_of(alloc, known, node)?)?;
    }
    Ok(texts)
}
