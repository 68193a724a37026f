// Writing a fingerprint file, and the lines that show what is kept.
ghost use Rattle.std.specs.Prelude.{◌≡◌, ◌++◌, IfOk, OnOk, string_bytes};
ghost use Rattle.spm_trust.specs.TrustText.{between_commas, package_text, sum_line, sum_lines, sum_text, trust_lines, trust_text};

use crate::file::{KeptPackage, KeptSum};
use spm_digest::hex_of;
use spm_ident::Identity;
use spm_version::{Bytes, NoMemory, Text};
use std::alloc::Global;

// The whole file.
pub(crate) fn write(alloc: Global, packages: &[KeptPackage]) -> Result<Bytes, NoMemory>
    ensures { IfOk result (λ bytes. bytes ≡ trust_text packages.now) }
{
    let mut text = String::new(alloc);
    text.push_str("{\"fingerprints\":{")?;
    push_packages(alloc, &mut text, packages)?;
    text.push_str("},\"version\":1}\n")?;
    Ok(Bytes::from_vec(text.into_bytes()))
}

// Adds the packages, with a comma between each two.
fn push_packages(alloc: Global, text: &mut String, packages: &[KeptPackage]) -> Result<(), NoMemory>
    ensures { OnOk result (string_bytes text.new ≡ string_bytes text.old ++ between_commas package_text packages.now) }
{
    let Some((first, others)) = packages.split_first() else {
        return Ok(());
    };
    push_package(alloc, text, first)?;
    for entry in others {
        text.push_str(",")?;
        push_package(alloc, text, entry)?;
    }
    Ok(())
}

// Adds a package and the sums of its versions.
fn push_package(alloc: Global, text: &mut String, entry: &KeptPackage) -> Result<(), NoMemory>
    ensures { OnOk result (string_bytes text.new ≡ string_bytes text.old ++ package_text entry.now) }
{
    text.push_str("\"")?;
    text.push_str(entry.identity.text())?;
    text.push_str("\":{")?;
    push_sums(alloc, text, entry.sums.as_slice())?;
    text.push_str("}")?;
    Ok(())
}

// Adds the sums, with a comma between each two.
fn push_sums(alloc: Global, text: &mut String, sums: &[KeptSum]) -> Result<(), NoMemory>
    ensures { OnOk result (string_bytes text.new ≡ string_bytes text.old ++ between_commas sum_text sums.now) }
{
    let Some((first, others)) = sums.split_first() else {
        return Ok(());
    };
    push_sum(alloc, text, first)?;
    for kept in others {
        text.push_str(",")?;
        push_sum(alloc, text, kept)?;
    }
    Ok(())
}

// Adds a version and its sum.
fn push_sum(alloc: Global, text: &mut String, kept: &KeptSum) -> Result<(), NoMemory>
    ensures { OnOk result (string_bytes text.new ≡ string_bytes text.old ++ sum_text kept.now) }
{
    let release = &kept.release;
    let hex = hex_of(alloc, &kept.sum)?;
    write!(text, "\"{release}\":\"{hex}\"")?;
    Ok(())
}

// A line for each version of each package.
pub(crate) fn lines(alloc: Global, packages: &[KeptPackage]) -> Result<Text, NoMemory>
    ensures { IfOk result (λ text. text ≡ trust_lines packages.now) }
{
    let mut text = String::new(alloc);
    for entry in packages {
        push_lines(alloc, &mut text, &entry.identity, entry.sums.as_slice())?;
    }
    Ok(Text::from_string(text))
}

// Adds a line for each version of a package.
fn push_lines(
    alloc: Global,
    text: &mut String,
    identity: &Identity,
    sums: &[KeptSum],
) -> Result<(), NoMemory>
    ensures { OnOk result (string_bytes text.new ≡ string_bytes text.old ++ sum_lines identity.now sums.now) }
{
    for kept in sums {
        push_line(alloc, text, identity, kept)?;
    }
    Ok(())
}

// Adds the line of a version.
fn push_line(
    alloc: Global,
    text: &mut String,
    identity: &Identity,
    kept: &KeptSum,
) -> Result<(), NoMemory>
    ensures { OnOk result (string_bytes text.new ≡ string_bytes text.old ++ sum_line identity.now kept.now) }
{
    let release = &kept.release;
    let hex = hex_of(alloc, &kept.sum)?;
    writeln!(text, "{identity} {release} {hex}")?;
    Ok(())
}
