ghost use Rattle.std.specs.Prelude.{◌≡◌, ◌++◌, IfOk, OnOk, string_bytes};
ghost use Rattle.spm_resolved.specs.Resolved.{pin_text, pins_text, resolved_text};

use spm_digest::hex_of;
use spm_ident::Identity;
use spm_version::{Bytes, NoMemory, Release};
use std::alloc::Global;

/// The bytes of a `Package.resolved` of version 3, in the layout that SwiftPM writes. The origin is the SHA-256 of
/// the manifest's bytes. The pins come in the order in which they are given, which SwiftPM has ascending by identity.
///
/// # Errors
///
/// `NoMemory` alone.
pub fn write(
    alloc: Global,
    origin: &[u8; 32],
    pins: &[(Identity, Release)],
) -> Result<Bytes, NoMemory>
    ensures { IfOk result (λ bytes. bytes ≡ resolved_text origin.now pins.now) }
{
    let mut text = String::new(alloc);
    text.push_str("{\n  \"originHash\" : \"")?;
    text.push_str(hex_of(alloc, origin)?.as_str())?;
    text.push_str("\",\n  \"pins\" : [\n")?;
    push_pins(&mut text, pins)?;
    text.push_str("\n  ],\n  \"version\" : 3\n}\n")?;
    Ok(Bytes::from_vec(text.into_bytes()))
}

// Adds the pins, with a comma between each two.
fn push_pins(text: &mut String, pins: &[(Identity, Release)]) -> Result<(), NoMemory>
    ensures { OnOk result (string_bytes text.new ≡ string_bytes text.old ++ pins_text pins.now) }
{
    let Some((first, others)) = pins.split_first() else {
        return Ok(());
    };
    push_pin(text, first)?;
    for pin in others {
        text.push_str(",\n")?;
        push_pin(text, pin)?;
    }
    Ok(())
}

// Adds the lines of one pin.
fn push_pin(text: &mut String, pin: &(Identity, Release)) -> Result<(), NoMemory>
    ensures { OnOk result (string_bytes text.new ≡ string_bytes text.old ++ pin_text pin.now) }
{
    let (identity, release) = pin;
    write!(
        text,
        r#"    {{
      "identity" : "{identity}",
      "kind" : "registry",
      "location" : "",
      "state" : {{
        "version" : "{release}"
      }}
    }}"#
    )?;
    Ok(())
}
