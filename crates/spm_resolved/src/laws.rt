ghost use Rattle.std.specs.Prelude.{◌≡◌, ℕ, List, Ok, Some};
ghost use Rattle.spm_digest.specs.Digest.{IsBytes, encode_lower};
ghost use Rattle.spm_resolved.specs.Reading.{ArePins, Pin, resolved_of};
ghost use Rattle.spm_resolved.specs.Resolved.{resolved_text};

/// A law, with nothing to run: what `write` writes is read back as the same origin and pins.
pub fn lock_reads_back()
    ensures { (origin : List ℕ) (pins : List Pin) → IsBytes origin → ArePins pins
        → resolved_of (resolved_text origin pins) ≡ Ok (record { origin = Some (encode_lower origin); pins = pins }) }
{}
