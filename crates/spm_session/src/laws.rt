//! Laws of the definitions: each function here has one as its contract, and nothing calls them.
ghost use Rattle.std.specs.Prelude.{◌≡◌, ℕ, Bool, List};
ghost use Rattle.pub_facts.specs.Catalogue.{Job};
ghost use Rattle.pub_facts.specs.Enabled.{Selection};
ghost use Rattle.pub_facts.specs.Valid.{IsValid};
ghost use Rattle.pub_plain.specs.Answers.{Answers, AreShort, Carries, answers_of, catalogue_by};
ghost use Rattle.pub_plain.specs.Choosing.{Pins};
ghost use Rattle.pub_proof.specs.declared.derivation.Derivation.{Derivation};
ghost use Rattle.pub_term.specs.declared.cause.Cause.{Cause};
ghost use Rattle.spm_key.specs.Catalogue.{Catalogue, Extends};
ghost use Rattle.spm_session.specs.Archives.{AreRight, Fingerprints};
ghost use Rattle.spm_session.specs.Outcome.{IsReadyOutcome, IsRefuted, IsResolved, IsSelected};
ghost use Rattle.spm_session.specs.declared.outcome.Outcome.{Outcome};

/// A law, with nothing to run: where a root is refuted over a catalogue of replies, it has no valid selection, whatever else a registry may
/// say that says the same of the keys of the catalogue.
pub fn a_refuted_root_has_no_selection()
    ensures { (same : Cause → Cause → Bool) (job : Job) (pins : Pins) (c : Catalogue) (found : Derivation) (texts : List (List (List ℕ))) (turns : ℕ)
        → IsRefuted same job pins c found texts turns → (more : Answers) → Carries (answers_of c) more → AreShort more
        → (selection : Selection) → IsValid job (catalogue_by more) selection → ⊥ }
{}

/// A law, with nothing to run: what a root comes to over a catalogue of replies it comes to over each catalogue that extends it.
pub fn outcomes_stay()
    ensures { (same : Cause → Cause → Bool) (job : Job) (fingerprints : Fingerprints) (pins : Pins) (c more : Catalogue) (it : Outcome)
        → Extends more c → IsReadyOutcome same job fingerprints pins c it → IsReadyOutcome same job fingerprints pins more it }
{}

/// A law, with nothing to run: a root that was resolved over a catalogue of replies, resolved again over it with the pins that it got, gets the
/// same pins.
pub fn resolving_again_keeps_the_pins()
    ensures { (job : Job) (pins : Pins) (c : Catalogue) (found again : Pins) (turns turns_again : ℕ) → IsSelected job pins c found turns
        → IsSelected job found c again turns_again → again ≡ found }
{}

/// A law, with nothing to run: where a root was resolved over a catalogue of replies, the release of each pin names a checksum, its archive has
/// that sum, and no other fingerprint is kept of it; these are the sums that the outcome has.
pub fn the_archives_of_a_resolved_root_are_right()
    ensures { (job : Job) (fingerprints : Fingerprints) (pins : Pins) (c : Catalogue) (found : Pins) (sums : List (List ℕ)) (turns : ℕ)
        → IsResolved job fingerprints pins c found sums turns → AreRight fingerprints c found sums }
{}
