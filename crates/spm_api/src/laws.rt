//! Laws of the definitions: each function here has one as its contract, and nothing calls them.
ghost use Rattle.std.specs.Prelude.{◌≡◌, ◌≢◌, ℕ, List, Ok, Option, Result, Some};
ghost use Rattle.std.specs.List.Sorted.{IsPermutation, IsStrictlySortedBy};
ghost use Rattle.spm_api.specs.Bodies.{IsLeastIdentity};
ghost use Rattle.spm_api.specs.Endpoint.{IsReply, request_for};
ghost use Rattle.spm_api.specs.Guess.{Guesses};
ghost use Rattle.spm_api.specs.Refused.{Answers, Refusal};
ghost use Rattle.spm_api.specs.Said.{ascending, least_identity, said_in};
ghost use Rattle.spm_api.specs.declared.base.Base.{Base};
ghost use Rattle.spm_api.specs.declared.replies.Said.{Said};
ghost use Rattle.spm_api.specs.declared.replies.Said.TheVariants.{TooMany};
ghost use Rattle.spm_key.specs.Catalogue.{Catalogue, Extends};
ghost use Rattle.spm_key.specs.Key.{IsKey};
ghost use Rattle.spm_key.specs.declared.key.Key.{Key};
ghost use Rattle.spm_key.specs.declared.reply.Reply.{Reply};
ghost use Rattle.spm_version.specs.Release.{Parts};
ghost use Rattle.spm_version.specs.ReleaseLaws.{release_cmp};

/// Different keys have different requests, at every base: the requests that a link was opened with tell which keys were asked.
pub fn different_keys_have_different_requests()
    ensures { (base : Base) (first second : Key) → IsKey first → IsKey second
        → request_for base first ≡ request_for base second → first ≡ second }
{}

/// A response is one reply of a key: a catalogue that comes from a book holds what each fetch from it answers.
pub fn a_response_is_one_reply()
    ensures { (key : Key) (response : List ℕ) (first second : Reply)
        → IsReply key response first → IsReply key response second → first ≡ second }
{}

/// What a reply of a key makes likely is one list of keys.
pub fn a_reply_makes_one_guess()
    ensures { (key : Key) (reply : Reply) (first second : List Key)
        → Guesses key reply first → Guesses key reply second → first ≡ second }
{}

/// The texts that a look-up names have one least identity.
pub fn a_lookup_is_one_identity()
    ensures { (texts : List (List ℕ)) (first second : Option (List ℕ))
        → IsLeastIdentity texts first → IsLeastIdentity texts second → first ≡ second }
{}

/// Each response is some reply of a key, whatever its bytes are; with [`a_response_is_one_reply`], exactly one.
pub fn every_response_is_a_reply()
    ensures { (key : Key) (response : List ℕ) → (reply : Reply) × IsReply key response reply }
{}

/// A list that ascends strictly is what any list of the same releases is in ascending order.
pub fn a_sorted_list_is_ascending()
    ensures { (usable releases : List Parts) → IsStrictlySortedBy release_cmp releases → IsPermutation usable releases
        → ascending usable ≡ releases }
{}

/// The least identity that texts name is the one that the definition finds.
pub fn the_least_identity_is_found()
    ensures { (texts : List (List ℕ)) (least : Option (List ℕ)) → IsLeastIdentity texts least → least_identity texts ≡ least }
{}

/// A catalogue that answers a key says something of it, and not that its list is too long; one that says so answers the key; and what
/// a catalogue says, one that extends it says too.
pub fn a_catalogue_says_what_it_answers()
    ensures says { (catalogue : Catalogue) (asked : Key) → Answers catalogue asked
        → (said : Said) × (said_in catalogue asked ≡ Some (Ok said)) × (said ≢ TooMany) }
    ensures answers { (catalogue : Catalogue) (asked : Key) (said : Said) → said_in catalogue asked ≡ Some (Ok said) → said ≢ TooMany
        → Answers catalogue asked }
    ensures onward { (first second : Catalogue) (asked : Key) (said : Result Said Refusal) → Extends second first
        → said_in first asked ≡ Some said → said_in second asked ≡ Some said }
{}
