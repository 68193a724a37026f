ghost use Rattle.std.specs.Prelude.{◌≡◌, ◌≤◌, Some, length};
ghost use Rattle.std.specs.List.{filter};
ghost use Rattle.std.specs.Option.{option_copied};
ghost use Rattle.pub_facts.specs.Catalogue.{release_at};
ghost use Rattle.pub_plain.specs.Choosing.{choices_down, first_that, is_pinned, pin_of, ranked_in};
ghost use Rattle.pub_set.specs.Choices.{has};

use pub_set::Choices;
use spm_ident::Identity;
use spm_version::Release;

/// The release that is pinned of a package: the first that is given for it.
pub fn pin_of<'p>(pins: &'p [(Identity, Release)], identity: &Identity) -> Option<&'p Release>
    ensures { option_copied result ≡ pin_of pins.now identity.now }
{
    for (pinned, release) in pins {
        if pinned == identity {
            return Some(release);
        }
    }
    None
}

// The pinned release, as the greatest choice that it is, if that is left.
fn pinned_choice(list: &[Release], pin: &Release, left: &Choices) -> Option<u32>
    requires { length list.now ≤ 4096 }
    ensures { result ≡ first_that (has left.now) (filter (λ k. is_pinned (Some pin.now) (release_at list.now k)) (choices_down list.now)) }
{
    let mut choice = list.len();
    while choice > 0 {
        if pin == &list[choice - 1] && left.has(choice as u32) {
            return Some(choice as u32);
        }
        choice -= 1;
    }
    None
}

// The greatest choice that is left.
fn greatest_choice(list: &[Release], left: &Choices) -> Option<u32>
    requires { length list.now ≤ 4096 }
    ensures { result ≡ first_that (has left.now) (choices_down list.now) }
{
    let mut choice = list.len();
    while choice > 0 {
        if left.has(choice as u32) {
            return Some(choice as u32);
        }
        choice -= 1;
    }
    None
}

/// The first of a package's preferred choices that is left: the pinned release if it is a choice, then the others from the greatest down. Takes
/// no memory. A list has at most 4,096 releases.
pub fn preferred(list: &[Release], pin: Option<&Release>, left: &Choices) -> Option<u32>
    requires { length list.now ≤ 4096 }
    ensures { result ≡ first_that (has left.now) (ranked_in (option_copied pin.entry) list.now) }
{
    if let Some(pin) = pin {
        if let Some(choice) = pinned_choice(list, pin, left) {
            return Some(choice);
        }
    }
    greatest_choice(list, left)
}
