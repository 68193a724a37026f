ghost use Rattle.std.specs.Prelude.{◌≡◌, ◌==◌, ◌∷◌, [], ◌<◌, ℕ, Some, IfSome};
ghost use Rattle.std.specs.List.{slice_split};
ghost use Rattle.std.specs.Option.{option_map_or};
ghost use Rattle.spm_version.specs.ToolsVersion.{number_of, tools_of, tools_text};

use std::fmt;

// How many digits a number has at most.
const MAX_DIGITS: usize = 9;

/// The version of the tools that a manifest is written for. Each number is below 10^9.
#[derive(Clone, Copy, Debug, PartialEq, Eq, PartialOrd, Ord)]
pub struct ToolsVersion {
    pub major: u32,
    pub minor: u32,
    pub patch: u32,
}

impl ToolsVersion {
    /// The version that a text is: one to three numbers of 1 to 9 digits, joined by dots. Absent numbers
    /// are 0. It takes no memory.
    #[tactic(auto, using(crate::proofs::ToolsLemmas::four_parts))]
    pub fn parse(text: &str) -> Option<ToolsVersion>
        ensures { result ≡ tools_of text.now }
    {
        let (first, rest) = cut(text);
        let major = number(first)?;
        let Some(rest) = rest else {
            return Some(ToolsVersion {
                major,
                minor: 0,
                patch: 0,
            });
        };
        let (second, rest) = cut(rest);
        let minor = number(second)?;
        let Some(rest) = rest else {
            return Some(ToolsVersion {
                major,
                minor,
                patch: 0,
            });
        };
        let (third, rest) = cut(rest);
        let patch = number(third)?;
        match rest {
            Some(_) => None,
            None => Some(ToolsVersion {
                major,
                minor,
                patch,
            }),
        }
    }
}

impl fmt::Display for ToolsVersion {
    ghost output = { λ tools. Some (tools_text tools) };

    fn fmt<W: fmt::Write>(&self, f: &mut fmt::Formatter<W>) -> fmt::Result {
        let ToolsVersion {
            major,
            minor,
            patch,
        } = self;
        write!(f, "{major}.{minor}.{patch}")
    }
}

// The text before the first dot, and the text behind it, where there is one.
#[tactic(auto, using(crate::proofs::ToolsLemmas::no_dot, crate::proofs::ToolsLemmas::some_dot))]
fn cut(text: &str) -> (&str, Option<&str>)
    ensures { slice_split (λ byte. byte == 46) text.now
        ≡ result.0.now ∷ option_map_or (λ rest. slice_split (λ byte. byte == 46) rest.now) result.1 [] }
{
    match text.split_once('.') {
        Some((before, after)) => (before, Some(after)),
        None => (text, None),
    }
}

// The number that 1 to 9 digits write.
fn number(text: &str) -> Option<u32>
    ensures { result ≡ number_of text.now }
{
    let digits = text.as_bytes();
    if digits.is_empty() || digits.len() > MAX_DIGITS {
        return None;
    }
    let mut value = 0;
    for digit in digits {
        if !digit.is_ascii_digit() {
            return None;
        }
        value = value * 10 + u32::from(*digit - b'0');
    }
    Some(value)
}
