ghost use Rattle.std.specs.Prelude.{◌≡◌};
ghost use Rattle.spm_ident.specs.Identity.{is_joined, is_name, is_scope};
ghost use Rattle.spm_ident.specs.Separator.{is_separator};

/// The bytes of the longest scope (SE-0292).
const MAX_SCOPE: usize = 39;

/// The bytes of the longest name (SE-0292).
const MAX_NAME: usize = 100;

/// What stands between two words.
#[derive(Clone, Copy)]
enum Separator {
    Hyphen,
    HyphenOrUnderscore,
}

impl Separator {
    // Whether the byte is one.
    fn matches(self, byte: u8) -> bool
        ensures { result ≡ is_separator self byte }
    {
        match self {
            Separator::Hyphen => byte == b'-',
            Separator::HyphenOrUnderscore => byte == b'-' || byte == b'_',
        }
    }
}

// Whether a text is words of ASCII letters and digits with one separator between each two, by one pass over
// its bytes.
#[tactic(auto, using(crate::proofs::Scan::goes_on_joined, std::proofs::lemmas::Grind::common_steps))]
fn is_joined(separator: Separator, text: &[u8]) -> bool
    ensures { result ≡ is_joined (is_separator separator) text.now }
{
    let mut in_word = false;
    for byte in text {
        if separator.matches(*byte) {
            if !in_word {
                return false;
            }
            in_word = false;
        } else {
            if !byte.is_ascii_alphanumeric() {
                return false;
            }
            in_word = true;
        }
    }
    in_word
}

/// Whether a text may stand before the dot: 1 to 39 bytes, words with hyphens between.
pub fn is_scope(text: &str) -> bool
    ensures { result ≡ is_scope text.now }
{
    text.len() <= MAX_SCOPE && is_joined(Separator::Hyphen, text.as_bytes())
}

/// Whether a text may stand behind the dot: 1 to 100 bytes, words with hyphens or underscores between.
pub fn is_name(text: &str) -> bool
    ensures { result ≡ is_name text.now }
{
    text.len() <= MAX_NAME && is_joined(Separator::HyphenOrUnderscore, text.as_bytes())
}
