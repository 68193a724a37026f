ghost use Rattle.std.specs.Prelude.{Some};
ghost use Rattle.spm_version.specs.Kind.{kind_text};

use std::fmt;

/// What is wrong at a place of a file or a message.
#[derive(Clone, Copy, Debug, PartialEq, Eq)]
pub enum Kind {
    /// The bytes are not JSON.
    NotJson,
    /// A key that must be there is absent.
    Missing,
    /// The item has another JSON kind, or a list another length, than is due.
    WrongKind,
    /// The text is no package identity.
    BadIdentity,
    /// The text is no version.
    BadVersion,
    /// The text is no trait's name.
    BadTrait,
    /// It is the second of two equal names.
    Doubled,
    /// The list exceeds its limit.
    TooMany,
    /// The text is not hexadecimal, or of another length than is due.
    BadHex,
}

impl fmt::Display for Kind {
    ghost output = { λ k. Some (kind_text k) };

    fn fmt<W: fmt::Write>(&self, f: &mut fmt::Formatter<W>) -> fmt::Result {
        f.write_str(match self {
            Kind::NotJson => "not JSON",
            Kind::Missing => "missing",
            Kind::WrongKind => "wrong kind",
            Kind::BadIdentity => "bad identity",
            Kind::BadVersion => "bad version",
            Kind::BadTrait => "bad trait",
            Kind::Doubled => "doubled",
            Kind::TooMany => "too many",
            Kind::BadHex => "bad hex",
        })
    }
}
