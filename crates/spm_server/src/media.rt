ghost use Rattle.std.specs.Prelude.{◌≡◌};
ghost use Rattle.spm_server.specs.Content.{media_text};

// The media type of an answer's body.
#[derive(Clone, Copy)]
pub(crate) enum Media {
    // `application/json` (RFC 8259).
    Json,
    // `application/zip`.
    Zip,
    // `application/problem+json` (RFC 7807).
    ProblemJson,
}

impl Media {
    // Its name.
    pub fn text(self) -> &'static str
        ensures { result.now ≡ media_text self }
    {
        match self {
            Media::Json => "application/json",
            Media::Zip => "application/zip",
            Media::ProblemJson => "application/problem+json",
        }
    }
}
