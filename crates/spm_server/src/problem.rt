ghost use Rattle.std.specs.Prelude.{◌≡◌};
ghost use Rattle.spm_server.specs.Problem.{detail_of, status_of, title_of};

// Why a request isn't answered with a resource, in the order of refusal.
#[derive(Clone, Copy)]
pub(crate) enum Problem {
    // The bytes are no head of a request.
    UnreadableRequest,
    // The method isn't GET.
    NotGet,
    // Another version of the registry's API is asked for.
    OtherVersion,
    // The shelf has no such resource.
    NoResource,
}

impl Problem {
    // The status of the answer (RFC 9110, section 15).
    pub fn status(self) -> u16
        ensures { result ≡ status_of self }
    {
        match self {
            Problem::UnreadableRequest => 400,
            Problem::NotGet => 405,
            Problem::OtherVersion => 415,
            Problem::NoResource => 404,
        }
    }

    // What the status is called.
    pub fn title(self) -> &'static str
        ensures { result.now ≡ title_of self }
    {
        match self {
            Problem::UnreadableRequest => "Bad Request",
            Problem::NotGet => "Method Not Allowed",
            Problem::OtherVersion => "Unsupported Media Type",
            Problem::NoResource => "Not Found",
        }
    }

    // What is wrong.
    pub fn detail(self) -> &'static str
        ensures { result.now ≡ detail_of self }
    {
        match self {
            Problem::UnreadableRequest => "unreadable request",
            Problem::NotGet => "only GET is served",
            Problem::OtherVersion => "unsupported API version",
            Problem::NoResource => "no such resource",
        }
    }
}
