//! Laws of the definitions: each function here has one as its contract, and nothing calls them.
ghost use Rattle.std.specs.Prelude.{◌≡◌, ◌≢◌, ℕ, List, Result, Ok, Err};
ghost use Rattle.httparse.specs.Grammar.{EndsInTarget};
ghost use Rattle.spm_http.specs.Request.{ReadsHead};
ghost use Rattle.spm_http.specs.Response.{Hears};
ghost use Rattle.spm_http.specs.declared.request_head.HttpFault.{HttpFault};
ghost use Rattle.spm_http.specs.declared.request_head.HttpFault.TheVariants.{Memory};
ghost use Rattle.spm_http.specs.declared.request_head.RequestHead.{RequestHead};
ghost use Rattle.spm_http.specs.declared.response_head.Heard.{Heard};

/// Where there is memory, bytes with a head are read as that head alone, and bytes that don't end inside a target have one answer.
pub fn a_request_is_one_head()
    ensures head { (bytes : List ℕ) (head : RequestHead) (answer : Result RequestHead HttpFault)
        → ReadsHead (Ok head) bytes → ReadsHead answer bytes → answer ≢ Err Memory → answer ≡ Ok head }
    ensures answer { (bytes : List ℕ) (first second : Result RequestHead HttpFault) → ¬ (EndsInTarget bytes)
        → ReadsHead first bytes → ReadsHead second bytes → first ≢ Err Memory → second ≢ Err Memory → first ≡ second }
{}

/// What is heard of bytes with a limit is one.
pub fn a_response_is_heard_one_way()
    ensures { (limit : ℕ) (bytes : List ℕ) (first second : Heard)
        → Hears (Ok first) limit bytes → Hears (Ok second) limit bytes → first ≡ second }
{}

/// Each response is heard as something, whatever its bytes are.
pub fn every_response_is_heard()
    ensures { (limit : ℕ) (response : List ℕ) → (what : Heard) × Hears (Ok what) limit response }
{}
