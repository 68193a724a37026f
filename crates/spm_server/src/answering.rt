ghost use Rattle.std.specs.Prelude.{◌≡◌, Some, IfOk, option_and_then};
ghost use Rattle.spm_server.specs.Content.{content_of};
ghost use Rattle.spm_server.specs.Target.{key_of_target};
ghost use Rattle.spm_server.specs.Answer.{
  IsAnswer,
  IsAnswerText,
  answer_text,
  asks_other_version,
  content_answer,
  head_answer,
  is_known,
  problem_answer,
};

use crate::content::{Content, content_of, details_value};
use crate::media::Media;
use crate::problem::Problem;
use crate::target::key_of_target;
use spm_http::{HttpFault, RequestHead, read_request, response};
use spm_shelf::Shelf;
use spm_version::{Bytes, NoMemory};
use std::alloc::Global;

/// The media type of the registry's API (SE-0292), without its version.
const MEDIA: &[u8] = b"application/vnd.swift.registry";

// What is answered to a request.
#[derive(Drop)]
pub(crate) struct AnswerParts {
    pub status: u16,
    pub media: Media,
    pub body: Bytes,
}

impl AnswerParts {
    // The bytes of the response.
    pub(crate) fn text(&self, alloc: Global) -> Result<Bytes, NoMemory>
        ensures { IfOk result (λ text. text ≡ answer_text self.now) }
    {
        response(alloc, self.status, self.media.text(), self.body.as_slice())
    }
}

/// The bytes of the answer to a request: 400 where its bytes are no head of a request, 405 where it isn't a GET, 415 where it asks
/// for another version of the registry's API, 404 where the shelf has no such resource, and otherwise 200 with the resource.
///
/// # Errors
///
/// `NoMemory` alone.
pub fn answer(alloc: Global, shelf: &Shelf, request: &[u8]) -> Result<Bytes, NoMemory>
    ensures { IfOk result (λ text. IsAnswerText shelf.now request.now text) }
{
    let answer = answer_to(alloc, shelf, request)?;
    answer.text(alloc)
}

// The answer to a request, in its parts.
pub(crate) fn answer_to(
    alloc: Global,
    shelf: &Shelf,
    request: &[u8],
) -> Result<AnswerParts, NoMemory>
    ensures { IfOk result (λ answer. IsAnswer shelf.now request.now answer) }
{
    match read_request(alloc, request) {
        Ok(head) => head_answer(alloc, shelf, &head),
        Err(HttpFault::Memory) => Err(NoMemory),
        Err(HttpFault::Partial) | Err(HttpFault::Bad) => {
            problem_answer(alloc, Problem::UnreadableRequest)
        }
    }
}

// The answer that tells a problem.
pub(crate) fn problem_answer(alloc: Global, problem: Problem) -> Result<AnswerParts, NoMemory>
    ensures { IfOk result (λ answer. answer ≡ problem_answer problem) }
{
    let details = details_value(alloc, problem.status(), problem.title(), problem.detail())?;
    let text = details.to_string(alloc)?;
    Ok(AnswerParts {
        status: problem.status(),
        media: Media::ProblemJson,
        body: Bytes::from_vec(text.into_bytes()),
    })
}

// The answer with a resource, or that there is none.
pub(crate) fn content_answer(
    alloc: Global,
    content: Option<Content>,
) -> Result<AnswerParts, NoMemory>
    ensures { IfOk result (λ answer. answer ≡ content_answer content) }
{
    match content {
        Some(content) => Ok(AnswerParts {
            status: 200,
            media: content.media,
            body: content.body,
        }),
        None => problem_answer(alloc, Problem::NoResource),
    }
}

// Whether the registry's API is asked for in another version than its first.
fn asks_other_version(accept: &Option<Bytes>) -> bool
    ensures { result ≡ asks_other_version accept.now }
{
    match accept {
        Some(accept) => names_other_version(accept.as_slice()),
        None => false,
    }
}

// Whether a text asks for it so.
fn names_other_version(accept: &[u8]) -> bool
    ensures { result ≡ asks_other_version (Some accept.now) }
{
    if !accept.starts_with(MEDIA) {
        return false;
    }
    let (_, version) = accept.split_at(MEDIA.len());
    !is_known(version)
}

// Whether this is the first version.
fn is_known(version: &[u8]) -> bool
    ensures { result ≡ is_known version.now }
{
    version == b".v1".as_slice()
        || version == b".v1+json".as_slice()
        || version == b".v1+zip".as_slice()
}

// What the shelf has behind a target.
fn target_content(alloc: Global, shelf: &Shelf, target: &[u8]) -> Result<Option<Content>, NoMemory>
    ensures { IfOk result (λ content. content ≡ option_and_then (content_of shelf.now) (key_of_target target.now)) }
{
    match key_of_target(alloc, target)? {
        Some(key) => content_of(alloc, shelf, &key),
        None => Ok(None),
    }
}

// The answer to the request with this head.
fn head_answer(alloc: Global, shelf: &Shelf, head: &RequestHead) -> Result<AnswerParts, NoMemory>
    ensures { IfOk result (λ answer. answer ≡ head_answer shelf.now head.now) }
{
    if head.method.as_str() != "GET" {
        return problem_answer(alloc, Problem::NotGet);
    }
    if asks_other_version(&head.accept) {
        return problem_answer(alloc, Problem::OtherVersion);
    }
    let content = target_content(alloc, shelf, head.target.as_slice())?;
    content_answer(alloc, content)
}
