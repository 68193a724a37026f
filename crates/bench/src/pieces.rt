ghost use Rattle.std.specs.Prelude.{OnOk};
ghost use Rattle.spm_cache_core.specs.Legal.{IsSession};

use pub_proof::{Derivation, Line, ProofFault, check};
use pub_set::Choices;
use pub_term::{Incompat, Term};
use serde_json::Value;
use spm_cache_core::{Asked, CacheState, SharedReply, Why};
use spm_digest::sum;
use spm_ident::Identity;
use spm_key::{Body, Key, Reply};
use spm_manifest::Manifest;
use spm_outside::{Authority, Book, Entry};
use spm_resolved::Resolved;
use spm_server::answer;
use spm_shelf::Shelf;
use spm_trait::{TraitName, closure};
use spm_version::{Bytes, Items, NoMemory, Text};
use std::alloc::{AllocError, Global};
use std::io;

/// Why nothing was measured.
#[derive(Debug, Drop)]
pub enum BenchError {
    /// The words are no piece with a file and a count.
    Words,
    /// The file was refused, or there was no memory.
    Refused,
    /// Input or output failed.
    Io(io::Error),
}

impl From<io::Error> for BenchError {
    fn from(e: io::Error) -> BenchError {
        BenchError::Io(e)
    }
}

impl From<AllocError> for BenchError {
    fn from(_e: AllocError) -> BenchError {
        BenchError::Refused
    }
}

// What is made once of the file.
#[derive(Drop)]
enum Input {
    // The file itself.
    Text(String),
    // A derivation, with its facts.
    Lines(Derivation, Items<Incompat>),
    // The replies of a registry.
    Replies(Book),
    // A shelf, with requests to answer from it.
    Stock(Shelf, Items<Bytes>),
    // Keys to ask for, and the reply that each lands.
    Keys(Items<Key>, SharedReply),
}

// Reads a dump, and counts its needs and the closure of its first trait.
fn read_dump(alloc: Global, text: &str) -> Result<usize, BenchError> {
    let manifest = Manifest::read(alloc, text.as_bytes()).map_err(|_| BenchError::Refused)?;
    let first = TraitName::parse(alloc, "t0").map_err(|_| BenchError::Refused)?;
    let names = closure(alloc, manifest.traits(), &[first]).map_or(0, |names| names.len());
    Ok(manifest.needs().len().saturating_add(names))
}

// Reads a lock file, and counts its pins.
fn read_lock(alloc: Global, text: &str) -> Result<usize, BenchError> {
    let lock = Resolved::read(alloc, text.as_bytes()).map_err(|_| BenchError::Refused)?;
    Ok(lock.pins.as_slice().len())
}

// The derivation of a file.
fn derivation_of(alloc: Global, text: &str) -> Result<Derivation, BenchError> {
    Derivation::read(alloc, text.as_bytes()).map_err(|_| BenchError::Refused)
}

// How many choices a node of a wide derivation has.
const WIDE: u32 = 4096;

// The sets of three choices, by their bits, with each choice made a third of WIDE: at most two runs each.
fn wide_sets(alloc: Global) -> Result<Vec<Choices>, NoMemory> {
    let mut sets = Vec::new(alloc);
    for bits in 0..8u32 {
        let mut numbers = Vec::new(alloc);
        for choice in 0..WIDE {
            if bits >> (choice / 1365).min(2) & 1 == 1 {
                numbers.push(choice)?;
            }
        }
        if numbers.iter().all(|choice| *choice < WIDE) {
            sets.push(Choices::of(alloc, WIDE, &numbers)?)?;
        }
    }
    Ok(sets)
}

// The terms with the wide set in place of each.
fn wide_terms(alloc: Global, sets: &[Choices], terms: &[Term]) -> Result<Items<Term>, BenchError> {
    let mut wide = Items::new(alloc);
    for term in terms {
        let bits = (0..3usize).filter(|choice| term.choices.has(*choice as u32));
        let place = bits.fold(0usize, |sum, choice| sum | 1 << choice);
        let set = sets.get(place).ok_or(BenchError::Refused)?;
        wide.push(Term {
            node: term.node,
            choices: set.copy(alloc)?,
        })?;
    }
    Ok(wide)
}

// The derivation over sets of WIDE choices in place of three.
fn widened(alloc: Global, derivation: &Derivation) -> Result<Derivation, BenchError> {
    let sets = wide_sets(alloc)?;
    let mut lines = Items::new(alloc);
    for line in derivation.lines.as_slice() {
        lines.push(match line {
            Line::Fact(incompat, cause) => {
                let terms = wide_terms(alloc, &sets, incompat.terms.as_slice())?;
                Line::Fact(Incompat { terms }, cause.copy(alloc)?)
            }
            line => line.copy(alloc)?,
        })?;
    }
    let copy = derivation.copy(alloc)?;
    Ok(Derivation {
        nodes: copy.nodes,
        sizes: Items::from_vec(vec![in alloc; WIDE; copy.sizes.as_slice().len()]?),
        lines,
    })
}

// Checks the derivation, and counts its lines up to the first bad one.
fn check_lines(
    alloc: Global,
    derivation: &Derivation,
    facts: &[Incompat],
) -> Result<usize, BenchError> {
    match check(alloc, derivation, facts) {
        Ok(_) => Ok(derivation.lines.as_slice().len()),
        Err(ProofFault::At { line, .. }) => Ok(line as usize),
        Err(ProofFault::Memory) => Err(BenchError::Refused),
    }
}

// A book with an entry for each line of the file, and no answer to every other request.
fn book_of(alloc: Global, text: &str) -> Result<Book, NoMemory> {
    let mut entries = Items::new(alloc);
    for line in text.lines() {
        let host = Text::from_str(alloc, "registry.example")?;
        entries.push(Entry {
            to: Authority { host, port: 443 },
            request: Bytes::from_slice(alloc, line.as_bytes())?,
            response: Bytes::from_slice(alloc, b"HTTP/1.1 200 OK\r\n\r\n")?,
        })?;
    }
    Book::new(alloc, entries, Bytes::from_vec(Vec::new(alloc)))
}

// Looks up the request of each entry of the book, and counts those that are found.
fn look_up(book: &Book) -> usize {
    let entries = book.entries().iter();
    entries
        .filter(|entry| !book
            .response(&entry.to, entry.request.as_slice())
            .is_empty())
        .count()
}

// Reads a shelf's file as JSON alone, and counts the members of `packages`.
fn read_json(alloc: Global, text: &str) -> Result<usize, BenchError> {
    let value = Value::from_str(alloc, text).map_err(|_| BenchError::Refused)?;
    match value.get("packages").and_then(Value::as_object) {
        Some(packages) => Ok(packages.len()),
        None => Err(BenchError::Refused),
    }
}

// The shelf of a file.
fn shelf_of(alloc: Global, text: &str) -> Result<Shelf, BenchError> {
    Shelf::read(alloc, text.as_bytes()).map_err(|_| BenchError::Refused)
}

// A request of the list of each package, or of the manifest of its first release.
fn requests_of(alloc: Global, shelf: &Shelf, lists: bool) -> Result<Items<Bytes>, NoMemory> {
    let mut requests = Items::new(alloc);
    for entry in shelf.packages() {
        let identity = entry.identity.copy(alloc)?;
        let key = match entry.releases.as_slice().first() {
            Some(first) if !lists => Key::Manifest(identity, first.release.copy(alloc)?),
            _ => Key::List(identity),
        };
        let path = key.text(alloc)?;
        let text = format!(in alloc; "GET {path} HTTP/1.1\r\n\r\n")?;
        requests.push(Bytes::from_vec(text.into_bytes()))?;
    }
    Ok(requests)
}

// Answers each request from the shelf, and adds up the lengths of the responses.
fn answer_all(alloc: Global, shelf: &Shelf, requests: &[Bytes]) -> Result<usize, NoMemory> {
    let mut length: usize = 0;
    for request in requests {
        let response = answer(alloc, shelf, request.as_slice())?;
        length = length.saturating_add(response.as_slice().len());
    }
    Ok(length)
}

// The lists of the packages that the file names, one a line.
fn keys_of(alloc: Global, text: &str) -> Result<Items<Key>, BenchError> {
    let mut keys = Items::new(alloc);
    for line in text.lines() {
        let identity = Identity::parse(alloc, line).map_err(|_| BenchError::Refused)?;
        keys.push(Key::List(identity))?;
    }
    Ok(keys)
}

/// A reply without a body.
///
/// # Errors
///
/// `NoMemory` alone.
pub fn empty_reply(alloc: Global) -> Result<SharedReply, NoMemory> {
    let body = Body::Whole(Bytes::from_vec(Vec::new(alloc)));
    SharedReply::new(alloc, Reply { status: 404, body })
}

// Asks for a key, and lands the reply where it is to be fetched.
#[tactic(auto, using(crate::proofs::CacheLemmas::asked_session, crate::proofs::CacheLemmas::landed_session, crate::proofs::CacheLemmas::given_flight))]
fn ask_once(state: &mut CacheState, key: &Key, reply: &SharedReply) -> Result<(), NoMemory>
    requires { IsSession state.old.sessions state.old.history 0 }
    ensures { OnOk result (IsSession state.new.sessions state.new.history 0) }
{
    state.is_legal();
    let ticket = match state.ask(0, key)? {
        Asked::Fetch(ticket) => ticket,
        Asked::Cancelled(_) | Asked::Have(_) | Asked::Waiting => return Ok(()),
    };
    match reply.share() {
        Ok(shared) => {
            state.land(ticket, shared);
            Ok(())
        }
        Err(NoMemory) => {
            state.fail(ticket, Why::Memory);
            Err(NoMemory)
        }
    }
}

// Asks nine times for each key, one key after the other, and counts what happened.
fn fill_cache(alloc: Global, keys: &[Key], reply: &SharedReply) -> Result<usize, NoMemory> {
    let mut state = CacheState::new(alloc, 1, 0)?;
    for _round in 0..9 {
        for key in keys {
            ask_once(&mut state, key, reply)?;
        }
    }
    Ok(state.history().len())
}

// What the piece needs of the file.
fn input_of(alloc: Global, piece: &str, text: String) -> Result<Input, BenchError> {
    match piece {
        "manifest" | "lock" | "proof" | "shelf" | "json" | "sum" => Ok(Input::Text(text)),
        "check" | "wide" => {
            let mut derivation = derivation_of(alloc, text.as_str())?;
            if piece == "wide" {
                derivation = widened(alloc, &derivation)?;
            }
            let facts = derivation.facts(alloc)?;
            Ok(Input::Lines(derivation, facts))
        }
        "lookup" => Ok(Input::Replies(book_of(alloc, text.as_str())?)),
        "cache" => Ok(Input::Keys(keys_of(alloc, text.as_str())?, empty_reply(alloc)?)),
        "answer" | "list" => {
            let shelf = shelf_of(alloc, text.as_str())?;
            let requests = requests_of(alloc, &shelf, piece == "list")?;
            Ok(Input::Stock(shelf, requests))
        }
        _ => Err(BenchError::Words),
    }
}

// Runs a piece that reads a file.
fn read_once(alloc: Global, piece: &str, text: &str) -> Result<usize, BenchError> {
    match piece {
        "manifest" => read_dump(alloc, text),
        "lock" => read_lock(alloc, text),
        "proof" => Ok(derivation_of(alloc, text)?.lines.as_slice().len()),
        "json" => read_json(alloc, text),
        "sum" => Ok(usize::from(sum(text.as_bytes())[0])),
        _ => Ok(shelf_of(alloc, text)?.packages().len()),
    }
}

// Runs the piece once, and gives what it came to.
fn run_once(alloc: Global, piece: &str, input: &Input) -> Result<usize, BenchError> {
    match input {
        Input::Text(text) => read_once(alloc, piece, text.as_str()),
        Input::Lines(derivation, facts) => check_lines(alloc, derivation, facts.as_slice()),
        Input::Replies(book) => Ok(look_up(book)),
        Input::Stock(shelf, requests) => Ok(answer_all(alloc, shelf, requests.as_slice())?),
        Input::Keys(keys, reply) => Ok(fill_cache(alloc, keys.as_slice(), reply)?),
    }
}

/// Runs the piece of this name on the file's text so many times, and gives what the last run came to.
///
/// # Errors
///
/// `Words` where there is no such piece, and `Refused` where the file isn't what it needs.
pub fn run_piece(
    alloc: Global,
    piece: &str,
    text: String,
    times: u32,
) -> Result<usize, BenchError> {
    let input = input_of(alloc, piece, text)?;
    let mut count = 0;
    for _ in 0..times {
        count = run_once(alloc, piece, &input)?;
    }
    Ok(count)
}
