//! The program: it hands the words behind its name to `spm_tool::resolve`, or to `spm_tool::still` for another command, over the
//! system's files and standard output, and ends with the status that it gives.
//!
//! All that the program promises are the contracts of these calls, of which [`answer`] takes the one of the command that the first word
//! is; here alone the runtime is named.
#![tactic(auto)]

ghost use Rattle.std.specs.Prelude.{IfOk, ◌≡◌, map as map_list, string_bytes, vec_len};
ghost use Rattle.kevannir.specs.Command.{Answers};

use pub_term::Cause;
use spm_outside::{Book, BookLink, Desk, FolderDesk, Gate, Link, OpenGate, Sink, StdSink};
use spm_tool::{resolve, still};
use spm_version::{Bytes, Items, NoMemory};
use std::alloc::Global;
use std::env;
use std::env::Env;
use std::io::ErrorKind;
use std::process::ExitCode;
use std::rt::Files;
use std::sync::Wait;
use std::thread::Threads;

/// How many links `resolve` is handed.
const LINKS: usize = 80;

/// The exit status where there was no memory.
const NO_MEMORY: u8 = 6;

// The words behind the program's name. A word that isn't UTF-8 makes them none.
fn words<R: Env + AllocGlobal>(rt: &R) -> Result<Vec<String>, NoMemory> {
    match env::args(rt) {
        Ok(args) => Ok(args.skip(1).collect(rt.alloc())?),
        Err(e) if e.kind() == ErrorKind::OutOfMemory => Err(NoMemory),
        Err(_) => Ok(Vec::new(rt.alloc())),
    }
}

// Links over the book. None of them is opened yet.
fn links<'b>(alloc: Global, book: &'b Book) -> Result<Vec<BookLink<'b>>, NoMemory>
    ensures { IfOk result (λ links. vec_len links ≡ LINKS) }
{
    let mut links = Vec::with_capacity(alloc, LINKS)?;
    while links.len() < LINKS {
        links.push(BookLink::new(alloc, book, &[])?)?;
    }
    Ok(links)
}

// Hands the words to the call of their command.
fn answer<R: Threads + Wait + Sync, D: Desk, L: Link + Send, O: Sink, G: Gate>(
    rt: &R,
    alloc: Global,
    words: &[String],
    desk: &mut D,
    links: &mut Vec<L>,
    out: &mut O,
    gate: &G,
) -> u8
    ensures { Answers ⟦<Cause as PartialEq>⟧.eq (map_list string_bytes words.now)
        (D.state desk.old) (D.state desk.new) (O.state out.old) (O.state out.new) result }
{
    match words.first() {
        Some(word) if word.as_str() == "resolve" => {
            resolve(rt, alloc, words, desk, links, out, gate)
        }
        _ => still(alloc, words, desk, out),
    }
}

// Answers the words over the system's files and standard output.
fn run<R: Env + Files + Print + AllocGlobal + Threads + Wait + Sync>(
    rt: &R,
) -> Result<u8, NoMemory> {
    let alloc = rt.alloc();
    let words = words(rt)?;
    let book = Book::new(alloc, Items::new(alloc), Bytes::from_vec(Vec::new(alloc)))?;
    let mut links = links(alloc, &book)?;
    let mut desk = FolderDesk::new(alloc, rt);
    let mut out = StdSink::new(rt);
    Ok(answer(
        rt,
        alloc,
        words.as_slice(),
        &mut desk,
        &mut links,
        &mut out,
        &OpenGate,
    ))
}

fn main(rt: HostRuntime) -> ExitCode {
    ExitCode::from(run(&rt).unwrap_or(NO_MEMORY))
}
