//! Runs one piece of the libraries on a file, for measuring from outside: `bench PIECE FILE TIMES`. Two pieces ask the cache from several
//! threads, and read no file: `bench turn THREADS ASKS` and `bench mutex THREADS ASKS`.
//!
//! It reads the file, makes of it what the piece needs, runs the piece so many times, and prints what it came to, which is the same at
//! every run. It looks at no clock: `bench/run` at the top of the repository makes files of growing sizes, times the runs and prints a
//! table. It promises nothing; the contracts are those of the libraries that it calls.
#![tactic(auto)]

mod asks;
mod pieces;

use crate::asks::run_asks;
use crate::pieces::{BenchError, run_piece};
use std::env::Env;
use std::process::ExitCode;
use std::rt::Files;
use std::sync::Wait;
use std::thread::Threads;
use std::{env, fs};

// Runs the piece on the file of this name, or asks from so many threads.
fn run_words<R: Files + AllocGlobal + Threads + Wait + Sync>(
    rt: &R,
    piece: &str,
    word: &str,
    times: u32,
) -> Result<usize, BenchError> {
    if piece == "turn" || piece == "mutex" {
        let Ok(threads) = word.parse::<u32>() else {
            return Err(BenchError::Words);
        };
        return run_asks(rt, rt.alloc(), piece, threads, times);
    }
    let text = fs::read_to_string(rt, word)?;
    run_piece(rt.alloc(), piece, text, times)
}

// Runs what the words say, and prints what it came to.
fn run<R: Env + Files + Print + AllocGlobal + Threads + Wait + Sync>(
    rt: &R,
) -> Result<(), BenchError> {
    let args: Vec<String> = env::args(rt)?.skip(1).collect(rt.alloc())?;
    let [piece, word, times] = args.as_slice() else {
        return Err(BenchError::Words);
    };
    let Ok(times) = times.as_str().parse::<u32>() else {
        return Err(BenchError::Words);
    };
    let count = run_words(rt, piece.as_str(), word.as_str(), times)?;
    println!(rt; "{piece}: {count}")?;
    Ok(())
}

fn main(rt: HostRuntime) -> ExitCode {
    match run(&rt) {
        Ok(()) => ExitCode::from(0),
        Err(BenchError::Words) => ExitCode::from(2),
        Err(_) => ExitCode::from(1),
    }
}
