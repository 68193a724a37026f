//! The top calls of the program: from the words to the files, the report and the exit status.
//!
//! The contract that `main` uses is the clause `run` of [`resolve`], which is `Resolves` of `specs/Resolves.antt`: the words decide whether
//! anything is done (`order_of`); the bytes of the files decide how the run ends (`IsEnding`); the ending decides which files are put and what is in
//! them (`puts_of`), the report and the status (`report_of`, `status_of`). A fault of the desk or the sink is answered only where its count of
//! faults rose, and want of memory is free. What a root comes to is the outcome of its job over the book of the shelf (`IsOnShelf` of
//! `specs/Shelf.antt`, over `IsEnd` of `spm_session`), beside the fingerprints as the file had them. A put that fails spoils its own file and
//! root alone. So a new outcome costs its sentence in `outcome_text` and, where it is no refusal, its status.
//!
//! [`still`] does the same for the commands that wait for nobody: its clause `run` is `Still` of `specs/Still.antt`. `check --proof FILE`: a
//! file's bytes decide whether the derivation in it holds by its own facts, as `pub_proof::check` says (`specs/Check.antt`).
//! `judge --shelf FILE ROOT`: the pins of a lock file are judged over the book of the shelf, as `spm_judge::judge_over` says
//! (`specs/Judge.antt`). `fingerprints FILE`: the lines on what a file keeps (`specs/Shown.antt`).
//!
//! The proof goes by steps: the gets of the shelf, of the fingerprints, of a manifest and of a lock file (`specs/Files.antt`, `Steps`), the jobs and
//! what each comes to (`specs/Jobs.antt`), the fingerprints that are gained, and the puts (`specs/Puts.antt`) are functions of their own, each
//! of which says what it comes to, what it leaves at the desk, and at which files the desk failed (`specs/Left.antt`).
#![tactic(auto)]

mod check;
mod ending;
mod files;
mod gain;
mod job;
mod judge;
mod puts;
mod report;
mod run;
mod shelf_link;
mod shown;
mod status;
mod top;
mod words;

pub use top::{resolve, still};
