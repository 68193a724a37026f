ghost use Rattle.std.specs.Prelude.{None};

use crate::stage::{empty_book, links_of};
use spm_outside::{Desk, FolderDesk, MemoryDesk, MemorySink, OpenGate, Sink, SinkFault};
use spm_tool::resolve;
use spm_version::NoMemory;
use std::alloc::Global;
use std::rt::{Env, Files};
use std::sync::Wait;
use std::test::Fail;
use std::thread::Threads;
use std::{env, fs, io, process};

const SHELF: &str =
    r#"{"packages":{"mona.a":{"1.0.0":{"manifest":"{\"name\":\"a\",\"toolsVersion\":{\"_version\":\"5.9.0\"}}","archive":""}},"mona.b":{"1.0.0":{"manifest":"{\"name\":\"b\",\"toolsVersion\":{\"_version\":\"5.9.0\"}}","archive":""}}}}"#;

// Roots with one dependency, none, none with the running tools, and two; and a part of their lock files.
fn roots() -> [(&'static str, &'static str); 4] {
    [
        (
            r#"{"name":"app","dependencies":[{"registry":[{"identity":"mona.a","requirement":{"exact":["1.0.0"]}}]}],"toolsVersion":{"_version":"5.9.0"}}"#,
            "\"identity\" : \"mona.a\",\n",
        ),
        (
            r#"{"name":"app","toolsVersion":{"_version":"5.9.0"}}"#,
            "\"pins\" : [\n\n  ],\n",
        ),
        (
            r#"{"name":"app","toolsVersion":{"_version":"6.1.0"}}"#,
            "\"originHash\" : \"21fd5a464071a86c84a146d38606a1f266cca15d6bead3b2e54868222ad784a2\",\n",
        ),
        (
            r#"{"name":"app","dependencies":[{"registry":[{"identity":"mona.b","requirement":{"exact":["1.0.0"]}}]},{"registry":[{"identity":"mona.a","requirement":{"exact":["1.0.0"]}}]}],"toolsVersion":{"_version":"5.9.0"}}"#,
            "\"identity\" : \"mona.b\",\n",
        ),
    ]
}

// A new folder with the root's folder in it, below the system's for temporary files.
fn own_folder(rt: &(impl Env + Files + AllocGlobal), process: u32) -> io::Result<String> {
    let parent = env::temp_dir(rt)?;
    let parent = parent.as_str();
    let folder = format!(in rt.alloc(); "{parent}/program_tests_{process}")?;
    let root = format!(in rt.alloc(); "{}/app", folder.as_str())?;
    fs::create_dir_all(rt, root.as_str())?;
    Ok(folder)
}

// The words for the files of this folder.
fn words_in(alloc: Global, folder: &str) -> Result<Vec<String>, NoMemory> {
    let mut words = Vec::new(alloc);
    words.push(String::from_str(alloc, "resolve")?)?;
    words.push(String::from_str(alloc, "--shelf")?)?;
    words.push(format!(in alloc; "{folder}/s.json")?)?;
    words.push(format!(in alloc; "{folder}/app")?)?;
    Ok(words)
}

// Runs the words, and answers the status.
fn status_of<R: Threads + Wait + Sync>(
    rt: &R,
    alloc: Global,
    words: &[String],
    desk: &mut impl Desk,
    out: &mut impl Sink,
) -> Result<u8, NoMemory> {
    let book = empty_book(alloc)?;
    let mut links = links_of(alloc, &book)?;
    Ok(resolve(rt, alloc, words, desk, &mut links, out, &OpenGate))
}

// Resolves a root with this manifest on the system's files, and answers the status and the lock file.
fn lock_of<R: Files + AllocGlobal + Threads + Wait + Sync>(
    rt: &R,
    folder: &str,
    manifest: &str,
) -> Result<(u8, String), Fail> {
    let alloc = rt.alloc();
    let app = format!(in alloc; "{folder}/app/Package.json")?;
    fs::write(rt, app.as_str(), manifest)?;
    let words = words_in(alloc, folder)?;
    let mut out = MemorySink::new(alloc, &[])?;
    let status = status_of(rt, alloc, &words, &mut FolderDesk::new(alloc, rt), &mut out)?;
    let lock = format!(in alloc; "{folder}/app/Package.resolved")?;
    Ok((status, fs::read_to_string(rt, lock.as_str())?))
}

// A lock file is put on the system's files, as it is on a desk in memory.
#[test]
fn lock_files_are_written_on_real_files(rt: HostRuntime) -> Result<(), Fail> {
    let folder = own_folder(&rt, process::id(rt.process()))?;
    let folder = folder.as_str();
    let shelf = format!(in rt.alloc(); "{folder}/s.json")?;
    fs::write(&rt, shelf.as_str(), SHELF)?;
    let mut are_written = true;
    for (manifest, part) in roots() {
        let (status, lock) = lock_of(&rt, folder, manifest)?;
        are_written = are_written && status == 0 && lock.as_str().contains(part);
    }
    assert!(rt; are_written);
    fs::remove_dir_all(&rt, folder)?;
    Ok(())
}

// A sink that takes one byte a call.
#[derive(Drop)]
struct ByteSink {
    written: Vec<u8>,
}

impl Sink for ByteSink {
    ghost state = { λ _. record { written = None; faults = 0 } };

    fn put(&mut self, piece: &[u8]) -> Result<usize, SinkFault> {
        match piece {
            [] => Ok(0),
            [first, ..] => {
                self.written.push(*first)?;
                Ok(1)
            }
        }
    }
}

#[test]
fn a_slow_sink_gets_the_whole_report(rt: HostRuntime) -> Result<(), Fail> {
    let alloc = rt.alloc();
    let words = words_in(alloc, "f")?;
    let mut desk = MemoryDesk::new(alloc, &[])?;
    let mut out = ByteSink {
        written: Vec::new(alloc),
    };
    let status = status_of(&rt, alloc, &words, &mut desk, &mut out)?;
    assert_eq!(rt; status, 3);
    assert_eq!(rt; out.written.as_slice(), b"f/s.json: missing\n".as_slice());
    Ok(())
}
