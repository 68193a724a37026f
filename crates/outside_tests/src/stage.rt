ghost use Rattle.std.specs.Prelude.{None};
ghost use Rattle.spm_outside.specs.Memory.{state_of_sink};

use spm_outside::{
    Authority, Book, BookLink, CallFault, Desk, Door, Entry, Link, MemoryDesk, MemoryDoor,
    MemoryPeer, MemorySink, Peer, Sink, SinkFault, exchange, put_all,
};
use spm_version::{Bytes, Duplicate, Items, NoMemory, Text};
use std::alloc::Global;
use std::fmt;

/// A memory sink that takes one byte a put. It doesn't tell what is written.
#[derive(Drop)]
struct ByteSink(MemorySink);

impl Sink for ByteSink {
    ghost state = { λ sink. record { written = None; faults = (state_of_sink sink.0).faults } };

    fn put(&mut self, piece: &[u8]) -> Result<usize, SinkFault> {
        let count = piece.len().min(1);
        self.0.put(&piece[..count])
    }
}

/// An object of each kind, which a script calls.
#[derive(Drop)]
pub struct Stage<'b> {
    alloc: Global,
    book: &'b Book,
    desk: MemoryDesk,
    sink: MemorySink,
    slow: ByteSink,
    link: BookLink<'b>,
    peer: MemoryPeer,
    door: MemoryDoor,
}

// What a call answered, as a text.
fn told<T: fmt::Display + Drop>(
    alloc: Global,
    answer: Result<T, CallFault>,
) -> Result<String, NoMemory> {
    match answer {
        Ok(x) => format!(in alloc; "{x}"),
        Err(fault) => format!(in alloc; "{fault}"),
    }
}

// The same of a call that answers nothing else.
fn done(alloc: Global, answer: Result<(), CallFault>) -> Result<String, NoMemory> {
    told(alloc, answer.map(|_| "done"))
}

// Bytes as a text.
fn text_of(alloc: Global, bytes: &[u8]) -> Result<String, NoMemory> {
    String::from_str(alloc, str::from_utf8(bytes).unwrap_or("no text"))
}

// The text of a file, or that there is none.
fn file_text(alloc: Global, file: Option<&Bytes>) -> Result<String, NoMemory> {
    match file {
        Some(bytes) => text_of(alloc, bytes.as_slice()),
        None => String::from_str(alloc, "no file"),
    }
}

// The numbers of a line.
fn numbers(alloc: Global, text: &str) -> Result<Vec<u64>, NoMemory> {
    let mut numbers = Vec::new(alloc);
    for word in text.split_whitespace() {
        numbers.push(word.parse().unwrap_or(0))?;
    }
    Ok(numbers)
}

// A copy, so that copying is run too.
fn authority(alloc: Global, port: u16) -> Result<Authority, NoMemory> {
    let host = Text::from_str(alloc, "registry.example")?;
    Authority { host, port }.duplicate(alloc)
}

fn entry(alloc: Global, port: u16, request: &str, response: &str) -> Result<Entry, NoMemory> {
    Ok(Entry {
        to: authority(alloc, port)?,
        request: Bytes::from_slice(alloc, request.as_bytes())?,
        response: Bytes::from_slice(alloc, response.as_bytes())?,
    })
}

/// One request at two ports, and a second reply to it at the first; a reply of 10,000 bytes. A copy, which copies each entry.
pub fn book(alloc: Global) -> Result<Book, NoMemory> {
    let long = "x".repeat(alloc, 10000)?;
    let mut entries = Items::new(alloc);
    for (port, request, response) in [
        (80, "GET /a", "first"),
        (81, "GET /a", "second"),
        (80, "GET /a", "never"),
        (80, "long", long.as_str()),
    ] {
        entries.push(entry(alloc, port, request, response)?)?;
    }
    let other = Bytes::from_slice(alloc, b"not found")?;
    Book::new(alloc, entries, other)?.copy(alloc)
}

impl<'b> Stage<'b> {
    fn new(alloc: Global, book: &'b Book) -> Result<Stage<'b>, NoMemory> {
        Ok(Stage {
            alloc,
            book,
            desk: MemoryDesk::new(alloc, &[])?,
            sink: MemorySink::new(alloc, &[])?,
            slow: ByteSink(MemorySink::new(alloc, &[])?),
            link: BookLink::new(alloc, book, &[])?,
            peer: MemoryPeer::new(alloc, b"abcdefgh", &[])?,
            door: MemoryDoor::new(alloc, &[])?,
        })
    }

    // Makes an object anew, whose calls with these numbers fail.
    fn make(&mut self, object: &str, text: &str) -> Result<String, NoMemory> {
        let failing = numbers(self.alloc, text)?;
        match object {
            "desk" => self.desk = MemoryDesk::new(self.alloc, &failing)?,
            "sink" => self.sink = MemorySink::new(self.alloc, &failing)?,
            "slow" => self.slow = ByteSink(MemorySink::new(self.alloc, &failing)?),
            "link" => self.link = BookLink::new(self.alloc, self.book, &failing)?,
            "peer" => self.peer = MemoryPeer::new(self.alloc, b"abcdefgh", &failing)?,
            _ => self.door = MemoryDoor::new(self.alloc, &failing)?,
        }
        String::from_str(self.alloc, "made")
    }

    // A call of the desk.
    fn call_desk(&mut self, word: &str, text: &str) -> Result<String, NoMemory> {
        let (name, bytes) = text.split_once(' ').unwrap_or((text, ""));
        match word {
            "set" => {
                self.desk.set(name, bytes.as_bytes())?;
                String::from_str(self.alloc, "done")
            }
            "put" => done(self.alloc, self.desk.put(name, bytes.as_bytes())),
            "get" => match self.desk.get(name) {
                Ok(file) => file_text(self.alloc, file.as_ref()),
                Err(fault) => format!(in self.alloc; "{fault}"),
            },
            _ => file_text(self.alloc, self.desk.file(name)),
        }
    }

    // What the desk counts and names as failed.
    fn desk_faults(&self) -> Result<String, NoMemory> {
        let mut text = format!(in self.alloc; "{}", self.desk.faults())?;
        for name in self.desk.failed() {
            text.push_str(" ")?;
            text.push_str(name.as_str())?;
        }
        Ok(text)
    }

    // A call of the sinks.
    fn call_sink(&mut self, word: &str, text: &str) -> Result<String, NoMemory> {
        match word {
            "write" => told(self.alloc, self.sink.put(text.as_bytes())),
            "write_all" => done(self.alloc, put_all(&mut self.sink, text.as_bytes())),
            "write_slowly" => done(self.alloc, put_all(&mut self.slow, text.as_bytes())),
            "slowly_written" => text_of(self.alloc, self.slow.0.written()),
            "sink_faults" => format!(in self.alloc; "{}", self.sink.faults()),
            _ => text_of(self.alloc, self.sink.written()),
        }
    }

    // Reads what is left of a response, by so many bytes, of which there are at most 7.
    fn rest(&mut self, length: usize) -> Result<String, CallFault> {
        let mut piece = [0; 7];
        let length = length.min(7).max(1);
        let mut rest = Vec::new(self.alloc);
        for _ in 0..u64::MAX {
            let count = self.link.read(&mut piece[..length])?;
            if count == 0 {
                break;
            }
            rest.extend_from_slice(&piece[..count])?;
        }
        Ok(text_of(self.alloc, &rest)?)
    }

    // One exchange with this limit.
    fn ask(&mut self, limit: u64, request: &str) -> Result<usize, CallFault> {
        let to = authority(self.alloc, 80)?;
        let bytes = exchange(self.alloc, &mut self.link, &to, request.as_bytes(), limit)?;
        Ok(bytes.as_slice().len())
    }

    fn open(&mut self, port: u16, request: &str) -> Result<(), CallFault> {
        let to = authority(self.alloc, port)?;
        self.link.open(&to, request.as_bytes())
    }

    // The number of calls made, and the port of the last one, and whether it failed, as a copy of the call has them.
    fn calls(&self) -> Result<String, NoMemory> {
        let calls = self.link.calls().len();
        match self.link.calls().last() {
            Some(call) => {
                let call = call.copy(self.alloc)?;
                let (port, failed) = (call.to.port, call.failed);
                format!(in self.alloc; "{calls}, {port} {failed}")
            }
            None => String::from_str(self.alloc, "none"),
        }
    }

    // A call of the link.
    fn call_link(&mut self, word: &str, text: &str) -> Result<String, NoMemory> {
        let (number, request) = text.split_once(' ').unwrap_or((text, ""));
        match word {
            "open" => {
                let opened = self.open(number.parse().unwrap_or(0), request);
                done(self.alloc, opened)
            }
            "read" => told(self.alloc, self.link.read(&mut [0; 2])),
            "rest" => {
                let rest = self.rest(number.parse().unwrap_or(0));
                told(self.alloc, rest)
            }
            "ask" => {
                let asked = self.ask(number.parse().unwrap_or(0), request);
                told(self.alloc, asked)
            }
            "link_faults" => format!(in self.alloc; "{}", self.link.faults()),
            _ => self.calls(),
        }
    }

    // Serves the next peer with these bytes.
    fn serve(&mut self, answer: &str) -> Result<(), CallFault> {
        let mut peer = self.door.next()?;
        let _ = peer.put(answer.as_bytes())?;
        self.door.done(peer)
    }

    // What was written to the peers that came back.
    fn served(&self) -> Result<String, NoMemory> {
        let mut text = String::new(self.alloc);
        for peer in self.door.served() {
            text.push_str(str::from_utf8(peer.written()).unwrap_or("no text"))?;
            text.push_str(".")?;
        }
        Ok(text)
    }

    // A call of the peer or the door.
    fn call_door(&mut self, word: &str, text: &str) -> Result<String, NoMemory> {
        match word {
            "take3" => told(self.alloc, self.peer.read(&mut [0; 3])),
            "take4" => told(self.alloc, self.peer.read(&mut [0; 4])),
            "answer" => told(self.alloc, self.peer.put(text.as_bytes())),
            "answered" => text_of(self.alloc, self.peer.written()),
            "peer_faults" => format!(in self.alloc; "{}", self.peer.faults()),
            "bind" => done(self.alloc, self.door.bind(80)),
            "serve" => {
                let served = self.serve(text);
                done(self.alloc, served)
            }
            "add" => {
                self.door.add(MemoryPeer::new(self.alloc, b"ask", &[])?)?;
                String::from_str(self.alloc, "done")
            }
            _ => self.served(),
        }
    }

    // What a call answers.
    fn call(&mut self, word: &str, text: &str) -> Result<String, NoMemory> {
        match word {
            "desk" | "sink" | "slow" | "link" | "peer" | "door" => self.make(word, text),
            "set" | "put" | "get" | "file" => self.call_desk(word, text),
            "desk_faults" => self.desk_faults(),
            "open" | "read" | "rest" | "ask" | "link_faults" | "calls" => {
                self.call_link(word, text)
            }
            "take3"
            | "take4"
            | "answer"
            | "answered"
            | "peer_faults"
            | "bind"
            | "serve"
            | "add"
            | "served" => self.call_door(word, text),
            _ => self.call_sink(word, text),
        }
    }
}

/// Plays a script, and answers the number of the first line whose call answers otherwise, with its answer.
pub fn play(alloc: Global, book: &Book, script: &str) -> Result<Option<(usize, String)>, NoMemory> {
    let mut stage = Stage::new(alloc, book)?;
    for (place, line) in script.lines().enumerate() {
        let (call, answer) = line.split_once(" | ").unwrap_or((line, "made"));
        let (word, text) = call.split_once(' ').unwrap_or((call, ""));
        let found = stage.call(word, text)?;
        if found.as_str() != answer {
            return Ok(Some((place.saturating_add(1), found)));
        }
    }
    Ok(None)
}
