use spm_outside::{Book, BookLink, MemoryDesk, MemorySink, OpenGate};
use spm_tool::{resolve, still};
use spm_version::{Bytes, Items, NoMemory};
use std::alloc::Global;
use std::sync::Wait;
use std::thread::Threads;

/// Where scripts are played: a desk, an output, and what is expected of them.
///
/// A script is lines, each a word and what stands behind it:
///
/// - `let NAME TEXT`: from here on `$NAME` stands for the text; `# ..` and an empty line do nothing;
/// - `many NAME N TEXT`: from here on `$NAME` stands for N copies of the text, joined by commas, with 0, 1 and so on in place of `%`;
/// - `case ..`: an empty desk and an empty output; `desk N ..` and `sink N ..`: such, whose calls with these numbers fail;
/// - `file NAME TEXT`: the file is put on the desk; `pad NAME N`: it is filled with spaces up to this length;
/// - `run WORDS`: the program's call; `''` is the empty word;
/// - `status N`, `faults N` (of the desk), `text NAME TEXT` (the file is just that), `has NAME TEXT`, `absent NAME`;
/// - `out LINE`: the output has this line next, and at the next `case` no more; `silent`: it has none at all;
/// - `= LINE` and then `is NAME`: the file is these lines.
#[derive(Drop)]
pub struct Stage {
    alloc: Global,
    lets: Vec<(String, String)>,
    desk: MemoryDesk,
    sink: MemorySink,
    status: u8,
    told: String,
    wanted: String,
}

// The numbers of a line.
fn numbers(alloc: Global, text: &str) -> Result<Vec<u64>, NoMemory> {
    let mut numbers = Vec::new(alloc);
    for word in text.split_whitespace() {
        numbers.push(word.parse().unwrap_or(0))?;
    }
    Ok(numbers)
}

// The words of a line.
fn words(alloc: Global, text: &str) -> Result<Vec<String>, NoMemory> {
    let mut words = Vec::new(alloc);
    for word in text.split_whitespace() {
        let word = if word == "''" { "" } else { word };
        words.push(String::from_str(alloc, word)?)?;
    }
    Ok(words)
}

// A text with each part of this name another.
fn replaced(alloc: Global, text: &str, name: &str, value: &str) -> Result<String, NoMemory> {
    let mut replaced = String::new(alloc);
    for (place, piece) in text.split(name).enumerate() {
        if place > 0 {
            replaced.push_str(value)?;
        }
        replaced.push_str(piece)?;
    }
    Ok(replaced)
}

/// Eighty links over the book.
pub fn links_of<'b>(alloc: Global, book: &'b Book) -> Result<Vec<BookLink<'b>>, NoMemory> {
    let mut links = Vec::new(alloc);
    for _ in 0..80 {
        links.push(BookLink::new(alloc, book, &[])?)?;
    }
    Ok(links)
}

/// A book without entries.
pub fn empty_book(alloc: Global) -> Result<Book, NoMemory> {
    Book::new(alloc, Items::new(alloc), Bytes::from_vec(Vec::new(alloc)))
}

impl Stage {
    fn new(alloc: Global) -> Result<Stage, NoMemory> {
        Ok(Stage {
            alloc,
            lets: Vec::new(alloc),
            desk: MemoryDesk::new(alloc, &[])?,
            sink: MemorySink::new(alloc, &[])?,
            status: 0,
            told: String::new(alloc),
            wanted: String::new(alloc),
        })
    }

    // The line with the names that were let.
    fn meant(&self, line: &str) -> Result<String, NoMemory> {
        let mut text = String::from_str(self.alloc, line)?;
        for (name, value) in &self.lets {
            text = replaced(self.alloc, text.as_str(), name.as_str(), value.as_str())?;
        }
        Ok(text)
    }

    fn define(&mut self, text: &str) -> Result<bool, NoMemory> {
        let (name, value) = text.split_once(' ').unwrap_or((text, ""));
        let name = format!(in self.alloc; "${name}")?;
        self.lets
            .push((name, String::from_str(self.alloc, value)?))?;
        Ok(true)
    }

    // Lets a name stand for so many copies of a text, joined by commas, each with its number from 0 on in place of `%`.
    fn repeat(&mut self, text: &str) -> Result<bool, NoMemory> {
        let Some((name, rest)) = text.split_once(' ') else {
            return Ok(false);
        };
        let (count, text) = rest.split_once(' ').unwrap_or((rest, ""));
        let mut all = format!(in self.alloc; "{name} ")?;
        for number in 0..count.parse().unwrap_or(0u64) {
            if number > 0 {
                all.push_str(",")?;
            }
            let number = format!(in self.alloc; "{number}")?;
            all.push_str(replaced(self.alloc, text, "%", number.as_str())?.as_str())?;
        }
        self.define(all.as_str())
    }

    // Whether the output is what was expected.
    fn is_told(&self) -> bool {
        self.sink.written() == self.told.as_bytes()
    }

    fn begin(&mut self) -> Result<bool, NoMemory> {
        let is_told = self.is_told();
        self.desk = MemoryDesk::new(self.alloc, &[])?;
        self.sink = MemorySink::new(self.alloc, &[])?;
        self.told.clear();
        Ok(is_told)
    }

    fn set(&mut self, text: &str) -> Result<bool, NoMemory> {
        let (name, text) = text.split_once(' ').unwrap_or((text, ""));
        self.desk.set(name, text.as_bytes())?;
        Ok(true)
    }

    fn pad(&mut self, text: &str) -> Result<bool, NoMemory> {
        let Some((name, length)) = text.split_once(' ') else {
            return Ok(false);
        };
        let mut padded = Vec::new(self.alloc);
        if let Some(bytes) = self.desk.file(name) {
            padded.extend_from_slice(bytes.as_slice())?;
        }
        for _ in padded.len()..length.parse().unwrap_or(0) {
            padded.push(b' ')?;
        }
        self.desk.set(name, padded.as_slice())?;
        Ok(true)
    }

    // Runs the words, `resolve` by its call and all others by that of the commands that wait for nobody.
    fn run<R: Threads + Wait + Sync>(&mut self, rt: &R, text: &str) -> Result<bool, NoMemory> {
        let words = words(self.alloc, text)?;
        let words = words.as_slice();
        self.status = if text.starts_with("resolve") {
            let book = empty_book(self.alloc)?;
            let mut links = links_of(self.alloc, &book)?;
            let (desk, sink) = (&mut self.desk, &mut self.sink);
            resolve(rt, self.alloc, words, desk, &mut links, sink, &OpenGate)
        } else {
            still(self.alloc, words, &mut self.desk, &mut self.sink)
        };
        Ok(true)
    }

    fn expect(&mut self, line: &str) -> Result<bool, NoMemory> {
        self.told.push_str(line)?;
        self.told.push_str("\n")?;
        Ok(true)
    }

    fn want(&mut self, line: &str) -> Result<bool, NoMemory> {
        self.wanted.push_str(line)?;
        self.wanted.push_str("\n")?;
        Ok(true)
    }

    // Whether the file is what was wanted.
    fn is_wanted(&mut self, name: &str) -> bool {
        let found = self.desk.file(name);
        let is = found.is_some_and(|bytes| bytes.as_slice() == self.wanted.as_bytes());
        self.wanted.clear();
        is
    }

    // Whether the file is just this text.
    fn is_text(&self, text: &str) -> bool {
        let (name, text) = text.split_once(' ').unwrap_or((text, ""));
        let found = self.desk.file(name);
        found.is_some_and(|bytes| bytes.as_slice() == text.as_bytes())
    }

    // Whether the file has this text somewhere.
    fn has_text(&self, text: &str) -> bool {
        let (name, text) = text.split_once(' ').unwrap_or((text, ""));
        match self.desk.file(name) {
            Some(bytes) => str::from_utf8(bytes.as_slice()).is_ok_and(|found| found.contains(text)),
            None => false,
        }
    }

    // What a line expects.
    fn holds(&mut self, word: &str, text: &str) -> bool {
        match word {
            "status" => text.parse() == Ok(self.status),
            "faults" => text.parse() == Ok(self.desk.faults()),
            "absent" => self.desk.file(text).is_none(),
            "text" => self.is_text(text),
            "has" => self.has_text(text),
            "is" => self.is_wanted(text),
            "silent" => self.sink.written().is_empty(),
            _ => word.is_empty() || word == "#",
        }
    }

    // Plays a line, and answers whether it holds.
    fn step<R: Threads + Wait + Sync>(&mut self, rt: &R, line: &str) -> Result<bool, NoMemory> {
        let (word, text) = line.split_once(' ').unwrap_or((line, ""));
        match word {
            "let" => self.define(text),
            "many" => self.repeat(text),
            "case" => self.begin(),
            "desk" => {
                self.desk = MemoryDesk::new(self.alloc, &numbers(self.alloc, text)?)?;
                Ok(true)
            }
            "sink" => {
                self.sink = MemorySink::new(self.alloc, &numbers(self.alloc, text)?)?;
                Ok(true)
            }
            "file" => self.set(text),
            "pad" => self.pad(text),
            "run" => self.run(rt, text),
            "out" => self.expect(text),
            "=" => self.want(text),
            _ => Ok(self.holds(word, text)),
        }
    }
}

/// Plays a script, and answers the number of the first line that doesn't hold, or 0.
pub fn play<R: Threads + Wait + Sync>(
    rt: &R,
    alloc: Global,
    script: &str,
) -> Result<usize, NoMemory> {
    let mut stage = Stage::new(alloc)?;
    for (place, line) in script.lines().enumerate() {
        let line = stage.meant(line)?;
        if !stage.step(rt, line.as_str())? {
            return Ok(place.saturating_add(1));
        }
    }
    let rest = if stage.begin()? { 0 } else { usize::MAX };
    Ok(rest)
}
