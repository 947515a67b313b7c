//! One row: its files, its calls and what is wanted of them.
use crate::cursor::Cursor;
use crate::outcome::Outcome;
use host_io::{MemoryHost, ReadError};
use loopw_core::top;
use std::alloc::{AllocError, Global};

/// The bytes that a host can hold on out and err.
const ROOM: usize = 16_777_216;

/// The bytes that a call of a host moves at most.
const PIECE: usize = 65_536;

/// A row as far as it was read.
#[derive(Drop)]
pub struct Row {
    name: String,
    files: Vec<(String, Vec<u8>)>,
    last: Option<Outcome>,
    calls: usize,
    said: String,
}

fn text_of(alloc: Global, bytes: &[u8]) -> Result<String, AllocError> {
    match str::from_utf8(bytes) {
        Ok(text) => String::from_str(alloc, text),
        Err(_) => String::from_str(alloc, "?"),
    }
}

fn number_of(bytes: &[u8]) -> usize {
    match str::from_utf8(bytes) {
        Ok(text) => text.parse::<usize>().unwrap_or(0),
        Err(_) => 0,
    }
}

/// The words of a line.
fn words_of<'a>(alloc: Global, line: &'a [u8]) -> Result<Vec<&'a [u8]>, AllocError> {
    let mut words = Vec::new(alloc);
    for word in line.split(|byte| *byte == b' ') {
        if !word.is_empty() {
            words.push(word)?;
        }
    }
    Ok(words)
}

fn word<'a>(words: &[&'a [u8]], at: usize) -> &'a [u8] {
    match words.get(at) {
        Some(word) => word,
        None => &[],
    }
}

impl Row {
    pub fn new(alloc: Global) -> Row {
        Row {
            name: String::new(alloc),
            files: Vec::new(alloc),
            last: None,
            calls: 0,
            said: String::new(alloc),
        }
    }

    /// Follows a line, with the blocks behind it. At the end of the row it is said whether all was as wanted.
    pub fn follow(
        &mut self,
        alloc: Global,
        line: &[u8],
        cursor: &mut Cursor<'_>,
    ) -> Result<Option<String>, AllocError> {
        let words = words_of(alloc, line)?;
        let first = word(&words, 0);
        if first == b"row".as_slice() {
            *self = Row::new(alloc);
            self.name = text_of(alloc, word(&words, 1))?;
        } else if first == b"file".as_slice() || first == b"long".as_slice() {
            self.add_file(alloc, &words, cursor)?;
        } else if first == b"call".as_slice() {
            self.call(alloc, &words)?;
        } else if first == b"status".as_slice() {
            self.want_status(alloc, number_of(word(&words, 1)))?;
        } else if first == b"end".as_slice() {
            return Ok(Some(self.told(alloc)?));
        } else {
            let block = cursor.block(number_of(word(&words, 1)));
            self.want(alloc, first, block)?;
        }
        Ok(None)
    }

    fn told(&self, alloc: Global) -> Result<String, AllocError> {
        let name = self.name.as_str();
        let said = self.said.as_str();
        if said.is_empty() {
            format!(in alloc; "{name}: as wanted")
        } else {
            format!(in alloc; "{name}:{said}")
        }
    }

    fn add_file(
        &mut self,
        alloc: Global,
        words: &[&[u8]],
        cursor: &mut Cursor<'_>,
    ) -> Result<(), AllocError> {
        let name = text_of(alloc, word(words, 1))?;
        let mut bytes = cursor.block(number_of(word(words, 2))).to_vec(alloc)?;
        let total = number_of(word(words, 3));
        if bytes.len() < total {
            bytes.push(b'#')?;
            for _ in bytes.len()..total {
                bytes.push(b'x')?;
            }
        }
        self.files.push((name, bytes))?;
        Ok(())
    }

    fn copied_files(&self, alloc: Global) -> Result<Vec<(String, Vec<u8>)>, AllocError> {
        let mut files = Vec::new(alloc);
        for file in &self.files {
            files.push((
                String::from_str(alloc, file.0.as_str())?,
                file.1.as_slice().to_vec(alloc)?,
            ))?;
        }
        Ok(files)
    }

    fn host(&self, alloc: Global) -> Result<MemoryHost, AllocError> {
        let files = self.copied_files(alloc)?;
        let none = Vec::new(alloc);
        match MemoryHost::new(
            alloc,
            files,
            PIECE,
            ROOM,
            none,
            Vec::new(alloc),
            Vec::new(alloc),
        ) {
            Ok(host) => Ok(host),
            Err(_) => Err(AllocError),
        }
    }

    /// Calls with the words, and keeps the output under the name behind `>`.
    fn call(&mut self, alloc: Global, words: &[&[u8]]) -> Result<(), AllocError> {
        let mut handed = Vec::new(alloc);
        let mut kept = None;
        for at in 1..words.len() {
            if kept.is_some() {
                kept = Some(text_of(alloc, words[at])?);
            } else if words[at] == b">".as_slice() {
                kept = Some(String::new(alloc));
            } else {
                handed.push(text_of(alloc, words[at])?)?;
            }
        }
        let mut host = self.host(alloc)?;
        let status = top(alloc, &handed, &mut host);
        let outcome = Outcome {
            status,
            out: host.out_bytes().to_vec(alloc)?,
            err: host.err_bytes().to_vec(alloc)?,
        };
        if let Some(name) = kept {
            self.files
                .push((name, outcome.out.as_slice().to_vec(alloc)?))?;
        }
        self.last = Some(outcome);
        self.calls = self.calls.saturating_add(1);
        Ok(())
    }

    fn say(&mut self, alloc: Global, what: &str, got: &str) -> Result<(), AllocError> {
        let calls = self.calls;
        let said = format!(in alloc; " call {calls} {what} [{got}]")?;
        self.said.push_str(said.as_str())
    }

    fn want_status(&mut self, alloc: Global, status: usize) -> Result<(), AllocError> {
        let got = match &self.last {
            Some(outcome) => outcome.status,
            None => 255,
        };
        if usize::from(got) != status {
            let text = format!(in alloc; "{got}")?;
            self.say(alloc, "status", text.as_str())?;
        }
        Ok(())
    }

    fn want(&mut self, alloc: Global, sort: &[u8], block: &[u8]) -> Result<(), AllocError> {
        let (good, got) = match &self.last {
            Some(outcome) => (
                outcome.is(sort, block),
                text_of(alloc, outcome.written(sort))?,
            ),
            None => (false, String::new(alloc)),
        };
        if !good {
            let sort = text_of(alloc, sort)?;
            self.say(alloc, sort.as_str(), got.as_str())?;
        }
        Ok(())
    }
}
