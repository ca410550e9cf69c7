//! A row of the stored input: the words, the calls that fail, what is shown of the object, and the files.

use crate::escapes::append_unescaped;
use std::alloc::{AllocError, AllocFailed, Global};
use std::num::ParseIntError;
use std::str::{self, Utf8Error};

/// Why a row is not read.
#[derive(Clone, Copy, Debug)]
pub enum RowFault {
    /// A line has no form of a row.
    NotUnderstood,
    NoMemory,
}

impl From<Utf8Error> for RowFault {
    fn from(_error: Utf8Error) -> RowFault {
        RowFault::NotUnderstood
    }
}

impl From<ParseIntError> for RowFault {
    fn from(_error: ParseIntError) -> RowFault {
        RowFault::NotUnderstood
    }
}

impl From<AllocError> for RowFault {
    fn from(_error: AllocError) -> RowFault {
        RowFault::NoMemory
    }
}

impl<T: Drop> From<AllocFailed<T>> for RowFault {
    fn from(_error: AllocFailed<T>) -> RowFault {
        RowFault::NoMemory
    }
}

/// What a row shows beside the status and the messages.
#[derive(Clone, Copy, PartialEq, Eq, Debug)]
pub enum Shown {
    /// The object's sections that differ from those of an empty object, its symbols and relocations.
    Object,
    /// The header of every section as well.
    FullObject,
    /// The rows of the object's frame table, by its bytes.
    Frames,
    /// The rows of the object's line table, by its bytes.
    LineTable,
    /// What is left where each call of the outside fails in turn.
    EveryCall,
    /// How many bytes the object has.
    Size,
}

/// A source file of a row.
#[derive(Drop)]
pub struct SourceFile {
    pub name: String,
    pub bytes: Vec<u8>,
}

/// The numbers of the calls that fail, from 0.
#[derive(Drop)]
pub struct FailingCalls {
    pub input: Vec<u64>,
    pub output: Vec<u64>,
    pub console: Vec<u64>,
}

/// The most bytes that a call takes.
#[derive(Clone, Copy)]
pub struct Pieces {
    pub input: usize,
    pub output: usize,
    pub console: usize,
}

impl Pieces {
    /// The same for each object.
    pub fn alike(bytes: usize) -> Pieces {
        Pieces {
            input: bytes,
            output: bytes,
            console: bytes,
        }
    }
}

/// A row as it is read.
#[derive(Drop)]
pub struct Row {
    pub words: Vec<String>,
    pub failing: FailingCalls,
    pub pieces: Pieces,
    pub shown: Shown,
    pub files: Vec<SourceFile>,
}

/// How the lines of a file are put together.
#[derive(Clone, Copy)]
enum Lines {
    /// Each with its line feed.
    Kept,
    /// Without line feeds, and with escapes.
    Joined,
}

/// The file that the next lines belong to.
#[derive(Drop)]
struct OpenFile {
    file: SourceFile,
    lines: Lines,
}

/// A row with the file that is open.
#[derive(Drop)]
struct RowReader {
    alloc: Global,
    row: Row,
    open: Option<OpenFile>,
}

/// The words, which single blanks part; `''` is the empty word.
fn words_of(alloc: Global, text: &str) -> Result<Vec<String>, RowFault> {
    let mut words = Vec::new(alloc);
    for word in text.split(' ') {
        let word = match word {
            "" => return Err(RowFault::NotUnderstood),
            "''" => "",
            _ => word,
        };
        words.push(String::from_str(alloc, word)?)?;
    }
    Ok(words)
}

/// Reads `BYTES`, the same for each object, or `INPUT OUTPUT CONSOLE`.
fn read_pieces(text: &str) -> Result<Pieces, RowFault> {
    let Some((input, rest)) = text.split_once(' ') else {
        return Ok(Pieces::alike(text.parse::<usize>()?));
    };
    let Some((output, console)) = rest.split_once(' ') else {
        return Err(RowFault::NotUnderstood);
    };
    Ok(Pieces {
        input: input.parse::<usize>()?,
        output: output.parse::<usize>()?,
        console: console.parse::<usize>()?,
    })
}

impl Row {
    /// The row without a line: a run on `as x.s` of which no call fails.
    fn new(alloc: Global) -> Result<Row, RowFault> {
        Ok(Row {
            words: words_of(alloc, "as x.s")?,
            failing: FailingCalls {
                input: Vec::new(alloc),
                output: Vec::new(alloc),
                console: Vec::new(alloc),
            },
            pieces: Pieces::alike(usize::MAX),
            shown: Shown::Object,
            files: Vec::new(alloc),
        })
    }

    /// Reads `OBJECT NUMBER`, where the first call has the number 1.
    fn read_failing(&mut self, text: &str) -> Result<(), RowFault> {
        let Some((object, number)) = text.split_once(' ') else {
            return Err(RowFault::NotUnderstood);
        };
        let Some(call) = number.parse::<u64>()?.checked_sub(1) else {
            return Err(RowFault::NotUnderstood);
        };
        match object {
            "input" => self.failing.input.push(call)?,
            "output" => self.failing.output.push(call)?,
            "console" => self.failing.console.push(call)?,
            _ => return Err(RowFault::NotUnderstood),
        }
        Ok(())
    }

    /// Reads a line before the first file.
    fn read_head(&mut self, alloc: Global, line: &str) -> Result<(), RowFault> {
        if line.is_empty() || line.starts_with("#") {
            return Ok(());
        }
        if let Some(words) = line.strip_prefix("$ ") {
            self.words = words_of(alloc, words)?;
            return Ok(());
        }
        if let Some(call) = line.strip_prefix("fail ") {
            return self.read_failing(call);
        }
        if let Some(bytes) = line.strip_prefix("pieces ") {
            self.pieces = read_pieces(bytes)?;
            return Ok(());
        }
        match line {
            "$" => self.words = Vec::new(alloc),
            "full" => self.shown = Shown::FullObject,
            "frames" => self.shown = Shown::Frames,
            "line table" => self.shown = Shown::LineTable,
            "every call" => self.shown = Shown::EveryCall,
            "size" => self.shown = Shown::Size,
            _ => return Err(RowFault::NotUnderstood),
        }
        Ok(())
    }
}

impl OpenFile {
    /// The file that the line begins, if it begins one.
    fn begun_by(alloc: Global, line: &[u8]) -> Result<Option<OpenFile>, RowFault> {
        let (name, lines) = match (line.strip_prefix(b"--- "), line.strip_prefix(b"--+ ")) {
            (Some(name), _) => (name, Lines::Kept),
            (None, Some(name)) => (name, Lines::Joined),
            (None, None) => return Ok(None),
        };
        let file = SourceFile {
            name: String::from_str(alloc, str::from_utf8(name)?)?,
            bytes: Vec::new(alloc),
        };
        Ok(Some(OpenFile { file, lines }))
    }

    /// Appends a line.
    fn read_line(&mut self, line: &[u8]) -> Result<(), RowFault> {
        match self.lines {
            Lines::Kept => {
                self.file.bytes.extend_from_slice(line)?;
                self.file.bytes.push(b'\n')?;
                Ok(())
            }
            Lines::Joined => append_unescaped(line, &mut self.file.bytes),
        }
    }
}

impl RowReader {
    /// Ends the file that is open.
    fn close(&mut self) -> Result<(), RowFault> {
        if let Some(open) = self.open.take() {
            self.row.files.push(open.file)?;
        }
        Ok(())
    }

    /// Reads one more line.
    fn read_line(&mut self, line: &[u8]) -> Result<(), RowFault> {
        if let Some(open) = OpenFile::begun_by(self.alloc, line)? {
            self.close()?;
            self.open = Some(open);
            return Ok(());
        }
        match self.open.take() {
            Some(mut open) => {
                open.read_line(line)?;
                self.open = Some(open);
                Ok(())
            }
            None => self.row.read_head(self.alloc, str::from_utf8(line)?),
        }
    }
}

/// Reads the lines of a row behind that of its name.
pub fn read_row(alloc: Global, text: &[u8]) -> Result<Row, RowFault> {
    let mut reader = RowReader {
        alloc,
        row: Row::new(alloc)?,
        open: None,
    };
    let lines = text.strip_suffix(b"\n").unwrap_or(text);
    for line in lines.split(|byte| *byte == b'\n') {
        reader.read_line(line)?;
    }
    reader.close()?;
    Ok(reader.row)
}
