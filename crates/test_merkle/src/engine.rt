//! The engine of the program `mmcs`, on an input and an output that may fail.

use crate::case::{Case, Fault};
use mmcs_engine::engine::run;
use std::alloc::Global;
use std::fmt::Write as WriteText;
use std::io;
use std::io::{Error, ErrorKind, Read, Write};

/// Gives its bytes one by one, and fails at the read after so many calls.
#[derive(Drop)]
struct Input<'a> {
    rest: &'a [u8],
    calls_left: usize,
}

impl Read for Input<'_> {
    fn read(&mut self, buf: &mut [u8]) -> io::Result<usize> {
        if self.calls_left == 0 {
            return Err(Error::from(ErrorKind::ConnectionReset));
        }
        self.calls_left -= 1;
        let (Some((byte, rest)), Some(place)) = (self.rest.split_first(), buf.first_mut()) else {
            return Ok(0);
        };
        *place = *byte;
        self.rest = rest;
        Ok(1)
    }
}

/// Takes one byte at each write, and fails at the write or flush after so many calls.
#[derive(Drop)]
struct Output {
    taken: Vec<u8>,
    calls_left: usize,
}

impl Write for Output {
    fn write(&mut self, buf: &[u8]) -> io::Result<usize> {
        let Some(byte) = buf.first() else {
            return Ok(0);
        };
        if self.calls_left == 0 || self.taken.push(*byte).is_err() {
            return Err(Error::from(ErrorKind::StorageFull));
        }
        self.calls_left -= 1;
        Ok(1)
    }

    fn flush(&mut self) -> io::Result<()> {
        if self.calls_left == 0 {
            return Err(Error::from(ErrorKind::StorageFull));
        }
        Ok(())
    }
}

/// The value of a hexadecimal digit.
fn digit(byte: u8) -> Result<u8, Fault> {
    match byte {
        b'0'..=b'9' => Ok(byte - b'0'),
        b'a'..=b'f' => Ok(byte - b'a' + 10),
        _ => Err(Fault::Unreadable("a byte is wrong")),
    }
}

/// The bytes that are written with `\n` and `\xHH`.
fn bytes_in(alloc: Global, written: &str) -> Result<Vec<u8>, Fault> {
    let mut bytes = Vec::new(alloc);
    for (place, part) in written.split('\\').enumerate() {
        let rest = match part.as_bytes() {
            part if place == 0 => part,
            [b'n', rest @ ..] => {
                bytes.push(b'\n')?;
                rest
            }
            [b'x', high, low, rest @ ..] => {
                bytes.push(digit(*high)?.wrapping_mul(16).wrapping_add(digit(*low)?))?;
                rest
            }
            _ => return Err(Fault::Unreadable("a byte is wrong")),
        };
        bytes.extend_from_slice(rest)?;
    }
    Ok(bytes)
}

/// The words of a text, where `""` is an empty word.
fn words_in(alloc: Global, text: &str) -> Result<Vec<String>, Fault> {
    let mut words = Vec::new(alloc);
    for word in text.split_whitespace() {
        let word = if word == "\"\"" { "" } else { word };
        words.push(String::from_str(alloc, word)?)?;
    }
    Ok(words)
}

/// What a run of the engine leaves.
#[derive(Drop)]
struct Run {
    /// The bytes that were written.
    written: Vec<u8>,
    /// The line and the status of an error; empty if there is none.
    error: String,
}

/// Runs the engine on an input that fails after so many reads, and an output that fails after so many writes.
fn run_on(
    alloc: Global,
    words: &[String],
    input: &[u8],
    reads: usize,
    writes: usize,
) -> Result<Run, Fault> {
    let mut input = Input {
        rest: input,
        calls_left: reads,
    };
    let mut output = Output {
        taken: Vec::new(alloc),
        calls_left: writes,
    };
    let mut error = String::new(alloc);
    if let Err(fault) = run(alloc, words, &mut input, &mut output) {
        let status = fault.status();
        write!(error, "{fault} (status {status})")?;
    }
    Ok(Run {
        written: output.taken,
        error,
    })
}

/// A number of calls at which nothing fails.
const ALL: usize = usize::MAX;

/// What the engine answers to an input that fails after each count of its bytes in turn. Fails if two answers differ.
fn run_unread(alloc: Global, words: &[String], input: &[u8]) -> Result<Run, Fault> {
    let first = run_on(alloc, words, input, 0, ALL)?;
    for reads in 1..=input.len() {
        let later = run_on(alloc, words, input, reads, ALL)?;
        if later.error != first.error || later.written != first.written {
            return Err(Fault::Wrong("an input that fails later is answered otherwise"));
        }
    }
    Ok(first)
}

/// Whether this is left of a whole run where the output fails after so many calls.
fn is_cut(found: &Run, whole: &Run, writes: usize) -> bool {
    found.error.as_str() == "write failed (status 1)"
        && found.written.len() == writes
        && whole.written.starts_with(&found.written)
}

/// What the engine answers if nothing fails. An output that fails at one of its calls, each in turn, has the bytes of
/// the calls before, and the error is `write failed`. An error of another kind comes before any call. Fails if that is
/// not so.
fn run_unwritten(alloc: Global, words: &[String], input: &[u8]) -> Result<Run, Fault> {
    let whole = run_on(alloc, words, input, ALL, ALL)?;
    for writes in 0..=whole.written.len() {
        let found = run_on(alloc, words, input, ALL, writes)?;
        let is_right = if whole.error.is_empty() {
            is_cut(&found, &whole, writes)
        } else {
            found.error == whole.error && found.written.is_empty()
        };
        if !is_right {
            return Err(Fault::Wrong("an output that fails has another answer"));
        }
    }
    Ok(whole)
}

/// `mmcs | ARGUMENTS | "INPUT" | ANSWER`: what the engine prints, with the line and the status of an error.
/// The input of `mmcs_unread` fails after each count of its bytes in turn, from none to all, and each time that is the
/// answer. The output of `mmcs_unwritten` fails at each of its calls in turn, at last at the flush; the answer is that
/// of no failure. In the input and the answer `\n` and `\xHH` are bytes.
pub fn engine(case: &mut Case<'_>, kind: &str) -> Result<(), Fault> {
    let alloc = case.alloc;
    let words = words_in(alloc, case.take())?;
    let Some((input, expected)) = case.rest.split_once("\" | ") else {
        return Err(Fault::Unreadable("the input or the answer is missing"));
    };
    let input = bytes_in(alloc, input.trim_start().trim_start_matches('"'))?;
    let run = match kind {
        "unread" => run_unread(alloc, &words, &input)?,
        "unwritten" => run_unwritten(alloc, &words, &input)?,
        _ => run_on(alloc, &words, &input, ALL, ALL)?,
    };
    let Ok(text) = str::from_utf8(&run.written) else {
        return Err(Fault::Wrong("the output is no text"));
    };
    let mut text = String::from_str(alloc, text)?;
    text.push_str(&run.error)?;
    if text.as_bytes() == bytes_in(alloc, expected)?.as_slice() {
        case.answer.push_str(expected)?;
    } else {
        write!(case.answer, "{text:?}")?;
    }
    case.rest = expected;
    Ok(())
}
