//! What accepted texts show of files: a `collision`, or `none`; or why a text or a file is refused. And what a command
//! leaves of its text on an output that fails.

use crate::case::Case;
use anyhow::{Result, ensure};
use fohlazu_commands::collisions::{file_entries_collision, file_prefix_collision};
use fohlazu_commands::{Command, Error, run};
use sha2::{Digest, Sha256};
use std::fmt::Write as WriteText;
use std::io;
use std::io::{ErrorKind, Write};
use tlog::collision::Collision;

/// Answers whether a collision is found.
fn push_outcome(case: &mut Case<'_>, found: &Result<Option<Collision>, Error>) -> Result<()> {
    match found {
        Ok(found) => case.push_found(found)?,
        Err(error) => write!(case.answer, "{error}")?,
    }
    Ok(())
}

/// `file_entries CUT FILE CHECKPOINT PROOF`.
pub fn file_entries(case: &mut Case<'_>) -> Result<()> {
    let (framing, file, checkpoint, proof) = (
        case.framing()?,
        case.bytes()?,
        case.bytes()?,
        case.bytes()?,
    );
    let found = file_entries_collision(case.alloc, framing, &file, &checkpoint, &proof);
    push_outcome(case, &found)
}

/// `file_prefix CUT OLD-FILE NEW-FILE CHECKPOINT PROOF`.
pub fn file_prefix(case: &mut Case<'_>) -> Result<()> {
    let (framing, old, new) = (case.framing()?, case.bytes()?, case.bytes()?);
    let (checkpoint, proof) = (case.bytes()?, case.bytes()?);
    let found = file_prefix_collision(case.alloc, framing, &old, &new, &checkpoint, &proof);
    push_outcome(case, &found)
}

/// Takes one byte at each write, and fails at the write or flush after so many calls.
#[derive(Drop)]
struct Output {
    taken: Vec<u8>,
    calls_left: usize,
}

impl Output {
    /// Counts a call, or fails.
    fn count(&mut self) -> io::Result<()> {
        if self.calls_left == 0 {
            return Err(io::Error::from(ErrorKind::StorageFull));
        }
        self.calls_left -= 1;
        Ok(())
    }
}

impl Write for Output {
    fn write(&mut self, buf: &[u8]) -> io::Result<usize> {
        let Some(byte) = buf.first() else {
            return Ok(0);
        };
        self.count()?;
        self.taken.push(*byte)?;
        Ok(1)
    }

    fn flush(&mut self) -> io::Result<()> {
        self.count()
    }
}

/// `seal CALLS ORIGIN CUT FILE`: what a run of `seal` leaves on an output that takes a byte at each write, and fails at
/// the write or flush after so many calls: the error, if there is one, the count of the bytes, and the first four bytes
/// of their SHA-256.
pub fn seal(case: &mut Case<'_>) -> Result<()> {
    let calls_left = case.number()?;
    let origin = String::from_str(case.alloc, case.word())?;
    let (framing, bytes) = (case.framing()?, case.bytes()?);
    let command = Command::Seal {
        origin,
        framing,
        file: bytes.as_slice(),
    };
    ensure!(command.is_well_formed(), "no command");
    // So that no write fails for want of memory.
    let taken = Vec::with_capacity(case.alloc, calls_left)?;
    let mut output = Output { taken, calls_left };
    if let Err(error) = run(case.alloc, command, &mut output) {
        write!(case.answer, "{error} ")?;
    }
    write!(case.answer, "{} ", output.taken.len())?;
    case.push_short(Some(Sha256::digest(output.taken.as_slice())))
}
