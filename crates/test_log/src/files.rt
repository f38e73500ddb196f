//! Logs in files.

use crate::case::Case;
use anyhow::{Result, bail, ensure};
use sha2::{Digest, Sha256};
use std::fmt::Write;
use std::io;
use std::io::{Error, ErrorKind, Read};
use tlog_files::{read_log, read_up_to};

/// Gives its bytes in pieces, and is interrupted before each. It may fail once where they end.
#[derive(Drop)]
struct Pieces<'a> {
    rest: &'a [u8],
    /// How many bytes a read gives at most.
    most: usize,
    /// How the first read fails where the bytes end, if it does.
    failure: Option<ErrorKind>,
    is_interrupted: bool,
}

impl<'a> Pieces<'a> {
    /// Bytes by a word of a case: how many of them a read gives, and `!` with how a read fails where they end.
    fn new(reads: &str, bytes: &'a [u8]) -> Result<Pieces<'a>> {
        let (most, failure) = match reads.split_once('!') {
            None => (reads, None),
            Some((most, "")) => (most, Some(ErrorKind::ConnectionReset)),
            Some((most, "would-block")) => (most, Some(ErrorKind::WouldBlock)),
            Some((most, "timed-out")) => (most, Some(ErrorKind::TimedOut)),
            Some((_, failure)) => bail!("no failure of reads: {failure}"),
        };
        Ok(Pieces {
            rest: bytes,
            most: most.parse()?,
            failure,
            is_interrupted: false,
        })
    }
}

impl Read for Pieces<'_> {
    fn read(&mut self, buf: &mut [u8]) -> io::Result<usize> {
        self.is_interrupted = !self.is_interrupted;
        if self.is_interrupted {
            return Err(Error::from(ErrorKind::Interrupted));
        }
        if self.rest.is_empty() {
            if let Some(failure) = self.failure.take() {
                return Err(Error::from(failure));
            }
        }
        let count = self.rest.len().min(self.most).min(buf.len());
        let (piece, rest) = self.rest.split_at(count);
        buf[..count].copy_from_slice(piece);
        self.rest = rest;
        Ok(count)
    }
}

/// `file CUT LIMIT NODES ENTRIES READS FILE`: what is read of a file, up to LIMIT entries, or to its end where LIMIT is
/// `-`. It has the size, the first four bytes of the root and of each node, and the length of each entry with the first
/// four bytes of its SHA-256. A read gives READS bytes at most, and is interrupted first; with `!`, `!would-block` or
/// `!timed-out` after it a read fails so where the bytes end.
pub fn file(case: &mut Case<'_>) -> Result<()> {
    let (framing, limit) = (case.framing()?, case.word().parse().ok());
    let (nodes, entries) = (case.nodes()?, case.numbers()?);
    let reads = case.word();
    let bytes = case.bytes()?;
    let mut pieces = Pieces::new(reads, &bytes)?;
    match read_log(case.alloc, framing, limit, &nodes, &entries, &mut pieces) {
        Ok(log) => {
            write!(case.answer, "{} ", log.tree.frontier().size())?;
            case.push_short(Some(log.tree.frontier().root()))?;
            for value in log.tree.values(case.alloc)? {
                case.push_short(value)?;
            }
            for entry in &log.entries {
                write!(case.answer, "{}:", entry.len())?;
                case.push_short(Some(Sha256::digest(entry.as_slice())))?;
            }
        }
        Err(error) => write!(case.answer, "{error}")?,
    }
    Ok(())
}

/// `read LIMIT READS TEXT`: what is read of a text up to LIMIT: how many bytes, the first four bytes of their SHA-256,
/// and how many bytes are left in the reader. READS is as in `file`.
pub fn text(case: &mut Case<'_>) -> Result<()> {
    let limit = case.number()?;
    ensure!(limit < 1 << 62, "no limit: {limit}");
    let reads = case.word();
    let bytes = case.bytes()?;
    let mut pieces = Pieces::new(reads, &bytes)?;
    match read_up_to(case.alloc, limit, &mut pieces) {
        Ok(read) => {
            write!(case.answer, "{} ", read.len())?;
            case.push_short(Some(Sha256::digest(read.as_slice())))?;
        }
        Err(error) => write!(case.answer, "{error} ")?,
    }
    write!(case.answer, "{}", pieces.rest.len())?;
    Ok(())
}
