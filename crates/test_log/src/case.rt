//! A case: the words of its question, read one by one, and its answer.
ghost use Rattle.std.specs.Prelude.{IfOk};
ghost use Rattle.tlog_files.specs.Entries.{IsFraming};

use anyhow::{Result, bail, ensure};
use percent_encoding::percent_decode_str;
use std::alloc::Global;
use std::fmt::{Display, Write};
use tlog_files::{Framing, PartialLine};
use tlog_tree::NodeId;

/// A case.
#[derive(Drop)]
pub struct Case<'a> {
    pub alloc: Global,
    /// The words that are left.
    pub rest: &'a str,
    /// What is answered so far: words with a blank after each.
    pub answer: String,
}

/// What a list has between its commas.
fn items<'a>(alloc: Global, list: &'a str) -> Result<Vec<&'a str>> {
    let mut items = Vec::new(alloc);
    if list != "-" {
        for item in list.split(',') {
            items.push(item)?;
        }
    }
    Ok(items)
}

/// The entries that are these decimal numbers.
fn decimals(alloc: Global, numbers: &[usize]) -> Result<Vec<Vec<u8>>> {
    let mut entries = Vec::new(alloc);
    for number in numbers {
        entries.push(format!(in alloc; "{number}")?.into_bytes())?;
    }
    Ok(entries)
}

impl<'a> Case<'a> {
    /// The next word.
    pub fn word(&mut self) -> &'a str {
        let (word, rest) = self.rest.split_once(' ').unwrap_or((self.rest, ""));
        self.rest = rest;
        word
    }

    /// The next word as a number.
    pub fn number(&mut self) -> Result<usize> {
        Ok(self.word().parse()?)
    }

    /// The next word as a list of numbers.
    pub fn numbers(&mut self) -> Result<Vec<usize>> {
        let mut numbers = Vec::new(self.alloc);
        for item in &items(self.alloc, self.word())? {
            numbers.push(item.parse()?)?;
        }
        Ok(numbers)
    }

    /// The next word as a list of nodes.
    pub fn nodes(&mut self) -> Result<Vec<NodeId>> {
        let mut nodes = Vec::new(self.alloc);
        for item in &items(self.alloc, self.word())? {
            let Some((layer, slot)) = item.split_once('.') else {
                bail!("no node: {item}");
            };
            nodes.push(NodeId {
                layer: layer.parse()?,
                slot: slot.parse()?,
            })?;
        }
        Ok(nodes)
    }

    /// The next word as bytes.
    pub fn bytes(&mut self) -> Result<Vec<u8>> {
        let mut bytes = Vec::new(self.alloc);
        for piece in self.word().split('+') {
            let (text, times) = piece.split_once('*').unwrap_or((piece, "1"));
            let times: u32 = times.parse()?;
            let mut piece = Vec::new(self.alloc);
            percent_decode_str(text).append_to(&mut piece)?;
            for _ in 0..times {
                bytes.extend_from_slice(&piece)?;
            }
        }
        Ok(bytes)
    }

    /// The next word as a cut: what becomes of a partial line, or the size of a block.
    pub fn framing(&mut self) -> Result<Framing>
        ensures { IfOk result (λ framing. IsFraming framing) }
    {
        let word = self.word();
        let size: usize = word.parse().unwrap_or(1);
        ensure!(0 < size && size <= 1 << 30, "no block: {word}");
        Ok(match word {
            "refuse" => Framing::Lines(PartialLine::Refuse),
            "leave-out" => Framing::Lines(PartialLine::LeaveOut),
            "include" => Framing::Lines(PartialLine::Include),
            _ => Framing::Blocks(size),
        })
    }

    /// The next word as a list of entries, which are decimal numbers.
    pub fn entries(&mut self) -> Result<Vec<Vec<u8>>> {
        let numbers = self.numbers()?;
        decimals(self.alloc, &numbers)
    }

    /// The next word as the size of the log of the decimal numbers from 1 on: its entries.
    pub fn log(&mut self) -> Result<Vec<Vec<u8>>> {
        let size = self.number()?;
        let numbers: Vec<usize> = (1..=size).collect(self.alloc)?;
        decimals(self.alloc, &numbers)
    }

    /// Answers by bytes in hexadecimal.
    pub fn push_hex(&mut self, bytes: &[u8]) -> Result<()> {
        let digits = hex::encode(self.alloc, bytes)?;
        write!(self.answer, "{digits} ")?;
        Ok(())
    }

    /// Answers by the first four bytes of a digest, or `-` where there is none.
    pub fn push_short(&mut self, digest: Option<[u8; 32]>) -> Result<()> {
        match digest {
            Some(digest) => self.push_hex(&digest[..4]),
            None => Ok(self.answer.push_str("- ")?),
        }
    }

    /// Answers by a verdict.
    pub fn push_verdict<E: Display>(&mut self, verdict: &Result<(), E>) -> Result<()> {
        match verdict {
            Ok(()) => self.answer.push_str("accepted")?,
            Err(error) => write!(self.answer, "{error}")?,
        }
        Ok(())
    }
}
