//! Texts of logs. An answer is `ok` and what the text says, with `printed` if it is printed as it was read, or the
//! number of its first wrong line.

use crate::case::Case;
use anyhow::{Result, bail};
use std::fmt::Write;
use tlog_text::{Checkpoint, ConsistencyProof, EntriesProof, TextError};

/// Answers whether a text was printed as it was read.
fn push_mark(case: &mut Case<'_>, text: &[u8], printed: &[u8]) -> Result<()> {
    if text == printed {
        case.answer.push_str("printed")?;
    }
    Ok(())
}

/// Answers by the number of the wrong line.
fn push_error(case: &mut Case<'_>, error: &TextError) -> Result<()> {
    match error {
        TextError::Line(wrong) => write!(case.answer, "line {}", wrong.line)?,
        TextError::OutOfMemory => bail!("out of memory"),
    }
    Ok(())
}

/// `checkpoint TEXT`, or `part TEXT` if `is_part`: its size, root and origin.
pub fn checkpoint(case: &mut Case<'_>, is_part: bool) -> Result<()> {
    let text = case.bytes()?;
    let read = if is_part {
        Checkpoint::parse_part(&text)
    } else {
        Checkpoint::parse(&text)
    };
    match read {
        Ok(checkpoint) => {
            write!(case.answer, "ok {} ", checkpoint.size)?;
            case.push_hex(&checkpoint.root)?;
            write!(case.answer, "{} ", checkpoint.origin)?;
            push_mark(case, &text, &checkpoint.to_text(case.alloc)?)
        }
        Err(error) => push_error(case, &error),
    }
}

/// `entries_proof TEXT`: its entries, each with its number, and how many digests it has.
pub fn entries_proof(case: &mut Case<'_>) -> Result<()> {
    let text = case.bytes()?;
    match EntriesProof::parse(case.alloc, &text) {
        Ok(proof) => {
            case.answer.push_str("ok ")?;
            for entry in &proof.entries {
                write!(case.answer, "{}:", entry.number)?;
                case.push_hex(&entry.bytes)?;
            }
            write!(case.answer, "{} ", proof.digests.len())?;
            push_mark(case, &text, &proof.to_text(case.alloc)?)
        }
        Err(error) => push_error(case, &error),
    }
}

/// `consistency_proof TEXT`: the old size, how many digests it has, and how long its checkpoint is.
pub fn consistency_proof(case: &mut Case<'_>) -> Result<()> {
    let text = case.bytes()?;
    match ConsistencyProof::parse(case.alloc, &text) {
        Ok(proof) => {
            let (digests, length) = (proof.digests.len(), proof.checkpoint.len());
            write!(case.answer, "ok {} {digests} {length} ", proof.old_size)?;
            push_mark(case, &text, &proof.to_text(case.alloc)?)
        }
        Err(error) => push_error(case, &error),
    }
}
