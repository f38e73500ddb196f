//! Entries of a file that may be many. A checkpoint may claim any number of entries, so their numbers take memory only
//! once the file is known to have them.

use crate::input::Input;
use fohlazu_commands::prove::MAX_ENTRIES_PER_PROOF;
use fohlazu_commands::{Command, Error, Framing, run};
use std::alloc::{AllocError, Global};
use std::io;
use std::io::Read;

/// More entries than these are many.
pub(crate) const MANY: usize = 65536;

/// The most bytes that a checkpoint has.
const MAX_CHECKPOINT_BYTES: u64 = 1_000_000;

/// How many bytes of a file are read at a time while its entries are counted.
const CHUNK: usize = 1 << 16;

/// The first and the last number of some entries, counted from 1.
pub(crate) type Range = (usize, usize);

/// The numbers of entries that may be many.
#[derive(Drop)]
pub(crate) enum Many {
    /// All numbers of a checkpoint.
    All,
    /// Those of these ranges.
    Ranges(Vec<Range>),
}

/// How many numbers `ranges` have, up to `usize::MAX`.
pub(crate) fn count_of(ranges: &[Range]) -> usize {
    let mut count = 0usize;
    for (first, last) in ranges {
        count = count
            .saturating_add(last.saturating_sub(*first))
            .saturating_add(1);
    }
    count
}

/// The numbers of `ranges`, one range after another. `AllocError` if memory runs out.
pub(crate) fn numbers_in(alloc: Global, ranges: &[Range]) -> Result<Vec<usize>, AllocError> {
    let mut numbers = Vec::with_capacity(alloc, count_of(ranges))?;
    for (first, last) in ranges {
        numbers.extend(*first..last.saturating_add(1))?;
    }
    Ok(numbers)
}

impl Many {
    /// Checks that the file has the entries, and returns their numbers, or `None` for all of the checkpoint. Both
    /// inputs are then at their beginning again.
    ///
    /// # Errors
    ///
    /// That of a run, if the checkpoint is refused, or the file has too few entries.
    pub(crate) fn numbers<'a>(
        &self,
        alloc: Global,
        framing: Framing,
        checkpoint: &mut Input<'a>,
        file: &mut Input<'a>,
    ) -> Result<Option<Vec<usize>>, Error> {
        let size = claimed_size(alloc, checkpoint);
        checkpoint.rewind();
        match self {
            Many::All => {
                // A run refuses more entries than `MAX_ENTRIES_PER_PROOF` ahead of their numbers.
                if MANY < size && size <= MAX_ENTRIES_PER_PROOF {
                    check_entries(alloc, framing, checkpoint, file, size, None)?;
                }
                Ok(None)
            }
            Many::Ranges(ranges) => {
                let last = ranges.iter().map(|range| range.1).max().unwrap_or(0);
                let past_end = first_past_end(ranges, size);
                check_entries(alloc, framing, checkpoint, file, last, past_end)?;
                Ok(Some(numbers_in(alloc, ranges)?))
            }
        }
    }
}

/// The first number of `ranges`, in their order, that is above `size`, if there is one.
fn first_past_end(ranges: &[Range], size: usize) -> Option<usize> {
    let (first, _) = ranges.iter().find(|range| range.1 > size)?;
    Some((*first).max(size.saturating_add(1)))
}

/// The size on the second line of a checkpoint, which is not checked otherwise. `usize::MAX` if that line is no number:
/// then no number is past it, and the run that follows refuses the checkpoint.
fn claimed_size(alloc: Global, checkpoint: &mut Input<'_>) -> usize {
    let mut text = Vec::new(alloc);
    // Errors are dropped: the run that follows reads the checkpoint again, fails in the same way, and refuses one that
    // is too long.
    let _ = checkpoint.take(MAX_CHECKPOINT_BYTES).read_to_end(&mut text);
    let mut lines = text.split(|byte| *byte == b'\n');
    let size = lines
        .nth(1)
        .and_then(|line| str::from_utf8(line).ok()?.parse().ok());
    size.unwrap_or(usize::MAX)
}

/// Checks that a file has entries up to number `last`, counted from 1, and that no requested number is past the end of
/// the checkpoint: `past_end` is the first that is. If one of both is not so, a run that proves one entry, `past_end`
/// or the first of the file, says by its error what is wrong; `OutOfMemory` if memory runs out. Both inputs are then at
/// their beginning again.
fn check_entries<'a>(
    alloc: Global,
    framing: Framing,
    checkpoint: &mut Input<'a>,
    file: &mut Input<'a>,
    last: usize,
    past_end: Option<usize>,
) -> Result<(), Error> {
    let has_all = past_end.is_none() && has_entries(alloc, framing, file, last)?;
    file.rewind();
    if has_all {
        return Ok(());
    }
    let command = Command::Prove {
        framing,
        checkpoint: &mut *checkpoint,
        file: &mut *file,
        numbers: Some(vec![in alloc; past_end.unwrap_or(1)]?),
    };
    run_unwritten(alloc, command)?;
    checkpoint.rewind();
    file.rewind();
    Ok(())
}

/// Runs a command for its errors alone. One that is not well formed is refused later.
fn run_unwritten(alloc: Global, command: Command<&mut Input<'_>>) -> Result<(), Error> {
    if command.is_well_formed() {
        run(alloc, command, &mut io::sink())
    } else {
        Ok(())
    }
}

/// Whether a file has at least `count` entries. What follows its last line feed counts as one. False if a read fails;
/// `AllocError` if memory runs out.
fn has_entries(
    alloc: Global,
    framing: Framing,
    file: &mut Input<'_>,
    count: usize,
) -> Result<bool, AllocError> {
    let mut buffer = vec![in alloc; 0; CHUNK]?;
    let (mut bytes, mut lines) = (0usize, 1usize);
    // More turns than any file has: it ends before.
    for _turn in 0..u64::MAX {
        let read = match file.read(&mut buffer) {
            Ok(read) if read > 0 => read,
            _ => return Ok(false),
        };
        bytes = bytes.saturating_add(read);
        let feeds = buffer[..read].iter().filter(|byte| **byte == b'\n');
        lines = lines.saturating_add(feeds.count());
        let has_count = match framing {
            Framing::Lines(_) => lines >= count,
            Framing::Blocks(size) => bytes.div_ceil(size.max(1)) >= count,
        };
        if has_count {
            return Ok(true);
        }
    }
    Ok(false)
}
