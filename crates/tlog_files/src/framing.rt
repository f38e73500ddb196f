//! How a file is cut into entries.
ghost use Rattle.std.specs.Prelude.{◌≡◌, ℕ, ◌≤◌, ◌++◌, List, MatchOption, IfOk, length, map, min};
ghost use Rattle.tlog_files.specs.Entries.{IsFraming, partial_of};
ghost use Rattle.tlog_files.specs.Inner.Splitting.{ending, AreAtHead, IsOpen, IsWhole};

use memchr::memchr;
use std::alloc::{AllocError, Global};

/// How many entries are taken from the head of some bytes at once.
const TOGETHER: usize = 1024;

/// How a file is cut into entries. It belongs to a question about a file: a log's tree does not have it.
#[derive(Clone, Copy, Debug, PartialEq, Eq)]
pub enum Framing {
    /// An entry is a line, without its line feed.
    Lines(PartialLine),
    /// An entry is a block of so many bytes, from 1 to 2^30. The last may be shorter.
    Blocks(usize),
}

/// What becomes of a partial line: of the bytes after a file's last line feed, if there are any.
#[derive(Clone, Copy, Debug, PartialEq, Eq)]
pub enum PartialLine {
    /// The file is refused.
    Refuse,
    /// The bytes are no entry.
    LeaveOut,
    /// The bytes are the last entry.
    Include,
}

impl Framing {
    /// What becomes of the bytes after the last whole entry. A short block is an entry.
    pub(crate) fn partial(self) -> PartialLine
        ensures { result ≡ partial_of self }
    {
        match self {
            Framing::Lines(partial) => partial,
            Framing::Blocks(_) => PartialLine::Include,
        }
    }

    /// If an entry that has `len` bytes already ends in `bytes`: its next bytes, and the bytes after its end. Else
    /// `None`.
    pub(crate) fn split_at_end(self, len: usize, bytes: &[u8]) -> Option<(&[u8], &[u8])>
        ensures { (begun : List ℕ) → len ≡ min (length begun) usize.MAX → IsOpen self begun →
            MatchOption result (IsOpen self (begun ++ bytes.now)) (λ (more, rest).
            (bytes.now ≡ more.now ++ (ending self ++ rest.now)) × IsWhole self (begun ++ more.now)) }
    {
        match self {
            Framing::Lines(_) => {
                let end = memchr(b'\n', bytes)?;
                Some((&bytes[..end], &bytes[end + 1..]))
            }
            Framing::Blocks(size) => bytes.split_at_checked(size.saturating_sub(len)),
        }
    }

    /// Whole entries at the head of `bytes`, at most `most` and at most `TOGETHER`, and the bytes after them. There is
    /// one at least if `bytes` has one and `most` is not 0. `AllocError` if memory runs out.
    pub(crate) fn entries_at_head(
        self,
        alloc: Global,
        most: usize,
        bytes: &[u8],
    ) -> Result<(Vec<&[u8]>, &[u8]), AllocError>
        requires { IsFraming self }
        ensures { IfOk result (λ (entries, rest). (length entries.items ≤ most)
            × AreAtHead self bytes.now rest.now (map (λ entry. entry.now) entries.items)) }
    {
        let mut entries = Vec::new(alloc);
        let mut left = bytes;
        'entries: while entries.len() < most.min(TOGETHER) {
            let Some((entry, rest)) = self.split_at_end(0, left) else {
                return Ok((entries, left));
            };
            entries.push(entry)?;
            left = rest;
        }
        Ok((entries, left))
    }
}
