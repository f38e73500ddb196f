//! Why a text is refused.

ghost use Rattle.std.specs.Prelude.{◌≡◌, length};
ghost use Rattle.tlog_text.specs.Reading.{error_of, found_in};
ghost use Rattle.tlog_text.specs.declared.error.Stop.TheVariants.{Memory, Missing};

use crate::line::cut_at;
use std::alloc::{AllocError, AllocFailed};
use thiserror::Error;

/// Why a text is refused. It prints as one line.
#[derive(Debug, Drop, Error)]
pub enum TextError {
    /// The first wrong line. The bytes of an entry are wrong at their first line, and a note is too long at its first.
    #[error("{0}")]
    Line(WrongLine),
    /// Memory ran out.
    #[error("out of memory")]
    OutOfMemory,
}

/// A wrong line.
#[derive(Clone, Copy, Debug, Error)]
#[error("line {line}: expected {expected}{found}")]
pub struct WrongLine {
    /// Its number, counted from 1: one more than there are line feeds ahead of it.
    pub line: usize,
    /// What is expected there.
    pub expected: Expected,
    /// What stands there instead.
    pub found: Found,
}

/// What stands where something else is expected, if an editor or a transfer often does that to a text.
#[derive(Clone, Copy, Debug, Error)]
pub enum Found {
    /// A byte order mark, at the front of the text.
    #[error(", but the text begins with a byte order mark")]
    ByteOrderMark,
    /// The end of the text.
    #[error(", but the text ends")]
    TextEnd,
    /// A last line without a line feed.
    #[error(", but the last line has no line feed")]
    NoLineFeed,
    /// A line that ends in a carriage return and a line feed.
    #[error(", but the line ends in a carriage return and a line feed")]
    CarriageReturn,
    /// Anything else, which the error does not name.
    #[error("")]
    Other,
}

/// What is expected of a line.
#[derive(Clone, Copy, Debug, Error)]
pub enum Expected {
    /// A text of at most 1000000 bytes.
    #[error("a text of at most 1000000 bytes")]
    ShortNote,
    /// The origin of a log, as `is_origin` takes it.
    #[error("the origin: 1 to 999934 bytes, no character below U+0020, and no space first or last")]
    Origin,
    /// The origin of a log, where that of a part is.
    #[error("the origin of a log, not that of a part, which only `join` takes")]
    NotPart,
    /// The origin `PART_ORIGIN`.
    #[error("a part, which begins with `fohlazu part 1`")]
    PartOrigin,
    /// The number of entries of a checkpoint.
    #[error("a checkpoint's number of entries, up to 2^62")]
    Size,
    /// A digest.
    #[error("the base64 of 32 bytes")]
    Digest,
    /// An extension line, or what may follow instead.
    #[error("the end, a blank line, or plain text")]
    Extension,
    /// A signature of a signed note (C2SP signed-note).
    #[error("a signature, `— NAME BASE64`, after the blank line: are there two texts?")]
    Signature,
    /// The first line of a proof of entries.
    #[error("a proof of entries, which begins with `fohlazu proof 1`")]
    ProofVersion,
    /// The number of entries of a proof.
    #[error("`entries COUNT`")]
    EntryCount,
    /// The number and the length of an entry.
    #[error("`entry NUMBER LENGTH`")]
    EntryHead,
    /// The bytes of an entry, of this length.
    #[error("{0} bytes and a line feed")]
    EntryBytes(usize),
    /// The number of digests of a proof.
    #[error("`digests COUNT`")]
    DigestCount,
    /// The old size, with which a consistency proof begins.
    #[error("a consistency proof, which begins with `old SIZE`")]
    OldSize,
    /// A digest, or the blank line after the last one.
    #[error("the base64 of 32 bytes, or a blank line")]
    DigestOrBlank,
    /// A blank line.
    #[error("a blank line")]
    Blank,
    /// The end of the text.
    #[error("the end")]
    End,
}

/// Why reading stops.
#[derive(Clone, Copy)]
pub(crate) enum Stop {
    /// Something else stands at the front of the last `left` bytes than is expected there.
    Missing { left: usize, expected: Expected },
    /// Memory ran out.
    Memory,
}

impl From<AllocError> for Stop {
    ghost from_gives = { λ _ stop. stop ≡ Memory };

    fn from(_error: AllocError) -> Stop {
        Stop::Memory
    }
}

impl<T: Drop> From<AllocFailed<T>> for Stop {
    ghost from_gives = { λ _ stop. stop ≡ Memory };

    fn from(_error: AllocFailed<T>) -> Stop {
        Stop::Memory
    }
}

/// The stop where `expected` is missing, and `left` is what is left of the text.
pub(crate) fn missing(left: &[u8], expected: Expected) -> Stop
    ensures { result ≡ Missing (length left.now) expected }
{
    let left = left.len();
    Stop::Missing { left, expected }
}

/// What stands at the front of `below`, the rest of a text after `above`, where something else is expected.
fn found_in(above: &[u8], below: &[u8]) -> Found
    ensures { result ≡ found_in above.now below.now }
{
    if above.is_empty() && below.starts_with(b"\xef\xbb\xbf") {
        return Found::ByteOrderMark;
    }
    if below.is_empty() {
        return Found::TextEnd;
    }
    match cut_at(b'\n', below) {
        Some((line, _)) if line.last() == Some(&b'\r') => Found::CarriageReturn,
        Some(_) => Found::Other,
        None => Found::NoLineFeed,
    }
}

/// The error of `text`, where reading stops by `stop`: the line, counted from 1, what is expected there, and what is
/// found; or that memory ran out.
pub(crate) fn error_of(text: &[u8], stop: Stop) -> TextError
    ensures { result ≡ error_of text.now stop }
{
    match stop {
        Stop::Missing { left, expected } => {
            let (above, below) = text.split_at(text.len().saturating_sub(left));
            let line = above.iter().filter(|byte| **byte == b'\n').count() + 1;
            let found = found_in(above, below);
            TextError::Line(WrongLine {
                line,
                expected,
                found,
            })
        }
        Stop::Memory => TextError::OutOfMemory,
    }
}
