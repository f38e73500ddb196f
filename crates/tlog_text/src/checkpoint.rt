//! Checkpoints of logs, and parts of files.

ghost use Rattle.std.specs.Prelude.{◌≡◌, IfOk, option_map};
ghost use Rattle.std.specs.Result.{result_map_both};
ghost use Rattle.tlog_text.specs.Lines.{is_origin, passing};
ghost use Rattle.tlog_text.specs.Reading.{after_origin};
ghost use Rattle.tlog_text.specs.Reading.{checkpoint_in, log_origin_by, note_by, part_in, part_origin_by};
ghost use Rattle.tlog_text.specs.Reading.{signatures_by};
ghost use Rattle.tlog_text.specs.Inner.Rests.{rest_of};
ghost use Rattle.tlog_text.specs.Texts.{checkpoint_fields, checkpoint_text};

use crate::error::{Expected, Stop, TextError, error_of, missing};
use crate::line;
use crate::line::{
    check_end, cut_at, push_digest, push_line, push_number, read_digest, read_number, skip_line,
    skip_lines,
};
use std::alloc::{AllocError, Global};

/// The origin of each part of a file. A part has the form of a checkpoint, and is no log's: signed under the origin of
/// a log it would be evidence against the log.
pub const PART_ORIGIN: &str = "fohlazu part 1";

/// The most bytes that a checkpoint has, with its extension lines and signatures.
const MAX_BYTES: usize = 1_000_000;

/// The most bytes that an origin has: with the longest size, its checkpoint of three lines then has `MAX_BYTES`.
const MAX_ORIGIN_BYTES: usize = 999_934;

/// A checkpoint of a log, or a part of a file.
#[derive(Clone, Copy)]
pub struct Checkpoint<'a> {
    /// The origin: the name of the log, or `PART_ORIGIN`.
    pub origin: &'a str,
    /// How many entries there are: up to 2^62.
    pub size: usize,
    /// The root of their tree (RFC 9162, 2.1.1); of a part, that of its own entries.
    pub root: [u8; 32],
}

impl<'a> Checkpoint<'a> {
    /// Reads the checkpoint of a log (C2SP tlog-checkpoint): a line each for the origin, the size and the root in
    /// base64. It reads past extension lines, and past a blank line with 1 to 100 signatures, which it does not check.
    ///
    /// # Errors
    ///
    /// `Line` for the first wrong line. A part is wrong at its first line, and so is a note of more than 1000000 bytes.
    pub fn parse(note: &'a [u8]) -> Result<Checkpoint<'a>, TextError>
        ensures { result_map_both checkpoint_fields (λ error. error) result ≡ checkpoint_in note.now }
    {
        checkpoint_by(note).map_err(|stop| error_of(note, stop))
    }

    /// Reads a part of a file: a text of the form that [`parse`](Self::parse) reads, with the origin `PART_ORIGIN`.
    ///
    /// # Errors
    ///
    /// `Line` for the first wrong line. Another origin is wrong at the first line, and so is a text of more than
    /// 1000000 bytes.
    pub fn parse_part(text: &'a [u8]) -> Result<Checkpoint<'a>, TextError>
        ensures { result_map_both checkpoint_fields (λ error. error) result ≡ part_in text.now }
    {
        part_by(text).map_err(|stop| error_of(text, stop))
    }

    /// Prints the origin, the size and the root. The text is read again if [`is_origin`] takes the origin, and the size
    /// is at most 2^62: by `parse_part` if the origin is `PART_ORIGIN`, else by `parse`.
    ///
    /// # Errors
    ///
    /// `AllocError` if memory runs out.
    pub fn to_text(&self, alloc: Global) -> Result<Vec<u8>, AllocError>
        ensures { IfOk result (λ text. text.items ≡ checkpoint_text (checkpoint_fields self.now)) }
    {
        let mut text = Vec::new(alloc);
        push_line(&mut text, self.origin.as_bytes())?;
        push_number(alloc, &mut text, "", self.size)?;
        push_digest(alloc, &mut text, &self.root)?;
        Ok(text)
    }
}

/// Whether this may be an origin: 1 to 999934 bytes, no character below U+0020, no byte order mark first, and no space
/// first or last. So a checkpoint of three lines has at most 1000000 bytes, whatever its size.
#[tactic(auto, unfolding(crate::specs::Lines::is_origin))]
pub fn is_origin(text: &str) -> bool
    ensures { result ≡ is_origin text.now }
{
    let bytes = text.as_bytes();
    if bytes.starts_with(b"\xef\xbb\xbf") {
        return false;
    }
    let len = bytes.len();
    if len == 0 || bytes[0] == b' ' || bytes[len - 1] == b' ' {
        return false;
    }
    len <= MAX_ORIGIN_BYTES && bytes.iter().all(|byte| *byte >= b' ')
}

/// `line` as an origin; `None` if [`is_origin`] says that it is none.
fn origin_of(line: &[u8]) -> Option<&str>
    ensures { option_map (λ origin. origin.now) result ≡ passing is_origin line.now }
{
    let text = str::from_utf8(line).ok()?;
    is_origin(text).then_some(text)
}

/// Reads past a blank line and 1 to 100 signatures, unless nothing is left, and returns what follows them. Where one is
/// wrong, the error says what is missing.
#[tactic(auto, unfolding(crate::specs::Reading::signatures_by))]
fn skip_signatures(left: &[u8]) -> Result<&[u8], Stop>
    ensures { result_map_both (λ rest. rest.now) (λ stop. stop) result ≡ rest_of (signatures_by left.now) }
{
    if left.is_empty() {
        return Ok(left);
    }
    let left = skip_line(left, Expected::Blank)?;
    let left = skip_line(left, Expected::Signature)?;
    // One of at most 100 is read.
    skip_lines(left, Expected::Signature, 99)
}

/// Reads what stands after an origin: the size, the root, and what may follow them. Where one is wrong, the error says
/// what is missing.
#[tactic(auto, unfolding(crate::specs::Reading::after_origin, crate::specs::Reading::extensions_by))]
fn after_origin<'a>(origin: &'a str, left: &[u8]) -> Result<Checkpoint<'a>, Stop>
    ensures { result_map_both checkpoint_fields (λ stop. stop) result ≡ after_origin origin.entry.now left.now }
{
    let (size, left) = read_number(left, b"", Expected::Size)?;
    let (root, left) = read_digest(left, Expected::Digest)?;
    let left = skip_lines(left, Expected::Extension, left.len())?;
    let left = skip_signatures(left)?;
    check_end(left)?;
    Ok(Checkpoint { origin, size, root })
}

/// Reads the checkpoint of a log. Where it is none, the error says what is missing.
#[tactic(auto, unfolding(crate::specs::Reading::log_origin_by))]
fn checkpoint_by(note: &[u8]) -> Result<Checkpoint<'_>, Stop>
    ensures { result_map_both checkpoint_fields (λ stop. stop) result ≡ note_by log_origin_by note.now }
{
    if note.len() > MAX_BYTES {
        return Err(missing(note, Expected::ShortNote));
    }
    let stop = missing(note, Expected::Origin);
    let (line, left) = cut_at(b'\n', note).ok_or(stop)?;
    let origin = origin_of(line).ok_or(stop)?;
    if origin == PART_ORIGIN {
        return Err(missing(note, Expected::NotPart));
    }
    after_origin(origin, left)
}

/// Reads a part of a file. Where it is none, the error says what is missing.
fn part_by(text: &[u8]) -> Result<Checkpoint<'_>, Stop>
    ensures { result_map_both checkpoint_fields (λ stop. stop) result ≡ note_by part_origin_by text.now }
{
    if text.len() > MAX_BYTES {
        return Err(missing(text, Expected::ShortNote));
    }
    let left = skip_line(text, Expected::PartOrigin)?;
    after_origin(PART_ORIGIN, left)
}
