//! Proofs of entries.

ghost use Rattle.std.specs.Prelude.{◌≡◌, ◌⊎◌, ◌++◌, Err, IfErr, IfOk, Ok, OnOk, flat_map, map};
ghost use Rattle.tlog_text.specs.Lines.{head_of};
ghost use Rattle.tlog_text.specs.Reading.{entries_by, entries_in, entry_by, many, never};
ghost use Rattle.tlog_text.specs.Texts.{entries_fields, entries_text, entry_fields, entry_lines};
ghost use Rattle.tlog_text.specs.declared.error.Stop.TheVariants.{Memory};
ghost use Rattle.tlog_text.specs.declared.error.TextError.TheVariants.{OutOfMemory};

use crate::error::{Expected, Stop, TextError, error_of, missing};
use crate::line::{
    check_end, cut_at, number_of, push_digests, push_line, push_number, read_digests, read_number,
    skip_line,
};
use std::alloc::{AllocError, Global};

/// The first line of a proof of entries.
pub(crate) const PROOF_VERSION: &str = "fohlazu proof 1";

/// Entries of a log, with the digests that prove all of them.
#[derive(Drop)]
pub struct EntriesProof {
    /// The entries, in the order of the query.
    pub entries: Vec<Entry>,
    /// The digests that prove them, in the order of `tlog_multiproof`.
    pub digests: Vec<[u8; 32]>,
}

/// An entry of a log.
#[derive(Drop)]
pub struct Entry {
    /// Its number, counted from 1.
    pub number: usize,
    /// Its bytes, line feeds too; a line is without the one that ends it.
    pub bytes: Vec<u8>,
}

impl EntriesProof {
    /// Reads a proof of entries, whether it proves them or not.
    ///
    /// # Errors
    ///
    /// - `Line` for the first wrong line;
    /// - `OutOfMemory` if memory runs out.
    pub fn parse(alloc: Global, text: &[u8]) -> Result<EntriesProof, TextError>
        ensures read { IfOk result (λ proof. entries_in text.now ≡ Ok (entries_fields proof)) }
        ensures error { IfErr result (λ error. (error ≡ OutOfMemory) ⊎ (entries_in text.now ≡ Err error)) }
    {
        entries_by(alloc, text).map_err(|stop| error_of(text, stop))
    }

    /// Prints the proof. It is read again if its numbers, lengths and counts are at most 2^62, and no number is 0.
    ///
    /// # Errors
    ///
    /// `AllocError` if memory runs out.
    pub fn to_text(&self, alloc: Global) -> Result<Vec<u8>, AllocError>
        ensures { IfOk result (λ text. text.items ≡ entries_text (entries_fields self.now)) }
    {
        let mut text = Vec::with_capacity(alloc, self.room())?;
        push_line(&mut text, PROOF_VERSION.as_bytes())?;
        push_number(alloc, &mut text, "entries ", self.entries.len())?;
        push_entries(alloc, &mut text, &self.entries)?;
        push_number(alloc, &mut text, "digests ", self.digests.len())?;
        push_digests(alloc, &mut text, &self.digests)?;
        Ok(text)
    }

    /// How many bytes the text has at most.
    fn room(&self) -> usize {
        // A digest's line has 45 bytes. What stands around an entry's bytes has at most 50, all other lines at most 80.
        let mut room = self.digests.len().saturating_mul(45).saturating_add(80);
        for entry in &self.entries {
            room = room.saturating_add(entry.bytes.len()).saturating_add(50);
        }
        room
    }
}

/// Appends entries: for each a line of its number and length, and its bytes with a line feed. `AllocError` if memory
/// runs out.
fn push_entries(alloc: Global, text: &mut Vec<u8>, entries: &[Entry]) -> Result<(), AllocError>
    ensures { OnOk result (text.new.items ≡ text.old.items ++ flat_map entry_lines (map entry_fields entries.now)) }
{
    for entry in entries {
        let head = format!(in alloc; "entry {} {}", entry.number, entry.bytes.len())?;
        push_line(text, head.as_bytes())?;
        push_line(text, &entry.bytes)?;
    }
    Ok(())
}

/// The number of an entry and its length, out of the line ahead of its bytes; `None` if the line has another form.
pub(crate) fn head_of(line: &[u8]) -> Option<(usize, usize)>
    ensures { result ≡ head_of line.now }
{
    let (number, len) = cut_at(b' ', line.strip_prefix(b"entry ")?)?;
    let (number, len) = (number_of(number)?, number_of(len)?);
    (number != 0).then_some((number, len))
}

/// Reads an entry. Returns it and what follows it. Where none stands next, the error says what is missing. `Memory` if
/// memory runs out.
#[tactic(auto, unfolding(crate::specs::Reading::entry_by, crate::specs::Reading::bytes_by))]
fn entry_by(alloc: Global, left: &[u8]) -> Result<(Entry, &[u8]), Stop>
    ensures read { IfOk result (λ (entry, rest). entry_by left.now ≡ Ok (entry_fields entry, rest.now)) }
    ensures stop { IfErr result (λ stop. (stop ≡ Memory) ⊎ (entry_by left.now ≡ Err stop)) }
{
    let stop = missing(left, Expected::EntryHead);
    let (line, left) = cut_at(b'\n', left).ok_or(stop)?;
    let (number, len) = head_of(line).ok_or(stop)?;
    if len >= left.len() || left[len] != b'\n' {
        return Err(missing(left, Expected::EntryBytes(len)));
    }
    let bytes = Vec::from_slice(alloc, &left[..len])?;
    Ok((Entry { number, bytes }, &left[len + 1..]))
}

/// Reads `count` entries. Returns them and what follows them. Where one is wrong, the error says what is missing.
/// `Memory` if memory runs out.
fn entry_list_by(alloc: Global, left: &[u8], count: usize) -> Result<(Vec<Entry>, &[u8]), Stop>
    ensures read { IfOk result
        (λ (entries, rest). many never entry_by count left.now ≡ Ok (map entry_fields entries.items, rest.now)) }
    ensures stop { IfErr result (λ stop. (stop ≡ Memory) ⊎ (many never entry_by count left.now ≡ Err stop)) }
{
    let mut entries = Vec::new(alloc);
    let mut rest = left;
    for _entry in 0..count {
        let (entry, below) = entry_by(alloc, rest)?;
        entries.push(entry)?;
        rest = below;
    }
    Ok((entries, rest))
}

/// Reads a proof of entries. Where it is none, the error says what is missing. `Memory` if memory runs out.
#[tactic(auto, unfolding(crate::specs::Reading::entries_by))]
fn entries_by(alloc: Global, text: &[u8]) -> Result<EntriesProof, Stop>
    ensures read { IfOk result (λ proof. entries_by text.now ≡ Ok (entries_fields proof)) }
    ensures stop { IfErr result (λ stop. (stop ≡ Memory) ⊎ (entries_by text.now ≡ Err stop)) }
{
    let left = skip_line(text, Expected::ProofVersion)?;
    let (count, left) = read_number(left, b"entries ", Expected::EntryCount)?;
    let (entries, left) = entry_list_by(alloc, left, count)?;
    let (count, left) = read_number(left, b"digests ", Expected::DigestCount)?;
    let (digests, left) = read_digests(alloc, left, count)?;
    check_end(left)?;
    Ok(EntriesProof { entries, digests })
}
