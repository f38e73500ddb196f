//! Proofs of entries that are read in place: entries stay where they stand in the text.

ghost use Rattle.std.specs.Prelude.{◌≡◌, ◌⊎◌, Err, IfErr, IfOk, Ok, option_map};
ghost use Rattle.std.specs.Iterator.{YieldsFirstBy, item_count};
ghost use Rattle.std.specs.Result.{result_map_both, result_ok};
ghost use Rattle.tlog_text.specs.InPlace.{entries_left, entry_text_fields, in_place};
ghost use Rattle.tlog_text.specs.Inner.Rests.{rest_of};
ghost use Rattle.tlog_text.specs.Reading.{entries_by, entries_in, entry_by, many, never};
ghost use Rattle.tlog_text.specs.declared.error.Stop.TheVariants.{Memory};
ghost use Rattle.tlog_text.specs.declared.error.TextError.TheVariants.{OutOfMemory};

use crate::entries::head_of;
use crate::error::{Expected, Stop, TextError, error_of, missing};
use crate::line::{check_end, cut_at, read_digests, read_number, skip_line};
use std::alloc::Global;

/// Entries of a log, which stand in the text of their proof, with the digests that prove all of them.
#[derive(Drop)]
pub struct EntriesText<'a> {
    /// The text from the first entry on. [`next_entry`] reads the entries, in the order of the query.
    pub text: &'a [u8],
    /// How many entries there are.
    pub count: usize,
    /// The digests that prove them, in the order of `tlog_multiproof`.
    pub digests: Vec<[u8; 32]>,
}

/// Entries of a log, which stand in a text one after another.
#[derive(Clone, Copy)]
pub struct Entries<'a> {
    text: &'a [u8],
    /// How many there are at most.
    count: usize,
}

/// An entry of a log, which stands in a text.
#[derive(Clone, Copy)]
pub struct EntryText<'a> {
    /// Its number, counted from 1.
    pub number: usize,
    /// Its bytes, line feeds too; a line is without the one that ends it.
    pub bytes: &'a [u8],
}

impl<'a> EntriesText<'a> {
    /// Reads a proof of entries as [`EntriesProof::parse`](crate::EntriesProof::parse) does, with the same errors in
    /// the same order. Its digests are copied, and nothing else.
    ///
    /// # Errors
    ///
    /// - `Line` for the first wrong line;
    /// - `OutOfMemory` if memory runs out.
    pub fn parse(alloc: Global, text: &'a [u8]) -> Result<EntriesText<'a>, TextError>
        ensures read { IfOk result (λ proof. entries_in text.now ≡ Ok (in_place proof)) }
        ensures error { IfErr result (λ error. (error ≡ OutOfMemory) ⊎ (entries_in text.now ≡ Err error)) }
    {
        entries_text_by(alloc, text).map_err(|stop| error_of(text, stop))
    }

    /// The entries, in the order of the query.
    pub fn entries(&self) -> Entries<'a>
        ensures { entries_left result ≡ (in_place self.now).entries }
    {
        Entries {
            text: self.text,
            count: self.count,
        }
    }
}

impl<'a> Iterator for Entries<'a> {
    type Item = EntryText<'a>;

    ghost next_gives = { YieldsFirstBy entry_text_fields entries_left };

    ghost remaining = { item_count entries_left };

    fn next(&mut self) -> Option<EntryText<'a>> {
        if self.count == 0 {
            return None;
        }
        let (entry, rest) = next_entry(self.text)?;
        self.text = rest;
        self.count -= 1;
        Some(entry)
    }
}

/// The entry that a text begins with, and what stands after it; `None` where it begins with none.
pub fn next_entry(text: &[u8]) -> Option<(EntryText<'_>, &[u8])>
    ensures { option_map (λ (entry, rest). (entry_text_fields entry, rest.now)) result
        ≡ result_ok (entry_by text.now) }
{
    entry_text_by(text).ok()
}

/// Reads an entry, whose bytes stay where they stand. Returns it and what follows it. Where none stands next, the error
/// says what is missing.
#[tactic(auto, unfolding(crate::specs::Reading::entry_by, crate::specs::Reading::bytes_by))]
fn entry_text_by(left: &[u8]) -> Result<(EntryText<'_>, &[u8]), Stop>
    ensures { result_map_both (λ (entry, rest). (entry_text_fields entry, rest.now)) (λ stop. stop) result
        ≡ entry_by left.now }
{
    let stop = missing(left, Expected::EntryHead);
    let (line, left) = cut_at(b'\n', left).ok_or(stop)?;
    let (number, len) = head_of(line).ok_or(stop)?;
    if len >= left.len() || left[len] != b'\n' {
        return Err(missing(left, Expected::EntryBytes(len)));
    }
    let bytes = &left[..len];
    Ok((EntryText { number, bytes }, &left[len + 1..]))
}

/// Reads past `count` entries, and returns what follows them. Where one is wrong, the error says what is missing.
fn skip_entries(left: &[u8], count: usize) -> Result<&[u8], Stop>
    ensures { result_map_both (λ rest. rest.now) (λ stop. stop) result
        ≡ rest_of (many never entry_by count left.now) }
{
    let mut rest = left;
    for _entry in 0..count {
        let (_, below) = entry_text_by(rest)?;
        rest = below;
    }
    Ok(rest)
}

/// Reads a proof of entries, whose entries stay where they stand. Where it is none, the error says what is missing.
/// `Memory` if memory runs out.
#[tactic(auto, unfolding(crate::specs::Reading::entries_by))]
fn entries_text_by(alloc: Global, text: &[u8]) -> Result<EntriesText<'_>, Stop>
    ensures read { IfOk result (λ proof. entries_by text.now ≡ Ok (in_place proof)) }
    ensures stop { IfErr result (λ stop. (stop ≡ Memory) ⊎ (entries_by text.now ≡ Err stop)) }
{
    let left = skip_line(text, Expected::ProofVersion)?;
    let (count, text) = read_number(left, b"entries ", Expected::EntryCount)?;
    let left = skip_entries(text, count)?;
    let (digest_count, left) = read_number(left, b"digests ", Expected::DigestCount)?;
    let (digests, left) = read_digests(alloc, left, digest_count)?;
    check_end(left)?;
    Ok(EntriesText {
        text,
        count,
        digests,
    })
}
