//! The entries of a file whose bytes come piece by piece.

ghost use Rattle.std.specs.Prelude.{◌≡◌, ◌⊎◌, ◌+◌, ◌<◌, ◌≤◌, ◌∷◌, ◌++◌, ℕ, List, [], IfErr, IfOk, OnOk, length};
ghost use Rattle.std.specs.Prelude.{nat_le, take, true, Some};
ghost use Rattle.sha2.specs.Sha256.{sha256};
ghost use Rattle.tlog.specs.Rfc9162.{leaf_hash};
ghost use Rattle.tlog_files.specs.Entries.{entries_in, is_refused, IsFraming};
ghost use Rattle.tlog_files.specs.Inner.Splitting.{AreAll, HasRead, Holds, HoldsOpen, IsAt, IsReady};
ghost use Rattle.tlog_files.specs.Inner.Wanted.{HasPlaces, HoldsWanted};
ghost use Rattle.tlog_files.specs.declared.error.ReadError.TheVariants.{EndsInsideLine, OutOfMemory};

use crate::error::ReadError;
use crate::framing::{Framing, PartialLine};
use crate::wanted::WantedEntries;
use sha2::{Digest, Sha256};
use std::alloc::{AllocError, Global};
use std::mem;
use tlog_tree::leaf_hashes;

/// The entry that has begun and not ended. Its bytes are hashed as they come, so that it may have any length.
#[derive(Drop)]
struct OpenEntry {
    /// Has read a byte 0 and the bytes so far.
    hasher: Sha256,
    /// How many bytes there are so far, up to `usize::MAX`.
    len: usize,
}

impl OpenEntry {
    /// An entry without bytes so far.
    fn new() -> OpenEntry
        ensures { HoldsOpen result [] }
    {
        let mut hasher = Sha256::new();
        hasher.update(&[0]);
        OpenEntry { hasher, len: 0 }
    }

    /// Adds `more`, the next bytes of the entry.
    fn push(&mut self, more: &[u8])
        ensures { (bytes : List ℕ) → HoldsOpen self.old bytes → HoldsOpen self.new (bytes ++ more.now) }
    {
        self.hasher.update(more);
        self.len = self.len.saturating_add(more.len());
    }
}

/// The entries of a file, as far as its bytes have come.
#[derive(Drop)]
pub(crate) struct Splitter<'a> {
    framing: Framing,
    /// How many entries are read at most. What follows them is left out.
    limit: usize,
    /// How many have ended.
    count: usize,
    /// The one that has not ended.
    open_entry: OpenEntry,
    /// The entries that are wanted, as far as they have come.
    pub(crate) wanted: WantedEntries<'a>,
}

impl<'a> Splitter<'a> {
    /// A splitter ahead of a file, of which it reads at most `limit` entries. A block must have from 1 to 2^30 bytes.
    pub(crate) fn new(framing: Framing, limit: usize, wanted: WantedEntries<'a>) -> Splitter<'a>
        requires { IsFraming framing }
        ensures unchanged { (result.framing ≡ framing) × (result.limit ≡ limit) }
        ensures ready { (indices : List ℕ) → HasPlaces wanted.entry → HoldsWanted wanted.entry indices [] [] →
            IsReady result }
        ensures at { (indices : List ℕ) → HoldsWanted wanted.entry indices [] [] → IsAt indices result [] [] }
    {
        Splitter {
            framing,
            limit,
            count: 0,
            open_entry: OpenEntry::new(),
            wanted,
        }
    }

    /// Whether `limit` entries have ended, so that no more are read.
    pub(crate) fn is_full(&self) -> bool
        ensures { result ≡ nat_le self.now.limit self.now.count }
    {
        self.count >= self.limit
    }

    /// Reads whole entries from the head of `bytes`, the next of the file, or bytes of one entry: at least one byte.
    /// Returns the leaf hashes of the entries that end in what it read, and the bytes that are left. `bytes` must not
    /// be empty, and the splitter not full. After an error, `AllocError` if memory runs out, it must not be used.
    pub(crate) fn read<'b>(
        &mut self,
        alloc: Global,
        bytes: &'b [u8],
    ) -> Result<(Vec<[u8; 32]>, &'b [u8]), AllocError>
        requires ready { IsReady self.old }
        requires some { 0 < length bytes.now }
        requires room { self.old.count < self.old.limit }
        ensures ready { OnOk result (IsReady self.new) }
        ensures unchanged { OnOk result ((self.new.framing ≡ self.old.framing) × (self.new.limit ≡ self.old.limit)) }
        ensures fewer { IfOk result (λ (hashes, rest). length rest.now < length bytes.now) }
        ensures read { (wanted front : List ℕ) (ended : List (List ℕ)) → IsAt wanted self.old front ended →
            IfOk result (λ (hashes, rest). HasRead wanted self.new front ended bytes.now rest.now hashes.items) }
    {
        if self.open_entry.len == 0 {
            let most = self.limit.saturating_sub(self.count);
            let (entries, rest) = self.framing.entries_at_head(alloc, most, bytes)?;
            if !entries.is_empty() {
                self.wanted.copy(alloc, self.count, &entries)?;
                self.count += entries.len();
                return Ok((leaf_hashes(alloc, &entries)?, rest));
            }
        }
        match self.framing.split_at_end(self.open_entry.len, bytes) {
            Some((more, rest)) => {
                self.open_entry.push(more);
                self.wanted.push(self.count, more)?;
                Ok((self.end(alloc)?, rest))
            }
            None => {
                self.open_entry.push(bytes);
                self.wanted.push(self.count, bytes)?;
                Ok((Vec::new(alloc), &bytes[bytes.len()..]))
            }
        }
    }

    /// Ends the open entry, and returns its leaf hash alone. `AllocError` if memory runs out.
    fn end(&mut self, alloc: Global) -> Result<Vec<[u8; 32]>, AllocError>
        requires places { HasPlaces self.old.wanted }
        requires room { self.old.count < self.old.limit }
        ensures places { OnOk result (HasPlaces self.new.wanted) }
        ensures unchanged { OnOk result ((self.new.framing ≡ self.old.framing) × (self.new.limit ≡ self.old.limit)) }
        ensures holds { (wanted : List ℕ) (ended : List (List ℕ)) (bytes : List ℕ) →
            Holds wanted self.old ended bytes →
            IfOk result (λ hashes. Holds wanted self.new (ended ++ bytes ∷ []) []
            × (hashes.items ≡ leaf_hash sha256 bytes ∷ [])) }
    {
        let entry = mem::replace(&mut self.open_entry, OpenEntry::new());
        self.wanted.end(alloc, self.count)?;
        self.count += 1;
        Ok(vec![in alloc; entry.hasher.finalize()]?)
    }

    /// Ends the file, or what is read of it. Returns the leaf hash of a last entry that ends with the file, if there is
    /// one. `EndsInsideLine` if an entry has begun and a partial line is refused; `OutOfMemory` if memory runs out.
    pub(crate) fn end_file(&mut self, alloc: Global) -> Result<Vec<[u8; 32]>, ReadError>
        requires { HasPlaces self.old.wanted }
        ensures all { (wanted front rest : List ℕ) (ended : List (List ℕ)) → IsAt wanted self.old front ended →
            (rest ≡ []) ⊎ (self.old.limit ≤ self.old.count) →
            IfOk result (λ hashes.
            AreAll wanted self.new.wanted self.old.framing self.old.limit ended (front ++ rest) hashes.items) }
        ensures refused { (wanted front rest : List ℕ) (ended : List (List ℕ)) → IsAt wanted self.old front ended →
            (rest ≡ []) ⊎ (self.old.limit ≤ self.old.count) →
            IfErr result (λ e. (e ≡ OutOfMemory) ⊎ ((e ≡ EndsInsideLine)
            × (is_refused self.old.framing (Some self.old.limit) (front ++ rest) ≡ true)
            × (take self.old.limit (entries_in self.old.framing (front ++ rest)) ≡ ended))) }
    {
        if self.is_full() || self.open_entry.len == 0 {
            return Ok(Vec::new(alloc));
        }
        match self.framing.partial() {
            PartialLine::Refuse => Err(ReadError::EndsInsideLine),
            PartialLine::LeaveOut => Ok(Vec::new(alloc)),
            PartialLine::Include => Ok(self.end(alloc)?),
        }
    }
}
