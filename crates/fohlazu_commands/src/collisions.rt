//! What accepted texts show of files, or else a collision of SHA-256.

ghost use Rattle.std.specs.Prelude.{◌≡◌, ◌⊎◌, ◌↔◌, ◌-◌, ℕ, List, [], All, IfErr, IfOk, IfSome, IsNone, Err, None, Ok};
ghost use Rattle.std.specs.Prelude.{map};
ghost use Rattle.sha2.specs.Sha256.{sha256};
ghost use Rattle.tlog.specs.Collisions.{IsCollision, entries_of};
ghost use Rattle.tlog.specs.Rfc9162.{leaf_hash as leaf_hash_by};
ghost use Rattle.tlog_files.specs.Entries.{IsFraming};
ghost use Rattle.tlog_text.specs.Texts.{checkpoint_fields, entries_fields, entry_fields};
ghost use Rattle.fohlazu_commands.specs.Collisions.{AreEntriesOfFile, BeginsWithOldFile, IsCheckpointOfFile, IsEntryOf};
ghost use Rattle.fohlazu_commands.specs.Inner.{AreProved, HasLeafIn, ReadsAs, entries_by};
ghost use Rattle.fohlazu_commands.specs.Outcomes.{Gives, entries_under, verify_consistency_outcome, verify_outcome};
ghost use Rattle.fohlazu_commands.specs.declared.error.Error.TheVariants.{OutOfMemory};
ghost use Rattle.fohlazu_commands.specs.declared.verify.Print.TheVariants.{Raw};

use crate::error::{Error, Source};
use crate::inputs::{
    parse_checkpoint, parse_consistency_proof, parse_entries_proof, read_file_under,
};
use crate::verify::{Print, Requested, verify};
use crate::verify_consistency::verify_consistency;
use sha2::Sha256;
use std::alloc::{AllocError, Global};
use tlog::collision::{Collision, leaf_input};
use tlog::{leaf_hash, prefix_collision};
use tlog_files::{Framing, ReadLog};
use tlog_multiproof::entries_collision;
use tlog_text::{Checkpoint, EntriesProof, Entry};

/// A collision, if `verify` prints entries of a proof under the checkpoint of a file, and one of them is not the file's
/// entry of its number; else `None`. The file, whose entries are copied, may have grown since it was sealed.
///
/// # Errors
///
/// The first of these that applies, where `OutOfMemory` may come at any time:
///
/// - those of `verify` as it prints raw bytes of the entries that the proof has;
/// - `EndsInsideLine`, `TooFewEntries` or `OtherEntries` if the checkpoint is not of the file.
pub fn file_entries_collision(
    alloc: Global,
    framing: Framing,
    file: &[u8],
    checkpoint: &[u8],
    proof: &[u8],
) -> Result<Option<Collision>, Error>
    requires { IsFraming framing }
    ensures none { IfOk result (λ found. IsNone found ↔ AreEntriesOfFile framing file.now checkpoint.now proof.now) }
    ensures collision { IfOk result (λ found. IfSome found (IsCollision sha256)) }
    ensures refused { IfErr result (λ error. (error ≡ OutOfMemory)
        ⊎ ((verify_outcome Raw checkpoint.now proof.now None ≡ Err error)
        ⊎ (IsCheckpointOfFile framing file.now checkpoint.now → ⊥))) }
{
    verify(alloc, Print::Raw, checkpoint, proof, &Requested::Any)?;
    let entries = read_entries_under(alloc, Source::Checkpoint, framing, checkpoint, file)?;
    let proof = parse_entries_proof(alloc, proof)?;
    Ok(proved_collision(alloc, &entries, &proof)?)
}

/// A collision, if `verify_consistency` prints a checkpoint of a new file, and the file does not begin with the entries
/// of the old checkpoint, which is of an old file; else `None`. Both files, whose entries are copied, may have grown
/// since they were sealed.
///
/// # Errors
///
/// The first of these that applies, where `OutOfMemory` may come at any time:
///
/// - those of `verify_consistency`;
/// - `EndsInsideLine`, `TooFewEntries` or `OtherEntries` if the old checkpoint is not of the old file;
/// - the same if the new checkpoint is not of the new file.
pub fn file_prefix_collision(
    alloc: Global,
    framing: Framing,
    old_file: &[u8],
    new_file: &[u8],
    old: &[u8],
    proof: &[u8],
) -> Result<Option<Collision>, Error>
    requires { IsFraming framing }
    ensures none { IfOk result (λ found. IsNone found
        ↔ BeginsWithOldFile framing old_file.now new_file.now old.now proof.now) }
    ensures collision { IfOk result (λ found. IfSome found (IsCollision sha256)) }
    ensures refused { IfErr result (λ error. (error ≡ OutOfMemory)
        ⊎ ((verify_consistency_outcome old.now proof.now ≡ Err error)
        ⊎ ((new : List ℕ) → verify_consistency_outcome old.now proof.now ≡ Ok new →
        IsCheckpointOfFile framing old_file.now old.now → IsCheckpointOfFile framing new_file.now new → ⊥))) }
{
    let new = verify_consistency(alloc, old, proof)?;
    let old_entries = read_entries_under(alloc, Source::Old, framing, old, old_file)?;
    let new_entries = read_entries_under(alloc, Source::Proof, framing, &new, new_file)?;
    let proof = parse_consistency_proof(alloc, proof)?;
    Ok(prefix_collision::<Sha256, 32>(alloc, &old_entries, &new_entries, &proof.digests)?)
}

/// All entries of the file with the bytes `file`, under the checkpoint with the text `checkpoint`. `Line` of `source`
/// for the checkpoint's first wrong line; else `EndsInsideLine`, `TooFewEntries` or `OtherEntries` if the checkpoint is
/// not of the file. `OutOfMemory` may come at any time.
fn read_entries_under(
    alloc: Global,
    source: Source,
    framing: Framing,
    checkpoint: &[u8],
    file: &[u8],
) -> Result<Vec<Vec<u8>>, Error>
    requires { IsFraming framing }
    ensures { Gives (λ entries. entries_of entries.items) result (entries_by source framing checkpoint.now file.now) }
{
    let checkpoint = parse_checkpoint(source, checkpoint)?;
    // The first pass shows that the file has so many entries, before memory is taken for them.
    read_bytes(alloc, framing, &checkpoint, &[], file)?;
    let indices: Vec<usize> = (0..checkpoint.size).collect(alloc)?;
    let log = read_bytes(alloc, framing, &checkpoint, &indices, file)?;
    Ok(log.entries)
}

/// Reads the log of a checkpoint from `file`, the bytes of its file, with the entries at the indices `wanted`, counted
/// from 0. The errors are those of [`read_file_under`] without `Read`.
fn read_bytes(
    alloc: Global,
    framing: Framing,
    checkpoint: &Checkpoint,
    wanted: &[usize],
    file: &[u8],
) -> Result<ReadLog, Error>
    requires { IsFraming framing }
    ensures { ReadsAs [] wanted.now result (entries_under framing (checkpoint_fields checkpoint.now) file.now) }
{
    let mut rest = file;
    match read_file_under(alloc, framing, checkpoint, &[], wanted, &mut rest) {
        // Bytes in memory are always read.
        Err(Error::Read(_)) => Err(Error::OutOfMemory),
        result => result,
    }
}

/// The index of each of `entries`, counted from 0. `AllocError` if memory runs out.
fn indices_of(alloc: Global, entries: &[Entry]) -> Result<Vec<usize>, AllocError>
    ensures { IfOk result (λ indices. indices.items ≡ map (λ e. e.number - 1) (map entry_fields entries.now)) }
{
    entries
        .iter()
        .map(|entry| entry.number.saturating_sub(1))
        .collect(alloc)
}

/// The leaf hash of each of `entries`. `AllocError` if memory runs out.
fn leaves_of(alloc: Global, entries: &[Entry]) -> Result<Vec<[u8; 32]>, AllocError>
    ensures { IfOk result
        (λ leaves. leaves.items ≡ map (λ e. leaf_hash_by sha256 e.bytes) (map entry_fields entries.now)) }
{
    let mut leaves = Vec::with_capacity(alloc, entries.len())?;
    for entry in entries {
        leaves.push(leaf_hash(&entry.bytes))?;
    }
    Ok(leaves)
}

/// A collision, if one of the entries of `proof`, which must be accepted under the root of `entries`, is not the one of
/// its number, counted from 1, among `entries`; else `None`. `AllocError` if memory runs out.
fn proved_collision(
    alloc: Global,
    entries: &[Vec<u8>],
    proof: &EntriesProof,
) -> Result<Option<Collision>, AllocError>
    requires { AreProved (entries_of entries.now) (entries_fields proof.now) }
    ensures none { IfOk result (λ found. IsNone found
        ↔ All (IsEntryOf (entries_of entries.now)) (map entry_fields proof.now.entries.items)) }
    ensures collision { IfOk result (λ found. IfSome found (IsCollision sha256)) }
{
    let indices = indices_of(alloc, &proof.entries)?;
    let leaves = leaves_of(alloc, &proof.entries)?;
    let found = entries_collision::<Sha256>(alloc, entries, &indices, &leaves, &proof.digests)?;
    if found.is_some() {
        return Ok(found);
    }
    bytes_collision(alloc, entries, &proof.entries)
}

/// A collision, if one of `proved` is not the one of its number, counted from 1, among `entries`, whose leaf hash it
/// must have; else `None`. `AllocError` if memory runs out.
fn bytes_collision(
    alloc: Global,
    entries: &[Vec<u8>],
    proved: &[Entry],
) -> Result<Option<Collision>, AllocError>
    requires { All (HasLeafIn (entries_of entries.now)) (map entry_fields proved.now) }
    ensures none { IfOk result (λ found. IsNone found
        ↔ All (IsEntryOf (entries_of entries.now)) (map entry_fields proved.now)) }
    ensures collision { IfOk result (λ found. IfSome found (IsCollision sha256)) }
{
    for entry in proved {
        let found = entry_collision(alloc, &entry.bytes, &entries[entry.number - 1])?;
        if found.is_some() {
            return Ok(found);
        }
    }
    Ok(None)
}

/// A collision, if the entries `entry` and `other`, which must have one leaf hash, are different; else `None`.
/// `AllocError` if memory runs out.
fn entry_collision(
    alloc: Global,
    entry: &[u8],
    other: &[u8],
) -> Result<Option<Collision>, AllocError>
    requires { leaf_hash_by sha256 entry.now ≡ leaf_hash_by sha256 other.now }
    ensures none { IfOk result (λ found. IsNone found ↔ (entry.now ≡ other.now)) }
    ensures collision { IfOk result (λ found. IfSome found (IsCollision sha256)) }
{
    if entry == other {
        return Ok(None);
    }
    let first = leaf_input(alloc, entry)?;
    let second = leaf_input(alloc, other)?;
    Ok(Some(Collision { first, second }))
}
