//! Verifies proofs of entries.

ghost use Rattle.std.specs.Prelude.{◌≡◌, ◌≤◌, ◌-◌, ◌++◌, ℕ, IfOk, OnOk, Some, flat_map, is_some, map};
ghost use Rattle.sha2.specs.Sha256.{sha256};
ghost use Rattle.p3_answers.specs.Answers.{first_of};
ghost use Rattle.tlog.specs.Rfc9162.{leaf_hash as leaf_hash_by};
ghost use Rattle.tlog.specs.Verdicts.{size_limit};
ghost use Rattle.tlog_text.specs.InPlace.{entries_left, entry_text_fields, in_place};
ghost use Rattle.tlog_text.specs.Texts.{checkpoint_fields};
ghost use Rattle.fohlazu_commands.specs.Inner.{Checks, ChecksUnlessMemory};
ghost use Rattle.fohlazu_commands.specs.Outcomes.{bytes_in, entry_refusal, Gives, is_printable, numbers_in};
ghost use Rattle.fohlazu_commands.specs.Outcomes.{numbers_refusal, printed, proof_refusal, verify_requested};

use crate::error::{Error, Refusal, Source};
use crate::inputs::{parse_checkpoint, parse_entries_text};
use crate::prove::all_numbers;
use crate::sorted::SortedEntries;
use std::alloc::{AllocError, Global};
use tlog_multiproof::verify_ascending;
use tlog_text::{Checkpoint, Entries, EntriesText, EntryText};

/// How entries are printed.
#[derive(Clone, Copy, Debug, PartialEq, Eq)]
pub enum Print {
    /// As lines, each with a line feed; for `Requested::Any` after its number and a tab.
    Lines,
    /// As blocks of so many bytes, one after another. The last of the log may be shorter.
    Blocks(usize),
    /// The bytes of an entry, as they are.
    Raw,
}

/// The entries that are requested of a proof.
#[derive(Drop)]
pub enum Requested {
    /// Those that it has.
    Any,
    /// All of the checkpoint, in their order.
    All,
    /// Those of these numbers, in this order.
    Numbers(Vec<usize>),
}

/// The entries of a proof, as they are printed, if it is accepted under a checkpoint and they are the requested ones.
/// Signatures are not checked.
///
/// # Errors
///
/// The first of these that applies, each within `Refused`, where `OutOfMemory` may come at any time:
///
/// - `Line` for the first wrong line of the checkpoint, then of the proof;
/// - `OtherNumber`, `UnrequestedEntry` or `MissingEntry` where its entries first differ from the requested ones;
/// - `UnprintableEntry` for the first entry that cannot be printed: a line with a line feed inside, or a block of
///   another length;
/// - `Entries` with the verifier's reason.
pub fn verify(
    alloc: Global,
    print: Print,
    checkpoint: &[u8],
    proof: &[u8],
    requested: &Requested,
) -> Result<Vec<u8>, Error>
    ensures { Gives bytes_in result (verify_requested print checkpoint.now proof.now requested.now) }
{
    let checkpoint = parse_checkpoint(Source::Checkpoint, checkpoint)?;
    let proof = parse_entries_text(alloc, proof)?;
    check_requested(alloc, requested, checkpoint.size, &proof)?;
    check_entries(print, checkpoint.size, proof.entries())?;
    check_proof(alloc, &checkpoint, &proof)?;
    Ok(text_of(alloc, print, is_requested(requested), proof.entries())?)
}

/// Whether entries are requested, so that their numbers are compared and not printed.
fn is_requested(requested: &Requested) -> bool
    ensures { (size : ℕ) → result ≡ is_some (numbers_in requested.now size) }
{
    !matches!(requested, Requested::Any)
}

/// Checks that the entries of `proof` are the requested ones, in their order, where the log has `size` entries. The
/// errors are those of [`check_numbers`]; `OutOfMemory` if memory runs out.
fn check_requested(
    alloc: Global,
    requested: &Requested,
    size: usize,
    proof: &EntriesText,
) -> Result<(), Error>
    requires { size ≤ size_limit }
    ensures { ChecksUnlessMemory result
        (numbers_refusal (numbers_in requested.now size) (in_place proof.now).entries) }
{
    match requested {
        Requested::Any => Ok(()),
        Requested::All => {
            // `size` may be 2^62: one number more than the proof has entries is enough to show that one is missing.
            let count = size.min(proof.count.saturating_add(1));
            check_numbers(&all_numbers(alloc, count)?, proof.entries())
        }
        Requested::Numbers(numbers) => check_numbers(numbers, proof.entries()),
    }
}

/// Checks that `entries` have the numbers `numbers`, counted from 1, in their order. For the first that differs:
/// `OtherNumber` if it has another number, `UnrequestedEntry` if it comes after all of `numbers`, `MissingEntry` if the
/// entries end ahead of it.
fn check_numbers(numbers: &[usize], entries: Entries) -> Result<(), Error>
    ensures { Checks result (numbers_refusal (Some numbers.now) (entries_left entries.entry)) }
{
    let mut rest = numbers;
    for entry in entries {
        let got = entry.number;
        let Some((&expected, more)) = rest.split_first() else {
            return Err(Error::Refused(Source::Proof, Refusal::UnrequestedEntry(got)));
        };
        if got != expected {
            return Err(Error::Refused(Source::Proof, Refusal::OtherNumber(got, expected)));
        }
        rest = more;
    }
    if let Some(&expected) = rest.first() {
        return Err(Error::Refused(Source::Proof, Refusal::MissingEntry(expected)));
    }
    Ok(())
}

/// Checks that each of `entries` can be printed as `print` says, else `UnprintableEntry` for the first that cannot. The
/// log has `size` entries.
fn check_entries(print: Print, size: usize, entries: Entries) -> Result<(), Error>
    ensures { Checks result (first_of (entry_refusal print size) (entries_left entries.entry)) }
{
    for entry in entries {
        if !is_printable(print, size, &entry) {
            return Err(Error::Refused(Source::Proof, Refusal::UnprintableEntry(entry.number)));
        }
    }
    Ok(())
}

/// Whether an entry of a log of `size` entries can be printed as `print` says: a line has no line feed inside, and a
/// block its own length, or at most that if it is the last of the log.
fn is_printable(print: Print, size: usize, entry: &EntryText) -> bool
    ensures { result ≡ is_printable print size (entry_text_fields entry.now) }
{
    let len = entry.bytes.len();
    match print {
        Print::Lines => entry.bytes.iter().all(|byte| *byte != b'\n'),
        Print::Blocks(block) if entry.number == size => 1 <= len && len <= block,
        Print::Blocks(block) => len == block,
        Print::Raw => true,
    }
}

/// Checks a proof of entries against the root of a checkpoint, else `Entries` with the verifier's reason; `OutOfMemory`
/// if memory runs out.
fn check_proof(alloc: Global, checkpoint: &Checkpoint, proof: &EntriesText) -> Result<(), Error>
    ensures { ChecksUnlessMemory result
        (proof_refusal (checkpoint_fields checkpoint.now) (in_place proof.now)) }
{
    let sorted = SortedEntries::new(alloc, proof)?;
    let (size, root) = (checkpoint.size, &checkpoint.root);
    Ok(verify_ascending(size, &sorted, &proof.digests, root)?)
}

/// What is printed of `entries`: lines have their numbers ahead unless `is_requested`. `AllocError` if memory runs out.
fn text_of(
    alloc: Global,
    print: Print,
    is_requested: bool,
    entries: Entries,
) -> Result<Vec<u8>, AllocError>
    ensures { IfOk result
        (λ text. text.items ≡ flat_map (printed print is_requested) (entries_left entries.entry)) }
{
    let mut text = Vec::new(alloc);
    for entry in entries {
        push_entry(alloc, &mut text, print, is_requested, &entry)?;
    }
    Ok(text)
}

/// Appends what is printed of an entry: a line has its number ahead unless `is_requested`. `AllocError` if memory runs
/// out.
fn push_entry(
    alloc: Global,
    text: &mut Vec<u8>,
    print: Print,
    is_requested: bool,
    entry: &EntryText,
) -> Result<(), AllocError>
    ensures { OnOk result
        (text.new.items ≡ text.old.items ++ printed print is_requested (entry_text_fields entry.now)) }
{
    if print == Print::Lines && !is_requested {
        let head = format!(in alloc; "{}\t", entry.number)?;
        text.extend_from_slice(head.as_bytes())?;
    }
    text.extend_from_slice(entry.bytes)?;
    if print == Print::Lines {
        text.push(b'\n')?;
    }
    Ok(())
}
