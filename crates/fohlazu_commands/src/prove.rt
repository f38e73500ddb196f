//! Proves entries of a file.

ghost use Rattle.std.specs.Prelude.{◌≡◌, ℕ, ◌-◌, ◌≤◌, List, length, All, Err, IfOk, IfSome, map, option_map, zip};
ghost use Rattle.p3_answers.specs.Answers.{first_of};
ghost use Rattle.tlog.specs.Verdicts.{size_limit};
ghost use Rattle.tlog_multiproof.specs.Entries.{proof_nodes};
ghost use Rattle.tlog_files.specs.Entries.{IsFraming, entry_at, wanted_of};
ghost use Rattle.tlog_text.specs.Texts.{checkpoint_fields, entries_text, entry_fields};
ghost use Rattle.fohlazu_commands.specs.{Commands.AreNumbers, Commands.HoldsOfInput};
ghost use Rattle.fohlazu_commands.specs.Inner.{Checks, entry_of, HasEntries};
ghost use Rattle.fohlazu_commands.specs.Outcomes.{all_numbers, and_then, bytes_from, bytes_in, checkpoint_with, Gives};
ghost use Rattle.fohlazu_commands.specs.Outcomes.{number_refusal, numbers_under, proof_over, prove_under};
ghost use Rattle.fohlazu_commands.specs.declared.error.Error.{Error};
ghost use Rattle.fohlazu_commands.specs.declared.error.Source.TheVariants.{File};

use crate::error::{Error, Refusal, Source};
use crate::inputs::{digests_of, parse_checkpoint, read_file_under};
use std::alloc::{AllocError, Global};
use std::io::Read;
use tlog_files::{Framing, ReadLog};
use tlog_multiproof::entry_nodes;
use tlog_text::{Checkpoint, EntriesProof, Entry};

/// The most entries that `run` proves where no numbers are given, and the most numbers that `fohlazu` takes.
pub const MAX_ENTRIES_PER_PROOF: usize = 100_000_000;

/// The proof of the entries `numbers` of a file under its checkpoint: one or more, counted from 1, in any order, also
/// repeated. The proof has them in that order. The file may have grown: of it as many entries are read as the
/// checkpoint has, in one pass.
///
/// # Errors
///
/// The first of these that applies, where `OutOfMemory` may come at any time. All but `Read` come within `Refused`,
/// with the input that is refused.
///
/// - `Line` for the first wrong line of the checkpoint;
/// - `NumberPastEnd` for the first number that the checkpoint does not have. The file is then not read.
/// - `Read` if the file cannot be read;
/// - `EndsInsideLine` if the file ends inside a line, ahead of the last entry of the checkpoint, and `framing` refuses
///   that;
/// - `TooFewEntries` if the file has fewer entries than the checkpoint;
/// - `OtherEntries` if its first entries, as many as the checkpoint has, have another root.
pub fn prove<R: Read>(
    alloc: Global,
    framing: Framing,
    checkpoint: &[u8],
    numbers: &[usize],
    file: &mut R,
) -> Result<Vec<u8>, Error>
    requires framing { IsFraming framing }
    requires numbers { AreNumbers numbers.now }
    ensures answer { HoldsOfInput (R.remaining file.old) (λ input. Gives bytes_in result
        (and_then (checkpoint_with checkpoint.now numbers.now) (λ c.
        and_then (bytes_from File input) (prove_under framing c numbers.now)))) }
    ensures unread { (error : Error) → checkpoint_with checkpoint.now numbers.now ≡ Err error → file.new ≡ file.old }
{
    let checkpoint = checkpoint_with(checkpoint, numbers)?;
    prove_under(alloc, framing, &checkpoint, numbers, file)
}

/// `numbers`, if it is given; else the numbers of all entries of the checkpoint, counted from 1.
///
/// # Errors
///
/// Where no numbers are given: `Line` for the first wrong line of the checkpoint, else `TooManyNumbers` if it has more
/// than `MAX_ENTRIES_PER_PROOF` entries. `OutOfMemory` may come at any time.
pub(crate) fn numbers_of(
    alloc: Global,
    numbers: Option<Vec<usize>>,
    checkpoint: &[u8],
) -> Result<Vec<usize>, Error>
    requires { IfSome (option_map (λ ns. ns.items) numbers) AreNumbers }
    ensures answer { Gives (λ ns. ns.items) result
        (numbers_under (option_map (λ ns. ns.items) numbers) checkpoint.now) }
    ensures numbers { IfOk result (λ ns. AreNumbers ns.items) }
{
    if let Some(numbers) = numbers {
        return Ok(numbers);
    }
    let checkpoint = parse_checkpoint(Source::Checkpoint, checkpoint)?;
    if checkpoint.size > MAX_ENTRIES_PER_PROOF {
        return Err(Error::Refused(Source::Checkpoint, Refusal::TooManyNumbers));
    }
    Ok(all_numbers(alloc, checkpoint.size)?)
}

/// The numbers of all entries of a log of `size` entries, at most 2^62, from 1 on. A log of none gives number 1, which
/// is then refused. `AllocError` if memory runs out.
pub(crate) fn all_numbers(alloc: Global, size: usize) -> Result<Vec<usize>, AllocError>
    requires { size ≤ size_limit }
    ensures { IfOk result (λ numbers. (numbers.items ≡ all_numbers size) × AreNumbers numbers.items) }
{
    (1..size.max(1) + 1).collect(alloc)
}

/// The checkpoint that `text` says, which must have the entries `numbers`, counted from 1: `Line` for the first wrong
/// line of `text`, else `NumberPastEnd` for the first number whose entry the checkpoint does not have.
fn checkpoint_with<'a>(text: &'a [u8], numbers: &[usize]) -> Result<Checkpoint<'a>, Error>
    ensures checkpoint { Gives checkpoint_fields result (checkpoint_with text.now numbers.now) }
    ensures numbers { IfOk result (λ c. All (λ number. number ≤ c.size) numbers.now) }
    ensures limit { IfOk result (λ c. c.size ≤ size_limit) }
{
    let checkpoint = parse_checkpoint(Source::Checkpoint, text)?;
    check_numbers(checkpoint.size, numbers)?;
    Ok(checkpoint)
}

/// Checks that a log of `size` entries has each of the entries `numbers`, counted from 1. `NumberPastEnd` for the first
/// that it has not.
fn check_numbers(size: usize, numbers: &[usize]) -> Result<(), Error>
    ensures { Checks result (first_of (number_refusal size) numbers.now) }
{
    for &number in numbers {
        if number > size {
            return Err(Error::Refused(Source::Checkpoint, Refusal::NumberPastEnd { number, size }));
        }
    }
    Ok(())
}

/// The text of the proof of the entries `numbers`, counted from 1, under a checkpoint that has them. The errors are
/// those of [`read_file_under`].
fn prove_under<R: Read>(
    alloc: Global,
    framing: Framing,
    checkpoint: &Checkpoint,
    numbers: &[usize],
    file: &mut R,
) -> Result<Vec<u8>, Error>
    requires framing { IsFraming framing }
    requires numbers { AreNumbers numbers.now }
    requires inside { All (λ number. number ≤ checkpoint.now.size) numbers.now }
    requires limit { checkpoint.now.size ≤ size_limit }
    ensures { HoldsOfInput (R.remaining file.old) (λ input. Gives bytes_in result
        (and_then (bytes_from File input) (prove_under framing (checkpoint_fields checkpoint.now) numbers.now))) }
{
    let indices: Vec<usize> = numbers.iter().map(|n| n.saturating_sub(1)).collect(alloc)?;
    let nodes = entry_nodes(alloc, &indices, checkpoint.size)?;
    let log = read_file_under(alloc, framing, checkpoint, &nodes, &indices, file)?;
    drop(nodes);
    Ok(text_of(alloc, numbers, log)?)
}

/// The text of the proof of the entries `numbers`, counted from 1, of which `log` has the bytes and the digests.
/// `AllocError` if memory runs out.
fn text_of(alloc: Global, numbers: &[usize], log: ReadLog) -> Result<Vec<u8>, AllocError>
    ensures { IfOk result (λ text. (entries : List (List ℕ)) → let indices = map (λ n. n - 1) numbers.now in
        HasEntries (proof_nodes (length entries) indices) indices entries log →
        wanted_of entries indices ≡ map (entry_at entries) indices →
        text.items ≡ entries_text (proof_over entries numbers.now)) }
{
    let ReadLog { tree, entries } = log;
    let digests = digests_of(alloc, tree)?;
    let entries = numbered(alloc, numbers, entries)?;
    EntriesProof { entries, digests }.to_text(alloc)
}

/// The entries of the numbers `numbers`, counted from 1, with the bytes `bytes`, one for each. `AllocError` if memory
/// runs out.
fn numbered(alloc: Global, numbers: &[usize], bytes: Vec<Vec<u8>>) -> Result<Vec<Entry>, AllocError>
    ensures { IfOk result (λ numbered. map entry_fields numbered.items
        ≡ map entry_of (zip numbers.now (map bytes_in bytes.items))) }
{
    let mut numbered = Vec::with_capacity(alloc, numbers.len())?;
    for (&number, bytes) in numbers.iter().zip(bytes) {
        numbered.push(Entry { number, bytes })?;
    }
    Ok(numbered)
}
