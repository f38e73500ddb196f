//! Runs commands.

ghost use Rattle.std.specs.Prelude.{◌≡◌, ◌⊎◌, Decides, Err, IfErr, List, Ok, OnErr, Result, map, option_map, ℕ};
ghost use Rattle.tlog_files.specs.Entries.{IsFraming};
ghost use Rattle.fohlazu_commands.specs.Commands.{AreNumbers, EndsIn, HasOutcome, HoldsOfInputs, IsWellFormed, IsPrint};
ghost use Rattle.fohlazu_commands.specs.Commands.{bytes_of_parts};
ghost use Rattle.fohlazu_commands.specs.Outcomes.{bytes_in, Gives};
ghost use Rattle.fohlazu_commands.specs.declared.error.Error.{Error};
ghost use Rattle.fohlazu_commands.specs.declared.error.Error.TheVariants.{Write as FailedWrite};

use crate::error::{Error, Source};
use crate::inputs::{read_growth, read_note, read_text};
use crate::join::join;
use crate::prove::{numbers_of, prove};
use crate::prove_consistency::prove_consistency;
use crate::seal::seal;
use crate::verify::{Print, Requested, verify};
use crate::verify_consistency::verify_consistency;
use std::alloc::Global;
use std::io::{Read, Write};
use tlog_files::Framing;
use tlog_text::is_origin;
use whole_writes::write_whole;

/// The most bytes that a block has.
pub const MAX_BLOCK_BYTES: usize = 1 << 30;

/// A command, with the inputs that it reads.
#[derive(Drop)]
pub enum Command<R> {
    /// Prints the checkpoint of a file, or with the origin `PART_ORIGIN` of a part of a file.
    Seal {
        origin: String,
        framing: Framing,
        file: R,
    },
    /// Prints a proof of entries of a file.
    Prove {
        framing: Framing,
        /// The checkpoint of the file, which may have grown since.
        checkpoint: R,
        file: R,
        /// The numbers of the entries, counted from 1; `None` for all entries of the checkpoint.
        numbers: Option<Vec<usize>>,
    },
    /// Prints the entries of a proof that is accepted.
    Verify {
        print: Print,
        checkpoint: R,
        proof: R,
        entries: Requested,
    },
    /// Prints a proof that the file of a new checkpoint begins with the entries of an old one.
    ProveConsistency {
        framing: Framing,
        old: R,
        new: R,
        file: R,
    },
    /// Prints the new checkpoint of such a proof, if it is accepted.
    VerifyConsistency {
        old: R,
        proof: R,
    },
    /// Prints the checkpoint of a file whose parts are sealed.
    Join {
        origin: String,
        parts: Vec<R>,
    },
}

impl<R> Command<R> {
    /// Whether it can be run: the origin passes [`is_origin`], a block has 1 to 2^30 bytes, and given numbers are one
    /// or more, each from 1 on. `Requested::Any` goes with `Print::Lines` alone, `Print::Raw` with exactly one number.
    pub fn is_well_formed(&self) -> bool
        ensures { Decides result (IsWellFormed self.now) }
    {
        match self {
            Command::Seal {
                origin,
                framing,
                ..
            } => is_origin(origin) && is_framing(*framing),
            Command::Prove {
                framing,
                numbers,
                ..
            } => { is_framing(*framing) && numbers.as_deref().is_none_or(are_numbers) }
            Command::Verify { print, entries, .. } => is_print(*print, entries),
            Command::ProveConsistency { framing, .. } => is_framing(*framing),
            Command::VerifyConsistency { .. } => true,
            Command::Join { origin, .. } => is_origin(origin),
        }
    }
}

/// Whether a file may be cut by `framing`: a block has from 1 to 2^30 bytes.
fn is_framing(framing: Framing) -> bool
    ensures { Decides result (IsFraming framing) }
{
    match framing {
        Framing::Lines(_) => true,
        Framing::Blocks(size) => 1 <= size && size <= MAX_BLOCK_BYTES,
    }
}

/// Whether `numbers` may be given as numbers of entries: there is at least one, and each is from 1 on.
fn are_numbers(numbers: &[usize]) -> bool
    ensures { Decides result (AreNumbers numbers.now) }
{
    !numbers.is_empty() && numbers.iter().all(|number| 1 <= *number)
}

/// Whether the entries `requested` may be printed as `print` says.
fn is_print(print: Print, requested: &Requested) -> bool
    ensures { Decides result (IsPrint print requested.now) }
{
    match (print, requested) {
        (Print::Lines, Requested::Numbers(numbers)) => are_numbers(numbers),
        (Print::Lines, _) => true,
        (Print::Blocks(size), Requested::Numbers(numbers)) => {
            are_numbers(numbers) && is_framing(Framing::Blocks(size))
        }
        (Print::Blocks(size), Requested::All) => is_framing(Framing::Blocks(size)),
        (Print::Raw, Requested::Numbers(numbers)) => are_numbers(numbers) && numbers.len() == 1,
        _ => false,
    }
}

/// Runs a command that [`is_well_formed`](Command::is_well_formed): reads its inputs one after another, and writes
/// what it answers.
///
/// # Errors
///
/// The first of these that applies, where `OutOfMemory` may come at any time:
///
/// - for the first checkpoint, proof or part that cannot be read, `Read`. A checkpoint or part of more than 1000000
///   bytes, or a consistency proof of more than 1002860, gives `TooLong`: it is read up to its first byte above;
/// - where all entries of a checkpoint are proved, `Line` for its first wrong line, or `TooManyNumbers` if it has more
///   than `MAX_ENTRIES_PER_PROOF` entries;
/// - those of the command's own call, as [`prove`] for `Command::Prove`;
/// - `Write` if the output cannot be written. After any other error nothing is written.
pub fn run<R: Read + Drop, W: Write>(
    alloc: Global,
    command: Command<R>,
    output: &mut W,
) -> Result<(), Error>
    requires { IsWellFormed command }
    ensures silent { OnErr result ((result ≡ Err FailedWrite) ⊎ (output.new ≡ output.old)) }
    ensures outcome { (outcome : Result (List ℕ) Error) × HasOutcome R.remaining command outcome
        × EndsIn (W.contents output.old) (W.contents output.new) outcome result }
{
    let text = answer(alloc, command)?;
    write_text(output, &text)
}

/// What a command prints. The errors are those of [`run`] but `Write`.
fn answer<R: Read + Drop>(alloc: Global, command: Command<R>) -> Result<Vec<u8>, Error>
    requires { IsWellFormed command }
    ensures { (outcome : Result (List ℕ) Error) × HasOutcome R.remaining command outcome
        × Gives bytes_in result outcome }
{
    match command {
        Command::Seal {
            origin,
            framing,
            mut file,
        } => seal(alloc, &origin, framing, &mut file),
        Command::Prove {
            framing,
            mut checkpoint,
            mut file,
            numbers,
        } => {
            let checkpoint = read_note(alloc, Source::Checkpoint, &mut checkpoint)?;
            let numbers = numbers_of(alloc, numbers, &checkpoint)?;
            prove(alloc, framing, &checkpoint, &numbers, &mut file)
        }
        Command::Verify {
            print,
            mut checkpoint,
            mut proof,
            entries,
        } => {
            let checkpoint = read_note(alloc, Source::Checkpoint, &mut checkpoint)?;
            let proof = read_text(alloc, Source::Proof, &mut proof)?;
            verify(alloc, print, &checkpoint, &proof, &entries)
        }
        Command::ProveConsistency {
            framing,
            mut old,
            mut new,
            mut file,
        } => {
            let old = read_note(alloc, Source::Old, &mut old)?;
            let new = read_note(alloc, Source::New, &mut new)?;
            prove_consistency(alloc, framing, &old, &new, &mut file)
        }
        Command::VerifyConsistency { mut old, mut proof } => {
            let old = read_note(alloc, Source::Old, &mut old)?;
            let proof = read_growth(alloc, &mut proof)?;
            verify_consistency(alloc, &old, &proof)
        }
        Command::Join { origin, parts } => join(alloc, &origin, &read_parts(alloc, parts)?),
    }
}

/// All bytes of each of `parts`, with the errors of [`read_note`].
fn read_parts<R: Read + Drop>(alloc: Global, parts: Vec<R>) -> Result<Vec<Vec<u8>>, Error>
    ensures { HoldsOfInputs (map R.remaining parts.items)
        (λ texts. Gives (λ all. map bytes_in all.items) result (bytes_of_parts 0 texts)) }
{
    let mut texts = Vec::new(alloc);
    for mut part in parts {
        let source = Source::Part(texts.len());
        texts.push(read_note(alloc, source, &mut part)?)?;
    }
    Ok(texts)
}

/// Writes a text, and flushes. `Write` if a write or the flush fails; an interrupted write is tried again.
fn write_text<W: Write>(output: &mut W, text: &[u8]) -> Result<(), Error>
    ensures ends { EndsIn (W.contents output.old) (W.contents output.new) (Ok text.now) result }
    ensures failed { IfErr result (λ error. error ≡ FailedWrite) }
{
    write_whole(output, text).map_err(|_| Error::Write)
}
