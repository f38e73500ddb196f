//! Inputs: files that are read in one pass, and texts that are read whole. A call that takes an allocator may answer
//! that memory ran out.

ghost use Rattle.std.specs.Prelude.{◌≡◌, ◌⊎◌, ℕ, ◌≤◌, ◌<◌, ◌^◌, List, Err, IfErr, IfOk, Some, length};
ghost use Rattle.sha2.specs.Sha256.{sha256};
ghost use Rattle.tlog.specs.Rfc9162.{root_of};
ghost use Rattle.tlog.specs.Verdicts.{size_limit};
ghost use Rattle.tlog_files.specs.Entries.{IsFraming};
ghost use Rattle.tlog_text.specs.InPlace.{in_place};
ghost use Rattle.tlog_text.specs.Reading.{checkpoint_in, consistency_in, entries_in};
ghost use Rattle.tlog_text.specs.Texts.{checkpoint_fields, consistency_fields, entries_fields};
ghost use Rattle.tlog_tree.specs.Builders.{IsBuilderOf};
ghost use Rattle.tlog_tree.specs.Trees.{all_there, values_at};
ghost use Rattle.tlog_tree.specs.declared.node_id.NodeId.{NodeId};
ghost use Rattle.fohlazu_commands.specs.Commands.{growth_from, note_from, limited_from, HoldsOfInput, IsReadAs};
ghost use Rattle.fohlazu_commands.specs.Commands.{max_growth_bytes, max_note_bytes};
ghost use Rattle.fohlazu_commands.specs.Inner.{Checks, HasEntries, ReadsAs};
ghost use Rattle.fohlazu_commands.specs.Outcomes.{and_then, bytes_from, entries_read, entries_under, Gives};
ghost use Rattle.fohlazu_commands.specs.Outcomes.{growth_refusal};
ghost use Rattle.fohlazu_commands.specs.Outcomes.{said_by, tree_refusal};
ghost use Rattle.fohlazu_commands.specs.declared.error.Error.TheVariants.{OutOfMemory, Read as FailedRead};
ghost use Rattle.fohlazu_commands.specs.declared.error.Source.TheVariants.{File, Proof};

use crate::error::{Error, Refusal, Source, text_error};
use std::alloc::{AllocError, Global};
use std::io::{ErrorKind, Read};
use tlog_files::{Framing, ReadError, ReadLog, read_log, read_up_to};
use tlog_text::{Checkpoint, ConsistencyProof, EntriesProof, EntriesText};
use tlog_tree::{NodeId, TreeBuilder};

/// The most bytes that a checkpoint or a part has.
const MAX_NOTE_BYTES: usize = 1_000_000;

/// The most bytes that a consistency proof has: a line of 24 for the old size, 63 lines of 45 for digests, a blank
/// line, and a checkpoint.
const MAX_GROWTH_BYTES: usize = 1_002_860;

/// Reads the first `limit` entries of a file, or all, with the values of the nodes `nodes` and the bytes of the entries
/// at the indices `wanted`, counted from 0. The errors are those of [`read_log`], with the file as their source.
pub(crate) fn read_file<R: Read>(
    alloc: Global,
    framing: Framing,
    limit: Option<usize>,
    nodes: &[NodeId],
    wanted: &[usize],
    file: &mut R,
) -> Result<ReadLog, Error>
    requires { IsFraming framing }
    ensures { HoldsOfInput (R.remaining file.old) (λ input.
        ReadsAs nodes.now wanted.now result (and_then (bytes_from File input) (entries_read framing limit))) }
{
    Ok(read_log(alloc, framing, limit, nodes, wanted, file)?)
}

/// Reads the first entries of a file, as [`read_file`] does, as many as its checkpoint has. The errors are those of
/// [`read_file`]; then `TooFewEntries` if the file has fewer entries, else `OtherEntries` if they have another root.
pub(crate) fn read_file_under<R: Read>(
    alloc: Global,
    framing: Framing,
    checkpoint: &Checkpoint,
    nodes: &[NodeId],
    wanted: &[usize],
    file: &mut R,
) -> Result<ReadLog, Error>
    requires { IsFraming framing }
    ensures { HoldsOfInput (R.remaining file.old) (λ input. ReadsAs nodes.now wanted.now result
        (and_then (bytes_from File input) (entries_under framing (checkpoint_fields checkpoint.now)))) }
{
    let log = read_file(alloc, framing, Some(checkpoint.size), nodes, wanted, file)?;
    let (size, root) = size_and_root(&log);
    check_tree(checkpoint, size, &root)?;
    Ok(log)
}

/// How many entries were read, and their root.
pub(crate) fn size_and_root(log: &ReadLog) -> (usize, [u8; 32])
    ensures { (nodes : List NodeId) (wanted : List ℕ) (entries : List (List ℕ)) →
        HasEntries nodes wanted entries log.now → result ≡ (length entries, root_of sha256 entries) }
{
    let frontier = log.tree.frontier();
    (frontier.size(), frontier.root())
}

/// Checks that `size` entries under `root`, the first ones of a file, are those of the checkpoint: `TooFewEntries` if
/// the checkpoint has another size, which is then greater, since no more entries are read; else `OtherEntries` if the
/// roots differ.
fn check_tree(checkpoint: &Checkpoint, size: usize, root: &[u8; 32]) -> Result<(), Error>
    ensures { Checks result (tree_refusal (checkpoint_fields checkpoint.now) size root.now) }
{
    let (got, expected) = (size, checkpoint.size);
    if got != expected {
        return Err(Error::Refused(Source::File, Refusal::TooFewEntries { got, expected }));
    }
    if *root != checkpoint.root {
        return Err(Error::Refused(Source::File, Refusal::OtherEntries));
    }
    Ok(())
}

/// The values of the wanted nodes of a tree, in the order in which they were wanted, without those that are not there.
/// `AllocError` if memory runs out.
pub(crate) fn digests_of(alloc: Global, tree: TreeBuilder) -> Result<Vec<[u8; 32]>, AllocError>
    ensures { IfOk result (λ digests. (leaves : List (List ℕ)) (nodes : List NodeId) (all : List (List ℕ)) →
        IsBuilderOf leaves nodes tree → values_at sha256 leaves nodes ≡ all_there all → digests.items ≡ all) }
{
    let values = tree.values(alloc)?;
    drop(tree);
    let mut digests = Vec::with_capacity(alloc, values.len())?;
    for value in &values {
        if let Some(digest) = value {
            digests.push(*digest)?;
        }
    }
    Ok(digests)
}

/// All bytes of an input, from where it stands. `Read` of `source` if a read fails, `OutOfMemory` if memory runs out.
pub(crate) fn read_text<R: Read>(
    alloc: Global,
    source: Source,
    input: &mut R,
) -> Result<Vec<u8>, Error>
    ensures bytes { IfOk result (λ bytes. IsReadAs (R.remaining input.old) (Some bytes.items)) }
    ensures failed { IfErr result (λ error. (error ≡ OutOfMemory) ⊎ (error ≡ FailedRead source)) }
{
    let mut bytes = Vec::new(alloc);
    match input.read_to_end(&mut bytes) {
        Ok(_) => {
            // Room for up to as many bytes again would be held as long as the text.
            bytes.shrink_to_fit();
            Ok(bytes)
        }
        Err(error) if error.kind() == ErrorKind::OutOfMemory => Err(Error::OutOfMemory),
        Err(_) => Err(Error::Read(source)),
    }
}

/// All bytes of an input, from where it stands, if there are at most `limit`. Nothing after the first byte above is
/// read. `Read` of `source` if a read fails, `TooLong` if there are more bytes, `OutOfMemory` if memory runs out.
#[tactic(auto, using(crate::proofs::RunFacts::read_whole))]
fn read_limited<R: Read>(
    alloc: Global,
    source: Source,
    limit: usize,
    input: &mut R,
) -> Result<Vec<u8>, Error>
    requires { limit < 2 ^ 62 }
    ensures bytes { IfOk result
        (λ bytes. IsReadAs (R.remaining input.old) (Some bytes.items) × (length bytes.items ≤ limit)) }
    ensures failed { IfErr result (λ error. (error ≡ OutOfMemory)
        ⊎ HoldsOfInput (R.remaining input.old) (λ all. limited_from source limit all ≡ Err error)) }
{
    let bytes = match read_up_to(alloc, limit, input) {
        Ok(bytes) => bytes,
        Err(ReadError::OutOfMemory) => return Err(Error::OutOfMemory),
        Err(_) => return Err(Error::Read(source)),
    };
    if bytes.len() > limit {
        return Err(Error::Refused(source, Refusal::TooLong(limit)));
    }
    Ok(bytes)
}

/// The bytes of a checkpoint or a part, with the errors of [`read_limited`].
pub(crate) fn read_note<R: Read>(
    alloc: Global,
    source: Source,
    input: &mut R,
) -> Result<Vec<u8>, Error>
    ensures bytes { IfOk result
        (λ bytes. IsReadAs (R.remaining input.old) (Some bytes.items) × (length bytes.items ≤ max_note_bytes)) }
    ensures failed { IfErr result (λ error. (error ≡ OutOfMemory)
        ⊎ HoldsOfInput (R.remaining input.old) (λ all. note_from source all ≡ Err error)) }
{
    read_limited(alloc, source, MAX_NOTE_BYTES, input)
}

/// The bytes of a consistency proof, with the errors of [`read_limited`].
pub(crate) fn read_growth<R: Read>(alloc: Global, input: &mut R) -> Result<Vec<u8>, Error>
    ensures bytes { IfOk result
        (λ bytes. IsReadAs (R.remaining input.old) (Some bytes.items) × (length bytes.items ≤ max_growth_bytes)) }
    ensures failed { IfErr result (λ error. (error ≡ OutOfMemory)
        ⊎ HoldsOfInput (R.remaining input.old) (λ all. growth_from all ≡ Err error)) }
{
    read_limited(alloc, Source::Proof, MAX_GROWTH_BYTES, input)
}

/// Parses a checkpoint. `Line` of `source` for its first wrong line.
pub(crate) fn parse_checkpoint(source: Source, text: &[u8]) -> Result<Checkpoint<'_>, Error>
    ensures said { Gives checkpoint_fields result (said_by source (checkpoint_in text.now)) }
    ensures limit { IfOk result (λ checkpoint. checkpoint.size ≤ size_limit) }
{
    Checkpoint::parse(text).map_err(|error| text_error(source, error))
}

/// Parses a proof of entries. `Line` for its first wrong line, `OutOfMemory` if memory runs out.
pub(crate) fn parse_entries_proof(alloc: Global, text: &[u8]) -> Result<EntriesProof, Error>
    ensures { Gives entries_fields result (said_by Proof (entries_in text.now)) }
{
    EntriesProof::parse(alloc, text).map_err(|error| text_error(Source::Proof, error))
}

/// Parses a proof of entries, which stay where they stand in its text, with the errors of [`parse_entries_proof`].
pub(crate) fn parse_entries_text(alloc: Global, text: &[u8]) -> Result<EntriesText<'_>, Error>
    ensures { Gives in_place result (said_by Proof (entries_in text.now)) }
{
    EntriesText::parse(alloc, text).map_err(|error| text_error(Source::Proof, error))
}

/// Parses a consistency proof. `Line` for its first wrong line, `OutOfMemory` if memory runs out.
pub(crate) fn parse_consistency_proof(
    alloc: Global,
    text: &[u8],
) -> Result<ConsistencyProof<'_>, Error>
    ensures { Gives consistency_fields result (said_by Proof (consistency_in text.now)) }
{
    ConsistencyProof::parse(alloc, text).map_err(|error| text_error(Source::Proof, error))
}

/// Checks that a new checkpoint, which `source` has, may follow an old one: `OtherOrigin` if it is of another log, else
/// `SmallerSize` if it has fewer entries, else `TwoHistories` if it has as many and another root.
pub(crate) fn check_growth(source: Source, old: &Checkpoint, new: &Checkpoint) -> Result<(), Error>
    ensures { Checks result (growth_refusal source (checkpoint_fields old.now) (checkpoint_fields new.now)) }
{
    if old.origin != new.origin {
        return Err(Error::Refused(source, Refusal::OtherOrigin));
    }
    let same_root = old.root == new.root;
    let (old, new) = (old.size, new.size);
    if old > new {
        return Err(Error::Refused(source, Refusal::SmallerSize { old, new }));
    }
    if old == new && !same_root {
        return Err(Error::Refused(source, Refusal::TwoHistories));
    }
    Ok(())
}
