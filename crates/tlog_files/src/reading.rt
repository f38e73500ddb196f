//! The tree of a log that stands in a file, and single entries of it, in one pass over a reader.

ghost use Rattle.std.specs.Prelude.{◌≡◌, ◌⊎◌, ◌+◌, ◌≤◌, ◌++◌, ℕ, List, [], IfErr, IfOk, OnOk, Some, length, nat_lt};
ghost use Rattle.std.specs.Prelude.{if◌then◌else◌};
ghost use Rattle.std.specs.Io.KnownBytes.{Consumes, IsAtEnd};
ghost use Rattle.tlog.specs.Verdicts.{size_limit};
ghost use Rattle.tlog_tree.specs.Builders.{IsBuilderOf};
ghost use Rattle.tlog_tree.specs.declared.node_id.NodeId.{NodeId};
ghost use Rattle.tlog_files.specs.Entries.{read_refusal, HoldsOfFile, IsFraming, IsReadNoFurther};
ghost use Rattle.tlog_files.specs.Logs.{IsLogOf};
ghost use Rattle.tlog_files.specs.Inner.Splitting.{AreTooMany, HasBuilt, HasGrown, IsReady, ReadsTooMany};
ghost use Rattle.tlog_files.specs.declared.error.ReadError.TheVariants.{OutOfMemory, Read as FailedRead};
ghost use Rattle.tlog_files.specs.declared.error.ReadError.TheVariants.{TooManyEntries};

use crate::error::{ReadError, failure_of};
use crate::framing::Framing;
use crate::splitter::Splitter;
use crate::wanted::{WantedEntries, places_in_order};
use std::alloc::Global;
use std::io::Read;
use tlog_tree::{NodeId, TreeBuilder, TreeError};

/// How many bytes are read at a time.
const BUFFER: usize = 1 << 20;

/// What is read of a log in a file.
#[derive(Drop)]
pub struct ReadLog {
    /// Its tree, with the values of the wanted nodes.
    pub tree: TreeBuilder,
    /// The bytes of the wanted entries, in the order of their indices in the call. Empty if the log lacks one of them.
    pub entries: Vec<Vec<u8>>,
}

/// Reads a log that stands in a file, in one pass from where the reader stands: its tree (RFC 9162, 2.1.1), with the
/// values of wanted nodes, and the bytes of wanted entries, each by its index, counted from 0, in any order and as
/// often as it is named. Blocks of `framing` must have from 1 to 2^30 bytes.
///
/// With a limit it reads so many entries, and of the file at most 1 MiB more, which decides nothing. Without one it
/// reads to the end of the file. Beside wanted nodes and entries it holds less than 8 MiB, whatever the file has; of
/// wanted entries at most three times their bytes.
///
/// # Errors
///
/// The first of these that applies, where `OutOfMemory` may come at any time:
///
/// - `Read` if a read fails; an interrupted read is retried;
/// - `TooManyEntries` if more than 2^62 entries are read;
/// - `EndsInsideLine` if the file ends inside a line, ahead of the limit, and a partial line is refused.
pub fn read_log<R: Read>(
    alloc: Global,
    framing: Framing,
    limit: Option<usize>,
    wanted_nodes: &[NodeId],
    wanted_entries: &[usize],
    file: &mut R,
) -> Result<ReadLog, ReadError>
    requires { IsFraming framing }
    ensures read { IfOk result (λ log. HoldsOfFile (R.remaining file.old)
        (IsLogOf log framing limit wanted_nodes.now wanted_entries.now)) }
    ensures refused { IfErr result (λ e. (e ≡ OutOfMemory) ⊎ ((e ≡ FailedRead)
        ⊎ HoldsOfFile (R.remaining file.old) (λ bytes. read_refusal framing limit bytes ≡ Some e))) }
    ensures no_further { IfOk result (λ log. (bytes : List ℕ)
        × Consumes (R.remaining file.old) (R.remaining file.new) bytes × IsReadNoFurther framing limit bytes) }
{
    let places = places_in_order(alloc, wanted_entries)?;
    let wanted = WantedEntries::new(alloc, &places)?;
    let mut splitter = Splitter::new(framing, limit.unwrap_or(usize::MAX), wanted);
    let tree = TreeBuilder::new(alloc, wanted_nodes)?;
    let tree = read_through(alloc, &mut splitter, tree, file)?;
    let hashes = splitter.end_file(alloc)?;
    let tree = grown(alloc, tree, &hashes)?;
    let entries = splitter.wanted.into_entries(alloc);
    Ok(ReadLog { tree, entries })
}

/// Reads `file` until it ends, or until `splitter` is full, and returns `tree` grown by the entries that end in what
/// was read. `Read` if a read fails, where an interrupted one is tried again; `TooManyEntries` if the tree would have
/// more than 2^62 entries; `OutOfMemory` if memory runs out.
fn read_through<R: Read>(
    alloc: Global,
    splitter: &mut Splitter<'_>,
    mut tree: TreeBuilder,
    file: &mut R,
) -> Result<TreeBuilder, ReadError>
    requires { IsReady splitter.old }
    ensures ready { OnOk result (IsReady splitter.new) }
    ensures unchanged { OnOk result ((splitter.new.framing ≡ splitter.old.framing)
        × (splitter.new.limit ≡ splitter.old.limit)) }
    ensures built { (nodes : List NodeId) (wanted : List ℕ) → HasBuilt nodes wanted splitter.old tree [] →
        IfOk result (λ read. (bytes : List ℕ) × Consumes (R.remaining file.old) (R.remaining file.new) bytes
        × HasGrown nodes wanted splitter.new read [] bytes
        × (IsAtEnd (R.remaining file.new) ⊎ (splitter.new.limit ≤ splitter.new.count))
        × IsReadNoFurther splitter.old.framing (Some splitter.old.limit) bytes) }
    ensures refused { (nodes : List NodeId) (wanted : List ℕ) → HasBuilt nodes wanted splitter.old tree [] →
        IfErr result (λ e. (e ≡ OutOfMemory) ⊎ ((e ≡ FailedRead) ⊎ ((e ≡ TooManyEntries)
        × ReadsTooMany splitter.old.framing splitter.old.limit (R.remaining file.old) (R.remaining file.new)))) }
{
    let mut buffer = vec![in alloc; 0; BUFFER]?;
    let window = buffer.as_mut_slice();
    for _turn in 0..u64::MAX {
        if splitter.is_full() {
            return Ok(tree);
        }
        match file.read(window) {
            Ok(0) => return Ok(tree),
            Ok(count) => tree = push(alloc, splitter, tree, &window[..count])?,
            Err(error) => {
                if let Some(failure) = failure_of(error.kind()) {
                    return Err(failure);
                }
            }
        }
    }
    Err(ReadError::Read)
}

/// Reads `bytes`, the next of a file, and returns `tree` grown by the entries that end in them. `TooManyEntries` if it
/// would have more than 2^62 entries; `OutOfMemory` if memory runs out.
fn push(
    alloc: Global,
    splitter: &mut Splitter<'_>,
    mut tree: TreeBuilder,
    bytes: &[u8],
) -> Result<TreeBuilder, ReadError>
    requires { IsReady splitter.old }
    ensures ready { OnOk result (IsReady splitter.new) }
    ensures unchanged { OnOk result ((splitter.new.framing ≡ splitter.old.framing)
        × (splitter.new.limit ≡ splitter.old.limit)) }
    ensures built { (nodes : List NodeId) (wanted front : List ℕ) → HasBuilt nodes wanted splitter.old tree front →
        IfOk result (λ grown. HasGrown nodes wanted splitter.new grown front bytes.now) }
    ensures refused { (nodes : List NodeId) (wanted front rest : List ℕ) →
        HasBuilt nodes wanted splitter.old tree front → IfErr result (λ e. (e ≡ OutOfMemory) ⊎ ((e ≡ TooManyEntries)
        × AreTooMany splitter.old.framing splitter.old.limit (front ++ (bytes.now ++ rest)))) }
{
    let mut left = bytes;
    'entries: while !left.is_empty() && !splitter.is_full() {
        let (hashes, rest) = splitter.read(alloc, left)?;
        tree = grown(alloc, tree, &hashes)?;
        left = rest;
    }
    Ok(tree)
}

/// `tree` with the leaf hashes `hashes` of further entries. `TooManyEntries` if it would have more than 2^62 entries;
/// `OutOfMemory` if memory runs out.
fn grown(alloc: Global, tree: TreeBuilder, hashes: &[[u8; 32]]) -> Result<TreeBuilder, ReadError>
    ensures built { IfOk result (λ grown. (leaves : List (List ℕ)) (nodes : List NodeId) →
        IsBuilderOf leaves nodes tree → IsBuilderOf (leaves ++ hashes.now) nodes grown) }
    ensures refused { IfErr result (λ e. e
        ≡ (if nat_lt size_limit (tree.frontier.size + length hashes.now) then TooManyEntries else OutOfMemory)) }
{
    match tree.push_many(alloc, hashes) {
        Ok(grown) => Ok(grown),
        Err(TreeError::SizeTooLarge) => Err(ReadError::TooManyEntries),
        Err(TreeError::OutOfMemory) => Err(ReadError::OutOfMemory),
        // Only a tree that is begun by its nodes has their number refused.
        Err(TreeError::NodeCountMismatch) => unreachable!(),
    }
}
