//! Proves that a log of a new checkpoint begins with the entries of an old one.

ghost use Rattle.std.specs.Prelude.{◌≡◌, ℕ, ◌≤◌, List, [], Err, IfOk, length, map};
ghost use Rattle.sha2.specs.Sha256.{sha256};
ghost use Rattle.tlog.specs.Rfc9162.{leaf_hash};
ghost use Rattle.tlog_tree.specs.Trees.{all_there, values_at};
ghost use Rattle.tlog_tree.specs.declared.node_id.NodeId.{NodeId};
ghost use Rattle.tlog_files.specs.Entries.{IsFraming};
ghost use Rattle.tlog_text.specs.Texts.{checkpoint_fields};
ghost use Rattle.fohlazu_commands.specs.Commands.{HoldsOfInput};
ghost use Rattle.fohlazu_commands.specs.Inner.{HasEntries};
ghost use Rattle.fohlazu_commands.specs.Outcomes.{and_then, bytes_from};
ghost use Rattle.fohlazu_commands.specs.Outcomes.{bytes_in, compared, growth_digests, Gives, growth_text, prove_growth};
ghost use Rattle.fohlazu_commands.specs.declared.error.Error.{Error};
ghost use Rattle.fohlazu_commands.specs.declared.error.Source.TheVariants.{File};

use crate::error::{Error, Refusal, Source};
use crate::inputs::{check_growth, digests_of, parse_checkpoint, read_file_under};
use std::alloc::{AllocError, Global};
use std::io::Read;
use tlog::verify_consistency;
use tlog_files::{Framing, ReadLog};
use tlog_text::{Checkpoint, ConsistencyProof};
use tlog_tree::{NodeId, consistency_nodes};

/// The proof that the file of a new checkpoint begins with the entries of an old one (RFC 9162, 2.1.4), with the new
/// checkpoint as it stands, with its signatures: what a witness is sent (C2SP tlog-witness, add-checkpoint). The file
/// may have grown on: of it as many entries are read as the new checkpoint has, in one pass.
///
/// # Errors
///
/// The first of these that applies, where `OutOfMemory` may come at any time. All but `Read` come within `Refused`,
/// with the input that is refused.
///
/// - `Line` for the first wrong line of the old checkpoint, then of the new one;
/// - `OtherOrigin`, `SmallerSize` or `TwoHistories` if the new checkpoint does not follow the old one. The file is then
///   not read.
/// - `Read` if the file cannot be read;
/// - `EndsInsideLine` if the file ends inside a line, ahead of the last entry of the new checkpoint, and `framing`
///   refuses that;
/// - `TooFewEntries` if the file has fewer entries than the new checkpoint;
/// - `OtherEntries` if its first entries, as many as the new checkpoint has, have another root;
/// - `OtherOldEntries` if the file does not begin with the entries of the old checkpoint.
pub fn prove_consistency<R: Read>(
    alloc: Global,
    framing: Framing,
    old: &[u8],
    new: &[u8],
    file: &mut R,
) -> Result<Vec<u8>, Error>
    requires { IsFraming framing }
    ensures answer { HoldsOfInput (R.remaining file.old) (λ input. Gives bytes_in result
        (and_then (compared old.now new.now) (λ (o, n).
        and_then (bytes_from File input) (prove_growth framing o n new.now)))) }
    ensures unread { (error : Error) → compared old.now new.now ≡ Err error → file.new ≡ file.old }
{
    let (old, checkpoint) = compared(old, new)?;
    prove_growth(alloc, framing, &old, &checkpoint, new, file)
}

/// The checkpoints that the texts `old` and `new` say, if the new one may follow the old one. `Line` for the first
/// wrong line of `old`, then of `new`; else the error of [`check_growth`].
fn compared<'a, 'b>(old: &'a [u8], new: &'b [u8]) -> Result<(Checkpoint<'a>, Checkpoint<'b>), Error>
    ensures answer { Gives (λ (o, n). (checkpoint_fields o, checkpoint_fields n)) result (compared old.now new.now) }
    ensures ordered { IfOk result (λ (o, n). o.size ≤ n.size) }
{
    let old = parse_checkpoint(Source::Old, old)?;
    let new = parse_checkpoint(Source::New, new)?;
    check_growth(Source::New, &old, &new)?;
    Ok((old, new))
}

/// The text of the proof between two checkpoints, where `checkpoint` is the text of `new`. `old` must not have more
/// entries than `new`. The errors are those of [`read_file_under`], then `OtherOldEntries` if the file does not begin
/// with the entries of `old`.
fn prove_growth<R: Read>(
    alloc: Global,
    framing: Framing,
    old: &Checkpoint,
    new: &Checkpoint,
    checkpoint: &[u8],
    file: &mut R,
) -> Result<Vec<u8>, Error>
    requires framing { IsFraming framing }
    requires ordered { old.now.size ≤ new.now.size }
    ensures { HoldsOfInput (R.remaining file.old) (λ input. Gives bytes_in result
        (and_then (bytes_from File input)
        (prove_growth framing (checkpoint_fields old.now) (checkpoint_fields new.now) checkpoint.now))) }
{
    let nodes = growth_nodes(alloc, old.size, new.size)?;
    let log = read_file_under(alloc, framing, new, &nodes, &[], file)?;
    text_of(alloc, old, new, checkpoint, log)
}

/// The text of the proof between two checkpoints, where `log` has the digests, and `checkpoint` is the text of `new`.
/// `OtherOldEntries` if the digests do not lead to the root of `old`; `OutOfMemory` if memory runs out.
fn text_of(
    alloc: Global,
    old: &Checkpoint,
    new: &Checkpoint,
    checkpoint: &[u8],
    log: ReadLog,
) -> Result<Vec<u8>, Error>
    ensures { (nodes : List NodeId) (entries : List (List ℕ)) → HasEntries nodes [] entries log →
        values_at sha256 (map (leaf_hash sha256) entries) nodes ≡ all_there (growth_digests old.now.size entries) →
        Gives bytes_in result
        (growth_text (checkpoint_fields old.now) (checkpoint_fields new.now) checkpoint.now entries) }
{
    let digests = digests_of(alloc, log.tree)?;
    match verify_consistency(old.size, new.size, &digests, &old.root, &new.root) {
        Ok(()) => {
            let proof = ConsistencyProof {
                old_size: old.size,
                digests,
                checkpoint,
            };
            Ok(proof.to_text(alloc)?)
        }
        Err(_) => Err(Error::Refused(Source::File, Refusal::OtherOldEntries)),
    }
}

/// The nodes whose values are the digests of a proof between the sizes `old` and `new`: none if `old` is 0 or both are
/// equal. `old` must be at most `new`. `AllocError` if memory runs out.
fn growth_nodes(alloc: Global, old: usize, new: usize) -> Result<Vec<NodeId>, AllocError>
    requires { old ≤ new }
    ensures { IfOk result (λ nodes. (entries : List (List ℕ)) → length entries ≡ new →
        values_at sha256 (map (leaf_hash sha256) entries) nodes.items ≡ all_there (growth_digests old entries)) }
{
    if old == 0 || old == new {
        return Ok(Vec::new(alloc));
    }
    consistency_nodes(alloc, old, new)
}
