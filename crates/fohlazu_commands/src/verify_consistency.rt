//! Verifies that a log of a new checkpoint begins with the entries of an old one.

ghost use Rattle.tlog_text.specs.Reading.{checkpoint_in};
ghost use Rattle.tlog_text.specs.Texts.{checkpoint_fields};
ghost use Rattle.fohlazu_commands.specs.Inner.{Checks};
ghost use Rattle.fohlazu_commands.specs.Outcomes.{bytes_in, consistency_refused, Gives, said_inside};
ghost use Rattle.fohlazu_commands.specs.Outcomes.{verify_consistency_outcome};

use crate::error::{Error, Refusal, Source};
use crate::inputs::{check_growth, parse_checkpoint, parse_consistency_proof};
use std::alloc::Global;
use tlog_text::{Checkpoint, ConsistencyProof, TextError};

/// The new checkpoint that a consistency proof contains, as it stands there with its signatures, if the proof shows
/// that its log begins with the entries of the old checkpoint (RFC 9162, 2.1.4.2). Signatures are not checked.
///
/// # Errors
///
/// The first of these that applies, each within `Refused`, where `OutOfMemory` may come at any time:
///
/// - `Line` for the first wrong line of the old checkpoint, then of the proof;
/// - `OtherOldSize` if the proof is from another size than that of the old checkpoint;
/// - `CheckpointLine` for the first wrong line of the new checkpoint;
/// - `OtherOrigin`, `SmallerSize` or `TwoHistories` if the new checkpoint does not follow the old one;
/// - `Consistency` with the verifier's reason.
pub fn verify_consistency(alloc: Global, old: &[u8], proof: &[u8]) -> Result<Vec<u8>, Error>
    ensures { Gives bytes_in result (verify_consistency_outcome old.now proof.now) }
{
    let old = parse_checkpoint(Source::Old, old)?;
    let proof = parse_consistency_proof(alloc, proof)?;
    let (got, expected) = (proof.old_size, old.size);
    if got != expected {
        return Err(Error::Refused(Source::Proof, Refusal::OtherOldSize { got, expected }));
    }
    let new = read_new(&proof)?;
    check_growth(Source::Proof, &old, &new)?;
    check_digests(&old, &new, &proof.digests)?;
    Ok(Vec::from_slice(alloc, proof.checkpoint)?)
}

/// The new checkpoint that a proof contains. `CheckpointLine` for its first wrong line; `OutOfMemory` if memory runs
/// out.
fn read_new<'a>(proof: &ConsistencyProof<'a>) -> Result<Checkpoint<'a>, Error>
    ensures { Gives checkpoint_fields result (said_inside (checkpoint_in proof.now.checkpoint.now)) }
{
    match Checkpoint::parse(proof.checkpoint) {
        Ok(checkpoint) => Ok(checkpoint),
        Err(TextError::Line(line)) => {
            Err(Error::Refused(Source::Proof, Refusal::CheckpointLine(line)))
        }
        Err(TextError::OutOfMemory) => Err(Error::OutOfMemory),
    }
}

/// Checks that `digests` lead from the root of `old` to that of `new`, else `Consistency` with the verifier's reason.
fn check_digests(old: &Checkpoint, new: &Checkpoint, digests: &[[u8; 32]]) -> Result<(), Error>
    ensures { Checks result
        (consistency_refused (checkpoint_fields old.now) (checkpoint_fields new.now) digests.now) }
{
    let verdict = tlog::verify_consistency(old.size, new.size, digests, &old.root, &new.root);
    verdict.map_err(|error| Error::Refused(Source::Proof, Refusal::Consistency(error)))
}
