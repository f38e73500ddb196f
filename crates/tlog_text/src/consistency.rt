//! Consistency proofs, as a witness is sent them.

ghost use Rattle.std.specs.Prelude.{◌≡◌, ◌⊎◌, Err, IfErr, IfOk, Ok};
ghost use Rattle.tlog_text.specs.Reading.{consistency_by, consistency_in};
ghost use Rattle.tlog_text.specs.Texts.{consistency_fields, consistency_text};
ghost use Rattle.tlog_text.specs.declared.error.Stop.TheVariants.{Memory};
ghost use Rattle.tlog_text.specs.declared.error.TextError.TheVariants.{OutOfMemory};

use crate::error::{Expected, Stop, TextError, error_of};
use crate::line::{
    push_digests, push_line, push_number, read_digests_to_blank, read_number, skip_line,
};
use std::alloc::{AllocError, Global};

/// Digests that prove that a log of a new checkpoint begins with the entries that it had at an old size (C2SP
/// tlog-witness, add-checkpoint).
#[derive(Drop)]
pub struct ConsistencyProof<'a> {
    /// How many entries the log had: up to 2^62.
    pub old_size: usize,
    /// The digests, at most 63.
    pub digests: Vec<[u8; 32]>,
    /// The new checkpoint as it was published, with its signatures if it has any. `Checkpoint::parse` reads it.
    pub checkpoint: &'a [u8],
}

impl<'a> ConsistencyProof<'a> {
    /// Reads a consistency proof, whether it proves anything or not. All that stands after the first blank line is the
    /// new checkpoint, which is not read here.
    ///
    /// # Errors
    ///
    /// - `Line` for the first wrong line;
    /// - `OutOfMemory` if memory runs out.
    pub fn parse(alloc: Global, text: &'a [u8]) -> Result<ConsistencyProof<'a>, TextError>
        ensures read { IfOk result (λ proof. consistency_in text.now ≡ Ok (consistency_fields proof)) }
        ensures error { IfErr result (λ error. (error ≡ OutOfMemory) ⊎ (consistency_in text.now ≡ Err error)) }
    {
        consistency_by(alloc, text).map_err(|stop| error_of(text, stop))
    }

    /// Prints the proof. It is read again if the old size is at most 2^62, and there are at most 63 digests.
    ///
    /// # Errors
    ///
    /// `AllocError` if memory runs out.
    pub fn to_text(&self, alloc: Global) -> Result<Vec<u8>, AllocError>
        ensures { IfOk result (λ text. text.items ≡ consistency_text (consistency_fields self.now)) }
    {
        let mut text = Vec::new(alloc);
        push_number(alloc, &mut text, "old ", self.old_size)?;
        push_digests(alloc, &mut text, &self.digests)?;
        push_line(&mut text, b"")?;
        text.extend_from_slice(self.checkpoint)?;
        Ok(text)
    }
}

/// Reads a consistency proof. Where it is none, the error says what is missing. `Memory` if memory runs out.
#[tactic(auto, unfolding(crate::specs::Reading::consistency_by))]
fn consistency_by(alloc: Global, text: &[u8]) -> Result<ConsistencyProof<'_>, Stop>
    ensures read { IfOk result (λ proof. consistency_by text.now ≡ Ok (consistency_fields proof)) }
    ensures stop { IfErr result (λ stop. (stop ≡ Memory) ⊎ (consistency_by text.now ≡ Err stop)) }
{
    let (old_size, left) = read_number(text, b"old ", Expected::OldSize)?;
    let (digests, left) = read_digests_to_blank(alloc, left, 63)?;
    let checkpoint = skip_line(left, Expected::Blank)?;
    Ok(ConsistencyProof {
        old_size,
        digests,
        checkpoint,
    })
}
