//! Texts that are read whole, up to a limit.

ghost use Rattle.std.specs.Prelude.{◌≡◌, ◌⊎◌, ◌+◌, ◌<◌, ◌≤◌, ◌^◌, ℕ, List, IfErr, IfOk, length, take};
ghost use Rattle.std.specs.Io.KnownBytes.{Consumes};
ghost use Rattle.tlog_files.specs.Entries.{HoldsOfFile};
ghost use Rattle.tlog_files.specs.declared.error.ReadError.TheVariants.{OutOfMemory, Read as FailedRead};

use crate::error::{ReadError, failure_of};
use std::alloc::Global;
use std::io::Read;

/// How many bytes are read at a time.
const CHUNK: usize = 8192;

/// Reads the bytes of a text from where the reader stands: all of them, or the first `limit + 1` if there are more. So
/// the text is too long exactly if more than `limit` bytes are returned. Nothing after the first byte above the limit
/// is read, even if the reader has no end, and memory is taken only for bytes that were read. `limit` must be below
/// 2^62.
///
/// # Errors
///
/// - `Read` if a read fails; an interrupted read is retried;
/// - `OutOfMemory` if memory runs out.
pub fn read_up_to<R: Read>(alloc: Global, limit: usize, input: &mut R) -> Result<Vec<u8>, ReadError>
    requires { limit < 2 ^ 62 }
    ensures read { IfOk result
        (λ bytes. HoldsOfFile (R.remaining input.old) (λ all. bytes.items ≡ take (limit + 1) all)) }
    ensures reader_after { IfOk result (λ bytes. (length bytes.items ≤ limit + 1)
        × Consumes (R.remaining input.old) (R.remaining input.new) bytes.items) }
    ensures failed { IfErr result (λ e. (e ≡ OutOfMemory) ⊎ ((e ≡ FailedRead)
        × ((front : List ℕ) × Consumes (R.remaining input.old) (R.remaining input.new) front
        × (length front ≤ limit + 1)))) }
{
    let mut bytes = Vec::new(alloc);
    let mut buffer = vec![in alloc; 0; CHUNK]?;
    let window = buffer.as_mut_slice();
    for _turn in 0..u64::MAX {
        if bytes.len() > limit {
            return Ok(bytes);
        }
        let room = (limit + 1 - bytes.len()).min(CHUNK);
        match input.read(&mut window[..room]) {
            Ok(0) => return Ok(bytes),
            Ok(count) => bytes.extend_from_slice(&window[..count])?,
            Err(error) => {
                if let Some(failure) = failure_of(error.kind()) {
                    return Err(failure);
                }
            }
        }
    }
    Err(ReadError::Read)
}
