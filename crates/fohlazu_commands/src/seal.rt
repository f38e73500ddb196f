//! Seals a file.

ghost use Rattle.tlog_files.specs.Entries.{IsFraming};
ghost use Rattle.fohlazu_commands.specs.Commands.{HoldsOfInput, seal_file};
ghost use Rattle.fohlazu_commands.specs.Outcomes.{bytes_in, Gives};

use crate::error::Error;
use crate::inputs::{read_file, size_and_root};
use std::alloc::Global;
use std::io::Read;
use tlog_files::Framing;
use tlog_text::Checkpoint;

/// The checkpoint of a file under this origin, in one pass over the file: how many entries it has, and the root of
/// their tree (RFC 9162, 2.1.1). With `PART_ORIGIN` it is a part of a file. It is read again if
/// [`is_origin`](tlog_text::is_origin) takes the origin.
///
/// # Errors
///
/// The first of these that applies, where `OutOfMemory` may come at any time. All but `Read` come within `Refused`,
/// with the input that is refused.
///
/// - `Read` if the file cannot be read;
/// - `TooManyEntries` if it has more than 2^62 entries;
/// - `EndsInsideLine` if it ends inside a line, and `framing` refuses that.
pub fn seal<R: Read>(
    alloc: Global,
    origin: &str,
    framing: Framing,
    file: &mut R,
) -> Result<Vec<u8>, Error>
    requires { IsFraming framing }
    ensures { HoldsOfInput (R.remaining file.old)
        (λ input. Gives bytes_in result (seal_file origin.now framing input)) }
{
    let log = read_file(alloc, framing, None, &[], &[], file)?;
    let (size, root) = size_and_root(&log);
    Ok(Checkpoint { origin, size, root }.to_text(alloc)?)
}
