//! The loop over single writes.

ghost use Rattle.std.specs.Prelude.{IfErr, IfOk};
ghost use Rattle.std.specs.Io.KnownBytes.{Appends};
ghost use Rattle.whole_writes.specs.Prefixes.{AppendsPrefix};

use std::io::{ErrorKind, Write};

/// A write or the flush failed.
#[derive(Debug, Clone, Copy, PartialEq, Eq, Drop)]
pub struct WriteFailed;

/// Writes a text, and flushes. An interrupted write is tried again, as by `write_all` of the standard library. After
/// `Ok` the output has what it had, followed by the text; after an error it has what it had, followed by the first
/// bytes of the text.
///
/// # Errors
///
/// `WriteFailed` if a write or the flush fails, or if a write takes no byte.
pub fn write_whole<W: Write>(output: &mut W, text: &[u8]) -> Result<(), WriteFailed>
    ensures whole { IfOk result (λ done. Appends (W.contents output.old) (W.contents output.new) text.now) }
    ensures prefix { IfErr result (λ failed. AppendsPrefix (W.contents output.old) (W.contents output.new) text.now) }
{
    let mut rest = text;
    for _turn in 0..u64::MAX {
        if rest.is_empty() {
            return output.flush().map_err(|_| WriteFailed);
        }
        match output.write(rest) {
            Ok(0) => return Err(WriteFailed),
            Ok(count) => rest = &rest[count..],
            Err(error) if error.kind() == ErrorKind::Interrupted => {}
            Err(_) => return Err(WriteFailed),
        }
    }
    Err(WriteFailed)
}
