//! Joins the parts of a file.

ghost use Rattle.std.specs.Prelude.{◌≡◌, ◌≤◌, ◌<◌, IfOk, MatchOption, MatchResult, length, map};
ghost use Rattle.p3_answers.specs.Answers.{ok_unless};
ghost use Rattle.std.specs.List.{sum};
ghost use Rattle.tlog.specs.Verdicts.{size_limit};
ghost use Rattle.tlog_tree.specs.Trees.{leaves_root};
ghost use Rattle.sha2.specs.Sha256.{sha256};
ghost use Rattle.fohlazu_commands.specs.Inner.{Checks, IsMemory};
ghost use Rattle.fohlazu_commands.specs.Outcomes.{bytes_in};
ghost use Rattle.fohlazu_commands.specs.Outcomes.{Gives, is_part_size, join_outcome, join_refusal, parts_in};
ghost use Rattle.fohlazu_commands.specs.Outcomes.{sizes_refusal};

use crate::error::{Error, Refusal, Source, text_error};
use std::alloc::{AllocError, Global};
use tlog::SIZE_LIMIT;
use tlog_text::Checkpoint;
use tlog_tree::Frontier;

/// The text of the checkpoint, under this origin, of the file whose parts these texts are, in their order. Each part is
/// a checkpoint of the origin `PART_ORIGIN`; all but the last have one size, a power of two, and the last has from 1
/// entry to as many as the first. The root is that of the whole file; of no parts, that of no entries. It is read again
/// if [`is_origin`](tlog_text::is_origin) takes the origin.
///
/// # Errors
///
/// The first of these that applies, each within `Refused`, where `OutOfMemory` may come at any time:
///
/// - `Line` for the first wrong line of the first part that has one;
/// - `PartSize` for the first part whose size does not fit;
/// - `TooManyEntries`, of part 0, if all parts together have more than 2^62 entries.
pub fn join(alloc: Global, origin: &str, texts: &[Vec<u8>]) -> Result<Vec<u8>, Error>
    ensures { Gives bytes_in result (join_outcome origin.now (map bytes_in texts.now)) }
{
    let parts = read_parts(alloc, texts)?;
    let size = size_of_parts(alloc, &parts)?;
    let root = root_of_parts(alloc, &parts)?;
    Ok(Checkpoint { origin, size, root }.to_text(alloc)?)
}

/// The size and the root of each part, in order. `Line` of the first part that has a wrong line, for its first;
/// `OutOfMemory` if memory runs out.
fn read_parts(alloc: Global, texts: &[Vec<u8>]) -> Result<Vec<(usize, [u8; 32])>, Error>
    ensures { Gives (λ parts. parts.items) result (parts_in 0 (map bytes_in texts.now)) }
{
    let mut parts = Vec::with_capacity(alloc, texts.len())?;
    for (k, text) in texts.iter().enumerate() {
        match Checkpoint::parse_part(text) {
            Ok(part) => parts.push((part.size, part.root))?,
            Err(error) => return Err(text_error(Source::Part(k), error)),
        }
    }
    Ok(parts)
}

/// How many entries `parts`, each with its size and root, have together. `PartSize` for the first whose size does not
/// fit, else `TooManyEntries` of part 0 if there are more than 2^62; `OutOfMemory` if memory runs out.
fn size_of_parts(alloc: Global, parts: &[(usize, [u8; 32])]) -> Result<usize, Error>
    ensures { let sizes = map (λ part. part.0) parts.now in
        Gives (λ size. size) result (ok_unless (join_refusal sizes) (sum sizes)) }
{
    let sizes: Vec<usize> = parts.iter().map(|part| part.0).collect(alloc)?;
    check_part_sizes(&sizes)?;
    total(&sizes).ok_or(Error::Refused(Source::Part(0), Refusal::TooManyEntries))
}

/// Checks that all but the last of `sizes` are one power of two, and that the last is from 1 to the first one, else
/// `PartSize` for the first part whose size is another.
fn check_part_sizes(sizes: &[usize]) -> Result<(), Error>
    ensures { Checks result (sizes_refusal sizes.now) }
{
    for k in 0..sizes.len() {
        if !is_part_size(sizes, k) {
            let (size, first) = (sizes[k], sizes[0]);
            return Err(Error::Refused(Source::Part(k), Refusal::PartSize { size, first }));
        }
    }
    Ok(())
}

/// Whether the size of part `k`, counted from 0, fits: that of the last part is from 1 to the first one, and any other
/// is the first one, a power of two.
fn is_part_size(sizes: &[usize], k: usize) -> bool
    requires { k < length sizes.now }
    ensures { result ≡ is_part_size sizes.now k }
{
    let (size, first) = (sizes[k], sizes[0]);
    if k + 1 == sizes.len() {
        1 <= size && size <= first
    } else {
        size == first && first.is_power_of_two()
    }
}

/// The sum of `sizes`; `None` if it is above 2^62.
fn total(sizes: &[usize]) -> Option<usize>
    ensures { MatchOption result (size_limit < sum sizes.now)
        (λ size. (size ≡ sum sizes.now) × (size ≤ size_limit)) }
{
    let mut total = 0;
    for size in sizes {
        if *size > SIZE_LIMIT - total {
            return None;
        }
        total += *size;
    }
    Some(total)
}

/// The root of each of `parts`, sizes with roots. `AllocError` if memory runs out.
fn roots_of(alloc: Global, parts: &[(usize, [u8; 32])]) -> Result<Vec<[u8; 32]>, AllocError>
    ensures { IfOk result (λ roots. roots.items ≡ map (λ part. part.1) parts.now) }
{
    let mut roots = Vec::with_capacity(alloc, parts.len())?;
    for part in parts {
        roots.push(part.1)?;
    }
    Ok(roots)
}

/// The root of the file whose parts, in order, have the sizes and roots `parts`, if all but the last have one size, a
/// power of two, and the last has no more entries. `OutOfMemory` if memory runs out.
fn root_of_parts(alloc: Global, parts: &[(usize, [u8; 32])]) -> Result<[u8; 32], Error>
    ensures { MatchResult result (λ root. root ≡ leaves_root sha256 (map (λ part. part.1) parts.now)) IsMemory }
{
    let roots = roots_of(alloc, parts)?;
    let mut frontier = Frontier::new(alloc);
    match frontier.push_many(alloc, &roots) {
        Ok(()) => Ok(frontier.root()),
        Err(_) => Err(Error::OutOfMemory),
    }
}
