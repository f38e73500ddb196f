//! What the outcomes say of files, as the contracts of calls that do nothing.

ghost use Rattle.fohlazu_commands.specs.Laws.{FilesGrow, GrowthIsAccepted, GrowthIsProved, JoinsAreReadAgain};
ghost use Rattle.fohlazu_commands.specs.Laws.{PartsJoin};
ghost use Rattle.fohlazu_commands.specs.Laws.{NumbersAreCompared, ProofsAreAccepted, ProofsAreProved, ProofsStay};
ghost use Rattle.fohlazu_commands.specs.Laws.{SealsAreReadAgain};

/// What `seal` prints under an origin that [`is_origin`](crate::is_origin) takes is read again, as the checkpoint of
/// the file's entries or as that part of a file.
pub fn seals_are_read_again()
    ensures { SealsAreReadAgain }
{}

/// What `join` prints under such an origin is read again.
pub fn joins_are_read_again()
    ensures { JoinsAreReadAgain }
{}

/// Bytes after the end of an entry are further entries.
pub fn files_grow()
    ensures { FilesGrow }
{}

/// The parts of a file, each but the last cut off where an entry ends, are joined to what `seal` prints of the whole
/// file, exactly if all but the last have one size, a power of two, and the last has 1 entry to as many.
pub fn parts_join()
    ensures { PartsJoin }
{}

/// Whatever `prove_consistency` prints is accepted by `verify_consistency`, which prints the new checkpoint as it
/// stands.
pub fn growth_is_accepted()
    ensures { GrowthIsAccepted }
{}

/// Between checkpoints of one origin, of first entries of a file, which may have grown since, `prove_consistency`
/// prints a proof.
pub fn growth_is_proved()
    ensures { GrowthIsProved }
{}

/// Whatever `prove` prints is accepted by `verify`, which prints the entries of the file, as the file is cut or raw.
pub fn proofs_are_accepted()
    ensures { ProofsAreAccepted }
{}

/// Under a checkpoint of first entries of a file `prove` prints a proof of any of them.
pub fn proofs_are_proved()
    ensures { ProofsAreProved }
{}

/// What `prove` prints stays the same once the file has grown.
pub fn proofs_stay()
    ensures { ProofsStay }
{}

/// Entries of a proof are refused for their numbers exactly if these are not the requested ones, in their order.
pub fn numbers_are_compared()
    ensures { NumbersAreCompared }
{}
