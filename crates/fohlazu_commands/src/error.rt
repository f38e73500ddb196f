//! Why a command stops.

ghost use Rattle.std.specs.Prelude.{◌≡◌};
ghost use Rattle.fohlazu_commands.specs.Errors.{entries_error, exit_code_of, read_error, source_of, text_error};
ghost use Rattle.fohlazu_commands.specs.declared.error.Error.TheVariants.{OutOfMemory};

use std::alloc::{AllocError, AllocFailed};
use thiserror::Error;
use tlog::ProofError;
use tlog_files::ReadError;
use tlog_multiproof::EntriesError;
use tlog_text::{TextError, WrongLine};

/// Why a command stops. It prints as one line, without the name of an input.
#[derive(Clone, Copy, Debug, Error)]
pub enum Error {
    /// An input is refused.
    #[error("{1}")]
    Refused(Source, Refusal),
    /// An input cannot be read.
    #[error("cannot be read")]
    Read(Source),
    /// The output cannot be written.
    #[error("the output cannot be written")]
    Write,
    /// Memory ran out.
    #[error("out of memory")]
    OutOfMemory,
}

/// An input of a command.
#[derive(Clone, Copy, Debug)]
pub enum Source {
    /// The checkpoint of a file.
    Checkpoint,
    /// The old checkpoint of a log.
    Old,
    /// The new checkpoint of a log.
    New,
    /// A part of a file, by its place among the parts, counted from 0.
    Part(usize),
    /// The file whose entries are read.
    File,
    /// A proof of entries, or a consistency proof.
    Proof,
}

/// Why an input is refused.
#[derive(Clone, Copy, Debug, Error)]
pub enum Refusal {
    /// A checkpoint, a part or a consistency proof with more bytes than this limit.
    #[error("it has more than {0} bytes")]
    TooLong(usize),
    /// The first wrong line of a text.
    #[error("{0}")]
    Line(WrongLine),
    /// A wrong line of the checkpoint that a consistency proof contains.
    #[error("line {} of its checkpoint: expected {}{}", .0.line, .0.expected, .0.found)]
    CheckpointLine(WrongLine),
    /// A requested entry that the checkpoint does not have.
    #[error("it has {size} entries, and no entry {number}")]
    NumberPastEnd {
        number: usize,
        size: usize,
    },
    /// A checkpoint with more entries than are proved at once, where all are requested.
    #[error("more than 100000000 entries at once")]
    TooManyNumbers,
    /// A file that ends inside a line, where a partial line is refused.
    #[error("ends inside a line: `--whole-lines` leaves it out, `--partial` takes it as an entry")]
    EndsInsideLine,
    /// A file, or all parts together, with more than 2^62 entries.
    #[error("more than 2^62 entries")]
    TooManyEntries,
    /// A file with fewer entries than its checkpoint.
    #[error("it has {got} entries, and the checkpoint {expected}: some are missing, or give `--blocks` as for `seal`")]
    TooFewEntries {
        got: usize,
        expected: usize,
    },
    /// A file whose entries have another root than the checkpoint.
    #[error("its entries are not those of the checkpoint: some changed, or give `--blocks` as for `seal`")]
    OtherEntries,
    /// A file that begins with other entries than those of the old checkpoint.
    #[error("its first entries are not those of the old checkpoint")]
    OtherOldEntries,
    /// A proof with another entry, the first number, where the second is requested.
    #[error("it has entry {0} where {1} is requested: give the numbers that it has, in its order, or none")]
    OtherNumber(usize, usize),
    /// A proof that ends where an entry of this number is requested.
    #[error("it ends where entry {0} is requested: give the numbers that it has, in its order, or none")]
    MissingEntry(usize),
    /// A proof with an entry after all that are requested.
    #[error("it has entry {0} after all that are requested: give the numbers that it has, in its order, or none")]
    UnrequestedEntry(usize),
    /// A proof with an entry that cannot be printed: a line with a line feed inside, or a block of another length.
    #[error("entry {0} is no line, or no block of this size: give `--blocks` as for `seal`, or \
             `--raw` to print one entry")]
    UnprintableEntry(usize),
    /// A proof of entries that the verifier refuses.
    #[error("{}", entries_words(.0))]
    Entries(EntriesError),
    /// A new checkpoint of another log than the old one.
    #[error("its origin is not that of the old checkpoint")]
    OtherOrigin,
    /// A new checkpoint with fewer entries than the old one.
    #[error("it has {new} entries, fewer than the {old} of the old checkpoint: are both exchanged?")]
    SmallerSize {
        old: usize,
        new: usize,
    },
    /// Two checkpoints of one log and one size with different roots.
    #[error("two histories of one log, with one size and different roots: keep both checkpoints as evidence")]
    TwoHistories,
    /// A consistency proof that begins with another size than the old checkpoint has.
    #[error("it is a proof from {got} entries, and the old checkpoint has {expected}")]
    OtherOldSize {
        /// The size that the proof begins with.
        got: usize,
        /// The size of the old checkpoint.
        expected: usize,
    },
    /// A consistency proof that the verifier refuses.
    #[error("{}", consistency_words(.0))]
    Consistency(ProofError),
    /// A part whose size does not fit the first one's.
    #[error("{size} entries: all parts have one size, a power of two ({first} in the first), the last may have fewer")]
    PartSize {
        size: usize,
        first: usize,
    },
}

/// What the verifier's reason says of a proof of entries.
fn entries_words(error: &EntriesError) -> &'static str {
    match error {
        EntriesError::NoIndices => "it has no entries",
        EntriesError::IndexPastEnd => "it has an entry past the last one of the checkpoint",
        EntriesError::TooFewDigests => "it has too few digests: is it under another checkpoint?",
        EntriesError::TooManyDigests => "it has too many digests: is it under another checkpoint?",
        EntriesError::TwoLeafHashes => "it has two entries of one number",
        // `RootMismatch`. The others are no reasons of a proof: a checkpoint that is read has at most 2^62 entries.
        _ =>
            "its entries or digests are not those of the checkpoint: some changed, or it is under another one",
    }
}

/// What the verifier's reason says of a consistency proof.
fn consistency_words(error: &ProofError) -> &'static str {
    match error {
        ProofError::TooFewDigests => "it has too few digests",
        ProofError::TooManyDigests => "it has too many digests",
        ProofError::OldRootMismatch => "it does not begin with the entries of the old checkpoint",
        // `RootMismatch`: the sizes are those of checkpoints that are compared before, and lead to no other reason.
        _ => "it does not lead to the new checkpoint",
    }
}

impl Error {
    /// The input that is refused or cannot be read, if there is one.
    pub fn source(&self) -> Option<Source>
        ensures { result ≡ source_of self.now }
    {
        match self {
            Error::Refused(source, _) | Error::Read(source) => Some(*source),
            Error::Write | Error::OutOfMemory => None,
        }
    }

    /// The exit code of a program that stops so. It is 1 if an input is refused, but 2 if that is a checkpoint or a
    /// part with a wrong line or too many bytes. It is 2 if an input cannot be read, the output cannot be written, or
    /// memory ran out.
    pub fn exit_code(&self) -> u8
        ensures { result ≡ exit_code_of self.now }
    {
        match self {
            Error::Refused(Source::File | Source::Proof, _) => 1,
            Error::Refused(_, Refusal::Line(_) | Refusal::TooLong(_)) => 2,
            Error::Refused(_, _) => 1,
            Error::Read(_) | Error::Write | Error::OutOfMemory => 2,
        }
    }
}

impl From<AllocError> for Error {
    ghost from_gives = { λ _ e. e ≡ OutOfMemory };

    fn from(_error: AllocError) -> Error {
        Error::OutOfMemory
    }
}

impl<T: Drop> From<AllocFailed<T>> for Error {
    ghost from_gives = { λ _ e. e ≡ OutOfMemory };

    fn from(_error: AllocFailed<T>) -> Error {
        Error::OutOfMemory
    }
}

impl From<EntriesError> for Error {
    ghost from_gives = { λ error e. e ≡ entries_error error };

    fn from(error: EntriesError) -> Error {
        match error {
            EntriesError::OutOfMemory => Error::OutOfMemory,
            error => Error::Refused(Source::Proof, Refusal::Entries(error)),
        }
    }
}

impl From<ReadError> for Error {
    ghost from_gives = { λ error e. e ≡ read_error error };

    fn from(error: ReadError) -> Error {
        match error {
            ReadError::Read => Error::Read(Source::File),
            ReadError::TooManyEntries => Error::Refused(Source::File, Refusal::TooManyEntries),
            ReadError::EndsInsideLine => Error::Refused(Source::File, Refusal::EndsInsideLine),
            ReadError::OutOfMemory => Error::OutOfMemory,
        }
    }
}

/// The error of an input whose text is wrong.
pub(crate) fn text_error(source: Source, error: TextError) -> Error
    ensures { result ≡ text_error source error }
{
    match error {
        TextError::Line(line) => Error::Refused(source, Refusal::Line(line)),
        TextError::OutOfMemory => Error::OutOfMemory,
    }
}
