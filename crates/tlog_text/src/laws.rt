//! What follows from the definitions, as the contracts of calls that do nothing.

ghost use Rattle.tlog_text.specs.Laws.{CheckpointsAreReadAgain, ConsistencyProofsAreReadExactly};
ghost use Rattle.tlog_text.specs.Laws.{EntriesProofsAreReadExactly, NotesAreReadExactly, PartsAreReadExactly};
ghost use Rattle.tlog_text.specs.Laws.{SignaturesChangeNothing, ThreeLinesArePrintedAsRead};

/// A note is read as a checkpoint exactly if it has at most 10^6 bytes, it is that checkpoint's text with extension
/// lines and up to 100 signatures, and the checkpoint has a well-formed origin, which is no part's, and a size of at
/// most 2^62.
pub fn notes_are_read_exactly()
    ensures { NotesAreReadExactly }
{}

/// A text is read as a part exactly if it is the text of that part, whose origin is `PART_ORIGIN`, with extension lines
/// and up to 100 signatures, and has at most 10^6 bytes.
pub fn parts_are_read_exactly()
    ensures { PartsAreReadExactly }
{}

/// A checkpoint or a part is read again as it was printed.
pub fn checkpoints_are_read_again()
    ensures { CheckpointsAreReadAgain }
{}

/// A checkpoint of three lines, so without extension lines and signatures, has one spelling: it is printed as it was
/// read.
#[tactic(auto, using(crate::proofs::NoteLaws::three_lines))]
pub fn three_lines_are_printed_as_read()
    ensures { ThreeLinesArePrintedAsRead }
{}

/// A note is read as its text is read without the signatures.
#[tactic(auto, using(crate::proofs::NoteLaws::signed))]
pub fn signatures_change_nothing()
    ensures { SignaturesChangeNothing }
{}

/// A text is read as a proof of entries exactly if it is the text of that proof.
pub fn entries_proofs_are_read_exactly()
    ensures { EntriesProofsAreReadExactly }
{}

/// A text is read as a consistency proof exactly if it is the text of that proof.
pub fn consistency_proofs_are_read_exactly()
    ensures { ConsistencyProofsAreReadExactly }
{}
