//! Errors of pruned proofs as errors of trees, and how the errors of `mmcs` are printed.

use mmcs_engine::fault::Fault;
use p3_merkle_tree::{MerkleTreeError, PrunedProofError};
use std::test::Fail;
use test_support::compared::is_printed;

#[test]
fn an_inner_error_becomes_the_outer_one(rt: HostRuntime) -> Result<(), Fail> {
    let (alloc, expected, got) = (rt.alloc(), 0, 1);
    let error = MerkleTreeError::from(PrunedProofError::SiblingCountMismatch { expected, got });
    let text = format!(in alloc; "{error}")?;
    assert_eq!(rt;
        text.as_str(),
        "malformed pruned proof: wrong pruned sibling count: expected 0, got 1"
    );
    assert_eq!(rt;
        error,
        MerkleTreeError::MalformedPrunedProof(PrunedProofError::SiblingCountMismatch {
            expected,
            got,
        })
    );
    Ok(())
}

// The texts are what Rust's derive writes for an enum of these variants.
#[test]
fn errors_of_mmcs_are_printed_by_their_variants(rt: HostRuntime) {
    let line = 3;
    let (max, expected, got) = (255, 2, 1);
    let past_end = MerkleTreeError::IndexOutOfBounds {
        max_height: 4,
        index: 9,
    };
    let faults = [
        (Fault::Usage, "Usage"),
        (Fault::Read, "Read"),
        (Fault::Number { line, max }, "Number { line: 3, max: 255 }"),
        (
            Fault::Count {
                line,
                expected,
                got,
            },
            "Count { line: 3, expected: 2, got: 1 }",
        ),
        (
            Fault::Tree(past_end),
            "Tree(IndexOutOfBounds { max_height: 4, index: 9 })",
        ),
        (Fault::Write, "Write"),
    ];
    for (fault, text) in &faults {
        assert!(rt; is_printed(rt.alloc(), fault, text));
    }
}
