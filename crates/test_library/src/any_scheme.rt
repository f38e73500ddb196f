//! A caller that is generic in the scheme, over both schemes. It proves that what the scheme opens is refused for want
//! of memory alone, that each word that the dimensions say is there can be read out of verified rows, and by which name
//! an opening is refused.
ghost use Rattle.std.specs.Prelude.{◌≡◌, ◌<◌, ◌↔◌, IfErr, IfOk, IsSome, length, map, option_map, slice_index};
ghost use Rattle.test_library.specs.Reasons.{rejection_of};
ghost use Rattle.test_library.specs.declared.reasons.Rejection.TheVariants as rejection;
ghost use Rattle.p3_merkle_tree.specs.MerkleTreeError.TheVariants.{OutOfMemory};
ghost use Rattle.p3_answers.specs.Answers.{AnswersUnless};
ghost use Rattle.p3_support.specs.Batches.{dimensions_in, greatest, heights_of};
ghost use Rattle.p3_support.specs.RowMajor.{row_count, row_width};
ghost use Rattle.p3_support.specs.Shown.{row_lists, row_sets};

use crate::reasons::Rejection;
use p3_hashes::fold::{FoldCompress, FoldHash};
use p3_merkle_tree::{MerkleTreeError, MerkleTreeHidingMmcs, MerkleTreeMmcs};
use p3_support::matrix::{Dimensions, Matrix, RowMajorMatrix};
use p3_support::mmcs::Mmcs;
use p3_support::opening::BatchOpeningRef;
use rand_chacha::ChaCha20Rng;
use rand_core::SeedableRng;
use std::alloc::{AllocError, Global};
use std::process::Abort;
use std::test::Fail;
use test_support::matrices::two_rows;

/// The word at a place in the rows of an index, once these are verified. No length is looked at.
fn verified_word<T: Copy, M: Matrix<T>, S: Mmcs<T, M>>(
    alloc: Global,
    verifier: &S,
    commitment: &S::Commitment,
    dimensions: &[Dimensions],
    index: usize,
    opening: BatchOpeningRef<'_, T, S::Proof>,
    matrix: usize,
    column: usize,
) -> Result<T, S::Error>
    requires matrix { matrix < length dimensions.now }
    requires column { column < slice_index (map (λ d. d.width) dimensions.now) matrix }
    ensures index { IfOk result (λ word. index < greatest (heights_of dimensions.now)) }
    ensures memory { S.accepts verifier.now commitment.now dimensions.now index
        (row_lists opening.entry.opened_values.now) opening.entry.opening_proof.now →
        IfErr result S.is_out_of_memory }
{
    verifier.verify_batch(alloc, commitment, dimensions, index, opening)?;
    Ok(opening.opened_values[matrix][column])
}

/// The same of one of several indices, which are verified together.
fn verified_word_of<T: Copy, M: Matrix<T>, S: Mmcs<T, M>>(
    alloc: Global,
    verifier: &S,
    commitment: &S::Commitment,
    dimensions: &[Dimensions],
    indices: &[usize],
    rows: &[Vec<Vec<T>>],
    proof: &S::MultiProof,
    query: usize,
    matrix: usize,
    column: usize,
) -> Result<T, S::Error>
    requires query { query < length indices.now }
    requires matrix { matrix < length dimensions.now }
    requires column { column < slice_index (map (λ d. d.width) dimensions.now) matrix }
    ensures index { IfOk result (λ word. slice_index indices.now query < greatest (heights_of dimensions.now)) }
    ensures memory { S.accepts_all verifier.now commitment.now dimensions.now indices.now (row_sets rows.now)
        proof.now → IfErr result S.is_out_of_memory }
{
    verifier.verify_multi_batch(alloc, commitment, dimensions, indices, rows, proof)?;
    Ok(rows[query][matrix][column])
}

/// Commits to matrices, opens an index alone and after the index 0, and reads the word at a place out of both openings
/// once they are verified: None where the matrices have no such index.
fn words_read<T: Copy, M: Matrix<T> + Drop, S: Mmcs<T, M>>(
    alloc: Global,
    scheme: &mut S,
    dimensions: &[Dimensions],
    matrices: Vec<M>,
    index: usize,
    matrix: usize,
    column: usize,
) -> Result<Option<(T, T)>, S::Error>
    requires dimensions { dimensions.now ≡ dimensions_in M.height_of M.width_of matrices.items }
    requires matrix { matrix < length dimensions.now }
    requires column { column < slice_index (map (λ d. d.width) dimensions.now) matrix }
    ensures answer { IfOk result (λ words. IsSome words ↔ (index < greatest (map M.height_of matrices.items))) }
    ensures memory { S.can_commit matrices.items → IfErr result S.is_out_of_memory }
{
    let (commitment, prover_data) = scheme.commit(alloc, matrices)?;
    if index >= scheme.get_max_height(&prover_data) {
        return Ok(None);
    }
    let opening = scheme.open_batch(alloc, index, &prover_data)?;
    let lent = BatchOpeningRef::from(&opening);
    let alone = verified_word::<T, M, S>(
        alloc,
        scheme,
        &commitment,
        dimensions,
        index,
        lent,
        matrix,
        column,
    )?;
    let indices = [0, index];
    let (rows, proof) = scheme.open_multi_batch(alloc, &indices, &prover_data)?;
    let together = verified_word_of::<T, M, S>(
        alloc,
        scheme,
        &commitment,
        dimensions,
        &indices,
        &rows,
        &proof,
        1,
        matrix,
        column,
    )?;
    Ok(Some((alone, together)))
}

/// What a verifier makes of the refusal of an opening.
fn named_rejection(error: MerkleTreeError) -> Rejection
    ensures { result ≡ rejection_of error }
{
    match error {
        MerkleTreeError::CapMismatch => Rejection::OtherCommitment,
        MerkleTreeError::IndexOutOfBounds { .. } => Rejection::NoSuchIndex,
        other => Rejection::Other(other),
    }
}

/// Verifies an opening in any scheme of these errors that has `OutOfMemory` alone for want of memory.
fn checked<T: Copy, M: Matrix<T>, S: Mmcs<T, M, Error = MerkleTreeError>>(
    alloc: Global,
    verifier: &S,
    commitment: &S::Commitment,
    dimensions: &[Dimensions],
    index: usize,
    opening: BatchOpeningRef<'_, T, S::Proof>,
) -> Result<(), Rejection>
    requires memory { (e : _) → S.is_out_of_memory e → e ≡ OutOfMemory }
    ensures { let rows = row_lists opening.entry.opened_values.now in
        let proof = opening.entry.opening_proof.now in
        let refusal = S.refusal verifier.now commitment.now dimensions.now index rows proof in
        AnswersUnless (λ r. r ≡ rejection.Other OutOfMemory) result (option_map rejection_of refusal) }
{
    verifier
        .verify_batch(alloc, commitment, dimensions, index, opening)
        .map_err(named_rejection)
}

/// What a verifier makes of the opening of row 1 under its own commitment, under that of other matrices, and as the
/// opening of row 2; None where the matrices have no row 1.
fn three_verdicts<T: Copy, M: Matrix<T> + Drop, S: Mmcs<T, M, Error = MerkleTreeError>>(
    alloc: Global,
    scheme: &mut S,
    dimensions: &[Dimensions],
    own: Vec<M>,
    others: Vec<M>,
) -> Result<Option<[Result<(), Rejection>; 3]>, MerkleTreeError>
    requires memory { (e : _) → S.is_out_of_memory e → e ≡ OutOfMemory }
{
    let (commitment, prover_data) = scheme.commit(alloc, own)?;
    let (other, _) = scheme.commit(alloc, others)?;
    if scheme.get_max_height(&prover_data) < 2 {
        return Ok(None);
    }
    let opening = scheme.open_batch(alloc, 1, &prover_data)?;
    let lent = BatchOpeningRef::from(&opening);
    Ok(Some([
        checked::<T, M, S>(alloc, scheme, &commitment, dimensions, 1, lent),
        checked::<T, M, S>(alloc, scheme, &other, dimensions, 1, lent),
        checked::<T, M, S>(alloc, scheme, &commitment, dimensions, 2, lent),
    ]))
}

/// Two rows of two words, and one of one word.
const DIMENSIONS: [Dimensions; 2] = [
    Dimensions {
        width: 2,
        height: 2,
    },
    Dimensions {
        width: 1,
        height: 1,
    },
];

/// The matrix of the rows 1, 2 and 3, 4, and that of a row of one word.
fn matrices(alloc: Global, word: u32) -> Result<Vec<RowMajorMatrix<u32>>, AllocError>
    ensures { IfOk result (λ ms. DIMENSIONS ≡ dimensions_in row_count row_width ms.items) }
{
    let rows = two_rows(alloc, &[1, 2, 3, 4])?;
    let row = RowMajorMatrix::new(vec![in alloc; word]?, 1);
    Ok(vec![in alloc; rows, row]?)
}

/// Asserts what callers read out of commitments of a scheme, and how they judge its openings.
fn assert_read_and_judged<S: Mmcs<u32, RowMajorMatrix<u32>, Error = MerkleTreeError>>(
    rt: &impl Abort,
    alloc: Global,
    scheme: &mut S,
) -> Result<(), MerkleTreeError>
    requires memory { (e : _) → S.is_out_of_memory e → e ≡ OutOfMemory }
{
    let four = words_read(alloc, scheme, &DIMENSIONS, matrices(alloc, 5)?, 1, 0, 1)?;
    let five = words_read(alloc, scheme, &DIMENSIONS, matrices(alloc, 5)?, 0, 1, 0)?;
    assert_eq!(rt; [four, five], [Some((4, 4)), Some((5, 5))]);
    let (own, others) = (matrices(alloc, 5)?, matrices(alloc, 6)?);
    let verdicts = three_verdicts(alloc, scheme, &DIMENSIONS, own, others)?;
    let expected = [
        Ok(()),
        Err(Rejection::OtherCommitment),
        Err(Rejection::NoSuchIndex),
    ];
    assert_eq!(rt; verdicts, Some(expected));
    Ok(())
}

#[test]
fn generic_callers_read_and_judge_plain_rows(rt: HostRuntime) -> Result<(), Fail> {
    let mut scheme: MerkleTreeMmcs<u32, u32, FoldHash<1>, FoldCompress<2, 1>, 2, 1> =
        MerkleTreeMmcs::new(FoldHash, FoldCompress, 0);
    assert_read_and_judged(&rt, rt.alloc(), &mut scheme)?;
    Ok(())
}

/// The salted scheme of two children over the fold functions, with three salts for each row.
type Salted = MerkleTreeHidingMmcs<u32, u32, FoldHash<1>, FoldCompress<2, 1>, ChaCha20Rng, 2, 1, 3>;

#[test]
fn generic_callers_read_and_judge_salted_rows(rt: HostRuntime) -> Result<(), Fail> {
    let mut scheme = Salted::new(FoldHash, FoldCompress, 0, ChaCha20Rng::from_seed([7; 32]));
    assert_read_and_judged(&rt, rt.alloc(), &mut scheme)?;
    Ok(())
}
