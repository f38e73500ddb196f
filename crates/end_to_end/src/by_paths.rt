//! Pruned openings by their restored paths, plain and salted: an opening is accepted as a whole exactly if it restores
//! and each query is accepted with its rows and its restored path.

ghost use Rattle.std.specs.Prelude.{◌≡◌, ◌≢◌, ◌<◌, ℕ, IfErr, IfOk, None, Ok, length, slice_index_or, zip};
ghost use Rattle.std.specs.List.{AllZip};
ghost use Rattle.end_to_end.specs.Inner.QueryVerdicts.{query_at, IsSaltedVerdictOn, IsVerdictOn};
ghost use Rattle.end_to_end.specs.Paths.{paths_shown, AreAnswersByPaths, AreAnswersBySaltedPaths};
ghost use Rattle.p3_merkle_tree.specs.Geometry.{shape_of};
ghost use Rattle.p3_merkle_tree.specs.HidingSchemes.{salted_params_of, salted_pruned_borrowed};
ghost use Rattle.p3_merkle_tree.specs.MerkleTreeError.TheVariants.{OutOfMemory};
ghost use Rattle.p3_merkle_tree.specs.Refusals.{AnswersUnlessMemory};
ghost use Rattle.p3_merkle_tree.specs.Schemes.{params_of};
ghost use Rattle.p3_merkle_tree.specs.Views.{pruned_borrowed, shown_paths};
ghost use Rattle.p3_support.specs.Shown.{roots_of, row_lists, row_sets};

use p3_merkle_tree::{
    BatchOpening, BatchOpeningRef, MerkleAuthPath, MerkleCap, MerkleTreeError,
    MerkleTreeHidingMmcs, MerkleTreeMmcs, PrunedMerklePaths, SaltedMultiProof,
};
use p3_support::compress::PseudoCompressionFunction;
use p3_support::hasher::CryptographicHasher;
use p3_support::matrix::Dimensions;
use p3_support::packed::PackedValue;
use std::alloc::{AllocError, Global};

/// What the checks of a pruned opening answer: of the opening as a whole, and of each query with its restored path.
#[derive(Drop)]
pub struct AnswersByPaths<Path> {
    /// What the verification of the opening under the cap answers.
    pub verdict: Result<(), MerkleTreeError>,
    /// The restored path of each query, in query order; or why the opening does not restore.
    pub paths: Result<Vec<Path>, MerkleTreeError>,
    /// What the verification of each query with its rows and its restored path under the cap answers, in query order.
    /// It is empty if the opening does not restore.
    pub each: Vec<Result<(), MerkleTreeError>>,
}

/// What a call answered; or `OutOfMemory`, if that is its answer.
fn unless_out_of_memory<V: Drop>(
    answer: Result<V, MerkleTreeError>,
) -> Result<Result<V, MerkleTreeError>, MerkleTreeError>
    ensures memory { AnswersUnlessMemory result None }
    ensures same { IfOk result (λ kept. kept ≡ answer) }
    ensures other { IfOk result (λ kept. IfErr kept (λ e. e ≢ OutOfMemory)) }
{
    match answer {
        Err(MerkleTreeError::OutOfMemory) => Err(MerkleTreeError::OutOfMemory),
        answer => Ok(answer),
    }
}

/// Verifies each query with its rows and its path under a cap, in query order. `paths` has the index and the siblings
/// of each query, and `rows` the row set of each. `AllocError` if memory runs out.
fn verify_each<
    P: PackedValue,
    PW: PackedValue,
    H: CryptographicHasher<P, PW, D>,
    C: PseudoCompressionFunction<PW, N, D>,
    const N: usize,
    const D: usize,
>(
    alloc: Global,
    scheme: &MerkleTreeMmcs<P, PW, H, C, N, D>,
    commit: &MerkleCap<P::Value, [PW::Value; D]>,
    dimensions: &[Dimensions],
    paths: &[MerkleAuthPath<PW::Value, D>],
    rows: &[Vec<Vec<P::Value>>],
) -> Result<Vec<Result<(), MerkleTreeError>>, AllocError>
    ensures { let c = params_of scheme.now (shape_of N dimensions.now) in
        let is_verdict = IsVerdictOn PW.Value.eq c (roots_of commit.now) in
        let queries = zip (shown_paths paths.now) (row_sets rows.now) in
        IfOk result (λ verdicts. AllZip is_verdict queries verdicts.items) }
{
    let mut verdicts = Vec::with_capacity(alloc, paths.len())?;
    for (path, set) in paths.iter().zip(rows) {
        let opening = BatchOpeningRef::new(set, &path.siblings);
        verdicts.push(scheme.verify_batch(commit, dimensions, path.leaf_index, opening))?;
    }
    Ok(verdicts)
}

/// Verifies a pruned opening under a cap, restores the path of each query, and verifies each query with its rows and
/// its restored path under the same cap. The opening is accepted as a whole exactly if it restores and each query is
/// accepted.
///
/// # Errors
///
/// Only `OutOfMemory`.
pub fn verify_by_paths<
    P: PackedValue,
    PW: PackedValue,
    H: CryptographicHasher<P, PW, D>,
    C: PseudoCompressionFunction<PW, N, D>,
    const N: usize,
    const D: usize,
>(
    alloc: Global,
    scheme: &MerkleTreeMmcs<P, PW, H, C, N, D>,
    commit: &MerkleCap<P::Value, [PW::Value; D]>,
    dimensions: &[Dimensions],
    indices: &[usize],
    rows: &[Vec<Vec<P::Value>>],
    proof: &PrunedMerklePaths<PW::Value, D>,
) -> Result<AnswersByPaths<MerkleAuthPath<PW::Value, D>>, MerkleTreeError>
    ensures memory { AnswersUnlessMemory result None }
    ensures answers { let c = params_of scheme.now (shape_of N dimensions.now) in
        let p = pruned_borrowed indices.now rows.now proof.now in
        let are = AreAnswersByPaths P.Value.eq PW.Value.eq c (roots_of commit.now) p in
        IfOk result (λ v. are v.verdict (paths_shown v.paths) v.each.items) }
{
    let verdict = scheme.verify_batch_pruned(alloc, commit, dimensions, indices, rows, proof);
    let verdict = unless_out_of_memory(verdict)?;
    let restored = scheme.restore_and_recompute_paths(alloc, dimensions, indices, rows, proof);
    let paths = match unless_out_of_memory(restored)? {
        Ok(paths) => paths,
        Err(error) => {
            return Ok(AnswersByPaths {
                verdict,
                paths: Err(error),
                each: Vec::new(alloc),
            });
        }
    };
    let each = verify_each(alloc, scheme, commit, dimensions, &paths, rows)?;
    Ok(AnswersByPaths {
        verdict,
        paths: Ok(paths),
        each,
    })
}

/// A copy of each of `lists`, in order. `AllocError` if memory runs out.
fn copies_of<T: Copy>(alloc: Global, lists: &[Vec<T>]) -> Result<Vec<Vec<T>>, AllocError>
    ensures { IfOk result (λ copies. row_lists copies.items ≡ row_lists lists.now) }
{
    let mut copies = Vec::with_capacity(alloc, lists.len())?;
    for list in lists {
        copies.push(Vec::from_slice(alloc, list)?)?;
    }
    Ok(copies)
}

/// Verifies each query with its rows, its salts and its path under a cap, in query order. `paths` has the index and the
/// siblings of each query, `rows` the row set and `salts` the salt set of each; if there are not as many of both as
/// paths, no query is verified. `AllocError` if memory runs out.
fn salted_verify_each<
    P: PackedValue,
    PW: PackedValue,
    H: CryptographicHasher<P, PW, D>,
    C: PseudoCompressionFunction<PW, N, D>,
    R,
    const N: usize,
    const D: usize,
    const SALT_ELEMS: usize,
>(
    alloc: Global,
    scheme: &MerkleTreeHidingMmcs<P, PW, H, C, R, N, D, SALT_ELEMS>,
    commit: &MerkleCap<P::Value, [PW::Value; D]>,
    dimensions: &[Dimensions],
    paths: &[MerkleAuthPath<PW::Value, D>],
    rows: &[Vec<Vec<P::Value>>],
    salts: &[Vec<Vec<P::Value>>],
) -> Result<Vec<Result<(), MerkleTreeError>>, AllocError>
    ensures count { length rows.now ≡ length paths.now → length salts.now ≡ length paths.now →
        IfOk result (λ verdicts. length verdicts.items ≡ length paths.now) }
    ensures each { let c = salted_params_of scheme.now dimensions.now in
        let is_verdict = IsSaltedVerdictOn PW.Value.eq SALT_ELEMS dimensions.now c (roots_of commit.now) in
        length rows.now ≡ length paths.now → length salts.now ≡ length paths.now →
        IfOk result (λ verdicts. (k : ℕ) → k < length paths.now →
        is_verdict (query_at (shown_paths paths.now) (row_sets rows.now) (row_sets salts.now) k)
        (slice_index_or verdicts.items k (Ok tt))) }
{
    let mut verdicts = Vec::with_capacity(alloc, paths.len())?;
    // A restored opening has as many of both as paths. No condition says so: the checker can't state its goal in time.
    if rows.len() != paths.len() || salts.len() != paths.len() {
        return Ok(verdicts);
    }
    for query in 0..paths.len() {
        let path = &paths[query];
        let siblings = Vec::from_slice(alloc, &path.siblings)?;
        let proof = (copies_of(alloc, &salts[query])?, siblings);
        let opening = BatchOpening::new(copies_of(alloc, &rows[query])?, proof);
        let lent = BatchOpeningRef::from(&opening);
        verdicts.push(scheme.verify_batch(commit, dimensions, path.leaf_index, lent))?;
    }
    Ok(verdicts)
}

/// Verifies a pruned opening with its salts under a cap, restores the path of each query, and verifies each query with
/// its rows, its salts and its restored path under the same cap. The opening is accepted as a whole exactly if it
/// restores and each query is accepted.
///
/// # Errors
///
/// Only `OutOfMemory`.
pub fn salted_verify_by_paths<
    P: PackedValue,
    PW: PackedValue,
    H: CryptographicHasher<P, PW, D>,
    C: PseudoCompressionFunction<PW, N, D>,
    R,
    const N: usize,
    const D: usize,
    const SALT_ELEMS: usize,
>(
    alloc: Global,
    scheme: &MerkleTreeHidingMmcs<P, PW, H, C, R, N, D, SALT_ELEMS>,
    commit: &MerkleCap<P::Value, [PW::Value; D]>,
    dimensions: &[Dimensions],
    indices: &[usize],
    rows: &[Vec<Vec<P::Value>>],
    proof: &SaltedMultiProof<P::Value, PW::Value, D>,
) -> Result<AnswersByPaths<MerkleAuthPath<PW::Value, D>>, MerkleTreeError>
    ensures memory { AnswersUnlessMemory result None }
    ensures answers { let c = salted_params_of scheme.now dimensions.now in
        let p = salted_pruned_borrowed indices.now rows.now proof.now in
        let are = AreAnswersBySaltedPaths P.Value.eq PW.Value.eq SALT_ELEMS dimensions.now c (roots_of commit.now) p in
        IfOk result (λ v. are v.verdict (paths_shown v.paths) v.each.items) }
{
    let verdict = scheme.verify_multi_batch(alloc, commit, dimensions, indices, rows, proof);
    let verdict = unless_out_of_memory(verdict)?;
    let restored = scheme.restore_and_recompute_paths(alloc, dimensions, indices, rows, proof);
    let paths = match unless_out_of_memory(restored)? {
        Ok(paths) => paths,
        Err(error) => {
            return Ok(AnswersByPaths {
                verdict,
                paths: Err(error),
                each: Vec::new(alloc),
            });
        }
    };
    let each = salted_verify_each(alloc, scheme, commit, dimensions, &paths, rows, &proof.0)?;
    Ok(AnswersByPaths {
        verdict,
        paths: Ok(paths),
        each,
    })
}
