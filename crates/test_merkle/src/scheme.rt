//! The schemes that cases try, and what they ask of each.

ghost use Rattle.std.specs.Prelude.{◌≤◌, IsTrue};
ghost use Rattle.p3_merkle_core.specs.Geometry.{is_arity};

use crate::case::{Case, Fault};
use crate::field::{Field, Item};
use crate::matrices::Word;
use p3_hashes::fold::{FoldCompress, FoldHash};
use p3_merkle_tree::{
    AuthPath, BatchOpeningRef, CapRule, InputPair, MerkleCap, MerkleTreeError, MerkleTreeMmcs,
    PrunedProof,
};
use p3_support::compress::PseudoCompressionFunction;
use p3_support::hasher::CryptographicHasher;
use p3_support::matrix::{Dimensions, RowMajorMatrix};
use p3_support::mmcs::Mmcs;
use p3_support::packed::PackedValue;
use std::alloc::Global;

/// How far below the root a cap is asked for, in levels, and by which rule.
#[derive(Clone, Copy)]
pub struct Cap {
    /// The cap height.
    pub height: usize,
    /// The rule.
    pub rule: CapRule,
}

/// The scheme of the fold functions, with digests of `D` words.
pub type FoldScheme<const N: usize, const D: usize> = MerkleTreeMmcs<
    u32,
    u32,
    FoldHash<1>,
    FoldCompress<N, 1>,
    N,
    D,
>;

/// The scheme of these functions with such a cap.
pub fn scheme_of<
    P: PackedValue,
    H: CryptographicHasher<P, P, D>,
    C: PseudoCompressionFunction<P, N, D>,
    const N: usize,
    const D: usize,
>(hash: H, compress: C, cap: Cap) -> MerkleTreeMmcs<P, P, H, C, N, D>
    requires arity { IsTrue (is_arity N) }
    requires some_lane { 1 ≤ P.WIDTH }
{
    MerkleTreeMmcs::new_with_rule(hash, compress, cap.height, cap.rule)
}

/// The scheme of the fold functions with such a cap.
pub fn fold_scheme<const N: usize>(cap: Cap) -> FoldScheme<N, 1>
    requires arity { IsTrue (is_arity N) }
    requires few { N ≤ 16 }
{
    scheme_of(FoldHash::<1>, FoldCompress::<N, 1>, cap)
}

/// What an opening is checked against.
#[derive(Drop)]
pub struct Statement<T, X> {
    /// The cap.
    pub cap: MerkleCap<T, X>,
    /// The dimensions of the matrices, without salts.
    pub dimensions: Vec<Dimensions>,
}

impl<T: Word, X: Item> Statement<T, X> {
    /// What the next two fields are: the roots of the cap, and dimensions.
    pub fn read(case: &mut Case<'_>) -> Result<Statement<T, X>, Fault> {
        let (roots, dimensions) = case.read()?;
        let cap = MerkleCap::new(roots);
        Ok(Statement { cap, dimensions })
    }
}

/// The opening of the leaf of an index.
pub type Leaf<'a, T, P> = (usize, BatchOpeningRef<'a, T, P>);

/// The opening of several leaves: their indices, the rows of each, and one proof.
pub type Leaves<'a, T, P> = (&'a [usize], &'a [Vec<Vec<T>>], &'a P);

/// Two queries, by their places in their lists, and two inputs with one digest on their paths.
pub type Found<T, X> = (usize, usize, InputPair<T, X>);

/// A scheme with words `T` and digests `X`, and the calls of schemes that no trait of the library has.
pub trait Tried<T: Word, X: Item>: Mmcs<
    T,
    RowMajorMatrix<T>,
    Commitment = MerkleCap<T, X>,
    Error = MerkleTreeError,
    Proof: Field,
    MultiProof: Field,
> {
    /// The siblings of a leaf.
    fn siblings(proof: &Self::Proof) -> &[X];

    /// The digests that open several leaves.
    fn digests(proof: &Self::MultiProof) -> &[X];

    /// The paths that the opening of several leaves restores. A scheme with salts restores none.
    fn restore(
        &self,
        _alloc: Global,
        _dimensions: &[Dimensions],
        _leaves: Leaves<'_, T, Self::MultiProof>,
    ) -> Result<Option<Vec<AuthPath<X>>>, MerkleTreeError> {
        Ok(None)
    }

    /// The verdict on rows with a restored path.
    fn verify_path(
        &self,
        _statement: &Statement<T, X>,
        _rows: &[Vec<T>],
        _path: &AuthPath<X>,
    ) -> Result<(), MerkleTreeError> {
        Ok(())
    }

    /// What two openings of a leaf lead to.
    fn extract(
        &self,
        alloc: Global,
        statement: &Statement<T, X>,
        first: Leaf<'_, T, Self::Proof>,
        second: Leaf<'_, T, Self::Proof>,
    ) -> Result<Option<InputPair<T, X>>, MerkleTreeError>;

    /// What two openings of several leaves lead to.
    fn extract_multi(
        &self,
        alloc: Global,
        statement: &Statement<T, X>,
        first: Leaves<'_, T, Self::MultiProof>,
        second: Leaves<'_, T, Self::MultiProof>,
    ) -> Result<Option<Found<T, X>>, MerkleTreeError>;
}

impl<
    T: Word,
    P: PackedValue<Value = T>,
    H: CryptographicHasher<P, P, D>,
    C: PseudoCompressionFunction<P, N, D>,
    const N: usize,
    const D: usize,
> Tried<T, [T; D]> for MerkleTreeMmcs<P, P, H, C, N, D>
where
    [T; D]: Item,
{
    fn siblings(proof: &Vec<[T; D]>) -> &[[T; D]] {
        proof
    }

    fn digests(proof: &PrunedProof<[T; D]>) -> &[[T; D]] {
        &proof.sibling_hashes
    }

    fn restore(
        &self,
        alloc: Global,
        dimensions: &[Dimensions],
        leaves: Leaves<'_, T, PrunedProof<[T; D]>>,
    ) -> Result<Option<Vec<AuthPath<[T; D]>>>, MerkleTreeError> {
        let (indices, rows, proof) = leaves;
        let paths = self.restore_and_recompute_paths(alloc, dimensions, indices, rows, proof)?;
        Ok(Some(paths))
    }

    fn verify_path(
        &self,
        statement: &Statement<T, [T; D]>,
        rows: &[Vec<T>],
        path: &AuthPath<[T; D]>,
    ) -> Result<(), MerkleTreeError> {
        let Statement { cap, dimensions } = statement;
        let opening = BatchOpeningRef::new(rows, &path.siblings);
        self.verify_batch(cap, dimensions, path.leaf_index, opening)
    }

    fn extract(
        &self,
        alloc: Global,
        statement: &Statement<T, [T; D]>,
        first: Leaf<'_, T, Vec<[T; D]>>,
        second: Leaf<'_, T, Vec<[T; D]>>,
    ) -> Result<Option<InputPair<T, [T; D]>>, MerkleTreeError> {
        let Statement { cap, dimensions } = statement;
        self.extract_collision(alloc, cap, dimensions, first.0, first.1, second.0, second.1)
    }

    fn extract_multi(
        &self,
        alloc: Global,
        statement: &Statement<T, [T; D]>,
        first: Leaves<'_, T, PrunedProof<[T; D]>>,
        second: Leaves<'_, T, PrunedProof<[T; D]>>,
    ) -> Result<Option<Found<T, [T; D]>>, MerkleTreeError> {
        let Statement { cap, dimensions } = statement;
        let ((indices1, rows1, proof1), (indices2, rows2, proof2)) = (first, second);
        self.extract_collision_multi(
            alloc, cap, dimensions, indices1, rows1, proof1, indices2, rows2, proof2,
        )
    }
}
