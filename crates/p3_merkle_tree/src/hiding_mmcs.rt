//! The salted scheme: its type, its constructors, its commitments, and forks with a generator of their own. For a
//! commitment heights and widths are checked, salts are drawn, and the plain scheme commits.

ghost use Rattle.std.specs.Prelude.{◌≡◌, ◌≤◌, ◌⊎◌, IfErr, IfOk, IsOk, IsTrue, OnOk, map};
ghost use Rattle.p3_support.specs.Batches.{widened, CanWiden};
ghost use Rattle.p3_support.specs.Batches.{dimensions_in, heights_of};
ghost use Rattle.p3_support.specs.Pairs.{left_of};
ghost use Rattle.p3_merkle_core.specs.Geometry.{is_arity, IsLawful};
ghost use Rattle.p3_merkle_core.specs.Refusals.{AnswersUnlessMemory};
ghost use Rattle.p3_merkle_core.specs.Views.{matrix_of};
ghost use Rattle.p3_merkle_tree.specs.Inner.SaltedParts.{pair_matrix};
ghost use Rattle.p3_merkle_tree.specs.SaltRefusals.{salted_commit_refusal};
ghost use Rattle.p3_merkle_tree.specs.Salted.{after_salts, salted_matrices, IsAfterSome};
ghost use Rattle.p3_merkle_tree.specs.SaltedTrees.{HaveSaltColumns};

use crate::mmcs::{MerkleTreeMmcs, Scheme};
use crate::salts::{check_widening, widened_dimensions};
use p3_merkle_core::cap::CapRule;
use p3_merkle_core::error::MerkleTreeError;
use p3_merkle_core::gate::check_heights;
use p3_merkle_core::pruning::PrunedMerklePaths;
use p3_merkle_prover::checked::CheckedMatrices;
use p3_merkle_prover::tree::MerkleTree;
use p3_support::compress::PseudoCompressionFunction;
use p3_support::hasher::CryptographicHasher;
use p3_support::matrix::{Dimensions, Matrix, RowMajorMatrix, dimensions_of};
use p3_support::opening::MerkleCap;
use p3_support::packed::PackedValue;
use p3_support::pair::HorizontalPair;
use p3_support::salts::SaltWord;
use rand_core::{CryptoRng, Rng, SeedableRng};
use std::alloc::{AllocError, Global};
use std::marker::PhantomData;

/// The salted scheme of a hasher `H` and a compression `C`, with digests `X` and groups `G` of `N` digests. `P` packs
/// the words of rows, and `PW` those of digests; the generator `R` draws `SALT_ELEMS` salts for each row.
/// [`MerkleTreeHidingMmcs`] is this scheme at digests of words.
///
/// `SALT_ELEMS` is at least 1; the other parameters are as in [`Scheme`].
#[derive(Debug, Drop)]
pub struct HidingScheme<
    P: PackedValue,
    PW: PackedValue,
    H: CryptographicHasher<P, PW, D>,
    C: PseudoCompressionFunction<PW, N, D>,
    R,
    X,
    G,
    const N: usize,
    const D: usize,
    const SALT_ELEMS: usize,
> {
    pub(crate) plain: Scheme<P, PW, H, C, X, G, N, D>,
    pub(crate) generator: R,
    ghost some_salt: { 1 ≤ SALT_ELEMS },
}

/// A scheme that commits to matrices of words `P::Value`, each row followed by `SALT_ELEMS` random words, by digests of
/// `D` words `PW::Value`, where a node has at most `N` children (`MerkleTreeHidingMmcs` in Plonky3).
pub type MerkleTreeHidingMmcs<
    P: PackedValue,
    PW: PackedValue,
    H: CryptographicHasher<P, PW, D>,
    C: PseudoCompressionFunction<PW, N, D>,
    R,
    const N: usize,
    const D: usize,
    const SALT_ELEMS: usize,
> = HidingScheme<P, PW, H, C, R, [PW::Value; D], [[PW::Value; D]; N], N, D, SALT_ELEMS>;

/// A tree over matrices `M` of values `T`, each beside its salts, with digests of `D` words `W`.
pub type SaltedTree<T, W, M, const N: usize, const D: usize> = MerkleTree<
    T,
    W,
    HorizontalPair<T, M, RowMajorMatrix<T>>,
    N,
    D,
>;

/// The proof of one index: the salts of each row, and the siblings on the path.
pub type SaltedProof<T, W, const D: usize> = (Vec<Vec<T>>, Vec<[W; D]>);

/// The proof of several indices: the salts of each row of each index, and one pruned proof.
pub type SaltedMultiProof<T, W, const D: usize> = (Vec<Vec<Vec<T>>>, PrunedMerklePaths<W, D>);

impl<
    P: PackedValue,
    PW: PackedValue,
    H: CryptographicHasher<P, PW, D>,
    C: PseudoCompressionFunction<PW, N, D>,
    R,
    X,
    G,
    const N: usize,
    const D: usize,
    const SALT_ELEMS: usize,
> HidingScheme<P, PW, H, C, R, X, G, N, D, SALT_ELEMS> {
    ghost use Rattle.rand_core.specs.Stream.{fill_bytes};
    ghost use Rattle.p3_merkle_tree.specs.Schemes.{cap_height_of, cap_rule_of};
    ghost use Rattle.p3_merkle_tree.specs.HidingSchemes.{generator_of, plain_of};

    /// The cap height that was given to [`new`](Self::new), in levels below the root.
    pub fn cap_height(&self) -> usize
        ensures { result ≡ cap_height_of (plain_of self.now) }
    {
        self.plain.cap_height()
    }

    /// The rule that chooses the cap's layer.
    pub fn cap_rule(&self) -> CapRule
        ensures { result ≡ cap_rule_of (plain_of self.now) }
    {
        self.plain.cap_rule()
    }

    /// A scheme that accepts the same openings, with a generator of its own. The new generator is seeded with the next
    /// bytes of this scheme's generator, which then continues after them. That the two draw different salts is not
    /// proved. It can't be cloned, since a clone would draw the same salts again.
    ///
    /// # Errors
    ///
    /// None today: it does not allocate. The `Result` leaves room for a scheme that does.
    pub fn fork(&mut self) -> Result<Self, MerkleTreeError>
    where
        H: Copy,
        C: Copy,
        R: CryptoRng + SeedableRng,
        X: Copy,
        G: Copy,
        ensures made { IsOk result }
        ensures scheme { IfOk result (λ scheme. plain_of scheme ≡ plain_of self.old) }
        ensures generator { let seed = (fill_bytes R.Seed.len (R.stream (generator_of self.old))).0 in
            IfOk result (λ scheme. generator_of scheme ≡ R.of_seed seed) }
        ensures unchanged { plain_of self.new ≡ plain_of self.old }
        ensures generator_after { let rest = (fill_bytes R.Seed.len (R.stream (generator_of self.old))).1 in
            R.stream (generator_of self.new) ≡ rest }
    {
        let generator = R::from_rng(&mut self.generator);
        Ok(HidingScheme {
            plain: self.plain,
            generator,
        })
    }
}

impl<
    P: PackedValue,
    PW: PackedValue,
    H: CryptographicHasher<P, PW, D>,
    C: PseudoCompressionFunction<PW, N, D>,
    R,
    const N: usize,
    const D: usize,
    const SALT_ELEMS: usize,
> MerkleTreeHidingMmcs<P, PW, H, C, R, N, D, SALT_ELEMS> {
    ghost use Rattle.p3_support.specs.Shown.{roots_of};
    ghost use Rattle.p3_merkle_core.specs.Nodes.{shape};
    ghost use Rattle.p3_merkle_core.specs.Views.{batch_of};
    ghost use Rattle.p3_merkle_core.specs.declared.cap.CapRule.TheVariants.{Lowered};
    ghost use Rattle.p3_merkle_core.specs.declared.error.MerkleTreeError.TheVariants.{OutOfMemory};
    ghost use Rattle.p3_merkle_prover.specs.Parts.{matrices_of, tree_batch};
    ghost use Rattle.p3_merkle_tree.specs.Schemes.{cap_height_of, cap_rule_of, compression_of, hash_of};
    ghost use Rattle.p3_merkle_tree.specs.HidingSchemes.{generator_of, plain_of};
    ghost use Rattle.p3_merkle_tree.specs.Salted.{salted_batch};
    ghost use Rattle.p3_merkle_tree.specs.SaltedOpened.{CommitsSalted, Draws};

    /// The salted scheme of a hasher and a compression. Its cap is the layer `cap_height` levels below the root, or the
    /// highest layer to which a matrix belongs if that is nearer to the root. This is the rule [`CapRule::Lowered`],
    /// under which a cap binds every row and salt of every matrix. `SALT_ELEMS` salts a row are drawn from `rng`.
    ///
    /// `SALT_ELEMS` must be at least 1, `N` a power of two from 2 to 2^62, and both packings must have equally many
    /// lanes, at least one. It does not allocate.
    pub fn new(
        hash: H,
        compress: C,
        cap_height: usize,
        rng: R,
    ) -> MerkleTreeHidingMmcs<P, PW, H, C, R, N, D, SALT_ELEMS>
        requires arity { IsTrue (is_arity N) }
        requires lanes { P.WIDTH ≡ PW.WIDTH }
        requires some_lane { 1 ≤ P.WIDTH }
        requires some_salt { 1 ≤ SALT_ELEMS }
        ensures hash { hash_of (plain_of result) ≡ hash }
        ensures compress { compression_of (plain_of result) ≡ compress }
        ensures cap_height { cap_height_of (plain_of result) ≡ cap_height }
        ensures rule { cap_rule_of (plain_of result) ≡ Lowered }
        ensures generator { generator_of result ≡ rng }
    {
        Self::new_with_rule(hash, compress, cap_height, rng, CapRule::Lowered)
    }

    /// The salted scheme as [`new`](Self::new) builds it, under the same conditions, but with `rule` to choose the
    /// cap's layer: see [`CapRule`]. A cap of one rule is in general refused under the other. It does not allocate.
    pub fn new_with_rule(
        hash: H,
        compress: C,
        cap_height: usize,
        rng: R,
        rule: CapRule,
    ) -> MerkleTreeHidingMmcs<P, PW, H, C, R, N, D, SALT_ELEMS>
        requires arity { IsTrue (is_arity N) }
        requires lanes { P.WIDTH ≡ PW.WIDTH }
        requires some_lane { 1 ≤ P.WIDTH }
        requires some_salt { 1 ≤ SALT_ELEMS }
        ensures hash { hash_of (plain_of result) ≡ hash }
        ensures compress { compression_of (plain_of result) ≡ compress }
        ensures cap_height { cap_height_of (plain_of result) ≡ cap_height }
        ensures rule { cap_rule_of (plain_of result) ≡ rule }
        ensures generator { generator_of result ≡ rng }
    {
        HidingScheme {
            plain: MerkleTreeMmcs::new_with_rule(hash, compress, cap_height, rule),
            generator: rng,
        }
    }

    /// Commits to matrices, each row followed by its salts. Returns the cap of their tree, and the tree, which owns
    /// each matrix beside its salts, in input order. It is the plain scheme's commitment to the salted matrices.
    ///
    /// The salts are drawn from the scheme's generator, `SALT_ELEMS` for each row: matrix by matrix in input order, row
    /// by row, each from one call of `next_u64`. The next commitment draws from where this one ended.
    ///
    /// # Errors
    ///
    /// The first of these that applies, where `OutOfMemory` may come at any time:
    ///
    /// - `EmptyBatch` if no matrix has a row;
    /// - `TooLarge` for the first height above 2^62;
    /// - `IncompatibleHeights` for the first height that is not the tallest one halved and rounded up some number of
    ///   times;
    /// - `TooLarge` for the first matrix whose width with its salts does not fit `usize`, with its width as the size.
    ///
    /// These four draw nothing from the generator. With `OutOfMemory` the generator has drawn the salts of the first
    /// few matrices, perhaps of none or of all.
    pub fn commit<M: Matrix<P::Value> + Drop>(
        &mut self,
        alloc: Global,
        matrices: Vec<M>,
    ) -> Result<
        (
            MerkleCap<P::Value, [PW::Value; D]>,
            SaltedTree<P::Value, PW::Value, M, N, D>,
        ),
        MerkleTreeError,
    >
    where
        R: CryptoRng,
        P::Value: SaltWord,
        ensures answer { let b = batch_of M.height_of M.width_of M.row_of N matrices.items in
            AnswersUnlessMemory result (salted_commit_refusal SALT_ELEMS (shape b).dimensions) }
        ensures matrices { IfOk result (λ (cap, tree). map left_of (matrices_of tree) ≡ matrices.items) }
        ensures batch { let b = batch_of M.height_of M.width_of M.row_of N matrices.items in
            let drawn = R.stream (generator_of self.old) in
            IfOk result (λ (cap, tree). tree_batch tree ≡ salted_batch P.Value.of_salt_word SALT_ELEMS b drawn) }
        ensures committed { IfOk result (λ (cap, tree). CommitsSalted self.new (roots_of cap) tree) }
        ensures drawn { let b = batch_of M.height_of M.width_of M.row_of N matrices.items in
            Draws R.stream b.matrices self.old self.new result }
        ensures untouched { IfErr result (λ e. (e ≡ OutOfMemory) ⊎ (generator_of self.new ≡ generator_of self.old)) }
    {
        let dimensions = salted_dimensions(alloc, &matrices, SALT_ELEMS)?;
        let pairs = salted_pairs(alloc, &mut self.generator, dimensions, SALT_ELEMS, matrices)?;
        self.plain.commit_checked(alloc, pairs)
    }
}

/// The dimensions of `matrices` with `salt_elems` more columns each. It checks that a tree can be built over their
/// heights, and that each width fits `usize` with the further columns: the errors are those of [`check_heights`], then
/// those of [`check_widening`]. `OutOfMemory` may come at any time.
fn salted_dimensions<T, M: Matrix<T>>(
    alloc: Global,
    matrices: &[M],
    salt_elems: usize,
) -> Result<Vec<Dimensions>, MerkleTreeError>
    ensures answer { let ds = dimensions_in M.height_of M.width_of matrices.now in
        AnswersUnlessMemory result (salted_commit_refusal salt_elems ds) }
    ensures lawful { IfOk result (λ v. IsLawful (heights_of v.items)) }
    ensures fits { IfOk result (λ v. CanWiden salt_elems (dimensions_in M.height_of M.width_of matrices.now)) }
    ensures wider { let ds = dimensions_in M.height_of M.width_of matrices.now in
        IfOk result (λ v. v.items ≡ widened salt_elems ds) }
{
    let dimensions = dimensions_of(alloc, matrices)?;
    check_heights(&dimensions)?;
    check_widening(&dimensions, salt_elems)?;
    Ok(widened_dimensions(alloc, &dimensions, salt_elems)?)
}

/// Draws `salt_elems` salts, at least 1, for each row of `matrices`, and returns each matrix beside its salts. Each
/// salt takes one call of `next_u64`: matrix by matrix in input order, row by row. `dimensions` must be what
/// [`salted_dimensions`] returns of the matrices. `AllocError` if memory runs out.
fn salted_pairs<T: SaltWord, M: Matrix<T> + Drop, R: Rng>(
    alloc: Global,
    rng: &mut R,
    dimensions: Vec<Dimensions>,
    salt_elems: usize,
    matrices: Vec<M>,
) -> Result<CheckedMatrices<T, HorizontalPair<T, M, RowMajorMatrix<T>>>, AllocError>
    requires some_salt { 1 ≤ salt_elems }
    requires lawful { IsLawful (heights_of dimensions.items) }
    requires fits { CanWiden salt_elems (dimensions_in M.height_of M.width_of matrices.items) }
    requires wider { dimensions.items ≡ widened salt_elems (dimensions_in M.height_of M.width_of matrices.items) }
    ensures matrices { IfOk result (λ pairs. map left_of pairs.matrices.items ≡ matrices.items) }
    ensures columns { IfOk result (λ pairs. HaveSaltColumns salt_elems pairs.matrices.items) }
    ensures salted { let ms = map (matrix_of M.height_of M.width_of M.row_of) matrices.items in
        IfOk result (λ pairs. map pair_matrix pairs.matrices.items ≡ salted_matrices T.of_salt_word salt_elems ms
        (R.stream rng.old)) }
    ensures generator_after { let ms = map (matrix_of M.height_of M.width_of M.row_of) matrices.items in
        OnOk result (R.stream rng.new ≡ after_salts salt_elems ms (R.stream rng.old)) }
    ensures further { let ms = map (matrix_of M.height_of M.width_of M.row_of) matrices.items in
        IsAfterSome salt_elems ms (R.stream rng.old) (R.stream rng.new) }
{
    let mut pairs = Vec::with_capacity(alloc, matrices.len())?;
    for matrix in matrices {
        let salts = RowMajorMatrix::rand(alloc, rng, matrix.height(), salt_elems)?;
        pairs.push(HorizontalPair::new(matrix, salts))?;
    }
    Ok(CheckedMatrices {
        matrices: pairs,
        dimensions,
        item: PhantomData,
    })
}
