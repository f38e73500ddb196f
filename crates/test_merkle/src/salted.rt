//! Trees with salts: one, two or four salts a row, or the greatest number of them, drawn from ChaCha20 or from a
//! generator that counts.

ghost use Rattle.std.specs.Prelude.{◌≤◌, IsTrue};
ghost use Rattle.p3_merkle_core.specs.Geometry.{is_arity};

use crate::answered;
use crate::case::{Case, Fault, compared};
use crate::counting::Counting;
use crate::field::{Item, show_list};
use crate::geometry::tall_matrices;
use crate::matrices::matrices_in;
use crate::opened::{leaf_by, leaves_by, opened_leaf, opened_leaves};
use crate::queries::generator;
use crate::scheme::{Cap, Found, Leaf, Leaves, Statement, Tried};
use p3_hashes::fold::{FoldCompress, FoldHash};
use p3_merkle_tree::{
    InputPair, MerkleTreeError, MerkleTreeHidingMmcs, SaltedMultiProof, SaltedProof,
};
use p3_support::matrix::Matrix;
use rand_chacha::ChaCha20Rng;
use rand_core::CryptoRng;
use std::alloc::Global;
use std::fmt::Write;

/// The scheme of the fold functions with digests of one word and so many salts a row from a generator.
type Salted<R, const N: usize, const SALTS: usize> = MerkleTreeHidingMmcs<
    u32,
    u32,
    FoldHash<1>,
    FoldCompress<N, 1>,
    R,
    N,
    1,
    SALTS,
>;

/// The scheme of these functions with such a cap.
fn salted_scheme<R, const N: usize, const SALTS: usize>(cap: Cap, rng: R) -> Salted<R, N, SALTS>
    requires arity { IsTrue (is_arity N) }
    requires few { N ≤ 16 }
    requires some_salt { 1 ≤ SALTS }
{
    let (hash, compress) = (FoldHash::<1>, FoldCompress::<N, 1>);
    MerkleTreeHidingMmcs::new_with_rule(hash, compress, cap.height, rng, cap.rule)
}

/// The proof of a leaf.
type Proof = SaltedProof<u32, u32, 1>;

/// The proof of several leaves.
type MultiProof = SaltedMultiProof<u32, u32, 1>;

impl<R: CryptoRng, const N: usize, const SALTS: usize> Tried<u32, [u32; 1]>
    for Salted<R, N, SALTS> {
    fn siblings(proof: &Proof) -> &[[u32; 1]] {
        &proof.1
    }

    fn digests(proof: &MultiProof) -> &[[u32; 1]] {
        &proof.1.sibling_hashes
    }

    fn extract(
        &self,
        alloc: Global,
        statement: &Statement<u32, [u32; 1]>,
        first: Leaf<'_, u32, Proof>,
        second: Leaf<'_, u32, Proof>,
    ) -> Result<Option<InputPair<u32, [u32; 1]>>, MerkleTreeError> {
        let Statement { cap, dimensions } = statement;
        self.extract_collision(alloc, cap, dimensions, first.0, first.1, second.0, second.1)
    }

    fn extract_multi(
        &self,
        alloc: Global,
        statement: &Statement<u32, [u32; 1]>,
        first: Leaves<'_, u32, MultiProof>,
        second: Leaves<'_, u32, MultiProof>,
    ) -> Result<Option<Found<u32, [u32; 1]>>, MerkleTreeError> {
        let Statement { cap, dimensions } = statement;
        let ((indices1, rows1, proof1), (indices2, rows2, proof2)) = (first, second);
        self.extract_collision_multi(
            alloc, cap, dimensions, indices1, rows1, proof1, indices2, rows2, proof2,
        )
    }
}

/// Answers a case with salts. After the cap come the number of salts a row and, where salts are drawn, the generator.
// Each number of salts is a scheme of its own to compile, at each arity.
pub fn salted<const N: usize>(case: &mut Case<'_>, kind: &str, cap: Cap) -> Result<(), Fault>
    requires arity { IsTrue (is_arity N) }
    requires few { N ≤ 16 }
{
    match case.take() {
        "1" => by_salts::<N, 1>(case, kind, cap),
        "2" => by_salts::<N, 2>(case, kind, cap),
        "4" => by_salts::<N, 4>(case, kind, cap),
        "18446744073709551615" => by_salts::<N, 18_446_744_073_709_551_615>(case, kind, cap),
        _ => Err(Fault::Unreadable("there are no schemes of as many salts")),
    }
}

/// The same at a number of salts a row. The generator is that of a seed of ChaCha20, or `FIRST STEP`, whose words go up
/// by a step.
fn by_salts<const N: usize, const SALTS: usize>(
    case: &mut Case<'_>,
    kind: &str,
    cap: Cap,
) -> Result<(), Fault>
    requires arity { IsTrue (is_arity N) }
    requires few { N ≤ 16 }
    requires some_salt { 1 ≤ SALTS }
{
    // Kinds that only check openings draw no salts, and have no such field.
    if kind.starts_with("verify") || kind.starts_with("extract") {
        let mut scheme: Salted<_, N, SALTS> = salted_scheme(cap, generator(0)?);
        return answered::<u32, [u32; 1], _, N>(case, kind, cap, &mut scheme);
    }
    let numbers: Vec<usize> = case.read()?;
    match *numbers.as_slice() {
        [first, step] => {
            let last = (first as u64).wrapping_sub(step as u64);
            let rng = Counting {
                step: step as u64,
                last,
            };
            drawn::<Counting, N, SALTS>(case, kind, cap, &mut salted_scheme(cap, rng))
        }
        [seed] => {
            let mut scheme: Salted<_, N, SALTS> = salted_scheme(cap, generator(seed)?);
            match kind {
                "fork" => fork(case, &mut scheme),
                "sweep" => answered::<u32, [u32; 1], _, N>(case, kind, cap, &mut scheme),
                _ => drawn::<ChaCha20Rng, N, SALTS>(case, kind, cap, &mut scheme),
            }
        }
        _ => Err(Fault::Unreadable("the generator is neither a seed nor FIRST STEP")),
    }
}

/// Answers a case of a kind that takes salts from any generator.
fn drawn<R: CryptoRng, const N: usize, const SALTS: usize>(
    case: &mut Case<'_>,
    kind: &str,
    cap: Cap,
    scheme: &mut Salted<R, N, SALTS>,
) -> Result<(), Fault>
    requires arity { IsTrue (is_arity N) }
    requires few { N ≤ 16 }
{
    match kind {
        "open" => open(case, cap, scheme),
        "pruned" => pruned(case, cap, scheme),
        "commits" => commits(case, scheme),
        _ => Err(Fault::Unreadable("there is no such kind of case")),
    }
}

/// A scheme of three salts a row, which no case has. It draws none.
fn other_scheme<const N: usize>(cap: Cap) -> Salted<Counting, N, 3>
    requires arity { IsTrue (is_arity N) }
    requires few { N ≤ 16 }
{
    salted_scheme(cap, Counting { step: 0, last: 0 })
}

/// Why an answer is wrong that a scheme of another number of salts gives otherwise.
const OTHERWISE: Fault = Fault::Wrong("a scheme of three salts a row opens the tree otherwise");

/// `salted_open | ARITY | CAP | SALTS A ROW | GENERATOR | MATRICES | INDEX | ROOTS | ROWS | SALTS | SIBLINGS`: the
/// opening of a leaf. A scheme of another number of salts opens the tree alike.
fn open<R: CryptoRng, const N: usize, const SALTS: usize>(
    case: &mut Case<'_>,
    cap: Cap,
    scheme: &mut Salted<R, N, SALTS>,
) -> Result<(), Fault>
    requires arity { IsTrue (is_arity N) }
    requires few { N ≤ 16 }
{
    let found = opened_leaf::<u32, [u32; 1], _>(case, scheme)?;
    let (other, tree) = (other_scheme::<N>(cap), &found.committed.tree);
    let alike = leaf_by::<u32, [u32; 1], _>(case.alloc, &other, tree, found.queries)?;
    let ((rows, proof), opening) = (alike.unpack(), found.opening.unpack());
    if rows != opening.0 || proof.0 != opening.1.0 || proof.1 != opening.1.1 {
        return Err(OTHERWISE);
    }
    case.list(found.committed.statement.cap.roots())?;
    case.write(&opening)
}

/// `salted_pruned | ARITY | CAP | SALTS A ROW | GENERATOR | MATRICES | INDICES | ROOTS | ROW SETS | SALT SETS |
/// DIGESTS`: the same of several leaves.
fn pruned<R: CryptoRng, const N: usize, const SALTS: usize>(
    case: &mut Case<'_>,
    cap: Cap,
    scheme: &mut Salted<R, N, SALTS>,
) -> Result<(), Fault>
    requires arity { IsTrue (is_arity N) }
    requires few { N ≤ 16 }
{
    let found = opened_leaves::<u32, [u32; 1], _>(case, scheme)?;
    let (other, tree) = (other_scheme::<N>(cap), &found.committed.tree);
    let queries = &found.queries;
    let (rows, proof) = leaves_by::<u32, [u32; 1], _>(case.alloc, &other, tree, queries)?;
    let opening = &found.opening;
    let (digests, expected) = (&proof.1.sibling_hashes, &opening.1.1.sibling_hashes);
    if rows != opening.0 || proof.0 != opening.1.0 || *digests != *expected {
        return Err(OTHERWISE);
    }
    case.list(found.committed.statement.cap.roots())?;
    case.write(&found.opening)
}

/// Commits to matrices, and writes the cap or why they are refused.
fn write_cap<M: Matrix<u32> + Drop, R: CryptoRng, const N: usize, const SALTS: usize>(
    case: &mut Case<'_>,
    scheme: &mut Salted<R, N, SALTS>,
    matrices: Vec<M>,
) -> Result<(), Fault> {
    match compared(scheme.commit(case.alloc, matrices))? {
        Ok((cap, _tree)) => show_list(cap.roots(), &mut case.answer),
        Err(error) => Ok(write!(case.answer, "{error}")?),
    }
}

/// Commits to a batch, and writes the same.
fn write_cap_of<R: CryptoRng, const N: usize, const SALTS: usize>(
    case: &mut Case<'_>,
    scheme: &mut Salted<R, N, SALTS>,
    batch: &str,
) -> Result<(), Fault> {
    let alloc = case.alloc;
    if batch == "none" || batch.contains('x') {
        let dimensions: Vec<_> = Vec::parse(alloc, batch)?;
        write_cap(case, scheme, tall_matrices(alloc, &dimensions)?)
    } else {
        write_cap(case, scheme, matrices_in(alloc, batch)?)
    }
}

/// `salted_commits | ARITY | CAP | SALTS A ROW | GENERATOR | BATCHES | CAPS`: what a scheme answers to batches of
/// matrices or dimensions, one after another: the cap, or why the batch is refused.
fn commits<R: CryptoRng, const N: usize, const SALTS: usize>(
    case: &mut Case<'_>,
    scheme: &mut Salted<R, N, SALTS>,
) -> Result<(), Fault> {
    for (place, batch) in case.take().split(" / ").enumerate() {
        if place > 0 {
            case.answer.push_str(" / ")?;
        }
        write_cap_of(case, scheme, batch)?;
    }
    Ok(())
}

/// `salted_fork | ARITY | CAP | SALTS A ROW | SEED | BATCH | CAPS`: what a fork of a scheme answers to a batch, and
/// what the scheme answers to it then.
fn fork<const N: usize, const SALTS: usize>(
    case: &mut Case<'_>,
    scheme: &mut Salted<ChaCha20Rng, N, SALTS>,
) -> Result<(), Fault> {
    let batch = case.take();
    write_cap_of(case, &mut scheme.fork()?, batch)?;
    case.answer.push_str(" / ")?;
    write_cap_of(case, scheme, batch)
}
