//! The answers of all builders of a scheme, which have to agree.

ghost use Rattle.std.specs.Prelude.{◌≤◌, IsTrue};
ghost use Rattle.p3_merkle_tree.specs.Geometry.{is_arity};

use crate::case::{Case, Salts};
use crate::numbers::Fault;
use crate::scheme::{Answer, answer_to_plain, answer_to_shared};
use p3_hashes::batched::Batched3;
use p3_hashes::fold::{FoldCompress, FoldHash, FoldPacked};
use p3_hashes::lanes::{Lanes, U32x8};
use p3_hashes::sha::{Sha256Nodes, Sha256Rows};
use p3_hashes::sha_eights::{Sha256NodesInEights, Sha256RowsInEights};
use p3_merkle_tree::{MerkleTreeHidingMmcs, MerkleTreeMmcs};
use test_support::counting::Counting;

/// The answer of the scheme of a hash and a compression, plain or of as many salts a row as the case has.
macro_rules! answer_by {
    ($case:ident, $P:ty, $H:ty, $C:ty, $N:tt, $D:tt, $hash:expr, $compress:expr, $($salts:tt)*) => {{
        let Some(Salts { a_row, step, last, .. }) = $case.salts else {
            let mut scheme = MerkleTreeMmcs::<$P, $P, $H, $C, $N, $D>::new_with_rule(
                $hash,
                $compress,
                $case.cap_height,
                $case.rule,
            );
            if matches!($case.call, "layers" | "schedule" | "replay" | "restore") {
                return answer_to_plain(&scheme, $case.call, $case.arguments);
            }
            return answer_to_shared(&mut scheme, $case.call, $case.arguments);
        };
        match a_row {
            $($salts => {
                let mut scheme =
                    MerkleTreeHidingMmcs::<$P, $P, $H, $C, Counting, $N, $D, $salts>::new_with_rule(
                        $hash,
                        $compress,
                        $case.cap_height,
                        Counting { step, last },
                        $case.rule,
                    );
                answer_to_shared(&mut scheme, $case.call, $case.arguments)
            })*
            _ => Err(Fault::NoCase),
        }
    }};
}

/// The answer by the fold functions in lanes, whose hash and compression take `L` messages.
fn fold_in_lanes<P: FoldPacked, const L: usize, const N: usize, const D: usize>(
    case: &Case<'_, '_>,
) -> Answer
    requires arity { IsTrue (is_arity N) }
    requires few_children { N ≤ 16 }
    requires few_words { D ≤ 32 }
    requires some_lane { 1 ≤ P.WIDTH }
{
    answer_by!(case, P, FoldHash<L>, FoldCompress<N, L>, N, D, FoldHash::<L>, FoldCompress::<N, L>, 1 2 3)
}

/// The answer by the fold functions, three messages a call.
fn fold_by_three<const N: usize, const D: usize>(case: &Case<'_, '_>) -> Answer
    requires arity { IsTrue (is_arity N) }
    requires few_children { N ≤ 16 }
    requires few_words { D ≤ 32 }
{
    answer_by!(
        case,
        u32,
        Batched3<FoldHash<1>>,
        Batched3<FoldCompress<N, 1>>,
        N,
        D,
        Batched3(FoldHash::<1>),
        Batched3(FoldCompress::<N, 1>),
        1 2 3
    )
}

/// The answer by SHA-256, one message at a time.
fn sha_singly<const N: usize>(case: &Case<'_, '_>) -> Answer
    requires arity { IsTrue (is_arity N) }
    requires few_children { N ≤ 16 }
{
    answer_by!(case, u8, Sha256Rows, Sha256Nodes<N>, N, 32, Sha256Rows, Sha256Nodes::<N>, 1 2 3)
}

/// The answer by SHA-256 in eights.
fn sha_in_eights<const N: usize>(case: &Case<'_, '_>) -> Answer
    requires arity { IsTrue (is_arity N) }
    requires few_children { N ≤ 16 }
{
    answer_by!(
        case,
        u8,
        Sha256RowsInEights,
        Sha256NodesInEights<N>,
        N,
        32,
        Sha256RowsInEights,
        Sha256NodesInEights::<N>,
        1 2 3
    )
}

/// The answer by SHA-256, three messages a call.
fn sha_by_three<const N: usize>(case: &Case<'_, '_>) -> Answer
    requires arity { IsTrue (is_arity N) }
    requires few_children { N ≤ 16 }
{
    answer_by!(
        case,
        u8,
        Batched3<Sha256Rows>,
        Batched3<Sha256Nodes<N>>,
        N,
        32,
        Batched3(Sha256Rows),
        Batched3(Sha256Nodes::<N>),
        1 2 3
    )
}

/// The answer if the others are the same.
fn agreed(answer: Answer, others: &[Answer]) -> Answer {
    for other in others {
        if *other != answer {
            return Err(Fault::Disputed);
        }
    }
    answer
}

/// The answer by the fold functions: one by one, packed by two and by eight, in batches of eight, and by three.
pub fn fold<const N: usize, const D: usize>(case: &Case<'_, '_>) -> Answer
    requires arity { IsTrue (is_arity N) }
    requires few_children { N ≤ 16 }
    requires few_words { D ≤ 32 }
{
    let found = fold_in_lanes::<u32, 1, N, D>(case);
    let others = [
        fold_in_lanes::<Lanes<u32>, 1, N, D>(case),
        fold_in_lanes::<U32x8, 1, N, D>(case),
        fold_in_lanes::<u32, 8, N, D>(case),
        fold_by_three::<N, D>(case),
    ];
    agreed(found, &others)
}

/// The answer by SHA-256: one message at a time, in eights, and by three.
pub fn sha<const N: usize>(case: &Case<'_, '_>) -> Answer
    requires arity { IsTrue (is_arity N) }
    requires few_children { N ≤ 16 }
{
    agreed(
        sha_singly::<N>(case),
        &[sha_in_eights::<N>(case), sha_by_three::<N>(case)],
    )
}
