//! What is answered to openings that a line has, and what two of them lead to.

use crate::case::{Case, Fault, compared};
use crate::field::Item;
use crate::matrices::Word;
use crate::scheme::{Leaves, Statement, Tried};
use p3_merkle_tree::{BatchOpeningRef, InputPair, MerkleTreeError, Place};
use p3_support::matrix::Dimensions;
use std::alloc::Global;
use std::fmt::Write;

/// The fields of the opening of no leaf, with salts or without.
const NO_LEAF: &str = "- | - | - | -";

/// The opening of a leaf that the next fields are: an index, rows and their proof.
type OwnLeaf<T, P> = (usize, (Vec<Vec<T>>, P));

/// The opening of several leaves that the next fields are: indices, the rows of each, and their proof.
pub type OwnLeaves<T, P> = (Vec<usize>, (Vec<Vec<Vec<T>>>, P));

/// The opening of several leaves, borrowed.
pub fn borrowed<T, P>(leaves: &OwnLeaves<T, P>) -> Leaves<'_, T, P> {
    let (indices, (rows, proof)) = leaves;
    (indices, rows, proof)
}

/// The verdict that an extraction stands for which has nothing to find.
fn verdict_of<F: Drop>(
    found: Result<Option<F>, MerkleTreeError>,
) -> Result<Result<(), MerkleTreeError>, Fault> {
    match compared(found)? {
        Ok(None) => Ok(Ok(())),
        Ok(Some(_)) => Err(Fault::Wrong("an opening collides with itself")),
        Err(error) => Ok(Err(error)),
    }
}

/// Fails where an answer is not the verdict.
fn check_same(
    verdict: &Result<(), MerkleTreeError>,
    answer: &Result<(), MerkleTreeError>,
) -> Result<(), Fault> {
    if *verdict != *answer {
        return Err(Fault::Wrong("another check is answered otherwise"));
    }
    Ok(())
}

/// `verify | ARITY | CAP | ROOTS | DIMENSIONS | INDEX | ROWS | SIBLINGS | ANSWER`: checks an opening. The extraction
/// from the opening and itself answers the same. With salts there are `SALTS A ROW` before the roots, and the salts of
/// the rows before the siblings.
pub fn verify<T: Word, X: Item, S: Tried<T, X>>(
    case: &mut Case<'_>,
    scheme: &S,
) -> Result<(), Fault> {
    let statement = Statement::read(case)?;
    let (index, (rows, proof)): OwnLeaf<T, S::Proof> = case.read()?;
    let opening = BatchOpeningRef::new(&rows, &proof);
    let Statement { cap, dimensions } = &statement;
    let verdict = scheme.verify_batch(case.alloc, cap, dimensions, index, opening);
    let verdict = compared(verdict)?;
    let leaf = (index, opening);
    let found = scheme.extract(case.alloc, &statement, leaf, leaf);
    check_same(&verdict, &verdict_of(found)?)?;
    case.verdict(&verdict)
}

/// The verdict on several leaves.
fn verdict_on<T: Word, X: Item, S: Tried<T, X>>(
    alloc: Global,
    scheme: &S,
    statement: &Statement<T, X>,
    leaves: Leaves<'_, T, S::MultiProof>,
) -> Result<Result<(), MerkleTreeError>, Fault> {
    let Statement { cap, dimensions } = statement;
    let (indices, rows, proof) = leaves;
    compared(scheme.verify_multi_batch(alloc, cap, dimensions, indices, rows, proof))
}

/// The verdict on several leaves, query by query: why their paths can't be restored, else the first refusal of a query
/// with its path. A scheme that restores no paths has the verdict on all at once.
fn verdict_by_paths<T: Word, X: Item, S: Tried<T, X>>(
    alloc: Global,
    scheme: &S,
    statement: &Statement<T, X>,
    leaves: Leaves<'_, T, S::MultiProof>,
) -> Result<(), MerkleTreeError> {
    let Statement { cap, dimensions } = statement;
    let (indices, rows, proof) = leaves;
    let Some(paths) = scheme.restore(alloc, dimensions, leaves)? else {
        return scheme.verify_multi_batch(alloc, cap, dimensions, indices, rows, proof);
    };
    for (rows, path) in rows.iter().zip(&paths) {
        scheme.verify_path(statement, rows, path)?;
    }
    Ok(())
}

/// How many queries an opening has at most whose queries are compared each with each.
const LONG: usize = 64;

/// `verify_pruned | ARITY | CAP | ROOTS | DIMENSIONS | INDICES | ROW SETS | DIGESTS | ANSWER`: checks an opening of
/// several leaves. The extractions from it and the opening of no leaf, in either order, and from it and itself answer
/// the same, and so, without salts, do the checks of its queries with their restored paths. With salts there are
/// `SALTS A ROW` before the roots, and `SALT SETS` before the digests.
pub fn verify_pruned<T: Word, X: Item, S: Tried<T, X>>(
    case: &mut Case<'_>,
    scheme: &S,
) -> Result<(), Fault> {
    let alloc = case.alloc;
    let statement = Statement::read(case)?;
    let opening: OwnLeaves<T, S::MultiProof> = case.read()?;
    let no_leaf: OwnLeaves<T, S::MultiProof> = Case::of(alloc, NO_LEAF, case.rule).read()?;
    let (leaves, none) = (borrowed(&opening), borrowed(&no_leaf));
    let verdict = verdict_on::<T, X, S>(alloc, scheme, &statement, leaves)?;
    let by_paths = verdict_by_paths::<T, X, S>(alloc, scheme, &statement, leaves);
    check_same(&verdict, &compared(by_paths)?)?;
    let before_none = scheme.extract_multi(alloc, &statement, leaves, none);
    check_same(&verdict, &verdict_of(before_none)?)?;
    // Heights that no tree has are the first opening's error.
    let of_none = verdict_on::<T, X, S>(alloc, scheme, &statement, none)?;
    let after_none = verdict_of(scheme.extract_multi(alloc, &statement, none, leaves))?;
    check_same(
        if of_none.is_err() { &of_none } else { &verdict },
        &after_none,
    )?;
    if leaves.0.len() <= LONG {
        let twice = scheme.extract_multi(alloc, &statement, leaves, leaves);
        check_same(&verdict, &verdict_of(twice)?)?;
    }
    case.verdict(&verdict)
}

/// Writes the place of a collision.
fn write_place(case: &mut Case<'_>, place: &Place) -> Result<(), Fault> {
    case.begin()?;
    match place {
        Place::Leaf => case.answer.push_str("leaf")?,
        Place::Group(level) => write!(case.answer, "group {level}")?,
        Place::Rows(level) => write!(case.answer, "rows {level}")?,
        Place::Pair(level) => write!(case.answer, "pair {level}")?,
    }
    Ok(())
}

/// Writes the place of a collision with both inputs.
fn write_collision<T: Word, X: Item>(
    case: &mut Case<'_>,
    collision: &InputPair<T, X>,
) -> Result<(), Fault> {
    match collision {
        InputPair::Words {
            place,
            first,
            second,
        } => {
            write_place(case, place)?;
            case.list(first)?;
            case.list(second)
        }
        InputPair::Digests {
            place,
            first,
            second,
        } => {
            write_place(case, place)?;
            case.list(first)?;
            case.list(second)
        }
    }
}

/// `extract | ARITY | CAP | ROOTS | DIMENSIONS | INDEX | ROWS | SIBLINGS | INDEX | ROWS | SIBLINGS | ANSWER`: what two
/// openings lead to, which is `none`, or a place with the input of the first and that of the second. With salts there
/// are `SALTS A ROW` before the roots, and the salts of the rows before the siblings.
pub fn extract<T: Word, X: Item, S: Tried<T, X>>(
    case: &mut Case<'_>,
    scheme: &S,
) -> Result<(), Fault> {
    let statement = Statement::read(case)?;
    let (index1, (rows1, proof1)): OwnLeaf<T, S::Proof> = case.read()?;
    let (index2, (rows2, proof2)): OwnLeaf<T, S::Proof> = case.read()?;
    let first = (index1, BatchOpeningRef::new(&rows1, &proof1));
    let second = (index2, BatchOpeningRef::new(&rows2, &proof2));
    match &scheme.extract(case.alloc, &statement, first, second)? {
        Some(collision) => write_collision(case, collision),
        None => Ok(case.answer.push_str("none")?),
    }
}

/// `extract_pruned | ARITY | CAP | ROOTS | DIMENSIONS | INDICES | ROW SETS | DIGESTS | INDICES | ROW SETS | DIGESTS |
/// ANSWER`: what two openings of several leaves lead to, which is `none`, or the places of two queries in their lists,
/// and then a place with the input of the first and that of the second. With salts there are `SALTS A ROW` before the
/// roots, and `SALT SETS` before the digests.
pub fn extract_pruned<T: Word, X: Item, S: Tried<T, X>>(
    case: &mut Case<'_>,
    scheme: &S,
) -> Result<(), Fault> {
    let statement = Statement::read(case)?;
    let first: OwnLeaves<T, S::MultiProof> = case.read()?;
    let second: OwnLeaves<T, S::MultiProof> = case.read()?;
    let (leaves1, leaves2) = (borrowed(&first), borrowed(&second));
    match &scheme.extract_multi(case.alloc, &statement, leaves1, leaves2)? {
        Some((query1, query2, collision)) => {
            case.list(&[*query1, *query2])?;
            write_collision(case, collision)
        }
        None => Ok(case.answer.push_str("none")?),
    }
}

/// `restore | ARITY | CAP | DIMENSIONS | INDICES | ROW SETS | DIGESTS | PATHS`: the index and the siblings of each
/// query.
pub fn restore<T: Word, X: Item, S: Tried<T, X>>(
    case: &mut Case<'_>,
    scheme: &S,
) -> Result<(), Fault> {
    let dimensions: Vec<Dimensions> = case.read()?;
    let leaves: OwnLeaves<T, S::MultiProof> = case.read()?;
    let Some(paths) = scheme.restore(case.alloc, &dimensions, borrowed(&leaves))? else {
        return Err(Fault::Unreadable("the scheme restores no paths"));
    };
    if paths.is_empty() {
        case.answer.push_str("-")?;
    }
    for (place, path) in paths.iter().enumerate() {
        let (between, index) = (if place == 0 { "" } else { "; " }, path.leaf_index);
        write!(case.answer, "{between}{index}: ")?;
        path.siblings.show(&mut case.answer)?;
    }
    Ok(())
}
