//! Honest openings of many lists of queries, by one pruned proof each, beside their twins.

ghost use Rattle.std.specs.Prelude.{◌≤◌, IsTrue};
ghost use Rattle.p3_merkle_core.specs.Geometry.{is_arity};

use crate::case::{Case, Fault};
use crate::field::Item;
use crate::matrices::{Word, matrices_by, twin_sets};
use crate::opened::{Committed, accepted, accepted_leaves, commit_shown};
use crate::queries::{batches_in, lists_in};
use crate::scheme::{Cap, FoldScheme, Tried, fold_scheme};
use p3_merkle_core::geometry::exponent_of;
use p3_merkle_core::schedule::schedule_of;
use p3_merkle_tree::{BatchOpeningRef, InputPair, MerkleTreeError, Place};
use p3_support::matrix::Dimensions;
use std::alloc::Global;

/// What a sweep has tried.
#[derive(Clone, Copy)]
struct Counts {
    lists: usize,
    digests: usize,
    collisions: usize,
    nones: usize,
}

impl Counts {
    /// Counts what an opening and its twin lead to. Fails where it is no collision at this place, or any where there is
    /// none.
    fn compare<T, X>(
        &mut self,
        found: Option<&InputPair<T, X>>,
        place: Option<&Place>,
    ) -> Result<(), Fault> {
        match (found, place) {
            (Some(InputPair::Words { place: found, .. }), Some(place)) if *found == *place => {
                self.collisions = self.collisions.saturating_add(1);
            }
            (None, None) => self.nones = self.nones.saturating_add(1),
            _ => return Err(Fault::Wrong("an opening collides elsewhere with its twin")),
        }
        Ok(())
    }
}

/// The place of a check at which the rows of a matrix of this exponent are hashed; none where its layer is above the
/// cap. The leaves have the other exponent, and the steps lead from them up to the cap.
fn place_of(leaves: usize, steps: &[usize], rows: usize) -> Option<Place> {
    if leaves == rows {
        return Some(Place::Leaf);
    }
    let mut exponent = leaves;
    for (level, step) in steps.iter().enumerate() {
        exponent = exponent.saturating_sub(exponent_of(*step));
        if exponent == rows {
            return Some(Place::Rows(level));
        }
    }
    None
}

/// That place for each of some matrices; no place at all where some rows have no twin.
fn twin_places<T: Word, const N: usize>(
    alloc: Global,
    plain: &FoldScheme<N, 1>,
    dimensions: &[Dimensions],
) -> Result<Vec<Option<Place>>, MerkleTreeError> {
    let steps = plain.proof_arity_schedule(alloc, dimensions)?;
    let leaves = schedule_of(dimensions, 2).exponent;
    let mut places = Vec::new(alloc);
    for Dimensions { width, height } in dimensions {
        if !T::HAS_TWINS || *width < 2 {
            return Ok(Vec::new(alloc));
        }
        places.push(place_of(leaves, &steps, exponent_of(*height)))?;
    }
    Ok(places)
}

/// How many paths of a list of queries are compared, each with that of its leaf opened by itself.
const MOST_PATHS: usize = 64;

/// Fails where the paths that a proof restores are not those of its leaves, where the scheme restores any.
fn check_paths<T: Word, X: Item + PartialEq, S: Tried<T, X>>(
    alloc: Global,
    scheme: &S,
    committed: &Committed<T, X, S::ProverData>,
    indices: &[usize],
    opening: &(Vec<Vec<Vec<T>>>, S::MultiProof),
) -> Result<(), Fault> {
    let leaves = (indices, opening.0.as_slice(), &opening.1);
    let Some(paths) = scheme.restore(alloc, &committed.statement.dimensions, leaves)? else {
        return Ok(());
    };
    if paths.len() != indices.len() {
        return Err(Fault::Wrong("a proof has another number of paths"));
    }
    for (index, path) in indices.iter().zip(&paths).take(MOST_PATHS) {
        let (_, proof) = accepted::<T, X, S>(alloc, scheme, committed, *index)?.unpack();
        if path.leaf_index != *index || path.siblings.as_slice() != S::siblings(&proof) {
            return Err(Fault::Wrong("a path is not that of its leaf"));
        }
    }
    Ok(())
}

/// Compares the opening of some leaves, and that of the first of them by itself, with the twins of each matrix, whose
/// rows collide at these places.
fn compare_twins<T: Word, X: Item, S: Tried<T, X>>(
    alloc: Global,
    scheme: &S,
    committed: &Committed<T, X, S::ProverData>,
    indices: &[usize],
    opening: &(Vec<Vec<Vec<T>>>, S::MultiProof),
    places: &[Option<Place>],
    counts: &mut Counts,
) -> Result<(), Fault> {
    let (statement, (rows, proof)) = (&committed.statement, opening);
    for (matrix, place) in places.iter().enumerate() {
        let twins = twin_sets(alloc, rows, matrix)?;
        let honest = (indices, rows.as_slice(), proof);
        let twin = (indices, twins.as_slice(), proof);
        let found = match scheme.extract_multi(alloc, statement, honest, twin)? {
            Some((0, 0, collision)) => Some(collision),
            Some(_) => return Err(Fault::Wrong("other queries collide than the first")),
            None => None,
        };
        let (Some(index), Some(twin)) = (indices.first(), twins.first()) else {
            counts.compare(found.as_ref(), None)?;
            continue;
        };
        counts.compare(found.as_ref(), place.as_ref())?;
        let leaf = accepted::<T, X, S>(alloc, scheme, committed, *index)?;
        let twin = BatchOpeningRef::new(twin, &leaf.opening_proof);
        let honest = BatchOpeningRef::from(&leaf);
        let found = scheme.extract(alloc, statement, (*index, honest), (*index, twin))?;
        counts.compare(found.as_ref(), place.as_ref())?;
    }
    Ok(())
}

/// `sweep | ARITY | CAP | BATCHES | QUERIES | LISTS DIGESTS COLLISIONS NONES`: of each batch of matrices, many lists of
/// queries are opened and accepted, and without salts restored; and so is the first leaf of each. Where all rows have
/// twins, each opening is compared with its twin, matrix by matrix. How many lists there are, how many digests their
/// proofs have, how many openings collide with a twin, and how many do not, since the matrix is not authenticated or
/// there is no query. With salts: `salted_sweep | ARITY | CAP | SALTS A ROW | SEED | BATCHES | QUERIES | ..`.
pub fn sweep<T: Word, X: Item + PartialEq, S: Tried<T, X>, const N: usize>(
    case: &mut Case<'_>,
    cap: Cap,
    scheme: &mut S,
) -> Result<(), Fault>
    requires arity { IsTrue (is_arity N) }
    requires few { N ≤ 16 }
{
    let alloc = case.alloc;
    let batches = batches_in(alloc, case.take())?;
    let queries = case.take();
    let plain = fold_scheme::<N>(cap);
    let mut counts = Counts {
        lists: 0,
        digests: 0,
        collisions: 0,
        nones: 0,
    };
    for dimensions in &batches {
        let matrices = matrices_by(alloc, dimensions)?;
        let committed = commit_shown::<T, X, S>(alloc, scheme, matrices)?;
        let places = twin_places::<T, N>(alloc, &plain, dimensions)?;
        for indices in &lists_in(alloc, queries, scheme.get_max_height(&committed.tree))? {
            let opening = accepted_leaves::<T, X, S>(alloc, &*scheme, &committed, indices)?;
            let digests = S::digests(&opening.1).len();
            if plain.pruned_len(alloc, dimensions, indices)? != digests {
                return Err(Fault::Wrong("a proof has another number of digests"));
            }
            counts.lists = counts.lists.saturating_add(1);
            counts.digests = counts.digests.saturating_add(digests);
            check_paths::<T, X, S>(alloc, &*scheme, &committed, indices, &opening)?;
            compare_twins::<T, X, S>(
                alloc,
                &*scheme,
                &committed,
                indices,
                &opening,
                &places,
                &mut counts,
            )?;
        }
    }
    let Counts {
        lists,
        digests,
        collisions,
        nones,
    } = counts;
    case.list(&[lists, digests, collisions, nones])
}
