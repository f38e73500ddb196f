//! Accepted proofs across the growth of a log.
ghost use Rattle.std.specs.Prelude.{◌≡◌, ℕ, ◌+◌, ◌*◌, ◌^◌, ◌<◌, ◌≤◌, ◌↔◌, List, [], ◌∷◌, ◌++◌};
ghost use Rattle.std.specs.Prelude.{IfErr, IfOk, IfSome, IsNone, None, OnOk, Some};
ghost use Rattle.tlog.specs.Climbs.{climb_end};
ghost use Rattle.tlog.specs.Collisions.{IsCollision};
ghost use Rattle.tlog.specs.Verdicts.{IsConsistent, consistency_refusal, size_limit};
ghost use Rattle.tlog.specs.Composed.{IsReason};
ghost use Rattle.tlog.specs.Fixed.{GrowthKeepsLeaf};
ghost use Rattle.tlog.specs.Inner.Lifts.{Lifts};
ghost use Rattle.tlog.specs.Inner.Nodes.{HashFixesChildren};

use crate::binding::{node_collision, proof_collision};
use crate::collision::Collision;
use crate::consistency::{self, Climb};
use crate::error::ComposeError;
use crate::hash::LogHash;
use crate::honest_proofs::split;
use crate::inclusion::verify;
use std::alloc::{AllocError, Global};

/// The digests that lead from a node in the left half on to the new root, where those of `climb` lead to the root of
/// this half. The second proof gives that root as `last`. The root of the old right half is `beside` by the first proof
/// and `old` by the second, and `new` is the root of the new right half.
///
/// `Collision` if the halves of the two proofs differ although they have one parent.
fn lift_beside<H: LogHash<D>, const D: usize>(
    alloc: Global,
    middle: usize,
    climb: &Climb<D>,
    beside: &[u8; D],
    last: &[u8; D],
    old: &[u8; D],
    new: &[u8; D],
) -> Result<Vec<[u8; D]>, ComposeError>
    requires some { 0 < middle }
    requires layer { climb.now.layer < 64 }
    ensures lifted { IfOk result (λ digests. (first left : List ℕ) → climb_end H.hash climb.now.layer climb.now.node
        middle climb.now.value.now climb.now.digests.now ≡ Some (0, first, left) →
        HashFixesChildren H.hash left beside.now last.now old.now
        × (digests.items ≡ climb.now.digests.now ++ new.now ∷ [])) }
    ensures refused { IfErr result (IsReason H.hash None None) }
{
    let Ok(roots) = climb.roots::<H>(middle) else {
        return Ok(Vec::new(alloc));
    };
    let (_, left) = roots;
    if let Some(found) = node_collision::<H, D>(alloc, &left, beside, last, old)? {
        return Err(ComposeError::Collision(found));
    }
    let mut digests = Vec::from_slice(alloc, climb.digests)?;
    digests.push(*new)?;
    Ok(digests)
}

/// Checks that `beside` and the root that `climb` leads to are `last` and `old`, if both pairs have one hash: else
/// `Collision`. `size` is that of the right half in which `climb` leads to its root. Where it leads to none, nothing is
/// checked.
fn check_right<H: LogHash<D>, const D: usize>(
    alloc: Global,
    size: usize,
    climb: &Climb<D>,
    beside: &[u8; D],
    last: &[u8; D],
    old: &[u8; D],
) -> Result<(), ComposeError>
    requires some { 0 < size }
    requires layer { climb.now.layer < 64 }
    ensures same_root { OnOk result ((first right : List ℕ) → climb_end H.hash climb.now.layer climb.now.node size
        climb.now.value.now climb.now.digests.now ≡ Some (0, first, right) →
        HashFixesChildren H.hash beside.now right last.now old.now) }
    ensures refused { IfErr result (IsReason H.hash None None) }
{
    let Ok(roots) = climb.roots::<H>(size) else {
        return Ok(());
    };
    let (_, right) = roots;
    match node_collision::<H, D>(alloc, beside, &right, last, old)? {
        Some(found) => Err(ComposeError::Collision(found)),
        None => Ok(()),
    }
}

/// The digests that lead from a node on to the root of `new_size` entries, where the digests of `climb` lead from the
/// node to the root of the first `size` entries, and those of `growth` from the last whole node of the first `size`
/// entries to both roots. Where `climb` or `growth` does not lead to its roots, any digests may be returned.
/// `Collision` if the proofs differ although they have one root; `OutOfMemory` if memory runs out.
fn lift<H: LogHash<D>, const D: usize>(
    alloc: Global,
    size: usize,
    new_size: usize,
    climb: &Climb<D>,
    growth: &Climb<D>,
) -> Result<Vec<[u8; D]>, ComposeError>
    requires layers { (climb.now.layer < 64) × (growth.now.layer < 64) }
    requires whole { (climb.now.node + 1) * 2 ^ climb.now.layer ≤ size }
    requires last { (growth.now.node + 1) * 2 ^ growth.now.layer ≡ size }
    requires ordered { size ≤ new_size }
    requires limit { new_size ≤ size_limit }
    ensures lifted { IfOk result (λ digests. Lifts H.hash size new_size
        climb.now.layer climb.now.node climb.now.value.now climb.now.digests.now
        growth.now.layer growth.now.node growth.now.value.now growth.now.digests.now digests.items) }
    ensures refused { IfErr result (IsReason H.hash None None) }
{
    if size == new_size {
        return Ok(Vec::from_slice(alloc, climb.digests)?);
    }
    let middle = split(new_size);
    let Some((last, rest)) = growth.digests.split_last() else {
        return Ok(Vec::new(alloc));
    };
    let growth = Climb {
        digests: rest,
        ..*growth
    };
    if size <= middle {
        let mut digests = lift::<H, D>(alloc, size, middle, climb, &growth)?;
        digests.push(*last)?;
        return Ok(digests);
    }
    let Some((beside, below)) = climb.digests.split_last() else {
        return Ok(Vec::new(alloc));
    };
    let climb = Climb {
        digests: below,
        ..*climb
    };
    let growth = Climb {
        node: growth.node - (middle >> growth.layer),
        ..growth
    };
    let Ok(roots) = growth.roots::<H>(new_size - middle) else {
        return Ok(Vec::new(alloc));
    };
    let (old, new) = roots;
    if climb.node < middle >> climb.layer {
        return lift_beside::<H, D>(alloc, middle, &climb, beside, last, &old, &new);
    }
    let climb = Climb {
        node: climb.node - (middle >> climb.layer),
        ..climb
    };
    check_right::<H, D>(alloc, size - middle, &climb, beside, last, &old)?;
    let mut digests = lift::<H, D>(alloc, size - middle, new_size - middle, &climb, &growth)?;
    digests.push(*last)?;
    Ok(digests)
}

/// The proof of consistency from the old size to the new one, out of accepted proofs from the old size to the middle
/// one and from there to the new one. It needs no entries.
///
/// # Errors
///
/// The first of these that applies:
///
/// - `First` if the first proof is not accepted, with the reason;
/// - `Second` if the second proof is not accepted, with the reason;
/// - `Collision` if both proofs compute the middle root, and differ below it;
/// - `OutOfMemory` if memory runs out, also in place of `Collision`.
pub fn compose<H: LogHash<D>, const D: usize>(
    alloc: Global,
    old_size: usize,
    middle_size: usize,
    new_size: usize,
    old_root: &[u8; D],
    middle_root: &[u8; D],
    new_root: &[u8; D],
    first: &[[u8; D]],
    second: &[[u8; D]],
) -> Result<Vec<[u8; D]>, ComposeError>
    ensures composed { IfOk result (λ proof.
        IsConsistent H.hash old_size new_size proof.items old_root.now new_root.now) }
    ensures inputs_accepted { IfOk result (λ _. (new_size ≤ size_limit)
        × IsConsistent H.hash old_size middle_size first.now old_root.now middle_root.now
        × IsConsistent H.hash middle_size new_size second.now middle_root.now new_root.now) }
    ensures refused { IfErr result (IsReason H.hash
        (consistency_refusal H.hash old_size middle_size first.now old_root.now middle_root.now)
        (consistency_refusal H.hash middle_size new_size second.now middle_root.now new_root.now)) }
{
    if let Err(e) = consistency::verify::<H, D>(
        old_size,
        middle_size,
        first,
        old_root,
        middle_root,
    ) {
        return Err(ComposeError::First(e));
    }
    if let Err(e) = consistency::verify::<H, D>(
        middle_size,
        new_size,
        second,
        middle_root,
        new_root,
    ) {
        return Err(ComposeError::Second(e));
    }
    if old_size == 0 {
        return Ok(Vec::new(alloc));
    }
    // A proof without digests is between equal sizes, so the other one is the whole proof.
    let Some(climb) = Climb::of_proof(old_size, first, old_root) else {
        return Ok(Vec::from_slice(alloc, second)?);
    };
    let Some(growth) = Climb::of_proof(middle_size, second, middle_root) else {
        return Ok(Vec::from_slice(alloc, first)?);
    };
    let digests = lift::<H, D>(alloc, middle_size, new_size, &climb, &growth)?;
    if old_size.is_power_of_two() {
        return Ok(digests);
    }
    let mut proof = Vec::from_slice(alloc, &[*climb.value])?;
    proof.extend_from_slice(&digests)?;
    Ok(proof)
}

/// A collision, if the proofs of inclusion of one index, `old_path` under the old root and `new_path` under the new
/// one, are accepted, and so is `growth`, the proof of consistency between both, and the leaf hashes differ; else
/// `None`. It needs no entries.
///
/// # Errors
///
/// `AllocError` if memory runs out.
pub fn growth_collision<H: LogHash<D>, const D: usize>(
    alloc: Global,
    index: usize,
    old_size: usize,
    new_size: usize,
    old_leaf: &[u8; D],
    old_path: &[[u8; D]],
    new_leaf: &[u8; D],
    new_path: &[[u8; D]],
    growth: &[[u8; D]],
    old_root: &[u8; D],
    new_root: &[u8; D],
) -> Result<Option<Collision>, AllocError>
    ensures none { IfOk result (λ found. IsNone found ↔ GrowthKeepsLeaf H.hash index old_size new_size
        old_leaf.now old_path.now new_leaf.now new_path.now growth.now old_root.now new_root.now) }
    ensures collision { IfOk result (λ found. IfSome found (IsCollision H.hash)) }
{
    if verify::<H, D>(index, old_size, old_leaf, old_path, old_root).is_err() {
        return Ok(None);
    }
    if verify::<H, D>(index, new_size, new_leaf, new_path, new_root).is_err() {
        return Ok(None);
    }
    if consistency::verify::<H, D>(old_size, new_size, growth, old_root, new_root).is_err() {
        return Ok(None);
    }
    if *old_leaf == *new_leaf {
        return Ok(None);
    }
    let Some(last) = Climb::of_proof(old_size, growth, old_root) else {
        return proof_collision::<H, D>(
            alloc, index, new_size, old_leaf, old_path, new_leaf, new_path, new_root,
        );
    };
    let climb = Climb {
        layer: 0,
        node: index,
        value: old_leaf,
        digests: old_path,
    };
    match lift::<H, D>(alloc, old_size, new_size, &climb, &last) {
        Ok(path) => proof_collision::<H, D>(
            alloc, index, new_size, old_leaf, &path, new_leaf, new_path, new_root,
        ),
        Err(ComposeError::Collision(found)) => Ok(Some(found)),
        // `lift` checks no proof, so its only other error is that memory ran out.
        Err(_) => Err(AllocError),
    }
}
