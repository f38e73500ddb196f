//! The covered nodes of the layers of a tree: the queried leaves, and the nodes above them. The boundary is the
//! children of covered nodes that are not covered themselves.

ghost use Rattle.std.specs.Prelude.{◌≡◌, suc, ◌-◌, ◌/◌, ◌<◌, ◌≤◌, map, All, IfOk};
ghost use Rattle.p3_support.specs.Batches.{heights_of, greatest};
ghost use Rattle.p3_merkle_core.specs.Geometry.{exponent, has_rows, levels, height_limit, shape_of, step, IsArity};
ghost use Rattle.p3_merkle_core.specs.Inner.Agreement.{distinct, IsAscending};
ghost use Rattle.p3_merkle_core.specs.Inner.Covered.{AreCovered};
ghost use Rattle.p3_merkle_core.specs.Pruning.{pruned_len};

use crate::geometry::parent_of;
use crate::schedule::{LevelStep, Schedule};
use std::alloc::{AllocError, Global};

/// The covered nodes of one layer of a tree: the queried leaves, or the nodes above them. The boundary is the children
/// of covered nodes that are not covered themselves.
#[derive(Drop)]
pub struct Covered<'a> {
    /// The steps of the tree.
    pub schedule: &'a Schedule<'a>,
    /// The queried indices.
    pub indices: &'a [usize],
    /// The layer, counted from the leaves.
    pub layer: usize,
    /// The layer's exponent.
    pub exponent: usize,
    /// The covered nodes, ascending.
    pub nodes: Vec<usize>,
    /// How many digests of a pruned proof belong to the levels below the layer: one for each node of the boundary
    /// there.
    pub boundary_below: usize,
    ghost at_layer: { AreCovered (shape_of schedule.now.arity schedule.now.dimensions.now) indices.now layer exponent
        nodes.items boundary_below },
}

impl<'a> Covered<'a> {
    /// The covered leaves: `nodes` must be the distinct `indices`, ascending. The indices must be below the tallest
    /// height, the arity a power of two from 2 to 2^62, and no height above [`MAX_HEIGHT`].
    pub fn new(schedule: &'a Schedule<'a>, indices: &'a [usize], nodes: Vec<usize>) -> Covered<'a>
        requires arity { IsArity schedule.now.arity }
        requires low { greatest (heights_of schedule.now.dimensions.now) ≤ height_limit }
        requires below { All (λ q. q < greatest (heights_of schedule.now.dimensions.now)) indices.now }
        requires nodes { nodes.items ≡ distinct indices.now }
        ensures schedule { result.schedule.now ≡ schedule.now }
        ensures indices { result.indices.now ≡ indices.now }
        ensures layer { result.layer ≡ 0 }
    {
        Covered {
            schedule,
            indices,
            layer: 0,
            exponent: schedule.exponent,
            nodes,
            boundary_below: 0,
        }
    }

    /// The same nodes, in a list of their own.
    ///
    /// # Errors
    ///
    /// `AllocError` if memory runs out.
    pub fn clone(&self, alloc: Global) -> Result<Covered<'a>, AllocError>
        ensures schedule { IfOk result (λ made. made.schedule.now ≡ self.now.schedule.now) }
        ensures indices { IfOk result (λ made. made.indices.now ≡ self.now.indices.now) }
        ensures layer { IfOk result (λ made. made.layer ≡ self.now.layer) }
    {
        Ok(Covered {
            schedule: self.schedule,
            indices: self.indices,
            layer: self.layer,
            exponent: self.exponent,
            nodes: Vec::from_slice(alloc, &self.nodes)?,
            boundary_below: self.boundary_below,
        })
    }

    /// Climbs to the layer above, in place: replaces the covered nodes by their parents, and returns the step that led
    /// to them. This layer must be below the root.
    // Inlined: the count of a proof's digests is a loop of this alone.
    #[inline(always)]
    pub fn climb(&mut self) -> LevelStep
        requires { self.old.layer < self.old.schedule.now.num_levels }
        ensures schedule { self.new.schedule.now ≡ self.old.schedule.now }
        ensures indices { self.new.indices.now ≡ self.old.indices.now }
        ensures layer { self.new.layer ≡ suc self.old.layer }
        ensures step { let s = shape_of self.old.schedule.now.arity self.old.schedule.now.dimensions.now in
            result.step ≡ step s self.old.layer }
        ensures rows { let s = shape_of self.old.schedule.now.arity self.old.schedule.now.dimensions.now in
            result.has_rows ≡ has_rows s self.new.layer }
    {
        let schedule = self.schedule;
        let up = schedule.step_up(schedule.arity, self.layer, self.exponent);
        let below = self.nodes.len();
        replace_by_parents(&mut self.nodes, up.step);
        self.layer += 1;
        self.exponent = up.exponent;
        self.boundary_below += up.step * self.nodes.len() - below;
        up
    }

    /// How many digests a pruned proof of the indices has, where the cap is layer `layer`: on each level below it, one
    /// for each child of a covered node that is not covered itself. `layer` must be at most the number of levels, and
    /// not below the layer of these nodes. It does not allocate, and takes one step for each node and level.
    pub fn boundary_len(mut self, layer: usize) -> usize
        requires above { self.layer ≤ layer }
        requires in_tree { layer ≤ self.schedule.now.num_levels }
        ensures { let s = shape_of self.entry.schedule.now.arity self.entry.schedule.now.dimensions.now in
            result ≡ pruned_len s self.entry.indices.now layer }
    {
        for _ in self.layer..layer {
            self.climb();
        }
        self.boundary_below
    }
}

/// Replaces `covered`, ascending nodes of a layer, by their parents in the layer above, each once, ascending. A parent
/// has `step` children, at least 1.
fn replace_by_parents(covered: &mut Vec<usize>, step: usize)
    requires { 0 < step }
    ensures { IsAscending covered.old.items → covered.new.items ≡ distinct (map (λ j. j / step) covered.old.items) }
{
    if covered.is_empty() {
        return;
    }
    let nodes = covered.as_mut_slice();
    let mut last = parent_of(nodes[0], step);
    nodes[0] = last;
    let mut kept = 0;
    for place in 1..nodes.len() {
        let node = parent_of(nodes[place], step);
        // Added without a branch: where a new parent begins can't be predicted.
        kept += usize::from(node != last);
        nodes[kept] = node;
        last = node;
    }
    covered.truncate(kept + 1);
}
