//! The tree over a batch of matrices: how its layers are built one above the other, and how it opens one leaf or
//! several.
#![tactic(auto)]

pub mod checked;
mod layer;
mod layers;
pub mod opener;
pub mod pruned_opener;
pub mod tree;
