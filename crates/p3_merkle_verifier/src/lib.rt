//! Checking openings of a tree, single and pruned, and extracting a collision from two of them.
//!
//! A check first verifies the form of an opening. Then it computes digests level by level up to the cap: those on the
//! leaf's path, or those of all nodes above several leaves. It compares the last ones with the cap's entries. From a
//! pruned opening it can restore the path of each index. It borrows a hash and a compression, and knows no scheme.
#![tactic(auto)]

pub mod checker;
mod extraction;
pub mod openings;
pub mod path;
mod pruned_check;
mod pruned_extraction;
