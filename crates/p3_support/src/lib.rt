//! What a Merkle tree over matrices is built from: packed values, hashers, compressions and matrices, each a trait with
//! laws, and the matrices and records that the schemes share.
#![tactic(auto)]

pub mod compress;
pub mod hasher;
pub mod matrix;
pub mod mmcs;
pub mod opening;
pub mod packed;
pub mod pair;
pub mod row_parts;
pub mod rows;
pub mod salts;
