//! SHA-256 (FIPS 180-4) of eight messages at a time, one in each lane of the processor's vectors: of many messages of
//! one length, or of eight that fill one number of blocks with their padding. The digests are those of the crate
//! `sha2`.
#![tactic(auto)]

mod block;
mod consts;
mod digest_size;
mod messages;
mod padded;
mod words;

pub use digest_size::DigestSize;
pub use messages::hash_many;
pub use padded::{hash_padded_eight, push_padded};
