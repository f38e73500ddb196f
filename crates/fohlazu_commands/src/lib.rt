//! What `fohlazu` answers: checkpoints of files, proofs of entries and of growth, and verdicts on them.
#![tactic(auto)]

pub mod collisions;
pub mod command;
pub mod error;
mod inputs;
pub mod join;
pub mod laws;
pub mod prove;
pub mod prove_consistency;
pub mod seal;
mod sorted;
pub mod verify;
pub mod verify_consistency;

pub use command::{Command, run};
pub use error::{Error, Refusal, Source};
pub use tlog::SIZE_LIMIT;
pub use tlog_files::{Framing, PartialLine};
pub use tlog_text::{PART_ORIGIN, is_key_name, is_origin};
pub use verify::{Print, Requested};
