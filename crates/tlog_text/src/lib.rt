//! The texts of logs: checkpoints by C2SP's tlog-checkpoint, with or without the signatures of a signed note, parts of
//! files, proofs of entries, and consistency proofs as C2SP's tlog-witness sends them. A value is printed in one
//! spelling, and read from that alone. No tree is computed here, and no signature is checked.
#![tactic(auto)]

pub mod checkpoint;
pub mod consistency;
pub mod entries;
mod entries_text;
pub mod error;
pub mod laws;
mod line;

pub use checkpoint::{Checkpoint, PART_ORIGIN, is_origin};
pub use consistency::ConsistencyProof;
pub use entries::{EntriesProof, Entry};
pub use entries_text::{Entries, EntriesText, EntryText, next_entry};
pub use error::{Expected, Found, TextError, WrongLine};
pub use line::is_key_name;
