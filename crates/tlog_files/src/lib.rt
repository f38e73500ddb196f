//! The entries of a log that stands in a file, as lines or as blocks: its tree and single entries, in one pass over a
//! reader, in bounded memory; and texts that are read up to a limit.
#![tactic(auto)]

mod error;
mod framing;
mod limited;
mod reading;
mod splitter;
mod wanted;

pub use error::ReadError;
pub use framing::{Framing, PartialLine};
pub use limited::read_up_to;
pub use reading::{ReadLog, read_log};
