//! A log that a program keeps by the whole nodes of its tree, so that it goes on after a restart without the entries.

use anyhow::Result;
use tlog_tree::{Frontier, leaf_hashes};

/// Prints the size of a log and the first bytes of its root.
pub fn run(rt: &HostRuntime) -> Result<()> {
    let alloc = rt.alloc();
    let mut before = Frontier::new(alloc);
    before.push_many(alloc, &leaf_hashes(alloc, &[b"1", b"2", b"3"])?)?;
    let (size, nodes) = (before.size(), before.nodes());

    // What a program stores and reads again: a number, and at most 62 digests.
    let mut log = Frontier::from_nodes(alloc, size, nodes)?;
    log.push_many(alloc, &leaf_hashes(alloc, &[b"4", b"5"])?)?;
    let (size, root) = (log.size(), log.root());
    let first = &root[..4];
    println!(rt; "size {size}, root {first:?}")?;
    Ok(())
}
