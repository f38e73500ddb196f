//! What accepted proofs show under a hash function of eight bits: a `collision`, or `none`. A digest is written as its
//! first byte. Entries are decimal numbers.

use crate::case::Case;
use crate::weak::Weak;
use anyhow::Result;
use std::fmt::Write;
use tlog::collision::{Collision, root_collision};
use tlog::{
    compose, consistency_collision, entry_collision, growth_collision, leaf_collision,
    prefix_collision, proof_collision,
};
use tlog_multiproof::entries_collision;

/// The digest of this byte.
fn digest(byte: usize) -> Result<[u8; 32]> {
    let mut digest = [0; 32];
    digest[0] = u8::try_from(byte)?;
    Ok(digest)
}

impl Case<'_> {
    /// The next word as a digest.
    fn digest(&mut self) -> Result<[u8; 32]> {
        digest(self.number()?)
    }

    /// The next word as a list of digests.
    fn digests(&mut self) -> Result<Vec<[u8; 32]>> {
        let mut digests = Vec::new(self.alloc);
        for byte in &self.numbers()? {
            digests.push(digest(*byte)?)?;
        }
        Ok(digests)
    }

    /// Answers whether a collision is found.
    pub fn push_found(&mut self, found: &Option<Collision>) -> Result<()> {
        let text = if found.is_some() { "collision" } else { "none" };
        Ok(self.answer.push_str(text)?)
    }
}

/// `root_collision ENTRIES OTHER-ENTRIES`.
pub fn of_roots(case: &mut Case<'_>) -> Result<()> {
    let (d, e) = (case.entries()?, case.entries()?);
    let found = root_collision::<Weak, 32>(case.alloc, &d, &e)?;
    case.push_found(&found)
}

/// `leaf_collision ENTRIES INDEX LEAF PROOF`.
pub fn of_leaf(case: &mut Case<'_>) -> Result<()> {
    let (entries, index) = (case.entries()?, case.number()?);
    let (leaf, proof) = (case.digest()?, case.digests()?);
    let found = leaf_collision::<Weak, 32>(case.alloc, &entries, index, &leaf, &proof)?;
    case.push_found(&found)
}

/// `entry_collision ENTRIES INDEX ENTRY PROOF`.
pub fn of_entry(case: &mut Case<'_>) -> Result<()> {
    let (entries, index) = (case.entries()?, case.number()?);
    let (entry, proof) = (case.word().as_bytes(), case.digests()?);
    let found = entry_collision::<Weak, 32>(case.alloc, &entries, index, entry, &proof)?;
    case.push_found(&found)
}

/// `entries_collision ENTRIES INDICES LEAVES PROOF`.
pub fn of_entries(case: &mut Case<'_>) -> Result<()> {
    let (entries, indices) = (case.entries()?, case.numbers()?);
    let (leaves, proof) = (case.digests()?, case.digests()?);
    let found = entries_collision::<Weak>(case.alloc, &entries, &indices, &leaves, &proof)?;
    case.push_found(&found)
}

/// `prefix_collision OLD-ENTRIES NEW-ENTRIES PROOF`.
pub fn of_prefix(case: &mut Case<'_>) -> Result<()> {
    let (old, new, proof) = (case.entries()?, case.entries()?, case.digests()?);
    let found = prefix_collision::<Weak, 32>(case.alloc, &old, &new, &proof)?;
    case.push_found(&found)
}

/// `proof_collision INDEX SIZE LEAF PROOF OTHER-LEAF OTHER-PROOF ROOT`.
pub fn of_proofs(case: &mut Case<'_>) -> Result<()> {
    let found = proof_collision::<Weak, 32>(
        case.alloc,
        case.number()?,
        case.number()?,
        &case.digest()?,
        &case.digests()?,
        &case.digest()?,
        &case.digests()?,
        &case.digest()?,
    )?;
    case.push_found(&found)
}

/// `consistency_collision OLD-SIZE NEW-SIZE OLD-ROOT PROOF OTHER-ROOT OTHER-PROOF NEW-ROOT`.
pub fn of_consistency(case: &mut Case<'_>) -> Result<()> {
    let found = consistency_collision::<Weak, 32>(
        case.alloc,
        case.number()?,
        case.number()?,
        &case.digest()?,
        &case.digests()?,
        &case.digest()?,
        &case.digests()?,
        &case.digest()?,
    )?;
    case.push_found(&found)
}

/// `growth_collision INDEX OLD-SIZE NEW-SIZE OLD-LEAF OLD-PATH NEW-LEAF NEW-PATH GROWTH OLD-ROOT NEW-ROOT`.
pub fn of_growth(case: &mut Case<'_>) -> Result<()> {
    let found = growth_collision::<Weak, 32>(
        case.alloc,
        case.number()?,
        case.number()?,
        case.number()?,
        &case.digest()?,
        &case.digests()?,
        &case.digest()?,
        &case.digests()?,
        &case.digests()?,
        &case.digest()?,
        &case.digest()?,
    )?;
    case.push_found(&found)
}

/// `compose OLD-SIZE MIDDLE-SIZE NEW-SIZE OLD-ROOT MIDDLE-ROOT NEW-ROOT FIRST SECOND`: `composed`, or why not.
pub fn composed(case: &mut Case<'_>) -> Result<()> {
    let composed = compose::<Weak, 32>(
        case.alloc,
        case.number()?,
        case.number()?,
        case.number()?,
        &case.digest()?,
        &case.digest()?,
        &case.digest()?,
        &case.digests()?,
        &case.digests()?,
    );
    match &composed {
        Ok(_) => case.answer.push_str("composed")?,
        Err(error) => write!(case.answer, "{error}")?,
    }
    Ok(())
}
