//! The entries of a proof in ascending order of their indices, as they stand in its text.

ghost use Rattle.std.specs.Prelude.{◌≡◌, ℕ, IfOk, List, map};
ghost use Rattle.std.proofs.Common.{◌∙◌, sym};
ghost use Rattle.std.proofs.lemmas.List.{length-map};
ghost use Rattle.std.specs.List.Sorted.{IsPermutation};
ghost use Rattle.tlog_multiproof.specs.Ascending.{IsAscending};
ghost use Rattle.tlog_text.specs.InPlace.{in_place};
ghost use Rattle.fohlazu_commands.specs.Inner.{ArePlaces, index_of, leaf_at};

use std::alloc::{AllocError, Global};
use tlog::leaf_hash;
use tlog_multiproof::AscendingEntries;
use tlog_text::{EntriesText, next_entry};

/// The entries of a proof, in ascending order.
#[derive(Drop)]
pub(crate) struct SortedEntries<'a> {
    /// The text of the proof, from its first entry on.
    text: &'a [u8],
    /// For each entry its index, counted from 0, and how many bytes of the text stand ahead of it.
    places: Vec<(usize, usize)>,
    ghost ascending: { IsAscending (map index_of places.items) },
}

impl<'a> SortedEntries<'a> {
    /// The entries of `proof`, sorted by index. It takes memory for an index and a place of each.
    ///
    /// # Errors
    ///
    /// `AllocError` if memory runs out.
    pub(crate) fn new(
        alloc: Global,
        proof: &EntriesText<'a>,
    ) -> Result<SortedEntries<'a>, AllocError>
        ensures text { IfOk result (λ sorted. sorted.text.now ≡ proof.now.text.now) }
        ensures places { IfOk result (λ sorted. (places : List (ℕ × ℕ))
            × ArePlaces proof.now.text.now (in_place proof.now).entries places
            × IsPermutation places sorted.places.items) }
    {
        let mut places = places_of(alloc, proof)?;
        places.sort_unstable();
        Ok(SortedEntries {
            text: proof.text,
            places,
        })
    }
}

impl AscendingEntries for SortedEntries<'_> {
    ghost indices = { λ sorted. map index_of sorted.places.items };

    ghost leaves = { λ sorted. map (leaf_at sorted.text.now) sorted.places.items };

    fn len(&self) -> usize {
        self.places.len()
    }

    fn index(&self, k: usize) -> usize {
        self.places[k].0
    }

    fn leaf(&self, k: usize) -> [u8; 32] {
        let rest = self.text.get(self.places[k].1..).unwrap_or(&[]);
        match next_entry(rest) {
            Some((entry, _)) => leaf_hash(entry.bytes),
            None => leaf_hash(&[]),
        }
    }

    ghost in_pairs = { λ sorted. length-map sorted.places.items (leaf_at sorted.text.now)
        ∙ sym (length-map sorted.places.items index_of) };

    ghost ascending = { λ sorted. sorted.ascending };
}

/// For each entry of a proof its index, counted from 0, and how many bytes of the text stand ahead of it. `AllocError`
/// if memory runs out.
fn places_of(alloc: Global, proof: &EntriesText) -> Result<Vec<(usize, usize)>, AllocError>
    ensures { IfOk result
        (λ places. ArePlaces proof.now.text.now (in_place proof.now).entries places.items) }
{
    let mut places = Vec::with_capacity(alloc, proof.count)?;
    let mut left = proof.text;
    for _entry in 0..proof.count {
        let Some((entry, rest)) = next_entry(left) else {
            return Ok(places);
        };
        let place = proof.text.len().saturating_sub(left.len());
        places.push((entry.number.saturating_sub(1), place))?;
        left = rest;
    }
    Ok(places)
}
