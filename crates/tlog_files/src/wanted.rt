//! The entries of a file that are wanted. An error means that memory ran out: then no other call may follow.

ghost use Rattle.std.specs.Prelude.{◌≡◌, ℕ, ◌∷◌, ◌++◌, List, [], IfOk, OnOk, length, map};
ghost use Rattle.std.specs.List.Sorted.{IsPermutation};
ghost use Rattle.tlog_files.specs.Entries.{wanted_of};
ghost use Rattle.tlog_files.specs.Inner.Wanted.{is_next, places_of, HasPlaces, HoldsWanted, IsAscending};

use std::alloc::{AllocError, Global};
use std::mem;

/// The index of each wanted entry, counted from 0, with its place, its position in `wanted`; ascending, in the order of
/// the file. `AllocError` if memory runs out.
pub(crate) fn places_in_order(
    alloc: Global,
    wanted: &[usize],
) -> Result<Vec<(usize, usize)>, AllocError>
    ensures { IfOk result (λ places. IsPermutation (places_of wanted.now) places.items
        × IsAscending 0 places.items) }
{
    let mut places = Vec::with_capacity(alloc, wanted.len())?;
    for place in 0..wanted.len() {
        places.push((wanted[place], place))?;
    }
    places.sort_unstable();
    Ok(places)
}

/// The wanted entries, as far as they have come.
#[derive(Drop)]
pub(crate) struct WantedEntries<'a> {
    /// The index and the place of those that have not ended, in the order of the file.
    left: &'a [(usize, usize)],
    /// The bytes of those that have ended, each at its place.
    entries: Vec<Vec<u8>>,
    /// The bytes of the open entry so far, if it is wanted.
    begun: Vec<u8>,
}

impl<'a> WantedEntries<'a> {
    /// The wanted entries, of which none has come. `places` has the index and the place of each. The indices must
    /// ascend, perhaps with repeats, as [`places_in_order`] returns them. `AllocError` if memory runs out.
    pub(crate) fn new(
        alloc: Global,
        places: &'a [(usize, usize)],
    ) -> Result<WantedEntries<'a>, AllocError>
        requires { IsAscending 0 places.now }
        ensures holds { IfOk result (λ entries. (wanted : List ℕ) → IsPermutation (places_of wanted) places.now →
            HoldsWanted entries wanted [] []) }
        ensures places { IfOk result (λ entries. (wanted : List ℕ) → IsPermutation (places_of wanted) places.now →
            HasPlaces entries) }
    {
        let mut entries = Vec::with_capacity(alloc, places.len())?;
        for _ in 0..places.len() {
            entries.push(Vec::new(alloc))?;
        }
        Ok(WantedEntries {
            left: places,
            entries,
            begun: Vec::new(alloc),
        })
    }

    /// Whether the next wanted entry has the index `index`.
    fn is_next(&self, index: usize) -> bool
        ensures { result ≡ is_next index self.now.left.now }
    {
        self.left.first().is_some_and(|next| next.0 == index)
    }

    /// Copies the wanted ones of `entries`, the next whole entries of the file. The first of `entries` has the index
    /// `first`. `AllocError` if memory runs out.
    pub(crate) fn copy(
        &mut self,
        alloc: Global,
        first: usize,
        entries: &[&[u8]],
    ) -> Result<(), AllocError>
        requires { HasPlaces self.old }
        ensures places { OnOk result (HasPlaces self.new) }
        ensures holds { (wanted : List ℕ) (ended : List (List ℕ)) → first ≡ length ended →
            HoldsWanted self.old wanted ended [] →
            OnOk result (HoldsWanted self.new wanted (ended ++ map (λ entry. entry.now) entries.now) []) }
    {
        'wanted: while let Some(next) = self.left.first() {
            let at = next.0.saturating_sub(first);
            if at >= entries.len() {
                return Ok(());
            }
            self.entries[next.1] = Vec::from_slice(alloc, entries[at])?;
            self.left = &self.left[1..];
        }
        Ok(())
    }

    /// Adds `more`, the next bytes of the open entry, if it is wanted. Its index is `index`. `AllocError` if memory
    /// runs out.
    pub(crate) fn push(&mut self, index: usize, more: &[u8]) -> Result<(), AllocError>
        requires { HasPlaces self.old }
        ensures places { OnOk result (HasPlaces self.new) }
        ensures holds { (wanted : List ℕ) (ended : List (List ℕ)) (bytes : List ℕ) → index ≡ length ended →
            HoldsWanted self.old wanted ended bytes →
            OnOk result (HoldsWanted self.new wanted ended (bytes ++ more.now)) }
    {
        if self.is_next(index) {
            self.begun.extend_from_slice(more)?;
        }
        Ok(())
    }

    /// Ends the open entry, whose index is `index`. `AllocError` if memory runs out.
    pub(crate) fn end(&mut self, alloc: Global, index: usize) -> Result<(), AllocError>
        requires { HasPlaces self.old }
        ensures places { OnOk result (HasPlaces self.new) }
        ensures holds { (wanted : List ℕ) (ended : List (List ℕ)) (bytes : List ℕ) → index ≡ length ended →
            HoldsWanted self.old wanted ended bytes →
            OnOk result (HoldsWanted self.new wanted (ended ++ bytes ∷ []) []) }
    {
        if self.is_next(index) {
            let bytes = mem::replace(&mut self.begun, Vec::new(alloc));
            self.copy(alloc, index, &[&bytes])?;
        }
        Ok(())
    }

    /// The wanted entries, each at its place among the wanted ones, if all of them have ended, else an empty list.
    pub(crate) fn into_entries(self, alloc: Global) -> Vec<Vec<u8>>
        ensures { (wanted : List ℕ) (ended : List (List ℕ)) (bytes : List ℕ) →
            HoldsWanted self.entry wanted ended bytes →
            map (λ entry. entry.items) result.items ≡ wanted_of ended wanted }
    {
        if self.left.is_empty() {
            self.entries
        } else {
            Vec::new(alloc)
        }
    }
}
