//! The leaf hashes of entries, eight at a time.
ghost use Rattle.std.specs.Prelude.{◌≡◌, ℕ, ◌<◌, ◌≤◌, IfOk, OnOk, All, Decides, List, length, map, take};
ghost use Rattle.std.specs.Prelude.{slice_index_or};
ghost use Rattle.sha2.specs.Sha256.{sha256};
ghost use Rattle.tlog.specs.Rfc9162.{leaf_hash};
ghost use Rattle.tlog_tree.specs.Inner.Leaves.{block_count, AreHashes, Fills, IsHashed, IsOfLength, IsPlaceOf};

use sha256_eights::{hash_many, hash_padded_eight, push_padded};
use std::alloc::{AllocError, Global};

/// The most bytes of inputs of one length that are hashed together, unless eight inputs have more.
const BATCH_BYTES: usize = 1 << 16;

/// The leaf hashes of entries, in their order (RFC 9162, 2.1.1). Entries that fill one number of blocks of SHA-256 are
/// hashed eight at a time, wherever they stand.
///
/// # Errors
///
/// `AllocError` if memory runs out.
pub fn leaf_hashes(alloc: Global, entries: &[&[u8]]) -> Result<Vec<[u8; 32]>, AllocError>
    ensures { IfOk result (λ hashes. hashes.items ≡ map (λ entry. leaf_hash sha256 entry.now) entries.now) }
{
    // The length and the index of each entry.
    let mut by_length = Vec::with_capacity(alloc, entries.len())?;
    for index in 0..entries.len() {
        by_length.push((entries[index].len(), index))?;
    }
    by_length.sort_unstable();
    let mut hashes = vec![in alloc; [0; 32]; entries.len()]?;
    let mut rest = by_length.as_slice();
    while !rest.is_empty() {
        let count = hash_first(alloc, entries, rest, &mut hashes)?;
        rest = &rest[count..];
    }
    Ok(hashes)
}

/// Writes the leaf hashes of the first of `places` into `hashes`, and returns how many they are: as many of one length
/// as are hashed together; or, if these are fewer than eight, eight that fill equally many blocks. `places`, which must
/// not be empty, has the length of an entry and its index in `entries` and `hashes`. `AllocError` if memory runs out.
fn hash_first(
    alloc: Global,
    entries: &[&[u8]],
    places: &[(usize, usize)],
    hashes: &mut [[u8; 32]],
) -> Result<usize, AllocError>
    requires some { 0 < length places.now }
    requires own { All (IsPlaceOf (map (λ entry. entry.now) entries.now)) places.now }
    requires room { length hashes.old ≡ length entries.now }
    ensures some { IfOk result (λ count. 0 < count) }
    ensures within { IfOk result (λ count. count ≤ length places.now) }
    ensures hashed { IfOk result (λ count. All (λ (place : ℕ × ℕ).
        IsHashed (map (λ entry. entry.now) entries.now) hashes.new place.1) (take count places.now)) }
    ensures kept { OnOk result ((index : ℕ) → IsHashed (map (λ entry. entry.now) entries.now) hashes.old index →
        IsHashed (map (λ entry. entry.now) entries.now) hashes.new index) }
{
    let alike = alike_len(places);
    let count = block_count(places[0].0);
    if alike < 8 && places.len() >= 8 && all_fill(&places[..8], count) {
        let eight = &places[..8];
        place_hashes(eight, &hash_eight(alloc, entries, eight, count)?, hashes);
        return Ok(8);
    }
    let batch = &places[..alike];
    place_hashes(batch, &hash_alike(alloc, entries, batch)?, hashes);
    Ok(alike)
}

/// How many of `places`, from the first on, are hashed together: those of the first one's length, up to a limit, and
/// only whole eights of them if there are eight. `places`, which must not be empty, has the length and the index of
/// each entry.
fn alike_len(places: &[(usize, usize)]) -> usize
    requires { 0 < length places.now }
    ensures some { 0 < result }
    ensures within { result ≤ length places.now }
    ensures alike { (k : ℕ) (d : ℕ × ℕ) → k < result →
        (slice_index_or places.now k d).0 ≡ (slice_index_or places.now 0 (0, 0)).0 }
{
    let length = places[0].0;
    let most = (BATCH_BYTES / length.saturating_add(1)).max(8);
    for (k, place) in places.iter().enumerate() {
        if k == most || place.0 != length {
            return whole_eights(k);
        }
    }
    whole_eights(places.len())
}

/// The greatest multiple of eight up to `count`, or `count` itself if it is less than eight.
fn whole_eights(count: usize) -> usize
    ensures some { 0 < count → 0 < result }
    ensures within { result ≤ count }
{
    if count < 8 { count } else { count / 8 * 8 }
}

/// Whether each entry of `places`, its length and its index, fills `count` blocks.
fn all_fill(places: &[(usize, usize)], count: usize) -> bool
    ensures { Decides result (All (Fills count) places.now) }
{
    places.iter().all(|place| block_count(place.0) == count)
}

/// How many blocks of SHA-256 the input of the leaf hash of an entry of `length` bytes fills.
fn block_count(length: usize) -> usize
    ensures { result ≡ block_count length }
{
    // A byte goes ahead of the entry, nine bytes of padding at least follow it.
    length / 64 + (length % 64 + 73) / 64
}

/// The leaf hashes of the entries of `places`, lengths and indices of entries. All must have one length. `AllocError`
/// if memory runs out.
fn hash_alike(
    alloc: Global,
    entries: &[&[u8]],
    places: &[(usize, usize)],
) -> Result<Vec<[u8; 32]>, AllocError>
    requires { (length : ℕ) × All (IsOfLength (map (λ entry. entry.now) entries.now) length) places.now }
    ensures hashes { IfOk result (λ values.
        AreHashes (map (λ entry. entry.now) entries.now) places.now values.items) }
    ensures each { IfOk result (λ values. length values.items ≡ length places.now) }
{
    // The inputs of the hashes, each a byte 0 and the entry, one after another.
    let mut inputs = Vec::with_capacity(alloc, BATCH_BYTES)?;
    for (_, index) in places {
        inputs.push(0)?;
        inputs.extend_from_slice(entries[*index])?;
    }
    let mut values = vec![in alloc; [0; 32]; places.len()]?;
    hash_many(&inputs, &mut values);
    Ok(values)
}

/// The leaf hashes of the eight entries of `places`, lengths and indices of entries, of which each fills `count`
/// blocks. `AllocError` if memory runs out.
fn hash_eight(
    alloc: Global,
    entries: &[&[u8]],
    places: &[(usize, usize)],
    count: usize,
) -> Result<[[u8; 32]; 8], AllocError>
    requires eight { length places.now ≡ 8 }
    requires own { All (IsPlaceOf (map (λ entry. entry.now) entries.now)) places.now }
    requires alike { All (Fills count) places.now }
    ensures { IfOk result (λ values. AreHashes (map (λ entry. entry.now) entries.now) places.now values) }
{
    let mut blocks = Vec::with_capacity(alloc, count.saturating_mul(512))?;
    for (_, index) in places {
        push_padded(&mut blocks, 0, entries[*index])?;
    }
    Ok(hash_padded_eight(&blocks, count))
}

/// Writes `values[k]` into `hashes[index]`, where `index` is that of `places[k]`, the length and index of an entry.
/// There must be one value for each place, and each index must be within `hashes`.
fn place_hashes(places: &[(usize, usize)], values: &[[u8; 32]], hashes: &mut [[u8; 32]])
    requires inside { All (λ (place : ℕ × ℕ). place.1 < length hashes.old) places.now }
    requires each { length values.now ≡ length places.now }
    ensures hashed { (entries : List (List ℕ)) → AreHashes entries places.now values.now →
        All (λ (place : ℕ × ℕ). IsHashed entries hashes.new place.1) places.now }
    ensures kept { (entries : List (List ℕ)) → AreHashes entries places.now values.now → (index : ℕ) →
        IsHashed entries hashes.old index → IsHashed entries hashes.new index }
{
    for (k, (_, index)) in places.iter().enumerate() {
        hashes[*index] = values[k];
    }
}
