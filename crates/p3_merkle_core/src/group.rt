//! Groups of digests. A compression takes a group of `N`: where there are fewer digests, default digests follow.

ghost use Rattle.std.specs.Prelude.{◌≡◌, ◌+◌, ◌++◌, ◌<◌, ◌≤◌, ◌∷◌, [], IfOk, length, insert, remove, slice_index_or};
ghost use Rattle.p3_merkle_core.specs.Nodes.{padded};

use std::alloc::AllocError;

/// The group of a node on a path: its siblings with its own `digest` inserted at `position`, then default digests.
/// There must be fewer siblings than `N`, and `position` must be at most their number.
pub fn group_with<W: Copy, const N: usize, const D: usize>(
    default_digest: [W; D],
    digest: [W; D],
    position: usize,
    siblings: &[[W; D]],
) -> [[W; D]; N]
    requires placed { position ≤ length siblings.now }
    requires fits { length siblings.now < N }
    ensures { result ≡ padded N default_digest (insert siblings.now position digest) }
{
    let mut group = [default_digest; N];
    // Groups are small: one write for each digest costs less than two slice copies.
    group[position] = digest;
    for (k, sibling) in siblings.iter().enumerate() {
        let slot = if k < position { k } else { k + 1 };
        group[slot] = *sibling;
    }
    group
}

/// The group of a node's children: their digests, then default digests. There must be at most `N` children.
pub fn padded_group<W: Copy, const N: usize, const D: usize>(
    default_digest: [W; D],
    children: &[[W; D]],
) -> [[W; D]; N]
    requires { length children.now ≤ N }
    ensures { result ≡ padded N default_digest children.now }
{
    // Slot by slot: copies of slices as short as these are calls that take longer.
    std::array::from_fn(
        |place| -> [W; D]
            ensures { result ≡ slice_index_or children.entry.now place default_digest }
        {
            if place < children.len() {
                children[place]
            } else {
                default_digest
            }
        },
    )
}

/// The group of two digests, `left` and `right`, then default digests. A node to which rows belong compresses the
/// digest of its children and that of its rows in this way. `N` must be at least 2.
pub fn pair_group<W: Copy, const N: usize, const D: usize>(
    default_digest: [W; D],
    left: [W; D],
    right: [W; D],
) -> [[W; D]; N]
    requires { 2 ≤ N }
    ensures { result ≡ padded N default_digest (left ∷ right ∷ []) }
{
    let mut group = [default_digest; N];
    group[0] = left;
    group[1] = right;
    group
}

/// Appends the siblings of the digest at `position`: the other digests of its group, or of a part of its group. The
/// group must have a digest at that position.
///
/// # Errors
///
/// `AllocError` if memory runs out.
pub fn append_siblings<X: Copy>(
    digests: &mut Vec<X>,
    group: &[X],
    position: usize,
) -> Result<(), AllocError>
    requires { position < length group.now }
    ensures { IfOk result (λ done. digests.new.items ≡ digests.old.items ++ remove group.now position) }
{
    // Each read computes its index without a branch: the position is as good as random.
    for place in 1..group.len() {
        digests.push(group[place - usize::from(place <= position)])?;
    }
    Ok(())
}
