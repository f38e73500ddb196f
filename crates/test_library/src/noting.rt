//! Tests of the calls of a hasher and a compression by which a tree is built, in their order.

ghost use Rattle.std.specs.Prelude.{◌≡◌, ℕ, ◌<◌, ◌≤◌, map};
ghost use Rattle.p3_support.specs.Lists.{lane_of};

use p3_hashes::fold::{FoldCompress, FoldHash, FoldPacked};
use p3_hashes::lanes::U32x8;
use p3_merkle_tree::{MerkleTree, MerkleTreeError};
use p3_support::compress::PseudoCompressionFunction;
use p3_support::hasher::CryptographicHasher;
use p3_support::packed::PackedValue;
use std::alloc::Global;
use std::cell::Cell;
use std::convert::AsSlice;
use std::fmt::Write;
use std::process::Abort;
use std::test::Fail;
use test_support::matrices::{Numbers, numbered};

/// The calls so far, each with the number of its digests.
#[derive(Drop)]
struct Notes {
    alloc: Global,
    text: Cell<String>,
}

impl Notes {
    /// Notes a call. If memory runs out, the note is missing, and the test fails.
    fn note(&self, call: &str, digests: usize) {
        let mut text = self.text.replace(String::new(self.alloc));
        let _ = write!(text, "{call} {digests}, ");
        self.text.set(text);
    }
}

/// A wrapper of `X`, with `LANES` set to `L`, that notes each call and then makes it.
#[derive(Drop)]
struct Noting<'a, X, const L: usize> {
    functions: X,
    notes: &'a Notes,
}

impl<
    'a,
    P: PackedValue,
    PW: PackedValue,
    X: CryptographicHasher<P, PW, D>,
    const L: usize,
    const D: usize,
> CryptographicHasher<P, PW, D> for Noting<'a, X, L> {
    const LANES: usize = L;

    const PREFER_CONTIGUOUS_INPUT: bool = X::PREFER_CONTIGUOUS_INPUT;

    ghost hash = { λ h xs. X.hash h.functions xs };

    fn hash_iter<I: Iterator<Item = P::Value>>(&self, input: I) -> [PW::Value; D] {
        self.notes.note("row", 1);
        self.functions.hash_iter(input)
    }

    fn hash_slice(&self, input: &[P::Value]) -> [PW::Value; D] {
        self.notes.note("row", 1);
        self.functions.hash_slice(input)
    }

    fn hash_iter_slices<S: AsSlice<P::Value> + Drop, I: Iterator<Item = S>>(
        &self,
        input: I,
    ) -> [PW::Value; D] {
        self.notes.note("row", 1);
        self.functions.hash_iter_slices(input)
    }

    fn hash_many(&self, messages: &[P::Value], out: &mut [[PW::Value; D]]) {
        self.notes.note("rows", out.len());
        self.functions.hash_many(messages, out)
    }

    fn hash_packed<I: Iterator<Item = P>>(&self, input: I) -> [PW; D] {
        self.notes.note("packed_rows", P::WIDTH);
        self.functions.hash_packed(input)
    }
}

impl<
    'a,
    PW: PackedValue,
    X: PseudoCompressionFunction<PW, N, D>,
    const L: usize,
    const N: usize,
    const D: usize,
> PseudoCompressionFunction<PW, N, D> for Noting<'a, X, L> {
    const LANES: usize = L;

    ghost compression = { λ c xs. X.compression c.functions xs };

    fn compress(&self, input: [[PW::Value; D]; N]) -> [PW::Value; D]
        ensures { result ≡ X.compression self.now.functions input }
    {
        self.notes.note("group", 1);
        self.functions.compress(input)
    }

    fn compress_many(&self, groups: &[[[PW::Value; D]; N]], out: &mut [[PW::Value; D]]) {
        self.notes.note("groups", out.len());
        self.functions.compress_many(groups, out)
    }

    fn compress_packed(&self, input: [[PW; D]; N]) -> [PW; D]
        ensures { (k : ℕ) → k < PW.WIDTH →
            lane_of PW.lanes PW.default_value k result
            ≡ X.compression self.now.functions (map (lane_of PW.lanes PW.default_value k) input) }
    {
        self.notes.note("packed_groups", PW::WIDTH);
        self.functions.compress_packed(input)
    }
}

/// Asserts that these calls build the tree of arity 2 over matrices of these widths and heights. `L` is the `LANES` of
/// the hasher, `G` that of the compression.
fn assert_calls<P: FoldPacked, const L: usize, const G: usize>(
    rt: &impl Abort,
    alloc: Global,
    sizes: &[(usize, usize)],
    expected: &str,
) -> Result<(), MerkleTreeError>
    requires { 1 ≤ P.WIDTH }
{
    let text = Cell::new(String::new(alloc));
    let notes = Notes { alloc, text };
    let hash = Noting::<_, L> {
        functions: FoldHash::<1>,
        notes: &notes,
    };
    let compress = Noting::<_, G> {
        functions: FoldCompress::<2, 1>,
        notes: &notes,
    };
    let matrices = numbered(alloc, sizes)?;
    MerkleTree::<u32, u32, Numbers, 2, 1>::new::<P, P, _, _>(alloc, &hash, &compress, matrices)?;
    let calls = notes.text.replace(String::new(alloc));
    assert_eq!(rt; calls.as_str().trim_end_matches(", "), expected);
    Ok(())
}

#[test]
fn groups_of_lanes_come_first_and_the_rest_together(rt: HostRuntime) -> Result<(), Fail> {
    let alloc = rt.alloc();
    // 17 rows, and layers of 9, 5, 3, 2 nodes and 1.
    let calls =
        "packed_rows 8, packed_rows 8, row 1, packed_groups 8, groups 1, groups 5, groups 3, groups 2, groups 1";
    assert_calls::<U32x8, 1, 1>(&rt, alloc, &[(1, 17)], calls)?;
    // Two rows are injected: the children of both nodes, then the rows, then the pairs.
    let calls = "rows 3, groups 2, rows 2, groups 2, groups 1";
    assert_calls::<u32, 1, 1>(&rt, alloc, &[(1, 3), (1, 2)], calls)?;
    Ok(())
}

#[test]
fn nodes_and_rows_that_no_matrix_stores_are_taken_together(rt: HostRuntime) -> Result<(), Fail> {
    let alloc = rt.alloc();
    let calls = "rows 17, groups 9, groups 5, groups 3, groups 2, groups 1";
    assert_calls::<u32, 8, 8>(&rt, alloc, &[(1, 17)], calls)?;
    let calls =
        "rows 17, groups 9, rows 9, groups 9, groups 5, groups 3, rows 3, groups 3, groups 2, groups 1";
    assert_calls::<u32, 8, 8>(&rt, alloc, &[(1, 17), (1, 9), (1, 3)], calls)?;
    let calls = "rows 5, groups 3, rows 3, groups 3, groups 2, groups 1";
    assert_calls::<u32, 8, 1>(&rt, alloc, &[(1, 5), (1, 3)], calls)?;
    assert_calls::<u32, 1, 8>(&rt, alloc, &[(1, 5), (1, 3)], calls)?;
    Ok(())
}

#[test]
fn rows_are_laid_side_by_side_in_whole_groups_of_lanes(rt: HostRuntime) -> Result<(), Fail> {
    let alloc = rt.alloc();
    // 16384 bytes hold 64 rows of 256 bytes.
    let calls =
        "rows 64, rows 6, groups 35, groups 18, groups 9, groups 5, groups 3, groups 2, groups 1";
    assert_calls::<u32, 8, 8>(&rt, alloc, &[(64, 70)], calls)?;
    // Rows of 16400 bytes go in the smallest group, of eight.
    let calls = "rows 8, rows 2, groups 5, groups 3, groups 2, groups 1";
    assert_calls::<u32, 8, 1>(&rt, alloc, &[(4100, 10)], calls)?;
    // Rows of no words count as one byte each.
    assert_calls::<u32, 8, 1>(&rt, alloc, &[(0, 3)], "rows 3, groups 2, groups 1")?;
    Ok(())
}
