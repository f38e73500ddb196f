//! Packed values: several values of one type that are worked on together.
ghost use Rattle.std.specs.Prelude.{◌≡◌, ◌≢◌, ℕ, ◌+◌, ◌<◌, ◌≤◌, List, [], ◌∷◌, length, map, refl, replicate};
ghost use Rattle.std.specs.Prelude.{slice_index_or, slice_set};
ghost use Rattle.std.specs.Bool.{Decides};
ghost use Rattle.std.specs.Cmp.{unsigned_Decides};
ghost use Rattle.std.specs.List.{range_with_len};
ghost use Rattle.p3_support.specs.Lists.{lane_of};

use std::cmp::Eq;
use std::convert::AsSlice;

/// `WIDTH` values that are worked on together, each in a lane. A packed value is the list of its lanes.
pub trait PackedValue: Copy {
    /// What a lane holds. Its `==` is equality of values, and each call of its `default` gives the same value.
    type Value: Copy + Default + Eq;

    /// The number of lanes.
    const WIDTH: usize;

    // The constant above.
    ghost WIDTH: { ℕ };

    // The lanes in order.
    ghost lanes: { Self → List Self.Value };

    // What the default of a lane's value is.
    ghost default_value: { Self.Value };

    /// The packed value that has `value` in every lane.
    fn broadcast(value: Self::Value) -> Self
        ensures { lanes result ≡ replicate WIDTH value };

    /// Lane `k`, where `k < WIDTH`.
    fn lane(&self, k: usize) -> Self::Value
        requires { k < WIDTH }
        ensures { result ≡ slice_index_or (lanes self.now) k default_value };

    /// The same lanes with `value` in place of lane `k`, where `k < WIDTH`.
    fn with_lane(self, k: usize, value: Self::Value) -> Self
        requires { k < WIDTH }
        ensures { lanes result ≡ slice_set (lanes self) k value };

    /// The packed value whose lane `k` is `f(k)`, for each `k` below `WIDTH`. `f` must accept each of these `k`.
    final fn from_fn<F: Fn(usize) -> Self::Value>(f: F) -> Self
    where
        Self: Sized,
        requires { (k : ℕ) → k < WIDTH → F.pre f k }
        ensures { (k : ℕ) → k < WIDTH → F.post f k (slice_index_or (lanes result) k default_value) }
    {
        let mut packed = Self::broadcast(Self::Value::default());
        for k in 0..Self::WIDTH {
            packed = packed.with_lane(k, f(k));
        }
        packed
    }

    // There are WIDTH lanes.
    ghost length_lanes: { (p : Self) → length (lanes p) ≡ WIDTH };

    // `==` is equality of values.
    ghost eq_is_equality: { (a b : Self.Value) → Decides (Self.Value.eq a b) (a ≡ b) };

    // Each default is the one value.
    ghost default_is_unique: { (a : Self.Value) → Self.Value.is_default a → a ≡ default_value };
}

/// A single value is packed alone, in one lane.
impl PackedValue for u32 {
    type Value = u32;

    const WIDTH: usize = 1;

    ghost WIDTH = { 1 };

    ghost lanes = { λ p. p ∷ [] };

    ghost default_value = { 0 };

    fn broadcast(value: u32) -> u32 {
        value
    }

    fn lane(&self, k: usize) -> u32 {
        *self
    }

    fn with_lane(self, k: usize, value: u32) -> u32 {
        value
    }

    ghost length_lanes = { λ p. refl };

    ghost eq_is_equality = { unsigned_Decides };

    ghost default_is_unique = { λ a h. h };
}

/// A single byte is packed alone, too.
impl PackedValue for u8 {
    type Value = u8;

    const WIDTH: usize = 1;

    ghost WIDTH = { 1 };

    ghost lanes = { λ p. p ∷ [] };

    ghost default_value = { 0 };

    fn broadcast(value: u8) -> u8 {
        value
    }

    fn lane(&self, k: usize) -> u8 {
        *self
    }

    fn with_lane(self, k: usize, value: u8) -> u8 {
        value
    }

    ghost length_lanes = { λ p. refl };

    ghost eq_is_equality = { unsigned_Decides };

    ghost default_is_unique = { λ a h. h };
}

/// States that a row has `D` elements.
pub fn lemma_row<T, const D: usize>(row: &[T; D])
    ensures { length row.now ≡ D }
{}

/// States that each row of a slice has `D` elements.
pub fn lemma_rows<T, const D: usize>(rows: &[[T; D]])
    ensures { (k : ℕ) → k < length rows.now → length (slice_index_or rows.now k []) ≡ D }
{
    for k in 0..rows.len() {
        lemma_row(&rows[k]);
    }
}

/// Unpacks one packed value: lane `k` becomes element `e` of row `k`, where `e < D`. `rows` must have `PW::WIDTH` rows.
fn unpack_value<PW: PackedValue, const D: usize>(value: PW, e: usize, rows: &mut [[PW::Value; D]])
    requires inside { e < D }
    requires rows { length rows.old ≡ PW.WIDTH }
    ensures long { length rows.new ≡ length rows.old }
    ensures written { (k : ℕ) → k < PW.WIDTH → slice_index_or rows.new k []
        ≡ slice_set (slice_index_or rows.old k []) e (slice_index_or (PW.lanes value) k PW.default_value) }
{
    for k in 0..PW::WIDTH {
        rows[k][e] = value.lane(k);
    }
}

/// Unpacks an array of packed values: `rows[k][e]` becomes lane `k` of `packed[e]`. `rows` must have `PW::WIDTH` rows.
pub fn unpack_into<PW: PackedValue, const D: usize>(packed: &[PW; D], rows: &mut [[PW::Value; D]])
    requires { length rows.old ≡ PW.WIDTH }
    ensures { rows.new ≡ map (λ k. lane_of PW.lanes PW.default_value k packed.now) (range_with_len 0 PW.WIDTH) }
{
    lemma_rows(rows);
    // The inner loop goes over the lanes: their number is a constant, so no lane is read at a computed position.
    for (e, value) in packed.iter().enumerate() {
        unpack_value(*value, e, rows);
    }
}

/// Unpacks an array of packed values into the rows from `first` on, a row for each lane: `rows[first + k][e]` becomes
/// lane `k` of `packed[e]`. The rows before `first` stay as they are. `first + PW::WIDTH` must be at most the number of
/// rows.
pub fn unpack_at<PW: PackedValue, const D: usize>(
    packed: &[PW; D],
    rows: &mut [[PW::Value; D]],
    first: usize,
)
    requires { first + PW.WIDTH ≤ length rows.old }
    ensures long { length rows.new ≡ length rows.old }
    ensures lanes { (k : ℕ) → k < PW.WIDTH →
        slice_index_or rows.new (first + k) [] ≡ lane_of PW.lanes PW.default_value k packed.now }
    ensures before { (j : ℕ) → j < first → slice_index_or rows.new j [] ≡ slice_index_or rows.old j [] }
{
    unpack_into(packed, &mut rows[first..first + PW::WIDTH]);
}

/// Writes a column into lane `k`, where `k < PW::WIDTH`: lane `k` of `packed[e]` becomes `column[e]`, and other lanes
/// stay. `column` must have `D` values.
fn set_lane<PW: PackedValue, const D: usize>(packed: &mut [PW; D], k: usize, column: &[PW::Value])
    requires lane { k < PW.WIDTH }
    requires long { length column.now ≡ D }
    ensures lane_set { lane_of PW.lanes PW.default_value k packed.new ≡ column.now }
    ensures other { (j : ℕ) → j ≢ k → lane_of PW.lanes PW.default_value j packed.new
        ≡ lane_of PW.lanes PW.default_value j packed.old }
{
    for (e, element) in packed.iter_mut().enumerate() {
        *element = element.with_lane(k, column[e]);
    }
}

/// Packs columns, which are arrays or slices of `D` values: lane `k` of element `e` is `f(k)[e]`, for each `k` below
/// `PW::WIDTH`. `f` must accept each of these `k`, and return `D` values.
pub fn pack_columns_fn<
    PW: PackedValue,
    X: AsSlice<PW::Value> + Drop,
    F: Fn(usize) -> X,
    const D: usize,
>(f: F) -> [PW; D]
    requires callable { (k : ℕ) → k < PW.WIDTH → F.pre f k }
    requires long { (k : ℕ) (column : _) → k < PW.WIDTH → F.post f k column → length (X.items column) ≡ D }
    ensures { (k : ℕ) → k < PW.WIDTH → (column : _)
        × F.post f k column × (lane_of PW.lanes PW.default_value k result ≡ X.items column) }
{
    let mut packed = [PW::broadcast(PW::Value::default()); D];
    for k in 0..PW::WIDTH {
        let column = f(k);
        set_lane(&mut packed, k, column.as_slice());
    }
    packed
}
