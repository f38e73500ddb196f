//! The trait of compressions: functions from a group of digests to one digest.
ghost use Rattle.std.specs.Prelude.{◌≡◌, ℕ, ◌<◌, List, length, map};
ghost use Rattle.p3_support.specs.Lists.{lane_of};

use crate::packed::PackedValue;

/// A compression function from groups of `N` digests to one digest, of `D` lane values of `PW` each. All three calls
/// compute this one function. None of them allocates.
pub trait PseudoCompressionFunction<PW: PackedValue, const N: usize, const D: usize> {
    /// How many groups `compress_many` compresses side by side. It is fastest for a multiple of this many.
    const LANES: usize;

    // The digest of N digests.
    ghost compression: { Self → List (List PW.Value) → List PW.Value };

    /// The digest of a group of `N` digests.
    fn compress(&self, input: [[PW::Value; D]; N]) -> [PW::Value; D]
        ensures { result ≡ compression self.now input };

    /// Writes the digest of `groups[i]` into `out[i]`. `out` must be as long as `groups`. They are compressed one by
    /// one, unless the compression has its own call.
    fn compress_many(&self, groups: &[[[PW::Value; D]; N]], out: &mut [[PW::Value; D]])
        requires { length groups.now ≡ length out.old }
        ensures { out.new ≡ map (compression self.now) groups.now }
    {
        for (i, digest) in out.iter_mut().enumerate() {
            *digest = self.compress(groups[i]);
        }
    }

    /// The digests of `PW::WIDTH` groups, packed value by value: lane `k` of the result is the digest of the group in
    /// the lanes `k` of `input`.
    fn compress_packed(&self, input: [[PW; D]; N]) -> [PW; D]
        ensures { (k : ℕ) → k < PW.WIDTH → lane_of PW.lanes PW.default_value k result
            ≡ compression self.now (map (lane_of PW.lanes PW.default_value k) input) };
}
