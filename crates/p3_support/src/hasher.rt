//! The trait of hashers: functions from a list of words to a digest.
ghost use Rattle.std.specs.Prelude.{◌≡◌, ℕ, ◌*◌, ◌<◌, List, length, map};
ghost use Rattle.std.specs.Iterator.{IsFinite};
ghost use Rattle.std.specs.Iterator.Runs.{WholeRun};
ghost use Rattle.std.specs.List.{flat_map};
ghost use Rattle.p3_support.specs.Lists.{messages as messages_of, lane_of};

use crate::packed::PackedValue;
use std::convert::AsSlice;

/// A hash function from lists of words, the lane values of `P`, to digests of `D` lane values of `PW`. All five calls
/// compute this one function. None of them allocates.
pub trait CryptographicHasher<P: PackedValue, PW: PackedValue, const D: usize> {
    /// How many messages `hash_many` hashes side by side. It is fastest for a multiple of this many.
    const LANES: usize;

    /// Whether a message in several pieces is hashed faster when it is copied into one slice first. No builder reads
    /// it.
    const PREFER_CONTIGUOUS_INPUT: bool;

    // The digest of a list of words.
    ghost hash: { Self → List P.Value → List PW.Value };

    /// The digest of the items of `input`. Its items must end, and `next` must be callable until then.
    fn hash_iter<I: Iterator<Item = P::Value>>(&self, input: I) -> [PW::Value; D]
        requires can { I.can_next input }
        requires ends { IsFinite (I.remaining input) }
        ensures { WholeRun I.next_gives input (λ p. result ≡ hash self.now p.items) };

    /// The digest of the words of a slice.
    fn hash_slice(&self, input: &[P::Value]) -> [PW::Value; D]
        ensures { result ≡ hash self.now input.now };

    /// The digest of the slices of `input`, one after another. The conditions are those of
    /// [`hash_iter`](Self::hash_iter).
    fn hash_iter_slices<S: AsSlice<P::Value> + Drop, I: Iterator<Item = S>>(
        &self,
        input: I,
    ) -> [PW::Value; D]
        requires can { I.can_next input }
        requires ends { IsFinite (I.remaining input) }
        ensures { WholeRun I.next_gives input (λ p. result ≡ hash self.now (flat_map S.items p.items)) };

    /// Writes the digest of message `i` into `out[i]`. `messages` has as many messages as `out` has places, one after
    /// another and of one length `w`: message `i` is `messages[i * w..(i + 1) * w]`. They are hashed one by one, unless
    /// the hasher has its own call.
    fn hash_many(&self, messages: &[P::Value], out: &mut [[PW::Value; D]])
        requires { (w : ℕ) × (length messages.now ≡ w * length out.old) }
        ensures { (w : ℕ) → length messages.now ≡ w * length out.old →
            out.new ≡ map (hash self.now) (messages_of w (length out.old) messages.now) }
    {
        if out.is_empty() {
            return;
        }
        let width = messages.len() / out.len();
        for (i, digest) in out.iter_mut().enumerate() {
            *digest = self.hash_slice(&messages[i * width..(i + 1) * width]);
        }
    }

    /// The digests of `P::WIDTH` messages, packed word by word: lane `k` of the result is the digest of the lanes `k`
    /// of the items, for each lane that both packings have. The conditions are those of [`hash_iter`](Self::hash_iter).
    fn hash_packed<I: Iterator<Item = P>>(&self, input: I) -> [PW; D]
        requires can { I.can_next input }
        requires ends { IsFinite (I.remaining input) }
        ensures { WholeRun I.next_gives input (λ p. (k : ℕ) → k < P.WIDTH → k < PW.WIDTH →
            lane_of PW.lanes PW.default_value k result ≡ hash self.now (lane_of P.lanes P.default_value k p.items)) };
}
