//! What a commitment scheme hands out: borrowed digests, caps and openings.
ghost use Rattle.std.specs.Prelude.{◌≡◌, ◌<◌, length, slice_get, Some};

use std::marker::PhantomData;
use std::ops::Index;

/// A borrowed digest `X` of a tree over values `F`. Two are equal if their digests are.
#[derive_where(Clone, Copy)]
#[derive_where(Debug, PartialEq, Eq; X)]
pub struct DigestRef<'a, F, X> {
    value: &'a X,
    #[derive_where(skip)]
    of: PhantomData<F>,
}

/// A borrowed digest of `D` words `W` (`Hash` in Plonky3).
pub type Hash<'a, F, W, const D: usize> = DigestRef<'a, F, [W; D]>;

impl<'a, F, X> From<&'a X> for DigestRef<'a, F, X> {
    ghost use Rattle.p3_support.specs.Shown.{digest_of_ref};

    ghost from_gives = { λ digest lent. digest_of_ref lent ≡ digest.now };

    fn from(value: &'a X) -> DigestRef<'a, F, X> {
        DigestRef {
            value,
            of: PhantomData,
        }
    }
}

impl<'a, F, X> DigestRef<'a, F, X> {
    ghost use Rattle.p3_support.specs.Shown.{digest_of_ref};

    /// The borrowed digest.
    pub fn value(&self) -> &'a X
        ensures { result.now ≡ digest_of_ref self.now }
    {
        self.value
    }
}

/// The commitment to a tree over values `F`: the digests `X` of one of its layers, in order.
#[derive(Drop)]
#[derive_where(Clone, Debug, PartialEq, Eq; X)]
pub struct MerkleCap<F, X> {
    roots: Vec<X>,
    #[derive_where(skip)]
    of: PhantomData<F>,
}

impl<F, X> MerkleCap<F, X> {
    ghost use Rattle.p3_support.specs.Shown.{roots_of};

    /// The cap with these digests, in order.
    pub fn new(roots: Vec<X>) -> MerkleCap<F, X>
        ensures { roots_of result ≡ roots.items }
    {
        MerkleCap {
            roots,
            of: PhantomData,
        }
    }

    /// The number of digests.
    pub fn num_roots(&self) -> usize
        ensures { result ≡ length (roots_of self.now) }
    {
        self.roots.len()
    }

    /// The digests, in order.
    pub fn roots(&self) -> &[X]
        ensures { result.now ≡ roots_of self.now }
    {
        self.roots.as_slice()
    }

    /// The digests, in order, without a copy.
    pub fn into_roots(self) -> Vec<X>
        ensures { result.items ≡ roots_of self }
    {
        self.roots
    }
}

/// `cap[i]` is digest `i`, where `i < cap.num_roots()`.
impl<F, X> Index<usize> for MerkleCap<F, X> {
    ghost use Rattle.p3_support.specs.Shown.{roots_of};

    type Output = X;

    ghost can_index = { λ cap i. i < length (roots_of cap) };

    ghost index_gives = { λ cap i root. slice_get (roots_of cap) i ≡ Some root };

    fn index(&self, i: usize) -> &X {
        &self.roots[i]
    }
}

/// The opened rows, one of each matrix, and the proof that they were committed to.
#[derive(Clone, Debug, PartialEq, Eq, Drop)]
pub struct BatchOpening<T, Proof> {
    /// One row of each matrix, in input order.
    pub opened_values: Vec<Vec<T>>,
    /// The proof of the rows.
    pub opening_proof: Proof,
}

impl<T, Proof> BatchOpening<T, Proof> {
    /// The opening of these rows by this proof.
    pub fn new(opened_values: Vec<Vec<T>>, opening_proof: Proof) -> BatchOpening<T, Proof>
        ensures values { result.opened_values ≡ opened_values }
        ensures proof { result.opening_proof ≡ opening_proof }
    {
        BatchOpening {
            opened_values,
            opening_proof,
        }
    }

    /// The rows and the proof.
    pub fn unpack(self) -> (Vec<Vec<T>>, Proof)
        ensures values { result.0 ≡ self.opened_values }
        ensures proof { result.1 ≡ self.opening_proof }
    {
        (self.opened_values, self.opening_proof)
    }
}

/// A borrowed opening.
#[derive_where(Clone, Copy)]
#[derive_where(Debug; T, Proof)]
pub struct BatchOpeningRef<'a, T, Proof> {
    /// One row of each matrix, in input order.
    pub opened_values: &'a [Vec<T>],
    /// The proof of the rows.
    pub opening_proof: &'a Proof,
}

impl<'a, T, Proof> BatchOpeningRef<'a, T, Proof> {
    /// The opening of these rows by this proof.
    pub fn new(
        opened_values: &'a [Vec<T>],
        opening_proof: &'a Proof,
    ) -> BatchOpeningRef<'a, T, Proof>
        ensures values { result.opened_values.now ≡ opened_values.now }
        ensures proof { result.opening_proof.now ≡ opening_proof.now }
    {
        BatchOpeningRef {
            opened_values,
            opening_proof,
        }
    }

    /// The rows and the proof.
    pub fn unpack(&self) -> (&'a [Vec<T>], &'a Proof)
        ensures values { result.0.now ≡ self.now.opened_values.now }
        ensures proof { result.1.now ≡ self.now.opening_proof.now }
    {
        (self.opened_values, self.opening_proof)
    }
}

impl<'a, T, Proof> From<&'a BatchOpening<T, Proof>> for BatchOpeningRef<'a, T, Proof> {
    ghost from_gives = { λ opening lent. (lent.opened_values.now ≡ opening.now.opened_values.items)
        × (lent.opening_proof.now ≡ opening.now.opening_proof) };

    fn from(opening: &'a BatchOpening<T, Proof>) -> BatchOpeningRef<'a, T, Proof> {
        BatchOpeningRef {
            opened_values: opening.opened_values.as_slice(),
            opening_proof: &opening.opening_proof,
        }
    }
}
