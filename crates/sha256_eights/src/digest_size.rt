//! The length of a digest, as a bound of code that is generic in it.
ghost use Rattle.std.specs.Prelude.{◌≡◌, refl};

use sha2::Sha256;

/// A hash with digests of `D` bytes. `Sha256` has this trait at 32 alone. Code that is generic in `D` has it as a bound
/// in place of writing 32: Rattle, in which the code is proved, refuses an `impl` that leaves one number of its trait
/// open and writes another.
pub trait DigestSize<const D: usize> {
    /// The digest as an array of `D` bytes, where `D` is 32.
    fn array(digest: [u8; 32]) -> [u8; D]
        ensures { result ≡ digest };

    // `D` is 32: callers prove by it that the number of bytes of a group fits.
    ghost size: { D ≡ 32 };
}

impl DigestSize<32> for Sha256 {
    fn array(digest: [u8; 32]) -> [u8; 32] {
        digest
    }

    ghost size = { refl };
}
