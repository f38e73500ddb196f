//! The words of rows and of digests.

ghost use Rattle.std.specs.Prelude.{◌≡◌, ℕ, ◌<◌, ◌≤◌, refl};
ghost use Rattle.std.specs.Mem.{type_size};
ghost use Rattle.std.proofs.Common.{rules};

/// A word of a row or of a digest: a number from 0 to `MAX`.
pub trait Word: Copy {
    /// The greatest of them.
    const MAX: u32;
    /// How many hexadecimal digits a word is printed with.
    const HEX_DIGITS: usize;

    // The constants above, and which number a word is.
    ghost MAX: { ℕ };

    ghost HEX_DIGITS: { ℕ };

    ghost value: { Self → ℕ };

    /// The word of a number that is at most `MAX`.
    fn from_number(number: u32) -> Self
        requires { number ≤ MAX }
        ensures { value result ≡ number };

    /// Its number.
    fn to_number(self) -> u32
        ensures { result ≡ value self };

    // It takes some bytes of memory.
    ghost some_bytes: { 0 < type_size Self.row };

    // To a proof, where a type bounds no number, each number is the number of one word.
    ghost some_word: { (n : ℕ) → (w : Self) × (value w ≡ n) };

    ghost one_word: { (v w : Self) → value v ≡ value w → v ≡ w };
}

impl Word for u8 {
    const MAX: u32 = 255;

    const HEX_DIGITS: usize = 2;

    ghost MAX = { 255 };

    ghost HEX_DIGITS = { 2 };

    ghost value = { λ byte. byte };

    fn from_number(number: u32) -> u8 {
        number as u8
    }

    fn to_number(self) -> u32 {
        u32::from(self)
    }

    ghost some_bytes = { Prim.search rules };

    ghost some_word = { λ n. (n, refl) };

    ghost one_word = { λ v w same. same };
}

impl Word for u32 {
    const MAX: u32 = u32::MAX;

    const HEX_DIGITS: usize = 8;

    ghost MAX = { 4294967295 };

    ghost HEX_DIGITS = { 8 };

    ghost value = { λ word. word };

    fn from_number(number: u32) -> u32 {
        number
    }

    fn to_number(self) -> u32 {
        self
    }

    ghost some_bytes = { Prim.search rules };

    ghost some_word = { λ n. (n, refl) };

    ghost one_word = { λ v w same. same };
}
