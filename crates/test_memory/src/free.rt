//! Calls of matrices, hashers and compressions that take no memory.

ghost use Rattle.std.specs.Prelude.{◌≡◌, ◌*◌, length};

use crate::case::Rows;
use p3_hashes::batched::Batched3;
use p3_hashes::fold::{FoldCompress, FoldHash};
use p3_hashes::lanes::U32x8;
use p3_hashes::sha::{Sha256Nodes, Sha256Rows};
use p3_hashes::sha_eights::{Sha256NodesInEights, Sha256RowsInEights};
use p3_support::compress::PseudoCompressionFunction;
use p3_support::hasher::CryptographicHasher;
use p3_support::matrix::Matrix;
use p3_support::packed::PackedValue;

/// Whether the calls that read the first row of a matrix agree.
pub fn reads_agree(matrix: &Rows) -> bool {
    let size = matrix.dimensions();
    if size.height == 0 || size.width == 0 {
        return false;
    }
    let word = matrix.get(0, 0);
    matrix.piece(0, 0).first() == Some(&word)
        && matrix.row(0).next() == Some(word)
        && matrix.vertically_packed_row::<u32>(0).next() == Some(word)
        && matrix.values().first() == Some(&word)
        && (matrix.width(), matrix.height()) == (size.width, size.height)
}

/// Hashes messages of `width` words, which lie one after another, by one call.
fn hash_messages<P: PackedValue, H: CryptographicHasher<P, P, D>, const D: usize>(
    hash: &H,
    messages: &[P::Value],
    width: usize,
    digests: &mut [[P::Value; D]],
)
    requires { length messages.now ≡ width * length digests.old }
{
    hash.hash_many(messages, digests);
}

/// Whether each call of a hasher gives one digest of a message of two equal words, and each call of a compression one
/// digest of a pair of these. Those that take several get nine, so that one is left over after eight.
// It is a macro, since calls on packed values require that these fit into memory, which is known of each type alone.
macro_rules! calls_agree {
    ($hash:ident, $compress:ident, $P:ty, $word:ident) => {{
        let message = [$word; 2];
        let digest = $hash.hash_slice(&message);
        let parts = [&message[..1], &message[1..]];
        let packed = $hash.hash_packed([<$P as PackedValue>::broadcast($word); 2].iter().copied());
        let mut digests = [digest; 9];
        digests[8] = $hash.hash_slice(&[]);
        hash_messages::<$P, _, _>($hash, &[$word; 18], 2, &mut digests);

        let node = $compress.compress([digest; 2]);
        let above = $compress.compress_packed([packed; 2]);
        let mut nodes = [digest; 9];
        $compress.compress_many(&[[digest; 2]; 9], &mut nodes);

        $hash.hash_iter(message.iter().copied()) == digest
            && $hash.hash_iter_slices(parts.iter().copied()) == digest
            && packed[0].lane(0) == digest[0]
            && digests[8] == digest
            && above[0].lane(0) == node[0]
            && nodes[8] == node
    }};
}

/// Whether the calls of a hasher and of a compression of words agree.
fn words_agree<H: CryptographicHasher<u32, u32, 1>, C: PseudoCompressionFunction<u32, 2, 1>>(
    hash: &H,
    compress: &C,
) -> bool {
    let word = 7_u32;
    calls_agree!(hash, compress, u32, word)
}

/// The same in eight lanes.
fn lanes_agree<H: CryptographicHasher<U32x8, U32x8, 1>, C: PseudoCompressionFunction<U32x8, 2, 1>>(
    hash: &H,
    compress: &C,
) -> bool {
    let word = 7_u32;
    calls_agree!(hash, compress, U32x8, word)
}

/// The same of bytes.
fn bytes_agree<H: CryptographicHasher<u8, u8, 32>, C: PseudoCompressionFunction<u8, 2, 32>>(
    hash: &H,
    compress: &C,
) -> bool {
    let byte = 7_u8;
    calls_agree!(hash, compress, u8, byte)
}

/// Whether the calls of each hasher and of each compression agree.
pub fn hashes_agree() -> bool {
    let (hash, compress) = (FoldHash::<1>, FoldCompress::<2, 1>);
    words_agree(&hash, &compress)
        && words_agree(&FoldHash::<8>, &FoldCompress::<2, 8>)
        && words_agree(&Batched3(hash), &Batched3(compress))
        && lanes_agree(&hash, &compress)
        && bytes_agree(&Sha256Rows, &Sha256Nodes::<2>)
        && bytes_agree(&Sha256RowsInEights, &Sha256NodesInEights::<2>)
}
