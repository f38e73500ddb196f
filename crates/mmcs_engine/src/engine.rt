//! Runs a command: arguments and an input give an output.

ghost use Rattle.std.specs.Prelude.{◌≡◌, ◌⊎◌, ◌++◌, ◌<◌, ◌↔◌, Ok, Err, IfOk, IfErr, IfSome, string_bytes};
ghost use Rattle.std.specs.{Prelude.flat_map, Prelude.length, Prelude.map, Prelude.IsTrue};
ghost use Rattle.p3_support.specs.{Shown.row_sets};
ghost use Rattle.p3_merkle_core.specs.Nodes.{shape, Batch};
ghost use Rattle.p3_merkle_core.specs.Openings.{honest_rows};
ghost use Rattle.p3_merkle_core.specs.Refusals.{pruned_len_refusal, AnswersUnlessMemory};
ghost use Rattle.p3_merkle_core.specs.declared.error.MerkleTreeError.TheVariants.{OutOfMemory};
ghost use Rattle.p3_merkle_tree.specs.Schemes.{cap_height_of, cap_rule_of, functions_of};
ghost use Rattle.mmcs_engine.specs.declared.fault.Fault.TheVariants.{Usage, Read, Tree, Write};
ghost use Rattle.mmcs_engine.specs.Inner.Stored.{stored_batch};
ghost use Rattle.mmcs_engine.specs.Text.{digest_lines};
ghost use Rattle.mmcs_engine.specs.Args.{arity_number, texts_of, AreNoCommand};
ghost use Rattle.mmcs_engine.specs.Program.{layer_of_cap, text_of, IsAnswer, IsReply, IsReported, Prints};
ghost use Rattle.mmcs_engine.specs.Inner.Alike.{batch_in_numbers, is_taken_arity, opened_lines, IsSchemeOf};

use crate::command::{Action, Args, Arity, CapChoice, HashName};
use crate::fault::Fault;
use crate::input::read_matrices;
use crate::text::{push_digests, push_rows};
use crate::word::Word;
use p3_hashes::fold::{FoldCompress, FoldHash};
use p3_hashes::sha_eights::{Sha256NodesInEights, Sha256RowsInEights};
use p3_merkle_core::error::MerkleTreeError;
use p3_merkle_core::pruning::check_indices;
use p3_merkle_tree::mmcs::MerkleTreeMmcs;
use p3_support::compress::PseudoCompressionFunction;
use p3_support::hasher::CryptographicHasher;
use p3_support::matrix::{RowMajorMatrix, dimensions_of};
use p3_support::packed::PackedValue;
use std::alloc::{AllocError, Global};
use std::io::{ErrorKind, Read, Write};
use whole_writes::write_whole;

/// Runs the command of `args`, the arguments after the program's name. It reads the whole input, and writes the output
/// once all else has succeeded.
///
/// The arguments are `HASH ARITY CAP[f] ACTION I..`: a hash (`fold` or `sha256`), an arity (`2`, `4` or `8`), the cap
/// height in levels below the root (by the rule `Lowered`, or by the rule `Fixed` if an `f` follows it), an action, and
/// after `open` and `check` any number of indices. The lines of the input are the rows of matrices: decimal numbers, up
/// to 4294967295 for `fold` and up to 255 for `sha256`, with spaces or tabs between; blank lines end a matrix.
///
/// `commit` writes the cap of the matrices' tree, a line for each digest in hexadecimal. `open` writes for each index a
/// line `index I` and the rows that belong to it, a line for each matrix, and then `digests K` and the `K` digests of
/// one pruned proof for all of them. `check` opens the same, verifies it, and writes `ok K` for the `K` digests of the
/// proof. After `Ok` the output has what it had, followed by exactly this text; after a failed write, followed by the
/// first bytes of it. The streams are borrowed, so that the contract can say what is left of the input and what the
/// output holds. Where the bytes of the input are not known, the contract says all this of some bytes.
///
/// # Errors
///
/// The first of these that applies. `Tree(OutOfMemory)` may come in place of any result but `Usage`:
///
/// - `Usage`: the arguments are no command. It comes exactly then, and nothing was read.
/// - `Read`: a read failed.
/// - `Number` or `Count`, for the first faulty line: a part of it is no number that the hash takes, or else it has
///   another count of numbers than the first row of its matrix.
/// - `Tree`: why the tree refuses the heights; else `IndexOutOfBounds` for the highest index, where it is not below the
///   tallest height.
/// - `Write`: a write failed, where all else has succeeded. No other error leaves anything written.
pub fn run<Src: Read, Dst: Write>(
    alloc: Global,
    args: &[String],
    input: &mut Src,
    output: &mut Dst,
) -> Result<(), Fault>
    ensures { IsAnswer Src.remaining Dst.contents (texts_of args.now) input.old input.new output.old output.new
        result }
{
    let text = answer_to(alloc, args, input)?;
    if write_whole(output, text.as_bytes()).is_err() {
        return Err(Fault::Write);
    }
    Ok(())
}

/// The text that `run` writes, or the error that it returns, which is not `Write`. It is `Usage` exactly if the
/// arguments are no command, and then nothing is read.
fn answer_to<Src: Read>(alloc: Global, args: &[String], input: &mut Src) -> Result<String, Fault>
    ensures usage { (result ≡ Err Fault.Usage) ↔ AreNoCommand (texts_of args.now) }
    ensures unread { result ≡ Err Fault.Usage → input.new ≡ input.old }
    ensures text { IfOk result
        (λ text. Prints (texts_of args.now) (Src.remaining input.old) (λ t. string_bytes text ≡ t)) }
    ensures fault { IfErr result
        (λ fault. (fault ≡ Fault.Write → ⊥) × IsReported (texts_of args.now) (Src.remaining input.old) fault) }
{
    let parsed = Args::parse(alloc, args)?;
    let bytes = read_all(alloc, input)?;
    match parsed.command.arity {
        Arity::Two => reply::<2>(alloc, &parsed, bytes),
        Arity::Four => reply::<4>(alloc, &parsed, bytes),
        Arity::Eight => reply::<8>(alloc, &parsed, bytes),
    }
}

/// All bytes of an input. `Tree(OutOfMemory)` if memory runs out, `Read` if a read fails for another reason.
fn read_all<Src: Read>(alloc: Global, input: &mut Src) -> Result<Vec<u8>, Fault>
    ensures bytes { IfOk result (λ bytes. IfSome (Src.remaining input.old) (λ all. bytes.items ≡ all)) }
    ensures fault { IfErr result (λ fault. (fault ≡ Fault.Read) ⊎ (fault ≡ Fault.Tree OutOfMemory)) }
{
    let mut bytes = Vec::new(alloc);
    match input.read_to_end(&mut bytes) {
        Ok(_) => Ok(bytes),
        Err(error) if error.kind() == ErrorKind::OutOfMemory => Err(Fault::from(AllocError)),
        Err(_) => Err(Fault::Read),
    }
}

/// The text that a command prints for `input`, at its arity, which `N` must be. `input` is dropped once its matrices
/// are read. The errors are those of [`answer_to`] without `Usage` and `Read`.
fn reply<const N: usize>(alloc: Global, args: &Args, input: Vec<u8>) -> Result<String, Fault>
    requires taken { IsTrue (is_taken_arity N) }
    requires arity { N ≡ arity_number args.now.command.arity }
    ensures text { IfOk result
        (λ text. IsReply args.now.command args.now.indices.items input.items (Ok (string_bytes text))) }
    ensures fault { IfErr result (λ fault. (fault ≡ Fault.Tree OutOfMemory) ⊎
        IsReply args.now.command args.now.indices.items input.items (Err fault)) }
{
    let CapChoice { height, rule } = args.command.cap;
    match args.command.hash {
        HashName::Fold => {
            // `LANES` above 1, so that rows and groups are hashed many a call.
            let compress = FoldCompress::<N, 4>;
            let scheme = MerkleTreeMmcs::<u32, u32, _, _, N, 1>::new_with_rule(
                FoldHash::<4>,
                compress,
                height,
                rule,
            );
            reply_with_scheme(alloc, &scheme, args, input)
        }
        HashName::Sha256 => {
            let compress = Sha256NodesInEights::<N>;
            let scheme = MerkleTreeMmcs::<u8, u8, _, _, N, 32>::new_with_rule(
                Sha256RowsInEights,
                compress,
                height,
                rule,
            );
            reply_with_scheme(alloc, &scheme, args, input)
        }
    }
}

/// The text that a command prints for `input`, with the errors of [`reply`]. `scheme` must be that of the command's
/// hash, arity and cap. `input` is dropped once its matrices are read.
fn reply_with_scheme<
    W: Word + PackedValue<Value = W>,
    H: CryptographicHasher<W, W, D>,
    C: PseudoCompressionFunction<W, N, D>,
    const N: usize,
    const D: usize,
>(
    alloc: Global,
    scheme: &MerkleTreeMmcs<W, W, H, C, N, D>,
    args: &Args,
    input: Vec<u8>,
) -> Result<String, Fault>
    requires scheme { IsSchemeOf args.now.command.hash args.now.command.cap W.value W.MAX W.HEX_DIGITS
        (functions_of scheme.now) (cap_height_of scheme.now) (cap_rule_of scheme.now) }
    requires arity { N ≡ arity_number args.now.command.arity }
    ensures text { IfOk result
        (λ text. IsReply args.now.command args.now.indices.items input.items (Ok (string_bytes text))) }
    ensures fault { IfErr result (λ fault. (fault ≡ Fault.Tree OutOfMemory) ⊎
        IsReply args.now.command args.now.indices.items input.items (Err fault)) }
{
    // The input is dropped before the tree is built.
    let matrices = {
        let text = input;
        read_matrices::<W>(alloc, &text)?
    };
    Ok(act(alloc, scheme, args, matrices)?)
}

/// The text that a command prints for matrices. `scheme` must be that of the command's hash, arity and cap.
fn act<
    W: Word + PackedValue<Value = W>,
    H: CryptographicHasher<W, W, D>,
    C: PseudoCompressionFunction<W, N, D>,
    const N: usize,
    const D: usize,
>(
    alloc: Global,
    scheme: &MerkleTreeMmcs<W, W, H, C, N, D>,
    args: &Args,
    matrices: Vec<RowMajorMatrix<W>>,
) -> Result<String, MerkleTreeError>
    requires scheme { IsSchemeOf args.now.command.hash args.now.command.cap W.value W.MAX W.HEX_DIGITS
        (functions_of scheme.now) (cap_height_of scheme.now) (cap_rule_of scheme.now) }
    ensures text { let b = batch_in_numbers W.value (stored_batch N matrices.items) in
        IfOk result (λ text. string_bytes text
        ≡ text_of args.now.command.hash args.now.command.action args.now.indices.items b
        (layer_of_cap args.now.command.cap (shape b))) }
    ensures answer { AnswersUnlessMemory result
        (pruned_len_refusal (shape (stored_batch N matrices.items)) args.now.indices.items) }
{
    let dimensions = dimensions_of(alloc, &matrices)?;
    let (roots, tree) = scheme.commit(alloc, matrices)?;
    // A refusal of the heights comes first, and the commit finds it.
    let indices = args.indices.as_slice();
    check_indices(scheme.get_max_height(&tree), indices)?;
    if let Action::Commit = args.command.action {
        let mut text = String::new(alloc);
        push_digests(&mut text, roots.roots())?;
        return Ok(text);
    }
    let opening = scheme.open_batch_pruned(alloc, indices, &tree)?;
    let (rows, proof) = (&opening.opened_values, &opening.pruned_proof);
    if let Action::Open = args.command.action {
        return Ok(text_of_opening(alloc, indices, rows, &proof.sibling_hashes)?);
    }
    scheme.verify_batch_pruned(alloc, &roots, &dimensions, indices, rows, proof)?;
    let count = proof.sibling_hashes.len();
    Ok(format!(in alloc; "ok {count}\n")?)
}

/// The text of `open`: the rows of each index, then the digests of one proof for all. `opened` must have a row set for
/// each index. `AllocError` if memory runs out.
fn text_of_opening<W: Word, const D: usize>(
    alloc: Global,
    indices: &[usize],
    opened: &[Vec<Vec<W>>],
    digests: &[[W; D]],
) -> Result<String, AllocError>
    requires { length opened.now ≡ length indices.now }
    ensures { (b : Batch W) → row_sets opened.now ≡ map (honest_rows b) indices.now →
        IfOk result (λ text. string_bytes text ≡ flat_map (opened_lines W.value b) indices.now
        ++ digest_lines W.HEX_DIGITS (map (map W.value) digests.now)) }
{
    let mut text = String::new(alloc);
    for (query, index) in indices.iter().enumerate() {
        write!(text, "index {index}\n")?;
        push_rows(&mut text, &opened[query])?;
    }
    let count = digests.len();
    write!(text, "digests {count}\n")?;
    push_digests(&mut text, digests)?;
    Ok(text)
}
