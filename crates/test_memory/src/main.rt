//! Makes calls of the library, one for each line of standard input, and shows what their caller has where a request for
//! memory is refused: `tests/memory` runs it with each request refused in turn. A line is one of these:
//!
//! - `BUILDER ARITY | MATRICES | QUERIES | CALL`: a call on what a scheme committed to and opened. `salted` stands
//!   ahead of the builder of a scheme with two salts for each row, which are 100, 101 and so on.
//! - `verify ARITY CAP | ROOTS | DIMENSIONS | INDEX | ROWS | SIBLINGS`: the plain `verify_batch`, which takes no
//!   memory; nor do the next two.
//! - `verify_flat ARITY CAP | ROOTS | DIMENSIONS | INDEX | WORDS | SIBLINGS`: `verify_rows`, of rows that lie one after
//!   another.
//! - `verify_salted ARITY CAP | ROOTS | DIMENSIONS | INDEX | ROWS | SALTS | SIBLINGS`: the salted `verify_batch`, with
//!   two salts a row.
//!
//! CALL is the name of a call of the library, or one of these: `clone_matrices`, `clone_cap`, `clone_opening`,
//! `clone_multi`, and of the plain scheme `clone_pruned`, `clone_paths` and `clone_positions` say whether a clone is
//! like its original, `tree` builds a tree, takes its leaves and clones it, and `free` says whether calls that take no
//! memory agree, those of hashers and compressions among them.
//!
//! Once the inputs of the call stand, the line is printed, and then the answer. Where memory runs out, `out of memory`
//! is printed first, and the same call is made again on the same values. So the requests of a call come after its line.
#![tactic(auto)]

ghost use Rattle.std.specs.Prelude.{◌≤◌, IsTrue};
ghost use Rattle.p3_merkle_tree.specs.Geometry.{is_arity};

mod calls;
mod case;
mod counting;
mod free;
mod held;
mod plain;
mod salted;
mod values;
mod verify;

use crate::case::Case;
use crate::counting::Counting;
use crate::held::hold;
use crate::plain::call_plain;
use crate::salted::{call_salted, salted_scheme};
use crate::verify::verify;
use anyhow::{Result, bail};
use p3_hashes::batched::Batched3;
use p3_hashes::fold::{FoldCompress, FoldHash, FoldPacked};
use p3_hashes::lanes::U32x8;
use p3_merkle_tree::MerkleTreeMmcs;

/// Makes a call of a scheme, and makes it again where memory ran out. Its inputs come from another scheme of the same
/// functions: no salt has been drawn from this one.
// A macro, and no function over any scheme: how much room a scheme takes is known where its types are named.
macro_rules! answer_by {
    ($rt:ident, $case:ident, $call:ident, $scheme:expr) => {{
        let (mut holder, mut scheme) = ($scheme, $scheme);
        let held = hold($rt.alloc(), $case, &mut holder)?;
        let mut generator = Counting { last: 0 };
        println!($rt; "{}", $case.line)?;
        if $call($rt, $case, &held, &mut generator, &mut scheme)? {
            return Ok(());
        }
        println!($rt; "out of memory")?;
        if $call($rt, $case, &held, &mut generator, &mut scheme)? {
            return Ok(());
        }
        bail!("out of memory again")
    }};
}

/// Makes a call of the plain or of the salted scheme by the fold functions in lanes, whose hash and compression take
/// `L` messages.
fn answer_in_lanes<P: FoldPacked, const L: usize, const N: usize>(
    rt: &HostRuntime,
    case: &Case<'_>,
) -> Result<()>
    requires arity { IsTrue (is_arity N) }
    requires few { N ≤ 4 }
    requires some_lane { 1 ≤ P.WIDTH }
{
    let (hash, compress) = (FoldHash::<L>, FoldCompress::<N, L>);
    if case.is_salted {
        answer_by!(
            rt,
            case,
            call_salted,
            salted_scheme::<P, FoldHash<L>, FoldCompress<N, L>, N>(hash, compress)
        )
    }
    answer_by!(
        rt,
        case,
        call_plain,
        MerkleTreeMmcs::<P, P, FoldHash<L>, FoldCompress<N, L>, N, 1>::new(hash, compress, 0)
    )
}

/// Makes a call of the plain or of the salted scheme by the fold functions, three messages a call.
fn answer_by_three<const N: usize>(rt: &HostRuntime, case: &Case<'_>) -> Result<()>
    requires arity { IsTrue (is_arity N) }
    requires few { N ≤ 4 }
{
    let (hash, compress) = (Batched3(FoldHash::<1>), Batched3(FoldCompress::<N, 1>));
    if case.is_salted {
        answer_by!(
            rt,
            case,
            call_salted,
            salted_scheme::<u32, Batched3<FoldHash<1>>, Batched3<FoldCompress<N, 1>>, N>(
                hash, compress,
            )
        )
    }
    answer_by!(
        rt,
        case,
        call_plain,
        MerkleTreeMmcs::<u32, u32, Batched3<FoldHash<1>>, Batched3<FoldCompress<N, 1>>, N, 1>::new(
            hash, compress, 0,
        )
    )
}

/// Makes a call of a scheme of this arity, by its builder.
fn answer_at<const N: usize>(rt: &HostRuntime, case: &Case<'_>) -> Result<()>
    requires arity { IsTrue (is_arity N) }
    requires few { N ≤ 4 }
{
    match case.builder {
        "scalar" => answer_in_lanes::<u32, 1, N>(rt, case),
        "packed" => answer_in_lanes::<U32x8, 1, N>(rt, case),
        "batched" => answer_in_lanes::<u32, 8, N>(rt, case),
        "batched3" => answer_by_three::<N>(rt, case),
        _ => bail!("no such builder"),
    }
}

/// Makes the call of a line.
fn answer_line(rt: &HostRuntime, line: &str) -> Result<()> {
    if line.starts_with("verify") {
        return verify(rt, line);
    }
    let case = Case::read(rt.alloc(), line)?;
    match case.arity {
        2 => answer_at::<2>(rt, &case),
        4 => answer_at::<4>(rt, &case),
        _ => bail!("the arity is not 2 or 4"),
    }
}

fn main(rt: HostRuntime) -> Result<()> {
    for line in rt.lines(rt.alloc()) {
        answer_line(&rt, line?.as_str())?;
    }
    Ok(())
}
