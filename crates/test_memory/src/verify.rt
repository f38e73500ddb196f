//! Verifications of one opening, which take no memory, on openings that stand in a line.

ghost use Rattle.std.specs.Prelude.{◌≤◌, IsTrue};
ghost use Rattle.p3_merkle_tree.specs.Geometry.{is_arity};

use crate::calls::shown;
use crate::case::{dimensions, numbers, rows, words};
use crate::counting::Counting;
use crate::salted::Salted;
use anyhow::{Result, bail};
use p3_hashes::fold::{FoldCompress, FoldHash};
use p3_merkle_tree::{BatchOpeningRef, CapRule, MerkleCap, MerkleTreeHidingMmcs, MerkleTreeMmcs};
use p3_support::row_parts::RowParts;
use std::alloc::Global;

type Plain<const N: usize> = MerkleTreeMmcs<u32, u32, FoldHash<1>, FoldCompress<N, 1>, N, 1>;

/// The digests that are these words.
fn digests(alloc: Global, text: &str) -> Result<Vec<[u32; 1]>> {
    let mut digests = Vec::new(alloc);
    if text != "-" {
        for word in &words(alloc, text)? {
            digests.push([*word])?;
        }
    }
    Ok(digests)
}

/// The height of a cap and its rule.
fn cap_of(text: &str) -> Result<(usize, CapRule)> {
    Ok(match text.strip_suffix('f') {
        Some(height) => (height.parse::<usize>()?, CapRule::Fixed),
        None => (text.parse::<usize>()?, CapRule::Lowered),
    })
}

/// The plain scheme with this cap.
fn plain<const N: usize>(cap: &str) -> Result<Plain<N>>
    requires arity { IsTrue (is_arity N) }
    requires few { N ≤ 4 }
{
    let (height, rule) = cap_of(cap)?;
    Ok(MerkleTreeMmcs::new_with_rule(FoldHash::<1>, FoldCompress::<N, 1>, height, rule))
}

/// Verifies the opening in the fields after the first by `verify_batch`.
fn verify_at<const N: usize>(rt: &HostRuntime, line: &str, cap: &str, fields: &[&str]) -> Result<()>
    requires arity { IsTrue (is_arity N) }
    requires few { N ≤ 4 }
{
    let [roots, sizes, index, opened, siblings] = *fields else {
        bail!("a verification has six fields");
    };
    let alloc = rt.alloc();
    let scheme = plain::<N>(cap)?;
    let cap = MerkleCap::new(digests(alloc, roots)?);
    let (sizes, index) = (dimensions(alloc, sizes)?, index.parse::<usize>()?);
    let (opened, siblings) = (rows(alloc, opened, "; ")?, digests(alloc, siblings)?);
    let opening = BatchOpeningRef::new(&opened, &siblings);
    println!(rt; "{line}")?;
    shown(rt, scheme.verify_batch(&cap, &sizes, index, opening))?;
    Ok(())
}

/// Verifies the opening in the fields after the first by `verify_rows`, where the rows lie one after another.
fn verify_flat_at<const N: usize>(
    rt: &HostRuntime,
    line: &str,
    cap: &str,
    fields: &[&str],
) -> Result<()>
    requires arity { IsTrue (is_arity N) }
    requires few { N ≤ 4 }
{
    let [roots, sizes, index, opened, siblings] = *fields else {
        bail!("a verification of flat rows has six fields");
    };
    let alloc = rt.alloc();
    let scheme = plain::<N>(cap)?;
    let (roots, siblings) = (digests(alloc, roots)?, digests(alloc, siblings)?);
    let (sizes, index) = (dimensions(alloc, sizes)?, index.parse::<usize>()?);
    let opened = words(alloc, opened)?;
    let rows = RowParts::Flat {
        words: &opened,
        dimensions: &sizes,
    };
    println!(rt; "{line}")?;
    shown(
        rt,
        scheme.verify_rows(&roots, &sizes, index, rows, &siblings),
    )?;
    Ok(())
}

/// Verifies the opening in the fields after the first by the `verify_batch` of the scheme with two salts a row.
fn verify_salted_at<const N: usize>(
    rt: &HostRuntime,
    line: &str,
    cap: &str,
    fields: &[&str],
) -> Result<()>
    requires arity { IsTrue (is_arity N) }
    requires few { N ≤ 4 }
{
    let [roots, sizes, index, opened, salts, siblings] = *fields else {
        bail!("a verification with salts has seven fields");
    };
    let alloc = rt.alloc();
    let (height, rule) = cap_of(cap)?;
    let generator = Counting { last: 0 };
    let scheme: Salted<u32, FoldHash<1>, FoldCompress<N, 1>, N> =
        MerkleTreeHidingMmcs::new_with_rule(
            FoldHash::<1>,
            FoldCompress::<N, 1>,
            height,
            generator,
            rule,
        );
    let cap = MerkleCap::new(digests(alloc, roots)?);
    let (sizes, index) = (dimensions(alloc, sizes)?, index.parse::<usize>()?);
    let opened = rows(alloc, opened, "; ")?;
    let proof = (rows(alloc, salts, "; ")?, digests(alloc, siblings)?);
    let opening = BatchOpeningRef::new(&opened, &proof);
    println!(rt; "{line}")?;
    shown(rt, scheme.verify_batch(&cap, &sizes, index, opening))?;
    Ok(())
}

/// Verifies the opening in the fields after the first by the call that is named.
fn verify_by<const N: usize>(
    rt: &HostRuntime,
    line: &str,
    call: &str,
    cap: &str,
    fields: &[&str],
) -> Result<()>
    requires arity { IsTrue (is_arity N) }
    requires few { N ≤ 4 }
{
    match call {
        "verify" => verify_at::<N>(rt, line, cap, fields),
        "verify_flat" => verify_flat_at::<N>(rt, line, cap, fields),
        "verify_salted" => verify_salted_at::<N>(rt, line, cap, fields),
        _ => bail!("no such verification"),
    }
}

/// Verifies the opening of a line, which is one of these:
///
/// - `verify ARITY CAP | ROOTS | DIMENSIONS | INDEX | ROWS | SIBLINGS`;
/// - `verify_flat ARITY CAP | ROOTS | DIMENSIONS | INDEX | WORDS | SIBLINGS`;
/// - `verify_salted ARITY CAP | ROOTS | DIMENSIONS | INDEX | ROWS | SALTS | SIBLINGS`.
pub fn verify(rt: &HostRuntime, line: &str) -> Result<()> {
    let fields: Vec<&str> = line.split(" | ").collect(rt.alloc())?;
    let [scheme, fields @ ..] = fields.as_slice() else {
        bail!("there is no field");
    };
    let scheme: Vec<&str> = scheme.split(' ').collect(rt.alloc())?;
    match *scheme.as_slice() {
        [call, "2", cap] => verify_by::<2>(rt, line, call, cap, fields),
        [call, "4", cap] => verify_by::<4>(rt, line, call, cap, fields),
        _ => bail!("a verification begins with its call, ARITY and CAP"),
    }
}
