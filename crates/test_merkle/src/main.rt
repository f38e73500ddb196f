//! Reads cases from standard input, one a line, and prints those whose answer is not the expected one.
//!
//! A line is a keyword, fields and the expected answer, with `|` between them. Blank lines and lines that begin with
//! `#` are skipped. Trees use the fold functions with digests of one word. A keyword that begins with `salted_` has
//! salts; one that begins with `sha256_` has SHA-256 over bytes. A new kind of case is a function that reads all its
//! fields and then answers. It needs an arm in [`answer`], in [`answer_at`] where its first fields are an arity and a
//! cap, or in [`answered`] where any scheme answers it.
#![tactic(auto)]

ghost use Rattle.std.specs.Prelude.{◌≤◌, IsTrue};
ghost use Rattle.p3_merkle_core.specs.Geometry.{is_arity};

mod builders;
mod case;
mod checked;
mod counting;
mod engine;
mod field;
mod geometry;
mod known;
mod matrices;
mod opened;
mod queries;
mod salted;
mod scheme;
mod sha256;
mod sweep;

use crate::case::{Case, Fault};
use crate::field::Item;
use crate::matrices::Word;
use crate::scheme::{Cap, FoldScheme, Tried, fold_scheme, scheme_of};
use p3_hashes::batched::Batched3;
use p3_hashes::fold::{FoldCompress, FoldHash};
use p3_hashes::lanes::U32x8;
use p3_merkle_tree::CapRule;
use std::alloc::Global;
use std::io;
use std::io::ErrorKind;
use std::process::ExitCode;

/// Answers a case of a kind that any scheme answers, by a scheme with this cap.
fn answered<T: Word, X: Item + PartialEq, S: Tried<T, X>, const N: usize>(
    case: &mut Case<'_>,
    kind: &str,
    cap: Cap,
    scheme: &mut S,
) -> Result<(), Fault>
    requires arity { IsTrue (is_arity N) }
    requires few { N ≤ 16 }
{
    match kind {
        "commit" => opened::commit::<T, X, S>(case, scheme),
        "open" => opened::open::<T, X, S>(case, scheme),
        "pruned" => opened::pruned::<T, X, S>(case, scheme),
        "restore" => checked::restore::<T, X, S>(case, &*scheme),
        "sweep" => sweep::sweep::<T, X, S, N>(case, cap, scheme),
        "verify" => checked::verify::<T, X, S>(case, &*scheme),
        "verify_pruned" => checked::verify_pruned::<T, X, S>(case, &*scheme),
        "extract" => checked::extract::<T, X, S>(case, &*scheme),
        "extract_pruned" => checked::extract_pruned::<T, X, S>(case, &*scheme),
        _ => Err(Fault::Unreadable("there is no such kind of case")),
    }
}

/// Fails where another scheme answers a settled case of a commit otherwise.
fn check_commit<S: Tried<u32, [u32; 1]>>(
    case: &Case<'_>,
    mut again: Case<'_>,
    scheme: &mut S,
) -> Result<(), Fault> {
    let outcome = opened::commit::<u32, [u32; 1], S>(&mut again, scheme);
    case.check_alike(again, outcome)
}

/// Answers a case of a commit by each way to build trees: one by one, in lanes, and in batches of eight and of three.
/// Fails where two of them differ.
fn commit_alike<const N: usize>(case: &mut Case<'_>, cap: Cap) -> Result<(), Fault>
    requires arity { IsTrue (is_arity N) }
    requires few { N ≤ 16 }
{
    let (lanes, eights, threes) = (case.again(), case.again(), case.again());
    let outcome = opened::commit::<u32, [u32; 1], _>(case, &mut fold_scheme::<N>(cap));
    case.settle(outcome)?;
    let (hash, compress) = (FoldHash::<1>, FoldCompress::<N, 1>);
    let mut scheme = scheme_of::<U32x8, _, _, N, 1>(hash, compress, cap);
    check_commit(&*case, lanes, &mut scheme)?;
    let mut scheme = scheme_of::<u32, _, _, N, 1>(Batched3(hash), Batched3(compress), cap);
    check_commit(&*case, threes, &mut scheme)?;
    let mut scheme = scheme_of::<u32, _, _, N, 1>(FoldHash::<8>, FoldCompress::<N, 8>, cap);
    check_commit(&*case, eights, &mut scheme)
}

/// Answers a case at an arity, with this cap.
fn answer_at<const N: usize>(case: &mut Case<'_>, keyword: &str, cap: Cap) -> Result<(), Fault>
    requires arity { IsTrue (is_arity N) }
    requires few { N ≤ 16 }
{
    if let Some(kind) = keyword.strip_prefix("salted_") {
        return salted::salted::<N>(case, kind, cap);
    }
    if let Some(kind) = keyword.strip_prefix("sha256_") {
        return sha256::sha256::<N>(case, kind, cap);
    }
    let mut scheme = fold_scheme::<N>(cap);
    match keyword {
        "schedule" | "replay" | "authenticated" | "pruned_len" => {
            geometry::geometry::<N, 1>(case, keyword, &scheme)
        }
        "shape" => geometry::shape::<N>(case, &scheme),
        "known" => known::known::<N>(case, &mut scheme),
        "commit" => commit_alike::<N>(case, cap),
        kind => answered::<u32, [u32; 1], _, N>(case, kind, cap, &mut scheme),
    }
}

/// The greatest arity.
const WIDEST: usize = 4_611_686_018_427_387_904;

/// Answers a case of heights at the greatest arity. Digests have no words there, since no group of others fits in
/// memory.
fn answer_at_widest(case: &mut Case<'_>, keyword: &str, cap: Cap) -> Result<(), Fault> {
    let (hash, compress) = (FoldHash::<1>, FoldCompress::<WIDEST, 1>);
    let scheme: FoldScheme<WIDEST, 0> = scheme_of(hash, compress, cap);
    geometry::geometry::<WIDEST, 0>(case, keyword, &scheme)
}

/// Answers a case whose first fields are an arity and a cap.
fn answer_of_tree(case: &mut Case<'_>, keyword: &str) -> Result<(), Fault> {
    let (arity, cap) = (case.take(), case.cap()?);
    match arity {
        "2" => answer_at::<2>(case, keyword, cap),
        "4" => answer_at::<4>(case, keyword, cap),
        "8" => answer_at::<8>(case, keyword, cap),
        "16" => answer_at::<16>(case, keyword, cap),
        "4611686018427387904" => answer_at_widest(case, keyword, cap),
        _ => Err(Fault::Unreadable("the arity is not 2, 4, 8, 16 or 2^62")),
    }
}

/// Answers a case of all layers of a tree, by fold functions or by SHA-256.
fn answer_of_layers<const N: usize>(case: &mut Case<'_>, keyword: &str) -> Result<(), Fault>
    requires arity { IsTrue (is_arity N) }
    requires few { N ≤ 16 }
{
    if keyword == "layers" {
        builders::layers::<N>(case)
    } else {
        builders::sha256_layers::<N>(case)
    }
}

/// Answers a case of all layers of a tree, whose first field is an arity.
fn answer_of_layers_at(case: &mut Case<'_>, keyword: &str) -> Result<(), Fault> {
    match case.take() {
        "2" => answer_of_layers::<2>(case, keyword),
        "4" => answer_of_layers::<4>(case, keyword),
        "8" => answer_of_layers::<8>(case, keyword),
        _ => Err(Fault::Unreadable("the arity is not 2, 4 or 8")),
    }
}

/// Answers a case.
fn answer(case: &mut Case<'_>) -> Result<(), Fault> {
    match case.take() {
        "heights" => geometry::heights(case),
        "sha256" => sha256::message(case),
        "mmcs" => engine::engine(case, "mmcs"),
        "mmcs_unread" => engine::engine(case, "unread"),
        "mmcs_unwritten" => engine::engine(case, "unwritten"),
        keyword @ ("layers" | "sha256_layers") => answer_of_layers_at(case, keyword),
        keyword => answer_of_tree(case, keyword),
    }
}

/// The wrong answer of a case, if it has one, and whether its answer must hold under both rules. `rule` is the rule of
/// a cap that names none.
fn wrong_by(alloc: Global, line: &str, rule: CapRule) -> Result<(Option<String>, bool), Fault> {
    let mut case = Case::of(alloc, line, rule);
    let outcome = answer(&mut case);
    case.settle(outcome)?;
    let expected = case.rest.trim();
    if expected.is_empty() {
        return Err(Fault::Unreadable("the answer is missing"));
    }
    let is_right = case.answer.as_str() == expected;
    let is_for_any_rule = case.is_for_any_rule;
    Ok((
        if is_right { None } else { Some(case.answer) },
        is_for_any_rule,
    ))
}

/// The wrong answer of a case, if it has one.
fn wrong_answer(alloc: Global, line: &str) -> Result<Option<String>, Fault> {
    match wrong_by(alloc, line, CapRule::Lowered)? {
        (None, true) => Ok(wrong_by(alloc, line, CapRule::Fixed)?.0),
        (wrong, _) => Ok(wrong),
    }
}

/// Checks a case, and prints its line where it is wrong or can't be read. Fails where memory ran out.
fn is_right(rt: &HostRuntime, number: usize, line: &str) -> io::Result<bool> {
    match wrong_answer(rt.alloc(), line) {
        Ok(None) => return Ok(true),
        Ok(Some(got)) => println!(rt; "line {number}: {line}\n  is answered: {got}")?,
        Err(Fault::Unreadable(reason)) => {
            println!(rt; "line {number}: {line}\n  can't be read: {reason}")?
        }
        Err(_) => return Err(io::Error::from(ErrorKind::OutOfMemory)),
    }
    Ok(false)
}

/// Checks all cases: how many there are, and how many of them are wrong.
fn check_all(rt: &HostRuntime) -> io::Result<(usize, usize)> {
    let (mut number, mut cases, mut wrong) = (0_usize, 0_usize, 0_usize);
    for line in rt.lines(rt.alloc()) {
        let line = line?;
        let line = line.as_str();
        number = number.saturating_add(1);
        if !line.trim().is_empty() && !line.starts_with('#') {
            cases = cases.saturating_add(1);
            if !is_right(rt, number, line)? {
                wrong = wrong.saturating_add(1);
            }
        }
    }
    Ok((cases, wrong))
}

fn main(rt: HostRuntime) -> io::Result<ExitCode> {
    let (cases, wrong) = check_all(&rt)?;
    println!(rt; "{cases} cases, {wrong} wrong")?;
    Ok(if wrong == 0 {
        ExitCode::SUCCESS
    } else {
        ExitCode::FAILURE
    })
}
