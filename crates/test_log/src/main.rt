//! Checks cases about logs, one a line of standard input, and names each that is not answered as its line says. Where
//! there is such a line, it ends with status 1. A line that is no case ends it at once.
//!
//! A case is `KIND WORD.. | ANSWER`; [`answer`] has the kinds. Blank lines, and lines that begin with `#`, are none.
//! A list has commas between its items, and `-` is the empty one. A node is its layer and its slot there, as 0.2. Bytes
//! are plain characters and `%XX`, in pieces with `+` between them; a piece may have `*` and how often it comes.
//! Indices count from 0. The log of a size has the decimal numbers from 1 on.
#![tactic(auto)]

mod case;
mod collisions;
mod commands;
mod files;
mod proofs;
mod texts;
mod verdicts;
mod weak;

use crate::case::Case;
use anyhow::{Result, bail, ensure};
use std::alloc::Global;
use std::process::ExitCode;

/// Answers a question.
fn answer(case: &mut Case<'_>) -> Result<()> {
    match case.word() {
        "root" => proofs::root_by_size(case),
        "inclusion" => proofs::inclusion(case),
        "consistency" => proofs::consistency(case),
        "proof_nodes" => proofs::proof_nodes(case),
        "digests" => proofs::digests(case),
        "frontier" => proofs::frontier(case),
        "included" => verdicts::included(case),
        "consistent" => verdicts::consistent(case),
        "verify" => verdicts::verify(case),
        "file" => files::file(case),
        "read" => files::text(case),
        "file_entries" => commands::file_entries(case),
        "file_prefix" => commands::file_prefix(case),
        "seal" => commands::seal(case),
        "checkpoint" => texts::checkpoint(case, false),
        "part" => texts::checkpoint(case, true),
        "entries_proof" => texts::entries_proof(case),
        "consistency_proof" => texts::consistency_proof(case),
        "root_collision" => collisions::of_roots(case),
        "leaf_collision" => collisions::of_leaf(case),
        "entry_collision" => collisions::of_entry(case),
        "entries_collision" => collisions::of_entries(case),
        "prefix_collision" => collisions::of_prefix(case),
        "proof_collision" => collisions::of_proofs(case),
        "consistency_collision" => collisions::of_consistency(case),
        "growth_collision" => collisions::of_growth(case),
        "compose" => collisions::composed(case),
        kind => bail!("no kind of case: {kind}"),
    }
}

/// What a question is answered.
fn answer_to(alloc: Global, question: &str) -> Result<String> {
    let mut case = Case {
        alloc,
        rest: question,
        answer: String::new(alloc),
    };
    answer(&mut case)?;
    ensure!(case.rest.is_empty(), "too many words");
    let text = format!(in alloc; "{}", case.answer.trim_end())?;
    // The text of an error for want of memory is no answer.
    ensure!(text.as_str() != "out of memory", "out of memory");
    Ok(text)
}

fn main(rt: HostRuntime) -> Result<ExitCode> {
    let (mut number, mut cases, mut wrong) = (0_u64, 0_u64, 0_u64);
    for line in rt.lines(rt.alloc()) {
        let line = line?;
        number = number.saturating_add(1);
        if line.is_empty() || line.starts_with('#') {
            continue;
        }
        let Some((question, expected)) = line.split_once(" |") else {
            bail!("line {number} has no answer");
        };
        let found = answer_to(rt.alloc(), question)?;
        cases = cases.saturating_add(1);
        if found.as_str() != expected.trim() {
            wrong = wrong.saturating_add(1);
            println!(rt; "line {number}: {line}\n  is answered: {found}")?;
        }
    }
    println!(rt; "{cases} cases, {wrong} wrong")?;
    Ok(if wrong == 0 {
        ExitCode::SUCCESS
    } else {
        ExitCode::FAILURE
    })
}
