//! Answers of the Rust crate, replayed by every builder.
//!
//! The program answers cases, one a line of the files that are its arguments, or of standard input if there are none.
//! The head of data/cases.txt says what a case is.
//!
//! A line without an answer is answered by a line. `CASE | RUST` and `CASE | RUST | HERE` are checked: the answer has
//! to be that of the Rust crate or, where the two differ, the last one. A line that is answered otherwise is printed
//! with its answer, and the status is then 1. After the last line of a file that has such lines comes their number.
#![tactic(auto)]

mod builders;
mod case;
mod large;
mod numbers;
mod scheme;
mod table;
mod text;

use crate::case::answer_to;
use crate::text::text_of;
use sha2::{Digest, Sha256};
use std::alloc::Global;
use std::fs::File;
use std::io::{BufRead, BufReader, BufWriter, Read, Write};
use std::process::ExitCode;
use std::{env, io};

/// Answers or checks each line of a reader, and returns how many are wrong.
fn answer_lines<R: Read + Drop, W: Write>(
    alloc: Global,
    reader: R,
    out: &mut W,
) -> io::Result<usize> {
    let (mut cases, mut wrong, mut differing) = (0_usize, 0_usize, 0_usize);
    let mut lines_read = Sha256::new();
    for line in BufReader::new(alloc, reader)?.lines(alloc) {
        let line = line?;
        lines_read.update(line.as_bytes());
        lines_read.update(b"\n".as_slice());
        if line.is_empty() || line.starts_with('#') {
            continue;
        }
        let Some((case, mut expected)) = line.split_once(" | ") else {
            let answer = text_of(alloc, &answer_to(alloc, line.as_str()))?;
            writeln!(out, "{answer}")?;
            continue;
        };
        let answer = text_of(alloc, &answer_to(alloc, case))?;
        cases = cases.saturating_add(1);
        if let Some((_, here)) = expected.split_once(" | ") {
            differing = differing.saturating_add(1);
            expected = here;
        }
        if answer.as_str() != expected {
            wrong = wrong.saturating_add(1);
            writeln!(out, "{line}\n  is answered {answer}")?;
        }
    }
    if cases > 0 {
        write!(
            out,
            "{cases} cases, {wrong} wrong, {differing} answered otherwise than by the Rust crate; SHA-256 "
        )?;
        // No answer is compared with that of the Rust crate where the two differ, so this shows that it is unchanged.
        for byte in &lines_read.finalize() {
            write!(out, "{byte:02x}")?;
        }
        writeln!(out)?;
    }
    Ok(wrong)
}

fn main(rt: HostRuntime) -> io::Result<ExitCode> {
    let alloc = rt.alloc();
    let names: Vec<String> = env::args(&rt)?.skip(1).collect(alloc)?;
    let mut out = BufWriter::new(alloc, io::writer(&rt))?;
    let mut wrong = 0;
    if names.is_empty() {
        wrong = answer_lines(alloc, rt.reader(), &mut out)?;
    }
    for name in &names {
        let file = File::open(&rt, name.as_str())?;
        wrong = answer_lines(alloc, file, &mut out)?.max(wrong);
    }
    out.flush()?;
    Ok(if wrong == 0 {
        ExitCode::SUCCESS
    } else {
        ExitCode::FAILURE
    })
}
