//! Commits to the matrices of an input, and opens and checks rows of their tree:
//! `mmcs fold|sha256 2|4|8 CAP[f] commit|open I..|check I..`.
#![tactic(auto)]

use mmcs_engine::engine::run;
use mmcs_engine::process::{exit_code, read_args};
use std::process::ExitCode;

fn main(rt: HostRuntime) -> ExitCode {
    let answer = read_args(&rt).and_then(|words| run(
        rt.alloc(),
        &words,
        &mut rt.stdin(),
        &mut rt.stdout(),
    ));
    exit_code(&rt, answer)
}
