//! A case: its line, and the answer of each scheme that takes it.

ghost use Rattle.std.specs.Prelude.{◌≤◌, IsTrue};
ghost use Rattle.p3_merkle_tree.specs.Geometry.{is_arity};

use crate::builders::{fold, sha};
use crate::large::matrices_of;
use crate::numbers::{Fault, Numbers};
use crate::scheme::Answer;
use p3_merkle_tree::CapRule;
use std::alloc::Global;

/// A case without its hash and its arity.
#[derive(Clone, Copy)]
pub struct Case<'c, 'n> {
    /// The name of the call, without the `s` of a salted one.
    pub call: &'c str,
    /// The salts, if the scheme has some.
    pub salts: Option<Salts>,
    /// The cap height of the scheme.
    pub cap_height: usize,
    /// The rule of the cap.
    pub rule: CapRule,
    /// The arguments of the call.
    pub arguments: Numbers<'n>,
}

/// The salts of a scheme: each is `step` more than the one before, and `last` is the one before the first.
#[derive(Clone, Copy)]
pub struct Salts {
    /// How many a row has.
    pub a_row: u64,
    /// By how much they grow.
    pub step: u64,
    /// What the first one is a step above.
    pub last: u64,
}

/// The salts that arguments begin with: how many a row has, the first one and the step. Calls that only verify draw
/// none, and have the first of these numbers alone.
fn salts_of(call: &str, numbers: &mut Numbers<'_>) -> Result<Salts, Fault> {
    let a_row = numbers.number()?;
    let (mut first, mut step) = (0, 0);
    if call != "verify" && call != "vprune" {
        first = numbers.number()?;
        step = numbers.number()?;
    }
    let last = first.wrapping_sub(step);
    Ok(Salts { a_row, step, last })
}

/// The numbers that words are.
fn numbers_in(alloc: Global, words: &[&str]) -> Answer {
    let mut numbers = Vec::new(alloc);
    for word in words {
        match word.parse::<u64>() {
            Ok(number) => numbers.push(number)?,
            Err(_) => return Err(Fault::NoCase),
        }
    }
    Ok(numbers)
}

/// The answer by a hash, with digests of so many words.
fn answer_at<const N: usize>(hash: &str, digest_len: &str, case: &Case<'_, '_>) -> Answer
    requires arity { IsTrue (is_arity N) }
    requires few_children { N ≤ 16 }
{
    match digest_len {
        "1" if hash == "fold" => fold::<N, 1>(case),
        "2" if hash == "fold" => fold::<N, 2>(case),
        "32" if hash == "sha" => sha::<N>(case),
        _ => Err(Fault::NoCase),
    }
}

/// The answer to the case in a line: `CALL HASH D N CAP RULE` and the arguments of the call.
pub fn answer_to(alloc: Global, line: &str) -> Answer {
    let words: Vec<&str> = line.split_ascii_whitespace().collect(alloc)?;
    let [call, hash, digest_len, arity, cap_height, rule, words @ ..] = words.as_slice() else {
        return Err(Fault::NoCase);
    };
    let Ok(cap_height) = cap_height.parse::<usize>() else {
        return Err(Fault::NoCase);
    };
    let rule = match *rule {
        "x" => CapRule::Fixed,
        "l" => CapRule::Lowered,
        _ => return Err(Fault::NoCase),
    };
    let mut numbers = numbers_in(alloc, words)?;
    let mut call = *call;
    if call == "large" {
        numbers = matrices_of(Numbers::new(alloc, &numbers), *hash == "sha")?;
        call = "commit";
    }
    let mut arguments = Numbers::new(alloc, &numbers);
    let salts = match call.strip_prefix('s') {
        Some("chedule") | None => None,
        Some(salted) => {
            call = salted;
            Some(salts_of(call, &mut arguments)?)
        }
    };
    let case = Case {
        call,
        salts,
        cap_height,
        rule,
        arguments,
    };
    match *arity {
        "2" => answer_at::<2>(hash, digest_len, &case),
        "4" => answer_at::<4>(hash, digest_len, &case),
        "8" => answer_at::<8>(hash, digest_len, &case),
        _ => Err(Fault::NoCase),
    }
}
