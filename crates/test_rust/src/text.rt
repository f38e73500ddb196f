//! Answers as text.

use crate::numbers::Fault;
use crate::scheme::Answer;
use std::alloc::Global;
use std::fmt::Write;
use std::io;

/// `ok` and the numbers; `err`, the name of the error and its fields, of a malformed pruned proof the inner one; or
/// `bad` and why there is none.
pub fn text_of(alloc: Global, answer: &Answer) -> io::Result<String> {
    let mut text = String::new(alloc);
    match answer {
        Ok(numbers) => {
            text.push_str("ok")?;
            for number in numbers {
                write!(text, " {number}")?;
            }
        }
        Err(Fault::Refused(error)) => {
            text.push_str("err")?;
            let error = format!(in alloc; "{error:?}")?;
            let error = error.as_str();
            let inner = error.strip_prefix("MalformedPrunedProof(");
            for word in inner.unwrap_or(error).split_ascii_whitespace() {
                push_if_shown(&mut text, word)?;
            }
        }
        Err(fault) => write!(text, "bad {fault:?}")?,
    }
    Ok(text)
}

/// Adds a word of an error if it is a variant or a number. Fields begin with a small letter.
fn push_if_shown(text: &mut String, word: &str) -> io::Result<()> {
    let is_shown = |first: &u8| first.is_ascii_uppercase() || first.is_ascii_digit();
    if word.as_bytes().first().is_some_and(is_shown) {
        let word = word.trim_end_matches(',');
        write!(text, " {word}")?;
    }
    Ok(())
}
