//! Lines of a text: what they say, and how they are printed.

ghost use Rattle.std.specs.Prelude.{◌≡◌, ◌≤◌, ◌<◌, ◌^◌, ◌⊎◌, ◌++◌, Err, IfErr, IfOk, IfSome, Ok, OnOk, Some, decimal};
ghost use Rattle.std.specs.Prelude.{flat_map, length, option_map, take};
ghost use Rattle.std.specs.Option.{SomeIff};
ghost use Rattle.std.specs.Result.{result_map_both};
ghost use Rattle.std.specs.Str.Parse.{IsNumeral, digits_value};
ghost use Rattle.base64.specs.Decode.{decoded_estimate};
ghost use Rattle.tlog_text.specs.Lines.{base64_bytes, cut_at, digest_of, is_key_name, is_line, is_name_char};
ghost use Rattle.tlog_text.specs.Lines.{is_signature, is_text, number_after, number_of};
ghost use Rattle.tlog_text.specs.Reading.{at_blank, at_text_end, digests_by, digests_to_blank, ended, line_by};
ghost use Rattle.tlog_text.specs.Reading.{line_that, many};
ghost use Rattle.tlog_text.specs.Inner.Rests.{rest_of};
ghost use Rattle.tlog_text.specs.Texts.{digest_line, line};
ghost use Rattle.tlog_text.specs.declared.error.Stop.TheVariants.{Memory};

use crate::checkpoint::PART_ORIGIN;
use crate::entries::PROOF_VERSION;
use crate::error::{Expected, Stop, missing};
use base64::engine::general_purpose::STANDARD;
use std::alloc::{AllocError, Global};

/// The greatest number that is read.
// It is `SIZE_LIMIT` of tlog, the greatest size of a log. This crate computes no tree, so it does not stand on tlog.
const MAX_NUMBER: usize = 1 << 62;

/// The bytes ahead of the first `mark`, and those after it; `None` if there is no `mark`.
pub(crate) fn cut_at(mark: u8, bytes: &[u8]) -> Option<(&[u8], &[u8])>
    ensures { option_map (λ (front, back). (front.now, back.now)) result ≡ cut_at mark bytes.now }
{
    let at = bytes.iter().position(|byte| *byte == mark)?;
    Some((&bytes[..at], &bytes[at + 1..]))
}

/// The number whose decimal digits are `digits`, one or more; `None` if another byte is among them, or the number does
/// not fit `usize`.
fn parse_number(digits: &[u8]) -> Option<usize>
    ensures { SomeIff result (IsNumeral 10 digits.now × (digits_value 10 digits.now < 2 ^ 64))
        (digits_value 10 digits.now) }
{
    // `parse` takes a sign as well.
    if digits.first() == Some(&b'+') {
        return None;
    }
    str::from_utf8(digits).ok()?.parse().ok()
}

/// The number whose decimal digits are `digits`, without leading zeros; `None` if they are no such digits, or the
/// number is above 2^62.
pub(crate) fn number_of(digits: &[u8]) -> Option<usize>
    ensures { result ≡ number_of digits.now }
{
    if digits.len() > 1 && digits[0] == b'0' {
        return None;
    }
    let number = parse_number(digits)?;
    (number <= MAX_NUMBER).then_some(number)
}

/// Decodes base64 to the front of `bytes`, and returns how many bytes that is; `None` if `text` is no base64. `bytes`
/// must have room for three bytes for each four characters that are begun.
fn decode(text: &[u8], bytes: &mut [u8]) -> Option<usize>
    requires { decoded_estimate (length text.now) ≤ length bytes.old }
    ensures len { result ≡ option_map length (base64_bytes text.now) }
    ensures bytes { IfSome result (λ n. base64_bytes text.now ≡ Some (take n bytes.new)) }
{
    STANDARD.decode_slice_unchecked(text, bytes).ok()
}

/// How many bytes `text` is the base64 of; `None` if it is no base64.
fn base64_len(text: &[u8]) -> Option<usize>
    ensures { result ≡ option_map length (base64_bytes text.now) }
{
    let mut bytes = [0u8; 3];
    let mut len = 0;
    let mut rest = text;
    while rest.len() > 4 {
        let (group, below) = rest.split_at(4);
        if decode(group, &mut bytes)? != 3 {
            return None;
        }
        len += 3;
        rest = below;
    }
    Some(len + decode(rest, &mut bytes)?)
}

/// The 32 bytes whose base64 a line is; `None` if it is not the base64 of 32 bytes.
fn digest_of(line: &[u8]) -> Option<[u8; 32]>
    ensures { result ≡ digest_of line.now }
{
    // The base64 of 32 bytes has 44 characters, for which the decoder wants room for 33 bytes.
    if line.len() != 44 {
        return None;
    }
    let mut bytes = [0u8; 33];
    if decode(line, &mut bytes)? != 32 {
        return None;
    }
    let mut digest = [0u8; 32];
    digest.copy_from_slice(&bytes[..32]);
    Some(digest)
}

/// Whether `bytes` are UTF-8 without characters below U+0020.
fn is_text(bytes: &[u8]) -> bool
    ensures { result ≡ is_text bytes.now }
{
    str::from_utf8(bytes).is_ok() && bytes.iter().all(|byte| *byte >= b' ')
}

/// Whether a text that is a key's name may have this character: any but white space of Unicode and `+`.
fn is_name_char(c: char) -> bool
    ensures { result ≡ is_name_char c }
{
    !c.is_whitespace() && c != '+'
}

/// Whether this may be the name of a key (C2SP signed-note), as is the origin of a log that is signed: it is not empty,
/// and has no `+`, no character below U+0020, and no space, be it one of Unicode's.
#[tactic(auto, unfolding(crate::specs::Lines::is_key_name))]
pub fn is_key_name(name: &str) -> bool
    ensures { result ≡ is_key_name name.now }
{
    if name.is_empty() || !is_text(name.as_bytes()) {
        return false;
    }
    name.chars().all(is_name_char)
}

/// Whether a line is a signature (C2SP signed-note): an em dash, a space, the name of a key, a space, and the base64 of
/// at least five bytes, four of which name the key.
#[tactic(auto, using(crate::proofs::LineFacts::no_name), unfolding(crate::specs::Lines::is_signature))]
fn is_signature(line: &[u8]) -> bool
    ensures { result ≡ is_signature line.now }
{
    let Some(rest) = line.strip_prefix(b"\xe2\x80\x94 ") else {
        return false;
    };
    let Some((name, signature)) = cut_at(b' ', rest) else {
        return false;
    };
    str::from_utf8(name).is_ok_and(is_key_name) && base64_len(signature).is_some_and(|len| len >= 5)
}

/// Whether `line` is the one that `expected` names, if that is only compared or tested. False if something is read from
/// the line that `expected` names.
#[tactic(auto, unfolding(crate::specs::Lines::is_line))]
fn is_line(expected: Expected, line: &[u8]) -> bool
    ensures { result ≡ is_line expected line.now }
{
    match expected {
        Expected::PartOrigin => line == PART_ORIGIN.as_bytes(),
        Expected::Extension => !line.is_empty() && is_text(line),
        Expected::Signature => is_signature(line),
        Expected::ProofVersion => line == PROOF_VERSION.as_bytes(),
        Expected::Blank => line.is_empty(),
        _ => false,
    }
}

/// Reads past a line that is what `expected` names, and returns what follows it. If no such line stands next, the error
/// says that `expected` is missing.
pub(crate) fn skip_line(left: &[u8], expected: Expected) -> Result<&[u8], Stop>
    ensures { result_map_both (λ rest. rest.now) (λ stop. stop) result ≡ rest_of (line_that expected left.now) }
{
    let stop = missing(left, expected);
    let (line, rest) = cut_at(b'\n', left).ok_or(stop)?;
    if is_line(expected, line) {
        Ok(rest)
    } else {
        Err(stop)
    }
}

/// Reads past lines that are what `expected` names, at most `limit`, up to a blank line or the end, and returns what
/// follows them. At the first other line, the error says that `expected` is missing.
pub(crate) fn skip_lines(left: &[u8], expected: Expected, limit: usize) -> Result<&[u8], Stop>
    ensures { result_map_both (λ rest. rest.now) (λ stop. stop) result
        ≡ rest_of (many at_text_end (line_that expected) limit left.now) }
{
    let mut rest = left;
    for _line in 0..limit {
        if rest.is_empty() || at_blank(rest) {
            return Ok(rest);
        }
        rest = skip_line(rest, expected)?;
    }
    Ok(rest)
}

/// Reads a line of `word` and a number up to 2^62, without leading zeros. Returns the number and what follows the line.
/// If no such line stands next, the error says that `expected` is missing.
pub(crate) fn read_number<'a>(
    left: &'a [u8],
    word: &[u8],
    expected: Expected,
) -> Result<(usize, &'a [u8]), Stop>
    ensures { result_map_both (λ (number, rest). (number, rest.now)) (λ stop. stop) result
        ≡ line_by expected (number_after word.now) left.now }
{
    let stop = missing(left, expected);
    let (line, rest) = cut_at(b'\n', left).ok_or(stop)?;
    let digits = line.strip_prefix(word).ok_or(stop)?;
    let number = number_of(digits).ok_or(stop)?;
    Ok((number, rest))
}

/// Reads a line that is the base64 of 32 bytes. Returns the bytes and what follows the line. If no such line stands
/// next, the error says that `expected` is missing.
pub(crate) fn read_digest(left: &[u8], expected: Expected) -> Result<([u8; 32], &[u8]), Stop>
    ensures { result_map_both (λ (digest, rest). (digest, rest.now)) (λ stop. stop) result
        ≡ line_by expected digest_of left.now }
{
    let stop = missing(left, expected);
    let (line, rest) = cut_at(b'\n', left).ok_or(stop)?;
    let digest = digest_of(line).ok_or(stop)?;
    Ok((digest, rest))
}

/// Whether a blank line stands next.
fn at_blank(left: &[u8]) -> bool
    ensures { result ≡ at_blank left.now }
{
    left.first() == Some(&b'\n')
}

/// Reads `count` digests. Returns them and what follows the last one's line. Where a line is no digest, the error says
/// that one is missing. `Memory` if memory runs out.
pub(crate) fn read_digests(
    alloc: Global,
    left: &[u8],
    count: usize,
) -> Result<(Vec<[u8; 32]>, &[u8]), Stop>
    ensures read { IfOk result (λ (digests, rest). digests_by count left.now ≡ Ok (digests.items, rest.now)) }
    ensures stop { IfErr result (λ stop. (stop ≡ Memory) ⊎ (digests_by count left.now ≡ Err stop)) }
{
    let mut digests = Vec::new(alloc);
    let mut rest = left;
    for _digest in 0..count {
        let (digest, below) = read_digest(rest, Expected::Digest)?;
        digests.push(digest)?;
        rest = below;
    }
    Ok((digests, rest))
}

/// Reads the digests up to a blank line, at most `limit`. Returns them and what follows the last one's line. Where a
/// line is neither a digest nor blank, the error says that one of both is missing. `Memory` if memory runs out.
pub(crate) fn read_digests_to_blank(
    alloc: Global,
    left: &[u8],
    limit: usize,
) -> Result<(Vec<[u8; 32]>, &[u8]), Stop>
    ensures read { IfOk result
        (λ (digests, rest). digests_to_blank limit left.now ≡ Ok (digests.items, rest.now)) }
    ensures stop { IfErr result (λ stop. (stop ≡ Memory) ⊎ (digests_to_blank limit left.now ≡ Err stop)) }
{
    let mut digests = Vec::new(alloc);
    let mut rest = left;
    for _digest in 0..limit {
        if at_blank(rest) {
            return Ok((digests, rest));
        }
        let (digest, below) = read_digest(rest, Expected::DigestOrBlank)?;
        digests.push(digest)?;
        rest = below;
    }
    Ok((digests, rest))
}

/// Checks that nothing is left, else the error says that the end is expected.
pub(crate) fn check_end(left: &[u8]) -> Result<(), Stop>
    ensures { result ≡ ended tt left.now }
{
    if left.is_empty() {
        Ok(())
    } else {
        Err(missing(left, Expected::End))
    }
}

/// Appends bytes and a line feed. `AllocError` if memory runs out.
pub(crate) fn push_line(text: &mut Vec<u8>, bytes: &[u8]) -> Result<(), AllocError>
    ensures { OnOk result (text.new.items ≡ text.old.items ++ line bytes.now) }
{
    text.extend_from_slice(bytes)?;
    text.push(b'\n')?;
    Ok(())
}

/// Appends a line of a word and a number in decimal digits. `AllocError` if memory runs out.
pub(crate) fn push_number(
    alloc: Global,
    text: &mut Vec<u8>,
    word: &str,
    number: usize,
) -> Result<(), AllocError>
    ensures { OnOk result (text.new.items ≡ text.old.items ++ line (word.now ++ decimal number)) }
{
    let line = format!(in alloc; "{word}{number}")?;
    push_line(text, line.as_bytes())
}

/// Appends a digest in base64, and a line feed. `AllocError` if memory runs out.
#[tactic(auto, unfolding(crate::specs::Lines::base64))]
pub(crate) fn push_digest(
    alloc: Global,
    text: &mut Vec<u8>,
    digest: &[u8; 32],
) -> Result<(), AllocError>
    ensures { OnOk result (text.new.items ≡ text.old.items ++ digest_line digest.now) }
{
    let line = STANDARD.encode(alloc, digest)?;
    push_line(text, line.as_bytes())
}

/// Appends a line of base64 for each digest. `AllocError` if memory runs out.
pub(crate) fn push_digests(
    alloc: Global,
    text: &mut Vec<u8>,
    digests: &[[u8; 32]],
) -> Result<(), AllocError>
    ensures { OnOk result (text.new.items ≡ text.old.items ++ flat_map digest_line digests.now) }
{
    for digest in digests {
        push_digest(alloc, text, digest)?;
    }
    Ok(())
}
