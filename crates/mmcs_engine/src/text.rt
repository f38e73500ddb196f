//! Printed lines.

ghost use Rattle.std.specs.Prelude.{◌≡◌, ◌++◌, OnOk, flat_map, map, string_bytes};
ghost use Rattle.mmcs_engine.specs.Text.{hex_line, hex_lines, hex_word, row_line};

use crate::word::Word;
use std::alloc::AllocError;

/// Appends a line for each digest: its words in lower case hexadecimal, one after another.
///
/// # Errors
///
/// `AllocError` if memory runs out.
pub fn push_digests<W: Word, const D: usize>(
    text: &mut String,
    digests: &[[W; D]],
) -> Result<(), AllocError>
    ensures { OnOk result (string_bytes text.new
        ≡ string_bytes text.old ++ hex_lines W.HEX_DIGITS (map (map W.value) digests.now)) }
{
    for digest in digests {
        push_hex_line(text, digest)?;
    }
    Ok(())
}

/// Appends a line of words in lower case hexadecimal, `W::HEX_DIGITS` digits each, one after another. `AllocError` if
/// memory runs out.
fn push_hex_line<W: Word>(text: &mut String, words: &[W]) -> Result<(), AllocError>
    ensures { OnOk result (string_bytes text.new
        ≡ string_bytes text.old ++ hex_line W.HEX_DIGITS (map W.value words.now)) }
{
    for word in words {
        push_hex(text, W::HEX_DIGITS, word.to_number())?;
    }
    text.push('\n')?;
    Ok(())
}

/// Appends the last `digits` digits of a number in lower case hexadecimal. `AllocError` if memory runs out.
fn push_hex(text: &mut String, digits: usize, number: u32) -> Result<(), AllocError>
    ensures { OnOk result (string_bytes text.new ≡ string_bytes text.old ++ hex_word digits number) }
{
    if digits == 0 {
        return Ok(());
    }
    push_hex(text, digits - 1, number / 16)?;
    text.push(char::from_digit(number % 16, 16).unwrap())
}

/// Appends a line for each row: its numbers in decimal, with one space between.
///
/// # Errors
///
/// `AllocError` if memory runs out.
pub fn push_rows<W: Word>(text: &mut String, rows: &[Vec<W>]) -> Result<(), AllocError>
    ensures { OnOk result (string_bytes text.new
        ≡ string_bytes text.old ++ flat_map row_line (map (λ row. map W.value row.items) rows.now)) }
{
    for row in rows {
        push_row(text, row)?;
    }
    Ok(())
}

/// Appends a line for a row: its numbers in decimal, with one space between. `AllocError` if memory runs out.
fn push_row<W: Word>(text: &mut String, row: &[W]) -> Result<(), AllocError>
    ensures { OnOk result (string_bytes text.new ≡ string_bytes text.old ++ row_line (map W.value row.now)) }
{
    let Some((first, rest)) = row.split_first() else {
        return text.push('\n');
    };
    let first = first.to_number();
    write!(text, "{first}")?;
    for word in rest {
        let number = word.to_number();
        write!(text, " {number}")?;
    }
    text.push('\n')
}
