//! Numbers in decimal.

ghost use Rattle.std.specs.Prelude.{◌^◌, ◌<◌};
ghost use Rattle.std.specs.Option.{SomeIff};
ghost use Rattle.std.specs.Str.Parse.{digits_value};
ghost use Rattle.mmcs_engine.specs.Numbers.{IsNumberBelow};

/// The number of one or more ASCII digits, if it fits `usize`; `None` for any other text.
pub fn parse_number(digits: &[u8]) -> Option<usize>
    ensures { SomeIff result (IsNumberBelow (2 ^ 64) digits.now) (digits_value 10 digits.now) }
{
    // `parse` takes a sign as well.
    if digits.first() == Some(&b'+') {
        return None;
    }
    let text = str::from_utf8(digits).ok()?;
    text.parse().ok()
}
