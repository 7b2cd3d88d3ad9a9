//! Decimal numbers.

ghost use Rattle.std.specs.Prelude.{◌≡◌, ◌<◌, ◌^◌, true};
ghost use Rattle.std.specs.Char.{is_ascii_digit};
ghost use Rattle.std.specs.List.{list_all};
ghost use Rattle.std.specs.Option.{SomeIff};
ghost use Rattle.std.specs.Str.Parse.{digits_value};
ghost use Rattle.text_fields.specs.Numbers.{in_range, is_numeral, number_of};

fn is_digits(field: &[u8]) -> bool
    ensures { result ≡ list_all is_ascii_digit field.now }
{
    field.iter().all(|b| b.is_ascii_digit())
}

fn is_numeral(field: &[u8]) -> bool
    ensures { result ≡ is_numeral field.now }
{
    if !is_digits(field) || field.is_empty() {
        return false;
    }
    field.len() == 1 || field[0] != b'0'
}

fn parsed(digits: &[u8]) -> Option<u64>
    requires { is_numeral digits.now ≡ true }
    ensures { SomeIff result (digits_value 10 digits.now < 2 ^ 64) (digits_value 10 digits.now) }
{
    let Ok(text) = std::str::from_utf8(digits) else {
        return None;
    };
    text.parse::<u64>().ok()
}

/// A decimal number below 2^64, without sign or leading zero.
#[tactic(auto, unfolding(crate::specs::Numbers::number_of))]
pub fn number_of(field: &[u8]) -> Option<u64>
    ensures { result ≡ number_of field.now }
{
    if is_numeral(field) {
        parsed(field)
    } else {
        None
    }
}

/// The number, where it is in the range.
pub fn in_range(least: u64, most: u64, number: Option<u64>) -> Option<u64>
    ensures { result ≡ in_range least most number }
{
    match number {
        Some(number) if least <= number && number <= most => Some(number),
        _ => None,
    }
}
