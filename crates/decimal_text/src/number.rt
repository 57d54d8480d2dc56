//! Decimal numbers.
ghost use Rattle.std.specs.Prelude.{◌≡◌, ◌^◌, ◌≤◌, Err, MatchOption, Ok};
ghost use Rattle.std.specs.List.{list_all};
ghost use Rattle.std.specs.Char.{is_ascii_digit};
ghost use Rattle.format_model.specs.ScriptReading.{BadNumber, is_number, leads_with_zero, number_in, value_of};

// Whether each byte is a decimal digit.
fn are_digits(text: &[u8]) -> bool
    ensures { result ≡ list_all is_ascii_digit text.now }
{
    text.iter().all(|byte| byte.is_ascii_digit())
}

/// Whether the text is one digit or more, and nothing else.
pub fn is_number(text: &[u8]) -> bool
    ensures { result ≡ is_number text.now }
{
    !text.is_empty() && are_digits(text)
}

// Whether there is a zero before other digits.
fn leads_with_zero(digits: &[u8]) -> bool
    ensures { result ≡ leads_with_zero digits.now }
{
    digits.len() > 1 && digits[0] == b'0'
}

// The value of digits, where it fits into 32 bits.
fn value_of(digits: &[u8]) -> Option<u32>
    ensures { MatchOption result (2 ^ 32 ≤ value_of digits.now)
        (λ value. value ≡ value_of digits.now) }
{
    let mut value = 0u64;
    for digit in digits {
        value = 10 * value + u64::from(digit.saturating_sub(b'0'));
        if value > 0xffff_ffff {
            return None;
        }
    }
    Some(value as u32)
}

/// The value of digits, where there is no leading zero before others and the value is from `least` to `most`; else none.
/// `is_number` tells whether a text is digits.
#[tactic(auto, unfolding(format_model::specs::ScriptReading::number_in))]
pub fn number_in(digits: &[u8], least: u32, most: u32) -> Option<u32>
    ensures { MatchOption result (number_in least most digits.now ≡ Err BadNumber)
        (λ value. number_in least most digits.now ≡ Ok value) }
{
    if leads_with_zero(digits) {
        return None;
    }
    match value_of(digits) {
        Some(value) if least <= value && value <= most => Some(value),
        _ => None,
    }
}
