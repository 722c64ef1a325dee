//! Numbers of any length.

ghost use Rattle.std.specs.Prelude.{◌≡◌, ◌≤◌, ◌<◌, IfSome, pos, neg_ℤ, ◌≤ℤ◌};
ghost use Rattle.hex.specs.Hex.{hex_digit_value};
ghost use Rattle.m1_lang.specs.Words.Numbers.{digit_below, digits_value, magnitude};
ghost use Rattle.m1_lang.specs.Words.Representation.Capped.{capped_value, capped_number};

/// Replaces every larger number, since it is above every range.
const MOST: u64 = 1_099_511_627_776;

/// The value of a digit in a base.
fn digit_below(base: u64, byte: u8) -> Option<u64>
    ensures { result ≡ digit_below base (hex_digit_value byte) }
{
    let digit = match byte {
        b'0'..=b'9' => byte - b'0',
        b'a'..=b'f' => byte - b'a' + 10,
        b'A'..=b'F' => byte - b'A' + 10,
        _ => return None,
    };
    if u64::from(digit) < base {
        Some(u64::from(digit))
    } else {
        None
    }
}

/// The value of one or more digits; a larger value than `MOST` is replaced by it.
fn digits_value(base: u64, text: &[u8]) -> Option<u64>
    requires low { 1 ≤ base }
    requires high { base ≤ 16 }
    ensures value { result ≡ capped_value (digits_value base text.now) }
    ensures few { IfSome result (λ n. n ≤ 1099511627776) }
{
    if text.is_empty() {
        return None;
    }
    let mut value = 0;
    for byte in text {
        match digit_below(base, *byte) {
            None => return None,
            Some(digit) => value = (base * value + digit).min(MOST),
        }
    }
    Some(value)
}

/// The value of decimal digits, or of `0x` and hexadecimal digits.
fn magnitude(text: &[u8]) -> Option<u64>
    ensures value { result ≡ capped_value (magnitude text.now) }
    ensures few { IfSome result (λ n. n ≤ 1099511627776) }
{
    if text.len() >= 2 && text[0] == b'0' && text[1] == b'x' {
        digits_value(16, &text[2..])
    } else {
        digits_value(10, text)
    }
}

/// The number that a text is; a number further from 0 than 2^40 is replaced by 2^40 or -2^40.
#[tactic(auto, unfolding(crate::specs::Words::Representation::Capped::capped_number))]
pub(crate) fn number_in(text: &[u8]) -> Option<i64>
    ensures value { result ≡ capped_number text.now }
    ensures low { IfSome result (λ n. neg_ℤ (pos 1099511627776) ≤ℤ n) }
    ensures high { IfSome result (λ n. n ≤ℤ pos 1099511627776) }
{
    match text.split_first() {
        Some((b'-', rest)) => Some(-(magnitude(rest)? as i64)),
        _ => Some(magnitude(text)? as i64),
    }
}
