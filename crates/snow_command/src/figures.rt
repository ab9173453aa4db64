ghost use Rattle.std.specs.Prelude.{◌≡◌, ◌≤◌, Some, IfSome};
ghost use Rattle.snow_command.specs.Model.Words.{with_digit, digits_within, number_in};

/// Returns the number that one to twenty decimal digits spell, where it is within these bounds,
/// both included, and else `None`. Zeros may lead.
/// Rule: this project's own.
pub fn number_in(text: &str, least: u64, most: u64) -> Option<u64>
    ensures number { result ≡ number_in least most text.now }
    ensures most { IfSome result (λ n. n ≤ most) }
{
    let digits = text.as_bytes();
    if digits.is_empty() {
        return None;
    }
    if digits.len() > 20 {
        return None;
    }
    let number = digits_within(digits, most)?;
    if number < least {
        return None;
    }
    Some(number)
}

/// Returns the number of digits, where it is at most this.
fn digits_within(digits: &[u8], most: u64) -> Option<u64>
    ensures number { result ≡ digits_within most digits.now }
    ensures most { IfSome result (λ n. n ≤ most) }
{
    let mut number = 0u64;
    let mut left = digits;
    while let [digit, rest @ ..] = left {
        number = with_digit(number, *digit, most)?;
        left = rest;
    }
    Some(number)
}

/// Returns a number with one digit more, where that is a digit and the result is at most this.
fn with_digit(number: u64, digit: u8, most: u64) -> Option<u64>
    ensures number { result ≡ with_digit most (Some number) digit }
    ensures most { IfSome result (λ n. n ≤ most) }
{
    if digit < b'0' || digit > b'9' {
        return None;
    }
    let next = 10 * u128::from(number) + u128::from(digit - b'0');
    if next > u128::from(most) {
        return None;
    }
    Some(next as u64)
}
