ghost use Rattle.std.specs.Prelude.{◌≡◌, ◌+◌, ◌*◌, ◌^◌, ◌≤◌, None, IfOk, IfSome};
ghost use Rattle.snow_text_model.specs.Model.Bytes.{number_below};
ghost use Rattle.snow_words.specs.Clauses.Numbers.{size_of, value_after};

use snow_text_model::Reason;

/// How many bytes hold a number.
/// Rule: this project's own.
#[derive(Clone, Copy, Debug, PartialEq, Eq)]
pub enum Width {
    /// One byte.
    One,
    /// Two bytes.
    Two,
    /// Four bytes.
    Four,
    /// Eight bytes.
    Eight,
}

impl Width {
    /// Returns the greatest number that so many bytes hold.
    /// Rule: this project's own.
    pub fn most(self) -> u64
        ensures { result + 1 ≡ 2 ^ (8 * size_of self) }
    {
        match self {
            Width::One => u64::from(u8::MAX),
            Width::Two => u64::from(u16::MAX),
            Width::Four => u64::from(u32::MAX),
            Width::Eight => u64::MAX,
        }
    }
}

/// Returns the decimal number that a word says, which is `most` at most. It returns `Number`
/// exactly where the word says none.
/// Rule: this project's own.
#[tactic(auto, using(crate::proofs::Saying::below_some, crate::proofs::Saying::below_large, crate::proofs::Saying::below_none, crate::proofs::Saying::below_empty))]
pub fn number_up_to(most: u64, word: &[u8]) -> Result<u64, Reason>
    ensures number { result ≡ number_below (most + 1) word.now }
    ensures most { IfOk result (λ n. n ≤ most) }
{
    if word.is_empty() {
        return Err(Reason::Number);
    }
    match value(word) {
        None => Err(Reason::Number),
        Some(number) => {
            if number <= most {
                Ok(number)
            } else {
                Err(Reason::Number)
            }
        }
    }
}

// The number of 64 bits that digits write.
#[tactic(auto, using(crate::proofs::Saying::value_done, crate::proofs::Saying::value_next, crate::proofs::Saying::value_bad, crate::proofs::Saying::value_over))]
fn value(word: &[u8]) -> Option<u64>
    ensures { result ≡ value_after 0 word.now }
{
    let mut value = 0u64;
    for byte in word {
        if !byte.is_ascii_digit() {
            return None;
        }
        match with_digit(value, *byte - b'0') {
            Some(next) => value = next,
            None => return None,
        }
    }
    Some(value)
}

// A number with a digit more, where it has 64 bits.
fn with_digit(value: u64, digit: u8) -> Option<u64>
    ensures some { IfSome result (λ n. n ≡ value * 10 + digit) }
    ensures none { result ≡ None → 2 ^ 64 ≤ value * 10 + digit }
{
    value.checked_mul(10)?.checked_add(u64::from(digit))
}
