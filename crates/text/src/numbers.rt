// Numbers in decimal, read from a word.
ghost use Rattle.std.specs.Prelude.{◌≡◌, ℕ, ◌+◌, ◌*◌, ◌^◌, ◌<◌, ◌≤◌, decimal, MatchOption, ◌≢◌};
ghost use Rattle.text.specs.Decimals.{spelled};

// A type of numbers that can be read digit by digit.
pub trait FromDigits: Copy {
    // The number that one is.
    ghost value: { Self → ℕ };

    // The first number that is too big for the type.
    ghost end: { ℕ };

    fn zero() -> Self
        ensures is { value result ≡ 0 }
        ensures fits { 0 < end };

    // The number with one more digit after it; none if that is too big.
    fn with_digit(self, digit: u8) -> Option<Self>
        requires { digit < 10 }
        ensures is { MatchOption result (end ≤ 10 * value self + digit)
            (λ n. (value n ≡ 10 * value self + digit) × (value n < end)) };
}

impl FromDigits for u64 {
    ghost value = { λ n. n };

    ghost end = { 2 ^ 64 };

    fn zero() -> u64 {
        0
    }

    fn with_digit(self, digit: u8) -> Option<u64> {
        self.checked_mul(10)?.checked_add(u64::from(digit))
    }
}

// The number that a word spells in decimal, with no zeros before it; none if it spells none below the type's end. For a
// type that ends at 2^64 or before, words are as std writes numbers.
pub fn number<N: FromDigits>(word: &[u8]) -> Option<N>
    ensures is { MatchOption result ((n : ℕ) → n < N.end → word.now ≢ spelled n)
        (λ n. word.now ≡ spelled (N.value n)) }
    ensures small { N.end ≤ 2 ^ 64 → MatchOption result ((n : ℕ) → n < N.end → word.now ≢ decimal n)
        (λ n. word.now ≡ decimal (N.value n)) }
{
    if word.is_empty() {
        return None;
    }
    if word[0] == b'0' {
        return (word.len() == 1).then_some(N::zero());
    }
    let mut number = N::zero();
    for c in word {
        if !c.is_ascii_digit() {
            return None;
        }
        number = number.with_digit(*c - b'0')?;
    }
    Some(number)
}
