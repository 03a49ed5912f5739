// Numbers at the front of some bytes: the one spelling of each number, and no other.
ghost use Rattle.std.specs.Prelude.{ℕ, ℤ, ◌≡◌, ◌≢◌, ◌≤◌, ◌<◌, ◌^◌, ◌↔◌, IsTrue, MatchOption, decimal, length, drop, slice_index};
ghost use Rattle.std.specs.Char.{digit_value};
ghost use Rattle.std.specs.Str.Parse.{digits_value};
ghost use Rattle.std.specs.Fmt.{signed_decimal};
ghost use Rattle.std.specs.Int.{w32};
ghost use Rattle.std.specs.Int.RustNames.{FitsSigned};
ghost use Rattle.drm_script.specs.Numbers.{digits_ahead, behind_digits, signed_ahead, behind_signed, BeginsWithNoDigit};

/// The number below 2^32 that the digits at the front spell, and the bytes behind them.
#[inline(always)]
fn unsigned(bytes: &[u8]) -> Option<(u32, &[u8])>
    ensures { MatchOption result ((n : ℕ) → n < 2 ^ 32 → digits_ahead bytes.now ≢ decimal n)
        (λ found. (found.0 < 2 ^ 32) × (digits_ahead bytes.now ≡ decimal found.0) × (found.1.now ≡ behind_digits bytes.now)) }
{
    let (number, rest) = wide(bytes)?;
    if number > u64::from(u32::MAX) {
        return None;
    }
    Some((number as u32, rest))
}

/// The number below 2^64 that the digits at the front spell, and the bytes behind them.
#[inline(always)]
pub fn wide(bytes: &[u8]) -> Option<(u64, &[u8])>
    ensures { MatchOption result ((n : ℕ) → n < 2 ^ 64 → digits_ahead bytes.now ≢ decimal n)
        (λ found. (found.0 < 2 ^ 64) × (digits_ahead bytes.now ≡ decimal found.0) × (found.1.now ≡ behind_digits bytes.now)) }
{
    let Some((number, word, rest)) = value(bytes) else {
        return None;
    };
    if word.is_empty() || has_leading_zero(word) {
        return None;
    }
    Some((number, rest))
}

/// The number that fits 32 bits, and that the digits at the front spell with the minus sign before them, if there is
/// one; and the bytes behind them.
#[inline(always)]
pub fn signed(bytes: &[u8]) -> Option<(i32, &[u8])>
    ensures { MatchOption result ((z : ℤ) → FitsSigned w32 z → signed_ahead bytes.now ≢ signed_decimal z)
        (λ found. (signed_ahead bytes.now ≡ signed_decimal found.0) × (found.1.now ≡ behind_signed bytes.now)) }
{
    let Some(digits) = bytes.strip_prefix(b"-") else {
        let (size, rest) = unsigned(bytes)?;
        let number = i32::try_from(size).ok()?;
        return Some((number, rest));
    };
    let (size, rest) = unsigned(digits)?;
    if size == 0 {
        return None;
    }
    let number = i32::try_from(-i64::from(size)).ok()?;
    Some((number, rest))
}

/// Says whether the word is a zero and more.
fn has_leading_zero(word: &[u8]) -> bool
    ensures { IsTrue result ↔ (1 < length word.now) × (slice_index word.now 0 ≡ 48) }
{
    word.len() > 1 && word[0] == b'0'
}

/// The value of the digits at the front, where it is below 2^64, these digits, and the bytes behind them. Zeros may
/// stand before the number.
#[inline(always)]
fn value(bytes: &[u8]) -> Option<(u64, &[u8], &[u8])>
    ensures { MatchOption result (2 ^ 64 ≤ digits_value 10 (digits_ahead bytes.now))
        (λ found. (found.0 < 2 ^ 64) × (found.0 ≡ digits_value 10 (digits_ahead bytes.now))
        × (found.1.now ≡ digits_ahead bytes.now) × (found.2.now ≡ behind_digits bytes.now)) }
{
    let mut number: u64 = 0;
    let mut count = 0;
    while let Some(digit) = digit_at(bytes, count) {
        number = number.checked_mul(10)?.checked_add(digit)?;
        count += 1;
    }
    let (word, rest) = bytes.split_at(count);
    Some((number, word, rest))
}

/// The value of the digit at this place, if one stands there.
fn digit_at(bytes: &[u8], place: usize) -> Option<u64>
    ensures { MatchOption result (BeginsWithNoDigit (drop place bytes.now))
        (λ value. (place < length bytes.now) × (value ≡ digit_value (slice_index bytes.now place)) × (value < 10)) }
{
    digit(*bytes.get(place)?)
}

/// The value of a digit.
fn digit(byte: u8) -> Option<u64>
    ensures { MatchOption result (10 ≤ digit_value byte) (λ value. (value ≡ digit_value byte) × (value < 10)) }
{
    match byte {
        b'0'..=b'9' => Some(u64::from(byte - b'0')),
        _ => None,
    }
}
