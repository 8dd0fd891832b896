//! Numbers as a line has them.

ghost use Rattle.std.specs.Prelude.{◌≡◌, ℕ, ◌+◌, ◌*◌, ◌<◌, ◌≤◌, ◌^◌, ◌-◌, pos, neg_ℤ, IsTrue, Option, Some, None};
ghost use Rattle.std.specs.Char.{digit_value, is_ascii_digit};
ghost use Rattle.std.specs.List.{list_all};
ghost use Rattle.std.specs.Option.{IfSome, SomeIff, option_map};
ghost use Rattle.std.specs.Str.Parse.{digits_value};
ghost use Rattle.rc_spelling.specs.Numbers.{is_numeral, number_of, count_of, signed_of};

/// Whether each byte is a decimal digit.
fn are_digits(word: &[u8]) -> bool
    ensures { result ≡ list_all is_ascii_digit word.now }
{
    word.iter().all(|byte| byte.is_ascii_digit())
}

/// Whether the bytes are `0`, or a digit from 1 on and more digits behind it.
fn is_numeral(word: &[u8]) -> bool
    ensures { result ≡ is_numeral word.now }
{
    match word {
        [] => false,
        [first, rest @ ..] => {
            if *first == b'0' {
                rest.is_empty()
            } else {
                are_digits(word)
            }
        }
    }
}

/// The number with one more digit behind its own, where it is below 2^64.
fn with_digit(value: u64, byte: u8) -> Option<u64>
    requires { IsTrue (is_ascii_digit byte) }
    ensures { SomeIff result (value * 10 + digit_value byte < 2 ^ 64) (value * 10 + digit_value byte) }
{
    let digit = u64::from(byte - b'0');
    value.checked_mul(10)?.checked_add(digit)
}

/// The number that digits write, where it is below 2^64.
#[tactic(auto, using(crate::proofs::Digits::value_grows, crate::proofs::Digits::value_more))]
fn magnitude(digits: &[u8]) -> Option<u64>
    requires { IsTrue (list_all is_ascii_digit digits.now) }
    ensures { SomeIff result (digits_value 10 digits.now < 2 ^ 64) (digits_value 10 digits.now) }
{
    let mut value = 0u64;
    for byte in digits {
        value = with_digit(value, *byte)?;
    }
    Some(value)
}

/// The number that the word is, where it is one from 0 to `most`; else none.
#[tactic(auto, using(crate::proofs::Digits::numbers))]
pub fn number(word: &[u8], most: u64) -> Option<u64>
    ensures value { result ≡ number_of most word.now }
    ensures within { IfSome result (λ n. n ≤ most) }
{
    if !is_numeral(word) {
        return None;
    }
    let value = magnitude(word)?;
    if value <= most { Some(value) } else { None }
}

/// The number that the word is, where it is one from 1 to `most`; else none.
#[tactic(auto, unfolding(crate::specs::Numbers::count_of))]
pub fn count(word: &[u8], most: u32) -> Option<u32>
    ensures value { result ≡ count_of most word.now }
{
    let value = number(word, u64::from(most))?;
    if value == 0 {
        return None;
    }
    Some(value as u32)
}

/// The number below 0 whose digits behind the minus these are.
#[tactic(auto, using(crate::proofs::Digits::below_zero), unfolding(crate::specs::Numbers::count_of))]
fn negative(digits: &[u8]) -> Option<i64>
    ensures { result ≡ option_map (λ n. neg_ℤ (pos n)) (count_of (2 ^ 63) digits.now) }
{
    let size = number(digits, 1 << 63)?;
    if size == 0 {
        return None;
    }
    0i64.checked_sub_unsigned(size)
}

/// The number from 0 on that the word is.
#[tactic(auto, using(std::proofs::lemmas::Int::ints))]
fn positive(word: &[u8]) -> Option<i64>
    ensures { result ≡ option_map pos (number_of (2 ^ 63 - 1) word.now) }
{
    let value = number(word, i64::MAX as u64)?;
    Some(value as i64)
}

/// The number from -2^63 to 2^63 - 1 that the word is, where it is one; else none.
pub fn signed(word: &[u8]) -> Option<i64>
    ensures { result ≡ signed_of word.now }
{
    match word {
        [] => None,
        [first, rest @ ..] => {
            if *first == b'-' {
                negative(rest)
            } else {
                positive(word)
            }
        }
    }
}
