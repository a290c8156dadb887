// Numbers of at most eighteen digits, read in one walk over their bytes.
ghost use Rattle.std.specs.Prelude.{◌≡◌, ◌∷◌, ◌<◌, ◌≤◌, ◌^◌, pos, length, take, IfSome, IsTrue};
ghost use Rattle.std.specs.Str.Parse.{AllDigits, digits_value};
ghost use Rattle.script_lines.specs.Words.{EndsWord, WithoutNeedlessZero, IsSpaced};

/// A number of that many digits is less than 2^63.
const MOST_DIGITS: usize = 18;

/// How many bytes in front are digits, eighteen at most, and the number that they are.
fn digits(bytes: &[u8]) -> (usize, u64)
    ensures are { AllDigits 10 (take result.0 bytes.now) }
    ensures value { result.1 ≡ digits_value 10 (take result.0 bytes.now) }
    ensures bound { (result.0 ≤ length bytes.now) × (result.0 ≤ 18) }
{
    let end = bytes.len().min(MOST_DIGITS);
    let mut len = 0;
    let mut value = 0u64;
    while len < end && bytes[len].is_ascii_digit() {
        value = value * 10 + u64::from(bytes[len] - b'0');
        len += 1;
    }
    (len, value)
}

/// Whether digits are one, or more of which the first is not 0.
fn without_needless_zero(digits: &[u8]) -> bool
    ensures { IsTrue result → WithoutNeedlessZero digits.now }
{
    match digits {
        [] => false,
        [_] => true,
        [first, ..] => *first != b'0',
    }
}

/// Whether a word ends here: at the end, or at a space.
fn ends_word(rest: &[u8]) -> bool
    ensures { IsTrue result → EndsWord rest.now }
{
    match rest {
        [] => true,
        [first, ..] => *first == b' ',
    }
}

/// The number that the first word is by its digits alone, and what follows the word.
fn unsigned_number(bytes: &[u8]) -> Option<(u64, &[u8])>
    ensures value { IfSome result (λ found. IsSpaced (32 ∷ bytes.now) (pos found.0) found.1.now) }
    ensures small { IfSome result (λ found. found.0 < 10 ^ 18) }
{
    let (len, value) = digits(bytes);
    let (word, rest) = bytes.split_at(len);
    if without_needless_zero(word) && ends_word(rest) {
        Some((value, rest))
    } else {
        None
    }
}

/// The number that the first word is, and what follows the word. `None` also where the number has more
/// than eighteen digits.
pub(crate) fn short_number(bytes: &[u8]) -> Option<(i64, &[u8])>
    ensures { IfSome result (λ found. IsSpaced (32 ∷ bytes.now) found.0 found.1.now) }
{
    match bytes {
        [b'-', body @ ..] => {
            let (value, rest) = unsigned_number(body)?;
            if value > 0 {
                Some((0 - value as i64, rest))
            } else {
                None
            }
        }
        _ => {
            let (value, rest) = unsigned_number(bytes)?;
            Some((value as i64, rest))
        }
    }
}
