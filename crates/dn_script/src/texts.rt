//! The parts of bytes, and the numbers in them.

ghost use Rattle.std.specs.Prelude.{◌≡◌, ◌||◌, ◌<◌, ◌≤◌, ◌+◌, ◌^◌, ◌∷◌, [], ℕ, Some, nat_eq, drop, take, length, position, slice_index, IfSome, IfNone};
ghost use Rattle.std.specs.List.{slice_split, list_all};
ghost use Rattle.std.specs.Fmt.{decimal};
ghost use Rattle.std.specs.Cmp.Lexicographic.{pointwise};
ghost use Rattle.dn_script.specs.Number.{is_within, is_digit, fitting, number_of, has_leading_zero, numeral_of, number_in};

/// Where the first part of the text ends, of those that this byte keeps apart: None where there is one part.
pub(crate) fn end_of_first(text: &[u8], apart: u8) -> Option<usize>
    ensures within { IfSome result (λ end. end < length text.now) }
    ensures parts { IfSome result (λ end. slice_split (λ b. nat_eq b apart) text.now
        ≡ take end text.now ∷ slice_split (λ b. nat_eq b apart) (drop (end + 1) text.now)) }
    ensures one { IfNone result (slice_split (λ b. nat_eq b apart) text.now ≡ text.now ∷ []) }
{
    place_of(text, apart)
}

/// What stands behind the place.
pub(crate) fn behind(text: &[u8], place: usize) -> &[u8]
    requires { place < length text.now }
    ensures { result.now ≡ drop (place + 1) text.now }
{
    &text[place + 1..]
}

/// What stands behind the first byte.
pub(crate) fn behind_first(text: &[u8]) -> &[u8]
    ensures { result.now ≡ drop 1 text.now }
{
    if text.is_empty() { text } else { &text[1..] }
}

/// Whether the text begins with the byte, which isn't 0.
pub(crate) fn is_led_by(text: &[u8], byte: u8) -> bool
    requires { 0 < byte }
    ensures { result ≡ nat_eq (slice_index text.now 0) byte }
{
    !text.is_empty() && text[0] == byte
}

/// The first place of the byte.
fn place_of(text: &[u8], byte: u8) -> Option<usize>
    ensures value { result ≡ position (λ b. nat_eq b byte) text.now }
    ensures within { IfSome result (λ place. place < length text.now) }
{
    text.iter().position(|b| *b == byte)
}

/// Whether all bytes lie from this one to `~`.
pub(crate) fn are_within(bytes: &[u8], least: u8) -> bool
    ensures { result ≡ list_all (is_within least 126) bytes.now }
{
    bytes.iter().all(|b| least <= *b && *b <= b'~')
}

/// Whether all bytes are decimal digits.
pub(crate) fn are_digits(bytes: &[u8]) -> bool
    ensures { result ≡ list_all is_digit bytes.now }
{
    bytes.iter().all(|b| b'0' <= *b && *b <= b'9')
}

/// Whether the bytes are those of the word.
pub(crate) fn is_word(bytes: &[u8], word: &[u8]) -> bool
    ensures { result ≡ pointwise nat_eq bytes.now word.now }
{
    bytes == word
}

/// The number that the digits write, where all are digits and it is below 2^64.
fn number(digits: &[u8]) -> Option<u64>
    ensures { result ≡ fitting (list_all is_digit digits.now) (number_of digits.now) }
{
    let mut value: u64 = 0;
    for digit in digits {
        if *digit < b'0' || *digit > b'9' {
            return None;
        }
        value = value.checked_mul(10)?.checked_add((*digit - b'0') as u64)?;
    }
    Some(value)
}

/// The number that the field is in decimal, without sign and leading zeros: the field is what the number prints as.
fn numeral(field: &[u8]) -> Option<u64>
    ensures value { result ≡ numeral_of field.now }
    ensures decimal { IfSome result (λ number. field.now ≡ decimal number) }
    ensures spelled { (number : ℕ) → number < 2 ^ 64 → field.now ≡ decimal number
        → result ≡ Some number }
{
    if is_empty_or_padded(field) {
        None
    } else {
        number(field)
    }
}

/// Whether the field is empty, or has a zero in front of something.
fn is_empty_or_padded(field: &[u8]) -> bool
    ensures { result ≡ (nat_eq (length field.now) 0 || has_leading_zero field.now) }
{
    field.is_empty() || field[0] == b'0' && field.len() > 1
}

/// The number in the field, from one to another.
pub(crate) fn number_in(least: u64, most: u64, field: &[u8]) -> Option<u64>
    ensures value { result ≡ number_in least most field.now }
    ensures within { IfSome result (λ number. number ≤ most) }
{
    let number = numeral(field)?;
    if least <= number && number <= most {
        Some(number)
    } else {
        None
    }
}

/// The same where the greatest has 32 bits.
pub(crate) fn small_in(least: u32, most: u32, field: &[u8]) -> Option<u32>
    ensures { result ≡ number_in least most field.now }
{
    let number = number_in(least as u64, most as u64, field)?;
    Some(number as u32)
}

/// The same where the greatest has 8 bits.
pub(crate) fn tiny_in(least: u8, most: u8, field: &[u8]) -> Option<u8>
    ensures { result ≡ number_in least most field.now }
{
    let number = number_in(least as u64, most as u64, field)?;
    Some(number as u8)
}
