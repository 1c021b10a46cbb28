//! The three forms of a value.

ghost use Rattle.std.specs.Prelude.{◌≡◌, ◌≤◌, ◌∷◌, [], IfOk, nat_eq, length};
ghost use Rattle.std.specs.List.{list_all, slice_split};
ghost use Rattle.dn_script.specs.Value.{is_hexadecimal, digit_value, pairs_of, plain_value, pair_value, filled_by, filled_value, value_of};
ghost use Rattle.dn_script.specs.Spelled.{bytes_in, bytes_of};

use crate::texts::{are_within, behind, behind_first, end_of_first, is_led_by, small_in, tiny_in};
use dn_word::{MAX_BYTES, OutOfMemory, Value};
use std::alloc::{AllocError, Global};

/// A value as its field spells it.
#[derive(Clone, Copy, Drop)]
pub(crate) enum Spelled<'a> {
    /// The bytes themselves.
    Plain(&'a [u8]),
    /// Pairs of hexadecimal digits.
    Pairs(&'a [u8]),
    /// A byte so many times.
    Filled { byte: u8, count: u32 },
}

/// The value behind a `=`.
fn plain(bytes: &[u8]) -> Option<Spelled<'_>>
    ensures { bytes_in result ≡ plain_value bytes.now }
{
    if bytes.len() > MAX_BYTES || !are_within(bytes, b'!') {
        return None;
    }
    Some(Spelled::Plain(bytes))
}

/// Whether all are lower-case hexadecimal digits.
fn are_hexadecimal(bytes: &[u8]) -> bool
    ensures { result ≡ list_all is_hexadecimal bytes.now }
{
    bytes
        .iter()
        .all(|b| b'0' <= *b && *b <= b'9' || b'a' <= *b && *b <= b'f')
}

/// The value behind a `%`.
fn pairs(digits: &[u8]) -> Option<Spelled<'_>>
    ensures { bytes_in result ≡ pair_value digits.now }
{
    if digits.len() > 2 * MAX_BYTES || digits.len() % 2 != 0 || !are_hexadecimal(digits) {
        return None;
    }
    Some(Spelled::Pairs(digits))
}

/// The value of this byte and count.
fn filled_with<'a>(byte: &[u8], count: &[u8]) -> Option<Spelled<'a>>
    ensures { bytes_in result ≡ filled_by (byte.now ∷ count.now ∷ []) }
{
    let byte = tiny_in(0, 255, byte)?;
    let count = small_in(0, 1024, count)?;
    Some(Spelled::Filled { byte, count })
}

/// The value behind a `#`.
fn filled(text: &[u8]) -> Option<Spelled<'_>>
    ensures { bytes_in result ≡ filled_value text.now }
{
    let end = end_of_first(text, b'*')?;
    let count = behind(text, end);
    match end_of_first(count, b'*') {
        Some(_) => None,
        None => filled_with(&text[..end], count),
    }
}

/// The value in the field.
pub(crate) fn value(field: &[u8]) -> Option<Spelled<'_>>
    ensures { bytes_in result ≡ value_of field.now }
{
    if is_led_by(field, b'=') {
        plain(behind_first(field))
    } else if is_led_by(field, b'%') {
        pairs(behind_first(field))
    } else if is_led_by(field, b'#') {
        filled(behind_first(field))
    } else {
        None
    }
}

/// What a hexadecimal digit stands for: another byte is 0.
fn digit(byte: u8) -> u8
    ensures value { result ≡ digit_value byte }
    ensures small { result ≤ 15 }
{
    if b'0' <= byte && byte <= b'9' {
        byte - b'0'
    } else if b'a' <= byte && byte <= b'f' {
        byte - b'a' + 10
    } else {
        0
    }
}

/// The bytes that pairs of digits write.
fn paired(alloc: Global, digits: &[u8]) -> Result<Vec<u8>, AllocError>
    ensures { IfOk result (λ bytes. bytes.items ≡ pairs_of digits.now) }
{
    let mut bytes = Vec::with_capacity(alloc, digits.len() / 2)?;
    let mut rest = digits;
    while let [high, low, more @ ..] = rest {
        bytes.push(16 * digit(*high) + digit(*low))?;
        rest = more;
    }
    Ok(bytes)
}

/// The bytes that a spelling stands for, of a value.
fn spelled_bytes(alloc: Global, spelled: Spelled<'_>) -> Result<Vec<u8>, AllocError>
    ensures { IfOk result (λ bytes. bytes.items ≡ bytes_of spelled.entry) }
{
    match spelled {
        Spelled::Plain(bytes) => Vec::from_slice(alloc, bytes),
        Spelled::Pairs(digits) => paired(alloc, digits),
        Spelled::Filled { byte, count } => vec![in alloc; byte; count as usize],
    }
}

/// A value with a copy of these bytes, of which there are no more than a value has.
fn copied(alloc: Global, bytes: &[u8]) -> Result<Value, OutOfMemory>
    ensures { IfOk result (λ value. value ≡ bytes.now) }
{
    match Value::from_bytes(alloc, bytes) {
        Ok(value) => Ok(value),
        Err(_) => Err(OutOfMemory),
    }
}

/// The value that is spelled so. Plain bytes are copied once, from where they stand.
pub(crate) fn made(alloc: Global, spelled: Spelled<'_>) -> Result<Value, OutOfMemory>
    ensures { IfOk result (λ made. made ≡ bytes_of spelled.entry) }
{
    if let Spelled::Plain(bytes) = spelled {
        return copied(alloc, bytes);
    }
    let bytes = spelled_bytes(alloc, spelled)?;
    copied(alloc, bytes.as_slice())
}
