// Bytes as hexadecimal digits.
ghost use Rattle.std.specs.Prelude.{◌≡◌, ◌<◌, IfSome, IfOk, Some, vec_items, string_bytes};
ghost use Rattle.std.specs.Option.{option_map};
ghost use Rattle.text.specs.Text.{hex_digit, hexadecimal, hex_value, hex_pair, unhex};

use std::alloc::{AllocError, Global};

// The digit of a value, lower case.
fn digit(value: u8) -> char
    requires { value < 16 }
    ensures value { result ≡ hex_digit value }
    ensures ascii { result < 128 }
{
    char::from_digit(u32::from(value), 16).unwrap()
}

// Two lower-case digits for each byte; these are read as the bytes again.
pub fn encode(heap: Global, bytes: &[u8]) -> Result<String, AllocError>
    ensures value { IfOk result (λ s. string_bytes s ≡ hexadecimal bytes.now) }
    ensures reads { IfOk result (λ s. unhex (string_bytes s) ≡ Some bytes.now) }
{
    let mut text = String::new(heap);
    for byte in bytes {
        text.push(digit(*byte / 16))?;
        text.push(digit(*byte % 16))?;
    }
    Ok(text)
}

// The value of a digit, in either case.
fn value(digit: u8) -> Option<u32>
    ensures value { result ≡ hex_value digit }
    ensures small { IfSome result (λ v. v < 16) }
{
    char::from(digit).to_digit(16)
}

// The byte of two digits, the high one first.
fn byte(high: u8, low: u8) -> Option<u8>
    ensures { result ≡ hex_pair high low }
{
    Some((value(high)? * 16 + value(low)?) as u8)
}

// The bytes of a text of digits; none where it is no such text, or a digit is left over.
pub fn decode(heap: Global, text: &[u8]) -> Result<Option<Vec<u8>>, AllocError>
    ensures { IfOk result (λ o. option_map vec_items o ≡ unhex text.now) }
{
    let (pairs, rest) = text.as_chunks::<2>();
    if !rest.is_empty() {
        return Ok(None);
    }
    let mut bytes = Vec::new(heap);
    for [high, low] in pairs {
        let Some(next) = byte(*high, *low) else {
            return Ok(None);
        };
        bytes.push(next)?;
    }
    Ok(Some(bytes))
}
