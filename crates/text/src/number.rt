// Decimal numbers.
ghost use Rattle.std.specs.Prelude.{◌≡◌};
ghost use Rattle.text.specs.Text.{number, up_to, Appended};

// The number with one digit more; none where the byte is no digit, or the number does not fit.
fn append(value: u64, byte: u8) -> Option<u64>
    ensures { Appended value byte result }
{
    if !byte.is_ascii_digit() {
        return None;
    }
    value.checked_mul(10)?.checked_add(u64::from(byte - b'0'))
}

// A number of decimal digits alone, up to a limit. Not by str's parse, which takes a sign.
pub fn parse(text: &[u8], limit: u64) -> Option<u64>
    ensures { result ≡ up_to limit (number text.now) }
{
    if text.is_empty() {
        return None;
    }
    let mut value = 0;
    for byte in text {
        value = append(value, *byte)?;
    }
    (value <= limit).then_some(value)
}
