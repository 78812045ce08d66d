// Numbers and fields of a line of text, as the file readers need them.
#![tactic(auto)]

ghost use Rattle.std.specs.Prelude.{◌≡◌, ◌==◌, ◌≤◌, length};
ghost use Rattle.std.specs.List.{position_or_len};
ghost use Rattle.text.specs.Number.{digit_of, read_on, number_of, Spelled};
ghost use Rattle.text.specs.Cut.{cut_at, parts_of, taken_of, field_of, CutLaw, FieldLaw};

// The value of a decimal digit.
pub fn digit(byte: u8) -> Option<u8>
    ensures { result ≡ digit_of byte }
{
    let digit = byte.wrapping_sub(b'0');
    (digit < 10).then_some(digit)
}

// The number that the whole of `bytes` spells in decimal: no leading zero, at most 65,535.
#[tactic(auto, unfolding(crate::specs::Number::number_of), using(crate::proofs::Inverse::number_spelled))]
pub fn number(bytes: &[u8]) -> Option<u16>
    ensures value { result ≡ number_of bytes.now }
    ensures spelled { Spelled bytes.now result }
{
    match bytes {
        [] | [b'0', _, ..] => None,
        _ => digits(bytes),
    }
}

fn digits(bytes: &[u8]) -> Option<u16>
    ensures { result ≡ read_on 0 bytes.now }
{
    let mut number: u16 = 0;
    for byte in bytes {
        let next = u32::from(number) * 10 + u32::from(digit(*byte)?);
        number = u16::try_from(next).ok()?;
    }
    Some(number)
}

// What stands before the first `mark`, and what stands after it.
pub fn cut<'a>(bytes: &'a [u8], mark: u8) -> Option<(&'a [u8], &'a [u8])>
    ensures value { parts_of result ≡ cut_at mark bytes.now }
    ensures law { CutLaw mark bytes.now (parts_of result) }
{
    let place = place_of(bytes, mark);
    if place == bytes.len() {
        return None;
    }
    Some((&bytes[..place], &bytes[place + 1..]))
}

// The place of the first `mark`, or the length. A loop, and no `position`: that takes half as long again on long lines.
fn place_of(bytes: &[u8], mark: u8) -> usize
    ensures value { result ≡ position_or_len (λ x. x == mark) bytes.now }
    ensures bound { result ≤ length bytes.now }
{
    for (place, byte) in bytes.iter().enumerate() {
        if *byte == mark {
            return place;
        }
    }
    bytes.len()
}

// The number before the first space, and what stands after that space.
#[tactic(auto, unfolding(crate::specs::Cut::field_of), using(crate::proofs::Fields::field_law))]
pub fn field<'a>(bytes: &'a [u8]) -> Option<(u16, &'a [u8])>
    ensures value { taken_of result ≡ field_of bytes.now }
    ensures law { FieldLaw bytes.now (taken_of result) }
{
    let (word, rest) = cut(bytes, b' ')?;
    Some((number(word)?, rest))
}
