// A script of steps: lines that ask for a step by an event and an answer.
#![tactic(auto)]

ghost use Rattle.std.specs.Prelude.{◌≡◌};
ghost use Rattle.script.specs.Asked.{word_of, asked_of, AskedLaw};

use text::{cut, digit};

// A step that is asked for.
#[derive(Clone, Copy, PartialEq, Eq, Debug)]
pub struct Asked {
    pub event: u32,
    pub answer: u32,
}

// Two words of decimal digits, parted by one space. A number past the largest of 32 bits is read as that one: it is large, and no
// slip of the pen.
#[tactic(auto, using(crate::proofs::Asks::asked_law))]
pub fn read_line(line: &[u8]) -> Option<Asked>
    ensures value { result ≡ asked_of line.now }
    ensures law { AskedLaw line.now result }
{
    let (first, second) = cut(line, b' ')?;
    let event = word(first)?;
    let answer = word(second)?;
    Some(Asked { event, answer })
}

// A loop of its own: here a large number is held to the largest, in `text` it is refused.
fn word(bytes: &[u8]) -> Option<u32>
    ensures { result ≡ word_of bytes.now }
{
    if bytes.is_empty() {
        return None;
    }
    let mut value: u32 = 0;
    for byte in bytes {
        let digit = digit(*byte)?;
        value = value.saturating_mul(10).saturating_add(u32::from(digit));
    }
    Some(value)
}
