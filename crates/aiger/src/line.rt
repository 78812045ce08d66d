// What a line of a file says.

ghost use Rattle.std.specs.Prelude.{◌≡◌};
ghost use Rattle.aiger.specs.Line.{content_of, numbers_of, symbol_of, line_of, five_of, after_word, header_of};
ghost use Rattle.std.specs.Option.{option_map};

use text::{field, number};

#[derive(Clone, Copy, PartialEq, Eq, Debug)]
pub enum SymbolKind {
    Input,
    Latch,
    Output,
}

// The kinds of line that a file can have after its header. A symbol's name is a part of the file. Malformed is a case, and no None:
// what it means depends on the section, as with every other line.
#[derive(Clone, Copy, PartialEq, Eq, Debug)]
pub enum Line<'a> {
    One(u16),
    Two(u16, u16),
    Three(u16, u16, u16),
    Symbol(SymbolKind, u16, &'a [u8]),
    Comment,
    Malformed,
}

#[derive(Clone, Copy, PartialEq, Eq, Debug)]
pub struct Header {
    pub maximum: u16,
    pub inputs: u16,
    pub latches: u16,
    pub outputs: u16,
    pub gates: u16,
}

// Up to three numbers, parted by one space.
#[tactic(auto, unfolding(crate::specs::Line::numbers_of))]
fn numbers<'a>(bytes: &'a [u8]) -> Line<'a>
    ensures { content_of result ≡ numbers_of bytes.now }
{
    let Some((a, rest)) = field(bytes) else {
        return number(bytes).map_or(Line::Malformed, |a| Line::One(a));
    };
    let Some((b, rest)) = field(rest) else {
        return number(rest).map_or(Line::Malformed, |b| Line::Two(a, b));
    };
    number(rest).map_or(Line::Malformed, |c| Line::Three(a, b, c))
}

// A symbol after its letter.
#[tactic(auto, unfolding(crate::specs::Line::symbol_of))]
fn symbol<'a>(kind: SymbolKind, bytes: &'a [u8]) -> Line<'a>
    ensures { content_of result ≡ symbol_of kind bytes.now }
{
    match field(bytes) {
        Some((position, name)) if !name.is_empty() => Line::Symbol(kind, position, name),
        _ => Line::Malformed,
    }
}

// What the bytes of a line say, without its line feed.
#[tactic(auto, unfolding(crate::specs::Line::line_of), using(crate::proofs::Lines::line_parts, crate::proofs::Lines::line_whole, crate::proofs::Lines::line_empty))]
pub fn classify<'a>(bytes: &'a [u8]) -> Line<'a>
    ensures { content_of result ≡ line_of bytes.now }
{
    match bytes {
        [] => Line::Malformed,
        [letter, rest @ ..] => match char::from(*letter) {
            'i' => symbol(SymbolKind::Input, rest),
            'l' => symbol(SymbolKind::Latch, rest),
            'o' => symbol(SymbolKind::Output, rest),
            'c' if rest.is_empty() => Line::Comment,
            _ => numbers(bytes),
        },
    }
}

// The five numbers of a header, each by let .. else, by a rule of the project.
#[tactic(auto, unfolding(crate::specs::Line::five_of))]
fn five_numbers(bytes: &[u8]) -> Option<Header>
    ensures { result ≡ five_of bytes.now }
{
    let Some((maximum, rest)) = field(bytes) else {
        return None;
    };
    let Some((inputs, rest)) = field(rest) else {
        return None;
    };
    let Some((latches, rest)) = field(rest) else {
        return None;
    };
    let Some((outputs, rest)) = field(rest) else {
        return None;
    };
    let Some(gates) = number(rest) else {
        return None;
    };
    Some(Header {
        maximum,
        inputs,
        latches,
        outputs,
        gates,
    })
}

// What stands after the word `aag` and its space.
#[tactic(auto, unfolding(crate::specs::Line::after_word))]
fn after_word<'a>(bytes: &'a [u8]) -> Option<&'a [u8]>
    ensures { option_map (λ x. x.now) result ≡ after_word bytes.now }
{
    bytes.strip_prefix(b"aag ")
}

// The header that a file's first line is, without its line feed.
pub fn read_header(bytes: &[u8]) -> Option<Header>
    ensures { result ≡ header_of bytes.now }
{
    let Some(rest) = after_word(bytes) else {
        return None;
    };
    five_numbers(rest)
}
