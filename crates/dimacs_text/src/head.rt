// The header of a text.

ghost use Rattle.std.specs.Prelude.{◌≡◌, ℕ, ◌≤◌, List, [], ◌∷◌, MatchBool, MatchOption, MatchResult, ◌≢◌};
ghost use Rattle.text.specs.Number.{decimal};
ghost use Rattle.dimacs_text.specs.Words.{words, line_content};
ghost use Rattle.dimacs_text.specs.Headers.{header_words, NoHeader, Headed, Headless};

use crate::fault::DimacsFault;
use crate::lines::Lines;
use crate::words::Words;
use text::number;

// How many variables and clauses there are.
#[derive(Clone, Copy, PartialEq, Eq, Debug)]
pub struct Header {
    pub variables: u16,
    pub clauses: u16,
}

// Takes the next word, and tells whether it is the wanted one.
fn takes(left: &mut Words<'_>, wanted: &[u8]) -> bool
    ensures { MatchBool result (words left.old.rest.now ≡ wanted.now ∷ words left.new.rest.now) ((ws : List (List ℕ)) → words left.old.rest.now ≢ wanted.now ∷ ws) }
{
    left.next().is_some_and(|word| word == wanted)
}

// Takes the next word, and gives the number that it spells.
fn take_number(left: &mut Words<'_>) -> Option<u16>
    ensures { MatchOption result ((v : ℕ) (ws : List (List ℕ)) → v ≤ 65535 → words left.old.rest.now ≢ decimal v ∷ ws) (λ n. (words left.old.rest.now ≡ decimal n ∷ words left.new.rest.now) × (n ≤ 65535)) }
{
    number(left.next()?)
}

// The header that a line is.
fn header_line(line: &[u8]) -> Option<Header>
    ensures { MatchOption result (NoHeader (words line.now)) (λ h. words line.now ≡ header_words h) }
{
    let mut words = Words::of(line);
    if !takes(&mut words, b"p") || !takes(&mut words, b"cnf") {
        return None;
    }
    let variables = take_number(&mut words)?;
    let clauses = take_number(&mut words)?;
    match words.next() {
        None => Some(Header { variables, clauses }),
        Some(_) => None,
    }
}

// Whether a line says nothing.
fn is_silent(line: &[u8]) -> bool
    ensures { MatchBool result (line_content line.now ≡ []) ((line_content line.now ≡ words line.now) × (words line.now ≢ [])) }
{
    Words::said(line).next().is_none()
}

// The header of a text, and what stands after its line.
pub fn read_header<'a>(text: &'a [u8]) -> Result<(Header, &'a [u8]), DimacsFault>
    ensures { MatchResult result (λ p. Headed text.now p.0 p.1.now) (λ e. Headless e text.now) }
{
    let mut lines = Lines::of(text);
    // A loop, and no `find`: tried, and three goals stayed open where the loop has an invariant of a line.
    while let Some(line) = lines.next() {
        if !is_silent(line) {
            let header = header_line(line).ok_or(DimacsFault::HeaderMalformed)?;
            return Ok((header, lines.rest()));
        }
    }
    Err(DimacsFault::HeaderMissing)
}
