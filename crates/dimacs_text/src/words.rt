// The words of a line.

ghost use Rattle.std.specs.Prelude.{◌≡◌, ℕ, ◌<◌, ◌≤◌, not, [], ◌∷◌, length, MatchOption, slice_index};
ghost use Rattle.std.specs.Iterator.{YieldsFirstRef, item_count};
ghost use Rattle.dimacs_text.specs.Words.{blank, words, comment, line_content};

fn is_blank(byte: u8) -> bool
    ensures { result ≡ blank byte }
{
    byte <= b' '
}

// The place of the first byte that is blank, or that is not, or the length.
fn first_place(bytes: &[u8], wanted: bool) -> usize
    ensures bound { result ≤ length bytes.now }
    ensures before { (k : ℕ) → k < result → blank (slice_index bytes.now k) ≡ not wanted }
    ensures here { result < length bytes.now → blank (slice_index bytes.now result) ≡ wanted }
{
    let place = bytes.iter().position(|byte| is_blank(*byte) == wanted);
    place.unwrap_or(bytes.len())
}

// The first word, and what stands after it.
fn first_word<'a>(bytes: &'a [u8]) -> Option<(&'a [u8], &'a [u8])>
    ensures { MatchOption result (words bytes.now ≡ []) (λ p. (words bytes.now ≡ p.0.now ∷ words p.1.now) × (length p.1.now < length bytes.now)) }
{
    let (_, rest) = bytes.split_at(first_place(bytes, false));
    if rest.is_empty() {
        return None;
    }
    Some(rest.split_at(first_place(rest, true)))
}

// The words of some bytes, one after another.
#[derive(Drop)]
pub struct Words<'a> {
    rest: &'a [u8],
}

impl<'a> Words<'a> {
    pub fn of(bytes: &'a [u8]) -> Words<'a>
        ensures { words result.rest.now ≡ words bytes.now }
    {
        Words { rest: bytes }
    }

    // What a line says: nothing where it is a comment.
    pub fn said(line: &'a [u8]) -> Words<'a>
        ensures { words result.rest.now ≡ line_content line.now }
    {
        if is_comment(line) {
            Words { rest: &[] }
        } else {
            Words { rest: line }
        }
    }
}

impl<'a> Iterator for Words<'a> {
    type Item = &'a [u8];

    ghost next_gives = { YieldsFirstRef (λ s. words s.rest.now) };

    ghost remaining = { item_count (λ s. words s.rest.now) };

    fn next(&mut self) -> Option<&'a [u8]> {
        let (word, rest) = first_word(self.rest)?;
        self.rest = rest;
        Some(word)
    }
}

fn is_comment(line: &[u8]) -> bool
    ensures { result ≡ comment line.now }
{
    matches!(line, [b'c', ..])
}
