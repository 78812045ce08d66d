// The lines of a text.

ghost use Rattle.std.specs.Prelude.{◌≡◌, ◌∷◌};
ghost use Rattle.std.specs.Iterator.{YieldsFirstRef, item_count};
ghost use Rattle.dimacs_text.specs.Words.{lines, content};
ghost use Rattle.dimacs_text.specs.Lines.{lines_of, lines_left};

use text::cut;

// The first line, and what stands after its line feed; nothing after the last line.
fn first_line<'a>(text: &'a [u8]) -> (&'a [u8], Option<&'a [u8]>)
    ensures { lines text.now ≡ result.0.now ∷ lines_of result.1 }
{
    match cut(text, b'\n') {
        Some((line, rest)) => (line, Some(rest)),
        None => (text, None),
    }
}

// What is left of a text, line by line.
#[derive(Drop)]
pub struct Lines<'a> {
    rest: Option<&'a [u8]>,
}

impl<'a> Lines<'a> {
    pub fn of(text: &'a [u8]) -> Lines<'a>
        ensures { lines_left result ≡ lines text.now }
    {
        Lines { rest: Some(text) }
    }

    // What stands after the lines that were taken.
    pub fn rest(&self) -> &'a [u8]
        ensures { content (lines result.now) ≡ content (lines_left self.now) }
    {
        self.rest.unwrap_or(&[])
    }
}

impl<'a> Iterator for Lines<'a> {
    type Item = &'a [u8];

    ghost next_gives = { YieldsFirstRef lines_left };

    ghost remaining = { item_count lines_left };

    fn next(&mut self) -> Option<&'a [u8]> {
        let (line, rest) = first_line(self.rest?);
        self.rest = rest;
        Some(line)
    }
}
