// The entries of a text.

ghost use Rattle.std.specs.Prelude.{◌≡◌, ◌++◌, MatchResult};
ghost use Rattle.dimacs_text.specs.Words.{line_content, lines, content};
ghost use Rattle.dimacs_text.specs.Entries.{spellings, Unread};

use crate::entry::entry;
use crate::fault::DimacsFault;
use crate::lines::Lines;
use crate::words::Words;
use literal::Literal;
use std::alloc::Global;

// Puts the entries of a line at the end.
fn push_line(line: &[u8], entries: &mut Vec<Literal>) -> Result<(), DimacsFault>
    ensures { MatchResult result (λ _. spellings entries.new.items ≡ spellings entries.old.items ++ line_content line.now) (λ e. Unread e (line_content line.now)) }
{
    for word in Words::said(line) {
        let Some(entry) = entry(word) else {
            return Err(DimacsFault::EntryMalformed);
        };
        entries.push(entry)?;
    }
    Ok(())
}

// The entries of a text's words, comments left out.
pub fn entries(heap: Global, text: &[u8]) -> Result<Vec<Literal>, DimacsFault>
    ensures { MatchResult result (λ v. spellings v.items ≡ content (lines text.now)) (λ e. Unread e (content (lines text.now))) }
{
    let mut entries = Vec::new(heap);
    for line in Lines::of(text) {
        push_line(line, &mut entries)?;
    }
    Ok(entries)
}
