// One entry: a literal, or the 0 after a clause.

ghost use Rattle.std.specs.Prelude.{◌≡◌, ℕ, ◌<◌, ◌≤◌, MatchOption, ◌≢◌};
ghost use Rattle.text.specs.Number.{decimal};
ghost use Rattle.dimacs_text.specs.Entries.{spelling, Writable, Unspelled};

use literal::Literal;
use text::number;

// The largest variable that a literal's code can hold.
const LAST_VARIABLE: u16 = u16::MAX / 2;

// The variable that some digits spell.
fn variable(digits: &[u8]) -> Option<u16>
    ensures { MatchOption result ((v : ℕ) → v ≤ 32767 → digits.now ≢ decimal v) (λ v. (digits.now ≡ decimal v) × (v ≤ 32767)) }
{
    number(digits).filter(|variable| *variable <= LAST_VARIABLE)
}

// The entry that a word spells.
pub fn entry(word: &[u8]) -> Option<Literal>
    ensures { MatchOption result (Unspelled word.now) (λ l. (word.now ≡ spelling l) × Writable l) }
{
    let [b'-', digits @ ..] = word else {
        let variable = variable(word)?;
        return Some(Literal { code: 2 * variable });
    };
    let variable = variable(digits)?;
    if variable == 0 {
        return None;
    }
    Some(Literal {
        code: 2 * variable + 1,
    })
}
