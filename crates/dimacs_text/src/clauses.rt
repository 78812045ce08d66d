// Clauses from entries into a solver.

ghost use Rattle.std.specs.Prelude.{◌≡◌, ℕ, ◌+◌, ◌<◌, ◌≤◌, List, [], ◌∷◌, ◌++◌, length, MatchOption, MatchResult};
ghost use Rattle.sat.specs.Clauses.{with_clauses};
ghost use Rattle.dimacs_text.specs.Entries.{end};
ghost use Rattle.dimacs_text.specs.Texts.{Endless, Loaded, Unloaded};

use crate::fault::DimacsFault;
use literal::Literal;
use sat::Solver;

// The first clause, and what stands after its 0.
fn clause<'a>(entries: &'a [Literal]) -> Option<(&'a [Literal], &'a [Literal])>
    ensures { MatchOption result (Endless entries.now) (λ p. (entries.now ≡ p.0.now ++ end ∷ p.1.now) × (length p.1.now < length entries.now)) }
{
    let place = entries.iter().position(|entry| entry.code == 0)?;
    Some((&entries[..place], &entries[place + 1..]))
}

// Holds the clauses of the entries, as many as were promised.
pub fn load<S: Solver>(entries: &[Literal], count: usize, solver: &mut S) -> Result<(), DimacsFault>
    ensures cases { MatchResult result (λ _. Loaded entries.now count (S.Solver.meaning solver.old) (S.Solver.meaning solver.new)) (λ e. Unloaded e entries.now count (S.Solver.meaning solver.old) (S.Solver.meaning solver.new)) }
    ensures same { S.Solver.meaning solver.new ≡ with_clauses (S.Solver.meaning solver.old) (S.Solver.meaning solver.new).clauses }
{
    let mut rest = entries;
    // Each turn may refuse its clause and leave, so the turns are counted here.
    let mut held = 0;
    while let Some((first, after)) = clause(rest) {
        solver.hold(first)?;
        held += 1;
        rest = after;
    }
    if !rest.is_empty() {
        return Err(DimacsFault::ClauseUnfinished);
    }
    if held != count {
        return Err(DimacsFault::CountWrong);
    }
    Ok(())
}
