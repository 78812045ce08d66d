// Worked cases of what clauses mean, as one fact.

ghost use Rattle.sat.specs.Worked.{WorkedSolver};

pub fn worked_cases()
    ensures { WorkedSolver }
{}
