// Tests of the three kinds of solver: the same questions put to each, the answers of outside solvers, and every refusal's edge.
#![tactic(auto)]

#[cfg(test)]
mod cases;

#[cfg(test)]
mod tests {
    use super::cases::*;
    use counting::Counting;
    use literal::Literal;
    use narrowing::Narrowing;
    use sat::{Answer, NarrowingSolver, Solver, SolverFault};
    use splitting::Splitting;
    use std::process::Abort;
    use std::test::Fail;

    fn lit(code: u16) -> Literal {
        Literal { code }
    }

    // Whether a solver that holds nothing says yes to a case, by deciding and by narrowing alike.
    fn says_yes<S: NarrowingSolver>(
        rt: &impl Abort,
        solver: &mut S,
        case: &Case,
    ) -> Result<bool, Fail> {
        for clause in case.clauses {
            solver.hold(&clause.map(lit))?;
        }
        let assumed = case.assumed.map(lit);
        let mut values = [7u8; 16];
        let mut marks = [7u8; 2];
        let decided = solver.decide(&assumed, &mut values, &mut marks)?;
        let narrowed = solver.narrow(&assumed, 0, &mut values, &mut marks)?;
        assert_eq!(rt; decided, narrowed);
        Ok(decided == Answer::Yes)
    }

    #[test]
    fn counting_agrees(rt: HostRuntime) -> Result<(), Fail> {
        for case in &CASES {
            let mut numbers = [0u32; 256];
            assert_eq!(rt;
                says_yes(&rt, &mut Counting::new(&mut numbers, case.variables), case)?,
                case.yes
            );
        }
        Ok(())
    }

    #[test]
    fn splitting_agrees(rt: HostRuntime) -> Result<(), Fail> {
        for case in &CASES {
            let mut numbers = [0u32; 256];
            let below = Splitting::new(&mut numbers, case.variables);
            assert_eq!(rt; says_yes(&rt, &mut Narrowing::new(below), case)?, case.yes);
        }
        Ok(())
    }

    #[test]
    fn layer_agrees(rt: HostRuntime) -> Result<(), Fail> {
        for case in &CASES {
            let mut numbers = [0u32; 256];
            let below = Counting::new(&mut numbers, case.variables);
            assert_eq!(rt; says_yes(&rt, &mut Narrowing::new(below), case)?, case.yes);
        }
        Ok(())
    }

    // Clauses [2,4] and [3] give 1 false and 2 true; with assumption 5 no, with 5 marked.
    fn worked<S: NarrowingSolver>(rt: &impl Abort, solver: &mut S) -> Result<(), Fail> {
        solver.hold(&[lit(2), lit(4)])?;
        solver.hold(&[lit(3)])?;
        let mut values = [7u8; 4];
        let mut marks = [7u8; 2];
        assert_eq!(rt; solver.decide(&[], &mut values, &mut marks)?, Answer::Yes);
        assert_eq!(rt; values, [0, 0, 1, 7]);
        assert_eq!(rt; marks, [7, 7]);
        assert_eq!(rt;
            solver.narrow(&[lit(3), lit(5)], 0, &mut values, &mut marks)?,
            Answer::No
        );
        assert_eq!(rt; values, [0, 0, 0, 7]);
        assert_eq!(rt; marks, [0, 1]);
        assert_eq!(rt;
            solver.narrow(&[lit(3), lit(5)], 1, &mut values, &mut marks)?,
            Answer::No
        );
        assert_eq!(rt; marks, [1, 1]);
        Ok(())
    }

    #[test]
    fn worked_by_each(rt: HostRuntime) -> Result<(), Fail> {
        let mut numbers = [0u32; 64];
        worked(&rt, &mut Counting::new(&mut numbers, 2))?;
        worked(&rt, &mut Narrowing::new(Counting::new(&mut numbers, 2)))?;
        worked(&rt, &mut Narrowing::new(Splitting::new(&mut numbers, 2)))
    }

    // The edges of every refusal of a solver with 3 variables and 20 cells that holds nothing.
    fn refuses<S: NarrowingSolver>(rt: &impl Abort, solver: &mut S) -> Result<(), Fail> {
        let mut values = [7u8; 4];
        let mut marks = [7u8; 64];
        assert_eq!(rt;
            solver.hold(&[lit(2), lit(1)]),
            Err(SolverFault::VariableOutOfRange)
        );
        assert_eq!(rt;
            solver.hold(&[lit(8)]),
            Err(SolverFault::VariableOutOfRange)
        );
        assert_eq!(rt;
            solver.hold(&[lit(2); 65]),
            Err(SolverFault::TooManyLiterals)
        );
        assert_eq!(rt; solver.hold(&[lit(2); 20]), Err(SolverFault::CellsFull));
        solver.hold(&[lit(7); 19])?;
        assert_eq!(rt; solver.hold(&[]), Err(SolverFault::CellsFull));
        assert_eq!(rt; solver.keep(2), Err(SolverFault::CountExceeded));
        assert_eq!(rt;
            solver.decide(&[lit(0)], &mut values, &mut marks),
            Err(SolverFault::VariableOutOfRange)
        );
        assert_eq!(rt;
            solver.decide(&[lit(2); 65], &mut values, &mut marks),
            Err(SolverFault::TooManyLiterals)
        );
        assert_eq!(rt;
            solver.decide(&[lit(6)], &mut values[0..3], &mut marks),
            Err(SolverFault::BufferShort)
        );
        assert_eq!(rt;
            solver.decide(&[lit(6)], &mut values, &mut marks[0..0]),
            Err(SolverFault::BufferShort)
        );
        assert_eq!(rt;
            solver.narrow(&[lit(6)], 2, &mut values, &mut marks),
            Err(SolverFault::FirstExceeded)
        );
        assert_eq!(rt; values, [7; 4]);
        assert_eq!(rt; marks, [7; 64]);
        assert_eq!(rt;
            solver.decide(&[lit(2); 64], &mut values, &mut marks)?,
            Answer::Yes
        );
        assert_eq!(rt; values, [0, 1, 0, 0]);
        Ok(())
    }

    #[test]
    fn refused_by_each(rt: HostRuntime) -> Result<(), Fail> {
        let mut numbers = [0u32; 20];
        refuses(&rt, &mut Counting::new(&mut numbers, 3))?;
        refuses(&rt, &mut Narrowing::new(Counting::new(&mut numbers, 3)))?;
        let mut more = [0u32; 36];
        refuses(&rt, &mut Narrowing::new(Splitting::new(&mut more, 3)))
    }

    // No variables, no clauses; then the empty clause, which nothing satisfies; then nothing again.
    fn empty<S: NarrowingSolver>(rt: &impl Abort, solver: &mut S) -> Result<(), Fail> {
        let mut values = [7u8; 1];
        assert_eq!(rt; solver.decide(&[], &mut values, &mut [])?, Answer::Yes);
        assert_eq!(rt; values, [0]);
        solver.hold(&[])?;
        assert_eq!(rt; solver.decide(&[], &mut values, &mut [])?, Answer::No);
        solver.keep(0)?;
        assert_eq!(rt; solver.decide(&[], &mut values, &mut [])?, Answer::Yes);
        Ok(())
    }

    #[test]
    fn empty_in_each(rt: HostRuntime) -> Result<(), Fail> {
        let mut numbers = [0u32; 5];
        empty(&rt, &mut Counting::new(&mut numbers, 0))?;
        empty(&rt, &mut Narrowing::new(Counting::new(&mut numbers, 0)))?;
        empty(&rt, &mut Narrowing::new(Splitting::new(&mut numbers, 0)))
    }

    // Contradictory and repeated assumptions: one of two that are the same is dropped.
    fn contradicted<S: NarrowingSolver>(rt: &impl Abort, solver: &mut S) -> Result<(), Fail> {
        let mut values = [7u8; 2];
        let mut marks = [7u8; 3];
        assert_eq!(rt;
            solver.narrow(&[lit(2), lit(2), lit(3)], 0, &mut values, &mut marks)?,
            Answer::No
        );
        assert_eq!(rt; marks[2], 1);
        assert_eq!(rt; marks[0] != marks[1], true);
        Ok(())
    }

    #[test]
    fn contradicted_in_each(rt: HostRuntime) -> Result<(), Fail> {
        let mut numbers = [0u32; 8];
        contradicted(&rt, &mut Counting::new(&mut numbers, 1))?;
        contradicted(&rt, &mut Narrowing::new(Counting::new(&mut numbers, 1)))?;
        contradicted(&rt, &mut Narrowing::new(Splitting::new(&mut numbers, 1)))
    }

    // What no contract says: a solver is made in the same time over more numbers.
    #[test]
    fn making_writes_no_number(rt: HostRuntime) {
        let mut numbers = [7u32; 64];
        let made = Splitting::new(&mut numbers, 3);
        assert_eq!(rt; made.variables(), 3);
        assert_eq!(rt; numbers, [7u32; 64]);
    }

    // The first question clears what the numbers held before, and a later one what the one before it set.
    #[test]
    fn questions_leave_nothing(rt: HostRuntime) -> Result<(), Fail> {
        let mut numbers = [1u32; 64];
        let mut solver = Splitting::new(&mut numbers, 2);
        solver.hold(&[2, 4].map(lit))?;
        solver.hold(&[3].map(lit))?;
        let mut values = [7u8; 3];
        let mut marks = [7u8; 2];
        assert_eq!(rt; solver.decide(&[], &mut values, &mut marks)?, Answer::Yes);
        assert_eq!(rt; values, [0, 0, 1]);
        assert_eq!(rt;
            solver.decide(&[5].map(lit), &mut values, &mut marks)?,
            Answer::No
        );
        assert_eq!(rt; marks, [1, 7]);
        assert_eq!(rt;
            solver.decide(&[4].map(lit), &mut values, &mut marks)?,
            Answer::Yes
        );
        assert_eq!(rt; values, [0, 0, 1]);
        assert_eq!(rt;
            solver.decide(&[2, 4].map(lit), &mut values, &mut marks)?,
            Answer::No
        );
        assert_eq!(rt; marks, [1, 0]);
        Ok(())
    }

    #[test]
    fn checks(rt: HostRuntime) {
        assert_eq!(rt; counting::check(0, 20), Ok(()));
        assert_eq!(rt; counting::check(0, 21), Err(SolverFault::SizeUnfit));
        assert_eq!(rt; splitting::check(16, 3), Ok(()));
        assert_eq!(rt; splitting::check(15, 3), Err(SolverFault::SizeUnfit));
        assert_eq!(rt; splitting::check(100000, 8192), Ok(()));
        assert_eq!(rt; splitting::check(100000, 8193), Err(SolverFault::SizeUnfit));
        let mut numbers = [0u32; 15];
        let turned_down = Splitting::new(&mut numbers, 3);
        assert_eq!(rt; (turned_down.variables(), turned_down.cells()), (0, 0));
        let turned_down = Counting::new(&mut numbers, 21);
        assert_eq!(rt; (turned_down.variables(), turned_down.cells()), (0, 0));
    }
}
