// The answer to a DIMACS text.

ghost use Rattle.std.specs.Prelude.{◌≡◌, ℕ, ◌+◌, ◌*◌, ◌^◌, ◌<◌, length, IfOk};
ghost use Rattle.std.specs.Option.{option_map};
ghost use Rattle.dimacs.specs.Verdicts.{said, Decides, Settles};

use dimacs_text::{DimacsFault, Header, entries, load, read_header};
use literal::Literal;
use sat::{Answer, Solver};
use splitting::{Splitting, check};
use std::alloc::Global;

// The numbers that a solver takes for so many variables and entries: four for each variable and four more, and a cell for
// each entry.
fn memory(variables: usize, entries: usize) -> usize
    requires { variables < 65536 }
    ensures { entries < 2 ^ 63 → result ≡ 4 * (variables + 1) + entries }
{
    entries.saturating_add(4 * (variables + 1))
}

// Decides entries over so many variables, with the numbers as a solver's memory.
fn decide(
    entries: &[Literal],
    header: Header,
    numbers: &mut [u32],
    values: &mut [u8],
) -> Result<Answer, DimacsFault>
    ensures { IfOk result (λ a. Decides entries.now header (said values.new a)) }
{
    let variables = usize::from(header.variables);
    check(numbers.len(), variables)?;
    let mut solver = Splitting::new(numbers, variables);
    load(entries, usize::from(header.clauses), &mut solver)?;
    let answer = solver.decide(&[], values, &mut [])?;
    Ok(answer)
}

// Values that satisfy a text's clauses, a byte for each variable, or none where nothing does.
pub fn solve(heap: Global, text: &[u8]) -> Result<Option<Vec<u8>>, DimacsFault>
    ensures { IfOk result (λ r. Settles text.now (option_map (λ v. v.items) r)) }
{
    let (header, rest) = read_header(text)?;
    let entries = entries(heap, rest)?;
    let variables = usize::from(header.variables);
    let mut numbers = vec![in heap; 0u32; memory(variables, entries.len())]?;
    let mut values = vec![in heap; 0u8; variables + 1]?;
    match decide(&entries, header, &mut numbers, &mut values)? {
        Answer::Yes => Ok(Some(values)),
        Answer::No => Ok(None),
    }
}
