// The sizes of a solver over so many borrowed numbers.

ghost use Rattle.std.specs.Prelude.{◌≡◌, ◌+◌, ◌*◌, ◌≤◌};
ghost use Rattle.std.specs.Result.{result_err};
ghost use Rattle.splitting.specs.Sizes.{sizes_fit, size_fault, variables_over, cells_over, column_over};

use sat::SolverFault;

// The most variables.
pub const MAX_VARIABLES: usize = 8192;

fn sizes_fit(numbers: usize, variables: usize) -> bool
    ensures { result ≡ sizes_fit numbers variables }
{
    variables <= MAX_VARIABLES && 4 * (variables + 1) <= numbers
}

// Whether a solver for variables 1 to a number can be made over so many numbers.
pub fn check(numbers: usize, variables: usize) -> Result<(), SolverFault>
    ensures { result_err result ≡ size_fault numbers variables }
{
    sizes_fit(numbers, variables)
        .then_some(())
        .ok_or(SolverFault::SizeUnfit)
}

// The largest variable, the numbers of each of the search's four columns, and the cells.
#[derive(Default)]
pub struct Sizes {
    pub variables: usize,
    pub column: usize,
    pub cells: usize,
}

// Where they do not fit, each is 0.
pub fn sizes_over(numbers: usize, variables: usize) -> Sizes
    ensures variables { result.variables ≡ variables_over numbers variables }
    ensures column { result.column ≡ column_over numbers variables }
    ensures cells { result.cells ≡ cells_over numbers variables }
    ensures bound { 4 * result.column + result.cells ≤ numbers }
{
    let sizes = sizes_fit(numbers, variables).then(|| Sizes {
        variables,
        column: variables + 1,
        cells: numbers - 4 * (variables + 1),
    });
    sizes.unwrap_or_default()
}
