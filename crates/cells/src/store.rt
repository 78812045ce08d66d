// Lent numbers as cells, of which the first ones hold clauses.

ghost use Rattle.std.specs.Prelude.{◌≡◌, ◌+◌, ◌-◌, ◌<◌, ◌≤◌, [], ◌∷◌, ◌++◌, length, take, drop};
ghost use Rattle.cells.specs.Cells.{codes, clauses, Coded, Small};

use literal::Literal;

// The cells in use hold `count` clauses and nothing else. Lent numbers, and no Vec: a solver takes no heap.
#[derive(Drop)]
pub struct Cells<'a> {
    pub(crate) numbers: &'a mut [u32],
    pub(crate) used: usize,
    pub(crate) count: usize,
    pub ghost within: { used ≤ length numbers.now },
    pub ghost coded: { Coded (take used numbers.now) },
    pub ghost small: { Small (take used numbers.now) },
    pub ghost counted: { count ≡ length (clauses (take used numbers.now)) },
}

// Writes a clause's cells.
fn write_clause(cells: &mut [u32], clause: &[Literal])
    requires room { length clause.now < length cells.old }
    requires short { length clause.now ≤ 64 }
    ensures after { cells.new ≡ (length clause.now ∷ codes clause.now) ++ drop (1 + length clause.now) cells.old }
    ensures small { Small (codes clause.now) }
{
    cells[0] = clause.len() as u32;
    // By index: after writing through iter_mut().zip nothing is known of the cells.
    for (i, literal) in clause.iter().enumerate() {
        cells[1 + i] = u32::from(literal.code);
    }
}

impl<'a> Cells<'a> {
    ghost use Rattle.sat.specs.Clauses.{cells_of};
    ghost use Rattle.cells.specs.Held.{held, room};

    // Every number is a cell, and no clause is held yet.
    #[tactic(auto, using(crate::proofs::Codes::clauses_none))]
    pub fn new(numbers: &'a mut [u32]) -> Cells<'a>
        ensures clauses { held result ≡ [] }
        ensures room { room result ≡ length numbers.old }
    {
        Cells {
            numbers,
            used: 0,
            count: 0,
        }
    }

    // Puts a clause at the end.
    #[tactic(auto, using(crate::proofs::Stores::used_is, crate::proofs::Stores::count_used))]
    pub fn push(&mut self, clause: &[Literal])
        requires room { length clause.now < room self.old - cells_of (held self.old) }
        requires short { length clause.now ≤ 64 }
        ensures after { held self.new ≡ held self.old ++ clause.now ∷ [] }
        ensures room { room self.new ≡ room self.old }
    {
        write_clause(&mut self.numbers[self.used..], clause);
        self.used += 1 + clause.len();
        self.count += 1;
    }

    // Leaves the first `kept` clauses.
    pub fn cut(&mut self, kept: usize)
        ensures after { held self.new ≡ take kept (held self.old) }
        ensures room { room self.new ≡ room self.old }
        ensures same { self.new.numbers.now ≡ self.old.numbers.now }
    {
        let mut used = 0;
        for clause in self.clauses().take(kept) {
            used += 1 + clause.len();
        }
        self.used = used;
        self.count = self.count.min(kept);
    }
}
