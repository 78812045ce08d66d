// What masks and signs pick of literals, put into tables.

ghost use Rattle.std.specs.Prelude.{◌≡◌, ◌≤◌, ◌++◌, length, map, take};
ghost use Rattle.literal.specs.Truth.{negation_of};
ghost use Rattle.encoding.specs.Clauses.{not_all};
ghost use Rattle.encoding.specs.Literals.{signed, with_signs, cared};

use literal::Literal;
use sat::{Literals, MAX_LITERALS};

// The literal as it is for a 1, and negated for a 0.
fn signed_as(literal: Literal, bit: bool) -> Literal
    ensures { result ≡ signed bit literal }
{
    if bit { literal } else { literal.negation() }
}

// Puts the literals with the signs of the number's bits.
pub fn push_signed(table: &mut Literals, literals: &Literals, mut number: u32)
    ensures { table.new ≡ take 64 (table.old ++ with_signs literals.now number) }
{
    // Bits are taken off the number one by one, since no iterator gives them.
    for literal in literals.as_slice() {
        table.push(signed_as(*literal, number % 2 == 1));
        number /= 2;
    }
    prove!(table.as_slice().len() <= MAX_LITERALS);
}

// Puts those at the bits of the mask, with the signs of the value's bits. Apart from push_signed, which has
// no mask: a mask of ones ends at 32 literals, so one by the other is no plainer.
pub fn push_cared(table: &mut Literals, literals: &Literals, mut care: u32, mut value: u32)
    ensures { table.new ≡ take 64 (table.old ++ cared literals.now care value) }
{
    for literal in literals.as_slice() {
        if care % 2 == 1 {
            table.push(signed_as(*literal, value % 2 == 1));
        }
        care /= 2;
        value /= 2;
    }
    prove!(table.as_slice().len() <= MAX_LITERALS);
}

// The negation of each.
pub fn negations(literals: &Literals) -> Literals
    ensures { result ≡ map negation_of literals.now }
{
    let literals = literals.as_slice();
    Literals::of(literals.iter().map(|literal| literal.negation()))
}

// The clause that not all of what the mask picks are true.
pub fn outside(literals: &Literals, care: u32, value: u32) -> Literals
    requires { length literals.now ≤ 32 }
    ensures { result ≡ not_all (cared literals.now care value) }
{
    let mut inside = Literals::none();
    push_cared(&mut inside, literals, care, value);
    negations(&inside)
}
