// The trail: which literals have been made true, in their order, and why.

ghost use Rattle.std.specs.Prelude.{◌≡◌, ◌↔◌, ◌+◌, ◌/◌, ◌%◌, ◌<◌, ◌≤◌, IsTrue, length, slice_index, slice_set};
ghost use Rattle.splitting.specs.Cells.{Holds, Unset};
ghost use Rattle.splitting.specs.Trails.{Kept, negation};
ghost use Rattle.splitting.specs.Reasons.{Small, number_of};

use crate::reason::Reason;

// A value, a literal and a reason are a number each, since a solver has four lent numbers for each variable.
#[derive(Drop)]
pub struct Trail<'a> {
    // By variable: 0 for no value yet, 1 for true, 2 for false.
    pub value: &'a mut [u32],
    // The literals that are true, and why, each as the number of a `Reason`.
    pub literals: &'a mut [u32],
    pub reasons: &'a mut [u32],
    // How many there are, and how many of them are assumptions, which come first.
    pub count: usize,
    pub base: usize,
    ghost kept: { Kept value.now literals.now count },
    ghost literal_room: { length literals.now ≡ length value.now },
    ghost reason_room: { length reasons.now ≡ length value.now },
    ghost based: { base ≤ count },
}

// The lent columns of a trail that is not made yet; their numbers may be any.
#[derive(Drop)]
pub struct Columns<'a> {
    pub value: &'a mut [u32],
    pub literals: &'a mut [u32],
    pub reasons: &'a mut [u32],
    ghost literal_room: { length literals.now ≡ length value.now },
    ghost reason_room: { length reasons.now ≡ length value.now },
}

impl<'a> Columns<'a> {
    // Columns without a place.
    pub fn none() -> Columns<'a>
        ensures { length result.value.now ≡ 0 }
    {
        Columns {
            value: &mut [],
            literals: &mut [],
            reasons: &mut [],
        }
    }
}

// The literal of the same variable and the other sign.
fn negated(literal: u32) -> u32
    ensures { result ≡ negation literal }
{
    literal ^ 1
}

impl<'a> Trail<'a> {
    ghost use Rattle.splitting.specs.Searches.{Writes};
    ghost use Rattle.splitting.specs.Columns.{Alike, cleared};

    // No literal is true.
    pub fn new(columns: Columns<'a>) -> Trail<'a>
        ensures made { Alike result (cleared columns.entry) }
        ensures size { length result.value.now ≡ length columns.entry.value.now }
        ensures count { result.count ≡ 0 }
    {
        let Columns {
            value,
            literals,
            reasons,
        } = columns;
        value.fill(0);
        Trail {
            value,
            literals,
            reasons,
            count: 0,
            base: 0,
        }
    }

    // Whether a literal is true.
    pub fn is_true(&self, literal: u32) -> bool
        requires { literal / 2 < length self.now.value.now }
        ensures { IsTrue result ↔ Holds self.now.value.now literal }
    {
        self.value[(literal / 2) as usize] == 1 + literal % 2
    }

    // Whether its variable has no value yet.
    pub fn is_unset(&self, literal: u32) -> bool
        requires { literal / 2 < length self.now.value.now }
        ensures { IsTrue result ↔ Unset self.now.value.now literal }
    {
        self.value[(literal / 2) as usize] == 0
    }

    // Makes a literal true.
    pub fn push(&mut self, literal: u32, reason: Reason)
        requires unset { Unset self.old.value.now literal }
        requires inside { literal / 2 < length self.old.value.now }
        requires small { Small reason }
        ensures value { self.new.value.now ≡ slice_set self.old.value.now (literal / 2) (1 + literal % 2) }
        ensures place { Writes self.old self.new self.old.count literal (number_of reason) }
    {
        self.literals[self.count] = literal;
        self.reasons[self.count] = reason.number();
        self.value[(literal / 2) as usize] = 1 + literal % 2;
        self.count += 1;
    }

    // Gives up the places from the last down to `place`.
    fn undo(&mut self, place: usize)
        requires based { self.old.base ≤ place }
        requires below { place ≤ self.old.count }
        ensures size { length self.new.value.now ≡ length self.old.value.now }
        ensures literals { self.new.literals.now ≡ self.old.literals.now }
        ensures reasons { self.new.reasons.now ≡ self.old.reasons.now }
        ensures count { self.new.count ≡ place }
        ensures base { self.new.base ≡ self.old.base }
        ensures unset { place < self.old.count → Unset self.new.value.now (slice_index self.old.literals.now place) }
    {
        for i in (place..self.count).rev() {
            self.value[(self.literals[i] / 2) as usize] = 0;
            self.count = i;
        }
    }

    // Gives up every place.
    pub fn clear(&mut self)
        ensures size { length self.new.value.now ≡ length self.old.value.now }
        ensures count { self.new.count ≡ 0 }
    {
        self.base = 0;
        self.undo(0);
    }

    // Turns an open decision round, and says the place of the cells before which every clause was satisfied then.
    pub fn turn(&mut self, place: usize) -> usize
        requires based { self.old.base ≤ place }
        requires below { place < self.old.count }
        requires open { slice_index self.old.reasons.now place % 2 ≡ 1 }
        ensures place { Writes self.old self.new place (negation (slice_index self.old.literals.now place)) 0 }
        ensures front { result ≡ slice_index self.old.reasons.now place / 2 }
    {
        let Reason::Open(front) = Reason::from(self.reasons[place]) else {
            unreachable!()
        };
        let literal = negated(self.literals[place]);
        self.undo(place);
        self.push(literal, Reason::Turned);
        front
    }
}
