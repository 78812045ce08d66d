// A table of literals.

ghost use Rattle.std.specs.Prelude.{◌≡◌, ◌≤◌, List, [], ◌∷◌, ◌++◌, length, take};
ghost use Rattle.std.specs.Iterator.{IsFinite, Drains};
ghost use Rattle.literal.specs.declared.Literal.{Literal as Element};

use crate::check::MAX_LITERALS;
use arrayvec::ArrayVec;
use literal::Literal;
use std::marker::Model;

// A clause as it is built, or assumptions: up to 64 literals. Past 64 the table takes no more.
#[derive(Drop)]
pub struct Literals {
    items: ArrayVec<Literal, MAX_LITERALS>,
}

impl Model for Literals {
    ghost use Rattle.std.specs.Prelude.{◌≤◌, List, length};
    ghost use Rattle.literal.specs.declared.Literal.{Literal as Element};

    ghost Value = { List Element };

    ghost view = { λ s. s.items.items };

    ghost invariant = { λ s. length s.items.items ≤ 64 };
}

impl Literals {
    pub fn none() -> Literals
        ensures { result ≡ [] }
    {
        Literals {
            items: ArrayVec::new(),
        }
    }

    // A table of the first 64 of these literals.
    pub fn of<I: Iterator<Item = Literal> + Drop>(literals: I) -> Literals
        requires can { I.can_next literals }
        requires ends { IsFinite (I.remaining literals) }
        ensures { (xs : List Element) × Drains I.next_gives literals xs × (result ≡ take 64 xs) }
    {
        let mut table = Literals::none();
        table.extend(literals);
        table
    }

    // Puts a literal at the end, if there is room.
    pub fn push(&mut self, literal: Literal)
        ensures { self.new ≡ take 64 (self.old ++ literal ∷ []) }
    {
        if !self.items.is_full() {
            self.items.push(literal);
        }
    }

    // Puts literals at the end, one after another, as far as there is room.
    pub fn extend<I: Iterator<Item = Literal> + Drop>(&mut self, literals: I)
        requires can { I.can_next literals }
        requires ends { IsFinite (I.remaining literals) }
        ensures { (xs : List Element) × Drains I.next_gives literals xs × (self.new ≡ take 64 (self.old ++ xs)) }
    {
        prove!(self.as_slice().len() <= MAX_LITERALS);
        for literal in literals {
            self.push(literal);
        }
    }

    pub fn as_slice(&self) -> &[Literal]
        ensures value { result.now ≡ self.now }
        ensures bound { length result.now ≤ 64 }
    {
        self.items.as_slice()
    }
}
