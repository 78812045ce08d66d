// What a roll does. Every call leaves the places lent by the same lender.

ghost use Rattle.std.specs.Prelude.{◌≡◌, [], length, replicate};
ghost use Rattle.roll.specs.Rolls.{items_of, table_of, lender_of, Given, Appended};

use crate::fault::RollFault;
use crate::roll::Roll;

impl<'a, T> Roll<'a, T> {
    // A roll over lent places, none of them used. What they hold stays.
    pub fn new(places: &'a mut [T]) -> Roll<'a, T>
        ensures items { items_of result ≡ [] }
        ensures table { table_of result ≡ places.old }
        ensures lender { lender_of result ≡ places.entry.ghost_name }
    {
        Roll { places, used: 0 }
    }

    // How many places are used.
    pub fn count(&self) -> usize
        ensures { result ≡ length (items_of self.now) }
    {
        self.items().len()
    }

    // How many places there are.
    pub fn places(&self) -> usize
        ensures { result ≡ length (table_of self.now) }
    {
        self.places.len()
    }

    // The used elements, in order.
    pub fn items(&self) -> &[T]
        ensures { result.now ≡ items_of self.now }
    {
        &self.places[..self.used]
    }
}

impl<'a, T: Copy> Roll<'a, T> {
    // The element at a used place.
    pub fn at(&self, place: usize) -> Result<T, RollFault>
        ensures { Given (items_of self.now) place result }
    {
        self.items().get(place).copied().ok_or(RollFault::NotUsed)
    }

    // Puts an element at the first place that is not used.
    pub fn append(&mut self, x: T) -> Result<(), RollFault>
        ensures cases { Appended self.old x result self.new }
        ensures lender { lender_of self.new ≡ lender_of self.old }
    {
        if self.used == self.places.len() {
            return Err(RollFault::Full);
        }
        self.places[self.used] = x;
        self.used += 1;
        Ok(())
    }

    // Writes the blank element into every place, and uses none.
    pub fn clear(&mut self, blank: T)
        ensures items { items_of self.new ≡ [] }
        ensures table { table_of self.new ≡ replicate (length (table_of self.old)) blank }
        ensures lender { lender_of self.new ≡ lender_of self.old }
    {
        // `fill` asks for a clone that cannot fail, which `T: Copy` does not say.
        for place in self.places.iter_mut() {
            *place = blank;
        }
        self.used = 0;
    }
}
