// How many states, events and answers a region's model has.

ghost use Rattle.std.specs.Prelude.{◌≡◌};
ghost use Rattle.region.specs.Parts.{arena_in};

use crate::region::Region;

impl<'a> Region<'a> {
    // There can be 2^32 states, one more than a u32 holds.
    pub fn states(&self) -> u64
        ensures { result ≡ (arena_in self.now).states }
    {
        self.model.states()
    }

    pub fn events(&self) -> u32
        ensures { result ≡ (arena_in self.now).events }
    {
        self.model.events()
    }

    pub fn answers(&self) -> u32
        ensures { result ≡ (arena_in self.now).answers }
    {
        self.model.answers()
    }
}
