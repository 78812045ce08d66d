// A roll: a lent table of places, of which the first some are used.

ghost use Rattle.std.specs.Prelude.{◌≤◌, length};

pub mod calls;

// A slice and a count, and no Vec: the caller lends the places.
#[derive(Drop)]
pub struct Roll<'a, T> {
    places: &'a mut [T],
    used: usize,
    ghost within: { used ≤ length places.now },
}
