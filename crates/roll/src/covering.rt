// The search for the first element that covers a point, one text for every kind of element.

ghost use Rattle.std.specs.Prelude.{◌≡◌, Bool};
ghost use Rattle.roll.specs.First.{First, OnlyFirst};

// An element that covers some points and not others.
pub trait Covering {
    type Point;

    // Which points an element covers.
    ghost covering: { Self → Self.Point → Bool };

    fn covers(&self, point: &Self::Point) -> bool
        ensures value { result ≡ covering self.now point.now };
}

// The place of the first element that covers the point.
pub fn first_covering<C: Covering>(items: &[C], point: &C::Point) -> Option<usize>
    ensures cases { First (λ x. C.Covering.covering x point.now) items.now result }
    ensures only { OnlyFirst (λ x. C.Covering.covering x point.now) items.now result }
{
    items.iter().position(|item| item.covers(point))
}
