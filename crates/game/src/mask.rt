// Numbers under a mask.

ghost use Rattle.std.specs.Prelude.{◌≡◌};
ghost use Rattle.game.specs.Rows.{agrees};

// Whether the number has the value's bits at the mask. Two numbers, and no struct: rows and exceptions have them as fields.
pub fn agrees_on(care: u32, value: u32, number: u32) -> bool
    ensures { result ≡ agrees care value number }
{
    number & care == value
}
