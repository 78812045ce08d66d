// A mask read off marks.

ghost use Rattle.std.specs.Prelude.{◌≡◌, take};
ghost use Rattle.encoding.specs.Literals.{care_of};

use bits::number;

// The mask of the places whose mark is 1, of the first 32 places.
pub fn care_of(marks: &[u8]) -> u32
    ensures { result ≡ care_of (take 32 marks.now) }
{
    number(&marks[..marks.len().min(32)], |mark| *mark == 1)
}
