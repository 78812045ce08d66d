// Marks of assumptions, after a no about the marked ones alone.

ghost use Rattle.std.specs.Prelude.{◌≡◌, ℕ, ◌<◌, ◌≤◌, true, length, drop, slice_index};
ghost use Rattle.literal.specs.Truth.{Values};
ghost use Rattle.sat.specs.Clauses.{all_true, marked};

use literal::Literal;

// Takes the marks of assumptions that were not marked again when the marked ones alone were asked about; the first ones
// keep theirs.
pub fn sift(assumed: &[Literal], first: usize, marks: &mut [u8], again: &[u8])
    requires { length assumed.now ≤ length marks.old }
    ensures bound { (k : ℕ) → slice_index marks.new k ≤ slice_index marks.old k }
    ensures fewer { (k : ℕ) → slice_index marks.new k ≡ 1 → slice_index marks.old k ≡ 1 }
    ensures firsts { (k : ℕ) → k < first → slice_index marks.new k ≡ slice_index marks.old k }
    ensures asks { (v : Values) → all_true v (marked assumed.now marks.new) ≡ true → all_true v (marked (marked assumed.now marks.old) again.now) ≡ true }
    ensures rest { drop (length assumed.now) marks.new ≡ drop (length assumed.now) marks.old }
{
    let mut again = again.iter();
    for (i, mark) in marks[..assumed.len()].iter_mut().enumerate() {
        if *mark == 1 && again.next() != Some(&1) && i >= first {
            *mark = 0;
        }
    }
}
