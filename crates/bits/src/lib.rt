// Numbers as lists of bits, the lowest first.
#![tactic(auto)]

ghost use Rattle.std.specs.Prelude.{◌≤◌, length};
ghost use Rattle.bits.specs.Bits.{IsNumberOf};

// The number whose bit j is what `is_one` answers at item j.
pub fn number<T, F: Fn(&T) -> bool>(items: &[T], is_one: F) -> u32
    requires callable { F.IsAlwaysCallable is_one }
    requires few { length items.now ≤ 32 }
    ensures { IsNumberOf F.Fn is_one items.now result }
{
    let mut number = 0;
    for (j, item) in items.iter().enumerate() {
        number += u32::from(is_one(item)) << j;
    }
    number
}
