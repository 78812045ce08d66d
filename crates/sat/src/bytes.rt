// Bytes of a lent buffer.

ghost use Rattle.std.specs.Prelude.{◌≡◌, min, ◌++◌, length, drop, replicate};

// Writes a byte into the first `count` places, or into all where there are fewer.
pub fn fill_front(bytes: &mut [u8], count: usize, byte: u8)
    ensures { bytes.new ≡ replicate (min count (length bytes.old)) byte ++ drop count bytes.old }
{
    let end = count.min(bytes.len());
    bytes[..end].fill(byte);
}
