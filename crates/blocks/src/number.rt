// Bytes as a number, least byte first. (Not by `from_le_bytes`, which takes an array: a write, which reads a record's numbers, has none.)
ghost use Rattle.std.specs.Prelude.{◌≡◌};
ghost use Rattle.blocks.specs.Number.{two, four};

// Two of them.
pub fn join_two(a: u8, b: u8) -> u16
    ensures number { result ≡ two a b }
{
    (a as u16) + 256 * (b as u16)
}

// Four of them.
pub fn join_four(a: u8, b: u8, c: u8, d: u8) -> u32
    ensures number { result ≡ four a b c d }
{
    (a as u32) + 256 * (b as u32) + 65536 * (c as u32) + 16777216 * (d as u32)
}
