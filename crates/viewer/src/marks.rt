// Blocks that can be told apart.
ghost use Rattle.std.specs.Prelude.{◌≤◌, ◌≡◌};
ghost use Rattle.viewer.specs.Marks.{mark, marked};

use state::Record;

// The bytes of block b.
pub fn mark(b: u64) -> [u8; 4]
    requires { b ≤ 105 }
    ensures { result ≡ mark b }
{
    let first = b as u8;
    [first, first + 50, first + 100, first + 150]
}

// Writes the first `count` blocks.
pub fn write_marks(r: Record, images: &mut [u8], count: u64)
    requires { count ≤ 105 }
    ensures { images.new ≡ marked r images.old count }
{
    for b in 0..count {
        let _ = access::write(r, images, b, &mark(b));
    }
}
