// Where the places of the images lie: disk 0 first, `stripes` blocks of len bytes to a disk.
ghost use Rattle.std.specs.Prelude.{◌≡◌, ◌≤◌, ◌<◌};
ghost use Rattle.blocks.specs.Stripe.{offset};

// Where the place of stripe s on disk d begins.
pub fn offset_of(stripes: usize, len: usize, s: usize, d: usize) -> usize
    requires { (1 ≤ len) × (offset len stripes s d < 18446744073709551616) }
    ensures start { result ≡ offset len stripes s d }
{
    (d * stripes + s) * len
}
