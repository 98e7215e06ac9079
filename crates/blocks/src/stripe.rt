// A rebuild by the xor of all places of a stripe but one disk's. The images have `disks` disks of `stripes` blocks, each as long as the
// block that is lent.
ghost use Rattle.std.specs.Prelude.{◌≡◌, length};
ghost use Rattle.blocks.specs.Block.{store};
ghost use Rattle.blocks.specs.Stripe.{offset, PlaceInside, others};

use crate::place::offset_of;
use crate::sum::xor_others;

// Writes the place of stripe s on disk `out` as the xor of the stripe's other places, through the lent block.
pub fn rebuild_place(
    images: &mut [u8],
    disks: usize,
    stripes: usize,
    s: usize,
    out: usize,
    block: &mut [u8],
)
    requires { PlaceInside (length block.old) stripes s out disks (length images.old) }
    ensures images { images.new ≡ store images.old (offset (length block.old) stripes s out)
        (others (length block.old) stripes images.old s disks out) }
    ensures block { block.new ≡ others (length block.old) stripes images.old s disks out }
{
    let len = block.len();
    let at = offset_of(stripes, len, s, out);
    xor_others(images, disks, stripes, s, out, block);
    images[at..at + len].copy_from_slice(block);
}
