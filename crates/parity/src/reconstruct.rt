// A write whose disk is out, folded into the parity straight from the other disks (a reconstruct-write): the bytes xor the places of all
// disks but two. No byte of a block is held but in registers, and each byte of the parity is stored once. The sum of each width is called
// at one place alone, so that the compiler puts it there and keeps its struct of bytes in registers. Called at two places, it would have
// all go through memory: so reads and rebuilds, which sum into a lent block, cannot share it. Four lanes spread the cost of the loop over
// the disks. Eight were faster in cache, slower out of it with 32 disks, and one more copy of it all. That the loops over 64, 16 and single
// bytes follow each other, and are no choice in one loop, is for speed too.
ghost use Rattle.std.specs.Prelude.{◌≡◌, ◌≢◌, ◌+◌, ◌-◌, ◌≤◌, ◌<◌, length};
ghost use Rattle.blocks.specs.Block.{block_at};
ghost use Rattle.blocks.specs.Xor.{xor_b};
ghost use Rattle.blocks.specs.Stripe.{PlaceInside};
ghost use Rattle.parity.specs.Fold.{folded_others, counted, gapped, GappedInside, FoldInside, part_folded};

use crate::types::Gapped;
use blocks::offset_of;
use lanes::{Lane, Quad, Wide};

// Whether disk d is neither of the two gaps.
#[tactic(auto, unfolding(crate::specs::Fold::counted))]
fn is_counted(g: Gapped, d: usize) -> bool
    ensures { result ≡ counted g d }
{
    d != g.out && d != g.parity
}

// The xor of x and, from at on, as many bytes of each place that is counted.
fn sum_wide<W: Wide>(images: &[u8], g: Gapped, at: usize, x: W) -> W
    requires { GappedInside g (length images.now) × (at + W.LEN ≤ g.len) }
    ensures { W.bytes result ≡ xor_b (W.bytes x) (block_at (gapped g images.now) at W.LEN) }
{
    let mut sum = x;
    for d in 0..g.disks {
        if is_counted(g, d) {
            let from = offset_of(g.stripes, g.len, g.stripe, d) + at;
            sum = sum.xor(W::load(images, from));
        }
    }
    sum
}

// Stores the new parity from `first` on in parts of this width, as many as there are. Answers where they end. (Stays a while: it goes on
// by a width, and a for over the parts has their number to count first, and their places to work out.)
fn fold_as<W: Wide>(images: &mut [u8], g: Gapped, bytes: &[u8], first: usize) -> usize
    requires { FoldInside g (length images.old) (length bytes.now) × (first ≤ g.len) }
    ensures end { (first ≤ result) × (result ≤ g.len) × (g.len < result + W.LEN) }
    ensures images { images.new ≡ part_folded g images.old bytes.now first (result - first) }
{
    let to = offset_of(g.stripes, g.len, g.stripe, g.parity);
    let mut at = first;
    while W::LEN <= g.len - at {
        let sum = sum_wide(images, g, at, W::load(bytes, at));
        sum.store(images, to + at);
        at += W::LEN;
    }
    at
}

// Folds a write of bytes to the place of stripe s on disk `out` into the parity, the stripe's place on disk `parity`: the xor of the other
// disks stands for the old block, and the old parity, which is one of them, cancels. The bytes themselves are not stored. (It cancels only
// if the two disks differ. That no block stands on its parity's disk the caller has from crate `layout`.)
pub fn fold_others(
    images: &mut [u8],
    disks: usize,
    stripes: usize,
    s: usize,
    out: usize,
    parity: usize,
    bytes: &[u8],
)
    requires { PlaceInside (length bytes.now) stripes s parity disks (length images.old) × (out ≢ parity) }
    ensures images { images.new ≡ folded_others stripes images.old s disks out parity bytes.now }
{
    let g = Gapped {
        disks,
        stripes,
        len: bytes.len(),
        stripe: s,
        out,
        parity,
    };
    let quads = fold_as::<Quad>(images, g, bytes, 0);
    let lanes = fold_as::<Lane>(images, g, bytes, quads);
    fold_as::<u8>(images, g, bytes, lanes);
}
