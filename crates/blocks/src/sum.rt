// The xor of all places of a stripe but one disk's: the disks in groups, the block in parts. A part stays in registers from disk to disk,
// where a sum disk by disk would be loaded and stored again for each. The first group begins from zeroes: the block is not cleared before.
// (GroupBegun and PartBegun stay clauses: they tie group, images and block, and a struct of the three would have to be made for each part.)
ghost use Rattle.std.specs.Prelude.{◌≡◌, ◌+◌, ◌*◌, ◌≤◌, ◌<◌, length};
ghost use Rattle.blocks.specs.Block.{block_at, zeros};
ghost use Rattle.blocks.specs.Stripe.{others};
ghost use Rattle.blocks.specs.Sum.{sum_to, GroupInside, GroupBegun, PartBegun, part_added};

use crate::copy::store_bytes;
use crate::place::offset_of;
use crate::types::Group;
use crate::xor::xor_out;

// The bytes that are summed at once: as many as there is room for in registers.
pub(crate) const PIECE: usize = 128;

// Half a piece, which serves blocks of 64 bytes.
pub(crate) const HALF: usize = 64;

// The disks that are read side by side: with more streams than these, reading gets slower.
pub const GROUP: usize = 16;

// Takes part, the bytes from at on of a block of len, from the sum before the group to the sum after it.
fn add_disks(images: &[u8], x: Group, len: usize, at: usize, part: &mut [u8])
    requires { GroupInside x len (length images.now) × (at + length part.old ≤ len)
        × (part.old ≡ block_at (sum_to len images.now x x.first) at (length part.old)) }
    ensures { part.new ≡ block_at (sum_to len images.now x x.last) at (length part.old) }
{
    for d in x.first..x.last {
        if d != x.out {
            xor_out(images, offset_of(x.stripes, len, x.stripe, d) + at, part);
        }
    }
}

// Sets part, which is zeroes, to the bytes from at on of the sum after the group. Block has the sum before the group, if that has disks.
pub(crate) fn sum_part(images: &[u8], x: Group, at: usize, block: &[u8], part: &mut [u8])
    requires { (part.old ≡ zeros (length part.old)) × PartBegun x images.now block.now at (length part.old) }
    ensures { part.new ≡ block_at (sum_to (length block.now) images.now x x.last) at (length part.old) }
{
    if x.first != 0 {
        xor_out(block, at, part);
    }
    add_disks(images, x, block.len(), at, part);
}

// Takes count bytes of block from at on, N at most, from the sum before the group to the sum after it.
fn add_part<const N: usize>(images: &[u8], x: Group, at: usize, count: usize, block: &mut [u8])
    requires { (count ≤ N) × (N ≤ PIECE) × PartBegun x images.now block.old at count }
    ensures { block.new ≡ part_added x images.now block.old at count }
{
    let mut part = [0u8; N];
    let part = &mut part[..count];
    sum_part(images, x, at, block, part);
    store_bytes(block, at, part);
}

// The same for the whole pieces of block. Answers where they end.
fn add_pieces(images: &[u8], x: Group, block: &mut [u8]) -> usize
    requires { GroupBegun x images.now block.old }
    ensures { (result ≤ length block.old) × (length block.old < result + PIECE)
        × (block.new ≡ part_added x images.now block.old 0 result) }
{
    let len = block.len();
    let mut at = 0;
    // (Stays a while: with a `for` over the pieces a sum of 64 bytes took 10 % more instructions.)
    while PIECE <= len - at {
        add_part::<PIECE>(images, x, at, PIECE, block);
        at += PIECE;
    }
    at
}

// The same for all of block.
fn add_group(images: &[u8], x: Group, block: &mut [u8])
    requires { GroupBegun x images.now block.old }
    ensures { block.new ≡ sum_to (length block.old) images.now x x.last }
{
    let len = block.len();
    let at = add_pieces(images, x, block);
    if HALF <= len - at {
        add_part::<HALF>(images, x, at, HALF, block);
        let rest = at + HALF;
        add_part::<HALF>(images, x, rest, len - rest, block);
        return;
    }
    add_part::<HALF>(images, x, at, len - at, block);
}

// Sets block to the xor of the places of stripe s on all disks but `out`. (The numbers stay apart, as those who call have them.)
pub fn xor_others(
    images: &[u8],
    disks: usize,
    stripes: usize,
    s: usize,
    out: usize,
    block: &mut [u8],
)
    requires { (1 ≤ length block.old) × (1 ≤ disks) × (s < stripes) × (disks * (stripes * length block.old) ≤ length images.now) }
    ensures block { block.new ≡ others (length block.old) stripes images.now s disks out }
{
    let mut first = 0;
    // (Stays a while: with `step_by` a rebuild of blocks of 64 bytes took 4 % more instructions.)
    while first < disks {
        let last = first + GROUP.min(disks - first);
        let x = Group {
            stripes,
            stripe: s,
            out,
            first,
            last,
        };
        add_group(images, x, block);
        first = last;
    }
}
