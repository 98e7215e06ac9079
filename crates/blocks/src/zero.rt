// Whether bytes are zeroes: those of a run, and those of a stripe's sum, of which no more is looked at than up to the first part that is
// not.
ghost use Rattle.std.specs.Prelude.{◌≡◌, ◌+◌, ◌-◌, ◌≤◌, ◌<◌, length};
ghost use Rattle.blocks.specs.Block.{block_at, is_zeros};
ghost use Rattle.blocks.specs.Sum.{sum_to, GroupBegun, PartBegun};

use crate::sum::{HALF, PIECE, sum_part};
use crate::types::Group;

// Are the len bytes from at on zeroes? (An or of all of them, with no way out before the end: so the compiler takes many at once.)
pub fn is_zero(source: &[u8], at: usize, len: usize) -> bool
    requires { at + len ≤ length source.now }
    ensures zero { result ≡ is_zeros len (block_at source.now at len) }
{
    let mut any = 0;
    for b in &source[at..at + len] {
        any |= *b;
    }
    any == 0
}

// Are count bytes from at on, N at most, zeroes in the sum after the group?
fn part_cancels<const N: usize>(
    images: &[u8],
    x: Group,
    at: usize,
    count: usize,
    block: &[u8],
) -> bool
    requires { (count ≤ N) × (N ≤ PIECE) × PartBegun x images.now block.now at count }
    ensures { result ≡
        is_zeros count (block_at (sum_to (length block.now) images.now x x.last) at count) }
{
    let mut part = [0u8; N];
    sum_part(images, x, at, block, &mut part[..count]);
    is_zero(&part, 0, count)
}

// Those from at on, less than a piece?
fn rest_cancels(images: &[u8], x: Group, at: usize, block: &[u8]) -> bool
    requires { GroupBegun x images.now block.now × (at ≤ length block.now) × (length block.now < at + PIECE) }
    ensures { result ≡ is_zeros (length block.now - at)
        (block_at (sum_to (length block.now) images.now x x.last) at (length block.now - at)) }
{
    let left = block.len() - at;
    if left < HALF {
        return part_cancels::<HALF>(images, x, at, left, block);
    }
    part_cancels::<HALF>(images, x, at, HALF, block)
        && part_cancels::<HALF>(images, x, at + HALF, left - HALF, block)
}

// Is all of the sum after the group zero? Block has the sum of the disks before it; with no disk before it, it is not looked at.
pub fn cancels(images: &[u8], x: Group, block: &[u8]) -> bool
    requires { GroupBegun x images.now block.now }
    ensures zero { result ≡
        is_zeros (length block.now) (sum_to (length block.now) images.now x x.last) }
{
    let pieces = block.len() / PIECE;
    for i in 0..pieces {
        if !part_cancels::<PIECE>(images, x, i * PIECE, PIECE, block) {
            return false;
        }
    }
    rest_cancels(images, x, pieces * PIECE, block)
}
