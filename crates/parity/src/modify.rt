// A write folded into the parity over its old block (a read-modify-write), in one pass: each byte of the parity is stored once. Lanes are
// loaded and stored whole: before a plain loop the compiler puts a test for overlap of each of three pairs, which costs a block of 64 bytes
// 17 instructions.
ghost use Rattle.std.specs.Prelude.{◌≡◌, ◌+◌, ◌-◌, ◌≤◌, ◌<◌, length};
ghost use Rattle.blocks.specs.Block.{store, Disjoint};
ghost use Rattle.parity.specs.Fold.{folded, part_modified, ModifyInside};

use lanes::{Lane, Wide};

// Stores the new parity from `first` on in parts of this width, as many as there are. Answers where they end. (Stays a while: it goes on
// by a width, and a for over the parts has their number to count first, and their places to work out.)
fn modify_as<W: Wide>(
    images: &mut [u8],
    parity: usize,
    at: usize,
    bytes: &[u8],
    first: usize,
) -> usize
    requires { ModifyInside parity at (length bytes.now) (length images.old) × (first ≤ length bytes.now) }
    ensures end { (first ≤ result) × (result ≤ length bytes.now) × (length bytes.now < result + W.LEN) }
    ensures images { images.new ≡ part_modified images.old parity at bytes.now first (result - first) }
{
    let mut i = first;
    while W::LEN <= bytes.len() - i {
        let without = W::load(images, parity + i).xor(W::load(images, at + i));
        without.xor(W::load(bytes, i)).store(images, parity + i);
        i += W::LEN;
    }
    i
}

// Folds a write of bytes at `at` into the parity, from `parity` on. The bytes themselves are not stored.
pub fn fold_parity(images: &mut [u8], parity: usize, at: usize, bytes: &[u8])
    requires { (parity + length bytes.now ≤ length images.old) × (at + length bytes.now ≤ length images.old)
        × Disjoint parity (length bytes.now) at (length bytes.now) }
    ensures images { images.new ≡
        store images.old parity (folded images.old parity at bytes.now) }
{
    let lanes = modify_as::<Lane>(images, parity, at, bytes, 0);
    modify_as::<u8>(images, parity, at, bytes, lanes);
}
