// One block zeroed, stored, copied or moved. A read and a move copy through a block of their own, of 4,096 bytes, the longest that there
// is: the compiler, which cannot tell two lent slices apart, then makes one `memmove` of the two copies, and no block.
ghost use Rattle.std.specs.Prelude.{◌≡◌, ◌+◌, ◌≤◌, length};
ghost use Rattle.blocks.specs.Block.{block_at, store, copied_to, zeros};

// Zeroes the len bytes from at on.
pub fn zero_block(images: &mut [u8], at: usize, len: usize)
    requires { at + len ≤ length images.old }
    ensures images { images.new ≡ store images.old at (zeros len) }
{
    // (Not `fill`, which stores the last byte apart: a growth of blocks of 64 bytes took 3 % more instructions.)
    for b in &mut images[at..at + len] {
        *b = 0;
    }
}

// Stores bytes into the target, from at on, each of them once.
pub fn store_bytes(target: &mut [u8], at: usize, bytes: &[u8])
    requires { at + length bytes.now ≤ length target.old }
    ensures target { target.new ≡ store target.old at bytes.now }
{
    // (Not `copy_from_slice`, a `memmove`, which may store a byte twice; and a write has no block of its own: document 02, (c).)
    for (i, b) in bytes.iter().enumerate() {
        target[at + i] = *b;
    }
}

// Fills block with the images' bytes from at on.
pub fn copy_out(images: &[u8], at: usize, block: &mut [u8])
    requires { (length block.old ≤ 4096) × (at + length block.old ≤ length images.now) }
    ensures block { block.new ≡ block_at images.now at (length block.old) }
{
    // (Not `copy_from_slice` alone, which tests for overlap: a read of 64 bytes took 6 % more instructions.)
    let mut own = [0u8; 4096];
    let own = &mut own[..block.len()];
    own.copy_from_slice(&images[at..at + block.len()]);
    block.copy_from_slice(own);
}

// Copies the block at `from` to `to`, and zeroes the place it left.
pub fn move_block(images: &mut [u8], from: usize, to: usize, len: usize)
    requires { (len ≤ 4096) × (from + len ≤ length images.old) × (to + len ≤ length images.old) }
    ensures images { images.new ≡
        store (copied_to images.old to images.old from len) from (zeros len) }
{
    // (Not `copy_within`, which is a loop: a growth took 5 to 17 % more instructions.)
    let mut own = [0u8; 4096];
    let own = &mut own[..len];
    own.copy_from_slice(&images[from..from + len]);
    images[to..to + len].copy_from_slice(own);
    zero_block(images, from, len);
}
