// The xor of a run of the images into a lent block.
ghost use Rattle.std.specs.Prelude.{◌≡◌, ◌+◌, ◌≤◌, length};
ghost use Rattle.blocks.specs.Block.{block_at};
ghost use Rattle.blocks.specs.Xor.{xor_b};

// Xors the images' bytes from at on into block.
pub(crate) fn xor_out(images: &[u8], at: usize, block: &mut [u8])
    requires { at + length block.old ≤ length images.now }
    ensures { block.new ≡ xor_b block.old (block_at images.now at (length block.old)) }
{
    for (i, b) in block.iter_mut().enumerate() {
        *b ^= images[at + i];
    }
}
