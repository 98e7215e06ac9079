// So many bytes that are loaded from a slice, xored and stored together.
ghost use Rattle.std.specs.Prelude.{◌≡◌, ℕ, List, [], ◌∷◌, ◌+◌, ◌≤◌, length, refl};
ghost use Rattle.std.proofs.Common.{lit≤};
ghost use Rattle.blocks.specs.Block.{block_at, store};
ghost use Rattle.blocks.specs.Xor.{xor_b};

pub trait Wide: Copy {
    // How many bytes.
    const LEN: usize;

    ghost LEN: { ℕ };

    // The bytes, in order.
    ghost bytes: { Self → List ℕ };

    // Those of the source from `at` on.
    fn load(source: &[u8], at: usize) -> Self
        requires { at + LEN ≤ length source.now }
        ensures bytes { bytes result ≡ block_at source.now at LEN };

    // The xor of each with the one in its place.
    fn xor(self, other: Self) -> Self
        ensures bytes { bytes result ≡ xor_b (bytes self) (bytes other) };

    // Stores them in the target from `at` on.
    fn store(self, target: &mut [u8], at: usize)
        requires { at + LEN ≤ length target.old }
        ensures target { target.new ≡ store target.old at (bytes self) };

    ghost positive: { 1 ≤ LEN };

    ghost long: { (x : Self) → length (bytes x) ≡ LEN };
}

// A width of which four are a width again: four times as many bytes are still counted by a usize.
pub trait Quarter: Wide {
    ghost small: { Self.LEN ≤ 16 };
}

impl Wide for u8 {
    const LEN: usize = 1;

    ghost LEN = { 1 };

    ghost bytes = { λ x. x ∷ [] };

    ghost positive = { lit≤ tt };

    ghost long = { λ x. refl };

    fn load(source: &[u8], at: usize) -> u8 {
        source[at]
    }

    fn xor(self, other: u8) -> u8 {
        self ^ other
    }

    fn store(self, target: &mut [u8], at: usize) {
        target[at] = self;
    }
}

impl Quarter for u8 {
    ghost small = { lit≤ tt };
}
