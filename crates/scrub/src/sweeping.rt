// Document 02, (g): "The sweep stops there and gives the stripe and the stripes read (its number plus 1, or T where there is none)". It
// reads stripe by stripe, and of a stripe whose places do not xor to zero no more than up to the first piece that shows it (but all of the
// first 16 disks, where more are summed).
ghost use Rattle.std.specs.Prelude.{◌≡◌, cond, [], ◌+◌, ◌≤◌, ◌<◌, ltb, length};
ghost use Rattle.layout.specs.Layout.{open_stripes};
ghost use Rattle.blocks.specs.Block.{is_zeros};
ghost use Rattle.blocks.specs.Xor.{xor_all};
ghost use Rattle.state.specs.declared.types.Health.TheVariants.{Whole};
ghost use Rattle.state.specs.Good.{geometry};
ghost use Rattle.refusals.specs.Answers.{found_answer, swept_answer};
ghost use Rattle.calls.specs.Call.{sweep, on};
ghost use Rattle.calls.specs.Images.{disks_of, size, place_in};
ghost use Rattle.calls.specs.Sound.{seen_stripe, blanks_zero, is_sound, unsound_stripes};
ghost use Rattle.calls.specs.Effect.{swept_to, called};

use blocks::{GROUP, Group, cancels, is_zero, xor_others};
use placement::{Row, open_stripes};
use refusals::{Refusal, Swept, disks_of, of_sweep, place_at};
use state::{Array, Record, geometry_of};

// The stripes of an array with all disks in, as they stand in its images. The first `full` of them are the open ones.
#[derive(Clone, Copy)]
struct Stripes<'a> {
    array: Array,
    images: &'a [u8],
    full: u32,
    ghost whole: { array.rec.health ≡ Whole },
    ghost long: { length images.now ≡ size array.rec },
    ghost counted: { full ≡ open_stripes (geometry array.rec) },
}

impl Stripes<'_> {
    // Do the places of stripe s on the first k disks xor to zero? If they are many, the first are summed in block ahead of the others: side
    // by side, so many would be read more slowly.
    fn sums_to_zero(&self, k: usize, s: u32, block: &mut [u8]) -> bool
        requires { (k ≤ disks_of self.now.array.rec) × (s < self.now.array.rec.stripes) × (length block.old ≡ self.now.array.rec.block) }
        ensures answer { let x = self.now in
            result ≡ is_zeros x.array.rec.block (xor_all x.array.rec.block (seen_stripe x.array.rec x.images.now s k)) }
    {
        let stripes = self.array.rec.stripes as usize;
        let stripe = s as usize;
        let first = if GROUP < k {
            xor_others(self.images, GROUP, stripes, stripe, k, block);
            GROUP
        } else {
            0
        };
        let rest = Group {
            stripes,
            stripe,
            out: k,
            first,
            last: k,
        };
        cancels(self.images, rest, block)
    }

    // Is the place of stripe s on disk d zero?
    fn is_zero_on(&self, s: u32, d: u32) -> bool
        requires { (s < self.now.array.rec.stripes) × (d < disks_of self.now.array.rec) }
        ensures zero { result ≡ is_zeros self.now.array.rec.block (place_in self.now.array.rec self.now.images.now s d) }
    {
        let at = place_at(self.array, s, d);
        is_zero(self.images, at, self.array.rec.block as usize)
    }

    // Are the blanks of stripe s zero? The stripe is not open: they are no blocks yet. Each disk is asked for.
    fn blanks_are_zero(&self, s: u32) -> bool
        requires { (self.now.full ≤ s) × (s < self.now.array.rec.stripes) }
        ensures answer { result ≡ blanks_zero self.now.array.rec self.now.images.now s (disks_of self.now.array.rec) }
    {
        let x = Row::of(geometry_of(self.array.rec), s);
        let disks = disks_of(self.array.rec) as u32;
        (0..disks).all(|d| x.is_taken(d) || self.is_zero_on(s, d))
    }

    // The same a zone further on, where no move of the stripe's zone is made: the blanks are the new disks.
    fn new_are_zero(&self, s: u32) -> bool
        requires { (self.now.full + disks_of self.now.array.rec ≤ s) × (s < self.now.array.rec.stripes) }
        ensures answer { result ≡ blanks_zero self.now.array.rec self.now.images.now s (disks_of self.now.array.rec) }
    {
        let old = self.array.rec.old as u32;
        (old..old + self.array.rec.new as u32).all(|d| self.is_zero_on(s, d))
    }

    // The disks whose places are summed: all of them, or, after the first `begun` stripes, the old ones.
    fn summed_disks(&self, begun: u32, s: u32) -> usize
        ensures count { result ≡ cond (ltb s begun) (disks_of self.now.array.rec) self.now.array.rec.old }
    {
        if s < begun {
            disks_of(self.array.rec) as usize
        } else {
            self.array.rec.old as usize
        }
    }

    // Is stripe s sound? Of the first `full` stripes the blanks are blocks, and there is none to look at. Of the next zone, which may be in
    // progress, each disk is asked for. Further on the blanks are the new disks: they are looked at once, and with zeroes there the others
    // alone have to xor to zero. Further on is a whole zone after the open stripes, whether or not a move of that zone is made: one sum in
    // place of a division that rounds up, and right for both. (The sum of places is asked for at one place alone, so that the compiler puts
    // it there: with three, blocks of 64 bytes took 2.5 times as long.)
    fn is_sound(&self, s: u32, block: &mut [u8]) -> bool
        requires { (s < self.now.array.rec.stripes) × (length block.old ≡ self.now.array.rec.block) }
        ensures answer { result ≡ is_sound self.now.array.rec self.now.images.now s }
    {
        let begun = self.full + disks_of(self.array.rec) as u32;
        self.sums_to_zero(self.summed_disks(begun, s), s, block)
            && (s < self.full
                || if s < begun {
                    self.blanks_are_zero(s)
                } else {
                    self.new_are_zero(s)
                })
    }

    // Looks at stripe after stripe, up to the first that is unsound, with a block of its own to sum in.
    fn look(&self) -> Swept
        ensures answer { let x = self.now in
            found_answer result.unsound result.read ≡ swept_to x.array.rec.stripes (unsound_stripes x.array.rec x.images.now) }
    {
        let mut block = [0u8; 4096];
        let sum = &mut block[..self.array.rec.block as usize];
        for s in 0..self.array.rec.stripes {
            if !self.is_sound(s, sum) {
                return Swept {
                    unsound: Some(s as u64),
                    read: s as u64 + 1,
                };
            }
        }
        Swept {
            unsound: None,
            read: self.array.rec.stripes as u64,
        }
    }
}

pub fn sweep(r: Record, images: &[u8]) -> Result<Swept, Refusal>
    ensures answer { swept_answer result ≡ (called (on sweep images.now []) r).answer }
{
    let array = of_sweep(r, images.len())?;
    let stripes = Stripes {
        array,
        images,
        full: open_stripes(geometry_of(array.rec)),
    };
    Ok(stripes.look())
}
