// Document 01: "**Format** (n, B, T): zeroes the images; record whole, m = t = 0."
ghost use Rattle.std.specs.Prelude.{◌≡◌, [], length};
ghost use Rattle.refusals.specs.Answers.{changed_answer, changed_record};
ghost use Rattle.calls.specs.Call.{format, feed, on};
ghost use Rattle.calls.specs.Table.{refusal_of};
ghost use Rattle.calls.specs.Effect.{act, called};

use blocks::zero_block;
use refusals::{Refusal, of_format};
use state::{Record, formatted};

// The call once the table lets it through: zeroes everywhere, and a record anew. (One run of bytes, where the definition has a store for
// each block: that it is the same is `zeroed` of crate `calls`.)
fn clear(images: &mut [u8], n: u64, block: u64, stripes: u64) -> Record
    requires { (r : Record) → refusal_of r (feed (format n block stripes) (length images.old) 0) ≡ 0 }
    ensures state { (r : Record) → result ≡ (act (on (format n block stripes) images.old []) r).state }
    ensures images { (r : Record) → images.new ≡ (act (on (format n block stripes) images.old []) r).images }
{
    let len = images.len();
    zero_block(images, 0, len);
    formatted(n as u8, block as u16, stripes as u32)
}

// It is lent any record r, and looks at none.
pub fn format(images: &mut [u8], n: u64, block: u64, stripes: u64) -> Result<Record, Refusal>
    ensures answer { (r : Record) → changed_answer result ≡ (called (on (format n block stripes) images.old []) r).answer }
    ensures state { (r : Record) → changed_record r result ≡ (called (on (format n block stripes) images.old []) r).state }
    ensures images { (r : Record) → images.new ≡
        (called (on (format n block stripes) images.old []) r).images }
{
    of_format(images.len(), n, block, stripes)?;
    Ok(clear(images, n, block, stripes))
}
