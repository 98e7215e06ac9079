// Document 01: "**Grow** (m): given images of n + m disks, zeroes those behind the first n; sets m."
ghost use Rattle.std.specs.Prelude.{◌≡◌, [], length};
ghost use Rattle.refusals.specs.Answers.{changed_answer, changed_record};
ghost use Rattle.calls.specs.Call.{grow, feed, on};
ghost use Rattle.calls.specs.Table.{refusal_of};
ghost use Rattle.calls.specs.Effect.{act, called};

use blocks::zero_block;
use refusals::{Refusal, of_grow};
use state::{Record, grown_by};

// The call once the table lets it through. (Zeroes as one run, as in a format.)
fn attach_disks(r: Record, images: &mut [u8], m: u64) -> Record
    requires { refusal_of r (feed (grow m) (length images.old) 0) ≡ 0 }
    ensures state { result ≡ (act (on (grow m) images.old []) r).state }
    ensures images { images.new ≡ (act (on (grow m) images.old []) r).images }
{
    let len = images.len();
    let at = r.old as usize * (r.stripes as usize * r.block as usize);
    zero_block(images, at, len - at);
    grown_by(r, m as u8)
}

pub fn grow(r: Record, images: &mut [u8], m: u64) -> Result<Record, Refusal>
    ensures answer { changed_answer result ≡ (called (on (grow m) images.old []) r).answer }
    ensures state { changed_record r result ≡ (called (on (grow m) images.old []) r).state }
    ensures images { images.new ≡ (called (on (grow m) images.old []) r).images }
{
    of_grow(r, images.len(), m)?;
    Ok(attach_disks(r, images, m))
}
