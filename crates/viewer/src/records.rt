// Calls of `lent` on a record that stands in a local: it is lent, and what the call leaves in it is returned; by a refused call, as it was.
ghost use Rattle.std.specs.Prelude.{◌≡◌, []};
ghost use Rattle.calls.specs.Call.{format, grow, advance, out, begin, continue, on};
ghost use Rattle.calls.specs.Effect.{called};

use state::Record;

// With m disks more.
pub fn grown(mut r: Record, images: &mut [u8], m: u64) -> Record
    ensures state { result ≡ (called (on (grow m) images.old []) r).state }
    ensures images { images.new ≡ (called (on (grow m) images.old []) r).images }
{
    let _ = lent::grow(&mut r, images, m);
    r
}

// With k more moves made.
pub fn moved(mut r: Record, images: &mut [u8], k: u64) -> Record
    ensures state { result ≡ (called (on (advance k) images.old []) r).state }
    ensures images { images.new ≡ (called (on (advance k) images.old []) r).images }
{
    let _ = lent::advance(&mut r, images, k);
    r
}

// With disk d being rebuilt.
pub fn begun(mut r: Record, images: &[u8], d: u64) -> Record
    ensures state { result ≡ (called (on (begin d) images.now []) r).state }
{
    let _ = lent::begin_rebuild(&mut r, images, d);
    r
}

// With k more stripes rebuilt.
pub fn rebuilt(mut r: Record, images: &mut [u8], k: u64) -> Record
    ensures state { result ≡ (called (on (continue k) images.old []) r).state }
    ensures images { images.new ≡ (called (on (continue k) images.old []) r).images }
{
    let _ = lent::continue_rebuild(&mut r, images, k);
    r
}

// With disk d out.
pub fn without(mut r: Record, d: u64) -> Record
    ensures state { result ≡ (called (on (out d) [] []) r).state }
{
    let _ = lent::out(&mut r, d);
    r
}

// As a format leaves it.
pub fn formatted(mut r: Record, images: &mut [u8], n: u64, block: u64, stripes: u64) -> Record
    ensures state { result ≡ (called (on (format n block stripes) images.old []) r).state }
    ensures images { images.new ≡ (called (on (format n block stripes) images.old []) r).images }
{
    let _ = lent::format(&mut r, images, n, block, stripes);
    r
}
