// The view of `lent` on a record that stands in a local: it is lent, and only read.
ghost use Rattle.std.specs.Prelude.{◌≡◌};
ghost use Rattle.access.specs.Viewing.{begins};
ghost use Rattle.calls.specs.Call.{view, on, number, shown};
ghost use Rattle.calls.specs.Effect.{view_of, called};
ghost use Rattle.refusals.specs.Answers.{number_of};

use access::Viewed;
use state::Record;

pub fn view<'a>(r: Record, images: &'a [u8], b: u64, scratch: &'a mut [u8]) -> Viewed<'a>
    ensures view { result.view.now ≡ shown (called (on (view b) images.now scratch.old) r).answer }
    ensures place { result.view.ref_ptr ≡
        begins (number (called (on (view b) images.now scratch.old) r).answer) (view_of r b)
        images.entry.ref_ptr scratch.entry.ref_ptr }
    ensures number { number_of result.outcome ≡ number (called (on (view b) images.now scratch.old) r).answer }
    ensures scratch { result.left.now ≡ (called (on (view b) images.now scratch.old) r).room }
    ensures scratch_place { result.left.ref_ptr ≡ scratch.entry.ref_ptr }
{
    lent::view(&r, images, b, scratch)
}
