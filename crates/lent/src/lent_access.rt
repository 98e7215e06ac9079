// The calls that reach one block. The record is lent, and only read.
ghost use Rattle.std.specs.Prelude.{◌≡◌, []};
ghost use Rattle.access.specs.Viewing.{begins};
ghost use Rattle.calls.specs.Call.{read, view, write, on, number, shown};
ghost use Rattle.calls.specs.Effect.{view_of, called};
ghost use Rattle.refusals.specs.Answers.{number_of};

use access::Viewed;
use refusals::Refusal;
use state::Record;

pub fn read(rec: &Record, images: &[u8], b: u64, block: &mut [u8]) -> Result<(), Refusal>
    ensures answer { number_of result ≡ number (called (on (read b) images.now block.old) rec.now).answer }
    ensures block { block.new ≡ (called (on (read b) images.now block.old) rec.now).room }
{
    access::read(*rec, images, b, block)
}

pub fn view<'a>(rec: &Record, images: &'a [u8], b: u64, scratch: &'a mut [u8]) -> Viewed<'a>
    ensures view { result.view.now ≡ shown (called (on (view b) images.now scratch.old) rec.now).answer }
    ensures place { result.view.ref_ptr ≡
        begins (number (called (on (view b) images.now scratch.old) rec.now).answer) (view_of rec.now b)
        images.entry.ref_ptr scratch.entry.ref_ptr }
    ensures number { number_of result.outcome ≡
        number (called (on (view b) images.now scratch.old) rec.now).answer }
    ensures scratch { result.left.now ≡
        (called (on (view b) images.now scratch.old) rec.now).room }
    ensures scratch_place { result.left.ref_ptr ≡ scratch.entry.ref_ptr }
{
    access::view(*rec, images, b, scratch)
}

pub fn write(rec: &Record, images: &mut [u8], b: u64, bytes: &[u8]) -> Result<(), Refusal>
    ensures answer { number_of result ≡
        number (called (on (write b bytes.now) images.old []) rec.now).answer }
    ensures images { images.new ≡
        (called (on (write b bytes.now) images.old []) rec.now).images }
{
    access::write(*rec, images, b, bytes)
}
