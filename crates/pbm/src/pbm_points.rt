// Scan points, packed before a write and unpacked after a read. They are lent no record and no images.
ghost use Rattle.std.specs.Prelude.{◌≡◌};
ghost use Rattle.packing.specs.Number.{number_of};
ghost use Rattle.points.specs.Answer.{answer, filled};
ghost use Rattle.points.specs.Points.{packed, unpacked};

use packing::BadPoints;

#[unsafe(no_mangle)]
pub extern "C" fn pbm_points_pack(source: &[u8], target: &mut [u8]) -> u8
    ensures answer { result ≡ answer source.now target.old }
    ensures source { source.exit.now ≡ source.entry.now }
    ensures target { target.new ≡ filled packed source.now target.old }
{
    number(packing::pack(source, target))
}

#[unsafe(no_mangle)]
pub extern "C" fn pbm_points_unpack(source: &[u8], target: &mut [u8]) -> u8
    ensures answer { result ≡ answer source.now target.old }
    ensures source { source.exit.now ≡ source.entry.now }
    ensures target { target.new ≡ filled unpacked source.now target.old }
{
    number(packing::unpack(source, target))
}

// 0, or the number of the refusal.
fn number(done: Result<(), BadPoints>) -> u8
    ensures number { result ≡ number_of done }
{
    match done {
        Ok(()) => 0,
        Err(e) => u8::from(e),
    }
}
