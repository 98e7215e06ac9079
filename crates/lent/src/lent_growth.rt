// Format, grow and advance, on a lent record. A refused call leaves it.
ghost use Rattle.std.specs.Prelude.{◌≡◌, []};
ghost use Rattle.calls.specs.Call.{format, grow, advance, on, number, count};
ghost use Rattle.calls.specs.Effect.{called};
ghost use Rattle.refusals.specs.Answers.{number_of, count_of};

use refusals::Refusal;
use state::Record;

pub fn format(
    rec: &mut Record,
    images: &mut [u8],
    n: u64,
    block: u64,
    stripes: u64,
) -> Result<(), Refusal>
    ensures answer { number_of result ≡ number (called (on (format n block stripes) images.old []) rec.entry.now).answer }
    ensures state { rec.exit.now ≡ (called (on (format n block stripes) images.old []) rec.entry.now).state }
    ensures images { images.new ≡
        (called (on (format n block stripes) images.old []) rec.entry.now).images }
{
    *rec = growth::format(images, n, block, stripes)?;
    Ok(())
}

pub fn grow(rec: &mut Record, images: &mut [u8], m: u64) -> Result<(), Refusal>
    ensures answer { number_of result ≡ number (called (on (grow m) images.old []) rec.entry.now).answer }
    ensures state { rec.exit.now ≡ (called (on (grow m) images.old []) rec.entry.now).state }
    ensures images { images.new ≡ (called (on (grow m) images.old []) rec.entry.now).images }
{
    *rec = growth::grow(*rec, images, m)?;
    Ok(())
}

// Answers how many moves it made.
pub fn advance(rec: &mut Record, images: &mut [u8], k: u64) -> Result<u64, Refusal>
    ensures answer { (number_of result ≡ number (called (on (advance k) images.old []) rec.entry.now).answer)
        × (count_of result ≡ count (called (on (advance k) images.old []) rec.entry.now).answer) }
    ensures state { rec.exit.now ≡ (called (on (advance k) images.old []) rec.entry.now).state }
    ensures images { images.new ≡ (called (on (advance k) images.old []) rec.entry.now).images }
{
    let done = growth::advance(*rec, images, k)?;
    *rec = done.rec;
    Ok(done.made)
}
