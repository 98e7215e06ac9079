// Out, begin and continue, on a lent record. A refused call leaves it.
ghost use Rattle.std.specs.Prelude.{◌≡◌, []};
ghost use Rattle.calls.specs.Call.{out, begin, continue, on, number, count};
ghost use Rattle.calls.specs.Effect.{called};
ghost use Rattle.refusals.specs.Answers.{number_of, count_of};

use refusals::Refusal;
use state::Record;

pub fn out(rec: &mut Record, d: u64) -> Result<(), Refusal>
    ensures answer { number_of result ≡ number (called (on (out d) [] []) rec.entry.now).answer }
    ensures state { rec.exit.now ≡ (called (on (out d) [] []) rec.entry.now).state }
{
    *rec = repair::out(*rec, d)?;
    Ok(())
}

pub fn begin_rebuild(rec: &mut Record, images: &[u8], d: u64) -> Result<(), Refusal>
    ensures answer { number_of result ≡ number (called (on (begin d) images.now []) rec.entry.now).answer }
    ensures state { rec.exit.now ≡ (called (on (begin d) images.now []) rec.entry.now).state }
{
    *rec = repair::begin_rebuild(*rec, images, d)?;
    Ok(())
}

// Answers how many stripes it made.
pub fn continue_rebuild(rec: &mut Record, images: &mut [u8], k: u64) -> Result<u64, Refusal>
    ensures answer { (number_of result ≡ number (called (on (continue k) images.old []) rec.entry.now).answer)
        × (count_of result ≡ count (called (on (continue k) images.old []) rec.entry.now).answer) }
    ensures state { rec.exit.now ≡ (called (on (continue k) images.old []) rec.entry.now).state }
    ensures images { images.new ≡ (called (on (continue k) images.old []) rec.entry.now).images }
{
    let done = repair::continue_rebuild(*rec, images, k)?;
    *rec = done.rec;
    Ok(done.made)
}
