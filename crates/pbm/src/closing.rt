// The end of a call that may change the record.
ghost use Rattle.std.specs.Prelude.{◌≡◌, length};
ghost use Rattle.state.specs.Bytes.{record_length};
ghost use Rattle.refusals.specs.Answers.{number_of};
ghost use Rattle.pbm.specs.Closing.{bytes_left, bytes_counted};

use refusals::{Progress, Refusal};
use state::{Record, encode};

// Writes the bytes of the record that the call has left, if it was accepted, and else leaves what is there. Answers the number.
pub(crate) fn close(rec: &mut [u8], x: Result<Record, Refusal>) -> u8
    requires { length rec.old ≡ record_length }
    ensures answer { result ≡ number_of x }
    ensures state { rec.new ≡ bytes_left x rec.old }
{
    match x {
        Ok(r) => {
            encode(r, rec);
            0
        }
        Err(e) => u8::from(e),
    }
}

// The same of a call that reports how many moves or stripes it made, and stores that itself.
pub(crate) fn close_counted(rec: &mut [u8], x: Result<Progress, Refusal>) -> u8
    requires { length rec.old ≡ record_length }
    ensures answer { result ≡ number_of x }
    ensures state { rec.new ≡ bytes_counted x rec.old }
{
    match x {
        Ok(done) => close(rec, Ok(done.rec)),
        Err(e) => close(rec, Err(e)),
    }
}
